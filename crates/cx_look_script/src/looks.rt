//! What is written for a look.
ghost use Rattle.std.specs.Prelude.{◌≡◌, IfOk};
ghost use Rattle.cx_look.specs.declared.look.Look.TheVariants as look;
ghost use Rattle.cx_look_script.specs.Looking.{AreLookLines, IsLookText, at_region};
ghost use Rattle.cx_look_script.specs.Sources.{level_lines};

use crate::faults::faults_text;
use crate::help::help_text;
use crate::performer::LookedRegion;
use cx_ebcdic::Name4;
use cx_edf::MakesDisplays;
use cx_look::Look;
use cx_look_ahead::SourceLine;
use cx_look_fields::{FieldLook, level_program};
use cx_look_lines::Report;
use cx_region::Region;
use cx_source::Text;
use cx_storage::Store;
use std::alloc::{AllocError, Global};

/// The lines of the source of a level's program.
pub(crate) fn level_lines<'a, S: Store + Drop, M: MakesDisplays>(
    looking: &'a LookedRegion<S, M>,
    region: &Region<S>,
    term: Name4,
    k: Option<u8>,
) -> &'a [Text]
    ensures { result.now ≡ level_lines (at_region looking.now region.now) term k }
{
    match level_program(region, term, k) {
        Some(program) => looking.sources.source_lines(program),
        None => &[],
    }
}

/// The last abend of a terminal.
#[tactic(auto, unfolding(crate::specs::Looking::AreLookLines))]
fn abend_lines<S: Store + Drop, M: MakesDisplays>(
    alloc: Global,
    looking: &LookedRegion<S, M>,
    region: &Region<S>,
    name: Name4,
) -> Result<Report, AllocError>
    ensures { let state = at_region looking.now region.now in
        IfOk result (λ report. AreLookLines (look.Abend name) state report) }
{
    let programs = &region.shared().programs;
    cx_look_abend::abend_text(alloc, &looking.sources, programs, &looking.abends, name)
}

/// What a look has to say of a region, with the sessions and the sources of the one that is looked at.
#[tactic(auto, unfolding(crate::specs::Looking::AreLookLines))]
pub(crate) fn look_lines<S: Store + Drop, M: MakesDisplays>(
    alloc: Global,
    looking: &LookedRegion<S, M>,
    region: &Region<S>,
    look: &Look,
) -> Result<Report, AllocError>
    ensures { IfOk result (AreLookLines look.now (at_region looking.now region.now)) }
{
    // First, since its clause says that the region is sound, which two of the calls need.
    region.counter();
    match *look {
        Look::Queues => cx_look_tables::queues_text(alloc, region),
        Look::Queue(name) => cx_look_tables::queue_text(alloc, region, name),
        Look::Item(name, n) => cx_look_tables::item_text(alloc, region, name, n as usize),
        Look::Programs => cx_look_tables::programs_text(alloc, region),
        Look::Tasks => cx_look_tasks::tasks_text(alloc, region),
        Look::Resources => cx_look_tasks::resources_text(alloc, region),
        Look::Command(name) => cx_look_tasks::command_text(alloc, region, name),
        Look::Ahead(name, n) => cx_look_ahead::ahead_text(
            alloc,
            &looking.sources,
            region,
            name,
            n as usize,
        ),
        Look::AheadAt(name, program, line) => {
            let line = SourceLine { program, line };
            cx_look_ahead::at_text(alloc, &looking.sources, region, name, line)
        }
        Look::AheadAfter(name, n) => {
            cx_look_ahead::after_text(alloc, &looking.sources, region, name, n)
        }
        Look::FieldsAfter(name, n) => {
            cx_look_ahead::fields_after_text(alloc, &looking.sources, region, name, n)
        }
        Look::Task(name) => cx_look_fields::task_text(alloc, &looking.sources, region, name),
        Look::Areas => cx_look_storage::areas_text(alloc, region),
        Look::AreasOf(name) => cx_look_storage::task_areas_text(alloc, region, name),
        Look::Storage(address, n) => cx_look_storage::storage_text(alloc, region, address, n),
        Look::Where(address) => cx_look_fields::wheres::where_text(
            alloc,
            &looking.sources,
            region,
            address,
        ),
        Look::Abend(name) => abend_lines(alloc, looking, region, name),
        Look::AbendStorage(name) => cx_look_abend::abend_storage_text(alloc, &looking.abends, name),
        Look::AbendFields(name) => {
            cx_look_abend::abend_fields_text(alloc, &looking.sources, &looking.abends, name)
        }
        Look::Faults(ref source) => faults_text(alloc, source),
        Look::Symbol(program, name) => {
            let lines = looking.sources.source_lines(program);
            cx_look_symbols::symbol_text(alloc, region, program, lines, name)
        }
        Look::Symbols(program) => {
            let lines = looking.sources.source_lines(program);
            cx_look_symbols::symbols_text(alloc, region, program, lines)
        }
        Look::Xref(program) => cx_look_xref::xref_text(
            alloc,
            program,
            looking.sources.source_lines(program),
        ),
        Look::Terminals => cx_look_tables::terminals_text(alloc, region, &looking.state),
        Look::Help(word) => help_text(alloc, word),
        Look::CoveredAll => {
            cx_look_cover::covered_all_text(alloc, &looking.sources, region, &looking.covered)
        }
        Look::Covered(program) => {
            cx_look_cover::covered_text(alloc, &looking.sources, region, &looking.covered, program)
        }
        Look::CoveredLines(program) => {
            cx_look_cover::covered_lines_text(
                alloc,
                &looking.sources,
                region,
                &looking.covered,
                program,
            )
        }
        Look::Field(term, name, k) => {
            let lines = level_lines(looking, region, term, k);
            cx_look_fields::field_text(alloc, region, lines, FieldLook { term, name, k })
        }
        Look::Fields(term, k) => {
            let lines = level_lines(looking, region, term, k);
            cx_look_fields::fields_text(alloc, region, lines, term, k)
        }
    }
}

/// What is written for a look.
#[tactic(auto, using(crate::proofs::WatchLawLemmas::same_at))]
pub(crate) fn look_text<S: Store + Drop, M: MakesDisplays>(
    alloc: Global,
    looking: &LookedRegion<S, M>,
    look: Look,
) -> Result<Vec<u8>, AllocError>
    ensures { IfOk result (λ text. IsLookText look looking.now text.items) }
{
    let report = look_lines(alloc, looking, looking.state.region(), &look)?;
    report.marked()
}
