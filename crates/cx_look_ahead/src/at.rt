//! AHEAD AT.
ghost use Rattle.std.specs.Prelude.{◌≡◌, ◌<◌, ◌++◌, [], IfOk, IfSome, OnOk, Some, codes, length};
ghost use Rattle.std.specs.Option.{option_map_or};
ghost use Rattle.cx_exec.specs.Machine.{machine};
ghost use Rattle.cx_look_fields.specs.FieldTexts.{fields_lines};
ghost use Rattle.cx_look_ahead.specs.At.{ArrivesAt, AtText, at_line, fields_at_line, fields_on, first_among, names_on, there_lines};

use crate::arrivals::{SourceLine, is_among_statements, statements_on};
use crate::instructions::visit_line;
use cx_base::{List, decimal, shown_name};
use cx_ebcdic::{Name4, Name8};
use cx_exec::Cpu;
use cx_load::Loaded;
use cx_look_fields::{FieldWriter, LevelFields};
use cx_look_lines::{Report, register_lines};
use cx_look_symbols::{
    PlacedSource, Sources, Spot, StatementPlace, place_at_address, translated_in,
};
use cx_look_turn::{MOST_STEPS, Trace, TurnMachine, instruction_at, machine_ahead, trace_ahead};
use cx_look_xref::references_of;
use cx_region::Region;
use cx_source::Source;
use cx_storage::Store;
use indexmap::IndexMap;
use std::alloc::{AllocError, Global};

/// How many instructions are before the first one that is in some statements of a program; None where none is.
fn first_among(
    programs: &IndexMap<Name8, Loaded>,
    program: Name8,
    statements: &[StatementPlace],
    trace: &Trace,
) -> Option<usize>
    ensures value { result ≡ first_among programs.now.entries program statements.now trace.now.last.items }
    ensures within { IfSome result (λ n. n < length trace.now.last.items) }
{
    trace.last.iter().position(|it| is_among_statements(
        program,
        statements,
        place_at_address(programs, it.at).spot,
    ))
}

/// What a terminal's task will have where its next turn first comes to a line of a source; None where the turn runs no
/// instruction of it.
#[tactic(auto, using(crate::proofs::AtLemmas::past_of, crate::proofs::AtLemmas::arrives_with_no_run, crate::proofs::AtLemmas::arrives_with_no_machine, crate::proofs::AtLemmas::arrives_nowhere, crate::proofs::AtLemmas::arrives_there))]
fn arrival<S: Store + Drop>(
    alloc: Global,
    sources: &Sources,
    region: &Region<S>,
    name: Name4,
    line: &SourceLine,
) -> Result<Option<TurnMachine<S>>, AllocError>
    ensures { IfOk result (λ there. ArrivesAt sources.now.places region.now name line.now there) }
{
    let statements = statements_on(alloc, sources.places(), line)?;
    let Some(trace) = trace_ahead(alloc, region, name, MOST_STEPS as usize)? else {
        return Ok(None);
    };
    let Some(mut machine) = machine_ahead(alloc, region, name)? else {
        return Ok(None);
    };
    let programs = &region.shared().programs;
    let Some(count) = first_among(programs, line.program, &statements, &trace) else {
        return Ok(None);
    };
    machine.pass(count);
    Ok(Some(machine))
}

/// Adds the first line of a look ahead to a line of a source, which ends with a word.
fn at_line(
    report: &mut Report,
    name: Name4,
    line: &SourceLine,
    word: &[u8],
) -> Result<(), AllocError>
    ensures { OnOk result (report.new ≡ report.old ++ at_line name line.now word.now) }
{
    let name = shown_name(report.alloc(), name)?;
    let program = shown_name(report.alloc(), line.program)?;
    let number = decimal::<5>(line.line);
    report.line(&[b"AHEAD", &name, b"AT", &program, b"LINE", &number, word])
}

/// The names that the statements on a line of a source use.
fn names_on(alloc: Global, line: usize, source: &Source) -> Result<Vec<Name8>, AllocError>
    ensures { IfOk result (λ names. names.items ≡ names_on line source.now) }
{
    let references = references_of(alloc, source)?;
    references
        .iter()
        .filter(|it| it.line == line)
        .map(|it| it.name)
        .collect(alloc)
}

/// What a terminal's task has in front of an instruction of a line of a source.
#[derive(Drop)]
struct TaskThere<'a, S: Store> {
    cpu: &'a Cpu,
    store: &'a S,
    name: Name4,
    line: &'a SourceLine,
}

impl<'a, S: Store> TaskThere<'a, S> {
    /// Adds the lines of the fields of these names.
    fn named_fields(
        &self,
        report: &mut Report,
        fields: &LevelFields,
        names: Vec<Name8>,
    ) -> Result<(), AllocError>
        ensures { let lines = fields_lines (Some names.items) (S.storage self.now.store.now) self.now.name fields.now in
            OnOk result (report.new ≡ report.old ++ lines) }
    {
        let writer = FieldWriter {
            store: self.store,
            term: self.name,
            wanted: &Some(List::from_vec(names)),
        };
        writer.fields_lines(report, fields)
    }

    /// Adds the lines of the fields that the line of a source names.
    fn fields_on(
        &self,
        report: &mut Report,
        offset: u32,
        placed: &PlacedSource<'_>,
    ) -> Result<(), AllocError>
        ensures { let m = machine self.now.cpu.now (S.storage self.now.store.now) in
            let lines = fields_on m self.now.name self.now.line.now offset placed.now in
            OnOk result (report.new ≡ report.old ++ lines) }
    {
        let alloc = report.alloc();
        let Some(fields) = LevelFields::of(alloc, placed, &self.cpu.regs, offset)? else {
            return Ok(());
        };
        let names = names_on(alloc, self.line.line as usize, placed.source())?;
        self.named_fields(report, &fields, names)
    }

    /// Adds the lines of the fields that the line names, where a source defined the program.
    fn fields_at_line(
        &self,
        report: &mut Report,
        sources: &Sources,
        spot: &Spot,
    ) -> Result<(), AllocError>
        ensures { let m = machine self.now.cpu.now (S.storage self.now.store.now) in
            let lines = fields_at_line sources.now m self.now.name self.now.line.now spot.now in
            OnOk result (report.new ≡ report.old ++ lines) }
    {
        let lines = sources.source_lines(self.line.program);
        let source = translated_in(report.alloc(), lines)?;
        match PlacedSource::of(report.alloc(), &source)? {
            Some(placed) => self.fields_on(report, spot.offset, &placed),
            None => Ok(()),
        }
    }

    /// Adds the lines of those fields, where a program has the next instruction.
    fn fields_there(
        &self,
        report: &mut Report,
        sources: &Sources,
        spot: Option<Spot>,
    ) -> Result<(), AllocError>
        ensures { let m = machine self.now.cpu.now (S.storage self.now.store.now) in
            let lines = fields_at_line sources.now m self.now.name self.now.line.now in
            OnOk result (report.new ≡ report.old ++ option_map_or lines spot []) }
    {
        match spot {
            Some(spot) => self.fields_at_line(report, sources, &spot),
            None => Ok(()),
        }
    }

    /// What is written of it.
    #[tactic(auto, unfolding(crate::specs::At::there_lines))]
    fn there_lines(
        &self,
        alloc: Global,
        sources: &Sources,
        programs: &IndexMap<Name8, Loaded>,
    ) -> Result<Report, AllocError>
        ensures { let m = machine self.now.cpu.now (S.storage self.now.store.now) in
            IfOk result (λ report. report
            ≡ there_lines sources.now programs.now.entries self.now.name self.now.line.now m) }
    {
        let mut report = Report::new(alloc);
        let [code] = decimal::<1>(u32::from(self.cpu.cc));
        at_line(&mut report, self.name, self.line, &[b'C', b'C', b' ', code])?;
        let visit = instruction_at(self.cpu, self.store);
        visit_line(&mut report, sources, programs, &visit)?;
        register_lines(&mut report, &self.cpu.regs)?;
        let spot = place_at_address(programs, self.cpu.next).spot;
        self.fields_there(&mut report, sources, spot)?;
        Ok(report)
    }
}

/// The report of a line that the next turn doesn't come to.
fn none_report(alloc: Global, name: Name4, line: &SourceLine) -> Result<Report, AllocError>
    ensures { IfOk result (λ report. report ≡ at_line name line.now (codes "NONE")) }
{
    let mut report = Report::new(alloc);
    at_line(&mut report, name, line, b"NONE")?;
    Ok(report)
}

/// Looks at what a terminal's task will have where its next turn first comes to a line of a source: its condition code,
/// the instruction there, its registers, and the fields that the statements on the line name, as they are in front of
/// the instruction. The instructions run over a store like this region's, so nothing changes here. NONE where the turn
/// runs no instruction of a statement on the line: where it performs a command, there is no such statement, no task, or
/// no such terminal.
///
/// An error comes only where memory for these or for the report was refused.
pub fn at_text<S: Store + Drop>(
    alloc: Global,
    sources: &Sources,
    region: &Region<S>,
    name: Name4,
    line: SourceLine,
) -> Result<Report, AllocError>
    ensures { IfOk result (λ report. AtText sources.now region.now name line report) }
{
    let there = arrival(alloc, sources, region, name, &line)?;
    let Some(machine) = there else {
        return none_report(alloc, name, &line);
    };
    let task = TaskThere {
        cpu: machine.cpu(),
        store: machine.store(),
        name,
        line: &line,
    };
    let report = task.there_lines(alloc, sources, &region.shared().programs)?;
    Ok(report)
}
