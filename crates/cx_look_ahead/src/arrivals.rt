//! Whether the next turn of a terminal comes to a line of a source.
ghost use Rattle.std.specs.Prelude.{◌≡◌, IfOk};
ghost use Rattle.std.specs.List.{list_any};
ghost use Rattle.cx_look_symbols.specs.Lines.{has_offset};
ghost use Rattle.cx_region.specs.Tables.{task_of};
ghost use Rattle.cx_look_ahead.specs.Arrivals.{ComesTo, are_among, does_some, has_statement, is_among_statements, is_command_among, program_places, statements_on};

use cx_ebcdic::{Name4, Name8};
use cx_load::Loaded;
use cx_look_fields::task_of;
use cx_look_symbols::{
    SourcePlaces, Sources, Spot, StatementPlace, has_offset, place_at_address, spot_before,
};
use cx_look_turn::{MOST_STEPS, Trace, trace_ahead};
use cx_region::Region;
use cx_storage::{Store, address_in};
use indexmap::IndexMap;
use std::alloc::{AllocError, Global};

/// A line of the source that defined a program.
#[derive(Clone, Copy, Debug, PartialEq, Eq)]
pub struct SourceLine {
    pub program: Name8,
    /// Its number, from 1.
    pub line: u32,
}

/// The statements of a program that have bytes.
fn program_places(places: &SourcePlaces, program: Name8) -> &[StatementPlace]
    ensures { result.now ≡ program_places places.now.entries program }
{
    match places.get(&program) {
        Some(places) => places.as_slice(),
        None => &[],
    }
}

/// Whether a line of the source that defined a program has a statement with bytes; false where no source defined the
/// program. It takes no memory.
pub fn has_statement(sources: &Sources, line: SourceLine) -> bool
    ensures { result ≡ has_statement sources.now.places line }
{
    program_places(sources.places(), line.program)
        .iter()
        .any(|it| it.line == line.line as usize)
}

/// The statements on a line.
pub(crate) fn statements_on(
    alloc: Global,
    places: &SourcePlaces,
    line: &SourceLine,
) -> Result<Vec<StatementPlace>, AllocError>
    ensures { IfOk result (λ found. found.items ≡ statements_on places.now.entries line.now) }
{
    program_places(places, line.program)
        .iter()
        .copied()
        .filter(|it| it.line == line.line as usize)
        .collect(alloc)
}

/// Whether one of some statements has the byte at an offset.
fn is_held(statements: &[StatementPlace], offset: u32) -> bool
    ensures { result ≡ list_any (has_offset offset) statements.now }
{
    statements.iter().any(|place| has_offset(place, offset))
}

/// Whether one of some statements of a program has a byte.
pub(crate) fn is_among_statements(
    program: Name8,
    statements: &[StatementPlace],
    spot: Option<Spot>,
) -> bool
    ensures { result ≡ is_among_statements program statements.now spot }
{
    match spot {
        Some(it) => it.program == program && is_held(statements, it.offset),
        None => false,
    }
}

/// Whether one of the last instructions is in some statements of a program.
fn are_among(
    programs: &IndexMap<Name8, Loaded>,
    program: Name8,
    statements: &[StatementPlace],
    trace: &Trace,
) -> bool
    ensures { result ≡ are_among programs.now.entries program statements.now trace.now.last.items }
{
    trace.last.iter().any(|it| is_among_statements(
        program,
        statements,
        place_at_address(programs, it.at).spot,
    ))
}

/// Whether the command of a terminal's task is in some statements of a program.
fn is_command_among<S: Store + Drop>(
    region: &Region<S>,
    name: Name4,
    program: Name8,
    statements: &[StatementPlace],
) -> bool
    ensures { let task = task_of region.now name in
        result ≡ is_command_among region.now.shared.programs program statements.now task }
{
    let Some(task) = task_of(region, name) else {
        return false;
    };
    let back = address_in(task.cpu.regs[14]);
    is_among_statements(
        program,
        statements,
        spot_before(&region.shared().programs, back),
    )
}

/// Whether a turn that runs these instructions, or else performs the command that is due, does something of some
/// statements of a program.
fn does_some<S: Store + Drop>(
    region: &Region<S>,
    name: Name4,
    program: Name8,
    statements: &[StatementPlace],
    trace: &Option<Trace>,
) -> bool
    ensures { let task = task_of region.now name in
        result ≡ does_some region.now.shared.programs program statements.now task trace.now }
{
    match trace {
        Some(trace) => are_among(&region.shared().programs, program, statements, trace),
        None => is_command_among(region, name, program, statements),
    }
}

/// Whether the next turn of a terminal would do something of a line of a source: run an instruction that has its
/// address among the bytes of a statement on the line, or perform the command that is due, of an EXEC there. The
/// instructions run over a store like this region's, so nothing changes here. It is false where there is no such
/// statement, no task, or no such terminal.
///
/// An error comes only where memory for these was refused.
pub fn comes_to<S: Store + Drop>(
    alloc: Global,
    sources: &Sources,
    region: &Region<S>,
    name: Name4,
    line: SourceLine,
) -> Result<bool, AllocError>
    ensures { IfOk result (λ comes. ComesTo sources.now.places region.now name line comes) }
{
    let statements = statements_on(alloc, sources.places(), &line)?;
    let trace = trace_ahead(alloc, region, name, MOST_STEPS as usize)?;
    Ok(does_some(region, name, line.program, &statements, &trace))
}
