//! The instructions of the next turn.
ghost use Rattle.std.specs.Prelude.{◌≡◌, ◌++◌, codes, IfOk, OnOk};
ghost use Rattle.std.specs.List.{flat_map};
ghost use Rattle.std.specs.Option.{option_map_or};
ghost use Rattle.cx_base.specs.Digits.{hex_digits};
ghost use Rattle.cx_look_ahead.specs.Instructions.{count_line, trace_lines, visit_line};
ghost use Rattle.cx_look_ahead.specs.Parts.Words.{visit_word};

use cx_ebcdic::Name8;
use cx_load::Loaded;
use cx_look_lines::{Report, decimal, spelled};
use cx_look_symbols::{Place, Sources, address_word, place_at_address, push_led_by, statement_at};
use cx_look_turn::{Code, Trace, Visit};
use indexmap::IndexMap;
use std::alloc::{AllocError, Global};

/// The bytes of an instruction.
fn code_word(alloc: Global, code: &Option<Code>) -> Result<Vec<u8>, AllocError>
    ensures { IfOk result (λ word. word.items ≡ option_map_or hex_digits code.now (codes "--")) }
{
    match code {
        Some(code) => spelled(alloc, code.as_slice()),
        None => b"--".to_vec(alloc),
    }
}

/// An instruction: its address and where it is, its bytes, and the statement that has it.
fn visit_word(
    alloc: Global,
    sources: &Sources,
    place: &Place,
    code: &Option<Code>,
) -> Result<Vec<u8>, AllocError>
    ensures { IfOk result (λ word. word.items ≡ visit_word sources.now place.now code.now) }
{
    let mut word = address_word(alloc, place)?;
    word.push(b' ')?;
    word.extend_from_slice(&code_word(alloc, code)?)?;
    push_led_by(
        &mut word,
        b" LINE ",
        &statement_at(alloc, sources, &place.spot)?,
    )?;
    Ok(word)
}

/// Adds the line of an instruction.
pub(crate) fn visit_line(
    report: &mut Report,
    sources: &Sources,
    programs: &IndexMap<Name8, Loaded>,
    visit: &Visit,
) -> Result<(), AllocError>
    ensures { OnOk result (report.new ≡ report.old ++ visit_line sources.now programs.now.entries visit.now) }
{
    let place = place_at_address(programs, visit.at);
    let word = visit_word(report.alloc(), sources, &place, &visit.code)?;
    report.line(&[b"INSTRUCTION", &word])
}

/// Adds the lines of the last instructions.
fn visit_lines(
    report: &mut Report,
    sources: &Sources,
    programs: &IndexMap<Name8, Loaded>,
    trace: &Trace,
) -> Result<(), AllocError>
    ensures { let lines = flat_map (visit_line sources.now programs.now.entries) trace.now.last.items in
        OnOk result (report.new ≡ report.old ++ lines) }
{
    for visit in trace.last.iter() {
        visit_line(report, sources, programs, visit)?;
    }
    Ok(())
}

/// Adds how many instructions there are.
fn count_line(report: &mut Report, count: u32) -> Result<(), AllocError>
    ensures { OnOk result (report.new ≡ report.old ++ count_line count) }
{
    let count = decimal(report.alloc(), count as usize)?;
    report.line(&[b"INSTRUCTIONS", &count])
}

/// Adds how many instructions there are, and the lines of the last ones, where the turn runs some.
pub(crate) fn trace_lines(
    report: &mut Report,
    sources: &Sources,
    programs: &IndexMap<Name8, Loaded>,
    trace: &Option<Trace>,
) -> Result<(), AllocError>
    ensures { OnOk result (report.new ≡ report.old ++ trace_lines sources.now programs.now.entries trace.now) }
{
    let Some(trace) = trace else {
        return Ok(());
    };
    count_line(report, trace.count)?;
    visit_lines(report, sources, programs, trace)
}
