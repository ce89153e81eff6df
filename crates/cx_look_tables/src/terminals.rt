//! Terminals.
ghost use Rattle.std.specs.Prelude.{◌≡◌, ◌==◌, ◌++◌, ◌∷◌, [], codes, if◌then◌else◌, length, IfOk, OnOk};
ghost use Rattle.std.specs.List.{flat_map};
ghost use Rattle.std.specs.Option.{option_copied};
ghost use Rattle.cx_edf.specs.State.{EdfState};
ghost use Rattle.cx_look_tables.specs.Terminals.{length_and_bytes, stop_condition_word, edf_word, held_word, mode_name, next_word, stops_word, terminal_line, terminals_text};
ghost use Rattle.cx_base.specs.Digits.{digits};
ghost use Rattle.cx_look_lines.specs.Words.{look_line};

use cx_base::{Condition, shown_name};
use cx_ebcdic::Name4;
use cx_edf::{Debugged, MakesDisplays, Mode, Session, Stops};
use cx_look_lines::{Report, decimal, first_bytes, push_word, written_bytes, written_name};
use cx_region::{Region, Terminal};
use cx_region_state::{Input, NextTransaction};
use cx_storage::Store;
use std::alloc::{AllocError, Global};

/// The most bytes of a COMMAREA or an input that are shown.
const MOST_SHOWN: usize = 64;

/// How many bytes there are, and the first of them.
#[tactic(auto, unfolding(crate::specs::Terminals::length_and_bytes))]
fn length_and_bytes(alloc: Global, bytes: &[u8]) -> Result<Vec<u8>, AllocError>
    ensures { IfOk result (λ word. word.items ≡ length_and_bytes bytes.now) }
{
    let first = written_bytes(alloc, first_bytes(bytes, MOST_SHOWN))?;
    let mut word = decimal(alloc, bytes.len())?;
    push_word(&mut word, &first)?;
    Ok(word)
}

/// Adds the COMMAREA that is kept for a transaction, where there is one.
fn push_commarea(word: &mut Vec<u8>, alloc: Global, commarea: &[u8]) -> Result<(), AllocError>
    ensures { let kept = codes " COMMAREA " ++ length_and_bytes commarea.now in
        OnOk result (word.new.items ≡ word.old.items ++ (if length commarea.now == 0 then [] else kept)) }
{
    if commarea.is_empty() {
        return Ok(());
    }
    word.extend_from_slice(b" COMMAREA ")?;
    word.extend_from_slice(&length_and_bytes(alloc, commarea)?)?;
    Ok(())
}

/// What the next key attaches.
#[tactic(auto, unfolding(crate::specs::Terminals::next_word))]
fn next_word(alloc: Global, following: &Option<NextTransaction>) -> Result<Vec<u8>, AllocError>
    ensures { IfOk result (λ word. word.items ≡ next_word following.now) }
{
    let Some(following) = following else {
        return b"--".to_vec(alloc);
    };
    let mut word = written_name(alloc, &following.tran.bytes())?;
    push_commarea(&mut word, alloc, following.commarea.as_slice())?;
    Ok(word)
}

/// The input that is held, with its key.
#[tactic(auto, unfolding(crate::specs::Terminals::held_word))]
fn held_word(alloc: Global, input: &Option<Input>) -> Result<Vec<u8>, AllocError>
    ensures { IfOk result (λ word. word.items ≡ held_word input.now) }
{
    let Some(input) = input else {
        return b"--".to_vec(alloc);
    };
    let bytes = length_and_bytes(alloc, input.bytes.as_slice())?;
    let mut word = input.aid.name().as_bytes().to_vec(alloc)?;
    push_word(&mut word, &bytes)?;
    Ok(word)
}

/// A mode of EDF.
fn mode_name(mode: Mode) -> &'static [u8]
    ensures { result.now ≡ mode_name mode }
{
    match mode {
        Mode::Free => b"FREE",
        Mode::Stopped(_) => b"STOPPED",
        Mode::Suppressed => b"SUPPRESSED",
    }
}

/// Adds a condition, where it is a stop condition.
fn push_condition(word: &mut Vec<u8>, stops: Stops, condition: Condition) -> Result<(), AllocError>
    ensures { OnOk result (word.new.items ≡ word.old.items ++ stop_condition_word stops condition) }
{
    if stops.names(condition) {
        push_word(word, condition.name().as_bytes())?;
    }
    Ok(())
}

/// Adds those of some conditions that are stop conditions.
fn push_conditions(
    word: &mut Vec<u8>,
    stops: Stops,
    conditions: &[Condition],
) -> Result<(), AllocError>
    ensures { let more = flat_map (stop_condition_word stops) conditions.now in
        OnOk result (word.new.items ≡ word.old.items ++ more) }
{
    for condition in conditions {
        push_condition(word, stops, *condition)?;
    }
    Ok(())
}

/// Adds a word after a blank, where it is there.
fn push_if(word: &mut Vec<u8>, is_there: bool, text: &[u8]) -> Result<(), AllocError>
    ensures { let more = if is_there then text.now else [] in
        OnOk result (word.new.items ≡ word.old.items ++ more) }
{
    if is_there {
        word.extend_from_slice(text)?;
    }
    Ok(())
}

/// Adds stop conditions, each after a blank.
#[tactic(auto, unfolding(crate::specs::Terminals::stops_word))]
fn push_stops(word: &mut Vec<u8>, stops: Stops) -> Result<(), AllocError>
    ensures { OnOk result (word.new.items ≡ word.old.items ++ stops_word stops) }
{
    push_if(word, stops.abend, b" ABEND")?;
    push_if(word, stops.end, b" END")?;
    push_conditions(word, stops, Condition::handled())
}

/// The mode of a session, and its stop conditions.
#[tactic(auto, unfolding(crate::specs::Terminals::edf_word))]
fn edf_word(alloc: Global, session: Option<&Session>) -> Result<Vec<u8>, AllocError>
    ensures { IfOk result (λ word. word.items ≡ edf_word (option_copied session.entry)) }
{
    let Some(session) = session else {
        return b"OFF".to_vec(alloc);
    };
    let mut word = mode_name(session.mode()).to_vec(alloc)?;
    push_stops(&mut word, session.stops())?;
    Ok(word)
}

/// Adds the line of a terminal.
#[tactic(auto, unfolding(crate::specs::Terminals::terminal_line))]
fn terminal_line<S: Store + Drop, M: MakesDisplays>(
    report: &mut Report,
    state: &Debugged<S, M>,
    name: Name4,
    terminal: &Terminal,
) -> Result<(), AllocError>
    ensures { let line = terminal_line state.now.sessions (name, terminal.now) in
        OnOk result (report.new ≡ report.old ++ line) }
{
    let alloc = report.alloc();
    let entry = terminal.terminal_entry();
    let next = next_word(alloc, &entry.following)?;
    let held = held_word(alloc, &entry.input)?;
    let edf = edf_word(alloc, state.session(name))?;
    let name = shown_name(alloc, name)?;
    report.line(&[
        b"TERMINAL",
        &name,
        b"NEXT",
        &next,
        b"HELD",
        &held,
        b"EDF",
        &edf,
    ])
}

/// Adds the line of each terminal.
fn terminal_lines<S: Store + Drop, M: MakesDisplays>(
    report: &mut Report,
    region: &Region<S>,
    state: &Debugged<S, M>,
) -> Result<(), AllocError>
    ensures { let more = flat_map (terminal_line state.now.sessions) region.now.terminals in
        OnOk result (report.new ≡ report.old ++ more) }
{
    for (name, terminal) in region.terminals().iter() {
        terminal_line(report, state, *name, terminal)?;
    }
    Ok(())
}

/// Adds the line of the clock.
fn clock_line<S: Store + Drop>(report: &mut Report, region: &Region<S>) -> Result<(), AllocError>
    ensures { let words = digits 10 6 region.now.time ∷ digits 10 5 region.now.date ∷ [] in
        OnOk result (report.new ≡ report.old ++ look_line (codes "CLOCK" ∷ words)) }
{
    let time = cx_base::decimal::<6>(region.time());
    let date = cx_base::decimal::<5>(region.date());
    report.line(&[b"CLOCK", &time, &date])
}

/// Looks at the clock and at all terminals of a region, with the sessions of a region under EDF: a line each, the first
/// defined first, with what its next key attaches, the input that is held, and EDF's mode and stop conditions; NONE
/// after the clock where there is no terminal.
///
/// An error comes only where memory for the report was refused.
#[tactic(auto, unfolding(crate::specs::Terminals::terminals_text))]
pub fn terminals_text<S: Store + Drop, M: MakesDisplays>(
    alloc: Global,
    region: &Region<S>,
    state: &Debugged<S, M>,
) -> Result<Report, AllocError>
    ensures { let shown : EdfState = record { region = region.now; sessions = state.now.sessions } in
        IfOk result (λ report. report ≡ terminals_text shown) }
{
    let mut report = Report::new(alloc);
    clock_line(&mut report, region)?;
    let mut terminals = Report::new(alloc);
    terminal_lines(&mut terminals, region, state)?;
    report.append(&terminals.or_none(b"TERMINALS")?)?;
    Ok(report)
}
