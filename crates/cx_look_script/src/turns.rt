//! RUN: turns of a terminal, one after another.
ghost use Rattle.std.specs.Prelude.{◌≡◌, [], IfOk, MatchBool, Some};
ghost use Rattle.std.specs.Option.{option_map};
ghost use Rattle.cx_edf.specs.State.{holds};
ghost use Rattle.cx_look_ahead.specs.Arrivals.{has_statement};
ghost use Rattle.cx_look_script.specs.Runs.{IsAbendAhead, IsLineAhead, IsNextAbend, StopsBeforeAbend, StopsBeforeLine, StopsWith, turn_goes_on, is_midway, no_line, still_running, stopped_before, stopped_before_line};

use crate::action::Stop;
use cx_base::{decimal, shown, shown_name};
use cx_ebcdic::Name4;
use cx_edf::{Answer, Debugged, EdfEvent, MakesDisplays};
use cx_look_abend::abend_code_in;
use cx_look_ahead::{SourceLine, comes_to, has_statement};
use cx_look_lines::Report;
use cx_look_symbols::Sources;
use cx_region::{Event, Region, Reply, TurnReply};
use cx_region_snapshot::turn_apart;
use cx_storage::Store;
use std::alloc::{AllocError, Global};

/// Whether a turn's answer leaves a task that one more turn takes on.
fn is_midway(answer: &Answer) -> bool
    ensures { result ≡ is_midway answer.now }
{
    matches!(
        answer,
        Answer::Region(Reply::Turn(
            TurnReply::AtCommand
                | TurnReply::Performed(_)
                | TurnReply::Entered
                | TurnReply::Returned
                | TurnReply::TookLabel(_)
                | TurnReply::TookExit(_)
        ))
    )
}

/// Whether an event was a turn that one more turn follows.
pub(crate) fn turn_goes_on<S: Store + Drop, M: MakesDisplays>(
    region: &Debugged<S, M>,
    event: &EdfEvent,
    answer: &Answer,
) -> bool
    ensures { result ≡ turn_goes_on region.now event.now answer.now }
{
    match event {
        EdfEvent::Plain(Event::Turn(name)) => {
            is_midway(answer) && region.display(*name).is_none()
        }
        _ => false,
    }
}

/// The line that says that the number of turns ended RUN.
pub(crate) fn still_running(alloc: Global, name: Name4) -> Result<Vec<u8>, AllocError>
    ensures { IfOk result (λ text. text.items ≡ still_running name) }
{
    let mut report = Report::new(alloc);
    let name = shown_name(alloc, name)?;
    report.line(&[b"RUN", &name, b"STILL", b"RUNNING"])?;
    report.marked()
}

/// The code of the abend as which a region's next turn of a terminal would be answered, where it would be. The turn is
/// done in a region like this one.
fn next_abend<S: Store + Drop>(
    alloc: Global,
    region: &Region<S>,
    name: Name4,
) -> Result<Option<Name4>, AllocError>
    ensures { IfOk result (λ code. IsNextAbend region.now name code) }
{
    let (reply, _after) = turn_apart(alloc, region, name)?;
    Ok(abend_code_in(&reply))
}

/// Whether EDF holds the turns of a terminal.
pub(crate) fn is_held<S: Store + Drop, M: MakesDisplays>(
    state: &Debugged<S, M>,
    name: Name4,
) -> bool
    ensures { result ≡ holds state.now name }
{
    state.display(name).is_some() && state.task(name).is_some()
}

/// The same under EDF, which may hold the turn.
#[tactic(auto, unfolding(crate::specs::Runs::IsAbendAhead))]
fn abend_ahead<S: Store + Drop, M: MakesDisplays>(
    alloc: Global,
    state: &Debugged<S, M>,
    name: Name4,
) -> Result<Option<Name4>, AllocError>
    ensures { IfOk result (λ code. IsAbendAhead state.now name code) }
{
    if is_held(state, name) {
        return Ok(None);
    }
    next_abend(alloc, state.region(), name)
}

/// The line of a RUN that an abend of this code is ahead of.
fn stopped_before(alloc: Global, name: Name4, code: Name4) -> Result<Vec<u8>, AllocError>
    ensures { IfOk result (λ text. text.items ≡ stopped_before name code) }
{
    let mut report = Report::new(alloc);
    let name = shown_name(alloc, name)?;
    let code = shown(alloc, &code.bytes())?;
    report.line(&[b"RUN", &name, b"STOPPED", b"BEFORE", b"ABEND", &code])?;
    report.marked()
}

/// The line with which a RUN ends in front of an abend; None where the terminal's next turn is none.
fn stop_before_abend<S: Store + Drop, M: MakesDisplays>(
    alloc: Global,
    state: &Debugged<S, M>,
    name: Name4,
) -> Result<Option<Vec<u8>>, AllocError>
    ensures { IfOk result (λ line. StopsBeforeAbend state.now name (option_map (λ text. text.items) line)) }
{
    match abend_ahead(alloc, state, name)? {
        Some(code) => Ok(Some(stopped_before(alloc, name, code)?)),
        None => Ok(None),
    }
}

/// Whether the terminal's next turn would do something of a line of a source, under EDF, which may hold the turn.
#[tactic(auto, unfolding(crate::specs::Runs::IsLineAhead))]
fn is_line_ahead<S: Store + Drop, M: MakesDisplays>(
    alloc: Global,
    sources: &Sources,
    state: &Debugged<S, M>,
    name: Name4,
    to: SourceLine,
) -> Result<bool, AllocError>
    ensures { IfOk result (λ comes. IsLineAhead sources.now state.now name to comes) }
{
    if !is_held(state, name) {
        return comes_to(alloc, sources, state.region(), name, to);
    }
    Ok(false)
}

/// The line of a RUN that a line of a source is ahead of.
fn stopped_before_line(alloc: Global, name: Name4, to: SourceLine) -> Result<Vec<u8>, AllocError>
    ensures { IfOk result (λ text. text.items ≡ stopped_before_line name to) }
{
    let mut report = Report::new(alloc);
    let name = shown_name(alloc, name)?;
    let program = shown_name(alloc, to.program)?;
    let line = decimal::<5>(to.line);
    report.line(&[
        b"RUN", &name, b"STOPPED", b"BEFORE", &program, b"LINE", &line,
    ])?;
    report.marked()
}

/// The line of a RUN that is to go to a line without a statement.
fn no_line(alloc: Global, name: Name4, to: SourceLine) -> Result<Vec<u8>, AllocError>
    ensures { IfOk result (λ text. text.items ≡ no_line name to) }
{
    let mut report = Report::new(alloc);
    let name = shown_name(alloc, name)?;
    let program = shown_name(alloc, to.program)?;
    let line = decimal::<5>(to.line);
    report.line(&[b"RUN", &name, b"TO", &program, b"LINE", &line, b"NONE"])?;
    report.marked()
}

/// The line with which a RUN ends in front of a line of a source; None where the terminal's next turn does nothing of
/// it.
fn stop_before_line<S: Store + Drop, M: MakesDisplays>(
    alloc: Global,
    sources: &Sources,
    state: &Debugged<S, M>,
    name: Name4,
    to: SourceLine,
) -> Result<Option<Vec<u8>>, AllocError>
    ensures { IfOk result (λ line.
        StopsBeforeLine sources.now state.now name to (option_map (λ text. text.items) line)) }
{
    if is_line_ahead(alloc, sources, state, name, to)? {
        Ok(Some(stopped_before_line(alloc, name, to)?))
    } else {
        Ok(None)
    }
}

/// The same, or the line that says that no statement is there.
fn stop_at_line<S: Store + Drop, M: MakesDisplays>(
    alloc: Global,
    sources: &Sources,
    state: &Debugged<S, M>,
    name: Name4,
    to: SourceLine,
) -> Result<Option<Vec<u8>>, AllocError>
    ensures { IfOk result (λ line.
        MatchBool (has_statement sources.now.places to)
        (StopsBeforeLine sources.now state.now name to (option_map (λ text. text.items) line))
        (option_map (λ text. text.items) line ≡ Some (no_line name to))) }
{
    if !has_statement(sources, to) {
        return Ok(Some(no_line(alloc, name, to)?));
    }
    stop_before_line(alloc, sources, state, name, to)
}

/// The line with which a RUN ends in front of the terminal's next turn; None where it does the turn.
#[tactic(auto, unfolding(crate::specs::Runs::StopsWith))]
pub(crate) fn stop_line<S: Store + Drop, M: MakesDisplays>(
    alloc: Global,
    sources: &Sources,
    state: &Debugged<S, M>,
    name: Name4,
    stop: Stop,
) -> Result<Option<Vec<u8>>, AllocError>
    ensures { IfOk result (λ line.
        StopsWith stop sources.now state.now name (option_map (λ text. text.items) line)) }
{
    match stop {
        Stop::Never => Ok(None),
        Stop::BeforeAbend => stop_before_abend(alloc, state, name),
        Stop::BeforeLine(to) => stop_at_line(alloc, sources, state, name, to),
    }
}
