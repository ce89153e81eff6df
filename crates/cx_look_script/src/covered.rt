//! COVER: what is counted of a turn's instructions.
ghost use Rattle.std.specs.Prelude.{◌≡◌, IfOk, OnOk};
ghost use Rattle.cx_look_cover.specs.Tallies.{programs_end};
ghost use Rattle.cx_look_script.specs.Covered.{IsTalliedBy, cover_lines, machine_run};

use crate::turns::is_held;
use cx_edf::{Debugged, EdfEvent, MakesDisplays};
use cx_look_cover::{Tallies, programs_end};
use cx_look_lines::Report;
use cx_look_turn::{TurnMachine, machine_ahead};
use cx_region::Event;
use cx_storage::Store;
use std::alloc::{AllocError, Global};

/// The line of COVER.
pub(crate) fn cover_line(alloc: Global, on: bool) -> Result<Report, AllocError>
    ensures { IfOk result (λ report. report ≡ cover_lines on) }
{
    let mut report = Report::new(alloc);
    let word = if on {
        b"ON".as_slice()
    } else {
        b"OFF".as_slice()
    };
    report.line(&[b"COVER", word])?;
    Ok(report)
}

/// The machine whose instructions an event runs, over a store of its own; None where it runs none.
fn machine_run<S: Store + Drop, M: MakesDisplays>(
    alloc: Global,
    state: &Debugged<S, M>,
    event: &EdfEvent,
) -> Result<Option<TurnMachine<S>>, AllocError>
    ensures { IfOk result (λ machine. machine ≡ machine_run state.now event.now) }
{
    let EdfEvent::Plain(Event::Turn(name)) = event else {
        return Ok(None);
    };
    if is_held(state, *name) {
        return Ok(None);
    }
    machine_ahead(alloc, state.region(), *name)
}

/// Counts the instructions that an event is going to run, of those that are in programs.
pub(crate) fn tally<S: Store + Drop, M: MakesDisplays>(
    alloc: Global,
    state: &Debugged<S, M>,
    event: &EdfEvent,
    tallies: &mut Tallies,
) -> Result<(), AllocError>
    ensures { let programs = state.now.region.shared.programs in
        OnOk result (IsTalliedBy (machine_run state.now event.now) (programs_end programs) tallies.old tallies.new) }
{
    match machine_run(alloc, state, event)? {
        Some(mut machine) => tallies.run(&mut machine, programs_end(state.region())),
        None => Ok(()),
    }
}
