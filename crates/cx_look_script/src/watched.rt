//! WATCH: what is watched, and what is written after an action that changes it.
ghost use Rattle.std.specs.Prelude.{◌≡◌, ◌∷◌, [], codes, IfOk};
ghost use Rattle.cx_look_lines.specs.Words.{look_line};
ghost use Rattle.cx_look_script.specs.Watched.{cause_of, cause_of_action, cause_of_event, field_range, no_range, range_of};

use crate::action::LookAction;
use crate::looks::level_lines;
use crate::performer::LookedRegion;
use cx_base::shown_name;
use cx_ebcdic::{Name4, Name8};
use cx_edf::{EdfEvent, MakesDisplays};
use cx_look_ahead::{Cause, Row};
use cx_look_fields::{Field, field_at, standing_at};
use cx_look_lines::{Report, written_name};
use cx_region::Event;
use cx_script_actions::Action;
use cx_storage::Store;
use std::alloc::{AllocError, Global};

/// The most bytes of a field that are watched.
const MOST: u128 = 256;

/// The first bytes of a field.
fn range_of(field: Field) -> Row
    ensures { result ≡ range_of field }
{
    Row {
        at: field.address,
        length: field.length.min(MOST) as u32,
    }
}

/// The first bytes of a field of the current level of a terminal's task; None where there is no such field.
pub(crate) fn field_range<S: Store + Drop, M: MakesDisplays>(
    alloc: Global,
    looking: &LookedRegion<S, M>,
    term: Name4,
    name: Name8,
) -> Result<Option<Row>, AllocError>
    ensures { IfOk result (λ range. range ≡ field_range looking.now term name) }
{
    let standing = standing_at(looking.state.region(), term, None);
    let lines = level_lines(looking, looking.state.region(), term, None);
    let found = field_at(alloc, lines, name, standing)?;
    Ok(found.map(|typed| range_of(typed.field)))
}

/// The report that there is no such field to be watched.
pub(crate) fn no_range(alloc: Global, term: Name4, name: Name8) -> Result<Report, AllocError>
    ensures { IfOk result (λ report. report ≡ no_range term name) }
{
    let mut report = Report::new(alloc);
    let term = shown_name(alloc, term)?;
    let name = written_name(alloc, &name.bytes())?;
    report.line(&[b"WATCH", &term, &name, b"NONE"])?;
    Ok(report)
}

/// The report that nothing is watched any more.
pub(crate) fn off(alloc: Global) -> Result<Report, AllocError>
    ensures { IfOk result (λ report. report ≡ look_line (codes "WATCH" ∷ codes "OFF" ∷ [])) }
{
    let mut report = Report::new(alloc);
    report.line(&[b"WATCH", b"OFF"])?;
    Ok(report)
}

/// What an event does.
fn cause_of_event(event: &EdfEvent) -> Cause
    ensures { result ≡ cause_of_event event.now }
{
    match event {
        EdfEvent::Plain(Event::Turn(name)) => Cause::Turn(*name),
        EdfEvent::Plain(Event::Key(name, _, _)) => Cause::Key(*name),
        EdfEvent::Plain(Event::Alter(name, _)) => Cause::Alter(*name),
        EdfEvent::Plain(Event::Program(name, _)) => Cause::Program(*name),
        _ => Cause::Other,
    }
}

/// What an action of `cicsedf` does.
fn cause_of_action(action: &Action) -> Cause
    ensures { result ≡ cause_of_action action.now }
{
    match action {
        Action::Event(event) => cause_of_event(event),
        Action::Image(name, _) | Action::Source(name, _, _) => Cause::Program(*name),
        _ => Cause::Other,
    }
}

/// What an action does.
pub(crate) fn cause_of(action: &LookAction) -> Cause
    ensures { result ≡ cause_of action.now }
{
    match action {
        LookAction::Script(action) | LookAction::Source(_, _, action) => cause_of_action(action),
        LookAction::Run(name, _, _) | LookAction::RunOn(name, _, _) => Cause::Turn(*name),
        _ => Cause::Other,
    }
}
