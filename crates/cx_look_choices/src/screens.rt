//! What is to be seen of states, each text once.

ghost use Rattle.std.specs.Prelude.{◌≡◌, ◌++◌, ℕ, IfOk, MatchOption, OnOk, Some, slice_get};
ghost use Rattle.cx_look_choices.specs.Parts.Ways.{Numbers};
ghost use Rattle.cx_look_choices.specs.States.{StateText, running_line};

use cx_choices::{ChoicesState, is_at_rest};
use cx_look_lines::Report;
use cx_look_steps::Seen;
use cx_look_tasks::waits_text;
use cx_region::Region;
use cx_storage::Store;
use std::alloc::{AllocError, Global};

/// Adds the line that says that a region isn't at rest.
fn running_line(report: &mut Report, is_running: bool) -> Result<(), AllocError>
    ensures { OnOk result (report.new ≡ report.old ++ running_line is_running) }
{
    if is_running {
        report.line(&[b"STILL RUNNING"])?;
    }
    Ok(())
}

/// What is written of a state: the line of each terminal whose task waits, that the region isn't at rest, and what is
/// to be seen.
///
/// An error comes only where memory was refused.
pub(crate) fn state_text<S: Store + Drop, V: Seen<S>>(
    alloc: Global,
    work: &mut Region<S>,
    state: &ChoicesState,
    seen: &V,
) -> Result<Report, AllocError>
    ensures { IfOk result (StateText (V.shows seen.now) state.now) }
{
    state.region.restore(work)?;
    // First, since its clause says that the region is sound, which the calls after it need.
    work.counter();
    let waits = waits_text(alloc, work)?;
    let is_running = !is_at_rest(work);
    let sight = seen.seen(alloc, work)?;
    let mut report = Report::new(alloc);
    report.append(&waits)?;
    running_line(&mut report, is_running)?;
    report.append(&sight)?;
    Ok(report)
}

/// The number of a text among those that came; `None` where it is none of them.
fn number_of(texts: &[Report], text: &Report) -> Option<usize>
    ensures { MatchOption result ((number : ℕ) → slice_get texts.now number ≡ Some text.now → ⊥)
        (λ number. slice_get texts.now number ≡ Some text.now) }
{
    for (i, one) in texts.iter().enumerate() {
        if one.is_same(text) {
            return Some(i);
        }
    }
    None
}

/// The number of a text among those that came, to which it is added where it is none of them.
///
/// An error comes only where memory was refused.
pub(crate) fn screen_of(texts: &mut Vec<Report>, text: Report) -> Result<usize, AllocError>
    ensures { IfOk result (Numbers texts.old.items texts.new.items text) }
{
    if let Some(number) = number_of(texts.as_slice(), &text) {
        return Ok(number);
    }
    let number = texts.len();
    texts.push(text)?;
    Ok(number)
}
