//! What is written of a state at rest.

ghost use Rattle.std.specs.Prelude.{◌≡◌, ◌++◌, ◌-◌, IfOk, OnOk, length};
ghost use Rattle.std.specs.List.{list_any};
ghost use Rattle.cx_ebcdic.specs.Names.{is_name};
ghost use Rattle.cx_look_orders.specs.Rest.{came_of, key_lines, RestText, keys_text, left_line};
ghost use Rattle.cx_orders.specs.Moves.{keys_of};

use cx_base::shown_name;
use cx_ebcdic::Name4;
use cx_look_lines::{Report, decimal};
use cx_look_steps::{Seen, incident_lines, many_of};
use cx_look_tasks::waits_text;
use cx_orders::{KeyLine, OrdersState};
use cx_region::Region;
use cx_storage::Store;
use std::alloc::{AllocError, Global};

/// How many keys of a terminal came.
fn came_of<S: Store + Drop>(region: &Region<S>, state: &OrdersState, name: Name4) -> usize
    requires { region.now ≡ state.now.region }
    ensures { result ≡ came_of state.now name }
{
    let Some(number) = region.terminals().get_index_of(&name) else {
        return 0;
    };
    state.come.as_slice().get(number).copied().unwrap_or(0)
}

/// Whether one of some keys is of a terminal.
fn has_key(keys: &[KeyLine], name: Name4) -> bool
    ensures { result ≡ list_any (λ (other : KeyLine). is_name other.name name) keys.now }
{
    keys.iter().any(|key| key.name == name)
}

/// Adds how many keys of a terminal are left, where some are.
fn left_line(report: &mut Report, name: Name4, left: usize) -> Result<(), AllocError>
    ensures { OnOk result (report.new ≡ report.old ++ left_line name left) }
{
    if left == 0 {
        return Ok(());
    }
    let shown = shown_name(report.alloc(), name)?;
    let number = decimal(report.alloc(), left)?;
    report.line(&[b"KEYS", shown.as_slice(), number.as_slice()])
}

/// How many keys of a terminal didn't come.
fn left_of<S: Store + Drop>(
    region: &Region<S>,
    state: &OrdersState,
    keys: &[KeyLine],
    name: Name4,
) -> usize
    requires { region.now ≡ state.now.region }
    ensures { result ≡ length (keys_of keys.now name) - came_of state.now name }
{
    many_of(keys, name).saturating_sub(came_of(region, state, name))
}

/// Adds how many keys of a terminal are left, where none of the later keys is of it.
#[tactic(auto, unfolding(crate::specs::Rest::key_lines))]
fn key_lines(
    report: &mut Report,
    name: Name4,
    left: usize,
    later: &[KeyLine],
) -> Result<(), AllocError>
    ensures { OnOk result (report.new ≡ report.old ++ key_lines name left later.now) }
{
    if has_key(later, name) {
        return Ok(());
    }
    left_line(report, name, left)
}

/// Adds the lines of keys that couldn't come.
#[tactic(auto, unfolding(crate::specs::Rest::keys_text))]
fn keys_text<S: Store + Drop>(
    report: &mut Report,
    region: &Region<S>,
    state: &OrdersState,
    keys: &[KeyLine],
) -> Result<(), AllocError>
    requires { region.now ≡ state.now.region }
    ensures { OnOk result (report.new ≡ report.old ++ keys_text state.now keys.now keys.now) }
{
    let mut rest = keys;
    while let Some((key, later)) = rest.split_first() {
        let left = left_of(region, state, keys, key.name);
        key_lines(report, key.name, left, later)?;
        rest = later;
    }
    Ok(())
}

/// What is written of a state at rest: a line `ABENDS` with the terminal and the code of each abend that ended a task
/// on the way, a line `ANSWERS` with the terminal and the answer of each key that was neither answered Attached nor
/// Given, the line of each terminal whose task waits, a line `KEYS` with each terminal of which keys couldn't come and
/// how many, and what is to be seen. The region is at that state.
///
/// An error comes only where memory was refused.
pub fn rest_text<S: Store + Drop, V: Seen<S>>(
    alloc: Global,
    region: &Region<S>,
    state: &OrdersState,
    keys: &[KeyLine],
    seen: &V,
) -> Result<Report, AllocError>
    requires { region.now ≡ state.now.region }
    ensures { IfOk result (RestText (V.shows seen.now) keys.now state.now) }
{
    // First, since its clause says that the region is sound, which the calls after it need.
    region.counter();
    let waits = waits_text(alloc, region)?;
    let sight = seen.seen(alloc, region)?;
    let mut report = Report::new(alloc);
    incident_lines(&mut report, region, state.incidents.as_slice())?;
    report.append(&waits)?;
    keys_text(&mut report, region, state, keys)?;
    report.append(&sight)?;
    Ok(report)
}
