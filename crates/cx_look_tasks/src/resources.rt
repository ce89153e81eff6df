//! RESOURCES.

ghost use Rattle.std.specs.Prelude.{◌≡◌, ◌++◌, IfOk, OnOk};
ghost use Rattle.std.specs.List.{flat_map};
ghost use Rattle.cx_region.specs.Sound.{IsSound};
ghost use Rattle.cx_look_tasks.specs.Parts.Words.{hold_line, waiter_line};
ghost use Rattle.cx_look_tasks.specs.Tasks.{ResourcesText, resource_lines, waits_for};

use crate::activities::{Activity, Wait};
use crate::lines::{TerminalLine, terminal_lines};
use crate::tasks::{activities_in, owner_name, resource_value};
use cx_base::{decimal, shown_name};
use cx_ebcdic::Name4;
use cx_look_lines::Report;
use cx_region::Region;
use cx_service::{Hold, ResourceName};
use cx_storage::Store;
use indexmap::IndexMap;
use std::alloc::{AllocError, Global};

/// Whether a task waits for a resource.
pub(crate) fn waits_for(name: &ResourceName, activity: &Activity) -> bool
    ensures { result ≡ waits_for name.now activity.now }
{
    match activity {
        Activity::Waiting(Wait::Resource(Some(waited))) => waited == name,
        _ => false,
    }
}

/// Adds the line of a resource, with its owner and count.
fn hold_line<S: Store + Drop>(
    report: &mut Report,
    region: &Region<S>,
    name: &ResourceName,
    hold: Hold,
) -> Result<(), AllocError>
    ensures { OnOk result (report.new ≡ report.old ++ hold_line region.now name.now hold) }
{
    let resource = resource_value(report.alloc(), name)?;
    let owner = owner_name(report.alloc(), region, hold.owner)?;
    let count = decimal::<5>(u32::from(hold.count));
    report.line(&[
        b"RESOURCE",
        resource.as_slice(),
        b"OWNER",
        owner.as_slice(),
        b"COUNT",
        &count,
    ])
}

/// Adds the line of a terminal whose task waits for a resource.
pub(crate) fn waiter_line(
    report: &mut Report,
    name: &ResourceName,
    terminal: Name4,
) -> Result<(), AllocError>
    ensures { OnOk result (report.new ≡ report.old ++ waiter_line name.now terminal) }
{
    let resource = resource_value(report.alloc(), name)?;
    let terminal = shown_name(report.alloc(), terminal)?;
    report.line(&[
        b"RESOURCE",
        resource.as_slice(),
        b"WAITER",
        terminal.as_slice(),
    ])
}

/// The resources that are owned.
fn holds<S: Store + Drop>(region: &Region<S>) -> &IndexMap<ResourceName, Hold>
    ensures { result.now.entries ≡ region.now.shared.resources }
{
    region.shared().enqueues.all()
}

/// Adds the lines of a resource.
#[tactic(auto, unfolding(crate::specs::Tasks::resource_lines))]
fn lines_of_hold<S: Store + Drop>(
    report: &mut Report,
    region: &Region<S>,
    activities: &[Activity],
    name: &ResourceName,
    hold: Hold,
) -> Result<(), AllocError>
    ensures { let more = resource_lines region.now activities.now (name.now, hold) in
        OnOk result (report.new ≡ report.old ++ more) }
{
    hold_line(report, region, name, hold)?;
    terminal_lines(report, region, &TerminalLine::Waiter(*name), activities)
}

/// The lines of all resources.
fn resource_lines<S: Store + Drop>(
    alloc: Global,
    region: &Region<S>,
    activities: &[Activity],
) -> Result<Report, AllocError>
    ensures { let lines = flat_map (resource_lines region.now activities.now) region.now.shared.resources in
        IfOk result (λ report. report ≡ lines) }
{
    let mut report = Report::new(alloc);
    let held = holds(region);
    for (name, hold) in held.iter() {
        lines_of_hold(&mut report, region, activities, name, *hold)?;
    }
    Ok(report)
}

/// A line for each resource that is owned, with its owner and count, and one for each terminal whose task waits for it;
/// NONE where none is owned.
///
/// An error comes only where memory for it was refused.
pub fn resources_text<S: Store + Drop>(
    alloc: Global,
    region: &Region<S>,
) -> Result<Report, AllocError>
    requires { IsSound region.now }
    ensures { IfOk result (λ report. ResourcesText region.now report) }
{
    let activities = activities_in(alloc, region)?;
    let report = resource_lines(alloc, region, activities.as_slice())?;
    report.or_none(b"RESOURCES")
}
