//! What was kept of a way to a state, as lines.

ghost use Rattle.std.specs.Prelude.{◌≡◌, ◌++◌, IfOk, OnOk};
ghost use Rattle.std.specs.List.{flat_map};
ghost use Rattle.cx_look_steps.specs.Incidents.{incident_line, incident_value, incident_word, terminal_name_at};

use cx_base::shown_name;
use cx_look_lines::Report;
use cx_orders::{Incident, IncidentAt};
use cx_region::Region;
use cx_storage::Store;
use std::alloc::{AllocError, Global};

/// The word of what was kept of a way.
fn incident_word(incident: &Incident) -> &'static [u8]
    ensures { result.now ≡ incident_word incident.now }
{
    match incident {
        Incident::Abended(_code) => b"ABENDS",
        Incident::Refused(_reply) => b"ANSWERS",
    }
}

/// The abend's code, or the answer.
fn incident_value(alloc: Global, incident: &Incident) -> Result<Vec<u8>, AllocError>
    ensures { IfOk result (λ value. value.items ≡ incident_value incident.now) }
{
    match incident {
        Incident::Abended(code) => shown_name(alloc, *code),
        Incident::Refused(reply) => reply.name().as_bytes().to_vec(alloc),
    }
}

/// The name of the terminal with that number.
pub(crate) fn terminal_name_at<S: Store + Drop>(
    alloc: Global,
    region: &Region<S>,
    number: usize,
) -> Result<Vec<u8>, AllocError>
    ensures { IfOk result (λ name. name.items ≡ terminal_name_at region.now number) }
{
    match region.terminals().get_index(number) {
        Some((name, _terminal)) => shown_name(alloc, *name),
        None => Ok(Vec::new(alloc)),
    }
}

/// Adds the line of what was kept of a way.
#[tactic(auto, unfolding(crate::specs::Incidents::incident_line))]
fn incident_line<S: Store + Drop>(
    report: &mut Report,
    region: &Region<S>,
    one: &IncidentAt,
) -> Result<(), AllocError>
    ensures { OnOk result (report.new ≡ report.old ++ incident_line region.now one.now) }
{
    let name = terminal_name_at(report.alloc(), region, one.number)?;
    let value = incident_value(report.alloc(), &one.incident)?;
    report.line(&[
        incident_word(&one.incident),
        name.as_slice(),
        value.as_slice(),
    ])
}

/// Adds a line for each that was kept.
///
/// An error comes only where memory was refused.
pub fn incident_lines<S: Store + Drop>(
    report: &mut Report,
    region: &Region<S>,
    incidents: &[IncidentAt],
) -> Result<(), AllocError>
    ensures { let more = flat_map (incident_line region.now) incidents.now in
        OnOk result (report.new ≡ report.old ++ more) }
{
    for one in incidents {
        incident_line(report, region, one)?;
    }
    Ok(())
}
