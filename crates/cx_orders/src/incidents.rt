//! What is kept of the way to a state.

ghost use Rattle.std.specs.Prelude.{◌≡◌, IfOk, filter, nat_le, nat_lt};
ghost use Rattle.cx_orders.specs.Incidents.{incident_of_key, incident_of_turn, with_incident};

use crate::states::{Incident, IncidentAt};
use cx_base::List;
use cx_region::{KeyReply, TurnReply};
use std::alloc::{AllocError, Global};

/// What is kept of a turn, by its answer.
pub fn incident_of_turn(reply: TurnReply) -> Option<Incident>
    ensures { result ≡ incident_of_turn reply }
{
    match reply {
        TurnReply::Abended(code) => Some(Incident::Abended(code)),
        _ => None,
    }
}

/// What is kept of a key, by its answer.
pub fn incident_of_key(reply: KeyReply) -> Option<Incident>
    ensures { result ≡ incident_of_key reply }
{
    match reply {
        KeyReply::Attached | KeyReply::Given => None,
        _ => Some(Incident::Refused(reply)),
    }
}

/// What was kept of terminals with at most that number.
///
/// An error comes only where an allocation failed.
fn up_to(
    alloc: Global,
    number: usize,
    incidents: &[IncidentAt],
) -> Result<Vec<IncidentAt>, AllocError>
    ensures { IfOk result (λ some. some.items ≡ filter (λ i. nat_le i.number number) incidents.now) }
{
    let mut some = Vec::from_slice(alloc, incidents)?;
    some.retain(|one| one.number <= number);
    Ok(some)
}

/// What was kept of terminals with a higher number.
///
/// An error comes only where an allocation failed.
fn above(
    alloc: Global,
    number: usize,
    incidents: &[IncidentAt],
) -> Result<Vec<IncidentAt>, AllocError>
    ensures { IfOk result (λ some. some.items ≡ filter (λ i. nat_lt number i.number) incidents.now) }
{
    let mut some = Vec::from_slice(alloc, incidents)?;
    some.retain(|one| number < one.number);
    Ok(some)
}

/// What was kept, with one more of a terminal.
///
/// An error comes only where an allocation failed.
#[tactic(auto, unfolding(crate::specs::Incidents::with_incident))]
pub(crate) fn with_incident(
    alloc: Global,
    number: usize,
    what: Option<Incident>,
    incidents: &[IncidentAt],
) -> Result<List<IncidentAt>, AllocError>
    ensures { IfOk result (λ all. all ≡ with_incident number what incidents.now) }
{
    let Some(incident) = what else {
        return List::from_slice(alloc, incidents);
    };
    let higher = above(alloc, number, incidents)?;
    let mut all = up_to(alloc, number, incidents)?;
    all.push(IncidentAt { number, incident })?;
    all.extend_from_slice(higher.as_slice())?;
    Ok(List::from_vec(all))
}
