//! Where the keys lead that can be pressed in a state.

ghost use Rattle.std.specs.Prelude.{◌≡◌, ◌+◌, ◌++◌, IfOk, OnOk, length};
ghost use Rattle.std.specs.List.{flat_map};
ghost use Rattle.cx_choices.specs.Moves.{Goes, begun};
ghost use Rattle.cx_look_choices.specs.Parts.Ways.{AreFirstArrows, MayLead, StandOnce, states_of};
ghost use Rattle.cx_look_choices.specs.Presses.{key_pressed};
ghost use Rattle.cx_look_choices.specs.Rows.{AreArrows, IsPlace, incident_at, key_incidents, passage_incidents};
ghost use Rattle.cx_orders.specs.Incidents.{incident_of_turn};
ghost use Rattle.cx_search.specs.Finds.{Finds};

use crate::lists::{choice_at, terminal_number};
use crate::rows::{Arrow, Searched};
use cx_base::List;
use cx_choices::{Choices, ChoicesState, Passage, TurnMade};
use cx_orders::{Incident, IncidentAt, KeyLine, incident_of_key, incident_of_turn};
use cx_region::Region;
use cx_search::Found;
use cx_storage::Store;
use std::alloc::{AllocError, Global};

/// Adds what is kept of a terminal, where there is something.
fn push_incident(
    incidents: &mut Vec<IncidentAt>,
    number: usize,
    what: Option<Incident>,
) -> Result<(), AllocError>
    ensures { OnOk result (incidents.new.items ≡ incidents.old.items ++ incident_at number what) }
{
    let Some(incident) = what else {
        return Ok(());
    };
    incidents.push(IncidentAt { number, incident })?;
    Ok(())
}

/// Adds what is kept of the key with that number: that it was refused.
fn push_key_incidents<S: Store + Drop>(
    incidents: &mut Vec<IncidentAt>,
    region: &Region<S>,
    choices: &[KeyLine],
    number: usize,
    passage: &Passage,
) -> Result<(), AllocError>
    ensures { OnOk result (incidents.new.items ≡ incidents.old.items
        ++ flat_map (key_incidents region.now passage.now) (key_pressed choices.now number)) }
{
    let Some(choice) = choice_at(choices, number) else {
        return Ok(());
    };
    let terminal = terminal_number(region, choice.name);
    push_incident(incidents, terminal, incident_of_key(passage.reply))
}

/// Adds what is kept of turns: their abends.
fn push_turn_incidents(incidents: &mut Vec<IncidentAt>, made: &[TurnMade]) -> Result<(), AllocError>
    ensures { OnOk result (incidents.new.items ≡ incidents.old.items
        ++ flat_map (λ turn. incident_at turn.number (incident_of_turn turn.reply)) made.now) }
{
    for turn in made {
        push_incident(incidents, turn.number, incident_of_turn(turn.reply))?;
    }
    Ok(())
}

/// What is kept of a move by the key with that number.
///
/// An error comes only where memory was refused.
pub(crate) fn incidents_of<S: Store + Drop>(
    alloc: Global,
    region: &Region<S>,
    choices: &[KeyLine],
    number: usize,
    passage: &Passage,
) -> Result<List<IncidentAt>, AllocError>
    ensures { IfOk result (λ incidents. incidents
        ≡ passage_incidents region.now choices.now number passage.now) }
{
    let mut incidents = Vec::new(alloc);
    push_key_incidents(&mut incidents, region, choices, number, passage)?;
    push_turn_incidents(&mut incidents, passage.made.as_slice())?;
    Ok(List::from_vec(incidents))
}

/// The place of a state among the first of those that were found; `None` where it is none of them.
fn place_of<S: Store + Drop>(
    found: &Found<Choices<S>>,
    many: usize,
    state: &ChoicesState,
) -> Option<usize>
    requires { StandOnce found.now.states.entries }
    ensures { IsPlace (states_of many found.now.states.entries) state.now result }
{
    let Some(place) = found.place_of(state) else {
        return None;
    };
    if place < many { Some(place) } else { None }
}

/// Where the key with that number leads from a state; `None` where it can't be pressed there.
///
/// An error comes only where memory was refused.
fn arrow_of<S: Store + Drop>(
    searched: &Searched<S>,
    work: &mut Region<S>,
    from: &ChoicesState,
    number: usize,
) -> Result<Option<Arrow>, AllocError>
    requires { Finds (Goes searched.now.choices.now.choices.items searched.now.choices.now.one_number)
        (begun searched.now.region.now) searched.now.found.now.states.entries }
    ensures { IfOk result (MayLead searched.now.choices.now.choices.items searched.now.choices.now.one_number
        searched.now.region.now (states_of searched.now.many searched.now.found.now.states.entries) from.now number) }
{
    let choices = searched.choices;
    let Some(passage) = choices.pass(work, &from.region, number)? else {
        return Ok(None);
    };
    let keys = choices.choices.as_slice();
    let incidents = incidents_of(choices.alloc, searched.region, keys, number, &passage)?;
    let to = choices.led_to(work, passage.after)?;
    let to = place_of(searched.found, searched.many, &to);
    Ok(Some(Arrow {
        choice: number,
        to,
        incidents,
    }))
}

/// Adds where the key with the next number leads from a state, where it can be pressed there.
///
/// An error comes only where memory was refused.
fn add_arrow<S: Store + Drop>(
    searched: &Searched<S>,
    work: &mut Region<S>,
    from: &ChoicesState,
    number: usize,
    arrows: &mut Vec<Arrow>,
) -> Result<(), AllocError>
    requires finds { Finds (Goes searched.now.choices.now.choices.items searched.now.choices.now.one_number)
        (begun searched.now.region.now) searched.now.found.now.states.entries }
    requires so_far { AreFirstArrows searched.now.choices.now.choices.items searched.now.choices.now.one_number
        searched.now.region.now (states_of searched.now.many searched.now.found.now.states.entries) from.now number
        arrows.old.items }
    ensures { OnOk result (AreFirstArrows searched.now.choices.now.choices.items
        searched.now.choices.now.one_number searched.now.region.now
        (states_of searched.now.many searched.now.found.now.states.entries) from.now (number + 1) arrows.new.items) }
{
    let Some(arrow) = arrow_of(searched, work, from, number)? else {
        return Ok(());
    };
    arrows.push(arrow)?;
    Ok(())
}

/// How many keys there are.
pub(crate) fn many_keys<S: Store + Drop>(choices: &Choices<S>) -> usize
    ensures { result ≡ length choices.now.choices.items }
{
    choices.choices.as_slice().len()
}

/// Where each key leads that can be pressed in a state, in their order.
///
/// An error comes only where memory was refused.
pub(crate) fn arrows_of<S: Store + Drop>(
    searched: &Searched<S>,
    work: &mut Region<S>,
    from: &ChoicesState,
) -> Result<List<Arrow>, AllocError>
    requires { Finds (Goes searched.now.choices.now.choices.items searched.now.choices.now.one_number)
        (begun searched.now.region.now) searched.now.found.now.states.entries }
    ensures { IfOk result (AreArrows searched.now.choices.now.choices.items searched.now.choices.now.one_number
        searched.now.region.now (states_of searched.now.many searched.now.found.now.states.entries) from.now) }
{
    let mut arrows = Vec::new(searched.choices.alloc);
    for number in 0..many_keys(searched.choices) {
        add_arrow(searched, work, from, number, &mut arrows)?;
    }
    Ok(List::from_vec(arrows))
}
