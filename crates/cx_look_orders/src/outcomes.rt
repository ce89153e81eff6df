//! The outcomes of orders.

ghost use Rattle.std.specs.Prelude.{◌≡◌, ◌+◌, IfOk, MatchBool, OnOk, slice_get};
ghost use Rattle.cx_look_orders.specs.Outcomes.{AreOutcomes, HasText};
ghost use Rattle.cx_look_orders.specs.Parts.Ways.{AreOfFirst, AreSorted, Reaches};
ghost use Rattle.cx_orders.specs.Moves.{Moves, begun};
ghost use Rattle.cx_search.specs.Finds.{Finds};

use crate::rest::rest_text;
use crate::steps::steps_to;
use cx_base::List;
use cx_look_lines::Report;
use cx_look_steps::{Seen, Step};
use cx_look_tasks::laws::texts_decide;
use cx_orders::Orders;
use cx_region::Region;
use cx_search::Found;
use cx_search::laws::{one_list_is_sooner, one_list_leads_first};
use cx_storage::Store;
use std::alloc::AllocError;

/// What is written of a state at rest, and the steps that lead there first.
#[derive(Drop)]
pub struct Outcome {
    pub text: Report,
    pub steps: List<Step>,
}

/// Whether an outcome has that text.
fn has_text(outcomes: &[Outcome], text: &Report) -> bool
    ensures { MatchBool result (HasText outcomes.now text.now) (HasText outcomes.now text.now → ⊥) }
{
    for one in outcomes {
        if one.text.is_same(text) {
            return true;
        }
    }
    false
}

/// One of some places.
fn place_at(places: &[usize], index: usize) -> Option<usize>
    ensures { result ≡ slice_get places.now index }
{
    places.get(index).copied()
}

/// What was searched: the states that orders lead to from a region, and what is to be seen of each.
#[derive(Drop)]
pub(crate) struct Searched<'a, S: Store + Drop, V: Seen<S>> {
    pub region: &'a Region<S>,
    pub orders: &'a Orders<S>,
    pub found: &'a Found<Orders<S>>,
    pub seen: &'a V,
}

/// Adds the outcome of the state at one of the places at rest, where none has its text.
///
/// An error comes only where memory was refused.
fn add_outcome<S: Store + Drop, V: Seen<S>>(
    searched: &Searched<S, V>,
    work: &mut Region<S>,
    places: &[usize],
    index: usize,
    outcomes: &mut Vec<Outcome>,
) -> Result<(), AllocError>
    requires found { Finds (Moves searched.now.orders.now.keys) (begun searched.now.region.now)
        searched.now.found.now.states.entries }
    requires sorted { AreSorted places.now }
    requires so_far { AreOfFirst (V.shows searched.now.seen.now) (V.tells searched.now.seen.now)
        searched.now.orders.now.keys (begun searched.now.region.now) searched.now.found.now.states.entries
        places.now index outcomes.old.items }
    ensures { OnOk result (AreOfFirst (V.shows searched.now.seen.now) (V.tells searched.now.seen.now)
        searched.now.orders.now.keys (begun searched.now.region.now) searched.now.found.now.states.entries
        places.now (index + 1) outcomes.new.items) }
{
    let orders = searched.orders;
    searched.seen.shows_decide();
    texts_decide();
    let Some(place) = place_at(places, index) else {
        return Ok(());
    };
    let Some((state, _origin)) = searched.found.states.get_index(place) else {
        return Ok(());
    };
    state.region.restore(work)?;
    let text = rest_text(
        orders.alloc,
        work,
        state,
        orders.keys.lines.as_slice(),
        searched.seen,
    )?;
    if has_text(outcomes.as_slice(), &text) {
        return Ok(());
    }
    let steps = steps_to(
        searched.region,
        orders,
        searched.found,
        searched.seen,
        work,
        place,
    )?;
    outcomes.push(Outcome { text, steps })?;
    Ok(())
}

/// The outcomes of the states at rest that were found; where moves are limited, of those that at most so many lead to.
///
/// An error comes only where memory was refused.
pub(crate) fn outcomes_of<S: Store + Drop, V: Seen<S>>(
    searched: &Searched<S, V>,
    work: &mut Region<S>,
    cut: Option<usize>,
) -> Result<Vec<Outcome>, AllocError>
    requires finds { Finds (Moves searched.now.orders.now.keys) (begun searched.now.region.now)
        searched.now.found.now.states.entries }
    requires reaches { Reaches searched.now.orders.now.keys (begun searched.now.region.now)
        searched.now.found.now.states.entries cut }
    ensures { IfOk result (λ outcomes. AreOutcomes (V.shows searched.now.seen.now) (V.tells searched.now.seen.now)
        searched.now.orders.now.keys (begun searched.now.region.now) cut outcomes.items) }
{
    searched.seen.shows_decide();
    texts_decide();
    one_list_is_sooner();
    one_list_leads_first::<Orders<S>>();
    let resting = searched.found.resting(searched.orders, work, cut)?;
    let places = resting.as_slice();
    let mut outcomes = Vec::new(searched.orders.alloc);
    for index in 0..places.len() {
        add_outcome(searched, work, places, index, &mut outcomes)?;
    }
    Ok(outcomes)
}
