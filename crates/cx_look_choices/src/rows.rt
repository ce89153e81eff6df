//! What is written of each state.

ghost use Rattle.std.specs.Prelude.{◌≡◌, ◌+◌, ◌<◌, ◌≤◌, IfOk, OnOk, length, option_map, slice_get};
ghost use Rattle.cx_choices.specs.Moves.{Goes, begun};
ghost use Rattle.cx_look_choices.specs.Parts.Ways.{AreFirstRows, AreFirstWithin, HasFound};
ghost use Rattle.cx_look_choices.specs.Rows.{AreRows};
ghost use Rattle.cx_search.specs.Finds.{Finds};

use crate::arrows::arrows_of;
use crate::numbers::compare_numbers;
use crate::presses::{Press, presses_to};
use crate::screens::{screen_of, state_text};
use cx_base::List;
use cx_choices::Choices;
use cx_look_lines::Report;
use cx_look_steps::Seen;
use cx_orders::IncidentAt;
use cx_region::Region;
use cx_search::Found;
use cx_storage::Store;
use std::alloc::AllocError;

/// Where a key leads from a state.
#[derive(Drop)]
pub struct Arrow {
    /// The choice's number, counted from 0.
    pub choice: usize,
    /// The place of the state that it leads to, counted from 0; `None` where that isn't written.
    pub to: Option<usize>,
    /// The key where it is refused, and the abends of the turns that follow it, in the order in which they come.
    pub incidents: List<IncidentAt>,
}

/// What is written of a state.
#[derive(Drop)]
pub struct StateRow {
    /// The soonest list of keys that leads there.
    pub presses: List<Press>,
    /// The number of what is to be seen, counted from 0 in the order in which texts come first.
    pub screen: usize,
    /// Where the keys lead that can be pressed there, in their order.
    pub arrows: List<Arrow>,
    /// Whether the list isn't the same with numbers of tasks that count on: other turns follow its keys, or another
    /// text is written of the state that it leads to. It is the same without one number.
    pub list_differs: bool,
    /// Whether one of the keys that are pressed after it isn't: it can't be pressed, has other abends, is refused
    /// otherwise, or leads to a state of another text.
    pub keys_differ: bool,
}

/// What was searched: the states that lists of keys lead to from a region, of which the first are written.
#[derive(Drop)]
pub(crate) struct Searched<'a, S: Store + Drop> {
    pub region: &'a Region<S>,
    pub choices: &'a Choices<S>,
    pub found: &'a Found<Choices<S>>,
    /// How many states are written.
    pub many: usize,
}

/// What is written of states: what is to be seen of them, each text once, in the order in which the texts come first,
/// and a row of each.
#[derive(Drop)]
pub(crate) struct Rows {
    pub texts: Vec<Report>,
    pub rows: Vec<StateRow>,
}

/// How many moves lead to the state at a place; `None` where none is there.
fn moves_at<S: Store + Drop>(found: &Found<Choices<S>>, place: usize) -> Option<usize>
    ensures { result ≡ option_map (λ entry. entry.1.moves) (slice_get found.now.states.entries place) }
{
    let (_, origin) = found.states.get_index(place)?;
    Some(origin.moves)
}

/// How many of the states that were found are led to by lists of at most so many moves: they come first.
fn many_within<S: Store + Drop>(found: &Found<Choices<S>>, moves: usize) -> usize
    ensures { AreFirstWithin found.now.states.entries moves result }
{
    for place in 0..found.states.len() {
        if let Some(many) = moves_at(found, place) {
            if many > moves {
                return place;
            }
        }
    }
    found.states.len()
}

/// Adds what is written of the state at the next place.
///
/// An error comes only where memory was refused.
fn add_row<S: Store + Drop, V: Seen<S>>(
    searched: &Searched<S>,
    seen: &V,
    work: &mut Region<S>,
    place: usize,
    rows: &mut Rows,
) -> Result<(), AllocError>
    requires finds { Finds (Goes searched.now.choices.now.choices.items searched.now.choices.now.one_number)
        (begun searched.now.region.now) searched.now.found.now.states.entries }
    requires within { place < searched.now.many }
    requires few { searched.now.many ≤ length searched.now.found.now.states.entries }
    requires so_far { AreFirstRows (V.shows seen.now) searched.now.choices.now.choices.items
        searched.now.choices.now.one_number searched.now.region.now searched.now.found.now.states.entries
        searched.now.many place rows.old.texts.items rows.old.rows.items }
    ensures { OnOk result (AreFirstRows (V.shows seen.now) searched.now.choices.now.choices.items
        searched.now.choices.now.one_number searched.now.region.now searched.now.found.now.states.entries
        searched.now.many (place + 1) rows.new.texts.items rows.new.rows.items) }
{
    let choices = searched.choices;
    let Some((state, _origin)) = searched.found.states.get_index(place) else {
        return Ok(());
    };
    let presses = presses_to(searched.region, choices, searched.found, work, place)?;
    let arrows = arrows_of(searched, work, state)?;
    let listed = presses.as_slice();
    let compared = compare_numbers(searched.region, choices, seen, work, state, listed)?;
    let text = state_text(choices.alloc, work, state, seen)?;
    let screen = screen_of(&mut rows.texts, text)?;
    rows.rows.push(StateRow {
        presses,
        screen,
        arrows,
        list_differs: compared.list,
        keys_differ: compared.keys,
    })?;
    Ok(())
}

/// What is written of the first states that were found.
///
/// An error comes only where memory was refused.
fn first_rows<S: Store + Drop, V: Seen<S>>(
    searched: &Searched<S>,
    seen: &V,
    work: &mut Region<S>,
) -> Result<Rows, AllocError>
    requires finds { Finds (Goes searched.now.choices.now.choices.items searched.now.choices.now.one_number)
        (begun searched.now.region.now) searched.now.found.now.states.entries }
    requires few { searched.now.many ≤ length searched.now.found.now.states.entries }
    ensures { IfOk result (λ rows. AreFirstRows (V.shows seen.now) searched.now.choices.now.choices.items
        searched.now.choices.now.one_number searched.now.region.now searched.now.found.now.states.entries
        searched.now.many searched.now.many rows.texts.items rows.rows.items) }
{
    let alloc = searched.choices.alloc;
    let mut rows = Rows {
        texts: Vec::new(alloc),
        rows: Vec::new(alloc),
    };
    for place in 0..searched.many {
        add_row(searched, seen, work, place, &mut rows)?;
    }
    Ok(rows)
}

/// What is written of the states that lists of at most so many keys lead to, all of which were found.
///
/// An error comes only where memory was refused.
pub(crate) fn rows_of<S: Store + Drop, V: Seen<S>>(
    region: &Region<S>,
    choices: &Choices<S>,
    found: &Found<Choices<S>>,
    keys: usize,
    seen: &V,
    work: &mut Region<S>,
) -> Result<Rows, AllocError>
    requires finds { Finds (Goes choices.now.choices.items choices.now.one_number) (begun region.now)
        found.now.states.entries }
    requires all { HasFound choices.now.choices.items choices.now.one_number region.now found.now.states.entries keys }
    ensures { IfOk result (λ rows. AreRows (V.shows seen.now) choices.now.choices.items choices.now.one_number
        region.now keys rows.texts.items rows.rows.items) }
{
    let searched = Searched {
        region,
        choices,
        found,
        many: many_within(found, keys),
    };
    first_rows(&searched, seen, work)
}
