//! Keys that are pressed one after another.

ghost use Rattle.std.specs.Prelude.{IfOk, MatchOption};
ghost use Rattle.cx_choices.specs.Moves.{Chooses, Goes, begun};
ghost use Rattle.cx_choices.specs.declared.states.ChoicesState.{ChoicesState as TheState};
ghost use Rattle.cx_choices.specs.declared.states.Passage.{Passage as ThePassage};
ghost use Rattle.cx_look_choices.specs.Parts.Ways.{AreFirstPresses, ArePressesOf, IsPressed};
ghost use Rattle.cx_search.specs.Finds.{Finds};
ghost use Rattle.cx_search.specs.Found.{IsAt};
ghost use Rattle.cx_search.specs.Moves.{Leads};

use cx_base::List;
use cx_choices::laws::choices_decide;
use cx_choices::{Choices, ChoicesState, TurnMade};
use cx_region::Region;
use cx_region_snapshot::RegionSnapshot;
use cx_search::Found;
use cx_storage::Store;
use std::alloc::AllocError;

/// A key that is pressed.
#[derive(Drop)]
pub struct Press {
    /// The choice's number, counted from 0.
    pub choice: usize,
    /// The turns that follow it, in their order.
    pub made: List<TurnMade>,
}

/// A key that is pressed, and the state that it leads to.
#[derive(Drop)]
struct Pressed {
    press: Press,
    to: ChoicesState,
}

/// Presses the key with that number in a state; `None` where it can't be pressed there.
///
/// An error comes only where memory was refused.
fn press_from<S: Store + Drop>(
    choices: &Choices<S>,
    work: &mut Region<S>,
    from: &ChoicesState,
    number: usize,
) -> Result<Option<Pressed>, AllocError>
    ensures { IfOk result (λ pressed. MatchOption pressed
        ((passage : ThePassage)
        → Chooses choices.now.choices.items choices.now.one_number from.now.region number passage → ⊥)
        (λ pressed. IsPressed choices.now.choices.items choices.now.one_number from.now number pressed.press
        pressed.to)) }
{
    let Some(passage) = choices.pass(work, &from.region, number)? else {
        return Ok(None);
    };
    let to = choices.led_to(work, passage.after)?;
    let press = Press {
        choice: number,
        made: passage.made,
    };
    Ok(Some(Pressed { press, to }))
}

/// The presses of a list of moves from a state.
///
/// An error comes only where memory was refused.
fn presses_of<S: Store + Drop>(
    choices: &Choices<S>,
    work: &mut Region<S>,
    start: ChoicesState,
    moves: &[usize],
) -> Result<List<Press>, AllocError>
    ensures { (to : TheState) → Leads (Goes choices.now.choices.items choices.now.one_number) start moves.now to
        → IfOk result (ArePressesOf choices.now.choices.items choices.now.one_number start moves.now to) }
{
    choices_decide();
    let mut at = start;
    let mut presses = Vec::new(choices.alloc);
    for number in moves {
        let Some(pressed) = press_from(choices, work, &at, *number)? else {
            return Ok(List::from_vec(presses));
        };
        presses.push(pressed.press)?;
        at = pressed.to;
    }
    Ok(List::from_vec(presses))
}

/// The presses of the list that leads first to the state at a place of those that were found, from that of the region.
///
/// An error comes only where memory was refused.
pub(crate) fn presses_to<S: Store + Drop>(
    region: &Region<S>,
    choices: &Choices<S>,
    found: &Found<Choices<S>>,
    work: &mut Region<S>,
    place: usize,
) -> Result<List<Press>, AllocError>
    ensures { (state : TheState)
        → Finds (Goes choices.now.choices.items choices.now.one_number) (begun region.now) found.now.states.entries
        → IsAt found.now.states.entries place state
        → IfOk result (AreFirstPresses choices.now.choices.items choices.now.one_number (begun region.now) state) }
{
    let moves = found.path(place, choices.alloc)?;
    let region = RegionSnapshot::take(choices.alloc, region, None)?;
    let start = ChoicesState { region };
    presses_of(choices, work, start, moves.as_slice())
}
