//! Whether lists of keys do the same with numbers of tasks that count on.

ghost use Rattle.std.specs.Prelude.{◌≡◌, ◌<◌, ◌≤◌, ℕ, IfOk, MatchBool, MatchOption, None, length, unwrap_or};
ghost use Rattle.cx_choices.specs.Moves.{begun};
ghost use Rattle.cx_choices.specs.declared.states.ChoicesState.{ChoicesState as TheState};
ghost use Rattle.cx_look_choices.specs.Parts.Ways.{AreCompared};
ghost use Rattle.cx_look_choices.specs.Presses.{ArePresses, IsPress};
ghost use Rattle.cx_look_choices.specs.Rows.{CannotPress, Does, IsSameKey, ShowSame};

use crate::arrows::{incidents_of, many_keys};
use crate::presses::Press;
use crate::screens::state_text;
use cx_base::{List, are_same_items};
use cx_choices::laws::choices_decide;
use cx_choices::{Choices, ChoicesState};
use cx_look_steps::Seen;
use cx_look_tasks::laws::texts_decide;
use cx_orders::IncidentAt;
use cx_region::Region;
use cx_region_snapshot::RegionSnapshot;
use cx_storage::Store;
use std::alloc::AllocError;

/// What is kept of a key that is pressed, and the state that it leads to.
#[derive(Drop)]
pub(crate) struct KeyDone {
    pub incidents: List<IncidentAt>,
    pub to: ChoicesState,
}

/// Presses the key with that number in a state, with one number or without; `None` where it can't be pressed there.
///
/// An error comes only where memory was refused.
fn key_done<S: Store + Drop>(
    region: &Region<S>,
    choices: &Choices<S>,
    work: &mut Region<S>,
    from: &ChoicesState,
    number: usize,
    one_number: Option<u32>,
) -> Result<Option<KeyDone>, AllocError>
    requires { unwrap_or one_number 0 ≤ 9999999 }
    ensures { IfOk result (λ done. MatchOption done
        (CannotPress choices.now.choices.items region.now one_number from.now number)
        (λ done. Does choices.now.choices.items region.now one_number from.now number done.incidents done.to)) }
{
    let Some(passage) = choices.pass_with(work, &from.region, number, one_number)? else {
        return Ok(None);
    };
    let keys = choices.choices.as_slice();
    let incidents = incidents_of(choices.alloc, region, keys, number, &passage)?;
    let to = choices.led_with(work, passage.after, one_number)?;
    Ok(Some(KeyDone { incidents, to }))
}

/// Whether one text is written of two states.
///
/// An error comes only where memory was refused.
fn show_same<S: Store + Drop, V: Seen<S>>(
    choices: &Choices<S>,
    work: &mut Region<S>,
    one: &ChoicesState,
    other: &ChoicesState,
    seen: &V,
) -> Result<bool, AllocError>
    ensures { IfOk result (λ same. MatchBool same (ShowSame (V.shows seen.now) one.now other.now)
        (ShowSame (V.shows seen.now) one.now other.now → ⊥)) }
{
    texts_decide();
    seen.shows_decide();
    let first = state_text(choices.alloc, work, one, seen)?;
    let second = state_text(choices.alloc, work, other, seen)?;
    let same = first.is_same(&second);
    Ok(same)
}

/// Whether a key that was pressed in a state, and in that which numbers that count on lead to, does the same.
///
/// An error comes only where memory was refused.
fn is_same_key<S: Store + Drop, V: Seen<S>>(
    region: &Region<S>,
    choices: &Choices<S>,
    seen: &V,
    work: &mut Region<S>,
    from: &ChoicesState,
    real: &ChoicesState,
    number: usize,
) -> Result<bool, AllocError>
    ensures { IfOk result (λ same. MatchBool same
        (IsSameKey (V.shows seen.now) choices.now.choices.items choices.now.one_number region.now from.now real.now
        number)
        (IsSameKey (V.shows seen.now) choices.now.choices.items choices.now.one_number region.now from.now real.now
        number → ⊥)) }
{
    choices_decide();
    let other = key_done(region, choices, work, real, number, None)?;
    let Some(one) = key_done(region, choices, work, from, number, choices.one_number)? else {
        let neither = other.is_none();
        return Ok(neither);
    };
    let Some(other) = other else {
        return Ok(false);
    };
    if !are_same_items(one.incidents.as_slice(), other.incidents.as_slice()) {
        return Ok(false);
    }
    let same = show_same(choices, work, &one.to, &other.to, seen)?;
    Ok(same)
}

/// Whether each key does the same in a state, and in that which numbers that count on lead to.
///
/// An error comes only where memory was refused.
fn are_same_keys<S: Store + Drop, V: Seen<S>>(
    region: &Region<S>,
    choices: &Choices<S>,
    seen: &V,
    work: &mut Region<S>,
    from: &ChoicesState,
    real: &ChoicesState,
) -> Result<bool, AllocError>
    ensures { let Same = IsSameKey (V.shows seen.now) choices.now.choices.items choices.now.one_number region.now from.now
        real.now in IfOk result (λ same. MatchBool same
        ((number : ℕ) → number < length choices.now.choices.items → Same number)
        (((number : ℕ) → number < length choices.now.choices.items → Same number) → ⊥)) }
{
    for number in 0..many_keys(choices) {
        let same = is_same_key(region, choices, seen, work, from, real, number)?;
        if !same {
            return Ok(false);
        }
    }
    Ok(true)
}

/// Makes a press once more, with numbers that count on, and gives the state that it leads to; `None` where the key
/// can't be pressed, or other turns follow.
///
/// An error comes only where memory was refused.
fn press_again<S: Store + Drop>(
    choices: &Choices<S>,
    work: &mut Region<S>,
    from: &ChoicesState,
    press: &Press,
) -> Result<Option<ChoicesState>, AllocError>
    ensures { IfOk result (λ real. MatchOption real
        ((to : TheState) → IsPress choices.now.choices.items None from.now press.now to → ⊥)
        (IsPress choices.now.choices.items None from.now press.now)) }
{
    choices_decide();
    let Some(passage) = choices.pass_with(work, &from.region, press.choice, None)? else {
        return Ok(None);
    };
    if !are_same_items(press.made.as_slice(), passage.made.as_slice()) {
        return Ok(None);
    }
    let to = choices.led_with(work, passage.after, None)?;
    Ok(Some(to))
}

/// Makes presses once more, with numbers that count on, and gives the state that they lead to; `None` where a key can't
/// be pressed, or other turns follow.
///
/// An error comes only where memory was refused.
fn made_again<S: Store + Drop>(
    choices: &Choices<S>,
    work: &mut Region<S>,
    start: ChoicesState,
    presses: &[Press],
) -> Result<Option<ChoicesState>, AllocError>
    ensures { IfOk result (λ real. MatchOption real
        ((to : TheState) → ArePresses choices.now.choices.items None start presses.now to → ⊥)
        (ArePresses choices.now.choices.items None start presses.now)) }
{
    choices_decide();
    let mut at = start;
    for press in presses {
        let Some(to) = press_again(choices, work, &at, press)? else {
            return Ok(None);
        };
        at = to;
    }
    Ok(Some(at))
}

/// The state that presses lead to from a region's, made once more with numbers that count on; `None` where a key can't
/// be pressed, or other turns follow.
///
/// An error comes only where memory was refused.
fn real_state<S: Store + Drop>(
    region: &Region<S>,
    choices: &Choices<S>,
    work: &mut Region<S>,
    presses: &[Press],
) -> Result<Option<ChoicesState>, AllocError>
    ensures { IfOk result (λ real. MatchOption real
        ((to : TheState) → ArePresses choices.now.choices.items None (begun region.now) presses.now to → ⊥)
        (ArePresses choices.now.choices.items None (begun region.now) presses.now)) }
{
    let region = RegionSnapshot::take(choices.alloc, region, None)?;
    let real = made_again(choices, work, ChoicesState { region }, presses)?;
    Ok(real)
}

/// Whether a list, and the keys after it, aren't the same with numbers that count on.
#[derive(Clone, Copy)]
pub(crate) struct Compared {
    pub list: bool,
    pub keys: bool,
}

/// Whether the list that leads to a state, and the keys that are pressed after it, aren't the same with numbers that
/// count on; never without one number.
///
/// An error comes only where memory was refused.
pub(crate) fn compare_numbers<S: Store + Drop, V: Seen<S>>(
    region: &Region<S>,
    choices: &Choices<S>,
    seen: &V,
    work: &mut Region<S>,
    state: &ChoicesState,
    presses: &[Press],
) -> Result<Compared, AllocError>
    ensures { IfOk result (λ it. AreCompared (V.shows seen.now) choices.now.choices.items choices.now.one_number region.now
        state.now presses.now it.list it.keys) }
{
    choices_decide();
    let Some(_number) = choices.one_number else {
        return Ok(Compared {
            list: false,
            keys: false,
        });
    };
    let Some(real) = real_state(region, choices, work, presses)? else {
        return Ok(Compared {
            list: true,
            keys: true,
        });
    };
    let same_list = show_same(choices, work, state, &real, seen)?;
    let same_keys = are_same_keys(region, choices, seen, work, state, &real)?;
    Ok(Compared {
        list: !same_list,
        keys: !same_keys,
    })
}
