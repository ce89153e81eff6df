//! Which terminals can act, and at which a key can be pressed.

ghost use Rattle.std.specs.Prelude.{◌≡◌, ◌<◌, ℕ, IfNone, IfSome, List as Items, MatchBool};
ghost use Rattle.cx_choices.specs.Moves.{IsReady};
ghost use Rattle.cx_choices.specs.Settling.{CanAct, IsAtRest, IsFirstToAct};

use cx_ebcdic::Name4;
use cx_look_tasks::activity;
use cx_look_tasks::laws::activities_decide;
use cx_orders::is_ready;
use cx_region::Region;
use cx_storage::Store;

/// A terminal that can act.
#[derive(Clone, Copy)]
pub(crate) struct Actor {
    /// Its number in the order of the terminals' definition, counted from 0.
    pub number: usize,
    /// Its name.
    pub name: Name4,
}

/// The name of the terminal with that number, where it can act.
fn acting_at<S: Store + Drop>(region: &Region<S>, number: usize) -> Option<Name4>
    ensures acts { IfSome result (CanAct region.now number) }
    ensures none { IfNone result ((name : Items ℕ) → CanAct region.now number name → ⊥) }
{
    region.counter();
    activities_decide();
    let (name, terminal) = region.terminals().get_index(number)?;
    let doing = activity(region, terminal);
    if doing.is_acting() { Some(*name) } else { None }
}

/// The first of the terminals that can act, in the order of their definition; `None` where none can.
pub(crate) fn first_to_act<S: Store + Drop>(region: &Region<S>) -> Option<Actor>
    ensures first { IfSome result (λ actor. IsFirstToAct region.now actor.number actor.name) }
    ensures none { IfNone result (IsAtRest region.now) }
{
    for number in 0..region.terminals().len() {
        if let Some(name) = acting_at(region, number) {
            return Some(Actor { number, name });
        }
    }
    None
}

/// Whether no terminal can act: none's next turn runs instructions, or performs a command.
pub fn is_at_rest<S: Store + Drop>(region: &Region<S>) -> bool
    ensures { MatchBool result (IsAtRest region.now) (IsAtRest region.now → ⊥) }
{
    first_to_act(region).is_none()
}

/// Whether a key can be pressed at a terminal.
pub(crate) fn can_press<S: Store + Drop>(region: &Region<S>, name: Name4) -> bool
    ensures { MatchBool result (IsReady region.now name) (IsReady region.now name → ⊥) }
{
    region.counter();
    activities_decide();
    let Some(terminal) = region.terminals().get(&name) else {
        return false;
    };
    is_ready(&activity(region, terminal))
}
