//! FREEMAIN.
ghost use Rattle.std.specs.Prelude.{◌≡◌};
ghost use Rattle.cx_region_commands.specs.Freemain.{freemain_row, is_got_by};

use crate::common::{condition_alone, does, place_at};
use cx_base::{Condition, OptionName};
use cx_region_state::{AfterOutputs, CallInputs, TaskChange, Verdict};
use cx_storage::{Area, Kind, Store};

/// Whether the task of this slot got the area.
fn is_got_by(slot: u8, area: Area) -> bool
    ensures { result ≡ is_got_by slot area }
{
    area.owner.slot == slot && matches!(area.owner.kind, Kind::Got)
}

/// How a FREEMAIN is judged: INVREQ where no area starts at DATA that the task got by GETMAIN or READQ TS with SET;
/// else it meets NORMAL, and the area is freed. `slot` is the position of the task's terminal, counted from 1.
///
/// Application Programmer's Reference Manual, SC33-0077, "Storage Control".
#[tactic(auto, unfolding(crate::specs::Freemain::freemain_row))]
pub(crate) fn judge_freemain<S: Store>(inputs: &CallInputs<S>, slot: u8) -> Verdict
    ensures { result ≡ freemain_row inputs.now.storage slot inputs.now.call }
{
    let place = place_at(inputs.call(), OptionName::Data);
    match inputs.store().area_at(place) {
        Some(area) if is_got_by(slot, area) => does(TaskChange::After(AfterOutputs::Frees(place))),
        _ => condition_alone(Condition::Invreq),
    }
}
