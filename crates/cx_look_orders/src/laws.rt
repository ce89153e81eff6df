//! What holds of the report of every order.

ghost use Rattle.cx_look_orders.specs.Laws.{LoopsAreEndless, ReportsDecide, TextsStandOnce};
ghost use Rattle.cx_look_steps.specs.Steps.{Telling};
ghost use Rattle.cx_orders.specs.declared.states.Keys.{Keys as TheKeys};

use cx_look_steps::Seen;
use cx_orders::laws::moves_decide;
use cx_region_laws::laws::{a_key_keeps_to_its_terminal, a_turn_keeps_to_its_task, calls_decide};
use cx_search::laws::one_list_is_sooner;
use cx_storage::Store;

/// ORDERS writes one text of a region, and no two of its outcomes have one text.
pub fn reports_decide<S: Store + Drop, V: Seen<S>>()
    ensures decide { (seen : V) (keys : TheKeys) → ReportsDecide (V.shows seen) (V.tells seen) keys }
    ensures once { (seen : V) (keys : TheKeys) → TextsStandOnce (V.shows seen) (V.tells seen) keys }
{
    moves_decide();
    calls_decide();
    a_turn_keeps_to_its_task();
    a_key_keeps_to_its_terminal();
    one_list_is_sooner();
}

/// ORDERS writes that some orders never rest exactly where there are lists of moves of any length.
pub fn loops_are_endless()
    ensures { (tells : Telling) (keys : TheKeys) → LoopsAreEndless tells keys }
{}
