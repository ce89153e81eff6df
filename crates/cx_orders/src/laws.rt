//! What holds of orders.
ghost use Rattle.cx_orders.specs.Laws.{ActingTurnsMove, MovesDecide, OrdersAreRuns, TypedAheadAreOrders};

use cx_region_laws::laws::{
    a_key_keeps_to_its_terminal, a_turn_keeps_to_its_task, calls_decide, waiting_leaves_the_region,
};

/// Where a list of moves leads from a state to a state, as many turns and keys, one for each move, lead the region of
/// the one to that of the other.
pub fn orders_are_runs()
    ensures { OrdersAreRuns }
{}

/// A turn of a terminal that has a task, and one that doesn't wait, is a move: it is answered neither Idle nor Waiting.
pub fn acting_turns_move()
    ensures { ActingTurnsMove }
{
    cx_look_tasks::laws::waits_are_reported();
    cx_region_task::laws::half_turns_stay();
}

/// In a region in which no two terminals share a name, a move leads from a state to one state at most: a turn of
/// a terminal, or its next key, whether it is typed ahead or not.
pub fn moves_decide()
    ensures { MovesDecide }
{
    calls_decide();
}

/// In a region in which no two terminals share a name, each list of turns and keys, whose keys are the first of their
/// terminals' keys that are to come, and are all taken, is among the orders of keys that are typed ahead: a list of moves
/// leads to the region to which it leads.
pub fn typed_ahead_are_orders()
    ensures { TypedAheadAreOrders }
{
    a_key_keeps_to_its_terminal();
    a_turn_keeps_to_its_task();
    waiting_leaves_the_region();
}
