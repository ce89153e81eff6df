//! What holds of the report of every list of keys.

ghost use Rattle.cx_look_choices.specs.Laws.{ListsLead, PressesAreRuns, PressesLead, ReportsDecide};

use cx_choices::laws::choices_decide;
use cx_look_steps::Seen;
use cx_look_tasks::laws::texts_decide;
use cx_orders::laws::acting_turns_move;
use cx_region_laws::laws::{a_key_keeps_to_its_terminal, a_turn_keeps_to_its_task};
use cx_search::laws::one_list_is_sooner;
use cx_storage::Store;

/// CHOICES writes one text of a region, of whatever is to be seen there.
pub fn reports_decide<S: Store + Drop, V: Seen<S>>(seen: &V)
    ensures { ReportsDecide (V.shows seen.now) }
{
    choices_decide();
    texts_decide();
    seen.shows_decide();
    one_list_is_sooner();
}

/// Each list that CHOICES writes of a state leads there: in a region in which no two terminals share a name its keys and
/// turns, made one after another with numbers of tasks that count on, lead to a state of which the same is written. So it
/// is with one number too.
pub fn lists_lead_to_what_is_written<S: Store + Drop, V: Seen<S>>(seen: &V)
    ensures { ListsLead (V.shows seen.now) }
{
    texts_decide();
    seen.shows_decide();
    presses_are_runs();
}

/// Presses are moves; and in a region in which no two terminals share a name they lead it, without one number, where
/// the run of their keys and turns leads it.
pub fn presses_are_runs()
    ensures lead { PressesLead }
    ensures runs { PressesAreRuns }
{
    a_key_keeps_to_its_terminal();
    a_turn_keeps_to_its_task();
    acting_turns_move();
}
