//! Turns of terminals, until none can act.

ghost use Rattle.std.specs.Prelude.{◌≡◌, IfOk};
ghost use Rattle.cx_choices.specs.Settling.{Settles, most_turns};

use crate::acting::first_to_act;
use crate::states::TurnMade;
use cx_base::List;
use cx_region::Region;
use cx_storage::Store;
use std::alloc::{AllocError, Global};

/// How many turns are made at most.
const MOST_TURNS: usize = 4096;

/// Of the terminals that can act the first, in the order of their definition, makes its turn, again and again, until
/// none can or 4,096 turns are made; gives the turns.
///
/// An error comes only where an allocation failed; the region may have made some of the turns then.
pub fn settle<S: Store + Drop>(
    alloc: Global,
    region: &mut Region<S>,
) -> Result<List<TurnMade>, AllocError>
    ensures { IfOk result (λ made. Settles most_turns region.old made region.new) }
{
    let mut made = Vec::new(alloc);
    for _ in 0..MOST_TURNS {
        let Some(actor) = first_to_act(region) else {
            return Ok(List::from_vec(made));
        };
        let reply = region.turn(actor.name)?;
        made.push(TurnMade {
            number: actor.number,
            reply,
        })?;
    }
    Ok(List::from_vec(made))
}
