//! All states that orders lead to.

ghost use Rattle.std.specs.Prelude.{◌≡◌, ◌≤◌, IfOk, MatchOption, length};
ghost use Rattle.std.specs.List.{AllByRecursion};
ghost use Rattle.cx_search.specs.Finds.{Finds, FindsNearest, IsWhole};
ghost use Rattle.cx_orders.specs.Moves.{IsFew, Moves, begun};

use crate::moves::Orders;
use crate::states::{Keys, OrdersState};
use cx_base::List;
use cx_region::Region;
use cx_region_snapshot::RegionSnapshot;
use cx_search::{Outcome, search};
use cx_storage::Store;
use std::alloc::{AllocError, Global};
use std::marker::PhantomData;

/// The state in which the orders of a region begin: none of its terminals' keys has come. `terminals` is how many
/// terminals it has.
///
/// An error comes only where an allocation failed.
pub fn begin(
    alloc: Global,
    region: RegionSnapshot,
    terminals: usize,
) -> Result<OrdersState, AllocError>
    requires { terminals ≡ length region.terminals }
    ensures { IfOk result (λ state. state ≡ begun region) }
{
    let come = vec![in alloc; 0; terminals]?;
    Ok(OrdersState {
        region,
        come: List::from_vec(come),
        incidents: List::from_vec(Vec::new(alloc)),
    })
}

impl<S: Store + Drop> Orders<S> {
    /// The orders of turns and of these keys, each of at most 1,920 bytes.
    pub fn new(alloc: Global, keys: Keys) -> Orders<S>
        requires { AllByRecursion IsFew keys.lines }
        ensures { result.keys ≡ keys }
    {
        Orders {
            alloc,
            keys,
            stores: PhantomData,
        }
    }

    /// The states that lists of moves lead to from this state of a region, at most `most` (at least 1) of them: each by
    /// the list that leads there first, in the order of these lists. None is missed, or the outcome says where the
    /// search was cut. The moves are made in a working region, which is left in any state.
    ///
    /// An error comes only where an allocation failed.
    pub fn search(
        &self,
        start: RegionSnapshot,
        most: usize,
        work: &mut Region<S>,
    ) -> Result<Outcome<Orders<S>>, AllocError>
        requires { 1 ≤ most }
        ensures finds { IfOk result (λ outcome.
            Finds (Moves self.now.keys) (begun start) outcome.found.states.entries) }
        ensures reaches { IfOk result (λ outcome. MatchOption outcome.cut
            (IsWhole (Moves self.now.keys) (begun start) outcome.found.states.entries outcome.found.links.items)
            (λ moves. FindsNearest (Moves self.now.keys) (begun start) outcome.found.states.entries most moves)) }
        ensures at_most_most { IfOk result (λ outcome. length outcome.found.states.entries ≤ most) }
    {
        start.restore(work)?;
        let terminals = work.terminals().len();
        let begun = begin(self.alloc, start, terminals)?;
        search(self, work, begun, most, self.alloc)
    }
}
