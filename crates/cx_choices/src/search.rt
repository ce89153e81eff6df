//! All states that lists of keys lead to.

ghost use Rattle.std.specs.Prelude.{◌≡◌, ◌≤◌, IfOk, length, unwrap_or};
ghost use Rattle.std.specs.List.{AllByRecursion};
ghost use Rattle.cx_choices.specs.Moves.{Goes, begun};
ghost use Rattle.cx_orders.specs.Moves.{IsFew};
ghost use Rattle.cx_search.specs.Finds.{Finds};
ghost use Rattle.cx_search.specs.Within.{Reaches};

use crate::moves::Choices;
use crate::states::ChoicesState;
use cx_orders::KeyLine;
use cx_region::Region;
use cx_region_snapshot::RegionSnapshot;
use cx_search::{Near, search_within};
use cx_storage::Store;
use std::alloc::{AllocError, Global};
use std::marker::PhantomData;

impl<S: Store + Drop> Choices<S> {
    /// All lists of these keys, each of at most 1,920 bytes. With one number each move begins with that number of the
    /// last task, at most 9,999,999.
    pub fn new(alloc: Global, choices: Vec<KeyLine>, one_number: Option<u32>) -> Choices<S>
        requires few { AllByRecursion IsFew choices.items }
        requires small { unwrap_or one_number 0 ≤ 9999999 }
        ensures choices { result.choices ≡ choices }
        ensures one_number { result.one_number ≡ one_number }
    {
        Choices {
            alloc,
            choices,
            one_number,
            stores: PhantomData,
        }
    }

    /// The states that lists of at most `keys` keys, and of one more, lead to from a state of a region, at most `most`
    /// (at least 1) of them: each by the list that leads there first, in the order of these lists. None is missed, or
    /// the outcome says where the search ended. The moves are made in a working region, which is left in any state.
    ///
    /// An error comes only where an allocation failed.
    pub fn search(
        &self,
        start: RegionSnapshot,
        most: usize,
        keys: usize,
        work: &mut Region<S>,
    ) -> Result<Near<Choices<S>>, AllocError>
        requires { 1 ≤ most }
        ensures finds { IfOk result (λ near.
            Finds (Goes self.now.choices.items self.now.one_number) (begun start) near.found.states.entries) }
        ensures reaches { IfOk result (λ near. Reaches (Goes self.now.choices.items self.now.one_number) (begun start)
            near.found.states.entries near.found.links.items most keys near.reach) }
        ensures at_most_most { IfOk result (λ near. length near.found.states.entries ≤ most) }
    {
        let begun = ChoicesState { region: start };
        search_within(self, work, begun, most, keys, self.alloc)
    }
}
