//! A space of states, and moves between them.

ghost use Rattle.std.specs.Prelude.{◌≡◌, ◌<◌, ℕ, true, IfOk};
ghost use Rattle.cx_search.specs.Moves.{GoesTo};

use std::alloc::AllocError;
use std::hash::Hash;

/// States, and moves from one to another. A move has a number.
pub trait Space {
    /// A state, as it is kept.
    type State: Hash + Eq + Drop;

    /// What moves are tried in. How a move leaves it is not promised.
    type Work;

    /// A move leads from a state to a state.
    ghost goes: { Self → Self.State → ℕ → Self.State → Type 0 };

    /// A bound of the moves from a state: each has a number below it.
    fn count(&self, from: &Self::State) -> usize
        ensures { (to : Self.State) (number : ℕ) → goes self.now from.now number to → number < result };

    /// Tries a move, and gives the one state that it leads to; `None` where it can't be made.
    ///
    /// An error comes only where an allocation failed.
    fn go(
        &self,
        work: &mut Self::Work,
        from: &Self::State,
        number: usize,
    ) -> Result<Option<Self::State>, AllocError>
        ensures { IfOk result (λ to. GoesTo (goes self.now) from.now number to) };

    /// Two states that are compared as equal are the same.
    ghost same: { (one other : Self.State) → Self.State.eq one other ≡ true → one ≡ other };
}
