//! States from which no move can be made.

ghost use Rattle.std.specs.Prelude.{◌≡◌, ◌++◌, ◌∷◌, [], IfOk, MatchBool, OnOk, if◌then◌else◌};
ghost use Rattle.cx_search.specs.Forever.{AtRest};
ghost use Rattle.cx_search.specs.Rest.{AreResting, IsNear, IsResting};

use crate::found::Found;
use crate::space::Space;
use std::alloc::AllocError;

/// Whether these are at most so many moves, where they are limited.
fn is_near(cut: Option<usize>, moves: usize) -> bool
    ensures { MatchBool result (IsNear cut moves) (IsNear cut moves → ⊥) }
{
    match cut {
        Some(most) => moves <= most,
        None => true,
    }
}

/// Whether no move can be made from a state.
///
/// An error comes only where an allocation failed.
fn is_at_rest<T: Space>(space: &T, work: &mut T::Work, state: &T::State) -> Result<bool, AllocError>
    ensures { IfOk result (λ rests. MatchBool rests (AtRest (T.goes space.now) state.now)
        (AtRest (T.goes space.now) state.now → ⊥)) }
{
    for number in 0..space.count(state) {
        if let Some(_to) = space.go(work, state, number)? {
            return Ok(false);
        }
    }
    Ok(true)
}

/// Adds a place, where it is to be.
///
/// An error comes only where an allocation failed.
fn push_if(is_due: bool, place: usize, places: &mut Vec<usize>) -> Result<(), AllocError>
    ensures { OnOk result (places.new.items ≡ (if is_due then places.old.items ++ place ∷ [] else places.old.items)) }
{
    if is_due {
        places.push(place)?;
    }
    Ok(())
}

impl<T: Space> Found<T> {
    /// Whether the state at a place is at rest, and led to by at most so many moves, where they are limited.
    ///
    /// An error comes only where an allocation failed.
    fn is_resting(
        &self,
        space: &T,
        work: &mut T::Work,
        cut: Option<usize>,
        place: usize,
    ) -> Result<bool, AllocError>
        ensures { IfOk result (λ rests. MatchBool rests (IsResting (T.goes space.now) self.now.states.entries cut place)
            (IsResting (T.goes space.now) self.now.states.entries cut place → ⊥)) }
    {
        let Some((state, origin)) = self.states.get_index(place) else {
            return Ok(false);
        };
        if !is_near(cut, origin.moves) {
            return Ok(false);
        }
        let rests = is_at_rest(space, work, state)?;
        Ok(rests)
    }

    /// The places, counted from 0, of the states at rest that were found, those from which no move can be made, in
    /// their order; where `cut` is there, only of those that at most so many moves lead to.
    ///
    /// An error comes only where an allocation failed.
    pub fn resting(
        &self,
        space: &T,
        work: &mut T::Work,
        cut: Option<usize>,
    ) -> Result<Vec<usize>, AllocError>
        ensures { IfOk result (λ places. AreResting (T.goes space.now) self.now.states.entries cut places.items) }
    {
        let mut places = Vec::new(self.alloc);
        for place in 0..self.states.len() {
            let rests = self.is_resting(space, work, cut, place)?;
            push_if(rests, place, &mut places)?;
        }
        Ok(places)
    }
}
