//! States from which moves go on without an end, and states from which no rest can be come to.

ghost use Rattle.std.specs.Prelude.{◌≡◌, ◌<◌, ◌≤◌, ℕ, true, false, IfOk, IfSome, IfNone, MatchBool, MatchOption, List as Items, find, length, slice_get, slice_set};
ghost use Rattle.std.specs.Option.{option_copied};
ghost use Rattle.cx_search.specs.Finds.{Finds, IsWhole};
ghost use Rattle.cx_search.specs.Forever.{CanRest, IsBounded, IsFirstPlaceOf, IsPlaceOf, Loops};
ghost use Rattle.cx_search.specs.Found.{IsAt};
ghost use Rattle.cx_search.specs.Parts.Marks.{AreStable, is_free, is_marked};
ghost use Rattle.cx_search.specs.Moves.{Leads};
ghost use Rattle.cx_search.specs.Nexts.{AreLinked};
ghost use Rattle.cx_search.specs.declared.marks.Rule.TheVariants.{All};

use crate::found::Found;
use crate::marks::{Rule, is_marked, no_marks};
use crate::space::Space;
use cx_base::List;
use std::alloc::AllocError;

/// The first place that isn't marked, below a limit.
fn first_unmarked(marks: &[bool], most: usize) -> Option<usize>
    ensures unmarked { IfSome result (λ place. (place < most) × (is_marked marks.now place ≡ false)) }
    ensures first { IfSome result (λ place. (other : ℕ) → other < place → is_marked marks.now other ≡ true) }
    ensures none { IfNone result ((place : ℕ) → place < most → is_marked marks.now place ≡ true) }
{
    for place in 0..most {
        if !is_marked(marks, place) {
            return Some(place);
        }
    }
    None
}

/// Whether a place is marked.
fn has_mark(marks: &Vec<bool>, place: usize) -> bool
    ensures { result ≡ is_marked marks.now.items place }
{
    is_marked(marks.as_slice(), place)
}

/// Marks a place.
fn mark(marks: &mut Vec<bool>, place: usize)
    requires { place < length marks.old.items }
    ensures long { length marks.new.items ≡ length marks.old.items }
    ensures set { marks.new.items ≡ slice_set marks.old.items place true }
{
    marks[place] = true;
}

/// A place below a limit that isn't marked, of some places.
fn unmarked_of(places: &List<usize>, marks: &Vec<bool>, most: usize) -> Option<usize>
    ensures { result ≡ find (is_free marks.now.items most) places.now }
{
    places
        .as_slice()
        .iter()
        .copied()
        .find(|place| *place < most && !has_mark(marks, *place))
}

impl<T: Space> Found<T> {
    /// How many places have links.
    fn many_links(&self) -> usize
        ensures { result ≡ length self.now.links.items }
    {
        self.links.len()
    }

    /// The places that moves from a place lead to.
    fn nexts_of(&self, place: usize) -> Option<&List<usize>>
        ensures { option_copied result ≡ slice_get self.now.links.items place }
    {
        self.links.get(place)
    }

    /// The first place that is come to twice, from the first one on by places that aren't marked.
    ///
    /// An error comes only where an allocation failed.
    fn repeated(&self, marks: &Vec<bool>) -> Result<usize, AllocError>
        requires stable { AreStable self.now.links.items All marks.now.items }
        requires unmarked { is_marked marks.now.items 0 ≡ false }
        ensures { (space : T) (done : ℕ) (state : T.State)
            → AreLinked (T.goes space) self.now.states.entries self.now.links.items done
            → length self.now.states.entries ≤ done → IsAt self.now.states.entries 0 state
            → IfOk result (IsPlaceOf (Loops (T.goes space)) self.now.states.entries) }
    {
        let many = self.many_links();
        let mut seen = no_marks(self.alloc, many)?;
        let mut at = 0;
        'walk: while !has_mark(&seen, at) {
            let Some(nexts) = self.nexts_of(at) else {
                return Ok(at);
            };
            mark(&mut seen, at);
            let Some(next) = unmarked_of(nexts, marks, many) else {
                return Ok(at);
            };
            at = next;
        }
        Ok(at)
    }

    /// Whether moves lead from the state at a place to itself.
    ///
    /// An error comes only where an allocation failed.
    fn is_looping(&self, place: usize) -> Result<bool, AllocError>
        ensures { (space : T) (start state : T.State) → Finds (T.goes space) start self.now.states.entries
            → IsWhole (T.goes space) start self.now.states.entries self.now.links.items
            → IsAt self.now.states.entries place state
            → IfOk result (λ loops. MatchBool loops (Loops (T.goes space) state) (Loops (T.goes space) state → ⊥)) }
    {
        let marks = self.marks(Rule::To(place))?;
        Ok(has_mark(&marks, place))
    }

    /// The first place of a state that is come to again from itself, of which one is known.
    ///
    /// An error comes only where an allocation failed.
    fn first_looping(&self, known: usize) -> Result<usize, AllocError>
        ensures { (space : T) (start : T.State) → Finds (T.goes space) start self.now.states.entries
            → IsWhole (T.goes space) start self.now.states.entries self.now.links.items
            → IsPlaceOf (Loops (T.goes space)) self.now.states.entries known
            → IfOk result (IsFirstPlaceOf (Loops (T.goes space)) self.now.states.entries) }
    {
        for place in 0..known {
            let loops = self.is_looping(place)?;
            if loops {
                return Ok(place);
            }
        }
        Ok(known)
    }

    /// After a search that missed no state: the place, counted from 0, of the first state that one move or more lead
    /// back to; `None` where there is none, and then some number bounds the length of every list of moves.
    ///
    /// An error comes only where an allocation failed.
    pub fn looping(&self) -> Result<Option<usize>, AllocError>
        ensures { (space : T) (start : T.State) → Finds (T.goes space) start self.now.states.entries
            → IsWhole (T.goes space) start self.now.states.entries self.now.links.items
            → IfOk result (λ place. MatchOption place (IsBounded (T.goes space) start)
            (IsFirstPlaceOf (Loops (T.goes space)) self.now.states.entries)) }
    {
        let marks = self.marks(Rule::All)?;
        if has_mark(&marks, 0) {
            return Ok(None);
        }
        let known = self.repeated(&marks)?;
        let place = self.first_looping(known)?;
        Ok(Some(place))
    }

    /// After a search that missed no state: the place, counted from 0, of the first state from which no list of moves
    /// leads to one at rest; `None` where from each state one does.
    ///
    /// An error comes only where an allocation failed.
    pub fn restless(&self) -> Result<Option<usize>, AllocError>
        ensures { (space : T) (start : T.State)
            → IsWhole (T.goes space) start self.now.states.entries self.now.links.items
            → IfOk result (λ place. MatchOption place
            ((moves : Items ℕ) (to : T.State) → Leads (T.goes space) start moves to → CanRest (T.goes space) to)
            (IsFirstPlaceOf (λ state. CanRest (T.goes space) state → ⊥) self.now.states.entries)) }
    {
        let marks = self.marks(Rule::Any)?;
        Ok(first_unmarked(marks.as_slice(), self.states.len()))
    }
}
