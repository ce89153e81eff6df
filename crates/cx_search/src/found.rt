//! The search, and what it finds.

ghost use Rattle.std.specs.Prelude.{◌≡◌, ◌<◌, ◌≤◌, ◌+◌, ◌++◌, ◌∷◌, [], ℕ, IfOk, OnErr, OnOk, IfSome, IfNone, MatchBool, MatchOption, Some, None, ⊤, length, slice_get, option_map};
ghost use Rattle.cx_search.specs.Finds.{Finds, FindsNearest, IsWhole};
ghost use Rattle.cx_search.specs.Found.{IsAt, Searched};
ghost use Rattle.cx_search.specs.Parts.Searching.{AreFirstNexts, IsCut};
ghost use Rattle.cx_search.specs.Nexts.{AreLinked};
ghost use Rattle.cx_search.specs.Moves.{IsFirst};

use crate::space::Space;
use cx_base::List;
use indexmap::IndexMap;
use std::alloc::{AllocError, Global};

/// How a state was first come to.
#[derive(Clone, Copy)]
pub struct Origin {
    /// One list of moves led to it first; the place, counted from 0, of the state from which the last of these was
    /// made.
    pub from: usize,
    /// The number of that last move.
    pub number: usize,
    /// How many moves the list has; 0 for the state where the search began.
    pub moves: usize,
}

/// A move that is to be tried.
#[derive(Clone, Copy)]
struct Attempt {
    /// The place of the state that it is made from.
    from: usize,
    /// Its number.
    number: usize,
    /// How many states may be kept.
    most: usize,
}

/// The states that a search has found so far, and what moves lead to from each.
#[derive(Drop)]
pub struct Found<T: Space> {
    pub alloc: Global,
    /// The states that were found, each once, in the order of the lists that led to them first.
    pub states: IndexMap<T::State, Origin>,
    /// For each state from which all moves were tried, by its place, the places of the states that they lead to.
    pub links: Vec<List<usize>>,
}

impl<T: Space> Found<T> {
    /// The first state alone.
    ///
    /// An error comes only where an allocation failed.
    pub(crate) fn begin(alloc: Global, start: T::State) -> Result<Found<T>, AllocError>
        ensures one { IfOk result (λ found. length found.states.entries ≡ 1) }
        ensures unlinked { IfOk result (λ found. found.links.items ≡ []) }
        ensures begun { IfOk result (λ found. IsAt found.states.entries 0 start) }
        ensures searched { (space : T) → IfOk result (λ found. Searched (T.goes space) found.states.entries 0 0) }
    {
        let mut states = IndexMap::new(alloc);
        let origin = Origin {
            from: 0,
            number: 0,
            moves: 0,
        };
        states.insert(start, origin)?;
        let links = Vec::new(alloc);
        Ok(Found {
            alloc,
            states,
            links,
        })
    }

    /// How many moves lead to the state at a place; `None` where none is there.
    pub(crate) fn moves(&self, place: usize) -> Option<usize>
        ensures { result ≡ option_map (λ entry. entry.1.moves) (slice_get self.now.states.entries place) }
    {
        let (_, origin) = self.states.get_index(place)?;
        Some(origin.moves)
    }

    /// The place of a state; `None` where it isn't among those that were found.
    pub fn place_of(&self, state: &T::State) -> Option<usize>
        ensures found { IfSome result (λ place. IsAt self.now.states.entries place state.now) }
        ensures absent { IfNone result ((place : ℕ) → IsAt self.now.states.entries place state.now → ⊥) }
    {
        match self.states.get_index_of(state) {
            Some(place) => Some(place),
            None => None,
        }
    }

    /// Adds a state that wasn't found before.
    ///
    /// An error comes only where an allocation failed.
    fn push(&mut self, state: T::State, origin: Origin) -> Result<(), AllocError>
        requires { (place : ℕ) → IsAt self.old.states.entries place state → ⊥ }
        ensures ok { IfOk result (λ _. self.new.states.entries ≡ self.old.states.entries ++ (state, origin) ∷ []) }
        ensures err { OnErr result (self.new.states.entries ≡ self.old.states.entries) }
        ensures links { self.new.links ≡ self.old.links }
    {
        self.states.insert(state, origin)?;
        Ok(())
    }

    /// A number that each move's from the state at a place is below.
    fn count(&self, space: &T, place: usize) -> usize
        ensures { (from to : T.State) (number : ℕ) → IsAt self.now.states.entries place from
            → T.goes space.now from number to → number < result }
    {
        match self.states.get_index(place) {
            Some((from, _)) => space.count(from),
            None => 0,
        }
    }

    /// Tries a move, and adds the place that it leads to; false where it leads to a new state, and no more may be kept.
    ///
    /// An error comes only where an allocation failed.
    fn try_move(
        &mut self,
        space: &T,
        work: &mut T::Work,
        attempt: Attempt,
        nexts: &mut Vec<usize>,
    ) -> Result<bool, AllocError>
        requires within { attempt.from < length self.old.states.entries }
        requires searched { Searched (T.goes space.now) self.old.states.entries attempt.from attempt.number }
        requires so_far { (state : T.State) → IsAt self.old.states.entries attempt.from state
            → AreFirstNexts (T.goes space.now) self.old.states.entries state attempt.number nexts.old.items }
        ensures searched { IfOk result (λ within. MatchBool within
            (Searched (T.goes space.now) self.new.states.entries attempt.from (attempt.number + 1))
            (IsCut (T.goes space.now) self.new.states.entries attempt.from attempt.most)) }
        ensures nexts { IfOk result (λ within. MatchBool within
            ((state : T.State) → IsAt self.new.states.entries attempt.from state
            → AreFirstNexts (T.goes space.now) self.new.states.entries state (attempt.number + 1) nexts.new.items) ⊤) }
        ensures kept { OnOk result ((place : ℕ) (s : T.State)
            → IsAt self.old.states.entries place s → IsAt self.new.states.entries place s) }
        ensures at_most_most { OnOk result
            (length self.old.states.entries ≤ attempt.most → length self.new.states.entries ≤ attempt.most) }
        ensures links { self.new.links ≡ self.old.links }
    {
        let Some((from, origin)) = self.states.get_index(attempt.from) else {
            return Ok(true);
        };
        let moves = origin.moves;
        let Some(to) = space.go(work, from, attempt.number)? else {
            return Ok(true);
        };
        if let Some(place) = self.place_of(&to) {
            nexts.push(place)?;
            return Ok(true);
        }
        let place = self.states.len();
        if place >= attempt.most {
            return Ok(false);
        }
        self.push(
            to,
            Origin {
                from: attempt.from,
                number: attempt.number,
                moves: moves + 1,
            },
        )?;
        nexts.push(place)?;
        Ok(true)
    }

    /// Tries all moves from the state at a place; false where one leads to a new one, and no more may be kept.
    ///
    /// An error comes only where an allocation failed.
    pub(crate) fn expand(
        &mut self,
        space: &T,
        work: &mut T::Work,
        at: usize,
        most: usize,
    ) -> Result<bool, AllocError>
        requires within { at < length self.old.states.entries }
        requires searched { Searched (T.goes space.now) self.old.states.entries at 0 }
        requires linked { AreLinked (T.goes space.now) self.old.states.entries self.old.links.items at }
        ensures searched { IfOk result (λ within. MatchBool within
            (Searched (T.goes space.now) self.new.states.entries (at + 1) 0)
            (IsCut (T.goes space.now) self.new.states.entries at most)) }
        ensures linked { IfOk result (λ within. MatchBool within
            (AreLinked (T.goes space.now) self.new.states.entries self.new.links.items (at + 1)) ⊤) }
        ensures kept { OnOk result ((place : ℕ) (s : T.State)
            → IsAt self.old.states.entries place s → IsAt self.new.states.entries place s) }
        ensures at_most_most { OnOk result
            (length self.old.states.entries ≤ most → length self.new.states.entries ≤ most) }
    {
        let mut nexts = Vec::new(self.alloc);
        for number in 0..self.count(space, at) {
            let attempt = Attempt {
                from: at,
                number,
                most,
            };
            if !self.try_move(space, work, attempt, &mut nexts)? {
                return Ok(false);
            }
        }
        self.links.push(List::from_vec(nexts))?;
        Ok(true)
    }

    /// The list of moves that leads first to the state at a place, counted from 0: none has fewer moves, and none of as
    /// many is sooner.
    ///
    /// An error comes only where an allocation failed.
    pub fn path(&self, place: usize, alloc: Global) -> Result<Vec<usize>, AllocError>
        ensures { (space : T) (start state : T.State) → Finds (T.goes space) start self.now.states.entries
            → IsAt self.now.states.entries place state
            → IfOk result (λ moves. IsFirst (T.goes space) start moves.items state) }
    {
        let mut moves = Vec::new(alloc);
        let Some(many) = self.moves(place) else {
            return Ok(moves);
        };
        let mut at = place;
        for _ in 0..many {
            let Some((_, origin)) = self.states.get_index(at) else {
                return Ok(moves);
            };
            moves.push(origin.number)?;
            at = origin.from;
        }
        moves.reverse();
        Ok(moves)
    }
}

/// What a search has found, and whether that is all.
#[derive(Drop)]
pub struct Outcome<T: Space> {
    /// The states that were found.
    pub found: Found<T>,
    /// `None` where all states were found that moves lead to. Else all were found that lists of at most so many moves
    /// lead to, and a list of one move more leads to a state that was not found, since `most` are kept.
    pub cut: Option<usize>,
}

/// Finds the states that moves lead to from a state, at most `most` (at least 1) of them: those of fewer moves first,
/// and of as many moves those first that the sooner list leads to.
///
/// An error comes only where an allocation failed.
pub fn search<T: Space>(
    space: &T,
    work: &mut T::Work,
    start: T::State,
    most: usize,
    alloc: Global,
) -> Result<Outcome<T>, AllocError>
    requires { 1 ≤ most }
    ensures finds { IfOk result (λ outcome. Finds (T.goes space.now) start outcome.found.states.entries) }
    ensures reaches { IfOk result (λ outcome. MatchOption outcome.cut
        (IsWhole (T.goes space.now) start outcome.found.states.entries outcome.found.links.items)
        (λ moves. FindsNearest (T.goes space.now) start outcome.found.states.entries most moves)) }
    ensures at_most_most { IfOk result (λ outcome. length outcome.found.states.entries ≤ most) }
{
    let mut found = Found::begin(alloc, start)?;
    for at in 0..most {
        if at >= found.states.len() {
            return Ok(Outcome { found, cut: None });
        }
        if !found.expand(space, work, at, most)? {
            let cut = found.moves(at);
            return Ok(Outcome { found, cut });
        }
    }
    Ok(Outcome { found, cut: None })
}
