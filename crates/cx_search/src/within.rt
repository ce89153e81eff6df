//! A search of lists of at most so many moves, and of one more.

ghost use Rattle.std.specs.Prelude.{◌≤◌, IfOk, length};
ghost use Rattle.cx_search.specs.Finds.{Finds};
ghost use Rattle.cx_search.specs.Within.{Reaches};

use crate::found::Found;
use crate::space::Space;
use std::alloc::{AllocError, Global};

/// Why a search within so many moves ended.
#[derive(Clone, Copy)]
pub enum Reach {
    /// All states were found that lists of any length lead to; lists of at most so many moves lead to each.
    Closed,
    /// All states were found that lists of at most one move more lead to, and no list of fewer leads to some of them.
    Open,
    /// As many states were found as may be kept: all that lists of at most this many moves lead to, and a list of one
    /// move more leads to a state that was not found.
    Full(usize),
}

/// What a search within so many moves has found, and why it ended.
#[derive(Drop)]
pub struct Near<T: Space> {
    /// The states that were found.
    pub found: Found<T>,
    /// Why it ended.
    pub reach: Reach,
}

/// Finds the states that lists of at most `moves` moves, and of one more, lead to from a state, at most `most` (at least
/// 1) of them, in the order of `search`: no move is tried from a state that no list of at most `moves` moves leads to.
///
/// An error comes only where an allocation failed.
pub fn search_within<T: Space>(
    space: &T,
    work: &mut T::Work,
    start: T::State,
    most: usize,
    moves: usize,
    alloc: Global,
) -> Result<Near<T>, AllocError>
    requires { 1 ≤ most }
    ensures finds { IfOk result (λ near. Finds (T.goes space.now) start near.found.states.entries) }
    ensures reaches { IfOk result (λ near.
        Reaches (T.goes space.now) start near.found.states.entries near.found.links.items most moves near.reach) }
    ensures at_most_most { IfOk result (λ near. length near.found.states.entries ≤ most) }
{
    let mut found = Found::begin(alloc, start)?;
    for at in 0..most {
        let Some(many) = found.moves(at) else {
            let reach = Reach::Closed;
            return Ok(Near { found, reach });
        };
        if many > moves {
            let reach = Reach::Open;
            return Ok(Near { found, reach });
        }
        if !found.expand(space, work, at, most)? {
            let reach = Reach::Full(many);
            return Ok(Near { found, reach });
        }
    }
    let reach = Reach::Closed;
    Ok(Near { found, reach })
}
