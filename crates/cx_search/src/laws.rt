//! What holds of lists of moves.
ghost use Rattle.cx_search.specs.Laws.{BoundedNeverLoop, FirstIsOne, FirstPlacesDecide, LoopsLeadOn, ReachesDecide, SoonerOrders};

use crate::space::Space;

/// A list of moves is sooner than another where it has fewer, or as many and the lower number at the first place where
/// they differ. Of two lists one is sooner than the other, or they are equal; none is sooner than itself, and what is
/// sooner than a sooner one is sooner.
pub fn one_list_is_sooner()
    ensures { SoonerOrders }
{}

/// Of the lists of moves that lead to a state, one is the first: no list of fewer moves leads there, and none of as
/// many that is sooner.
pub fn one_list_leads_first<T: Space>()
    ensures { (space : T) → FirstIsOne (T.goes space) }
{}

/// Where a list leads to a state that one move or more lead back to, there are lists of any length, and no number
/// bounds them.
pub fn a_loop_leads_on<T: Space>()
    ensures on { (space : T) → LoopsLeadOn (T.goes space) }
    ensures bounded { (space : T) → BoundedNeverLoop (T.goes space) }
{}

/// Of the states that were found, one is the first that moves lead back to, and one the first from which none at rest
/// can be reached.
pub fn first_places_decide<T: Space>()
    ensures { (space : T) → FirstPlacesDecide (T.goes space) }
{}

/// Why a search within so many moves ended is one: of what it found, and of the limits that it was given.
pub fn reaches_decide<T: Space>()
    ensures { (space : T) → ReachesDecide (T.goes space) }
{}
