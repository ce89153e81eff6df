//! What is found, by which lists, and where it is cut; which states loop, and which are at rest.

use crate::graph::{Graph, Row};
use cx_search::{Found, Outcome, Reach, search, search_within};
use std::alloc::{AllocError, Global};

/// Two ways to 3, and 3 is at rest.
#[rattlefmt::skip]
const DIAMOND: [Row; 4] = [
    Row { zero: Some(1), one: Some(2) },
    Row { zero: Some(3), one: None },
    Row { zero: None, one: Some(3) },
    Row { zero: None, one: None },
];

/// From 1 a longer list leads to 2 than the one that begins with the last move; 2 leads back to 0.
#[rattlefmt::skip]
const SHORTER: [Row; 4] = [
    Row { zero: Some(1), one: Some(2) },
    Row { zero: Some(2), one: Some(3) },
    Row { zero: Some(0), one: None },
    Row { zero: None, one: None },
];

/// One place, at rest.
#[rattlefmt::skip]
const ONE: [Row; 1] = [
    Row { zero: None, one: None },
];

/// 0 leads back to itself, until another move ends it.
#[rattlefmt::skip]
const SPIN: [Row; 2] = [
    Row { zero: Some(0), one: Some(1) },
    Row { zero: None, one: None },
];

/// 1 leads to itself alone.
#[rattlefmt::skip]
const ENDLESS: [Row; 3] = [
    Row { zero: Some(1), one: Some(2) },
    Row { zero: Some(1), one: None },
    Row { zero: None, one: None },
];

/// By the lowest moves the spin of 3 is come to first, and 2 was found before it.
#[rattlefmt::skip]
const SPINS: [Row; 4] = [
    Row { zero: Some(1), one: Some(2) },
    Row { zero: Some(3), one: None },
    Row { zero: Some(2), one: None },
    Row { zero: Some(3), one: None },
];

/// 1 and 3 are at rest; 2 leads to itself too.
#[rattlefmt::skip]
const REST: [Row; 4] = [
    Row { zero: Some(1), one: Some(2) },
    Row { zero: None, one: None },
    Row { zero: Some(3), one: Some(2) },
    Row { zero: None, one: None },
];

/// A place, and the list of moves that leads to it.
type Way = (usize, &'static [usize]);

/// A graph, how many states may be kept, at how many moves the search is cut, and what it finds, in this order.
type Finding = (&'static [Row], usize, Option<usize>, &'static [Way]);

#[rattlefmt::skip]
const FOUND: [Finding; 7] = [
    (&DIAMOND, 100, None, &[(0, &[]), (1, &[0]), (2, &[1]), (3, &[0, 0])]),
    (&SHORTER, 100, None, &[(0, &[]), (1, &[0]), (2, &[1]), (3, &[0, 1])]),
    (&ENDLESS, 100, None, &[(0, &[]), (1, &[0]), (2, &[1])]),
    (&ONE, 1, None, &[(0, &[])]),
    (&DIAMOND, 4, None, &[(0, &[]), (1, &[0]), (2, &[1]), (3, &[0, 0])]),
    (&DIAMOND, 3, Some(1), &[(0, &[]), (1, &[0]), (2, &[1])]),
    (&DIAMOND, 2, Some(0), &[(0, &[]), (1, &[0])]),
];

/// A graph, how many states may be kept, from how many moves on none is tried, why the search ends, and what it finds.
type Nearby = (&'static [Row], usize, usize, Reach, &'static [Way]);

#[rattlefmt::skip]
const NEAR: [Nearby; 9] = [
    (&DIAMOND, 100, 0, Reach::Open, &[(0, &[]), (1, &[0]), (2, &[1])]),
    (&DIAMOND, 100, 1, Reach::Open, &[(0, &[]), (1, &[0]), (2, &[1]), (3, &[0, 0])]),
    (&DIAMOND, 100, 2, Reach::Closed, &[(0, &[]), (1, &[0]), (2, &[1]), (3, &[0, 0])]),
    (&DIAMOND, 3, 1, Reach::Full(1), &[(0, &[]), (1, &[0]), (2, &[1])]),
    (&DIAMOND, 2, 5, Reach::Full(0), &[(0, &[]), (1, &[0])]),
    (&SPIN, 100, 0, Reach::Open, &[(0, &[]), (1, &[1])]),
    (&SPIN, 100, 1, Reach::Closed, &[(0, &[]), (1, &[1])]),
    (&ONE, 1, 0, Reach::Closed, &[(0, &[])]),
    (&DIAMOND, 1, 0, Reach::Full(0), &[(0, &[])]),
];

/// A graph, the place of the first state that is come to again from itself, and of the first that can't rest.
const LOOPS: [(&[Row], Option<usize>, Option<usize>); 5] = [
    (&DIAMOND, None, None),
    (&SHORTER, Some(0), None),
    (&SPIN, Some(0), None),
    (&ENDLESS, Some(1), Some(1)),
    (&SPINS, Some(2), Some(0)),
];

/// A graph, how many states may be kept, and the places of those at rest: of all, or where that is cut of those that
/// were found before.
const RESTING: [(&[Row], usize, &[usize]); 3] = [
    (&REST, 100, &[1, 3]),
    (&REST, 3, &[1]),
    (&DIAMOND, 100, &[3]),
];

fn graph_of(alloc: Global, rows: &[Row]) -> Result<Graph, AllocError> {
    Ok(Graph {
        rows: Vec::from_slice(alloc, rows)?,
    })
}

fn find(alloc: Global, graph: &Graph, most: usize) -> Result<Outcome<Graph>, AllocError> {
    search(graph, &mut (), 0, most.max(1), alloc)
}

/// Whether a state was found at a place, by this list.
fn is_found(
    alloc: Global,
    found: &Found<Graph>,
    place: usize,
    (state, list): Way,
) -> Result<bool, AllocError> {
    let path = found.path(place, alloc)?;
    let Some((there, origin)) = found.states.get_index(place) else {
        return Ok(false);
    };
    Ok(*there == state && origin.moves == list.len() && path.as_slice() == list)
}

/// Whether these states were found, in this order and by these lists, and no others.
fn are_found(alloc: Global, found: &Found<Graph>, ways: &[Way]) -> Result<bool, AllocError> {
    for (place, way) in ways.iter().enumerate() {
        if !is_found(alloc, found, place, *way)? {
            return Ok(false);
        }
    }
    Ok(found.states.len() == ways.len())
}

/// Whether a search finds what it should, and is cut where it should be.
fn finds(alloc: Global, (rows, most, cut, ways): Finding) -> Result<bool, AllocError> {
    let outcome = find(alloc, &graph_of(alloc, rows)?, most)?;
    Ok(outcome.cut == cut && are_found(alloc, &outcome.found, ways)?)
}

/// Whether a search ended for this reason.
fn is_reach(reach: Reach, due: Reach) -> bool {
    match (reach, due) {
        (Reach::Closed, Reach::Closed) | (Reach::Open, Reach::Open) => true,
        (Reach::Full(moves), Reach::Full(most)) => moves == most,
        _ => false,
    }
}

/// Whether a search within so many moves finds what it should, and ends for the reason that is due.
fn finds_near(alloc: Global, (rows, most, moves, due, ways): Nearby) -> Result<bool, AllocError> {
    let graph = graph_of(alloc, rows)?;
    let near = search_within(&graph, &mut (), 0, most.max(1), moves, alloc)?;
    Ok(is_reach(near.reach, due) && are_found(alloc, &near.found, ways)?)
}

/// The places of the first states of a graph that loop and that can't rest.
fn loops_of(alloc: Global, rows: &[Row]) -> Result<(Option<usize>, Option<usize>), AllocError> {
    let found = find(alloc, &graph_of(alloc, rows)?, 100)?.found;
    Ok((found.looping()?, found.restless()?))
}

/// The places of the states at rest.
fn resting_of(alloc: Global, rows: &[Row], most: usize) -> Result<Vec<usize>, AllocError> {
    let graph = graph_of(alloc, rows)?;
    let outcome = find(alloc, &graph, most)?;
    outcome.found.resting(&graph, &mut (), outcome.cut)
}

#[test]
fn each_state_is_found_by_its_soonest_list(rt: HostRuntime) -> Result<(), AllocError> {
    for (number, finding) in FOUND.iter().enumerate() {
        assert!(rt; finds(rt.alloc(), *finding)?, "{number}");
    }
    Ok(())
}

#[test]
fn a_search_within_so_many_moves_tries_none_beyond(rt: HostRuntime) -> Result<(), AllocError> {
    for (number, nearby) in NEAR.iter().enumerate() {
        assert!(rt; finds_near(rt.alloc(), *nearby)?, "{number}");
    }
    Ok(())
}

#[test]
fn the_first_state_found_that_loops_is_given(rt: HostRuntime) -> Result<(), AllocError> {
    for (rows, looping, restless) in LOOPS {
        assert!(rt; loops_of(rt.alloc(), rows)? == (looping, restless));
    }
    Ok(())
}

#[test]
fn states_at_rest_are_given_in_their_order(rt: HostRuntime) -> Result<(), AllocError> {
    for (rows, most, places) in RESTING {
        assert!(rt; resting_of(rt.alloc(), rows, most)?.as_slice() == places);
    }
    Ok(())
}
