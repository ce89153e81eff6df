//! The rows over the plain store, over the store in pages, and over one that keeps what it fetches of that.

use crate::{changes, rows, seen};
use cx_storage::{FlatStore, Store};
use cx_storage_pages::{KeepingStore, PagedStore};
use std::alloc::{AllocError, Global};

/// Makes a store anew, without areas.
pub(crate) fn renew<S: Store + Drop>(store: &mut S) {
    *store = store.emptied();
}

/// The plain store, the store in pages, and one that keeps what it fetches of that.
fn each_store(alloc: Global) -> (FlatStore, PagedStore, KeepingStore<PagedStore>) {
    (
        FlatStore::new(alloc),
        PagedStore::new(alloc),
        KeepingStore::new(PagedStore::new(alloc)),
    )
}

/// How many rows each store is to meet.
const ROWS: usize = 18;

/// Whether a store without areas meets a row, by its number: those of places and areas, those of bytes and spans, and
/// those of programs that change themselves.
fn meets<S: Store + Drop>(store: &mut S, row: usize) -> Result<bool, AllocError> {
    match row {
        0 => rows::places_by_sixteens(store),
        1 => rows::frees_all_areas_of_an_owner(store),
        2 => rows::finds_no_place(store),
        3 => rows::finds_the_next_area(store),
        4 => rows::keeps_the_others_bytes(store),
        5 => rows::a_block_comes_again(store),
        6 => rows::a_place_over_a_border(store),
        7 => rows::areas_of_full_size_are_made(store),
        8 => rows::a_span_goes_on_at_address_0(store),
        9 => rows::lends_inside_a_block(store),
        10 => rows::lends_to_the_areas_end(store),
        11 => rows::words_are_read(store),
        12 => rows::lends_parts(store),
        13 => changes::a_fetched_instruction_is_changed(store),
        14 => changes::a_changed_instruction_is_performed(store),
        15 => seen::each_byte_of_what_comes_next_is_seen(store),
        16 => seen::both_instructions_are_seen_at_once(store),
        17 => seen::a_freed_program_is_not_performed(store),
        _ => Ok(false),
    }
}

/// How many rows a store meets, each made anew before it, before the first that it doesn't meet.
fn count_met<S: Store + Drop>(store: &mut S) -> Result<usize, AllocError> {
    for row in 0..ROWS {
        renew(store);
        if !meets(store, row)? {
            return Ok(row);
        }
    }
    Ok(ROWS)
}

#[test]
fn the_plain_store_meets_the_rows(rt: HostRuntime) {
    assert!(rt; count_met(&mut FlatStore::new(rt.alloc())) == Ok(ROWS));
}

#[test]
fn the_store_in_pages_meets_the_rows(rt: HostRuntime) {
    assert!(rt; count_met(&mut PagedStore::new(rt.alloc())) == Ok(ROWS));
}

#[test]
fn the_keeping_store_meets_the_rows(rt: HostRuntime) {
    let mut kept = KeepingStore::new(PagedStore::new(rt.alloc()));
    assert!(rt; count_met(&mut kept) == Ok(ROWS));
}

#[test]
fn pages_lend_nothing_over_their_border(rt: HostRuntime) {
    let (_, mut paged, mut kept) = each_store(rt.alloc());
    assert!(rt; rows::lends_nothing_over_a_border(&mut paged) == Ok(true));
    assert!(rt; rows::lends_nothing_over_a_border(&mut kept) == Ok(true));
}

#[test]
fn a_large_area(rt: HostRuntime) {
    let (mut flat, mut paged, mut kept) = each_store(rt.alloc());
    assert!(rt; rows::a_large_area(&mut flat));
    assert!(rt; rows::a_large_area(&mut paged));
    assert!(rt; rows::a_large_area(&mut kept));
}

#[test]
fn keeps_all_when_refused(rt: HostRuntime) {
    let (mut flat, mut paged, mut kept) = each_store(rt.alloc());
    assert!(rt; rows::keeps_all_when_refused(&mut flat));
    assert!(rt; rows::keeps_all_when_refused(&mut paged));
    assert!(rt; rows::keeps_all_when_refused(&mut kept));
}

/// Whether a large area, and two small ones, are made, each over a store made anew.
fn areas_are_made<S: Store + Drop>(store: &mut S) -> bool {
    if rows::a_large_area_is_made(store) != Ok(true) {
        return false;
    }
    renew(store);
    rows::two_areas_are_made(store) == Ok(true)
}

#[test]
fn ample_memory_does_not_run_out(rt: HostRuntime) {
    let (mut flat, mut paged, mut kept) = each_store(rt.alloc());
    assert!(rt; areas_are_made(&mut flat));
    assert!(rt; areas_are_made(&mut paged));
    assert!(rt; areas_are_made(&mut kept));
}

#[test]
fn programs_that_change_themselves_agree(rt: HostRuntime) {
    let (_, mut paged, mut kept) = each_store(rt.alloc());
    assert!(rt; changes::agree(&mut paged, &mut kept) == Ok(true));
}

/// Whether a program that changes itself does what it must over a store, and all of them agree over another one.
fn are_changed<S: Store, T: Store>(other: &mut S, store: &mut T) -> Result<bool, AllocError> {
    Ok(changes::a_fetched_instruction_is_changed(store)? && changes::agree(other, store)?)
}

#[test]
fn they_agree_over_a_kept_plain_store(rt: HostRuntime) {
    let mut paged = PagedStore::new(rt.alloc());
    let mut kept = KeepingStore::new(FlatStore::new(rt.alloc()));
    assert!(rt; are_changed(&mut paged, &mut kept) == Ok(true));
}
