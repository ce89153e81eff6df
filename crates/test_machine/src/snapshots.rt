//! Snapshots of stores: they are the areas, owners and bytes that are there, and nothing else; and a store gets them
//! back.
ghost use Rattle.std.specs.Prelude.{◌<◌, ◌^◌};

use crate::stores::renew;
use cx_storage::{FlatStore, Kind, Owner, Store};
use cx_storage_pages::{KeepingStore, PagedStore};
use cx_storage_snapshot::StorageSnapshot;
use std::alloc::{AllocError, Global};

const OWNER: Owner = Owner {
    slot: 1,
    kind: Kind::Got,
};

const OTHER_OWNER: Owner = Owner {
    slot: 2,
    kind: Kind::Got,
};

const LOW: u32 = 0x1000;

const HIGH: u32 = 0xFF_FFFF;

// The calls without what their contracts ensure: a test looks at what they answer.

fn take<S: Store>(
    alloc: Global,
    store: &S,
    earlier: Option<&StorageSnapshot>,
) -> Result<StorageSnapshot, AllocError> {
    StorageSnapshot::take(alloc, store, earlier)
}

/// Gives a store back what a snapshot has.
fn give_back<S: Store + Drop>(store: &mut S, kept: &StorageSnapshot) -> Result<(), AllocError> {
    *store = kept.store_like(store)?;
    Ok(())
}

/// Writes what a snapshot has over a store, where that has just its areas.
fn write_back<S: Store>(store: &mut S, kept: &StorageSnapshot) -> bool {
    if !kept.has_areas_of(store) {
        return false;
    }
    kept.write_over(store);
    true
}

fn are_same(one: &StorageSnapshot, other: &StorageSnapshot) -> bool {
    one.is_same(other)
}

fn have_one_hash(one: &StorageSnapshot, other: &StorageSnapshot) -> bool {
    one.hash() == other.hash()
}

/// Makes an area of a length at 001000, in the place of the one that is there.
fn place<S: Store>(store: &mut S, len: u32, owner: Owner) -> Result<(), AllocError>
    requires { 0 < len }
{
    store.free_area(LOW);
    store.get_area(LOW, HIGH, len, owner)?;
    Ok(())
}

/// Four bytes from 002FFE on, and the eight that are fetched at 003000.
fn bytes_of<S: Store>(store: &mut S) -> (bool, [u8; 4], Option<[u8; 8]>) {
    let mut bytes = [0; 4];
    let read = store.read(0x2FFE, &mut bytes);
    (read, bytes, store.fetch(0x3000))
}

/// Areas over several pages, with four bytes.
fn begin<S: Store>(store: &mut S) -> Result<(), AllocError> {
    store.get_area(LOW, HIGH, 40_000, OWNER)?;
    store.get_area(LOW, HIGH, 100, OTHER_OWNER)?;
    store.write(0x2FFE, &[1, 2, 3, 4]);
    Ok(())
}

/// Changes a byte; whether another storage is kept then, and the first one once it was given back.
fn changes_and_comes_back<S: Store + Drop>(
    alloc: Global,
    store: &mut S,
    before: &StorageSnapshot,
) -> Result<bool, AllocError> {
    store.write(0x3000, &[9]);
    let fetched = store.fetch(0x3000);
    let after = take(alloc, store, Some(before))?;
    give_back(store, before)?;
    let again = take(alloc, store, Some(&after))?;
    Ok(
        fetched == Some([9, 4, 0, 0, 0, 0, 0, 0])
            && !are_same(before, &after)
            && are_same(before, &again)
            && have_one_hash(before, &again)
            && is_written_over(alloc, store, before, &after)?,
    )
}

/// Whether one of two snapshots of the same areas is written over a store, and then the other.
fn is_written_over<S: Store>(
    alloc: Global,
    store: &mut S,
    before: &StorageSnapshot,
    after: &StorageSnapshot,
) -> Result<bool, AllocError> {
    let there = write_back(store, after);
    let fetched = store.fetch(0x3000);
    let written = take(alloc, store, Some(before))?;
    let back = write_back(store, before);
    Ok(there && back && fetched == Some([9, 4, 0, 0, 0, 0, 0, 0]) && are_same(after, &written))
}

/// An area over several pages is kept, changed, kept again and given back; what was fetched before is not kept.
fn is_given_back<S: Store + Drop>(alloc: Global, store: &mut S) -> Result<bool, AllocError> {
    begin(store)?;
    let before = take(alloc, store, None)?;
    let comes_back = changes_and_comes_back(alloc, store, &before)?;
    let due = (true, [1, 2, 3, 4], Some([3, 4, 0, 0, 0, 0, 0, 0]));
    Ok(comes_back && bytes_of(store) == due)
}

/// Writes an area full, and frees it.
fn write_and_free<S: Store>(store: &mut S) -> Result<(), AllocError> {
    store.get_area(LOW, HIGH, 64, OWNER)?;
    store.write(LOW, &[0xFF; 64]);
    store.free_area(LOW);
    Ok(())
}

/// Bytes that were written and freed are none: a store that never had them has the same snapshot.
fn freed_bytes_are_none<S: Store + Drop>(alloc: Global, store: &mut S) -> Result<bool, AllocError> {
    let mut clean = store.emptied();
    write_and_free(store)?;
    place(store, 20, OWNER)?;
    place(&mut clean, 20, OWNER)?;
    let one = take(alloc, store, None)?;
    let other = take(alloc, &clean, None)?;
    Ok(are_same(&one, &other) && have_one_hash(&one, &other))
}

/// Whether a store is another one than was kept.
fn differs<S: Store>(alloc: Global, store: &S, kept: &StorageSnapshot) -> Result<bool, AllocError> {
    let now = take(alloc, store, Some(kept))?;
    Ok(!are_same(kept, &now))
}

/// Whether a byte makes a store another one than was kept, and not once it's as it was.
fn differs_by_a_byte<S: Store>(
    alloc: Global,
    store: &mut S,
    kept: &StorageSnapshot,
) -> Result<bool, AllocError> {
    store.set(LOW + 19, 1);
    let written = take(alloc, store, Some(kept))?;
    store.set(LOW + 19, 0);
    let same = take(alloc, store, Some(&written))?;
    Ok(!are_same(kept, &written) && are_same(kept, &same))
}

/// Another owner, another length and one byte each make another storage.
fn small_changes_are_seen<S: Store + Drop>(
    alloc: Global,
    store: &mut S,
) -> Result<bool, AllocError> {
    place(store, 20, OWNER)?;
    let one = take(alloc, store, None)?;
    place(store, 20, OTHER_OWNER)?;
    let owned = differs(alloc, store, &one)? && !write_back(store, &one);
    place(store, 21, OWNER)?;
    let longer = differs(alloc, store, &one)? && !write_back(store, &one);
    store.free_area(LOW);
    let none = !write_back(store, &one);
    place(store, 20, OWNER)?;
    Ok(owned && longer && none && differs_by_a_byte(alloc, store, &one)?)
}

/// Whether so many areas of 16 bytes are made.
fn makes_many<S: Store>(store: &mut S, areas: u32) -> Result<bool, AllocError> {
    for _k in 0..areas {
        if store.get_area(0, HIGH, 16, OWNER)?.is_none() {
            return Ok(false);
        }
    }
    Ok(true)
}

/// Whether a store gets back one area, whose byte at an address is 7, and then all that it has now.
fn comes_back<S: Store + Drop>(
    alloc: Global,
    store: &mut S,
    whole: &StorageSnapshot,
    last: u32,
) -> Result<bool, AllocError>
    requires { last < 2 ^ 24 }
{
    let many = take(alloc, store, Some(whole))?;
    give_back(store, whole)?;
    let found = store.byte(last);
    give_back(store, &many)?;
    let again = take(alloc, store, Some(&many))?;
    Ok(found == Some(7) && are_same(&many, &again) && !are_same(&many, whole))
}

/// One area of this length, and as many of 16 bytes, are kept and given back.
fn one_and_many<S: Store + Drop>(
    alloc: Global,
    store: &mut S,
    len: u32,
    areas: u32,
) -> Result<bool, AllocError> {
    if len == 0 {
        return Ok(false);
    }
    let last = (len - 1) % (HIGH + 1);
    store.get_area(0, HIGH, len, OWNER)?;
    store.set(last, 7);
    let whole = take(alloc, store, None)?;
    store.free_slot(1);
    Ok(makes_many(store, areas)? && comes_back(alloc, store, &whole, last)?)
}

/// What a snapshot is to be, each over a store made anew. One area of a length, and as many small ones, are kept too.
fn meets<S: Store + Drop>(
    alloc: Global,
    store: &mut S,
    (len, areas): (u32, u32),
) -> Result<bool, AllocError> {
    renew(store);
    let is_back = is_given_back(alloc, store)?;
    renew(store);
    let are_none = freed_bytes_are_none(alloc, store)?;
    renew(store);
    let are_seen = small_changes_are_seen(alloc, store)?;
    renew(store);
    Ok(is_back && are_none && are_seen && one_and_many(alloc, store, len, areas)?)
}

#[test]
fn snapshots_of_the_plain_store(rt: HostRuntime) {
    let mut flat = FlatStore::new(rt.alloc());
    assert!(rt; meets(rt.alloc(), &mut flat, (0x2000, 100)) == Ok(true));
}

#[test]
fn snapshots_of_the_store_in_pages(rt: HostRuntime) {
    let mut paged = PagedStore::new(rt.alloc());
    assert!(rt; meets(rt.alloc(), &mut paged, (0x10_0000, 1000)) == Ok(true));
}

#[test]
fn snapshots_of_the_keeping_store(rt: HostRuntime) {
    let mut kept = KeepingStore::new(PagedStore::new(rt.alloc()));
    assert!(rt; meets(rt.alloc(), &mut kept, (0x10_0000, 1000)) == Ok(true));
}

#[test]
fn snapshots_of_all_of_storage(rt: HostRuntime) {
    let mut paged = PagedStore::new(rt.alloc());
    assert!(rt; one_and_many(rt.alloc(), &mut paged, 0x100_0000, 1) == Ok(true));
}
