//! Rows worked by hand, over any store. Each answers whether all is as it must be.
ghost use Rattle.std.specs.Prelude.{◌+◌, ◌<◌, ◌≤◌, ◌^◌, length};

use cx_storage::{Area, Kind, Owner, Store, halfword_at, word_at};
use std::alloc::AllocError;

const TASK: Owner = Owner {
    slot: 1,
    kind: Kind::Got,
};

const OTHER: Owner = Owner {
    slot: 2,
    kind: Kind::System,
};

/// The last address.
const LAST: u32 = 0xFF_FFFF;

// The calls without what their contracts ensure: a test looks at what they answer.

pub(crate) fn get<S: Store>(
    store: &mut S,
    first: u32,
    last: u32,
    len: u32,
    owner: Owner,
) -> Result<Option<u32>, AllocError>
    requires last { last < 2 ^ 24 }
    requires len { 0 < len }
{
    store.get_area(first, last, len, owner)
}

fn write<S: Store>(store: &mut S, a: u32, bytes: &[u8]) -> bool
    requires address { a < 2 ^ 24 }
    requires size { length bytes.now ≤ 65536 }
{
    store.write(a, bytes)
}

fn byte<S: Store>(store: &S, a: u32) -> Option<u8>
    requires { a < 2 ^ 24 }
{
    store.byte(a)
}

/// Whether an area starts there.
fn starts<S: Store>(store: &S, start: u32) -> bool
    requires { start < 2 ^ 24 }
{
    store.area_at(start).is_some()
}

/// Whether the store lends these bytes from an address on.
fn lends<S: Store>(store: &S, a: u32, bytes: &[u8]) -> bool
    requires address { a < 2 ^ 24 }
    requires size { length bytes.now ≤ 65536 }
{
    store.slice(a, bytes.len()) == Some(bytes)
}

/// Whether the store lends `n` bytes from an address on.
fn lends_some<S: Store>(store: &S, a: u32, n: usize) -> bool
    requires address { a < 2 ^ 24 }
    requires size { n ≤ 65536 }
{
    store.slice(a, n).is_some()
}

/// Four bytes from an address on, into a buffer of 09s, and whether they are there.
fn four<S: Store>(store: &S, a: u32) -> (bool, [u8; 4])
    requires { a < 2 ^ 24 }
{
    let mut buffer = [9; 4];
    let found = store.read(a, &mut buffer);
    (found, buffer)
}

/// Areas of 1 and 1 byte; the first is freed, and 17 and 16 bytes follow: each at the least multiple of 16.
pub(crate) fn places_by_sixteens<S: Store>(store: &mut S) -> Result<bool, AllocError> {
    let first = 0x20_00B0;
    Ok(
        get(store, first, LAST, 1, TASK)? == Some(first)
            && get(store, first, LAST, 1, TASK)? == Some(0x20_00C0)
            && store.free_area(first)
            && !store.free_area(first)
            && store.place(first, LAST, 17) == Some(0x20_00D0)
            && get(store, first, LAST, 17, TASK)? == Some(0x20_00D0)
            && get(store, first, LAST, 16, OTHER)? == Some(first),
    )
}

/// Of three areas those of one owner are freed.
pub(crate) fn frees_all_areas_of_an_owner<S: Store>(store: &mut S) -> Result<bool, AllocError> {
    get(store, 0x1000, LAST, 16, TASK)?;
    get(store, 0x1000, LAST, 16, OTHER)?;
    get(store, 0x1000, LAST, 17, TASK)?;
    store.free_slot(1);
    let other = Area {
        start: 0x1010,
        len: 16,
        owner: OTHER,
    };
    Ok(
        !starts(store, 0x1000)
            && store.area_at(0x1010) == Some(other)
            && !starts(store, 0x1011)
            && !starts(store, 0x1020)
            && byte(store, 0x1000).is_none()
            && byte(store, 0x101F) == Some(0)
            && byte(store, 0x1020).is_none(),
    )
}

/// A range without room: 16 bytes don't fit between 101 and 11E, since 110 is the only multiple of 16.
pub(crate) fn finds_no_place<S: Store>(store: &mut S) -> Result<bool, AllocError> {
    Ok(
        get(store, 0x101, 0x11E, 16, TASK)?.is_none()
            && get(store, 0x101, 0x11F, 16, TASK)? == Some(0x110)
            && store.place(0x101, 0x11F, 1).is_none(),
    )
}

/// A span needs each of its bytes; areas that touch across FFFFFF and 000000 are read and written as one.
pub(crate) fn a_span_goes_on_at_address_0<S: Store>(store: &mut S) -> Result<bool, AllocError> {
    get(store, 0xFF_FFF0, LAST, 16, TASK)?;
    let alone = !write(store, 0xFF_FFFE, &[1, 2, 3, 4])
        && byte(store, 0xFF_FFFE) == Some(0)
        && four(store, 0xFF_FFFE) == (false, [9; 4]);
    Ok(
        alone
            && get(store, 0, 0xF, 2, OTHER)? == Some(0)
            && write(store, 0xFF_FFFE, &[1, 2, 3, 4])
            && four(store, 0xFF_FFFE) == (true, [1, 2, 3, 4])
            && byte(store, 1) == Some(4)
            && store.has_span(0xFF_FFFE, 4)
            && !store.has_span(0xFF_FFFE, 5)
            && !lends_some(store, 0xFF_FFFE, 4)
            && word_at(store, 0xFF_FFFE) == Some(0x0102_0304)
            && halfword_at(store, 0xFF_FFFF) == Some(0x0203)
            && word_at(store, 0xFF_FFFF).is_none(),
    )
}

/// Where the first area starts that starts at an address or above.
fn next<S: Store>(store: &S, from: u32) -> Option<u32> {
    store.next_area(from).map(|area| area.start)
}

/// Areas are found by any address at or below their start, up to the last one; none begins again at address 0.
pub(crate) fn finds_the_next_area<S: Store>(store: &mut S) -> Result<bool, AllocError> {
    let none = next(store, 0).is_none();
    get(store, 0x1000, LAST, 17, TASK)?;
    get(store, 0x1000, LAST, 16, OTHER)?;
    get(store, 0xFF_FFF0, LAST, 16, TASK)?;
    let other = Area {
        start: 0x1020,
        len: 16,
        owner: OTHER,
    };
    let all = next(store, 0) == Some(0x1000)
        && next(store, 0x1000) == Some(0x1000)
        && store.next_area(0x1001) == Some(other)
        && next(store, 0x1020) == Some(0x1020)
        && next(store, 0x1021) == Some(0xFF_FFF0)
        && next(store, 0xFF_FFF0) == Some(0xFF_FFF0)
        && next(store, 0xFF_FFF1).is_none()
        && next(store, 0x100_0000).is_none()
        && next(store, u32::MAX).is_none();
    Ok(none && all && store.free_area(0x1020) && next(store, 0x1001) == Some(0xFF_FFF0))
}

/// The byte that is written at an address.
fn pattern(a: u32) -> u8 {
    (a % 251) as u8
}

/// Whether `n` bytes from an address on are lent, and are those written.
fn lends_written<S: Store>(store: &S, a: u32, n: usize) -> bool
    requires address { a < 2 ^ 20 + 4096 }
    requires size { n ≤ 4096 }
{
    match store.slice(a, n) {
        Some(part) => {
            part.len() == n
                && part.first() == Some(&pattern(a))
                && part.last() == Some(&pattern(a + (n as u32).saturating_sub(1)))
        }
        None => false,
    }
}

/// Whether spans of several lengths from a place of a block on, and the one to the block's end, are lent.
fn lends_from<S: Store>(store: &S, block: u32, k: u32) -> bool
    requires block { block < 2 ^ 20 }
    requires place { k < 4096 }
{
    let left = 4096 - k as usize;
    for n in [1, 2, 15, 16, 17, 33, 256, 4096] {
        if !lends_written(store, block + k, left.min(n)) {
            return false;
        }
    }
    true
}

/// The bytes that are written at four addresses.
fn patterns(a: u32) -> [u8; 4]
    requires { a < 2 ^ 24 }
{
    [pattern(a), pattern(a + 1), pattern(a + 2), pattern(a + 3)]
}

/// Whether the bytes of an area of 10,000 bytes at 010000 are written.
fn writes_patterns<S: Store>(store: &mut S) -> bool {
    for a in 0x1_0000..0x1_2710 {
        if !store.set(a, pattern(a)) {
            return false;
        }
    }
    true
}

/// Whether the spans inside a block are lent.
fn lends_all_of<S: Store>(store: &S, block: u32) -> bool
    requires { block < 2 ^ 20 }
{
    for k in 0..4096 {
        if !lends_from(store, block, k) {
            return false;
        }
    }
    true
}

/// An area of 10,000 bytes at 010000: the spans inside its blocks of 4,096 bytes are lent, and hold what was
/// written.
pub(crate) fn lends_inside_a_block<S: Store>(store: &mut S) -> Result<bool, AllocError> {
    get(store, 0x1_0000, 0x1_FFFF, 10_000, TASK)?;
    Ok(writes_patterns(store) && lends_all_of(store, 0x1_0000) && lends_all_of(store, 0x1_1000))
}

/// Of the last block of that area those inside the area are lent; those across two blocks are read in any case.
pub(crate) fn lends_to_the_areas_end<S: Store>(store: &mut S) -> Result<bool, AllocError> {
    get(store, 0x1_0000, 0x1_FFFF, 10_000, TASK)?;
    Ok(
        writes_patterns(store)
            && lends_written(store, 0x1_2000, 10_000 - 8192)
            && !lends_some(store, 0x1_2000, 10_000 - 8191)
            && four(store, 0x1_0FFE) == (true, patterns(0x1_0FFE))
            && four(store, 0x1_1FFF) == (true, patterns(0x1_1FFF)),
    )
}

/// A word and a halfword need no boundary; their first byte is the highest.
pub(crate) fn words_are_read<S: Store>(store: &mut S) -> Result<bool, AllocError> {
    get(store, 0xFF_FFF0, LAST, 16, TASK)?;
    Ok(
        write(store, 0xFF_FFFB, &[0x81, 2, 3, 4, 5])
            && word_at(store, 0xFF_FFFB) == Some(0x8102_0304)
            && halfword_at(store, 0xFF_FFFB) == Some(0x8102)
            && word_at(store, 0xFF_FFFE).is_none()
            && halfword_at(store, 0xFF_FFFE) == Some(0x0405)
            && halfword_at(store, LAST).is_none(),
    )
}

/// Areas that touch: a span inside one of them is lent; one over both, or over a border of blocks, is lent as it is or
/// not at all.
pub(crate) fn lends_parts<S: Store>(store: &mut S) -> Result<bool, AllocError> {
    get(store, 0x1_0FF0, 0x1_1FFF, 0x20, TASK)?;
    get(store, 0x1_1010, 0x1_1FFF, 16, TASK)?;
    Ok(
        store.set(0x1_0FFF, 0xC1)
            && !store.set(0x1_1020, 7)
            && write(store, 0x1_100F, &[5, 6])
            && lends(store, 0x1_0FFE, &[0, 0xC1])
            && lends(store, 0x1_1010, &[6])
            && (lends(store, 0x1_0FFF, &[0xC1, 0]) || !lends_some(store, 0x1_0FFF, 2))
            && (lends(store, 0x1_100F, &[5, 6]) || !lends_some(store, 0x1_100F, 2))
            && !lends_some(store, 0x1_1020, 1),
    )
}

/// Whether an area of this length comes to lie at address 0, with its last byte at `last`, and is freed again.
fn is_made<S: Store>(store: &mut S, last: u32, len: u32) -> Result<bool, AllocError>
    requires last { last < 2 ^ 24 }
    requires len { 0 < len }
{
    let made = get(store, 0, last, len, TASK)? == Some(0) && byte(store, last) == Some(0);
    store.free_slot(1);
    Ok(made && byte(store, last).is_none())
}

/// The largest DFHEISTG, the longest text, and all of storage in one area.
pub(crate) fn areas_of_full_size_are_made<S: Store>(store: &mut S) -> Result<bool, AllocError> {
    Ok(
        is_made(store, 0xFFEF, 65_520)?
            && is_made(store, 0xFFFF, 65_536)?
            && is_made(store, LAST, 0x100_0000)?
            && get(store, 0, 0xFFFE, 65_536, TASK)?.is_none(),
    )
}

/// Two areas that share a block are made, one after the other.
pub(crate) fn two_areas_are_made<S: Store>(store: &mut S) -> Result<bool, AllocError> {
    Ok(
        get(store, 0x1000, 0x1FFF, 8, TASK)? == Some(0x1000)
            && get(store, 0x1000, 0x1FFF, 8, OTHER)? == Some(0x1010)
            && starts(store, 0x1000)
            && starts(store, 0x1010)
            && byte(store, 0x1010).is_some(),
    )
}

/// A failed allocation, whichever it is, leaves all as it was.
pub(crate) fn keeps_all_when_refused<S: Store>(store: &mut S) -> bool {
    let first = get(store, 0x1000, 0x1FFF, 8, TASK).is_ok();
    let second = get(store, 0x1000, 0x1FFF, 8, OTHER).is_ok();
    starts(store, 0x1000) == (first || second)
        && starts(store, 0x1010) == (first && second)
        && byte(store, 0x1010).is_some() == (first && second)
}

/// Whether no span over a border of two blocks is lent of such an area, though its bytes are there.
pub(crate) fn lends_nothing_over_a_border<S: Store>(store: &mut S) -> Result<bool, AllocError> {
    get(store, 0x1_0000, 0x1_FFFF, 10_000, TASK)?;
    Ok(
        !lends_some(store, 0x1_0FFF, 2)
            && !lends_some(store, 0x1_1FFF, 2)
            && four(store, 0x1_0FFF) == (true, [0; 4])
            && four(store, 0x1_1FFF) == (true, [0; 4]),
    )
}

/// Areas that share a block of 4,096 bytes, one over its border: one freed and placed again is zero again, and the
/// other keeps its bytes.
pub(crate) fn keeps_the_others_bytes<S: Store>(store: &mut S) -> Result<bool, AllocError> {
    let made = get(store, 0x3000, LAST, 5, OTHER)? == Some(0x3000)
        && get(store, 0x3FF0, LAST, 33, TASK)? == Some(0x3FF0)
        && get(store, 0x3FF0, LAST, 3, OTHER)? == Some(0x4020)
        && write(store, 0x3000, &[1, 2, 3, 4, 5])
        && write(store, 0x3FFE, &[6, 7, 8, 9])
        && write(store, 0x4020, &[10, 11, 12])
        && byte(store, 0x4010) == Some(0)
        && byte(store, 0x4011).is_none();
    let freed = store.free_area(0x3FF0)
        && byte(store, 0x3FFE).is_none()
        && byte(store, 0x4000).is_none();
    Ok(
        made && freed
            && four(store, 0x3001) == (true, [2, 3, 4, 5])
            && lends(store, 0x4020, &[10, 11, 12])
            && get(store, 0x3FF0, LAST, 40, TASK)? == Some(0x3FF0)
            && four(store, 0x3FFE) == (true, [0; 4])
            && byte(store, 0x4017) == Some(0)
            && byte(store, 0x4018).is_none()
            && lends(store, 0x4020, &[10, 11, 12]),
    )
}

/// A block whose areas are gone has no byte, and takes areas again.
pub(crate) fn a_block_comes_again<S: Store>(store: &mut S) -> Result<bool, AllocError> {
    get(store, 0x5000, 0x5FFF, 4096, TASK)?;
    let full = store.place(0x5000, 0x5FFF, 1).is_none() && store.set(0x5008, 7);
    store.free_slot(1);
    Ok(
        full && byte(store, 0x5008).is_none()
            && !store.set(0x5008, 7)
            && store.place(0x5000, 0x5FFF, 4096) == Some(0x5000)
            && get(store, 0x5000, 0x5FFF, 9, OTHER)? == Some(0x5000)
            && byte(store, 0x5008) == Some(0)
            && byte(store, 0x5009).is_none(),
    )
}

/// Free ends of two blocks of 4,096 bytes are one place, and free bytes before them that don't suffice are none.
pub(crate) fn a_place_over_a_border<S: Store>(store: &mut S) -> Result<bool, AllocError> {
    get(store, 0x6000, 0x6FFF, 0xF00, OTHER)?;
    get(store, 0x7100, 0x7FFF, 0xF00, OTHER)?;
    Ok(
        store.place(0x6000, LAST, 0x200) == Some(0x6F00)
            && store.place(0x6000, LAST, 0x201) == Some(0x8000)
            && get(store, 0x6000, LAST, 0x1F0, TASK)? == Some(0x6F00)
            && store.place(0x6000, LAST, 16) == Some(0x70F0)
            && store.place(0x6000, LAST, 17) == Some(0x8000),
    )
}

/// An area of 65,520 bytes over 17 blocks is present to its last byte.
pub(crate) fn a_large_area_is_made<S: Store>(store: &mut S) -> Result<bool, AllocError> {
    let start = get(store, 0x1_0FF0, LAST, 65_520, TASK)?;
    Ok(
        start == Some(0x1_0FF0)
            && byte(store, 0x2_0FDF) == Some(0)
            && byte(store, 0x2_0FE0).is_none()
            && store.has_span(0x1_0FF0, 65_520),
    )
}

/// The same; where an allocation fails all stays.
pub(crate) fn a_large_area<S: Store>(store: &mut S) -> bool {
    match a_large_area_is_made(store) {
        Ok(is_made) => is_made,
        Err(_) => {
            !starts(store, 0x1_0FF0)
                && byte(store, 0x1_0FF0).is_none()
                && store.place(0x1_0FF0, LAST, 65_520) == Some(0x1_0FF0)
        }
    }
}
