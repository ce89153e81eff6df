//! What each call does to the table of areas and the pages, which show one storage.

ghost use Rattle.std.specs.Prelude.{◌≡◌, true, false, ℕ, ◌+◌, ◌/◌, ◌%◌, ◌^◌, ◌<◌, ◌≤◌, [], length, replicate, Ok, Some, None, is_some, unwrap_or, IfSome, IsSome, OnSome, IfOk, OnErr};
ghost use Rattle.cx_storage.specs.Storage.{byte_at, span, with_byte, with_bytes, after_write, area_at, with_area, with_areas_kept, starts_elsewhere, is_of_other_slot, IsTogether};
ghost use Rattle.cx_storage.specs.Place.{IsLeastPlace};
ghost use Rattle.cx_storage_pages.specs.Parts.Directory.{has_page};
ghost use Rattle.cx_storage_pages.specs.Parts.Shown.{stored, IsShown};

use crate::directory::{
    byte_in, clear_in, fill_in, free_in, has_in, make_in, part_fast_in, part_in, set_in, sum_in,
    tail_in, used_in, write_in, zero_in,
};
use crate::page::Page;
use crate::table::spot_of;
use cx_storage::laws::place_is_free;
use cx_storage::{Area, Owner, address_after, next_address};
use std::alloc::{AllocError, Global};

/// The byte at an address, where an area has it.
#[inline(always)]
pub(crate) fn byte_of(areas: &Vec<Area>, pages: &Vec<Page>, a: u32) -> Option<u8>
    requires { IsShown areas.now.items pages.now.items }
    ensures { result ≡ byte_at (stored areas.now pages.now) a }
{
    byte_in(pages, a)
}

/// Writes a byte where an area has the address.
pub(crate) fn set_of(areas: &Vec<Area>, pages: &mut Vec<Page>, a: u32, value: u8) -> bool
    requires { IsShown areas.now.items pages.old.items }
    ensures present { result ≡ is_some (byte_at (stored areas.now pages.old) a) }
    ensures after { stored areas.now pages.new ≡ with_byte (stored areas.now pages.old) a value }
    ensures shown { IsShown areas.now.items pages.new.items }
{
    set_in(pages, a, value)
}

/// The least place in a range.
pub(crate) fn place_of(
    areas: &Vec<Area>,
    pages: &Vec<Page>,
    first: u32,
    last: u32,
    len: u32,
) -> Option<u32>
    requires shown { IsShown areas.now.items pages.now.items }
    requires last { last < 2 ^ 24 }
    requires len { 0 < len }
    ensures { IsLeastPlace (stored areas.now pages.now) first last len result }
{
    place_is_free();
    let need = (len as usize + 15) / 16;
    let mut from = (first as usize + 15) / 16;
    let mut g = from;
    while from * 16 + len as usize <= last as usize + 1 {
        if need <= g - from {
            return Some((from * 16) as u32);
        }
        let i = g / 256;
        if i * 256 <= from {
            if let Some(tail) = tail_in(pages, i, need) {
                g = i * 256 + 256;
                from = from.max(g - tail);
                continue;
            }
        }
        let free = free_in(pages, g, (from + need).min(i * 256 + 256));
        if free == g {
            g = used_in(pages, g);
            from = g;
        } else {
            g = free;
        }
    }
    None
}

/// Makes an area of zero bytes at the least place in a range. No page before the first that it touches is made.
pub(crate) fn get_of(
    areas: &mut Vec<Area>,
    pages: &mut Vec<Page>,
    alloc: Global,
    first: u32,
    last: u32,
    len: u32,
    owner: Owner,
) -> Result<Option<u32>, AllocError>
    requires shown { IsShown areas.old.items pages.old.items }
    requires last { last < 2 ^ 24 }
    requires len { 0 < len }
    ensures placed { IfOk result (IsLeastPlace (stored areas.old pages.old) first last len) }
    ensures after { IfOk result
        (λ a. stored areas.new pages.new ≡ with_area (stored areas.old pages.old) a len owner) }
    ensures no_place { IsLeastPlace (stored areas.old pages.old) first last len None → result ≡ Ok None }
    ensures err { OnErr result (stored areas.new pages.new ≡ stored areas.old pages.old) }
    ensures shown { IsShown areas.new.items pages.new.items }
    ensures pages { (a i : ℕ) → IsLeastPlace (stored areas.old pages.old) first last len (Some a) → i < a / 4096
        → has_page pages.new.items i ≡ has_page pages.old.items i }
{
    let Some(start) = place_of(areas, pages, first, last, len) else {
        return Ok(None);
    };
    let end = start as usize + len as usize;
    let i = spot_of(areas, pages, start);
    // The pages that were passed in vain are passed at once from then on.
    sum_in(pages, first as usize / 4096, start as usize / 4096);
    make_in(pages, alloc, start as usize / 4096, (end - 1) / 4096)?;
    areas.insert(i, Area { start, len, owner })?;
    zero_in(pages, start as usize, end);
    Ok(Some(start))
}

/// Frees the area that starts at an address.
pub(crate) fn free_area_of(areas: &mut Vec<Area>, pages: &mut Vec<Page>, start: u32) -> bool
    requires { IsShown areas.old.items pages.old.items }
    ensures found { result ≡ is_some (area_at (stored areas.old pages.old) start) }
    ensures after { stored areas.new pages.new
        ≡ with_areas_kept (starts_elsewhere start) (stored areas.old pages.old) }
    ensures shown { IsShown areas.new.items pages.new.items }
{
    let i = spot_of(areas, pages, start);
    if i < areas.len() {
        let area = areas[i];
        if area.start == start {
            let end = start as usize + area.len as usize;
            clear_in(pages, start as usize, end);
            areas.remove(i);
            return true;
        }
    }
    false
}

/// Frees the areas of a slot.
pub(crate) fn free_slot_of(areas: &mut Vec<Area>, pages: &mut Vec<Page>, slot: u8)
    requires { IsShown areas.old.items pages.old.items }
    ensures after { stored areas.new pages.new
        ≡ with_areas_kept (is_of_other_slot slot) (stored areas.old pages.old) }
    ensures shown { IsShown areas.new.items pages.new.items }
{
    for area in areas.iter() {
        if area.owner.slot == slot {
            clear_in(
                pages,
                area.start as usize,
                area.start as usize + area.len as usize,
            );
        }
    }
    areas.retain(|area| area.owner.slot != slot);
}

/// The bytes of a span, where one page has all of them.
#[inline(always)]
pub(crate) fn slice_of<'a>(
    areas: &Vec<Area>,
    pages: &'a Vec<Page>,
    a: u32,
    n: usize,
) -> Option<&'a [u8]>
    requires shown { IsShown areas.now.items pages.now.items }
    requires address { a < 2 ^ 24 }
    ensures bytes { IfSome result (λ part. span (stored areas.now pages.now) a n ≡ Some part.now) }
    ensures no_wrap { OnSome result (a + n ≤ 2 ^ 24) }
    ensures together { IsTogether (stored areas.now pages.now) a n → IsSome result }
{
    part_in(pages, a, n)
}

/// The bytes of a span, where one page has all of it and they are few.
#[inline(always)]
pub(crate) fn slice_fast_of<'a>(
    areas: &Vec<Area>,
    pages: &'a Vec<Page>,
    a: u32,
    n: usize,
) -> Option<&'a [u8]>
    requires shown { IsShown areas.now.items pages.now.items }
    requires address { a < 2 ^ 24 }
    ensures bytes { IfSome result (λ part. span (stored areas.now pages.now) a n ≡ Some part.now) }
{
    part_fast_in(pages, a, n)
}

/// Whether each byte of a span is in an area.
#[inline(never)]
pub(crate) fn has_span_of(areas: &Vec<Area>, pages: &Vec<Page>, a: u32, n: usize) -> bool
    requires shown { IsShown areas.now.items pages.now.items }
    requires address { a < 2 ^ 24 }
    ensures { result ≡ is_some (span (stored areas.now pages.now) a n) }
{
    let mut at = a;
    let mut left = n;
    while left > 0 {
        let step = left.min(4096 - at as usize % 4096);
        if !has_in(pages, at as usize, at as usize + step) {
            return false;
        }
        at = address_after(at, step as u32);
        left -= step;
    }
    true
}

/// Fills a buffer from a span, byte by byte.
#[cold]
#[inline(never)]
fn read_each(areas: &Vec<Area>, pages: &Vec<Page>, a: u32, buffer: &mut [u8]) -> bool
    requires shown { IsShown areas.now.items pages.now.items }
    requires address { a < 2 ^ 24 }
    requires size { length buffer.old ≤ 65536 }
    ensures present { result ≡ is_some (span (stored areas.now pages.now) a (length buffer.old)) }
    ensures after { buffer.new ≡ unwrap_or (span (stored areas.now pages.now) a (length buffer.old)) buffer.old }
{
    if !has_span_of(areas, pages, a, buffer.len()) {
        return false;
    }
    for k in 0..buffer.len() {
        // Each of the bytes is there by now.
        buffer[k] = byte_of(areas, pages, address_after(a, k as u32)).unwrap_or(0);
    }
    true
}

/// Fills a buffer from a span.
#[inline(always)]
pub(crate) fn read_of(areas: &Vec<Area>, pages: &Vec<Page>, a: u32, buffer: &mut [u8]) -> bool
    requires shown { IsShown areas.now.items pages.now.items }
    requires address { a < 2 ^ 24 }
    requires size { length buffer.old ≤ 65536 }
    ensures present { result ≡ is_some (span (stored areas.now pages.now) a (length buffer.old)) }
    ensures after { buffer.new ≡ unwrap_or (span (stored areas.now pages.now) a (length buffer.old)) buffer.old }
{
    if let Some(part) = slice_of(areas, pages, a, buffer.len()) {
        buffer.copy_from_slice(part);
        return true;
    }
    read_each(areas, pages, a, buffer)
}

/// Writes bytes one after the other, each of which is present.
#[cold]
#[inline(never)]
fn write_each(areas: &Vec<Area>, pages: &mut Vec<Page>, a: u32, bytes: &[u8])
    requires shown { IsShown areas.now.items pages.old.items }
    requires address { a < 2 ^ 24 }
    ensures after { stored areas.now pages.new ≡ with_bytes (stored areas.now pages.old) a bytes.now }
    ensures shown { IsShown areas.now.items pages.new.items }
{
    let mut at = a;
    'written: for value in bytes {
        set_of(areas, pages, at, *value);
        at = next_address(at);
    }
}

/// Writes a span byte by byte.
#[cold]
#[inline(never)]
fn write_apart(areas: &Vec<Area>, pages: &mut Vec<Page>, a: u32, bytes: &[u8]) -> bool
    requires shown { IsShown areas.now.items pages.old.items }
    requires address { a < 2 ^ 24 }
    requires size { length bytes.now ≤ 65536 }
    ensures present { result ≡ is_some (span (stored areas.now pages.old) a (length bytes.now)) }
    ensures after { stored areas.now pages.new ≡ after_write (stored areas.now pages.old) a bytes.now }
    ensures shown { IsShown areas.now.items pages.new.items }
{
    if !has_span_of(areas, pages, a, bytes.len()) {
        return false;
    }
    write_each(areas, pages, a, bytes);
    true
}

/// Writes a span, where one page has all of it.
#[inline(always)]
pub(crate) fn write_at_hand_of(
    areas: &Vec<Area>,
    pages: &mut Vec<Page>,
    a: u32,
    bytes: &[u8],
) -> bool
    requires shown { IsShown areas.now.items pages.old.items }
    requires address { a < 2 ^ 24 }
    requires size { length bytes.now ≤ 65536 }
    ensures present { result ≡ true → is_some (span (stored areas.now pages.old) a (length bytes.now)) ≡ true }
    ensures after { result ≡ true → stored areas.now pages.new ≡ after_write (stored areas.now pages.old) a bytes.now }
    ensures same { result ≡ false → stored areas.now pages.new ≡ stored areas.now pages.old }
    ensures shown { IsShown areas.now.items pages.new.items }
{
    let _areas = areas;
    write_in(pages, a, bytes)
}

/// Fills a span with a byte, where one page has all of it.
#[inline(always)]
pub(crate) fn fill_at_hand_of(
    areas: &Vec<Area>,
    pages: &mut Vec<Page>,
    a: u32,
    n: usize,
    value: u8,
) -> bool
    requires shown { IsShown areas.now.items pages.old.items }
    requires address { a < 2 ^ 24 }
    requires size { n ≤ 65536 }
    ensures present { result ≡ true → is_some (span (stored areas.now pages.old) a n) ≡ true }
    ensures after { result ≡ true
        → stored areas.now pages.new ≡ after_write (stored areas.now pages.old) a (replicate n value) }
    ensures same { result ≡ false → stored areas.now pages.new ≡ stored areas.now pages.old }
    ensures shown { IsShown areas.now.items pages.new.items }
{
    let _areas = areas;
    fill_in(pages, a, n, value)
}

/// Writes a span.
#[inline(always)]
pub(crate) fn write_of(areas: &Vec<Area>, pages: &mut Vec<Page>, a: u32, bytes: &[u8]) -> bool
    requires shown { IsShown areas.now.items pages.old.items }
    requires address { a < 2 ^ 24 }
    requires size { length bytes.now ≤ 65536 }
    ensures present { result ≡ is_some (span (stored areas.now pages.old) a (length bytes.now)) }
    ensures after { stored areas.now pages.new ≡ after_write (stored areas.now pages.old) a bytes.now }
    ensures shown { IsShown areas.now.items pages.new.items }
{
    if write_in(pages, a, bytes) {
        return true;
    }
    write_apart(areas, pages, a, bytes)
}
