//! The directory: the pages, by their addresses divided by 4,096.

ghost use Rattle.std.specs.Prelude.{◌≡◌, ◌≢◌, ℕ, ◌+◌, ◌-◌, ◌*◌, ◌/◌, ◌%◌, ◌<◌, ◌≤◌, ◌^◌, ◌==◌, ◌&&◌, ◌⊎◌, true, false, length, replicate, Some, None, is_some, nat_le, nat_lt, slice_get, if◌then◌else◌, IsSome, IfSome, OnSome, OnOk};
ghost use Rattle.cx_storage_pages.specs.Parts.Change.{Sets, Marks, Writes, Fills, zero_to, HoldsBytes};
ghost use Rattle.cx_storage_pages.specs.Parts.Frame.{HasAll, Skips};
ghost use Rattle.cx_storage_pages.specs.Parts.Directory.{has_page};
ghost use Rattle.cx_storage_pages.specs.Pages.{byte_in_pages};

use crate::page::Page;
use std::alloc::{AllocError, Global};

/// The byte at an address, where it is present.
#[tactic(auto, unfolding(crate::specs::Pages::byte_in_pages))]
#[inline(always)]
pub(crate) fn byte_in(pages: &Vec<Page>, a: u32) -> Option<u8>
    ensures { result ≡ byte_in_pages pages.now.items a }
{
    match pages.get(a as usize / 4096) {
        Some(page) => page.byte(a as usize % 4096),
        None => None,
    }
}

/// Writes a byte. False, and no change, where it isn't present.
#[tactic(auto, unfolding(crate::specs::Pages::byte_in_pages))]
pub(crate) fn set_in(pages: &mut Vec<Page>, a: u32, value: u8) -> bool
    ensures present { result ≡ is_some (byte_in_pages pages.old.items a) }
    ensures after { Sets a value (byte_in_pages pages.old.items) (byte_in_pages pages.new.items) }
{
    let i = a as usize / 4096;
    if i < pages.len() {
        let page = &mut pages[i];
        page.set(a as usize % 4096, value)
    } else {
        false
    }
}

/// In the granules from `g` up to `end`, exclusive, all of one page, makes the bytes before the address `to` zero and
/// present, and the others absent, where the page is made.
#[tactic(auto, unfolding(crate::specs::Pages::byte_in_pages, crate::specs::Parts::Directory::has_page))]
pub(crate) fn mark_in(pages: &mut Vec<Page>, g: usize, end: usize, to: usize)
    requires order { g < end }
    requires together { (end - 1) / 256 ≡ g / 256 }
    requires low { end ≤ 2 ^ 20 }
    requires in_granules { to ≤ 16 * end }
    ensures set { Marks (has_page pages.old.items (g / 256)) g end to (byte_in_pages pages.old.items)
        (byte_in_pages pages.new.items) }
    ensures pages { (i : ℕ) → has_page pages.new.items i ≡ has_page pages.old.items i }
{
    let i = g / 256;
    if i < pages.len() {
        let page = &mut pages[i];
        let first = g % 256;
        page.mark(first, first + (end - g), to.saturating_sub(i * 4096));
    }
}

/// Whether the bytes from `a` up to `end`, exclusive, all of one page, are present.
#[tactic(auto, unfolding(crate::specs::Pages::byte_in_pages))]
pub(crate) fn has_in(pages: &Vec<Page>, a: usize, end: usize) -> bool
    requires order { a < end }
    requires together { a % 4096 + (end - a) ≤ 4096 }
    ensures all { result ≡ true → HasAll (byte_in_pages pages.now.items) a end }
    ensures gap { HasAll (byte_in_pages pages.now.items) a end → result ≡ true }
{
    let i = a / 4096;
    if i < pages.len() {
        let from = a % 4096;
        pages[i].has(from, from + (end - a))
    } else {
        false
    }
}

/// Makes the pages from `first` to `last`, and none before them. It changes no byte.
pub(crate) fn make_in(
    pages: &mut Vec<Page>,
    alloc: Global,
    first: usize,
    last: usize,
) -> Result<(), AllocError>
    requires { last < 2 ^ 32 }
    ensures made { OnOk result ((i : ℕ) → first ≤ i → i ≤ last → has_page pages.new.items i ≡ true) }
    ensures before { (i : ℕ) → i < first → has_page pages.new.items i ≡ has_page pages.old.items i }
    ensures same { (x : ℕ) → byte_in_pages pages.new.items x ≡ byte_in_pages pages.old.items x }
{
    while pages.len() <= last {
        pages.push(Page::new())?;
    }
    for i in first..last + 1 {
        let page = &mut pages[i];
        page.make(alloc)?;
    }
    Ok(())
}

/// The `n` bytes from `a` on, where all of them are in one page and present.
#[inline(always)]
pub(crate) fn part_in(pages: &Vec<Page>, a: u32, n: usize) -> Option<&[u8]>
    ensures there { IfSome result (λ part. HoldsBytes (byte_in_pages pages.now.items) a n part.now) }
    ensures len { IfSome result (λ part. length part.now ≡ n) }
    ensures together { OnSome result (a % 4096 + n ≤ 4096) }
    ensures gap { 0 < n → a % 4096 + n ≤ 4096 → HasAll (byte_in_pages pages.now.items) a (a + n)
        → IsSome result }
{
    let i = a as usize / 4096;
    if i < pages.len() {
        pages[i].part(a as usize % 4096, n)
    } else {
        None
    }
}

/// The `n` bytes from `a` on, where they are few, in one page, and present.
#[inline(always)]
pub(crate) fn part_fast_in(pages: &Vec<Page>, a: u32, n: usize) -> Option<&[u8]>
    ensures there { IfSome result (λ part. HoldsBytes (byte_in_pages pages.now.items) a n part.now) }
    ensures len { IfSome result (λ part. length part.now ≡ n) }
    ensures together { OnSome result (a % 4096 + n ≤ 4096) }
{
    let i = a as usize / 4096;
    if i < pages.len() {
        pages[i].part_fast(a as usize % 4096, n)
    } else {
        None
    }
}

/// Writes bytes from `a` on, where all of the addresses are in one page and present; else it changes nothing.
#[inline(always)]
pub(crate) fn write_in(pages: &mut Vec<Page>, a: u32, source: &[u8]) -> bool
    ensures gap { result ≡ false → (x : ℕ)
        → byte_in_pages pages.new.items x ≡ byte_in_pages pages.old.items x }
    ensures after { result ≡ true
        → Writes a source.now (byte_in_pages pages.old.items) (byte_in_pages pages.new.items) }
    ensures present { result ≡ true → HasAll (byte_in_pages pages.old.items) a (a + length source.now) }
    ensures together { result ≡ true → a % 4096 + length source.now ≤ 4096 }
{
    let i = a as usize / 4096;
    if i < pages.len() {
        let page = &mut pages[i];
        page.write(a as usize % 4096, source)
    } else {
        false
    }
}

/// Writes a byte `n` times from `a` on, where all of the addresses are in one page and present; else it changes
/// nothing.
#[inline(always)]
pub(crate) fn fill_in(pages: &mut Vec<Page>, a: u32, n: usize, value: u8) -> bool
    ensures gap { result ≡ false → (x : ℕ)
        → byte_in_pages pages.new.items x ≡ byte_in_pages pages.old.items x }
    ensures after { result ≡ true
        → Writes a (replicate n value) (byte_in_pages pages.old.items) (byte_in_pages pages.new.items) }
    ensures present { result ≡ true → HasAll (byte_in_pages pages.old.items) a (a + n) }
    ensures together { result ≡ true → a % 4096 + n ≤ 4096 }
{
    let i = a as usize / 4096;
    if i < pages.len() {
        let page = &mut pages[i];
        page.fill(a as usize % 4096, n, value)
    } else {
        false
    }
}

/// Makes the bytes from `start` (a multiple of 16) up to `end`, exclusive, zero and present, in pages that are made.
pub(crate) fn zero_in(pages: &mut Vec<Page>, start: usize, end: usize)
    requires granule { start % 16 ≡ 0 }
    requires order { start < end }
    requires low { end ≤ 2 ^ 24 }
    requires made { (i : ℕ) → start / 4096 ≤ i → i ≤ (end - 1) / 4096
        → has_page pages.old.items i ≡ true }
    ensures filled { Fills (start / 16) ((end + 15) / 16) (zero_to end) (byte_in_pages pages.old.items)
        (byte_in_pages pages.new.items) }
    ensures pages { (i : ℕ) → has_page pages.new.items i ≡ has_page pages.old.items i }
{
    let last = (end + 15) / 16;
    let mut g = start / 16;
    while g < last {
        let next = last.min(g / 256 * 256 + 256);
        mark_in(pages, g, next, end.min(16 * next));
        g = next;
    }
}

/// Makes the bytes of the granules from `start` (a multiple of 16) up to `end`, exclusive, absent.
pub(crate) fn clear_in(pages: &mut Vec<Page>, start: usize, end: usize)
    requires granule { start % 16 ≡ 0 }
    requires order { start < end }
    requires low { end ≤ 2 ^ 24 }
    ensures { Fills (start / 16) ((end + 15) / 16)
        (λ _. None) (byte_in_pages pages.old.items) (byte_in_pages pages.new.items) }
{
    let last = (end + 15) / 16;
    let mut g = start / 16;
    while g < last {
        let next = last.min(g / 256 * 256 + 256);
        mark_in(pages, g, next, 0);
        g = next;
    }
}

/// Looks for the runs of free granules of the pages from `first` up to `end`, exclusive, where they aren't
/// known. It changes no byte, and makes no page.
pub(crate) fn sum_in(pages: &mut Vec<Page>, first: usize, end: usize)
    ensures bytes { (x : ℕ) → byte_in_pages pages.new.items x ≡ byte_in_pages pages.old.items x }
    ensures pages { (i : ℕ) → has_page pages.new.items i ≡ has_page pages.old.items i }
{
    for i in first..end {
        if i < pages.len() {
            let page = &mut pages[i];
            page.sum_up();
        }
    }
}

/// The first granule from `g` up to `end`, exclusive, all of one page, that has a byte, or `end`.
pub(crate) fn free_in(pages: &Vec<Page>, g: usize, end: usize) -> usize
    requires order { g < end }
    requires together { (end - 1) / 256 ≡ g / 256 }
    ensures order { g ≤ result }
    ensures within { result ≤ end }
    ensures free { (j : ℕ) → g ≤ j → j < result → byte_in_pages pages.now.items (j * 16) ≡ None }
    ensures taken { result < end → is_some (byte_in_pages pages.now.items (result * 16)) ≡ true }
{
    let i = g / 256;
    if i < pages.len() {
        let first = g % 256;
        g - first + pages[i].free_to(first, first + (end - g))
    } else {
        end
    }
}

/// The granule after a row of granules from `g` on, each of which has a byte; that `g` has one is known.
pub(crate) fn used_in(pages: &Vec<Page>, g: usize) -> usize
    requires low { g < 2 ^ 32 }
    requires taken { is_some (byte_in_pages pages.now.items (g * 16)) ≡ true }
    ensures order { g < result }
    ensures near { result ≤ g + 256 }
    ensures taken { (j : ℕ) → g ≤ j → j < result → is_some (byte_in_pages pages.now.items (j * 16)) ≡ true }
{
    let i = g / 256;
    if i < pages.len() {
        let first = g % 256;
        g - first + pages[i].used_to(first)
    } else {
        g + 1
    }
}

/// How many free granules are at the end of the page `i`, where it is known that `need` of them in a row don't
/// begin before.
pub(crate) fn tail_in(pages: &Vec<Page>, i: usize, need: usize) -> Option<usize>
    ensures { IfSome result (λ tail. Skips (λ k. byte_in_pages pages.now.items (i * 4096 + k)) need tail) }
{
    if i < pages.len() {
        pages[i].tail(need)
    } else {
        None
    }
}
