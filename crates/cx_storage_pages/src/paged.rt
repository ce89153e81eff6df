//! `PagedStore`: a byte is found by its address alone, however many areas there are.

ghost use Rattle.std.specs.Prelude.{◌≡◌, []};
ghost use Rattle.cx_storage_pages.specs.Facts.Shown.{IsShown-prop, IsShown-sound, shown_at_multiples};
ghost use Rattle.cx_storage_pages.specs.Parts.Shown.{IsShown};
ghost use Rattle.cx_storage_pages.specs.Pages.{storage_of};

use crate::page::Page;
use crate::store::{
    byte_of, fill_at_hand_of, free_area_of, free_slot_of, get_of, has_span_of, place_of, read_of,
    set_of, slice_fast_of, slice_of, write_at_hand_of, write_of,
};
use crate::table::{area_of, next_of};
use cx_storage::{Area, Owner, Store};
use std::alloc::{AllocError, Global};

/// A store of areas in pages of 4,096 bytes. A page is made by the first area that touches it, and stays
/// when its areas are gone. A byte, a span or an area is found by its address, whatever the number of
/// areas; a span inside one page is lent, read and written at once.
#[derive(Drop)]
pub struct PagedStore {
    areas: Vec<Area>,
    pages: Vec<Page>,
    alloc: Global,
    ghost shown: { IsShown areas.items pages.items } by { IsShown-prop areas.items pages.items },
}

impl PagedStore {
    /// An empty store. It takes no memory; `get_area` takes what it needs from `alloc`.
    #[tactic(auto, using(crate::proofs::ShownLemmas::nothing_shown, crate::proofs::ShownLemmas::nothing_is))]
    pub fn new(alloc: Global) -> Self
        ensures { ⟦<PagedStore as Store>⟧.storage result ≡ [] }
    {
        PagedStore {
            areas: Vec::new(alloc),
            pages: Vec::new(alloc),
            alloc,
        }
    }
}

impl Store for PagedStore {
    ghost storage = { λ s. storage_of s.areas.items s.pages.items };

    ghost sound = { λ s. IsShown-sound s.areas.items s.pages.items s.shown };

    ghost aligned = { λ s. shown_at_multiples s.areas.items s.pages.items s.shown };

    #[inline(always)]
    fn byte(&self, a: u32) -> Option<u8> {
        byte_of(&self.areas, &self.pages, a)
    }

    fn set(&mut self, a: u32, value: u8) -> bool {
        set_of(&self.areas, &mut self.pages, a, value)
    }

    #[inline(always)]
    fn slice(&self, a: u32, n: usize) -> Option<&[u8]> {
        slice_of(&self.areas, &self.pages, a, n)
    }

    #[inline(always)]
    fn slice_fast(&self, a: u32, n: usize) -> Option<&[u8]> {
        slice_fast_of(&self.areas, &self.pages, a, n)
    }

    fn has_span(&self, a: u32, n: usize) -> bool {
        has_span_of(&self.areas, &self.pages, a, n)
    }

    #[inline(always)]
    fn read(&self, a: u32, buffer: &mut [u8]) -> bool {
        read_of(&self.areas, &self.pages, a, buffer)
    }

    #[inline(always)]
    fn write(&mut self, a: u32, bytes: &[u8]) -> bool {
        write_of(&self.areas, &mut self.pages, a, bytes)
    }

    #[inline(always)]
    fn write_fast(&mut self, a: u32, bytes: &[u8]) -> bool {
        write_at_hand_of(&self.areas, &mut self.pages, a, bytes)
    }

    #[inline(always)]
    fn fill_fast(&mut self, a: u32, n: usize, value: u8) -> bool {
        fill_at_hand_of(&self.areas, &mut self.pages, a, n, value)
    }

    fn area_at(&self, start: u32) -> Option<Area> {
        area_of(&self.areas, &self.pages, start)
    }

    fn next_area(&self, from: u32) -> Option<Area> {
        next_of(&self.areas, &self.pages, from)
    }

    fn place(&self, first: u32, last: u32, len: u32) -> Option<u32> {
        place_of(&self.areas, &self.pages, first, last, len)
    }

    fn get_area(
        &mut self,
        first: u32,
        last: u32,
        len: u32,
        owner: Owner,
    ) -> Result<Option<u32>, AllocError> {
        get_of(
            &mut self.areas,
            &mut self.pages,
            self.alloc,
            first,
            last,
            len,
            owner,
        )
    }

    fn free_area(&mut self, start: u32) -> bool {
        free_area_of(&mut self.areas, &mut self.pages, start)
    }

    fn free_slot(&mut self, slot: u8) {
        free_slot_of(&mut self.areas, &mut self.pages, slot);
    }

    fn emptied(&self) -> Self {
        PagedStore::new(self.alloc)
    }
}
