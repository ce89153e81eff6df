//! A store over a store: what was fetched is kept until it may have changed.

ghost use Rattle.std.specs.Prelude.{◌≡◌, ◌+◌, ◌%◌, ◌^◌, ◌<◌, ◌≤◌, length, is_some, Some, IfSome, OnSome};
ghost use Rattle.cx_storage.specs.Storage.{after_write, span};
ghost use Rattle.cx_storage_pages.specs.Parts.Slots.{IsPlaced, AreWithin, AreStored, AreLeft};
ghost use Rattle.cx_storage_pages.specs.Facts.Slots.{IsPlaced-prop, AreWithin-prop, AreStored-prop};

use crate::slots::{NOWHERE, SLOTS, empty_near, forget, is_aside, slot_of};
use cx_storage::laws::span_after_write;
use cx_storage::{Area, Owner, Store};
use std::alloc::AllocError;

/// The address after the last one.
const LIMIT: u32 = 0x100_0000;

/// A store that keeps the eight bytes at each of 1,024 addresses, those fetched last, and asks the store below for all
/// else. A write clears those that it may change; an area that is made or freed clears all.
#[derive(Drop)]
pub struct KeepingStore<S: Store + Drop> {
    store: S,
    slots: [u32; 1024],
    bytes: [[u8; 8]; 1024],
    first: u32,
    end: u32,
    ghost placed: { IsPlaced slots } by { IsPlaced-prop slots },
    ghost within: { AreWithin first end slots } by { AreWithin-prop first end slots },
    ghost stored: { AreStored (S.storage store) slots bytes } by { AreStored-prop (S.storage store) slots bytes },
}

impl<S: Store + Drop> KeepingStore<S> {
    /// A store over `store`, of which nothing is kept. It takes no memory.
    pub fn new(store: S) -> Self
        ensures { ⟦<KeepingStore<S> as Store>⟧.storage result ≡ S.storage store }
    {
        KeepingStore {
            store,
            slots: [NOWHERE; SLOTS],
            bytes: [[0; 8]; SLOTS],
            first: LIMIT,
            end: 0,
        }
    }

    /// Forgets all that is kept.
    #[cold]
    #[inline(never)]
    fn forget_all(&mut self)
        ensures none { AreLeft (λ _. ⊥) self.old.slots self.new.slots }
        ensures same { self.new.store ≡ self.old.store }
    {
        self.slots = [NOWHERE; SLOTS];
        self.first = LIMIT;
        self.end = 0;
    }

    /// Fetches bytes that aren't kept, and keeps them.
    #[cold]
    #[inline(never)]
    fn fetch_below(&mut self, a: u32) -> Option<[u8; 8]>
        requires { a < 2 ^ 24 }
        ensures bytes { IfSome result (λ bytes. span (S.storage self.old.store) a 8 ≡ Some bytes) }
        ensures even { OnSome result (a % 2 ≡ 0) }
        ensures high { OnSome result (4096 ≤ a) }
        ensures no_wrap { OnSome result (a + 8 ≤ 2 ^ 24) }
        ensures same { S.storage self.new.store ≡ S.storage self.old.store }
    {
        let bytes = self.store.fetch(a)?;
        let slot = slot_of(a);
        self.first = self.first.min(a);
        self.end = self.end.max(a + 8);
        self.slots[slot] = a;
        self.bytes[slot] = bytes;
        Some(bytes)
    }

    /// Writes bytes that may be some of those that are kept.
    #[tactic(auto, using(crate::proofs::SlotLemmas::placed_left, crate::proofs::SlotLemmas::within_left, crate::proofs::SlotLemmas::stored_after_write))]
    #[cold]
    #[inline(never)]
    fn write_near(&mut self, a: u32, bytes: &[u8]) -> bool
        requires address { a < 2 ^ 24 }
        requires size { length bytes.now ≤ 65536 }
        ensures present { result ≡ is_some (span (S.storage self.old.store) a (length bytes.now)) }
        ensures after { S.storage self.new.store ≡ after_write (S.storage self.old.store) a bytes.now }
    {
        span_after_write();
        empty_near(&mut self.slots, a, bytes.len());
        self.store.write(a, bytes)
    }
}

impl<S: Store + Drop> Store for KeepingStore<S> {
    ghost storage = { λ s. S.storage s.store };

    ghost sound = { λ s. S.sound s.store };

    ghost aligned = { λ s. S.aligned s.store };

    #[inline(always)]
    fn byte(&self, a: u32) -> Option<u8> {
        self.store.byte(a)
    }

    #[inline(always)]
    fn set(&mut self, a: u32, value: u8) -> bool {
        forget(&mut self.slots, self.first, self.end, a, 1);
        self.store.set(a, value)
    }

    #[inline(always)]
    fn slice(&self, a: u32, n: usize) -> Option<&[u8]> {
        self.store.slice(a, n)
    }

    #[inline(always)]
    fn slice_fast(&self, a: u32, n: usize) -> Option<&[u8]> {
        self.store.slice_fast(a, n)
    }

    #[inline(always)]
    fn fetch(&mut self, a: u32) -> Option<[u8; 8]> {
        let slot = slot_of(a);
        if self.slots[slot] == a {
            return Some(self.bytes[slot]);
        }
        self.fetch_below(a)
    }

    #[inline(always)]
    fn has_span(&self, a: u32, n: usize) -> bool {
        self.store.has_span(a, n)
    }

    #[inline(always)]
    fn read(&self, a: u32, buffer: &mut [u8]) -> bool {
        self.store.read(a, buffer)
    }

    #[tactic(auto, using(crate::proofs::SlotLemmas::stored_after_write))]
    #[inline(always)]
    fn write(&mut self, a: u32, bytes: &[u8]) -> bool {
        span_after_write();
        if !is_aside(&self.slots, self.first, self.end, a, bytes.len()) {
            return self.write_near(a, bytes);
        }
        self.store.write(a, bytes)
    }

    #[tactic(auto, using(crate::proofs::SlotLemmas::stored_after_write))]
    #[inline(always)]
    fn write_fast(&mut self, a: u32, bytes: &[u8]) -> bool {
        span_after_write();
        if !is_aside(&self.slots, self.first, self.end, a, bytes.len()) {
            return false;
        }
        self.store.write_fast(a, bytes)
    }

    #[tactic(auto, using(crate::proofs::SlotLemmas::stored_after_write))]
    #[inline(always)]
    fn fill_fast(&mut self, a: u32, n: usize, value: u8) -> bool {
        span_after_write();
        if !is_aside(&self.slots, self.first, self.end, a, n) {
            return false;
        }
        self.store.fill_fast(a, n, value)
    }

    fn area_at(&self, start: u32) -> Option<Area> {
        self.store.area_at(start)
    }

    fn next_area(&self, from: u32) -> Option<Area> {
        self.store.next_area(from)
    }

    fn place(&self, first: u32, last: u32, len: u32) -> Option<u32> {
        self.store.place(first, last, len)
    }

    fn get_area(
        &mut self,
        first: u32,
        last: u32,
        len: u32,
        owner: Owner,
    ) -> Result<Option<u32>, AllocError> {
        self.forget_all();
        self.store.get_area(first, last, len, owner)
    }

    fn free_area(&mut self, start: u32) -> bool {
        self.forget_all();
        self.store.free_area(start)
    }

    fn free_slot(&mut self, slot: u8) {
        self.forget_all();
        self.store.free_slot(slot);
    }

    fn emptied(&self) -> Self {
        KeepingStore::new(self.store.emptied())
    }
}
