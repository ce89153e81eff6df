//! The trait `Store`: what each call does, over the storage that a store is seen as.

ghost use Rattle.std.specs.Prelude.{◌≡◌, ℕ, ◌+◌, ◌^◌, ◌<◌, ◌≤◌, ◌%◌, IsTrue, length, replicate, is_some, unwrap_or, IfSome, IsSome, OnSome, IfOk, OnErr, true, false, []};
ghost use Rattle.cx_storage.specs.Storage.{span};

use crate::address::next_address;
use crate::areas::{Area, Owner};
use std::alloc::AllocError;

/// Storage as System/370 has it (Principles of Operation, GA22-7000, "Storage Addressing"): bytes at
/// addresses below 2^24, where a span of bytes goes on at address 0 after X'FFFFFF'. That storage is a
/// list of areas is this product's own: a byte is present exactly where an area has its address, no two
/// areas meet, and each has an owner. No call except `get_area` takes memory.
pub trait Store {
    ghost use Rattle.cx_storage.specs.Storage.{Storage, byte_at, span, with_byte, after_write, area_at, next_area, with_area, with_areas_kept, starts_elsewhere, is_of_other_slot, IsTogether, IsSoundStorage};
    ghost use Rattle.cx_storage.specs.Place.{IsLeastPlace};
    ghost use Rattle.cx_storage.specs.Aligned.{AreAligned};

    ghost storage: { Self → Storage };

    /// The byte at the address `a` (below 2^24), where an area has it.
    fn byte(&self, a: u32) -> Option<u8>
        requires { a < 2 ^ 24 }
        ensures { result ≡ byte_at (storage self.now) a };

    /// Writes one byte at `a` (below 2^24). False, and no change, where no area has that address.
    fn set(&mut self, a: u32, value: u8) -> bool
        requires { a < 2 ^ 24 }
        ensures present { result ≡ is_some (byte_at (storage self.old) a) }
        ensures after { storage self.new ≡ with_byte (storage self.old) a value };

    /// The `n` bytes (at most 65,536) from `a` (below 2^24) on, lent in one piece. It is Some always
    /// for at least one byte inside one area and inside one block of 4,096 bytes that starts at a
    /// multiple of 4,096, and None where the span goes on at address 0. Elsewhere it may be None with
    /// all bytes present: then `read` has them.
    fn slice(&self, a: u32, n: usize) -> Option<&[u8]>
        requires address { a < 2 ^ 24 }
        requires size { n ≤ 65536 }
        ensures bytes { IfSome result (λ part. span (storage self.now) a n ≡ Some part.now) }
        ensures no_wrap { OnSome result (a + n ≤ 2 ^ 24) }
        ensures together { IsTogether (storage self.now) a n → IsSome result };

    /// Whether each of the `n` bytes from `a` (below 2^24) on is in an area; they go on at address 0
    /// after X'FFFFFF'.
    #[tactic(auto, using(crate::specs::Facts::Spans::span_gone, crate::specs::Facts::Spans::span_present))]
    fn has_span(&self, a: u32, n: usize) -> bool
        requires { a < 2 ^ 24 }
        ensures { result ≡ is_some (span (storage self.now) a n) }
    {
        let mut at = a;
        'tested: for _k in 0..n {
            if self.byte(at).is_none() {
                return false;
            }
            at = next_address(at);
        }
        true
    }

    /// Fills the buffer (at most 65,536 bytes) with the bytes from `a` (below 2^24) on, which go on at
    /// address 0 after X'FFFFFF'. False, and the buffer stays as it was, exactly where one of them is
    /// in no area.
    #[tactic(auto, using(crate::specs::Facts::Spans::span_gone, crate::specs::Facts::Spans::span_present, crate::proofs::WriteLemmas::unwrap_absent, crate::proofs::Filling::joined_all))]
    fn read(&self, a: u32, buffer: &mut [u8]) -> bool
        requires address { a < 2 ^ 24 }
        requires size { length buffer.old ≤ 65536 }
        ensures present { result ≡ is_some (span (storage self.now) a (length buffer.old)) }
        ensures after { buffer.new ≡ unwrap_or (span (storage self.now) a (length buffer.old)) buffer.old }
    {
        if !self.has_span(a, buffer.len()) {
            return false;
        }
        let mut at = a;
        'filled: for value in buffer.iter_mut() {
            // Each of the bytes is there by now.
            *value = self.byte(at).unwrap_or(0);
            at = next_address(at);
        }
        true
    }

    /// The 8 bytes from `a` (below 2^24) on, to be fetched often. It is Some only at an even address from
    /// 4,096 on, and where the span doesn't go on at address 0. It may be None with all bytes present:
    /// then `read` has them. Storage stays as it is.
    #[tactic(auto, using(crate::specs::Facts::Spans::span_length))]
    fn fetch(&mut self, a: u32) -> Option<[u8; 8]>
        requires { a < 2 ^ 24 }
        ensures bytes { IfSome result (λ bytes. span (storage self.old) a 8 ≡ Some bytes) }
        ensures even { OnSome result (a % 2 ≡ 0) }
        ensures high { OnSome result (4096 ≤ a) }
        ensures no_wrap { OnSome result (a + 8 ≤ 2 ^ 24) }
        ensures same { storage self.new ≡ storage self.old }
    {
        if a % 2 == 1 || a < 4096 {
            return None;
        }
        let part = self.slice(a, 8)?;
        let mut bytes = [0; 8];
        bytes.copy_from_slice(part);
        Some(bytes)
    }

    /// Writes the bytes (at most 65,536) from `a` (below 2^24) on; they go on at address 0 after
    /// X'FFFFFF'. False, and no change, exactly where one of the addresses is in no area.
    #[tactic(auto, using(crate::specs::Facts::Spans::span_gone, crate::specs::Facts::Spans::span_present, crate::specs::Facts::Writes::with_bytes_more, crate::specs::Facts::Writes::with_bytes_all, crate::specs::Facts::Writes::written_none, crate::specs::Facts::Writes::written_whole))]
    fn write(&mut self, a: u32, bytes: &[u8]) -> bool
        requires address { a < 2 ^ 24 }
        requires size { length bytes.now ≤ 65536 }
        ensures present { result ≡ is_some (span (storage self.old) a (length bytes.now)) }
        ensures after { storage self.new ≡ after_write (storage self.old) a bytes.now }
    {
        if !self.has_span(a, bytes.len()) {
            return false;
        }
        let mut at = a;
        'written: for value in bytes {
            self.set(at, *value);
            at = next_address(at);
        }
        true
    }

    /// The `n` bytes (at most 65,536) from `a` (below 2^24) on, where the store can lend them at once. It may be None
    /// with all bytes present: then `slice` or `read` has them.
    fn slice_fast(&self, a: u32, n: usize) -> Option<&[u8]>
        requires address { a < 2 ^ 24 }
        requires size { n ≤ 65536 }
        ensures bytes { IfSome result (λ part. span (storage self.now) a n ≡ Some part.now) }
    {
        self.slice(a, n)
    }

    /// Writes the bytes (at most 65,536) from `a` (below 2^24) on, where the store can write all of them at once.
    /// False, and no change, elsewhere, even with all addresses in areas: then `write` writes them.
    fn write_fast(&mut self, a: u32, bytes: &[u8]) -> bool
        requires address { a < 2 ^ 24 }
        requires size { length bytes.now ≤ 65536 }
        ensures present { result ≡ true → is_some (span (storage self.old) a (length bytes.now)) ≡ true }
        ensures after { result ≡ true → storage self.new ≡ after_write (storage self.old) a bytes.now }
        ensures same { result ≡ false → storage self.new ≡ storage self.old }
    {
        let _span = (a, bytes.len());
        false
    }

    /// Writes a byte `n` times (at most 65,536) from `a` (below 2^24) on, where the store can write all of them at
    /// once. False, and no change, elsewhere, even with all of them in areas: then `write` writes the bytes.
    fn fill_fast(&mut self, a: u32, n: usize, value: u8) -> bool
        requires address { a < 2 ^ 24 }
        requires size { n ≤ 65536 }
        ensures present { result ≡ true → is_some (span (storage self.old) a n) ≡ true }
        ensures after { result ≡ true → storage self.new ≡ after_write (storage self.old) a (replicate n value) }
        ensures same { result ≡ false → storage self.new ≡ storage self.old }
    {
        let _span = (a, n, value);
        false
    }

    /// The area that starts at the address `start` (below 2^24), where one does.
    fn area_at(&self, start: u32) -> Option<Area>
        requires { start < 2 ^ 24 }
        ensures { result ≡ area_at (storage self.now) start };

    /// The area with the least start that isn't below the address `from`; None where no area starts there or
    /// above.
    fn next_area(&self, from: u32) -> Option<Area>
        ensures { result ≡ next_area (storage self.now) from };

    /// The least multiple of 16 at which `len` bytes (at least 1) lie in the range from `first` to
    /// `last` (below 2^24) and meet no area; None where there is none.
    fn place(&self, first: u32, last: u32, len: u32) -> Option<u32>
        requires last { last < 2 ^ 24 }
        requires len { 0 < len }
        ensures { IsLeastPlace (storage self.now) first last len result };

    /// Makes an area of `len` zero bytes (at least 1) where `place` finds it in the range from `first`
    /// to `last` (below 2^24), and gives its start. Ok(None) exactly where there is no place, with no
    /// change and no memory asked for. AllocError where an allocation failed: all is as before.
    fn get_area(
        &mut self,
        first: u32,
        last: u32,
        len: u32,
        owner: Owner,
    ) -> Result<Option<u32>, AllocError>
        requires last { last < 2 ^ 24 }
        requires len { 0 < len }
        ensures placed { IfOk result (IsLeastPlace (storage self.old) first last len) }
        ensures after { IfOk result (λ start. storage self.new ≡ with_area (storage self.old) start len owner) }
        ensures no_place { IsLeastPlace (storage self.old) first last len None → result ≡ Ok None }
        ensures err { OnErr result (storage self.new ≡ storage self.old) };

    /// Frees the area that starts at the address `start` (below 2^24), with its bytes. False, and no
    /// change, where no area starts there.
    fn free_area(&mut self, start: u32) -> bool
        requires { start < 2 ^ 24 }
        ensures found { result ≡ is_some (area_at (storage self.old) start) }
        ensures after { storage self.new ≡ with_areas_kept (starts_elsewhere start) (storage self.old) };

    /// Frees all areas whose owner has this slot, with their bytes.
    fn free_slot(&mut self, slot: u8)
        ensures { storage self.new ≡ with_areas_kept (is_of_other_slot slot) (storage self.old) };

    /// An empty store of the same kind, which takes its memory where this one does. The call takes none.
    fn emptied(&self) -> Self
        ensures { storage result ≡ [] };

    ghost sound: { (s : Self) → IsSoundStorage (storage s) };

    ghost aligned: { (s : Self) → AreAligned (storage s) };
}
