//! Pages: each has its frame from the first area on that touches it.

ghost use Rattle.std.specs.Prelude.{◌≡◌, ℕ, ◌+◌, ◌-◌, ◌/◌, ◌%◌, ◌<◌, ◌≤◌, ◌*◌, ◌==◌, ◌&&◌, ◌⊎◌, true, false, length, replicate, Some, None, is_some, nat_le, nat_lt, slice_get, if◌then◌else◌, IsSome, IfSome, OnSome, OnOk, OnErr};
ghost use Rattle.cx_storage_pages.specs.Parts.Change.{Sets, Marks, Writes, HoldsBytes};
ghost use Rattle.cx_storage_pages.specs.Parts.Frame.{HasAll, Skips};
ghost use Rattle.cx_storage_pages.specs.Parts.Page.{is_made};
ghost use Rattle.cx_storage_pages.specs.Pages.{page_byte};

use crate::frame::Frame;
use std::alloc::{AllocError, Global};

/// A block of 4,096 bytes that starts at a multiple of 4,096. Without a frame none of them is present.
#[derive(Drop)]
pub struct Page {
    frame: Option<Box<Frame>>,
}

impl Page {
    /// A page that isn't made.
    #[tactic(auto, unfolding(crate::specs::Pages::page_byte))]
    pub(crate) fn new() -> Self
        ensures bytes { (k : ℕ) → page_byte result k ≡ None }
        ensures made { is_made result ≡ false }
    {
        Page { frame: None }
    }

    /// Makes the page where it isn't. It changes no byte.
    #[tactic(auto, unfolding(crate::specs::Pages::page_byte))]
    pub(crate) fn make(&mut self, alloc: Global) -> Result<(), AllocError>
        ensures made { OnOk result (is_made self.new ≡ true) }
        ensures same { (k : ℕ) → page_byte self.new k ≡ page_byte self.old k }
    {
        if self.frame.is_none() {
            self.frame = Some(Box::new(alloc, Frame::new())?);
        }
        Ok(())
    }

    /// The byte at the place `k`, where it is present.
    #[tactic(auto, unfolding(crate::specs::Pages::page_byte))]
    #[inline(always)]
    pub(crate) fn byte(&self, k: usize) -> Option<u8>
        requires { k < 4096 }
        ensures { result ≡ page_byte self.now k }
    {
        match &self.frame {
            Some(frame) => frame.byte(k),
            None => None,
        }
    }

    /// Writes a byte at the place `k`. False, and no change, where it isn't present.
    #[tactic(auto, unfolding(crate::specs::Pages::page_byte))]
    pub(crate) fn set(&mut self, k: usize, value: u8) -> bool
        requires { k < 4096 }
        ensures present { result ≡ is_some (page_byte self.old k) }
        ensures after { Sets k value (page_byte self.old) (page_byte self.new) }
    {
        match &mut self.frame {
            Some(frame) => frame.set(k, value),
            None => false,
        }
    }

    /// In the granules from `first` up to `end`, exclusive, makes the bytes before the place `to` zero and present,
    /// and the others absent, where the page is made.
    #[tactic(auto, unfolding(crate::specs::Pages::page_byte))]
    pub(crate) fn mark(&mut self, first: usize, end: usize, to: usize)
        requires order { first ≤ end }
        requires within { end ≤ 256 }
        requires in_granules { to ≤ 16 * end }
        ensures set { Marks (is_made self.old) first end to (page_byte self.old) (page_byte self.new) }
        ensures same { is_made self.new ≡ is_made self.old }
    {
        if let Some(frame) = &mut self.frame {
            frame.mark(first, end, to);
        }
    }

    /// Whether the bytes from `from` up to `to`, exclusive, are present.
    #[tactic(auto, unfolding(crate::specs::Pages::page_byte))]
    pub(crate) fn has(&self, from: usize, to: usize) -> bool
        requires order { from < to }
        requires within { to ≤ 4096 }
        ensures all { result ≡ true → HasAll (page_byte self.now) from to }
        ensures gap { HasAll (page_byte self.now) from to → result ≡ true }
    {
        match &self.frame {
            Some(frame) => frame.has(from, to),
            None => false,
        }
    }

    /// The `n` bytes from the place `from` on, where there are as many and all of them are present.
    #[tactic(auto, unfolding(crate::specs::Pages::page_byte))]
    #[inline(always)]
    pub(crate) fn part(&self, from: usize, n: usize) -> Option<&[u8]>
        requires { from < 4096 }
        ensures there { IfSome result (λ part. HoldsBytes (page_byte self.now) from n part.now) }
        ensures len { IfSome result (λ part. length part.now ≡ n) }
        ensures fits { OnSome result (from + n ≤ 4096) }
        ensures gap { 0 < n → from + n ≤ 4096 → HasAll (page_byte self.now) from (from + n) → IsSome result }
    {
        match &self.frame {
            Some(frame) => frame.part(from, n),
            None => None,
        }
    }

    /// The `n` bytes from the place `from` on, where they are few and present.
    #[tactic(auto, unfolding(crate::specs::Pages::page_byte))]
    #[inline(always)]
    pub(crate) fn part_fast(&self, from: usize, n: usize) -> Option<&[u8]>
        requires { from < 4096 }
        ensures there { IfSome result (λ part. HoldsBytes (page_byte self.now) from n part.now) }
        ensures len { IfSome result (λ part. length part.now ≡ n) }
        ensures fits { OnSome result (from + n ≤ 4096) }
    {
        match &self.frame {
            Some(frame) => frame.part_fast(from, n),
            None => None,
        }
    }

    /// Writes bytes from the place `from` on. False, and no change, where one has no place there or isn't present.
    #[tactic(auto, unfolding(crate::specs::Pages::page_byte))]
    #[inline(always)]
    pub(crate) fn write(&mut self, from: usize, source: &[u8]) -> bool
        requires { from < 4096 }
        ensures gap { result ≡ false → (k : ℕ) → page_byte self.new k ≡ page_byte self.old k }
        ensures fits { result ≡ true → from + length source.now ≤ 4096 }
        ensures after { result ≡ true → Writes from source.now (page_byte self.old) (page_byte self.new) }
        ensures present { result ≡ true → HasAll (page_byte self.old) from (from + length source.now) }
    {
        match &mut self.frame {
            Some(frame) => frame.write(from, source),
            None => false,
        }
    }

    /// Writes a byte `n` times from the place `from` on. False, and no change, where one has no place there or isn't
    /// present.
    #[tactic(auto, unfolding(crate::specs::Pages::page_byte))]
    #[inline(always)]
    pub(crate) fn fill(&mut self, from: usize, n: usize, value: u8) -> bool
        requires { from < 4096 }
        ensures gap { result ≡ false → (k : ℕ) → page_byte self.new k ≡ page_byte self.old k }
        ensures fits { result ≡ true → from + n ≤ 4096 }
        ensures after { result ≡ true → Writes from (replicate n value) (page_byte self.old) (page_byte self.new) }
        ensures present { result ≡ true → HasAll (page_byte self.old) from (from + n) }
    {
        match &mut self.frame {
            Some(frame) => frame.fill(from, n, value),
            None => false,
        }
    }

    /// The first granule from `g` up to `end`, exclusive, that has a byte, or `end`.
    #[tactic(auto, unfolding(crate::specs::Pages::page_byte))]
    pub(crate) fn free_to(&self, g: usize, end: usize) -> usize
        requires order { g ≤ end }
        requires within { end ≤ 256 }
        ensures order { g ≤ result }
        ensures within { result ≤ end }
        ensures free { (j : ℕ) → g ≤ j → j < result → page_byte self.now (j * 16) ≡ None }
        ensures taken { result < end → is_some (page_byte self.now (result * 16)) ≡ true }
    {
        match &self.frame {
            Some(frame) => frame.free_to(g, end),
            None => end,
        }
    }

    /// The granule after a row of granules from `g` on, each of which has a byte; that `g` has one is known.
    #[tactic(auto, unfolding(crate::specs::Pages::page_byte))]
    pub(crate) fn used_to(&self, g: usize) -> usize
        requires within { g < 256 }
        requires taken { is_some (page_byte self.now (g * 16)) ≡ true }
        ensures order { g < result }
        ensures within { result ≤ 256 }
        ensures taken { (j : ℕ) → g ≤ j → j < result → is_some (page_byte self.now (j * 16)) ≡ true }
    {
        match &self.frame {
            Some(frame) => frame.used_to(g),
            None => g + 1,
        }
    }

    /// Looks for the runs of free granules.
    #[tactic(auto, unfolding(crate::specs::Pages::page_byte))]
    pub(crate) fn sum_up(&mut self)
        ensures bytes { (k : ℕ) → page_byte self.new k ≡ page_byte self.old k }
        ensures made { is_made self.new ≡ is_made self.old }
    {
        if let Some(frame) = &mut self.frame {
            frame.sum_up();
        }
    }

    /// How many free granules are at the end, where it is known that `need` of them in a row don't begin before.
    #[tactic(auto, unfolding(crate::specs::Pages::page_byte))]
    pub(crate) fn tail(&self, need: usize) -> Option<usize>
        ensures { IfSome result (λ tail. Skips (page_byte self.now) need tail) }
    {
        match &self.frame {
            Some(frame) => frame.tail(need),
            None => None,
        }
    }
}
