//! Frames: the 4,096 bytes of a page, in granules of 16 bytes. Areas start at multiples
//! of 16, so the bytes of a granule that are present are its first ones, and their number says which.

ghost use Rattle.std.specs.Prelude.{◌≡◌, ℕ, ◌+◌, ◌-◌, ◌*◌, ◌/◌, ◌%◌, ◌<◌, ◌≤◌, ◌==◌, ◌&&◌, ◌⊎◌, true, false, length, replicate, Some, None, is_some, nat_le, nat_lt, slice_get, slice_index, slice_range, min, max, if◌then◌else◌, MatchOption, IsSome, IfSome, OnSome};
ghost use Rattle.cx_storage_pages.specs.Facts.Reach.{Reaches-prop};
ghost use Rattle.cx_storage_pages.specs.Facts.Runs.{AllFree-prop, RunsAre-prop};
ghost use Rattle.cx_storage_pages.specs.Parts.Change.{is_within, Changes, Recounts, Sets, Writes, Fills, zero_to, HoldsBytes};
ghost use Rattle.cx_storage_pages.specs.Parts.Reach.{Reaches, is_row};
ghost use Rattle.cx_storage_pages.specs.Parts.Runs.{AllFree, IsRuns, RunsAre};

/// The bytes of a page that was made, for each granule how many bytes from its first one on are present in a row, at
/// most 255 in all, a granule from which on none has a byte, and the runs of free granules, where they were looked for
/// since a granule changed.
#[derive(Drop)]
pub struct Frame {
    bytes: [u8; 4096],
    counts: [u8; 256],
    top: u16,
    runs: Option<Runs>,
    ghost topped: { AllFree counts top 256 } by { AllFree-prop counts top },
    ghost summed: { RunsAre runs counts } by { RunsAre-prop runs counts },
    ghost reached: { Reaches counts } by { Reaches-prop counts },
}

/// The runs of granules of which no byte is present: how many granules the longest has, and how many are
/// at the end of the page.
#[derive(Clone, Copy)]
pub struct Runs {
    pub longest: u16,
    pub tail: u16,
}

/// The runs of the granules that are counted as zero.
fn summed(counts: &[u8; 256]) -> Runs
    ensures { IsRuns counts.now result.longest result.tail }
{
    let mut longest: u16 = 0;
    let mut run: u16 = 0;
    for k in 0..256 {
        run = if counts[k] == 0 { run + 1 } else { 0 };
        longest = longest.max(run);
    }
    Runs { longest, tail: run }
}

/// Ends each row that goes on past the granule `g` there.
fn cut(counts: &mut [u8; 256], g: usize)
    requires within { g ≤ 256 }
    requires reached { Reaches counts.old }
    ensures { Recounts (λ h. nat_lt h g) (λ h. min (slice_index counts.old h) (16 * (g - h))) counts.old counts.new }
{
    if g == 0 {
        return;
    }
    // A row that goes on past that granule has all of the one before it.
    if counts[g - 1] < 16 {
        return;
    }
    // A row has at most 255 bytes.
    for h in g.saturating_sub(15)..g {
        counts[h] = counts[h].min((16 * (g - h)) as u8);
    }
}

/// Sets the counts from `from` up to `to`, exclusive, to a number.
fn fill(counts: &mut [u8; 256], from: usize, to: usize, number: u8)
    requires order { from ≤ to }
    requires within { to ≤ 256 }
    ensures { Recounts (is_within from to) (λ _. number) counts.old counts.new }
{
    for g in from..to {
        counts[g] = number;
    }
}

/// Counts for each granule from `first` up to `end`, exclusive, the bytes up to the place `to`, at most 255.
fn count(counts: &mut [u8; 256], first: usize, end: usize, to: usize)
    requires order { first ≤ end }
    requires within { end ≤ 256 }
    requires in_granules { to ≤ 16 * end }
    ensures { Recounts (is_within first end) (λ h. min (to - 16 * h) 255) counts.old counts.new }
{
    // Most granules have a row of 255 bytes, or none at all.
    let long = (to / 16).saturating_sub(15).max(first).min(end);
    let none = ((to + 15) / 16).max(long).min(end);
    fill(counts, first, long, 255);
    for g in long..none {
        counts[g] = (to - 16 * g) as u8;
    }
    fill(counts, none, end, 0);
}

/// A granule from which on none has a byte, after those from `first` up to `end`, exclusive, were used or freed,
/// where there was one before.
fn top_after(top: u16, first: u16, end: u16, used: bool) -> u16
    ensures used { used ≡ true → result ≡ max top end }
    ensures freed { used ≡ false → result ≡ (if nat_le top end then min top first else top) }
{
    if used {
        top.max(end)
    } else if top <= end {
        top.min(first)
    } else {
        top
    }
}

/// Makes the bytes from `from` up to `to`, exclusive, zero.
fn zero_bytes(bytes: &mut [u8], from: usize, to: usize)
    requires { to ≤ length bytes.old }
    ensures { Changes (is_within from to) (λ _. Some 0) (slice_get bytes.old) (slice_get bytes.new) }
{
    for k in from..to {
        bytes[k] = 0;
    }
}

/// Copies `source` into the bytes from `from` on.
#[inline(always)]
fn copy_bytes(bytes: &mut [u8], from: usize, source: &[u8])
    requires { from + length source.now ≤ length bytes.old }
    ensures { Writes from source.now (slice_get bytes.old) (slice_get bytes.new) }
{
    bytes[from..from + source.len()].copy_from_slice(source);
}

/// Makes the `n` bytes from `from` on a byte.
#[inline(always)]
fn fill_bytes(bytes: &mut [u8], from: usize, n: usize, value: u8)
    requires { from + n ≤ length bytes.old }
    ensures { Writes from (replicate n value) (slice_get bytes.old) (slice_get bytes.new) }
{
    bytes[from..from + n].fill(value);
}

impl Frame {
    ghost use Rattle.cx_storage_pages.specs.Parts.Frame.{HasAll, Skips};
    ghost use Rattle.cx_storage_pages.specs.Pages.{frame_byte};

    /// A page without a byte that is present.
    pub(crate) fn new() -> Self
        ensures { (k : ℕ) → frame_byte result k ≡ None }
    {
        Frame {
            bytes: [0; 4096],
            counts: [0; 256],
            top: 0,
            runs: None,
        }
    }

    /// The byte at the place `k`, where it is present.
    #[tactic(auto, unfolding(crate::specs::Pages::frame_byte))]
    #[inline(always)]
    pub(crate) fn byte(&self, k: usize) -> Option<u8>
        requires { k < 4096 }
        ensures { result ≡ frame_byte self.now k }
    {
        if k % 16 < self.counts[k / 16] as usize {
            Some(self.bytes[k])
        } else {
            None
        }
    }

    /// Writes a byte at the place `k`. False, and no change, where it isn't present.
    #[tactic(auto, unfolding(crate::specs::Pages::frame_byte))]
    pub(crate) fn set(&mut self, k: usize, value: u8) -> bool
        requires { k < 4096 }
        ensures present { result ≡ is_some (frame_byte self.old k) }
        ensures counts { self.new.counts ≡ self.old.counts }
        ensures after { Sets k value (frame_byte self.old) (frame_byte self.new) }
    {
        let there = k % 16 < self.counts[k / 16] as usize;
        if there {
            self.bytes[k] = value;
        }
        there
    }

    /// In the granules from `first` up to `end`, exclusive, makes the bytes before the place `to` zero and present,
    /// and the others absent.
    #[tactic(auto, unfolding(crate::specs::Pages::frame_byte))]
    pub(crate) fn mark(&mut self, first: usize, end: usize, to: usize)
        requires order { first ≤ end }
        requires within { end ≤ 256 }
        requires in_granules { to ≤ 16 * end }
        ensures { Fills first end (zero_to to) (frame_byte self.old) (frame_byte self.new) }
    {
        self.top = top_after(self.top, first as u16, end as u16, to > 0);
        self.runs = None;
        zero_bytes(&mut self.bytes, 16 * first, to);
        cut(&mut self.counts, first);
        count(&mut self.counts, first, end, to);
    }

    /// Whether the bytes from `from` up to `to`, exclusive, are present, granule by granule.
    #[tactic(auto, using(crate::proofs::FrameLemmas::has_short, crate::proofs::FrameLemmas::has_last), unfolding(crate::specs::Pages::frame_byte))]
    #[inline(never)]
    fn has_each(&self, from: usize, to: usize) -> bool
        requires order { from < to }
        requires within { to ≤ 4096 }
        ensures all { result ≡ true → HasAll (frame_byte self.now) from to }
        ensures gap { HasAll (frame_byte self.now) from to → result ≡ true }
    {
        let last = (to - 1) / 16;
        let mut g = from / 16;
        'full: while g < last {
            let count = self.counts[g] as usize;
            if count < 16 {
                return false;
            }
            g += count / 16;
        }
        (to - 1) % 16 < self.counts[last] as usize
    }

    /// Whether the row of the granule of `from` comes to that of the last byte before `to`, and that byte is present.
    #[inline(always)]
    fn has_row(&self, from: usize, to: usize) -> bool
        requires order { from < to }
        requires within { to ≤ 4096 }
        ensures { result ≡ is_row self.now.counts from to }
    {
        let first = from / 16;
        let last = (to - 1) / 16;
        last - first <= self.counts[first] as usize / 16
            && (to - 1) % 16 < self.counts[last] as usize
    }

    /// Whether the bytes from `from` up to `to`, exclusive, are present.
    #[inline(always)]
    pub(crate) fn has(&self, from: usize, to: usize) -> bool
        requires { to ≤ 4096 }
        ensures all { result ≡ true → HasAll (frame_byte self.now) from to }
        ensures gap { HasAll (frame_byte self.now) from to → result ≡ true }
    {
        if to <= from {
            return true;
        }
        // Mostly the first row has all of them, and for two granules it decides.
        if self.has_row(from, to) {
            return true;
        }
        if to - from <= 16 {
            return false;
        }
        self.has_each(from, to)
    }

    /// Whether there are `n` bytes from the place `from` on, all of them present, where they are few and a row has this
    /// granule and the next one, which are both on the page then.
    #[inline(always)]
    fn holds_few(&self, from: usize, n: usize) -> bool
        requires { from < 4096 }
        ensures fits { result ≡ true → from + n ≤ 4096 }
        ensures all { result ≡ true → HasAll (frame_byte self.now) from (from + n) }
    {
        n <= 16 && self.counts[from / 16] >= 32
    }

    /// Whether there are `n` bytes from the place `from` on, all of them present.
    #[inline(always)]
    fn holds(&self, from: usize, n: usize) -> bool
        requires { from < 4096 }
        ensures fits { result ≡ true → from + n ≤ 4096 }
        ensures all { result ≡ true → HasAll (frame_byte self.now) from (from + n) }
        ensures gap { from + n ≤ 4096 → HasAll (frame_byte self.now) from (from + n) → result ≡ true }
    {
        if self.holds_few(from, n) {
            return true;
        }
        if n > 4096 - from {
            return false;
        }
        self.has(from, from + n)
    }

    /// The `n` bytes from the place `from` on, where there are as many and all of them are present.
    #[inline(always)]
    pub(crate) fn part(&self, from: usize, n: usize) -> Option<&[u8]>
        requires { from < 4096 }
        ensures there { IfSome result (λ part. HoldsBytes (frame_byte self.now) from n part.now) }
        ensures len { IfSome result (λ part. length part.now ≡ n) }
        ensures fits { OnSome result (from + n ≤ 4096) }
        ensures gap { from + n ≤ 4096 → HasAll (frame_byte self.now) from (from + n) → IsSome result }
    {
        if self.holds(from, n) {
            Some(&self.bytes[from..from + n])
        } else {
            None
        }
    }

    /// The `n` bytes from the place `from` on, where they are few and present.
    #[inline(always)]
    pub(crate) fn part_fast(&self, from: usize, n: usize) -> Option<&[u8]>
        requires { from < 4096 }
        ensures there { IfSome result (λ part. HoldsBytes (frame_byte self.now) from n part.now) }
        ensures len { IfSome result (λ part. length part.now ≡ n) }
        ensures fits { OnSome result (from + n ≤ 4096) }
    {
        if self.holds_few(from, n) {
            Some(&self.bytes[from..from + n])
        } else {
            None
        }
    }

    /// Writes bytes from the place `from` on. False, and no change, where one has no place there or isn't present.
    #[tactic(auto, unfolding(crate::specs::Pages::frame_byte))]
    #[inline(always)]
    pub(crate) fn write(&mut self, from: usize, source: &[u8]) -> bool
        requires { from < 4096 }
        ensures gap { result ≡ false → self.new ≡ self.old }
        ensures counts { self.new.counts ≡ self.old.counts }
        ensures fits { result ≡ true → from + length source.now ≤ 4096 }
        ensures after { result ≡ true → Writes from source.now (frame_byte self.old) (frame_byte self.new) }
        ensures present { result ≡ true → HasAll (frame_byte self.old) from (from + length source.now) }
    {
        if !self.holds(from, source.len()) {
            return false;
        }
        copy_bytes(&mut self.bytes, from, source);
        true
    }

    /// Writes a byte `n` times from the place `from` on. False, and no change, where one has no place there or isn't
    /// present.
    #[tactic(auto, unfolding(crate::specs::Pages::frame_byte))]
    #[inline(always)]
    pub(crate) fn fill(&mut self, from: usize, n: usize, value: u8) -> bool
        requires { from < 4096 }
        ensures gap { result ≡ false → self.new ≡ self.old }
        ensures counts { self.new.counts ≡ self.old.counts }
        ensures fits { result ≡ true → from + n ≤ 4096 }
        ensures after { result ≡ true → Writes from (replicate n value) (frame_byte self.old) (frame_byte self.new) }
        ensures present { result ≡ true → HasAll (frame_byte self.old) from (from + n) }
    {
        if !self.holds(from, n) {
            return false;
        }
        fill_bytes(&mut self.bytes, from, n, value);
        true
    }

    /// The first granule from `g` up to `end`, exclusive, that has a byte, or `end`.
    pub(crate) fn free_to(&self, g: usize, end: usize) -> usize
        requires order { g ≤ end }
        requires within { end ≤ 256 }
        ensures order { g ≤ result }
        ensures within { result ≤ end }
        ensures free { (j : ℕ) → g ≤ j → j < result → frame_byte self.now (j * 16) ≡ None }
        ensures taken { result < end → is_some (frame_byte self.now (result * 16)) ≡ true }
    {
        for k in g..end.min(self.top as usize) {
            if self.counts[k] != 0 {
                return k;
            }
        }
        end
    }

    /// The granule after the row of the granule `g`, which has a byte.
    fn row_to(&self, g: usize) -> usize
        requires within { g < 256 }
        requires taken { is_some (frame_byte self.now (g * 16)) ≡ true }
        ensures order { g < result }
        ensures within { result ≤ 256 }
        ensures taken { (j : ℕ) → g ≤ j → j < result → is_some (frame_byte self.now (j * 16)) ≡ true }
    {
        g + (self.counts[g] as usize / 16).max(1)
    }

    /// The first granule after `g` that has no byte, or 256; `g` has one.
    pub(crate) fn used_to(&self, g: usize) -> usize
        requires within { g < 256 }
        requires taken { is_some (frame_byte self.now (g * 16)) ≡ true }
        ensures order { g < result }
        ensures within { result ≤ 256 }
        ensures taken { (j : ℕ) → g ≤ j → j < result → is_some (frame_byte self.now (j * 16)) ≡ true }
    {
        let mut next = self.row_to(g);
        'used: while next < 256 {
            if self.counts[next] == 0 {
                return next;
            }
            next = self.row_to(next);
        }
        next
    }

    /// Looks for the runs of free granules, unless they are known.
    #[tactic(auto, unfolding(crate::specs::Pages::frame_byte))]
    pub(crate) fn sum_up(&mut self)
        ensures { (k : ℕ) → frame_byte self.new k ≡ frame_byte self.old k }
    {
        if self.runs.is_none() {
            self.runs = Some(summed(&self.counts));
        }
    }

    /// How many free granules are at the end, where it is known that `need` of them in a row don't begin before.
    pub(crate) fn tail(&self, need: usize) -> Option<usize>
        ensures { IfSome result (λ tail. Skips (frame_byte self.now) need tail) }
    {
        match self.runs {
            Some(runs) if (runs.longest as usize) < need => Some(runs.tail as usize),
            _ => None,
        }
    }
}
