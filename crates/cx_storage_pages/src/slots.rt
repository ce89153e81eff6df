//! The slots: an address has one slot, and a slot has one address at most.

ghost use Rattle.std.specs.Prelude.{◌≡◌, ◌/◌, ◌%◌, ◌<◌, ◌^◌, true};
ghost use Rattle.cx_storage_pages.specs.Parts.Slots.{IsPlaced, AreWithin, AreLeft, IsAside, IsOutside};

/// How many slots there are.
pub(crate) const SLOTS: usize = 1024;

/// The address of a slot that has none.
pub(crate) const NOWHERE: u32 = u32::MAX;

/// The most bytes of a write that doesn't empty all slots.
const NEAR: usize = 1024;

/// The slot of an address.
#[inline(always)]
pub(crate) fn slot_of(a: u32) -> usize
    ensures value { result ≡ a / 2 % 1024 }
    ensures within { result < 1024 }
{
    a as usize / 2 % SLOTS
}

/// Empties all slots.
fn empty(slots: &mut [u32; 1024])
    ensures { AreLeft (λ _. ⊥) slots.old slots.new }
{
    *slots = [NOWHERE; SLOTS];
}

/// Empties the slots of the addresses whose halves are from `from` up to `end`, exclusive.
#[tactic(auto, using(crate::proofs::SlotLemmas::one_emptied))]
fn empty_part(slots: &mut [u32; 1024], from: usize, end: usize)
    requires { IsPlaced slots.old }
    ensures { AreLeft (IsOutside from end) slots.old slots.new }
{
    for half in from..end {
        slots[half % SLOTS] = NOWHERE;
    }
}

/// Empties the slots whose eight bytes have one of the `n` from `a` on, and others.
#[cold]
#[inline(never)]
pub(crate) fn empty_near(slots: &mut [u32; 1024], a: u32, n: usize)
    requires placed { IsPlaced slots.old }
    requires address { a < 2 ^ 24 }
    ensures { AreLeft (IsAside a n) slots.old slots.new }
{
    if n > NEAR {
        empty(slots);
        return;
    }
    let a = a as usize;
    empty_part(slots, a.saturating_sub(7) / 2, (a + n + 1) / 2);
}

/// Whether it is known that none of the bytes that are kept, which are from `first` up to `end`, exclusive, is one of
/// the `n` from `a` on.
#[inline(always)]
pub(crate) fn is_aside(slots: &[u32; 1024], first: u32, end: u32, a: u32, n: usize) -> bool
    requires within { AreWithin first end slots.now }
    requires address { a < 2 ^ 24 }
    ensures { result ≡ true → AreLeft (IsAside a n) slots.now slots.now }
{
    let _slots = slots;
    // A write of no more goes on only to addresses that are never kept.
    n <= 4096 && (end <= a || a as usize + n <= first as usize)
}

/// Empties the slots whose eight bytes have one of the `n` from `a` on, where all that are kept are from `first` up to
/// `end`, exclusive.
#[inline(always)]
pub(crate) fn forget(slots: &mut [u32; 1024], first: u32, end: u32, a: u32, n: usize)
    requires placed { IsPlaced slots.old }
    requires within { AreWithin first end slots.old }
    requires address { a < 2 ^ 24 }
    ensures { AreLeft (IsAside a n) slots.old slots.new }
{
    if !is_aside(slots, first, end, a, n) {
        empty_near(slots, a, n);
    }
}
