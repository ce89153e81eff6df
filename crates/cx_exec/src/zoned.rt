//! PACK and UNPK: two operands with lengths of their own, from right to left.

ghost use Rattle.std.specs.Prelude.{◌≡◌, ◌⊎◌, ◌+◌, ◌-◌, ◌/◌, ◌%◌, ◌<◌, ◌≤◌, ◌^◌, true, false, is_some, length, take, drop, reverse};
ghost use Rattle.cx_storage.specs.Address.{address_after};
ghost use Rattle.cx_storage.specs.Storage.{span};
ghost use Rattle.cx_exec.specs.Machine.{machine};
ghost use Rattle.cx_exec.specs.Sequence.{stored_by};
ghost use Rattle.cx_exec.specs.Zoned.{address_before, source, swap_halves, packed_byte, unpacked_byte, unpacked_half, PackEffect, UnpkEffect};

use crate::addresses::{Addresses, Ends, Lengths};
use crate::digits::{align, pack_aligned, unpack_aligned};
use crate::machine::{Interruption, Performed, Updated};
use crate::operands::put_bytes;
use crate::sequence::{distance, seen};
use cx_code::Cpu;
use cx_storage::{Store, address_after};

/// The address `k` bytes (at most 256) before `a` (below 2^24); before 0 comes X'FFFFFF'.
fn leftward(a: u32, k: u32) -> u32
    requires address { a < 2 ^ 24 }
    requires count { k ≤ 256 }
    ensures value { result ≡ address_before a k }
    ensures below_2_24 { result < 2 ^ 24 }
{
    address_after(a, 0x100_0000 - k)
}

/// The `i`-th byte (`i` is at most 256) from the right of the source, once some bytes of the result are stored; a
/// missing one is zero.
#[tactic(auto, unfolding(crate::specs::Zoned::source))]
fn source<S: Store>(store: &S, ends: Ends, stored: &[u8], i: u32) -> u8
    requires { i ≤ 256 }
    ensures { result ≡ source (S.storage store.now) ends.e1 ends.n2 ends.e2 stored.now i }
{
    if i < ends.n2 {
        let from = leftward(ends.e2, i);
        seen(store, stored, distance(from, ends.e1), from)
    } else {
        0
    }
}

/// The halves of a byte exchanged.
pub(crate) fn swapped(byte: u8) -> u8
    ensures { result ≡ swap_halves byte }
{
    byte % 16 * 16 + byte / 16
}

/// The `k`-th byte (`k` is at most 16) from the right that PACK makes.
#[tactic(auto, unfolding(crate::specs::Zoned::packed_byte))]
fn packed<S: Store>(store: &S, ends: Ends, stored: &[u8], k: u32) -> u8
    requires { k ≤ 16 }
    ensures { result ≡ packed_byte (S.storage store.now) ends.e1 ends.n2 ends.e2 stored.now k }
{
    if k == 0 {
        return swapped(source(store, ends, stored, 0));
    }
    let left = source(store, ends, stored, 2 * k);
    let right = source(store, ends, stored, 2 * k - 1);
    left % 16 * 16 + right % 16
}

/// Puts the bytes that PACK stores at the front of the buffer, the rightmost first.
#[tactic(auto, using(crate::proofs::SequenceLemmas::stored_none))]
fn pack_bytes<S: Store>(store: &S, n1: u32, ends: Ends, new: &mut [u8; 16])
    requires { n1 ≤ 16 }
    ensures { take n1 new.new ≡ stored_by (packed_byte (S.storage store.now) ends.e1 ends.n2 ends.e2) n1 }
{
    for k in 0..n1 {
        let byte = packed(store, ends, &new[..k as usize], k);
        new[k as usize] = byte;
    }
}

/// A half of a byte with the zone F, or for the rightmost byte its halves exchanged.
fn unpacked_half(k: u32, byte: u8) -> u8
    ensures { result ≡ unpacked_half k byte }
{
    if k == 0 {
        swapped(byte)
    } else if k % 2 == 0 {
        0xF0 + byte / 16
    } else {
        0xF0 + byte % 16
    }
}

/// The `k`-th byte (`k` is at most 16) from the right that UNPK makes; all before it are stored.
#[tactic(auto, unfolding(crate::specs::Zoned::unpacked_byte))]
fn unpacked<S: Store>(store: &S, ends: Ends, stored: &[u8], k: u32) -> u8
    requires place { k ≤ 16 }
    requires stored { length stored.now ≡ k }
    ensures { result ≡ unpacked_byte (S.storage store.now) ends.e1 ends.n2 ends.e2 stored.now k }
{
    let fetched_at = if k % 2 == 0 { k.saturating_sub(1) } else { k };
    let byte = source(store, ends, &stored[..fetched_at as usize], (k + 1) / 2);
    unpacked_half(k, byte)
}

/// Puts the bytes that UNPK stores at the front of the buffer, the rightmost first.
#[tactic(auto, using(crate::proofs::SequenceLemmas::stored_none))]
fn unpack_bytes<S: Store>(store: &S, n1: u32, ends: Ends, new: &mut [u8; 16])
    requires { n1 ≤ 16 }
    ensures { take n1 new.new ≡ stored_by (unpacked_byte (S.storage store.now) ends.e1 ends.n2 ends.e2) n1 }
{
    for k in 0..n1 {
        let byte = unpacked(store, ends, &new[..k as usize], k);
        new[k as usize] = byte;
    }
}

/// Whether a result and a source, the first operand and the second, lie apart, the result not across address 0.
#[inline(always)]
fn lie_apart(lengths: Lengths, at: Addresses) -> bool
    ensures { result ≡ true
        → (at.a1 + lengths.n1 ≤ 2 ^ 24) × ((at.a1 + lengths.n1 ≤ at.a2) ⊎ (at.a2 + lengths.n2 ≤ at.a1)) }
{
    at.a1 + lengths.n1 <= 0x100_0000 && (at.a1 + lengths.n1 <= at.a2 || at.a2 + lengths.n2 <= at.a1)
}

/// Puts the bytes that PACK stores at the end of a buffer, where its source is lent in one piece and lies apart. False
/// elsewhere.
#[tactic(auto, using(cx_storage::specs::Facts::Spans::span_length))]
#[inline(always)]
fn pack_lent<S: Store>(store: &S, lengths: Lengths, at: Addresses, new: &mut [u8; 16]) -> bool
    ensures there { result ≡ true → is_some (span (S.storage store.now) at.a2 lengths.n2) ≡ true }
    ensures bytes { let rule = packed_byte (S.storage store.now) (address_after at.a1 (lengths.n1 - 1)) lengths.n2
        (address_after at.a2 (lengths.n2 - 1)) in
        result ≡ true → drop (16 - lengths.n1) new.new ≡ reverse (stored_by rule lengths.n1) }
{
    let Some(source) = store.slice(at.a2, lengths.n2 as usize) else {
        return false;
    };
    if !lie_apart(lengths, at) {
        return false;
    }
    let mut zoned = [0; 33];
    align(source, &mut zoned);
    pack_aligned(&zoned, new);
    true
}

/// Puts the bytes that UNPK stores at the end of a buffer, where its source is lent in one piece and lies apart. False
/// elsewhere.
#[tactic(auto, using(cx_storage::specs::Facts::Spans::span_length))]
#[inline(always)]
fn unpack_lent<S: Store>(store: &S, lengths: Lengths, at: Addresses, new: &mut [u8; 16]) -> bool
    ensures there { result ≡ true → is_some (span (S.storage store.now) at.a2 lengths.n2) ≡ true }
    ensures bytes { let rule = unpacked_byte (S.storage store.now) (address_after at.a1 (lengths.n1 - 1)) lengths.n2
        (address_after at.a2 (lengths.n2 - 1)) in
        result ≡ true → drop (16 - lengths.n1) new.new ≡ reverse (stored_by rule lengths.n1) }
{
    let Some(source) = store.slice(at.a2, lengths.n2 as usize) else {
        return false;
    };
    if !lie_apart(lengths, at) {
        return false;
    }
    let mut packed = [0; 33];
    align(source, &mut packed);
    unpack_aligned(&packed, new);
    true
}

/// Puts the bytes that PACK stores at the end of a buffer, one after the other. False where a byte of its source is
/// absent.
#[tactic(auto, using(crate::proofs::ZonedLemmas::reversed_end))]
#[inline(never)]
fn pack_each<S: Store>(store: &S, lengths: Lengths, at: Addresses, new: &mut [u8; 16]) -> bool
    ensures there { result ≡ is_some (span (S.storage store.now) at.a2 lengths.n2) }
    ensures bytes { let rule = packed_byte (S.storage store.now) (address_after at.a1 (lengths.n1 - 1)) lengths.n2
        (address_after at.a2 (lengths.n2 - 1)) in
        result ≡ true → drop (16 - lengths.n1) new.new ≡ reverse (stored_by rule lengths.n1) }
{
    if !store.has_span(at.a2, lengths.n2 as usize) {
        return false;
    }
    pack_bytes(store, lengths.n1, Ends::of(lengths, at), new);
    new.reverse();
    true
}

/// Puts the bytes that UNPK stores at the end of a buffer, one after the other. False where a byte of its source is
/// absent.
#[tactic(auto, using(crate::proofs::ZonedLemmas::reversed_end))]
#[inline(never)]
fn unpack_each<S: Store>(store: &S, lengths: Lengths, at: Addresses, new: &mut [u8; 16]) -> bool
    ensures there { result ≡ is_some (span (S.storage store.now) at.a2 lengths.n2) }
    ensures bytes { let rule = unpacked_byte (S.storage store.now) (address_after at.a1 (lengths.n1 - 1)) lengths.n2
        (address_after at.a2 (lengths.n2 - 1)) in
        result ≡ true → drop (16 - lengths.n1) new.new ≡ reverse (stored_by rule lengths.n1) }
{
    if !store.has_span(at.a2, lengths.n2 as usize) {
        return false;
    }
    unpack_bytes(store, lengths.n1, Ends::of(lengths, at), new);
    new.reverse();
    true
}

/// PACK. The halves of `l` are the lengths of the operands, each less one.
#[tactic(auto, unfolding(crate::specs::Zoned::PackEffect))]
pub(crate) fn pack<S: Store>(
    cpu: &mut Cpu,
    store: &mut S,
    l: u8,
    at: Addresses,
    updated: Updated,
) -> Performed
    ensures { let before = machine cpu.old (S.storage store.old) in let after = machine cpu.new (S.storage store.new) in
        PackEffect (l / 16 + 1) (l % 16 + 1) at.a1 at.a2 updated before result after }
{
    let lengths = Lengths::of(l);
    let mut new = [0; 16];
    if !pack_lent(store, lengths, at, &mut new) && !pack_each(store, lengths, at, &mut new) {
        return Err(Interruption::Addressing);
    }
    put_bytes(cpu, store, at.a1, &new[16 - lengths.n1 as usize..], updated)
}

/// UNPK. The halves of `l` are the lengths of the operands, each less one.
#[tactic(auto, unfolding(crate::specs::Zoned::UnpkEffect))]
pub(crate) fn unpk<S: Store>(
    cpu: &mut Cpu,
    store: &mut S,
    l: u8,
    at: Addresses,
    updated: Updated,
) -> Performed
    ensures { let before = machine cpu.old (S.storage store.old) in let after = machine cpu.new (S.storage store.new) in
        UnpkEffect (l / 16 + 1) (l % 16 + 1) at.a1 at.a2 updated before result after }
{
    let lengths = Lengths::of(l);
    let mut new = [0; 16];
    if !unpack_lent(store, lengths, at, &mut new) && !unpack_each(store, lengths, at, &mut new) {
        return Err(Interruption::Addressing);
    }
    put_bytes(cpu, store, at.a1, &new[16 - lengths.n1 as usize..], updated)
}
