//! Strings: two operands of one length, from left to right.

ghost use Rattle.std.specs.Prelude.{◌≡◌, ◌≢◌, ℕ, ◌+◌, ◌<◌, ◌≤◌, ◌^◌, ◌&&◌, take, true, false, Ok, is_some, length, slice_index, bit_xor};
ghost use Rattle.cx_storage.specs.Address.{address_after};
ghost use Rattle.cx_storage.specs.Storage.{span};
ghost use Rattle.cx_exec.specs.Machine.{machine};
ghost use Rattle.cx_exec.specs.Sequence.{stored_by};
ghost use Rattle.cx_exec.specs.Strings.{moved_byte, xored_byte, MvcEffect, XcEffect};

use crate::addresses::Addresses;
use crate::logic::string_code;
use crate::machine::{Interruption, Performed, Updated};
use crate::operands::{fill_fast, of_length, put_bytes, put_coded, put_fast};
use crate::repeats::repeat;
use crate::sequence::{content_at, distance, is_present, seen};
use cx_code::Cpu;
use cx_storage::{Store, address_after};

/// Puts the bytes that MVC stores at the front of the buffer.
#[tactic(auto, using(crate::proofs::SequenceLemmas::stored_none))]
fn move_bytes<S: Store>(store: &S, n: u32, at: Addresses, new: &mut [u8; 256])
    requires count { n ≤ 256 }
    ensures { take n new.new ≡ stored_by (moved_byte (S.storage store.now) at.a1 at.a2) n }
{
    for k in 0..n {
        let from = address_after(at.a2, k);
        let byte = seen(store, &new[..k as usize], distance(at.a1, from), from);
        new[k as usize] = byte;
    }
}

/// Puts the bytes that MVC stores at the front of the buffer, where the first operand may begin inside the second:
/// those before its first byte are then repeated.
fn fill_bytes<S: Store>(store: &S, n: u32, at: Addresses, new: &mut [u8; 256])
    requires count { n ≤ 256 }
    ensures { take n new.new ≡ stored_by (moved_byte (S.storage store.now) at.a1 at.a2) n }
{
    let period = distance(at.a2, at.a1);
    if period == 0 || n <= period {
        move_bytes(store, n, at, new);
        return;
    }
    move_bytes(store, period, at, new);
    repeat(&mut new[..n as usize], period as usize);
}

/// Puts the bytes that XC stores at the front of the buffer.
#[tactic(auto, using(crate::proofs::SequenceLemmas::stored_none))]
fn xor_bytes<S: Store>(store: &S, n: u32, at: Addresses, new: &mut [u8; 256])
    requires count { n ≤ 256 }
    ensures { take n new.new ≡ stored_by (xored_byte (S.storage store.now) at.a1 at.a2) n }
{
    for k in 0..n {
        let from = address_after(at.a2, k);
        let second = seen(store, &new[..k as usize], distance(at.a1, from), from);
        new[k as usize] = content_at(store, address_after(at.a1, k)) ^ second;
    }
}

/// Whether the first operand, of `n` bytes, doesn't begin inside the second after its first byte: then no byte is
/// stored before it is fetched as one of the second operand.
fn begins_outside(n: u32, at: Addresses) -> bool
    requires count { n ≤ 256 }
    ensures { result ≡ true → (j : ℕ) → 0 < j → j < n → at.a1 ≢ address_after at.a2 j }
{
    let apart = distance(at.a2, at.a1);
    apart == 0 || n <= apart
}

/// MVC through a buffer of the operands' length, of operands of which the first doesn't begin inside the second after
/// its first byte.
#[tactic(auto, using(crate::proofs::BlockLemmas::read_is_moved), unfolding(crate::specs::Strings::MvcEffect))]
#[inline(always)]
fn copy_through<S: Store>(
    cpu: &mut Cpu,
    store: &mut S,
    at: Addresses,
    bytes: &mut [u8],
    updated: Updated,
) -> Performed
    requires count { length bytes.old ≤ 256 }
    requires outside { (j : ℕ) → 0 < j → j < length bytes.old → at.a1 ≢ address_after at.a2 j }
    ensures { let before = machine cpu.old (S.storage store.old) in let after = machine cpu.new (S.storage store.new) in
        MvcEffect (length bytes.old) at.a1 at.a2 updated before result after }
{
    if !store.read(at.a2, bytes) {
        return Err(Interruption::Addressing);
    }
    put_bytes(cpu, store, at.a1, bytes, updated)
}

/// MVC of such operands, whatever their length.
#[inline(never)]
fn copy_long<S: Store>(
    cpu: &mut Cpu,
    store: &mut S,
    at: Addresses,
    updated: Updated,
    n: u32,
) -> Performed
    requires count { n ≤ 256 }
    requires outside { (j : ℕ) → 0 < j → j < n → at.a1 ≢ address_after at.a2 j }
    ensures { let before = machine cpu.old (S.storage store.old) in let after = machine cpu.new (S.storage store.new) in
        MvcEffect n at.a1 at.a2 updated before result after }
{
    if n <= 64 {
        let mut new = [0; 64];
        return copy_through(cpu, store, at, &mut new[..n as usize], updated);
    }
    let mut new = [0; 256];
    copy_through(cpu, store, at, &mut new[..n as usize], updated)
}

/// MVC through a buffer of such operands, where their bytes are at hand; else nothing changes but the buffer.
#[tactic(auto, using(cx_storage::specs::Facts::Spans::span_length))]
#[inline(always)]
fn copy_at_hand<S: Store>(
    cpu: &mut Cpu,
    store: &mut S,
    at: Addresses,
    bytes: &mut [u8],
    updated: Updated,
) -> bool
    requires count { length bytes.old ≤ 256 }
    requires outside { (j : ℕ) → 0 < j → j < length bytes.old → at.a1 ≢ address_after at.a2 j }
    ensures done { let before = machine cpu.old (S.storage store.old) in
        let after = machine cpu.new (S.storage store.new) in
        result ≡ true → MvcEffect (length bytes.old) at.a1 at.a2 updated before (Ok tt) after }
    ensures same { result ≡ false → machine cpu.new (S.storage store.new) ≡ machine cpu.old (S.storage store.old) }
{
    let n = bytes.len();
    let Some(part) = store.slice_fast(at.a2, n) else {
        return false;
    };
    bytes.copy_from_slice(of_length(part, n));
    put_fast(cpu, store, at.a1, bytes, updated)
}

/// MVC of such operands of `N` bytes, for which there is code of its own.
#[tactic(auto, using(crate::proofs::Storing::moved_as_before))]
#[inline(never)]
fn copy_few<S: Store, const N: usize>(
    cpu: &mut Cpu,
    store: &mut S,
    at: Addresses,
    updated: Updated,
) -> Performed
    requires count { N ≤ 256 }
    requires outside { (j : ℕ) → 0 < j → j < N → at.a1 ≢ address_after at.a2 j }
    ensures { let before = machine cpu.old (S.storage store.old) in let after = machine cpu.new (S.storage store.new) in
        MvcEffect N at.a1 at.a2 updated before result after }
{
    let mut new = [0; N];
    if copy_at_hand(cpu, store, at, &mut new, updated) {
        return Ok(());
    }
    copy_long(cpu, store, at, updated, N as u32)
}

/// MVC of such operands. The shortest lengths, which are the most frequent, have code of their own.
#[inline(always)]
fn copy<S: Store>(cpu: &mut Cpu, store: &mut S, at: Addresses, updated: Updated, l: u8) -> Performed
    requires outside { (j : ℕ) → 0 < j → j < l + 1 → at.a1 ≢ address_after at.a2 j }
    ensures { let before = machine cpu.old (S.storage store.old) in let after = machine cpu.new (S.storage store.new) in
        MvcEffect (l + 1) at.a1 at.a2 updated before result after }
{
    match l {
        0 => copy_few::<S, 1>(cpu, store, at, updated),
        1 => copy_few::<S, 2>(cpu, store, at, updated),
        2 => copy_few::<S, 3>(cpu, store, at, updated),
        3 => copy_few::<S, 4>(cpu, store, at, updated),
        4 => copy_few::<S, 5>(cpu, store, at, updated),
        5 => copy_few::<S, 6>(cpu, store, at, updated),
        6 => copy_few::<S, 7>(cpu, store, at, updated),
        7 => copy_few::<S, 8>(cpu, store, at, updated),
        8 => copy_few::<S, 9>(cpu, store, at, updated),
        9 => copy_few::<S, 10>(cpu, store, at, updated),
        10 => copy_few::<S, 11>(cpu, store, at, updated),
        11 => copy_few::<S, 12>(cpu, store, at, updated),
        12 => copy_few::<S, 13>(cpu, store, at, updated),
        13 => copy_few::<S, 14>(cpu, store, at, updated),
        14 => copy_few::<S, 15>(cpu, store, at, updated),
        15 => copy_few::<S, 16>(cpu, store, at, updated),
        _ => copy_long(cpu, store, at, updated, u32::from(l) + 1),
    }
}

/// Puts the bytes of two strings, joined by exclusive or, into a buffer of their length.
fn join_bytes(first: &[u8], second: &[u8], new: &mut [u8])
    requires same { length first.now ≡ length second.now }
    requires room { length new.old ≡ length first.now }
    ensures size { length new.new ≡ length new.old }
    ensures each { (k : ℕ) → k < length first.now
        → slice_index new.new k ≡ bit_xor (slice_index first.now k) (slice_index second.now k) }
{
    for k in 0..new.len() {
        new[k] = first[k] ^ second[k];
    }
}

/// Puts the bytes that XC stores into a buffer, from copies of both operands. False where one of their bytes is absent.
#[inline(never)]
fn join_copies<S: Store>(store: &S, at: Addresses, new: &mut [u8]) -> bool
    requires count { length new.old ≤ 256 }
    requires outside { (j : ℕ) → 0 < j → j < length new.old → at.a1 ≢ address_after at.a2 j }
    ensures present { let s = S.storage store.now in let n = length new.old in
        result ≡ is_some (span s at.a1 n) && is_some (span s at.a2 n) }
    ensures bytes { result ≡ true
        → new.new ≡ stored_by (xored_byte (S.storage store.now) at.a1 at.a2) (length new.old) }
{
    let mut left = [0; 256];
    let mut right = [0; 256];
    let first = &mut left[..new.len()];
    let second = &mut right[..new.len()];
    if !store.read(at.a1, first) || !store.read(at.a2, second) {
        return false;
    }
    join_bytes(first, second, new);
    true
}

/// Puts the bytes that XC stores into a buffer. False where a byte of its operands is absent.
#[inline(always)]
fn join_stored<S: Store>(store: &S, at: Addresses, new: &mut [u8]) -> bool
    requires count { length new.old ≤ 256 }
    requires outside { (j : ℕ) → 0 < j → j < length new.old → at.a1 ≢ address_after at.a2 j }
    ensures present { let s = S.storage store.now in let n = length new.old in
        result ≡ is_some (span s at.a1 n) && is_some (span s at.a2 n) }
    ensures bytes { result ≡ true
        → new.new ≡ stored_by (xored_byte (S.storage store.now) at.a1 at.a2) (length new.old) }
{
    if let Some(first) = store.slice(at.a1, new.len()) {
        if let Some(second) = store.slice(at.a2, new.len()) {
            join_bytes(first, second, new);
            return true;
        }
    }
    join_copies(store, at, new)
}

/// XC through a buffer of the operands' length, of operands of which the first doesn't begin inside the second after
/// its first byte.
#[tactic(auto, unfolding(crate::specs::Strings::XcEffect))]
#[inline(always)]
fn join_through<S: Store>(
    cpu: &mut Cpu,
    store: &mut S,
    at: Addresses,
    bytes: &mut [u8],
    updated: Updated,
) -> Performed
    requires count { length bytes.old ≤ 256 }
    requires outside { (j : ℕ) → 0 < j → j < length bytes.old → at.a1 ≢ address_after at.a2 j }
    ensures { let before = machine cpu.old (S.storage store.old) in let after = machine cpu.new (S.storage store.new) in
        XcEffect (length bytes.old) at.a1 at.a2 updated before result after }
{
    if !join_stored(store, at, bytes) {
        return Err(Interruption::Addressing);
    }
    let cc = string_code(bytes);
    put_coded(cpu, store, at.a1, bytes, cc, updated)
}

/// XC of such operands, whatever their length.
#[inline(never)]
fn join_long<S: Store>(
    cpu: &mut Cpu,
    store: &mut S,
    n: u32,
    at: Addresses,
    updated: Updated,
) -> Performed
    requires count { n ≤ 256 }
    requires outside { (j : ℕ) → 0 < j → j < n → at.a1 ≢ address_after at.a2 j }
    ensures { let before = machine cpu.old (S.storage store.old) in let after = machine cpu.new (S.storage store.new) in
        XcEffect n at.a1 at.a2 updated before result after }
{
    let mut new = [0; 256];
    join_through(cpu, store, at, &mut new[..n as usize], updated)
}

/// XC of such operands. Those of a few bytes need no large buffer, and the most frequent lengths have code of their
/// own.
#[inline(always)]
fn join<S: Store>(
    cpu: &mut Cpu,
    store: &mut S,
    n: u32,
    at: Addresses,
    updated: Updated,
) -> Performed
    requires count { n ≤ 256 }
    requires outside { (j : ℕ) → 0 < j → j < n → at.a1 ≢ address_after at.a2 j }
    ensures { let before = machine cpu.old (S.storage store.old) in let after = machine cpu.new (S.storage store.new) in
        XcEffect n at.a1 at.a2 updated before result after }
{
    let mut new = [0; 16];
    match n {
        1 => join_through(cpu, store, at, &mut new[..1], updated),
        2 => join_through(cpu, store, at, &mut new[..2], updated),
        3 => join_through(cpu, store, at, &mut new[..3], updated),
        4 => join_through(cpu, store, at, &mut new[..4], updated),
        8 => join_through(cpu, store, at, &mut new[..8], updated),
        0..=16 => join_through(cpu, store, at, &mut new[..n as usize], updated),
        _ => join_long(cpu, store, n, at, updated),
    }
}

/// MVC of operands of which the first begins at the second byte of the second, whose first byte is stored throughout.
#[tactic(auto, using(crate::proofs::Storing::moved_as_before))]
#[inline(never)]
fn spread<S: Store>(
    cpu: &mut Cpu,
    store: &mut S,
    at: Addresses,
    updated: Updated,
    n: u32,
) -> Performed
    requires above_0 { 0 < n }
    requires count { n ≤ 256 }
    requires begins { at.a1 ≡ address_after at.a2 1 }
    ensures { let before = machine cpu.old (S.storage store.old) in let after = machine cpu.new (S.storage store.new) in
        MvcEffect n at.a1 at.a2 updated before result after }
{
    let Some(byte) = store.byte(at.a2) else {
        return fill(cpu, store, at, updated, n);
    };
    let cc = cpu.cc;
    if fill_fast(cpu, store, at.a1, n as usize, byte, cc, updated) {
        return Ok(());
    }
    fill(cpu, store, at, updated, n)
}

/// MVC of operands of which the first may begin inside the second.
#[tactic(auto, using(crate::proofs::FillLemmas::begins_after), unfolding(crate::specs::Strings::MvcEffect))]
#[inline(never)]
fn fill<S: Store>(
    cpu: &mut Cpu,
    store: &mut S,
    at: Addresses,
    updated: Updated,
    n: u32,
) -> Performed
    requires count { n ≤ 256 }
    ensures { let before = machine cpu.old (S.storage store.old) in let after = machine cpu.new (S.storage store.new) in
        MvcEffect n at.a1 at.a2 updated before result after }
{
    if !is_present(store, at.a2, n) {
        return Err(Interruption::Addressing);
    }
    let mut new = [0; 256];
    fill_bytes(store, n, at, &mut new);
    put_bytes(cpu, store, at.a1, &new[..n as usize], updated)
}

/// XC of such operands, byte by byte.
#[tactic(auto, unfolding(crate::specs::Strings::XcEffect))]
#[inline(never)]
fn join_each<S: Store>(
    cpu: &mut Cpu,
    store: &mut S,
    n: u32,
    at: Addresses,
    updated: Updated,
) -> Performed
    requires count { n ≤ 256 }
    ensures { let before = machine cpu.old (S.storage store.old) in let after = machine cpu.new (S.storage store.new) in
        XcEffect n at.a1 at.a2 updated before result after }
{
    if !is_present(store, at.a2, n) {
        return Err(Interruption::Addressing);
    }
    let mut new = [0; 256];
    xor_bytes(store, n, at, &mut new);
    let bytes = &new[..n as usize];
    let cc = string_code(bytes);
    put_coded(cpu, store, at.a1, bytes, cc, updated)
}

/// XC of an operand with itself, whose bytes become zero, where they are at hand; else nothing changes.
#[inline(always)]
fn clear<S: Store>(cpu: &mut Cpu, store: &mut S, n: u32, a: u32, updated: Updated) -> bool
    requires operand { a < 2 ^ 24 }
    requires count { n ≤ 256 }
    ensures done { let before = machine cpu.old (S.storage store.old) in
        let after = machine cpu.new (S.storage store.new) in
        result ≡ true → XcEffect n a a updated before (Ok tt) after }
    ensures same { result ≡ false → machine cpu.new (S.storage store.new) ≡ machine cpu.old (S.storage store.old) }
{
    fill_fast(cpu, store, a, n as usize, 0, 0, updated)
}

/// MVC. The operands, of `l` bytes and one, begin at `a1` and `a2`.
#[inline(never)]
pub(crate) fn mvc<S: Store>(
    cpu: &mut Cpu,
    store: &mut S,
    at: Addresses,
    updated: Updated,
    l: u8,
) -> Performed
    ensures { let before = machine cpu.old (S.storage store.old) in let after = machine cpu.new (S.storage store.new) in
        MvcEffect (l + 1) at.a1 at.a2 updated before result after }
{
    let n = u32::from(l) + 1;
    let apart = distance(at.a2, at.a1);
    if n <= apart {
        return copy(cpu, store, at, updated, l);
    }
    if apart == 1 {
        return spread(cpu, store, at, updated, n);
    }
    fill(cpu, store, at, updated, n)
}

/// XC. The operands, of `n` bytes, begin at `a1` and `a2`.
#[tactic(auto, using(crate::proofs::BlockLemmas::xored_as_before))]
#[inline(never)]
pub(crate) fn xc<S: Store>(
    cpu: &mut Cpu,
    store: &mut S,
    n: u32,
    at: Addresses,
    updated: Updated,
) -> Performed
    requires count { n ≤ 256 }
    ensures { let before = machine cpu.old (S.storage store.old) in let after = machine cpu.new (S.storage store.new) in
        XcEffect n at.a1 at.a2 updated before result after }
{
    if at.a1 == at.a2 && clear(cpu, store, n, at.a1, updated) {
        return Ok(());
    }
    if begins_outside(n, at) {
        return join(cpu, store, n, at, updated);
    }
    join_each(cpu, store, n, at, updated)
}
