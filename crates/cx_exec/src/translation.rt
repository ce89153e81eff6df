//! TR and TRT: argument bytes and a table.

ghost use Rattle.std.specs.Prelude.{◌≡◌, ◌≢◌, ℕ, ◌<◌, ◌≤◌, ◌^◌, length, slice_index, take, true, IfSome, MatchBool, unwrap_or};
ghost use Rattle.cx_storage.specs.Storage.{Storage};
ghost use Rattle.cx_exec.specs.Machine.{machine};
ghost use Rattle.cx_exec.specs.Sequence.{stored_by};
ghost use Rattle.cx_exec.specs.Translation.{table_byte, HasTable, translated_byte, first_found, TrEffect, with_address, found_at, TrtEffect};

use crate::addresses::Addresses;
use crate::loads::inserted;
use crate::machine::{Interruption, Performed, Updated};
use crate::sequence::{content_at, distance, is_present, seen};
use cx_code::Cpu;
use cx_storage::{Store, address_after};

/// The table's byte for the `k`-th argument byte (`k` is at most 256), where both are present.
fn table_byte<S: Store>(store: &S, at: Addresses, k: u32) -> Option<u8>
    requires place { k ≤ 256 }
    ensures { result ≡ table_byte (S.storage store.now) at.a1 at.a2 k }
{
    let argument = store.byte(address_after(at.a1, k))?;
    store.byte(address_after(at.a2, u32::from(argument)))
}

/// Whether each of `n` argument bytes, and the table's byte for it, is present.
#[tactic(auto, unfolding(crate::specs::Translation::HasTable))]
fn has_table<S: Store>(store: &S, n: u32, at: Addresses) -> bool
    requires count { n ≤ 256 }
    ensures { MatchBool result (HasTable (S.storage store.now) n at.a1 at.a2)
        (HasTable (S.storage store.now) n at.a1 at.a2 → ⊥) }
{
    for k in 0..n {
        if table_byte(store, at, k).is_none() {
            return false;
        }
    }
    true
}

/// Puts the bytes that TR stores at the front of the buffer.
#[tactic(auto, using(crate::proofs::SequenceLemmas::stored_none))]
fn translate_bytes<S: Store>(store: &S, n: u32, at: Addresses, new: &mut [u8; 256])
    requires count { n ≤ 256 }
    ensures { take n new.new ≡ stored_by (translated_byte (S.storage store.now) at.a1 at.a2) n }
{
    for k in 0..n {
        let argument = content_at(store, address_after(at.a1, k));
        let from = address_after(at.a2, u32::from(argument));
        let byte = seen(store, &new[..k as usize], distance(at.a1, from), from);
        new[k as usize] = byte;
    }
}

/// Puts the table's byte for each of some argument bytes at the front of the buffer.
fn look_up(argument: &[u8], table: &[u8], new: &mut [u8; 256])
    requires at_most_256 { length argument.now ≤ 256 }
    requires whole { length table.now ≡ 256 }
    ensures { (k : ℕ) → k < length argument.now
        → (slice_index argument.now k < 256)
        × (slice_index new.new k ≡ slice_index table.now (slice_index argument.now k)) }
{
    for k in 0..argument.len() {
        new[k] = table[argument[k] as usize];
    }
}

/// Puts the bytes that TR stores at the front of the buffer, where argument and table are each lent in one piece and
/// apart. False elsewhere.
#[tactic(auto, using(cx_storage::specs::Facts::Spans::span_length))]
fn translate_lent<S: Store>(store: &S, n: u32, at: Addresses, new: &mut [u8; 256]) -> bool
    requires count { n ≤ 256 }
    ensures { let s = S.storage store.now in
        result ≡ true → HasTable s n at.a1 at.a2 × (take n new.new ≡ stored_by (translated_byte s at.a1 at.a2) n) }
{
    let Some(argument) = store.slice(at.a1, n as usize) else {
        return false;
    };
    let Some(table) = store.slice(at.a2, 256) else {
        return false;
    };
    if at.a2 < at.a1 + n && at.a1 < at.a2 + 256 {
        return false;
    }
    look_up(argument, table, new);
    true
}

/// Puts the bytes that TR stores at the front of the buffer. False where an argument byte, or the table's byte for it,
/// is absent.
#[tactic(auto, unfolding(crate::specs::Translation::HasTable))]
fn translate<S: Store>(store: &S, n: u32, at: Addresses, new: &mut [u8; 256]) -> bool
    requires count { n ≤ 256 }
    ensures there { let has = HasTable (S.storage store.now) n at.a1 at.a2 in MatchBool result has (has → ⊥) }
    ensures bytes { result ≡ true → take n new.new ≡ stored_by (translated_byte (S.storage store.now) at.a1 at.a2) n }
{
    if translate_lent(store, n, at, new) {
        return true;
    }
    if !has_table(store, n, at) {
        return false;
    }
    translate_bytes(store, n, at, new);
    true
}

/// TR. The argument, of `n` bytes, begins at `a1`, the table at `a2`.
#[tactic(auto, unfolding(crate::specs::Translation::TrEffect))]
#[inline(never)]
pub(crate) fn tr<S: Store>(
    cpu: &mut Cpu,
    store: &mut S,
    n: u32,
    at: Addresses,
    updated: Updated,
) -> Performed
    requires count { n ≤ 256 }
    ensures { let before = machine cpu.old (S.storage store.old) in let after = machine cpu.new (S.storage store.new) in
        TrEffect n at.a1 at.a2 updated before result after }
{
    let mut new = [0; 256];
    if !translate(store, n, at, &mut new) {
        return Err(Interruption::Addressing);
    }
    store.write(at.a1, &new[..n as usize]);
    cpu.next = updated.address;
    Ok(())
}

/// The first of some argument bytes whose byte of the table isn't zero.
fn first_in(argument: &[u8], table: &[u8]) -> Option<u32>
    requires at_most_256 { length argument.now ≤ 256 }
    requires whole { length table.now ≡ 256 }
    ensures before { (j : ℕ) → j < unwrap_or result (length argument.now)
        → (slice_index argument.now j < 256) × (slice_index table.now (slice_index argument.now j) ≡ 0) }
    ensures found { IfSome result (λ k. (k < length argument.now) × (slice_index argument.now k < 256)
        × (slice_index table.now (slice_index argument.now k) ≢ 0)) }
{
    for k in 0..argument.len() {
        if table[argument[k] as usize] != 0 {
            return Some(k as u32);
        }
    }
    None
}

/// The first of `n` places whose byte of the table is not there with the value zero, where argument and table are each
/// lent in one piece.
#[tactic(auto, using(cx_storage::specs::Facts::Spans::span_length))]
fn first_lent<S: Store>(store: &S, n: u32, at: Addresses) -> Option<Option<u32>>
    requires count { n ≤ 256 }
    ensures { IfSome result
        (λ place. (place ≡ first_found (S.storage store.now) n at.a1 at.a2) × IfSome place (λ k. k < n)) }
{
    let argument = store.slice(at.a1, n as usize)?;
    let table = store.slice(at.a2, 256)?;
    Some(first_in(argument, table))
}

/// The first of `n` places whose byte of the table is not there with the value zero.
#[tactic(auto, using(crate::proofs::TranslationLemmas::none_found, crate::proofs::TranslationLemmas::found_first))]
fn first_found<S: Store>(store: &S, n: u32, at: Addresses) -> Option<u32>
    requires count { n ≤ 256 }
    ensures place { result ≡ first_found (S.storage store.now) n at.a1 at.a2 }
    ensures within { IfSome result (λ k. k < n) }
{
    if let Some(place) = first_lent(store, n, at) {
        return place;
    }
    for k in 0..n {
        if table_byte(store, at, k) != Some(0) {
            return Some(k);
        }
    }
    None
}

/// A word with an address (below 2^24) in bits 8 to 31; the other bits stay.
fn with_address(word: u32, a: u32) -> u32
    requires { a < 2 ^ 24 }
    ensures { result ≡ with_address word a }
{
    word / 0x100_0000 * 0x100_0000 + a
}

/// A byte of the table that a search found, and the place of its argument byte.
#[derive(Clone, Copy)]
pub struct FoundByte {
    pub k: u32,
    pub byte: u8,
}

/// What a search leaves that found a byte for one of `n` argument bytes, the first of them at `a`.
#[tactic(auto, unfolding(crate::specs::Translation::found_at))]
fn set_found(cpu: &mut Cpu, n: u32, a: u32, found: FoundByte, updated: Updated)
    requires operand { a < 2 ^ 24 }
    requires place { found.k < n }
    requires count { n ≤ 256 }
    ensures { (storage : Storage)
        → machine cpu.new storage ≡ found_at n a found.k found.byte updated (machine cpu.old storage) }
{
    cpu.regs[1] = with_address(cpu.regs[1], address_after(a, found.k));
    cpu.regs[2] = inserted(cpu.regs[2], found.byte);
    cpu.cc = if found.k + 1 == n { 2 } else { 1 };
    cpu.next = updated.address;
}

/// TRT. The argument, of `n` bytes, begins at `a1`, the table at `a2`.
#[tactic(auto, unfolding(crate::specs::Translation::TrtEffect, crate::specs::Translation::Finds))]
#[inline(never)]
pub(crate) fn trt<S: Store>(
    cpu: &mut Cpu,
    store: &S,
    n: u32,
    at: Addresses,
    updated: Updated,
) -> Performed
    requires count { n ≤ 256 }
    ensures { let before = machine cpu.old (S.storage store.now) in let after = machine cpu.new (S.storage store.now) in
        TrtEffect n at.a1 at.a2 updated before result after }
{
    if !is_present(store, at.a1, n) {
        return Err(Interruption::Addressing);
    }
    let Some(k) = first_found(store, n, at) else {
        cpu.cc = 0;
        cpu.next = updated.address;
        return Ok(());
    };
    let Some(byte) = table_byte(store, at, k) else {
        return Err(Interruption::Addressing);
    };
    set_found(cpu, n, at.a1, FoundByte { k, byte }, updated);
    Ok(())
}
