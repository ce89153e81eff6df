//! Comparison.

ghost use Rattle.std.specs.Prelude.{◌≡◌, ℕ, ◌+◌, ◌<◌, ◌≤◌, true, length, pos, slice_index};
ghost use Rattle.cx_exec.specs.Numbers.{number_of};
ghost use Rattle.cx_exec.specs.Machine.{machine};
ghost use Rattle.cx_exec.specs.Numbers.{signed_word, order_code};
ghost use Rattle.cx_exec.specs.Comparison.{ComparesStrings};

use crate::addresses::Addresses;
use crate::machine::{Interruption, Performed, Updated};
use crate::numbers::{eight_at, order_code};
use crate::operands::of_length;
use crate::results::set_code;
use cx_code::Cpu;
use cx_storage::Store;

/// The code of two words compared as signed numbers.
pub(crate) fn signed_order(first: u32, second: u32) -> u8
    ensures value { result ≡ order_code (signed_word first) (signed_word second) }
    ensures at_most_3 { result ≤ 3 }
{
    order_code(
        i128::from(first.cast_signed()),
        i128::from(second.cast_signed()),
    )
}

/// The code of two words compared as numbers without a sign.
pub(crate) fn logical_order(first: u32, second: u32) -> u8
    ensures value { result ≡ order_code (pos first) (pos second) }
    ensures at_most_3 { result ≤ 3 }
{
    order_code(i128::from(first), i128::from(second))
}

/// The code of two bytes compared as numbers without a sign.
pub(crate) fn byte_order(first: u8, second: u8) -> u8
    ensures value { result ≡ order_code (pos first) (pos second) }
    ensures at_most_3 { result ≤ 3 }
{
    order_code(i128::from(first), i128::from(second))
}

/// Whether the 32 bytes from a place on are the same in two strings.
#[inline(always)]
fn are_alike(first: &[u8], second: &[u8], at: usize) -> bool
    requires long { at + 32 ≤ length first.now }
    requires size { length first.now ≡ length second.now }
    ensures alike { result ≡ true → (j : ℕ) → at ≤ j → j < at + 32
        → slice_index first.now j ≡ slice_index second.now j }
    ensures gap { ((j : ℕ) → at ≤ j → j < at + 32 → slice_index first.now j ≡ slice_index second.now j)
        → result ≡ true }
{
    let mut same = true;
    for k in 0..32 {
        same &= first[at + k] == second[at + k];
    }
    same
}

/// A number of first bytes in which two strings of one length are alike: those of equal pieces of 32 bytes, then of
/// eight.
#[inline(always)]
fn alike_front(first: &[u8], second: &[u8]) -> usize
    requires { length first.now ≡ length second.now }
    ensures { (j : ℕ) → j < result → slice_index first.now j ≡ slice_index second.now j }
{
    let mut at = 0;
    'far: while first.len() - at >= 32 && are_alike(first, second, at) {
        at += 32;
    }
    'alike: while first.len() - at >= 8 && eight_at(first, at) == eight_at(second, at) {
        at += 8;
    }
    at
}

/// The condition code of two strings of one length compared as numbers without a sign.
#[inline(always)]
fn string_order(first: &[u8], second: &[u8]) -> u8
    requires { length first.now ≡ length second.now }
    ensures value { result ≡ order_code (pos (number_of first.now)) (pos (number_of second.now)) }
    ensures at_most_3 { result ≤ 3 }
{
    for k in alike_front(first, second)..first.len() {
        if first[k] != second[k] {
            return byte_order(first[k], second[k]);
        }
    }
    0
}

/// CLC, from copies of both operands.
#[tactic(auto, unfolding(crate::specs::Comparison::ComparesStrings))]
#[inline(never)]
fn clc_copies<S: Store>(
    cpu: &mut Cpu,
    store: &S,
    at: Addresses,
    updated: Updated,
    n: u32,
) -> Performed
    requires count { n ≤ 256 }
    ensures { let before = machine cpu.old (S.storage store.now) in let after = machine cpu.new (S.storage store.now) in
        ComparesStrings n at.a1 at.a2 updated before result after }
{
    let mut left = [0; 256];
    let mut right = [0; 256];
    let first = &mut left[..n as usize];
    let second = &mut right[..n as usize];
    if !store.read(at.a1, first) {
        return Err(Interruption::Addressing);
    }
    if !store.read(at.a2, second) {
        return Err(Interruption::Addressing);
    }
    let cc = string_order(first, second);
    set_code(cpu, cc, updated)
}

/// CLC of `N` bytes, for which there is code of its own.
#[tactic(auto, using(cx_storage::specs::Facts::Spans::span_length), unfolding(crate::specs::Comparison::ComparesStrings))]
#[inline(never)]
fn clc_few<S: Store, const N: u32>(
    cpu: &mut Cpu,
    store: &S,
    at: Addresses,
    updated: Updated,
) -> Performed
    requires count { N ≤ 256 }
    ensures { let before = machine cpu.old (S.storage store.now) in let after = machine cpu.new (S.storage store.now) in
        ComparesStrings N at.a1 at.a2 updated before result after }
{
    if let Some(first) = store.slice_fast(at.a1, N as usize) {
        if let Some(second) = store.slice_fast(at.a2, N as usize) {
            let cc = string_order(of_length(first, N as usize), of_length(second, N as usize));
            return set_code(cpu, cc, updated);
        }
    }
    clc_many(cpu, store, at, updated, N)
}

/// CLC of any length.
#[tactic(auto, using(cx_storage::specs::Facts::Spans::span_length), unfolding(crate::specs::Comparison::ComparesStrings))]
#[inline(never)]
fn clc_many<S: Store>(
    cpu: &mut Cpu,
    store: &S,
    at: Addresses,
    updated: Updated,
    n: u32,
) -> Performed
    requires count { n ≤ 256 }
    ensures { let before = machine cpu.old (S.storage store.now) in let after = machine cpu.new (S.storage store.now) in
        ComparesStrings n at.a1 at.a2 updated before result after }
{
    if let Some(first) = store.slice(at.a1, n as usize) {
        if let Some(second) = store.slice(at.a2, n as usize) {
            let cc = string_order(first, second);
            return set_code(cpu, cc, updated);
        }
    }
    clc_copies(cpu, store, at, updated, n)
}

/// CLC. The operands, of `l` bytes and one, begin at `a1` and `a2`.
#[inline(never)]
pub(crate) fn clc<S: Store>(
    cpu: &mut Cpu,
    store: &S,
    at: Addresses,
    updated: Updated,
    l: u8,
) -> Performed
    ensures { let before = machine cpu.old (S.storage store.now) in let after = machine cpu.new (S.storage store.now) in
        ComparesStrings (l + 1) at.a1 at.a2 updated before result after }
{
    match l {
        0 => clc_few::<S, 1>(cpu, store, at, updated),
        1 => clc_few::<S, 2>(cpu, store, at, updated),
        2 => clc_few::<S, 3>(cpu, store, at, updated),
        3 => clc_few::<S, 4>(cpu, store, at, updated),
        4 => clc_few::<S, 5>(cpu, store, at, updated),
        5 => clc_few::<S, 6>(cpu, store, at, updated),
        6 => clc_few::<S, 7>(cpu, store, at, updated),
        7 => clc_few::<S, 8>(cpu, store, at, updated),
        _ => clc_many(cpu, store, at, updated, u32::from(l) + 1),
    }
}
