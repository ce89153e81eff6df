//! ICM and STCM: the bytes of a register that a mask takes.

ghost use Rattle.std.specs.Prelude.{◌≡◌, ◌<◌, ◌≤◌, ◌^◌, Ok, length, map, slice_index, slice_set, take};
ghost use Rattle.cx_exec.specs.Machine.{machine};
ghost use Rattle.cx_exec.specs.Masks.{byte_of, mask_selects, selected_bytes, inserted_byte, word_inserted, insert_code, IcmEffect, StcmEffect};

use crate::logic::is_zero;
use crate::machine::{Interruption, Performed, Updated};
use crate::operands::{put_bytes, put_fast};
use crate::results::load_coded;
use cx_code::Cpu;
use cx_storage::Store;

/// A register, below 16, and the mask of its bytes: 8 stands for the leftmost byte, 4, 2 and 1 for those after it.
#[derive(Clone, Copy)]
pub struct Masked {
    pub r1: u8,
    pub mask: u8,
    pub ghost low: { r1 < 16 },
}

/// The `k`-th byte (`k` is below 4) of a word, the leftmost first.
fn byte_of(word: u32, k: u32) -> u8
    requires { k < 4 }
    ensures { result ≡ byte_of word k }
{
    ((word >> (8 * (3 - k))) % 256) as u8
}

/// Whether a mask's bit for the `k`-th byte (`k` is below 4) is one.
fn mask_selects(mask: u8, k: u32) -> bool
    requires { k < 4 }
    ensures { result ≡ mask_selects mask k }
{
    (mask >> (3 - k)) % 2 == 1
}

/// How many places below `k` (at most 4) a mask chooses. For a fixed `k` its loop is unrolled in line.
#[tactic(auto, using(crate::proofs::MaskLemmas::number_none, crate::proofs::MaskLemmas::number_more))]
#[inline(always)]
fn number_chosen(mask: u8, k: u32) -> u32
    requires { k ≤ 4 }
    ensures value { result ≡ length (selected_bytes mask k) }
    ensures at_most_k { result ≤ k }
{
    let mut count = 0;
    for j in 0..k {
        if mask_selects(mask, j) {
            count += 1;
        }
    }
    count
}

/// Puts the bytes at the places that a mask chooses at the front of the buffer, and returns how many they are.
#[tactic(auto, using(crate::proofs::MaskLemmas::bytes_none, crate::proofs::MaskLemmas::bytes_more))]
fn take_bytes(mask: u8, word: u32, buffer: &mut [u8; 4]) -> usize
    ensures bytes { take result buffer.new ≡ map (byte_of word) (selected_bytes mask 4) }
    ensures at_most_4 { result ≤ 4 }
{
    let mut count = 0;
    for k in 0..4 {
        if mask_selects(mask, k) {
            buffer[count] = byte_of(word, k);
            count += 1;
        }
    }
    count
}

/// STCM, wherever its bytes lie.
#[tactic(auto, unfolding(crate::specs::Masks::StcmEffect))]
#[cold]
#[inline(never)]
fn stcm_slow<S: Store>(
    cpu: &mut Cpu,
    store: &mut S,
    it: Masked,
    a: u32,
    updated: Updated,
) -> Performed
    requires operand { a < 2 ^ 24 }
    ensures { let before = machine cpu.old (S.storage store.old) in let after = machine cpu.new (S.storage store.new) in
        StcmEffect it.r1 it.mask a updated before result after }
{
    let mut buffer = [0; 4];
    let count = take_bytes(it.mask, cpu.regs[it.r1 as usize], &mut buffer);
    put_bytes(cpu, store, a, &buffer[..count], updated)
}

/// STCM of a mask, for which its code is made where that is known.
#[tactic(auto, using(crate::proofs::Storing::masked_as_before), unfolding(crate::specs::Masks::StcmEffect))]
#[inline(always)]
fn stcm_by<S: Store>(
    cpu: &mut Cpu,
    store: &mut S,
    it: Masked,
    a: u32,
    updated: Updated,
) -> Performed
    requires operand { a < 2 ^ 24 }
    ensures { let before = machine cpu.old (S.storage store.old) in let after = machine cpu.new (S.storage store.new) in
        StcmEffect it.r1 it.mask a updated before result after }
{
    let mut buffer = [0; 4];
    let count = take_bytes(it.mask, cpu.regs[it.r1 as usize], &mut buffer);
    if put_fast(cpu, store, a, &buffer[..count], updated) {
        return Ok(());
    }
    stcm_slow(cpu, store, it, a, updated)
}

/// STCM. The bytes begin at `a`.
#[inline(never)]
pub(crate) fn stcm<S: Store>(
    cpu: &mut Cpu,
    store: &mut S,
    it: Masked,
    a: u32,
    updated: Updated,
) -> Performed
    requires operand { a < 2 ^ 24 }
    ensures { let before = machine cpu.old (S.storage store.old) in let after = machine cpu.new (S.storage store.new) in
        StcmEffect it.r1 it.mask a updated before result after }
{
    macro_rules! by {
        ($($known:literal)*) => {
            match it.mask {
                $($known => stcm_by(cpu, store, Masked { r1: it.r1, mask: $known }, a, updated),)*
                _ => stcm_by(cpu, store, it, a, updated),
            }
        };
    }
    by!(1 2 3 4 5 6 7 8 9 10 11 12 13 14 15)
}

/// The `k`-th byte (`k` is below 4) that ICM leaves in a register; there are as many bytes as places chosen.
#[tactic(auto, using(crate::proofs::MaskLemmas::number_below))]
#[inline(always)]
fn inserted_byte(mask: u8, word: u32, bytes: &[u8], k: u32) -> u8
    requires place { k < 4 }
    requires size { length bytes.now ≡ length (selected_bytes mask 4) }
    ensures { result ≡ inserted_byte mask word bytes.now k }
{
    if mask_selects(mask, k) {
        bytes[number_chosen(mask, k) as usize]
    } else {
        byte_of(word, k)
    }
}

/// The word that ICM leaves in a register.
#[tactic(auto, unfolding(crate::specs::Masks::word_inserted))]
fn word_inserted(mask: u8, word: u32, bytes: &[u8]) -> u32
    requires { length bytes.now ≡ length (selected_bytes mask 4) }
    ensures { result ≡ word_inserted mask word bytes.now }
{
    u32::from(inserted_byte(mask, word, bytes, 0)) * 0x100_0000
        + u32::from(inserted_byte(mask, word, bytes, 1)) * 0x1_0000
        + u32::from(inserted_byte(mask, word, bytes, 2)) * 0x100
        + u32::from(inserted_byte(mask, word, bytes, 3))
}

/// The condition code of the bytes inserted.
#[tactic(auto, unfolding(crate::specs::Masks::insert_code))]
fn insert_code(bytes: &[u8]) -> u8
    ensures value { result ≡ insert_code bytes.now }
    ensures at_most_2 { result ≤ 2 }
{
    if is_zero(bytes) {
        0
    } else if bytes[0] >= 128 {
        1
    } else {
        2
    }
}

/// Puts bytes, as many as places chosen, into a register, and sets the condition code by them.
#[inline(always)]
fn insert(cpu: &mut Cpu, it: Masked, bytes: &[u8], updated: Updated) -> Performed
    requires { length bytes.now ≡ length (selected_bytes it.mask 4) }
    ensures done { result ≡ Ok tt }
    ensures regs { let word = word_inserted it.mask (slice_index cpu.old.regs it.r1) bytes.now in
        cpu.new.regs ≡ slice_set cpu.old.regs it.r1 word }
    ensures code { cpu.new.cc ≡ insert_code bytes.now }
    ensures next { cpu.new.next ≡ updated.address }
{
    let word = word_inserted(it.mask, cpu.regs[it.r1 as usize], bytes);
    load_coded(cpu, it.r1, word, insert_code(bytes), updated)
}

/// ICM, wherever its bytes lie.
#[tactic(auto, unfolding(crate::specs::Masks::IcmEffect))]
#[cold]
#[inline(never)]
fn icm_slow<S: Store>(cpu: &mut Cpu, store: &S, it: Masked, a: u32, updated: Updated) -> Performed
    requires operand { a < 2 ^ 24 }
    ensures { let before = machine cpu.old (S.storage store.now) in let after = machine cpu.new (S.storage store.now) in
        IcmEffect it.r1 it.mask a updated before result after }
{
    let mut buffer = [0; 4];
    let bytes = &mut buffer[..number_chosen(it.mask, 4) as usize];
    if !store.read(a, bytes) {
        return Err(Interruption::Addressing);
    }
    insert(cpu, it, bytes, updated)
}

/// ICM of a mask, for which its code is made where that is known.
#[tactic(auto, using(cx_storage::specs::Facts::Spans::span_length), unfolding(crate::specs::Masks::IcmEffect))]
#[inline(always)]
fn icm_by<S: Store>(cpu: &mut Cpu, store: &S, it: Masked, a: u32, updated: Updated) -> Performed
    requires operand { a < 2 ^ 24 }
    ensures { let before = machine cpu.old (S.storage store.now) in let after = machine cpu.new (S.storage store.now) in
        IcmEffect it.r1 it.mask a updated before result after }
{
    let Some(bytes) = store.slice(a, number_chosen(it.mask, 4) as usize) else {
        return icm_slow(cpu, store, it, a, updated);
    };
    insert(cpu, it, bytes, updated)
}

/// ICM. The bytes begin at `a`.
#[inline(never)]
pub(crate) fn icm<S: Store>(
    cpu: &mut Cpu,
    store: &S,
    it: Masked,
    a: u32,
    updated: Updated,
) -> Performed
    requires operand { a < 2 ^ 24 }
    ensures { let before = machine cpu.old (S.storage store.now) in let after = machine cpu.new (S.storage store.now) in
        IcmEffect it.r1 it.mask a updated before result after }
{
    macro_rules! by {
        ($($known:literal)*) => {
            match it.mask {
                $($known => icm_by(cpu, store, Masked { r1: it.r1, mask: $known }, a, updated),)*
                _ => icm_by(cpu, store, it, a, updated),
            }
        };
    }
    by!(1 2 3 4 5 6 7 8 9 10 11 12 13 14 15)
}
