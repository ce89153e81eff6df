//! Several registers at once: LM and STM.

ghost use Rattle.std.specs.Prelude.{◌≡◌, ℕ, List, ◌<◌, ◌≤◌, ◌^◌, ◌+◌, ◌*◌, drop, length, slice_index, take, Some, None, MatchResult};
ghost use Rattle.byteorder.specs.Endian.{big_number};
ghost use Rattle.cx_exec.specs.declared.machine.Interruption.TheVariants as interruption;
ghost use Rattle.cx_exec.specs.Machine.{machine};
ghost use Rattle.cx_exec.specs.Operands.{Stores};
ghost use Rattle.cx_exec.specs.Registers.{place_after, register_count, words_at, loaded_registers, register_bytes, LoadsRegisters};

use crate::machine::{Performed, Updated};
use crate::operands::{put_bytes, word_at};
use byteorder::{BigEndian, ByteOrder};
use cx_code::Cpu;
use cx_storage::{Store, address_after};

/// How many registers after the first one a given one comes, 0 following 15.
pub(crate) fn place_after(first: u8, r: u8) -> u8
    requires first { first < 16 }
    requires register { r < 16 }
    ensures value { result ≡ place_after first r }
    ensures below_16 { result < 16 }
{
    (r + (16 - first)) % 16
}

/// Registers from the first through the last one, both below 16: register 0 follows register 15.
#[derive(Clone, Copy)]
pub struct Range {
    pub first: u8,
    pub last: u8,
    pub ghost low1: { first < 16 },
    pub ghost low2: { last < 16 },
}

/// Loads the registers from the first through the last one, from the words in a row that lent bytes hold: those through
/// register 15, then those from register 0 on.
#[inline(always)]
fn take_registers(part: &[u8], range: Range, regs: &mut [u32; 16])
    requires size { length part.now ≡ 4 * register_count range.first range.last }
    ensures { (words : List ℕ) → let count = register_count range.first range.last in
        ((k : ℕ) → k < count → slice_index words k ≡ big_number 4 (drop (4 * k) part.now))
        → regs.new ≡ loaded_registers regs.old range.first range.last words }
{
    let from = range.first as usize;
    let count = part.len() / 4;
    let high = count.min(16 - from);
    'high: for k in 0..high {
        regs[from + k] = BigEndian::read_u32(&part[4 * k..]);
    }
    'low: for k in high..count {
        regs[k - high] = BigEndian::read_u32(&part[4 * k..]);
    }
}

/// Reads words in a row (at most 16), from `a` on, to the front of the buffer, one by one; interruption 5 where one is
/// absent.
#[tactic(auto, using(crate::proofs::RegisterLemmas::words_none, crate::proofs::RegisterLemmas::words_gone))]
#[cold]
#[inline(never)]
fn read_slow<S: Store>(store: &S, a: u32, count: usize, words: &mut [u32; 16]) -> Performed
    requires operand { a < 2 ^ 24 }
    requires count { count ≤ 16 }
    ensures { let read = words_at (S.storage store.now) a count in
        MatchResult result (λ _. read ≡ Some (take count words.new))
        (λ cause. (read ≡ None) × (cause ≡ interruption.Addressing)) }
{
    for k in 0..count {
        let word = word_at(store, address_after(a, 4 * k as u32))?;
        words[k] = word;
    }
    Ok(())
}

/// Loads the registers from the first through the last one.
pub(crate) fn load_registers(regs: &mut [u32; 16], range: Range, words: &[u32])
    requires length { length words.now ≡ register_count range.first range.last }
    ensures { regs.new ≡ loaded_registers regs.old range.first range.last words.now }
{
    for r in 0..16 {
        let place = place_after(range.first, r);
        if place <= place_after(range.first, range.last) {
            regs[r as usize] = words[place as usize];
        }
    }
}

/// Writes the words of registers, from the first one on, one after the other: those through register 15, then those
/// from register 0 on.
#[tactic(auto, using(crate::proofs::RegisterLemmas::no_bytes, crate::proofs::RegisterLemmas::more_bytes))]
#[inline(always)]
pub(crate) fn write_registers(regs: &[u32; 16], first: u8, count: usize, bytes: &mut [u8; 64])
    requires first { first < 16 }
    requires count { count ≤ 16 }
    ensures { take (4 * count) bytes.new ≡ register_bytes regs.now first count }
{
    let from = first as usize;
    let high = count.min(16 - from);
    'high: for k in 0..high {
        BigEndian::write_u32(&mut bytes[4 * k..], regs[from + k]);
    }
    'low: for k in high..count {
        BigEndian::write_u32(&mut bytes[4 * k..], regs[k - high]);
    }
}

/// Stores the registers from the first through the last one: all of their bytes, or none and
/// interruption 5.
#[inline(never)]
pub(crate) fn store_multiple<S: Store>(
    cpu: &mut Cpu,
    store: &mut S,
    range: Range,
    a: u32,
    updated: Updated,
) -> Performed
    requires operand { a < 2 ^ 24 }
    ensures { let before = machine cpu.old (S.storage store.old) in let after = machine cpu.new (S.storage store.new) in
        Stores a (register_bytes cpu.old.regs range.first (register_count range.first range.last))
        cpu.old.cc updated before result after }
{
    let count = place_after(range.first, range.last) as usize + 1;
    let mut bytes = [0; 64];
    write_registers(&cpu.regs, range.first, count, &mut bytes);
    put_bytes(cpu, store, a, &bytes[..4 * count], updated)
}

/// Loads the registers from the first through the last one, wherever their words lie: all of them, or none and
/// interruption 5.
#[tactic(auto, unfolding(crate::specs::Registers::LoadsRegisters))]
#[cold]
#[inline(never)]
fn load_slow<S: Store>(
    cpu: &mut Cpu,
    store: &S,
    range: Range,
    a: u32,
    updated: Updated,
) -> Performed
    requires operand { a < 2 ^ 24 }
    ensures { let before = machine cpu.old (S.storage store.now) in let after = machine cpu.new (S.storage store.now) in
        LoadsRegisters range.first range.last a updated before result after }
{
    let count = place_after(range.first, range.last) as usize + 1;
    let mut words = [0; 16];
    read_slow(store, a, count, &mut words)?;
    let mut regs = cpu.regs;
    load_registers(&mut regs, range, &words[..count]);
    cpu.regs = regs;
    cpu.next = updated.address;
    Ok(())
}

/// Loads the registers from the first through the last one: all of them, or none and interruption 5.
#[tactic(auto, using(cx_storage::specs::Facts::Spans::span_length))]
#[inline(never)]
pub(crate) fn load_multiple<S: Store>(
    cpu: &mut Cpu,
    store: &S,
    range: Range,
    a: u32,
    updated: Updated,
) -> Performed
    requires operand { a < 2 ^ 24 }
    ensures { let before = machine cpu.old (S.storage store.now) in let after = machine cpu.new (S.storage store.now) in
        LoadsRegisters range.first range.last a updated before result after }
{
    let count = place_after(range.first, range.last) as usize + 1;
    let Some(part) = store.slice(a, 4 * count) else {
        return load_slow(cpu, store, range, a, updated);
    };
    take_registers(part, range, &mut cpu.regs);
    cpu.next = updated.address;
    Ok(())
}
