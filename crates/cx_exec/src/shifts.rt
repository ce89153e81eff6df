//! Shifts of words and of pairs of registers.

ghost use Rattle.std.specs.Prelude.{◌≡◌, ◌<◌, ◌^◌, Ok, slice_set, slice_index};
ghost use Rattle.cx_exec.specs.Numbers.{signed_word, word_of, sign_code, sum_code, signed_double, double_of};
ghost use Rattle.cx_exec.specs.Results.{pair, with_pair};
ghost use Rattle.cx_exec.specs.Shifts.{shifted_right, shifted_left, floor_shifted, times_power, shifted_arithmetic};

use crate::machine::{Performed, Updated};
use crate::numbers::{double_of, order_code, signed, signed_double, sum_code, word_of};
use crate::results::{load_coded, load_pair, pair};
use cx_code::Cpu;

/// 2 to the power n.
fn power(n: u8) -> u64
    requires { n < 64 }
    ensures { result ≡ 2 ^ n }
{
    1 << n
}

/// A word shifted right by n bits, zeros filled in.
pub(crate) fn shifted_right(word: u32, n: u8) -> u32
    requires { n < 64 }
    ensures { result ≡ shifted_right word n }
{
    (u64::from(word) >> n) as u32
}

/// A word shifted left by n bits, zeros filled in.
pub(crate) fn shifted_left(word: u32, n: u8) -> u32
    requires { n < 64 }
    ensures { result ≡ shifted_left word n }
{
    (u128::from(word) * u128::from(power(n)) % 0x1_0000_0000) as u32
}

/// A word's number times 2^n.
pub(crate) fn times_power(word: u32, n: u8) -> i128
    requires { n < 64 }
    ensures { result ≡ times_power word n }
{
    i128::from(word.cast_signed()) * i128::from(power(n))
}

/// A word shifted left by n bits except its sign bit, which stays.
pub(crate) fn shifted_arithmetic(word: u32, n: u8) -> u32
    requires { n < 64 }
    ensures { result ≡ shifted_arithmetic word n }
{
    word / 0x8000_0000 * 0x8000_0000 + times_power(word, n).rem_euclid(0x8000_0000) as u32
}

/// Shifts a register right by n bits, its sign filled in.
pub(crate) fn shift_right(cpu: &mut Cpu, r: u8, n: u8, updated: Updated) -> Performed
    requires register { r < 16 }
    requires amount { n < 64 }
    ensures done { result ≡ Ok tt }
    ensures regs { let word = slice_index cpu.old.regs r in
        cpu.new.regs ≡ slice_set cpu.old.regs r (word_of (floor_shifted (signed_word word) n)) }
    ensures code { cpu.new.cc ≡ sign_code (floor_shifted (signed_word (slice_index cpu.old.regs r)) n) }
    ensures next { cpu.new.next ≡ updated.address }
{
    let shifted = signed(cpu.regs[r as usize]) >> n;
    load_coded(
        cpu,
        r,
        word_of(shifted),
        order_code(i128::from(shifted), 0),
        updated,
    )
}

/// Shifts a register left by n bits except its sign bit, which stays.
#[inline(never)]
pub(crate) fn shift_left(cpu: &mut Cpu, r: u8, n: u8, updated: Updated) -> Performed
    requires register { r < 16 }
    requires amount { n < 64 }
    ensures done { result ≡ Ok tt }
    ensures regs { cpu.new.regs ≡ slice_set cpu.old.regs r (shifted_arithmetic (slice_index cpu.old.regs r) n) }
    ensures code { cpu.new.cc ≡ sum_code (times_power (slice_index cpu.old.regs r) n) }
    ensures next { cpu.new.next ≡ updated.address }
{
    let word = cpu.regs[r as usize];
    load_coded(
        cpu,
        r,
        shifted_arithmetic(word, n),
        sum_code(times_power(word, n)),
        updated,
    )
}

/// Shifts the pair right by n bits, its sign filled in.
#[inline(never)]
pub(crate) fn shift_pair(cpu: &mut Cpu, r: u8, n: u8, updated: Updated) -> Performed
    requires register { r < 15 }
    requires amount { n < 64 }
    ensures done { result ≡ Ok tt }
    ensures regs { let double = pair cpu.old.regs r in
        cpu.new.regs ≡ with_pair cpu.old.regs r (double_of (floor_shifted (signed_double double) n)) }
    ensures code { cpu.new.cc ≡ sign_code (floor_shifted (signed_double (pair cpu.old.regs r)) n) }
    ensures next { cpu.new.next ≡ updated.address }
{
    let shifted = signed_double(pair(&cpu.regs, r)) >> n;
    load_pair(
        cpu,
        r,
        double_of(shifted),
        order_code(i128::from(shifted), 0),
        updated,
    )
}
