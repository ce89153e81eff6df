//! Addition and subtraction.

ghost use Rattle.std.specs.Prelude.{◌≡◌, false, ◌<◌, ◌^◌, ◌+ℤ◌, ◌-ℤ◌, neg_ℤ, Ok, slice_set};
ghost use Rattle.cx_exec.specs.Numbers.{signed_word, word_of, fits_word, sum_code};

use crate::machine::{Performed, Updated};
use crate::numbers::{sign_code, word_of};
use crate::results::load_coded;
use cx_code::Cpu;

/// The exact sum of two words.
pub(crate) fn sum(first: u32, second: u32) -> i64
    ensures { result ≡ signed_word first +ℤ signed_word second }
{
    i64::from(first.cast_signed()) + i64::from(second.cast_signed())
}

/// The exact difference of two words.
pub(crate) fn difference(first: u32, second: u32) -> i64
    ensures { result ≡ signed_word first -ℤ signed_word second }
{
    i64::from(first.cast_signed()) - i64::from(second.cast_signed())
}

/// The exact complement of a word.
pub(crate) fn complement(word: u32) -> i64
    ensures { result ≡ neg_ℤ (signed_word word) }
{
    -i64::from(word.cast_signed())
}

/// Puts an exact result that no word holds into a register, modulo 2^32, and sets its code.
#[tactic(auto, unfolding(crate::specs::Numbers::sum_code))]
#[cold]
#[inline(never)]
fn put_overflow(cpu: &mut Cpu, r: u8, x: i64, updated: Updated) -> Performed
    requires register { r < 16 }
    requires large { fits_word x ≡ false }
    ensures done { result ≡ Ok tt }
    ensures regs { cpu.new.regs ≡ slice_set cpu.old.regs r (word_of x) }
    ensures code { cpu.new.cc ≡ sum_code x }
    ensures next { cpu.new.next ≡ updated.address }
{
    load_coded(cpu, r, word_of(x), 3, updated)
}

/// Puts an exact result into a register, modulo 2^32, and sets its code.
#[tactic(auto, unfolding(crate::specs::Numbers::sum_code))]
pub(crate) fn put_sum(cpu: &mut Cpu, r: u8, x: i64, updated: Updated) -> Performed
    requires register { r < 16 }
    ensures done { result ≡ Ok tt }
    ensures regs { cpu.new.regs ≡ slice_set cpu.old.regs r (word_of x) }
    ensures code { cpu.new.cc ≡ sum_code x }
    ensures next { cpu.new.next ≡ updated.address }
{
    if x >= -0x8000_0000 && x < 0x8000_0000 {
        let number = x as i32;
        return load_coded(cpu, r, number.cast_unsigned(), sign_code(number), updated);
    }
    put_overflow(cpu, r, x, updated)
}
