//! Multiplication.

ghost use Rattle.std.specs.Prelude.{◌≡◌, ◌<◌, ◌^◌, ◌+◌, ◌*ℤ◌, Ok, slice_index};
ghost use Rattle.cx_exec.specs.Numbers.{signed_word, double_of};
ghost use Rattle.cx_exec.specs.Results.{with_pair};

use crate::machine::{Performed, Updated};
use crate::numbers::double_of;
use crate::results::load_pair;
use cx_code::Cpu;

/// The exact product of two words.
fn product(first: u32, second: u32) -> i64
    ensures { result ≡ signed_word first *ℤ signed_word second }
{
    i64::from(first.cast_signed()) * i64::from(second.cast_signed())
}

/// Multiplies the pair's second register by a word, into the pair.
pub(crate) fn multiply(cpu: &mut Cpu, r: u8, word: u32, updated: Updated) -> Performed
    requires register { r < 15 }
    ensures done { result ≡ Ok tt }
    ensures regs { let first = slice_index cpu.old.regs (r + 1) in
        cpu.new.regs ≡ with_pair cpu.old.regs r (double_of (signed_word first *ℤ signed_word word)) }
    ensures code { cpu.new.cc ≡ cpu.old.cc }
    ensures next { cpu.new.next ≡ updated.address }
{
    let double = double_of(product(cpu.regs[r as usize + 1], word));
    let cc = cpu.cc;
    load_pair(cpu, r, double, cc, updated)
}
