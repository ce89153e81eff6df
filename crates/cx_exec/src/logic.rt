//! Logic.

ghost use Rattle.std.specs.Prelude.{◌≡◌, ℕ, ◌<◌, ◌≤◌, ◌^◌, ◌==◌, slice_index};
ghost use Rattle.cx_exec.specs.Numbers.{number_of};
ghost use Rattle.cx_exec.specs.Machine.{machine};
ghost use Rattle.cx_exec.specs.Logic.{logical_code, test_code, StoresLogical};

use crate::machine::{Performed, Updated};
use crate::operands::{put_apart, put_coded_at_hand};
use cx_code::Cpu;
use cx_storage::Store;

/// The condition code of a logical result.
pub(crate) fn logical_code(word: u32) -> u8
    ensures value { result ≡ logical_code word }
    ensures at_most_3 { result ≤ 3 }
{
    u8::from(word != 0)
}

/// The condition code of the bits of a byte that a mask selects.
pub(crate) fn test_code(mask: u8, byte: u8) -> u8
    ensures value { result ≡ test_code mask byte }
    ensures at_most_3 { result ≤ 3 }
{
    let selected = byte & mask;
    if selected == 0 {
        0
    } else if selected == mask {
        3
    } else {
        1
    }
}

/// Stores one byte, with the code of a logical result.
#[tactic(auto, using(crate::proofs::Storing::coded_as_before))]
#[inline(always)]
pub(crate) fn put_logical<S: Store>(
    cpu: &mut Cpu,
    store: &mut S,
    a: u32,
    byte: u8,
    updated: Updated,
) -> Performed
    requires operand { a < 2 ^ 24 }
    ensures { let before = machine cpu.old (S.storage store.old) in let after = machine cpu.new (S.storage store.new) in
        StoresLogical a byte updated before result after }
{
    let cc = logical_code(u32::from(byte));
    if put_coded_at_hand(cpu, store, a, &[byte], cc, updated) {
        return Ok(());
    }
    put_apart(cpu, store, a, [byte], cc, updated)
}

/// Whether the bytes, as a number, are zero.
#[tactic(auto, using(crate::proofs::NumberLemmas::zero_is, crate::proofs::NumberLemmas::zero_is_not))]
pub(crate) fn is_zero(bytes: &[u8]) -> bool
    ensures { result ≡ (number_of bytes.now == 0) }
{
    let mut highest = 0;
    for k in 0..bytes.len() {
        highest = highest.max(bytes[k]);
    }
    highest == 0
}

/// The condition code of a logical result of several bytes.
pub(crate) fn string_code(bytes: &[u8]) -> u8
    ensures value { result ≡ logical_code (number_of bytes.now) }
    ensures at_most_1 { result ≤ 1 }
{
    if is_zero(bytes) { 0 } else { 1 }
}
