//! Division.

ghost use Rattle.std.specs.Prelude.{ℤ, ◌<◌, ◌^◌, IfSome, IfNone};
ghost use Rattle.cx_storage.specs.Storage.{Storage};
ghost use Rattle.cx_exec.specs.Machine.{machine};
ghost use Rattle.cx_exec.specs.Division.{IsDivision, DividesRegisters};

use crate::machine::{Interruption, Performed, Updated};
use crate::numbers::{signed, signed_double, word_of};
use crate::results::pair;
use cx_code::Cpu;

/// The quotient and the remainder; None where no quotient that a word holds exists, as for a divisor
/// of zero.
///
/// Principles of Operation, "Divide".
pub(crate) fn division(dividend: i64, divisor: i64) -> Option<(i64, i64)>
    ensures divides { IfSome result (λ found. IsDivision dividend divisor found.0 found.1) }
    ensures none { IfNone result
        ((quotient : ℤ) (remainder : ℤ) → IsDivision dividend divisor quotient remainder → ⊥) }
{
    let quotient = dividend.checked_div(divisor)?;
    let remainder = dividend.checked_rem(divisor)?;
    if quotient < -0x8000_0000 || quotient >= 0x8000_0000 {
        return None;
    }
    Some((quotient, remainder))
}

/// Divides the pair by a word: the remainder into its first register, the quotient into its second.
/// Interruption 9, and no change, where no word holds the quotient or the divisor is zero.
#[tactic(auto, unfolding(crate::specs::Division::DividesRegisters))]
#[inline(never)]
pub(crate) fn divide(cpu: &mut Cpu, r: u8, word: u32, updated: Updated) -> Performed
    requires register { r < 15 }
    ensures { (storage : Storage)
        → DividesRegisters r word updated (machine cpu.old storage) result (machine cpu.new storage) }
{
    let dividend = signed_double(pair(&cpu.regs, r));
    let Some(found) = division(dividend, signed(word)) else {
        return Err(Interruption::FixedPointDivide);
    };
    cpu.regs[r as usize] = word_of(found.1);
    cpu.regs[r as usize + 1] = word_of(found.0);
    cpu.next = updated.address;
    Ok(())
}
