//! CVB and CVD: packed decimal numbers of 8 bytes.

ghost use Rattle.std.specs.Prelude.{◌≡◌, ℕ, ◌+◌, ◌*◌, ◌/◌, ◌%◌, ◌<◌, ◌≤◌, ◌^◌, length, MatchOption, pos, ◌<ℤ◌, ⊤};
ghost use Rattle.cx_storage.specs.Storage.{Storage};
ghost use Rattle.cx_exec.specs.Machine.{machine};
ghost use Rattle.cx_exec.specs.Numbers.{signed_word, fits_word};
ghost use Rattle.cx_exec.specs.Decimal.{half, AreDigits, IsDecimal, first_digits, is_minus, decimal_number, IsReadAs, Converts, CvbEffect, decimal_bytes, CvdEffect};

use crate::machine::{Interruption, Performed, Updated};
use crate::numbers::word_of;
use crate::operands::put_bytes;
use cx_code::Cpu;
use cx_storage::Store;

/// The `i`-th half byte (`i` is below 16) of 8 bytes, from the left.
fn half(bytes: &[u8; 8], i: usize) -> u8
    requires { i < 16 }
    ensures value { result ≡ half bytes.now i }
    ensures below_16 { result < 16 }
{
    let byte = bytes[i / 2];
    if i % 2 == 0 { byte / 16 } else { byte % 16 }
}

/// The number that the 15 digits make, or None where one of them is not valid.
#[tactic(auto, unfolding(crate::specs::Decimal::first_digits))]
fn digits(bytes: &[u8; 8]) -> Option<i64>
    ensures value { MatchOption result (AreDigits bytes.now → ⊥)
        (λ n. AreDigits bytes.now × (n ≡ pos (first_digits bytes.now 15))) }
    ensures below_10_15 { MatchOption result ⊤ (λ n. n <ℤ pos (10 ^ 15)) }
{
    let mut number: u64 = 0;
    for i in 0..15 {
        let digit = half(bytes, i);
        if digit > 9 {
            return None;
        }
        number = number * 10 + u64::from(digit);
    }
    Some(number as i64)
}

/// The number of 8 bytes, or None where a digit or the sign is not valid.
#[tactic(auto, unfolding(crate::specs::Decimal::IsReadAs, crate::specs::Decimal::IsDecimal))]
fn decimal(bytes: &[u8; 8]) -> Option<i64>
    ensures { IsReadAs bytes.now result }
{
    let number = digits(bytes)?;
    let sign = half(bytes, 15);
    if sign < 10 {
        return None;
    }
    let is_minus = sign == 0xB || sign == 0xD;
    Some(if is_minus { -number } else { number })
}

/// Whether a word can hold the number.
fn fits_word(number: i64) -> bool
    ensures { result ≡ fits_word number }
{
    number >= -0x8000_0000 && number < 0x8000_0000
}

/// What CVB leaves of a number.
#[tactic(auto, unfolding(crate::specs::Decimal::Converts))]
fn convert(cpu: &mut Cpu, r1: u8, number: i64, updated: Updated) -> Performed
    requires first { r1 < 16 }
    ensures { (storage : Storage) → let before = machine cpu.old storage in let after = machine cpu.new storage in
        Converts r1 number updated before result after }
{
    cpu.regs[r1 as usize] = word_of(number);
    if !fits_word(number) {
        return Err(Interruption::FixedPointDivide);
    }
    cpu.next = updated.address;
    Ok(())
}

/// CVB. `r1` is below 16, and the 8 bytes begin at `a`. At interruption 9 the register is changed all the
/// same.
#[tactic(auto, unfolding(crate::specs::Decimal::CvbEffect))]
#[inline(never)]
pub(crate) fn cvb<S: Store>(cpu: &mut Cpu, store: &S, r1: u8, a: u32, updated: Updated) -> Performed
    requires first { r1 < 16 }
    requires operand { a < 2 ^ 24 }
    ensures { let before = machine cpu.old (S.storage store.now) in let after = machine cpu.new (S.storage store.now) in
        CvbEffect r1 a updated before result after }
{
    let mut bytes = [0; 8];
    if !store.read(a, &mut bytes) {
        return Err(Interruption::Addressing);
    }
    let Some(number) = decimal(&bytes) else {
        return Err(Interruption::Data);
    };
    convert(cpu, r1, number, updated)
}

/// Two digits of a number: the one that counts `power`, and the one before it.
fn digit_pair(n: u64, power: u64) -> u8
    requires above_0 { 0 < power }
    requires small { power ≤ 10 ^ 13 }
    ensures { result ≡ 16 * (n / (power * 10) % 10) + n / power % 10 }
{
    (16 * (n / (power * 10) % 10) + n / power % 10) as u8
}

/// The 15 digits of a word's signed number, and its sign.
#[tactic(auto, unfolding(crate::specs::Decimal::decimal_bytes))]
fn decimal_bytes(word: u32) -> [u8; 8]
    ensures { result ≡ decimal_bytes (signed_word word) }
{
    let number = word.cast_signed();
    let n = u64::from(number.unsigned_abs());
    let sign = if number < 0 { 0xD } else { 0xC };
    [
        digit_pair(n, 10_000_000_000_000),
        digit_pair(n, 100_000_000_000),
        digit_pair(n, 1_000_000_000),
        digit_pair(n, 10_000_000),
        digit_pair(n, 100_000),
        digit_pair(n, 1000),
        digit_pair(n, 10),
        (n % 10) as u8 * 16 + sign,
    ]
}

/// CVD. `r1` is below 16, and the 8 bytes begin at `a`.
#[tactic(auto, unfolding(crate::specs::Decimal::CvdEffect))]
#[inline(never)]
pub(crate) fn cvd<S: Store>(
    cpu: &mut Cpu,
    store: &mut S,
    r1: u8,
    a: u32,
    updated: Updated,
) -> Performed
    requires first { r1 < 16 }
    requires operand { a < 2 ^ 24 }
    ensures { let before = machine cpu.old (S.storage store.old) in let after = machine cpu.new (S.storage store.new) in
        CvdEffect r1 a updated before result after }
{
    let bytes = decimal_bytes(cpu.regs[r1 as usize]);
    put_bytes(cpu, store, a, &bytes, updated)
}
