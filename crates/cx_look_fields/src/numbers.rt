//! The number that bytes are.
ghost use Rattle.std.specs.Prelude.{◌≡◌, ◌==◌, ◌≤◌, ◌<◌, ◌*◌, ◌/◌, ◌%◌, ◌^◌, IfOk, length, map, nat_lt};
ghost use Rattle.std.specs.List.{list_all};
ghost use Rattle.cx_look_fields.specs.Numbers.{decimal_with_sign, halves, number_by, number_as_read, signed, number_of_digits};
ghost use Rattle.cx_look_fields.specs.declared.readings.Reading.TheVariants.{Packed, Zoned};

use crate::readings::Reading;
use byteorder::{BigEndian, ByteOrder};
use std::alloc::{AllocError, Global};

/// The most bytes of a number.
const MOST_BYTES: usize = 16;

/// The half bytes, from left to right.
fn halves(alloc: Global, bytes: &[u8]) -> Result<Vec<u8>, AllocError>
    requires { length bytes.now ≤ 16 }
    ensures value { IfOk result (λ found. found.items ≡ halves bytes.now) }
    ensures count { IfOk result (λ found. length found.items ≡ 2 * length bytes.now) }
{
    let mut found = Vec::new(alloc);
    for byte in bytes {
        found.extend_from_slice(&[*byte / 16, *byte % 16])?;
    }
    Ok(found)
}

/// The right half bytes.
fn right_halves(alloc: Global, bytes: &[u8]) -> Result<Vec<u8>, AllocError>
    ensures { IfOk result (λ found. found.items ≡ map (λ byte. byte % 16) bytes.now) }
{
    let mut found = Vec::new(alloc);
    for byte in bytes {
        found.push(*byte % 16)?;
    }
    Ok(found)
}

/// Whether all are digits.
fn are_digits(digits: &[u8]) -> bool
    ensures { result ≡ list_all (λ digit. nat_lt digit 10) digits.now }
{
    digits.iter().all(|digit| *digit < 10)
}

/// Whether all have the zone F.
fn are_zoned(bytes: &[u8]) -> bool
    ensures { result ≡ list_all (λ byte. byte / 16 == 0xF) bytes.now }
{
    bytes.iter().all(|byte| *byte / 16 == 0xF)
}

/// The number that digits write.
fn number_of_digits(digits: &[u8]) -> u128
    requires { length digits.now ≤ 32 }
    ensures value { result ≡ number_of_digits digits.now }
    ensures small { result < 10 ^ 34 }
{
    let mut number: u128 = 0;
    for digit in digits {
        number = number * 10 + u128::from(*digit);
    }
    number
}

/// A decimal number, where its digits and its sign are some.
fn decimal_with_sign(digits: &[u8], sign: u8) -> Option<i128>
    requires { length digits.now ≤ 32 }
    ensures { result ≡ decimal_with_sign digits.now sign }
{
    if !are_digits(digits) || sign < 10 {
        return None;
    }
    let number = number_of_digits(digits) as i128;
    Some(if sign == 0xB || sign == 0xD {
        -number
    } else {
        number
    })
}

/// The number of packed bytes.
fn packed_number(alloc: Global, bytes: &[u8]) -> Result<Option<i128>, AllocError>
    requires nonempty { 1 ≤ length bytes.now }
    requires at_most_16 { length bytes.now ≤ 16 }
    ensures { IfOk result (λ number. number ≡ number_by Packed bytes.now) }
{
    let halves = halves(alloc, bytes)?;
    let (digits, sign) = halves.as_slice().split_at(halves.len() - 1);
    Ok(decimal_with_sign(digits, sign[0]))
}

/// The number of zoned bytes.
fn zoned_number(alloc: Global, bytes: &[u8]) -> Result<Option<i128>, AllocError>
    requires nonempty { 1 ≤ length bytes.now }
    requires at_most_16 { length bytes.now ≤ 16 }
    ensures { IfOk result (λ number. number ≡ number_by Zoned bytes.now) }
{
    let (front, last) = bytes.split_at(bytes.len() - 1);
    if !are_zoned(front) {
        return Ok(None);
    }
    let digits = right_halves(alloc, bytes)?;
    Ok(decimal_with_sign(digits.as_slice(), last[0] / 16))
}

/// The number that 1 to 16 bytes are.
fn number_by(alloc: Global, reading: Reading, bytes: &[u8]) -> Result<Option<i128>, AllocError>
    requires nonempty { 1 ≤ length bytes.now }
    requires at_most_16 { length bytes.now ≤ 16 }
    ensures { IfOk result (λ number. number ≡ number_by reading bytes.now) }
{
    match reading {
        Reading::Binary => Ok(Some(BigEndian::read_int128(bytes, bytes.len()))),
        Reading::Packed => packed_number(alloc, bytes),
        Reading::Zoned => zoned_number(alloc, bytes),
    }
}

/// The number that bytes are; None where they are none.
#[tactic(auto, unfolding(crate::specs::Numbers::number_as_read))]
pub(crate) fn number_as_read(
    alloc: Global,
    reading: Reading,
    bytes: &[u8],
) -> Result<Option<i128>, AllocError>
    ensures { IfOk result (λ number. number ≡ number_as_read reading bytes.now) }
{
    if bytes.is_empty() || bytes.len() > MOST_BYTES {
        return Ok(None);
    }
    number_by(alloc, reading, bytes)
}
