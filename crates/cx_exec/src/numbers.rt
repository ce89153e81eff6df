//! Words as signed numbers, and the condition codes that numbers set.

ghost use Rattle.std.specs.Prelude.{◌≡◌, ◌+◌, ◌≤◌, length};
ghost use Rattle.byteorder.specs.Endian.{big_from};
ghost use Rattle.cx_exec.specs.Numbers.{signed_word, word_of, extend_sign, order_code, sum_code, sign_code, signed_double, double_of};

use byteorder::{BigEndian, ByteOrder};

/// The word that a number leaves: the number modulo 2^32.
pub(crate) fn word_of(x: i64) -> u32
    ensures { result ≡ word_of x }
{
    x.rem_euclid(0x1_0000_0000) as u32
}

/// A halfword extended to a word by its sign.
pub(crate) fn extended(halfword: u16) -> u32
    ensures { result ≡ extend_sign halfword }
{
    word_of(i64::from(halfword.cast_signed()))
}

/// 0 where the numbers are equal, 1 where the first is low, 2 where it is high.
#[tactic(auto, unfolding(crate::specs::Numbers::order_code))]
pub(crate) fn order_code(first: i128, second: i128) -> u8
    ensures value { result ≡ order_code first second }
    ensures at_most_3 { result ≤ 3 }
{
    u8::from(first < second) + 2 * u8::from(second < first)
}

/// The code of a number's sign.
#[tactic(auto, unfolding(crate::specs::Numbers::order_code))]
pub(crate) fn sign_code(x: i32) -> u8
    ensures value { result ≡ sign_code x }
    ensures at_most_3 { result ≤ 3 }
{
    if x > 0 { 2 } else { u8::from(x < 0) }
}

/// The code of an exact result: 3 where no word holds it, else that of its sign.
#[tactic(auto, unfolding(crate::specs::Numbers::sum_code, crate::specs::Numbers::order_code))]
pub(crate) fn sum_code(x: i128) -> u8
    ensures value { result ≡ sum_code x }
    ensures at_most_3 { result ≤ 3 }
{
    if x < -0x8000_0000 || x >= 0x8000_0000 {
        3
    } else if x < 0 {
        1
    } else if x > 0 {
        2
    } else {
        0
    }
}

/// A doubleword as a signed number.
pub(crate) fn signed_double(double: u64) -> i64
    ensures { result ≡ signed_double double }
{
    double.cast_signed()
}

/// The doubleword that a number leaves: the number modulo 2^64.
pub(crate) fn double_of(x: i64) -> u64
    ensures { result ≡ double_of x }
{
    x.cast_unsigned()
}

/// A word as a signed number.
pub(crate) fn signed(word: u32) -> i64
    ensures { result ≡ signed_word word }
{
    i64::from(word.cast_signed())
}

/// The eight bytes from a place on, as a number.
#[tactic(auto, using(crate::proofs::NumberLemmas::number_from))]
pub(crate) fn eight_at(bytes: &[u8], at: usize) -> u64
    requires { at + 8 ≤ length bytes.now }
    ensures { result ≡ big_from at 8 bytes.now }
{
    BigEndian::read_u64(&bytes[at..at + 8])
}
