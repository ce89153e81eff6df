//! Digits and the numbers that they write.

ghost use Rattle.std.specs.Prelude.{◌≡◌, ◌≤◌, ◌<◌, IfSome};
ghost use Rattle.std.specs.List.{list_all};
ghost use Rattle.cx_asm_expressions.specs.Digits.{at_most, bound, digit, is_digit, is_number, number_in};

/// No number goes beyond this one: what does is out of range.
pub(crate) const BOUND: u128 = 1_267_650_600_228_229_401_496_703_205_376;

/// The value of a digit: 0 to 9, A to F.
#[tactic(auto, unfolding(crate::specs::Digits::digit))]
pub(crate) fn digit(c: u8) -> Option<u8>
    ensures value { result ≡ digit c }
    ensures bound { IfSome result (λ value. value < 16) }
{
    match c {
        b'0'..=b'9' => Some(c - b'0'),
        b'A'..=b'F' => Some(c - b'A' + 10),
        _ => None,
    }
}

/// Whether a character is a digit of a base.
pub(crate) fn is_digit(c: u8, base: u8) -> bool
    ensures { result ≡ is_digit base c }
{
    match digit(c) {
        Some(value) => value < base,
        None => false,
    }
}

/// Whether a text is one digit of a base or more, and nothing else.
pub(crate) fn is_number(text: &[u8], base: u8) -> bool
    ensures { result ≡ is_number base text.now }
{
    !text.is_empty() && has_digits(text, base)
}

/// Whether each character of a text is a digit of a base.
fn has_digits(text: &[u8], base: u8) -> bool
    ensures { result ≡ list_all (is_digit base) text.now }
{
    text.iter().all(|c| is_digit(*c, base))
}

/// The number that digits of a base write, or None where it is beyond the bound.
pub(crate) fn number(text: &[u8], base: u8) -> Option<u128>
    requires positive { 1 ≤ base }
    requires small { base ≤ 16 }
    ensures { result ≡ at_most bound (number_in base text.now) }
{
    let mut number = 0;
    for c in text {
        number = number * u128::from(base) + u128::from(digit(*c).unwrap_or(0));
        if number > BOUND {
            return None;
        }
    }
    Some(number)
}
