//! Digits of numbers and bytes.

ghost use Rattle.std.specs.Prelude.{◌≡◌, ◌≤◌, ◌<◌, length};
ghost use Rattle.cx_base.specs.Digits.{digits, last_digit};

/// The digits.
const DIGITS: [u8; 16] = *b"0123456789ABCDEF";

/// The digit that counts the ones of a number.
fn last_digit(n: u32, base: u32) -> u8
    requires positive { 0 < base }
    requires small { base ≤ 16 }
    ensures { result ≡ last_digit base n }
{
    DIGITS[(n % base) as usize]
}

/// Fills a text with the lowest digits of a number.
#[tactic(auto, using(crate::proofs::DigitLemmas::one_more, crate::proofs::DigitLemmas::no_place))]
fn fill(text: &mut [u8], n: u32, base: u32)
    requires positive { 0 < base }
    requires small { base ≤ 16 }
    ensures { text.new ≡ digits base (length text.old) n }
{
    let mut rest = n;
    let mut at = text.len();
    while at > 0 {
        at -= 1;
        text[at] = last_digit(rest, base);
        rest /= base;
    }
}

/// A number in `PLACES` hexadecimal digits, in upper case: its lowest ones, with zeros in front.
pub fn hexadecimal<const PLACES: usize>(n: u32) -> [u8; PLACES]
    ensures { result ≡ digits 16 PLACES n }
{
    let mut text = [b'0'; PLACES];
    fill(&mut text, n, 16);
    text
}

/// A number in `PLACES` decimal digits: its lowest ones, with zeros in front.
pub fn decimal<const PLACES: usize>(n: u32) -> [u8; PLACES]
    ensures { result ≡ digits 10 PLACES n }
{
    let mut text = [b'0'; PLACES];
    fill(&mut text, n, 10);
    text
}
