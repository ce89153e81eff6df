//! Characters and their EBCDIC codes.
ghost use Rattle.std.specs.Prelude.{◌≡◌};
ghost use Rattle.cx_ebcdic.specs.Characters.{code_of, shown_as};

/// The EBCDIC code of each character below 128, by its number.
#[rattlefmt::skip]
const CODES: [Option<u8>; 128] = [
    None, None, None, None, None, None, None, None,
    None, None, None, None, None, None, None, None,
    None, None, None, None, None, None, None, None,
    None, None, None, None, None, None, None, None,
    Some(0x40), Some(0x5A), Some(0x7F), Some(0x7B), Some(0x5B), Some(0x6C), Some(0x50), Some(0x7D),
    Some(0x4D), Some(0x5D), Some(0x5C), Some(0x4E), Some(0x6B), Some(0x60), Some(0x4B), Some(0x61),
    Some(0xF0), Some(0xF1), Some(0xF2), Some(0xF3), Some(0xF4), Some(0xF5), Some(0xF6), Some(0xF7),
    Some(0xF8), Some(0xF9), Some(0x7A), Some(0x5E), Some(0x4C), Some(0x7E), Some(0x6E), Some(0x6F),
    Some(0x7C), Some(0xC1), Some(0xC2), Some(0xC3), Some(0xC4), Some(0xC5), Some(0xC6), Some(0xC7),
    Some(0xC8), Some(0xC9), Some(0xD1), Some(0xD2), Some(0xD3), Some(0xD4), Some(0xD5), Some(0xD6),
    Some(0xD7), Some(0xD8), Some(0xD9), Some(0xE2), Some(0xE3), Some(0xE4), Some(0xE5), Some(0xE6),
    Some(0xE7), Some(0xE8), Some(0xE9), None, None, None, None, Some(0x6D),
    None, Some(0x81), Some(0x82), Some(0x83), Some(0x84), Some(0x85), Some(0x86), Some(0x87),
    Some(0x88), Some(0x89), Some(0x91), Some(0x92), Some(0x93), Some(0x94), Some(0x95), Some(0x96),
    Some(0x97), Some(0x98), Some(0x99), Some(0xA2), Some(0xA3), Some(0xA4), Some(0xA5), Some(0xA6),
    Some(0xA7), Some(0xA8), Some(0xA9), None, Some(0x4F), None, None, None,
];

/// The character that shows each byte.
#[rattlefmt::skip]
const SHOWN: [char; 256] = [
    '.', '.', '.', '.', '.', '.', '.', '.', '.', '.', '.', '.', '.', '.', '.', '.',
    '.', '.', '.', '.', '.', '.', '.', '.', '.', '.', '.', '.', '.', '.', '.', '.',
    '.', '.', '.', '.', '.', '.', '.', '.', '.', '.', '.', '.', '.', '.', '.', '.',
    '.', '.', '.', '.', '.', '.', '.', '.', '.', '.', '.', '.', '.', '.', '.', '.',
    ' ', '.', '.', '.', '.', '.', '.', '.', '.', '.', '.', '.', '<', '(', '+', '|',
    '&', '.', '.', '.', '.', '.', '.', '.', '.', '.', '!', '$', '*', ')', ';', '.',
    '-', '/', '.', '.', '.', '.', '.', '.', '.', '.', '.', ',', '%', '_', '>', '?',
    '.', '.', '.', '.', '.', '.', '.', '.', '.', '.', ':', '#', '@', '\'', '=', '"',
    '.', 'a', 'b', 'c', 'd', 'e', 'f', 'g', 'h', 'i', '.', '.', '.', '.', '.', '.',
    '.', 'j', 'k', 'l', 'm', 'n', 'o', 'p', 'q', 'r', '.', '.', '.', '.', '.', '.',
    '.', '.', 's', 't', 'u', 'v', 'w', 'x', 'y', 'z', '.', '.', '.', '.', '.', '.',
    '.', '.', '.', '.', '.', '.', '.', '.', '.', '.', '.', '.', '.', '.', '.', '.',
    '.', 'A', 'B', 'C', 'D', 'E', 'F', 'G', 'H', 'I', '.', '.', '.', '.', '.', '.',
    '.', 'J', 'K', 'L', 'M', 'N', 'O', 'P', 'Q', 'R', '.', '.', '.', '.', '.', '.',
    '.', '.', 'S', 'T', 'U', 'V', 'W', 'X', 'Y', 'Z', '.', '.', '.', '.', '.', '.',
    '0', '1', '2', '3', '4', '5', '6', '7', '8', '9', '.', '.', '.', '.', '.', '.',
];

/// The EBCDIC code of a character, or None for a character without one.
///
/// System/370 Reference Summary, GX20-1850, "Code Assignments".
#[tactic(auto, using(crate::proofs::CharacterLemmas::coded_at, crate::proofs::CharacterLemmas::not_coded))]
pub fn to_ebcdic(character: char) -> Option<u8>
    ensures { result ≡ code_of character }
{
    let number = character as usize;
    if number < 128 { CODES[number] } else { None }
}

/// The character that shows a byte: the one whose EBCDIC code it is, or a period.
#[tactic(auto, using(crate::proofs::CharacterLemmas::shown_at))]
pub fn shown_as(byte: u8) -> char
    ensures { result ≡ shown_as byte }
{
    SHOWN[byte as usize]
}
