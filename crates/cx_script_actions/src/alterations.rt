//! What the line ALTER says after the terminal.

ghost use Rattle.std.specs.Prelude.{◌≡◌, ◌≤◌, ◌<◌, ◌^◌, IfSome, None, Some, if◌then◌else◌, length};
ghost use Rattle.cx_region.specs.Alter.{IsAllowedChange};
ghost use Rattle.cx_script_actions.specs.Alterations.{change_of, hex_number, number_in, register_of};
ghost use Rattle.cx_script_actions.specs.Words.{two_words};
ghost use Rattle.cx_region.specs.declared.changes.Change.TheVariants.{Byte, Register};

use crate::words::{number, split_word};
use cx_region::Change;

/// The highest register.
const LAST_REGISTER: u32 = 15;

/// The number that at most four bytes are, the first one highest.
#[tactic(auto, using(crate::proofs::HexLemmas::byte_fits))]
fn number_in(bytes: &[u8]) -> u32
    requires { length bytes.now ≤ 4 }
    ensures value { result ≡ number_in bytes.now }
    ensures bound { result < 256 ^ length bytes.now }
{
    let mut number: u32 = 0;
    for byte in bytes {
        number = number * 256 + u32::from(*byte);
    }
    number
}

/// Puts the bytes that hexadecimal digits spell into a buffer, of which they fill all; false where they don't.
#[tactic(auto, using(crate::proofs::HexLemmas::spelled))]
fn decode(word: &[u8], bytes: &mut [u8]) -> bool
    ensures number { hex_number (length bytes.old) word.now ≡ (if result then Some (number_in bytes.new) else None) }
    ensures length { length bytes.new ≡ length bytes.old }
{
    hex::decode_to_slice(word, bytes).is_ok()
}

/// The number that eight hexadecimal digits spell.
fn hex_word(word: &[u8]) -> Option<u32>
    ensures { result ≡ hex_number 4 word.now }
{
    let mut bytes = [0; 4];
    if decode(word, &mut bytes) {
        Some(number_in(&bytes))
    } else {
        None
    }
}

/// The number that a word of six hexadecimal digits spells; None of any other word.
pub fn hex_address(word: &[u8]) -> Option<u32>
    ensures { result ≡ hex_number 3 word.now }
{
    let mut bytes = [0; 3];
    if decode(word, &mut bytes) {
        Some(number_in(&bytes))
    } else {
        None
    }
}

/// The number that two hexadecimal digits spell.
fn hex_byte(word: &[u8]) -> Option<u8>
    ensures { result ≡ hex_number 1 word.now }
{
    let mut bytes = [0; 1];
    if decode(word, &mut bytes) {
        Some(bytes[0])
    } else {
        None
    }
}

/// The register that one or two decimal digits spell, at most 15.
fn register_of(word: &[u8]) -> Option<u8>
    ensures value { result ≡ register_of word.now }
    ensures bound { IfSome result (λ r. r ≤ 15) }
{
    let r = number(word, 1, 2)?;
    if r > LAST_REGISTER {
        return None;
    }
    Some(r as u8)
}

/// What REG alters, by what follows it.
fn register_change(text: &[u8]) -> Option<Change>
    ensures value { result ≡ two_words Register register_of (hex_number 4) text.now }
    ensures allowed { IfSome result IsAllowedChange }
{
    let (word, rest) = split_word(text);
    let r = register_of(word)?;
    let value = hex_word(rest?)?;
    Some(Change::Register(r, value))
}

/// What BYTE alters, by what follows it.
fn byte_change(text: &[u8]) -> Option<Change>
    ensures value { result ≡ two_words Byte (hex_number 3) (hex_number 1) text.now }
    ensures allowed { IfSome result IsAllowedChange }
{
    let (word, rest) = split_word(text);
    let address = hex_address(word)?;
    let value = hex_byte(rest?)?;
    Some(Change::Byte(address, value))
}

/// What an operator alters, by the words after the terminal.
#[tactic(auto, unfolding(crate::specs::Alterations::change_of))]
pub(crate) fn change_of(text: &[u8]) -> Option<Change>
    ensures value { result ≡ change_of text.now }
    ensures allowed { IfSome result IsAllowedChange }
{
    if text == b"NOP".as_slice() {
        return Some(Change::Nop);
    }
    if text == b"ABEND".as_slice() {
        return Some(Change::Abend);
    }
    let (word, rest) = split_word(text);
    if word == b"REG".as_slice() {
        register_change(rest?)
    } else if word == b"BYTE".as_slice() {
        byte_change(rest?)
    } else {
        None
    }
}
