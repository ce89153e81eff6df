//! Names of programs, transactions, terminals and queues.
ghost use Rattle.std.specs.Prelude.{◌≡◌, ◌≤◌, length, None};
ghost use Rattle.cx_ebcdic.specs.Names.{name_code, padded_name};

use crate::characters::to_ebcdic;
use std::marker::Model;

/// The code of a blank.
const BLANK: u8 = 0x40;

/// A name: the EBCDIC codes of its characters, with blanks (X'40') after them up to WIDTH bytes. `from_bytes` takes any
/// bytes. Contracts see it as its bytes.
#[derive(Clone, Copy, Debug, PartialEq, Eq, PartialOrd, Ord, Hash)]
pub struct Name<const WIDTH: usize> {
    bytes: [u8; WIDTH],
}

/// A name of one to four characters: of a transaction, a terminal, or an abend.
pub type Name4 = Name<4>;

/// A name of one to eight characters: of a program or a queue.
pub type Name8 = Name<8>;

impl<const WIDTH: usize> Model for Name<WIDTH> {
    ghost use Rattle.std.specs.Prelude.{List, ℕ};

    ghost Value = { List ℕ };

    ghost view = { λ name. name.bytes };

    ghost inverse = { λ bytes. record { bytes = bytes } };
}

impl<const WIDTH: usize> Name<WIDTH> {
    /// The name that a text spells: one to WIDTH of A to Z, 0 to 9, `@`, `#` and `$`.
    /// None for any other text.
    pub fn from_text(text: &str) -> Option<Self>
        ensures { result ≡ padded_name WIDTH text.now }
    {
        let bytes = padded_name(text.as_bytes())?;
        Some(Name { bytes })
    }

    /// The name that is these bytes, whatever they are.
    pub fn from_bytes(bytes: [u8; WIDTH]) -> Self
        ensures { result ≡ bytes.entry }
    {
        Name { bytes }
    }

    /// The name's bytes in EBCDIC, with the blanks that fill it.
    pub fn bytes(&self) -> [u8; WIDTH]
        ensures value { result ≡ self.now }
        ensures length { length self.now ≡ WIDTH }
    {
        self.bytes
    }
}

/// The code of a character that a name may have.
#[tactic(auto, unfolding(crate::specs::Names::name_code, crate::specs::Names::is_name_character))]
fn name_code(character: u8) -> Option<u8>
    ensures { result ≡ name_code character }
{
    match character {
        b'A'..=b'Z' | b'0'..=b'9' | b'@' | b'#' | b'$' => to_ebcdic(char::from(character)),
        _ => None,
    }
}

/// The codes of a text that fits, filled with blanks on the right.
#[tactic(auto, unfolding(crate::specs::Names::padded_name))]
fn padded_name<const WIDTH: usize>(text: &[u8]) -> Option<[u8; WIDTH]>
    ensures { result ≡ padded_name WIDTH text.now }
{
    if text.is_empty() || text.len() > WIDTH {
        return None;
    }
    let mut bytes = [BLANK; WIDTH];
    for (i, character) in text.iter().enumerate() {
        bytes[i] = name_code(*character)?;
    }
    Some(bytes)
}
