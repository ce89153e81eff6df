//! What follows from the table of characters, and from what names are.
ghost use Rattle.std.specs.Prelude.{◌≡◌, ◌≢◌, ◌⊎◌, ◌↔◌, ℕ, List, Some, None, true};
ghost use Rattle.cx_ebcdic.specs.Characters.{code_of, shown_as};
ghost use Rattle.cx_ebcdic.specs.Names.{is_name};

use crate::names::Name;

/// The EBCDIC code of a character is shown as that character.
pub fn shown_as_itself()
    ensures { (character code : ℕ) → code_of character ≡ Some code → shown_as code ≡ character }
{}

/// Each byte is shown by the character whose code it is; or no character has it, and it is shown as a period.
pub fn shown_by_its_character_or_a_period()
    ensures { (byte : ℕ) → (code_of (shown_as byte) ≡ Some byte)
        ⊎ ((shown_as byte ≡ 46) × ((character : ℕ) → code_of character ≢ Some byte)) }
{}

/// The EBCDIC code of a period is X'4B'. So any other byte that is shown as a period is the code of no character.
pub fn period_has_one_code()
    ensures { code_of 46 ≡ Some 0x4B }
{}

/// `is_name` is true exactly of two names with the same bytes.
pub fn names_are_their_bytes()
    ensures { (one other : List ℕ) → (is_name one other ≡ true) ↔ (one ≡ other) }
{}

/// `==` of two names is true exactly where `is_name` is of their bytes.
pub fn names_are_compared_by_their_bytes<const WIDTH: usize>(
    one: &Name<WIDTH>,
    other: &Name<WIDTH>,
) -> bool
    ensures { result ≡ is_name one.now other.now }
{
    one == other
}
