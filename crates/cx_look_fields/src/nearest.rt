//! Names that are at an address or before it: the nearest, and how one is written.
ghost use Rattle.std.specs.Prelude.{◌≡◌, IfOk};
ghost use Rattle.std.specs.Option.{option_map_or};
ghost use Rattle.cx_look_fields.specs.Nearest.{near_word, nearer_symbol, nearest};

use cx_base::hexadecimal;
use cx_ebcdic::Name8;
use cx_look_lines::written_name;
use std::alloc::{AllocError, Global};

/// A name, and how many bytes an address is after its first byte.
#[derive(Clone, Copy)]
pub struct Near {
    pub name: Name8,
    pub distance: u32,
}

/// Of two, the second perhaps none, the nearer one; of equal ones the first.
fn nearer_symbol(one: Near, later: Option<Near>) -> Near
    ensures { result ≡ option_map_or (nearer_symbol one) later one }
{
    match later {
        Some(later) if later.distance < one.distance => later,
        _ => one,
    }
}

/// The nearest; of equal ones the first.
#[tactic(auto, unfolding(crate::specs::Nearest::nearest))]
pub(crate) fn nearest(nears: &[Near]) -> Option<Near>
    ensures { result ≡ nearest nears.now }
{
    let mut found = None;
    let mut left = nears.len();
    while left > 0 {
        left -= 1;
        found = Some(nearer_symbol(nears[left], found));
    }
    found
}

/// A name between apostrophes, a plus, and how many bytes after its first one, in six hexadecimal digits.
///
/// An error comes only where memory for them was refused.
pub fn near_word(alloc: Global, near: Near) -> Result<Vec<u8>, AllocError>
    ensures { IfOk result (λ word. word.items ≡ near_word near) }
{
    let mut word = written_name(alloc, &near.name.bytes())?;
    word.push(b'+')?;
    word.extend_from_slice(&hexadecimal::<6>(near.distance))?;
    Ok(word)
}
