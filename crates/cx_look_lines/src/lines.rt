//! Words of lines.
ghost use Rattle.std.specs.Prelude.{◌≡◌, ◌∷◌, ◌++◌, IfOk, OnOk, map};
ghost use Rattle.std.specs.Fmt.{decimal};
ghost use Rattle.std.specs.Str.{byte};
ghost use Rattle.cx_look_lines.specs.Words.{with_blanks};

use std::alloc::{AllocError, Global};

/// Adds a word after a blank.
///
/// An error comes only where memory for it was refused; then the blank may be there.
pub fn push_word(text: &mut Vec<u8>, word: &[u8]) -> Result<(), AllocError>
    ensures { OnOk result (text.new.items ≡ text.old.items ++ byte " " ∷ word.now) }
{
    text.push(b' ')?;
    text.extend_from_slice(word)?;
    Ok(())
}

/// Adds words, each after a blank.
///
/// An error comes only where memory for them was refused; then some of them may be there.
pub fn push_words(text: &mut Vec<u8>, words: &[&[u8]]) -> Result<(), AllocError>
    ensures { OnOk result (text.new.items ≡ text.old.items ++ with_blanks (map (λ word. word.now) words.now)) }
{
    for word in words {
        push_word(text, word)?;
    }
    Ok(())
}

/// Two texts, one after the other.
///
/// An error comes only where memory for them was refused.
pub fn joined(alloc: Global, first: &[u8], second: &[u8]) -> Result<Vec<u8>, AllocError>
    ensures { IfOk result (λ text. text.items ≡ first.now ++ second.now) }
{
    let mut text = first.to_vec(alloc)?;
    text.extend_from_slice(second)?;
    Ok(text)
}

/// A number in decimal digits, without zeros in front.
///
/// An error comes only where memory for it was refused.
pub fn decimal(alloc: Global, n: usize) -> Result<Vec<u8>, AllocError>
    ensures { IfOk result (λ text. text.items ≡ decimal n) }
{
    Ok(n.to_string(alloc)?.into_bytes())
}
