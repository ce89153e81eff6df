//! The words of an operand of EXEC.

ghost use Rattle.std.specs.Prelude.{◌≡◌, IfOk};
ghost use Rattle.cx_translate.specs.Words.{argument_after, nameless, words_in, words_of};

use crate::pieces::{Token, pieces_of};
use cx_source::Text;
use std::alloc::{AllocError, Global};

/// What follows a word as its argument.
#[derive(Drop)]
pub enum Argument {
    /// Nothing.
    Absent,
    /// A text in parentheses.
    Given(Text),
    /// Anything else: two arguments, one that isn't closed, or a `)` that closes nothing.
    Bad,
}

/// A word of an operand, with its argument.
#[derive(Drop)]
pub struct Word {
    /// The word itself.
    pub name: Text,
    /// What follows it.
    pub argument: Argument,
}

/// What is at the front of some pieces, up to the first word.
#[tactic(auto, unfolding(crate::specs::Words::argument_after))]
fn argument_after(alloc: Global, pieces: &[Token]) -> Result<Argument, AllocError>
    ensures { IfOk result (λ argument. argument ≡ argument_after pieces.now) }
{
    match pieces {
        [] | [Token::Word(_), ..] => Ok(Argument::Absent),
        [Token::Argument(text)] | [Token::Argument(text), Token::Word(_), ..] => {
            Ok(Argument::Given(Text::from_slice(alloc, text.as_slice())?))
        }
        _ => Ok(Argument::Bad),
    }
}

/// The words among some pieces.
fn words_in(alloc: Global, pieces: &[Token]) -> Result<Vec<Word>, AllocError>
    ensures { IfOk result (λ words. words.items ≡ words_in pieces.now) }
{
    let mut words = Vec::new(alloc);
    for (i, piece) in pieces.iter().enumerate() {
        if let Token::Word(name) = piece {
            words.push(Word {
                name: Text::from_slice(alloc, name.as_slice())?,
                argument: argument_after(alloc, &pieces[i + 1..])?,
            })?;
        }
    }
    Ok(words)
}

/// An empty word, where anything precedes the first.
fn nameless(alloc: Global, pieces: &[Token]) -> Result<Vec<Word>, AllocError>
    ensures { IfOk result (λ words. words.items ≡ nameless pieces.now) }
{
    let mut words = Vec::new(alloc);
    match pieces {
        [] | [Token::Word(_), ..] => {}
        _ => words.push(Word {
            name: Text::from_slice(alloc, b"")?,
            argument: Argument::Bad,
        })?,
    }
    Ok(words)
}

/// The words of an operand of EXEC, each with its argument.
///
/// An error comes only where an allocation failed.
#[tactic(auto, unfolding(crate::specs::Words::words_of))]
pub(crate) fn words_of(alloc: Global, operand: &[u8]) -> Result<Vec<Word>, AllocError>
    ensures { IfOk result (λ words. words.items ≡ words_of operand.now) }
{
    let pieces = pieces_of(alloc, operand)?;
    let mut words = nameless(alloc, pieces.as_slice())?;
    words.append(&mut words_in(alloc, pieces.as_slice())?)?;
    Ok(words)
}
