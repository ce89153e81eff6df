//! The words that a program is started with, and which text they ask for, or which file they name.

ghost use Rattle.std.specs.Prelude.{◌≡◌, map, IfOk, IsErrOf, None, Some};
ghost use Rattle.std.specs.Option.{option_map};
ghost use Rattle.cx_script_main.specs.Words.{file_of, is_option_word, text_for, text_of};

use crate::program::{Refusal, Texts};
use clap::error::ErrorKind;
use clap::{Arg, ArgAction, Command};
use std::alloc::Global;
use std::convert::AsStr;

/// Whether a word is an option: a hyphen with more after it.
fn is_option_word(word: &str) -> bool
    ensures { result ≡ is_option_word word.now }
{
    match word.as_bytes() {
        [b'-', _, ..] => true,
        _ => false,
    }
}

/// The text that a word asks for.
fn text_for<'a>(word: &str, texts: Texts<'a>) -> Option<&'a str>
    ensures { option_map (λ it. it.now) result ≡ text_for word.now texts.entry }
{
    match word {
        "--help" | "-h" => Some(texts.help),
        "--version" | "-V" => Some(texts.version),
        _ => None,
    }
}

/// The text that the words ask for, where a program has such texts: the one word after its own name does.
pub(crate) fn text_in<'a, S: AsStr>(words: &[S], texts: Option<Texts<'a>>) -> Option<&'a str>
    ensures { option_map (λ it. it.now) result ≡ text_of texts.entry (map S.text words.now) }
{
    let texts = texts?;
    match words {
        [_, word] => text_for(word.as_str(), texts),
        _ => None,
    }
}

/// Has clap parse the words. Usage comes only where they are refused.
fn parse<'a, S: AsStr>(alloc: Global, words: &'a [S]) -> Result<(), Refusal>
    ensures { IsErrOf result Refusal.Usage → file_of (map S.text words.now) ≡ None }
{
    let file = Arg::new(alloc, "FILE").action(ArgAction::Set);
    let command = match Command::new(alloc, "script").arg(file) {
        Ok(command) => command,
        Err(_) => return Err(Refusal::Memory),
    };
    match command.try_get_matches_from(words) {
        Ok(_matches) => Ok(()),
        Err(error) if error.kind() == ErrorKind::OutOfMemory => Err(Refusal::Memory),
        Err(_) => Err(Refusal::Usage),
    }
}

/// The second of at most two words, which is no option.
fn second_of<S: AsStr>(words: &[S]) -> Result<Option<&str>, Refusal>
    ensures file { IfOk result (λ file. file_of (map S.text words.now) ≡ Some (option_map (λ it. it.now) file)) }
    ensures usage { IsErrOf result Refusal.Usage → file_of (map S.text words.now) ≡ None }
    ensures memory { IsErrOf result Refusal.Memory → file_of (map S.text words.now) ≡ None }
{
    match words {
        [] | [_] => Ok(None),
        [_, file] if !is_option_word(file.as_str()) => Ok(Some(file.as_str())),
        _ => Err(Refusal::Usage),
    }
}

/// The file that the words name, where they name one. Usage comes only where they are refused, and they are never taken
/// there.
pub(crate) fn file_in<'a, S: AsStr>(
    alloc: Global,
    words: &'a [S],
) -> Result<Option<&'a str>, Refusal>
    ensures file { IfOk result (λ file. file_of (map S.text words.now) ≡ Some (option_map (λ it. it.now) file)) }
    ensures usage { IsErrOf result Refusal.Usage → file_of (map S.text words.now) ≡ None }
{
    parse(alloc, words)?;
    second_of(words)
}
