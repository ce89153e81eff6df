//! Which EXEC statements are refused, and as what.

ghost use Rattle.std.specs.Prelude.{◌≡◌, ◌≤◌, bit_or, false, fold, if◌then◌else◌, not};
ghost use Rattle.std.specs.Option.{option_map_or};
ghost use Rattle.cx_base.specs.Commands.{row_of};
ghost use Rattle.cx_translate.specs.Refusals.{
  command_in,
  conditions_in,
  exceeds,
  fault_in,
  first_byte,
  has_argument,
  has_excluded,
  has_too_many,
  has_twice,
  has_unknown,
  has_wrong,
  is_given,
  second_byte,
  word_at,
};
ghost use Rattle.cx_base.specs.Legal.{has_bit};
ghost use Rattle.cx_base.specs.Options.{common_of, option_name};
ghost use Rattle.cx_translate.specs.DueArguments.{due_of, suits};

use crate::due_arguments::{DueArgument, condition_called, due_of, suits};
use crate::faults::TransFault;
use crate::words::Word;
use cx_base::{Command, CommandOption, CommonOption, Rule, has_bit};

/// How many conditions a command may list.
const CONDITIONS: usize = 16;

/// The word at a place, empty past the end.
fn word_at(words: &[Word], place: usize) -> &[u8]
    ensures { result.now ≡ word_at words.now place }
{
    match words.get(place) {
        Some(word) => word.name.as_slice(),
        None => &[],
    }
}

/// The command that words give after CICS, and how many words its name takes.
#[tactic(auto, unfolding(crate::specs::Refusals::command_in))]
pub(crate) fn command_in(words: &[Word]) -> Option<(Command, usize)>
    ensures { result ≡ command_in words.now }
{
    if word_at(words, 0) != b"CICS".as_slice() {
        return None;
    }
    Command::named(word_at(words, 1), word_at(words, 2))
}

/// Whether anything follows some word.
#[tactic(auto, unfolding(crate::specs::Refusals::has_argument))]
fn has_argument(words: &[Word]) -> bool
    ensures { result ≡ has_argument words.now }
{
    words
        .iter()
        .any(|word| !suits(DueArgument::Nothing, &word.argument))
}

/// Whether some word is of a name.
#[tactic(auto, unfolding(crate::specs::Refusals::is_given))]
pub(crate) fn is_given(words: &[Word], name: &[u8]) -> bool
    ensures { result ≡ is_given words.now name.now }
{
    words.iter().any(|word| word.name.as_slice() == name)
}

/// Whether some word is no option of the command, and no condition that it lists.
#[tactic(auto, unfolding(crate::specs::Refusals::has_unknown))]
fn has_unknown(command: Command, words: &[Word]) -> bool
    ensures { result ≡ has_unknown command words.now }
{
    words
        .iter()
        .any(|word| due_of(command, word.name.as_slice()).is_none())
}

/// Whether an argument other than is due follows a word.
fn is_wrong(command: Command, word: &Word) -> bool
    ensures { let due = due_of command word.now.name in
        result ≡ option_map_or (λ due. not (suits due word.now.argument)) due false }
{
    match due_of(command, word.name.as_slice()) {
        Some(due) => !suits(due, &word.argument),
        None => false,
    }
}

/// Whether an argument other than is due follows some word.
#[tactic(auto, unfolding(crate::specs::Refusals::has_wrong))]
fn has_wrong(command: Command, words: &[Word]) -> bool
    ensures { result ≡ has_wrong command words.now }
{
    words.iter().any(|word| is_wrong(command, word))
}

/// How many conditions words list.
#[tactic(auto, unfolding(crate::specs::Refusals::conditions_in))]
fn conditions_in(words: &[Word]) -> usize
    ensures { result ≡ conditions_in words.now }
{
    words
        .iter()
        .filter(|word| condition_called(word.name.as_slice()).is_some())
        .count()
}

/// Whether a command lists too many conditions.
#[tactic(auto, unfolding(crate::specs::Refusals::has_too_many))]
fn has_too_many(command: Command, words: &[Word]) -> bool
    ensures { result ≡ has_too_many command words.now }
{
    command.lists_conditions() && conditions_in(words) > CONDITIONS
}

/// Whether a word occurs twice.
fn has_twice(words: &[Word]) -> bool
    ensures { result ≡ has_twice words.now }
{
    for (i, word) in words.iter().enumerate() {
        if is_given(&words[i + 1..], word.name.as_slice()) {
            return true;
        }
    }
    false
}

/// The bits of those of some options that words give.
fn option_byte(options: &[CommandOption], words: &[Word]) -> u8
    ensures { result
        ≡ fold (λ byte o. if is_given words.now (option_name o.name) then bit_or byte o.bit else byte) 0 options.now }
{
    let mut byte = 0;
    for option in options {
        if is_given(words, option.name.name().as_bytes()) {
            byte |= option.bit;
        }
    }
    byte
}

/// Option byte 1 of the argument list's block: the bits of the options that words give, or the number of conditions.
#[tactic(auto, unfolding(crate::specs::Refusals::first_byte, crate::specs::Refusals::has_too_many))]
pub(crate) fn first_byte(command: Command, words: &[Word]) -> u8
    requires { has_too_many command words.now ≡ false }
    ensures { result ≡ first_byte command words.now }
{
    if command.lists_conditions() {
        return conditions_in(words) as u8;
    }
    option_byte(command.options(), words)
}

/// The bit of a common option, where words give it.
fn common_bit(option: CommonOption, words: &[Word]) -> u8
    ensures { result ≡ (if is_given words.now (common_of option).name then (common_of option).bit else 0) }
{
    if is_given(words, option.name().as_bytes()) {
        option.bit()
    } else {
        0
    }
}

/// Option byte 2 of the argument list's block.
#[tactic(auto, unfolding(crate::specs::Refusals::second_byte))]
pub(crate) fn second_byte(words: &[Word]) -> u8
    ensures { result ≡ second_byte words.now }
{
    common_bit(CommonOption::Nohandle, words) | common_bit(CommonOption::Resp, words)
}

/// Whether an option byte has more options than a rule allows.
fn exceeds(byte: u8, rule: Rule) -> bool
    ensures { result ≡ exceeds (has_bit byte) rule }
{
    let present = |bit: u8| has_bit(byte, bit);
    match rule {
        Rule::Together(_, _) | Rule::Needs(_, _) => false,
        Rule::NotBoth(a, b) | Rule::OneOfTwo(a, b) => present(a) && present(b),
        Rule::OneOfThree(a, b, c) => {
            present(a) && present(b) || present(a) && present(c) || present(b) && present(c)
        }
    }
}

/// Whether an option byte has more options than some rule allows.
#[tactic(auto, unfolding(crate::specs::Refusals::has_excluded))]
fn has_excluded(rules: &[Rule], byte: u8) -> bool
    ensures { result ≡ has_excluded rules.now byte }
{
    rules.iter().any(|rule| exceeds(byte, *rule))
}

/// The fault of the statement that a command's words make, if it has one.
#[tactic(auto, unfolding(crate::specs::Refusals::fault_in))]
pub(crate) fn fault_in(
    line: usize,
    command: Command,
    cics: &[Word],
    named: &[Word],
    words: &[Word],
) -> Option<TransFault>
    ensures { result ≡ fault_in line command cics.now named.now words.now }
{
    if has_unknown(command, words) {
        return Some(TransFault::UnknownOption(line));
    }
    if has_argument(cics) || has_argument(named) || has_wrong(command, words) {
        return Some(TransFault::BadArgument(line));
    }
    if has_too_many(command, words) {
        return Some(TransFault::TooManyConditions(line));
    }
    let first = first_byte(command, words);
    if has_twice(words) || has_excluded(command.rules(), first) {
        return Some(TransFault::Conflict(line));
    }
    if command.is_legal(first, second_byte(words)) {
        return None;
    }
    Some(TransFault::MissingOption(line))
}
