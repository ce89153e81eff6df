//! CHOICES: which lines its block may have, and what they ask.
ghost use Rattle.std.specs.Prelude.{◌≡◌, ◌≤◌, ◌<◌, ◌∷◌, ◌++◌, [], IfOk, IfSome, OnErr, OnOk, codes, false, is_some, length, nat_le, slice_index_or, true, if◌then◌else◌, option_and_then};
ghost use Rattle.std.specs.List.{AllByRecursion, find, flat_map, list_all};
ghost use Rattle.std.specs.Option.{option_copied};
ghost use Rattle.std.specs.Str.{bytes_eq};
ghost use Rattle.cx_ebcdic.specs.Aids.{key_of};
ghost use Rattle.cx_ebcdic.specs.Characters.{code_of};
ghost use Rattle.cx_script_actions.specs.Actions.{aid_of, is_blank_or_comment, line_asked_for};
ghost use Rattle.cx_script_actions.specs.Words.{codes_of_key};
ghost use Rattle.cx_look.specs.Choices.{asks_keys, choice_of, choices_asked, choices_block, choices_have_room, choices_with, choices_with_keys, lines_meant};
ghost use Rattle.cx_look.specs.Parts.{choices_in};
ghost use Rattle.cx_look.specs.Looks.{at_most};
ghost use Rattle.cx_look.specs.Orders.{is_key, sight_of};
ghost use Rattle.cx_script_actions.specs.Words.{number_with_digits};
ghost use Rattle.cx_look.specs.Orders.{is_key, key_line_of};
ghost use Rattle.cx_look.specs.Parts.{IsPut, few};
ghost use Rattle.cx_orders.specs.Moves.{IsFew};

use crate::orders::{
    Sight, block_has_room, is_blank_or_comment, is_key, key_line_of, sight_of, sights_of,
    states_and,
};
use crate::sets::{MOST_IN_LINE, MOST_TEXTS, count_of, plus, put, put_text};
use arrayvec::ArrayVec;
use cx_base::List;
use cx_ebcdic::{Aid, to_ebcdic};
use cx_orders::KeyLine;
use cx_script_actions::{name4, number, split_word};
use cx_source::Text;
use std::alloc::{AllocError, Global};

/// The most keys of a list.
const MOST_IN_LIST: u32 = 64;

/// The most characters of a key's text.
const MOST_IN_KEY: usize = 1_920;

/// What CHOICES says of its search.
#[derive(Clone, Copy)]
pub struct ChoicesAsked {
    /// How many keys are pressed, at most: 1 to 64 as a line asks it.
    pub keys: u32,
    /// How many states are kept, at most: 1 to 1,000,000 as a line asks it.
    pub most: u32,
    /// Whether states that differ in the task counter alone are one.
    pub one_number: bool,
}

/// What a block of CHOICES asks: a search of all lists of keys.
#[derive(Drop)]
pub struct ChoicesBlock {
    /// What its first line asks.
    pub asked: ChoicesAsked,
    /// The keys that can be pressed, any number of times and in any order, each of at most 1,920 bytes.
    pub choices: List<KeyLine>,
    /// What is to be seen of a state; each terminal's screen where there is none.
    pub sights: List<Sight>,
}

/// The most keys of a list that a word says: 1 to 64.
#[tactic(auto, using(std::proofs::lemmas::Bool::Decides::nat_tests))]
fn keys_asked(word: &[u8]) -> Option<u32>
    ensures { result ≡ option_and_then (at_most 64) (number_with_digits 1 2 word.now) }
{
    let n = number(word, 1, 2)?;
    if n < 1 || n > MOST_IN_LIST {
        return None;
    }
    Some(n)
}

/// What CHOICES asks of its search, by the most keys of a list and what follows their number.
fn choices_with_keys(keys: u32, rest: Option<&[u8]>) -> Option<ChoicesAsked>
    ensures { result ≡ choices_with_keys keys (option_copied rest.entry) }
{
    let (most, one_number) = states_and(rest, b"ONE NUMBER")?;
    Some(ChoicesAsked {
        keys,
        most,
        one_number,
    })
}

/// What CHOICES asks of its search, by what follows it: the most keys of a list, 1 to 64; a number of states from 1 to
/// 1,000,000, 10,000 where there is none; and then ONE NUMBER or nothing. None where anything else follows. It takes no
/// memory.
pub fn choices_asked(rest: Option<&[u8]>) -> Option<ChoicesAsked>
    ensures { result ≡ choices_asked (option_copied rest.entry) }
{
    let Some(text) = rest else {
        return None;
    };
    let (word, more) = split_word(text);
    let keys = keys_asked(word)?;
    choices_with_keys(keys, more)
}

/// How many lines a line of the block stands for: at most 10,000.
#[tactic(auto, unfolding(crate::specs::Choices::lines_meant))]
fn count_meant(text: &[u8]) -> usize
    ensures value { result ≡ length (lines_meant text.now) }
    ensures most { result ≤ 10000 }
{
    if !is_key(text) {
        return 0;
    }
    let (_word, rest) = split_word(text);
    match rest {
        Some(rest) => count_of(rest),
        None => 0,
    }
}

/// Puts one of the lines that a line of the block stands for, by its number from 0, where it has at most 4,096 bytes.
fn put_meant(line: &mut ArrayVec<u8, MOST_IN_LINE>, text: &[u8], number: usize) -> bool
    requires empty { line.old.items ≡ [] }
    requires number { number < length (lines_meant text.now) }
    ensures { IsPut [] (slice_index_or (lines_meant text.now) number []) result line.new.items }
{
    let (_word, rest) = split_word(text);
    let Some(rest) = rest else {
        return false;
    };
    if !put(line, b"KEY ") {
        return false;
    }
    put_text(line, rest, number)
}

/// The first of some keys that has a name.
fn aid_in(aids: &[Aid], name: &[u8]) -> Option<Aid>
    ensures { result ≡ find (λ aid. bytes_eq (key_of aid).name name.now) aids.now }
{
    aids.iter()
        .copied()
        .find(|aid| aid.name().as_bytes() == name)
}

/// Whether a key has this name.
#[tactic(auto, unfolding(cx_script_actions::specs::Actions::aid_of))]
fn is_aid(name: &[u8]) -> bool
    ensures { result ≡ is_some (aid_of name.now) }
{
    aid_in(&Aid::ALL, name).is_some()
}

/// Whether each of these characters has a code.
fn have_codes(text: &[u8]) -> bool
    ensures { result ≡ list_all (λ c. is_some (code_of c)) text.now }
{
    text.iter().all(|c| to_ebcdic(char::from(*c)).is_some())
}

/// Whether this can be a key's text.
#[tactic(auto, unfolding(cx_script_actions::specs::Words::codes_of_key))]
fn is_text_of_key(text: &[u8]) -> bool
    ensures { result ≡ is_some (codes_of_key text.now) }
{
    text.len() <= MOST_IN_KEY && have_codes(text)
}

/// Whether a line asks for a key, by what follows KEY.
#[tactic(auto, unfolding(cx_script_actions::specs::Actions::line_asked_for))]
fn is_key_asked_by(text: &[u8]) -> bool
    ensures { result ≡ is_some (line_asked_for (codes "KEY") text.now) }
{
    let (word, rest) = split_word(text);
    let (Some(_name), Some(rest)) = (name4(word), rest) else {
        return false;
    };
    let (word, rest) = split_word(rest);
    is_aid(word) && is_text_of_key(rest.unwrap_or(b""))
}

/// Whether a line that begins with KEY asks for a key.
fn asks_key(text: &[u8]) -> bool
    requires more { is_blank_or_comment text.now ≡ false }
    requires key { is_key text.now ≡ true }
    ensures { result ≡ is_some (key_line_of text.now) }
{
    let (_word, rest) = split_word(text);
    match rest {
        Some(rest) => is_key_asked_by(rest),
        None => false,
    }
}

/// Whether one of the lines that a line of the block stands for asks for a key, by its number from 0.
fn is_choice(text: &[u8], number: usize) -> bool
    requires { number < length (lines_meant text.now) }
    ensures { result ≡ is_some (choice_of (slice_index_or (lines_meant text.now) number [])) }
{
    let mut line = ArrayVec::new();
    if !put_meant(&mut line, text, number) {
        return false;
    }
    asks_key(line.as_slice())
}

/// Whether each line that a KEY line stands for asks for a key, and there is one.
#[tactic(auto, unfolding(crate::specs::Choices::asks_keys))]
fn asks_keys(text: &[u8]) -> bool
    ensures { result ≡ asks_keys text.now }
{
    let count = count_meant(text);
    for number in 0..count {
        if !is_choice(text, number) {
            return false;
        }
    }
    count > 0
}

/// Whether a line, which is neither empty nor a comment, may stand in the block where this has room.
fn is_choices_line(text: &[u8]) -> bool
    ensures { result ≡ (if is_key text.now then asks_keys text.now else is_some (sight_of text.now)) }
{
    if is_key(text) {
        asks_keys(text)
    } else {
        sight_of(text).is_some()
    }
}

/// How many lines these lines stand for, counted up to 10,001.
fn count_among(lines: &[Text]) -> usize
    ensures { result ≡ few (length (flat_map lines_meant lines.now)) }
{
    lines
        .iter()
        .fold(0, |count, line| plus(count, count_meant(line.as_slice())))
}

/// Whether these lines and one more stand for at most 10,000 lines.
fn are_few(lines: &[Text], text: &[u8]) -> bool
    ensures { result ≡ nat_le (length (flat_map lines_meant (lines.now ++ text.now ∷ []))) 10000 }
{
    plus(count_among(lines), count_meant(text)) <= MOST_TEXTS
}

/// Whether the block has room for one more line of this sort.
fn choices_have_room(lines: &[Text], text: &[u8]) -> bool
    ensures { result ≡ choices_have_room lines.now text.now }
{
    block_has_room(lines, text) && are_few(lines, text)
}

/// The lines of a block of CHOICES with one more; None where the block may not have it: the line isn't one of such a
/// block; the block has 256 KEY lines, or 64 others, already; or its KEY lines would stand for more than 10,000 keys.
/// Empty lines and comments aren't kept.
///
/// An error comes only where an allocation failed, and never for a line that the block may not have.
#[tactic(auto, unfolding(crate::specs::Choices::choices_with))]
pub fn choices_with(
    alloc: Global,
    lines: List<Text>,
    text: &[u8],
) -> Result<Option<List<Text>>, AllocError>
    ensures value { IfOk result (λ more. more ≡ choices_with lines text.now) }
    ensures memory { OnErr result (is_some (choices_with lines text.now) ≡ true) }
{
    if is_blank_or_comment(text) {
        return Ok(Some(lines));
    }
    if !choices_have_room(lines.as_slice(), text) || !is_choices_line(text) {
        return Ok(None);
    }
    let mut lines = lines.into_vec();
    lines.push(Text::from_slice(alloc, text)?)?;
    Ok(Some(List::from_vec(lines)))
}

/// The key that one of the lines asks which a line of the block stands for, by its number from 0.
///
/// An error comes only where an allocation failed.
fn choice_of(alloc: Global, text: &[u8], number: usize) -> Result<Option<KeyLine>, AllocError>
    requires { number < length (lines_meant text.now) }
    ensures value { IfOk result (λ key. key ≡ choice_of (slice_index_or (lines_meant text.now) number [])) }
    ensures keys_in_range { IfOk result (λ key. IfSome key IsFew) }
{
    let mut line = ArrayVec::new();
    if !put_meant(&mut line, text, number) {
        return Ok(None);
    }
    key_line_of(alloc, line.as_slice())
}

/// Adds the keys that a line of the block asks, in their order.
///
/// An error comes only where an allocation failed.
fn add_choices(alloc: Global, keys: &mut Vec<KeyLine>, text: &[u8]) -> Result<(), AllocError>
    requires { AllByRecursion IsFew keys.old.items }
    ensures value { OnOk result (keys.new.items ≡ keys.old.items ++ choices_in text.now) }
    ensures keys_in_range { OnOk result (AllByRecursion IsFew keys.new.items) }
{
    for number in 0..count_meant(text) {
        if let Some(key) = choice_of(alloc, text, number)? {
            keys.push(key)?;
        }
    }
    Ok(())
}

/// The keys that lines of the block ask, in their order.
///
/// An error comes only where an allocation failed.
fn choices_of(alloc: Global, lines: &[Text]) -> Result<List<KeyLine>, AllocError>
    ensures value { IfOk result (λ keys. keys ≡ flat_map choices_in lines.now) }
    ensures keys_in_range { IfOk result (λ keys. AllByRecursion IsFew keys) }
{
    let mut keys = Vec::new(alloc);
    for line in lines {
        add_choices(alloc, &mut keys, line.as_slice())?;
    }
    Ok(List::from_vec(keys))
}

/// What a block of CHOICES asks, by what its first line asks and its other lines.
///
/// An error comes only where an allocation failed.
#[tactic(auto, unfolding(crate::specs::Choices::choices_block))]
pub fn choices_block(
    alloc: Global,
    asked: ChoicesAsked,
    lines: &[Text],
) -> Result<ChoicesBlock, AllocError>
    ensures value { IfOk result (λ block. block ≡ choices_block asked lines.now) }
    ensures keys_in_range { IfOk result (λ block. AllByRecursion IsFew block.choices) }
{
    let choices = choices_of(alloc, lines)?;
    let sights = sights_of(alloc, lines)?;
    Ok(ChoicesBlock {
        asked,
        choices,
        sights,
    })
}
