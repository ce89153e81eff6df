//! The part of an EXEC statement that is at fault, and what it lacks.

ghost use Rattle.std.specs.Prelude.{◌≡◌, ◌++◌, ◌&&◌, IfOk, OnOk, [], length, not, option_map, slice_get, take};
ghost use Rattle.std.specs.Option.{option_map_or, option_zip};
ghost use Rattle.std.specs.List.{find};
ghost use Rattle.cx_base.specs.Legal.{has_bit, rule_holds};
ghost use Rattle.cx_base.specs.Options.{option_name};
ghost use Rattle.cx_look_faults.specs.Commands.{
  asked,
  command_in_words,
  given_byte,
  is_at_fault,
  marked,
  missing,
  missing_in,
  operand_has_word,
  phrases,
  word_at_fault,
  word_by,
  words_after,
  written_phrase,
};
ghost use Rattle.cx_look_faults.specs.Parts.Names.{name_among};
ghost use Rattle.cx_look_faults.specs.Spans.{span, span_text};

use crate::judging::has_exec_fault;
use crate::spans::{Cut, Span, span_text, spans_of};
use cx_asm_build::SourceKind;
use cx_base::{Command, CommandOption, Rule};
use cx_source::trim_blanks;
use std::alloc::{AllocError, Global};

/// Where a word of an EXEC statement is in its operand.
#[derive(Clone, Copy, Debug, PartialEq, Eq)]
pub struct Phrase {
    /// The word.
    pub word: Span,
    /// The word and what follows it, as far as the next word.
    pub full: Span,
}

/// The word at a place, empty past the end.
fn word_text_at<'a>(operand: &'a [u8], words: &[Span], place: usize) -> &'a [u8]
    ensures { result.now ≡ option_map_or (λ word. span_text word operand.now) (slice_get words.now place) [] }
{
    match words.get(place) {
        Some(word) => span_text(*word, operand),
        None => &[],
    }
}

/// The command that the words after CICS name, and how many words its name takes.
pub(crate) fn command_in_words(operand: &[u8], words: &[Span]) -> Option<(Command, usize)>
    ensures { result ≡ command_in_words operand.now words.now }
{
    if word_text_at(operand, words, 0) != b"CICS".as_slice() {
        return None;
    }
    Command::named(
        word_text_at(operand, words, 1),
        word_text_at(operand, words, 2),
    )
}

/// A word, and what follows it up to the next of the operand's.
fn full(operand: &[u8], word: Span, more: &[Span]) -> Span
    ensures { let end = option_map_or (λ next. next.start) (slice_get more.now 0) (length operand.now) in
        result ≡ span word.start end }
{
    let end = match more.first() {
        Some(next) => next.start,
        None => operand.len(),
    };
    Span {
        start: word.start,
        end,
    }
}

/// Words, each with what follows it.
pub(crate) fn phrases(
    alloc: Global,
    operand: &[u8],
    words: &[Span],
) -> Result<Vec<Phrase>, AllocError>
    ensures { IfOk result (λ found. found.items ≡ phrases operand.now words.now) }
{
    let mut phrases = Vec::new(alloc);
    for (i, word) in words.iter().enumerate() {
        let (_, more) = words.split_at(i + 1);
        phrases.push(Phrase {
            word: *word,
            full: full(operand, *word, more),
        })?;
    }
    Ok(phrases)
}

/// A word with what follows it, without the blanks at its end.
pub(crate) fn written_phrase(operand: &[u8], phrase: Phrase) -> Span
    ensures { result ≡ written_phrase operand.now phrase }
{
    let (front, _) = operand.split_at(operand.len().min(phrase.full.end));
    Span {
        start: phrase.full.start,
        end: trim_blanks(front).len(),
    }
}

/// The part that is shown of a word at fault.
fn marked(kind: SourceKind, operand: &[u8], phrase: Phrase) -> Span
    ensures { result ≡ marked kind operand.now phrase }
{
    if kind == SourceKind::BadArgument {
        written_phrase(operand, phrase)
    } else {
        phrase.word
    }
}

/// What there is of an operand before a place.
fn before(operand: &[u8], end: usize) -> &[u8]
    ensures { result.now ≡ take end operand.now }
{
    let (front, _) = operand.split_at(operand.len().min(end));
    front
}

/// Whether a statement has a fault up to a word with what follows it.
fn is_at_fault(
    alloc: Global,
    kind: SourceKind,
    operand: &[u8],
    phrase: Phrase,
) -> Result<bool, AllocError>
    ensures { IfOk result (λ is. is ≡ is_at_fault kind operand.now phrase) }
{
    has_exec_fault(alloc, kind, before(operand, phrase.full.end))
}

/// The first of some words up to which a statement has a fault.
fn first_at_fault(
    alloc: Global,
    kind: SourceKind,
    operand: &[u8],
    phrases: &[Phrase],
) -> Result<Option<Phrase>, AllocError>
    ensures { IfOk result (λ found. found ≡ find (is_at_fault kind operand.now) phrases.now) }
{
    for phrase in phrases {
        if is_at_fault(alloc, kind, operand, *phrase)? {
            return Ok(Some(*phrase));
        }
    }
    Ok(None)
}

/// The words after the one at a place.
pub(crate) fn words_after(words: &[Span], place: usize) -> &[Span]
    ensures { result.now ≡ words_after words.now place }
{
    let (_, from) = words.split_at(words.len().min(place));
    let (_, more) = from.split_at(from.len().min(1));
    more
}

/// What there is of an operand up to the first of some words.
fn head_before<'a>(operand: &'a [u8], more: &[Span]) -> &'a [u8]
    ensures { let end = option_map_or (λ next. next.start) (slice_get more.now 0) (length operand.now) in
        result.now ≡ take end operand.now }
{
    match more.first() {
        Some(next) => before(operand, next.start),
        None => before(operand, operand.len()),
    }
}

/// A word of some.
fn word_of(words: &[Span], place: usize) -> Option<Span>
    ensures { result ≡ slice_get words.now place }
{
    words.get(place).copied()
}

/// The words of a command's name, of which this is the last one's place.
fn name_part(words: &[Span], last: usize) -> Option<Span>
    ensures { let both = option_zip (slice_get words.now 1) (slice_get words.now last) in
        result ≡ option_map (λ both. span both.0.start both.1.end) both }
{
    let first = words.get(1)?;
    let last = words.get(last)?;
    Some(Span {
        start: first.start,
        end: last.end,
    })
}

/// The word at fault of those of a command, whose name ends with the one at a place.
fn word_by(
    alloc: Global,
    kind: SourceKind,
    operand: &[u8],
    words: &[Span],
    last: usize,
) -> Result<Option<Span>, AllocError>
    ensures { IfOk result (λ found. found ≡ word_by kind operand.now words.now last) }
{
    let more = words_after(words, last);
    if has_exec_fault(alloc, kind, head_before(operand, more))? {
        return Ok(name_part(words, last));
    }
    let phrases = phrases(alloc, operand, more)?;
    match first_at_fault(alloc, kind, operand, &phrases)? {
        Some(phrase) => Ok(Some(marked(kind, operand, phrase))),
        None => Ok(None),
    }
}

/// The word of an EXEC statement's operand by which it has a fault of a kind.
#[tactic(auto, unfolding(crate::specs::Commands::word_at_fault))]
pub(crate) fn word_at_fault(
    alloc: Global,
    kind: SourceKind,
    operand: &[u8],
) -> Result<Option<Span>, AllocError>
    ensures { IfOk result (λ found. found ≡ word_at_fault kind operand.now) }
{
    let words = spans_of(alloc, Cut::Words, operand)?;
    if let Some((_, last)) = command_in_words(operand, &words) {
        return word_by(alloc, kind, operand, &words, last);
    }
    match word_of(&words, 1) {
        Some(word) => Ok(Some(word)),
        None => Ok(word_of(&words, 0)),
    }
}

/// Whether a name is one of some words.
pub(crate) fn operand_has_word(operand: &[u8], words: &[Span], name: &[u8]) -> bool
    ensures { result ≡ operand_has_word operand.now words.now name.now }
{
    words.iter().any(|word| span_text(*word, operand) == name)
}

/// The bits of those of some options whose names are among some words.
fn given_byte(options: &[CommandOption], operand: &[u8], words: &[Span]) -> u8
    ensures { result ≡ given_byte (operand_has_word operand.now words.now) options.now }
{
    let mut byte = 0;
    for option in options {
        if operand_has_word(operand, words, option.name.name().as_bytes()) {
            byte |= option.bit;
        }
    }
    byte
}

/// Adds a name to others, after OR if it isn't the first.
fn push_name(text: &mut Vec<u8>, is_first: bool, name: &[u8]) -> Result<(), AllocError>
    ensures { OnOk result (text.new.items ≡ text.old.items ++ name_among is_first name.now) }
{
    if !is_first {
        text.extend_from_slice(b" OR ")?;
    }
    text.extend_from_slice(name)?;
    Ok(())
}

/// What a rule asks for that doesn't hold of an option byte.
fn asked(
    alloc: Global,
    options: &[CommandOption],
    byte: u8,
    rule: Rule,
) -> Result<Vec<u8>, AllocError>
    ensures { IfOk result (λ text. text.items ≡ asked options.now byte rule) }
{
    let mut text = Vec::new(alloc);
    let mut is_first = true;
    for option in options {
        if rule.holds(byte | option.bit) {
            push_name(&mut text, is_first, option.name.name().as_bytes())?;
            is_first = false;
        }
    }
    Ok(text)
}

/// The first of some rules that doesn't hold of an option byte.
fn first_broken(rules: &[Rule], byte: u8) -> Option<&Rule>
    ensures { option_map (λ rule. rule.now) result
        ≡ find (λ rule. not (rule_holds (has_bit byte) rule)) rules.now }
{
    rules.iter().find(|rule| !rule.holds(byte))
}

/// The first required option that isn't given.
fn first_required<'a>(
    options: &'a [CommandOption],
    operand: &[u8],
    words: &[Span],
) -> Option<&'a CommandOption>
    ensures { let is = operand_has_word operand.now words.now in
        option_map (λ option. option.now) result
        ≡ find (λ o. o.required && not (is (option_name o.name))) options.now }
{
    options.iter().find(|option| {
        option.required && !operand_has_word(operand, words, option.name.name().as_bytes())
    })
}

/// What a command lacks, of which these words are given.
fn missing_in(
    alloc: Global,
    command: Command,
    operand: &[u8],
    words: &[Span],
) -> Result<Vec<u8>, AllocError>
    ensures { let gives = operand_has_word operand.now words.now in
        IfOk result (λ text. text.items ≡ missing_in command gives) }
{
    if command.lists_conditions() {
        return b"CONDITION".to_vec(alloc);
    }
    let options = command.options();
    if let Some(option) = first_required(options, operand, words) {
        return option.name.name().as_bytes().to_vec(alloc);
    }
    let byte = given_byte(options, operand, words);
    match first_broken(command.rules(), byte) {
        Some(rule) => asked(alloc, options, byte, *rule),
        None => Ok(Vec::new(alloc)),
    }
}

/// The names of what an EXEC statement of this operand lacks: CONDITION where the command lists conditions; else of the
/// first required option that isn't there, or of those that the first rule asks for. Empty where there is no command.
#[tactic(auto, unfolding(crate::specs::Commands::missing))]
pub(crate) fn missing(alloc: Global, operand: &[u8]) -> Result<Vec<u8>, AllocError>
    ensures { IfOk result (λ text. text.items ≡ missing operand.now) }
{
    let words = spans_of(alloc, Cut::Words, operand)?;
    match command_in_words(operand, &words) {
        Some((command, last)) => { missing_in(alloc, command, operand, words_after(&words, last)) }
        None => Ok(Vec::new(alloc)),
    }
}
