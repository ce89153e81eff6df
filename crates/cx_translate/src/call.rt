//! What an accepted EXEC statement hands over: the words of its argument list as operands.

ghost use Rattle.std.specs.Prelude.{◌≡◌, ◌∷◌, [], ◌++◌, IfOk, OnOk, codes, false, option_map, string_bytes};
ghost use Rattle.std.specs.List.{flat_map};
ghost use Rattle.std.specs.Option.{option_to_list, option_and};
ghost use Rattle.cx_base.specs.Options.{option_name};
ghost use Rattle.cx_base.specs.declared.legal.ListedCondition.{ListedCondition};
ghost use Rattle.cx_translate.specs.DueArguments.{condition_called};
ghost use Rattle.cx_translate.specs.Refusals.{has_too_many};
ghost use Rattle.cx_translate.specs.Call.{
  argument_of,
  block_bytes,
  block_literal,
  hex_pair,
  labels_of,
  list_of,
  listed_condition,
  listed_of,
  name_operand,
  operand_of,
  operands_of,
  pointer_by,
  pointers_of,
  text_in,
};

use crate::due_arguments::condition_called;
use crate::names::{bare_argument, is_quoted};
use crate::refusals::{first_byte, second_byte};
use crate::words::{Argument, Word};
use cx_base::{ArgumentKind, Command, CommandOption, CommonOption};
use cx_source::Text;
use std::alloc::{AllocError, Global};
use std::fmt::Write;

/// The text of an argument, where there is one.
fn text_in(argument: &Argument) -> Option<&[u8]>
    ensures { option_map (λ text. text.now) result ≡ text_in argument.now }
{
    match argument {
        Argument::Given(text) => Some(text.as_slice()),
        _ => None,
    }
}

/// The argument of the word of a name, where both are there.
fn argument_of<'a>(words: &'a [Word], name: &[u8]) -> Option<&'a [u8]>
    ensures { option_map (λ text. text.now) result ≡ argument_of words.now name.now }
{
    for word in words {
        if word.name.as_slice() == name {
            return text_in(&word.argument);
        }
    }
    None
}

/// A literal of a name in apostrophes, or the place of a name as it is written.
fn name_operand(alloc: Global, literal: &[u8], text: &[u8]) -> Result<Text, AllocError>
    ensures { IfOk result (λ operand. operand ≡ name_operand literal.now text.now) }
{
    if !is_quoted(text) {
        return Text::from_slice(alloc, text);
    }
    let mut operand = Vec::from_slice(alloc, literal)?;
    operand.extend_from_slice(bare_argument(text))?;
    Ok(Text::from_vec(operand))
}

/// What the argument of an option with this kind is in the list.
#[tactic(auto, unfolding(crate::specs::Call::operand_of))]
fn operand_of(alloc: Global, kind: ArgumentKind, text: &[u8]) -> Result<Text, AllocError>
    ensures { IfOk result (λ operand. operand ≡ operand_of kind text.now) }
{
    match kind {
        ArgumentKind::Pointer => Text::from_slice(alloc, b"DFHEITP"),
        ArgumentKind::Name4 => name_operand(alloc, b"=CL4", text),
        ArgumentKind::Name8 => name_operand(alloc, b"=CL8", text),
        _ => Text::from_slice(alloc, text),
    }
}

/// Puts the argument of an option after others, where it is given.
fn push_operand(
    alloc: Global,
    list: &mut Vec<Text>,
    option: CommandOption,
    words: &[Word],
) -> Result<(), AllocError>
    ensures { let operand = option_map (operand_of option.kind) (argument_of words.now (option_name option.name)) in
        OnOk result (list.new.items ≡ list.old.items ++ option_to_list operand) }
{
    if let Some(text) = argument_of(words, option.name.name().as_bytes()) {
        list.push(operand_of(alloc, option.kind, text)?)?;
    }
    Ok(())
}

/// Puts the arguments of those options that are given after others.
fn push_operands(
    alloc: Global,
    list: &mut Vec<Text>,
    options: &[CommandOption],
    words: &[Word],
) -> Result<(), AllocError>
    ensures { OnOk result (list.new.items ≡ list.old.items ++ operands_of options.now words.now) }
{
    for option in options {
        push_operand(alloc, list, *option, words)?;
    }
    Ok(())
}

/// Puts the label of a condition after others, where the word has one.
fn push_label(alloc: Global, list: &mut Vec<Text>, word: &Word) -> Result<(), AllocError>
    ensures { let label = option_and (condition_called word.now.name) (text_in word.now.argument) in
        OnOk result (list.new.items ≡ list.old.items ++ option_to_list label) }
{
    if condition_called(word.name.as_slice()).is_some() {
        if let Some(label) = text_in(&word.argument) {
            list.push(Text::from_slice(alloc, label)?)?;
        }
    }
    Ok(())
}

/// Puts the labels of the conditions listed after others.
fn push_labels(alloc: Global, list: &mut Vec<Text>, words: &[Word]) -> Result<(), AllocError>
    ensures { OnOk result (list.new.items ≡ list.old.items ++ labels_of words.now) }
{
    for word in words {
        push_label(alloc, list, word)?;
    }
    Ok(())
}

/// Puts RESP's argument after others, where it is given.
fn push_response(alloc: Global, list: &mut Vec<Text>, words: &[Word]) -> Result<(), AllocError>
    ensures { OnOk result (list.new.items ≡ list.old.items ++ option_to_list (argument_of words.now (codes "RESP"))) }
{
    if let Some(text) = argument_of(words, CommonOption::Resp.name().as_bytes()) {
        list.push(Text::from_slice(alloc, text)?)?;
    }
    Ok(())
}

/// Puts the two bytes of a condition listed after others.
fn push_listed(bytes: &mut Vec<u8>, word: &Word) -> Result<(), AllocError>
    ensures { let bytes_of = λ (condition : ListedCondition). condition.number ∷ condition.label ∷ [] in
        let found = option_map (λ condition. listed_condition condition word.now.argument)
        (condition_called word.now.name) in
        OnOk result (bytes.new.items ≡ bytes.old.items ++ flat_map bytes_of (option_to_list found)) }
{
    if let Some(condition) = condition_called(word.name.as_slice()) {
        bytes.push(condition.number())?;
        bytes.push(if text_in(&word.argument).is_some() {
            0x80
        } else {
            0
        })?;
    }
    Ok(())
}

/// Puts the bytes of the conditions listed after others.
fn push_all_listed(bytes: &mut Vec<u8>, words: &[Word]) -> Result<(), AllocError>
    ensures { let bytes_of = λ (condition : ListedCondition). condition.number ∷ condition.label ∷ [] in
        OnOk result (bytes.new.items ≡ bytes.old.items ++ flat_map bytes_of (listed_of words.now)) }
{
    for word in words {
        push_listed(bytes, word)?;
    }
    Ok(())
}

/// The bytes of the argument list's block.
#[tactic(auto, unfolding(crate::specs::Call::block_bytes))]
fn block_bytes(alloc: Global, command: Command, words: &[Word]) -> Result<Vec<u8>, AllocError>
    requires { has_too_many command words.now ≡ false }
    ensures { IfOk result (λ bytes. bytes.items ≡ block_bytes command words.now) }
{
    let function = command.function();
    let mut bytes = Vec::new(alloc);
    bytes.push((function / 256) as u8)?;
    bytes.push((function % 256) as u8)?;
    bytes.push(first_byte(command, words))?;
    bytes.push(second_byte(words))?;
    push_all_listed(&mut bytes, words)?;
    Ok(bytes)
}

/// Writes a byte as two hexadecimal digits at the end of a text.
#[tactic(auto, using(std::proofs::lemmas::Fmt::hex_byte))]
fn push_hex_byte(text: &mut String, byte: u8) -> Result<(), AllocError>
    ensures { OnOk result (string_bytes text.new ≡ string_bytes text.old ++ hex_pair byte) }
{
    write!(text, "{byte:02X}")
}

/// Writes bytes as hexadecimal digits at the end of a text.
fn push_hex(text: &mut String, bytes: &[u8]) -> Result<(), AllocError>
    ensures { OnOk result (string_bytes text.new ≡ string_bytes text.old ++ flat_map hex_pair bytes.now) }
{
    for byte in bytes {
        push_hex_byte(text, *byte)?;
    }
    Ok(())
}

/// The literal of the block.
fn block_literal(alloc: Global, bytes: &[u8]) -> Result<Text, AllocError>
    ensures { IfOk result (λ literal. literal ≡ block_literal bytes.now) }
{
    let mut text = String::from_str(alloc, "=X'")?;
    push_hex(&mut text, bytes)?;
    text.push_str("'")?;
    Ok(Text::from_vec(text.into_bytes()))
}

/// The words of a statement's argument list as operands: the block, the arguments of the options in the order of the
/// command's row, the labels in the order written, and RESP's last.
#[tactic(auto, unfolding(crate::specs::Call::list_of))]
pub(crate) fn list_of(
    alloc: Global,
    command: Command,
    words: &[Word],
) -> Result<Vec<Text>, AllocError>
    requires { has_too_many command words.now ≡ false }
    ensures { IfOk result (λ list. list.items ≡ list_of command words.now) }
{
    let bytes = block_bytes(alloc, command, words)?;
    let mut list = Vec::new(alloc);
    list.push(block_literal(alloc, bytes.as_slice())?)?;
    push_operands(alloc, &mut list, command.options(), words)?;
    push_labels(alloc, &mut list, words)?;
    push_response(alloc, &mut list, words)?;
    Ok(list)
}

/// Puts the register that an option's pointer is loaded into after others, where it is given.
fn push_pointer(
    alloc: Global,
    registers: &mut Vec<Text>,
    option: CommandOption,
    words: &[Word],
) -> Result<(), AllocError>
    ensures { let argument = argument_of words.now (option_name option.name) in
        OnOk result (registers.new.items ≡ registers.old.items ++ pointer_by option.kind argument) }
{
    if let ArgumentKind::Pointer = option.kind {
        if let Some(text) = argument_of(words, option.name.name().as_bytes()) {
            registers.push(Text::from_slice(alloc, text)?)?;
        }
    }
    Ok(())
}

/// The registers that the pointers of those options are loaded into that are given.
pub(crate) fn pointers_of(
    alloc: Global,
    options: &[CommandOption],
    words: &[Word],
) -> Result<Vec<Text>, AllocError>
    ensures { IfOk result (λ registers. registers.items ≡ pointers_of options.now words.now) }
{
    let mut registers = Vec::new(alloc);
    for option in options {
        push_pointer(alloc, &mut registers, *option, words)?;
    }
    Ok(registers)
}
