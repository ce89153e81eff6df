//! The statements made of one EXEC statement, and the lines that they become.

ghost use Rattle.std.specs.Prelude.{◌≡◌, ◌≢◌, ◌*◌, ◌++◌, ◌∷◌, [], IfErr, IfOk, None, OnOk, Some, codes, decimal, false, map, string_bytes};
ghost use Rattle.cx_base.specs.Commands.{row_of};
ghost use Rattle.cx_translate.specs.Call.{list_of, pointers_of};
ghost use Rattle.cx_translate.specs.Expansion.{call, fill_to_column, label, load, made_in, made_item, made_of, stmt, stores};
ghost use Rattle.cx_translate.specs.Refusals.{refusal_of, has_too_many};
ghost use Rattle.cx_translate.specs.declared.faults.TransFault.TheVariants.{Memory};
ghost use Rattle.cx_translate.specs.Words.{words_of};

use crate::call::{list_of, pointers_of};
use crate::faults::TransFault;
use crate::refusals::{command_in, fault_in};
use crate::words::{Word, words_of};
use cx_base::Command;
use cx_source::{Item, Stmt, Text, text_of};
use std::alloc::{AllocError, Global};
use std::fmt::Write;

/// The column before that of a made line's operation.
const NAME: usize = 9;

/// The column before that of a made line's operand.
const OPERATION: usize = 15;

/// A statement.
pub(crate) fn stmt(
    alloc: Global,
    name: &[u8],
    operation: &[u8],
    operand: &[u8],
) -> Result<Stmt, AllocError>
    ensures { IfOk result (λ made. made ≡ stmt name.now operation.now operand.now) }
{
    Ok(Stmt {
        name: Text::from_slice(alloc, name)?,
        operation: Text::from_slice(alloc, operation)?,
        operand: Text::from_slice(alloc, operand)?,
    })
}

/// Two texts one after the other.
fn joined(alloc: Global, first: &[u8], second: &[u8]) -> Result<Vec<u8>, AllocError>
    ensures { IfOk result (λ text. text.items ≡ first.now ++ second.now) }
{
    let mut text = Vec::from_slice(alloc, first)?;
    text.extend_from_slice(second)?;
    Ok(text)
}

/// A word of the argument list as an operand, with what is before and after it.
fn word_of_list(
    alloc: Global,
    before: &str,
    place: usize,
    after: &str,
) -> Result<String, AllocError>
    ensures { let word = codes "DFHEIPL+" ++ decimal (4 * place) in
        IfOk result (λ text. string_bytes text ≡ before.now ++ word ++ after.now) }
{
    let offset = 4 * place as u128;
    let mut text = String::from_str(alloc, before)?;
    write!(text, "DFHEIPL+{offset}")?;
    text.push_str(after)?;
    Ok(text)
}

/// Puts the statements that store an argument's address as a word of the list after others.
fn push_store(
    alloc: Global,
    made: &mut Vec<Stmt>,
    place: usize,
    argument: &[u8],
) -> Result<(), AllocError>
    ensures { OnOk result (made.new.items ≡ made.old.items ++ stores place (argument.now ∷ [])) }
{
    let address = joined(alloc, b"0,", argument)?;
    let word = word_of_list(alloc, "0,", place, "")?;
    made.push(stmt(alloc, b"", b"LA", address.as_slice())?)?;
    made.push(stmt(alloc, b"", b"ST", word.as_bytes())?)?;
    Ok(())
}

/// Puts the statements that store the addresses of all arguments after others.
fn push_stores(alloc: Global, made: &mut Vec<Stmt>, list: &[Text]) -> Result<(), AllocError>
    ensures { OnOk result (made.new.items ≡ made.old.items ++ stores 0 list.now) }
{
    for (place, argument) in list.iter().enumerate() {
        push_store(alloc, made, place, argument.as_slice())?;
    }
    Ok(())
}

/// The statements that call a command.
fn branch(alloc: Global) -> Result<Vec<Stmt>, AllocError>
    ensures { let address = stmt [] (codes "LA") (codes "1,DFHEIPL") in
        let entry = stmt [] (codes "L") (codes "15,=V(DFHEI1)") in
        IfOk result (λ made. made.items ≡ address ∷ entry ∷ stmt [] (codes "BALR") (codes "14,15") ∷ []) }
{
    let mut made = Vec::new(alloc);
    made.push(stmt(alloc, b"", b"LA", b"1,DFHEIPL")?)?;
    made.push(stmt(alloc, b"", b"L", b"15,=V(DFHEI1)")?)?;
    made.push(stmt(alloc, b"", b"BALR", b"14,15")?)?;
    Ok(made)
}

/// Puts the statements that mark a word of the list as the last, and call the command, after others.
fn push_call(alloc: Global, made: &mut Vec<Stmt>, last: usize) -> Result<(), AllocError>
    ensures { OnOk result (made.new.items ≡ made.old.items ++ call last) }
{
    let word = word_of_list(alloc, "", last, ",X'80'")?;
    made.push(stmt(alloc, b"", b"OI", word.as_bytes())?)?;
    made.append(&mut branch(alloc)?)?;
    Ok(())
}

/// Puts the statements that load pointers into registers after others.
fn push_loads(alloc: Global, made: &mut Vec<Stmt>, registers: &[Text]) -> Result<(), AllocError>
    ensures { OnOk result (made.new.items ≡ made.old.items ++ map load registers.now) }
{
    for register in registers {
        let operand = joined(alloc, register.as_slice(), b",DFHEITP")?;
        made.push(stmt(alloc, b"", b"L", operand.as_slice())?)?;
    }
    Ok(())
}

/// The statement that carries an EXEC statement's name, where it has one.
fn labels(alloc: Global, name: &[u8]) -> Result<Vec<Stmt>, AllocError>
    ensures { IfOk result (λ made. made.items ≡ label name.now) }
{
    let mut made = Vec::new(alloc);
    if !name.is_empty() {
        made.push(stmt(alloc, name, b"DS", b"0H")?)?;
    }
    Ok(made)
}

/// The statements of a command, of which these words are the options.
#[tactic(auto, unfolding(crate::specs::Expansion::made_in))]
fn made_in(
    alloc: Global,
    name: &[u8],
    command: Command,
    words: &[Word],
) -> Result<Vec<Stmt>, AllocError>
    requires { has_too_many command words.now ≡ false }
    ensures { IfOk result (λ made. made.items ≡ made_in name.now command words.now) }
{
    let list = list_of(alloc, command, words)?;
    let registers = pointers_of(alloc, command.options(), words)?;
    let mut made = labels(alloc, name)?;
    push_stores(alloc, &mut made, list.as_slice())?;
    push_call(alloc, &mut made, list.len().saturating_sub(1))?;
    push_loads(alloc, &mut made, registers.as_slice())?;
    Ok(made)
}

/// The statements made of the EXEC statement on a line.
///
/// Its fault is the first that applies. Memory comes only where an allocation failed.
#[tactic(auto, using(crate::proofs::RefusalLemmas::few_conditions), unfolding(crate::specs::Expansion::made_of, crate::specs::Refusals::refusal_of))]
pub(crate) fn statements_of(
    alloc: Global,
    line: usize,
    exec: &Stmt,
) -> Result<Vec<Stmt>, TransFault>
    ensures sound { OnOk result (refusal_of line (words_of exec.now.operand) ≡ None) }
    ensures made { IfOk result (λ made. made.items ≡ made_of exec.now.name (words_of exec.now.operand)) }
    ensures fault { IfErr result
        (λ fault. fault ≢ Memory → refusal_of line (words_of exec.now.operand) ≡ Some fault) }
{
    let words = words_of(alloc, exec.operand.as_slice())?;
    let Some((command, taken)) = command_in(words.as_slice()) else {
        return Err(TransFault::UnknownCommand(line));
    };
    let (cics, rest) = words.split_at(words.len().min(1));
    let (named, options) = rest.split_at(rest.len().min(taken));
    if let Some(fault) = fault_in(line, command, cics, named, options) {
        return Err(fault);
    }
    Ok(made_in(alloc, exec.name.as_slice(), command, options)?)
}

/// Fills a text with blanks up to a column.
fn fill(text: &mut Vec<u8>, columns: usize) -> Result<(), AllocError>
    ensures { OnOk result (text.new.items ≡ fill_to_column columns text.old.items) }
{
    while text.len() < columns {
        text.push(b' ')?;
    }
    Ok(())
}

/// A made line.
#[tactic(auto, unfolding(crate::specs::Expansion::made_item))]
pub(crate) fn made_item(alloc: Global, line: usize, stmt: Stmt) -> Result<Item, AllocError>
    ensures { IfOk result (λ item. item ≡ made_item line stmt) }
{
    let mut text = Vec::from_slice(alloc, stmt.name.as_slice())?;
    fill(&mut text, NAME)?;
    text.extend_from_slice(stmt.operation.as_slice())?;
    fill(&mut text, OPERATION)?;
    text.extend_from_slice(stmt.operand.as_slice())?;
    Ok(Item {
        line,
        text: Text::from_slice(alloc, text_of(text.as_slice()))?,
        stmt: Some(stmt),
    })
}
