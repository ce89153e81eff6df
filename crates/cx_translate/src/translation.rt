//! A source translated.

ghost use Rattle.std.specs.Prelude.{◌≡◌, ◌≢◌, ◌++◌, [], IfErr, IfOk, None, OnOk, Some, false, slice_get};
ghost use Rattle.std.specs.List.{list_any};
ghost use Rattle.std.specs.Option.{option_to_list};
ghost use Rattle.cx_translate.specs.declared.faults.TransFault.TheVariants.{Memory};
ghost use Rattle.cx_translate.specs.Sections.{begins_exec, with_bases, with_eib, with_storage};
ghost use Rattle.cx_translate.specs.Translation.{
  AnswersAs,
  continues_exec,
  expanded_items,
  expansion,
  fault_at,
  is_dropped,
  mended_expansion,
  mended_items,
  mended_source,
  stand_in,
  statement_faults,
  translation_of,
  translation_or_faults,
};

use crate::expansion::statements_of;
use crate::faults::TransFault;
use crate::sections::{begins_exec, lines, put_bases, put_eib, put_storage};
use cx_base::List;
use cx_source::{Item, Items, Source, Stmt, Text, is_continued};
use std::alloc::{AllocError, Global};

/// Whether a line continues an EXEC statement, where such a line is expected.
fn is_dropped(continues: bool, item: &Item) -> bool
    ensures { result ≡ is_dropped continues item.now }
{
    continues && item.stmt.is_none()
}

/// Whether the next line continues an EXEC statement.
#[tactic(auto, unfolding(crate::specs::Translation::continues_exec))]
fn continues_exec(continues: bool, item: &Item) -> bool
    ensures { result ≡ continues_exec continues item.now }
{
    let is_dropped = is_dropped(continues, item);
    (is_dropped || begins_exec(item)) && is_continued(is_dropped, item.text.as_slice())
}

/// What a line that begins or continues an EXEC statement, or any other, becomes.
#[tactic(auto, unfolding(crate::specs::Translation::expansion, crate::specs::Translation::fault_at))]
fn expansion(alloc: Global, continues: bool, item: &Item) -> Result<Vec<Item>, TransFault>
    ensures sound { OnOk result (fault_at item.now ≡ None) }
    ensures made { IfOk result (λ made. made.items ≡ expansion continues item.now) }
    ensures fault { IfErr result (λ fault. fault ≢ Memory → fault_at item.now ≡ Some fault) }
{
    let mut made = Vec::new(alloc);
    if is_dropped(continues, item) {
        return Ok(made);
    }
    if !begins_exec(item) {
        made.push(item.copied(alloc)?)?;
        return Ok(made);
    }
    let Some(exec) = &item.stmt else {
        return Ok(made);
    };
    let stmts = statements_of(alloc, item.line, exec)?;
    Ok(lines(alloc, item.line, stmts.as_slice())?)
}

/// The lines of a source with made lines in place of its EXEC statements.
fn expanded(alloc: Global, items: &[Item]) -> Result<Vec<Item>, TransFault>
    ensures sound { OnOk result (statement_faults items.now ≡ []) }
    ensures made { IfOk result (λ made. made.items ≡ expanded_items false items.now) }
    ensures fault { IfErr result
        (λ fault. fault ≢ Memory → slice_get (statement_faults items.now) 0 ≡ Some fault) }
{
    let mut made = Vec::new(alloc);
    let mut continues = false;
    for item in items {
        let mut lines = expansion(alloc, continues, item)?;
        made.append(&mut lines)?;
        continues = continues_exec(continues, item);
    }
    Ok(made)
}

/// The same lines, with texts of their own.
fn copied(alloc: Global, items: &[Item]) -> Result<Vec<Item>, AllocError>
    ensures { IfOk result (λ copy. copy.items ≡ items.now) }
{
    let mut copy = Vec::new(alloc);
    for item in items {
        copy.push(item.copied(alloc)?)?;
    }
    Ok(copy)
}

/// Whether a source has an EXEC statement.
fn has_exec(items: &[Item]) -> bool
    ensures { result ≡ list_any begins_exec items.now }
{
    items.iter().any(|item| begins_exec(item))
}

/// Puts what a translated source gets beside its sections into it.
fn put_sections(alloc: Global, items: &mut Vec<Item>) -> Result<(), AllocError>
    ensures { OnOk result (items.new.items ≡ with_eib (with_bases (with_storage items.old.items))) }
{
    put_storage(alloc, items)?;
    put_bases(alloc, items)?;
    put_eib(alloc, items)
}

/// A source with its EXEC CICS statements made into assembler statements.
///
/// In place of each EXEC statement, with its continuation lines, come the statements that build the command's argument
/// list and call it, with the number of its first line. The fields of DFHEISTG come after its first DSECT, or with one
/// before the control section; the bases after the control section's first CSECT or START; the EIB before END. A source
/// without EXEC stays as it is. Statements are those of the list's items, in order, whatever their lines say.
///
/// The fault is that of the first faulty EXEC statement, with the number of the line on which it begins. Memory comes
/// only where an allocation failed.
///
/// Application Programmer's Reference Manual, SC33-0077, "EXEC CICS" command format.
#[tactic(auto, using(crate::specs::Facts::AllFaults::no_exec_no_fault), unfolding(crate::specs::Translation::translation_of, crate::specs::Translation::made_source, crate::specs::Translation::translation))]
pub fn translate(alloc: Global, source: &Source) -> Result<Source, TransFault>
    ensures { AnswersAs (translation_of source.now) result }
{
    let items = source.items.as_slice();
    if !has_exec(items) {
        return Ok(Source {
            items: Items::from_vec(copied(alloc, items)?),
        });
    }
    let mut made = expanded(alloc, items)?;
    put_sections(alloc, &mut made)?;
    Ok(Source {
        items: Items::from_vec(made),
    })
}

/// What a line with an EXEC statement at fault becomes: DS 0H, with the statement's name.
fn stand_in(alloc: Global, item: &Item) -> Result<Vec<Item>, AllocError>
    ensures { IfOk result (λ made. made.items ≡ stand_in item.now) }
{
    let Some(exec) = &item.stmt else {
        return Ok(Vec::new(alloc));
    };
    let mut stmts = Vec::new(alloc);
    stmts.push(Stmt {
        name: Text::from_slice(alloc, exec.name.as_slice())?,
        operation: Text::from_slice(alloc, b"DS".as_slice())?,
        operand: Text::from_slice(alloc, b"0H".as_slice())?,
    })?;
    lines(alloc, item.line, stmts.as_slice())
}

/// Puts what a line becomes in spite of its fault at the end of made lines, and its fault at the end of others.
#[tactic(auto, unfolding(crate::specs::Translation::mended_expansion))]
fn expand(
    alloc: Global,
    continues: bool,
    item: &Item,
    made: &mut Vec<Item>,
    faults: &mut Vec<TransFault>,
) -> Result<(), AllocError>
    ensures faults { OnOk result (faults.new.items ≡ faults.old.items ++ option_to_list (fault_at item.now)) }
    ensures made { OnOk result (made.new.items ≡ made.old.items ++ mended_expansion continues item.now) }
{
    let mut lines = match expansion(alloc, continues, item) {
        Ok(lines) => lines,
        Err(TransFault::Memory) => return Err(AllocError),
        Err(fault) => {
            faults.push(fault)?;
            stand_in(alloc, item)?
        }
    };
    made.append(&mut lines)?;
    Ok(())
}

/// The lines of a source with made lines in place of its EXEC statements in spite of their faults, and these.
fn expand_all(
    alloc: Global,
    items: &[Item],
    faults: &mut Vec<TransFault>,
) -> Result<Vec<Item>, AllocError>
    requires { faults.old.items ≡ [] }
    ensures faults { OnOk result (faults.new.items ≡ statement_faults items.now) }
    ensures made { IfOk result (λ made. made.items ≡ mended_items false items.now) }
{
    let mut made = Vec::new(alloc);
    let mut continues = false;
    for item in items {
        expand(alloc, continues, item, &mut made, faults)?;
        continues = continues_exec(continues, item);
    }
    Ok(made)
}

/// A source with its EXEC CICS statements made into assembler statements, as by `translate`, but DS 0H in place of one
/// at fault, with its name; and the faults of all its EXEC statements, in order.
///
/// A statement has at most one, the first that applies, with the line on which it begins. An error comes only where an
/// allocation failed.
#[tactic(auto, using(crate::specs::Facts::AllFaults::no_exec_no_fault), unfolding(crate::specs::Translation::mended_source))]
pub fn translate_with_faults(
    alloc: Global,
    source: &Source,
) -> Result<(Source, List<TransFault>), AllocError>
    ensures source { IfOk result (λ both. both.0 ≡ mended_source source.now) }
    ensures faults { IfOk result (λ both. both.1 ≡ statement_faults source.now.items) }
{
    let items = source.items.as_slice();
    let mut faults = Vec::new(alloc);
    if !has_exec(items) {
        let copy = Source {
            items: Items::from_vec(copied(alloc, items)?),
        };
        return Ok((copy, List::from_vec(faults)));
    }
    let mut made = expand_all(alloc, items, &mut faults)?;
    put_sections(alloc, &mut made)?;
    let translated = Source {
        items: Items::from_vec(made),
    };
    Ok((translated, List::from_vec(faults)))
}

/// A source with its EXEC CICS statements made into assembler statements, as by `translate`, or the faults of all its
/// EXEC statements, as `translate_with_faults` has them.
///
/// An error comes only where an allocation failed.
#[tactic(auto, using(crate::specs::Facts::Mended::translation_whole), unfolding(crate::specs::Translation::translation_or_faults))]
pub fn translate_or_faults(
    alloc: Global,
    source: &Source,
) -> Result<Result<Source, List<TransFault>>, AllocError>
    ensures { IfOk result (λ answer. answer ≡ translation_or_faults source.now) }
{
    let (translated, faults) = translate_with_faults(alloc, source)?;
    if faults.as_slice().is_empty() {
        return Ok(Ok(translated));
    }
    Ok(Err(faults))
}
