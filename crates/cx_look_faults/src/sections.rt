//! What stands outside the control section since a section may not be known.

ghost use Rattle.std.specs.Prelude.{◌≡◌, ◌++◌, ◌&&◌, ◌==◌, false, length, nat_lt, None, not, OnOk, option_map, reverse};
ghost use Rattle.std.specs.List.{find, list_any};
ghost use Rattle.std.specs.Option.{option_map_or};
ghost use Rattle.cx_asm_build.specs.declared.faults.SourceKind.TheVariants as sourcekind;
ghost use Rattle.cx_source.specs.declared.source.Item.{Item as ItemValue};
ghost use Rattle.cx_source.specs.declared.source.Stmt.{Stmt as StmtValue};
ghost use Rattle.cx_translate.specs.Sections.{begins_section};
ghost use Rattle.cx_look_faults.specs.Faults.{begins_any, is_due, is_late, is_outside, is_same, unknown_after, without_adrift};

use crate::bases::{begins_any, begins_section};
use crate::faults::FaultyLine;
use cx_asm_build::SourceKind;
use cx_source::Item;
use std::alloc::AllocError;

/// The last line before this one on which a section begins.
fn section_before(items: &[Item], number: usize) -> Option<&Item>
    ensures { option_map (λ item. item.now) result
        ≡ find (λ item. nat_lt item.line number && begins_any item) (reverse items.now) }
{
    items
        .iter()
        .rev()
        .find(|item| item.line < number && begins_any(item))
}

/// Whether after an unknown operation no section begins before a line, and before it none did or a dummy one.
fn is_outside(items: &[Item], unknown: usize, number: usize) -> bool
    ensures { result ≡ is_outside items.now unknown number }
{
    match section_before(items, number) {
        Some(item) => item.line < unknown && !begins_section(item),
        None => true,
    }
}

/// Whether a fault is BadOperand after an unknown operation outside the control section.
fn is_adrift(items: &[Item], unknown: Option<usize>, fault: FaultyLine) -> bool
    ensures { let is_adrift = option_map_or (λ line. is_outside items.now line fault.line) unknown false in
        result ≡ (is_same fault.kind sourcekind.BadOperand && is_adrift) }
{
    match (fault.kind, unknown) {
        (SourceKind::BadOperand, Some(line)) => is_outside(items, line, fault.line),
        _ => false,
    }
}

/// Whether the control section begins on a line, with a name.
fn begins_named(item: &Item) -> bool
    ensures { let is_named = option_map_or (λ (s : StmtValue). not (length s.name == 0)) item.now.stmt false in
        result ≡ (begins_section item.now && is_named) }
{
    match &item.stmt {
        Some(stmt) => begins_section(item) && !stmt.name.as_slice().is_empty(),
        None => false,
    }
}

/// Whether the control section begins before a line.
fn begins_before(items: &[Item], number: usize) -> bool
    ensures { result ≡ list_any (λ item. nat_lt item.line number && begins_section item) items.now }
{
    items
        .iter()
        .any(|item| item.line < number && begins_section(item))
}

/// Whether the control section begins on a line, with a name.
fn begins_on(items: &[Item], number: usize) -> bool
    ensures { let is_named = λ (item : ItemValue).
        option_map_or (λ (s : StmtValue). not (length s.name == 0)) item.stmt false in
        result ≡ list_any (λ item. item.line == number && begins_section item && is_named item) items.now }
{
    items
        .iter()
        .any(|item| item.line == number && begins_named(item))
}

/// Whether a fault is BadOperand of the first CSECT or START.
fn is_late(items: &[Item], fault: FaultyLine) -> bool
    ensures { result ≡ (is_same fault.kind sourcekind.BadOperand && is_late items.now fault.line) }
{
    match fault.kind {
        SourceKind::BadOperand => {
            begins_on(items, fault.line) && !begins_before(items, fault.line)
        }
        _ => false,
    }
}

/// Whether a fault is due to a line before, where there is one with a fault.
#[tactic(auto, unfolding(crate::specs::Faults::is_due))]
fn is_due(items: &[Item], met: bool, unknown: Option<usize>, fault: FaultyLine) -> bool
    ensures { result ≡ is_due items.now met unknown fault }
{
    is_adrift(items, unknown, fault) || (met && is_late(items, fault))
}

/// The line of an unknown operation after which there was no BadOperand, after one more fault.
fn unknown_after(before: Option<usize>, fault: FaultyLine) -> Option<usize>
    ensures { result ≡ unknown_after before fault }
{
    match fault.kind {
        SourceKind::UnknownOperation => Some(fault.line),
        SourceKind::BadOperand => None,
        _ => before,
    }
}

/// Puts lines at the end of others, without those whose fault is due to a line before.
pub(crate) fn push_unadrift(
    lines: &mut Vec<FaultyLine>,
    items: &[Item],
    more: &[FaultyLine],
) -> Result<(), AllocError>
    ensures { OnOk result (lines.new.items ≡ lines.old.items ++ without_adrift items.now false None more.now) }
{
    let mut met = false;
    let mut unknown = None;
    for fault in more {
        if !is_due(items, met, unknown, *fault) {
            lines.push(*fault)?;
        }
        met = true;
        unknown = unknown_after(unknown, *fault);
    }
    Ok(())
}
