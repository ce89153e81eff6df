//! The faulty lines of a source.

ghost use Rattle.std.specs.Prelude.{◌≡◌, ◌==◌, ◌++◌, ◌&&◌, [], IfOk, OnOk, filter, fold, map, None, not};
ghost use Rattle.std.specs.List.{list_any};
ghost use Rattle.std.specs.Option.{option_to_list};
ghost use Rattle.cx_asm.specs.Assembly.{later_faults};
ghost use Rattle.cx_asm_pass1.specs.Locations.{IsPlaced, final_state};
ghost use Rattle.cx_asm_pass2.specs.Statements.{statements_of};
ghost use Rattle.cx_asm_pass2.specs.Whole.{whole_by};
ghost use Rattle.cx_look_faults.specs.Beside.{faults_beside};
ghost use Rattle.cx_asm_build.specs.Kinds.{of_source, of_translation};
ghost use Rattle.cx_asm_build.specs.declared.faults.SourceKind.TheVariants as sourcekind;
ghost use Rattle.cx_source.specs.declared.source.Item.{Item as ItemValue};
ghost use Rattle.cx_look_faults.specs.Faults.{
  continuations,
  faulty,
  faulty_line,
  faulty_lines,
  follows,
  instead,
  is_same,
  is_shown,
  kind_at,
  kinds_beside,
  kinds_of,
  lost_from,
  of_pass,
  put_line,
  stage_lines,
  without_following,
};

use crate::bases::BaseLines;
use crate::beside::faults_beside;
use crate::positions::continuations;
use crate::sections::push_unadrift;
use cx_asm::{fault_at, pass_faults};
use cx_asm_build::{PrepareFault, SourceKind};
use cx_asm_pass1::{LineFault, Places};
use cx_asm_pass2::Statement;
use cx_source::{Item, Source, SourceFault};
use cx_translate::TransFault;
use std::alloc::{AllocError, Global};
use std::collections::BTreeMap;

/// A line that is faulty, and its fault.
#[derive(Clone, Copy, Debug, PartialEq, Eq)]
pub struct FaultyLine {
    /// The line's number in the source, counted from 1; of NoEnd it is the one after the last.
    pub line: usize,
    /// The one fault of it that is reported.
    pub kind: SourceKind,
}

/// The faults of lines, by the lines' numbers.
pub(crate) type Kinds = BTreeMap<usize, SourceKind>;

/// Puts the line of a fault at the end of others, if it is of one.
fn push_line(lines: &mut Vec<FaultyLine>, fault: PrepareFault) -> Result<(), AllocError>
    ensures { OnOk result (lines.new.items ≡ lines.old.items ++ option_to_list (faulty_line fault)) }
{
    if let PrepareFault::At(line, kind) = fault {
        lines.push(FaultyLine { line, kind })?;
    }
    Ok(())
}

/// Puts the lines at the end of others that can't be read.
fn push_unread(lines: &mut Vec<FaultyLine>, faults: &[SourceFault]) -> Result<(), AllocError>
    ensures { OnOk result (lines.new.items ≡ lines.old.items ++ faulty_lines of_source faults.now) }
{
    for fault in faults {
        push_line(lines, PrepareFault::from(*fault))?;
    }
    Ok(())
}

/// Puts the lines at the end of others on which EXEC statements at fault begin.
fn push_untranslated(lines: &mut Vec<FaultyLine>, faults: &[TransFault]) -> Result<(), AllocError>
    ensures { OnOk result (lines.new.items ≡ lines.old.items ++ faulty_lines of_translation faults.now) }
{
    for fault in faults {
        push_line(lines, PrepareFault::from(*fault))?;
    }
    Ok(())
}

/// Puts the lines at the end of others that a pass of the assembler finds at fault.
fn push_unassembled(lines: &mut Vec<FaultyLine>, faults: &[LineFault]) -> Result<(), AllocError>
    ensures { OnOk result (lines.new.items ≡ lines.old.items ++ faulty_lines of_pass faults.now) }
{
    for fault in faults {
        push_line(lines, PrepareFault::from(fault_at(*fault)))?;
    }
    Ok(())
}

/// Whether a fault is NoAddressability after the line from which bases are lost.
#[tactic(auto, unfolding(crate::specs::Faults::follows))]
fn follows(from: Option<usize>, fault: FaultyLine) -> bool
    ensures { result ≡ follows from fault }
{
    match (fault.kind, from) {
        (SourceKind::NoAddressability, Some(lost)) => lost < fault.line,
        _ => false,
    }
}

/// The first line by whose fault bases are lost, after some more.
fn lost_after(bases: &BaseLines, first: Option<usize>, lines: &[FaultyLine]) -> Option<usize>
    ensures { result ≡ fold (lost_from bases.now.has_section bases.now.lines.items) first lines.now }
{
    let mut from = first;
    for fault in lines {
        from = bases.lost_from(from, *fault);
    }
    from
}

/// Puts a line at the end of others with what else is wrong with it, if anything is.
fn push_instead(
    lines: &mut Vec<FaultyLine>,
    fault: FaultyLine,
    beside: Option<SourceKind>,
) -> Result<(), AllocError>
    ensures { OnOk result (lines.new.items ≡ lines.old.items ++ instead fault beside) }
{
    if let Some(kind) = beside {
        lines.push(FaultyLine {
            line: fault.line,
            kind,
        })?;
    }
    Ok(())
}

/// Puts lines at the end of others; those whose fault follows from lost bases with what else is wrong with them.
fn push_others(
    lines: &mut Vec<FaultyLine>,
    bases: &BaseLines,
    beside: &Kinds,
    first: Option<usize>,
    later: &[FaultyLine],
) -> Result<(), AllocError>
    ensures { let kind_of = kind_at beside.now.entries in
        let rest = without_following bases.now.has_section bases.now.lines.items kind_of first later.now in
        OnOk result (lines.new.items ≡ lines.old.items ++ rest) }
{
    let mut from = first;
    for fault in later {
        if follows(from, *fault) {
            push_instead(lines, *fault, kind_at(beside, fault.line))?;
        } else {
            lines.push(*fault)?;
        }
        from = bases.lost_from(from, *fault);
    }
    Ok(())
}

/// The lines of a table.
fn listed(alloc: Global, sorted: &Kinds) -> Result<Vec<FaultyLine>, AllocError>
    ensures { IfOk result (λ lines. lines.items ≡ map (λ entry. faulty entry.0 entry.1) sorted.now.entries) }
{
    let mut lines = Vec::new(alloc);
    for (line, kind) in sorted.iter() {
        lines.push(FaultyLine {
            line: *line,
            kind: *kind,
        })?;
    }
    Ok(lines)
}

/// Puts a line in its place by its number; one that is there keeps its fault.
#[tactic(auto, unfolding(crate::specs::Faults::put_line))]
fn put_line(sorted: &mut Kinds, fault: FaultyLine) -> Result<(), AllocError>
    ensures { OnOk result (sorted.new.entries ≡ put_line sorted.old.entries fault) }
{
    if !sorted.contains_key(&fault.line) {
        sorted.insert(fault.line, fault.kind)?;
    }
    Ok(())
}

/// The first fault of each line, by the line's number.
pub(crate) fn kinds_of(alloc: Global, lines: &[FaultyLine]) -> Result<Kinds, AllocError>
    ensures { IfOk result (λ kinds. kinds.entries ≡ kinds_of lines.now) }
{
    let mut sorted = BTreeMap::new(alloc);
    for fault in lines {
        put_line(&mut sorted, *fault)?;
    }
    Ok(sorted)
}

/// The fault of a line.
pub(crate) fn kind_at(kinds: &Kinds, line: usize) -> Option<SourceKind>
    ensures { result ≡ kind_at kinds.now.entries line }
{
    kinds.get(&line).copied()
}

/// The lines in the order of their numbers, each with its first fault.
fn by_number(alloc: Global, lines: &[FaultyLine]) -> Result<Vec<FaultyLine>, AllocError>
    ensures { let all = map (λ entry. faulty entry.0 entry.1) (kinds_of lines.now) in
        IfOk result (λ sorted. sorted.items ≡ all) }
{
    let sorted = kinds_of(alloc, lines)?;
    listed(alloc, &sorted)
}

/// Whether a line can't be read: it has a fault, and not that it doesn't continue the one before it.
fn is_unread(unread: &[FaultyLine], item: &Item) -> bool
    ensures { result ≡ list_any
        (λ one. one.line == item.now.line && not (is_same one.kind sourcekind.BadContinuation)) unread.now }
{
    unread.iter().any(|fault| fault.line == item.line && fault.kind != SourceKind::BadContinuation)
}

/// Whether a line that continues the one of this number can't be read.
fn is_cut(items: &[Item], unread: &[FaultyLine], number: usize) -> bool
    ensures { let is_unread = λ (item : ItemValue).
        list_any (λ one. one.line == item.line && not (is_same one.kind sourcekind.BadContinuation)) unread.now in
        result ≡ list_any is_unread (continuations items.now number) }
{
    continuations(items, number)
        .iter()
        .any(|line| is_unread(unread, line))
}

/// Whether a line has a fault of its own.
fn has_own(unread: &[FaultyLine], number: usize) -> bool
    ensures { result ≡ list_any (λ one. one.line == number) unread.now }
{
    unread.iter().any(|one| one.line == number)
}

/// Whether a fault is reported where these lines can't be read.
#[tactic(auto, unfolding(crate::specs::Faults::is_shown))]
fn is_shown(items: &[Item], unread: &[FaultyLine], fault: FaultyLine) -> bool
    ensures { result ≡ is_shown items.now unread.now fault }
{
    has_own(unread, fault.line) || !is_cut(items, unread, fault.line)
}

/// Those of some faults that are reported where these lines can't be read.
fn shown_of(
    alloc: Global,
    items: &[Item],
    unread: &[FaultyLine],
    all: &[FaultyLine],
) -> Result<Vec<FaultyLine>, AllocError>
    ensures { IfOk result (λ found. found.items ≡ filter (is_shown items.now unread.now) all.now) }
{
    all.iter()
        .copied()
        .filter(|fault| is_shown(items, unread, *fault))
        .collect(alloc)
}

/// A source that was read, translated and placed, each in spite of its faults.
#[derive(Clone, Copy)]
pub(crate) struct Placed<'a, 'p, 's> {
    /// What its lines are made into.
    pub(crate) made: &'a Source,
    /// Where everything of that is.
    pub(crate) places: &'a Places<'p>,
    /// Its statements with their places.
    pub(crate) statements: &'a [Statement<'s>],
}

/// What else is wrong with lines that have NoAddressability; `later` are those that the second pass finds.
#[tactic(auto, using(cx_asm_pass2::specs::Facts::Whole::whole_is), unfolding(crate::specs::Faults::kinds_beside))]
fn kinds_beside(
    alloc: Global,
    placed: &Placed<'_, '_, '_>,
    later: &[FaultyLine],
) -> Result<Kinds, AllocError>
    requires places { IsPlaced (final_state placed.now.made.now) placed.now.places.now }
    requires statements { placed.now.statements.now ≡ statements_of placed.now.made.now }
    requires later { later.now ≡ faulty_lines of_pass (later_faults placed.now.made.now) }
    ensures { IfOk result (λ kinds. kinds.entries ≡ kinds_beside placed.now.made.now) }
{
    let kinds = kinds_of(alloc, later)?;
    let faults = faults_beside(alloc, placed.places, &kinds, placed.statements)?;
    let mut lines = Vec::new(alloc);
    push_unassembled(&mut lines, &faults)?;
    kinds_of(alloc, &lines)
}

/// The lines that the stages find at fault.
fn stage_lines(
    alloc: Global,
    unread: &[SourceFault],
    untranslated: &[TransFault],
    placed: &Placed<'_, '_, '_>,
) -> Result<Vec<FaultyLine>, AllocError>
    requires places { IsPlaced (final_state placed.now.made.now) placed.now.places.now }
    requires statements { placed.now.statements.now ≡ statements_of placed.now.made.now }
    ensures { IfOk result (λ all. all.items ≡ stage_lines unread.now untranslated.now placed.now.made.now) }
{
    let items = placed.made.items.as_slice();
    let (first, second) = pass_faults(alloc, placed.made)?;
    let bases = BaseLines::of(alloc, items)?;
    let mut all = Vec::new(alloc);
    push_unread(&mut all, unread)?;
    push_untranslated(&mut all, untranslated)?;
    let early = lost_after(&bases, None, &all);
    let mut outside = Vec::new(alloc);
    push_unassembled(&mut outside, first.as_slice())?;
    let from = lost_after(&bases, early, &outside);
    push_unadrift(&mut all, items, &outside)?;
    let mut later = Vec::new(alloc);
    push_unassembled(&mut later, second.as_slice())?;
    let beside = kinds_beside(alloc, placed, &later)?;
    push_others(&mut all, &bases, &beside, from, &later)?;
    Ok(all)
}

/// The lines that the stages find at fault, by their numbers.
fn lines_by_number(
    alloc: Global,
    unread: &[SourceFault],
    untranslated: &[TransFault],
    placed: &Placed<'_, '_, '_>,
) -> Result<Vec<FaultyLine>, AllocError>
    requires places { IsPlaced (final_state placed.now.made.now) placed.now.places.now }
    requires statements { placed.now.statements.now ≡ statements_of placed.now.made.now }
    ensures { let lines = stage_lines unread.now untranslated.now placed.now.made.now in
        IfOk result (λ all. all.items ≡ map (λ entry. faulty entry.0 entry.1) (kinds_of lines)) }
{
    let all = stage_lines(alloc, unread, untranslated, placed)?;
    by_number(alloc, &all)
}

/// The faulty lines of a source that was read and placed; `unread` and `untranslated` are the faults of its lines and of
/// its EXEC statements.
pub(crate) fn faults_placed(
    alloc: Global,
    read: &Source,
    unread: &[SourceFault],
    untranslated: &[TransFault],
    placed: &Placed<'_, '_, '_>,
) -> Result<Vec<FaultyLine>, AllocError>
    requires places { IsPlaced (final_state placed.now.made.now) placed.now.places.now }
    requires statements { placed.now.statements.now ≡ statements_of placed.now.made.now }
    ensures { let lines = stage_lines unread.now untranslated.now placed.now.made.now in
        let all = map (λ entry. faulty entry.0 entry.1) (kinds_of lines) in
        let shown = is_shown read.now.items (faulty_lines of_source unread.now) in
        IfOk result (λ found. found.items ≡ filter shown all) }
{
    let all = lines_by_number(alloc, unread, untranslated, placed)?;
    let mut own = Vec::new(alloc);
    push_unread(&mut own, unread)?;
    shown_of(alloc, read.items.as_slice(), &own, &all)
}
