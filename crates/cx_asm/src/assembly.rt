//! The assembly of a source.

ghost use Rattle.std.specs.Prelude.{◌≡◌, ◌≤◌, IfOk, None, option_map, slice_get, true};
ghost use Rattle.std.specs.Option.{option_map_or};
ghost use Rattle.cx_source.specs.declared.source.Source.{Source};
ghost use Rattle.cx_asm_image.specs.Assembled.{IsAssembled};
ghost use Rattle.cx_asm_pass1.specs.AllFaults.{place_faults};
ghost use Rattle.cx_asm_pass1.specs.Locations.{IsPlaced, final_state};
ghost use Rattle.cx_asm_pass2.specs.Whole.{whole_by};
ghost use Rattle.cx_asm_pass2.specs.Statements.{first_end, placed_of, statements_of};
ghost use Rattle.cx_asm.specs.Assembly.{Assembles, assembly_of, end_line, entry_by, later_faults, assembly_parts, second_faults_of, section_of, size_faults, control_section_size, standing_of};

use crate::faults::{AsmFault, fault_at};
use crate::laws::made_lines_do_not_overlap;
use crate::listing::listing_of;
use crate::section::{Found, second_faults, second_pass};
use crate::standing::Standing;
use cx_asm_expressions::{FaultKind, TermFault};
use cx_asm_image::{Assembled, LARGEST_TEXT, working_storage};
use cx_asm_pass1::{LineFault, Places, place_all, place_with_faults};
use cx_asm_pass2::{PlacedItem, Statement, entry_of, placed_lines, stated};
use cx_base::List;
use cx_code::{Image, Line, Offsets, Span};
use cx_source::{Source, Text};
use std::alloc::{AllocError, Global};
use std::marker::Model;

/// What a source is assembled to: its image, its listing, its spans and its resolved lines. `assemble` alone makes one,
/// so text and spans give the resolved lines again.
#[derive(Drop)]
pub struct Assembly {
    section: Assembled,
    listing: Vec<Text>,
}

impl Model for Assembly {
    ghost use Rattle.cx_asm_image.specs.Assembled.{IsAssembled};
    ghost use Rattle.cx_asm.specs.Assembly.{AssemblyParts};

    ghost Value = { AssemblyParts };

    ghost view = { λ made. record { section = made.section; listing = made.listing.items } };

    ghost invariant = { λ made. IsAssembled made.section };
}

impl Assembly {
    /// The image: the text has each resolved line's bytes at its place, and zeros elsewhere. It takes no memory.
    pub fn image(&self) -> &Image
        ensures value { result.now ≡ self.now.section.image }
        ensures parts { IsAssembled self.now.section }
    {
        self.section.image()
    }

    /// The listing (GC33-4010, "Assembler Listing"), one line for each of the source's, an EXEC statement's made lines
    /// in its place; each line without its end. It takes no memory.
    pub fn listing(&self) -> &[Text]
        ensures { result.now ≡ self.now.listing }
    {
        self.listing.as_slice()
    }

    /// The spans of the text, one for each resolved line, in address order. It takes no memory.
    pub fn spans(&self) -> &[Span]
        ensures { result.now ≡ self.now.section.spans }
    {
        self.section.spans()
    }

    /// The resolved lines, in address order. It takes no memory.
    pub fn resolved(&self) -> &[Line]
        ensures { result.now ≡ self.now.section.resolved }
    {
        self.section.resolved()
    }

    /// The image, without the rest. It takes no memory.
    pub fn into_image(self) -> Image
        ensures { result ≡ self.section.image }
    {
        let Assembly { section, .. } = self;
        section.into_image()
    }
}

/// The disassembly of an assembly's text by its spans: the source's resolved lines.
///
/// An error comes only where an allocation failed.
pub fn disassembly(alloc: Global, assembly: &Assembly) -> Result<Vec<Line>, AllocError>
    ensures { IfOk result (λ found. found.items ≡ assembly.now.section.resolved) }
{
    assembly.section.disassembly(alloc)
}

/// The size of the control section; 0 where there is none.
fn control_section_size(places: &Places<'_>) -> u128
    ensures { (source : Source) → IsPlaced (final_state source) places.now → result ≡ control_section_size source }
{
    match places.control {
        Some(control) => control.length,
        None => 0,
    }
}

/// The first END.
fn first_end<'a, 'b>(statements: &'b [Statement<'a>]) -> Option<&'b Statement<'a>>
    ensures { option_map (λ s. s.now) result ≡ first_end statements.now }
{
    statements.iter().find(|statement| statement.is_end())
}

/// The entry that the first END writes, or 0.
fn entry(
    alloc: Global,
    places: &Places<'_>,
    statements: &[Statement<'_>],
) -> Result<u32, AllocError>
    ensures { IfOk result
        (λ entry. entry ≡ option_map_or (entry_by (whole_by places.now)) (first_end statements.now) 0) }
{
    let Some(statement) = first_end(statements) else {
        return Ok(0);
    };
    match entry_of(alloc, places, statement) {
        Ok(entry) => Ok(entry),
        Err(TermFault::Refused(_)) => Ok(0),
        Err(TermFault::Memory) => Err(AllocError),
    }
}

/// END's line, or the last without an END.
fn end_line(source: &Source, statements: &[Statement<'_>]) -> usize
    requires { statements.now ≡ statements_of source.now }
    ensures { result ≡ end_line source.now }
{
    match first_end(statements) {
        Some(statement) => statement.line(),
        None => match source.items.as_slice().last() {
            Some(item) => item.line,
            None => 0,
        },
    }
}

/// The section of a source whose statements are placed.
#[tactic(auto, using(cx_asm_pass2::specs::Facts::Whole::whole_is), unfolding(crate::specs::Assembly::section_of, crate::specs::Assembly::standing_of))]
fn section_of(
    alloc: Global,
    source: &Source,
    places: &Places<'_>,
    statements: &[Statement<'_>],
    standing: Standing,
) -> Result<Assembled, AllocError>
    requires sound { (final_state source.now).fault ≡ None }
    requires placed { IsPlaced (final_state source.now) places.now }
    requires statements { statements.now ≡ statements_of source.now }
    requires fits { control_section_size source.now ≤ 65536 }
    requires standing { standing ≡ standing_of source.now }
    ensures { IfOk result (λ section. section ≡ section_of source.now) }
{
    made_lines_do_not_overlap();
    let Standing { lines, relocs } = standing;
    let lines = lines.into_vec();
    let size = control_section_size(places) as u32;
    let entry = entry(alloc, places, statements)?;
    let stg_len = working_storage(places.stg_length);
    Assembled::new(lines, size, Offsets::from_vec(relocs), entry, stg_len)
}

/// The assembly of a source whose statements are placed, with its section.
fn assembly_parts(
    alloc: Global,
    source: &Source,
    places: &Places<'_>,
    placed: &[PlacedItem<'_>],
    section: Assembled,
) -> Result<Assembly, AllocError>
    requires places { IsPlaced (final_state source.now) places.now }
    requires placed { placed.now ≡ placed_of source.now }
    requires section { section ≡ section_of source.now }
    ensures { IfOk result (λ made. made ≡ assembly_parts source.now) }
{
    let text = section.image().text.as_slice();
    let listing = listing_of(alloc, places, text, placed)?;
    Ok(Assembly { section, listing })
}

/// What the second pass over a source's statements finds; what they make is kept only where it fits in the largest
/// text.
#[tactic(auto, using(cx_asm_pass2::specs::Facts::Whole::whole_is), unfolding(crate::specs::Assembly::second_faults_of, crate::specs::Assembly::standing_of))]
fn found_in(
    alloc: Global,
    source: &Source,
    places: &Places<'_>,
    statements: &[Statement<'_>],
    fits: bool,
) -> Result<Found, AllocError>
    requires sound { (final_state source.now).fault ≡ None }
    requires placed { IsPlaced (final_state source.now) places.now }
    requires statements { statements.now ≡ statements_of source.now }
    requires fits { fits ≡ true → control_section_size source.now ≤ 65536 }
    ensures first { IfOk result (λ found. found.first ≡ slice_get (second_faults_of source.now) 0) }
    ensures standing { IfOk result (λ found. fits ≡ true → found.standing ≡ standing_of source.now) }
{
    made_lines_do_not_overlap();
    second_pass(alloc, places, statements, fits)
}

/// The assembly of a source whose statements are placed.
#[tactic(auto, using(crate::proofs::DueLemmas::second_refused, crate::proofs::DueLemmas::large_refused, crate::proofs::DueLemmas::made_answered))]
fn assemble_placed(
    alloc: Global,
    source: &Source,
    places: &Places<'_>,
) -> Result<Assembly, AsmFault>
    requires sound { (final_state source.now).fault ≡ None }
    requires placed { IsPlaced (final_state source.now) places.now }
    ensures { Assembles (assembly_of source.now) result }
{
    let placed = placed_lines(alloc, source, places.statements.as_slice())?;
    let statements = stated(alloc, placed.as_slice())?;
    let size = control_section_size(places);
    let fits = size <= u128::from(LARGEST_TEXT);
    let found = found_in(alloc, source, places, statements.as_slice(), fits)?;
    if let Some(first) = found.first {
        return Err(fault_at(first));
    }
    if !fits {
        return Err(AsmFault::TooLarge(end_line(source, statements.as_slice())));
    }
    let section = section_of(alloc, source, places, statements.as_slice(), found.standing)?;
    Ok(assembly_parts(alloc, source, places, placed.as_slice(), section)?)
}

/// Assembles a source (GC33-4010).
///
/// A fault comes with the line of the first statement that has one, and is the lowest of all statements of that line:
/// of the first pass (operation, name, section, lengths of items and literals, the value of EQU), and where that finds
/// none of the second (operands and values). TooLarge comes only where there is no other fault, for a control section
/// of more than 65,536 bytes. A source without a fault is assembled, or meets Memory, which comes only where an
/// allocation failed.
#[tactic(auto, using(crate::proofs::DueLemmas::first_refused))]
pub fn assemble(alloc: Global, source: &Source) -> Result<Assembly, AsmFault>
    ensures { Assembles (assembly_of source.now) result }
{
    match place_all(alloc, source)? {
        Ok(places) => assemble_placed(alloc, source, &places),
        Err(first) => Err(fault_at(first)),
    }
}

/// The fault of a text that is too large.
fn size_faults(alloc: Global, size: u128, line: usize) -> Result<List<LineFault>, AllocError>
    ensures { IfOk result (λ faults. faults ≡ size_faults size line) }
{
    let mut faults = Vec::new(alloc);
    if size > u128::from(LARGEST_TEXT) {
        let kind = FaultKind::TooLarge;
        faults.push(LineFault { line, kind })?;
    }
    Ok(List::from_vec(faults))
}

/// The faults of the second pass over a source whose statements are placed, or without one that of its size.
#[tactic(auto, using(cx_asm_pass2::specs::Facts::Whole::whole_is), unfolding(crate::specs::Assembly::second_faults_of))]
fn placed_faults(
    alloc: Global,
    source: &Source,
    places: &Places<'_>,
) -> Result<List<LineFault>, AllocError>
    requires { IsPlaced (final_state source.now) places.now }
    ensures { IfOk result (λ faults. faults ≡ later_faults source.now) }
{
    let placed = placed_lines(alloc, source, places.statements.as_slice())?;
    let statements = stated(alloc, placed.as_slice())?;
    let second = second_faults(alloc, places, statements.as_slice())?;
    if !second.as_slice().is_empty() {
        return Ok(second);
    }
    size_faults(
        alloc,
        control_section_size(places),
        end_line(source, statements.as_slice()),
    )
}

/// The faults of a source: those of the first pass, for which `assemble` refuses it; and, whatever these are, those of
/// the second pass, and where that finds none TooLarge, if the control section is.
///
/// Where the first pass finds none, `assemble` refuses the source for the first of the others; where there is none
/// either, it is assembled. Of each line with a faulty statement a pass reports the lowest fault of all its statements,
/// in the order in which the lines' first faults are met. An error comes only where an allocation failed.
pub fn pass_faults(
    alloc: Global,
    source: &Source,
) -> Result<(List<LineFault>, List<LineFault>), AllocError>
    ensures first { IfOk result (λ both. both.0 ≡ place_faults source.now) }
    ensures later { IfOk result (λ both. both.1 ≡ later_faults source.now) }
{
    let (places, first) = place_with_faults(alloc, source)?;
    let later = placed_faults(alloc, source, &places)?;
    Ok((first, later))
}
