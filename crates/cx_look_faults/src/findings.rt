//! What there is to say of a source: its faulty lines, where on each the part at fault is, and notes on the others.

ghost use Rattle.std.specs.Prelude.{◌≡◌, IfOk, false, filter};
ghost use Rattle.cx_asm_pass1.specs.Locations.{IsPlaced, final_state};
ghost use Rattle.cx_asm_pass2.specs.Statements.{statements_of};
ghost use Rattle.cx_source.specs.Faults.{line_faults};
ghost use Rattle.cx_source.specs.Mended.{source_read};
ghost use Rattle.cx_translate.specs.Translation.{mended_source, statement_faults};
ghost use Rattle.cx_look_faults.specs.Faults.{faults_of};
ghost use Rattle.cx_look_faults.specs.Kept.{is_kept, kept_faults};
ghost use Rattle.cx_look_faults.specs.Marks.{marks_of};
ghost use Rattle.cx_look_faults.specs.Notes.{notes_of};

use crate::faults::{FaultyLine, Placed, faults_placed, kinds_of};
use crate::marks::{Mark, marks_placed};
use crate::notes::{Note, notes_placed};
use cx_asm_pass1::{Places, place_with_faults};
use cx_asm_pass2::{placed_lines, stated};
use cx_base::List;
use cx_source::{Source, SourceFault, Text, source_with_faults};
use cx_translate::{TransFault, translate_with_faults};
use std::alloc::{AllocError, Global};

/// The last line that is kept.
const LAST: usize = 10_001;

/// What there is to say of a source.
#[derive(Drop)]
pub struct Findings {
    /// Its faulty lines, those of the first 10,001.
    pub faults: Vec<FaultyLine>,
    /// Where on each the part is that is at fault.
    pub marks: Vec<Mark>,
    /// What is most likely not meant on the others.
    pub notes: Vec<Note>,
}

/// A source that was read and translated, each in spite of its faults.
#[derive(Drop)]
struct Read {
    read: Source,
    unread: List<SourceFault>,
    made: Source,
    untranslated: List<TransFault>,
}

/// Whether a line is one that is kept.
fn is_kept(fault: FaultyLine) -> bool
    ensures { result ≡ is_kept fault }
{
    fault.line <= LAST
}

/// Those of some lines that are kept.
fn kept_of(alloc: Global, all: &[FaultyLine]) -> Result<Vec<FaultyLine>, AllocError>
    ensures { IfOk result (λ kept. kept.items ≡ filter is_kept all.now) }
{
    all.iter()
        .copied()
        .filter(|fault| is_kept(*fault))
        .collect(alloc)
}

/// The source that lines make.
fn read_of(alloc: Global, lines: &[Text]) -> Result<Read, AllocError>
    ensures read { IfOk result (λ it. it.read ≡ source_read lines.now) }
    ensures unread { IfOk result (λ it. it.unread ≡ line_faults false 1 lines.now) }
    ensures made { IfOk result (λ it. it.made ≡ mended_source (source_read lines.now)) }
    ensures untranslated { IfOk result (λ it. it.untranslated ≡ statement_faults (source_read lines.now).items) }
{
    let (read, unread) = source_with_faults(alloc, lines)?;
    let (made, untranslated) = translate_with_faults(alloc, &read)?;
    Ok(Read {
        read,
        unread,
        made,
        untranslated,
    })
}

/// The faulty lines that are kept, of a source that was placed.
#[tactic(auto, unfolding(crate::specs::Faults::faults_of))]
fn kept_placed(
    alloc: Global,
    lines: &[Text],
    source: &Read,
    placed: &Placed<'_, '_, '_>,
) -> Result<Vec<FaultyLine>, AllocError>
    requires read { source.now.read ≡ source_read lines.now }
    requires unread { source.now.unread ≡ line_faults false 1 lines.now }
    requires made { placed.now.made.now ≡ mended_source (source_read lines.now) }
    requires untranslated { source.now.untranslated ≡ statement_faults (source_read lines.now).items }
    requires places { IsPlaced (final_state placed.now.made.now) placed.now.places.now }
    requires statements { placed.now.statements.now ≡ statements_of placed.now.made.now }
    ensures { IfOk result (λ faults. faults.items ≡ kept_faults lines.now) }
{
    let unread = source.unread.as_slice();
    let untranslated = source.untranslated.as_slice();
    let all = faults_placed(alloc, &source.read, unread, untranslated, placed)?;
    kept_of(alloc, &all)
}

/// What there is to say of a source that was placed.
#[tactic(auto, unfolding(crate::specs::Marks::marks_of, crate::specs::Notes::notes_of))]
fn findings_placed(
    alloc: Global,
    lines: &[Text],
    source: &Read,
    placed: &Placed<'_, '_, '_>,
) -> Result<Findings, AllocError>
    requires read { source.now.read ≡ source_read lines.now }
    requires unread { source.now.unread ≡ line_faults false 1 lines.now }
    requires made { placed.now.made.now ≡ mended_source (source_read lines.now) }
    requires untranslated { source.now.untranslated ≡ statement_faults (source_read lines.now).items }
    requires places { IsPlaced (final_state placed.now.made.now) placed.now.places.now }
    requires statements { placed.now.statements.now ≡ statements_of placed.now.made.now }
    ensures faults { IfOk result (λ it. it.faults.items ≡ kept_faults lines.now) }
    ensures marks { IfOk result (λ it. it.marks.items ≡ marks_of lines.now (kept_faults lines.now)) }
    ensures notes { IfOk result (λ it. it.notes.items ≡ notes_of lines.now (kept_faults lines.now)) }
{
    let faults = kept_placed(alloc, lines, source, placed)?;
    let kinds = kinds_of(alloc, &faults)?;
    let marks = marks_placed(alloc, lines, &source.read, placed, &kinds, &faults)?;
    let notes = notes_placed(alloc, &source.read, placed, &kinds)?;
    Ok(Findings {
        faults,
        marks,
        notes,
    })
}

/// What there is to say of a source whose statements have their places.
fn findings_stated(
    alloc: Global,
    lines: &[Text],
    source: &Read,
    places: &Places<'_>,
) -> Result<Findings, AllocError>
    requires read { source.now.read ≡ source_read lines.now }
    requires unread { source.now.unread ≡ line_faults false 1 lines.now }
    requires made { source.now.made ≡ mended_source (source_read lines.now) }
    requires untranslated { source.now.untranslated ≡ statement_faults (source_read lines.now).items }
    requires places { IsPlaced (final_state source.now.made) places.now }
    ensures faults { IfOk result (λ it. it.faults.items ≡ kept_faults lines.now) }
    ensures marks { IfOk result (λ it. it.marks.items ≡ marks_of lines.now (kept_faults lines.now)) }
    ensures notes { IfOk result (λ it. it.notes.items ≡ notes_of lines.now (kept_faults lines.now)) }
{
    let placed = placed_lines(alloc, &source.made, places.statements.as_slice())?;
    let statements = stated(alloc, placed.as_slice())?;
    let placed = Placed {
        made: &source.made,
        places,
        statements: statements.as_slice(),
    };
    findings_placed(alloc, lines, source, &placed)
}

/// What there is to say of a source that was read.
fn findings_read(alloc: Global, lines: &[Text], source: &Read) -> Result<Findings, AllocError>
    requires read { source.now.read ≡ source_read lines.now }
    requires unread { source.now.unread ≡ line_faults false 1 lines.now }
    requires made { source.now.made ≡ mended_source (source_read lines.now) }
    requires untranslated { source.now.untranslated ≡ statement_faults (source_read lines.now).items }
    ensures faults { IfOk result (λ it. it.faults.items ≡ kept_faults lines.now) }
    ensures marks { IfOk result (λ it. it.marks.items ≡ marks_of lines.now (kept_faults lines.now)) }
    ensures notes { IfOk result (λ it. it.notes.items ≡ notes_of lines.now (kept_faults lines.now)) }
{
    let (places, _) = place_with_faults(alloc, &source.made)?;
    findings_stated(alloc, lines, source, &places)
}

/// The faulty lines of the source that lines make, given without their ends: of each the number and one fault, in the
/// order of the numbers; where on its line the part is that is at fault; and notes. A source that can be prepared has no
/// faulty line. The lines are read once, translated once and placed for all three.
///
/// Four stages find faults: of the lines themselves, of the EXEC statements, of the assembler's first pass, and of its
/// second pass with the size of the text (TooLarge, at END's line alone, where the second pass finds nothing else).
/// Each goes on after a fault, and the next one takes what it gives in spite of its faults: a line that continues a
/// statement wrongly begins anew, DS 0H stands for an EXEC statement at fault, a faulty statement of the first pass
/// defines and takes what is known of it in spite of its fault. Of a line that several stages find at fault the first
/// one's fault comes, and of that stage the lowest; of a statement with a later line that can't be read, none but the
/// lines' own. After an unknown operation outside the control section, which may have been meant to begin a section,
/// the first BadOperand of the first pass isn't reported, where no section begins between; nor is it of the first CSECT
/// or START with a name, where a line before it has a fault. After a line with a USING or the beginning of a section
/// that is at fault, and after any faulty line where no control section begins, what else is wrong is reported in the
/// place of NoAddressability. The fault that `cx_asm_build::prepare` refuses the source for is one of them.
///
/// Of a line that can't be read the part at fault is the character without a code, what is in the margin of a
/// continuation line, what begins in column 1, what is past column 80, or all of a line that comes after too many. Of an
/// EXEC statement it is the word by which it has the fault, of BadArgument with its argument, and of MissingOption
/// mostly the command's. Of other statements it is the smallest of these that has the fault by itself: a term, a
/// subfield, an operand; where none has, all of the operand; else the operation, or of DuplicateSymbol the name. A part
/// that goes on over several lines counts as far as its first.
///
/// There is a note where in an EXEC statement a halfword or a byte is due and the argument is a number, a length
/// attribute or another absolute expression, since each argument is an address; where the command writes and it is a
/// literal; and on an item of several copies in a DC with `*`, which is the same in each. Notes are on lines without a
/// fault, in their order. An error comes only where an allocation failed.
pub fn findings_of(alloc: Global, lines: &[Text]) -> Result<Findings, AllocError>
    ensures faults { IfOk result (λ it. it.faults.items ≡ kept_faults lines.now) }
    ensures marks { IfOk result (λ it. it.marks.items ≡ marks_of lines.now (kept_faults lines.now)) }
    ensures notes { IfOk result (λ it. it.notes.items ≡ notes_of lines.now (kept_faults lines.now)) }
{
    let source = read_of(alloc, lines)?;
    findings_read(alloc, lines, &source)
}
