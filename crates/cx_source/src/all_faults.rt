//! A source, or all faults of its lines.

ghost use Rattle.std.specs.Prelude.{◌≡◌, ◌++◌, [], IfOk, OnOk, false, slice_get};
ghost use Rattle.std.specs.Option.{option_to_list};
ghost use Rattle.cx_source.specs.Faults.{goes_on, line_faults, source_or_faults};
ghost use Rattle.cx_source.specs.Mended.{is_cut_off, source_read, text_kept, texts_read};

use crate::faults::source_fault;
use crate::lines::{columns, text_of, trim_blanks};
use crate::source::{Items, Source, SourceFault, Text};
use crate::statements::{is_continued, is_last, items_of};
use cx_base::List;
use std::alloc::{AllocError, Global};
use std::collections::VecDeque;

/// The columns of a line on which a statement is written.
const WRITTEN: (usize, usize) = (1, 71);

/// Puts a fault at the end of others, if there is one.
fn push_fault(faults: &mut Vec<SourceFault>, fault: Option<SourceFault>) -> Result<(), AllocError>
    ensures { OnOk result (faults.new.items ≡ faults.old.items ++ option_to_list fault) }
{
    if let Some(fault) = fault {
        faults.push(fault)?;
    }
    Ok(())
}

/// Whether a line with this fault continues the statement before it.
fn goes_on(continues: bool, fault: Option<SourceFault>) -> bool
    ensures { result ≡ goes_on continues fault }
{
    match fault {
        Some(SourceFault::BadContinuation(_)) => false,
        _ => continues,
    }
}

/// Whether the next of some lines begins anew where it should continue.
fn is_cut_off(continues: bool, number: usize, more: &[Text]) -> bool
    ensures { result ≡ is_cut_off continues number (slice_get more.now 0) }
{
    match more.first() {
        Some(line) => {
            continues && !goes_on(continues, source_fault(continues, number, line.as_slice()))
        }
        None => false,
    }
}

/// A text, without its mark where the next line begins anew.
fn text_kept(cut_off: bool, text: &[u8]) -> &[u8]
    ensures { result.now ≡ text_kept cut_off text.now }
{
    if cut_off {
        return trim_blanks(columns(text, WRITTEN.0, WRITTEN.1));
    }
    text
}

/// The texts of lines as they are read in spite of their faults, which are put at the end of an empty list.
fn texts_read(
    alloc: Global,
    lines: &[Text],
    faults: &mut Vec<SourceFault>,
) -> Result<VecDeque<Text>, AllocError>
    requires { faults.old.items ≡ [] }
    ensures faults { OnOk result (faults.new.items ≡ line_faults false 1 lines.now) }
    ensures texts { IfOk result (λ texts. texts.items ≡ texts_read false 1 lines.now) }
{
    let mut texts = VecDeque::new(alloc);
    let mut continues = false;
    for (index, line) in lines.iter().enumerate() {
        let line = line.as_slice();
        let fault = source_fault(continues, index + 1, line);
        push_fault(faults, fault)?;
        let text = text_of(line);
        let joined = goes_on(continues, fault);
        if is_last(joined, text) {
            texts.push_back(Text::from_slice(alloc, text)?)?;
            return Ok(texts);
        }
        let next = is_continued(joined, text);
        let (_, more) = lines.split_at(index + 1);
        let kept = text_kept(is_cut_off(next, index + 2, more), text);
        texts.push_back(Text::from_slice(alloc, kept)?)?;
        continues = next;
    }
    faults.push(SourceFault::NoEnd(lines.len() + 1))?;
    texts.push_back(Text::from_slice(alloc, b"         END".as_slice())?)?;
    Ok(texts)
}

/// The source that lines make, given without their ends, whatever is wrong with them; and the faults of all faulty
/// lines up to END's, in order.
///
/// A line has at most one, the first that applies: TooLong, BadCharacter, BadContinuation, BadName. Whether the next
/// line continues a statement is known by a faulty line's text too; but a line with BadContinuation begins anew, and
/// so the statement before it ends. Without END the last fault is NoEnd, with the number after the last line's, and an
/// END is put there. An error comes only where an allocation failed.
#[tactic(auto, unfolding(crate::specs::Mended::source_read))]
pub fn source_with_faults(
    alloc: Global,
    lines: &[Text],
) -> Result<(Source, List<SourceFault>), AllocError>
    ensures source { IfOk result (λ both. both.0 ≡ source_read lines.now) }
    ensures faults { IfOk result (λ both. both.1 ≡ line_faults false 1 lines.now) }
{
    let mut faults = Vec::new(alloc);
    let texts = texts_read(alloc, lines, &mut faults)?;
    let source = Source {
        items: Items::from_vec(items_of(alloc, texts)?),
    };
    Ok((source, List::from_vec(faults)))
}

/// The source that lines make, given without their ends, or all faults of its lines, as `source_with_faults` has them.
///
/// An error comes only where an allocation failed.
#[tactic(auto, using(crate::specs::Facts::Mended::source_whole), unfolding(crate::specs::Faults::source_or_faults))]
pub fn source_or_faults(
    alloc: Global,
    lines: &[Text],
) -> Result<Result<Source, List<SourceFault>>, AllocError>
    ensures { IfOk result (λ answer. answer ≡ source_or_faults lines.now) }
{
    let (source, faults) = source_with_faults(alloc, lines)?;
    if faults.as_slice().is_empty() {
        return Ok(Ok(source));
    }
    Ok(Err(faults))
}
