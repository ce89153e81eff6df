//! What looks show of bytes in characters, once more in digits, where other bytes would show alike.
ghost use Rattle.std.specs.Prelude.{◌≡◌, ◌≤◌, ◌++◌, IfOk, OnOk, length, true};
ghost use Rattle.std.specs.Option.{option_map_or};
ghost use Rattle.cx_look_lines.specs.Words.{in_hexadecimal};
ghost use Rattle.cx_look_tables.specs.Hidden.{has_character, have_characters, hidden_item, hidden_items, hidden_row, hidden_rows, hidden_rows_from, is_shown_whole};
ghost use Rattle.cx_service.specs.Queues.{count_of, item_of};

use crate::queues::item_text;
use cx_base::{COLUMNS, decimal};
use cx_ebcdic::{Name4, Name8, shown_as, to_ebcdic};
use cx_look_lines::{Report, spelled};
use cx_region::Region;
use cx_service::Queues;
use cx_storage::Store;
use std::alloc::{AllocError, Global};

/// The most bytes of an item that its line shows.
const MOST_SHOWN: usize = 64;

/// Whether a byte is the code of the character by which it is shown.
fn has_character(byte: u8) -> bool
    ensures { result ≡ has_character byte }
{
    match to_ebcdic(shown_as(byte)) {
        Some(code) => code == byte,
        None => false,
    }
}

/// Whether each byte is.
fn have_characters(bytes: &[u8]) -> bool
    ensures { result ≡ have_characters bytes.now }
{
    bytes.iter().all(|byte| has_character(*byte))
}

/// Whether an item's line shows it whole.
fn is_shown_whole(item: &[u8]) -> bool
    ensures { result ≡ is_shown_whole item.now }
{
    item.len() <= MOST_SHOWN && have_characters(item)
}

/// Whether the line of a queue's item number n shows it whole, or there is no such item.
fn is_item_shown(queues: &Queues, name: Name8, n: usize) -> bool
    ensures { result ≡ option_map_or is_shown_whole (item_of queues.now name n) true }
{
    match queues.item(name, n) {
        Some(item) => is_shown_whole(item),
        None => true,
    }
}

/// Adds the lines of a queue's item number n, as a whole, where its line doesn't show it whole.
fn hidden_item(
    report: &mut Report,
    queues: &Queues,
    name: Name8,
    n: usize,
) -> Result<(), AllocError>
    ensures { OnOk result (report.new ≡ report.old ++ hidden_item queues.now name n) }
{
    if is_item_shown(queues, name, n) {
        return Ok(());
    }
    item_text(report, queues, name, n)
}

/// How many items a queue has; 0 where there is no such queue.
fn count_of(queues: &Queues, name: Name8) -> usize
    ensures { result ≡ option_map_or (λ n. n) (count_of queues.now name) 0 }
{
    match queues.items(name) {
        Some(count) => count,
        None => 0,
    }
}

/// Adds the items of a queue that their lines don't show whole.
#[tactic(auto, unfolding(crate::specs::Hidden::hidden_items))]
fn push_hidden_items(report: &mut Report, queues: &Queues, name: Name8) -> Result<(), AllocError>
    ensures { OnOk result (report.new ≡ report.old ++ hidden_items queues.now name) }
{
    for k in 0..count_of(queues, name) {
        hidden_item(report, queues, name, k + 1)?;
    }
    Ok(())
}

/// Bytes in hexadecimal: X'..'.
fn in_hexadecimal(alloc: Global, bytes: &[u8]) -> Result<Vec<u8>, AllocError>
    ensures { IfOk result (λ value. value.items ≡ in_hexadecimal bytes.now) }
{
    let digits = spelled(alloc, bytes)?;
    let mut value = b"X'".to_vec(alloc)?;
    value.extend_from_slice(&digits)?;
    value.push(b'\'')?;
    Ok(value)
}

/// Adds the line of a row of which some byte has no character.
fn hidden_row(report: &mut Report, n: u32, row: &[u8]) -> Result<(), AllocError>
    ensures { OnOk result (report.new ≡ report.old ++ hidden_row n row.now) }
{
    if have_characters(row) {
        return Ok(());
    }
    let bytes = in_hexadecimal(report.alloc(), row)?;
    let n = decimal::<2>(n);
    report.line(&[b"ROW", &n, &bytes])
}

/// Adds the lines of such rows.
fn push_hidden_rows(report: &mut Report, rows: &[[u8; COLUMNS]]) -> Result<(), AllocError>
    requires { length rows.now ≤ 24 }
    ensures { OnOk result (report.new ≡ report.old ++ hidden_rows_from 1 rows.now) }
{
    for (i, row) in rows.iter().enumerate() {
        hidden_row(report, i as u32 + 1, row)?;
    }
    Ok(())
}

/// The items of a queue that the lines of QUEUE don't show whole, each as a whole: items of more than 64 bytes, and those
/// with a byte that isn't the code of a character.
///
/// An error comes only where memory for the report was refused.
pub fn hidden_items<S: Store + Drop>(
    alloc: Global,
    region: &Region<S>,
    name: Name8,
) -> Result<Report, AllocError>
    ensures { IfOk result (λ report. report ≡ hidden_items region.now.shared.queues name) }
{
    let mut report = Report::new(alloc);
    push_hidden_items(&mut report, &region.shared().queues, name)?;
    Ok(report)
}

/// The rows of a terminal's screen of which some byte isn't the code of a character, in digits.
///
/// An error comes only where memory for the report was refused.
#[tactic(auto, unfolding(crate::specs::Hidden::hidden_rows, cx_service::specs::Screen::IsScreen))]
pub fn hidden_rows<S: Store + Drop>(
    alloc: Global,
    region: &Region<S>,
    name: Name4,
) -> Result<Report, AllocError>
    ensures { IfOk result (λ report. report ≡ hidden_rows region.now name) }
{
    let mut report = Report::new(alloc);
    let Some(screen) = region.screen(name) else {
        return Ok(report);
    };
    push_hidden_rows(&mut report, screen.cells())?;
    Ok(report)
}
