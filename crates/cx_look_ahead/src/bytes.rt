//! Bytes in lines.
ghost use Rattle.std.specs.Prelude.{◌≡◌, ◌^◌, ◌<◌, ◌++◌, IfOk, OnOk, codes};
ghost use Rattle.cx_look_symbols.specs.Sources.{led_by};
ghost use Rattle.std.specs.Option.{option_map_or};
ghost use Rattle.cx_base.specs.Digits.{digits};
ghost use Rattle.cx_storage.specs.Storage.{byte_at};
ghost use Rattle.cx_look_ahead.specs.Ahead.{bytes_word, changed_row_line};
ghost use Rattle.cx_look_ahead.specs.Parts.Words.{field_word};

use crate::rows::Row;
use cx_base::{List, hexadecimal};
use cx_look_fields::{LevelFields, near_word};
use cx_look_lines::{Report, decimal};
use cx_look_symbols::push_led_by;
use cx_region::Region;
use cx_storage::{Store, address_after};
use std::alloc::{AllocError, Global};

/// The most bytes of a row that are shown.
const MOST_SHOWN: u32 = 64;

/// A byte in hexadecimal digits; hyphens where it isn't there.
fn byte_word<S: Store>(store: &S, at: u32) -> [u8; 2]
    requires { at < 2 ^ 24 }
    ensures { result ≡ option_map_or (digits 16 2) (byte_at (S.storage store.now) at) (codes "--") }
{
    match store.byte(at) {
        Some(byte) => hexadecimal::<2>(u32::from(byte)),
        None => *b"--",
    }
}

/// `count` bytes from an address on, two hexadecimal digits each; two hyphens for one that is in no area. After
/// X'FFFFFF' they go on at address 0.
///
/// An error comes only where memory for them was refused.
pub fn bytes_word<S: Store>(
    alloc: Global,
    store: &S,
    at: u32,
    count: u32,
) -> Result<Vec<u8>, AllocError>
    ensures { IfOk result (λ text. text.items ≡ bytes_word (S.storage store.now) at count) }
{
    let mut text = Vec::new(alloc);
    for k in 0..count {
        text.extend_from_slice(&byte_word(store, address_after(at, k)))?;
    }
    Ok(text)
}

/// The field that has the byte at an address, and how far after its first that is.
fn field_word(
    alloc: Global,
    fields: &Option<LevelFields>,
    address: u32,
) -> Result<Option<List<u8>>, AllocError>
    ensures { IfOk result (λ word. word ≡ field_word fields.now address) }
{
    let Some(fields) = fields else {
        return Ok(None);
    };
    let Some(near) = fields.nearest(alloc, address)? else {
        return Ok(None);
    };
    Ok(Some(List::from_vec(near_word(alloc, near)?)))
}

/// Adds the line of a row.
#[tactic(auto, unfolding(crate::specs::Ahead::changed_row_line))]
pub(crate) fn changed_row_line<S: Store + Drop>(
    report: &mut Report,
    fields: &Option<LevelFields>,
    before: &Region<S>,
    after: &Region<S>,
    row: Row,
) -> Result<(), AllocError>
    ensures { let line = changed_row_line fields.now before.now.shared.storage after.now.shared.storage row in
        OnOk result (report.new ≡ report.old ++ line) }
{
    let shown = row.length.min(MOST_SHOWN);
    let at = hexadecimal::<6>(row.at);
    let length = decimal(report.alloc(), row.length as usize)?;
    let from = bytes_word(report.alloc(), &before.shared().store, row.at, shown)?;
    let mut to = bytes_word(report.alloc(), &after.shared().store, row.at, shown)?;
    push_led_by(
        &mut to,
        b" FIELD ",
        &field_word(report.alloc(), fields, row.at)?,
    )?;
    report.line(&[b"CHANGES", &at, &length, b"FROM", &from, b"TO", &to])
}
