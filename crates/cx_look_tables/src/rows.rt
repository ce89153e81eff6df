//! Bytes in rows of sixteen.
ghost use Rattle.std.specs.Prelude.{◌≡◌, ◌*◌, ◌+◌, ◌/◌, ◌<◌, ◌≤◌, ◌^◌, ◌++◌, OnOk, length};
ghost use Rattle.std.specs.List.{flat_map, range_with_len};
ghost use Rattle.cx_look_tables.specs.Queues.{row_line, row_line_at};

use cx_base::{hexadecimal, shown};
use cx_look_lines::{Report, bytes_from, first_bytes, in_apostrophes, present};
use cx_region_bytes::hex_group;
use std::alloc::AllocError;

/// The bytes of a row.
const ROW: u32 = 16;

/// Adds the line of a row at an offset.
fn row_line(report: &mut Report, offset: u32, row: &[u8]) -> Result<(), AllocError>
    ensures { OnOk result (report.new ≡ report.old ++ row_line offset row.now) }
{
    let place = hexadecimal::<4>(offset);
    let bytes = present(report.alloc(), row)?;
    let a = hex_group(&bytes, 0);
    let b = hex_group(&bytes, 4);
    let c = hex_group(&bytes, 8);
    let d = hex_group(&bytes, 12);
    let characters = shown(report.alloc(), row)?;
    let characters = in_apostrophes(report.alloc(), &characters)?;
    report.line(&[&place, &a, &b, &c, &d, &characters])
}

/// Adds the line of a row, counted from 0.
fn row_line_at(report: &mut Report, k: u32, bytes: &[u8]) -> Result<(), AllocError>
    requires { 16 * k < 2 ^ 32 }
    ensures { OnOk result (report.new ≡ report.old ++ row_line_at bytes.now k) }
{
    let offset = ROW * k;
    let row = first_bytes(bytes_from(bytes, offset as usize), ROW as usize);
    row_line(report, offset, row)
}

/// Adds the rows of bytes.
pub(crate) fn rows_text(report: &mut Report, bytes: &[u8]) -> Result<(), AllocError>
    requires { length bytes.now ≤ 32767 }
    ensures { let rows = range_with_len 0 ((length bytes.now + 15) / 16) in
        OnOk result (report.new ≡ report.old ++ flat_map (row_line_at bytes.now) rows) }
{
    let rows = (bytes.len() as u32 + 15) / ROW;
    for k in 0..rows {
        row_line_at(report, k, bytes)?;
    }
    Ok(())
}
