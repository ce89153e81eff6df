//! STORAGE.
ghost use Rattle.std.specs.Prelude.{◌≡◌, ◌*◌, ◌<◌, ◌^◌, ◌++◌, IfOk, OnOk, length};
ghost use Rattle.std.specs.List.{filter, flat_map};
ghost use Rattle.cx_storage.specs.Storage.{areas_of};
ghost use Rattle.cx_region_bytes.specs.Rows.{bytes_at};
ghost use Rattle.cx_look_storage.specs.Bytes.{row_line, row_lines, storage_text};
ghost use Rattle.cx_look_storage.specs.Uses.{is_met, met_line};

use crate::areas::all_areas;
use crate::uses::{is_met, met_line};
use cx_look_lines::{Report, bytes_from, first_bytes};
use cx_region::Region;
use cx_region_bytes::{read_bytes, row_text};
use cx_storage::{Area, Store, address_after};
use std::alloc::{AllocError, Global};

/// The bytes of a row.
const ROW: usize = 16;

/// Adds the line of a row, counted from 0, of bytes that begin at an address.
fn row_line(report: &mut Report, at: u32, bytes: &[Option<u8>], k: usize) -> Result<(), AllocError>
    requires { 16 * k < 2 ^ 32 }
    ensures { OnOk result (report.new ≡ report.old ++ row_line at bytes.now k) }
{
    let offset = ROW * k;
    let row = first_bytes(bytes_from(bytes, offset), ROW);
    report.line(&[&row_text(address_after(at, offset as u32), row)])
}

/// Adds the rows of bytes (fewer than 2^32) that begin at an address, sixteen a line: the address of the first one, all
/// in hexadecimal digits, and their characters; hyphens are those of an absent one.
///
/// An error comes only where memory for the lines was refused.
#[tactic(auto, unfolding(crate::specs::Bytes::row_lines))]
pub fn row_lines(report: &mut Report, at: u32, bytes: &[Option<u8>]) -> Result<(), AllocError>
    requires { length bytes.now < 2 ^ 32 }
    ensures { OnOk result (report.new ≡ report.old ++ row_lines at bytes.now) }
{
    let rows = (bytes.len() + 15) / ROW;
    for k in 0..rows {
        row_line(report, at, bytes, k)?;
    }
    Ok(())
}

/// `n` bytes from an address on.
#[tactic(auto, using(crate::proofs::ByteLemmas::bytes_size))]
fn bytes_at<S: Store + Drop>(
    alloc: Global,
    region: &Region<S>,
    address: u32,
    n: u32,
) -> Result<Vec<Option<u8>>, AllocError>
    ensures value { IfOk result (λ bytes. bytes.items ≡ bytes_at region.now.shared.storage address n) }
    ensures size { IfOk result (λ bytes. length bytes.items ≡ n) }
{
    let mut bytes = Vec::new(alloc);
    bytes.resize(n as usize, None)?;
    read_bytes(region, address, &mut bytes);
    Ok(bytes)
}

/// Adds a line for each of some areas that have bytes from an address on.
fn area_lines<S: Store + Drop>(
    report: &mut Report,
    region: &Region<S>,
    address: u32,
    areas: &[Area],
) -> Result<(), AllocError>
    ensures { OnOk result (report.new ≡ report.old ++ flat_map (met_line region.now address) areas.now) }
{
    for area in areas {
        met_line(report, region, address, *area)?;
    }
    Ok(())
}

/// The areas that have one of `n` bytes from an address on.
fn met_areas<S: Store>(
    alloc: Global,
    store: &S,
    address: u32,
    n: u32,
) -> Result<Vec<Area>, AllocError>
    ensures { IfOk result (λ areas. areas.items ≡ filter (is_met address n) (areas_of (S.storage store.now))) }
{
    let mut areas = all_areas(alloc, store)?;
    areas.retain(|area| is_met(address, n, *area));
    Ok(areas)
}

/// Adds a line for each area that has one of `n` bytes from an address on, as `storage_text` has it, the area at the
/// lowest address first.
///
/// An error comes only where memory was refused.
pub fn met_lines<S: Store + Drop>(
    report: &mut Report,
    region: &Region<S>,
    address: u32,
    n: u32,
) -> Result<(), AllocError>
    ensures { let areas = filter (is_met address n) (areas_of region.now.shared.storage) in
        OnOk result (report.new ≡ report.old ++ flat_map (met_line region.now address) areas) }
{
    let areas = met_areas(report.alloc(), &region.shared().store, address, n)?;
    area_lines(report, region, address, &areas)
}

/// Looks at `n` bytes of storage from an address on: sixteen in each line, with hyphens for one that is in no area,
/// and a line for each area that has one of them, the one at the lowest address first. After X'FFFFFF' they go on at
/// address 0.
///
/// An error comes only where memory for the bytes or the report was refused.
#[tactic(auto, unfolding(crate::specs::Bytes::storage_text))]
pub fn storage_text<S: Store + Drop>(
    alloc: Global,
    region: &Region<S>,
    address: u32,
    n: u32,
) -> Result<Report, AllocError>
    ensures { IfOk result (λ report. report ≡ storage_text region.now address n) }
{
    let mut report = Report::new(alloc);
    row_lines(&mut report, address, &bytes_at(alloc, region, address, n)?)?;
    met_lines(&mut report, region, address, n)?;
    Ok(report)
}
