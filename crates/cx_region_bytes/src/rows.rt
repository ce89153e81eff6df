//! Bytes of storage as they are shown in rows of sixteen.
ghost use Rattle.std.specs.Prelude.{◌≡◌, ◌<◌, ◌^◌, length};
ghost use Rattle.cx_region_bytes.specs.Rows.{bytes_at, character_at, character_group, character_of, hex_at, hex_group, hex_of, row_text};

use cx_base::{hexadecimal, in_columns, shown_byte};
use cx_region::Region;
use cx_storage::{Store, address_after};

/// Fills a buffer (of fewer than 2^32 bytes) with a region's storage from an address on; None is a byte that is in no area.
/// After X'FFFFFF' it goes on at address 0.
#[tactic(auto, using(crate::proofs::RowLemmas::all_read))]
pub fn read_bytes<S: Store + Drop>(region: &Region<S>, address: u32, bytes: &mut [Option<u8>])
    requires { length bytes.old < 2 ^ 32 }
    ensures { bytes.new ≡ bytes_at region.now.shared.storage address (length bytes.old) }
{
    for k in 0..bytes.len() {
        bytes[k] = region.byte(address_after(address, k as u32));
    }
}

/// A byte in hexadecimal; an absent one is two hyphens.
fn hex_of(byte: Option<u8>) -> [u8; 2]
    ensures { result ≡ hex_of byte }
{
    match byte {
        Some(byte) => hexadecimal::<2>(u32::from(byte)),
        None => *b"--",
    }
}

/// The character of a byte; that of an absent one is a hyphen.
fn character_of(byte: Option<u8>) -> [u8; 1]
    ensures { result ≡ character_of byte }
{
    match byte {
        Some(byte) => [shown_byte(byte)],
        None => *b"-",
    }
}

/// A byte of a row in hexadecimal: the one at `k`, counted from 0. Hyphens stand for an absent byte, blanks for one past
/// the row's end. It takes no memory.
#[tactic(auto, unfolding(crate::specs::Rows::hex_at))]
pub fn hex_at(row: &[Option<u8>], k: usize) -> [u8; 2]
    ensures { result ≡ hex_at row.now k }
{
    match row.get(k) {
        Some(byte) => hex_of(*byte),
        None => *b"  ",
    }
}

/// The character of a byte of a row; a blank stands for one past its end.
#[tactic(auto, unfolding(crate::specs::Rows::character_at))]
fn character_at(row: &[Option<u8>], k: usize) -> [u8; 1]
    ensures { result ≡ character_at row.now k }
{
    match row.get(k) {
        Some(byte) => character_of(*byte),
        None => *b" ",
    }
}

/// Four bytes of a row in hexadecimal: those at `k` (below 16) to `k` + 3, counted from 0. Hyphens stand for an absent
/// byte, blanks for one past the row's end. It takes no memory.
#[tactic(auto, unfolding(crate::specs::Rows::hex_group))]
pub fn hex_group(row: &[Option<u8>], k: usize) -> [u8; 8]
    requires { k < 16 }
    ensures { result ≡ hex_group row.now k }
{
    let a = hex_at(row, k);
    let b = hex_at(row, k + 1);
    let c = hex_at(row, k + 2);
    let d = hex_at(row, k + 3);
    in_columns::<8>(&[&a, &b, &c, &d])
}

/// The characters of four bytes of a row: those at `k` (below 16) to `k` + 3, counted from 0. A hyphen stands for an
/// absent byte, a blank for one past the row's end. It takes no memory.
#[tactic(auto, unfolding(crate::specs::Rows::character_group))]
pub fn character_group(row: &[Option<u8>], k: usize) -> [u8; 4]
    requires { k < 16 }
    ensures { result ≡ character_group row.now k }
{
    let a = character_at(row, k);
    let b = character_at(row, k + 1);
    let c = character_at(row, k + 2);
    let d = character_at(row, k + 3);
    in_columns::<4>(&[&a, &b, &c, &d])
}

/// A row of at most sixteen bytes: the address of its first one, its bytes in hexadecimal, and their characters. It takes
/// no memory.
#[tactic(auto, unfolding(crate::specs::Rows::row_text))]
pub fn row_text(at: u32, row: &[Option<u8>]) -> [u8; 61]
    ensures { result ≡ row_text at row.now }
{
    let place = hexadecimal::<6>(at);
    let a = hex_group(row, 0);
    let b = hex_group(row, 4);
    let c = hex_group(row, 8);
    let d = hex_group(row, 12);
    let e = character_group(row, 0);
    let f = character_group(row, 4);
    let g = character_group(row, 8);
    let h = character_group(row, 12);
    in_columns::<61>(&[
        &place, b"  ", &a, b" ", &b, b" ", &c, b" ", &d, b"  ", &e, &f, &g, &h,
    ])
}
