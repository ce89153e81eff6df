//! The region of a trial.

ghost use Rattle.std.specs.Prelude.{IfOk};
ghost use Rattle.cx_region.specs.Sound.{IsSound};

use crate::calls::linking;
use crate::code::STG_LEN;
use crate::stop::{Stop, Violation};
use cx_code::{Bytes, Image, Offsets};
use cx_ebcdic::{Name4, Name8};
use cx_load::{CheckedImage, Loaded, check};
use cx_region::{DefineFault, Region};
use cx_storage_pages::PagedStore;
use std::alloc::Global;

/// The terminal T001, and the others, T002 and T003.
pub const HOSTILE: [u8; 4] = [0xE3, 0xF0, 0xF0, 0xF1];

pub const OTHERS: [[u8; 4]; 2] = [[0xE3, 0xF0, 0xF0, 0xF2], [0xE3, 0xF0, 0xF0, 0xF3]];

/// The transactions A, the hostile program's, and B, and the programs A and B.
const TRANSACTIONS: [[u8; 4]; 2] = [[0xC1, 0x40, 0x40, 0x40], [0xC2, 0x40, 0x40, 0x40]];

const A: [u8; 8] = [0xC1, 0x40, 0x40, 0x40, 0x40, 0x40, 0x40, 0x40];

const B: [u8; 8] = [0xC2, 0x40, 0x40, 0x40, 0x40, 0x40, 0x40, 0x40];

/// An image of a text, entered at its first byte; None where it has a fault.
pub fn image_of(text: Vec<u8>, stg_len: u32, alloc: Global) -> Option<CheckedImage> {
    let image = Image {
        text: Bytes::from_vec(text),
        entry: 0,
        relocs: Offsets::from_vec(Vec::new(alloc)),
        stg_len,
    };
    match check(image) {
        Ok(image) => Some(image),
        Err((_, _fault)) => None,
    }
}

// The calls of definitions without what their contracts ensure.

fn define_program(
    region: &mut Region<PagedStore>,
    name: [u8; 8],
    image: &CheckedImage,
) -> Result<Loaded, DefineFault> {
    region.define_program(Name8::from_bytes(name), image)
}

fn define_transaction(
    region: &mut Region<PagedStore>,
    name: [u8; 4],
    program: [u8; 8],
) -> Result<(), DefineFault> {
    region.define_transaction(Name4::from_bytes(name), Name8::from_bytes(program))
}

fn define_terminal(region: &mut Region<PagedStore>, name: [u8; 4]) -> Result<(), DefineFault> {
    region.define_terminal(Name4::from_bytes(name))
}

/// Defines the programs, their transactions and the terminals.
fn define(
    region: &mut Region<PagedStore>,
    other: &CheckedImage,
    hostile: &CheckedImage,
) -> Result<(), DefineFault> {
    define_program(region, B, other)?;
    define_program(region, A, hostile)?;
    let [a, b] = TRANSACTIONS;
    define_transaction(region, a, A)?;
    define_transaction(region, b, B)?;
    let [second, third] = OTHERS;
    define_terminal(region, HOSTILE)?;
    define_terminal(region, second)?;
    define_terminal(region, third)
}

/// The image of the program B.
pub fn other_image(alloc: Global) -> Result<CheckedImage, Stop> {
    match image_of(linking(alloc)?, STG_LEN, alloc) {
        Some(image) => Ok(image),
        None => Err(Stop::Met(Violation::Definition)),
    }
}

/// A region in which all programs, transactions and terminals of a trial are defined. Stop::Met(Definition) where a
/// definition is refused, Stop::Memory where memory ran out.
pub fn defined(
    alloc: Global,
    other: &CheckedImage,
    hostile: &CheckedImage,
) -> Result<Region<PagedStore>, Stop>
    ensures sound { IfOk result IsSound }
{
    let mut region = Region::new(alloc, PagedStore::new(alloc))?;
    define(&mut region, other, hostile)?;
    Ok(region)
}
