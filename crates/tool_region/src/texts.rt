//! The texts of hostile images.

use crate::draws::Draws;
use cx_code::Op;
use std::alloc::{AllocError, Global};

/// A program: its text, the length of its working storage, and how many turns it gets.
#[derive(Drop)]
pub struct Subject {
    pub text: Vec<u8>,
    pub stg_len: u32,
    pub turns: u32,
}

/// The turns that most programs get.
pub const TURNS: u32 = 200;

/// The least length of working storage.
const LEAST_STG: u32 = 80;

/// LA 14,X'800' and BALR 14,14: the entry is called.
const ENTRY_CALL: [u8; 6] = [0x41, 0xE0, 0x08, 0x00, 0x05, 0xEE];

/// Base fields whose registers hold an address when a program is entered: R3, R15, R13, R11; and R1, which the rows
/// load.
const BASES: [u8; 5] = [0x30, 0xF0, 0xD0, 0xB0, 0x10];

/// All rows of the table of instructions.
pub fn all_rows(alloc: Global) -> Result<Vec<Op>, AllocError> {
    let mut rows = Vec::new(alloc);
    for code in 0..=255u8 {
        if let Some(op) = Op::from_code(code) {
            rows.push(op)?;
        }
    }
    Ok(rows)
}

/// A length of 2 to 4,096 bytes.
fn length(draws: &mut Draws) -> usize {
    (draws.below(4095) as usize).saturating_add(2)
}

/// A length of working storage, mostly a short one.
fn stg_len(draws: &mut Draws) -> u32 {
    if draws.is_one_in(16) {
        LEAST_STG.saturating_add(draws.below(1024))
    } else {
        LEAST_STG.saturating_add(draws.below(32))
    }
}

/// A program of bytes of any values.
pub fn plain(alloc: Global, draws: &mut Draws) -> Result<Subject, AllocError> {
    let mut text = Vec::new(alloc);
    for _k in 0..length(draws) {
        text.push(draws.byte())?;
    }
    Ok(Subject {
        text,
        stg_len: stg_len(draws),
        turns: TURNS,
    })
}

/// The bytes of a row with fields of any values, of which the first, up to the row's length, are its own. In three of
/// four its operands are near an address that a register holds.
fn row(draws: &mut Draws, op: Op) -> [u8; 6] {
    let mut bytes = [
        op.code(),
        draws.byte(),
        draws.byte(),
        draws.byte(),
        draws.byte(),
        draws.byte(),
    ];
    if !draws.is_one_in(4) {
        bytes[2] = draws.pick(&BASES).unwrap_or(0);
        bytes[4] = draws.pick(&BASES).unwrap_or(0);
    }
    if draws.is_one_in(2) {
        bytes[1] &= 0xF0;
    }
    bytes
}

/// Appends a row, or at times a call of the entry.
fn push_row(text: &mut Vec<u8>, draws: &mut Draws, rows: &[Op]) -> Result<(), AllocError> {
    if draws.is_one_in(16) {
        return Ok(text.extend_from_slice(&ENTRY_CALL)?);
    }
    let Some(op) = draws.pick(rows) else {
        return Ok(());
    };
    let bytes = row(draws, op);
    let (own, _) = bytes.split_at(op.length().min(6));
    Ok(text.extend_from_slice(own)?)
}

/// A program of rows of the table of instructions, with fields of any values.
pub fn of_rows(alloc: Global, draws: &mut Draws, rows: &[Op]) -> Result<Subject, AllocError> {
    let len = length(draws);
    let mut text = Vec::new(alloc);
    for _k in 0..len {
        if text.len() >= len {
            break;
        }
        push_row(&mut text, draws, rows)?;
    }
    text.truncate(len);
    Ok(Subject {
        text,
        stg_len: stg_len(draws),
        turns: TURNS,
    })
}

/// A program like another, with one to three bytes changed.
pub fn changed(alloc: Global, draws: &mut Draws, program: &Subject) -> Result<Subject, AllocError> {
    let mut text = Vec::from_slice(alloc, program.text.as_slice())?;
    for _k in 0..=draws.below(3) {
        let at = draws.below(4096) as usize % text.len().max(1);
        if let Some(byte) = text.get_mut(at) {
            *byte = draws.byte();
        }
    }
    Ok(Subject {
        text,
        stg_len: program.stg_len,
        turns: program.turns,
    })
}
