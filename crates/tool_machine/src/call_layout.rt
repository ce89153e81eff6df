//! Where fields lie in their sections, and what an argument's expression addresses (OS/VS-DOS/VSE-VM/370 Assembler
//! Language, GC33-4010, "DS -- Define Storage"; GA22-7000, "Address Generation").

use crate::call_case::Case;
use cx_base::EibField;
use cx_storage::address_in;
use std::alloc::{AllocError, Global};

/// The offset of the program's own fields in DFHEISTG, and of the words before them.
const OWN_FIELDS: u32 = 80;

const POINTER: u32 = 72;

/// The fields of the EXEC interface block.
const EIB: [EibField; 11] = [
    EibField::Time,
    EibField::Date,
    EibField::Trnid,
    EibField::Taskn,
    EibField::Trmid,
    EibField::Calen,
    EibField::Aid,
    EibField::Fn,
    EibField::Rcode,
    EibField::Rsrce,
    EibField::Resp,
];

/// A name, with its section and its offset there.
#[derive(Clone, Copy)]
pub struct Symbol<'a> {
    section: &'a str,
    name: &'a str,
    offset: u32,
    length: u32,
}

/// One less than the boundary of a definition, and its length.
fn size_of(definition: &str) -> (u32, u32) {
    match definition {
        "F" => (3, 4),
        "H" => (1, 2),
        "0H" => (1, 0),
        text => {
            let digits = text.strip_prefix("CL").unwrap_or("");
            (0, digits.parse::<u32>().unwrap_or(0))
        }
    }
}

/// The offset after the fields that a section has so far.
fn next_offset(symbols: &[Symbol<'_>], section: &str) -> u32 {
    let mut at = if section == "DFHEISTG" { OWN_FIELDS } else { 0 };
    for symbol in symbols {
        if symbol.section == section {
            at = symbol.offset.saturating_add(symbol.length);
        }
    }
    at
}

/// The case's fields with their offsets: each begins at the next offset on its boundary, in DFHEISTG from 80 on.
pub fn symbols_of<'a>(alloc: Global, case: &'a Case) -> Result<Vec<Symbol<'a>>, AllocError> {
    let mut symbols = Vec::new(alloc);
    for field in case.fields.iter() {
        let section = field.section.as_str();
        let (mask, length) = size_of(field.definition.as_str());
        let at = next_offset(symbols.as_slice(), section);
        symbols.push(Symbol {
            section,
            name: field.name.as_str(),
            offset: at.saturating_add(mask) & !mask,
            length,
        })?;
    }
    Ok(symbols)
}

/// Where the sections of a program lie.
#[derive(Drop)]
pub struct Layout<'a> {
    /// The case that says what the sections have.
    pub case: &'a Case,
    /// The case's fields with their offsets.
    pub symbols: &'a [Symbol<'a>],
    /// The address of the control section.
    pub program: u32,
    /// The address of DFHEISTG.
    pub storage: u32,
    /// The address of the EXEC interface block.
    pub eib: u32,
}

impl<'a> Layout<'a> {
    /// The address of a section.
    fn section(&self, name: &str) -> Option<u32> {
        match name {
            "P" => Some(self.program),
            "DFHEISTG" => Some(self.storage),
            other => {
                let section = self
                    .case
                    .sections
                    .iter()
                    .find(|section| section.name.as_str() == other)?;
                Some(section.address)
            }
        }
    }

    /// What a term addresses: a number itself, a section its beginning, a name its section's address and its offset.
    fn term(&self, text: &str) -> Option<u32> {
        if let Ok(number) = text.parse::<u32>() {
            return Some(number);
        }
        if text == "DFHEITP" {
            return Some(self.storage.wrapping_add(POINTER));
        }
        if let Some(field) = EIB.iter().find(|field| field.name() == text) {
            return Some(self.eib.wrapping_add(field.offset()));
        }
        match self.symbols.iter().find(|symbol| symbol.name == text) {
            Some(symbol) => Some(self.section(symbol.section)?.wrapping_add(symbol.offset)),
            None => self.section(text),
        }
    }

    /// The sum of an expression's terms; None where one of them isn't known.
    pub fn sum(&self, text: &str) -> Option<u32> {
        let mut sum = 0u32;
        for part in text.split('+') {
            sum = sum.wrapping_add(self.term(part)?);
        }
        Some(sum)
    }

    /// The address of an argument, below 2^24: the sum, and what index and base hold, where they are given. Register 0
    /// is neither. None where a part of it isn't known.
    pub fn place(&self, regs: &[u32; 16], text: &str) -> Option<u32> {
        let Some((sum, subfields)) = text.split_once('(') else {
            return Some(address_in(self.sum(text)?));
        };
        let (subfields, _) = subfields.split_once(')')?;
        let (index, base) = subfields.split_once(',').unwrap_or((subfields, "0"));
        let place = self
            .sum(sum)?
            .wrapping_add(held(regs, index)?)
            .wrapping_add(held(regs, base)?);
        Some(address_in(place))
    }
}

/// What a register holds as an index or a base.
fn held(regs: &[u32; 16], register: &str) -> Option<u32> {
    match register.parse::<usize>() {
        Ok(0) => Some(0),
        Ok(number) => regs.get(number).copied(),
        Err(_) => None,
    }
}
