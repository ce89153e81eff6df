//! Texts of programs made of calls, in the form that a translator gives them.

use std::alloc::{AllocError, Global};

/// What each text begins with: the program returns where EIBCALEN's second byte isn't zero, so a level that a program
/// begins for itself with a COMMAREA comes back; else it goes on after the constants.
const HEAD: [u8; 70] = [
    // 00: CLI 25(11),0; BC 8,X'46'(3)
    0x95, 0x00, 0xB0, 0x19, 0x47, 0x80, 0x30, 0x46,
    // 08: LA 0,X'1E'(3); ST 0,0(13); OI 0(13),X'80'; LA 1,0(13); LA 14,X'800'; BALR 14,14; and the block of RETURN
    0x41, 0x00, 0x30, 0x1E, 0x50, 0x00, 0xD0, 0x00, 0x96, 0x80, 0xD0, 0x00, 0x41, 0x10, 0xD0, 0x00,
    0x41, 0xE0, 0x08, 0x00, 0x05, 0xEE, 0x0E, 0x08, 0x00, 0x00, 0x00, 0x00,
    // 24: the names A, B and T002
    0xC1, 0x40, 0x40, 0x40, 0x40, 0x40, 0x40, 0x40, 0xC2, 0x40, 0x40, 0x40, 0x40, 0x40, 0x40, 0x40,
    0xE3, 0xF0, 0xF0, 0xF2, 0x40, 0x40, 0x40, 0x40,
    // 3C: the halfwords 0, 1, 4, 32,767 and 65,520
    0x00, 0x00, 0x00, 0x01, 0x00, 0x04, 0x7F, 0xFF, 0xFF, 0xF0,
];

/// Base and displacement of what calls name: in the text, whose base is R3, where it begins, its RETURN, the names, and
/// four of the halfwords.
pub const START: u16 = 0x3000;

pub const RETURN: u16 = 0x3008;

pub const A: u16 = 0x3024;

pub const B: u16 = 0x302C;

pub const T002: u16 = 0x3034;

pub const ZERO: u16 = 0x303C;

pub const FOUR: u16 = 0x3040;

pub const MOST_OF_AN_ITEM: u16 = 0x3042;

pub const MOST_OF_AN_AREA: u16 = 0x3044;

/// The terminal's name in the EIB.
pub const EIBTRMID: u16 = 0xB010;

/// After the head of DFHEISTG a word for an address, one for RESP, and forty bytes; and how long DFHEISTG is.
pub const POINTER: u16 = 0xD050;

pub const RESP: u16 = 0xD054;

pub const BYTES: u16 = 0xD058;

pub const STG_LEN: u32 = 128;

/// What is at the address in POINTER.
pub const AREA: u16 = 0x5000;

/// All names, all halfwords, and what a call may name that is neither of them; what a call can do most with comes more
/// than once.
pub const NAMES: [u16; 4] = [A, A, B, T002];

pub const HALFWORDS: [u16; 7] = [
    ZERO,
    0x303E,
    FOUR,
    FOUR,
    FOUR,
    MOST_OF_AN_ITEM,
    MOST_OF_AN_AREA,
];

pub const PLACES: [u16; 5] = [BYTES, AREA, START, RETURN, T002];

/// LA 1,0(13); LA 14,X'800'; BALR 14,14: the entry is called. L 5,80(13): AREA has what the command gave.
const ENTER: [u8; 14] = [
    0x41, 0x10, 0xD0, 0x00, 0x41, 0xE0, 0x08, 0x00, 0x05, 0xEE, 0x58, 0x50, 0xD0, 0x50,
];

/// B X'46'(3): from the first call on again.
const AGAIN: [u8; 4] = [0x47, 0xF0, 0x30, 0x46];

/// A text that gets longer by calls, and how many words the argument list of the latest has.
#[derive(Drop)]
pub struct Code {
    text: Vec<u8>,
    words: u8,
}

/// Base and displacement of a place in the text.
fn field_at(place: usize) -> u16 {
    START | (place % 4096) as u16
}

impl Code {
    /// The head of a text alone, without a call.
    pub fn new(alloc: Global) -> Result<Code, AllocError> {
        Ok(Code {
            text: Vec::from_slice(alloc, &HEAD)?,
            words: 0,
        })
    }

    /// Appends LA 0,argument, and ST 0 into the next word of DFHEIPL: `field` has the base and the displacement.
    pub fn argument(&mut self, field: u16) -> Result<(), AllocError> {
        let [base, displacement] = field.to_be_bytes();
        let word = self.words.saturating_mul(4);
        self.words = self.words.saturating_add(1);
        let instructions = [0x41, 0x00, base, displacement, 0x50, 0x00, 0xD0, word];
        Ok(self.text.extend_from_slice(&instructions)?)
    }

    /// Appends a call's block, with a branch round it, and puts its address into the first word of DFHEIPL.
    pub fn block(&mut self, block: &[u8]) -> Result<(), AllocError> {
        let start = self.text.len().saturating_add(4);
        let [base, displacement] = field_at(start.saturating_add(block.len())).to_be_bytes();
        self.text
            .extend_from_slice(&[0x47, 0xF0, base, displacement])?;
        self.text.extend_from_slice(block)?;
        self.words = 0;
        self.argument(field_at(start))
    }

    /// Appends an OI for the high bit of the list's last word, and the call.
    pub fn enter(&mut self) -> Result<(), AllocError> {
        let last = self.words.saturating_sub(1).saturating_mul(4);
        self.text.extend_from_slice(&[0x96, 0x80, 0xD0, last])?;
        Ok(self.text.extend_from_slice(&ENTER)?)
    }

    /// Appends a call with these arguments, each by its base and displacement.
    pub fn call(&mut self, block: [u8; 4], arguments: &[u16]) -> Result<(), AllocError> {
        self.block(&block)?;
        for argument in arguments {
            self.argument(*argument)?;
        }
        self.enter()
    }

    /// The text, whose calls begin again after the last.
    pub fn repeated(mut self) -> Result<Vec<u8>, AllocError> {
        self.text.extend_from_slice(&AGAIN)?;
        Ok(self.text)
    }
}
