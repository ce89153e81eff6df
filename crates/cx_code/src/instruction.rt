//! An instruction: a row of the table and its fields.

ghost use Rattle.std.specs.Prelude.{◌≡◌, ◌↔◌, IsTrue, IsSome, IfSome};
ghost use Rattle.cx_code.specs.Spelling.{Instruction, instruction, AreInRange, format_with, r3_of, IsWellFormed};

use crate::table::{Format, Op};
use std::marker::Model;

/// The fields of an instruction, by its format, from left to right. A register or a mask is 0 to
/// 15, a displacement 0 to 4,095.
#[derive(Clone, Copy, PartialEq, Eq)]
pub enum Fields {
    /// The first register, or the mask of a BCR, and the second register.
    Rr {
        r1: u8,
        r2: u8,
    },
    /// The register, or the mask of a BC; index, base and displacement of the second operand.
    Rx {
        r1: u8,
        x2: u8,
        b2: u8,
        d2: u16,
    },
    /// The first register; the third register, or the mask of ICM and STCM; base and displacement
    /// of the second operand.
    Rs {
        r1: u8,
        r3: u8,
        b2: u8,
        d2: u16,
    },
    /// The immediate byte; base and displacement of the first operand.
    Si {
        i2: u8,
        b1: u8,
        d1: u16,
    },
    /// How many bytes the operands have, less one; base and displacement of each.
    Ss {
        l: u8,
        b1: u8,
        d1: u16,
        b2: u8,
        d2: u16,
    },
    /// How many bytes the first and the second operand have, each less one; base and displacement
    /// of each.
    Ss2 {
        l1: u8,
        l2: u8,
        b1: u8,
        d1: u16,
        b2: u8,
        d2: u16,
    },
}

impl Fields {
    /// The format of instructions that have such fields.
    pub fn format(self) -> Format
        ensures { result ≡ format_with self }
    {
        match self {
            Fields::Rr { .. } => Format::Rr,
            Fields::Rx { .. } => Format::Rx,
            Fields::Rs { .. } => Format::Rs,
            Fields::Si { .. } => Format::Si,
            Fields::Ss { .. } => Format::Ss,
            Fields::Ss2 { .. } => Format::Ss2,
        }
    }

    fn r3(self) -> u8
        ensures { result ≡ r3_of self }
    {
        match self {
            Fields::Rs { r3, .. } => r3,
            _ => 0,
        }
    }

    /// Whether each field is in its range.
    fn is_in_range(self) -> bool
        ensures { IsTrue result ↔ AreInRange self }
    {
        match self {
            Fields::Rr { r1, r2 } => r1 < 16 && r2 < 16,
            Fields::Rx { r1, x2, b2, d2 } => r1 < 16 && x2 < 16 && b2 < 16 && d2 < 4096,
            Fields::Rs { r1, r3, b2, d2 } => r1 < 16 && r3 < 16 && b2 < 16 && d2 < 4096,
            Fields::Si { b1, d1, .. } => b1 < 16 && d1 < 4096,
            Fields::Ss { b1, d1, b2, d2, .. } => b1 < 16 && d1 < 4096 && b2 < 16 && d2 < 4096,
            Fields::Ss2 {
                l1,
                l2,
                b1,
                d1,
                b2,
                d2,
            } => { l1 < 16 && l2 < 16 && b1 < 16 && d1 < 4096 && b2 < 16 && d2 < 4096 }
        }
    }
}

/// An instruction. Its fields are those of its row's format, each field is in its range, and a
/// shift's third register, which the machine ignores, is zero.
#[derive(Clone, Copy)]
pub struct Inst {
    op: Op,
    fields: Fields,
}

impl Model for Inst {
    ghost use Rattle.cx_code.specs.Spelling.{Instruction, instruction, IsWellFormed};

    ghost Value = { Instruction };

    ghost view = { λ s. instruction s.op s.fields };

    ghost invariant = { λ s. IsWellFormed (instruction s.op s.fields) };

    ghost inverse = { λ i. record { op = i.op; fields = i.fields } };
}

impl Inst {
    /// The instruction of this row with these fields. `None` where the fields aren't of the row's
    /// format, one is out of its range, or a shift's third register isn't zero.
    #[tactic(auto, unfolding(crate::specs::Spelling::IsWellFormed))]
    pub fn new(op: Op, fields: Fields) -> Option<Inst>
        ensures formed { IsSome result ↔ IsWellFormed (instruction op fields) }
        ensures value { IfSome result (λ i. i ≡ instruction op fields) }
    {
        let has_format = fields.format() == op.format();
        let has_third = op.is_shift() && fields.r3() != 0;
        if has_format && fields.is_in_range() && !has_third {
            Some(Inst::from_parts(op, fields))
        } else {
            None
        }
    }

    /// The instruction of a row with fields that are known to fit it.
    pub(crate) fn from_parts(op: Op, fields: Fields) -> Inst
        requires { IsWellFormed (instruction op fields) }
        ensures { result ≡ instruction op fields }
    {
        Inst { op, fields }
    }

    /// The row of the table that it is of.
    pub fn op(&self) -> Op
        ensures { result ≡ self.now.op }
    {
        self.op
    }

    /// The fields, those of the row's format, each in its range; a shift's third register is zero.
    #[tactic(auto, unfolding(crate::specs::Spelling::IsWellFormed))]
    pub fn fields(&self) -> Fields
        ensures value { result ≡ self.now.fields }
        ensures in_range { AreInRange result }
        ensures formed { IsWellFormed self.now }
    {
        self.fields
    }
}
