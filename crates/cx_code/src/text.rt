//! The text of a disassembled line.

ghost use Rattle.std.specs.Prelude.{◌≡◌, ◌+◌, ◌++◌, IfOk, OnOk, codes, string_bytes};
ghost use Rattle.cx_code.specs.Text.{index_text, instruction_text, operands, hex_pair, hex_text, line_text};

use crate::disassembly::{Line, LineContent};
use crate::instruction::{Fields, Inst};
use std::alloc::{AllocError, Global};
use std::fmt::Write;

/// Writes a storage operand whose length field is `l` at the end of a text: `D(L,B)`, where L is the
/// count of bytes.
fn push_counted(text: &mut String, d: u16, l: u8, b: u8) -> Result<(), AllocError>
    ensures { OnOk result (string_bytes text.new ≡ string_bytes text.old ++ index_text d (l + 1) b) }
{
    let count = u16::from(l) + 1;
    write!(text, "{d}({count},{b})")
}

/// Writes operands at the end of a text, in the assembler's order and as decimal numbers.
#[tactic(auto, unfolding(crate::specs::Text::operands))]
fn push_operands(text: &mut String, is_shift: bool, fields: Fields) -> Result<(), AllocError>
    ensures { OnOk result (string_bytes text.new ≡ string_bytes text.old ++ operands is_shift fields) }
{
    match fields {
        Fields::Rr { r1, r2 } => write!(text, "{r1},{r2}"),
        Fields::Rx { r1, x2, b2, d2 } => write!(text, "{r1},{d2}({x2},{b2})"),
        Fields::Rs { r1, b2, d2, .. } if is_shift => write!(text, "{r1},{d2}({b2})"),
        Fields::Rs { r1, r3, b2, d2 } => write!(text, "{r1},{r3},{d2}({b2})"),
        Fields::Si { i2, b1, d1 } => write!(text, "{d1}({b1}),{i2}"),
        Fields::Ss { l, b1, d1, b2, d2 } => {
            push_counted(text, d1, l, b1)?;
            write!(text, ",{d2}({b2})")
        }
        Fields::Ss2 {
            l1,
            l2,
            b1,
            d1,
            b2,
            d2,
        } => {
            push_counted(text, d1, l1, b1)?;
            text.push_str(",")?;
            push_counted(text, d2, l2, b2)
        }
    }
}

/// The text of an instruction: its mnemonic, a blank and its operands.
#[tactic(auto, unfolding(crate::specs::Text::instruction_text))]
fn instruction_text(alloc: Global, inst: &Inst) -> Result<String, AllocError>
    ensures { IfOk result (λ text. string_bytes text ≡ instruction_text inst.now) }
{
    let mut text = String::from_str(alloc, inst.op().name())?;
    text.push_str(" ")?;
    push_operands(&mut text, inst.op().is_shift(), inst.fields())?;
    Ok(text)
}

/// Writes a byte as two hexadecimal digits at the end of a text.
#[tactic(auto, using(std::proofs::lemmas::Fmt::hex_byte))]
fn push_hex_byte(text: &mut String, byte: u8) -> Result<(), AllocError>
    ensures { OnOk result (string_bytes text.new ≡ string_bytes text.old ++ hex_pair byte) }
{
    write!(text, "{byte:02X}")
}

/// Writes bytes as hexadecimal digits at the end of a text.
fn push_hex(text: &mut String, bytes: &[u8]) -> Result<(), AllocError>
    ensures { OnOk result (string_bytes text.new ≡ string_bytes text.old ++ hex_text bytes.now) }
{
    for byte in bytes {
        push_hex_byte(text, *byte)?;
    }
    Ok(())
}

/// The text of a constant of these bytes.
fn data_text(alloc: Global, bytes: &[u8]) -> Result<String, AllocError>
    ensures { IfOk result (λ text. string_bytes text ≡ codes "DC X'" ++ hex_text bytes.now ++ codes "'") }
{
    let mut text = String::from_str(alloc, "DC X'")?;
    push_hex(&mut text, bytes)?;
    text.push_str("'")?;
    Ok(text)
}

/// The text of a line, without its end: an instruction as its mnemonic, a blank and its operands in the assembler's
/// order, all decimal numbers, lengths as counts of bytes; bytes as `DC X'..'` in capital hexadecimal digits; a space
/// of n bytes as `DS XLn`.
///
/// An error comes only where an allocation failed.
#[tactic(auto, unfolding(crate::specs::Text::what_text))]
pub fn line_text(alloc: Global, line: &Line) -> Result<String, AllocError>
    ensures { IfOk result (λ text. string_bytes text ≡ line_text line.now) }
{
    match &line.what {
        LineContent::Code(inst) => instruction_text(alloc, inst),
        LineContent::Data(bytes) => data_text(alloc, bytes.as_slice()),
        LineContent::Space(count) => format!(in alloc; "DS XL{count}"),
    }
}
