//! Instructions as bytes.

ghost use Rattle.std.specs.Prelude.{◌≡◌, ◌+◌, ◌*◌, ◌/◌, ◌%◌, ◌<◌, ◌≤◌, ◌++◌, [], ◌∷◌, List, ℕ, length, take, IfSome, IfNone, option_map};
ghost use Rattle.cx_code.specs.Table.{length_of, length_of_format};
ghost use Rattle.cx_code.specs.Spelling.{Instruction, AreInRange, spelling, Spells, Reads};
ghost use Rattle.cx_code.specs.Parts.Bytes.{bytes_with};
ghost use Rattle.cx_code.specs.Reading.{base_at, displacement_at, decoded_fields, fields_at, reading};

use crate::instruction::{Fields, Inst};
use crate::table::{Format, Op};
use arrayvec::ArrayVec;
use byteorder::{BigEndian, ByteOrder};
use std::marker::Model;

/// The bytes of an instruction, at most six.
#[derive(Drop)]
pub struct CodeBytes {
    bytes: ArrayVec<u8, 6>,
}

impl Model for CodeBytes {
    ghost use Rattle.std.specs.Prelude.{List, ℕ};

    ghost Value = { List ℕ };

    ghost view = { λ s. s.bytes.items };
}

impl CodeBytes {
    /// The operation code and the byte after it.
    fn start(code: u8, second: u8) -> CodeBytes
        ensures { result ≡ code ∷ second ∷ [] }
    {
        let mut bytes = ArrayVec::new();
        bytes.push(code);
        bytes.push(second);
        CodeBytes { bytes }
    }

    /// The bytes with a storage operand's halfword after them: base and displacement.
    fn with_address(mut self, base: u8, displacement: u16) -> CodeBytes
        requires room { length self ≤ 4 }
        requires base { base < 16 }
        requires displacement { displacement < 4096 }
        ensures { result ≡ self ++ (16 * base + displacement / 256) ∷ (displacement % 256) ∷ [] }
    {
        let mut halfword = [0; 2];
        BigEndian::write_u16(&mut halfword, u16::from(base) << 12 | displacement);
        self.bytes.push(halfword[0]);
        self.bytes.push(halfword[1]);
        self
    }

    /// The bytes, in their order: at most six.
    pub fn as_slice(&self) -> &[u8]
        ensures value { result.now ≡ self.now }
        ensures at_most_6 { length result.now ≤ 6 }
    {
        self.bytes.as_slice()
    }
}

/// Two fields of four bits as a byte.
fn halves(left: u8, right: u8) -> u8
    requires left { left < 16 }
    requires right { right < 16 }
    ensures { result ≡ 16 * left + right }
{
    left << 4 | right
}

/// The bytes of an operation code and the fields after it.
fn bytes_of(code: u8, fields: Fields) -> CodeBytes
    requires { AreInRange fields }
    ensures { result ≡ bytes_with code fields }
{
    match fields {
        Fields::Rr { r1, r2 } => CodeBytes::start(code, halves(r1, r2)),
        Fields::Rx { r1, x2, b2, d2 } => {
            CodeBytes::start(code, halves(r1, x2)).with_address(b2, d2)
        }
        Fields::Rs { r1, r3, b2, d2 } => {
            CodeBytes::start(code, halves(r1, r3)).with_address(b2, d2)
        }
        Fields::Si { i2, b1, d1 } => CodeBytes::start(code, i2).with_address(b1, d1),
        Fields::Ss { l, b1, d1, b2, d2 } => {
            CodeBytes::start(code, l)
                .with_address(b1, d1)
                .with_address(b2, d2)
        }
        Fields::Ss2 {
            l1,
            l2,
            b1,
            d1,
            b2,
            d2,
        } => {
            CodeBytes::start(code, halves(l1, l2))
                .with_address(b1, d1)
                .with_address(b2, d2)
        }
    }
}

/// The canonical spelling of an instruction, as many bytes as its length (Principles of Operation, GA22-7000,
/// "Instruction Formats").
#[tactic(auto, using(crate::proofs::SpellingLemmas::made_spells))]
pub fn encode(inst: &Inst) -> CodeBytes
    ensures value { result ≡ spelling inst.now }
    ensures spells { Spells inst.now result }
{
    bytes_of(inst.op().code(), inst.fields())
}

/// Base and displacement of the halfword at a place.
#[inline(always)]
fn address_at(bytes: &[u8], place: usize) -> (u8, u16)
    requires { place + 2 ≤ length bytes.now }
    ensures base { result.0 ≡ base_at place bytes.now }
    ensures displacement { result.1 ≡ displacement_at place bytes.now }
{
    let halfword = BigEndian::read_u16(&bytes[place..]);
    ((halfword >> 12) as u8, halfword & 0x0fff)
}

/// The fields of a format in the bytes of an instruction.
#[tactic(auto, unfolding(crate::specs::Reading::decoded_fields))]
#[inline(always)]
fn decoded_fields(format: Format, bytes: &[u8]) -> Fields
    requires { length_of_format format ≤ length bytes.now }
    ensures { result ≡ decoded_fields format bytes.now }
{
    let second = bytes[1];
    let (left, right) = (second >> 4, second & 0x0f);
    match format {
        Format::Rr => Fields::Rr {
            r1: left,
            r2: right,
        },
        Format::Rx => {
            let (b2, d2) = address_at(bytes, 2);
            Fields::Rx {
                r1: left,
                x2: right,
                b2,
                d2,
            }
        }
        Format::Rs => {
            let (b2, d2) = address_at(bytes, 2);
            Fields::Rs {
                r1: left,
                r3: right,
                b2,
                d2,
            }
        }
        Format::Si => {
            let (b1, d1) = address_at(bytes, 2);
            Fields::Si { i2: second, b1, d1 }
        }
        Format::Ss => {
            let (b1, d1) = address_at(bytes, 2);
            let (b2, d2) = address_at(bytes, 4);
            Fields::Ss {
                l: second,
                b1,
                d1,
                b2,
                d2,
            }
        }
        Format::Ss2 => {
            let (b1, d1) = address_at(bytes, 2);
            let (b2, d2) = address_at(bytes, 4);
            Fields::Ss2 {
                l1: left,
                l2: right,
                b1,
                d1,
                b2,
                d2,
            }
        }
    }
}

/// The fields that a row has in the bytes of an instruction; a shift's R3 field is ignored.
#[tactic(auto, unfolding(crate::specs::Reading::fields_at))]
#[inline(always)]
fn fields_at(op: Op, bytes: &[u8]) -> Fields
    requires { length_of op ≤ length bytes.now }
    ensures { result ≡ fields_at op bytes.now }
{
    match decoded_fields(op.format(), bytes) {
        Fields::Rs { r1, b2, d2, .. } if op.is_shift() => Fields::Rs { r1, r3: 0, b2, d2 },
        fields => fields,
    }
}

/// The instruction at the front of the bytes.
#[tactic(auto, unfolding(crate::specs::Reading::reading))]
#[inline(always)]
pub(crate) fn reading(bytes: &[u8]) -> Option<Inst>
    ensures { result ≡ reading bytes.now }
{
    let op = Op::from_code(*bytes.first()?)?;
    if bytes.len() < op.length() {
        return None;
    }
    Some(Inst::from_parts(op, fields_at(op, bytes)))
}

/// The instruction at the front of the bytes, and how many of them it is. A shift's R3 field is
/// ignored. `None` where the first byte is no operation code of the table, or the bytes are fewer
/// than the instruction's length.
#[inline(always)]
pub fn decode(bytes: &[u8]) -> Option<(Inst, usize)>
    ensures value { result ≡ option_map (λ i. (i, length_of i.op)) (reading bytes.now) }
    ensures found { IfSome result (λ f. (f.1 ≤ length bytes.now) × Reads (take f.1 bytes.now) f.0) }
    ensures none { IfNone result ((i : Instruction) (n : ℕ) → Reads (take n bytes.now) i → ⊥) }
{
    let inst = reading(bytes)?;
    Some((inst, inst.op().length()))
}
