//! The alignment and the length of a constant.

ghost use Rattle.std.specs.Prelude.{◌≡◌, ◌≤◌, ◌<◌, ◌+◌, ◌-◌, ◌*◌, ◌/◌, ◌^◌, length, sum_by};
ghost use Rattle.cx_asm_expressions.specs.Fields.{fields};
ghost use Rattle.cx_asm_expressions.specs.Items.{alignment_of, length_of, size_of, value_length};
ghost use Rattle.cx_asm_expressions.specs.Kinds.{row_of_kind};

use crate::fields::packed_length;
use crate::items::Constant;
use crate::kinds::{ConstantKind, Style};
use crate::texts::character_count;

/// How many bytes hold `count` half bytes or bits, `each` of which make a byte.
fn rounded_up(count: usize, each: u8) -> usize
    requires { 1 ≤ each }
    ensures length { result ≡ (count + (each - 1)) / each }
    ensures bound { result ≤ count }
{
    let each = u128::from(each);
    let bytes = (count as u128 + (each - 1)) / each;
    bytes as usize
}

/// The length that a value gives itself.
fn natural_length(kind: ConstantKind, value: &[u8]) -> usize
    ensures length { result ≡ (row_of_kind kind).own_length value.now }
    ensures bound { result ≤ length value.now + 8 }
{
    match kind {
        ConstantKind::Character => character_count(value),
        ConstantKind::Hexadecimal => rounded_up(value.len(), 2),
        ConstantKind::Binary => rounded_up(value.len(), 8),
        ConstantKind::Packed => packed_length(value),
        _ => kind.own_length(),
    }
}

/// The length of one value: the modifier, or its own.
pub(crate) fn value_length(kind: ConstantKind, modifier: Option<u16>, value: &[u8]) -> usize
    ensures length { result ≡ value_length kind modifier value.now }
    ensures bound { result ≤ 65536 + length value.now }
{
    match modifier {
        Some(modifier) => usize::from(modifier),
        None => natural_length(kind, value),
    }
}

/// The length of values between commas.
#[tactic(auto, using(crate::proofs::FieldLemmas::sum_split))]
fn fields_length(kind: ConstantKind, modifier: Option<u16>, body: &[u8]) -> u128
    ensures length { result ≡ sum_by (value_length kind modifier) (fields body.now) }
    ensures bound { result ≤ 65537 * (length body.now + 1) }
{
    let mut total = 0;
    let mut start = 0;
    for (i, c) in body.iter().enumerate() {
        if *c == b',' {
            total += value_length(kind, modifier, &body[start..i]) as u128;
            start = i + 1;
        }
    }
    total + value_length(kind, modifier, &body[start..]) as u128
}

impl Constant<'_> {
    /// The boundary that it is aligned to, in bytes: 1, 2, 4 or 8. A length modifier takes the alignment away. It takes
    /// no memory.
    pub fn alignment(&self) -> u32
        ensures { result ≡ alignment_of self.now }
    {
        if self.modifier().is_some() {
            1
        } else {
            self.kind().alignment()
        }
    }

    /// The number of bytes of one copy: of all its values, without duplication; below 2^84. It takes no memory.
    #[tactic(auto, unfolding(crate::specs::Items::length_of))]
    pub fn length(&self) -> u128
        ensures length { result ≡ length_of self.now }
        ensures bound { result < 2 ^ 84 }
    {
        let kind = self.kind();
        let modifier = self.modifier();
        let Some(body) = self.value() else {
            return match modifier {
                Some(modifier) => u128::from(modifier),
                None => kind.own_length() as u128,
            };
        };
        match kind.style() {
            Style::Values => fields_length(kind, modifier, body),
            _ => value_length(kind, modifier, body) as u128,
        }
    }

    /// The number of bytes of all copies: the length as often as the duplication factor says. It takes no memory.
    pub fn size(&self) -> u128
        ensures { result ≡ size_of self.now }
    {
        u128::from(self.duplication()) * self.length()
    }
}
