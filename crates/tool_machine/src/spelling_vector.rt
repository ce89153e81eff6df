//! What a line of the spellings says of bytes.

ghost use Rattle.std.specs.Prelude.{◌≡◌, ◌++◌, IfOk, OnOk, string_bytes};
ghost use Rattle.cx_code.specs.Reading.{canonical};
ghost use Rattle.tool_machine.specs.Spellings.{description, numbers, with_commas};

use cx_code::{Fields, Inst, decode, encode};
use std::alloc::{AllocError, Global};
use std::fmt::Write;

/// The instruction whose canonical spelling the bytes are, all of them.
#[tactic(auto, unfolding(cx_code::specs::Reading::canonical))]
fn spelled(bytes: &[u8]) -> Option<Inst>
    ensures { result ≡ canonical bytes.now }
{
    let (inst, _) = decode(bytes)?;
    (encode(&inst).as_slice() == bytes).then_some(inst)
}

/// Writes operands at the end of a text, as numbers in the order of a source.
fn push_numbers(text: &mut String, is_shift: bool, fields: Fields) -> Result<(), AllocError>
    ensures { OnOk result (string_bytes text.new ≡ string_bytes text.old ++ with_commas (numbers is_shift fields)) }
{
    match fields {
        Fields::Rr { r1, r2 } => write!(text, "{r1},{r2}"),
        Fields::Rx { r1, x2, b2, d2 } => write!(text, "{r1},{d2},{x2},{b2}"),
        Fields::Rs { r1, b2, d2, .. } if is_shift => write!(text, "{r1},{d2},{b2}"),
        Fields::Rs { r1, r3, b2, d2 } => write!(text, "{r1},{r3},{d2},{b2}"),
        Fields::Si { i2, b1, d1 } => write!(text, "{d1},{b1},{i2}"),
        Fields::Ss { l, b1, d1, b2, d2 } => {
            let count = u16::from(l) + 1;
            write!(text, "{d1},{count},{b1},{d2},{b2}")
        }
        Fields::Ss2 {
            l1,
            l2,
            b1,
            d1,
            b2,
            d2,
        } => {
            let (first, second) = (u16::from(l1) + 1, u16::from(l2) + 1);
            write!(text, "{d1},{first},{b1},")?;
            write!(text, "{d2},{second},{b2}")
        }
    }
}

/// What a line is to say of these bytes: mnemonic, blank and operands of the instruction whose
/// canonical spelling they are, or `- -` where they are none.
#[tactic(auto, unfolding(crate::specs::Spellings::description))]
pub fn described(alloc: Global, bytes: &[u8]) -> Result<String, AllocError>
    ensures { IfOk result (λ text. string_bytes text ≡ description (canonical bytes.now)) }
{
    let Some(inst) = spelled(bytes) else {
        return String::from_str(alloc, "- -");
    };
    let mut text = String::from_str(alloc, inst.op().name())?;
    text.push_str(" ")?;
    push_numbers(&mut text, inst.op().is_shift(), inst.fields())?;
    Ok(text)
}
