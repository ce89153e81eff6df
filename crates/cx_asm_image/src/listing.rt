//! Lines of the listing.

ghost use Rattle.std.specs.Prelude.{◌≡◌, ◌+◌, ◌/◌, ◌%◌, ◌<◌, ◌++◌, IfOk, OnOk};
ghost use Rattle.cx_asm_image.specs.Listing.{listing_line, number_column, object_column, offset_column};

use byteorder::{BigEndian, ByteOrder};
use cx_source::Text;
use std::alloc::{AllocError, Global};

/// Writes an offset, modulo 2^24, as 6 hexadecimal digits, or 6 blanks.
#[tactic(auto, unfolding(crate::specs::Listing::offset_column))]
fn push_offset(alloc: Global, line: &mut Vec<u8>, at: Option<u128>) -> Result<(), AllocError>
    ensures { OnOk result (line.new.items ≡ line.old.items ++ offset_column at) }
{
    match at {
        None => line.extend_from_slice(b"      "),
        Some(at) => {
            let mut bytes = [0; 3];
            BigEndian::write_u24(&mut bytes, (at % 0x100_0000) as u32);
            line.extend_from_slice(hex::encode_upper(alloc, bytes.as_slice())?.as_bytes())
        }
    }
}

/// Writes the first 8 bytes as hexadecimal digits, with blanks after them up to 16 columns.
#[tactic(auto, unfolding(crate::specs::Listing::object_column))]
fn push_object(alloc: Global, line: &mut Vec<u8>, object: &[u8]) -> Result<(), AllocError>
    ensures { OnOk result (line.new.items ≡ line.old.items ++ object_column object.now) }
{
    let (first, _) = object.split_at(object.len().min(8));
    let blanks = 16 - 2 * first.len();
    line.extend_from_slice(hex::encode_upper(alloc, first)?.as_bytes())?;
    line.resize(line.len() + blanks, b' ')
}

/// A digit of a number as a character.
fn digit(number: usize, weight: usize) -> u8
    requires { 0 < weight }
    ensures { result ≡ 48 + number / weight % 10 }
{
    b'0' + (number / weight % 10) as u8
}

/// The last 5 digits of a number, zeros before it.
#[tactic(auto, unfolding(crate::specs::Listing::number_column))]
fn number_column(number: usize) -> [u8; 5]
    ensures { result ≡ number_column number }
{
    [
        digit(number, 10_000),
        digit(number, 1_000),
        digit(number, 100),
        digit(number, 10),
        digit(number, 1),
    ]
}

/// A line of the listing: the offset modulo 2^24 as 6 hexadecimal digits, a blank, the first 8 bytes of the object in
/// 16 columns, a blank, the last 5 digits of the line's number, a blank, and the text. A line without an offset, or
/// without bytes, has blanks there.
///
/// An error comes only where an allocation failed.
#[tactic(auto, unfolding(crate::specs::Listing::listing_line))]
pub fn listing_line(
    alloc: Global,
    at: Option<u128>,
    object: &[u8],
    number: usize,
    text: &[u8],
) -> Result<Text, AllocError>
    ensures { IfOk result (λ line. line ≡ listing_line at object.now number text.now) }
{
    let mut line = Vec::with_capacity(alloc, 30 + text.len())?;
    push_offset(alloc, &mut line, at)?;
    line.push(b' ')?;
    push_object(alloc, &mut line, object)?;
    line.push(b' ')?;
    line.extend_from_slice(&number_column(number))?;
    line.push(b' ')?;
    line.extend_from_slice(text)?;
    Ok(Text::from_vec(line))
}
