//! The lines of a script.

ghost use Rattle.std.specs.Prelude.{◌≡◌, ◌<◌, ◌≤◌, ◌==◌, ◌∷◌, ◌+◌, ◌++◌, IfSome, IfNone, length, take, drop, position};
ghost use Rattle.std.specs.Option.{option_map, option_to_list};
ghost use Rattle.std.specs.Str.Lines.{strip_carriage_return};
ghost use Rattle.cx_script_io.specs.Lines.{is_too_long, last_met};
ghost use Rattle.cx_script_io.specs.Unbroken.{IsUnbroken};

use crate::input::Ending;

/// The most bytes that a line may have.
const MOST_IN_LINE: usize = 4_096;

/// The byte that ends a line.
const LINE_FEED: u8 = b'\n';

/// The byte that is dropped before it.
const CARRIAGE_RETURN: u8 = b'\r';

/// A part without the carriage return at its end, if it has one.
pub fn strip_carriage_return(part: &[u8]) -> &[u8]
    ensures { result.now ≡ strip_carriage_return part.now }
{
    let len = part.len();
    if len > 0 && part[len - 1] == CARRIAGE_RETURN {
        return &part[..len - 1];
    }
    part
}

/// The place of the first line feed.
fn end_of_line(bytes: &[u8]) -> Option<usize>
    ensures { result ≡ position (λ b. b == 10) bytes.now }
{
    bytes.iter().position(|byte| *byte == LINE_FEED)
}

/// The bytes in front of the first line feed, and those after it; None where there is no line feed.
#[tactic(auto, using(crate::specs::Facts::Lines::split_found, crate::specs::Facts::Lines::split_unbroken, crate::specs::Facts::Lines::split_none))]
pub fn split_line(bytes: &[u8]) -> Option<(&[u8], &[u8])>
    ensures found { IfSome result (λ found. bytes.now ≡ found.0.now ++ 10 ∷ found.1.now) }
    ensures unbroken { IfSome result (λ found. IsUnbroken found.0.now) }
    ensures none { IfNone result (IsUnbroken bytes.now) }
{
    match end_of_line(bytes) {
        Some(end) => Some((in_front(bytes, end), after(bytes, end))),
        None => None,
    }
}

/// The first `end` bytes, of which there are at least as many.
pub fn in_front(bytes: &[u8], end: usize) -> &[u8]
    requires { end ≤ length bytes.now }
    ensures { result.now ≡ take end bytes.now }
{
    bytes.split_at(end).0
}

/// The bytes after a place.
fn after(bytes: &[u8], end: usize) -> &[u8]
    requires { end < length bytes.now }
    ensures { result.now ≡ drop (end + 1) bytes.now }
{
    bytes.split_at(end + 1).1
}

/// The bytes after the last line feed, where they are a line: at the end of a script where there are any; where no more
/// can be read, only where they are too long already, a carriage return at their end not counted and dropped.
pub fn last_line(bytes: &[u8], ending: Ending) -> Option<&[u8]>
    ensures { option_to_list (option_map (λ line. line.now) result) ≡ last_met ending bytes.now }
{
    if ending == Ending::AtEnd {
        return if bytes.is_empty() { None } else { Some(bytes) };
    }
    let line = strip_carriage_return(bytes);
    if is_too_long(line) { Some(line) } else { None }
}

/// Whether a line has more than 4,096 bytes.
pub fn is_too_long(line: &[u8]) -> bool
    ensures { result ≡ is_too_long line.now }
{
    line.len() > MOST_IN_LINE
}
