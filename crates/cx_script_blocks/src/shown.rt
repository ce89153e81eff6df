//! Bytes of lines as they are shown.
ghost use Rattle.std.specs.Prelude.{◌≡◌};
ghost use Rattle.cx_script_blocks.specs.Shown.{printable_byte};

use cx_ebcdic::to_ebcdic;

/// A byte of a line as it is shown: itself, or a period where it is no character that has a code (`cx_ebcdic`).
pub fn printable_byte(c: u8) -> u8
    ensures { result ≡ printable_byte c }
{
    if to_ebcdic(char::from(c)).is_some() {
        c
    } else {
        b'.'
    }
}
