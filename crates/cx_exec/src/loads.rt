//! Loads and stores.

ghost use Rattle.std.specs.Prelude.{◌≡◌};
ghost use Rattle.cx_exec.specs.Loads.{insert_byte};

/// A word with its bits 24 to 31 changed to a byte.
pub(crate) fn inserted(word: u32, byte: u8) -> u32
    ensures { result ≡ insert_byte word byte }
{
    word / 0x100 * 0x100 + u32::from(byte)
}
