//! How much working storage a program has.

ghost use Rattle.std.specs.Prelude.{◌≡◌};
ghost use Rattle.cx_asm_image.specs.Storage.{working_storage};

/// The working storage of a program, in bytes, from the length of its DSECT DFHEISTG, 0 where there is none: 80 where
/// it is shorter, and 65,521, which no image may have, where it is above 65,520. It takes no memory.
pub fn working_storage(length: u128) -> u32
    ensures { result ≡ working_storage length }
{
    length.min(65_521).max(80) as u32
}
