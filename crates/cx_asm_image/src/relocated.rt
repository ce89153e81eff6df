//! Relocated words.

ghost use Rattle.std.specs.Prelude.{◌≡◌, ◌+◌, ◌*◌, ◌≤◌, ◌++◌, OnOk};
ghost use Rattle.cx_asm_image.specs.Relocated.{words_at};

use std::alloc::AllocError;

/// Appends the offsets of `count` fullwords, in bytes: the first is `at`, each further one 4 more. They end at or
/// before offset 65,536.
///
/// An error comes only where an allocation failed. Nothing is said of the list then: a caller drops it.
pub fn push_words(relocs: &mut Vec<u32>, at: u32, count: u32) -> Result<(), AllocError>
    requires { at + 4 * count ≤ 65536 }
    ensures { OnOk result (relocs.new.items ≡ relocs.old.items ++ words_at at count) }
{
    for copy in 0..count {
        relocs.push(at + 4 * copy)?;
    }
    Ok(())
}
