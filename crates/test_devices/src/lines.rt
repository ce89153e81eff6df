//! Long lines.

ghost use Rattle.std.specs.Prelude.{◌≡◌, ◌++◌, IfOk, replicate};

use std::alloc::{AllocError, Global};

/// A comment of `len` bytes, and what ends the line. An error means out of memory.
pub fn comment(alloc: Global, len: usize, end: &[u8]) -> Result<Vec<u8>, AllocError>
    ensures { IfOk result (λ line. line.items ≡ replicate len 42 ++ end.now) }
{
    let mut line = vec![in alloc; b'*'; len]?;
    line.extend_from_slice(end)?;
    Ok(line)
}
