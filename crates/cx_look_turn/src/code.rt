//! The bytes of an instruction.
ghost use Rattle.std.specs.Prelude.{◌≡◌, ◌<◌, ◌^◌};
ghost use Rattle.cx_exec.specs.Fetch.{code_bytes};

use cx_code::instruction_length;
use cx_storage::Store;
use std::marker::Model;

/// The bytes of one instruction, at most six.
#[derive(Drop)]
pub struct Code {
    bytes: [u8; 6],
    length: usize,
}

impl Model for Code {
    ghost use Rattle.std.specs.Prelude.{List, ℕ, take, ◌≤◌};

    ghost Value = { List ℕ };

    ghost view = { λ code. take code.length code.bytes };

    ghost invariant = { λ code. code.length ≤ 6 };
}

impl Code {
    /// The bytes, in their order.
    pub fn as_slice(&self) -> &[u8]
        ensures { result.now ≡ self.now }
    {
        &self.bytes[..self.length]
    }
}

/// The bytes of the instruction at an address, as many as the first one says; None where one is absent.
pub(crate) fn code_at<S: Store>(store: &S, at: u32) -> Option<Code>
    requires { at < 2 ^ 24 }
    ensures { result ≡ code_bytes (S.storage store.now) at }
{
    let length = instruction_length(store.byte(at)?);
    let mut bytes = [0; 6];
    let code = &mut bytes[..length];
    if !store.read(at, code) {
        return None;
    }
    Some(Code { bytes, length })
}
