//! Fetching an instruction.

ghost use Rattle.std.specs.Prelude.{◌≡◌, ◌≤◌, ◌<◌, ◌^◌, Some, IfSome, length};
ghost use Rattle.cx_exec.specs.Fetch.{code_at, code_bytes, read_as};
ghost use Rattle.cx_exec.specs.Step.{joined_second};

use crate::machine::Interruption;
use cx_code::{Inst, decode, instruction_length};
use cx_storage::Store;
use std::marker::Model;

/// The bytes of one instruction, the first ones of eight.
#[derive(Drop)]
pub(crate) struct Code {
    bytes: [u8; 8],
    length: usize,
}

impl Model for Code {
    ghost use Rattle.std.specs.Prelude.{List, ℕ, take, ◌≤◌};

    ghost Value = { List ℕ };

    ghost view = { λ code. take code.length code.bytes };

    ghost invariant = { λ code. code.length ≤ 6 };
}

impl Code {
    /// How many bytes the instruction has.
    pub(crate) fn len(&self) -> usize
        ensures value { result ≡ length self.now }
        ensures at_most_6 { result ≤ 6 }
    {
        self.length
    }

    /// The instruction that the bytes read as.
    #[tactic(auto, unfolding(crate::specs::Fetch::read_as))]
    #[inline(always)]
    pub(crate) fn read(&self) -> Result<Inst, Interruption>
        ensures { result ≡ read_as self.now }
    {
        match decode(&self.bytes[..self.length]) {
            Some((inst, _)) => Ok(inst),
            None => Err(Interruption::Operation),
        }
    }

    /// Joins a byte to the second one, which every instruction has, by OR.
    pub(crate) fn join_second(&mut self, low: u8)
        ensures { self.new ≡ joined_second low self.old }
    {
        if self.length > 1 {
            self.bytes[1] |= low;
        }
    }
}

/// The bytes of the instruction at an address, where eight bytes from there on are lent in one piece.
#[tactic(auto, using(crate::proofs::FetchLemmas::lent_is_code, cx_storage::specs::Facts::Spans::span_length))]
#[inline(always)]
fn lent_code<S: Store>(store: &S, at: u32) -> Option<Code>
    requires { at < 2 ^ 24 }
    ensures { IfSome result (λ code. code_bytes (S.storage store.now) at ≡ Some code) }
{
    let part = store.slice(at, 8)?;
    let length = instruction_length(part[0]);
    let mut bytes = [0; 8];
    bytes.copy_from_slice(part);
    Some(Code { bytes, length })
}

/// The bytes of the instruction at an address, copied; None where one is absent.
#[cold]
#[inline(never)]
fn code_slow<S: Store>(store: &S, at: u32) -> Option<Code>
    requires { at < 2 ^ 24 }
    ensures { result ≡ code_bytes (S.storage store.now) at }
{
    let length = instruction_length(store.byte(at)?);
    let mut bytes = [0; 8];
    let code = &mut bytes[..length];
    if !store.read(at, code) {
        return None;
    }
    Some(Code { bytes, length })
}

/// The bytes of the instruction at an address.
#[tactic(auto, unfolding(crate::specs::Fetch::code_at))]
#[inline(always)]
pub(crate) fn code_at<S: Store>(store: &S, at: u32) -> Result<Code, Interruption>
    requires { at < 2 ^ 24 }
    ensures { result ≡ code_at (S.storage store.now) at }
{
    if at % 2 == 1 {
        return Err(Interruption::Specification);
    }
    if let Some(code) = lent_code(store, at) {
        return Ok(code);
    }
    code_slow(store, at).ok_or(Interruption::Addressing)
}
