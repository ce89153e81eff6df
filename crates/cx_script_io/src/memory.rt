//! Devices over memory: a slice that is read, and a slice that is filled.

ghost use Rattle.std.specs.Prelude.{◌≡◌, ◌≤◌, ◌-◌, ◌||◌, IfOk, Some, Ok, [], false, length, min, take};
ghost use Rattle.std.specs.Io.KnownBytes.{WriteAppends};
ghost use Rattle.cx_script_io.specs.Calls.{moved};
ghost use Rattle.cx_script_io.specs.Devices.{ReadsKnown, WritesKnown, is_refused};

use crate::devices::{DeviceFault, ScriptIn, ScriptOut};

/// A script in memory: a slice that is read from its front. No read of it fails.
#[derive(Drop)]
pub struct MemoryIn<'a> {
    rest: &'a [u8],
}

impl<'a> MemoryIn<'a> {
    /// A reader of these bytes.
    pub fn new(bytes: &'a [u8]) -> MemoryIn<'a>
        ensures left { ⟦<MemoryIn<'a> as ScriptIn>⟧.left result ≡ Some bytes.entry.now }
        ensures failure { ⟦<MemoryIn<'a> as ScriptIn>⟧.has_failed result ≡ false }
    {
        MemoryIn { rest: bytes }
    }
}

impl<'a> ScriptIn for MemoryIn<'a> {
    ghost left = { λ s. Some s.rest.now };

    ghost has_failed = { λ _. false };

    ghost reads = { λ before given after. ReadsKnown (Some before.rest.now) given (Some after.rest.now) };

    ghost known = { λ _ _ _ h. h };

    #[tactic(auto, using(crate::specs::Facts::Devices::read_known))]
    fn read(&mut self, buffer: &mut [u8]) -> Result<usize, DeviceFault> {
        let n = buffer.len().min(self.rest.len());
        let (front, rest) = self.rest.split_at(n);
        buffer[..n].copy_from_slice(front);
        self.rest = rest;
        Ok(n)
    }

    fn failed(&self) -> bool {
        false
    }
}

/// A transcript in memory: a slice that is filled from its front. A write that it has no room for
/// takes what fits, and one that finds it full takes no byte.
#[derive(Drop)]
pub struct MemoryOut<'a> {
    buffer: &'a mut [u8],
    len: usize,
    failed: bool,
    ghost within: { len ≤ length buffer.now },
}

impl<'a> MemoryOut<'a> {
    /// A writer that fills this slice, all of it.
    pub fn new(buffer: &'a mut [u8]) -> MemoryOut<'a>
        ensures written { ⟦<MemoryOut<'a> as ScriptOut>⟧.written result ≡ Some [] }
        ensures failure { ⟦<MemoryOut<'a> as ScriptOut>⟧.has_failed result ≡ false }
        ensures room { length result.buffer.now - result.len ≡ length buffer.entry.now }
    {
        MemoryOut {
            buffer,
            len: 0,
            failed: false,
        }
    }

    /// How many bytes it has room for yet. A write takes at most as many.
    pub fn room(&self) -> usize
        ensures { result ≡ length self.now.buffer.now - self.now.len }
    {
        self.buffer.len() - self.len
    }

    /// The bytes that were written, from the slice's front.
    pub fn text(&self) -> &[u8]
        ensures { ⟦<MemoryOut<'a> as ScriptOut>⟧.written self.now ≡ Some result.now }
    {
        &self.buffer[..self.len]
    }
}

impl<'a> ScriptOut for MemoryOut<'a> {
    ghost written = { λ s. Some (take s.len s.buffer.now) };

    ghost has_failed = { λ s. s.failed };

    ghost writes = { λ before taken after. WritesKnown (Some (take before.len before.buffer.now)) taken
        (Some (take after.len after.buffer.now)) };

    ghost known = { λ _ _ _ h. h };

    /// Takes as many bytes as it has room for, and never answers a fault.
    fn write(&mut self, bytes: &[u8]) -> Result<usize, DeviceFault>
        ensures bound { IfOk result (λ n. n ≤ length bytes.now) }
        ensures bytes { let before = take self.old.len self.old.buffer.now in
            let after = take self.new.len self.new.buffer.now in
            WriteAppends (Some before) (Some after) result bytes.now }
        ensures failure { self.new.failed ≡ (self.old.failed || is_refused result bytes.now) }
        ensures call { let before = take self.old.len self.old.buffer.now in
            let after = take self.new.len self.new.buffer.now in
            WritesKnown (Some before) (moved result bytes.now) (Some after) }
        ensures all { result ≡ Ok (min (length bytes.now) (length self.old.buffer.now - self.old.len)) }
        ensures room { let room = length self.old.buffer.now - self.old.len in
            length self.new.buffer.now - self.new.len ≡ room - min (length bytes.now) room }
    {
        let len = self.len;
        let n = bytes.len().min(self.room());
        self.buffer[len..len + n].copy_from_slice(&bytes[..n]);
        self.len = len + n;
        if n == 0 && !bytes.is_empty() {
            self.failed = true;
        }
        Ok(n)
    }

    fn failed(&self) -> bool {
        self.failed
    }
}
