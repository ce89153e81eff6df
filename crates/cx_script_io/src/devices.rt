//! What a script is read from, and what its transcript is written to.

ghost use Rattle.std.specs.Prelude.{◌≡◌, ◌<◌, ◌≤◌, ◌||◌, ℕ, List, Bool, Option, IfOk, is_err, length};
ghost use Rattle.std.specs.Io.KnownBytes.{ReadConsumes, WriteAppends};
ghost use Rattle.cx_script_io.specs.Calls.{moved};
ghost use Rattle.cx_script_io.specs.Devices.{ReadsKnown, WritesKnown, is_refused};

use thiserror::Error;

/// A device did not do what it was asked: a read or a write failed, a write took no byte, or a file couldn't be opened.
#[derive(Clone, Copy, Debug, PartialEq, Eq, Error)]
#[error("the device failed")]
pub struct DeviceFault;

/// What a script is read from.
pub trait ScriptIn {
    /// The bytes that reads give from here on, where they are known.
    ghost left: { Self → Option (List ℕ) };

    /// Whether a read has failed.
    ghost has_failed: { Self → Bool };

    /// What a read into a buffer with room did: the state before it, the bytes that it gave (`None` where it failed),
    /// and the state after it. Where a type parameter stands for the device, nothing but a read gives this.
    ghost reads: { Self → Option (List ℕ) → Self → Type 0 };

    /// Reads the next bytes into the front of the buffer, and answers how many they are: none at
    /// the end, or where the buffer is empty. After a fault nothing was read.
    fn read(&mut self, buffer: &mut [u8]) -> Result<usize, DeviceFault>
        ensures bound { IfOk result (λ n. n ≤ length buffer.new) }
        ensures bytes { ReadConsumes (left self.old) (left self.new) result buffer.new }
        ensures failure { has_failed self.new ≡ (has_failed self.old || is_err result) }
        ensures call { 0 < length buffer.new → reads self.old (moved result buffer.new) self.new };

    /// Whether a read has failed.
    fn failed(&self) -> bool
        ensures { result ≡ has_failed self.now };

    /// What a read did to the bytes that are left, where they are known.
    ghost known: { (before after : Self) (given : Option (List ℕ)) → reads before given after
        → ReadsKnown (left before) given (left after) };
}

/// What a transcript is written to.
pub trait ScriptOut {
    /// The bytes that were written, where they are known.
    ghost written: { Self → Option (List ℕ) };

    /// Whether a write has failed, or took no byte of some.
    ghost has_failed: { Self → Bool };

    /// What a write did: the state before it, the bytes that it took (`None` where it failed), and the state after it.
    /// Where a type parameter stands for the device, nothing but a write gives this.
    ghost writes: { Self → Option (List ℕ) → Self → Type 0 };

    /// Writes bytes from the front, and answers how many were written. After a fault none was.
    fn write(&mut self, bytes: &[u8]) -> Result<usize, DeviceFault>
        ensures bound { IfOk result (λ n. n ≤ length bytes.now) }
        ensures bytes { WriteAppends (written self.old) (written self.new) result bytes.now }
        ensures failure { has_failed self.new ≡ (has_failed self.old || is_refused result bytes.now) }
        ensures call { writes self.old (moved result bytes.now) self.new };

    /// Whether a write has failed, or took no byte of some.
    fn failed(&self) -> bool
        ensures { result ≡ has_failed self.now };

    /// What a write did to the bytes that were written, where they are known.
    ghost known: { (before after : Self) (taken : Option (List ℕ)) → writes before taken after
        → WritesKnown (written before) taken (written after) };
}

/// What a script is read from and its transcript is written to, as one: the states that it goes through order reads and
/// writes in time.
pub trait ScriptDevices: ScriptIn + ScriptOut {
    /// A read leaves what was written.
    ghost read_keeps: { (before after : Self) (given : Option (List ℕ)) → Self.reads before given after
        → (Self.written after ≡ Self.written before)
        × (Self.ScriptOut.has_failed after ≡ Self.ScriptOut.has_failed before) };

    /// A write leaves what is to be read.
    ghost write_keeps: { (before after : Self) (taken : Option (List ℕ)) → Self.writes before taken after
        → (Self.left after ≡ Self.left before) × (Self.ScriptIn.has_failed after ≡ Self.ScriptIn.has_failed before) };
}
