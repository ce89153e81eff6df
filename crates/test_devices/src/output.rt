//! A transcript that is written piece by piece.

ghost use Rattle.std.specs.Prelude.{◌≡◌, ◌≤◌, ◌-◌, ◌||◌, ◌&&◌, ◌==◌, IfOk, Some, [], is_err, true, false, length, nat_lt};
ghost use Rattle.std.specs.Io.KnownBytes.{WriteAppends};
ghost use Rattle.cx_script_io.specs.Calls.{moved};
ghost use Rattle.cx_script_io.specs.Devices.{WritesKnown, is_refused};
ghost use Rattle.test_devices.specs.Room.{bytes_moved};

use cx_script_io::{DeviceFault, MemoryOut, ScriptOut};

/// A transcript that takes at most a fixed number of bytes, at least one, in each write, until its slice is full. A
/// write past the slice's last byte takes none, or fails.
#[derive(Drop)]
pub struct PieceOut<'a> {
    text: MemoryOut<'a>,
    most: usize,
    fails: bool,
}

impl<'a> PieceOut<'a> {
    /// A writer that fills this slice and takes no byte after it.
    pub fn new(buffer: &'a mut [u8], most: usize) -> PieceOut<'a>
        ensures written { ⟦<PieceOut<'a> as ScriptOut>⟧.written result ≡ Some [] }
        ensures failure { ⟦<PieceOut<'a> as ScriptOut>⟧.has_failed result ≡ false }
        ensures room { length result.text.buffer.now - result.text.len ≡ length buffer.entry.now }
        ensures pieces { result.most ≡ most }
        ensures takes_none { result.fails ≡ false }
    {
        PieceOut {
            text: MemoryOut::new(buffer),
            most,
            fails: false,
        }
    }

    /// A writer that fills this slice and fails after it.
    pub fn failing(buffer: &'a mut [u8], most: usize) -> PieceOut<'a>
        ensures written { ⟦<PieceOut<'a> as ScriptOut>⟧.written result ≡ Some [] }
        ensures failure { ⟦<PieceOut<'a> as ScriptOut>⟧.has_failed result ≡ false }
        ensures room { length result.text.buffer.now - result.text.len ≡ length buffer.entry.now }
        ensures pieces { result.most ≡ most }
        ensures fails { result.fails ≡ true }
    {
        PieceOut {
            fails: true,
            ..PieceOut::new(buffer, most)
        }
    }

    /// What was written.
    pub fn text(&self) -> &[u8]
        ensures { ⟦<PieceOut<'a> as ScriptOut>⟧.written self.now ≡ Some result.now }
    {
        self.text.text()
    }
}

impl<'a> ScriptOut for PieceOut<'a> {
    ghost written = { λ s. ⟦<MemoryOut<'a> as ScriptOut>⟧.written s.text };

    ghost has_failed = { λ s. ⟦<MemoryOut<'a> as ScriptOut>⟧.has_failed s.text };

    ghost writes = { λ before taken after. WritesKnown (⟦<MemoryOut<'a> as ScriptOut>⟧.written before.text) taken
        (⟦<MemoryOut<'a> as ScriptOut>⟧.written after.text) };

    ghost known = { λ _ _ _ h. h };

    #[tactic(auto, using(cx_script_io::specs::Facts::Devices::write_known))]
    fn write(&mut self, bytes: &[u8]) -> Result<usize, DeviceFault>
        ensures bound { IfOk result (λ n. n ≤ length bytes.now) }
        ensures bytes { WriteAppends (⟦<MemoryOut<'a> as ScriptOut>⟧.written self.old.text)
            (⟦<MemoryOut<'a> as ScriptOut>⟧.written self.new.text) result bytes.now }
        ensures failure { ⟦<MemoryOut<'a> as ScriptOut>⟧.has_failed self.new.text
            ≡ (⟦<MemoryOut<'a> as ScriptOut>⟧.has_failed self.old.text || is_refused result bytes.now) }
        ensures call { WritesKnown (⟦<MemoryOut<'a> as ScriptOut>⟧.written self.old.text) (moved result bytes.now)
            (⟦<MemoryOut<'a> as ScriptOut>⟧.written self.new.text) }
        ensures fault { let room = length self.old.text.buffer.now - self.old.text.len in
            is_err result ≡ (self.old.fails && (room == 0 && nat_lt 0 (length bytes.now))) }
        ensures piece { let room = length self.old.text.buffer.now - self.old.text.len in
            IfOk result (λ n. n ≡ bytes_moved self.old.most (length bytes.now) room) }
        ensures room { let room = length self.old.text.buffer.now - self.old.text.len in
            length self.new.text.buffer.now - self.new.text.len ≡ room
            - bytes_moved self.old.most (length bytes.now) room }
        ensures kept { (self.new.most ≡ self.old.most) × (self.new.fails ≡ self.old.fails) }
    {
        let n = bytes.len().min(self.most.max(1));
        let taken = self.text.write(&bytes[..n])?;
        if taken == 0 && n > 0 && self.fails {
            return Err(DeviceFault);
        }
        Ok(taken)
    }

    fn failed(&self) -> bool {
        self.text.failed()
    }
}
