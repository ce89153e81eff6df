//! A script that is read piece by piece.

ghost use Rattle.std.specs.Prelude.{◌≡◌, ◌<◌, ◌≤◌, ◌||◌, ◌&&◌, ◌==◌, IfOk, Some, is_err, true, false, length};
ghost use Rattle.std.specs.Io.KnownBytes.{ReadConsumes};
ghost use Rattle.cx_script_io.specs.Calls.{moved};
ghost use Rattle.cx_script_io.specs.Devices.{ReadsKnown};
ghost use Rattle.test_devices.specs.Room.{bytes_moved};

use cx_script_io::{DeviceFault, ScriptIn};

/// A script that gives at most a fixed number of bytes, at least one, in each read. After the last it ends, or a read
/// fails.
#[derive(Drop)]
pub struct PieceIn<'a> {
    rest: &'a [u8],
    first: usize,
    most: usize,
    fails: bool,
    failed: bool,
}

impl<'a> PieceIn<'a> {
    /// A reader of these bytes that ends after them.
    pub fn new(bytes: &'a [u8], most: usize) -> PieceIn<'a>
        ensures left { ⟦<PieceIn<'a> as ScriptIn>⟧.left result ≡ Some bytes.entry.now }
        ensures failure { ⟦<PieceIn<'a> as ScriptIn>⟧.has_failed result ≡ false }
        ensures pieces { (result.first ≡ most) × (result.most ≡ most) }
        ensures ends { result.fails ≡ false }
    {
        PieceIn {
            rest: bytes,
            first: most,
            most,
            fails: false,
            failed: false,
        }
    }

    /// A reader of these bytes whose read after them fails.
    pub fn failing(bytes: &'a [u8], most: usize) -> PieceIn<'a>
        ensures left { ⟦<PieceIn<'a> as ScriptIn>⟧.left result ≡ Some bytes.entry.now }
        ensures failure { ⟦<PieceIn<'a> as ScriptIn>⟧.has_failed result ≡ false }
        ensures pieces { (result.first ≡ most) × (result.most ≡ most) }
        ensures fails { result.fails ≡ true }
    {
        PieceIn {
            fails: true,
            ..PieceIn::new(bytes, most)
        }
    }

    /// The reader, whose first read gives at most `first` bytes.
    pub fn beginning(self, first: usize) -> PieceIn<'a>
        ensures { result ≡ record self.entry { first = first } }
    {
        PieceIn { first, ..self }
    }
}

impl<'a> ScriptIn for PieceIn<'a> {
    ghost left = { λ s. Some s.rest.now };

    ghost has_failed = { λ s. s.failed };

    ghost reads = { λ before given after. ReadsKnown (Some before.rest.now) given (Some after.rest.now) };

    ghost known = { λ _ _ _ h. h };

    #[tactic(auto, using(cx_script_io::specs::Facts::Devices::read_known))]
    fn read(&mut self, buffer: &mut [u8]) -> Result<usize, DeviceFault>
        ensures bound { IfOk result (λ n. n ≤ length buffer.new) }
        ensures bytes { ReadConsumes (Some self.old.rest.now) (Some self.new.rest.now) result buffer.new }
        ensures failure { self.new.failed ≡ (self.old.failed || is_err result) }
        ensures call { 0 < length buffer.new
            → ReadsKnown (Some self.old.rest.now) (moved result buffer.new) (Some self.new.rest.now) }
        ensures fault { is_err result ≡ (self.old.fails && length self.old.rest.now == 0) }
        ensures piece { IfOk result
            (λ n. n ≡ bytes_moved self.old.first (length buffer.new) (length self.old.rest.now)) }
        ensures next { IfOk result (λ _. self.new.first ≡ self.old.most) }
        ensures kept { (self.new.most ≡ self.old.most) × (self.new.fails ≡ self.old.fails) }
    {
        if self.rest.is_empty() && self.fails {
            self.failed = true;
            return Err(DeviceFault);
        }
        let n = buffer.len().min(self.rest.len()).min(self.first.max(1));
        let (front, after) = self.rest.split_at(n);
        buffer[..n].copy_from_slice(front);
        self.rest = after;
        self.first = self.most;
        Ok(n)
    }

    fn failed(&self) -> bool {
        self.failed
    }
}
