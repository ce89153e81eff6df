//! A reader and a writer as one.

ghost use Rattle.std.specs.Prelude.{◌≡◌};
ghost use Rattle.std.proofs.Common.{ap};

use crate::devices::{DeviceFault, ScriptDevices, ScriptIn, ScriptOut};

/// A reader and a writer that know nothing of each other, as one.
#[derive(Drop)]
pub struct Devices<R, W> {
    /// What the script is read from.
    pub reader: R,
    /// What its transcript is written to.
    pub writer: W,
}

impl<R: ScriptIn, W> ScriptIn for Devices<R, W> {
    ghost left = { λ s. R.left s.reader };

    ghost has_failed = { λ s. R.has_failed s.reader };

    ghost reads = { λ before given after. R.reads before.reader given after.reader × (after.writer ≡ before.writer) };

    ghost known = { λ before after given h. R.known before.reader after.reader given h.0 };

    fn read(&mut self, buffer: &mut [u8]) -> Result<usize, DeviceFault> {
        self.reader.read(buffer)
    }

    fn failed(&self) -> bool {
        self.reader.failed()
    }
}

impl<R, W: ScriptOut> ScriptOut for Devices<R, W> {
    ghost written = { λ s. W.written s.writer };

    ghost has_failed = { λ s. W.has_failed s.writer };

    ghost writes = { λ before taken after. W.writes before.writer taken after.writer × (after.reader ≡ before.reader) };

    ghost known = { λ before after taken h. W.known before.writer after.writer taken h.0 };

    fn write(&mut self, bytes: &[u8]) -> Result<usize, DeviceFault> {
        self.writer.write(bytes)
    }

    fn failed(&self) -> bool {
        self.writer.failed()
    }
}

impl<R: ScriptIn, W: ScriptOut> ScriptDevices for Devices<R, W> {
    ghost read_keeps = { λ before after given h. (ap W.written h.1, ap W.has_failed h.1) };

    ghost write_keeps = { λ before after taken h. (ap R.left h.1, ap R.has_failed h.1) };
}
