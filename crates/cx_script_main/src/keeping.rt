//! Devices of which what was read is kept.

ghost use Rattle.std.specs.Prelude.{◌≡◌, ◌++◌, [], IfSome, None, Some, if◌then◌else◌};
ghost use Rattle.cx_script_main.specs.Parts.Keeping.{KeepsBytesRead, KeepsRead, LeavesKept};

use cx_base::List;
use cx_script_io::{DeviceFault, ScriptDevices, ScriptIn, ScriptOut, in_front};
use std::alloc::Global;

/// Devices, and the bytes that were read from them.
#[derive(Drop)]
pub(crate) struct Keeping<D> {
    devices: D,
    /// None where they aren't kept, or memory for them was refused.
    kept: Option<List<u8>>,
}

impl<D> Keeping<D> {
    /// Devices from which nothing was read yet, and whether what is read is kept.
    pub(crate) fn new(alloc: Global, devices: D, keeps: bool) -> Keeping<D>
        ensures devices { result.devices ≡ devices }
        ensures kept { result.kept ≡ (if keeps then Some [] else None) }
    {
        let kept = if keeps {
            Some(List::from_vec(Vec::new(alloc)))
        } else {
            None
        };
        Keeping { devices, kept }
    }
}

impl<D: Drop> Keeping<D> {
    /// The bytes that were read, where they are kept.
    pub(crate) fn into_kept(self) -> Option<List<u8>>
        ensures { result ≡ self.kept }
    {
        let Keeping { kept, .. } = self;
        kept
    }
}

/// Bytes and more of them; None where memory was refused.
fn with_more(before: List<u8>, bytes: &[u8]) -> Option<List<u8>>
    ensures { IfSome result (λ after. before ++ bytes.now ≡ after) }
{
    let mut all = before.into_vec();
    all.extend_from_slice(bytes).ok()?;
    Some(List::from_vec(all))
}

/// Keeps the bytes that a read gave.
fn keep(kept: &mut Option<List<u8>>, bytes: &[u8])
    ensures { KeepsBytesRead kept.old (Some bytes.now) kept.new }
{
    if let Some(before) = kept.take() {
        *kept = with_more(before, bytes);
    }
}

impl<D: ScriptIn> ScriptIn for Keeping<D> {
    ghost left = { λ s. D.left s.devices };

    ghost has_failed = { λ s. D.has_failed s.devices };

    ghost reads = { KeepsRead D.reads };

    ghost known = { λ before after given h. D.known before.devices after.devices given h.0 };

    fn read(&mut self, buffer: &mut [u8]) -> Result<usize, DeviceFault> {
        let n = self.devices.read(buffer)?;
        keep(&mut self.kept, in_front(buffer, n));
        Ok(n)
    }

    fn failed(&self) -> bool {
        self.devices.failed()
    }
}

impl<D: ScriptOut> ScriptOut for Keeping<D> {
    ghost written = { λ s. D.written s.devices };

    ghost has_failed = { λ s. D.has_failed s.devices };

    ghost writes = { LeavesKept D.writes };

    ghost known = { λ before after taken h. D.known before.devices after.devices taken h.0 };

    fn write(&mut self, bytes: &[u8]) -> Result<usize, DeviceFault> {
        self.devices.write(bytes)
    }

    fn failed(&self) -> bool {
        self.devices.failed()
    }
}

impl<D: ScriptDevices> ScriptDevices for Keeping<D> {
    ghost read_keeps = { λ before after given h. D.read_keeps before.devices after.devices given h.0 };

    ghost write_keeps = { λ before after taken h. D.write_keeps before.devices after.devices taken h.0 };
}
