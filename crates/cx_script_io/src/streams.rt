//! Devices over the standard library's readers and writers.

ghost use Rattle.std.specs.Prelude.{◌≡◌, ◌||◌, IfOk, Ok, false, is_err};
ghost use Rattle.cx_script_io.specs.Devices.{ReadsKnown, WritesKnown};

use crate::devices::{DeviceFault, ScriptIn, ScriptOut};
use std::io;
use std::io::{Read, Write};

/// A device over a reader or writer of the standard library, with whether it has failed. It fails exactly where its
/// reader or writer answers an error, or a write takes none of some: each answer goes through a function whose contract
/// says so. No contract says that a call uses the reader or writer, and only once.
#[derive(Drop)]
pub struct Std<T> {
    inner: T,
    failed: bool,
}

impl<T> Std<T> {
    /// The device over this reader or writer, which has not failed.
    pub fn new(inner: T) -> Std<T>
        ensures { (result.inner ≡ inner) × (result.failed ≡ false) }
    {
        Std {
            inner,
            failed: false,
        }
    }

    /// What the reader or writer answered, as the device reports it: an error is a failure of the device, and nothing
    /// else is.
    fn reported(&mut self, answer: io::Result<usize>) -> Result<usize, DeviceFault>
        ensures count { IfOk answer (λ n. result ≡ Ok n) }
        ensures fault { is_err result ≡ is_err answer }
        ensures failure { self.new.failed ≡ (self.old.failed || is_err answer) }
        ensures inner { self.new.inner ≡ self.old.inner }
    {
        match answer {
            Ok(n) => Ok(n),
            Err(_) => {
                self.failed = true;
                Err(DeviceFault)
            }
        }
    }
}

impl<T: Read> ScriptIn for Std<T> {
    ghost left = { λ s. T.remaining s.inner };

    ghost has_failed = { λ s. s.failed };

    ghost reads = { λ before given after. ReadsKnown (T.remaining before.inner) given (T.remaining after.inner) };

    ghost known = { λ _ _ _ h. h };

    #[tactic(auto, using(crate::specs::Facts::Devices::read_known))]
    fn read(&mut self, buffer: &mut [u8]) -> Result<usize, DeviceFault> {
        let answer = self.inner.read(buffer);
        self.reported(answer)
    }

    fn failed(&self) -> bool {
        self.failed
    }
}

impl<T: Write> ScriptOut for Std<T> {
    ghost written = { λ s. T.contents s.inner };

    ghost has_failed = { λ s. s.failed };

    ghost writes = { λ before taken after. WritesKnown (T.contents before.inner) taken (T.contents after.inner) };

    ghost known = { λ _ _ _ h. h };

    fn write(&mut self, bytes: &[u8]) -> Result<usize, DeviceFault> {
        let answer = self.inner.write(bytes);
        let n = self.reported(answer)?;
        if n == 0 && !bytes.is_empty() {
            self.failed = true;
        }
        Ok(n)
    }

    fn failed(&self) -> bool {
        self.failed
    }
}
