//! Texts that wait to be written in one.

ghost use Rattle.std.specs.Prelude.{◌≡◌, ◌≤◌, ◌++◌, [], OnOk, OnErr, is_err, false, length};
ghost use Rattle.cx_script_io.specs.Devices.{Sends, Takes, TakesFront, device_output};

use crate::devices::{DeviceFault, ScriptOut};
use crate::output::write_all;
use arrayvec::ArrayVec;
use std::marker::Model;

/// The most bytes that wait to be written.
const MOST_WAITING: usize = 16_384;

/// Texts that wait to be written in one: at most 16,384 bytes.
#[derive(Drop)]
pub struct OutputBuffer {
    bytes: ArrayVec<u8, MOST_WAITING>,
}

impl Model for OutputBuffer {
    ghost use Rattle.std.specs.Prelude.{List, ℕ};

    ghost Value = { List ℕ };

    ghost view = { λ waiting. waiting.bytes.items };
}

impl OutputBuffer {
    /// The buffer in which no text waits.
    pub fn new() -> OutputBuffer
        ensures { result ≡ [] }
    {
        OutputBuffer {
            bytes: ArrayVec::new(),
        }
    }

    /// Writes what waits; the writer may not have failed before. A fault comes exactly where a write fails or takes no
    /// byte; a front of what waited was written then.
    #[tactic(auto, unfolding(crate::specs::Devices::TakesFront))]
    pub fn flush<W: ScriptOut>(&mut self, writer: &mut W) -> Result<(), DeviceFault>
        requires { W.has_failed writer.old ≡ false }
        ensures ok { OnOk result (Takes W.writes writer.old writer.new self.old) }
        ensures empty { OnOk result (self.new ≡ []) }
        ensures err { OnErr result (TakesFront W.writes writer.old writer.new self.old) }
        ensures failure { W.has_failed writer.new ≡ is_err result }
    {
        if write_all(writer, self.bytes.as_slice()).is_err() {
            return Err(DeviceFault);
        }
        self.bytes.clear();
        Ok(())
    }

    /// Puts a text after what waits, which is written first where there is no room for the text. The writer may not
    /// have failed before.
    ///
    /// A fault comes exactly where a write fails or takes no byte; a front of what waited and the text was written
    /// then.
    #[tactic(auto, using(crate::specs::Facts::Devices::sends_put, crate::specs::Facts::Devices::sends_after, crate::specs::Facts::Devices::sends_past, crate::specs::Facts::Devices::front_more, crate::specs::Facts::Devices::front_after))]
    pub fn put<W: ScriptOut>(&mut self, writer: &mut W, text: &[u8]) -> Result<(), DeviceFault>
        requires { W.has_failed writer.old ≡ false }
        ensures ok { let before = device_output writer.old self.old in
            let after = device_output writer.new self.new in OnOk result (Sends W.writes before after text.now) }
        ensures err { OnErr result (TakesFront W.writes writer.old writer.new (self.old ++ text.now)) }
        ensures failure { W.has_failed writer.new ≡ is_err result }
    {
        if self.bytes.try_extend_from_slice(text).is_ok() {
            return Ok(());
        }
        if self.flush(writer).is_err() {
            return Err(DeviceFault);
        }
        if self.bytes.try_extend_from_slice(text).is_ok() {
            return Ok(());
        }
        write_all(writer, text)
    }
}
