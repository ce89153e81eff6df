//! Writing all of some bytes.

ghost use Rattle.std.specs.Prelude.{◌≡◌, OnOk, OnErr, is_err, false};
ghost use Rattle.cx_script_io.specs.Devices.{Takes, TakesFront};

use crate::devices::{DeviceFault, ScriptOut};

/// Writes all of these bytes. A fault comes exactly where a write fails or takes no byte; a front of the bytes is then
/// written. The writer may not have failed before.
#[tactic(auto, using(crate::specs::Facts::Devices::wrote_more, crate::specs::Facts::Devices::wrote_all))]
pub fn write_all<W: ScriptOut>(writer: &mut W, bytes: &[u8]) -> Result<(), DeviceFault>
    requires { W.has_failed writer.old ≡ false }
    ensures ok { OnOk result (Takes W.writes writer.old writer.new bytes.now) }
    ensures err { OnErr result (TakesFront W.writes writer.old writer.new bytes.now) }
    ensures failure { W.has_failed writer.new ≡ is_err result }
{
    let mut at = 0;
    for _turn in 0..bytes.len() {
        if at >= bytes.len() {
            return Ok(());
        }
        let taken = writer.write(&bytes[at..])?;
        if taken == 0 {
            return Err(DeviceFault);
        }
        at += taken;
    }
    Ok(())
}
