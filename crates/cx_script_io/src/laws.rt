//! What follows from the definitions of calls.

ghost use Rattle.cx_script_io.specs.Laws.Known.{CallsMoveKnown};

use crate::devices::ScriptDevices;

/// Where the devices' bytes are known, what was read are those that the reads gave, and what was written those that the
/// writes took.
pub fn calls_move_what_is_known<D: ScriptDevices>()
    ensures { CallsMoveKnown D.reads D.writes D.left D.written }
{}
