//! SUSPEND.
ghost use Rattle.std.specs.Prelude.{◌≡◌};
ghost use Rattle.cx_region_commands.specs.Suspend.{suspend_row};

use crate::common::does;
use cx_region_state::{TaskChange, Verdict};

/// How a SUSPEND is judged: it meets NORMAL, and does nothing.
///
/// Application Programmer's Reference Manual, SC33-0077, "Task Control".
#[tactic(auto, unfolding(crate::specs::Suspend::suspend_row))]
pub(crate) fn judge_suspend() -> Verdict
    ensures { result ≡ suspend_row }
{
    does(TaskChange::Nothing)
}
