//! ADDRESS.
ghost use Rattle.std.specs.Prelude.{◌≡◌};
ghost use Rattle.cx_region_commands.specs.Address.{address_row};

use cx_base::{Condition, OptionName};
use cx_region_state::{OutputValue, Outputs, TaskChange, Verdict};

/// The address of the common work area.
const COMMON_WORK_AREA: u32 = 0x1000;

/// How an ADDRESS is judged: it meets NORMAL, and CWA gets X'001000', the address of the common work area.
///
/// Application Programmer's Reference Manual, SC33-0077, "Access to System Information".
#[tactic(auto, unfolding(crate::specs::Address::address_row))]
pub(crate) fn judge_address() -> Verdict
    ensures { result ≡ address_row }
{
    let outputs = Outputs::none().with(OptionName::Cwa, OutputValue::Word(COMMON_WORK_AREA));
    Verdict::Meets(Condition::Normal, outputs, TaskChange::Nothing)
}
