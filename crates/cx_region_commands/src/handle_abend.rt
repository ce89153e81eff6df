//! HANDLE ABEND.
ghost use Rattle.std.specs.Prelude.{◌≡◌, if◌then◌else◌};
ghost use Rattle.std.specs.Option.{option_map_or};
ghost use Rattle.cx_region_commands.specs.HandleAbend.{handle_abend_row};

use crate::handling::asks;
use cx_base::OptionName;
use cx_region_state::{Call, Request, Verdict};

/// What is asked of the exit.
fn exit_asked(label: Option<u32>, cancels: bool) -> Request
    ensures { result ≡ option_map_or Request.SetExit label (if cancels then Request.ExitOff else Request.ExitOn) }
{
    match label {
        Some(label) => Request::SetExit(label),
        None if cancels => Request::ExitOff,
        None => Request::ExitOn,
    }
}

/// How a HANDLE ABEND is judged: it meets NORMAL, and the current level's exit is set and on (LABEL), off (CANCEL) or
/// on again (RESET).
///
/// Application Programmer's Reference Manual, SC33-0077, "Abnormal Termination Recovery".
#[tactic(auto, unfolding(crate::specs::HandleAbend::handle_abend_row))]
pub(crate) fn judge_handle_abend(call: &Call) -> Verdict
    ensures { result ≡ handle_abend_row call.now }
{
    let request = exit_asked(call.place(OptionName::Label), call.has(OptionName::Cancel));
    asks(request)
}
