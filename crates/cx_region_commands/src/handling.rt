//! HANDLE CONDITION, IGNORE CONDITION, PUSH HANDLE, POP HANDLE.
ghost use Rattle.std.specs.Prelude.{◌≡◌};
ghost use Rattle.cx_region_commands.specs.Handling.{asks, handle_row, ignore_row, pop_row, push_row};

use crate::common::{condition_alone, does};
use cx_base::Condition;
use cx_program::HandleTable;
use cx_region_state::{BeforeOutputs, Call, Request, TaskChange, Verdict};

/// A command that meets NORMAL, and does this to the current level's handles.
pub(crate) fn asks(request: Request) -> Verdict
    ensures { result ≡ asks request }
{
    does(TaskChange::Before(BeforeOutputs::Handles(request)))
}

/// How a HANDLE CONDITION is judged: it meets NORMAL, and each condition's label takes control from then on; one
/// without a label has no entry any more.
///
/// Application Programmer's Reference Manual, SC33-0077, "Exceptional conditions".
#[tactic(auto, unfolding(crate::specs::Handling::handle_row))]
pub(crate) fn judge_handle(call: &Call) -> Verdict
    ensures { result ≡ handle_row call.now }
{
    asks(Request::Handle(call.listed()))
}

/// How an IGNORE CONDITION is judged: it meets NORMAL, and each of its conditions is ignored from then on.
///
/// Application Programmer's Reference Manual, SC33-0077, "Exceptional conditions".
#[tactic(auto, unfolding(crate::specs::Handling::ignore_row))]
pub(crate) fn judge_ignore(call: &Call) -> Verdict
    ensures { result ≡ ignore_row call.now }
{
    asks(Request::Ignore(call.listed()))
}

/// How a PUSH HANDLE is judged, by the handles of the current level: INVREQ where sixteen are kept; else it meets
/// NORMAL, and its entries and its exit are kept.
///
/// Application Programmer's Reference Manual, SC33-0077, "Exceptional conditions".
#[tactic(auto, unfolding(crate::specs::Handling::push_row))]
pub(crate) fn judge_push(handles: &HandleTable) -> Verdict
    ensures { result ≡ push_row handles.now.kept }
{
    if handles.pushed() < 16 {
        asks(Request::Push)
    } else {
        condition_alone(Condition::Invreq)
    }
}

/// How a POP HANDLE is judged, by the handles of the current level: INVREQ where none are kept; else it meets NORMAL,
/// and the entries and the exit kept last are put back.
///
/// Application Programmer's Reference Manual, SC33-0077, "Exceptional conditions".
#[tactic(auto, unfolding(crate::specs::Handling::pop_row))]
pub(crate) fn judge_pop(handles: &HandleTable) -> Verdict
    ensures { result ≡ pop_row handles.now.kept }
{
    if handles.pushed() == 0 {
        condition_alone(Condition::Invreq)
    } else {
        asks(Request::Pop)
    }
}
