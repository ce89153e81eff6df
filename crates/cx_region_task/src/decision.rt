//! What the command that is due will do, before anything changes.
ghost use Rattle.std.specs.Prelude.{◌≡◌};
ghost use Rattle.cx_region_task.specs.Decisions.{decided_command};
ghost use Rattle.cx_region_task.specs.Performing.{continuation_cause, decision_cause};

use crate::cause::Cause;
use crate::continuation::Continuation;
use cx_base::{Abend, Command, Condition};
use cx_ebcdic::Name8;
use cx_region_state::{Call, Outputs, TaskChange};
use cx_service::ResourceName;

/// What a command waits for.
#[derive(Clone, Copy)]
pub enum Wait {
    /// Input of its terminal: RECEIVE.
    Input,
    /// The resource of that name, which another task owns, or which would be the 257th that is owned: ENQ.
    Resource(Option<ResourceName>),
    /// Room for an item of the queue of that name, among the bytes of all queues or among the 256 queues: WRITEQ TS.
    Room(Option<Name8>),
    /// A place in task storage: GETMAIN, or READQ TS with SET.
    Storage,
}

/// What a command does that is neither refused nor waits.
#[derive(Drop)]
pub struct Act {
    /// The command and its argument list, as it was read.
    pub call: Call,
    /// The condition that it meets; NORMAL where it meets none.
    pub condition: Condition,
    /// What it writes at its arguments.
    pub outputs: Outputs,
    /// What it changes, beside its outputs, the EIB and RESP's word.
    pub change: TaskChange,
    /// How its task goes on; never `Continuation::Waits`.
    pub continuation: Continuation,
}

/// What the command that is due will do, before anything changes.
#[derive(Drop)]
pub enum Decision {
    /// Its task abends, and nothing is done: the argument list can't be read, and then there is no call; a byte that
    /// the command reads, of RESP's word or of its outputs isn't in storage; or the command's row refuses it.
    Refuse(Option<Call>, Abend),
    /// It waits, and all stays as it is.
    Wait(Call, Wait),
    /// It is done.
    Act(Act),
}

/// Why a task abends that goes on so.
fn continuation_cause(continuation: &Continuation, condition: Condition) -> Option<Cause>
    ensures { result ≡ continuation_cause continuation.now condition }
{
    match continuation {
        Continuation::Abends(_code, _cancel) if condition == Condition::Normal => Some(
            Cause::Asked,
        ),
        Continuation::Abends(_code, _cancel) => Some(Cause::Met(condition)),
        _ => None,
    }
}

impl Decision {
    /// The command; None where its argument list can't be read.
    pub fn command(&self) -> Option<Command>
        ensures { result ≡ decided_command self.now }
    {
        match self {
            Decision::Refuse(call, _abend) => call.as_ref().map(|call| call.command()),
            Decision::Wait(call, _wait) => Some(call.command()),
            Decision::Act(act) => Some(act.call.command()),
        }
    }

    /// Why the task abends, where it does.
    pub fn cause(&self) -> Option<Cause>
        ensures { result ≡ decision_cause self.now }
    {
        match self {
            Decision::Refuse(_call, abend) => Some(Cause::Refused(*abend)),
            Decision::Wait(_call, _wait) => None,
            Decision::Act(act) => continuation_cause(&act.continuation, act.condition),
        }
    }
}
