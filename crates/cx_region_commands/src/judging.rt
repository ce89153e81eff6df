//! How a call is judged, by the row of its command.
ghost use Rattle.std.specs.Prelude.{◌≡◌};
ghost use Rattle.cx_region_state.specs.State.{context};
ghost use Rattle.cx_region_commands.specs.Common.{AreSoundPrograms};
ghost use Rattle.cx_region_commands.specs.CommandVerdicts.{HasVerdict};

use crate::abending::judge_abend;
use crate::address::judge_address;
use crate::deleteq_ts::judge_deleteq_ts;
use crate::deq::judge_deq;
use crate::enq::judge_enq;
use crate::freemain::judge_freemain;
use crate::getmain::judge_getmain;
use crate::handle_abend::judge_handle_abend;
use crate::handling::{judge_handle, judge_ignore, judge_pop, judge_push};
use crate::link::judge_link;
use crate::readq_ts::judge_readq_ts;
use crate::receive::judge_receive;
use crate::returning::judge_return;
use crate::send_text::judge_send_text;
use crate::suspend::judge_suspend;
use crate::writeq_ts::judge_writeq_ts;
use crate::xctl::judge_xctl;
use cx_base::Command;
use cx_region_state::{CallInputs, Shared, Task, TerminalEntry, Verdict};
use cx_storage::Store;

/// The verdict on a call, by the rule of its command, before anything changes: it is refused, it waits, or it meets a
/// condition, with its outputs and its change. It takes no memory. The inputs must be those in the shared store. Each
/// program must be sound: 80 to 65,520 bytes of working storage, and an entry below 2^24.
#[tactic(auto, unfolding(crate::specs::CommandVerdicts::HasVerdict))]
pub fn judge<S: Store + Drop>(
    inputs: &CallInputs<S>,
    shared: &Shared<S>,
    terminal_entry: &TerminalEntry,
    task: &Task,
) -> Verdict
    requires storage { inputs.now.storage ≡ shared.now.storage }
    requires programs { AreSoundPrograms shared.now.programs }
    ensures { HasVerdict inputs.now.call (context shared.now terminal_entry.now task.now) result }
{
    let call = inputs.call();
    let slot = terminal_entry.slot;
    let level = task.levels.current();
    match call.command() {
        Command::Address => judge_address(),
        Command::HandleCondition => judge_handle(call),
        Command::IgnoreCondition => judge_ignore(call),
        Command::PushHandle => judge_push(&level.handles),
        Command::PopHandle => judge_pop(&level.handles),
        Command::Receive => judge_receive(&terminal_entry.input, inputs.length()),
        Command::WriteqTs => judge_writeq_ts(inputs, &shared.queues),
        Command::ReadqTs => judge_readq_ts(inputs, &shared.queues),
        Command::DeleteqTs => judge_deleteq_ts(inputs, &shared.queues),
        Command::Getmain => judge_getmain(inputs),
        Command::Freemain => judge_freemain(inputs, slot),
        Command::Link => judge_link(inputs, &shared.programs, &task.levels),
        Command::Xctl => judge_xctl(inputs, &shared.programs),
        Command::Return => judge_return(inputs, &task.levels),
        Command::Abend => judge_abend(inputs),
        Command::HandleAbend => judge_handle_abend(call),
        Command::Enq => judge_enq(inputs, &shared.enqueues, slot),
        Command::Deq => judge_deq(inputs),
        Command::Suspend => judge_suspend(),
        Command::SendText => judge_send_text(inputs),
    }
}
