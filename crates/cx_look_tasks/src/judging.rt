//! What a task is doing, by what is decided of its command.

ghost use Rattle.std.specs.Prelude.{◌≡◌};
ghost use Rattle.cx_region_state.specs.State.{context};
ghost use Rattle.cx_region_commands.specs.Common.{AreSoundPrograms};
ghost use Rattle.cx_region.specs.Sound.{IsSound};
ghost use Rattle.cx_look_tasks.specs.Activities.{HasActivity, IsActivity, activity_by};

use crate::activities::Activity;
use cx_region::{Region, Terminal};
use cx_region_state::{Shared, Task, TerminalEntry};
use cx_region_task::{Decision, decide};
use cx_storage::Store;

/// By what is decided of the command that is due.
fn activity_by(decision: &Decision) -> Activity
    ensures { result ≡ activity_by decision.now }
{
    match decision {
        Decision::Wait(_call, wait) => Activity::Waiting(*wait),
        _ => Activity::Due(decision.command()),
    }
}

/// What a task is doing.
#[tactic(auto, unfolding(crate::specs::Activities::HasActivity))]
fn activity_of_task<S: Store + Drop>(
    shared: &Shared<S>,
    terminal_entry: &TerminalEntry,
    task: &Task,
) -> Activity
    requires { AreSoundPrograms shared.now.programs }
    ensures { HasActivity (context shared.now terminal_entry.now task.now) result }
{
    if !task.due {
        return Activity::Running;
    }
    activity_by(&decide(shared, terminal_entry, task))
}

/// What the task of a terminal is doing: where a command is due it is decided as its turn would, and nothing is done.
/// It takes no memory.
#[tactic(auto, unfolding(crate::specs::Activities::IsActivity))]
pub fn activity<S: Store + Drop>(region: &Region<S>, terminal: &Terminal) -> Activity
    requires { IsSound region.now }
    ensures { IsActivity region.now terminal.now result }
{
    match terminal.task() {
        Some(task) => activity_of_task(region.shared(), terminal.terminal_entry(), task),
        None => Activity::NoTask,
    }
}
