//! What a task is doing.

ghost use Rattle.std.specs.Prelude.{◌≡◌};
ghost use Rattle.cx_look_tasks.specs.Activities.{is_acting, is_waiting};

use cx_base::Command;
pub use cx_region_task::Wait;

/// What the task of a terminal is doing, by what its next turn would do.
#[derive(Clone, Copy)]
pub enum Activity {
    /// The terminal has no task.
    NoTask,
    /// Its next turn runs instructions.
    Running,
    /// Its next turn performs this command; None where the argument list can't be read.
    Due(Option<Command>),
    /// Its next turn would find the command waiting.
    Waiting(Wait),
}

impl Activity {
    /// Whether the next turn runs instructions, or performs a command. It takes no memory.
    pub fn is_acting(&self) -> bool
        ensures { result ≡ is_acting self.now }
    {
        matches!(self, Activity::Running | Activity::Due(_))
    }

    /// Whether the task waits. It takes no memory.
    pub fn is_waiting(&self) -> bool
        ensures { result ≡ is_waiting self.now }
    {
        matches!(self, Activity::Waiting(_))
    }
}
