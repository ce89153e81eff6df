//! Turns of terminals.
ghost use Rattle.std.specs.Prelude.{◌≡◌, if◌then◌else◌, IfOk, OnErr, None};
ghost use Rattle.cx_region_state.specs.Replies.{is_over};
ghost use Rattle.cx_storage.specs.Storage.{IsSoundStorage};
ghost use Rattle.cx_service.specs.Queues.{AreSoundQueues};
ghost use Rattle.cx_service.specs.Resources.{AreSoundResources};
ghost use Rattle.cx_region_commands.specs.Common.{AreSoundPrograms};
ghost use Rattle.cx_region.specs.Parts.Turning.{HasAbendRecordAt, TakesMemoryAt, TurnedAt};
ghost use Rattle.cx_region.specs.Turn.{TakesTurn, TurnHasAbendRecord};
ghost use Rattle.cx_region.specs.Events.{MayTakeMemory};
ghost use Rattle.cx_region.specs.declared.replies.Event.TheVariants as event;
ghost use Rattle.cx_region.specs.Sound.{IsSound};

use crate::state::{Region, Terminal};
use cx_ebcdic::Name4;
use cx_region_state::{Shared, Task, TurnReply};
use cx_region_task::laws::half_turns_keep;
use cx_region_task::{AbendRecord, half_turn};
use cx_storage::Store;
use cx_storage::laws::store_is_sound;
use std::alloc::AllocError;

/// Drops a task that is over.
pub(crate) fn drop_if(over: bool, held: &mut Option<Task>)
    ensures { held.new ≡ (if over then None else held.old) }
{
    if over {
        *held = None;
    }
}

/// Drops a task that is over, by its answer.
fn drop_over(reply: &TurnReply, held: &mut Option<Task>)
    ensures { held.new ≡ (if is_over reply.now then None else held.old) }
{
    drop_if(reply.is_over(), held);
}

/// A half-turn of a terminal's task, where it has one. A task that is over is dropped.
#[tactic(auto, unfolding(crate::specs::Parts::Turning::TurnedAt, crate::specs::Parts::Turning::TakesMemoryAt, crate::specs::Parts::Turning::HasAbendRecordAt))]
fn turn_terminal<S: Store + Drop>(
    shared: &mut Shared<S>,
    terminal: &mut Terminal,
) -> Result<(TurnReply, Option<AbendRecord>), AllocError>
    requires { AreSoundPrograms shared.old.programs }
    ensures turned { IfOk result (λ both. TurnedAt shared.old terminal.old both.0 shared.new terminal.new) }
    ensures abend_record { IfOk result (λ both. HasAbendRecordAt shared.old terminal.old both.1) }
    ensures memory { OnErr result (TakesMemoryAt shared.old terminal.old) }
    ensures err { OnErr result ((shared.new ≡ shared.old) × (terminal.new ≡ terminal.old)) }
{
    let Some(task) = &mut terminal.task else {
        return Ok((TurnReply::Idle, None));
    };
    let (reply, abend_record) = half_turn(shared, &mut terminal.entry, task)?;
    drop_over(&reply, &mut terminal.task);
    Ok((reply, abend_record))
}

/// Storage, queues and resources are sound.
pub(crate) fn services_are_sound<S: Store + Drop>(shared: &Shared<S>)
    ensures storage { IsSoundStorage shared.now.storage }
    ensures queues { AreSoundQueues shared.now.queues }
    ensures resources { AreSoundResources shared.now.resources }
{
    store_is_sound(&shared.store);
    shared.queues.all();
    shared.enqueues.all();
}

impl<S: Store + Drop> Region<S> {
    /// A turn of a terminal: its task runs up to its next command, an interruption or the limit of 65,536 instructions;
    /// or the command that is due is performed. It is answered NoSuchTerminal where there is no such terminal, and Idle
    /// where the terminal has no task; then all is as before. All else in the region stays.
    ///
    /// An error comes only where an allocation failed, and only where the change that the command makes takes memory
    /// and no refusal, wait or abend applies. Then all is as before.
    pub fn turn(&mut self, name: Name4) -> Result<TurnReply, AllocError>
        ensures turned { IfOk result (λ reply. TakesTurn self.old name reply self.new) }
        ensures memory { OnErr result (MayTakeMemory self.old (event.Turn name)) }
        ensures err { OnErr result (self.new ≡ self.old) }
        ensures sound { IsSound self.new }
    {
        let (reply, _abend_record) = self.turn_with_cause(name)?;
        Ok(reply)
    }

    /// A turn of a terminal, as `turn`, with a record of the abend to which it leads, where it leads to one.
    ///
    /// An error comes only where an allocation failed, and only where the change that the command makes takes memory
    /// and no refusal, wait or abend applies. Then all is as before.
    #[tactic(auto, unfolding(crate::specs::Turn::TakesTurn, crate::specs::Turn::TurnHasAbendRecord))]
    pub fn turn_with_cause(
        &mut self,
        name: Name4,
    ) -> Result<(TurnReply, Option<AbendRecord>), AllocError>
        ensures turned { IfOk result (λ both. TakesTurn self.old name both.0 self.new) }
        ensures abend_record { IfOk result (λ both. TurnHasAbendRecord self.old name both.1) }
        ensures memory { OnErr result (MayTakeMemory self.old (event.Turn name)) }
        ensures err { OnErr result (self.new ≡ self.old) }
        ensures sound { IsSound self.new }
    {
        half_turns_keep();
        let Some(terminal) = self.terminals.get_mut(&name) else {
            return Ok((TurnReply::NoSuchTerminal, None));
        };
        let both = turn_terminal(&mut self.shared, terminal);
        services_are_sound(&self.shared);
        both
    }
}
