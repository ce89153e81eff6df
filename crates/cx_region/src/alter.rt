//! Alterations of a terminal's task by an operator. No call takes memory.
ghost use Rattle.std.specs.Prelude.{◌≡◌, ◌≤◌, None, Some, if◌then◌else◌};
ghost use Rattle.std.specs.Option.{option_map_or};
ghost use Rattle.cx_storage.specs.Storage.{with_byte};
ghost use Rattle.cx_region_state.specs.State.{context};
ghost use Rattle.cx_region_task.specs.Continuations.{gone_on};
ghost use Rattle.cx_region.specs.Alter.{Alters, IsAllowedChange, alter_refusal, after_change, change_refusal, ends_task, with_register};
ghost use Rattle.cx_region.specs.Parts.Altering.{AlteredAt};
ghost use Rattle.cx_region.specs.Sound.{IsSound};

use crate::changes::{AlterReply, Change};
use crate::looking::byte_of;
use crate::state::{Region, Terminal};
use crate::turn::{drop_if, services_are_sound};
use cx_ebcdic::Name4;
use cx_region_state::{Shared, Task, TerminalEntry};
use cx_region_task::end_by_abend;
use cx_storage::{Store, address_in};

/// The refusal of a change of a task, where one is due.
fn change_refusal<S: Store + Drop>(
    change: &Change,
    shared: &Shared<S>,
    terminal_entry: &TerminalEntry,
    task: &Task,
) -> Option<AlterReply>
    ensures { result ≡ change_refusal change.now (context shared.now terminal_entry.now task.now) }
{
    match change {
        Change::Byte(address, _) => match byte_of(&shared.store, *address) {
            Some(_) => None,
            None => Some(AlterReply::NoByte),
        },
        Change::Nop => {
            if task.due {
                None
            } else {
                Some(AlterReply::NotDue)
            }
        }
        Change::Register(_, _) => None,
        Change::Abend => None,
    }
}

/// The refusal of a change of a terminal's task, where one is due.
fn task_refusal<S: Store + Drop>(
    change: &Change,
    shared: &Shared<S>,
    terminal: &Terminal,
) -> Option<AlterReply>
    ensures { result ≡ option_map_or (λ task. change_refusal change.now (context shared.now terminal.now.entry task))
        terminal.now.task (Some AlterReply.NoTask) }
{
    match &terminal.task {
        Some(task) => change_refusal(change, shared, &terminal.entry, task),
        None => Some(AlterReply::NoTask),
    }
}

/// Sets a register of a task; where a command is due, also the one that the current level kept.
fn set_register(task: &mut Task, r: u8, value: u32)
    requires { r ≤ 15 }
    ensures { task.new ≡ with_register task.old r value }
{
    task.cpu.regs[r as usize] = value;
    if task.due {
        let level = task.levels.current_mut();
        level.regs[r as usize] = value;
    }
}

/// Sets the byte at an address, where there is one.
#[tactic(auto, using(crate::proofs::AlterLemmas::byte_unset))]
fn set_byte<S: Store>(store: &mut S, address: u32, value: u8)
    ensures { S.storage store.new ≡ with_byte (S.storage store.old) address value }
{
    if address >= 0x100_0000 {
        return;
    }
    store.set(address, value);
}

/// Drops the command that is due: the program goes on after it.
fn drop_command(task: &mut Task)
    ensures { task.new ≡ gone_on task.old }
{
    task.cpu.next = address_in(task.cpu.regs[14]);
    task.due = false;
}

/// Changes what a task reaches.
#[tactic(auto, unfolding(crate::specs::Alter::after_change))]
fn alter_task<S: Store + Drop>(
    change: &Change,
    shared: &mut Shared<S>,
    terminal_entry: &mut TerminalEntry,
    task: &mut Task,
)
    requires { IsAllowedChange change.now }
    ensures { context shared.new terminal_entry.new task.new
        ≡ after_change change.now (context shared.old terminal_entry.old task.old) }
{
    match change {
        Change::Register(r, value) => set_register(task, *r, *value),
        Change::Byte(address, value) => set_byte(&mut shared.store, *address, *value),
        Change::Nop => drop_command(task),
        Change::Abend => end_by_abend(shared, terminal_entry, task),
    }
}

/// Whether the change ends the task.
fn ends_task(change: &Change) -> bool
    ensures { result ≡ ends_task change.now }
{
    match change {
        Change::Abend => true,
        _ => false,
    }
}

/// Changes what a terminal's task reaches, where it has one. A task that it ends is dropped.
#[tactic(auto, unfolding(crate::specs::Parts::Altering::AlteredAt))]
fn alter_terminal<S: Store + Drop>(change: &Change, shared: &mut Shared<S>, terminal: &mut Terminal)
    requires { IsAllowedChange change.now }
    ensures { AlteredAt change.now shared.old terminal.old shared.new terminal.new }
{
    let Some(task) = &mut terminal.task else {
        return;
    };
    alter_task(change, shared, &mut terminal.entry, task);
    drop_if(ends_task(change), &mut terminal.task);
}

impl<S: Store + Drop> Region<S> {
    /// The refusal of an alteration, where one is due.
    #[tactic(auto, unfolding(crate::specs::Alter::alter_refusal))]
    fn alter_refusal(&self, name: Name4, change: &Change) -> Option<AlterReply>
        ensures { result ≡ alter_refusal self.now name change.now }
    {
        match self.terminals.get(&name) {
            Some(terminal) => task_refusal(change, &self.shared, terminal),
            None => Some(AlterReply::NoSuchTerminal),
        }
    }

    /// Alters a terminal's task: a register (0 to 15), a byte of storage, the command that is due, or that there is a
    /// task at all. `Change` says what each does; no exit takes the abend of `Change::Abend`.
    ///
    /// It is refused by the first that applies of: no such terminal, no task, no command due for `Change::Nop`, no byte
    /// at the address for `Change::Byte` (from 2^24 on there is none). Then all is as before. It takes no memory.
    pub fn alter(&mut self, name: Name4, change: Change) -> AlterReply
        requires { IsAllowedChange change }
        ensures alters { Alters self.old name change result self.new }
        ensures sound { IsSound self.new }
    {
        if let Some(refusal) = self.alter_refusal(name, &change) {
            return refusal;
        }
        let Some(terminal) = self.terminals.get_mut(&name) else {
            return AlterReply::NoSuchTerminal;
        };
        alter_terminal(&change, &mut self.shared, terminal);
        services_are_sound(&self.shared);
        AlterReply::Altered
    }
}
