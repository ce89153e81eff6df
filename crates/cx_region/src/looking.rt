//! What can be seen of a region. No call takes memory.
ghost use Rattle.std.specs.Prelude.{◌≡◌, ◌≢◌, ℕ, None, Some, MatchOption, IsSomeAnd, option_map};
ghost use Rattle.std.specs.Option.{option_copied};
ghost use Rattle.cx_base.specs.declared.commands.Command.{Command as TheCommand};
ghost use Rattle.cx_base.specs.Commands.{row_of};
ghost use Rattle.cx_storage.specs.Storage.{byte_at};
ghost use Rattle.cx_region.specs.Tables.{task_of, terminal_of};
ghost use Rattle.cx_region.specs.Looking.{Shows, terminal_at};

use crate::replies::TaskInfo;
use crate::state::{Region, Terminal};
use cx_base::Command;
use cx_ebcdic::{Name4, Name8};
use cx_exec::Cpu;
use cx_region_state::{Shared, Task, TerminalEntry};
use cx_service::Screen;
use cx_storage::Store;
use indexmap::IndexMap;

/// What is shown of a task.
fn info_of(task: &Task) -> TaskInfo
    ensures { Shows task.now result }
{
    let level = task.levels.current();
    let regs = task.cpu.regs;
    TaskInfo {
        tran: task.tran,
        program: level.program,
        number: task.number,
        levels: task.levels.len(),
        eib: task.eib,
        stg: level.stg,
        stg_len: level.stg_len,
        cpu: Cpu {
            regs,
            cc: task.cpu.cc,
            next: task.cpu.next,
        },
        due: task.due,
    }
}

impl Terminal {
    /// What is shown of the terminal's task.
    fn info(&self) -> Option<TaskInfo>
        ensures { MatchOption self.now.task (result ≡ None) (λ task. IsSomeAnd result (Shows task)) }
    {
        let task = self.task.as_ref()?;
        Some(info_of(task))
    }

    /// The terminal without its task.
    pub fn terminal_entry(&self) -> &TerminalEntry
        ensures { result.now ≡ self.now.entry }
    {
        &self.entry
    }

    /// Its live task; None where it has none.
    pub fn task(&self) -> Option<&Task>
        ensures { option_copied result ≡ self.now.task }
    {
        self.task.as_ref()
    }

    /// The screen.
    fn screen(&self) -> &Screen
        ensures { result.now ≡ self.now.entry.screen }
    {
        &self.entry.screen
    }
}

impl<S: Store + Drop> Region<S> {
    /// What tasks share: storage, programs, queues, enqueued resources.
    pub fn shared(&self) -> &Shared<S>
        ensures { result.now ≡ self.now.shared }
    {
        &self.shared
    }

    /// The transactions, each with its program's name, the first defined first.
    pub fn transactions(&self) -> &IndexMap<Name4, Name8>
        ensures { result.now.entries ≡ self.now.transactions }
    {
        &self.transactions
    }

    /// The terminals with their names, the first defined first.
    pub fn terminals(&self) -> &IndexMap<Name4, Terminal>
        ensures { result.now.entries ≡ self.now.terminals }
    {
        &self.terminals
    }

    /// The screen of a terminal; None where there is no such terminal.
    pub fn screen(&self, name: Name4) -> Option<&Screen>
        ensures { option_copied result ≡ option_map (λ terminal. terminal.entry.screen) (terminal_of self.now name) }
    {
        let terminal = self.terminals.get(&name)?;
        Some(terminal.screen())
    }

    /// The live task of a terminal; None where there is none, or no such terminal.
    pub fn task(&self, name: Name4) -> Option<TaskInfo>
        ensures { MatchOption (task_of self.now name) (result ≡ None) (λ task. IsSomeAnd result (Shows task)) }
    {
        let terminal = self.terminals.get(&name)?;
        terminal.info()
    }

    /// The byte at an address; None where no area has it, and from 2^24 on.
    pub fn byte(&self, address: u32) -> Option<u8>
        ensures { result ≡ byte_at self.now.shared.storage address }
    {
        byte_of(&self.shared.store, address)
    }
}

/// The terminal whose position this is, by which areas and resources name their owner, with its name; None where no
/// terminal has it.
pub fn terminal_at(terminals: &IndexMap<Name4, Terminal>, slot: u8) -> Option<(Name4, &Terminal)>
    ensures { option_map (λ t. (t.0, t.1.now)) result ≡ terminal_at terminals.now.entries slot }
{
    for (name, terminal) in terminals.iter() {
        if terminal.terminal_entry().slot == slot {
            return Some((*name, terminal));
        }
    }
    None
}

/// The byte of a store at any address.
pub(crate) fn byte_of<S: Store>(store: &S, address: u32) -> Option<u8>
    ensures { result ≡ byte_at (S.storage store.now) address }
{
    if address >= 0x100_0000 {
        return None;
    }
    store.byte(address)
}

/// The name of the command of a function value, as `READQ TS`; None where no command has it.
pub fn command_name(function: u16) -> Option<&'static str>
    ensures named { (command : TheCommand) → (row_of command).function ≡ function
        → option_map (λ name. name.now) result ≡ Some (row_of command).name }
    ensures unknown { ((command : TheCommand) → (row_of command).function ≢ function) → result ≡ None }
{
    let command = Command::from_function(function)?;
    Some(command.name())
}
