//! One half-turn of a live task.
ghost use Rattle.std.specs.Prelude.{◌≡◌, ◌<◌, ◌^◌, IfOk, OnErr, [], ◌∷◌, map};
ghost use Rattle.std.specs.Option.{option_map};
ghost use Rattle.cx_region_commands.specs.Common.{AreSoundPrograms};
ghost use Rattle.cx_region_state.specs.State.{context};
ghost use Rattle.cx_region_task.specs.Turn.{TakesMemory, HalfTurnWith, EndsRun, RunsOn, abend_record_with, at_command, halt_cause, machine_of};
ghost use Rattle.cx_storage.specs.Address.{address_after};
ghost use Rattle.cx_storage.specs.Storage.{byte_at};

use crate::abending::abend;
use crate::cause::{AbendRecord, Cause};
use crate::deciding::decide;
use crate::performing::carry_out;
use cx_base::{Abend, Command};
use cx_exec::{Halt, advance};
use cx_program::ConditionCode;
use cx_region_state::{Shared, Task, TerminalEntry, TurnReply};
use cx_storage::{Store, address_after};
use std::alloc::AllocError;

/// The most instructions of a half-turn.
const MOST_STEPS: u32 = 65_536;

/// The bytes from an address on.
fn bytes_from<S: Store>(store: &S, next: u32) -> [Option<u8>; 6]
    requires { next < 2 ^ 24 }
    ensures { result ≡ map
        (λ k. byte_at (S.storage store.now) (address_after next k)) (0 ∷ 1 ∷ 2 ∷ 3 ∷ 4 ∷ 5 ∷ []) }
{
    [
        store.byte(address_after(next, 0)),
        store.byte(address_after(next, 1)),
        store.byte(address_after(next, 2)),
        store.byte(address_after(next, 3)),
        store.byte(address_after(next, 4)),
        store.byte(address_after(next, 5)),
    ]
}

/// What a task has, with a cause, where there is one.
fn abend_record_with<S: Store + Drop>(
    cause: Option<Cause>,
    command: Option<Command>,
    shared: &Shared<S>,
    terminal_entry: &TerminalEntry,
    task: &Task,
) -> Option<AbendRecord>
    ensures { result ≡ option_map
        (abend_record_with command (machine_of (context shared.now terminal_entry.now task.now))) cause }
{
    let cause = cause?;
    Some(AbendRecord {
        cause,
        command,
        regs: task.cpu.regs,
        cc: task.cpu.cc,
        next: task.cpu.next,
        bytes: bytes_from(&shared.store, task.cpu.next),
    })
}

/// A command is due, and the current level keeps registers and code.
fn stop_at_command(task: &mut Task)
    ensures { task.new ≡ at_command task.old }
{
    let regs = task.cpu.regs;
    let code = ConditionCode::new(task.cpu.cc);
    let level = task.levels.current_mut();
    level.regs = regs;
    level.cc = code;
    task.due = true;
}

/// The cause where instructions ended so.
fn halt_cause(how: &Halt) -> Option<Cause>
    ensures { result ≡ halt_cause how.now }
{
    match how {
        Halt::AtEntry => None,
        Halt::Interrupt(interruption, _place) => Some(Cause::Interrupted(*interruption)),
        Halt::Limit => Some(Cause::Limit),
    }
}

/// The reply where instructions ended so.
#[tactic(auto, unfolding(crate::specs::Turn::EndsRun))]
fn reply_to_halt<S: Store + Drop>(
    how: Halt,
    shared: &mut Shared<S>,
    terminal_entry: &mut TerminalEntry,
    task: &mut Task,
) -> TurnReply
    ensures { EndsRun how (context shared.old terminal_entry.old task.old) result
        (context shared.new terminal_entry.new task.new) }
{
    match how {
        Halt::AtEntry => {
            stop_at_command(task);
            TurnReply::AtCommand
        }
        Halt::Interrupt(_cause, _place) => {
            abend(shared, terminal_entry, task, Abend::Asra.code(), false)
        }
        Halt::Limit => abend(shared, terminal_entry, task, Abend::Aica.code(), false),
    }
}

/// Runs instructions up to a command, an interruption or the limit.
fn run_on<S: Store + Drop>(
    shared: &mut Shared<S>,
    terminal_entry: &mut TerminalEntry,
    task: &mut Task,
) -> (TurnReply, Option<AbendRecord>)
    ensures { RunsOn (context shared.old terminal_entry.old task.old) result.0 result.1
        (context shared.new terminal_entry.new task.new) }
{
    let how = advance(&mut task.cpu, &mut shared.store, MOST_STEPS);
    let abend_record = abend_record_with(halt_cause(&how), None, shared, terminal_entry, task);
    let reply = reply_to_halt(how, shared, terminal_entry, task);
    (reply, abend_record)
}

/// One half-turn of a live task: its instructions run up to the next command, an interruption or the limit of 65,536;
/// or the command that is due is performed. Where the reply is Ended or Abended, the task has ended: its areas are
/// freed, its resources released, its held input dropped, and the terminal has the next transaction that it left. Each
/// program must be sound: 80 to 65,520 bytes of working storage, and an entry below 2^24.
///
/// With the reply comes a record of the abend to which the half-turn leads, where it leads to one, whether an exit
/// takes it or the task ends.
///
/// An error comes only where an allocation failed, and only where a command is due that is done and whose change takes
/// memory; then all is as before.
#[tactic(auto, unfolding(crate::specs::Turn::HalfTurnWith), using(crate::proofs::DecisionLemmas::decided_fits, crate::proofs::DecisionLemmas::decided_takes))]
pub fn half_turn<S: Store + Drop>(
    shared: &mut Shared<S>,
    terminal_entry: &mut TerminalEntry,
    task: &mut Task,
) -> Result<(TurnReply, Option<AbendRecord>), AllocError>
    requires { AreSoundPrograms shared.old.programs }
    ensures turned { let before = context shared.old terminal_entry.old task.old in
        let after = context shared.new terminal_entry.new task.new in
        IfOk result (λ both. HalfTurnWith before both.0 both.1 after) }
    ensures err { OnErr result
        (context shared.new terminal_entry.new task.new ≡ context shared.old terminal_entry.old task.old) }
    ensures memory { OnErr result (TakesMemory (context shared.old terminal_entry.old task.old)) }
{
    if !task.due {
        return Ok(run_on(shared, terminal_entry, task));
    }
    let decision = decide(shared, terminal_entry, task);
    let abend_record = abend_record_with(
        decision.cause(),
        decision.command(),
        shared,
        terminal_entry,
        task,
    );
    let reply = carry_out(&decision, shared, terminal_entry, task)?;
    Ok((reply, abend_record))
}
