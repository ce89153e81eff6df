//! What is kept of a terminal's last abend.
ghost use Rattle.std.specs.Prelude.{◌≡◌, ◌+◌, ◌<◌, ◌≤◌, ◌++◌, [], None, Some, length, map, reverse, slice_get};
ghost use Rattle.std.specs.Option.{option_copied, option_map};
ghost use Rattle.cx_look_symbols.specs.Places.{place_at_address};
ghost use Rattle.cx_region.specs.Tables.{task_of};
ghost use Rattle.indexmap.specs.IndexMap.{insert_entry, spare};
ghost use Rattle.cx_ebcdic.specs.Names.{is_name};
ghost use Rattle.cx_program.specs.Levels.{all_levels};
ghost use Rattle.cx_look_abend.specs.Parts.Callers.{caller_at};
ghost use Rattle.cx_look_abend.specs.Abends.{abend_code_in, abend_place, by_operator, caller_of, exit_place, explanation_of, kept_task, last_of_turn};

use crate::dumps::StorageDump;
use arrayvec::ArrayVec;
use cx_base::Abend;
use cx_ebcdic::{Name4, Name8};
use cx_look_fields::task_of;
use cx_look_lines::Report;
use cx_look_symbols::{Place, Spot, place_at_address, spot_before};
use cx_program::{Level, LevelStack};
use cx_region::{AbendRecord, Cause, Region, TurnReply};
use cx_storage::{Store, address_in};
use indexmap::IndexMap;
use std::marker::Model;

/// Why a turn led to an abend, and where its program was: at the next address, or after a command, where R14 leads.
#[derive(Drop)]
pub struct Explanation {
    pub abend_record: AbendRecord,
    pub place: Place,
    /// Where the byte before that place is: after a command the last one of the command's EXEC.
    pub before: Option<Spot>,
    /// The arguments of the command that was due, as COMMAND shows them.
    pub arguments: Report,
    /// The DFHEISTG of the level that abended, as it was then.
    pub dump: Option<StorageDump>,
}

/// How many levels the one that abended can have above it.
const CALLERS: usize = 15;

/// A level of a task that has called another: its program, and where it goes on.
#[derive(Clone, Copy, Debug, PartialEq, Eq)]
pub struct Caller {
    pub program: Name8,
    /// The address where it goes on after its command.
    pub next: u32,
}

impl Default for Caller {
    ghost use Rattle.std.specs.Prelude.{◌≡◌, replicate};

    ghost is_default = { λ caller. caller ≡ record { program = replicate 8 0x40; next = 0 } };

    /// What an unused place of `Callers` holds: a blank program name, and address 0.
    fn default() -> Caller {
        Caller {
            program: Name8::from_bytes([0x40; 8]),
            next: 0,
        }
    }
}

/// The levels that have called another, the highest first.
#[derive(Debug, Drop)]
pub struct Callers {
    of: ArrayVec<Caller, CALLERS>,
}

impl Model for Callers {
    ghost use Rattle.std.specs.Prelude.{List};
    ghost use Rattle.cx_look_abend.specs.declared.abends.Caller.{Caller as TheCaller};

    ghost Value = { List TheCaller };

    ghost view = { λ callers. callers.of.items };
}

impl Callers {
    /// None.
    fn none() -> Callers
        ensures { result ≡ [] }
    {
        Callers {
            of: ArrayVec::new(),
        }
    }

    /// These levels.
    pub(crate) fn as_slice(&self) -> &[Caller]
        ensures { result.now ≡ self.now }
    {
        self.of.as_slice()
    }
}

/// What is kept of a task for the time after it, since an abend that no exit takes ends it: its transaction, its
/// number, and its callers.
#[derive(Debug, Drop)]
pub struct KeptTask {
    pub tran: Name4,
    pub number: u32,
    /// The levels that have called the current one.
    pub callers: Callers,
}

/// What is kept of a terminal's task before an event that may lead to an abend.
#[derive(Drop)]
pub struct TaskBefore {
    /// What is kept of the task; None where the terminal has none.
    pub task: Option<KeptTask>,
    /// The arguments of the command that is due, as COMMAND shows them; no line where none is due, or its list can't be
    /// read.
    pub arguments: Report,
}

/// A terminal's last abend: its code, with what is kept of the task that abended.
#[derive(Drop)]
pub struct LastAbend {
    pub code: Name4,
    /// What is kept of the task that abended.
    pub task: Option<KeptTask>,
    /// Why a turn led to it; None where an operator asked for it.
    pub explanation: Option<Explanation>,
    /// Where the program went on, where an exit took it.
    pub exit: Option<Place>,
}

/// The last abend of a terminal; nothing where it has had none.
#[derive(Drop)]
pub struct Kept {
    last: Option<LastAbend>,
}

impl Model for Kept {
    ghost use Rattle.std.specs.Prelude.{Option};
    ghost use Rattle.cx_look_abend.specs.declared.abends.LastAbend.{LastAbend as TheAbend};

    ghost Value = { Option TheAbend };

    ghost view = { λ kept. kept.last };
}

impl Kept {
    /// None so far.
    fn none() -> Kept
        ensures { result ≡ None }
    {
        Kept { last: None }
    }

    /// The abend, where there is one.
    pub(crate) fn last(&self) -> Option<&LastAbend>
        ensures { option_copied result ≡ self.now }
    {
        self.last.as_ref()
    }

    /// Keeps an abend.
    pub(crate) fn keep(&mut self, last: LastAbend)
        ensures { self.new ≡ Some last }
    {
        self.last = Some(last);
    }
}

/// The last abend of each terminal that is defined.
pub type LastAbends = IndexMap<Name4, Kept>;

/// Keeps that a terminal, for which there is room, has had no abend.
pub(crate) fn put_none(abends: &mut LastAbends, name: Name4)
    requires { 1 ≤ spare abends.old }
    ensures { abends.new.entries ≡ insert_entry is_name abends.old.entries name None }
{
    match abends.insert(name, Kept::none()) {
        Ok(_before) => (),
        Err(_refused) => (),
    }
}

/// A level that has called another.
fn caller_of(level: &Level) -> Caller
    ensures { result ≡ caller_of level.now }
{
    Caller {
        program: level.program,
        next: address_in(level.regs[14]),
    }
}

/// Adds the level at an index, counted from 0, where there is one.
fn push_caller(callers: &mut Callers, levels: &LevelStack, index: usize)
    requires { length callers.old < CALLERS }
    ensures value { callers.new ≡ callers.old ++ caller_at (slice_get (all_levels levels.now) index) }
    ensures one { length callers.new ≤ length callers.old + 1 }
{
    let Some(level) = levels.get(index) else {
        return;
    };
    callers.of.push(caller_of(level));
}

/// The levels that have called the current one.
#[tactic(auto, using(crate::proofs::CallerLemmas::callers_done))]
fn callers_of(levels: &LevelStack) -> Callers
    ensures { result ≡ map caller_of (reverse levels.now.callers) }
{
    let mut callers = Callers::none();
    for index in 0..levels.len() - 1 {
        push_caller(&mut callers, levels, index);
    }
    callers
}

/// What is kept of a terminal's task.
pub(crate) fn kept_task<S: Store + Drop>(region: &Region<S>, name: Name4) -> Option<KeptTask>
    ensures { result ≡ kept_task region.now name }
{
    let task = task_of(region, name)?;
    Some(KeptTask {
        tran: task.tran,
        number: task.number,
        callers: callers_of(&task.levels),
    })
}

/// The code of an abend, where a turn's reply is one. It takes no memory.
pub fn abend_code_in(reply: &TurnReply) -> Option<Name4>
    ensures { result ≡ abend_code_in reply.now }
{
    match reply {
        TurnReply::TookExit(code) | TurnReply::Abended(code) => Some(*code),
        _ => None,
    }
}

/// The address where the program was.
fn abend_place(abend_record: &AbendRecord) -> u32
    ensures { result ≡ abend_place abend_record.now }
{
    match abend_record.cause {
        Cause::Interrupted(_) | Cause::Limit => abend_record.next,
        _ => address_in(abend_record.regs[14]),
    }
}

/// Where a terminal's task goes on, where there is one.
fn goes_on_at<S: Store + Drop>(region: &Region<S>, name: Name4) -> Option<Place>
    ensures { let programs = region.now.shared.programs in
        result ≡ option_map (λ task. place_at_address programs task.next) (task_of region.now name) }
{
    let task = task_of(region, name)?;
    Some(place_at_address(&region.shared().programs, task.cpu.next))
}

/// Where the program goes on, where an exit took the abend.
fn exit_place<S: Store + Drop>(region: &Region<S>, name: Name4, reply: &TurnReply) -> Option<Place>
    ensures { result ≡ exit_place region.now name reply.now }
{
    match reply {
        TurnReply::TookExit(_code) => goes_on_at(region, name),
        _ => None,
    }
}

/// Why a turn led to an abend, where its program was, the arguments of its command, and this DFHEISTG, where the region
/// is as it was after the turn.
fn explanation_of<S: Store + Drop>(
    region: &Region<S>,
    before: TaskBefore,
    dump: Option<StorageDump>,
    abend_record: AbendRecord,
) -> (Option<KeptTask>, Explanation)
    ensures { (result.0 ≡ before.task) × (result.1 ≡ explanation_of region.now before dump abend_record) }
{
    let TaskBefore { task, arguments } = before;
    let programs = &region.shared().programs;
    let address = abend_place(&abend_record);
    let explanation = Explanation {
        abend_record,
        place: place_at_address(programs, address),
        before: spot_before(programs, address),
        arguments,
        dump,
    };
    (task, explanation)
}

/// The abend of a turn of a task that was answered so, with that DFHEISTG and that record of an abend, where the region
/// is as it was after the turn.
pub(crate) fn last_of_turn<S: Store + Drop>(
    region: &Region<S>,
    name: Name4,
    reply: &TurnReply,
    before: TaskBefore,
    dump: Option<StorageDump>,
    abend_record: &Option<AbendRecord>,
) -> Option<LastAbend>
    ensures { result ≡ last_of_turn region.now name reply.now before dump abend_record.now }
{
    let abend_record = (*abend_record)?;
    let code = abend_code_in(reply)?;
    let (task, explanation) = explanation_of(region, before, dump, abend_record);
    let exit = exit_place(region, name, reply);
    Some(LastAbend {
        code,
        task,
        explanation: Some(explanation),
        exit,
    })
}

/// An abend of a task that an operator asked for.
pub(crate) fn by_operator(before: TaskBefore) -> LastAbend
    ensures { result ≡ by_operator before }
{
    LastAbend {
        code: Abend::Xedf.code(),
        task: before.task,
        explanation: None,
        exit: None,
    }
}
