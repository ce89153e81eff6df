//! The DFHEISTG of a level as it is at an abend.
ghost use Rattle.std.specs.Prelude.{◌≡◌, ◌≤◌, ◌+◌, ◌*◌, ◌/◌, ◌<◌, ◌^◌, ◌++◌, IfOk, OnOk, length};
ghost use Rattle.cx_look_abend.specs.Dumps.{dump_at, dump_in, dump_lines, field_lines};
ghost use Rattle.cx_look_abend.specs.Parts.Texts.{if_dumped};
ghost use Rattle.cx_look_abend.specs.Parts.Sources.{GivesDump, IsSourceOf, RunGives, no_source, room_of};
ghost use Rattle.cx_look_turn.specs.NextTurn.{task_machine};

use cx_base::hexadecimal;
use cx_ebcdic::{Name4, Name8};
use cx_look_fields::{fields_word, kept_fields};
use cx_look_lines::{Report, present};
use cx_look_storage::row_lines;
use cx_look_symbols::Sources;
use cx_look_turn::{KeptMachine, TurnMachine};
use cx_program::Level;
use cx_region_state::Task;
use cx_storage::{Store, address_in};
use cx_storage_pages::PagedStore;
use std::alloc::{AllocError, Global};
use std::marker::Model;

/// The most bytes of a DFHEISTG.
const MOST_BYTES: u32 = 65_520;

/// A level's DFHEISTG: the level's program, the address of the first byte, and the bytes, at most 65,520.
#[derive(Drop)]
pub struct StorageDump {
    program: Name8,
    at: u32,
    bytes: Vec<u8>,
}

impl Model for StorageDump {
    ghost use Rattle.std.specs.Prelude.{◌≤◌, length};
    ghost use Rattle.cx_look_abend.specs.Dumps.{Dump};

    ghost Value = { Dump };

    ghost view = { λ dump. record { program = dump.program; at = dump.at; bytes = dump.bytes.items } };

    ghost invariant = { λ dump. length dump.bytes.items ≤ 65520 };
}

/// So many zero bytes.
fn zero_bytes(alloc: Global, count: usize) -> Result<Vec<u8>, AllocError>
    ensures { IfOk result (λ bytes. length bytes.items ≡ count) }
{
    let mut bytes = Vec::new(alloc);
    bytes.resize(count, 0)?;
    Ok(bytes)
}

/// Where a level's DFHEISTG is, and room for its bytes.
#[derive(Drop)]
struct DumpRoom {
    program: Name8,
    at: u32,
    bytes: Vec<u8>,
}

impl Model for DumpRoom {
    ghost use Rattle.std.specs.Prelude.{◌≤◌, ◌<◌, ◌^◌, length};
    ghost use Rattle.cx_look_abend.specs.Parts.Sources.{Room};

    ghost Value = { Room };

    ghost view = { λ room. record { program = room.program; at = room.at; n = length room.bytes.items } };

    ghost invariant = { λ room. (room.at < 2 ^ 24) × (length room.bytes.items ≤ 65520) };
}

impl DumpRoom {
    /// That of a level.
    fn of_level(alloc: Global, level: &Level) -> Result<DumpRoom, AllocError>
        ensures { IfOk result (λ room. room ≡ room_of level.now) }
    {
        Ok(DumpRoom {
            program: level.program,
            at: address_in(level.stg),
            bytes: zero_bytes(alloc, level.stg_len.min(MOST_BYTES) as usize)?,
        })
    }

    /// The bytes that are there in a store; None where one of them is in no area. It takes no memory.
    fn filled<S: Store>(self, store: &S) -> Option<StorageDump>
        ensures { result ≡ dump_at (S.storage store.now) self.program self.at self.n }
    {
        let DumpRoom { program, at, bytes } = self;
        let mut bytes = bytes;
        if !store.read(at, &mut bytes) {
            return None;
        }
        Some(StorageDump { program, at, bytes })
    }
}

/// A level's DFHEISTG in a store.
#[tactic(auto, unfolding(crate::specs::Dumps::dump_in))]
fn dump_in<S: Store>(
    alloc: Global,
    store: &S,
    level: &Level,
) -> Result<Option<StorageDump>, AllocError>
    ensures { IfOk result (λ dump. dump ≡ dump_in (S.storage store.now) level.now) }
{
    let room = DumpRoom::of_level(alloc, level)?;
    Ok(room.filled(store))
}

/// The machine whose run leaves a level's DFHEISTG as it is at an abend, and room for the bytes. Its store keeps no bytes
/// that were fetched, so that it is small: one is made before each turn, and hardly any is run.
#[derive(Drop)]
struct LevelRun {
    machine: TurnMachine<PagedStore>,
    room: DumpRoom,
}

impl Model for LevelRun {
    ghost use Rattle.cx_look_abend.specs.Parts.Sources.{LevelMachine};

    ghost Value = { LevelMachine };

    ghost view = { λ it. record { machine = it.machine; room = it.room } };
}

impl LevelRun {
    /// That of a task's current level.
    fn of_task<S: Store>(alloc: Global, store: &S, task: &Task) -> Result<LevelRun, AllocError>
        ensures { IfOk result (λ it. it ≡ record {
          machine = task_machine (S.storage store.now) task.now;
          room = room_of task.now.levels.current;
        }) }
    {
        let kept = KeptMachine::take(alloc, &task.cpu, store)?;
        Ok(LevelRun {
            machine: kept.over(&PagedStore::new(alloc))?,
            room: DumpRoom::of_level(alloc, task.levels.current())?,
        })
    }

    /// The DFHEISTG as the run leaves it. It takes no memory.
    fn dump(self) -> Option<StorageDump>
        ensures { RunGives self result }
    {
        let LevelRun { machine, room } = self;
        let mut machine = machine;
        let _halt = machine.run();
        room.filled(machine.store())
    }
}

/// What is kept before an event for the DFHEISTG at an abend to which it leads: the one that the command finds that is
/// due, or what finds it where instructions run.
#[derive(Drop)]
pub(crate) struct DumpBefore {
    found: Option<StorageDump>,
    run: Option<LevelRun>,
}

impl Model for DumpBefore {
    ghost use Rattle.cx_look_abend.specs.Parts.Sources.{DumpSource};

    ghost Value = { DumpSource };

    ghost view = { λ it. record { found = it.found; run = it.run } };
}

impl DumpBefore {
    /// Nothing is kept.
    pub(crate) fn none() -> DumpBefore
        ensures { result ≡ no_source }
    {
        DumpBefore {
            found: None,
            run: None,
        }
    }

    /// What is kept of a task's current level.
    ///
    /// An error comes only where memory for it, or for a store with the same storage, was refused.
    #[tactic(auto, unfolding(crate::specs::Parts::Sources::IsSourceOf))]
    pub(crate) fn of_task<S: Store>(
        alloc: Global,
        store: &S,
        task: &Task,
    ) -> Result<DumpBefore, AllocError>
        ensures { IfOk result (λ it. IsSourceOf (S.storage store.now) task.now it) }
    {
        if task.due {
            return Ok(DumpBefore {
                found: dump_in(alloc, store, task.levels.current())?,
                run: None,
            });
        }
        Ok(DumpBefore {
            found: None,
            run: Some(LevelRun::of_task(alloc, store, task)?),
        })
    }

    /// The DFHEISTG at the abend. Instructions are run once more for it, which takes no memory.
    pub(crate) fn dump(self) -> Option<StorageDump>
        ensures { GivesDump self result }
    {
        let DumpBefore { found, run } = self;
        match run {
            Some(run) => run.dump(),
            None => found,
        }
    }
}

impl StorageDump {
    /// Adds its lines.
    ///
    /// An error comes only where memory for them was refused.
    #[tactic(auto, unfolding(crate::specs::Dumps::dump_lines))]
    fn lines(&self, report: &mut Report) -> Result<(), AllocError>
        ensures { OnOk result (report.new ≡ report.old ++ dump_lines self.now) }
    {
        let at = hexadecimal::<6>(self.at);
        let length = hexadecimal::<6>(self.bytes.len() as u32);
        report.line(&[b"DFHEISTG", &at, b"LENGTH", &length])?;
        row_lines(report, self.at, &present(report.alloc(), &self.bytes)?)
    }

    /// A line for each field of the level's working storage, by the source of its program; NONE without one.
    ///
    /// An error comes only where memory was refused.
    fn field_lines(
        &self,
        alloc: Global,
        sources: &Sources,
        term: Name4,
    ) -> Result<Report, AllocError>
        ensures { IfOk result (λ report. report ≡ field_lines sources.now term self.now) }
    {
        let mut report = Report::new(alloc);
        let lines = sources.source_lines(self.program);
        kept_fields(&mut report, lines, term, self.at, &self.bytes)?;
        report.or_none(&fields_word(alloc, term)?)
    }
}

/// The lines of the fields of a DFHEISTG, where it was kept.
pub(crate) fn if_fields(
    alloc: Global,
    sources: &Sources,
    term: Name4,
    dump: &Option<StorageDump>,
) -> Result<Report, AllocError>
    ensures { IfOk result (λ report. report ≡ if_dumped (field_lines sources.now term) dump.now) }
{
    if let Some(dump) = dump {
        return dump.field_lines(alloc, sources, term);
    }
    let mut report = Report::new(alloc);
    report.line(&[b"DFHEISTG", b"--"])?;
    Ok(report)
}

/// Adds the lines of a DFHEISTG, where it was kept.
pub(crate) fn if_dumped(report: &mut Report, dump: &Option<StorageDump>) -> Result<(), AllocError>
    ensures { OnOk result (report.new ≡ report.old ++ if_dumped dump_lines dump.now) }
{
    match dump {
        Some(dump) => dump.lines(report),
        None => report.line(&[b"DFHEISTG", b"--"]),
    }
}
