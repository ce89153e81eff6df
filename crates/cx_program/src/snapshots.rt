//! The levels of a task and their handles, kept apart from it in as much memory as they need.
ghost use Rattle.std.specs.Prelude.{◌≡◌, ◌↔◌, ◌≤◌, IsTrue, IfOk, length};

use crate::condition_code::ConditionCode;
use crate::entries::{Handler, Handling};
use crate::handles::{HandleTable, PUSHES};
use crate::level::Level;
use crate::stack::{CALLERS, LevelStack};
use arrayvec::ArrayVec;
use cx_base::{Same, are_same_items};
use cx_ebcdic::Name8;
use std::alloc::{AllocError, Global};
use std::marker::Model;

impl Same for Handler {
    fn is_same(&self, other: &Self) -> bool {
        self == other
    }
}

impl Same for Handling {
    fn is_same(&self, other: &Self) -> bool {
        self.exit == other.exit && are_same_items(&self.entries.of, &other.entries.of)
    }
}

/// The handles of a level.
#[derive(Drop)]
struct HandleSnapshot {
    active: Handling,
    kept: Vec<Handling>,
}

impl Model for HandleSnapshot {
    ghost use Rattle.std.specs.Prelude.{◌≤◌, length, reverse};
    ghost use Rattle.cx_program.specs.Handles.{Handles};

    ghost Value = { Handles };

    ghost view = { λ snapshot. record { active = snapshot.active; kept = reverse snapshot.kept.items } };

    ghost invariant = { λ snapshot. length snapshot.kept.items ≤ 16 };
}

impl HandleSnapshot {
    /// The handles of a level, kept apart from it.
    fn take(alloc: Global, handles: &HandleTable) -> Result<HandleSnapshot, AllocError>
        ensures { IfOk result (λ snapshot. snapshot ≡ handles.now) }
    {
        let kept = Vec::from_slice(alloc, handles.kept.as_slice())?;
        Ok(HandleSnapshot {
            active: handles.active,
            kept,
        })
    }

    /// Handles of a level that are these.
    fn handles(&self) -> HandleTable
        ensures { result ≡ self.now }
    {
        HandleTable {
            active: self.active,
            kept: kept_again(self.kept.as_slice()),
        }
    }

    /// Puts these handles in the place of a level's.
    fn put_over(&self, handles: &mut HandleTable)
        ensures { handles.new ≡ self.now }
    {
        handles.active = self.active;
        put_kept(&mut handles.kept, self.kept.as_slice());
    }
}

/// What was kept, kept again.
fn kept_again(handlings: &[Handling]) -> ArrayVec<Handling, PUSHES>
    requires { length handlings.now ≤ PUSHES }
    ensures { result.items ≡ handlings.now }
{
    let mut kept = ArrayVec::new();
    for handling in handlings {
        kept.push(*handling);
    }
    kept
}

/// Puts what was kept in the place of what is kept.
fn put_kept(kept: &mut ArrayVec<Handling, PUSHES>, handlings: &[Handling])
    requires { length handlings.now ≤ PUSHES }
    ensures { kept.new.items ≡ handlings.now }
{
    kept.clear();
    for handling in handlings {
        kept.push(*handling);
    }
}

impl Same for HandleSnapshot {
    #[tactic(auto, using(crate::proofs::SnapshotLemmas::reversed_same))]
    fn is_same(&self, other: &Self) -> bool {
        self.active.is_same(&other.active)
            && are_same_items(self.kept.as_slice(), other.kept.as_slice())
    }
}

/// A level.
#[derive(Drop)]
struct LevelSnapshot {
    program: Name8,
    stg: u32,
    stg_len: u32,
    calen: u16,
    regs: [u32; 16],
    cc: ConditionCode,
    handles: HandleSnapshot,
}

impl Model for LevelSnapshot {
    ghost use Rattle.cx_program.specs.declared.level.Level.{Level as LevelState};

    ghost Value = { LevelState };

    ghost view = { λ snapshot.
        record {
          program = snapshot.program;
          stg = snapshot.stg;
          stg_len = snapshot.stg_len;
          calen = snapshot.calen;
          regs = snapshot.regs;
          cc = snapshot.cc;
          handles = snapshot.handles;
        } };
}

impl LevelSnapshot {
    /// A level, kept apart from its stack.
    fn take(alloc: Global, level: &Level) -> Result<LevelSnapshot, AllocError>
        ensures { IfOk result (λ snapshot. snapshot ≡ level.now) }
    {
        let handles = HandleSnapshot::take(alloc, &level.handles)?;
        Ok(LevelSnapshot {
            program: level.program,
            stg: level.stg,
            stg_len: level.stg_len,
            calen: level.calen,
            regs: level.regs,
            cc: level.cc,
            handles,
        })
    }

    /// A level that is this one.
    fn level(&self) -> Level
        ensures { result ≡ self.now }
    {
        Level {
            program: self.program,
            stg: self.stg,
            stg_len: self.stg_len,
            calen: self.calen,
            regs: self.regs,
            cc: self.cc,
            handles: self.handles.handles(),
        }
    }

    /// Puts this level in the place of another.
    fn put_over(&self, level: &mut Level)
        ensures { level.new ≡ self.now }
    {
        level.program = self.program;
        level.stg = self.stg;
        level.stg_len = self.stg_len;
        level.calen = self.calen;
        level.regs = self.regs;
        level.cc = self.cc;
        self.handles.put_over(&mut level.handles);
    }
}

impl Same for LevelSnapshot {
    fn is_same(&self, other: &Self) -> bool {
        self.program.is_same(&other.program)
            && self.stg == other.stg
            && self.stg_len == other.stg_len
            && self.calen == other.calen
            && self.regs.as_slice() == other.regs.as_slice()
            && self.cc.number() == other.cc.number()
            && self.handles.is_same(&other.handles)
    }
}

/// The levels of a task, kept apart from it: a level takes some 200 bytes, and 88 for each PUSH HANDLE that keeps
/// something.
///
/// Contracts see it as `Levels`, as they see the levels themselves.
#[derive(Drop)]
pub struct LevelsSnapshot {
    callers: Vec<LevelSnapshot>,
    current: LevelSnapshot,
}

impl Model for LevelsSnapshot {
    ghost use Rattle.std.specs.Prelude.{◌≤◌, length, reverse};
    ghost use Rattle.cx_program.specs.Levels.{Levels};

    ghost Value = { Levels };

    ghost view = { λ snapshot. record { callers = reverse snapshot.callers.items; current = snapshot.current } };

    ghost invariant = { λ snapshot. length snapshot.callers.items ≤ 15 };
}

impl LevelsSnapshot {
    /// A copy of the levels of a task.
    ///
    /// An error comes only where an allocation failed.
    pub fn take(alloc: Global, levels: &LevelStack) -> Result<LevelsSnapshot, AllocError>
        ensures { IfOk result (λ snapshot. snapshot ≡ levels.now) }
    {
        let callers = snapshots_of(alloc, levels.callers.as_slice())?;
        let current = LevelSnapshot::take(alloc, &levels.current)?;
        Ok(LevelsSnapshot { callers, current })
    }

    /// A stack of levels that is equal to the one that was copied. It takes no memory.
    pub fn levels(&self) -> LevelStack
        ensures { result ≡ self.now }
    {
        LevelStack {
            callers: levels_of(self.callers.as_slice()),
            current: self.current.level(),
        }
    }

    /// Gives a stack of levels those that were copied. It takes no memory, and moves no level but callers.
    pub fn put_over(&self, levels: &mut LevelStack)
        ensures { levels.new ≡ self.now }
    {
        put_levels(&mut levels.callers, self.callers.as_slice());
        self.current.put_over(&mut levels.current);
    }
}

impl Same for LevelsSnapshot {
    #[tactic(auto, using(crate::proofs::SnapshotLemmas::reversed_same))]
    fn is_same(&self, other: &Self) -> bool {
        self.current.is_same(&other.current)
            && are_same_items(self.callers.as_slice(), other.callers.as_slice())
    }
}

/// Levels, each kept apart.
fn snapshots_of(alloc: Global, levels: &[Level]) -> Result<Vec<LevelSnapshot>, AllocError>
    ensures { IfOk result (λ snapshots. snapshots.items ≡ levels.now) }
{
    let mut snapshots = Vec::with_capacity(alloc, levels.len())?;
    for level in levels {
        snapshots.push(LevelSnapshot::take(alloc, level)?)?;
    }
    Ok(snapshots)
}

/// The levels that were kept.
fn levels_of(snapshots: &[LevelSnapshot]) -> ArrayVec<Level, CALLERS>
    requires { length snapshots.now ≤ CALLERS }
    ensures { result.items ≡ snapshots.now }
{
    let mut levels = ArrayVec::new();
    for snapshot in snapshots {
        levels.push(snapshot.level());
    }
    levels
}

/// Puts the levels that were kept in the place of others.
fn put_levels(levels: &mut ArrayVec<Level, CALLERS>, snapshots: &[LevelSnapshot])
    requires { length snapshots.now ≤ CALLERS }
    ensures { levels.new.items ≡ snapshots.now }
{
    levels.clear();
    for snapshot in snapshots {
        levels.push(snapshot.level());
    }
}
