//! The levels of one task.
ghost use Rattle.std.specs.Prelude.{◌≡◌, ◌+◌, ◌<◌, ◌≤◌, ◌↔◌, [], ◌∷◌, ◌++◌, length, slice_get, IsOk, IsSome, OnOk, OnErr, IfErr, IfNone, IfSome, OnSome, Some};
ghost use Rattle.std.specs.Borrow.{sem};
ghost use Rattle.std.specs.Option.{option_copied};
ghost use Rattle.cx_program.specs.Lending.{LendsCurrent};
ghost use Rattle.cx_program.specs.Levels.{IsNearestExit, all_levels, highest, with_called_level};

use crate::faults::ProgramFault;
use crate::level::Level;
use arrayvec::ArrayVec;
use std::marker::Model;
use std::mem;

/// How many levels the current one can have above it.
pub(crate) const CALLERS: usize = 15;

/// The levels of one task, 1 to 16: that of the transaction's program is the highest, each calls the next
/// by LINK, and the last is the current one.
///
/// No call takes memory. Contracts see it as `Levels`: the callers (`callers`), the nearest first, and the
/// current level (`current`).
#[derive(Drop)]
pub struct LevelStack {
    pub(crate) callers: ArrayVec<Level, CALLERS>,
    pub(crate) current: Level,
}

impl Model for LevelStack {
    ghost use Rattle.std.specs.Prelude.{reverse};
    ghost use Rattle.cx_program.specs.Levels.{Levels};

    ghost Value = { Levels };

    ghost view = { λ stack. record { callers = reverse stack.callers.items; current = stack.current } };
}

impl LevelStack {
    /// A task's first level alone.
    pub fn new(level: Level) -> LevelStack
        ensures { result ≡ highest level }
    {
        LevelStack {
            callers: ArrayVec::new(),
            current: level,
        }
    }

    /// How many levels there are, 1 to 16.
    pub fn len(&self) -> usize
        ensures value { result ≡ length (all_levels self.now) }
        ensures callers { result ≡ length self.now.callers + 1 }
        ensures greatest { result ≤ 16 }
    {
        self.callers.len() + 1
    }

    /// The level at an index, counted from 0, the highest; None past the current one.
    pub fn get(&self, index: usize) -> Option<&Level>
        ensures { option_copied result ≡ slice_get (all_levels self.now) index }
    {
        if index == self.callers.len() {
            Some(&self.current)
        } else {
            self.callers.get(index)
        }
    }

    /// The current level.
    pub fn current(&self) -> &Level
        ensures { result.now ≡ self.now.current }
    {
        &self.current
    }

    /// The current level, for writing. Its callers stay as they are.
    pub fn current_mut(&mut self) -> &mut Level
        ensures* writes_back { sem 𝓛 (LendsCurrent self.entry result) }
        ensures value { result.now ≡ self.old.current }
    {
        &mut self.current
    }

    /// Makes a level the current one, called by the one that was it.
    ///
    /// TooDeep comes exactly where there are sixteen levels already. The level comes back with it, and
    /// nothing has changed.
    pub fn enter(&mut self, level: Level) -> Result<(), (Level, ProgramFault)>
        ensures room { IsOk result ↔ (length (all_levels self.old) < 16) }
        ensures entered { OnOk result (self.new ≡ with_called_level self.old level) }
        ensures fault { IfErr result (λ refused. refused.1 ≡ ProgramFault.TooDeep) }
        ensures level_returned { IfErr result (λ refused. refused.0 ≡ level) }
        ensures err { OnErr result (self.new ≡ self.old) }
    {
        if self.callers.is_full() {
            return Err((level, ProgramFault::TooDeep));
        }
        let caller = mem::replace(&mut self.current, level);
        self.callers.push(caller);
        Ok(())
    }

    /// Ends the current level, and gives it: its caller is the current one again. None for the highest
    /// level, which stays.
    pub fn leave(&mut self) -> Option<Level>
        ensures lower { IsSome result ↔ (0 < length self.old.callers) }
        ensures left { IfSome result (λ level. level ≡ self.old.current) }
        ensures above { OnSome result (self.old.callers ≡ self.new.current ∷ self.new.callers) }
        ensures none { IfNone result (self.new ≡ self.old) }
    {
        let caller = self.callers.pop()?;
        Some(mem::replace(&mut self.current, caller))
    }

    /// The index of the nearest level, from the current one upward through its callers, whose exit is on; None where no
    /// level's is. It is counted from 0, the highest level, as `get` counts.
    pub fn find_exit(&self) -> Option<usize>
        ensures { IsNearestExit (all_levels self.now) result }
    {
        nearest_exit(self.callers.as_slice(), &self.current)
    }
}

/// The index of the nearest level whose exit is on, of the current one and its callers.
#[tactic(auto, using(crate::proofs::LevelLemmas::nearest_exit_on, crate::proofs::LevelLemmas::nearest_exit_off))]
fn nearest_exit(callers: &[Level], current: &Level) -> Option<usize>
    ensures { IsNearestExit (callers.now ++ current.now ∷ []) result }
{
    if current.handles.exit().is_some() {
        Some(callers.len())
    } else {
        last_exit(callers)
    }
}

/// The greatest index of a level whose exit is on.
fn last_exit(levels: &[Level]) -> Option<usize>
    ensures { IsNearestExit levels.now result }
{
    let mut last = None;
    for (i, level) in levels.iter().enumerate() {
        if level.handles.exit().is_some() {
            last = Some(i);
        }
    }
    last
}
