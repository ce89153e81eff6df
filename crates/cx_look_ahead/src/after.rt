//! AHEAD AFTER.
ghost use Rattle.std.specs.Prelude.{◌≡◌, ◌+◌, ◌≤◌, ◌++◌, [], IfOk, OnOk, codes, length, option_copied, reverse, slice_get};
ghost use Rattle.std.specs.Option.{option_map_or};
ghost use Rattle.cx_exec.specs.Machine.{machine};
ghost use Rattle.cx_program.specs.Levels.{all_levels};
ghost use Rattle.cx_look_ahead.specs.After.{AfterText, after_line, caller_fields, current_there, fields_lines, level_fields, reached_line, state_lines, task_fields};
ghost use Rattle.cx_look_ahead.specs.Parts.Callers.{caller_at};

use crate::instructions::visit_line;
use cx_base::{decimal as digits, shown_name};
use cx_ebcdic::{Name4, Name8};
use cx_exec::Cpu;
use cx_load::Loaded;
use cx_look_fields::{Standing, calling, fields_there, task_of};
use cx_look_lines::{Report, decimal, register_lines};
use cx_look_symbols::{Sources, place_at_address};
use cx_look_turn::{instruction_at, machine_after};
use cx_program::LevelStack;
use cx_region::Region;
use cx_region_state::Task;
use cx_storage::Store;
use indexmap::IndexMap;
use std::alloc::{AllocError, Global};

/// Adds the first line, which ends with a word.
fn after_line(
    report: &mut Report,
    name: Name4,
    what: &[u8],
    count: u32,
    word: &[u8],
) -> Result<(), AllocError>
    ensures { OnOk result (report.new ≡ report.old ++ after_line name what.now count word.now) }
{
    let name = shown_name(report.alloc(), name)?;
    let count = decimal(report.alloc(), count as usize)?;
    report.line(&[b"AHEAD", &name, what, &count, word])
}

/// The report of a turn that does fewer instructions.
fn none_report(alloc: Global, name: Name4, what: &[u8], count: u32) -> Result<Report, AllocError>
    ensures { IfOk result (λ report. report ≡ after_line name what.now count (codes "NONE")) }
{
    let mut report = Report::new(alloc);
    after_line(&mut report, name, what, count, b"NONE")?;
    Ok(report)
}

/// What a terminal's task has in the middle of its next turn.
#[derive(Drop)]
struct TaskThen<'a, S: Store> {
    cpu: &'a Cpu,
    store: &'a S,
    name: Name4,
    sources: &'a Sources,
    programs: &'a IndexMap<Name8, Loaded>,
}

impl<'a, S: Store> TaskThen<'a, S> {
    /// Adds the first line, with the condition code.
    fn reached_line(&self, report: &mut Report, what: &[u8], count: u32) -> Result<(), AllocError>
        ensures { let m = machine self.now.cpu.now (S.storage self.now.store.now) in
            OnOk result (report.new ≡ report.old ++ reached_line self.now.name what.now count m) }
    {
        let [code] = digits::<1>(u32::from(self.cpu.cc));
        after_line(report, self.name, what, count, &[b'C', b'C', b' ', code])
    }

    /// Adds the lines of the instruction that comes next, and of the registers.
    fn state_lines(&self, report: &mut Report) -> Result<(), AllocError>
        ensures { let m = machine self.now.cpu.now (S.storage self.now.store.now) in
            let lines = state_lines self.now.sources.now self.now.programs.now.entries m in
            OnOk result (report.new ≡ report.old ++ lines) }
    {
        let visit = instruction_at(self.cpu, self.store);
        visit_line(report, self.sources, self.programs, &visit)?;
        register_lines(report, &self.cpu.regs)
    }

    /// Adds a level's line, and those of its fields.
    fn level_fields(
        &self,
        report: &mut Report,
        k: u32,
        standing: &Standing,
    ) -> Result<(), AllocError>
        ensures { let s = S.storage self.now.store.now in
            let lines = level_fields self.now.sources.now s self.now.name k standing.now in
            OnOk result (report.new ≡ report.old ++ lines) }
    {
        let number = digits::<2>(k);
        let program = shown_name(report.alloc(), standing.program)?;
        report.line(&[b"LEVEL", &number, b"PROGRAM", &program])?;
        let lines = self.sources.source_lines(standing.program);
        fields_there(report, self.store, lines, self.name, standing)
    }

    /// Adds those of the level at an index, counted from 0, which has called another.
    fn caller_at(
        &self,
        report: &mut Report,
        levels: &LevelStack,
        index: usize,
    ) -> Result<(), AllocError>
        requires { index ≤ 16 }
        ensures { let s = S.storage self.now.store.now in
            let level = slice_get (all_levels levels.now) index in
            let lines = caller_at self.now.sources.now self.now.programs.now.entries s self.now.name (index + 1) level in
            OnOk result (report.new ≡ report.old ++ lines) }
    {
        let Some(level) = levels.get(index) else {
            return Ok(());
        };
        self.level_fields(report, index as u32 + 1, &calling(self.programs, level))
    }

    /// Adds those of the levels that have called another, the highest first.
    fn caller_fields(&self, report: &mut Report, levels: &LevelStack) -> Result<(), AllocError>
        ensures { let s = S.storage self.now.store.now in
            let callers = reverse levels.now.callers in
            let lines = caller_fields self.now.sources.now self.now.programs.now.entries s self.now.name 1 callers in
            OnOk result (report.new ≡ report.old ++ lines) }
    {
        for index in 0..levels.len() - 1 {
            self.caller_at(report, levels, index)?;
        }
        Ok(())
    }

    /// Where the current level stands.
    fn current_there(&self, task: &Task) -> Standing
        ensures { let m = machine self.now.cpu.now (S.storage self.now.store.now) in
            result ≡ current_there self.now.programs.now.entries task.now m }
    {
        Standing {
            program: task.levels.current().program,
            regs: self.cpu.regs,
            spot: place_at_address(self.programs, self.cpu.next).spot,
        }
    }

    /// Adds those of all levels of the task.
    fn task_fields(&self, report: &mut Report, task: &Task) -> Result<(), AllocError>
        ensures { let m = machine self.now.cpu.now (S.storage self.now.store.now) in
            let lines = task_fields self.now.sources.now self.now.programs.now.entries self.now.name m task.now in
            OnOk result (report.new ≡ report.old ++ lines) }
    {
        self.caller_fields(report, &task.levels)?;
        let standing = self.current_there(task);
        self.level_fields(report, task.levels.len() as u32, &standing)
    }

    /// Adds those of a region's task.
    fn fields_lines(&self, report: &mut Report, task: Option<&Task>) -> Result<(), AllocError>
        ensures { let m = machine self.now.cpu.now (S.storage self.now.store.now) in
            let lines = task_fields self.now.sources.now self.now.programs.now.entries self.now.name m in
            OnOk result (report.new ≡ report.old ++ option_map_or lines (option_copied task.entry) []) }
    {
        match task {
            Some(task) => self.task_fields(report, task),
            None => Ok(()),
        }
    }
}

/// Looks at what a terminal's task will have after so many instructions of its next turn: its condition code, the
/// instruction that comes next, and its registers. The instructions run over a store like this region's, so nothing
/// changes here. NONE where the turn does fewer: where it performs a command, or there is no task, or no such terminal,
/// it does none, and one that is interrupted isn't done.
///
/// An error comes only where memory for that store or for the report was refused.
pub fn after_text<S: Store + Drop>(
    alloc: Global,
    sources: &Sources,
    region: &Region<S>,
    name: Name4,
    count: u32,
) -> Result<Report, AllocError>
    ensures { let lines = state_lines sources.now region.now.shared.programs in
        IfOk result (λ report. AfterText region.now name (codes "AFTER") count lines report) }
{
    let there = machine_after(alloc, region, name, count)?;
    let Some(machine) = there else {
        return none_report(alloc, name, b"AFTER", count);
    };
    let task = TaskThen {
        cpu: machine.cpu(),
        store: machine.store(),
        name,
        sources,
        programs: &region.shared().programs,
    };
    let mut report = Report::new(alloc);
    task.reached_line(&mut report, b"AFTER", count)?;
    task.state_lines(&mut report)?;
    Ok(report)
}

/// Looks at all fields of each level of a terminal's task, the highest first, as they will be after so many
/// instructions of its next turn, as FIELDS writes them. NONE as for the state then.
///
/// An error comes only where memory for a store like this region's, for the sources or for the report was refused.
pub fn fields_after_text<S: Store + Drop>(
    alloc: Global,
    sources: &Sources,
    region: &Region<S>,
    name: Name4,
    count: u32,
) -> Result<Report, AllocError>
    ensures { let lines = fields_lines sources.now region.now name in
        IfOk result (λ report. AfterText region.now name (codes "FIELDS AFTER") count lines report) }
{
    let there = machine_after(alloc, region, name, count)?;
    let Some(machine) = there else {
        return none_report(alloc, name, b"FIELDS AFTER", count);
    };
    let task = TaskThen {
        cpu: machine.cpu(),
        store: machine.store(),
        name,
        sources,
        programs: &region.shared().programs,
    };
    let mut report = Report::new(alloc);
    task.reached_line(&mut report, b"FIELDS AFTER", count)?;
    task.fields_lines(&mut report, task_of(region, name))?;
    Ok(report)
}
