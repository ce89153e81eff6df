//! Ranges of bytes that are watched.
ghost use Rattle.std.specs.Prelude.{◌≡◌, ◌↔◌, [], ◌++◌, IfOk, IsTrue, OnErr, OnOk, length, map};
ghost use Rattle.std.specs.List.{flat_map};
ghost use Rattle.std.specs.Option.{option_map_or};
ghost use Rattle.std.specs.Str.{bytes_eq};
ghost use Rattle.cx_look_ahead.specs.Watching.{AreOfRanges, begun_watch, cause_word, change_line, command_word, instruction_word, is_full, kept_in, line_or, with_range};
ghost use Rattle.cx_look_ahead.specs.Parts.Words.{begun_line, refused_line};
ghost use Rattle.cx_look_ahead.specs.Parts.Seen.{IsOfChanged, if_changed, run_word, seen_line, statement_lines};
ghost use Rattle.cx_look_ahead.specs.declared.writers.Work.TheVariants as work;

use crate::writers::{Seen, last_writers};
use crate::{Row, Work, bytes_word};
use cx_base::{List, hexadecimal, shown_name};
use cx_ebcdic::{Name4, Name8};
use cx_load::Loaded;
use cx_look_lines::{Report, decimal, joined};
use cx_look_symbols::{Place, Sources, address_word, place_at_address, spot_before, statement_at};
use cx_look_turn::KeptMachine;
use cx_storage::Store;
use indexmap::IndexMap;
use std::alloc::{AllocError, Global};
use std::marker::Model;

/// The most ranges that are watched.
const MOST: usize = 16;

/// What is done when a watched byte changes.
#[derive(Clone, Copy, Debug, PartialEq, Eq)]
pub enum Cause {
    /// A turn of this terminal.
    Turn(Name4),
    /// A key of this terminal.
    Key(Name4),
    /// An alteration at this terminal.
    Alter(Name4),
    /// The definition of this program.
    Program(Name8),
    /// Any other action of a script.
    Other,
}

/// A range, and its bytes as they were, two hexadecimal digits each; two hyphens for one that was in no area.
#[derive(Debug, Drop)]
pub struct Kept {
    pub range: Row,
    pub bytes: List<u8>,
}

/// The ranges that are watched, the first given first: at most sixteen, as `watch` adds them.
#[derive(Drop)]
pub struct Watches {
    ranges: Vec<Row>,
}

impl Model for Watches {
    ghost use Rattle.std.specs.Prelude.{List as Elements};
    ghost use Rattle.cx_look_ahead.specs.declared.rows.Row.{Row as Range};

    ghost Value = { Elements Range };

    ghost view = { λ watches. watches.ranges.items };
}

/// What was done, in the words of its line.
fn cause_word(alloc: Global, cause: &Cause) -> Result<Vec<u8>, AllocError>
    ensures { IfOk result (λ text. text.items ≡ cause_word cause.now) }
{
    match cause {
        Cause::Turn(name) => joined(alloc, b"TURN ", &shown_name(alloc, *name)?),
        Cause::Key(name) => joined(alloc, b"KEY ", &shown_name(alloc, *name)?),
        Cause::Alter(name) => joined(alloc, b"ALTER ", &shown_name(alloc, *name)?),
        Cause::Program(name) => joined(alloc, b"PROGRAM ", &shown_name(alloc, *name)?),
        Cause::Other => b"ANOTHER LINE".to_vec(alloc),
    }
}

/// A range with its bytes.
fn kept_in<S: Store>(alloc: Global, store: &S, range: Row) -> Result<Kept, AllocError>
    ensures { IfOk result (λ kept. kept ≡ kept_in (S.storage store.now) range) }
{
    let bytes = bytes_word(alloc, store, range.at, range.length)?;
    Ok(Kept {
        range,
        bytes: List::from_vec(bytes),
    })
}

/// A copy of a range with its bytes.
pub(crate) fn copy_of(alloc: Global, kept: &Kept) -> Result<Kept, AllocError>
    ensures { IfOk result (λ copy. copy ≡ kept.now) }
{
    Ok(Kept {
        range: kept.range,
        bytes: List::from_vec(kept.bytes.as_slice().to_vec(alloc)?),
    })
}

/// What an action did: what it is called, what it did of a program, and the sources, the programs and the store after
/// it.
#[derive(Drop)]
pub struct Done<'a, S: Store + Drop> {
    pub cause: Cause,
    pub work: &'a Work,
    pub sources: &'a Sources,
    pub programs: &'a IndexMap<Name8, Loaded>,
    pub store: &'a S,
}

impl<'a, S: Store + Drop> Model for Done<'a, S> {
    ghost use Rattle.cx_look_ahead.specs.Watching.{ActionEffect};

    ghost Value = { ActionEffect };

    ghost view = { λ it.
        record {
          by = it.cause;
          done = it.work.now;
          sources = it.sources.now;
          programs = it.programs.now.entries;
          storage = S.storage it.store.now;
        } };
}

/// A statement by its line, or where there is none an address, after words that lead to it.
fn line_or(
    alloc: Global,
    statement: &Option<List<u8>>,
    words: &[u8],
    place: &Place,
) -> Result<Vec<u8>, AllocError>
    ensures { IfOk result (λ word. word.items ≡ line_or statement.now words.now place.now) }
{
    match statement {
        Some(statement) => joined(alloc, b" LINE ", statement.as_slice()),
        None => joined(alloc, words, &address_word(alloc, place)?),
    }
}

/// The statement that has an instruction.
#[tactic(auto, unfolding(crate::specs::Watching::instruction_word))]
fn instruction_word(
    alloc: Global,
    sources: &Sources,
    programs: &IndexMap<Name8, Loaded>,
    at: u32,
) -> Result<Vec<u8>, AllocError>
    ensures { IfOk result (λ word. word.items ≡ instruction_word sources.now programs.now.entries at) }
{
    let place = place_at_address(programs, at);
    let statement = statement_at(alloc, sources, &place.spot)?;
    line_or(alloc, &statement, b" INSTRUCTION ", &place)
}

/// The statement of a command's EXEC.
#[tactic(auto, unfolding(crate::specs::Watching::command_word))]
fn command_word(
    alloc: Global,
    sources: &Sources,
    programs: &IndexMap<Name8, Loaded>,
    back: u32,
) -> Result<Vec<u8>, AllocError>
    ensures { IfOk result (λ word. word.items ≡ command_word sources.now programs.now.entries back) }
{
    let statement = statement_at(alloc, sources, &spot_before(programs, back))?;
    line_or(
        alloc,
        &statement,
        b" R14 ",
        &place_at_address(programs, back),
    )
}

/// Whether two texts are the same.
pub(crate) fn are_same(one: &[u8], other: &[u8]) -> bool
    ensures { result ≡ bytes_eq one.now other.now }
{
    one == other
}

impl<'a, S: Store + Drop> Done<'a, S> {
    /// The statement that has an instruction, if there is one.
    fn written_by(&self, alloc: Global, at: Option<u32>) -> Result<Vec<u8>, AllocError>
        ensures { let word = instruction_word self.now.sources self.now.programs in
            IfOk result (λ text. text.items ≡ option_map_or word at []) }
    {
        match at {
            Some(at) => instruction_word(alloc, self.sources, self.programs, at),
            None => Ok(Vec::new(alloc)),
        }
    }

    /// The statement of the last instruction of a run that changed a byte of a range; or that the abend did, where the
    /// run leaves other bytes than are there after it.
    fn run_word(&self, alloc: Global, left: &S, seen: &Seen) -> Result<Vec<u8>, AllocError>
        ensures { IfOk result (λ word. word.items ≡ run_word self.now (S.storage left.now) seen.now) }
    {
        let range = seen.kept().range;
        let before = bytes_word(alloc, left, range.at, range.length)?;
        let after = bytes_word(alloc, self.store, range.at, range.length)?;
        if are_same(&before, &after) {
            return self.written_by(alloc, seen.last());
        }
        b" ABEND".to_vec(alloc)
    }

    /// What was done, in the words of its line, with the statement that did it.
    fn by_word(&self, alloc: Global, statement: &[u8]) -> Result<Vec<u8>, AllocError>
        ensures { IfOk result (λ word. word.items ≡ cause_word self.now.by ++ statement.now) }
    {
        let mut word = cause_word(alloc, &self.cause)?;
        word.extend_from_slice(statement)?;
        Ok(word)
    }

    /// Adds the line of a range whose bytes are no longer as they were.
    #[tactic(auto, unfolding(crate::specs::Watching::change_line))]
    fn change_line(
        &self,
        report: &mut Report,
        kept: &Kept,
        statement: &[u8],
    ) -> Result<(), AllocError>
        ensures { OnOk result (report.new ≡ report.old ++ change_line self.now kept.now statement.now) }
    {
        let range = kept.range;
        let at = hexadecimal::<6>(range.at);
        let length = decimal(report.alloc(), range.length as usize)?;
        let from = kept.bytes.as_slice();
        let to = bytes_word(report.alloc(), self.store, range.at, range.length)?;
        let by = self.by_word(report.alloc(), statement)?;
        report.line(&[
            b"WATCH", &at, &length, b"FROM", from, b"TO", &to, b"BY", &by,
        ])
    }

    /// Adds a range, where its bytes aren't as they were kept.
    fn add_changed(
        &self,
        alloc: Global,
        changed: &mut Vec<Kept>,
        kept: &Kept,
    ) -> Result<(), AllocError>
        ensures { OnOk result (changed.new.items ≡ changed.old.items ++ if_changed self.now.storage kept.now) }
    {
        let range = kept.range;
        let now = bytes_word(alloc, self.store, range.at, range.length)?;
        if are_same(kept.bytes.as_slice(), &now) {
            return Ok(());
        }
        changed.push(copy_of(alloc, kept)?)?;
        Ok(())
    }

    /// The ranges whose bytes aren't as they were kept.
    fn changed(&self, alloc: Global, kept: &[Kept]) -> Result<Vec<Kept>, AllocError>
        ensures { IfOk result (λ changed. changed.items ≡ flat_map (if_changed self.now.storage) kept.now) }
    {
        let mut changed = Vec::new(alloc);
        for it in kept {
            self.add_changed(alloc, &mut changed, it)?;
        }
        Ok(changed)
    }

    /// The lines of ranges that one statement changed, or none.
    #[tactic(auto, unfolding(crate::specs::Parts::Seen::statement_lines))]
    fn statement_lines(
        &self,
        alloc: Global,
        changed: &[Kept],
        statement: &[u8],
    ) -> Result<Report, AllocError>
        ensures { IfOk result (λ report. report ≡ statement_lines self.now statement.now changed.now) }
    {
        let mut report = Report::new(alloc);
        for kept in changed {
            self.change_line(&mut report, kept, statement)?;
        }
        Ok(report)
    }

    /// The lines of ranges that a command changed which leads back to that address.
    fn command_lines(
        &self,
        alloc: Global,
        changed: &[Kept],
        back: u32,
    ) -> Result<Report, AllocError>
        requires { self.now.done ≡ work.Command back }
        ensures { IfOk result (IsOfChanged self.now changed.now) }
    {
        let statement = command_word(alloc, self.sources, self.programs, back)?;
        let report = self.statement_lines(alloc, changed, statement.as_slice())?;
        Ok(report)
    }

    /// Adds the line of a range that a run changed which leaves that store.
    fn seen_line(&self, report: &mut Report, left: &S, seen: &Seen) -> Result<(), AllocError>
        ensures { OnOk result (report.new ≡ report.old ++ seen_line self.now (S.storage left.now) seen.now) }
    {
        let statement = self.run_word(report.alloc(), left, seen)?;
        self.change_line(report, seen.kept(), &statement)
    }

    /// The lines of ranges that a run changed which leaves that store.
    fn seen_lines(&self, alloc: Global, left: &S, seen: &[Seen]) -> Result<Report, AllocError>
        ensures { IfOk result (λ report.
            report ≡ flat_map (seen_line self.now (S.storage left.now)) seen.now) }
    {
        let mut report = Report::new(alloc);
        for it in seen {
            self.seen_line(&mut report, left, it)?;
        }
        Ok(report)
    }

    /// The lines of ranges that the instructions of a turn changed, or its abend: they are performed once more, from
    /// the machine as it was before.
    #[tactic(auto, using(crate::proofs::LineLemmas::lines_of_run))]
    fn run_lines(
        &self,
        alloc: Global,
        machine: &KeptMachine,
        changed: &[Kept],
    ) -> Result<Report, AllocError>
        requires { self.now.done ≡ work.Instructions machine.now }
        ensures { IfOk result (IsOfChanged self.now changed.now) }
    {
        let mut apart = machine.over(self.store)?;
        let seen = last_writers(alloc, &mut apart, changed)?;
        let report = self.seen_lines(alloc, apart.store(), &seen)?;
        Ok(report)
    }

    /// The lines of ranges that were changed.
    #[tactic(auto, using(crate::proofs::LineLemmas::lines_of_nothing))]
    fn lines(&self, alloc: Global, changed: &[Kept]) -> Result<Report, AllocError>
        ensures { IfOk result (IsOfChanged self.now changed.now) }
    {
        match self.work {
            Work::Nothing => self.statement_lines(alloc, changed, b""),
            Work::Command(back) => self.command_lines(alloc, changed, *back),
            Work::Instructions(machine) => self.run_lines(alloc, machine, changed),
        }
    }
}

/// Adds the line of a range that is watched from now on.
fn begun_line<S: Store>(report: &mut Report, store: &S, range: Row) -> Result<(), AllocError>
    ensures { OnOk result (report.new ≡ report.old ++ begun_line (S.storage store.now) range) }
{
    let at = hexadecimal::<6>(range.at);
    let length = decimal(report.alloc(), range.length as usize)?;
    let bytes = bytes_word(report.alloc(), store, range.at, range.length)?;
    report.line(&[b"WATCH", &at, &length, b"IS", &bytes])
}

/// Adds the line of a range that isn't watched, since as many are as may be.
fn refused_line(report: &mut Report, range: Row) -> Result<(), AllocError>
    ensures { OnOk result (report.new ≡ report.old ++ refused_line range) }
{
    let at = hexadecimal::<6>(range.at);
    let length = decimal(report.alloc(), range.length as usize)?;
    report.line(&[b"WATCH", &at, &length, b"REFUSED", b"Full"])
}

impl Watches {
    /// No range is watched. It takes no memory.
    pub fn new(alloc: Global) -> Watches
        ensures { result ≡ [] }
    {
        Watches {
            ranges: Vec::new(alloc),
        }
    }

    /// Whether no range is watched. It takes no memory.
    pub fn is_empty(&self) -> bool
        ensures { IsTrue result ↔ (length self.now ≡ 0) }
    {
        self.ranges.is_empty()
    }

    /// Whether as many ranges are watched as may be: 16.
    fn is_full(&self) -> bool
        ensures { result ≡ is_full self.now }
    {
        self.ranges.len() >= MOST
    }

    /// Watches a range more, and gives the line that says so, with its bytes in the store; where sixteen are watched
    /// already, nothing changes, and the line says REFUSED Full.
    ///
    /// An error comes only where memory for the range or for its line was refused; then what is watched is as before.
    pub fn watch<S: Store>(
        &mut self,
        alloc: Global,
        store: &S,
        range: Row,
    ) -> Result<Report, AllocError>
        ensures ranges { OnOk result (self.new ≡ with_range self.old range) }
        ensures err { OnErr result (self.new ≡ self.old) }
        ensures report { IfOk result (λ report. report ≡ begun_watch self.old (S.storage store.now) range) }
    {
        let mut report = Report::new(alloc);
        if self.is_full() {
            refused_line(&mut report, range)?;
            return Ok(report);
        }
        begun_line(&mut report, store, range)?;
        self.ranges.push(range)?;
        Ok(report)
    }

    /// Watches no range any more. It takes no memory.
    pub fn stop(&mut self)
        ensures { self.new ≡ [] }
    {
        self.ranges.clear();
    }

    /// The ranges that are watched, each with its bytes as they are in a store.
    ///
    /// An error comes only where memory for them was refused.
    pub fn kept<S: Store>(&self, alloc: Global, store: &S) -> Result<Vec<Kept>, AllocError>
        ensures { IfOk result (λ kept. kept.items ≡ map (kept_in (S.storage store.now)) self.now) }
    {
        let mut kept = Vec::new(alloc);
        for range in &self.ranges {
            kept.push(kept_in(alloc, store, *range)?)?;
        }
        Ok(kept)
    }
}

/// A line for each range whose bytes aren't as they were kept, with what was done and the statement that changed one of
/// them last. Of a turn's instructions that is the last one that changed one: they are performed once more for all of
/// these ranges, from the machine as it was before, over a store like this one.
///
/// An error comes only where memory for the lines, or for that store, was refused.
#[tactic(auto, using(crate::proofs::LineLemmas::no_lines, crate::proofs::LineLemmas::changed_lines))]
pub fn change_lines<S: Store + Drop>(
    alloc: Global,
    done: &Done<'_, S>,
    kept: &[Kept],
) -> Result<Report, AllocError>
    ensures { IfOk result (λ report. AreOfRanges done.now kept.now report) }
{
    let changed = done.changed(alloc, kept)?;
    if changed.is_empty() {
        return Ok(Report::new(alloc));
    }
    let report = done.lines(alloc, &changed)?;
    Ok(report)
}
