//! The levels of a task.
ghost use Rattle.std.specs.Prelude.{◌≡◌, ◌++◌, ◌+◌, ◌∷◌, ◌≤◌, [], IfOk, OnOk, map, codes, length, reverse, slice_get};
ghost use Rattle.cx_program.specs.Levels.{all_levels};
ghost use Rattle.cx_look_fields.specs.Parts.Levels.{command_lines, handle_lines, handles_number, label_line, level_at};
ghost use Rattle.std.specs.Option.{option_map_or};
ghost use Rattle.cx_base.specs.Conditions.{entry_of};
ghost use Rattle.cx_base.specs.Digits.{digits};
ghost use Rattle.cx_base.specs.Eistg.{eistg_field};
ghost use Rattle.cx_base.specs.declared.eistg.EistgField.TheVariants.{Eicap};
ghost use Rattle.cx_storage.specs.Address.{address_after};
ghost use Rattle.cx_storage.specs.Word.{word_at};
ghost use Rattle.cx_look_fields.specs.Levels.{exit_line, exit_words, handle_line, handling_lines, last_command_line, level_line, level_text, level_words, levels_text, pushed_lines};
ghost use Rattle.cx_look_fields.specs.declared.levels.Handles.TheVariants as handles;

use cx_base::{Condition, EistgField, List, decimal, hexadecimal, shown_name};
use cx_ebcdic::Name8;
use cx_load::Loaded;
use cx_look_lines::Report;
use cx_look_symbols::{
    SourcePlaces, Sources, address_word, place_at_address, place_word, spot_before, statement_at,
};
use cx_program::{Entries, Exit, Handler, Handling, Level, LevelStack};
use cx_region_state::Shared;
use cx_storage::{Store, address_after, address_in, word_at};
use indexmap::IndexMap;
use std::alloc::{AllocError, Global};

/// The word at DFHEICAP.
fn cap_word<S: Store>(alloc: Global, store: &S, level: &Level) -> Result<Vec<u8>, AllocError>
    ensures { let at = word_at (S.storage store.now) (address_after level.now.stg (eistg_field Eicap).offset) in
        IfOk result (λ word. word.items ≡ option_map_or (digits 16 8) at (codes "--")) }
{
    match word_at(store, address_after(level.stg, EistgField::Eicap.offset())) {
        Some(word) => hexadecimal::<8>(word).to_vec(alloc),
        None => b"--".to_vec(alloc),
    }
}

/// Adds the line of a level.
#[tactic(auto, unfolding(crate::specs::Levels::level_line))]
fn level_line<S: Store + Drop>(
    report: &mut Report,
    shared: &Shared<S>,
    k: u32,
    level: &Level,
) -> Result<(), AllocError>
    ensures { OnOk result (report.new ≡ report.old ++ level_line shared.now k level.now) }
{
    let alloc = report.alloc();
    let number = decimal::<2>(k);
    let program = shown_name(alloc, level.program)?;
    let goes_on = place_at_address(&shared.programs, address_in(level.regs[14]));
    let place = address_word(alloc, &goes_on)?;
    let stg = hexadecimal::<6>(level.stg);
    let len = hexadecimal::<6>(level.stg_len);
    let cap = cap_word(alloc, &shared.store, level)?;
    let calen = hexadecimal::<4>(u32::from(level.calen));
    let pushed = decimal::<2>(level.handles.pushed() as u32);
    report.line(&[
        b"LEVEL",
        &number,
        b"PROGRAM",
        &program,
        b"R14",
        &place,
        b"DFHEISTG",
        &stg,
        b"LENGTH",
        &len,
        b"DFHEICAP",
        &cap,
        b"EIBCALEN",
        &calen,
        b"PUSHED",
        &pushed,
    ])
}

/// Adds the line of a command, by its statement.
fn command_line(report: &mut Report, k: u32, command: &[u8]) -> Result<(), AllocError>
    ensures { let words = codes "COMMAND" ∷ codes "LINE" ∷ command.now ∷ [] in
        OnOk result (report.new ≡ report.old ++ level_words (digits 10 2 k) words) }
{
    report.line(&[b"LEVEL", &decimal::<2>(k), b"COMMAND", b"LINE", command])
}

/// Adds it, where there is one.
fn if_stated(report: &mut Report, k: u32, command: &Option<List<u8>>) -> Result<(), AllocError>
    ensures { OnOk result (report.new ≡ report.old ++ command_lines k command.now) }
{
    match command {
        Some(command) => command_line(report, k, command.as_slice()),
        None => Ok(()),
    }
}

/// Adds the line of a level's last command, by the byte before the place where it goes on: the last one of the
/// command's EXEC.
#[tactic(auto, unfolding(crate::specs::Levels::last_command_line))]
fn last_command_line(
    report: &mut Report,
    sources: &Sources,
    programs: &IndexMap<Name8, Loaded>,
    k: u32,
    level: &Level,
) -> Result<(), AllocError>
    ensures { let line = last_command_line sources.now programs.now.entries k level.now in
        OnOk result (report.new ≡ report.old ++ line) }
{
    let before = spot_before(programs, address_in(level.regs[14]));
    let command = statement_at(report.alloc(), sources, &before)?;
    if_stated(report, k, &command)
}

/// Which handles of the level of a number: those in force, or what its PUSH HANDLE of a number keeps.
#[derive(Clone, Copy)]
pub(crate) enum Handles {
    InForce(u32),
    Pushed(u32, u32),
}

/// The number of the level that has them.
fn handles_number(alloc: Global, of: Handles) -> Result<Vec<u8>, AllocError>
    ensures { IfOk result (λ number. number.items ≡ handles_number of) }
{
    match of {
        Handles::InForce(k) => decimal::<2>(k).to_vec(alloc),
        Handles::Pushed(k, n) => {
            let mut number = decimal::<2>(k).to_vec(alloc)?;
            number.extend_from_slice(b" PUSHED ")?;
            number.extend_from_slice(&decimal::<2>(n))?;
            Ok(number)
        }
    }
}

/// Adds the line of a condition that is ignored.
fn ignore_line(report: &mut Report, of: Handles, condition: Condition) -> Result<(), AllocError>
    ensures { let words = codes "IGNORE" ∷ (entry_of condition).name ∷ [] in
        OnOk result (report.new ≡ report.old ++ level_words (handles_number of) words) }
{
    let number = handles_number(report.alloc(), of)?;
    let name = condition.name().as_bytes();
    report.line(&[b"LEVEL", &number, b"IGNORE", name])
}

/// The handles that are written, and the sources and programs in which their labels are places.
#[derive(Drop)]
struct LevelHandles<'a> {
    of: Handles,
    sources: &'a SourcePlaces,
    programs: &'a IndexMap<Name8, Loaded>,
}

impl LevelHandles<'_> {
    /// Adds the line of a condition with a label.
    fn label_line(
        &self,
        report: &mut Report,
        condition: Condition,
        label: u32,
    ) -> Result<(), AllocError>
        ensures { let more = label_line self.now.sources.now.entries self.now.programs.now.entries
            (handles_number self.now.of) condition label in OnOk result (report.new ≡ report.old ++ more) }
    {
        let number = handles_number(report.alloc(), self.of)?;
        let name = condition.name().as_bytes();
        let place = place_word(
            report.alloc(),
            self.sources,
            &place_at_address(self.programs, label),
        )?;
        report.line(&[b"LEVEL", &number, b"HANDLE", name, &place])
    }

    /// Adds the line of a condition, where it has an entry.
    fn handle_line(
        &self,
        report: &mut Report,
        condition: Condition,
        entry: Handler,
    ) -> Result<(), AllocError>
        ensures { let more = handle_line self.now.sources.now.entries self.now.programs.now.entries
            (handles_number self.now.of) condition entry in OnOk result (report.new ≡ report.old ++ more) }
    {
        match entry {
            Handler::NoEntry => Ok(()),
            Handler::Ignored => ignore_line(report, self.of, condition),
            Handler::Label(label) => self.label_line(report, condition, label),
        }
    }

    /// Adds the lines of those of some conditions that have an entry.
    fn handle_lines(
        &self,
        report: &mut Report,
        entries: &Entries,
        conditions: &[Condition],
    ) -> Result<(), AllocError>
        ensures { let more = handle_lines self.now.sources.now.entries self.now.programs.now.entries
            (handles_number self.now.of) entries.now conditions.now in OnOk result (report.new ≡ report.old ++ more) }
    {
        for condition in conditions {
            self.handle_line(report, *condition, entries.entry_for(*condition))?;
        }
        Ok(())
    }

    /// Adds the line of an exit, with the word that says whether it is on.
    fn exit_words(&self, report: &mut Report, label: u32, state: &[u8]) -> Result<(), AllocError>
        ensures { let more = exit_words self.now.sources.now.entries self.now.programs.now.entries
            (handles_number self.now.of) label state.now in OnOk result (report.new ≡ report.old ++ more) }
    {
        let number = handles_number(report.alloc(), self.of)?;
        let place = place_word(
            report.alloc(),
            self.sources,
            &place_at_address(self.programs, label),
        )?;
        report.line(&[b"LEVEL", &number, b"EXIT", &place, state])
    }

    /// Adds the line of an exit, where there is one.
    fn exit_line(&self, report: &mut Report, exit: Exit) -> Result<(), AllocError>
        ensures { let more = exit_line self.now.sources.now.entries self.now.programs.now.entries
            (handles_number self.now.of) exit in OnOk result (report.new ≡ report.old ++ more) }
    {
        match exit {
            Exit::NoExit => Ok(()),
            Exit::On(label) => self.exit_words(report, label, b"ON"),
            Exit::Off(label) => self.exit_words(report, label, b"OFF"),
        }
    }

    /// Adds the lines of what is asked for.
    #[tactic(auto, unfolding(crate::specs::Levels::handling_lines))]
    fn handling_lines(&self, report: &mut Report, handling: &Handling) -> Result<(), AllocError>
        ensures { let more = handling_lines self.now.sources.now.entries self.now.programs.now.entries
            (handles_number self.now.of) handling.now in OnOk result (report.new ≡ report.old ++ more) }
    {
        self.handle_lines(report, &handling.entries, Condition::handled())?;
        self.exit_line(report, handling.exit)
    }
}

/// Adds the lines of what PUSH HANDLEs keep, the first kept first.
#[tactic(auto, unfolding(crate::specs::Levels::pushed_lines))]
fn pushed_lines(
    report: &mut Report,
    sources: &SourcePlaces,
    programs: &IndexMap<Name8, Loaded>,
    k: u32,
    kept: &[Handling],
) -> Result<(), AllocError>
    requires { length kept.now ≤ 16 }
    ensures { let more = pushed_lines sources.now.entries programs.now.entries k 1 kept.now in
        OnOk result (report.new ≡ report.old ++ more) }
{
    for (index, handling) in kept.iter().enumerate() {
        let of = Handles::Pushed(k, index as u32 + 1);
        let pushed = LevelHandles {
            of,
            sources,
            programs,
        };
        pushed.handling_lines(report, handling)?;
    }
    Ok(())
}

/// Adds the lines of what a level asks for, and of what its PUSH HANDLEs keep.
fn asked_text(
    report: &mut Report,
    places: &SourcePlaces,
    programs: &IndexMap<Name8, Loaded>,
    k: u32,
    level: &Level,
) -> Result<(), AllocError>
    ensures { let handles = level.now.handles in
        let asked = handling_lines places.now.entries programs.now.entries (digits 10 2 k) handles.active in
        let pushed = pushed_lines places.now.entries programs.now.entries k 1 (reverse handles.kept) in
        OnOk result (report.new ≡ report.old ++ (asked ++ pushed)) }
{
    let active = level.handles.active();
    let in_force = LevelHandles {
        of: Handles::InForce(k),
        sources: places,
        programs,
    };
    in_force.handling_lines(report, active)?;
    pushed_lines(report, places, programs, k, level.handles.kept())
}

/// Adds a level's line, and that of its last command.
fn heading_text<S: Store + Drop>(
    report: &mut Report,
    sources: &Sources,
    shared: &Shared<S>,
    k: u32,
    level: &Level,
) -> Result<(), AllocError>
    ensures { let last = last_command_line sources.now shared.now.programs k level.now in
        OnOk result (report.new ≡ report.old ++ (level_line shared.now k level.now ++ last)) }
{
    level_line(report, shared, k, level)?;
    last_command_line(report, sources, &shared.programs, k, level)
}

/// Adds the lines of a level.
#[tactic(auto, unfolding(crate::specs::Levels::level_text))]
fn level_text<S: Store + Drop>(
    report: &mut Report,
    sources: &Sources,
    shared: &Shared<S>,
    k: u32,
    level: &Level,
) -> Result<(), AllocError>
    ensures { OnOk result (report.new ≡ report.old ++ level_text sources.now shared.now k level.now) }
{
    heading_text(report, sources, shared, k, level)?;
    asked_text(report, sources.places(), &shared.programs, k, level)
}

/// Adds the lines of the level at an index, counted from 0, where there is one.
fn level_at<S: Store + Drop>(
    report: &mut Report,
    sources: &Sources,
    shared: &Shared<S>,
    levels: &LevelStack,
    index: usize,
) -> Result<(), AllocError>
    requires { index ≤ 16 }
    ensures { let level = slice_get (all_levels levels.now) index in
        OnOk result (report.new ≡ report.old ++ level_at sources.now shared.now (index + 1) level) }
{
    let Some(level) = levels.get(index) else {
        return Ok(());
    };
    level_text(report, sources, shared, index as u32 + 1, level)
}

/// Adds the lines of all levels, the highest first.
pub(crate) fn levels_text<S: Store + Drop>(
    report: &mut Report,
    sources: &Sources,
    shared: &Shared<S>,
    levels: &LevelStack,
) -> Result<(), AllocError>
    ensures { let more = levels_text sources.now shared.now 1 (all_levels levels.now) in
        OnOk result (report.new ≡ report.old ++ more) }
{
    for index in 0..levels.len() {
        level_at(report, sources, shared, levels, index)?;
    }
    Ok(())
}
