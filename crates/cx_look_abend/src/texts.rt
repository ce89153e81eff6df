//! The lines of a last abend.
ghost use Rattle.std.specs.Prelude.{◌≡◌, ◌++◌, ◌∷◌, [], IfOk, OnOk, codes, if◌then◌else◌, is_some, take, slice_index};
ghost use Rattle.std.specs.Option.{option_copied, option_map_or};
ghost use Rattle.std.specs.List.{flat_map, list_all};
ghost use Rattle.cx_base.specs.Digits.{digits};
ghost use Rattle.cx_look_lines.specs.Words.{look_line};
ghost use Rattle.cx_look_symbols.specs.Places.{address_word, place_at_address, place_word, spot_before};
ghost use Rattle.cx_look_symbols.specs.Sources.{led_by, statement_at};
ghost use Rattle.cx_region_task.specs.declared.cause.Cause.TheVariants as causes;
ghost use Rattle.cx_storage.specs.Address.{address_in};
ghost use Rattle.cx_look_abend.specs.Abends.{is_of_instruction};
ghost use Rattle.cx_look_abend.specs.Dumps.{dump_lines, field_lines};
ghost use Rattle.cx_look_abend.specs.Parts.Texts.{if_abend_dumped, last_abend_of, no_abend_line};
ghost use Rattle.cx_look_abend.specs.Texts.{abend_command_lines, abend_fields_text, abend_storage_text, abend_text, argument_lines, byte_digits, caller_line, cause_word, explanation_lines, head_line, instruction_word, last_text, next_line, task_word};

use crate::abends::{Caller, Explanation, KeptTask, LastAbend, LastAbends};
use crate::dumps::{if_dumped, if_fields};
use cx_base::{decimal, hexadecimal, shown, shown_name};
use cx_code::instruction_length;
use cx_ebcdic::{Name4, Name8};
use cx_exec::Interruption;
use cx_load::Loaded;
use cx_look_lines::{Report, first_bytes, joined, register_lines};
use cx_look_symbols::{
    Place, Sources, address_word, place_at_address, place_word, push_led_by, spot_before,
    statement_at,
};
use cx_look_tasks::command_word;
use cx_region::{AbendRecord, Cause};
use cx_storage::address_in;
use indexmap::IndexMap;
use std::alloc::{AllocError, Global};

/// An interruption's code and its name.
fn interruption_word(it: Interruption) -> &'static [u8]
    ensures { result.now ≡ cause_word (causes.Interrupted it) }
{
    match it {
        Interruption::Operation => b"INTERRUPTION 1 OPERATION",
        Interruption::Execute => b"INTERRUPTION 3 EXECUTE",
        Interruption::Addressing => b"INTERRUPTION 5 ADDRESSING",
        Interruption::Specification => b"INTERRUPTION 6 SPECIFICATION",
        Interruption::Data => b"INTERRUPTION 7 DATA",
        Interruption::FixedPointDivide => b"INTERRUPTION 9 FIXED-POINT DIVIDE",
    }
}

/// A cause.
fn cause_word(alloc: Global, cause: Cause) -> Result<Vec<u8>, AllocError>
    ensures { IfOk result (λ text. text.items ≡ cause_word cause) }
{
    match cause {
        Cause::Interrupted(it) => interruption_word(it).to_vec(alloc),
        Cause::Limit => b"LIMIT".to_vec(alloc),
        Cause::Refused(_abend) => b"REFUSED".to_vec(alloc),
        Cause::Met(condition) => { joined(alloc, b"CONDITION ", condition.name().as_bytes()) }
        Cause::Asked => b"ASKED BY PROGRAM".to_vec(alloc),
    }
}

/// Why an abend came.
fn why_word(alloc: Global, explanation: &Option<Explanation>) -> Result<Vec<u8>, AllocError>
    ensures { let why = option_map_or (λ it. cause_word it.abend_record.cause) explanation.now in
        IfOk result (λ text. text.items ≡ why (codes "ASKED BY OPERATOR")) }
{
    match explanation {
        Some(explanation) => cause_word(alloc, explanation.abend_record.cause),
        None => b"ASKED BY OPERATOR".to_vec(alloc),
    }
}

/// Whether all of these bytes are there.
fn are_there(bytes: &[Option<u8>]) -> bool
    ensures { result ≡ list_all is_some bytes.now }
{
    bytes.iter().all(|byte| byte.is_some())
}

/// The digits of bytes.
fn push_bytes(text: &mut Vec<u8>, bytes: &[Option<u8>]) -> Result<(), AllocError>
    ensures { OnOk result (text.new.items ≡ text.old.items ++ flat_map byte_digits bytes.now) }
{
    for byte in bytes {
        text.extend_from_slice(&hexadecimal::<2>(u32::from(byte.unwrap_or(0))))?;
    }
    Ok(())
}

/// Bytes, where all of them are there.
fn present_bytes_word(alloc: Global, bytes: &[Option<u8>]) -> Result<Vec<u8>, AllocError>
    ensures { let there = list_all is_some bytes.now in
        IfOk result (λ text. text.items ≡ (if there then flat_map byte_digits bytes.now else codes "--")) }
{
    if !are_there(bytes) {
        return b"--".to_vec(alloc);
    }
    let mut text = Vec::new(alloc);
    push_bytes(&mut text, bytes)?;
    Ok(text)
}

/// The bytes of an instruction.
#[tactic(auto, unfolding(crate::specs::Texts::instruction_word))]
fn instruction_word(alloc: Global, bytes: &[Option<u8>; 6]) -> Result<Vec<u8>, AllocError>
    ensures { IfOk result (λ text. text.items ≡ instruction_word bytes.now) }
{
    match bytes[0] {
        Some(code) => present_bytes_word(alloc, first_bytes(bytes, instruction_length(code))),
        None => b"--".to_vec(alloc),
    }
}

/// The bytes of the instruction at the next address.
fn next_instruction(alloc: Global, abend_record: &AbendRecord) -> Result<Vec<u8>, AllocError>
    ensures { IfOk result (λ text. text.items ≡ instruction_word abend_record.now.bytes) }
{
    instruction_word(alloc, &abend_record.bytes)
}

/// Adds the line of the next address, with the instruction there.
fn next_line(report: &mut Report, sources: &Sources, it: &Explanation) -> Result<(), AllocError>
    ensures { OnOk result (report.new ≡ report.old ++ next_line sources.now it.now) }
{
    let place = place_word(report.alloc(), sources.places(), &it.place)?;
    let instruction = next_instruction(report.alloc(), &it.abend_record)?;
    report.line(&[b"NEXT", &place, b"INSTRUCTION", &instruction])
}

/// The address of a command's argument list, and the line of its EXEC with its text.
fn argument_list_word(
    alloc: Global,
    sources: &Sources,
    it: &Explanation,
) -> Result<Vec<u8>, AllocError>
    ensures { let list = digits 16 6 (address_in (slice_index it.now.abend_record.regs 1)) in
        let line = led_by (codes " LINE ") (statement_at sources.now it.now.before) in
        IfOk result (λ text. text.items ≡ list ++ line) }
{
    let mut text = hexadecimal::<6>(address_in(it.abend_record.regs[1])).to_vec(alloc)?;
    push_led_by(
        &mut text,
        b" LINE ",
        &statement_at(alloc, sources, &it.before)?,
    )?;
    Ok(text)
}

/// Adds the arguments of a command that was refused.
fn argument_lines(report: &mut Report, it: &Explanation) -> Result<(), AllocError>
    ensures { let more = argument_lines it.now.abend_record.cause it.now.arguments in
        OnOk result (report.new ≡ report.old ++ more) }
{
    match it.abend_record.cause {
        Cause::Refused(_abend) => report.append(&it.arguments),
        _ => Ok(()),
    }
}

/// Adds the lines of a command.
fn abend_command_lines(
    report: &mut Report,
    sources: &Sources,
    it: &Explanation,
) -> Result<(), AllocError>
    ensures { OnOk result (report.new ≡ report.old ++ abend_command_lines sources.now it.now) }
{
    let command = command_word(it.abend_record.command);
    let list = argument_list_word(report.alloc(), sources, it)?;
    report.line(&[b"COMMAND", command, b"LIST", &list])?;
    argument_lines(report, it)?;
    let place = address_word(report.alloc(), &it.place)?;
    report.line(&[b"R14", &place])
}

/// Adds the lines that say where the program was.
fn where_lines(report: &mut Report, sources: &Sources, it: &Explanation) -> Result<(), AllocError>
    ensures { let more = if is_of_instruction it.now.abend_record.cause then next_line sources.now it.now
        else abend_command_lines sources.now it.now in
        OnOk result (report.new ≡ report.old ++ more) }
{
    match it.abend_record.cause {
        Cause::Interrupted(_) | Cause::Limit => next_line(report, sources, it),
        _ => abend_command_lines(report, sources, it),
    }
}

/// Adds the line of the condition code.
fn code_line(report: &mut Report, code: u8) -> Result<(), AllocError>
    ensures { OnOk result (report.new ≡ report.old ++ look_line (codes "CC" ∷ digits 10 1 code ∷ [])) }
{
    report.line(&[b"CC", &decimal::<1>(u32::from(code))])
}

/// Adds the lines of what a turn led to.
#[tactic(auto, unfolding(crate::specs::Texts::explanation_lines))]
fn explanation_lines(
    report: &mut Report,
    sources: &Sources,
    explanation: &Explanation,
) -> Result<(), AllocError>
    ensures { OnOk result (report.new ≡ report.old ++ explanation_lines sources.now explanation.now) }
{
    where_lines(report, sources, explanation)?;
    register_lines(report, &explanation.abend_record.regs)?;
    code_line(report, explanation.abend_record.cc)
}

/// Adds the line of an exit, where there is one.
fn abend_exit_line(
    report: &mut Report,
    sources: &Sources,
    exit: &Option<Place>,
) -> Result<(), AllocError>
    ensures { let line = option_map_or
        (λ place. look_line (codes "EXIT" ∷ place_word sources.now.places place ∷ [])) exit.now [] in
        OnOk result (report.new ≡ report.old ++ line) }
{
    let Some(place) = exit else {
        return Ok(());
    };
    let place = place_word(report.alloc(), sources.places(), place)?;
    report.line(&[b"EXIT", &place])
}

/// Where a level that had called another goes on, with the statement of its command: that of the byte before it, the
/// last of the command's EXEC.
fn goes_on_word(
    alloc: Global,
    sources: &Sources,
    programs: &IndexMap<Name8, Loaded>,
    next: u32,
) -> Result<Vec<u8>, AllocError>
    ensures { let command = statement_at sources.now (spot_before programs.now.entries next) in
        let place = address_word (place_at_address programs.now.entries next) in
        IfOk result (λ word. word.items ≡ place ++ led_by (codes " COMMAND LINE ") command) }
{
    let mut word = address_word(alloc, &place_at_address(programs, next))?;
    let command = statement_at(alloc, sources, &spot_before(programs, next))?;
    push_led_by(&mut word, b" COMMAND LINE ", &command)?;
    Ok(word)
}

/// Adds the line of a level that had called another.
fn caller_line(
    report: &mut Report,
    sources: &Sources,
    programs: &IndexMap<Name8, Loaded>,
    caller: &Caller,
) -> Result<(), AllocError>
    ensures { let line = caller_line sources.now programs.now.entries caller.now in
        OnOk result (report.new ≡ report.old ++ line) }
{
    let program = shown_name(report.alloc(), caller.program)?;
    let place = goes_on_word(report.alloc(), sources, programs, caller.next)?;
    report.line(&[b"CALLER", &program, b"R14", &place])
}

/// Adds the lines of some of them.
fn lines_of_callers(
    report: &mut Report,
    sources: &Sources,
    programs: &IndexMap<Name8, Loaded>,
    callers: &[Caller],
) -> Result<(), AllocError>
    ensures { let more = flat_map (caller_line sources.now programs.now.entries) callers.now in
        OnOk result (report.new ≡ report.old ++ more) }
{
    for caller in callers {
        caller_line(report, sources, programs, caller)?;
    }
    Ok(())
}

/// Adds the lines of the levels that had called the one that abended.
fn caller_lines(
    report: &mut Report,
    sources: &Sources,
    programs: &IndexMap<Name8, Loaded>,
    task: &Option<KeptTask>,
) -> Result<(), AllocError>
    ensures { let line = caller_line sources.now programs.now.entries in
        let more = option_map_or (λ it. flat_map line it.callers) task.now [] in
        OnOk result (report.new ≡ report.old ++ more) }
{
    match task {
        Some(task) => lines_of_callers(report, sources, programs, task.callers.as_slice()),
        None => Ok(()),
    }
}

/// The task that abended.
fn task_word(alloc: Global, task: &Option<KeptTask>) -> Result<Vec<u8>, AllocError>
    ensures { IfOk result (λ text. text.items ≡ task_word task.now) }
{
    let Some(task) = task else {
        return b"TASK --".to_vec(alloc);
    };
    let mut text = b"TRAN ".to_vec(alloc)?;
    text.extend_from_slice(&shown_name(alloc, task.tran)?)?;
    text.extend_from_slice(b" TASK ")?;
    text.extend_from_slice(&decimal::<7>(task.number))?;
    Ok(text)
}

/// Adds the first line.
fn head_line(report: &mut Report, name: Name4, last: &LastAbend) -> Result<(), AllocError>
    ensures { OnOk result (report.new ≡ report.old ++ head_line name last.now) }
{
    let name = shown_name(report.alloc(), name)?;
    let code = shown(report.alloc(), &last.code.bytes())?;
    let why = why_word(report.alloc(), &last.explanation)?;
    let task = task_word(report.alloc(), &last.task)?;
    report.line(&[b"ABEND", &name, &code, &why, &task])
}

/// Adds the lines of what a turn led to, where it was a turn.
fn if_explained(
    report: &mut Report,
    sources: &Sources,
    explanation: &Option<Explanation>,
) -> Result<(), AllocError>
    ensures { let more = option_map_or (explanation_lines sources.now) explanation.now [] in
        OnOk result (report.new ≡ report.old ++ more) }
{
    match explanation {
        Some(explanation) => explanation_lines(report, sources, explanation),
        None => Ok(()),
    }
}

/// Adds the lines of an abend.
#[tactic(auto, unfolding(crate::specs::Texts::last_text))]
fn last_text(
    report: &mut Report,
    sources: &Sources,
    programs: &IndexMap<Name8, Loaded>,
    name: Name4,
    last: &LastAbend,
) -> Result<(), AllocError>
    ensures { let more = last_text sources.now programs.now.entries name last.now in
        OnOk result (report.new ≡ report.old ++ more) }
{
    head_line(report, name, last)?;
    abend_exit_line(report, sources, &last.exit)?;
    if_explained(report, sources, &last.explanation)?;
    caller_lines(report, sources, programs, &last.task)
}

/// Adds the line of a terminal without an abend.
fn no_abend_line(report: &mut Report, name: Name4) -> Result<(), AllocError>
    ensures { OnOk result (report.new ≡ report.old ++ no_abend_line name) }
{
    let name = shown_name(report.alloc(), name)?;
    report.line(&[b"ABEND", &name, b"NONE"])
}

/// A terminal's last abend.
fn last_abend_of(abends: &LastAbends, name: Name4) -> Option<&LastAbend>
    ensures { option_copied result ≡ last_abend_of abends.now.entries name }
{
    let kept = abends.get(&name)?;
    kept.last()
}

/// The DFHEISTG of an abend, where it was kept.
fn dumped(report: &mut Report, last: &LastAbend) -> Result<(), AllocError>
    ensures { OnOk result (report.new ≡ report.old ++ if_abend_dumped dump_lines last.now) }
{
    match &last.explanation {
        Some(explanation) => if_dumped(report, &explanation.dump),
        None => if_dumped(report, &None),
    }
}

/// Looks at the DFHEISTG of the level of a terminal's last abend: as the command found it that abended, or as the
/// instructions of the turn left it; NONE where the terminal has had no abend, or there is no such terminal.
///
/// An error comes only where memory for the report was refused.
#[tactic(auto, unfolding(crate::specs::Texts::abend_storage_text))]
pub fn abend_storage_text(
    alloc: Global,
    abends: &LastAbends,
    name: Name4,
) -> Result<Report, AllocError>
    ensures { IfOk result (λ report. report ≡ abend_storage_text abends.now.entries name) }
{
    let mut report = Report::new(alloc);
    match last_abend_of(abends, name) {
        Some(last) => {
            head_line(&mut report, name, last)?;
            dumped(&mut report, last)?;
        }
        None => no_abend_line(&mut report, name)?,
    }
    Ok(report)
}

/// The lines of the fields of the DFHEISTG of an abend, where it was kept.
fn fields_dumped(
    alloc: Global,
    sources: &Sources,
    name: Name4,
    last: &LastAbend,
) -> Result<Report, AllocError>
    ensures { IfOk result (λ report. report ≡ if_abend_dumped (field_lines sources.now name) last.now) }
{
    match &last.explanation {
        Some(explanation) => if_fields(alloc, sources, name, &explanation.dump),
        None => if_fields(alloc, sources, name, &None),
    }
}

/// Looks at the fields of the DFHEISTG of the level of a terminal's last abend, by their bytes as they were then; NONE
/// where the terminal has had no abend, or there is no such terminal.
///
/// An error comes only where memory for the report, or for what is made of the source, was refused.
#[tactic(auto, unfolding(crate::specs::Texts::abend_fields_text))]
pub fn abend_fields_text(
    alloc: Global,
    sources: &Sources,
    abends: &LastAbends,
    name: Name4,
) -> Result<Report, AllocError>
    ensures { IfOk result (λ report. report ≡ abend_fields_text sources.now abends.now.entries name) }
{
    let mut report = Report::new(alloc);
    match last_abend_of(abends, name) {
        Some(last) => {
            head_line(&mut report, name, last)?;
            let fields = fields_dumped(alloc, sources, name, last)?;
            report.append(&fields)?;
        }
        None => no_abend_line(&mut report, name)?,
    }
    Ok(report)
}

/// Looks at a terminal's last abend (ABEND); NONE where it has had none, or there is no such terminal. A place in a
/// program that a source defined is shown with the line of the statement whose bytes hold it, and a command with that
/// line's text.
///
/// An error comes only where memory for the report was refused.
#[tactic(auto, unfolding(crate::specs::Texts::abend_text))]
pub fn abend_text(
    alloc: Global,
    sources: &Sources,
    programs: &IndexMap<Name8, Loaded>,
    abends: &LastAbends,
    name: Name4,
) -> Result<Report, AllocError>
    ensures { let text = abend_text sources.now programs.now.entries abends.now.entries name in
        IfOk result (λ report. report ≡ text) }
{
    let mut report = Report::new(alloc);
    match last_abend_of(abends, name) {
        Some(last) => last_text(&mut report, sources, programs, name, last)?,
        None => no_abend_line(&mut report, name)?,
    }
    Ok(report)
}
