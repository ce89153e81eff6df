//! What ORDERS tells of a turn.
ghost use Rattle.std.specs.Prelude.{◌≡◌, ◌∷◌, ◌++◌, [], IfOk, OnOk};
ghost use Rattle.std.specs.Fmt.{decimal};
ghost use Rattle.std.specs.Option.{option_map_or};
ghost use Rattle.cx_base.specs.Texts.{shown_name};
ghost use Rattle.cx_look_lines.specs.Words.{with_blanks};
ghost use Rattle.cx_look_script.specs.Telling.{due_line, end_words, is_told, task_told, turn_told, work_word};

use cx_base::{List, shown, shown_name};
use cx_ebcdic::{Name4, Name8};
use cx_load::Loaded;
use cx_look_fields::task_of;
use cx_look_lines::{decimal, push_words};
use cx_look_symbols::{Sources, line_of, spot_before};
use cx_region::{Region, Task, TurnReply, read_call};
use cx_storage::{Store, address_in};
use indexmap::IndexMap;
use std::alloc::{AllocError, Global};

/// What the turn of a task performs.
fn work_word<S: Store>(store: &S, task: &Task) -> &'static [u8]
    ensures { result.now ≡ work_word (S.storage store.now) task.now }
{
    if !task.due {
        return b"PROGRAM";
    }
    match read_call(store, address_in(task.cpu.regs[1])) {
        Ok(call) => call.command().name().as_bytes(),
        Err(_fault) => b"?",
    }
}

/// The line of a due command's EXEC.
fn due_line(sources: &Sources, programs: &IndexMap<Name8, Loaded>, task: &Task) -> Option<usize>
    ensures { result ≡ due_line sources.now programs.now.entries task.now }
{
    if !task.due {
        return None;
    }
    let back = address_in(task.cpu.regs[14]);
    line_of(sources.places(), &spot_before(programs, back))
}

/// Adds how a turn ends.
fn push_end(alloc: Global, text: &mut Vec<u8>, reply: &TurnReply) -> Result<(), AllocError>
    ensures { OnOk result (text.new.items ≡ text.old.items ++ with_blanks (end_words reply.now)) }
{
    match reply {
        TurnReply::Performed(condition) => push_words(text, &[condition.name().as_bytes()]),
        TurnReply::TookLabel(condition) => {
            push_words(
                text,
                &[reply.name().as_bytes(), condition.name().as_bytes()],
            )
        }
        TurnReply::TookExit(code) => {
            let code = shown(alloc, &code.bytes())?;
            push_words(text, &[reply.name().as_bytes(), code.as_slice()])
        }
        TurnReply::Abended(code) => {
            let code = shown_name(alloc, *code)?;
            push_words(text, &[b"ABENDS", code.as_slice()])
        }
        _ => push_words(text, &[reply.name().as_bytes()]),
    }
}

/// Adds a line's number, where there is one.
fn push_number(alloc: Global, text: &mut Vec<u8>, line: Option<usize>) -> Result<(), AllocError>
    ensures { OnOk result (text.new.items
        ≡ text.old.items ++ with_blanks (option_map_or (λ n. decimal n ∷ []) line [])) }
{
    let Some(line) = line else {
        return Ok(());
    };
    let number = decimal(alloc, line)?;
    push_words(text, &[number.as_slice()])
}

/// What is told of the turn of a task.
fn task_told<S: Store + Drop>(
    alloc: Global,
    sources: &Sources,
    region: &Region<S>,
    reply: &TurnReply,
    task: &Task,
) -> Result<List<u8>, AllocError>
    ensures { IfOk result (λ text. text ≡ task_told sources.now region.now reply.now task.now) }
{
    let shared = region.shared();
    let mut text = work_word(&shared.store, task).to_vec(alloc)?;
    push_end(alloc, &mut text, reply)?;
    push_number(alloc, &mut text, due_line(sources, &shared.programs, task))?;
    Ok(List::from_vec(text))
}

/// Whether something is told of a turn, by its reply.
fn is_told(reply: &TurnReply) -> bool
    ensures { result ≡ is_told reply.now }
{
    !matches!(
        reply,
        TurnReply::AtCommand | TurnReply::Idle | TurnReply::NoSuchTerminal | TurnReply::Waiting
    )
}

/// What is told of a turn of a terminal, by the region before it and the reply: the command that it performs, or
/// PROGRAM where it runs instructions alone; how it ends; and the line of the command's EXEC, where a source defined
/// its program. `None` of a turn that only comes to a command, or does nothing.
///
/// An error comes only where memory was refused.
#[tactic(auto, unfolding(crate::specs::Telling::turn_told))]
pub(crate) fn turn_told<S: Store + Drop>(
    alloc: Global,
    sources: &Sources,
    region: &Region<S>,
    name: Name4,
    reply: TurnReply,
) -> Result<Option<List<u8>>, AllocError>
    ensures { IfOk result (λ text. text ≡ turn_told sources.now region.now name reply) }
{
    if !is_told(&reply) {
        return Ok(None);
    }
    let Some(task) = task_of(region, name) else {
        return Ok(None);
    };
    let text = task_told(alloc, sources, region, &reply, task)?;
    Ok(Some(text))
}
