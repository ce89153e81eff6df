//! The lines of a transcript.

ghost use Rattle.std.specs.Prelude.{◌≡◌, IfOk, [], ◌∷◌, codes};
ghost use Rattle.std.specs.Option.{option_copied, option_map};
ghost use Rattle.cx_load.specs.Fault.{fault_name};
ghost use Rattle.cx_base.specs.Texts.{shown_name, written_line};
ghost use Rattle.cx_script_actions.specs.Texts.{answer_text, defined_text, named_line, page_lines, plain_text, program_text, refused_text, reply_text, turn_reply_detail, turn_text};

use cx_base::{Page, hexadecimal, shown, shown_name, written_line};
use cx_ebcdic::{Name4, Name8};
use cx_edf::{Answer, EdfEvent};
use cx_load::{ImageFault, Loaded};
use cx_region::{DefineFault, Event, Reply, TurnReply};
use std::alloc::{AllocError, Global};

/// The line of a refused definition.
fn refused_text(
    alloc: Global,
    verb: &[u8],
    name: &[u8],
    fault: &[u8],
) -> Result<Vec<u8>, AllocError>
    ensures { let words = name.now ∷ codes "REFUSED" ∷ fault.now ∷ [] in
        IfOk result (λ text. text.items ≡ written_line verb.now words) }
{
    written_line(alloc, verb, &[name, b"REFUSED", fault])
}

/// The line PROGRAM of an image that was refused before its definition: the program's name, REFUSED, and the fault's
/// name.
///
/// An error comes only where memory for it was refused.
#[tactic(auto, unfolding(crate::specs::Texts::refused_text))]
pub fn refused_image(alloc: Global, name: Name8, fault: ImageFault) -> Result<Vec<u8>, AllocError>
    ensures { IfOk result (λ text. text.items ≡ refused_text (codes "PROGRAM") name (fault_name fault)) }
{
    let name = shown_name(alloc, name)?;
    refused_text(alloc, b"PROGRAM", &name, fault.name().as_bytes())
}

/// The line of a program's definition.
#[tactic(auto, unfolding(crate::specs::Texts::program_text, crate::specs::Texts::refused_text))]
fn program_text(
    alloc: Global,
    name: Name8,
    answer: Result<Loaded, DefineFault>,
) -> Result<Vec<u8>, AllocError>
    ensures { IfOk result (λ text. text.items ≡ program_text name answer) }
{
    let name = shown_name(alloc, name)?;
    match answer {
        Ok(loaded) => {
            let at = hexadecimal::<6>(loaded.at);
            let len = hexadecimal::<6>(loaded.len);
            written_line(alloc, b"PROGRAM", &[&name, b"AT", &at, b"LENGTH", &len])
        }
        Err(fault) => refused_text(alloc, b"PROGRAM", &name, fault.name().as_bytes()),
    }
}

/// The line of a transaction's or a terminal's definition.
#[tactic(auto, unfolding(crate::specs::Texts::defined_text, crate::specs::Texts::refused_text))]
fn defined_text(
    alloc: Global,
    verb: &[u8],
    name: Name4,
    answer: Result<(), DefineFault>,
) -> Result<Vec<u8>, AllocError>
    ensures { IfOk result (λ text. text.items ≡ defined_text verb.now name answer) }
{
    let name = shown_name(alloc, name)?;
    match answer {
        Ok(()) => written_line(alloc, verb, &[&name, b"DEFINED"]),
        Err(fault) => refused_text(alloc, verb, &name, fault.name().as_bytes()),
    }
}

/// The line of a clock that is set.
fn clock_text(alloc: Global) -> Result<Vec<u8>, AllocError>
    ensures { IfOk result (λ text. text.items ≡ written_line (codes "CLOCK") (codes "SET" ∷ [])) }
{
    written_line(alloc, b"CLOCK", &[b"SET"])
}

/// A line of a terminal's name and one word.
fn named_line(alloc: Global, verb: &[u8], name: Name4, word: &[u8]) -> Result<Vec<u8>, AllocError>
    ensures { IfOk result (λ text. text.items ≡ named_line verb.now name word.now) }
{
    let name = shown_name(alloc, name)?;
    written_line(alloc, verb, &[&name, word])
}

/// The condition's name or the code of a turn's reply, where it has one.
fn turn_reply_detail(alloc: Global, reply: &TurnReply) -> Result<Option<Vec<u8>>, AllocError>
    ensures { IfOk result (λ detail. option_map (λ text. text.items) detail ≡ turn_reply_detail reply.now) }
{
    Ok(match reply {
        TurnReply::Performed(condition) | TurnReply::TookLabel(condition) => {
            Some(condition.name().as_bytes().to_vec(alloc)?)
        }
        TurnReply::TookExit(code) | TurnReply::Abended(code) => {
            Some(shown(alloc, &code.bytes())?)
        }
        _ => None,
    })
}

/// The line of a turn whose reply has a condition or a code.
fn detailed_line(
    alloc: Global,
    name: &[u8],
    reply: &[u8],
    detail: &[u8],
) -> Result<Vec<u8>, AllocError>
    ensures { let words = name.now ∷ reply.now ∷ detail.now ∷ [] in
        IfOk result (λ text. text.items ≡ written_line (codes "TURN") words) }
{
    written_line(alloc, b"TURN", &[name, reply, detail])
}

/// The line of a turn.
#[tactic(auto, unfolding(crate::specs::Texts::turn_text))]
fn turn_text(alloc: Global, name: Name4, reply: TurnReply) -> Result<Vec<u8>, AllocError>
    ensures { IfOk result (λ text. text.items ≡ turn_text name reply) }
{
    let answer = reply.name().as_bytes();
    match turn_reply_detail(alloc, &reply)? {
        Some(detail) => {
            let name = shown_name(alloc, name)?;
            detailed_line(alloc, &name, answer, &detail)
        }
        None => named_line(alloc, b"TURN", name, answer),
    }
}

/// What is written for the reply to an event.
#[tactic(auto, unfolding(crate::specs::Texts::reply_text))]
fn reply_text(alloc: Global, event: &Event, reply: Reply) -> Result<Vec<u8>, AllocError>
    ensures { IfOk result (λ text. text.items ≡ reply_text event.now reply) }
{
    match (event, reply) {
        (Event::Program(name, _), Reply::Program(answer)) => program_text(alloc, *name, answer),
        (Event::Transaction(name, _), Reply::Transaction(answer)) => {
            defined_text(alloc, b"TRANSACTION", *name, answer)
        }
        (Event::Terminal(name), Reply::Terminal(answer)) => {
            defined_text(alloc, b"TERMINAL", *name, answer)
        }
        (Event::Clock(_, _), Reply::Clock) => clock_text(alloc),
        (Event::Key(name, _, _), Reply::Key(answer)) => {
            named_line(alloc, b"KEY", *name, answer.name().as_bytes())
        }
        (Event::Turn(name), Reply::Turn(answer)) => turn_text(alloc, *name, answer),
        (Event::Alter(name, _), Reply::Alter(answer)) => {
            named_line(alloc, b"ALTER", *name, answer.name().as_bytes())
        }
        _ => Ok(Vec::new(alloc)),
    }
}

/// What is written for an event of the region under EDF.
#[tactic(auto, unfolding(crate::specs::Texts::plain_text))]
fn plain_text(alloc: Global, event: &Event, answer: Answer) -> Result<Vec<u8>, AllocError>
    ensures { IfOk result (λ text. text.items ≡ plain_text event.now answer) }
{
    match (event, answer) {
        (event, Answer::Region(reply)) => reply_text(alloc, event, reply),
        (Event::Key(name, _, _), Answer::ToEdf) => named_line(alloc, b"KEY", *name, b"ToEdf"),
        (Event::Turn(name), Answer::Held) => named_line(alloc, b"TURN", *name, b"Held"),
        (Event::Alter(name, _), Answer::NotStopped) => {
            named_line(alloc, b"ALTER", *name, b"NotStopped")
        }
        _ => Ok(Vec::new(alloc)),
    }
}

/// What is written for the answer to an event under EDF.
///
/// An error comes only where memory for it was refused.
#[tactic(auto, unfolding(crate::specs::Texts::answer_text))]
pub fn answer_text(alloc: Global, event: &EdfEvent, answer: Answer) -> Result<Vec<u8>, AllocError>
    ensures { IfOk result (λ text. text.items ≡ answer_text event.now answer) }
{
    match (event, answer) {
        (EdfEvent::Plain(event), answer) => plain_text(alloc, event, answer),
        (EdfEvent::On(name), Answer::Edf(reply)) => {
            named_line(alloc, b"EDF", *name, reply.name().as_bytes())
        }
        (EdfEvent::Off(name), Answer::Edf(reply)) => {
            named_line(alloc, b"EDF", *name, reply.name().as_bytes())
        }
        _ => Ok(Vec::new(alloc)),
    }
}

/// A line of the verb and a terminal's name, and the lines of a page that are not blank, each with its number; or one
/// line with NONE where there is no page.
///
/// An error comes only where memory for it was refused.
#[tactic(auto, unfolding(crate::specs::Texts::page_lines))]
pub fn page_lines(
    alloc: Global,
    verb: &[u8],
    name: Name4,
    page: Option<&Page>,
) -> Result<Vec<u8>, AllocError>
    ensures { IfOk result (λ text. text.items ≡ page_lines verb.now name (option_copied page.entry)) }
{
    let Some(page) = page else {
        return named_line(alloc, verb, name, b"NONE");
    };
    let name = shown_name(alloc, name)?;
    let mut text = written_line(alloc, verb, &[&name])?;
    page.push_text(&mut text)?;
    Ok(text)
}
