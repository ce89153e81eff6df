//! What a line of a script asks.

ghost use Rattle.std.specs.Prelude.{◌≡◌, ◌≤◌, IfOk, IfSome, OnErr, codes, is_some, length, true};
ghost use Rattle.std.specs.List.{find};
ghost use Rattle.std.specs.Option.{option_copied};
ghost use Rattle.cx_ebcdic.specs.Aids.{key_of};
ghost use Rattle.std.specs.Str.{bytes_eq};
ghost use Rattle.cx_script_actions.specs.Allowed.{IsAllowedAction, IsAllowedLine};
ghost use Rattle.cx_script_actions.specs.Actions.{aid_of, line_asked_for, event_line, is_blank_or_comment, key_with_text, line_of, switch_of, wanted_of};

use crate::alterations::change_of;
use crate::words::{codes_of_key, name4, name8, number, split_word};
use cx_code::{Bytes, Image};
use cx_ebcdic::{Aid, Name4, Name8};
use cx_edf::EdfEvent;
use cx_region::Event;
use std::alloc::{AllocError, Global};

/// What is to be written of a source.
#[derive(Clone, Copy)]
pub struct Wanted {
    /// The listing.
    pub listing: bool,
    /// The disassembly of the text, after the listing.
    pub disassembly: bool,
}

/// What is done for a line, or for a block of lines.
#[derive(Drop)]
pub enum Action {
    /// Checks an image, and defines a program from it where it has no fault.
    Image(Name8, Image),
    /// Writes these bytes, the listing and the disassembly that a source asks for, and then does as `Image` with its
    /// image.
    Source(Name8, Bytes, Image),
    /// An event of the region, or of EDF.
    Event(EdfEvent),
    /// Shows the screen of a terminal.
    Screen(Name4),
    /// Shows the page that EDF shows at a terminal.
    Display(Name4),
    /// Shows the main page of the display that many before a terminal's newest, which is 0.
    Previous(Name4, usize),
}

/// What begins a block of lines that are handed over in a script of `cicsedf`: nothing does.
#[derive(Clone, Copy)]
pub enum NoHeading {}

/// What a line asks where it is not in a block; `A` is an action of the script's language, and `H` what begins a block of
/// lines that are handed over.
#[derive(Drop)]
pub enum Line<A, H> {
    /// Nothing: it is empty, or a comment.
    Blank,
    /// It begins the block of an image: its program's name, and the length of its working storage in bytes.
    Image(Name8, u32),
    /// It begins the block of a source: its program's name, and what is to be written of it.
    Source(Name8, Wanted),
    /// It begins a block of lines that are handed over.
    Lines(H),
    /// An action.
    Action(A),
}

/// The first of some keys that has a name.
fn aid_in(aids: &[Aid], name: &[u8]) -> Option<Aid>
    ensures { result ≡ find (λ aid. bytes_eq (key_of aid).name name.now) aids.now }
{
    aids.iter()
        .copied()
        .find(|aid| aid.name().as_bytes() == name)
}

/// The key of a name.
#[tactic(auto, unfolding(crate::specs::Actions::aid_of))]
fn aid_of(name: &[u8]) -> Option<Aid>
    ensures { result ≡ aid_of name.now }
{
    aid_in(&Aid::ALL, name)
}

/// The line that asks an event of the region.
fn event_line(event: Event) -> Line<Action, NoHeading>
    ensures { result ≡ event_line event }
{
    Line::Action(Action::Event(EdfEvent::Plain(event)))
}

/// The line that begins an image's block, by what follows its first word.
#[tactic(auto, unfolding(crate::specs::Actions::line_asked_for))]
fn image_line(text: &[u8]) -> Option<Line<Action, NoHeading>>
    ensures { result ≡ line_asked_for (codes "IMAGE") text.now }
{
    let (word, rest) = split_word(text);
    let name = name8(word)?;
    let length = number(rest?, 1, 9)?;
    Some(Line::Image(name, length))
}

/// What is to be written of a source, by the words after its name.
fn wanted_of(rest: Option<&[u8]>) -> Option<Wanted>
    ensures { result ≡ wanted_of (option_copied rest.entry) }
{
    let Some(text) = rest else {
        return Some(Wanted {
            listing: false,
            disassembly: false,
        });
    };
    if text == b"LIST".as_slice() {
        Some(Wanted {
            listing: true,
            disassembly: false,
        })
    } else if text == b"DISASM".as_slice() {
        Some(Wanted {
            listing: false,
            disassembly: true,
        })
    } else if text == b"LIST DISASM".as_slice() {
        Some(Wanted {
            listing: true,
            disassembly: true,
        })
    } else {
        None
    }
}

/// The line that begins a source's block, by what follows its first word.
#[tactic(auto, unfolding(crate::specs::Actions::line_asked_for))]
fn source_line(text: &[u8]) -> Option<Line<Action, NoHeading>>
    ensures { result ≡ line_asked_for (codes "SOURCE") text.now }
{
    let (word, rest) = split_word(text);
    let name = name8(word)?;
    let wanted = wanted_of(rest)?;
    Some(Line::Source(name, wanted))
}

/// TRANSACTION, by what follows its first word.
#[tactic(auto, unfolding(crate::specs::Actions::line_asked_for))]
fn transaction_line(text: &[u8]) -> Option<Line<Action, NoHeading>>
    ensures { result ≡ line_asked_for (codes "TRANSACTION") text.now }
{
    let (word, rest) = split_word(text);
    let name = name4(word)?;
    let program = name8(rest?)?;
    Some(event_line(Event::Transaction(name, program)))
}

/// CLOCK, by what follows its first word.
#[tactic(auto, unfolding(crate::specs::Actions::line_asked_for))]
fn clock_line(text: &[u8]) -> Option<Line<Action, NoHeading>>
    ensures value { result ≡ line_asked_for (codes "CLOCK") text.now }
    ensures allowed { IfSome result (IsAllowedLine IsAllowedAction) }
{
    let (word, rest) = split_word(text);
    let time = number(word, 6, 6)?;
    let date = number(rest?, 5, 5)?;
    Some(event_line(Event::Clock(time, date)))
}

/// A key and the codes of its text, by what follows the terminal.
fn key_with_text(alloc: Global, text: &[u8]) -> Result<Option<(Aid, Bytes)>, AllocError>
    ensures value { IfOk result (λ key. key ≡ key_with_text text.now) }
    ensures memory { OnErr result (is_some (key_with_text text.now) ≡ true) }
    ensures bound { IfOk result (λ key. IfSome key (λ pressed. length pressed.1 ≤ 1920)) }
{
    let (word, rest) = split_word(text);
    let Some(aid) = aid_of(word) else {
        return Ok(None);
    };
    let Some(codes) = codes_of_key(alloc, rest.unwrap_or(b""))? else {
        return Ok(None);
    };
    Ok(Some((aid, codes)))
}

/// KEY, by what follows its first word.
#[tactic(auto, unfolding(crate::specs::Actions::line_asked_for))]
fn key_line(alloc: Global, text: &[u8]) -> Result<Option<Line<Action, NoHeading>>, AllocError>
    ensures value { IfOk result (λ line. line ≡ line_asked_for (codes "KEY") text.now) }
    ensures memory { OnErr result (is_some (line_asked_for (codes "KEY") text.now) ≡ true) }
    ensures allowed { IfOk result (λ line. IfSome line (IsAllowedLine IsAllowedAction)) }
{
    let (word, rest) = split_word(text);
    let (Some(name), Some(rest)) = (name4(word), rest) else {
        return Ok(None);
    };
    let Some((aid, codes)) = key_with_text(alloc, rest)? else {
        return Ok(None);
    };
    Ok(Some(event_line(Event::Key(name, aid, codes))))
}

/// What ON and OFF say: whether EDF is to begin.
fn switch_of(word: &[u8]) -> Option<bool>
    ensures { result ≡ switch_of word.now }
{
    if word == b"ON".as_slice() {
        Some(true)
    } else if word == b"OFF".as_slice() {
        Some(false)
    } else {
        None
    }
}

/// EDF, by what follows its first word.
#[tactic(auto, unfolding(crate::specs::Actions::line_asked_for))]
fn edf_line(text: &[u8]) -> Option<Line<Action, NoHeading>>
    ensures value { result ≡ line_asked_for (codes "EDF") text.now }
    ensures allowed { IfSome result (IsAllowedLine IsAllowedAction) }
{
    let (word, rest) = split_word(text);
    let name = name4(word)?;
    let event = if switch_of(rest?)? {
        EdfEvent::On(name)
    } else {
        EdfEvent::Off(name)
    };
    Some(Line::Action(Action::Event(event)))
}

/// DISPLAY, by what follows its first word.
#[tactic(auto, unfolding(crate::specs::Actions::line_asked_for))]
fn display_line(text: &[u8]) -> Option<Line<Action, NoHeading>>
    ensures value { result ≡ line_asked_for (codes "DISPLAY") text.now }
    ensures allowed { IfSome result (IsAllowedLine IsAllowedAction) }
{
    let (word, rest) = split_word(text);
    let name = name4(word)?;
    let Some(rest) = rest else {
        return Some(Line::Action(Action::Display(name)));
    };
    let back = number(rest, 1, 1)?;
    Some(Line::Action(Action::Previous(name, back as usize)))
}

/// ALTER, by what follows its first word.
#[tactic(auto, unfolding(crate::specs::Actions::line_asked_for))]
fn alter_line(text: &[u8]) -> Option<Line<Action, NoHeading>>
    ensures value { result ≡ line_asked_for (codes "ALTER") text.now }
    ensures allowed { IfSome result (IsAllowedLine IsAllowedAction) }
{
    let (word, rest) = split_word(text);
    let name = name4(word)?;
    let change = change_of(rest?)?;
    Some(event_line(Event::Alter(name, change)))
}

/// What a line asks by its first word and what follows it.
#[tactic(auto, unfolding(crate::specs::Actions::line_asked_for))]
fn asked(
    alloc: Global,
    verb: &[u8],
    text: &[u8],
) -> Result<Option<Line<Action, NoHeading>>, AllocError>
    ensures value { IfOk result (λ line. line ≡ line_asked_for verb.now text.now) }
    ensures memory { OnErr result (is_some (line_asked_for verb.now text.now) ≡ true) }
    ensures allowed { IfOk result (λ line. IfSome line (IsAllowedLine IsAllowedAction)) }
{
    if verb == b"IMAGE".as_slice() {
        Ok(image_line(text))
    } else if verb == b"SOURCE".as_slice() {
        Ok(source_line(text))
    } else if verb == b"TRANSACTION".as_slice() {
        Ok(transaction_line(text))
    } else if verb == b"TERMINAL".as_slice() {
        Ok(name4(text).map(|name| event_line(Event::Terminal(name))))
    } else if verb == b"CLOCK".as_slice() {
        Ok(clock_line(text))
    } else if verb == b"KEY".as_slice() {
        key_line(alloc, text)
    } else if verb == b"TURN".as_slice() {
        Ok(name4(text).map(|name| event_line(Event::Turn(name))))
    } else if verb == b"EDF".as_slice() {
        Ok(edf_line(text))
    } else if verb == b"DISPLAY".as_slice() {
        Ok(display_line(text))
    } else if verb == b"SCREEN".as_slice() {
        Ok(name4(text).map(|name| Line::Action(Action::Screen(name))))
    } else if verb == b"ALTER".as_slice() {
        Ok(alter_line(text))
    } else {
        Ok(None)
    }
}

/// Whether a line is empty or a comment.
fn is_blank_or_comment(text: &[u8]) -> bool
    ensures { result ≡ is_blank_or_comment text.now }
{
    text.is_empty() || text[0] == b'*'
}

/// What a line asks where it is not in a block; None, and never an error, where it is a bad line.
///
/// An error comes only where an allocation failed.
#[tactic(auto, unfolding(crate::specs::Actions::line_of))]
pub fn line_of(alloc: Global, text: &[u8]) -> Result<Option<Line<Action, NoHeading>>, AllocError>
    ensures value { IfOk result (λ line. line ≡ line_of text.now) }
    ensures memory { OnErr result (is_some (line_of text.now) ≡ true) }
    ensures allowed { IfOk result (λ line. IfSome line (IsAllowedLine IsAllowedAction)) }
{
    if is_blank_or_comment(text) {
        return Ok(Some(Line::Blank));
    }
    let (word, rest) = split_word(text);
    let Some(rest) = rest else {
        return Ok(None);
    };
    asked(alloc, word, rest)
}
