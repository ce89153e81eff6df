//! What a line of a script with looks asks.
ghost use Rattle.std.specs.Prelude.{◌≡◌, ◌≤◌, IfOk, IfSome, OnErr, is_some, length, map, option_and_then, true};
ghost use Rattle.std.specs.Char.{to_ascii_uppercase};
ghost use Rattle.std.specs.Option.{option_copied, option_map_or};
ghost use Rattle.cx_script_actions.specs.Allowed.{IsAllowedAction, IsAllowedLine};
ghost use Rattle.cx_look.specs.Looks.{count_up_to};
ghost use Rattle.cx_look_script.specs.Allowed.{IsAllowedLook};
ghost use Rattle.cx_look_script.specs.Reading.{asked_by, choices_line, cover_of, faults_line, look_language, look_line_of, line_of_subject, orders_line, own_line, run_of, run_with, source_line_of, stop_at_line, stop_asked_for, as_look_line, turns_of, watch_of, watched_field, watched_range};
ghost use Rattle.cx_look_script.specs.Runs.{look_actions_of};

use cx_base::List;
use cx_ebcdic::{Name4, Name8};
use cx_look::{
    ChoicesAsked, ChoicesBlock, Look, OrdersAsked, OrdersBlock, SourceLines, Subject,
    choices_asked, choices_block, choices_with, look_of, orders_asked, orders_block, orders_with,
    subject_of,
};
use cx_look_ahead::SourceLine;
use cx_script_actions::{
    Action, Line, NoHeading, ScriptAction, hex_address, line_of, name4, name8, number, split_word,
};
use cx_script_blocks::with_text;
use cx_source::Text;
use std::alloc::{AllocError, Global};

/// How many turns RUN does at most where no number says so.
const TURNS: u16 = 1_000;

/// The most turns that RUN does.
const MOST_TURNS: u32 = 4_096;

/// The highest number of a line of a source to which RUN goes.
const LAST_LINE: u32 = 99_999;

/// The most bytes of a range that is watched.
const MOST_BYTES: u32 = 256;

/// What ends a RUN in front of a turn, before its turns are done.
#[derive(Clone, Copy, Debug, PartialEq, Eq)]
pub enum Stop {
    /// Nothing does: RUN does as many turns as it may.
    Never,
    /// The turn would be answered as an abend, or as one that an exit takes.
    BeforeAbend,
    /// The turn would do something of a line of a program's source: run an instruction of a statement there, or perform
    /// its command.
    BeforeLine(SourceLine),
}

/// What WATCH asks.
#[derive(Clone, Copy, Debug, PartialEq, Eq)]
pub enum WatchLine {
    /// To watch bytes from an address on, and how many: 1 to 256.
    Range(u32, u32),
    /// To watch a field of the current level of a terminal's task: its first 256 bytes, where it is longer.
    Field(Name4, Name8),
    /// To watch nothing any more.
    Off,
}

/// What is done for a line of a script with looks.
#[derive(Drop)]
pub enum LookAction {
    /// What a script of `cicsedf` asks too.
    Script(Action),
    /// What the end of a source's block asks in a script of `cicsedf`: the program's name, the source's lines, and the
    /// action that they ask.
    Source(Name8, List<Text>, Action),
    /// RUN: the first of at most this many turns of a terminal, and what ends it before.
    Run(Name4, u16, Stop),
    /// One more turn of RUN, where at most this many are left; where none is, the line that says so.
    RunOn(Name4, u16, Stop),
    /// WATCH: what is watched from here on.
    Watch(WatchLine),
    /// COVER: what is run from here on is counted, or no more.
    Cover(bool),
    /// A look.
    Look(Look),
    /// ORDERS: what its block asks.
    Orders(OrdersBlock),
    /// CHOICES: what its block asks.
    Choices(ChoicesBlock),
    /// The report of a bad look: the number of its line, and the word that it begins with.
    BadLook(usize, Subject),
}

/// What begins a block of lines that are handed over.
#[derive(Clone, Copy)]
pub enum Heading {
    /// FAULTS, with a program's name.
    Faults(Name8),
    /// ORDERS, with what it says of its search.
    Orders(OrdersAsked),
    /// CHOICES, with what it says of its search.
    Choices(ChoicesAsked),
}

/// The most bytes of a line.
const MOST_IN_LINE: usize = 4_096;

/// The number from 1 to a most that at most five decimal digits spell.
#[tactic(auto, using(std::proofs::lemmas::Bool::Decides::nat_tests), unfolding(cx_look::specs::Looks::count_up_to))]
fn count_up_to(word: &[u8], most: u32) -> Option<u32>
    ensures value { result ≡ count_up_to most word.now }
    ensures most { IfSome result (λ n. n ≤ most) }
{
    let n = number(word, 1, 5)?;
    if n < 1 || n > most {
        return None;
    }
    Some(n)
}

/// A line of a program's source, by its name and the line's number.
fn source_line_of(text: &[u8]) -> Option<SourceLine>
    ensures { result ≡ source_line_of text.now }
{
    let (word, rest) = split_word(text);
    let program = name8(word)?;
    let line = count_up_to(rest?, LAST_LINE)?;
    Some(SourceLine { program, line })
}

/// What ends a RUN that goes to a line, by its last words.
fn stop_at_line(text: &[u8]) -> Option<Stop>
    ensures { result ≡ stop_at_line text.now }
{
    let (first, rest) = split_word(text);
    if first == b"TO".as_slice() {
        let line = source_line_of(rest?)?;
        Some(Stop::BeforeLine(line))
    } else {
        None
    }
}

/// What ends a RUN in front of a turn, by the words after its number.
fn stop_asked_for(rest: Option<&[u8]>) -> Option<Stop>
    ensures { result ≡ stop_asked_for (option_copied rest.entry) }
{
    match rest {
        None => Some(Stop::Never),
        Some(words) if words == b"BEFORE ABEND".as_slice() => Some(Stop::BeforeAbend),
        Some(words) => stop_at_line(words),
    }
}

/// RUN of a terminal and a number of turns, by the words after the number.
fn run_with(name: Name4, n: u16, rest: Option<&[u8]>) -> Option<LookAction>
    ensures value { result ≡ run_with name n (option_copied rest.entry) }
    ensures allowed { IfSome result IsAllowedLook }
{
    let stop = stop_asked_for(rest)?;
    Some(LookAction::Run(name, n, stop))
}

/// RUN of a terminal, by what follows its name.
fn turns_of(name: Name4, rest: Option<&[u8]>) -> Option<LookAction>
    ensures value { result ≡ turns_of name (option_copied rest.entry) }
    ensures allowed { IfSome result IsAllowedLook }
{
    let Some(text) = rest else {
        return run_with(name, TURNS, rest);
    };
    let (word, more) = split_word(text);
    match count_up_to(word, MOST_TURNS) {
        Some(n) => run_with(name, n as u16, more),
        None => run_with(name, TURNS, rest),
    }
}

/// RUN, by what follows it.
fn run_of(text: &[u8]) -> Option<LookAction>
    ensures value { result ≡ run_of text.now }
    ensures allowed { IfSome result IsAllowedLook }
{
    let (word, rest) = split_word(text);
    let name = name4(word)?;
    turns_of(name, rest)
}

/// Bytes that are to be watched, by what follows WATCH.
fn watched_range(text: &[u8]) -> Option<WatchLine>
    ensures { result ≡ watched_range text.now }
{
    let (word, rest) = split_word(text);
    let address = hex_address(word)?;
    let count = count_up_to(rest?, MOST_BYTES)?;
    Some(WatchLine::Range(address, count))
}

/// A field that is to be watched, by what follows WATCH.
fn watched_field(text: &[u8]) -> Option<WatchLine>
    ensures { result ≡ watched_field text.now }
{
    let (word, rest) = split_word(text);
    let term = name4(word)?;
    let name = name8(rest?)?;
    Some(WatchLine::Field(term, name))
}

/// WATCH, by what follows it.
fn watch_of(text: &[u8]) -> Option<WatchLine>
    ensures { result ≡ watch_of text.now }
{
    if text == b"OFF".as_slice() {
        return Some(WatchLine::Off);
    }
    match watched_range(text) {
        Some(range) => Some(range),
        None => watched_field(text),
    }
}

/// COVER, by what follows it: whether what is run is counted from here on.
fn cover_of(text: &[u8]) -> Option<bool>
    ensures { result ≡ cover_of text.now }
{
    if text == b"ON".as_slice() {
        Some(true)
    } else if text == b"OFF".as_slice() {
        Some(false)
    } else {
        None
    }
}

/// What a line asks that begins with one of these words, where it is as it should be.
fn asked_by(subject: Subject, text: &[u8]) -> Option<LookAction>
    ensures value { result ≡ asked_by subject text.now }
    ensures allowed { IfSome result IsAllowedLook }
{
    if subject == Subject::Run {
        let (_word, rest) = split_word(text);
        return run_of(rest?);
    }
    if subject == Subject::Watch {
        let (_word, rest) = split_word(text);
        let watch = watch_of(rest?)?;
        return Some(LookAction::Watch(watch));
    }
    if subject == Subject::Cover {
        let (_word, rest) = split_word(text);
        let on = cover_of(rest?)?;
        return Some(LookAction::Cover(on));
    }
    let look = look_of(text)?;
    Some(LookAction::Look(look))
}

/// The line that begins a block of FAULTS.
fn faults_line(text: &[u8]) -> Option<Line<LookAction, Heading>>
    ensures value { result ≡ faults_line text.now }
    ensures allowed { IfSome result (IsAllowedLine IsAllowedLook) }
{
    let (_word, rest) = split_word(text);
    let name = name8(rest?)?;
    Some(Line::Lines(Heading::Faults(name)))
}

/// The line that begins a block of ORDERS.
fn orders_line(text: &[u8]) -> Option<Line<LookAction, Heading>>
    ensures value { result ≡ orders_line text.now }
    ensures allowed { IfSome result (IsAllowedLine IsAllowedLook) }
{
    let (_word, rest) = split_word(text);
    let asked = orders_asked(rest)?;
    Some(Line::Lines(Heading::Orders(asked)))
}

/// The line that begins a block of CHOICES.
fn choices_line(text: &[u8]) -> Option<Line<LookAction, Heading>>
    ensures value { result ≡ choices_line text.now }
    ensures allowed { IfSome result (IsAllowedLine IsAllowedLook) }
{
    let (_word, rest) = split_word(text);
    let asked = choices_asked(rest)?;
    Some(Line::Lines(Heading::Choices(asked)))
}

/// What a line asks that begins with one of these words.
fn line_of_subject(
    number: usize,
    text: &[u8],
    subject: Subject,
) -> Option<Line<LookAction, Heading>>
    ensures value { result ≡ line_of_subject number text.now subject }
    ensures allowed { IfSome result (IsAllowedLine IsAllowedLook) }
{
    if subject == Subject::Faults {
        return faults_line(text);
    }
    if subject == Subject::Orders {
        return orders_line(text);
    }
    if subject == Subject::Choices {
        return choices_line(text);
    }
    match asked_by(subject, text) {
        Some(action) => Some(Line::Action(action)),
        None => Some(Line::Action(LookAction::BadLook(number, subject))),
    }
}

/// Puts a text into a buffer of its length, in upper case.
fn put_upper(text: &[u8], out: &mut [u8])
    requires { length out.old ≡ length text.now }
    ensures { out.new ≡ map to_ascii_uppercase text.now }
{
    out.copy_from_slice(text);
    out.make_ascii_uppercase();
}

/// What a line asks that begins with one of the words that no script of `cicsedf` has. It takes no memory.
#[tactic(auto, unfolding(crate::specs::Reading::own_line))]
fn own_line(number: usize, text: &[u8]) -> Option<Line<LookAction, Heading>>
    ensures value { result ≡ own_line number text.now }
    ensures allowed { IfSome result (IsAllowedLine IsAllowedLook) }
{
    let mut buffer = [0; MOST_IN_LINE];
    if text.len() > MOST_IN_LINE {
        return None;
    }
    let read = &mut buffer[..text.len()];
    put_upper(text, read);
    let (word, _rest) = split_word(read);
    let subject = subject_of(word)?;
    line_of_subject(number, read, subject)
}

/// A line of `cicsedf`'s scripts as one of these.
fn scripted(line: Line<Action, NoHeading>) -> Line<LookAction, Heading>
    requires { IsAllowedLine IsAllowedAction line }
    ensures value { result ≡ as_look_line line }
    ensures allowed { IsAllowedLine IsAllowedLook result }
{
    match line {
        Line::Blank => Line::Blank,
        Line::Image(name, length) => Line::Image(name, length),
        Line::Source(name, wanted) => Line::Source(name, wanted),
        Line::Action(action) => Line::Action(LookAction::Script(action)),
    }
}

/// What the line with this number asks where it is not in a block; None where it is a bad line. An error comes only
/// where an allocation failed, and never for a bad line.
#[tactic(auto, unfolding(crate::specs::Reading::look_line_of))]
fn look_line_of(
    alloc: Global,
    number: usize,
    text: &[u8],
) -> Result<Option<Line<LookAction, Heading>>, AllocError>
    ensures value { IfOk result (λ line. line ≡ look_line_of number text.now) }
    ensures memory { OnErr result (is_some (look_line_of number text.now) ≡ true) }
    ensures allowed { IfOk result (λ line. IfSome line (IsAllowedLine IsAllowedLook)) }
{
    if let Some(line) = line_of(alloc, text)? {
        return Ok(Some(scripted(line)));
    }
    Ok(own_line(number, text))
}

impl ScriptAction for LookAction {
    type Heading = Heading;

    ghost language = { look_language };

    ghost allowed = { IsAllowedLook };

    fn of_block(action: Action) -> LookAction {
        LookAction::Script(action)
    }

    fn of_source(name: Name8, lines: Vec<Text>, action: Action) -> LookAction {
        LookAction::Source(name, List::from_vec(lines), action)
    }

    fn with_line(
        alloc: Global,
        heading: Option<Heading>,
        lines: List<Text>,
        text: &[u8],
    ) -> Result<Option<List<Text>>, AllocError>
        ensures value { IfOk result (λ more. more
            ≡ option_and_then (λ it. look_language.with_line it lines text.now) heading) }
        ensures memory { OnErr result (is_some
            (option_and_then (λ it. look_language.with_line it lines text.now) heading) ≡ true) }
    {
        let Some(heading) = heading else {
            return Ok(None);
        };
        match heading {
            Heading::Faults(_) => Ok(Some(with_text(alloc, lines, text)?)),
            Heading::Orders(_) => orders_with(alloc, lines, text),
            Heading::Choices(_) => choices_with(alloc, lines, text),
        }
    }

    fn of_lines(
        alloc: Global,
        first: usize,
        heading: Option<Heading>,
        lines: List<Text>,
    ) -> Result<Option<LookAction>, AllocError>
        ensures value { IfOk result (λ action. action
            ≡ option_and_then (λ it. look_language.of_lines first it lines) heading) }
        ensures allowed { IfOk result (λ action. IfSome action IsAllowedLook) }
    {
        let Some(heading) = heading else {
            return Ok(None);
        };
        match heading {
            Heading::Faults(name) => {
                let look = Look::Faults(SourceLines { first, name, lines });
                Ok(Some(LookAction::Look(look)))
            }
            Heading::Orders(asked) => {
                if asked.most < 1 {
                    return Ok(None);
                }
                let block = orders_block(alloc, asked, lines.as_slice())?;
                Ok(Some(LookAction::Orders(block)))
            }
            Heading::Choices(asked) => {
                if asked.keys < 1 || asked.most < 1 {
                    return Ok(None);
                }
                let block = choices_block(alloc, asked, lines.as_slice())?;
                Ok(Some(LookAction::Choices(block)))
            }
        }
    }

    #[tactic(auto, using(crate::proofs::TurnLemmas::one_left), unfolding(crate::specs::Runs::turns_left))]
    fn following(&self) -> Option<LookAction> {
        match self {
            LookAction::Run(name, n, stop) => {
                Some(LookAction::RunOn(*name, n.saturating_sub(1), *stop))
            }
            LookAction::RunOn(name, n, stop) if *n > 0 => {
                Some(LookAction::RunOn(*name, *n - 1, *stop))
            }
            _ => None,
        }
    }

    fn is_deferred_fault(&self) -> bool {
        matches!(self, LookAction::BadLook(_, _))
    }

    fn read_line(
        alloc: Global,
        number: usize,
        text: &[u8],
    ) -> Result<Option<Line<LookAction, Heading>>, AllocError> {
        look_line_of(alloc, number, text)
    }
}
