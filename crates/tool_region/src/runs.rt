//! Lists of events that are done by one call, of a region under EDF or of one without it.

ghost use Rattle.std.specs.Prelude.{IfOk, IfSome};
ghost use Rattle.cx_script_actions.specs.Allowed.{IsAllowedAction, IsAllowedLine};
ghost use Rattle.cx_edf.specs.Runs.{IsAllowedEdf};
ghost use Rattle.cx_region.specs.Events.{IsAllowed};

use crate::answers::{print_answer, print_answer_of, print_kept};
use crate::events::allowed_line;
use crate::images::image_of;
use crate::lists::{MOST, block_of, terminal_of};
use cx_ebcdic::{Name4, Name8};
use cx_edf::{Answer, Debugged, EdfEvent};
use cx_edf_display::EdfDisplays;
use cx_load::{CheckedImage, check};
use cx_region::{Event, Region, Reply};
use cx_script_actions::{Action, Line, NoHeading};
use cx_script_io::split_line;
use cx_storage::Store;
use std::alloc::{AllocError, Global};
use std::io;
use std::marker::Model;

/// More displays than are kept of a terminal.
const MORE_THAN_KEPT: usize = 12;

/// Events as they are appended.
trait List {
    ghost use Rattle.cx_edf.specs.Runs.{IsAllowedEdf};

    /// Puts an event last.
    fn push(&mut self, event: EdfEvent) -> Result<(), AllocError>
        requires { IsAllowedEdf event };
}

/// A list of events of the region alone.
#[derive(Drop)]
struct Events {
    events: Vec<Event>,
}

impl Model for Events {
    ghost use Rattle.std.specs.Prelude.{ℕ, length};
    ghost use Rattle.std.specs.List.{AllByRecursion};
    ghost use Rattle.cx_region.specs.Events.{IsAllowed};

    ghost Value = { ℕ };

    ghost view = { λ list. length list.events.items };

    ghost invariant = { λ list. AllByRecursion IsAllowed list.events.items };
}

impl Events {
    ghost use Rattle.std.specs.List.{AllByRecursion};
    ghost use Rattle.cx_region.specs.Events.{IsAllowed};

    /// Puts an event last.
    fn push_plain(&mut self, event: Event) -> Result<(), AllocError>
        requires { IsAllowed event }
    {
        self.events.push(event)?;
        Ok(())
    }

    /// Its events, in order.
    fn events(&self) -> &[Event]
        ensures { AllByRecursion IsAllowed result.now }
    {
        self.events.as_slice()
    }
}

/// The event of the region that an event under EDF is, if it is one.
fn plain_of(event: EdfEvent) -> Option<Event>
    requires { IsAllowedEdf event }
    ensures { IfSome result IsAllowed }
{
    match event {
        EdfEvent::Plain(event) => Some(event),
        _ => None,
    }
}

impl List for Events {
    fn push(&mut self, event: EdfEvent) -> Result<(), AllocError> {
        match plain_of(event) {
            Some(event) => self.push_plain(event),
            None => Ok(()),
        }
    }
}

/// A list of events under EDF.
#[derive(Drop)]
struct EdfEvents {
    events: Vec<EdfEvent>,
}

impl Model for EdfEvents {
    ghost use Rattle.std.specs.Prelude.{ℕ, length};
    ghost use Rattle.std.specs.List.{AllByRecursion};
    ghost use Rattle.cx_edf.specs.Runs.{IsAllowedEdf};

    ghost Value = { ℕ };

    ghost view = { λ list. length list.events.items };

    ghost invariant = { λ list. AllByRecursion IsAllowedEdf list.events.items };
}

impl EdfEvents {
    ghost use Rattle.std.specs.List.{AllByRecursion};
    ghost use Rattle.cx_edf.specs.Runs.{IsAllowedEdf};

    /// Its events, in order.
    fn events(&self) -> &[EdfEvent]
        ensures { AllByRecursion IsAllowedEdf result.now }
    {
        self.events.as_slice()
    }
}

impl List for EdfEvents {
    fn push(&mut self, event: EdfEvent) -> Result<(), AllocError> {
        self.events.push(event)?;
        Ok(())
    }
}

/// The image whose text some lines spell; None where they spell none, or it has a fault.
fn checked(alloc: Global, stg_len: u32, block: &[u8]) -> Result<Option<CheckedImage>, AllocError> {
    let Some(image) = image_of(alloc, block, stg_len)? else {
        return Ok(None);
    };
    match check(image) {
        Ok(image) => Ok(Some(image)),
        Err((_, _fault)) => Ok(None),
    }
}

/// The definition of a program.
fn definition(name: Name8, image: CheckedImage) -> EdfEvent
    ensures { IsAllowedEdf result }
{
    EdfEvent::Plain(Event::Program(name, image))
}

/// The definition of a program from an image whose text some lines spell; None where there is none.
fn program(
    alloc: Global,
    name: Name8,
    stg_len: u32,
    block: &[u8],
) -> Result<Option<EdfEvent>, AllocError>
    ensures { IfOk result (λ event. IfSome event IsAllowedEdf) }
{
    match checked(alloc, stg_len, block)? {
        Some(image) => Ok(Some(definition(name, image))),
        None => Ok(None),
    }
}

/// The event that an action is; None where it is none.
fn asked(action: Action) -> Option<EdfEvent>
    requires { IsAllowedAction action }
    ensures { IfSome result IsAllowedEdf }
{
    match action {
        Action::Event(event) => Some(event),
        Action::Screen(_) | Action::Display(_) | Action::Previous(_, _) => None,
        Action::Image(_, _) | Action::Source(_, _, _) => None,
    }
}

/// The event that a line asks, with the block after it where it begins one; None where it asks none.
fn event_of(
    alloc: Global,
    line: Line<Action, NoHeading>,
    block: &[u8],
) -> Result<Option<EdfEvent>, AllocError>
    requires { IsAllowedLine IsAllowedAction line }
    ensures { IfOk result (λ event. IfSome event IsAllowedEdf) }
{
    match line {
        Line::Action(action) => Ok(asked(action)),
        Line::Image(name, stg_len) => program(alloc, name, stg_len, block),
        Line::Blank | Line::Source(_, _) => Ok(None),
    }
}

/// The event that a text asks, and the lines that are left; the lines after it begin with its block where it begins one.
fn event_and_rest<'a>(
    alloc: Global,
    text: &[u8],
    after: &'a [u8],
) -> Result<(Option<EdfEvent>, &'a [u8]), AllocError>
    ensures { IfOk result (λ both. IfSome both.0 IsAllowedEdf) }
{
    let Some(line) = allowed_line(alloc, text)? else {
        return Ok((None, after));
    };
    let (block, rest) = block_of(&line, after);
    Ok((event_of(alloc, line, block)?, rest))
}

/// Puts the event that a text asks last, if it asks one. Answers the lines that are left.
fn put<'a, L: List>(
    alloc: Global,
    list: &mut L,
    text: &[u8],
    after: &'a [u8],
) -> Result<&'a [u8], AllocError> {
    let (event, rest) = event_and_rest(alloc, text, after)?;
    if let Some(event) = event {
        list.push(event)?;
    }
    Ok(rest)
}

/// Puts the events that lines ask last.
fn put_all<L: List>(alloc: Global, list: &mut L, lines: &[u8]) -> Result<(), AllocError> {
    let mut rest = lines;
    for _ in 0..MOST {
        let Some((line, after)) = split_line(rest) else {
            break;
        };
        rest = put(alloc, list, line, after)?;
    }
    Ok(())
}

// The calls of a region without what their contracts ensure.

fn run_events<S: Store + Drop>(region: &mut Region<S>, list: &Events) -> Result<Vec<Reply>, usize> {
    match region.run(list.events()) {
        Ok(replies) => Ok(replies),
        Err(stop) => Err(stop.done),
    }
}

fn run_under_edf<S: Store + Drop>(
    region: &mut Debugged<S, EdfDisplays>,
    list: &EdfEvents,
) -> Result<Vec<Answer>, usize> {
    match region.run(list.events()) {
        Ok(answers) => Ok(answers),
        Err(stop) => Err(stop.done),
    }
}

fn define_program<S: Store + Drop>(
    region: &mut Debugged<S, EdfDisplays>,
    name: Name8,
    image: &CheckedImage,
) -> Reply {
    Reply::Program(region.define_program(name, image))
}

fn define_transaction<S: Store + Drop>(
    region: &mut Debugged<S, EdfDisplays>,
    name: Name4,
    program: Name8,
) -> Reply {
    Reply::Transaction(region.define_transaction(name, program))
}

fn define_terminal<S: Store + Drop>(region: &mut Debugged<S, EdfDisplays>, name: Name4) -> Reply {
    Reply::Terminal(region.define_terminal(name))
}

/// Whether a display of a terminal is kept, so many before the newest.
fn is_kept<S: Store + Drop>(region: &Debugged<S, EdfDisplays>, name: Name4, back: usize) -> bool {
    region.previous(name, back).is_some()
}

/// How many displays are kept of a terminal.
fn kept<S: Store + Drop>(region: &Debugged<S, EdfDisplays>, name: Name4) -> usize {
    let mut count = 0usize;
    for back in 0..MORE_THAN_KEPT {
        if is_kept(region, name, back) {
            count = count.saturating_add(1);
        }
    }
    count
}

/// What the call of a definition replies; None where an event is none.
fn defined<S: Store + Drop>(
    region: &mut Debugged<S, EdfDisplays>,
    event: &EdfEvent,
) -> Option<Reply> {
    match event {
        EdfEvent::Plain(Event::Program(name, image)) => Some(define_program(region, *name, image)),
        EdfEvent::Plain(Event::Transaction(name, program)) => {
            Some(define_transaction(region, *name, *program))
        }
        EdfEvent::Plain(Event::Terminal(name)) => Some(define_terminal(region, *name)),
        _ => None,
    }
}

/// Does a definition, if there is one, and prints its answer. Keeps the name of a terminal that was defined.
fn define<S: Store + Drop>(
    rt: &HostRuntime,
    region: &mut Debugged<S, EdfDisplays>,
    terminals: &mut Vec<Name4>,
    event: &Option<EdfEvent>,
) -> io::Result<()> {
    let Some(event) = event else {
        return Ok(());
    };
    match defined(region, event) {
        Some(reply) => print_and_keep(rt, terminals, event, &Answer::Region(reply)),
        None => println!(rt; "no definition"),
    }
}

/// Does the definition that a text asks. Answers the lines that are left; the lines after it begin with its block where
/// it begins one.
fn define_text<'a, S: Store + Drop>(
    rt: &HostRuntime,
    region: &mut Debugged<S, EdfDisplays>,
    terminals: &mut Vec<Name4>,
    (text, after): (&[u8], &'a [u8]),
) -> io::Result<&'a [u8]> {
    let (event, rest) = event_and_rest(rt.alloc(), text, after)?;
    match define(rt, region, terminals, &event) {
        Ok(()) => Ok(rest),
        Err(fault) => Err(fault),
    }
}

/// Prints an answer, and keeps the name of a terminal that was defined.
fn print_and_keep(
    rt: &HostRuntime,
    terminals: &mut Vec<Name4>,
    event: &EdfEvent,
    answer: &Answer,
) -> io::Result<()> {
    if let Some(name) = terminal_of(event, answer) {
        terminals.push(name)?;
    }
    print_answer(rt, event, *answer)
}

/// Does the definitions of a list, each by a call, up to its line `RUN`. Answers the lines after that.
fn define_first<'a, S: Store + Drop>(
    rt: &HostRuntime,
    region: &mut Debugged<S, EdfDisplays>,
    terminals: &mut Vec<Name4>,
    lines: &'a [u8],
) -> io::Result<&'a [u8]> {
    let mut rest = lines;
    for _ in 0..MOST {
        let Some((line, after)) = split_line(rest) else {
            break;
        };
        if line == b"RUN".as_slice() {
            return Ok(after);
        }
        rest = define_text(rt, region, terminals, (line, after))?;
    }
    Ok(rest)
}

// What a function owns is dropped at each of its ends: one that owns a region, a list or answers has one end.

/// Prints the answers of events, and keeps the names of terminals that were defined.
fn print_answers(
    rt: &HostRuntime,
    terminals: &mut Vec<Name4>,
    events: &[EdfEvent],
    answers: &[Answer],
) -> io::Result<()> {
    for (event, answer) in events.iter().zip(answers.iter()) {
        print_and_keep(rt, terminals, event, answer)?;
    }
    Ok(())
}

/// Does the events of a list by one call, and prints their answers.
fn run_list<S: Store + Drop>(
    rt: &HostRuntime,
    region: &mut Debugged<S, EdfDisplays>,
    terminals: &mut Vec<Name4>,
    list: &EdfEvents,
) -> io::Result<()> {
    match run_under_edf(region, list) {
        Ok(answers) => print_answers(rt, terminals, list.events(), answers.as_slice()),
        Err(done) => println!(rt; "stopped at {done}"),
    }
}

/// Puts the events that lines ask last, does those of the list by one call, and prints their answers.
fn put_and_run<S: Store + Drop>(
    rt: &HostRuntime,
    region: &mut Debugged<S, EdfDisplays>,
    terminals: &mut Vec<Name4>,
    (list, lines): (&mut EdfEvents, &[u8]),
) -> io::Result<()> {
    put_all(rt.alloc(), list, lines)?;
    run_list(rt, region, terminals, list)
}

/// Does the events that lines ask by one call, and prints their answers.
fn run_lines<S: Store + Drop>(
    rt: &HostRuntime,
    region: &mut Debugged<S, EdfDisplays>,
    terminals: &mut Vec<Name4>,
    lines: &[u8],
) -> io::Result<()> {
    let mut list = EdfEvents {
        events: Vec::new(rt.alloc()),
    };
    put_and_run(rt, region, terminals, (&mut list, lines))
}

/// Prints how many displays are kept of each terminal.
fn print_all_kept<S: Store + Drop>(
    rt: &HostRuntime,
    region: &Debugged<S, EdfDisplays>,
    terminals: &[Name4],
) -> io::Result<()> {
    for name in terminals {
        print_kept(rt, *name, kept(region, *name))?;
    }
    Ok(())
}

/// Does definitions, each by a call, and after a line `RUN` events, all by one call, and prints what is due of them.
fn define_and_run<S: Store + Drop>(
    rt: &HostRuntime,
    region: &mut Debugged<S, EdfDisplays>,
    terminals: &mut Vec<Name4>,
    lines: &[u8],
) -> io::Result<()> {
    let rest = define_first(rt, region, terminals, lines)?;
    run_lines(rt, region, terminals, rest)?;
    print_all_kept(rt, region, terminals.as_slice())
}

/// Does a list of definitions, each by a call, and after its line `RUN` events, all by one call. Prints last how many
/// displays are kept of each terminal.
pub fn do_at_once<S: Store + Drop>(
    rt: &HostRuntime,
    mut region: Debugged<S, EdfDisplays>,
    lines: &[u8],
) -> io::Result<()> {
    let mut terminals = Vec::new(rt.alloc());
    define_and_run(rt, &mut region, &mut terminals, lines)
}

/// Prints the replies to events of a region without EDF.
fn print_replies(rt: &HostRuntime, events: &[Event], replies: &[Reply]) -> io::Result<()> {
    for (event, reply) in events.iter().zip(replies.iter()) {
        print_answer_of(rt, event, *reply)?;
    }
    Ok(())
}

/// Does the events of a list by one call of a region without EDF, and prints the replies.
fn run_list_alone<S: Store + Drop>(
    rt: &HostRuntime,
    region: &mut Region<S>,
    list: &Events,
) -> io::Result<()> {
    match run_events(region, list) {
        Ok(replies) => print_replies(rt, list.events(), replies.as_slice()),
        Err(done) => println!(rt; "stopped at {done}"),
    }
}

/// Puts the events that lines ask last, does those of the list by one call, and prints the replies.
fn put_and_run_alone<S: Store + Drop>(
    rt: &HostRuntime,
    region: &mut Region<S>,
    list: &mut Events,
    lines: &[u8],
) -> io::Result<()> {
    put_all(rt.alloc(), list, lines)?;
    run_list_alone(rt, region, list)
}

/// Does a list of events by one call of a region without EDF.
pub fn do_alone<S: Store + Drop>(
    rt: &HostRuntime,
    mut region: Region<S>,
    lines: &[u8],
) -> io::Result<()> {
    let mut list = Events {
        events: Vec::new(rt.alloc()),
    };
    put_and_run_alone(rt, &mut region, &mut list, lines)
}
