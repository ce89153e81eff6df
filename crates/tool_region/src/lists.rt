//! The part `LISTS`: does lists of events over a region under EDF, and gives each event that is answered Memory once
//! more, and so each call that makes a program of a source. The lists are in the lines of scripts; a line `LIST` with a
//! name begins a list, with a region of its own. Storage is in pages; with a line `FLAT` before all lists it is the
//! plain store. Answers are printed as in a transcript; at the end of a list also each terminal's task and screen, and
//! all pages of the displays that EDF keeps of it.
//!
//! A list that begins with a line `AT ONCE` and a name has definitions, which are done by a call each, and after a line
//! `RUN` events, all of which are done by one call; at its end the number of displays that are kept of each terminal is
//! printed. One that begins with `ALONE` and a name is done by one call of a region without EDF. Programs of these
//! lists are images.

ghost use Rattle.cx_script_actions.specs.Allowed.{IsAllowedAction, IsAllowedLine};
ghost use Rattle.cx_edf.specs.Runs.{IsAllowedEdf};

use crate::answers::{print_answer, print_refused};
use crate::events::{
    allowed_line, alone_over_areas, alone_over_pages, begun_over_areas, begun_over_pages, done,
};
use crate::images::{image_of, split_block};
use crate::pages::{print_all, print_displays, print_screen};
use crate::runs::{do_alone, do_at_once};
use crate::sources::program_of;
use cx_code::Image;
use cx_ebcdic::{Name4, Name8};
use cx_edf::{Answer, Debugged, EdfEvent};
use cx_edf_display::EdfDisplays;
use cx_load::check;
use cx_region::{Event, Reply};
use cx_script_actions::{Action, Line, NoHeading, Wanted};
use cx_script_io::split_line;
use cx_storage::Store;
use std::alloc::AllocError;
use std::io;

/// The most bytes of input, and so the most of its lines.
pub const MOST: usize = 524_288;

/// The terminal that an event defined, if its answer is that it did.
pub fn terminal_of(event: &EdfEvent, answer: &Answer) -> Option<Name4> {
    match (event, answer) {
        (EdfEvent::Plain(Event::Terminal(name)), Answer::Region(Reply::Terminal(Ok(())))) => {
            Some(*name)
        }
        _ => None,
    }
}

/// A list up to some line of it.
#[derive(Drop)]
struct List<S: Store + Drop> {
    region: Debugged<S, EdfDisplays>,
    /// The terminals that are defined.
    terminals: Vec<Name4>,
}

impl<S: Store + Drop> List<S> {
    /// A list of which nothing is done.
    fn new(rt: &HostRuntime, region: Debugged<S, EdfDisplays>) -> List<S> {
        List {
            region,
            terminals: Vec::new(rt.alloc()),
        }
    }

    /// Keeps the name of a terminal that was defined.
    fn defined(&mut self, name: Name4) -> Result<(), AllocError> {
        if self.terminals.push(name).is_err() {
            self.terminals.push(name)?;
        }
        Ok(())
    }

    /// Does an event, and prints its answer.
    fn event(&mut self, rt: &HostRuntime, event: &EdfEvent) -> io::Result<()>
        requires { IsAllowedEdf event.now }
    {
        let answer = done(&mut self.region, event)?;
        if let Some(name) = terminal_of(event, &answer) {
            self.defined(name)?;
        }
        print_answer(rt, event, answer)
    }

    /// Defines a program from an image.
    fn image(&mut self, rt: &HostRuntime, name: Name8, image: Image) -> io::Result<()> {
        match check(image) {
            Ok(image) => self.event(rt, &EdfEvent::Plain(Event::Program(name, image))),
            Err((_image, fault)) => print_refused(rt, name, fault.name()),
        }
    }

    /// Defines a program from a source, and prints what is wanted of it; of a faulty one its fault.
    fn source(
        &mut self,
        rt: &HostRuntime,
        name: Name8,
        wanted: Wanted,
        text: &[u8],
    ) -> io::Result<()> {
        match program_of(rt, wanted, text)? {
            Some(image) => self.image(rt, name, image),
            None => Ok(()),
        }
    }

    /// Does what a line asks that begins no block.
    fn action(&mut self, rt: &HostRuntime, action: Action) -> io::Result<()>
        requires { IsAllowedAction action }
    {
        match action {
            Action::Event(event) => self.event(rt, &event),
            Action::Screen(name) => print_screen(rt, &self.region, name),
            Action::Display(name) => print_displays(rt, &self.region, name, None),
            Action::Previous(name, back) => print_displays(rt, &self.region, name, Some(back)),
            Action::Image(_, _) | Action::Source(_, _, _) => Ok(()),
        }
    }

    /// Defines a program from an image whose text some lines spell.
    fn image_block(
        &mut self,
        rt: &HostRuntime,
        name: Name8,
        stg_len: u32,
        block: &[u8],
    ) -> io::Result<()> {
        match image_of(rt.alloc(), block, stg_len)? {
            Some(image) => self.image(rt, name, image),
            None => println!(rt; "a bad image"),
        }
    }

    /// Does what a line asks, and the block after it where it begins one.
    fn line(
        &mut self,
        rt: &HostRuntime,
        line: Line<Action, NoHeading>,
        block: &[u8],
    ) -> io::Result<()>
        requires { IsAllowedLine IsAllowedAction line }
    {
        match line {
            Line::Blank => Ok(()),
            Line::Action(action) => self.action(rt, action),
            Line::Image(name, stg_len) => self.image_block(rt, name, stg_len, block),
            Line::Source(name, wanted) => self.source(rt, name, wanted, block),
        }
    }

    /// Does what a text asks; the lines after it begin with its block where it begins one. Answers the lines that are
    /// left.
    fn text<'a>(&mut self, rt: &HostRuntime, text: &[u8], after: &'a [u8]) -> io::Result<&'a [u8]> {
        let Some(line) = allowed_line(rt.alloc(), text)? else {
            println!(rt; "a bad line")?;
            return Ok(after);
        };
        let (block, rest) = block_of(&line, after);
        self.line(rt, line, block)?;
        Ok(rest)
    }

    /// Does what lines ask.
    fn lines(&mut self, rt: &HostRuntime, lines: &[u8]) -> io::Result<()> {
        let mut rest = lines;
        for _ in 0..MOST {
            let Some((line, after)) = split_line(rest) else {
                break;
            };
            rest = self.text(rt, line, after)?;
        }
        Ok(())
    }

    /// Prints what is left at the end.
    fn end(&self, rt: &HostRuntime) -> io::Result<()> {
        for name in &self.terminals {
            print_all(rt, &self.region, *name)?;
        }
        Ok(())
    }

    /// Does what lines ask, and prints what is left at the end.
    fn all(&mut self, rt: &HostRuntime, lines: &[u8]) -> io::Result<()> {
        self.lines(rt, lines)?;
        self.end(rt)
    }
}

/// The lines of the block that a line begins, none where it begins none, and those after it.
pub fn block_of<'a>(line: &Line<Action, NoHeading>, after: &'a [u8]) -> (&'a [u8], &'a [u8]) {
    match line {
        Line::Image(_, _) | Line::Source(_, _) | Line::Lines(_) => split_block(after),
        Line::Blank | Line::Action(_) => (b"", after),
    }
}

/// What the first line of a list is, which says how its events are done: a line `LIST` with a name, each by itself;
/// `AT ONCE` with a name, all by one call under EDF; `ALONE` with a name, all by one call of a region without EDF.
#[derive(Clone, Copy, PartialEq, Eq)]
enum Heading {
    Each,
    AtOnce,
    Alone,
}

/// The heading that a line is, if it is one.
fn heading_of(line: &[u8]) -> Option<Heading> {
    if line.starts_with(b"LIST ") {
        Some(Heading::Each)
    } else if line.starts_with(b"AT ONCE ") {
        Some(Heading::AtOnce)
    } else if line.starts_with(b"ALONE ") {
        Some(Heading::Alone)
    } else {
        None
    }
}

/// The heading of a list, and the lines after it. One that has none is one of events that are done each by itself.
fn split_heading(lines: &[u8]) -> (Heading, Option<&[u8]>, &[u8]) {
    match split_line(lines) {
        Some((line, after)) => match heading_of(line) {
            Some(heading) => (heading, Some(line), after),
            None => (Heading::Each, None, lines),
        },
        None => (Heading::Each, None, lines),
    }
}

/// Does a list's events, each by itself.
fn do_each<S: Store + Drop>(
    rt: &HostRuntime,
    region: Debugged<S, EdfDisplays>,
    lines: &[u8],
) -> io::Result<()> {
    let mut list = List::new(rt, region);
    list.all(rt, lines)
}

/// The lines of a list, and those after it, which begin with the next one's heading.
fn split_list(lines: &[u8]) -> (&[u8], &[u8]) {
    let mut rest = lines;
    for _ in 0..MOST {
        let Some((_, after)) = split_line(rest) else {
            break;
        };
        rest = after;
        if heading_of(rest).is_some() {
            let end = lines.len().saturating_sub(rest.len());
            return (lines.get(..end).unwrap_or(lines), rest);
        }
    }
    (lines, b"")
}

/// Does a list over pages.
fn do_over_pages(rt: &HostRuntime, heading: Heading, lines: &[u8]) -> io::Result<()> {
    match heading {
        Heading::Each => do_each(rt, begun_over_pages(rt.alloc())?, lines),
        Heading::AtOnce => do_at_once(rt, begun_over_pages(rt.alloc())?, lines),
        Heading::Alone => do_alone(rt, alone_over_pages(rt.alloc())?, lines),
    }
}

/// Does a list over the plain store.
fn do_over_areas(rt: &HostRuntime, heading: Heading, lines: &[u8]) -> io::Result<()> {
    match heading {
        Heading::Each => do_each(rt, begun_over_areas(rt.alloc())?, lines),
        Heading::AtOnce => do_at_once(rt, begun_over_areas(rt.alloc())?, lines),
        Heading::Alone => do_alone(rt, alone_over_areas(rt.alloc())?, lines),
    }
}

/// Does a list, which may have a heading, over the plain store or over pages.
fn do_list(rt: &HostRuntime, is_flat: bool, list: &[u8]) -> io::Result<()> {
    let (heading, line, lines) = split_heading(list);
    if let Some(line) = line {
        println!(rt; "{}", std::str::from_utf8(line).unwrap_or("LIST"))?;
    }
    if is_flat {
        do_over_areas(rt, heading, lines)
    } else {
        do_over_pages(rt, heading, lines)
    }
}

/// Does lists, one after the other: over the plain store where a line `FLAT` comes before them, else over pages.
pub fn do_lists(rt: &HostRuntime, input: &[u8]) -> io::Result<()> {
    let (is_flat, mut rest) = match input.strip_prefix(b"FLAT\n".as_slice()) {
        Some(lists) => (true, lists),
        None => (false, input),
    };
    for _ in 0..MOST {
        if rest.is_empty() {
            break;
        }
        let (list, after) = split_list(rest);
        do_list(rt, is_flat, list)?;
        rest = after;
    }
    Ok(())
}
