//! Answers as a transcript has them. Printing them takes no memory.

use cx_base::{shown_bytes, trim};
use cx_ebcdic::{Name4, Name8};
use cx_edf::{Answer, EdfEvent};
use cx_load::Loaded;
use cx_region::{DefineFault, Event, Reply, TurnReply};
use std::io;

/// Shown bytes as text, without the blanks at their end.
pub fn as_text(shown: &[u8]) -> &str {
    std::str::from_utf8(trim(shown)).unwrap_or("?")
}

/// Prints a word and a terminal's or a transaction's name.
fn print_name4(rt: &HostRuntime, word: &str, name: &Name4) -> io::Result<()> {
    let shown = shown_bytes(&name.bytes());
    print!(rt; "{word} {}", as_text(&shown))
}

fn print_program(rt: &HostRuntime, name: &Name8) -> io::Result<()> {
    let shown = shown_bytes(&name.bytes());
    print!(rt; "PROGRAM {}", as_text(&shown))
}

/// Prints what an event is, up to its answer.
fn print_event(rt: &HostRuntime, event: &EdfEvent) -> io::Result<()> {
    match event {
        EdfEvent::On(name) | EdfEvent::Off(name) => print_name4(rt, "EDF", name),
        EdfEvent::Plain(event) => print_plain(rt, event),
    }
}

/// Prints what an event of the region is, up to its answer.
fn print_plain(rt: &HostRuntime, event: &Event) -> io::Result<()> {
    match event {
        Event::Program(name, _) => print_program(rt, name),
        Event::Transaction(name, _) => print_name4(rt, "TRANSACTION", name),
        Event::Terminal(name) => print_name4(rt, "TERMINAL", name),
        Event::Clock(_, _) => print!(rt; "CLOCK"),
        Event::Key(name, _, _) => print_name4(rt, "KEY", name),
        Event::Turn(name) => print_name4(rt, "TURN", name),
        Event::Alter(name, _) => print_name4(rt, "ALTER", name),
    }
}

fn print_loaded(rt: &HostRuntime, answer: Result<Loaded, DefineFault>) -> io::Result<()> {
    match answer {
        Ok(loaded) => println!(rt; " AT {:06X} LENGTH {:06X}", loaded.at, loaded.len),
        Err(fault) => println!(rt; " REFUSED {}", fault.name()),
    }
}

fn print_defined(rt: &HostRuntime, answer: Result<(), DefineFault>) -> io::Result<()> {
    match answer {
        Ok(()) => println!(rt; " DEFINED"),
        Err(fault) => println!(rt; " REFUSED {}", fault.name()),
    }
}

fn print_turn(rt: &HostRuntime, reply: &TurnReply) -> io::Result<()> {
    match reply {
        TurnReply::Performed(condition) | TurnReply::TookLabel(condition) => {
            println!(rt; " {} {}", reply.name(), condition.name())
        }
        TurnReply::TookExit(code) | TurnReply::Abended(code) => {
            let shown = shown_bytes(&code.bytes());
            println!(rt; " {} {}", reply.name(), as_text(&shown))
        }
        _ => println!(rt; " {}", reply.name()),
    }
}

fn print_reply(rt: &HostRuntime, reply: Reply) -> io::Result<()> {
    match reply {
        Reply::Program(answer) => print_loaded(rt, answer),
        Reply::Transaction(answer) => print_defined(rt, answer),
        Reply::Terminal(answer) => print_defined(rt, answer),
        Reply::Clock => println!(rt; " SET"),
        Reply::Key(answer) => println!(rt; " {}", answer.name()),
        Reply::Turn(answer) => print_turn(rt, &answer),
        Reply::Alter(answer) => println!(rt; " {}", answer.name()),
    }
}

/// Prints an event's answer, as a transcript has it.
pub fn print_answer(rt: &HostRuntime, event: &EdfEvent, answer: Answer) -> io::Result<()> {
    print_event(rt, event)?;
    match answer {
        Answer::Region(reply) => print_reply(rt, reply),
        Answer::ToEdf => println!(rt; " ToEdf"),
        Answer::Held => println!(rt; " Held"),
        Answer::NotStopped => println!(rt; " NotStopped"),
        Answer::Edf(reply) => println!(rt; " {}", reply.name()),
    }
}

/// Prints the reply to an event of a region without EDF, as a transcript has it.
pub fn print_answer_of(rt: &HostRuntime, event: &Event, reply: Reply) -> io::Result<()> {
    print_plain(rt, event)?;
    print_reply(rt, reply)
}

/// Prints how many displays are kept of a terminal.
pub fn print_kept(rt: &HostRuntime, name: Name4, count: usize) -> io::Result<()> {
    print_name4(rt, "KEPT", &name)?;
    println!(rt; " {count}")
}

/// Prints the line of a program whose image is refused before its definition.
pub fn print_refused(rt: &HostRuntime, name: Name8, fault: &str) -> io::Result<()> {
    print_program(rt, &name)?;
    println!(rt; " REFUSED {fault}")
}
