//! The part `HOSTILE`: turns hostile programs in a region, and looks after each event whether the region is what it has
//! to be. The part's first line is the number of programs; each further line has the length of an example's working
//! storage and the hexadecimal digits of its text. A fifth of the programs have bytes of any values, a fifth rows of
//! the table of instructions with fields of any values, and a fifth are examples with one to three bytes changed; two
//! fifths are calls with drawn options and arguments, some of these with bytes changed too. Every second one is run
//! under EDF, and the same events, without EDF's own, beside it in a region without EDF.
//!
//! Each violation is printed, then how often each answer was given, and last how often those came that must. It is an
//! error if there was a violation, or if one of the last is 0.
//!
//! What the file stdout has of it is recorded from this program, since nothing else can say how often an answer comes
//! of what is drawn: it shows that each build draws and counts the same. What must hold doesn't rest on it, but is
//! looked at here.

use crate::alone::first_halt;
use crate::calls::of_calls;
use crate::counts::{Counts, DUE};
use crate::draws::Draws;
use crate::setup::{defined, image_of, other_image};
use crate::stop::Stop;
use crate::texts::{Subject, TURNS, all_rows, changed, of_rows, plain};
use crate::trial::Trial;
use cx_code::Op;
use cx_edf::Debugged;
use cx_load::CheckedImage;
use cx_script_io::split_line;
use std::alloc::{AllocError, Global};
use std::io;

/// What programs are made of.
#[derive(Drop)]
struct Material {
    rows: Vec<Op>,
    examples: Vec<Subject>,
}

/// An example of a line of the input; None where it isn't one.
fn example(alloc: Global, line: &str) -> Result<Option<Subject>, AllocError> {
    let Some((stg_len, digits)) = line.split_once(' ') else {
        return Ok(None);
    };
    let mut text = vec![in alloc; 0; digits.len() / 2]?;
    if hex::decode_to_slice(digits, text.as_mut_slice()).is_err() {
        return Ok(None);
    }
    Ok(Some(Subject {
        text,
        stg_len: stg_len.parse().unwrap_or(0),
        turns: TURNS,
    }))
}

/// The next program of a number.
fn subject(
    alloc: Global,
    draws: &mut Draws,
    material: &Material,
    number: u32,
) -> Result<Subject, AllocError> {
    let at = draws.below(65_536) as usize % material.examples.len().max(1);
    match (number % 5, material.examples.get(at)) {
        (0, Some(program)) => changed(alloc, draws, program),
        (1, _) => of_rows(alloc, draws, material.rows.as_slice()),
        (2, _) => plain(alloc, draws),
        _ => of_calls(alloc, draws, number),
    }
}

/// A program's image, how many turns it gets, and whether it is run under EDF.
#[derive(Drop)]
struct Case {
    image: CheckedImage,
    turns: u32,
    is_edf: bool,
}

/// What was met that must not be, after how many events, and what the last of them was answered: all in words.
#[derive(Drop)]
struct Finding {
    text: &'static str,
    events: u64,
    answer: (&'static str, &'static str),
}

const NO_ANSWER: (&str, &str) = ("nothing", "");

/// What ended a trial after `events` events.
fn reported_of(
    stop: Stop,
    events: u64,
    answer: (&'static str, &'static str),
) -> Result<Option<Finding>, AllocError> {
    match stop {
        Stop::Memory => Err(AllocError),
        Stop::Met(violation) => Ok(Some(Finding {
            text: violation.text(),
            events,
            answer,
        })),
    }
}

// What a function owns is dropped at each of its ends: one that owns a region or a trial has one end.

/// Runs the trial of a case, under EDF beside a region without it. What was met that must not be.
fn run_trial(
    alloc: Global,
    draws: &mut Draws,
    counts: &mut Counts,
    case: &Case,
    other: &CheckedImage,
    trial: &mut Trial,
) -> Result<Option<Finding>, Stop> {
    if case.is_edf {
        let alone = defined(alloc, other, &case.image)?;
        trial.compare_with(alone);
    }
    match trial.run(case.turns, draws, counts) {
        Ok(()) => Ok(None),
        Err(stop) => Ok(reported_of(stop, trial.events, trial.last_words())?),
    }
}

/// Makes the trial of a case, with the other program in its region, and runs it. What was met that must not be.
fn try_beside(
    alloc: Global,
    draws: &mut Draws,
    counts: &mut Counts,
    case: &Case,
    other: &CheckedImage,
) -> Result<Option<Finding>, Stop> {
    let region = defined(alloc, other, &case.image)?;
    let mut trial = Trial::new(Debugged::new(alloc, region));
    run_trial(alloc, draws, counts, case, other, &mut trial)
}

/// Makes the other program, and runs the trial of a case. What was met that must not be.
fn try_case(
    alloc: Global,
    draws: &mut Draws,
    counts: &mut Counts,
    case: &Case,
) -> Result<Option<Finding>, Stop> {
    let other = other_image(alloc)?;
    try_beside(alloc, draws, counts, case, &other)
}

/// Runs the trial of a case, and counts. What was met that must not be.
fn met(
    alloc: Global,
    draws: &mut Draws,
    counts: &mut Counts,
    case: &Case,
) -> Result<Option<Finding>, AllocError> {
    if let Some(halt) = first_halt(alloc, &case.image)? {
        counts.halt(halt)?;
    }
    match try_case(alloc, draws, counts, case) {
        Ok(finding) => Ok(finding),
        Err(stop) => reported_of(stop, 0, NO_ANSWER),
    }
}

/// Runs the program of a number. What was met that must not be.
fn run(
    alloc: Global,
    draws: &mut Draws,
    counts: &mut Counts,
    material: &Material,
    number: u32,
) -> Result<Option<Finding>, AllocError> {
    let program = subject(alloc, draws, material, number)?;
    let Some(image) = image_of(program.text, program.stg_len, alloc) else {
        return Ok(Some(Finding {
            text: "there is no image",
            events: 0,
            answer: NO_ANSWER,
        }));
    };
    let case = Case {
        image,
        turns: program.turns,
        is_edf: number % 2 == 0,
    };
    met(alloc, draws, counts, &case)
}

/// Runs `programs` programs, and prints what must not be met. Whether nothing was.
fn run_all(
    rt: &HostRuntime,
    counts: &mut Counts,
    material: &Material,
    programs: u32,
) -> io::Result<bool> {
    let mut draws = Draws::new();
    let mut is_well = true;
    for number in 0..programs {
        if let Some(finding) = run(rt.alloc(), &mut draws, counts, material, number)? {
            let (what, more) = finding.answer;
            println!(rt;
                "image {number}, event {}: {}, answered {what} {more}",
                finding.events, finding.text
            )?;
            is_well = false;
        }
    }
    Ok(is_well)
}

/// Takes a line: an example, or the number of programs, which is then answered.
fn take_line(
    alloc: Global,
    material: &mut Material,
    line: &str,
) -> Result<Option<u32>, AllocError> {
    match example(alloc, line)? {
        Some(program) => {
            material.examples.push(program)?;
            Ok(None)
        }
        None => Ok(Some(line.parse().unwrap_or(0))),
    }
}

/// Reads the number of programs, and the examples.
fn read(alloc: Global, material: &mut Material, text: &[u8]) -> Result<u32, AllocError> {
    let mut programs = 0;
    let mut rest = text;
    for _ in 0..text.len() {
        let Some((line, after)) = split_line(rest) else {
            break;
        };
        let line = std::str::from_utf8(line).unwrap_or("");
        if let Some(number) = take_line(alloc, material, line)? {
            programs = number;
        }
        rest = after;
    }
    Ok(programs)
}

/// Prints what was counted.
fn print(rt: &HostRuntime, counts: &Counts) -> io::Result<()> {
    for count in counts.counts.iter() {
        println!(rt; "{} {}: {}", count.what, count.more, count.times)?;
    }
    Ok(())
}

/// Prints how often each answer came that must. Whether all did.
fn print_due(rt: &HostRuntime, counts: &Counts) -> io::Result<bool> {
    let mut is_well = true;
    for answer in DUE {
        let times = counts.times(answer);
        println!(rt; "{answer} in all: {times}")?;
        is_well = is_well && times > 0;
    }
    Ok(is_well)
}

/// Turns the programs of a part, and prints what came of them.
pub fn turn_programs(rt: &HostRuntime, text: &[u8]) -> io::Result<()> {
    let mut material = Material {
        rows: all_rows(rt.alloc())?,
        examples: Vec::new(rt.alloc()),
    };
    let programs = read(rt.alloc(), &mut material, text)?;
    let mut counts = Counts::new(rt.alloc());
    let is_well = run_all(rt, &mut counts, &material, programs)?;
    println!(rt; "{programs} images")?;
    print(rt, &counts)?;
    if print_due(rt, &counts)? && is_well {
        return Ok(());
    }
    Err(io::Error::other("a violation, or an answer that must come didn't"))
}
