//! Starting a program `NAME [FILE]`: it runs a script from a file or from standard input, and writes its transcript.

ghost use Rattle.std.specs.Prelude.{map, string_bytes};
ghost use Rattle.std.specs.Option.{option_map};
ghost use Rattle.std.specs.Result.{result_err};
ghost use Rattle.std.specs.Process.{exit_status};
ghost use Rattle.cx_script_blocks.specs.Faults.{fault_line};
ghost use Rattle.cx_script_main.specs.Start.{Answers, Obeys, ObeysWords, ReportsLine, RunsFile, RunsInput, RunsOnDevices, RunsScript, ProgramStarts, TellsText, line_report_of, outcome_line};
ghost use Rattle.cx_script_main.specs.Words.{file_of, text_of};

use crate::arguments::{file_in, text_in};
use crate::host::Host;
use crate::program::{About, Refusal, Run, program_status, run_opened, told_run};
use crate::shown::ShownLine;
use cx_script::{DeviceFault, Performer, RunFault, Summary};
use std::alloc::{AllocError, Global};
use std::process::ExitCode;

/// Runs the script of a file.
fn run_file<P: Performer + Drop, H: Host>(
    host: &mut H,
    alloc: Global,
    performer: Result<P, AllocError>,
    keeps: bool,
    path: &str,
) -> Run
    ensures { let runs = RunsOnDevices P.Action.language P.performs performer keeps H.File.reads H.File.writes in
        RunsFile H.opens runs host.old path.now result host.new }
{
    let opened = host.open(path);
    run_opened(performer, alloc, opened, keeps)
}

/// Runs the script of standard input.
fn run_input<P: Performer + Drop, H: Host>(
    host: &mut H,
    alloc: Global,
    performer: Result<P, AllocError>,
    keeps: bool,
) -> Run
    ensures { let runs = RunsOnDevices P.Action.language P.performs performer keeps H.Input.reads H.Input.writes in
        RunsInput H.takes_input runs host.old result host.new }
{
    let input = host.input();
    run_opened(performer, alloc, Ok::<_, DeviceFault>(input), keeps)
}

/// Runs the script of the file that is named, or that of standard input.
fn run<P: Performer + Drop, H: Host>(
    host: &mut H,
    alloc: Global,
    performer: Result<P, AllocError>,
    keeps: bool,
    file: Option<&str>,
) -> Run
    ensures { let runs_file = RunsOnDevices P.Action.language P.performs performer keeps H.File.reads H.File.writes in
        let runs_input = RunsOnDevices P.Action.language P.performs performer keeps H.Input.reads H.Input.writes in
        let path = option_map (λ it. it.now) file.entry in
        RunsScript H.opens runs_file H.takes_input runs_input host.old path result host.new }
{
    match file {
        Some(path) => run_file(host, alloc, performer, keeps, path),
        None => run_input(host, alloc, performer, keeps),
    }
}

/// Tells a text.
fn tell<H: Host>(host: &mut H, text: &str) -> Run
    ensures { TellsText H.tells host.old text.now result host.new }
{
    let told = host.tell(text);
    told_run(told)
}

/// Runs the script that the words name, where they name one.
fn obey<P: Performer + Drop, H: Host>(
    host: &mut H,
    alloc: Global,
    performer: Result<P, AllocError>,
    keeps: bool,
    words: &[String],
) -> Result<Run, Refusal>
    ensures { let runs_file = RunsOnDevices P.Action.language P.performs performer keeps H.File.reads H.File.writes in
        let runs_input = RunsOnDevices P.Action.language P.performs performer keeps H.Input.reads H.Input.writes in
        let runs = RunsScript H.opens runs_file H.takes_input runs_input in
        Obeys runs (file_of (map string_bytes words.now)) host.old result host.new }
{
    let file = file_in(alloc, words)?;
    Ok(run(host, alloc, performer, keeps, file))
}

/// Tells the text that the words ask for, or runs the script that they name.
#[tactic(auto, using(crate::proofs::StartLemmas::answers_text, crate::proofs::StartLemmas::answers_script))]
fn answer<P: Performer + Drop, H: Host>(
    host: &mut H,
    alloc: Global,
    performer: Result<P, AllocError>,
    about: About,
    words: &[String],
) -> Result<Run, Refusal>
    ensures { let keeps = about.entry.shows_lines in
        let runs_file = RunsOnDevices P.Action.language P.performs performer keeps H.File.reads H.File.writes in
        let runs_input = RunsOnDevices P.Action.language P.performs performer keeps H.Input.reads H.Input.writes in
        let runs = RunsScript H.opens runs_file H.takes_input runs_input in
        let given = map string_bytes words.now in
        Answers (TellsText H.tells) runs (text_of about.entry.texts given) (file_of given) host.old result host.new }
{
    match text_in(words, about.texts) {
        Some(text) => Ok(tell(host, text)),
        None => obey(host, alloc, performer, about.shows_lines, words),
    }
}

/// Does what the words ask.
fn outcome_of<P: Performer + Drop, H: Host>(
    host: &mut H,
    alloc: Global,
    performer: Result<P, AllocError>,
    about: About,
) -> Result<Run, Refusal>
    ensures { let keeps = about.entry.shows_lines in
        let runs_file = RunsOnDevices P.Action.language P.performs performer keeps H.File.reads H.File.writes in
        let runs_input = RunsOnDevices P.Action.language P.performs performer keeps H.Input.reads H.Input.writes in
        let runs = RunsScript H.opens runs_file H.takes_input runs_input in
        ObeysWords H.gives_words (TellsText H.tells) runs about.entry.texts host.old result host.new }
{
    let words = host.words()?;
    let run = answer(host, alloc, performer, about, &words)?;
    Ok(run)
}

/// Reports the fault of a run on standard error.
fn report_fault<H: Host>(host: &mut H, answer: Result<Summary, RunFault>)
    ensures { ReportsLine H.reports host.old (option_map fault_line (result_err answer)) host.new }
{
    match answer {
        Ok(_) => {}
        Err(fault) => host.report(fault),
    }
}

/// Reports a fault, or why the words are refused, on standard error.
fn report<H: Host>(host: &mut H, usage: &str, outcome: &Result<Run, Refusal>)
    ensures { ReportsLine H.reports host.old (outcome_line usage.now outcome.now) host.new }
{
    match outcome {
        Ok(run) => report_fault(host, run.answer),
        Err(Refusal::Usage) => host.report(usage),
        Err(Refusal::Memory) => host.report(RunFault::Memory),
    }
}

/// Reports the line of the script that a fault is of, where what was read is kept.
fn report_line<H: Host>(host: &mut H, outcome: &Result<Run, Refusal>)
    ensures { ReportsLine H.reports host.old (line_report_of outcome.now) host.new }
{
    let Ok(run) = outcome else {
        return;
    };
    match run.faulty_line() {
        Some(line) => host.report(ShownLine { line }),
        None => {}
    }
}

/// Does what the words of a host ask, on a performer that was to be made: tells the text that they ask for, or runs the
/// script of the file that they name, or that of standard input. Gives the status: 0, or that of the run's fault; 2
/// where the words are refused, 4 where memory ran out. The fault's line is reported on standard error, or the usage
/// where the words are refused. Where the program shows lines, what is read is kept, and the line of the script that a
/// fault is of is reported after the fault's; it isn't only where memory for what is kept was refused.
///
/// The words are asked for first. After the program's name there is at most one: a file, that is no option, or a word
/// that asks for a text. Any others are refused, and these never. `--help` or `-h` alone asks for the one text of a
/// program that has texts, `--version` or `-V` for the other: it is written on standard output, nothing is opened or
/// run, and the status is 0, or 3 where it couldn't be written. The file that is named is opened, and no other; none
/// where the words are refused.
pub fn start<P: Performer + Drop, H: Host>(
    host: &mut H,
    alloc: Global,
    performer: Result<P, AllocError>,
    about: About,
) -> ExitCode
    ensures { let runs_file = RunsOnDevices P.Action.language P.performs performer about.entry.shows_lines
        H.File.reads H.File.writes in
        let runs_input = RunsOnDevices P.Action.language P.performs performer about.entry.shows_lines
        H.Input.reads H.Input.writes in
        let runs = RunsScript H.opens runs_file H.takes_input runs_input in
        ProgramStarts H.gives_words (TellsText H.tells) runs H.reports about.entry host.old (exit_status result) host.new }
{
    let outcome = outcome_of(host, alloc, performer, about);
    report(host, about.usage, &outcome);
    report_line(host, &outcome);
    ExitCode::from(program_status(&outcome))
}
