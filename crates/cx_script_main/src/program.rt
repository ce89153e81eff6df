//! What a program decides: what it runs, and its status.

ghost use Rattle.std.specs.Prelude.{◌≡◌, false, IfOk, None, OnErr, Err};
ghost use Rattle.cx_script_blocks.specs.Faults.{is_read, is_write};
ghost use Rattle.cx_script_blocks.specs.declared.faults.RunFault.TheVariants.{Memory};
ghost use Rattle.cx_script.specs.Session.{RanIn};
ghost use Rattle.cx_script_main.specs.Program.{RanFrom, program_status, told_run, unread_run};

use crate::keeping::Keeping;
use cx_base::List;
use cx_script::{DeviceFault, Performer, RunFault, ScriptDevices, Summary, run_script_on, status};
use std::alloc::{AllocError, Global};

/// The status where the words are refused.
const USAGE_STATUS: u8 = 2;

/// What a program is, beside the scripts that it runs.
#[derive(Clone, Copy)]
pub struct About<'a> {
    /// The line on standard error where its words are refused.
    pub usage: &'a str,
    /// The texts that a word asks for. Without them the words that do are refused, as other options are.
    pub texts: Option<Texts<'a>>,
    /// Whether the line of the script that a fault is of is reported after the fault's.
    pub shows_lines: bool,
}

/// What a program tells of itself.
#[derive(Clone, Copy)]
pub struct Texts<'a> {
    /// What `--help` asks for.
    pub help: &'a str,
    /// What `--version` asks for.
    pub version: &'a str,
}

/// Why a program's words are refused.
#[derive(Clone, Copy, PartialEq, Eq)]
pub enum Refusal {
    /// There is more than one word after the program's name, or the one word is an option, a hyphen with more after it,
    /// that asks for no text; or a word is no text.
    Usage,
    /// An allocation failed.
    Memory,
}

/// Runs the script that the devices have, on a performer that was to be made, with the faults of `run_script_on`. Where
/// there was no memory for the performer, Memory is answered, and the devices stay as they are. A read has failed
/// exactly where the answer is Read, and a write was refused exactly where it is Write. Neither device may have failed
/// before.
pub fn run_reader<P: Performer + Drop, D: ScriptDevices>(
    performer: Result<P, AllocError>,
    alloc: Global,
    devices: &mut D,
) -> Result<Summary, RunFault>
    requires input { D.ScriptIn.has_failed devices.old ≡ false }
    requires output { D.ScriptOut.has_failed devices.old ≡ false }
    ensures ran { IfOk performer (λ start.
        RanIn P.Action.language P.performs start D.reads D.writes devices.old result devices.new) }
    ensures unmade { OnErr performer ((result ≡ Err Memory) × (devices.new ≡ devices.old)) }
    ensures read { D.ScriptIn.has_failed devices.new ≡ is_read result }
    ensures write { D.ScriptOut.has_failed devices.new ≡ is_write result }
{
    run_script_on(performer, alloc, devices)
}

/// A run of a script that has ended.
#[derive(Drop)]
pub struct Run {
    /// How it ended.
    pub answer: Result<Summary, RunFault>,
    /// The bytes that the reads gave. None where they aren't kept, or memory for them was refused.
    pub read: Option<List<u8>>,
}

/// Runs a script from devices, of which what is read is kept where that is asked.
fn run_keeping<P: Performer + Drop, D: ScriptDevices + Drop>(
    performer: Result<P, AllocError>,
    alloc: Global,
    devices: D,
    keeps: bool,
) -> Run
    requires input { D.ScriptIn.has_failed devices ≡ false }
    requires output { D.ScriptOut.has_failed devices ≡ false }
    ensures ran { IfOk performer (λ start.
        RanFrom P.Action.language P.performs start D.reads D.writes devices result) }
    ensures unmade { OnErr performer (result.answer ≡ Err Memory) }
    ensures unkept { keeps ≡ false → result.read ≡ None }
{
    let mut devices = Keeping::new(alloc, devices, keeps);
    let answer = run_reader(performer, alloc, &mut devices);
    let read = devices.into_kept();
    Run { answer, read }
}

/// Runs the script of the devices that opening a file gave, as `run_reader` does; what is read of it is kept where
/// `keeps` says so. Where the file couldn't be opened, the answer is Read, and nothing is read or written. Neither
/// device may have failed before.
pub fn run_opened<P: Performer + Drop, D: ScriptDevices + Drop, E: Drop>(
    performer: Result<P, AllocError>,
    alloc: Global,
    opened: Result<D, E>,
    keeps: bool,
) -> Run
    requires input { IfOk opened (λ devices. D.ScriptIn.has_failed devices ≡ false) }
    requires output { IfOk opened (λ devices. D.ScriptOut.has_failed devices ≡ false) }
    ensures ran { IfOk opened (λ devices. IfOk performer (λ start.
        RanFrom P.Action.language P.performs start D.reads D.writes devices result)) }
    ensures unmade { IfOk opened (λ devices. OnErr performer (result.answer ≡ Err Memory)) }
    ensures unkept { IfOk opened (λ devices. keeps ≡ false → result.read ≡ None) }
    ensures unopened { OnErr opened (result ≡ unread_run) }
{
    match opened {
        Ok(devices) => run_keeping(performer, alloc, devices, keeps),
        Err(_) => Run {
            answer: Err(RunFault::Read),
            read: None,
        },
    }
}

/// A text was told, or couldn't be written: as a run that did no line.
pub(crate) fn told_run(told: Result<(), DeviceFault>) -> Run
    ensures { result ≡ told_run told }
{
    let answer = match told {
        Ok(()) => Ok(Summary { lines: 0 }),
        Err(_) => Err(RunFault::Write),
    };
    Run { answer, read: None }
}

/// A program's status: that of the run; 2 where its words are refused; 4 where memory ran out before a run.
pub fn program_status(outcome: &Result<Run, Refusal>) -> u8
    ensures { result ≡ program_status outcome.now }
{
    match outcome {
        Ok(run) => status(&run.answer),
        Err(Refusal::Usage) => USAGE_STATUS,
        Err(Refusal::Memory) => status(&Err(RunFault::Memory)),
    }
}
