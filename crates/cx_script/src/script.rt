//! A script from its reader to its transcript.

ghost use Rattle.std.specs.Prelude.{◌≡◌, ◌⊎◌, Err, IfOk, OnErr, false};
ghost use Rattle.cx_script_actions.specs.Effects.{Performs, fresh_state};
ghost use Rattle.cx_script_actions.specs.Language.{edf_language};
ghost use Rattle.cx_script.specs.Session.{RanIn};
ghost use Rattle.cx_script_blocks.specs.declared.faults.RunFault.TheVariants.{Memory};
ghost use Rattle.cx_script_blocks.specs.Faults.{is_read, is_write};

use crate::run::ScriptRun;
use cx_edf::{Debugged, MakesDisplays};
use cx_region::Region;
use cx_script_actions::Performer;
use cx_script_blocks::{RunFault, Summary};
use cx_script_io::ScriptDevices;
use cx_storage_pages::{KeepingStore, PagedStore};
use std::alloc::{AllocError, Global};

/// What a script of `cicsedf` is performed on: a region under EDF. `M` makes its displays.
pub type EdfPerformer<M> = Debugged<KeepingStore<PagedStore>, M>;

/// The performer of a script of `cicsedf` at its beginning: a fresh region, with EDF Off at each terminal.
///
/// An error comes only where an allocation failed.
pub fn edf_performer<M: MakesDisplays>(alloc: Global) -> Result<EdfPerformer<M>, AllocError>
    ensures { IfOk result (λ performer. performer ≡ fresh_state) }
{
    let region = Region::new(alloc, KeepingStore::new(PagedStore::new(alloc)))?;
    Ok(Debugged::new(alloc, region))
}

/// Runs a script: does what its lines ask, in order, on a performer that was to be made, and writes the transcript. It
/// is read in pieces of at most 4,096 bytes. The lines that are complete in a piece are done, and their texts written,
/// before more is read and before a fault is answered; at most 16,384 bytes of texts wait to be written in one. Of the
/// script the unfinished line or block alone is held.
///
/// Neither device may have failed. The fault that comes first in the script is answered, and everything in front of it
/// is done and written: BadLine with the line's number; Read where a read failed, and ReadBound where the script has
/// more than 16,777,216 bytes, after the complete lines; BadLook with the number of the first bad look, at the end of a
/// script without another fault. Write comes where a write failed or took no byte: what was written is then a front of
/// a transcript. Memory comes only where an allocation failed, before anything was read or at a line that isn't a bad
/// one: the lines in front of it have no fault, are done, and their transcript is written. A line may ask several
/// actions: then those in front of the one without memory are done, and their texts are written.
///
/// What a run did is known whatever its devices are: the list of its calls, in time, each with the bytes that a read
/// gave or a write took. The contract says which lists these may be, and that they took the devices from the one state
/// to the other; nothing but a call gives what a call did. The script is the bytes that the reads gave. What a file
/// held isn't said. No more is read after a read that gave no byte, or failed, or past 16,777,216 bytes. A source's
/// block gives what its three stages give (`cx_asm_build::prepare`), or its first fault by the script's line.
pub fn run_script_on<P: Performer + Drop, D: ScriptDevices>(
    performer: Result<P, AllocError>,
    alloc: Global,
    devices: &mut D,
) -> Result<Summary, RunFault>
    requires reader { D.ScriptIn.has_failed devices.old ≡ false }
    requires writer { D.ScriptOut.has_failed devices.old ≡ false }
    ensures ran { IfOk performer (λ start.
        RanIn P.Action.language P.performs start D.reads D.writes devices.old result devices.new) }
    ensures unmade { OnErr performer ((result ≡ Err Memory) × (devices.new ≡ devices.old)) }
    ensures read { D.ScriptIn.has_failed devices.new ≡ is_read result }
    ensures write { D.ScriptOut.has_failed devices.new ≡ is_write result }
{
    let Ok(performer) = performer else {
        return Err(RunFault::Memory);
    };
    ScriptRun::new(performer).run(alloc, devices)
}

/// Runs a script of `cicsedf` on a fresh region, as `run_script_on` does. Where there is no memory for that region,
/// Memory is answered and nothing is read or written. Neither device may have failed.
pub fn run_script<M: MakesDisplays, D: ScriptDevices>(
    alloc: Global,
    devices: &mut D,
) -> Result<Summary, RunFault>
    requires reader { D.ScriptIn.has_failed devices.old ≡ false }
    requires writer { D.ScriptOut.has_failed devices.old ≡ false }
    ensures ran { RanIn edf_language (Performs M.make) fresh_state D.reads D.writes devices.old result devices.new
        ⊎ ((result ≡ Err Memory) × (devices.new ≡ devices.old)) }
    ensures read { D.ScriptIn.has_failed devices.new ≡ is_read result }
    ensures write { D.ScriptOut.has_failed devices.new ≡ is_write result }
{
    run_script_on(edf_performer::<M>(alloc), alloc, devices)
}
