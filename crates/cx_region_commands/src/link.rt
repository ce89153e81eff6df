//! LINK.
ghost use Rattle.std.specs.Prelude.{◌≡◌};
ghost use Rattle.cx_region_state.specs.Areas.{IsSoundProgram};
ghost use Rattle.cx_region_commands.specs.Common.{AreSoundPrograms, AtPlace};
ghost use Rattle.cx_region_commands.specs.Link.{LinkRow, Links, enters};

use crate::common::{
    Called, commarea_of, condition_alone, does, named_program, new_level, task_place,
};
use cx_base::{Abend, Condition, OptionName};
use cx_ebcdic::Name8;
use cx_load::Loaded;
use cx_program::LevelStack;
use cx_region_state::{CallInputs, StorageSpan, TaskChange, Verdict};
use cx_storage::Store;
use indexmap::IndexMap;

/// By the place of DFHEISTG.
fn enters(called: Called, commarea: Option<StorageSpan>, stg: Option<u32>) -> Verdict
    ensures { result ≡ enters called commarea stg }
{
    match stg {
        Some(stg) => does(TaskChange::Enters(new_level(called, commarea, stg))),
        None => Verdict::Refuses(Abend::Xstg),
    }
}

/// A LINK to a program that there is.
#[tactic(auto, unfolding(crate::specs::Link::Links))]
fn link_to<S: Store>(inputs: &CallInputs<S>, levels: &LevelStack, called: Called) -> Verdict
    requires sound { IsSoundProgram called.loaded }
    ensures { Links inputs.now.storage inputs.now.call levels.now called result }
{
    if levels.len() >= 16 {
        return Verdict::Refuses(Abend::Xlvl);
    }
    let commarea = commarea_of(inputs);
    let stg = task_place(inputs.store(), called.loaded.stg_len);
    enters(called, commarea, stg)
}

/// How a LINK is judged: LENGERR where LENGTH is negative; then PGMIDERR where there is no such program; then the
/// abends XLVL where the task has sixteen levels, and XSTG where there is no place for DFHEISTG; else it meets NORMAL,
/// and a level of the program begins, with the COMMAREA where it is.
///
/// Application Programmer's Reference Manual, SC33-0077, "Program Control".
#[tactic(auto, unfolding(crate::specs::Link::LinkRow))]
pub(crate) fn judge_link<S: Store>(
    inputs: &CallInputs<S>,
    programs: &IndexMap<Name8, Loaded>,
    levels: &LevelStack,
) -> Verdict
    requires programs { AreSoundPrograms programs.now.entries }
    ensures { LinkRow inputs.now.storage programs.now.entries levels.now inputs.now.call result }
{
    if inputs.is_length_negative() {
        return condition_alone(Condition::Lengerr);
    }
    match named_program(inputs, programs) {
        Some(called) => link_to(inputs, levels, called),
        None => condition_alone(Condition::Pgmiderr),
    }
}
