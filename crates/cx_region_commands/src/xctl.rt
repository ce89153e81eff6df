//! XCTL.
ghost use Rattle.std.specs.Prelude.{◌≡◌, ◌<◌, ◌≤◌, ◌+◌, ◌^◌, ℕ, Some, option_map};
ghost use Rattle.cx_region_state.specs.Areas.{IsSoundProgram, IsTaskPlace, first_of_tasks, with_copy_area};
ghost use Rattle.cx_region_commands.specs.Common.{AreSoundPrograms, AtPlace};
ghost use Rattle.cx_region_commands.specs.Xctl.{Copies, Transfers, XctlRow, XctlTo, replaces};

use crate::common::{
    Called, commarea_of, condition_alone, does, named_program, new_level, task_place,
};
use cx_base::{Abend, Condition, OptionName};
use cx_ebcdic::Name8;
use cx_load::Loaded;
use cx_region_state::{CallInputs, Copying, LAST_OF_TASKS, StorageSpan, TaskChange, Verdict};
use cx_storage::Store;
use indexmap::IndexMap;

/// Where the program finds the copy.
fn copied_piece(copying: Option<Copying>) -> Option<StorageSpan>
    ensures { result ≡ option_map (λ copying. record { place = copying.to; len = copying.from.len }) copying }
{
    let copying = copying?;
    Some(StorageSpan {
        place: copying.to,
        len: copying.from.len,
    })
}

/// By the place of DFHEISTG.
fn replaces(called: Called, copying: Option<Copying>, stg: Option<u32>) -> Verdict
    ensures { result ≡ replaces called copying stg }
{
    let Some(stg) = stg else {
        return Verdict::Refuses(Abend::Xstg);
    };
    let level = new_level(called, copied_piece(copying), stg);
    does(TaskChange::Replaces(copying, level))
}

/// The least place in task storage for `len` bytes, once the copy is made. Where the least one without it would meet
/// the copy, every place below does too.
#[tactic(auto, using(crate::proofs::PlaceLemmas::none_beside, crate::proofs::PlaceLemmas::below_copy, crate::proofs::PlaceLemmas::above_copy, crate::proofs::PlaceLemmas::after_copy))]
fn place_beside<S: Store>(store: &S, copying: Copying, len: u32) -> Option<u32>
    requires nonempty { 0 < len }
    requires low { first_of_tasks ≤ copying.to }
    requires high { copying.to + copying.from.len ≤ 2 ^ 24 }
    ensures { (slot : ℕ) → IsTaskPlace (with_copy_area (S.storage store.now) slot (Some copying)) len result }
{
    let Some(place) = task_place(store, len) else {
        return None;
    };
    let end = copying.to + u32::from(copying.from.len);
    if place + len <= copying.to {
        return Some(place);
    }
    if end <= place {
        return Some(place);
    }
    store.place(end, LAST_OF_TASKS, len)
}

/// An XCTL with a COMMAREA that has bytes.
fn copy_to<S: Store>(store: &S, called: Called, piece: StorageSpan) -> Verdict
    requires sound { IsSoundProgram called.loaded }
    requires nonempty { 0 < piece.len }
    ensures { (slot : ℕ) → Copies (S.storage store.now) slot called piece result }
{
    let Some(to) = task_place(store, u32::from(piece.len)) else {
        return Verdict::Refuses(Abend::Xstg);
    };
    let copying = Copying { from: piece, to };
    let stg = place_beside(store, copying, called.loaded.stg_len);
    replaces(called, Some(copying), stg)
}

/// An XCTL to a program that there is.
#[tactic(auto, unfolding(crate::specs::Xctl::XctlTo, cx_region_state::specs::Areas::with_copy_area))]
fn xctl_to<S: Store>(inputs: &CallInputs<S>, called: Called) -> Verdict
    requires sound { IsSoundProgram called.loaded }
    ensures { (slot : ℕ) → XctlTo inputs.now.storage slot inputs.now.call called result }
{
    let store = inputs.store();
    match commarea_of(inputs) {
        Some(piece) => copy_to(store, called, piece),
        None => {
            let stg = task_place(store, called.loaded.stg_len);
            replaces(called, None, stg)
        }
    }
}

/// How an XCTL is judged: LENGERR where LENGTH is negative; then PGMIDERR where there is no such program; then the
/// abend XSTG where there is no place for the copy of the COMMAREA, or then for DFHEISTG, both with the old DFHEISTG
/// still there; else it meets NORMAL, and a level of the program begins in place of the current one.
///
/// Application Programmer's Reference Manual, SC33-0077, "Program Control".
#[tactic(auto, unfolding(crate::specs::Xctl::XctlRow))]
pub(crate) fn judge_xctl<S: Store>(
    inputs: &CallInputs<S>,
    programs: &IndexMap<Name8, Loaded>,
) -> Verdict
    requires programs { AreSoundPrograms programs.now.entries }
    ensures { (slot : ℕ) → XctlRow inputs.now.storage slot programs.now.entries inputs.now.call result }
{
    if inputs.is_length_negative() {
        return condition_alone(Condition::Lengerr);
    }
    match named_program(inputs, programs) {
        Some(called) => xctl_to(inputs, called),
        None => condition_alone(Condition::Pgmiderr),
    }
}
