//! What the rows have in common.
ghost use Rattle.std.specs.Prelude.{◌≡◌, ◌<◌, ◌≤◌, ◌+◌, ◌^◌, IfSome};
ghost use Rattle.cx_region_state.specs.Areas.{IsSoundProgram, IsTaskPlace, first_of_tasks};
ghost use Rattle.cx_region_commands.specs.Common.{AreSoundPrograms, commarea_of, does, name_at, named_program, new_level, condition_alone, piece_at, place_at, program_named};

use cx_base::{Condition, OptionName};
use cx_ebcdic::Name8;
use cx_load::Loaded;
use cx_region_state::{
    Call, CallInputs, FIRST_OF_TASKS, LAST_OF_TASKS, NewLevel, Outputs, StorageSpan, TaskChange,
    Verdict, name8,
};
use cx_storage::Store;
use indexmap::IndexMap;

/// The address at an argument that the command always has; 0 where it isn't there.
#[tactic(auto, unfolding(crate::specs::Common::place_at))]
pub(crate) fn place_at(call: &Call, option: OptionName) -> u32
    ensures value { result ≡ place_at call.now option }
    ensures address { result < 2 ^ 24 }
{
    call.place(option).unwrap_or(0)
}

/// The name at an argument that the command always has; zeros where it isn't there.
#[tactic(auto, unfolding(crate::specs::Common::name_at))]
pub(crate) fn name_at<S: Store>(inputs: &CallInputs<S>, option: OptionName) -> Name8
    ensures { result ≡ name_at inputs.now.storage inputs.now.call option }
{
    name8(inputs.store(), inputs.call(), option).unwrap_or(Name8::from_bytes([0; 8]))
}

/// The bytes that LENGTH measures at an argument that the command always has; none where it isn't there.
#[tactic(auto, unfolding(crate::specs::Common::piece_at))]
pub(crate) fn piece_at<S: Store>(inputs: &CallInputs<S>, option: OptionName) -> StorageSpan
    ensures { result ≡ piece_at inputs.now.storage inputs.now.call option }
{
    inputs
        .piece(option)
        .unwrap_or(StorageSpan { place: 0, len: 0 })
}

/// A condition alone: no output, no change.
pub(crate) fn condition_alone(condition: Condition) -> Verdict
    ensures { result ≡ condition_alone condition }
{
    Verdict::Meets(condition, Outputs::none(), TaskChange::Nothing)
}

/// NORMAL, with a change and no output.
pub(crate) fn does(change: TaskChange) -> Verdict
    ensures { result ≡ does change }
{
    Verdict::Meets(Condition::Normal, Outputs::none(), change)
}

/// The least place in task storage for `len` bytes.
#[tactic(auto, using(crate::proofs::PlaceLemmas::place_within))]
pub(crate) fn task_place<S: Store>(store: &S, len: u32) -> Option<u32>
    requires { 0 < len }
    ensures least { IsTaskPlace (S.storage store.now) len result }
    ensures within { IfSome result (λ place. (first_of_tasks ≤ place) × (place + len ≤ 2 ^ 24)) }
{
    store.place(FIRST_OF_TASKS, LAST_OF_TASKS, len)
}

/// A program: its name, and where it is.
#[derive(Clone, Copy)]
pub struct Called {
    pub name: Name8,
    pub loaded: Loaded,
}

/// Where the program of a name is.
#[tactic(auto, unfolding(crate::specs::Common::program_named))]
fn program_named(programs: &IndexMap<Name8, Loaded>, name: Name8) -> Option<Loaded>
    ensures { result ≡ program_named programs.now.entries name }
{
    programs.get(&name).copied()
}

/// The program that PROGRAM names, where there is one.
#[tactic(auto, using(crate::specs::Facts::Programs::program_sound), unfolding(crate::specs::Common::named_program))]
pub(crate) fn named_program<S: Store>(
    inputs: &CallInputs<S>,
    programs: &IndexMap<Name8, Loaded>,
) -> Option<Called>
    requires { AreSoundPrograms programs.now.entries }
    ensures value { result ≡ named_program inputs.now.storage inputs.now.call programs.now.entries }
    ensures sound { IfSome result (λ called. IsSoundProgram called.loaded) }
{
    let name = name_at(inputs, OptionName::Program);
    let loaded = program_named(programs, name)?;
    Some(Called { name, loaded })
}

/// A level of the program that begins, with DFHEISTG at this place.
pub(crate) fn new_level(called: Called, commarea: Option<StorageSpan>, stg: u32) -> NewLevel
    ensures { result ≡ new_level called commarea stg }
{
    NewLevel {
        program: called.name,
        loaded: called.loaded,
        commarea,
        stg,
    }
}

/// The COMMAREA that a call passes on, where it has bytes.
#[tactic(auto, unfolding(crate::specs::Common::commarea_of))]
pub(crate) fn commarea_of<S: Store>(inputs: &CallInputs<S>) -> Option<StorageSpan>
    ensures value { result ≡ commarea_of inputs.now.storage inputs.now.call }
    ensures nonempty { IfSome result (λ piece. 0 < piece.len) }
{
    let piece = inputs.piece(OptionName::Commarea)?;
    if piece.len == 0 {
        return None;
    }
    Some(piece)
}
