//! Areas of a task, and the level that begins in one.
ghost use Rattle.std.specs.Prelude.{◌≡◌, ◌<◌, ◌≤◌, ◌^◌, length, IfOk, OnOk, OnErr, MatchOption, None, Some, ⊤};
ghost use Rattle.std.specs.Option.{option_map_or};
ghost use Rattle.cx_region_task.specs.Parts.Making.{without_copy};
ghost use Rattle.cx_storage.specs.Storage.{with_area};
ghost use Rattle.cx_region_state.specs.Areas.{IsSoundProgram, IsTaskPlace, entry_level, entry_registers, length_or_zero, registers_of, system_owner, with_cap, with_copy_area, with_filled, with_stg_area};
ghost use Rattle.cx_region_state.specs.Parts.Fits.{FitsCopy, FitsLevel};

use cx_base::EistgField;
use cx_program::{ConditionCode, HandleTable, Level};
use cx_region_state::{Copying, FIRST_OF_TASKS, LAST_OF_TASKS, NewLevel, StorageSpan};
use cx_storage::laws::store_is_sound;
use cx_storage::{Kind, Owner, Store, address_after};
use std::alloc::AllocError;

/// The owner of a task's areas but those that a command got for its program: its terminal's slot, counted from 1, and
/// `Kind::System`.
pub fn system_owner(slot: u8) -> Owner
    ensures { result ≡ system_owner slot }
{
    Owner {
        slot,
        kind: Kind::System,
    }
}

/// Makes an area of `len` zeros (at least 1) at `place`, which is the least place for them in the range of task
/// storage.
///
/// An error comes only where an allocation failed; then all is as before.
#[tactic(auto, using(cx_storage::specs::Facts::Places::place_decides))]
pub fn get_at<S: Store>(store: &mut S, place: u32, len: u32, owner: Owner) -> Result<(), AllocError>
    requires nonempty { 0 < len }
    requires least { IsTaskPlace (S.storage store.old) len (Some place) }
    ensures ok { OnOk result (S.storage store.new ≡ with_area (S.storage store.old) (Some place) len owner) }
    ensures err { OnErr result (S.storage store.new ≡ S.storage store.old) }
{
    store.get_area(FIRST_OF_TASKS, LAST_OF_TASKS, len, owner)?;
    Ok(())
}

/// Makes an area of `len` zeros (at least 1) at `place`, which is the least place for them in the range of task
/// storage, and writes these bytes (at most 65,536) from its start on; none of them where one has no address in an
/// area.
///
/// An error comes only where an allocation failed; then all is as before.
#[tactic(auto, using(cx_region_state::specs::Facts::Areas::place_below), unfolding(cx_region_state::specs::Areas::with_filled))]
pub fn get_filled<S: Store>(
    store: &mut S,
    place: u32,
    len: u32,
    owner: Owner,
    bytes: &[u8],
) -> Result<(), AllocError>
    requires nonempty { 0 < len }
    requires least { IsTaskPlace (S.storage store.old) len (Some place) }
    requires at_most_65536 { length bytes.now ≤ 65536 }
    ensures ok { OnOk result (S.storage store.new ≡ with_filled (S.storage store.old) place len owner bytes.now) }
    ensures err { OnErr result (S.storage store.new ≡ S.storage store.old) }
{
    get_at(store, place, len, owner)?;
    store.write(place, bytes);
    Ok(())
}

/// The address of a COMMAREA, or zero without one.
fn address_or_zero(commarea: Option<StorageSpan>) -> u32
    ensures { result ≡ option_map_or (λ piece. piece.place) commarea 0 }
{
    match commarea {
        Some(piece) => piece.place,
        None => 0,
    }
}

/// Its length, or zero without one.
pub(crate) fn length_or_zero(commarea: Option<StorageSpan>) -> u16
    ensures { result ≡ length_or_zero commarea }
{
    match commarea {
        Some(piece) => piece.len,
        None => 0,
    }
}

/// Writes the COMMAREA's address into DFHEICAP of a level that begins, 0 where it has none. Where a byte of that word
/// is in no area nothing is written.
#[tactic(auto, unfolding(cx_region_state::specs::Areas::with_cap))]
pub fn put_cap<S: Store>(store: &mut S, level: &NewLevel)
    ensures { S.storage store.new ≡ with_cap (S.storage store.old) level.now }
{
    let address = address_or_zero(level.commarea);
    store.write(
        address_after(level.stg, EistgField::Eicap.offset()),
        &address.to_be_bytes(),
    );
}

/// Makes the area of zeros of the DFHEISTG of a level that begins, at the place that the level says: the least for as
/// many bytes as its program asks for, 80 to 65,520.
///
/// An error comes only where an allocation failed; then all is as before.
pub fn get_stg<S: Store>(store: &mut S, slot: u8, level: &NewLevel) -> Result<(), AllocError>
    requires program { IsSoundProgram level.now.loaded }
    requires place { IsTaskPlace (S.storage store.old) level.now.loaded.stg_len (Some level.now.stg) }
    ensures ok { OnOk result (S.storage store.new ≡ with_stg_area (S.storage store.old) slot level.now) }
    ensures err { OnErr result (S.storage store.new ≡ S.storage store.old) }
{
    get_at(store, level.stg, level.loaded.stg_len, system_owner(slot))?;
    Ok(())
}

/// The most bytes of a piece.
pub(crate) const MOST_BYTES: usize = 32_767;

/// Makes the area of a COMMAREA's copy, where one is asked for.
///
/// An error comes only where an allocation failed; then all is as before.
#[tactic(auto, unfolding(cx_region_state::specs::Areas::with_copy_area))]
fn get_copy<S: Store>(store: &mut S, slot: u8, copying: Option<Copying>) -> Result<(), AllocError>
    requires { FitsCopy copying (S.storage store.old) }
    ensures ok { OnOk result (S.storage store.new ≡ with_copy_area (S.storage store.old) slot copying) }
    ensures err { OnErr result (S.storage store.new ≡ S.storage store.old) }
{
    let Some(copying) = copying else {
        return Ok(());
    };
    get_at(
        store,
        copying.to,
        u32::from(copying.from.len),
        system_owner(slot),
    )?;
    Ok(())
}

/// Gives the area of a copy back, where one was made.
#[tactic(auto, using(cx_region_state::specs::Facts::Areas::given_back, cx_region_state::specs::Facts::Areas::place_below), unfolding(cx_region_state::specs::Areas::with_copy_area))]
fn give_back<S: Store>(store: &mut S, copying: Option<Copying>)
    requires { MatchOption copying ⊤ (λ it. it.to < 2 ^ 24) }
    ensures { S.storage store.new ≡ without_copy copying (S.storage store.old) }
{
    let Some(copying) = copying else {
        return;
    };
    store.free_area(copying.to);
}

/// Makes the areas of a level that begins in place of another: for the copy of its COMMAREA, where one is asked for,
/// and for its DFHEISTG.
///
/// An error comes only where an allocation failed; then all is as before.
#[tactic(auto, using(crate::proofs::CopyLemmas::copy_given_back, crate::proofs::CopyLemmas::copy_below))]
pub(crate) fn get_both<S: Store>(
    store: &mut S,
    slot: u8,
    copying: Option<Copying>,
    level: &NewLevel,
) -> Result<(), AllocError>
    requires copy { FitsCopy copying (S.storage store.old) }
    requires level { FitsLevel (with_copy_area (S.storage store.old) slot copying) level.now }
    ensures ok { let copied = with_copy_area (S.storage store.old) slot copying in
        OnOk result (S.storage store.new ≡ with_stg_area copied slot level.now) }
    ensures err { OnErr result (S.storage store.new ≡ S.storage store.old) }
{
    store_is_sound(store);
    get_copy(store, slot, copying)?;
    match get_stg(store, slot, level) {
        Ok(_done) => Ok(()),
        Err(refused) => {
            give_back(store, copying);
            Err(refused)
        }
    }
}

/// A level's registers on entry to its program: 3 and 15 have its entry, 11 the EIB's address, 13 that of DFHEISTG, and
/// all others 0.
#[tactic(auto, unfolding(cx_region_state::specs::Areas::entry_registers))]
pub fn entry_registers(level: &NewLevel, eib: u32) -> [u32; 16]
    ensures { result ≡ registers_of level.now eib }
{
    let entry = level.loaded.entry;
    [
        0, 0, 0, entry, 0, 0, 0, 0, 0, 0, 0, eib, 0, level.stg, 0, entry,
    ]
}

/// A level as it begins, for the task whose EIB is at an address: on entry to its program, with condition code 0, and
/// without handles.
#[tactic(auto, unfolding(cx_region_state::specs::Areas::entry_level))]
pub fn entry_level(level: &NewLevel, eib: u32) -> Level
    ensures { result ≡ entry_level level.now eib }
{
    Level {
        program: level.program,
        stg: level.stg,
        stg_len: level.loaded.stg_len,
        calen: length_or_zero(level.commarea),
        regs: entry_registers(level, eib),
        cc: ConditionCode::new(0),
        handles: HandleTable::new(),
    }
}
