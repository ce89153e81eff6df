//! Loading a checked image.

ghost use Rattle.std.specs.Prelude.{◌≡◌, ◌+◌, ◌≤◌, ◌<◌, ◌^◌, ◌↔◌, IsTrue, IfOk, OnErr, IsErrOf, MatchBool, None, length};
ghost use Rattle.cx_load.specs.Fault.{are_inside};
ghost use Rattle.cx_load.specs.Relocation.{relocate_word, relocated_text};
ghost use Rattle.cx_load.specs.Program.{IsLoaded, IsProgramPlace};
ghost use Rattle.cx_load.specs.declared.program.LoadFault.TheVariants.{Memory};

use crate::fault::CheckedImage;
use byteorder::{BigEndian, ByteOrder};
use cx_storage::{Kind, Owner, Store};
use std::alloc::{AllocError, Global};
use thiserror::Error;

/// The first address of the range in which programs lie.
pub const FIRST_OF_PROGRAMS: u32 = 0x010000;

/// The last address of the range in which programs lie.
pub const LAST_OF_PROGRAMS: u32 = 0x1FFFFF;

/// Programs are the region's own, and stay.
const PROGRAM_OWNER: Owner = Owner {
    slot: 0,
    kind: Kind::Fixed,
};

/// Where a program is, as `load` put it.
#[derive(Clone, Copy, PartialEq, Eq)]
pub struct Loaded {
    /// The address of its first byte: a multiple of 16 from X'010000' to X'1FFFFF'.
    pub at: u32,
    /// Its length in bytes.
    pub len: u32,
    /// The address of its entry.
    pub entry: u32,
    /// How many bytes of working storage it asks for, 80 to 65,520.
    pub stg_len: u32,
}

/// Why a checked image was not loaded.
#[derive(Clone, Copy, Debug, PartialEq, Eq, Error)]
pub enum LoadFault {
    /// The program range has no place for the text.
    #[error("NoRoom")]
    NoRoom,
    /// An allocation failed.
    #[error("Memory")]
    Memory,
}

impl From<AllocError> for LoadFault {
    ghost from_gives = { λ _ fault. fault ≡ Memory };

    fn from(_refused: AllocError) -> LoadFault {
        LoadFault::Memory
    }
}

/// Raises the word at an offset by an address, modulo 2^32.
#[tactic(auto, unfolding(crate::specs::Relocation::relocate_word))]
fn raise(bytes: &mut [u8], r: usize, at: u32)
    requires { r + 4 ≤ length bytes.old }
    ensures { bytes.new ≡ relocate_word at r bytes.old }
{
    let word = &mut bytes[r..r + 4];
    let value = BigEndian::read_u32(word).wrapping_add(at);
    BigEndian::write_u32(word, value);
}

/// Raises each relocated word by an address, modulo 2^32.
fn relocate(bytes: &mut [u8], relocs: &[u32], at: u32)
    requires { IsTrue (are_inside (length bytes.old) relocs.now) }
    ensures { bytes.new ≡ relocated_text at relocs.now bytes.old }
{
    for r in relocs {
        raise(bytes, *r as usize, at);
    }
}

/// The least place in the program range for `len` bytes (at least 1); None where there is none. It
/// takes no memory.
pub fn program_place<S: Store>(store: &S, len: u32) -> Option<u32>
    requires { 0 < len }
    ensures { IsProgramPlace (S.storage store.now) len result }
{
    store.place(FIRST_OF_PROGRAMS, LAST_OF_PROGRAMS, len)
}

/// Whether a program of `len` bytes (at least 1) has room: whether the program range has a place for
/// it. It takes no memory.
#[tactic(auto, using(crate::proofs::LoadLemmas::place_found))]
pub fn has_room<S: Store>(store: &S, len: u32) -> bool
    requires { 0 < len }
    ensures { MatchBool result (IsProgramPlace (S.storage store.now) len None → ⊥)
        (IsProgramPlace (S.storage store.now) len None) }
{
    program_place(store, len).is_some()
}

/// Loads a checked image: the text is put at the least place from X'010000' to X'1FFFFF', in a fixed
/// area of slot 0, that address added to each relocated word modulo 2^32. NoRoom exactly where there is
/// no place; Memory only where an allocation failed. Either leaves the store as it was.
#[tactic(auto, using(crate::proofs::LoadLemmas::place_ends, crate::proofs::LoadLemmas::place_found))]
pub fn load<S: Store>(
    alloc: Global,
    image: &CheckedImage,
    store: &mut S,
) -> Result<Loaded, LoadFault>
    ensures loaded { IfOk result (λ loaded. IsLoaded (S.storage store.old) image.now loaded (S.storage store.new)) }
    ensures no_room { IsErrOf result LoadFault.NoRoom
        ↔ IsProgramPlace (S.storage store.old) (length image.now.text) None }
    ensures err { OnErr result (S.storage store.new ≡ S.storage store.old) }
{
    let checked = image.image();
    let text = checked.text.as_slice();
    let len = text.len() as u32;
    let Some(at) = program_place(store, len) else {
        return Err(LoadFault::NoRoom);
    };
    let mut bytes = text.to_vec(alloc)?;
    relocate(bytes.as_mut_slice(), checked.relocs.as_slice(), at);
    store.get_area(FIRST_OF_PROGRAMS, LAST_OF_PROGRAMS, len, PROGRAM_OWNER)?;
    store.write(at, bytes.as_slice());
    Ok(Loaded {
        at,
        len,
        entry: at + checked.entry,
        stg_len: checked.stg_len,
    })
}
