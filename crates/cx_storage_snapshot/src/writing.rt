//! Areas with their bytes, put into a store.
ghost use Rattle.std.specs.Prelude.{◌≡◌, ◌↔◌, ◌%◌, ◌^◌, ◌≤◌, ◌<◌, ℕ, List, ◌++◌, [], ◌∷◌, length, IsTrue, OnOk};
ghost use Rattle.cx_storage.specs.Storage.{Storage, IsSoundStorage, after_write, areas_of, end_of};
ghost use Rattle.cx_storage.specs.Aligned.{AreAligned};
ghost use Rattle.cx_base.specs.Shared.{values};
ghost use Rattle.cx_storage_snapshot.specs.Parts.Copies.{EndBefore, StartAfter, partly};

use crate::area::AreaCopy;
use crate::reading::piece;
use cx_storage::laws::store_is_sound;
use cx_storage::{Area, Store};
use std::alloc::AllocError;
use std::rc::Rc;

/// Writes bytes, unless they are there.
#[tactic(auto, using(crate::proofs::SameLemmas::same_write))]
fn write_new<S: Store>(store: &mut S, at: u32, bytes: &[u8])
    requires address { at < 2 ^ 24 }
    requires size { length bytes.now ≤ 65536 }
    ensures { S.storage store.new ≡ after_write (S.storage store.old) at bytes.now }
{
    store_is_sound(store);
    if let Some(part) = store.slice(at, bytes.len()) {
        let is_there = part == bytes;
        if is_there {
            return;
        }
    }
    store.write(at, bytes);
}

/// Gives an area of a store other bytes.
fn fill<S: Store>(store: &mut S, area: Area, bytes: &[u8])
    requires size { length bytes.now ≡ area.len }
    requires below { end_of area ≤ 2 ^ 24 }
    ensures { (others later : Storage) (old : List ℕ) → EndBefore area.start others → StartAfter (end_of area) later
        → length old ≡ area.len → S.storage store.old ≡ others ++ partly area bytes.now old 0 ∷ later
        → S.storage store.new ≡ others ++ partly area bytes.now old area.len ∷ later }
{
    let mut k = 0;
    while k < bytes.len() {
        let at = area.start + k as u32;
        let n = piece(at, area.start + area.len);
        write_new(store, at, &bytes[k..k + n]);
        k += n;
    }
}

/// Puts an area with its bytes after those of a store.
fn put_area<S: Store>(store: &mut S, copy: &AreaCopy) -> Result<(), AllocError>
    requires sound { IsSoundStorage (S.storage store.old ++ copy.now ∷ []) }
    requires aligned { copy.now.area.start % 16 ≡ 0 }
    ensures { OnOk result (S.storage store.new ≡ S.storage store.old ++ copy.now ∷ []) }
{
    let area = copy.area();
    // All of it is free, so that it is put at its start.
    store.get_area(area.start, area.start + area.len - 1, area.len, area.owner)?;
    fill(store, area, copy.bytes());
    Ok(())
}

/// Puts areas with their bytes into an empty store.
pub(crate) fn put_areas<S: Store>(store: &mut S, copies: &[Rc<AreaCopy>]) -> Result<(), AllocError>
    requires empty { S.storage store.old ≡ [] }
    requires sound { IsSoundStorage (values copies.now) }
    requires aligned { AreAligned (values copies.now) }
    ensures { OnOk result (S.storage store.new ≡ values copies.now) }
{
    for copy in copies {
        put_area(store, copy)?;
    }
    Ok(())
}

/// Whether a copy is of that area.
fn is_of(copy: &AreaCopy, area: Area) -> bool
    ensures { IsTrue result ↔ (copy.now.area ≡ area) }
{
    copy.area() == area
}

/// Whether a store has just the areas of copies, whatever their bytes.
pub(crate) fn has_areas<S: Store>(store: &S, copies: &[Rc<AreaCopy>]) -> bool
    ensures { IsTrue result ↔ (areas_of (S.storage store.now) ≡ areas_of (values copies.now)) }
{
    store_is_sound(store);
    let mut from = 0;
    for copy in copies {
        let Some(area) = store.next_area(from) else {
            return false;
        };
        if !is_of(copy, area) {
            return false;
        }
        from = area.start + area.len;
    }
    store.next_area(from).is_none()
}

/// Gives each area of a store the bytes of its copy.
pub(crate) fn write_areas<S: Store>(store: &mut S, copies: &[Rc<AreaCopy>])
    requires same { areas_of (S.storage store.old) ≡ areas_of (values copies.now) }
    requires sound { IsSoundStorage (values copies.now) }
    ensures { S.storage store.new ≡ values copies.now }
{
    store_is_sound(store);
    for copy in copies {
        fill(store, copy.area(), copy.bytes());
    }
}
