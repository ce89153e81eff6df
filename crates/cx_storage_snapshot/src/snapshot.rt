//! `StorageSnapshot`: the areas of a store with their bytes.
ghost use Rattle.std.specs.Prelude.{◌≡◌, ◌↔◌, ◌++◌, IsTrue, IfOk, Some};
ghost use Rattle.cx_storage.specs.Storage.{area_at, areas_of};
ghost use Rattle.cx_storage_snapshot.specs.Hash.{storage_hash};
ghost use Rattle.cx_base.specs.Shared.{values};
ghost use Rattle.cx_storage_snapshot.specs.Parts.Copies.{areas_from, IsCopyOf};

use crate::area::AreaCopy;
use crate::reading::copy_of;
use crate::writing::{has_areas, put_areas, write_areas};
use cx_base::{are_same_shared, hash_with};
use cx_storage::Store;
use cx_storage::laws::{next_area_is_least, store_is_aligned, store_is_sound};
use std::alloc::{AllocError, Global};
use std::marker::Model;
use std::rc::Rc;

/// The areas of a store with their bytes, each a copy that snapshots share where an area is the same in both.
#[derive(Drop)]
pub struct StorageSnapshot {
    areas: Vec<Rc<AreaCopy>>,
}

impl Model for StorageSnapshot {
    ghost use Rattle.cx_storage.specs.Storage.{Storage, IsSoundStorage};
    ghost use Rattle.cx_storage.specs.Aligned.{AreAligned};

    ghost Value = { Storage };

    ghost use Rattle.cx_base.specs.Shared.{values};

    ghost view = { λ snapshot. values snapshot.areas.items };

    ghost invariant = { λ snapshot.
        IsSoundStorage (values snapshot.areas.items) × AreAligned (values snapshot.areas.items) };
}

/// All areas of a store, each with a copy of its bytes.
fn copies<S: Store>(
    alloc: Global,
    store: &S,
    before: Option<&StorageSnapshot>,
) -> Result<Vec<Rc<AreaCopy>>, AllocError>
    ensures { IfOk result (λ copies. values copies.items ≡ S.storage store.now) }
{
    store_is_sound(store);
    next_area_is_least();
    let mut copies = Vec::new(alloc);
    let mut from = 0;
    while let Some(area) = store.next_area(from) {
        let earlier = match before {
            Some(before) => before.at(area.start),
            None => None,
        };
        copies.push(copy_of(alloc, store, area, earlier)?)?;
        from = area.start + area.len;
    }
    Ok(copies)
}

impl StorageSnapshot {
    /// The storage of a store. What is the same as in an earlier snapshot, `before`, is shared with that, so that a
    /// snapshot of what is like one before takes little memory; `before` has no other effect.
    ///
    /// An error comes only where an allocation failed.
    pub fn take<S: Store>(
        alloc: Global,
        store: &S,
        before: Option<&StorageSnapshot>,
    ) -> Result<StorageSnapshot, AllocError>
        ensures { IfOk result (λ snapshot. snapshot ≡ S.storage store.now) }
    {
        store_is_sound(store);
        store_is_aligned(store);
        let areas = copies(alloc, store, before)?;
        Ok(StorageSnapshot { areas })
    }

    /// A store of the same kind as `store` that has this storage. It takes its memory where `store` does.
    ///
    /// An error comes only where an allocation failed.
    pub fn store_like<S: Store + Drop>(&self, store: &S) -> Result<S, AllocError>
        ensures { IfOk result (λ fresh. S.storage fresh ≡ self.now) }
    {
        let mut fresh = store.emptied();
        put_areas(&mut fresh, self.areas.as_slice())?;
        Ok(fresh)
    }

    /// Whether a store has just the areas of this storage, with their owners, whatever their bytes.
    pub fn has_areas_of<S: Store>(&self, store: &S) -> bool
        ensures { IsTrue result ↔ (areas_of (S.storage store.now) ≡ areas_of self.now) }
    {
        has_areas(store, self.areas.as_slice())
    }

    /// Gives a store that has just the areas of this storage their bytes. It takes no memory.
    pub fn write_over<S: Store>(&self, store: &mut S)
        requires { areas_of (S.storage store.old) ≡ areas_of self.now }
        ensures { S.storage store.new ≡ self.now }
    {
        write_areas(store, self.areas.as_slice());
    }

    /// The copy of the area at an address, or of the next one. It has no clause: `copy_of` compares what it is given
    /// with the area, so that only what is shared depends on it.
    fn at(&self, start: u32) -> Option<&Rc<AreaCopy>> {
        let i = self
            .areas
            .as_slice()
            .partition_point(|copy| copy.area().start < start);
        self.areas.get(i)
    }

    /// Whether two are the same: the same areas with the same owners and bytes.
    pub fn is_same(&self, other: &StorageSnapshot) -> bool
        ensures { IsTrue result ↔ (self.now ≡ other.now) }
    {
        are_same_shared(self.areas.as_slice(), other.areas.as_slice())
    }

    /// Its hash: that of the areas' starts and bytes. Equal storages have equal hashes.
    pub fn hash(&self) -> u64
        ensures { result ≡ storage_hash self.now }
    {
        hash_of_copies(self.areas.as_slice())
    }
}

/// The hash of copies.
#[tactic(auto, using(crate::proofs::CopyLemmas::hash_more), unfolding(crate::specs::Hash::storage_hash))]
fn hash_of_copies(copies: &[Rc<AreaCopy>]) -> u64
    ensures { result ≡ storage_hash (values copies.now) }
{
    let mut hash = 0;
    for copy in copies {
        hash = hash_with(hash_with(hash, u64::from(copy.area().start)), copy.hash());
    }
    hash
}
