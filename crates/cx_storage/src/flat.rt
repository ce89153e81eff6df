//! `FlatStore`: a list of areas, each with a list of its bytes.

ghost use Rattle.std.specs.Prelude.{◌≡◌, ℕ, ◌+◌, ◌-◌, ◌^◌, ◌<◌, ◌≤◌, [], length, vec_len, slice_get, slice_range, MatchOption, IfSome, OnSome, IsSome, IfOk, OnOk, OnErr, is_some};
ghost use Rattle.cx_storage.specs.Storage.{byte_at, area_at, next_area, span, with_byte, put_held, with_area, with_areas_kept, starts_elsewhere, is_of_other_slot, IsTogether, IsSoundStorage};
ghost use Rattle.cx_storage.specs.Place.{IsLeastPlace};
ghost use Rattle.cx_storage.specs.Aligned.{AreAligned};
ghost use Rattle.cx_storage.specs.Facts.Aligned.{AreAligned-prop};
ghost use Rattle.cx_storage.specs.Facts.Sound.{IsSoundStorage-prop};
ghost use Rattle.cx_storage.specs.Parts.Flat.{walk, spot};

use crate::areas::{Area, Owner};
use crate::stores::Store;
use std::alloc::{AllocError, Global};
use std::marker::Model;

/// An area with its bytes, seen as such.
#[derive(Drop)]
struct StorageBlock {
    area: Area,
    bytes: Vec<u8>,
}

impl Model for StorageBlock {
    ghost use Rattle.cx_storage.specs.Storage.{Held};

    ghost Value = { Held };

    ghost view = { λ b. record { area = b.area; bytes = b.bytes.items } };
}

impl StorageBlock {
    ghost use Rattle.cx_storage.specs.Storage.{covers, put_byte};

    /// A copy of the area.
    fn area(&self) -> Area
        ensures { result ≡ self.now.area }
    {
        self.area
    }

    /// Whether the area has the address.
    fn covers(&self, a: u32) -> bool
        ensures { result ≡ covers self.now.area a }
    {
        self.area.start <= a && a - self.area.start < self.area.len
    }

    /// The byte at an address from the area's start on.
    fn byte(&self, a: u32) -> Option<u8>
        requires { self.now.area.start ≤ a }
        ensures { result ≡ slice_get self.now.bytes (a - self.now.area.start) }
    {
        self.bytes.get((a - self.area.start) as usize).copied()
    }

    /// The bytes from an address that the area has on, where it has all of them.
    fn part(&self, a: u32, n: usize) -> Option<&[u8]>
        requires low { self.now.area.start ≤ a }
        requires within { a - self.now.area.start ≤ length self.now.bytes }
        ensures cases { MatchOption result (length self.now.bytes < a - self.now.area.start + n)
            (λ part. (a - self.now.area.start + n ≤ length self.now.bytes)
            × (part.now ≡ slice_range self.now.bytes (a - self.now.area.start) (a - self.now.area.start + n))) }
    {
        let from = (a - self.area.start) as usize;
        if n <= self.bytes.len() - from {
            Some(&self.bytes[from..from + n])
        } else {
            None
        }
    }

    /// Writes a byte where the area has the address.
    fn put(&mut self, a: u32, value: u8)
        ensures { self.new ≡ put_byte a value self.old }
    {
        if self.covers(a) {
            let k = (a - self.area.start) as usize;
            if k < self.bytes.len() {
                self.bytes[k] = value;
            }
        }
    }
}

/// The byte at an address, where an area has it.
#[tactic(auto, using(crate::proofs::Walks::byte_skip, crate::proofs::Walks::byte_found, crate::proofs::Walks::byte_end))]
fn byte_in(blocks: &Vec<StorageBlock>, a: u32) -> Option<u8>
    ensures { result ≡ byte_at blocks.now.items a }
{
    for block in blocks {
        if block.covers(a) {
            return block.byte(a);
        }
    }
    None
}

/// The bytes of a span, where one area has all of them.
fn slice_in(blocks: &Vec<StorageBlock>, a: u32, n: usize) -> Option<&[u8]>
    requires sound { IsSoundStorage blocks.now.items }
    requires size { n ≤ 65536 }
    ensures bytes { IfSome result (λ part. span blocks.now.items a n ≡ Some part.now) }
    ensures no_wrap { OnSome result (a + n ≤ 2 ^ 24) }
    ensures together { IsTogether blocks.now.items a n → IsSome result }
{
    for block in blocks {
        if block.covers(a) {
            return block.part(a, n);
        }
    }
    None
}

/// The area that starts at an address.
#[tactic(auto, using(crate::proofs::Walks::area_skip, crate::proofs::Walks::area_found, crate::proofs::Walks::area_end))]
fn area_in(blocks: &Vec<StorageBlock>, start: u32) -> Option<Area>
    ensures { result ≡ area_at blocks.now.items start }
{
    for block in blocks {
        let area = block.area();
        if area.start == start {
            return Some(area);
        }
    }
    None
}

/// The first area that starts at an address or above.
#[tactic(auto, using(crate::proofs::Walks::next_skip, crate::proofs::Walks::next_found, crate::proofs::Walks::next_end))]
fn next_in(blocks: &Vec<StorageBlock>, from: u32) -> Option<Area>
    ensures { result ≡ next_area blocks.now.items from }
{
    for block in blocks {
        let area = block.area();
        if from <= area.start {
            return Some(area);
        }
    }
    None
}

/// Writes a byte where an area has the address.
#[tactic(auto, using(crate::proofs::Walks::byte_skip, crate::proofs::Walks::byte_end))]
fn set_in(blocks: &mut Vec<StorageBlock>, a: u32, value: u8) -> bool
    requires { IsSoundStorage blocks.old.items }
    ensures present { result ≡ is_some (byte_at blocks.old.items a) }
    ensures after { blocks.new.items ≡ with_byte blocks.old.items a value }
    ensures sound { IsSoundStorage blocks.new.items }
{
    for i in 0..blocks.len() {
        if blocks[i].covers(a) {
            let block = &mut blocks[i];
            block.put(a, value);
            return true;
        }
    }
    false
}

/// The walk over the areas for `len` bytes, from `start` on.
#[tactic(auto, using(crate::proofs::Walks::walk_more, crate::proofs::Walks::walk_stop, crate::proofs::Walks::walk_end))]
fn walk_from(blocks: &Vec<StorageBlock>, start: u64, len: u64) -> u64
    requires small { len < 2 ^ 32 }
    requires low { start ≤ 2 ^ 33 }
    ensures value { result ≡ walk len start blocks.now.items }
    ensures bound { result ≤ 2 ^ 33 }
{
    let mut at = start;
    for block in blocks {
        let area = block.area();
        if at + len <= u64::from(area.start) {
            return at;
        }
        at = at.max((u64::from(area.start) + u64::from(area.len)).next_multiple_of(16));
    }
    at
}

/// The least place in a range.
#[tactic(auto, using(crate::proofs::Walks::place_found, crate::proofs::Walks::place_none))]
fn place_in(blocks: &Vec<StorageBlock>, first: u32, last: u32, len: u32) -> Option<u32>
    requires sound { IsSoundStorage blocks.now.items }
    requires len { 0 < len }
    ensures { IsLeastPlace blocks.now.items first last len result }
{
    let len = u64::from(len);
    let at = walk_from(blocks, u64::from(first).next_multiple_of(16), len);
    if at + len <= u64::from(last) + 1 {
        Some(at as u32)
    } else {
        None
    }
}

/// How many areas come before one that starts at `start`.
#[tactic(auto, using(crate::proofs::Walks::spot_more, crate::proofs::Walks::spot_stop, crate::proofs::Walks::spot_end))]
fn spot_of(blocks: &Vec<StorageBlock>, start: u32) -> usize
    ensures value { result ≡ spot start blocks.now.items }
    ensures within { result ≤ vec_len blocks.now }
{
    for (i, block) in blocks.iter().enumerate() {
        if start < block.area().start {
            return i;
        }
    }
    blocks.len()
}

/// Puts an area with its bytes in its place by its start.
fn insert_block(blocks: &mut Vec<StorageBlock>, block: StorageBlock) -> Result<(), AllocError>
    ensures ok { OnOk result (blocks.new.items ≡ put_held block blocks.old.items) }
    ensures err { OnErr result (blocks.new.items ≡ blocks.old.items) }
{
    let i = spot_of(blocks, block.area().start);
    blocks.insert(i, block)?;
    Ok(())
}

/// Makes an area of zero bytes at the least place in a range.
fn get_in(
    blocks: &mut Vec<StorageBlock>,
    alloc: Global,
    first: u32,
    last: u32,
    len: u32,
    owner: Owner,
) -> Result<Option<u32>, AllocError>
    requires sound { IsSoundStorage blocks.old.items }
    requires last { last < 2 ^ 24 }
    requires len { 0 < len }
    ensures placed { IfOk result (IsLeastPlace blocks.old.items first last len) }
    ensures after { IfOk result (λ start. blocks.new.items ≡ with_area blocks.old.items start len owner) }
    ensures no_place { IsLeastPlace blocks.old.items first last len None → result ≡ Ok None }
    ensures err { OnErr result (blocks.new.items ≡ blocks.old.items) }
    ensures sound { IsSoundStorage blocks.new.items }
{
    let Some(start) = place_in(blocks, first, last, len) else {
        return Ok(None);
    };
    let bytes = vec![in alloc; 0; len as usize]?;
    let area = Area { start, len, owner };
    insert_block(blocks, StorageBlock { area, bytes })?;
    Ok(Some(start))
}

/// Drops the area that starts at an address.
fn drop_at(blocks: &mut Vec<StorageBlock>, start: u32)
    requires { IsSoundStorage blocks.old.items }
    ensures after { blocks.new.items ≡ with_areas_kept (starts_elsewhere start) blocks.old.items }
    ensures sound { IsSoundStorage blocks.new.items }
{
    blocks.retain(|block| block.area().start != start);
}

/// Drops the areas of a slot.
fn drop_slot(blocks: &mut Vec<StorageBlock>, slot: u8)
    requires { IsSoundStorage blocks.old.items }
    ensures after { blocks.new.items ≡ with_areas_kept (is_of_other_slot slot) blocks.old.items }
    ensures sound { IsSoundStorage blocks.new.items }
{
    blocks.retain(|block| block.area().owner.slot != slot);
}

/// The plain, slow store: a list of areas in the order of their starts, each with its bytes.
#[derive(Drop)]
pub struct FlatStore {
    blocks: Vec<StorageBlock>,
    alloc: Global,
    ghost ordered: { IsSoundStorage blocks.items } by { IsSoundStorage-prop blocks.items },
    ghost at_multiples: { AreAligned blocks.items } by { AreAligned-prop blocks.items },
}

impl FlatStore {
    /// An empty store. It takes no memory; `get_area` takes what it needs from `alloc`.
    #[tactic(auto, using(crate::specs::Facts::Sound::sound_nil, crate::specs::Facts::Aligned::aligned_nil))]
    pub fn new(alloc: Global) -> Self
        ensures { ⟦<FlatStore as Store>⟧.storage result ≡ [] }
    {
        FlatStore {
            blocks: Vec::new(alloc),
            alloc,
        }
    }
}

impl Store for FlatStore {
    ghost storage = { λ s. s.blocks.items };

    ghost sound = { λ s. s.ordered };

    ghost aligned = { λ s. s.at_multiples };

    fn byte(&self, a: u32) -> Option<u8> {
        byte_in(&self.blocks, a)
    }

    fn set(&mut self, a: u32, value: u8) -> bool {
        set_in(&mut self.blocks, a, value)
    }

    fn slice(&self, a: u32, n: usize) -> Option<&[u8]> {
        slice_in(&self.blocks, a, n)
    }

    fn area_at(&self, start: u32) -> Option<Area> {
        area_in(&self.blocks, start)
    }

    fn next_area(&self, from: u32) -> Option<Area> {
        next_in(&self.blocks, from)
    }

    fn place(&self, first: u32, last: u32, len: u32) -> Option<u32> {
        place_in(&self.blocks, first, last, len)
    }

    fn get_area(
        &mut self,
        first: u32,
        last: u32,
        len: u32,
        owner: Owner,
    ) -> Result<Option<u32>, AllocError> {
        get_in(&mut self.blocks, self.alloc, first, last, len, owner)
    }

    fn free_area(&mut self, start: u32) -> bool {
        let found = area_in(&self.blocks, start).is_some();
        drop_at(&mut self.blocks, start);
        found
    }

    fn free_slot(&mut self, slot: u8) {
        drop_slot(&mut self.blocks, slot);
    }

    fn emptied(&self) -> Self {
        FlatStore::new(self.alloc)
    }
}
