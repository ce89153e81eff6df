//! A program's first instructions alone, in a store of its own.

use cx_exec::{Cpu, Halt, advance};
use cx_load::{CheckedImage, LoadFault, load};
use cx_storage::{Kind, Owner, Store, address_in};
use cx_storage_pages::PagedStore;
use std::alloc::{AllocError, Global};

/// The most instructions of a turn.
const LIMIT: u32 = 65_536;

/// The first and the last address of task storage, and the length of an EIB.
const FIRST: u32 = 0x20_0000;

const LAST: u32 = 0xFF_FFFF;

const EIB_LEN: u32 = 88;

const OWNER: Owner = Owner {
    slot: 1,
    kind: Kind::System,
};

/// An area in task storage, of at least one byte.
fn area(store: &mut PagedStore, len: u32) -> Result<u32, AllocError> {
    let start = store.get_area(FIRST, LAST, len.max(1), OWNER)?;
    Ok(start.unwrap_or(FIRST))
}

/// How the first turn of a program ends that is run by itself, with an EIB and DFHEISTG of zeros; None where storage
/// has no place for it.
pub fn first_halt(alloc: Global, image: &CheckedImage) -> Result<Option<Halt>, AllocError> {
    let mut store = PagedStore::new(alloc);
    let loaded = match load(alloc, image, &mut store) {
        Ok(loaded) => loaded,
        Err(LoadFault::NoRoom) => return Ok(None),
        Err(LoadFault::Memory) => return Err(AllocError),
    };
    let mut regs = [0; 16];
    regs[11] = area(&mut store, EIB_LEN)?;
    regs[13] = area(&mut store, loaded.stg_len)?;
    regs[3] = loaded.entry;
    regs[15] = loaded.entry;
    let mut cpu = Cpu {
        regs,
        cc: 0,
        next: address_in(loaded.entry),
    };
    Ok(Some(advance(&mut cpu, &mut store, LIMIT)))
}
