//! The part `MEASURE storage` times stores: areas of 16 bytes got and freed in an order of a fixed generator, addresses
//! looked up, and the areas of 16 owners freed. The first word of a line is `flat`, `paged` or `kept`, the second the
//! number of areas; the line that is printed has nanoseconds for each call.

ghost use Rattle.std.specs.Prelude.{◌<◌, ◌^◌, ◌≤◌, length};

use cx_storage::{FlatStore, Kind, Owner, Store};
use cx_storage_pages::{KeepingStore, PagedStore};
use std::alloc::AllocError;
use std::io;
use std::time::Instant;

/// The last address.
const LAST: u32 = 0xFF_FFFF;

/// How often each call is timed.
const TURNS: u32 = 20_000;

/// The next number of the generator.
fn next(seed: u32) -> u32 {
    seed.wrapping_mul(1_664_525).wrapping_add(1_013_904_223)
}

/// The start of one of `count` areas of 16 bytes that lie one after the other.
fn start_of(seed: u32, count: u32) -> u32
    ensures { result < 2 ^ 24 }
{
    (seed >> 8) % count.clamp(1, 0x10_0000) * 16 % 0x100_0000
}

/// Gets an area of 16 bytes for one of 16 owners.
fn get<S: Store>(store: &mut S, k: u32) -> Result<(), AllocError> {
    let owner = Owner {
        slot: (k % 16 + 1) as u8,
        kind: Kind::Got,
    };
    store.get_area(0, LAST, 16, owner)?;
    Ok(())
}

/// Gets `count` areas.
fn fill<S: Store>(store: &mut S, count: u32) -> Result<(), AllocError> {
    for k in 0..count {
        get(store, k)?;
    }
    Ok(())
}

/// Frees an area and gets one, which takes its place.
fn mix<S: Store>(store: &mut S, count: u32) -> Result<(), AllocError> {
    let mut seed = 1;
    for k in 0..TURNS {
        seed = next(seed);
        store.free_area(start_of(seed, count));
        get(store, k)?;
    }
    Ok(())
}

/// Frees areas, which are got again by `fill`.
fn free<S: Store>(store: &mut S, count: u32) {
    let mut seed = 1;
    for _k in 0..TURNS / 10 {
        seed = next(seed);
        store.free_area(start_of(seed, count));
    }
}

/// Looks for the least places from a few addresses on, and gives one number of them all.
fn place<S: Store>(store: &S) -> u32 {
    let mut all = 0u32;
    for k in 0..TURNS / 10 {
        all = all.wrapping_add(store.place(k, LAST, 16).unwrap_or(0));
    }
    all
}

/// Reads bytes.
fn look<S: Store>(store: &S, count: u32) -> u32 {
    let mut seed = 1;
    let mut found = 0u32;
    for _k in 0..TURNS {
        seed = next(seed);
        if store.byte(start_of(seed, count)).is_some() {
            found = found.wrapping_add(1);
        }
    }
    found
}

/// Reads and writes four bytes.
fn copy<S: Store>(store: &mut S, count: u32) {
    let mut seed = 1;
    let mut word = [0; 4];
    for _k in 0..TURNS {
        seed = next(seed);
        let a = start_of(seed, count);
        store.read(a, &mut word);
        store.write(a, &word);
    }
}

/// Frees the areas of all owners.
fn free_slots<S: Store>(store: &mut S) {
    for slot in 1..17 {
        store.free_slot(slot);
    }
}

/// Gets the two areas of a task and frees its owner's areas, as a task's attach and return do.
fn attach<S: Store>(store: &mut S) -> Result<(), AllocError> {
    let owner = Owner {
        slot: 17,
        kind: Kind::System,
    };
    for _k in 0..TURNS {
        store.get_area(0x20_0000, LAST, 85, owner)?;
        store.get_area(0x20_0000, LAST, 2048, owner)?;
        store.free_slot(17);
    }
    Ok(())
}

/// Nanoseconds since then, for each of `calls` calls.
fn since(rt: &HostRuntime, then: Instant, calls: u32) -> io::Result<u128> {
    Ok(then.elapsed(rt)?.as_nanos() / u128::from(calls.max(1)))
}

/// The time of getting an area.
fn get_time<S: Store>(rt: &HostRuntime, store: &mut S, count: u32) -> io::Result<u128> {
    let then = Instant::now(rt)?;
    fill(store, count)?;
    since(rt, then, count)
}

/// The time of reading a byte, and how many are there.
fn look_time<S: Store>(rt: &HostRuntime, store: &S, count: u32) -> io::Result<(u128, u32)> {
    let then = Instant::now(rt)?;
    let found = look(store, count);
    Ok((since(rt, then, TURNS)?, found))
}

/// The time of reading or writing four bytes.
fn copy_time<S: Store>(rt: &HostRuntime, store: &mut S, count: u32) -> io::Result<u128> {
    let then = Instant::now(rt)?;
    copy(store, count);
    since(rt, then, TURNS * 2)
}

/// The time of freeing an area and getting one.
fn mix_time<S: Store>(rt: &HostRuntime, store: &mut S, count: u32) -> io::Result<u128> {
    let then = Instant::now(rt)?;
    mix(store, count)?;
    since(rt, then, TURNS)
}

/// The time of a task's attach and return.
fn attach_time<S: Store>(rt: &HostRuntime, store: &mut S) -> io::Result<u128> {
    let then = Instant::now(rt)?;
    attach(store)?;
    since(rt, then, TURNS)
}

/// The time of looking for a place, and what was found.
fn place_time<S: Store>(rt: &HostRuntime, store: &S) -> io::Result<(u128, u32)> {
    let then = Instant::now(rt)?;
    let places = place(store);
    Ok((since(rt, then, TURNS / 10)?, places))
}

/// The time of freeing an area.
fn free_time<S: Store>(rt: &HostRuntime, store: &mut S, count: u32) -> io::Result<u128> {
    let then = Instant::now(rt)?;
    free(store, count);
    since(rt, then, TURNS / 10)
}

/// The time of freeing the areas of an owner.
fn free_slots_time<S: Store>(rt: &HostRuntime, store: &mut S) -> io::Result<u128> {
    let then = Instant::now(rt)?;
    free_slots(store);
    since(rt, then, 16)
}

/// Times all calls over a store.
fn time<S: Store>(rt: &HostRuntime, store: &mut S, name: &str, count: u32) -> io::Result<()> {
    let filled = get_time(rt, store, count)?;
    let (looked, found) = look_time(rt, store, count)?;
    let copied = copy_time(rt, store, count)?;
    let mixed = mix_time(rt, store, count)?;
    let attached = attach_time(rt, store)?;
    let (placed, places) = place_time(rt, store)?;
    let freed = free_time(rt, store, count)?;
    let slots = free_slots_time(rt, store)?;
    println!(rt;
        "{name} {count}: get {filled}, byte {looked} ({found} found), read or write {copied}, free and get {mixed}, attach and return {attached}, place {placed} ({places}), free {freed}, free_slot {slots}"
    )
}

fn time_kept(rt: &HostRuntime, name: &str, count: u32) -> io::Result<()> {
    let mut store = KeepingStore::new(PagedStore::new(rt.alloc()));
    time(rt, &mut store, name, count)
}

/// Times the store of a line, and prints nanoseconds for each call.
pub fn run_line(rt: &HostRuntime, line: &str) -> io::Result<()> {
    let (name, count) = line.split_once(' ').unwrap_or(("", ""));
    let count = count.parse::<u32>().unwrap_or(0);
    match name {
        "flat" => time(rt, &mut FlatStore::new(rt.alloc()), name, count),
        "paged" => time(rt, &mut PagedStore::new(rt.alloc()), name, count),
        "kept" => time_kept(rt, name, count),
        _ => println!(rt; "no store is named so"),
    }
}
