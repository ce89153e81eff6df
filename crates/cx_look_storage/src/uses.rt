//! What an area is, by the region's tables, and whose it is.
ghost use Rattle.std.specs.Prelude.{◌≡◌, ◌++◌, IfOk, OnOk};
ghost use Rattle.std.specs.Option.{option_copied, option_map};
ghost use Rattle.cx_storage.specs.Storage.{covers};
ghost use Rattle.cx_look_storage.specs.Uses.{area_line, area_owner, area_use, is_met, met_line, offset_of, task_use, use_of};
ghost use Rattle.cx_look_storage.specs.Parts.Walk.{fixed_use, program_at, stg_at, stg_use};

use cx_base::{hexadecimal, shown_name};
use cx_ebcdic::{Name4, Name8};
use cx_load::Loaded;
use cx_look_lines::{Report, decimal, joined};
use cx_program::LevelStack;
use cx_region::{Region, Task, Terminal, terminal_at};
use cx_storage::{Area, Kind, Store, address_after};
use indexmap::IndexMap;
use std::alloc::{AllocError, Global};

/// Whether an area has a byte at an address.
fn covers(area: Area, address: u32) -> bool
    ensures { result ≡ covers area address }
{
    area.start <= address && address - area.start < area.len
}

/// The offset in an area of the first byte that it has from an address on: 0 where it starts after the address.
fn offset_of(address: u32, area: Area) -> u32
    ensures { result ≡ offset_of address area }
{
    if covers(area, address) {
        address - area.start
    } else {
        0
    }
}

/// Whether an area has one of `n` bytes from an address on.
pub(crate) fn is_met(address: u32, n: u32, area: Area) -> bool
    ensures { result ≡ is_met address n area }
{
    let distance = address_after(area.start, 0x100_0000_u32.saturating_sub(address));
    covers(area, address) || distance < n
}

/// The name of the program that starts at an address.
fn program_at(programs: &IndexMap<Name8, Loaded>, start: u32) -> Option<(Name8, Loaded)>
    ensures { result ≡ program_at programs.now.entries start }
{
    for (name, loaded) in programs.iter() {
        if loaded.at == start {
            return Some((*name, *loaded));
        }
    }
    None
}

/// What a fixed area is: a program, or the common work area.
fn fixed_use(
    alloc: Global,
    programs: &IndexMap<Name8, Loaded>,
    start: u32,
) -> Result<Vec<u8>, AllocError>
    ensures { IfOk result (λ text. text.items ≡ fixed_use (program_at programs.now.entries start)) }
{
    let Some((name, _)) = program_at(programs, start) else {
        return b"CWA".to_vec(alloc);
    };
    joined(alloc, b"PROGRAM ", &shown_name(alloc, name)?)
}

/// The number of the level whose DFHEISTG starts at an address, counted from 1 for the highest.
#[tactic(auto, using(crate::proofs::LevelLemmas::this_level, crate::proofs::LevelLemmas::next_level, crate::proofs::LevelLemmas::no_level))]
fn stg_at(levels: &LevelStack, start: u32) -> Option<usize>
    ensures { result ≡ stg_at levels.now start }
{
    for i in 0..levels.len() {
        let level = levels.get(i)?;
        if level.stg == start {
            return Some(i + 1);
        }
    }
    None
}

/// What an area is, by the level whose DFHEISTG starts there.
fn stg_use(alloc: Global, level: Option<usize>) -> Result<Vec<u8>, AllocError>
    ensures { IfOk result (λ text. text.items ≡ stg_use level) }
{
    let Some(n) = level else {
        return b"OTHER".to_vec(alloc);
    };
    joined(alloc, b"DFHEISTG ", &decimal(alloc, n)?)
}

/// What an area is that a task was given unasked.
fn task_use(alloc: Global, task: Option<&Task>, start: u32) -> Result<Vec<u8>, AllocError>
    ensures { IfOk result (λ text. text.items ≡ task_use start (option_copied task.entry)) }
{
    let Some(task) = task else {
        return b"OTHER".to_vec(alloc);
    };
    if task.eib == start {
        return b"EIB".to_vec(alloc);
    }
    stg_use(alloc, stg_at(&task.levels, start))
}

/// What an area is that starts at an address.
#[tactic(auto, unfolding(crate::specs::Uses::use_of))]
fn use_of(
    alloc: Global,
    kind: Kind,
    programs: &IndexMap<Name8, Loaded>,
    task: Option<&Task>,
    start: u32,
) -> Result<Vec<u8>, AllocError>
    ensures { IfOk result (λ text. text.items ≡ use_of kind programs.now.entries (option_copied task.entry) start) }
{
    match kind {
        Kind::Fixed => fixed_use(alloc, programs, start),
        Kind::Got => b"GETMAIN".to_vec(alloc),
        Kind::System => task_use(alloc, task, start),
    }
}

/// What an area is, by the region's tables.
#[tactic(auto, unfolding(crate::specs::Uses::area_use))]
fn area_use<S: Store + Drop>(
    alloc: Global,
    region: &Region<S>,
    area: Area,
) -> Result<Vec<u8>, AllocError>
    ensures { IfOk result (λ text. text.items ≡ area_use region.now area) }
{
    let programs = &region.shared().programs;
    let kind = area.owner.kind;
    let Some((_, terminal)) = terminal_at(region.terminals(), area.owner.slot) else {
        return use_of(alloc, kind, programs, None, area.start);
    };
    use_of(alloc, kind, programs, terminal.task(), area.start)
}

/// Whose an area is.
#[tactic(auto, unfolding(crate::specs::Uses::area_owner))]
fn area_owner<S: Store + Drop>(
    alloc: Global,
    region: &Region<S>,
    area: Area,
) -> Result<Vec<u8>, AllocError>
    ensures { IfOk result (λ text. text.items ≡ area_owner region.now area) }
{
    let Some((name, _)) = terminal_at(region.terminals(), area.owner.slot) else {
        return b"REGION".to_vec(alloc);
    };
    shown_name(alloc, name)
}

/// Adds the line of an area: where it starts, its length, what it is, and whose.
///
/// An error comes only where memory for it was refused.
#[tactic(auto, unfolding(crate::specs::Uses::area_line))]
pub fn area_line<S: Store + Drop>(
    report: &mut Report,
    region: &Region<S>,
    area: Area,
) -> Result<(), AllocError>
    ensures { OnOk result (report.new ≡ report.old ++ area_line region.now area) }
{
    let start = hexadecimal::<6>(area.start);
    let len = hexadecimal::<6>(area.len);
    let what = area_use(report.alloc(), region, area)?;
    let owner = area_owner(report.alloc(), region, area)?;
    report.line(&[b"AREA", &start, b"LENGTH", &len, &what, b"OWNER", &owner])
}

/// Adds the line of an area that has bytes from an address on: as an area's line, with the offset of the first of them
/// in it.
#[tactic(auto, unfolding(crate::specs::Uses::met_line))]
pub(crate) fn met_line<S: Store + Drop>(
    report: &mut Report,
    region: &Region<S>,
    address: u32,
    area: Area,
) -> Result<(), AllocError>
    ensures { OnOk result (report.new ≡ report.old ++ met_line region.now address area) }
{
    let start = hexadecimal::<6>(area.start);
    let len = hexadecimal::<6>(area.len);
    let offset = hexadecimal::<6>(offset_of(address, area));
    let what = area_use(report.alloc(), region, area)?;
    let owner = area_owner(report.alloc(), region, area)?;
    report.line(&[
        b"AREA", &start, b"LENGTH", &len, b"OFFSET", &offset, &what, b"OWNER", &owner,
    ])
}
