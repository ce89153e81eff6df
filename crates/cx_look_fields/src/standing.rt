//! Where a level stands.
ghost use Rattle.std.specs.Prelude.{◌≡◌, ◌-◌, ◌≤◌, Some, if◌then◌else◌, slice_get, slice_index, option_map};
ghost use Rattle.cx_program.specs.Levels.{all_levels};
ghost use Rattle.cx_look_fields.specs.Fields.{calling, current, own_offset, standing_in};
ghost use Rattle.cx_look_symbols.specs.Places.{spot_before, spot_of};
ghost use Rattle.cx_storage.specs.Address.{address_in};

use cx_ebcdic::Name8;
use cx_load::Loaded;
use cx_look_symbols::{Spot, place_at_address, spot_before};
use cx_program::{Level, LevelStack};
use cx_region_state::Task;
use cx_storage::address_in;
use indexmap::IndexMap;

/// Where a level stands: its program, its registers, and a byte of the statement that it is at, if a program has that
/// byte.
#[derive(Clone, Copy)]
pub struct Standing {
    pub program: Name8,
    pub regs: [u32; 16],
    pub spot: Option<Spot>,
}

impl Standing {
    /// The offset of that byte in the level's program, in bytes; None where no program has it, or another one.
    pub fn offset(&self) -> Option<u32>
        ensures { result ≡ own_offset self.now }
    {
        let spot = self.spot?;
        if spot.program == self.program {
            Some(spot.offset)
        } else {
            None
        }
    }
}

/// Where a level stands that has called another. It takes no memory.
pub fn calling(programs: &IndexMap<Name8, Loaded>, level: &Level) -> Standing
    ensures { result ≡ calling programs.now.entries level.now }
{
    Standing {
        program: level.program,
        regs: level.regs,
        spot: spot_before(programs, address_in(level.regs[14])),
    }
}

/// A byte of the statement that the current level is at.
fn spot_now(programs: &IndexMap<Name8, Loaded>, task: &Task) -> Option<Spot>
    ensures { let back = spot_before programs.now.entries (address_in (slice_index task.now.regs 14)) in
        result ≡ (if task.now.due then back else spot_of programs.now.entries task.now.next) }
{
    if task.due {
        spot_before(programs, address_in(task.cpu.regs[14]))
    } else {
        place_at_address(programs, task.cpu.next).spot
    }
}

/// Where the current level stands.
fn current(programs: &IndexMap<Name8, Loaded>, task: &Task) -> Standing
    ensures { result ≡ current programs.now.entries task.now }
{
    Standing {
        program: task.levels.current().program,
        regs: task.cpu.regs,
        spot: spot_now(programs, task),
    }
}

/// Where the level at an index stands that has called another.
fn calling_at(
    programs: &IndexMap<Name8, Loaded>,
    levels: &LevelStack,
    index: usize,
) -> Option<Standing>
    ensures { result ≡ option_map (calling programs.now.entries) (slice_get (all_levels levels.now) index) }
{
    let level = levels.get(index)?;
    Some(calling(programs, level))
}

/// Where the level of a number stands, 1 being the highest.
#[tactic(auto, unfolding(crate::specs::Fields::standing_in))]
fn level_numbered(programs: &IndexMap<Name8, Loaded>, task: &Task, k: u8) -> Option<Standing>
    ensures { result ≡ standing_in programs.now.entries task.now (Some k) }
{
    let k = usize::from(k);
    if k == task.levels.len() {
        return Some(current(programs, task));
    }
    calling_at(programs, &task.levels, k.saturating_sub(1))
}

/// Where the level of a number stands, 1 being the highest, or without one the current level; None where there is no
/// such level. It takes no memory.
#[tactic(auto, unfolding(crate::specs::Fields::standing_in))]
pub fn standing_in(
    programs: &IndexMap<Name8, Loaded>,
    task: &Task,
    k: Option<u8>,
) -> Option<Standing>
    ensures { result ≡ standing_in programs.now.entries task.now k }
{
    match k {
        Some(k) => level_numbered(programs, task, k),
        None => Some(current(programs, task)),
    }
}
