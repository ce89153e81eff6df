//! How often instructions were run, by their addresses.
ghost use Rattle.std.specs.Prelude.{◌≡◌, [], OnErr, OnOk};
ghost use Rattle.cx_exec.specs.Tallies.{IsTallied, tally_at};
ghost use Rattle.cx_region_task.specs.Turn.{most_steps};
ghost use Rattle.cx_look_cover.specs.Tallies.{programs_end, reaching};

use cx_exec::Tally;
use cx_look_turn::TurnMachine;
use cx_region::Region;
use cx_storage::Store;
use std::alloc::{AllocError, Global};
use std::marker::Model;

/// What an address has where no instruction was run.
const NO_RUNS: Tally = Tally { runs: 0, away: 0 };

/// The tally of an address; no runs where the tallies end before it.
pub(crate) fn tally_at(tallies: &[Tally], address: u32) -> Tally
    ensures { result ≡ tally_at tallies.now address }
{
    match tallies.get(address as usize) {
        Some(tally) => *tally,
        None => NO_RUNS,
    }
}

/// Makes tallies reach so many addresses at least.
fn make_reach(tallies: &mut Vec<Tally>, count: usize) -> Result<(), AllocError>
    ensures items { OnOk result (tallies.new.items ≡ reaching tallies.old.items count) }
    ensures err { OnErr result (tallies.new.items ≡ tallies.old.items) }
{
    if tallies.len() < count {
        tallies.reserve_exact(count - tallies.len())?;
        tallies.resize(count, NO_RUNS)?;
    }
    Ok(())
}

/// The end of the programs that are loaded: the highest address after one, 0 where there is none.
pub fn programs_end<S: Store + Drop>(region: &Region<S>) -> usize
    ensures { result ≡ programs_end region.now.shared.programs }
{
    let mut end: usize = 0;
    for (_, loaded) in region.shared().programs.iter() {
        end = end.max(loaded.at as usize + loaded.len as usize);
    }
    end
}

/// How often instructions were run and how often the machine then went elsewhere, by the addresses of storage from 0
/// on.
///
/// A turn's run is counted by running its machine once more, apart from the region. An address takes 16 bytes, up to
/// the highest one that the tallies were made to reach.
#[derive(Drop)]
pub struct Tallies {
    items: Vec<Tally>,
}

impl Model for Tallies {
    ghost use Rattle.std.specs.Prelude.{List};
    ghost use Rattle.cx_exec.specs.declared.tallied.Tally.{Tally as Counts};

    ghost Value = { List Counts };

    ghost view = { λ tallies. tallies.items.items };
}

impl Tallies {
    /// Tallies in which no instruction was run. It takes no memory.
    pub fn new(alloc: Global) -> Tallies
        ensures { result ≡ [] }
    {
        Tallies {
            items: Vec::new(alloc),
        }
    }

    /// The tallies in the order of addresses, from 0 on; beyond their end no instruction was counted. It takes no
    /// memory.
    pub fn as_slice(&self) -> &[Tally]
        ensures { result.now ≡ self.now }
    {
        self.items.as_slice()
    }

    /// Makes the tallies reach so many addresses at least. Then runs a machine as a turn does, until the entry is the
    /// next address, an instruction is interrupted, or 65,536 are done, and counts each instruction that it comes to at
    /// an address that they reach.
    ///
    /// An error comes only where memory for the counts was refused; then they stay as they were.
    pub fn run<S: Store + Drop>(
        &mut self,
        machine: &mut TurnMachine<S>,
        reach: usize,
    ) -> Result<(), AllocError>
        ensures tallied { OnOk result (IsTallied most_steps machine.old (reaching self.old reach) self.new) }
        ensures err { OnErr result (self.new ≡ self.old) }
    {
        make_reach(&mut self.items, reach)?;
        let _end = machine.run_tallied(self.items.as_mut_slice());
        Ok(())
    }
}
