//! `RegionSnapshot`: all that a region keeps.
ghost use Rattle.std.specs.Prelude.{◌≡◌, ◌↔◌, IsTrue, IfOk, IfSome, OnOk, OnErr, ◌+◌, ◌++◌, ◌<◌, [], Some, fold, length, slice_get, take, unwrap_or};
ghost use Rattle.std.specs.List.{IsDistinct};
ghost use Rattle.std.specs.Map.{keys_of};
ghost use Rattle.cx_ebcdic.specs.Names.{is_name};
ghost use Rattle.cx_region.specs.Changes.{HasRoomFor};
ghost use Rattle.cx_region_snapshot.specs.Parts.Changes.{Becomes, MakeRoom, changed_at};
ghost use Rattle.cx_region_snapshot.specs.Hash.{hash_with_task, region_hash};

use crate::queues::KeptQueues;
use crate::terminal::TerminalSnapshot;
use cx_base::{
    Replica, Same, are_same_items, are_same_tables, hash_with, replica_of_table, share_replica,
};
use cx_ebcdic::{Name4, Name8};
use cx_load::Loaded;
use cx_region::{ChangedParts, ChangedTerminal, Region, RegionParts, Shared, Terminal};
use cx_service::Enqueues;
use cx_storage::Store;
use cx_storage_snapshot::StorageSnapshot;
use indexmap::IndexMap;
use std::alloc::{AllocError, Global};
use std::marker::Model;
use std::rc::Rc;

/// What is defined: programs and transactions.
#[derive(Drop)]
pub struct Defined {
    pub(crate) programs: IndexMap<Name8, Loaded>,
    pub(crate) transactions: IndexMap<Name4, Name8>,
}

/// All that a region keeps, as it was when the snapshot was taken. What is the same in two snapshots can be shared by
/// them.
#[derive(Drop)]
pub struct RegionSnapshot {
    storage: StorageSnapshot,
    time: u32,
    date: u32,
    counter: u32,
    defined: Rc<Defined>,
    terminals: Vec<TerminalSnapshot>,
    queues: KeptQueues,
    resources: Rc<Enqueues>,
}

impl Model for RegionSnapshot {
    ghost use Rattle.cx_region.specs.State.{RegionState};
    ghost use Rattle.cx_region.specs.Sound.{IsSound};

    ghost Value = { RegionState };

    ghost view = { λ r.
        record {
          shared = record {
            storage = r.storage;
            programs = r.defined.value.programs.entries;
            queues = r.queues;
            resources = r.resources.value;
          };
          time = r.time;
          date = r.date;
          transactions = r.defined.value.transactions.entries;
          terminals = r.terminals.items;
          counter = r.counter;
        } };

    ghost invariant = { λ r.
        IsSound (record {
          shared = record {
            storage = r.storage;
            programs = r.defined.value.programs.entries;
            queues = r.queues;
            resources = r.resources.value;
          };
          time = r.time;
          date = r.date;
          transactions = r.defined.value.transactions.entries;
          terminals = r.terminals.items;
          counter = r.counter;
        }) };
}

/// Programs and transactions: the earlier ones where they are the same.
fn defined_of(
    alloc: Global,
    programs: &IndexMap<Name8, Loaded>,
    transactions: &IndexMap<Name4, Name8>,
    before: Option<&RegionSnapshot>,
) -> Result<Rc<Defined>, AllocError>
    requires programs { IsDistinct is_name (keys_of programs.now.entries) }
    requires transactions { IsDistinct is_name (keys_of transactions.now.entries) }
    ensures programs { IfOk result (λ defined. defined.value.programs.entries ≡ programs.now.entries) }
    ensures transactions { IfOk result (λ defined. defined.value.transactions.entries ≡ transactions.now.entries) }
{
    if let Some(before) = before {
        let defined = &before.defined;
        if are_same_tables(programs, &defined.programs)
            && are_same_tables(transactions, &defined.transactions)
        {
            return defined.clone();
        }
    }
    let programs = replica_of_table(alloc, programs)?;
    let transactions = replica_of_table(alloc, transactions)?;
    Ok(Rc::new(
        alloc,
        Defined {
            programs,
            transactions,
        },
    )?)
}

/// The terminals, each kept apart.
#[tactic(auto, using(crate::proofs::TableLemmas::entry_more))]
fn snapshots_of(
    alloc: Global,
    terminals: &IndexMap<Name4, Terminal>,
    before: Option<&RegionSnapshot>,
) -> Result<Vec<TerminalSnapshot>, AllocError>
    ensures { IfOk result (λ snapshots. snapshots.items ≡ terminals.now.entries) }
{
    let mut snapshots = Vec::with_capacity(alloc, terminals.len())?;
    for i in 0..terminals.len() {
        let (name, terminal) = terminals.get_index(i).unwrap();
        let earlier = match before {
            Some(before) => before.terminals.get(i),
            None => None,
        };
        snapshots.push(TerminalSnapshot::take(alloc, *name, terminal, earlier)?)?;
    }
    Ok(snapshots)
}

/// The terminals that were kept, with their names.
fn terminals_of(
    alloc: Global,
    snapshots: &[TerminalSnapshot],
) -> Result<IndexMap<Name4, Terminal>, AllocError>
    requires { IsDistinct is_name (keys_of snapshots.now) }
    ensures { IfOk result (λ terminals. terminals.entries ≡ snapshots.now) }
{
    let mut terminals = IndexMap::with_capacity(alloc, snapshots.len())?;
    for i in 0..snapshots.len() {
        put_terminal(alloc, &mut terminals, snapshots, i)?;
    }
    Ok(terminals)
}

/// Puts one more terminal into the table.
fn put_terminal(
    alloc: Global,
    terminals: &mut IndexMap<Name4, Terminal>,
    snapshots: &[TerminalSnapshot],
    i: usize,
) -> Result<(), AllocError>
    requires distinct { IsDistinct is_name (keys_of snapshots.now) }
    requires so_far { terminals.old.entries ≡ take i snapshots.now }
    requires within { i < length snapshots.now }
    ensures { OnOk result (terminals.new.entries ≡ take (i + 1) snapshots.now) }
{
    let snapshot = &snapshots[i];
    let terminal = snapshot.terminal(alloc)?;
    terminals.insert(snapshot.name(), terminal)?;
    Ok(())
}

/// The value that is kept, made again, where it is another than the one that is there.
fn changed<T: Replica>(alloc: Global, there: &T, kept: &Rc<T>) -> Result<Option<T>, AllocError>
    ensures { IfOk result (λ given. unwrap_or given there.now ≡ kept.now.value) }
{
    if kept.is_same(there) {
        return Ok(None);
    }
    Ok(Some(kept.replica(alloc)?))
}

/// The terminal that is kept, made again, where the one that is there has no room for it.
fn made_terminal(
    alloc: Global,
    there: &Terminal,
    kept: &TerminalSnapshot,
) -> Result<Option<Terminal>, AllocError>
    ensures { IfOk result (λ given. HasRoomFor (unwrap_or given there.now) kept.now.1) }
{
    if kept.fits(there) {
        return Ok(None);
    }
    Ok(Some(kept.terminal(alloc)?))
}

/// The terminal at a place, where it has that name.
fn named_at(terminals: &IndexMap<Name4, Terminal>, i: usize, name: Name4) -> Option<&Terminal>
    ensures { IfSome result (λ terminal. slice_get terminals.now.entries i ≡ Some (name, terminal.now)) }
{
    let (at, terminal) = terminals.get_index(i)?;
    if *at == name { Some(terminal) } else { None }
}

/// Adds a terminal with its number, where one is given.
fn push_changed(
    changes: &mut Vec<ChangedTerminal>,
    number: usize,
    terminal: Option<Terminal>,
) -> Result<(), AllocError>
    ensures { OnOk result (changes.new.items ≡ changes.old.items ++ changed_at number terminal) }
{
    if let Some(terminal) = terminal {
        changes.push(ChangedTerminal { number, terminal })?;
    }
    Ok(())
}

/// The terminals that are kept, made again, where those that are there have no room for them; None where these have
/// other names.
#[tactic(auto, using(crate::proofs::ChangeLemmas::none_put))]
fn changed_terminals(
    alloc: Global,
    there: &IndexMap<Name4, Terminal>,
    kept: &[TerminalSnapshot],
) -> Result<Option<Vec<ChangedTerminal>>, AllocError>
    ensures { IfOk result (λ changes. IfSome changes (λ changes. MakeRoom there.now.entries kept.now changes.items)) }
{
    if there.len() != kept.len() {
        return Ok(None);
    }
    let mut changes = Vec::new(alloc);
    for i in 0..kept.len() {
        let one = &kept[i];
        let Some(terminal) = named_at(there, i, one.name()) else {
            return Ok(None);
        };
        let made = made_terminal(alloc, terminal, one)?;
        push_changed(&mut changes, i, made)?;
    }
    Ok(Some(changes))
}

impl RegionSnapshot {
    /// The state of a region. What is the same as in an earlier snapshot, `before`, is shared with that, so that a
    /// snapshot of what is like one before takes little memory; `before` has no other effect.
    ///
    /// An error comes only where an allocation failed.
    pub fn take<S: Store + Drop>(
        alloc: Global,
        region: &Region<S>,
        before: Option<&RegionSnapshot>,
    ) -> Result<RegionSnapshot, AllocError>
        ensures { IfOk result (λ snapshot. snapshot ≡ region.now) }
    {
        // First, since its clause says that the region is sound, which the calls after it need.
        let counter = region.counter();
        let shared = region.shared();
        let storage = StorageSnapshot::take(
            alloc,
            &shared.store,
            before.map(|before| &before.storage),
        )?;
        let defined = defined_of(alloc, &shared.programs, region.transactions(), before)?;
        let terminals = snapshots_of(alloc, region.terminals(), before)?;
        let queues = KeptQueues::take(alloc, &shared.queues, before.map(|before| &before.queues))?;
        let resources = share_replica(
            alloc,
            &shared.enqueues,
            before.map(|before| &before.resources),
        )?;
        Ok(RegionSnapshot {
            storage,
            time: region.time(),
            date: region.date(),
            counter,
            defined,
            terminals,
            queues,
            resources,
        })
    }

    /// What tasks share, as it was, in memory from where a region takes its own.
    fn shared_like<S: Store + Drop>(&self, shared: &Shared<S>) -> Result<Shared<S>, AllocError>
        ensures { IfOk result (λ made. made ≡ self.now.shared) }
    {
        let alloc = shared.alloc;
        Ok(Shared {
            alloc,
            store: self.storage.store_like(&shared.store)?,
            programs: replica_of_table(alloc, &self.defined.programs)?,
            queues: self.queues.queues().replica(alloc)?,
            enqueues: self.resources.replica(alloc)?,
        })
    }

    /// Whether a region has the same programs and transactions.
    fn is_defined_in<S: Store + Drop>(&self, region: &Region<S>) -> bool
        ensures programs { IsTrue result → region.now.shared.programs ≡ self.now.shared.programs }
        ensures transactions { IsTrue result → region.now.transactions ≡ self.now.transactions }
    {
        region.counter();
        are_same_tables(&region.shared().programs, &self.defined.programs)
            && are_same_tables(region.transactions(), &self.defined.transactions)
    }

    /// What has to be put over a region that is much like this state, so that it has it; None where other areas are
    /// there, or other programs, transactions or terminals are defined.
    ///
    /// An error comes only where an allocation failed.
    fn changes_of<S: Store + Drop>(
        &self,
        region: &Region<S>,
    ) -> Result<Option<ChangedParts>, AllocError>
        ensures { IfOk result (λ parts. IfSome parts (Becomes region.now self.now)) }
    {
        let shared = region.shared();
        let alloc = shared.alloc;
        if !self.storage.has_areas_of(&shared.store) || !self.is_defined_in(region) {
            return Ok(None);
        }
        let terminals = changed_terminals(alloc, region.terminals(), self.terminals.as_slice())?;
        let Some(terminals) = terminals else {
            return Ok(None);
        };
        let queues = changed(alloc, &shared.queues, self.queues.queues())?;
        let enqueues = changed(alloc, &shared.enqueues, &self.resources)?;
        Ok(Some(ChangedParts {
            queues,
            enqueues,
            terminals,
            time: self.time,
            date: self.date,
            counter: self.counter,
        }))
    }

    /// Gives a region this state in place of all that it has. It is a function of its own, since what it makes takes room
    /// on the stack that each call would fill.
    #[cold]
    #[inline(never)]
    fn put_anew<S: Store + Drop>(&self, region: &mut Region<S>) -> Result<(), AllocError>
        ensures ok { OnOk result (region.new ≡ self.now) }
        ensures err { OnErr result (region.new ≡ region.old) }
    {
        let shared = self.shared_like(region.shared())?;
        let alloc = shared.alloc;
        let transactions = replica_of_table(alloc, &self.defined.transactions)?;
        let terminals = terminals_of(alloc, self.terminals.as_slice())?;
        region.put(RegionParts {
            shared,
            transactions,
            terminals,
            time: self.time,
            date: self.date,
            counter: self.counter,
        });
        Ok(())
    }

    /// Gives a region this state in place of the one that it has. Where both have the same areas, programs, transactions
    /// and terminals, what differs is given its state where it is, or made anew. Else the old state is dropped once all of
    /// the new one is made, so that memory holds both until then.
    ///
    /// An error comes only where an allocation failed; then the region is as before.
    pub fn restore<S: Store + Drop>(&self, region: &mut Region<S>) -> Result<(), AllocError>
        ensures ok { OnOk result (region.new ≡ self.now) }
        ensures err { OnErr result (region.new ≡ region.old) }
    {
        if let Some(parts) = self.changes_of(region)? {
            region.put_over(&self.storage, self.terminals.as_slice(), parts);
            return Ok(());
        }
        self.put_anew(region)
    }

    /// A region of this state, over an empty store.
    ///
    /// An error comes only where an allocation failed; the store is dropped then.
    pub fn region_in<S: Store + Drop>(
        &self,
        alloc: Global,
        store: S,
    ) -> Result<Region<S>, AllocError>
        requires { S.storage store ≡ [] }
        ensures { IfOk result (λ region. region ≡ self.now) }
    {
        let mut region = Region::new(alloc, store)?;
        self.restore(&mut region)?;
        Ok(region)
    }

    /// Whether two snapshots are of equal states.
    pub fn is_same(&self, other: &RegionSnapshot) -> bool
        ensures { IsTrue result ↔ (self.now ≡ other.now) }
    {
        self.counter == other.counter
            && self.time == other.time
            && self.date == other.date
            && are_same_items(self.terminals.as_slice(), other.terminals.as_slice())
            && self.storage.is_same(&other.storage)
            && self.queues.is_same(&other.queues)
            && self.resources.is_same(&other.resources)
            && are_same_tables(&self.defined.programs, &other.defined.programs)
            && are_same_tables(&self.defined.transactions, &other.defined.transactions)
    }

    /// Its hash: that of storage, of tasks' registers and next addresses, and of queues' items. Equal states have equal
    /// hashes.
    #[tactic(auto, unfolding(crate::specs::Hash::region_hash))]
    pub fn hash(&self) -> u64
        ensures { result ≡ region_hash self.now }
    {
        let tasks = hash_of_tasks(self.storage.hash(), self.terminals.as_slice());
        hash_with(tasks, self.queues.hash())
    }
}

/// The hash with the tasks of terminals.
fn hash_of_tasks(before: u64, terminals: &[TerminalSnapshot]) -> u64
    ensures { result ≡ fold (λ hash entry. hash_with_task hash entry.1.task) before terminals.now }
{
    let mut hash = before;
    for terminal in terminals {
        hash = terminal.hash(hash);
    }
    hash
}
