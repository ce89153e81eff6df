//! Temporary storage queues.
ghost use Rattle.std.specs.Prelude.{◌≡◌, ℕ, ◌+◌, ◌-◌, ◌<◌, ◌≤◌, ◌^◌, List, [], ◌∷◌, ◌++◌, length, slice_set, Option, None, Some, is_some, true, unwrap_or, IfOk, OnOk, OnErr, is_none, if◌then◌else◌, IsErrOf, IsOkUnless, IfSome, MatchOption};
ghost use Rattle.std.specs.Option.{option_map, option_copied};
ghost use Rattle.std.specs.Result.{result_err, result_map_both};
ghost use Rattle.cx_service.specs.Queues.{is_item_length as is_length, queue_of, queue_or_empty, count_of, item_numbered, item_of, reading_of_queue, reading_of, size_of, data_of, write_fault, rewrite_fault, with_item, with_item_at, with_last_read, without_queue, AreSoundQueues, IsSoundQueue};

use crate::faults::ServiceFault;
use cx_base::List;
use cx_ebcdic::Name8;
use indexmap::IndexMap;
use std::alloc::{AllocError, Global};
use std::marker::Model;

/// The most queues.
const MOST_QUEUES: usize = 256;

/// The most items of a queue.
const MOST_ITEMS: usize = 32_767;

/// The most bytes of an item.
const MOST_BYTES: usize = 32_767;

/// The most bytes of all queues together.
const MOST_DATA: usize = 4_194_304;

/// An item of a queue: its bytes.
pub type Item = List<u8>;

/// What READQ TS reads, without the item's bytes.
#[derive(Clone, Copy, PartialEq, Eq)]
pub struct Reading {
    /// The item's number, counted from 1.
    pub number: usize,
    /// Its length in bytes, 1 to 32,767.
    pub len: u16,
    /// The number of the queue's items, at most 32,767.
    pub count: u16,
}

/// A queue: its items, and the number of the item last read, counted from 1; 0 where none was.
#[derive(Drop)]
pub struct Queue {
    pub(crate) items: Vec<Item>,
    pub(crate) last_read: usize,
}

impl Model for Queue {
    ghost use Rattle.cx_service.specs.Queues.{Queue as QueueState};

    ghost Value = { QueueState };

    ghost view = { λ queue. record { items = queue.items.items; last_read = queue.last_read } };
}

impl Queue {
    /// A queue without items.
    fn new(alloc: Global) -> Queue
        ensures items { result.items ≡ [] }
        ensures last_read { result.last_read ≡ 0 }
    {
        Queue {
            items: Vec::new(alloc),
            last_read: 0,
        }
    }

    /// The number of its items.
    pub fn count(&self) -> usize
        ensures { result ≡ length self.now.items }
    {
        self.items.len()
    }

    /// The number of the item last read, counted from 1; 0 where none was.
    pub fn last_read(&self) -> usize
        ensures { result ≡ self.now.last_read }
    {
        self.last_read
    }

    /// Its items, number 1 first.
    pub fn items(&self) -> &[Item]
        ensures { result.now ≡ self.now.items }
    {
        self.items.as_slice()
    }

    /// Item number n, counted from 1; None where there is no such item.
    pub fn item(&self, n: usize) -> Option<&Item>
        ensures { option_copied result ≡ item_numbered n self.now }
    {
        if n == 0 {
            return None;
        }
        self.items.get(n - 1)
    }

    /// How many bytes its items have together, below 2^64.
    pub fn size(&self) -> usize
        requires { size_of self.now < 2 ^ 64 }
        ensures { result ≡ size_of self.now }
    {
        self.items.iter().map(|item| item.as_slice().len()).sum()
    }

    /// The item with the number that is asked for, else the one after the item last read; None where there is no such
    /// item.
    #[tactic(auto, unfolding(crate::specs::Queues::reading_of_queue))]
    fn reading(&self, asked: Option<usize>) -> Option<Reading>
        requires { IsSoundQueue self.now }
        ensures reading { result ≡ reading_of_queue asked self.now }
    {
        let number = asked.unwrap_or(self.last_read + 1);
        let item = self.item(number)?;
        Some(Reading {
            number,
            len: item.as_slice().len() as u16,
            count: self.count() as u16,
        })
    }

    /// Puts an item last, and answers its number.
    fn push(&mut self, item: Item) -> Result<usize, AllocError>
        ensures ok { OnOk result (self.new ≡ record self.old { items = self.old.items ++ item ∷ [] }) }
        ensures number { IfOk result (λ n. n ≡ length self.old.items + 1) }
        ensures err { OnErr result (self.new ≡ self.old) }
    {
        self.items.push(item)?;
        Ok(self.items.len())
    }

    /// Puts an item in the place of the one that `at` others precede, where it is there.
    #[tactic(auto, using(std::proofs::lemmas::List::set_past))]
    fn replace(&mut self, at: usize, item: Item)
        ensures { self.new ≡ record self.old { items = slice_set self.old.items at item } }
    {
        if at < self.items.len() {
            self.items[at] = item;
        }
    }

    /// Makes item n the one last read.
    fn mark(&mut self, n: usize)
        ensures { self.new ≡ record self.old { last_read = n } }
    {
        self.last_read = n;
    }
}

/// The temporary storage queues of a region: at most 256, each with at most 32,767 items of 1 to 32,767 bytes, and at
/// most 4,194,304 bytes in all. Items are numbered from 1. One number last read stands for all tasks.
///
/// Application Programmer's Reference Manual, SC33-0077, "Temporary Storage Control"; the limits are this product's.
#[derive(Drop)]
pub struct Queues {
    pub(crate) alloc: Global,
    pub(crate) queues: IndexMap<Name8, Queue>,
    pub(crate) item_bytes: usize,
}

impl Model for Queues {
    ghost use Rattle.std.specs.Prelude.{◌≡◌};
    ghost use Rattle.cx_service.specs.Queues.{Queues as QueueList, AreSoundQueues, data_of};

    ghost Value = { QueueList };

    ghost view = { λ all. all.queues.entries };

    ghost invariant = { λ all. AreSoundQueues all.queues.entries × (all.item_bytes ≡ data_of all.queues.entries) };
}

impl Queues {
    /// No queue yet.
    ///
    /// An error comes only where memory for the names was refused.
    pub fn new(alloc: Global) -> Result<Queues, AllocError>
        ensures empty { IfOk result (λ queues. queues ≡ []) }
        ensures sound { IfOk result AreSoundQueues }
    {
        let queues = IndexMap::with_capacity(alloc, MOST_QUEUES)?;
        Ok(Queues {
            alloc,
            queues,
            item_bytes: 0,
        })
    }

    /// All queues with their names, the first made first.
    pub fn all(&self) -> &IndexMap<Name8, Queue>
        ensures queues { result.now.entries ≡ self.now }
        ensures sound { AreSoundQueues self.now }
    {
        &self.queues
    }

    /// The number of a queue's items; None where there is no such queue.
    pub fn items(&self, name: Name8) -> Option<usize>
        ensures count { result ≡ count_of self.now name }
        ensures sound { AreSoundQueues self.now }
    {
        self.queues.get(&name).map(|queue| queue.count())
    }

    /// The bytes of a queue's item n, counted from 1; None where there is no such item or queue.
    pub fn item(&self, name: Name8, n: usize) -> Option<&[u8]>
        ensures { option_map (λ bytes. bytes.now) result ≡ item_of self.now name n }
    {
        let queue = self.queues.get(&name)?;
        let item = queue.item(n)?;
        Some(item.as_slice())
    }

    /// The number of bytes of a queue's item n, counted from 1; None where there is no such item or queue.
    fn item_len(&self, name: Name8, n: usize) -> Option<usize>
        ensures { result ≡ option_map length (item_of self.now name n) }
    {
        self.item(name, n).map(|bytes| bytes.len())
    }

    /// The condition that `write` of `len` bytes would meet, apart from Memory:
    /// Lengerr where the length is below 1 or above 32,767; Itemerr where the queue has 32,767 items; Nospace where it
    /// would be a 257th queue, or the data of all queues more than 4,194,304 bytes (WRITEQ TS).
    #[tactic(auto, using(std::proofs::lemmas::Bool::Decides::nat_tests), unfolding(crate::specs::Queues::write_fault))]
    pub fn can_write(&self, name: Name8, len: usize) -> Result<(), ServiceFault>
        ensures { result_err result ≡ write_fault self.now name len }
    {
        if !is_item_length(len) {
            return Err(ServiceFault::Lengerr);
        }
        let count = self.items(name);
        if count.unwrap_or(0) >= MOST_ITEMS {
            return Err(ServiceFault::Itemerr);
        }
        if count.is_none() && self.queues.len() >= MOST_QUEUES {
            return Err(ServiceFault::Nospace);
        }
        if self.item_bytes + len > MOST_DATA {
            return Err(ServiceFault::Nospace);
        }
        Ok(())
    }

    /// Puts an item last in a queue, which is made where it isn't there, and answers the item's number (WRITEQ TS).
    ///
    /// The conditions are those of `can_write`, in that order, and then Memory. After any of them all is as before.
    pub fn write(&mut self, name: Name8, bytes: &[u8]) -> Result<usize, ServiceFault>
        ensures written { OnOk result (self.new ≡ with_item self.old name bytes.now) }
        ensures number { IfOk result (λ n. n ≡ unwrap_or (count_of self.old name) 0 + 1) }
        ensures conditions { MatchOption (write_fault self.old name (length bytes.now))
            (IsOkUnless result ServiceFault.Memory) (IsErrOf result) }
        ensures err { OnErr result (self.new ≡ self.old) }
        ensures sound { AreSoundQueues self.new }
    {
        self.can_write(name, bytes.len())?;
        let number = put_last(self.alloc, &mut self.queues, name, bytes)?;
        self.item_bytes += bytes.len();
        Ok(number)
    }

    /// The condition that `rewrite` of item n by `len` bytes would meet, apart from Memory:
    /// Lengerr where the length is below 1 or above 32,767; Qiderr where there is no such queue; Itemerr where there is
    /// no such item; Nospace where the data of all queues, without the old item, would be more than 4,194,304 bytes.
    #[tactic(auto, using(std::proofs::lemmas::Bool::Decides::nat_tests), unfolding(crate::specs::Queues::rewrite_fault))]
    pub fn can_rewrite(&self, name: Name8, n: usize, len: usize) -> Result<(), ServiceFault>
        ensures { result_err result ≡ rewrite_fault self.now name n len }
    {
        if !is_item_length(len) {
            return Err(ServiceFault::Lengerr);
        }
        if self.items(name).is_none() {
            return Err(ServiceFault::Qiderr);
        }
        let Some(old_len) = self.item_len(name, n) else {
            return Err(ServiceFault::Itemerr);
        };
        if self.item_bytes - old_len + len > MOST_DATA {
            return Err(ServiceFault::Nospace);
        }
        Ok(())
    }

    /// Puts other bytes in the place of a queue's item n. The number last read stays (WRITEQ TS with REWRITE).
    ///
    /// The conditions are those of `can_rewrite`, in that order, and then Memory. After any of them all is as before.
    pub fn rewrite(&mut self, name: Name8, n: usize, bytes: &[u8]) -> Result<(), ServiceFault>
        ensures rewritten { OnOk result (self.new ≡ with_item_at self.old name n bytes.now) }
        ensures conditions { MatchOption (rewrite_fault self.old name n (length bytes.now))
            (IsOkUnless result ServiceFault.Memory) (IsErrOf result) }
        ensures err { OnErr result (self.new ≡ self.old) }
        ensures sound { AreSoundQueues self.new }
    {
        self.can_rewrite(name, n, bytes.len())?;
        let old_len = self.item_len(name, n).unwrap_or(0);
        let item = Item::from_slice(self.alloc, bytes)?;
        put_at(&mut self.queues, name, n, item);
        self.item_bytes = self.item_bytes - old_len + bytes.len();
        Ok(())
    }

    /// What READQ TS reads: the item with the number that is asked for, else the one after the item last read, by any
    /// task.
    ///
    /// Qiderr comes where there is no such queue, then Itemerr where there is no such item.
    #[tactic(auto, unfolding(crate::specs::Queues::reading_of))]
    pub fn reading(&self, name: Name8, asked: Option<usize>) -> Result<Reading, ServiceFault>
        ensures reading { result ≡ reading_of self.now name asked }
        ensures some { IfOk result (λ reading. 1 ≤ reading.len) }
        ensures at_most_32767 { IfOk result (λ reading. (reading.len ≤ 32767) × (reading.count ≤ 32767)) }
        ensures sound { AreSoundQueues self.now }
    {
        let queue = self.queues.get(&name).ok_or(ServiceFault::Qiderr)?;
        queue.reading(asked).ok_or(ServiceFault::Itemerr)
    }

    /// Makes a queue's item n, counted from 1, the one last read (READQ TS). The queue must have such an item.
    pub fn mark_read(&mut self, name: Name8, n: usize)
        requires { is_some (item_of self.old name n) ≡ true }
        ensures marked { self.new ≡ with_last_read self.old name n }
        ensures sound { AreSoundQueues self.new }
    {
        mark_read(&mut self.queues, name, n);
    }

    /// Makes a queue's item n, counted from 1, the one last read; `item` gives its bytes (READQ TS with ITEM).
    ///
    /// Qiderr comes where there is no such queue, then Itemerr where there is no such item; then all is as before.
    #[tactic(auto, using(crate::specs::Facts::Readings::reading_there, crate::specs::Facts::Readings::number_asked))]
    pub fn read(&mut self, name: Name8, n: usize) -> Result<(), ServiceFault>
        ensures read { OnOk result (self.new ≡ with_last_read self.old name n) }
        ensures conditions { result_err result ≡ result_err (reading_of self.old name (Some n)) }
        ensures err { OnErr result (self.new ≡ self.old) }
        ensures sound { AreSoundQueues self.new }
    {
        self.reading(name, Some(n))?;
        self.mark_read(name, n);
        Ok(())
    }

    /// Makes the item after the one last read, by any task, the one last read, and answers its number, counted from 1
    /// (READQ TS with NEXT).
    ///
    /// Qiderr comes where there is no such queue, then Itemerr where no item is left; then all is as before.
    #[tactic(auto, using(crate::specs::Facts::Readings::reading_there))]
    pub fn read_next(&mut self, name: Name8) -> Result<usize, ServiceFault>
        ensures number { result
            ≡ result_map_both (λ reading. reading.number) (λ fault. fault) (reading_of self.old name None) }
        ensures read { IfOk result (λ n. self.new ≡ with_last_read self.old name n) }
        ensures err { OnErr result (self.new ≡ self.old) }
        ensures sound { AreSoundQueues self.new }
    {
        let reading = self.reading(name, None)?;
        self.mark_read(name, reading.number);
        Ok(reading.number)
    }

    /// Removes a queue, with its number last read; where there is none of that name, all is as before.
    #[tactic(auto, unfolding(crate::specs::Queues::without_queue))]
    pub fn remove(&mut self, name: Name8)
        ensures removed { self.new ≡ without_queue self.old name }
        ensures sound { AreSoundQueues self.new }
    {
        match self.queues.shift_remove(&name) {
            Some(queue) => self.item_bytes -= queue.size(),
            None => (),
        }
    }

    /// Deletes a queue, with its number last read (DELETEQ TS).
    ///
    /// Qiderr comes where there is no such queue; then all is as before.
    pub fn delete(&mut self, name: Name8) -> Result<(), ServiceFault>
        ensures deleted { OnOk result (self.new ≡ without_queue self.old name) }
        ensures conditions { result_err result
            ≡ (if is_none (queue_of self.old name) then Some ServiceFault.Qiderr else None) }
        ensures err { OnErr result (self.new ≡ self.old) }
        ensures sound { AreSoundQueues self.new }
    {
        if self.items(name).is_none() {
            return Err(ServiceFault::Qiderr);
        }
        self.remove(name);
        Ok(())
    }
}

/// Whether an item may have `len` bytes.
fn is_item_length(len: usize) -> bool
    ensures { result ≡ is_length len }
{
    len >= 1 && len <= MOST_BYTES
}

/// Puts an item last in a queue, which is made where it isn't there, and answers the item's number.
#[tactic(auto, using(std::proofs::lemmas::Map::Steps::set_value_same, crate::proofs::ItemLemmas::with_item_present))]
fn put_last(
    alloc: Global,
    queues: &mut IndexMap<Name8, Queue>,
    name: Name8,
    bytes: &[u8],
) -> Result<usize, AllocError>
    ensures ok { OnOk result (queues.new.entries ≡ with_item queues.old.entries name bytes.now) }
    ensures number { IfOk result (λ n. n ≡ unwrap_or (count_of queues.old.entries name) 0 + 1) }
    ensures err { OnErr result (queues.new.entries ≡ queues.old.entries) }
{
    let item = Item::from_slice(alloc, bytes)?;
    match queues.get_mut(&name) {
        Some(queue) => {
            let number = queue.push(item)?;
            Ok(number)
        }
        None => put_first(alloc, queues, name, item),
    }
}

/// Makes a queue with one item.
#[tactic(auto, unfolding(crate::specs::Queues::with_item))]
fn put_first(
    alloc: Global,
    queues: &mut IndexMap<Name8, Queue>,
    name: Name8,
    item: Item,
) -> Result<usize, AllocError>
    requires { queue_of queues.old.entries name ≡ None }
    ensures ok { OnOk result (queues.new.entries ≡ with_item queues.old.entries name item) }
    ensures number { IfOk result (λ n. n ≡ 1) }
    ensures err { OnErr result (queues.new.entries ≡ queues.old.entries) }
{
    let mut queue = Queue::new(alloc);
    let number = queue.push(item)?;
    queues.insert(name, queue)?;
    Ok(number)
}

/// Puts an item in the place of item n of a queue, where it is there.
#[tactic(auto, using(cx_base::specs::Facts::Tables::set_value_absent), unfolding(crate::specs::Queues::with_item_at))]
fn put_at(queues: &mut IndexMap<Name8, Queue>, name: Name8, n: usize, item: Item)
    ensures { queues.new.entries ≡ with_item_at queues.old.entries name n item }
{
    match queues.get_mut(&name) {
        Some(queue) => queue.replace(n.saturating_sub(1), item),
        None => (),
    }
}

/// Makes item n of a queue the one last read, where the queue is there.
#[tactic(auto, using(cx_base::specs::Facts::Tables::set_value_absent), unfolding(crate::specs::Queues::with_last_read))]
fn mark_read(queues: &mut IndexMap<Name8, Queue>, name: Name8, n: usize)
    ensures { queues.new.entries ≡ with_last_read queues.old.entries name n }
{
    match queues.get_mut(&name) {
        Some(queue) => queue.mark(n),
        None => (),
    }
}
