//! `KeptQueues`: queues as they were, with their hash.
ghost use Rattle.std.specs.Prelude.{◌≡◌, ◌↔◌, IsTrue, IfOk, fold, length};
ghost use Rattle.cx_base.specs.Hash.{hash_with};
ghost use Rattle.cx_region_snapshot.specs.Hash.{hash_with_item, queues_hash};

use cx_base::{Replica, Same, hash_of_bytes, hash_with};
use cx_ebcdic::Name8;
use cx_service::{Queue, Queues};
use indexmap::IndexMap;
use std::alloc::{AllocError, Global};
use std::marker::Model;
use std::rc::Rc;

/// Queues as they were, which snapshots share, and their hash.
#[derive(Drop)]
pub struct KeptQueues {
    queues: Rc<Queues>,
    hash: u64,
}

impl Model for KeptQueues {
    ghost use Rattle.std.specs.Prelude.{◌≡◌};
    ghost use Rattle.cx_region_snapshot.specs.Hash.{queues_hash};
    ghost use Rattle.cx_service.specs.Queues.{Queues as QueueList};

    ghost Value = { QueueList };

    ghost view = { λ kept. kept.queues.value };

    ghost invariant = { λ kept. kept.hash ≡ queues_hash kept.queues.value };
}

impl KeptQueues {
    /// These queues: the earlier ones where they are the same.
    ///
    /// An error comes only where an allocation failed.
    pub(crate) fn take(
        alloc: Global,
        queues: &Queues,
        earlier: Option<&KeptQueues>,
    ) -> Result<KeptQueues, AllocError>
        ensures { IfOk result (λ kept. kept ≡ queues.now) }
    {
        if let Some(earlier) = earlier {
            if earlier.queues.is_same(queues) {
                let queues = earlier.queues.clone()?;
                return Ok(KeptQueues {
                    queues,
                    hash: earlier.hash,
                });
            }
        }
        let hash = hash_of_queues(queues.all());
        let queues = Rc::new(alloc, queues.replica(alloc)?)?;
        Ok(KeptQueues { queues, hash })
    }

    /// The queues.
    pub(crate) fn queues(&self) -> &Rc<Queues>
        ensures { result.now.value ≡ self.now }
    {
        &self.queues
    }

    /// Their hash. Equal queues have equal hashes.
    pub(crate) fn hash(&self) -> u64
        ensures { result ≡ queues_hash self.now }
    {
        self.hash
    }
}

impl Same for KeptQueues {
    fn is_same(&self, other: &KeptQueues) -> bool {
        self.hash == other.hash && self.queues.is_same(&other.queues)
    }
}

/// The hash with an item's length and bytes.
fn hash_with_item(hash: u64, item: &[u8]) -> u64
    ensures { result ≡ hash_with_item hash item.now }
{
    hash_of_bytes(hash_with(hash, item.len() as u64), item)
}

/// The hash with how many items a queue has, and with these.
fn hash_with_queue(hash: u64, queue: &Queue) -> u64
    ensures { result ≡ fold hash_with_item (hash_with hash (length queue.now.items)) queue.now.items }
{
    let items = queue.items();
    let mut all = hash_with(hash, items.len() as u64);
    for item in items {
        all = hash_with_item(all, item.as_slice());
    }
    all
}

/// The hash of queues.
#[tactic(auto, unfolding(crate::specs::Hash::queues_hash))]
fn hash_of_queues(queues: &IndexMap<Name8, Queue>) -> u64
    ensures { result ≡ queues_hash queues.now.entries }
{
    let mut hash = 0;
    for (_, queue) in queues.iter() {
        hash = hash_with_queue(hash, queue);
    }
    hash
}
