//! Equal queues, resources and screens of their own memory, and whether two are equal.
ghost use Rattle.std.specs.Prelude.{◌≡◌, ◌↔◌, IsTrue, IfOk};

use crate::enqueues::Enqueues;
use crate::queues::{Queue, Queues};
use crate::resources::{Hold, ResourceName};
use crate::screen::{COLUMNS, ROWS, Screen};
use cx_base::{Replica, Same, are_same_items, are_same_tables, replica_of_items, replica_of_table};
use std::alloc::{AllocError, Global};

impl Same for Queue {
    fn is_same(&self, other: &Self) -> bool {
        self.last_read == other.last_read
            && are_same_items(self.items.as_slice(), other.items.as_slice())
    }
}

impl Replica for Queue {
    fn replica(&self, alloc: Global) -> Result<Self, AllocError> {
        let items = replica_of_items(alloc, self.items.as_slice())?;
        Ok(Queue {
            items,
            last_read: self.last_read,
        })
    }
}

impl Same for Queues {
    fn is_same(&self, other: &Self) -> bool {
        are_same_tables(&self.queues, &other.queues)
    }
}

/// Equal queues have memory for their names, and get more as names are added.
impl Replica for Queues {
    fn replica(&self, alloc: Global) -> Result<Self, AllocError> {
        let queues = replica_of_table(alloc, &self.queues)?;
        Ok(Queues {
            alloc,
            queues,
            item_bytes: self.item_bytes,
        })
    }
}

impl Same for Hold {
    fn is_same(&self, other: &Self) -> bool {
        self == other
    }
}

impl Replica for Hold {
    fn replica(&self, _alloc: Global) -> Result<Self, AllocError> {
        Ok(*self)
    }
}

impl Same for ResourceName {
    #[tactic(auto, using(crate::proofs::NameLemmas::resource_is))]
    fn is_same(&self, other: &Self) -> bool {
        self == other
    }
}

impl Same for Enqueues {
    fn is_same(&self, other: &Self) -> bool {
        are_same_tables(&self.resources, &other.resources)
    }
}

/// Equal resources have memory for their names, and get more as names are added.
impl Replica for Enqueues {
    fn replica(&self, alloc: Global) -> Result<Self, AllocError> {
        let resources = replica_of_table(alloc, &self.resources)?;
        Ok(Enqueues { resources })
    }
}

impl Same for Screen {
    fn is_same(&self, other: &Self) -> bool {
        are_same_rows(self.cells(), other.cells())
    }
}

impl Replica for Screen {
    fn replica(&self, _alloc: Global) -> Result<Self, AllocError> {
        Ok(*self)
    }
}

/// Whether two screens have the same rows.
fn are_same_rows(ones: &[[u8; COLUMNS]; ROWS], others: &[[u8; COLUMNS]; ROWS]) -> bool
    ensures { IsTrue result ↔ (ones.now ≡ others.now) }
{
    for i in 0..ROWS {
        let is_same = ones[i].as_slice() == others[i].as_slice();
        if !is_same {
            return false;
        }
    }
    true
}
