//! Equal inputs and next transactions of their own memory, and whether two are equal.
ghost use Rattle.std.specs.Prelude.{◌≡◌, ◌↔◌, IsTrue, IfOk};

use crate::state::{Input, NextTransaction};
use cx_base::{Replica, Same};
use std::alloc::{AllocError, Global};

impl Same for Input {
    fn is_same(&self, other: &Self) -> bool {
        self.aid == other.aid && self.bytes.is_same(&other.bytes)
    }
}

impl Replica for Input {
    fn replica(&self, alloc: Global) -> Result<Self, AllocError> {
        let bytes = self.bytes.replica(alloc)?;
        Ok(Input {
            aid: self.aid,
            bytes,
        })
    }
}

impl Same for NextTransaction {
    fn is_same(&self, other: &Self) -> bool {
        self.tran.is_same(&other.tran) && self.commarea.is_same(&other.commarea)
    }
}

impl Replica for NextTransaction {
    fn replica(&self, alloc: Global) -> Result<Self, AllocError> {
        let commarea = self.commarea.replica(alloc)?;
        Ok(NextTransaction {
            tran: self.tran,
            commarea,
        })
    }
}
