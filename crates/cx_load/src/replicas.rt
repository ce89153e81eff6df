//! Equal entries of the table of programs.
ghost use Rattle.std.specs.Prelude.{◌≡◌, ◌↔◌, IsTrue, IfOk};

use crate::program::Loaded;
use cx_base::{Replica, Same};
use std::alloc::{AllocError, Global};

impl Same for Loaded {
    fn is_same(&self, other: &Self) -> bool {
        self == other
    }
}

impl Replica for Loaded {
    fn replica(&self, _alloc: Global) -> Result<Self, AllocError> {
        Ok(*self)
    }
}
