//! Names, lists of bytes, and values that may be there.
ghost use Rattle.std.specs.Prelude.{◌≡◌, ◌↔◌, IsTrue, IfOk};

use crate::List;
use crate::replica::{Replica, Same};
use cx_ebcdic::Name;
use std::alloc::{AllocError, Global};

impl<const WIDTH: usize> Same for Name<WIDTH> {
    fn is_same(&self, other: &Self) -> bool {
        let one = self.bytes();
        let other = other.bytes();
        one.as_slice() == other.as_slice()
    }
}

impl<const WIDTH: usize> Replica for Name<WIDTH> {
    fn replica(&self, _alloc: Global) -> Result<Self, AllocError> {
        Ok(*self)
    }
}

impl Same for List<u8> {
    fn is_same(&self, other: &Self) -> bool {
        self.as_slice() == other.as_slice()
    }
}

impl Replica for List<u8> {
    fn replica(&self, alloc: Global) -> Result<Self, AllocError> {
        List::from_slice(alloc, self.as_slice())
    }
}

impl<T: Same> Same for Option<T> {
    fn is_same(&self, other: &Self) -> bool {
        match (self, other) {
            (Some(one), Some(other)) => one.is_same(other),
            (None, None) => true,
            _ => false,
        }
    }
}

impl<T: Replica> Replica for Option<T> {
    fn replica(&self, alloc: Global) -> Result<Self, AllocError> {
        match self {
            Some(value) => Ok(Some(value.replica(alloc)?)),
            None => Ok(None),
        }
    }
}
