//! The traits `Same` and `Replica`.
ghost use Rattle.std.specs.Prelude.{◌≡◌, ◌↔◌, IsTrue, IfOk};

use std::alloc::{AllocError, Global};

/// A value that can be compared with another. "Equal" is what contracts see.
pub trait Same {
    /// Whether two are equal.
    fn is_same(&self, other: &Self) -> bool
        ensures { IsTrue result ↔ (self.now ≡ other.now) };
}

/// A value of which equal ones can be made, each of its own memory.
pub trait Replica: Same + Drop {
    /// An equal value, in memory from `alloc`. An error comes only where an allocation failed.
    fn replica(&self, alloc: Global) -> Result<Self, AllocError>
        ensures { IfOk result (λ copy. copy ≡ self.now) };
}
