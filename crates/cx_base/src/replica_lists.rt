//! Lists of values, made anew and compared.
ghost use Rattle.std.specs.Prelude.{◌≡◌, ◌↔◌, IsTrue, IfOk};

use crate::replica::{Replica, Same};
use std::alloc::{AllocError, Global};

/// Equal values of those of a list, in their order. An error comes only where an allocation failed.
pub fn replica_of_items<T: Replica>(alloc: Global, items: &[T]) -> Result<Vec<T>, AllocError>
    ensures { IfOk result (λ copy. copy.items ≡ items.now) }
{
    let mut copy = Vec::with_capacity(alloc, items.len())?;
    for item in items {
        copy.push(item.replica(alloc)?)?;
    }
    Ok(copy)
}

/// Whether two lists have equal values in the same order.
pub fn are_same_items<T: Same>(ones: &[T], others: &[T]) -> bool
    ensures { IsTrue result ↔ (ones.now ≡ others.now) }
{
    if ones.len() != others.len() {
        return false;
    }
    for i in 0..ones.len() {
        if !ones[i].is_same(&others[i]) {
            return false;
        }
    }
    true
}
