//! Values that are shared where they are equal.
ghost use Rattle.std.specs.Prelude.{◌≡◌, ◌↔◌, IsTrue, IfOk};
ghost use Rattle.cx_base.specs.Shared.{values};

use crate::replica::{Replica, Same};
use std::alloc::{AllocError, Global};
use std::rc::Rc;

/// A value to be shared: `earlier` where the two are equal, else this one.
///
/// An error comes only where an allocation failed.
pub fn share<T: Same + Drop>(
    alloc: Global,
    value: T,
    earlier: Option<&Rc<T>>,
) -> Result<Rc<T>, AllocError>
    ensures { IfOk result (λ shared. shared.value ≡ value) }
{
    if let Some(earlier) = earlier {
        if earlier.is_same(&value) {
            return earlier.clone();
        }
    }
    Ok(Rc::new(alloc, value)?)
}

/// A value equal to `value`, to be shared: `earlier` where it is equal, else one that is made anew.
///
/// An error comes only where an allocation failed.
pub fn share_replica<T: Replica>(
    alloc: Global,
    value: &T,
    earlier: Option<&Rc<T>>,
) -> Result<Rc<T>, AllocError>
    ensures { IfOk result (λ shared. shared.value ≡ value.now) }
{
    if let Some(earlier) = earlier {
        if earlier.is_same(value) {
            return earlier.clone();
        }
    }
    Ok(Rc::new(alloc, value.replica(alloc)?)?)
}

/// Whether two lists of shared values are equal.
pub fn are_same_shared<T: Same + Drop>(ones: &[Rc<T>], others: &[Rc<T>]) -> bool
    ensures { IsTrue result ↔ (values ones.now ≡ values others.now) }
{
    if ones.len() != others.len() {
        return false;
    }
    for i in 0..ones.len() {
        if !ones[i].is_same(&others[i]) {
            return false;
        }
    }
    true
}
