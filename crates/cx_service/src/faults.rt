//! Why a call is refused.
ghost use Rattle.std.specs.Prelude.{◌≡◌};
ghost use Rattle.cx_service.specs.declared.faults.ServiceFault.TheVariants.{Memory};

use std::alloc::{AllocError, AllocFailed};
use thiserror::Error;

/// A condition that a call of this crate meets, by its name in the commands; or out of memory.
#[derive(Clone, Copy, Debug, PartialEq, Eq, Error)]
pub enum ServiceFault {
    /// LENGERR: an item's length outside 1 to 32,767 bytes, or a resource's name outside 1 to 255.
    #[error("length outside the limits")]
    Lengerr,
    /// ITEMERR: there is no such item, or the queue has 32,767 already.
    #[error("no such item")]
    Itemerr,
    /// NOSPACE: it would be a 257th queue, or all queues together would have more than 4,194,304 bytes.
    #[error("no space in temporary storage")]
    Nospace,
    /// QIDERR: there is no such queue.
    #[error("no such queue")]
    Qiderr,
    /// ENQBUSY: another task owns the resource, or it would be the 257th that is owned.
    #[error("resource not available")]
    Enqbusy,
    /// INVREQ: the task's count of the resource is 65,535.
    #[error("invalid request")]
    Invreq,
    /// An allocation failed.
    #[error("out of memory")]
    Memory,
}

impl From<AllocError> for ServiceFault {
    ghost from_gives = { λ _ fault. fault ≡ Memory };

    fn from(_error: AllocError) -> ServiceFault {
        ServiceFault::Memory
    }
}

impl<T: Drop> From<AllocFailed<T>> for ServiceFault {
    ghost from_gives = { λ _ fault. fault ≡ Memory };

    fn from(_failed: AllocFailed<T>) -> ServiceFault {
        ServiceFault::Memory
    }
}
