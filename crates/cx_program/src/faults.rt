//! Why a call is refused.

use thiserror::Error;

/// Why a call on handles or levels is refused. What it was called on is then as before.
#[derive(Clone, Copy, Debug, PartialEq, Eq, Error)]
pub enum ProgramFault {
    /// POP HANDLE where no PUSH HANDLE is left to undo.
    #[error("no handles were pushed")]
    NothingPushed,
    /// A 17th PUSH HANDLE at one level, or a 17th level.
    #[error("no more than sixteen deep")]
    TooDeep,
}
