//! Why no more of a script is read.

/// Why no more of a script was read.
#[derive(Clone, Copy, PartialEq, Eq)]
pub enum Ending {
    /// It was read to its end.
    AtEnd,
    /// A read failed.
    Failed,
    /// It has more bytes than it may have.
    PastBound,
}
