//! The most bytes that a script may have: 16,777,216.

use crate::runs::{comments, is_answered};
use cx_script::{RunFault, Summary};
use std::alloc::{AllocError, Global};
use test_devices::PieceIn;

/// How many bytes of comments there are, where their lines end, and the answer.
#[rattlefmt::skip]
const ROWS: &[(usize, usize, Result<Summary, RunFault>)] = &[
    (16_777_216, 1, Ok(Summary { lines: 262_144 })),
    (16_777_216, 2, Ok(Summary { lines: 262_145 })),
    (16_777_216, 64, Err(RunFault::BadLine(1))),
    (16_777_217, 1, Err(RunFault::ReadBound)),
    (16_777_217, 2, Err(RunFault::ReadBound)),
    (16_777_217, 64, Err(RunFault::BadLine(1))),
];

/// Whether comments are answered so.
fn are_answered(
    alloc: Global,
    len: usize,
    end: usize,
    answer: Result<Summary, RunFault>,
) -> Result<bool, AllocError> {
    let script = comments(alloc, len, end)?;
    let input = PieceIn::new(&script, usize::MAX);
    Ok(is_answered(alloc, input, answer, b""))
}

#[test]
fn a_script_has_at_most_16_mib(rt: HostRuntime) {
    for &(len, end, answer) in ROWS {
        assert!(rt;
            are_answered(rt.alloc(), len, end, answer) == Ok(true),
            "{len} {end}"
        );
    }
}
