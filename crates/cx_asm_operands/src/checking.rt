//! Several operands judged together.

ghost use Rattle.std.specs.Prelude.{◌≡◌};
ghost use Rattle.cx_asm_operands.specs.Checking.{both_or_lower_fault};

use cx_asm_expressions::{FaultKind, lower_of};
use std::alloc::AllocError;

/// What is judged of an operand: a value or a fault, unless memory runs out.
pub(crate) type Checked<T> = Result<Result<T, FaultKind>, AllocError>;

/// Both values, or the lower of the faults.
pub(crate) fn both<A: Drop, B: Drop>(
    one: Result<A, FaultKind>,
    other: Result<B, FaultKind>,
) -> Result<(A, B), FaultKind>
    ensures { result ≡ both_or_lower_fault one other }
{
    match one {
        Ok(first) => match other {
            Ok(second) => Ok((first, second)),
            Err(fault) => Err(fault),
        },
        Err(fault) => match other {
            Ok(_) => Err(fault),
            Err(second) => Err(lower_of(fault, second)),
        },
    }
}
