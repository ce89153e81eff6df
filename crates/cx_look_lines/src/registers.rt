//! The lines of registers.
ghost use Rattle.std.specs.Prelude.{◌≡◌, ◌+◌, ◌≤◌, ◌++◌, OnOk, codes};
ghost use Rattle.cx_look_lines.specs.Registers.{register_line, register_lines};

use crate::reports::Report;
use cx_base::{decimal, hexadecimal};
use std::alloc::AllocError;

/// Adds the line of four registers from one on.
#[tactic(auto, unfolding(crate::specs::Registers::register_line))]
fn register_line(report: &mut Report, regs: &[u32; 16], k: usize) -> Result<(), AllocError>
    requires { k ≤ 12 }
    ensures { OnOk result (report.new ≡ report.old ++ register_line regs.now k) }
{
    let [tens, ones] = decimal::<2>(k as u32);
    report.line(&[
        &[b'R', tens, ones],
        &hexadecimal::<8>(regs[k]),
        &hexadecimal::<8>(regs[k + 1]),
        &hexadecimal::<8>(regs[k + 2]),
        &hexadecimal::<8>(regs[k + 3]),
    ])
}

/// Adds the lines of sixteen registers, from R0 on, four to a line.
///
/// An error comes only where memory for them was refused; then some of them may be there.
#[tactic(auto, unfolding(crate::specs::Registers::register_lines))]
pub fn register_lines(report: &mut Report, regs: &[u32; 16]) -> Result<(), AllocError>
    ensures { OnOk result (report.new ≡ report.old ++ register_lines regs.now) }
{
    register_line(report, regs, 0)?;
    register_line(report, regs, 4)?;
    register_line(report, regs, 8)?;
    register_line(report, regs, 12)
}
