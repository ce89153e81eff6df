//! Numbers of lines in ranges.
ghost use Rattle.std.specs.Prelude.{◌≡◌, IfOk};
ghost use Rattle.cx_look_cover.specs.Ranges.{ranges_of};

use std::alloc::{AllocError, Global};

/// Lines one after another, by their numbers.
#[derive(Clone, Copy)]
pub struct LineRange {
    pub first: usize,
    pub last: usize,
}

/// The ranges of ascending numbers of lines: a number joins a range where it is the one after its last.
pub(crate) fn ranges_of(alloc: Global, lines: &[usize]) -> Result<Vec<LineRange>, AllocError>
    ensures { IfOk result (λ ranges. ranges.items ≡ ranges_of lines.now) }
{
    let mut ranges = Vec::new(alloc);
    let Some((line, more)) = lines.split_first() else {
        return Ok(ranges);
    };
    let mut first = *line;
    let mut last = *line;
    for line in more {
        if line.checked_sub(last) != Some(1) {
            ranges.push(LineRange { first, last })?;
            first = *line;
        }
        last = *line;
    }
    ranges.push(LineRange { first, last })?;
    Ok(ranges)
}
