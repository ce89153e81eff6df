//! Looks at a region's tables.
ghost use Rattle.std.specs.Prelude.{◌≡◌, IfOk};
ghost use Rattle.cx_look_tables.specs.Programs.{programs_text};
ghost use Rattle.cx_look_tables.specs.Queues.{item_text, queue_text, queues_text};

use crate::{programs, queues};
use cx_ebcdic::Name8;
use cx_look_lines::Report;
use cx_region::Region;
use cx_storage::Store;
use std::alloc::{AllocError, Global};

/// Looks at all queues: a line each, the first made first; NONE where there is none.
///
/// An error comes only where memory for the report was refused.
#[tactic(auto, unfolding(crate::specs::Queues::queues_text))]
pub fn queues_text<S: Store + Drop>(alloc: Global, region: &Region<S>) -> Result<Report, AllocError>
    ensures { IfOk result (λ report. report ≡ queues_text region.now.shared.queues) }
{
    let mut report = Report::new(alloc);
    queues::queue_lines(&mut report, region.shared().queues.all())?;
    report.or_none(b"QUEUES")
}

/// Looks at a queue: its line, and a line for each of its items; NONE where there is no such queue.
///
/// An error comes only where memory for the report was refused.
pub fn queue_text<S: Store + Drop>(
    alloc: Global,
    region: &Region<S>,
    name: Name8,
) -> Result<Report, AllocError>
    ensures { IfOk result (λ report. report ≡ queue_text region.now.shared.queues name) }
{
    let mut report = Report::new(alloc);
    queues::queue_text(&mut report, &region.shared().queues, name)?;
    Ok(report)
}

/// Looks at the item of a queue with number `n`, from 1, as a whole, in rows of sixteen bytes; NONE where there is no
/// such item or queue.
///
/// An error comes only where memory for the report was refused.
pub fn item_text<S: Store + Drop>(
    alloc: Global,
    region: &Region<S>,
    name: Name8,
    n: usize,
) -> Result<Report, AllocError>
    ensures { IfOk result (λ report. report ≡ item_text region.now.shared.queues name n) }
{
    let mut report = Report::new(alloc);
    queues::item_text(&mut report, &region.shared().queues, name, n)?;
    Ok(report)
}

/// Looks at all programs: a line each, the first defined first; NONE where there is none.
///
/// An error comes only where memory for the report was refused.
#[tactic(auto, unfolding(crate::specs::Programs::programs_text))]
pub fn programs_text<S: Store + Drop>(
    alloc: Global,
    region: &Region<S>,
) -> Result<Report, AllocError>
    ensures { IfOk result (λ report. report ≡ programs_text region.now.shared.programs region.now.transactions) }
{
    let mut report = Report::new(alloc);
    programs::program_lines(
        &mut report,
        &region.shared().programs,
        region.transactions(),
    )?;
    report.or_none(b"PROGRAMS")
}
