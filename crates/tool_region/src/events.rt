//! Calls that take memory, each given once more where it is answered Memory.

ghost use Rattle.std.specs.Prelude.{◌≡◌, [], IfOk, IfSome};
ghost use Rattle.cx_script_actions.specs.Allowed.{IsAllowedAction, IsAllowedLine};
ghost use Rattle.cx_edf.specs.Runs.{IsAllowedEdf};

use cx_edf::{Answer, Debugged, EdfEvent};
use cx_edf_display::EdfDisplays;
use cx_region::Region;
use cx_script_actions::{Action, Line, NoHeading, line_of};
use cx_storage::{FlatStore, Store};
use cx_storage_pages::PagedStore;
use std::alloc::{AllocError, Global};

/// A region under EDF over an empty store.
fn region<S: Store + Drop>(alloc: Global, store: S) -> Result<Debugged<S, EdfDisplays>, AllocError>
    requires { S.storage store ≡ [] }
{
    let region = Region::new(alloc, store)?;
    Ok(Debugged::new(alloc, region))
}

/// A region under EDF over `PagedStore`, begun once more where that is answered Memory.
pub fn begun_over_pages(alloc: Global) -> Result<Debugged<PagedStore, EdfDisplays>, AllocError> {
    match region(alloc, PagedStore::new(alloc)) {
        Ok(region) => Ok(region),
        Err(_) => region(alloc, PagedStore::new(alloc)),
    }
}

/// A region under EDF over `FlatStore`, begun once more where that is answered Memory.
pub fn begun_over_areas(alloc: Global) -> Result<Debugged<FlatStore, EdfDisplays>, AllocError> {
    match region(alloc, FlatStore::new(alloc)) {
        Ok(region) => Ok(region),
        Err(_) => region(alloc, FlatStore::new(alloc)),
    }
}

/// A region without EDF over `PagedStore`.
pub fn alone_over_pages(alloc: Global) -> Result<Region<PagedStore>, AllocError> {
    Region::new(alloc, PagedStore::new(alloc))
}

/// A region without EDF over `FlatStore`.
pub fn alone_over_areas(alloc: Global) -> Result<Region<FlatStore>, AllocError> {
    Region::new(alloc, FlatStore::new(alloc))
}

/// What a line asks, as a region may be asked it; None where it is a bad line. Where memory is refused it is read once
/// more.
pub fn allowed_line(
    alloc: Global,
    line: &[u8],
) -> Result<Option<Line<Action, NoHeading>>, AllocError>
    ensures { IfOk result (λ line. IfSome line (IsAllowedLine IsAllowedAction)) }
{
    match line_of(alloc, line) {
        Ok(line) => Ok(line),
        Err(_) => line_of(alloc, line),
    }
}

/// Does an event.
fn apply<S: Store + Drop>(
    region: &mut Debugged<S, EdfDisplays>,
    event: &EdfEvent,
) -> Result<Answer, AllocError>
    requires { IsAllowedEdf event.now }
{
    region.apply(event)
}

/// Does an event; where it is answered Memory, it is given once more.
pub fn done<S: Store + Drop>(
    region: &mut Debugged<S, EdfDisplays>,
    event: &EdfEvent,
) -> Result<Answer, AllocError>
    requires { IsAllowedEdf event.now }
{
    match apply(region, event) {
        Ok(answer) => Ok(answer),
        Err(_) => apply(region, event),
    }
}
