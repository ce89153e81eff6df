//! Displays, and what makes them.
ghost use Rattle.std.specs.Prelude.{◌≡◌, List, ℕ};
ghost use Rattle.cx_region.specs.State.{RegionState};

use crate::stops::StopPoint;
use cx_base::Page;
use cx_ebcdic::Name4;
use cx_region::Region;
use cx_storage::Store;

/// A display: what was seen of a task where it stopped.
#[derive(Clone, Copy)]
pub struct Display {
    /// Where the task stopped.
    pub kind: StopPoint,
    /// The main page: what is due or was done, and what the task has, where it is seen.
    pub main: Page,
    /// The storage page: the first 352 bytes of the current level's DFHEISTG, blank where the task is over.
    pub storage: Page,
    /// The user page: the terminal's screen.
    pub user: Page,
}

/// What makes displays. EDF keeps and shows them, whatever is written on their pages.
pub trait MakesDisplays {
    ghost use Rattle.cx_edf.specs.declared.displays.Display.{Display};
    ghost use Rattle.cx_edf.specs.declared.stops.StopPoint.{StopPoint};

    /// The display of a terminal at a stop, as the region is.
    ghost make: { RegionState → List ℕ → StopPoint → Display };

    /// The display of a terminal at a stop of that kind, as the region is now. It takes no memory.
    fn take<S: Store + Drop>(region: &Region<S>, name: Name4, kind: &StopPoint) -> Display
        ensures { result ≡ make region.now name kind.now };
}
