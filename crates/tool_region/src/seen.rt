//! What can be seen of a region by its public calls.

use cx_ebcdic::Name4;
use cx_edf::Debugged;
use cx_edf_display::EdfDisplays;
use cx_region::{Region, TaskInfo};
use cx_storage_pages::PagedStore;

/// The length of an EIB.
const EIB_LEN: u32 = 88;

const MOST_LEVELS: usize = 16;

const MOST_NUMBER: u32 = 9_999_999;

/// The live task of a terminal.
pub fn task_of(debugged: &Debugged<PagedStore, EdfDisplays>, terminal: Name4) -> Option<TaskInfo> {
    debugged.task(terminal)
}

/// The live task of a terminal of a region without EDF.
pub fn task_alone(region: &Region<PagedStore>, terminal: Name4) -> Option<TaskInfo> {
    region.task(terminal)
}

/// What was seen of a terminal at some time: its task and its screen.
#[derive(Drop)]
pub struct Seen {
    pub terminal: Name4,
    task: Option<TaskInfo>,
    cells: [[u8; 80]; 24],
}

/// Whether `len` bytes from an address on are in storage.
fn has_bytes(debugged: &Debugged<PagedStore, EdfDisplays>, first: u32, len: u32) -> bool {
    (0..len).all(|k| debugged.byte(first.saturating_add(k)).is_some())
}

/// Whether a terminal's task, if it has one, is within its limits, and its EIB and its DFHEISTG have all their bytes.
pub fn is_whole(debugged: &Debugged<PagedStore, EdfDisplays>, terminal: Name4) -> bool {
    let Some(task) = task_of(debugged, terminal) else {
        return true;
    };
    (1..=MOST_LEVELS).contains(&task.levels)
        && (1..=MOST_NUMBER).contains(&task.number)
        && has_bytes(debugged, task.eib, EIB_LEN)
        && has_bytes(debugged, task.stg, task.stg_len)
}

/// Whether two tasks are alike in all that can be seen of them.
fn is_same_task(one: &TaskInfo, other: &TaskInfo) -> bool {
    one.tran == other.tran
        && one.program == other.program
        && one.number == other.number
        && one.levels == other.levels
        && one.eib == other.eib
        && one.stg == other.stg
        && one.stg_len == other.stg_len
        && one.cpu.regs == other.cpu.regs
        && one.cpu.cc == other.cpu.cc
        && one.cpu.next == other.cpu.next
        && one.due == other.due
}

/// Whether there are two tasks that are alike in all that is seen, or none.
pub fn are_same(one: &Option<TaskInfo>, other: &Option<TaskInfo>) -> bool {
    match (one, other) {
        (None, None) => true,
        (Some(one), Some(other)) => is_same_task(one, other),
        _ => false,
    }
}

/// The screen of a terminal.
fn cells_of(debugged: &Debugged<PagedStore, EdfDisplays>, terminal: Name4) -> [[u8; 80]; 24] {
    match debugged.screen(terminal) {
        Some(screen) => *screen.cells(),
        None => [[0; 80]; 24],
    }
}

impl Seen {
    /// What is seen of a terminal now.
    pub fn new(debugged: &Debugged<PagedStore, EdfDisplays>, terminal: Name4) -> Seen {
        Seen {
            terminal,
            task: task_of(debugged, terminal),
            cells: cells_of(debugged, terminal),
        }
    }

    /// Whether it was seen of this terminal.
    pub fn is_of(&self, terminal: Name4) -> bool {
        self.terminal == terminal
    }

    /// Whether the terminal's task and screen are still as they were.
    pub fn is_still(&self, debugged: &Debugged<PagedStore, EdfDisplays>) -> bool {
        are_same(&self.task, &task_of(debugged, self.terminal))
            && self.cells == cells_of(debugged, self.terminal)
    }
}
