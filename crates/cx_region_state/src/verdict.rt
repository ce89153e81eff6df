//! How a command is judged, as data, before anything changes.
use crate::{ListedConditions, Outputs, StorageSpan};
use cx_base::{Abend, Condition};
use cx_ebcdic::{Name4, Name8};
use cx_load::Loaded;
use cx_service::{Reading, ResourceName};

/// The first address of the range in which the areas of tasks lie, X'200000'.
pub const FIRST_OF_TASKS: u32 = 0x20_0000;

/// The last address of that range, X'FFFFFF'.
pub const LAST_OF_TASKS: u32 = 0xFF_FFFF;

/// What a program level begins with, by LINK, XCTL or a task's attaching.
#[derive(Clone, Copy)]
pub struct NewLevel {
    /// The program, and where it is.
    pub program: Name8,
    pub loaded: Loaded,
    /// The COMMAREA, where the program finds it; None where there is none, or its length is 0.
    pub commarea: Option<StorageSpan>,
    /// The place of its DFHEISTG: the address of its first byte.
    pub stg: u32,
}

/// The COMMAREA that XCTL copies to a fresh area.
#[derive(Clone, Copy)]
pub struct Copying {
    /// The COMMAREA's bytes, where its program has them.
    pub from: StorageSpan,
    /// The place of the copy: the address of its first byte.
    pub to: u32,
}

/// The transaction that the terminal's next key attaches, and the COMMAREA that is kept for it.
#[derive(Clone, Copy)]
pub struct RequestedTransaction {
    /// The transaction.
    pub tran: Name4,
    /// The COMMAREA's bytes, where the program has them; None where there is none, or its length is 0.
    pub commarea: Option<StorageSpan>,
}

/// What an area holds when the program gets it.
#[derive(Clone, Copy)]
pub enum Fill {
    /// Each byte is this one.
    Byte(u8),
    /// An item of a queue, by the queue's name and its number, counted from 1.
    Item(Name8, usize),
}

/// An area that the program gets by GETMAIN, or by a command's SET.
#[derive(Clone, Copy)]
pub struct Got {
    /// Its place: the address of its first byte.
    pub place: u32,
    /// Its length in bytes.
    pub len: u32,
    /// What it holds at first.
    pub fill: Fill,
}

/// What a program asks to be done for conditions and on an abend.
#[derive(Drop)]
pub enum Request {
    /// HANDLE CONDITION: each condition's label takes control; one without a label has no entry any more.
    Handle(ListedConditions),
    /// IGNORE CONDITION: at each of these conditions the program goes on after the command that meets it.
    Ignore(ListedConditions),
    /// PUSH HANDLE: the entries and the exit are kept, and there are none from then on.
    Push,
    /// POP HANDLE: the entries and the exit that were kept last are put back.
    Pop,
    /// HANDLE ABEND LABEL, with the exit's address.
    SetExit(u32),
    /// HANDLE ABEND CANCEL: the exit is turned off.
    ExitOff,
    /// HANDLE ABEND RESET: the exit is turned on again.
    ExitOn,
}

/// What a command makes before its outputs are written.
#[derive(Drop)]
pub enum BeforeOutputs {
    /// These bytes are a new item, the last of the queue.
    ItemLast(Name8, StorageSpan),
    /// These bytes replace the queue's item of that number, counted from 1.
    ItemAt(Name8, usize, StorageSpan),
    /// The task's count of the resource is one more.
    Enqueues(ResourceName),
    /// These bytes are shown on the screen, which is blanked first where the flag says so.
    Shows(StorageSpan, bool),
    /// What the program asked for is done to the current level's handles.
    Handles(Request),
}

/// What a command ends after all else is written.
#[derive(Clone, Copy)]
pub enum AfterOutputs {
    /// The held input is gone.
    TakesInput,
    /// The queue's item that was read is the one last read.
    MarksRead(Name8, Reading),
    /// The queue is gone, with its items and its number last read.
    QueueGone(Name8),
    /// The task's count of the resource is one less; at zero the resource is free. One of another owner stays.
    Dequeues(ResourceName),
    /// The area that starts at this address is freed.
    Frees(u32),
}

/// What a command changes, beside its outputs, the EIB and RESP's word.
#[derive(Drop)]
pub enum TaskChange {
    /// Nothing.
    Nothing,
    /// Something is made, before the outputs are written.
    Before(BeforeOutputs),
    /// Something is ended, after all else is written.
    After(AfterOutputs),
    /// The program gets an area; where an item fills it, that item is the one last read.
    Gets(Got),
    /// LINK: a level begins under the current one.
    Enters(NewLevel),
    /// XCTL: a level begins in place of the current one, with a copy of the COMMAREA.
    Replaces(Option<Copying>, NewLevel),
    /// RETURN: the current level ends, and the one that linked to it goes on.
    LevelEnds,
    /// RETURN: the task ends, and leaves the terminal's next transaction.
    TaskEnds(Option<RequestedTransaction>),
    /// ABEND: the task abends with that code; no exit takes it where the flag says so.
    AbendsWith(Name4, bool),
}

/// How a command is judged, before anything changes.
#[derive(Drop)]
pub enum Verdict {
    /// The task abends, and nothing of the command is done.
    Refuses(Abend),
    /// The command waits, whatever the program asked for.
    Waits,
    /// The command meets a condition (NORMAL among them), with these outputs and this change.
    Meets(Condition, Outputs, TaskChange),
}
