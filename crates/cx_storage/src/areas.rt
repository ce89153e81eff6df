//! Areas and who owns them (this product's own: the manual's storage has none).

/// What an area is for.
#[derive(Clone, Copy, PartialEq, Eq)]
pub enum Kind {
    /// The common work area, or a program.
    Fixed,
    /// An area of a task that a command got for its program: by GETMAIN, or by READQ TS with SET.
    Got,
    /// All other areas of a task: its EIB, the DFHEISTG of each level, and copies of a COMMAREA.
    System,
}

/// Who owns an area.
#[derive(Clone, Copy, PartialEq, Eq)]
pub struct Owner {
    /// 0 for the region, else the position of the terminal whose task owns it, counted from 1.
    pub slot: u8,
    /// What the area is for.
    pub kind: Kind,
}

/// An area: `len` bytes from the address `start` on, and its owner.
#[derive(Clone, Copy, PartialEq, Eq)]
pub struct Area {
    /// The address of the area's first byte.
    pub start: u32,
    /// The number of its bytes.
    pub len: u32,
    /// Who owns it.
    pub owner: Owner,
}
