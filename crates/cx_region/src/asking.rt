//! What a key of a terminal asks for, before anything changes.
use crate::replies::KeyReply;
use cx_ebcdic::{Name4, Name8};
use cx_load::Loaded;

/// What is known of a task before it has areas, a number and levels.
#[derive(Clone, Copy)]
pub struct Start {
    /// The position of its terminal, counted from 1.
    pub slot: u8,
    /// Its transaction.
    pub tran: Name4,
    /// The transaction's program.
    pub program: Name8,
    /// Where the program is.
    pub loaded: Loaded,
    /// The length of the COMMAREA kept for it; 0 where there is none.
    pub calen: u16,
}

/// What a key asks for.
#[derive(Clone, Copy)]
pub enum KeyEffect {
    /// This answer, with no change.
    Answer(KeyReply),
    /// That the input be held for the terminal's task.
    Hold,
    /// That a task be attached.
    Attach(Start),
}

/// The addresses at which the areas of a task that is attached are put.
#[derive(Drop)]
pub struct Places {
    /// The address of the EIB.
    pub eib: u32,
    /// The address of the copy of the COMMAREA, where there is one.
    pub commarea: Option<u32>,
    /// The address of DFHEISTG.
    pub stg: u32,
}
