//! One program level of a task.
use crate::condition_code::ConditionCode;
use crate::handles::HandleTable;
use cx_ebcdic::Name8;

/// A program level of a task: the program of its transaction, one that LINK began, or one that XCTL put in place of
/// such a one.
#[derive(Drop)]
pub struct Level {
    /// The program's name.
    pub program: Name8,
    /// The address of its DFHEISTG.
    pub stg: u32,
    /// The length of its DFHEISTG in bytes.
    pub stg_len: u32,
    /// EIBCALEN, a halfword: the length of its COMMAREA in bytes, or zero without one.
    pub calen: u16,
    /// Registers 0 to 15 as the level keeps them: those of its entry, and from its first command on those of its last
    /// command.
    pub regs: [u32; 16],
    /// The condition code, 0 to 3, that it keeps with them.
    pub cc: ConditionCode,
    /// What its program has asked to be done for conditions and on an abend.
    pub handles: HandleTable,
}

impl Default for Level {
    ghost use Rattle.std.specs.Prelude.{◌≡◌, replicate};
    ghost use Rattle.cx_program.specs.Handles.{no_handles};

    ghost is_default = { λ level. level ≡ record {
      program = replicate 8 0x40;
      stg = 0;
      stg_len = 0;
      calen = 0;
      regs = replicate 16 0;
      cc = 0;
      handles = no_handles;
    } };

    /// What is in an unused place of a stack: a level of no program, of which nothing is kept.
    fn default() -> Level {
        Level {
            program: Name8::from_bytes([0x40; 8]),
            stg: 0,
            stg_len: 0,
            calen: 0,
            regs: [0; 16],
            cc: ConditionCode::new(0),
            handles: HandleTable::new(),
        }
    }
}
