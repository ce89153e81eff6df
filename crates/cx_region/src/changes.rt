//! What an operator alters of a stopped task, and what that is answered.
ghost use Rattle.std.specs.Prelude.{◌≡◌};
ghost use Rattle.cx_region.specs.Replies.{alter_reply_name};

/// What an operator alters of a terminal's task.
#[derive(Clone, Copy)]
pub enum Change {
    /// A register, 0 to 15, gets this value; where a command is due, the one that the current level keeps gets it too.
    Register(u8, u32),
    /// The byte at an address gets this value. From 2^24 on there is none.
    Byte(u32, u8),
    /// The command that is due is dropped: the program goes on after it, at the address in bits 8 to 31 of R14.
    Nop,
    /// The task ends by an abend, XEDF, which no exit takes.
    Abend,
}

/// What an alteration is answered. Where several refusals apply, the first of this order is answered. Every answer but
/// Altered leaves the region as it was.
#[derive(Clone, Copy, PartialEq, Eq)]
pub enum AlterReply {
    /// It is done.
    Altered,
    /// No terminal of that name is defined.
    NoSuchTerminal,
    /// The terminal has no task.
    NoTask,
    /// No command is due that could be dropped.
    NotDue,
    /// No area has the address.
    NoByte,
}

impl AlterReply {
    /// The reply's name, as `Altered`.
    pub fn name(self) -> &'static str
        ensures { result.now ≡ alter_reply_name self }
    {
        match self {
            AlterReply::Altered => "Altered",
            AlterReply::NoSuchTerminal => "NoSuchTerminal",
            AlterReply::NoTask => "NoTask",
            AlterReply::NotDue => "NotDue",
            AlterReply::NoByte => "NoByte",
        }
    }
}
