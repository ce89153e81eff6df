//! The commands and their rows.
ghost use Rattle.std.specs.Prelude.{◌≡◌, ◌↔◌, ◌==◌, Some};
ghost use Rattle.std.specs.List.{find};
ghost use Rattle.std.specs.Str.{bytes_eq};
ghost use Rattle.cx_base.specs.Commands.{command_called, command_named, command_with, row, row_of, with_blank_between};
ghost use Rattle.cx_base.specs.Legal.{lists_conditions};

use crate::options::{
    ABEND, ADDRESS, COMMAREA_RULES, CommandOption, DELETEQ_TS, DEQ, ENQ, FREEMAIN, GETMAIN,
    HANDLE_ABEND, HANDLE_ABEND_RULES, LINK, READQ_TS, READQ_TS_RULES, RECEIVE, RETURN, Rule,
    SEND_TEXT, WRITEQ_TS, WRITEQ_TS_RULES, XCTL,
};

/// A command that a program can give by EXEC CICS.
///
/// Application Programmer's Reference Manual, SC33-0077. The function values are CICS's customary
/// ones; the bits of the options and their order are this product's own.
#[derive(Clone, Copy, PartialEq, Eq)]
pub enum Command {
    Address,
    HandleCondition,
    IgnoreCondition,
    PushHandle,
    PopHandle,
    Receive,
    WriteqTs,
    ReadqTs,
    DeleteqTs,
    Getmain,
    Freemain,
    Link,
    Xctl,
    Return,
    Abend,
    HandleAbend,
    Enq,
    Deq,
    Suspend,
    SendText,
}

/// A command's row of the table.
struct CommandRow {
    /// The function value.
    function: u16,
    /// The command's name, as `READQ TS`.
    name: &'static str,
    /// The options that have a bit in option byte 1, in the order of their words in the argument list.
    options: &'static [CommandOption],
    /// The rules of their legal sets.
    rules: &'static [Rule],
}

impl Command {
    /// All commands, in the order of their function values.
    pub const ALL: [Command; 20] = [
        Command::Address,
        Command::HandleCondition,
        Command::IgnoreCondition,
        Command::PushHandle,
        Command::PopHandle,
        Command::Receive,
        Command::WriteqTs,
        Command::ReadqTs,
        Command::DeleteqTs,
        Command::Getmain,
        Command::Freemain,
        Command::Link,
        Command::Xctl,
        Command::Return,
        Command::Abend,
        Command::HandleAbend,
        Command::Enq,
        Command::Deq,
        Command::Suspend,
        Command::SendText,
    ];

    /// The command's row of the table.
    #[rattlefmt::skip]
    fn row(self) -> &'static CommandRow
        ensures { row result.now.function result.now.name.now result.now.options.now result.now.rules.now
            ≡ row_of self }
    {
        match self {
            Command::Address => &CommandRow { function: 0x0202, name: "ADDRESS", options: &ADDRESS, rules: &[] },
            Command::HandleCondition => &CommandRow { function: 0x0204, name: "HANDLE CONDITION", options: &[], rules: &[] },
            Command::IgnoreCondition => &CommandRow { function: 0x020A, name: "IGNORE CONDITION", options: &[], rules: &[] },
            Command::PushHandle => &CommandRow { function: 0x020C, name: "PUSH HANDLE", options: &[], rules: &[] },
            Command::PopHandle => &CommandRow { function: 0x020E, name: "POP HANDLE", options: &[], rules: &[] },
            Command::Receive => &CommandRow { function: 0x0402, name: "RECEIVE", options: &RECEIVE, rules: &[] },
            Command::WriteqTs => &CommandRow { function: 0x0A02, name: "WRITEQ TS", options: &WRITEQ_TS, rules: &WRITEQ_TS_RULES },
            Command::ReadqTs => &CommandRow { function: 0x0A04, name: "READQ TS", options: &READQ_TS, rules: &READQ_TS_RULES },
            Command::DeleteqTs => &CommandRow { function: 0x0A06, name: "DELETEQ TS", options: &DELETEQ_TS, rules: &[] },
            Command::Getmain => &CommandRow { function: 0x0C02, name: "GETMAIN", options: &GETMAIN, rules: &[] },
            Command::Freemain => &CommandRow { function: 0x0C04, name: "FREEMAIN", options: &FREEMAIN, rules: &[] },
            Command::Link => &CommandRow { function: 0x0E02, name: "LINK", options: &LINK, rules: &COMMAREA_RULES },
            Command::Xctl => &CommandRow { function: 0x0E04, name: "XCTL", options: &XCTL, rules: &COMMAREA_RULES },
            Command::Return => &CommandRow { function: 0x0E08, name: "RETURN", options: &RETURN, rules: &COMMAREA_RULES },
            Command::Abend => &CommandRow { function: 0x0E0C, name: "ABEND", options: &ABEND, rules: &[] },
            Command::HandleAbend => &CommandRow { function: 0x0E0E, name: "HANDLE ABEND", options: &HANDLE_ABEND, rules: &HANDLE_ABEND_RULES },
            Command::Enq => &CommandRow { function: 0x1204, name: "ENQ", options: &ENQ, rules: &[] },
            Command::Deq => &CommandRow { function: 0x1206, name: "DEQ", options: &DEQ, rules: &[] },
            Command::Suspend => &CommandRow { function: 0x1208, name: "SUSPEND", options: &[], rules: &[] },
            Command::SendText => &CommandRow { function: 0x1806, name: "SEND TEXT", options: &SEND_TEXT, rules: &[] },
        }
    }

    /// The function value, the first two bytes of the argument list's block, and EIBFN afterwards.
    pub fn function(self) -> u16
        ensures { result ≡ (row_of self).function }
    {
        self.row().function
    }

    /// The command's name, as `READQ TS`.
    pub fn name(self) -> &'static str
        ensures { result.now ≡ (row_of self).name }
    {
        self.row().name
    }

    /// The options that have a bit in option byte 1, in the order of their words in the argument list.
    pub fn options(self) -> &'static [CommandOption]
        ensures { result.now ≡ (row_of self).options }
    {
        self.row().options
    }

    /// The rules of the command's legal sets of options.
    pub fn rules(self) -> &'static [Rule]
        ensures { result.now ≡ (row_of self).rules }
    {
        self.row().rules
    }

    /// The command of that function value, or None where no command has it.
    #[tactic(auto, unfolding(crate::specs::Commands::command_with))]
    pub fn from_function(function: u16) -> Option<Command>
        ensures value { result ≡ command_with function }
        ensures exact { (command : Command) → (result ≡ Some command) ↔ ((row_of command).function ≡ function) }
    {
        with_function(&Command::ALL, function)
    }

    /// The command that words begin with, and how many of them are its name: both, or else the first alone, or
    /// else the first with TS left out. None where no command has such a name, as for HANDLE alone.
    /// The second is empty where there is one word.
    #[tactic(auto, unfolding(crate::specs::Commands::command_named, crate::specs::Commands::command_called))]
    pub fn named(first: &[u8], second: &[u8]) -> Option<(Command, usize)>
        ensures { result ≡ command_named first.now second.now }
    {
        if let Some(command) = with_words(&Command::ALL, first, second) {
            return Some((command, 2));
        }
        if let Some(command) = with_name(&Command::ALL, first) {
            return Some((command, 1));
        }
        with_words(&Command::ALL, first, b"TS").map(|command| (command, 1))
    }

    /// Whether the command lists conditions: option byte 1 is then their number, and two bytes for each follow the
    /// block.
    pub fn lists_conditions(self) -> bool
        ensures { result ≡ lists_conditions self }
    {
        matches!(self, Command::HandleCondition | Command::IgnoreCondition)
    }
}

/// The first of some commands that has a function value.
fn with_function(commands: &[Command], function: u16) -> Option<Command>
    ensures { result ≡ find (λ command. (row_of command).function == function) commands.now }
{
    commands
        .iter()
        .copied()
        .find(|command| command.function() == function)
}

/// The first of some commands that has a name.
fn with_name(commands: &[Command], name: &[u8]) -> Option<Command>
    ensures { result ≡ find (λ command. bytes_eq (row_of command).name name.now) commands.now }
{
    commands
        .iter()
        .copied()
        .find(|command| command.name().as_bytes() == name)
}

/// The first of some commands whose name is two words.
fn with_words(commands: &[Command], first: &[u8], second: &[u8]) -> Option<Command>
    ensures { result ≡ find
        (λ command. bytes_eq (row_of command).name (with_blank_between first.now second.now)) commands.now }
{
    commands.iter().copied().find(|command| is_joined(command.name().as_bytes(), first, second))
}

/// Whether a text is two words with a blank between.
fn is_joined(text: &[u8], first: &[u8], second: &[u8]) -> bool
    ensures { result ≡ bytes_eq text.now (with_blank_between first.now second.now) }
{
    let Some(rest) = text.strip_prefix(first) else {
        return false;
    };
    let Some((blank, last)) = rest.split_first() else {
        return false;
    };
    *blank == b' ' && last == second
}
