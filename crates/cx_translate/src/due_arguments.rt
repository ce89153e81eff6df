//! Which argument is due with each word of a command.

ghost use Rattle.std.specs.Prelude.{◌≡◌};
ghost use Rattle.cx_translate.specs.DueArguments.{
  common_due,
  condition_called,
  condition_due,
  due_of,
  due_by_kind,
  option_called,
  suits,
};

use crate::names::{is_name_or_place, is_value};
use crate::words::Argument;
use cx_base::{ArgumentKind, Command, CommandOption, CommonOption, Condition};

/// The argument that is due with a word of an EXEC statement (SC33-0077).
#[derive(Clone, Copy)]
pub enum DueArgument {
    /// None: no parentheses follow the word.
    Nothing,
    /// A name of up to this number of characters in apostrophes, or the place of one.
    Name(u8),
    /// A value, which is written as it is.
    Value,
    /// A label, which is written as it is, or none.
    Label,
}

/// The argument that is due with an option of this mark.
fn due_by_kind(kind: ArgumentKind) -> DueArgument
    ensures { result ≡ due_by_kind kind }
{
    match kind {
        ArgumentKind::Flag => DueArgument::Nothing,
        ArgumentKind::Name4 => DueArgument::Name(4),
        ArgumentKind::Name8 => DueArgument::Name(8),
        _ => DueArgument::Value,
    }
}

/// The option of a name among some.
#[tactic(auto, unfolding(crate::specs::DueArguments::option_called))]
fn option_called(options: &[CommandOption], name: &[u8]) -> Option<CommandOption>
    ensures { result ≡ option_called options.now name.now }
{
    options
        .iter()
        .copied()
        .find(|option| option.name.name().as_bytes() == name)
}

/// The condition of a name, where a program can handle it.
#[tactic(auto, unfolding(crate::specs::DueArguments::condition_called))]
pub(crate) fn condition_called(name: &[u8]) -> Option<Condition>
    ensures { result ≡ condition_called name.now }
{
    Condition::handled()
        .iter()
        .copied()
        .find(|condition| condition.name().as_bytes() == name)
}

/// What is due with NOHANDLE and RESP.
#[tactic(auto, unfolding(crate::specs::DueArguments::common_due))]
fn common_due(name: &[u8]) -> Option<DueArgument>
    ensures { result ≡ common_due name.now }
{
    if CommonOption::Nohandle.name().as_bytes() == name {
        Some(DueArgument::Nothing)
    } else if CommonOption::Resp.name().as_bytes() == name {
        Some(DueArgument::Value)
    } else {
        None
    }
}

/// What is due with a condition that the command lists.
#[tactic(auto, unfolding(crate::specs::DueArguments::condition_due))]
fn condition_due(command: Command, name: &[u8]) -> Option<DueArgument>
    ensures { result ≡ condition_due command name.now }
{
    if !command.lists_conditions() || condition_called(name).is_none() {
        return None;
    }
    match command {
        Command::HandleCondition => Some(DueArgument::Label),
        _ => Some(DueArgument::Nothing),
    }
}

/// What is due with a word of a command, or None where the command has no such option.
#[tactic(auto, unfolding(crate::specs::DueArguments::due_of))]
pub(crate) fn due_of(command: Command, name: &[u8]) -> Option<DueArgument>
    ensures { result ≡ due_of command name.now }
{
    if let Some(option) = option_called(command.options(), name) {
        return Some(due_by_kind(option.kind));
    }
    if let Some(due) = common_due(name) {
        return Some(due);
    }
    condition_due(command, name)
}

/// Whether what follows a word is what is due.
#[tactic(auto, unfolding(crate::specs::DueArguments::suits))]
pub(crate) fn suits(due: DueArgument, argument: &Argument) -> bool
    ensures { result ≡ suits due argument.now }
{
    match argument {
        Argument::Absent => matches!(due, DueArgument::Nothing | DueArgument::Label),
        Argument::Given(text) => match due {
            DueArgument::Nothing => false,
            DueArgument::Name(most) => is_name_or_place(text.as_slice(), most),
            DueArgument::Value | DueArgument::Label => is_value(text.as_slice()),
        },
        Argument::Bad => false,
    }
}
