//! What the actions of a script are, and what they are performed on.

ghost use Rattle.std.specs.Prelude.{◌≡◌, ◌∷◌, [], ℕ, List as Elements, IfOk, IfSome, OnErr, is_some, option_and_then, true};
ghost use Rattle.std.specs.Option.{option_map_or};
ghost use Rattle.cx_script_actions.specs.Allowed.{IsAllowedAction, IsAllowedLine};
ghost use Rattle.cx_script_actions.specs.Language.{Language, edf_language};

use crate::actions::{Action, Line, NoHeading, line_of};
use cx_base::List;
use cx_ebcdic::Name8;
use std::alloc::{AllocError, Global};

/// An action of a script's language, and how lines and blocks of a script are read as such actions.
pub trait ScriptAction: Drop {
    /// What begins a block of lines that are handed over: an enum without variants where no line begins one.
    type Heading: Copy + Drop;

    /// What a script's lines ask of these actions.
    ghost language: { Language Self Self.Heading };

    /// Which of them may be asked.
    ghost allowed: { Self → Type 0 };

    /// The action that the end of a block gives, as one of these. It is one that may be asked (`IsAllowedAction`).
    fn of_block(action: Action) -> Self
        requires { IsAllowedAction action }
        ensures value { result ≡ language.of_block action }
        ensures allowed { allowed result };

    /// The action that the end of a source's block gives, as one of these: by its program's name, its lines, and the
    /// action that they are made into. That is one that may be asked (`IsAllowedAction`).
    fn of_source(name: Name8, lines: Vec<List<u8>>, action: Action) -> Self
        requires { IsAllowedAction action }
        ensures value { result ≡ language.of_source name lines.items action }
        ensures allowed { allowed result };

    /// The lines of a block of lines with one more, as far as they are kept, by what begins it; None, and never an
    /// error, where it may not have that line, or nothing begins it.
    ///
    /// An error comes only where an allocation failed.
    fn with_line(
        alloc: Global,
        heading: Option<Self::Heading>,
        lines: List<List<u8>>,
        text: &[u8],
    ) -> Result<Option<List<List<u8>>>, AllocError>
        ensures value { IfOk result (λ more. more
            ≡ option_and_then (λ it. language.with_line it lines text.now) heading) }
        ensures memory { OnErr result (is_some (option_and_then (λ it. language.with_line it lines text.now) heading)
            ≡ true) };

    /// The action that the end of a block of lines gives: by the number of the line that begins it, counted from 1,
    /// what this says, and the lines that were kept; None where such a block asks nothing, or nothing begins one.
    ///
    /// An error comes only where an allocation failed.
    fn of_lines(
        alloc: Global,
        first: usize,
        heading: Option<Self::Heading>,
        lines: List<List<u8>>,
    ) -> Result<Option<Self>, AllocError>
        ensures value { IfOk result (λ action. action
            ≡ option_and_then (λ it. language.of_lines first it lines) heading) }
        ensures allowed { IfOk result (λ action. IfSome action allowed) };

    /// The action that the same line asks after this one, which may be asked (`allowed`); None where it asks no other.
    fn following(&self) -> Option<Self>
        requires { allowed self.now }
        ensures value { language.actions_of self.now ≡ self.now ∷ option_map_or language.actions_of result [] }
        ensures allowed { IfSome result allowed };

    /// Whether its line is a fault that is deferred: the script goes on, and the first such line is its fault at the
    /// end, where it has no other.
    fn is_deferred_fault(&self) -> bool
        ensures { result ≡ language.is_deferred_fault self.now };

    /// What a line asks where it is not in a block, by its number, counted from 1, and its text; None, and never an
    /// error, where it is a bad line.
    ///
    /// An error comes only where an allocation failed.
    fn read_line(
        alloc: Global,
        number: usize,
        text: &[u8],
    ) -> Result<Option<Line<Self, Self::Heading>>, AllocError>
        ensures value { IfOk result (λ line. line ≡ language.line_of number text.now) }
        ensures memory { OnErr result (is_some (language.line_of number text.now) ≡ true) }
        ensures allowed { IfOk result (λ line. IfSome line (IsAllowedLine allowed)) };
}

impl ScriptAction for Action {
    type Heading = NoHeading;

    ghost language = { edf_language };

    ghost allowed = { IsAllowedAction };

    fn of_block(action: Action) -> Action {
        action
    }

    fn of_source(_name: Name8, _lines: Vec<List<u8>>, action: Action) -> Action {
        action
    }

    fn with_line(
        _alloc: Global,
        heading: Option<NoHeading>,
        _lines: List<List<u8>>,
        _text: &[u8],
    ) -> Result<Option<List<List<u8>>>, AllocError>
        ensures value { IfOk result (λ more. more
            ≡ option_and_then (λ it. edf_language.with_line it _lines _text.now) heading) }
        ensures memory { OnErr result (is_some
            (option_and_then (λ it. edf_language.with_line it _lines _text.now) heading) ≡ true) }
    {
        match heading {
            None => Ok(None),
            Some(heading) => match heading {},
        }
    }

    fn of_lines(
        _alloc: Global,
        _first: usize,
        heading: Option<NoHeading>,
        _lines: List<List<u8>>,
    ) -> Result<Option<Action>, AllocError>
        ensures value { IfOk result (λ action. action
            ≡ option_and_then (λ it. edf_language.of_lines _first it _lines) heading) }
        ensures allowed { IfOk result (λ action. IfSome action IsAllowedAction) }
    {
        match heading {
            None => Ok(None),
            Some(heading) => match heading {},
        }
    }

    fn following(&self) -> Option<Action> {
        None
    }

    fn is_deferred_fault(&self) -> bool {
        false
    }

    fn read_line(
        alloc: Global,
        _number: usize,
        text: &[u8],
    ) -> Result<Option<Line<Action, NoHeading>>, AllocError> {
        line_of(alloc, text)
    }
}

/// What the actions of a script are performed on.
pub trait Performer {
    /// An action of its scripts.
    type Action: ScriptAction;

    /// One action: the state before, the action, what is written for it, and the state after.
    ghost performs: { Self → Self.Action → Elements ℕ → Self → Type 0 };

    /// An action for which memory was refused: the state before, the action, and the state after. Where a type
    /// parameter stands for the performer, nothing but a refused call gives it.
    ghost refused: { Self → Self.Action → Self → Type 0 };

    /// Performs an action that may be asked (`allowed`), and gives what is written for it.
    ///
    /// An error comes only where an allocation failed; of the states before and after it `refused` holds.
    fn perform(&mut self, alloc: Global, action: Self::Action) -> Result<Vec<u8>, AllocError>
        requires { Self.Action.allowed action }
        ensures done { IfOk result (λ text. performs self.old action text.items self.new) }
        ensures refused { OnErr result (refused self.old action self.new) };
}
