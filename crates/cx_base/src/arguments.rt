//! The arguments of an argument list, and how many bytes a command reads at each.
ghost use Rattle.std.specs.Prelude.{◌≡◌, ◌≤◌, length};
ghost use Rattle.cx_base.specs.Arguments.{argument_index, arguments_in, bytes_of_length, bytes_of_name, has_option, input_len, is_argument, option_of};
ghost use Rattle.cx_base.specs.Commands.{row_of};

use crate::commands::Command;
use crate::legal::has_bit;
use crate::options::{ArgumentKind, CommandOption, OptionName};

impl Command {
    /// The command's option of this name, or None where it has none.
    #[tactic(auto, unfolding(crate::specs::Arguments::option_of))]
    pub fn option(self, name: OptionName) -> Option<CommandOption>
        ensures { result ≡ option_of self name }
    {
        self.options()
            .iter()
            .copied()
            .find(|option| option.name == name)
    }

    /// Whether option byte 1 has this option of the command. False where the command has no such option.
    #[tactic(auto, unfolding(crate::specs::Arguments::has_option))]
    pub fn has_option(self, first: u8, name: OptionName) -> bool
        ensures { result ≡ has_option self first name }
    {
        self.options()
            .iter()
            .any(|option| option.name == name && has_bit(first, option.bit))
    }

    /// How many of the options that option byte 1 has take an argument, 0 to 8.
    #[tactic(auto, using(crate::proofs::RowLemmas::few), unfolding(crate::specs::Arguments::arguments_in))]
    pub fn argument_count(self, first: u8) -> usize
        ensures value { result ≡ length (arguments_in (row_of self).options first) }
        ensures most { result ≤ 8 }
        ensures within { result ≤ length (row_of self).options }
    {
        self.options()
            .iter()
            .filter(|option| option.is_argument(first))
            .count()
    }

    /// The place of this option's argument among those that the options in option byte 1 take, counted from 0.
    /// None where the option isn't there, or takes none.
    #[tactic(auto, unfolding(crate::specs::Arguments::argument_index, crate::specs::Arguments::arguments_in))]
    pub fn argument_index(self, first: u8, name: OptionName) -> Option<usize>
        ensures { result ≡ argument_index self first name }
    {
        self.options()
            .iter()
            .filter(|option| option.is_argument(first))
            .position(|option| option.name == name)
    }

    /// How many bytes the command reads at the argument of an option with this kind, where option byte 1 is
    /// `first` and LENGTH's argument, if it is there, holds this halfword. None are read where that is a
    /// negative length, or for a resource's name one above 255.
    #[tactic(auto, unfolding(crate::specs::Arguments::input_len))]
    pub fn input_len(self, first: u8, kind: ArgumentKind, length: Option<u16>) -> u16
        ensures { result ≡ input_len kind (has_option self first) length }
    {
        match kind {
            ArgumentKind::BytesRead => bytes_of_length(length),
            ArgumentKind::BytesOrAddress => bytes_of_name(length),
            ArgumentKind::Byte => 1,
            ArgumentKind::Name4 => 4,
            ArgumentKind::Name8 => 8,
            ArgumentKind::Halfword | ArgumentKind::HalfwordBothWays => 2,
            ArgumentKind::HalfwordBothWaysWithoutSet => {
                if self.has_option(first, OptionName::Set) {
                    0
                } else {
                    2
                }
            }
            ArgumentKind::HalfwordOutWithoutRewrite => {
                if self.has_option(first, OptionName::Rewrite) {
                    2
                } else {
                    0
                }
            }
            ArgumentKind::Flag
            | ArgumentKind::Address
            | ArgumentKind::BytesWritten
            | ArgumentKind::HalfwordOut
            | ArgumentKind::Pointer => 0,
        }
    }
}

impl CommandOption {
    /// Whether option byte 1 has the option, and it takes an argument.
    pub fn is_argument(&self, first: u8) -> bool
        ensures { result ≡ is_argument first self.now }
    {
        has_bit(first, self.bit) && self.kind.takes_argument()
    }
}

/// The number of bytes that LENGTH gives: its signed value, or none where that is negative.
fn bytes_of_length(length: Option<u16>) -> u16
    ensures { result ≡ bytes_of_length length }
{
    match length {
        Some(halfword) if halfword < 0x8000 => halfword,
        _ => 0,
    }
}

/// The number of bytes that LENGTH gives for a resource's name: none where it is negative or above 255.
fn bytes_of_name(length: Option<u16>) -> u16
    ensures { result ≡ bytes_of_name length }
{
    match length {
        Some(halfword) if halfword <= 255 => halfword,
        _ => 0,
    }
}
