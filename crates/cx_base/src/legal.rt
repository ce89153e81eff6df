//! Which options may be given together in an argument list.
ghost use Rattle.std.specs.Prelude.{◌≡◌, count_by};
ghost use Rattle.cx_base.specs.Legal.{are_kept, has_bit, is_complete_set, is_handle, is_handled_number, is_known_set, is_legal, is_legal_list, is_legal_second, is_legal_set, is_listed, is_option_bit, may_list, rule_holds};

use crate::commands::Command;
use crate::conditions::Condition;
use crate::options::{CommandOption, Rule};

/// The bits of a byte, from the left.
const BITS: [u8; 8] = [0x80, 0x40, 0x20, 0x10, 0x08, 0x04, 0x02, 0x01];

impl Command {
    /// Whether the two option bytes of an argument list's block are legal for the command.
    ///
    /// Byte 1 has a bit for each option present: each bit is that of an option in the command's row, the
    /// required ones are there, and each rule of the row holds. For HANDLE and IGNORE CONDITION it is the
    /// number of conditions listed, 1 to 16. Byte 2 has NOHANDLE (80) and RESP (40) alone.
    #[tactic(auto, unfolding(crate::specs::Legal::is_legal, crate::specs::Legal::is_legal_second))]
    pub fn is_legal(self, first: u8, second: u8) -> bool
        ensures { result ≡ is_legal self first second }
    {
        let first_is_legal = if self.lists_conditions() {
            (1..=16).contains(&first)
        } else {
            self.is_legal_set(first)
        };
        first_is_legal && second & 0x3F == 0
    }

    /// Whether option byte 1 is a legal set of the options in the command's row.
    #[tactic(auto, unfolding(crate::specs::Legal::is_legal_set))]
    fn is_legal_set(self, byte: u8) -> bool
        ensures { result ≡ is_legal_set self byte }
    {
        is_known_set(self.options(), byte)
            && is_complete_set(self.options(), byte)
            && are_kept(self.rules(), byte)
    }
}

/// Whether some option has a bit.
#[tactic(auto, unfolding(crate::specs::Legal::is_option_bit))]
fn is_option_bit(options: &[CommandOption], bit: u8) -> bool
    ensures { result ≡ is_option_bit options.now bit }
{
    options.iter().any(|option| option.bit == bit)
}

/// Whether each rule holds of the options whose bits an option byte has.
#[tactic(auto, unfolding(crate::specs::Legal::are_kept))]
fn are_kept(rules: &[Rule], byte: u8) -> bool
    ensures { result ≡ are_kept rules.now byte }
{
    rules.iter().all(|rule| rule.holds(byte))
}

/// Whether each bit of an option byte is that of an option.
#[tactic(auto, unfolding(crate::specs::Legal::is_known_set))]
fn is_known_set(options: &[CommandOption], byte: u8) -> bool
    ensures { result ≡ is_known_set options.now byte }
{
    BITS.iter()
        .all(|bit| !has_bit(byte, *bit) || is_option_bit(options, *bit))
}

/// Whether an option byte has each required option.
#[tactic(auto, unfolding(crate::specs::Legal::is_complete_set))]
fn is_complete_set(options: &[CommandOption], byte: u8) -> bool
    ensures { result ≡ is_complete_set options.now byte }
{
    options
        .iter()
        .all(|option| !option.required || has_bit(byte, option.bit))
}

/// A condition that HANDLE or IGNORE CONDITION lists, as its two bytes after the argument list's block.
#[derive(Clone, Copy, PartialEq, Eq, Default)]
pub struct ListedCondition {
    /// The condition's number.
    pub number: u8,
    /// 80 where a label belongs to it, else 00.
    pub label: u8,
}

impl Command {
    /// Whether the conditions that HANDLE or IGNORE CONDITION lists are legal: each number is that of a
    /// condition other than NORMAL, none comes twice, and each has a label (80), which HANDLE alone may
    /// give, or none (00).
    pub fn is_legal_list(self, conditions: &[ListedCondition]) -> bool
        ensures { result ≡ is_legal_list self conditions.now }
    {
        for (i, listed) in conditions.iter().enumerate() {
            if !self.may_list(*listed) || is_listed(&conditions[i + 1..], listed.number) {
                return false;
            }
        }
        true
    }

    /// Whether the command may list a condition so.
    #[tactic(auto, unfolding(crate::specs::Legal::may_list))]
    fn may_list(self, listed: ListedCondition) -> bool
        ensures { result ≡ may_list self listed }
    {
        is_handled_number(listed.number)
            && (listed.label == 0 || listed.label == 0x80 && self.is_handle())
    }

    /// Whether the command is HANDLE CONDITION.
    fn is_handle(self) -> bool
        ensures { result ≡ is_handle self }
    {
        matches!(self, Command::HandleCondition)
    }
}

/// Whether a number is that of a condition other than NORMAL.
#[tactic(auto, unfolding(crate::specs::Legal::is_handled_number))]
fn is_handled_number(number: u8) -> bool
    ensures { result ≡ is_handled_number number }
{
    Condition::handled()
        .iter()
        .any(|condition| condition.number() == number)
}

/// Whether some of these conditions has a number.
#[tactic(auto, unfolding(crate::specs::Legal::is_listed))]
fn is_listed(conditions: &[ListedCondition], number: u8) -> bool
    ensures { result ≡ is_listed conditions.now number }
{
    conditions.iter().any(|listed| listed.number == number)
}

impl Rule {
    /// Whether the rule holds of the options whose bits an option byte has.
    pub fn holds(&self, byte: u8) -> bool
        ensures { result ≡ rule_holds (has_bit byte) self.now }
    {
        let present = |bit: u8| has_bit(byte, bit);
        match *self {
            Rule::Together(a, b) => present(a) == present(b),
            Rule::NotBoth(a, b) => !(present(a) && present(b)),
            Rule::Needs(a, b) => !present(a) || present(b),
            Rule::OneOfTwo(a, b) => count_present(&[a, b], byte) == 1,
            Rule::OneOfThree(a, b, c) => count_present(&[a, b, c], byte) == 1,
        }
    }
}

/// How many of some bits an option byte has.
fn count_present(bits: &[u8], byte: u8) -> usize
    ensures { result ≡ count_by (has_bit byte) bits.now }
{
    bits.iter().filter(|bit| has_bit(byte, **bit)).count()
}

/// Whether an option byte has a bit.
#[tactic(auto, unfolding(crate::specs::Legal::has_bit))]
pub fn has_bit(byte: u8, bit: u8) -> bool
    ensures { result ≡ has_bit byte bit }
{
    byte & bit != 0
}
