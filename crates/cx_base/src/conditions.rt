//! The exceptional conditions.
ghost use Rattle.std.specs.Prelude.{◌≡◌, ◌<◌, ◌↔◌, ◌==◌, Some};
ghost use Rattle.std.specs.List.{find};
ghost use Rattle.std.specs.Str.{bytes_eq};
ghost use Rattle.cx_base.specs.Conditions.{abend_code_of, entry_of, handled_conditions, condition_place};

use cx_ebcdic::Name4;

/// How many conditions there are, NORMAL among them.
pub const CONDITIONS: usize = 10;

/// An exceptional condition that a command can meet, or NORMAL.
///
/// Application Programmer's Reference Manual, SC33-0077, "Exceptional conditions".
/// The numbers and abend codes are CICS's customary ones.
#[derive(Clone, Copy, PartialEq, Eq, Default)]
pub enum Condition {
    #[default]
    Normal,
    Error,
    Invreq,
    Nospace,
    Lengerr,
    Itemerr,
    Pgmiderr,
    Nostg,
    Qiderr,
    Enqbusy,
}

impl Condition {
    /// All conditions, in the order of their numbers.
    const ALL: [Condition; CONDITIONS] = [
        Condition::Normal,
        Condition::Error,
        Condition::Invreq,
        Condition::Nospace,
        Condition::Lengerr,
        Condition::Itemerr,
        Condition::Pgmiderr,
        Condition::Nostg,
        Condition::Qiderr,
        Condition::Enqbusy,
    ];

    /// The conditions that a program can handle, in the order of their numbers: all but NORMAL.
    pub fn handled() -> &'static [Condition]
        ensures { result.now ≡ handled_conditions }
    {
        &Condition::ALL[1..]
    }

    /// The condition's place among all, in the order of their numbers: 0 for NORMAL, 9 for the last.
    pub fn place(self) -> usize
        ensures value { result ≡ condition_place self }
        ensures bound { result < CONDITIONS }
    {
        self as usize
    }

    /// The number that EIBRESP and RESP's word get.
    pub fn number(self) -> u8
        ensures { result ≡ (entry_of self).number }
    {
        match self {
            Condition::Normal => 0,
            Condition::Error => 1,
            Condition::Invreq => 16,
            Condition::Nospace => 18,
            Condition::Lengerr => 22,
            Condition::Itemerr => 26,
            Condition::Pgmiderr => 27,
            Condition::Nostg => 42,
            Condition::Qiderr => 44,
            Condition::Enqbusy => 55,
        }
    }

    /// The condition's name, as `LENGERR`.
    pub fn name(self) -> &'static str
        ensures { result.now ≡ (entry_of self).name }
    {
        match self {
            Condition::Normal => "NORMAL",
            Condition::Error => "ERROR",
            Condition::Invreq => "INVREQ",
            Condition::Nospace => "NOSPACE",
            Condition::Lengerr => "LENGERR",
            Condition::Itemerr => "ITEMERR",
            Condition::Pgmiderr => "PGMIDERR",
            Condition::Nostg => "NOSTG",
            Condition::Qiderr => "QIDERR",
            Condition::Enqbusy => "ENQBUSY",
        }
    }

    /// The code of the abend that the condition leads to where nothing handles it.
    /// None for NORMAL and ERROR, and for NOSPACE, NOSTG and ENQBUSY, which wait instead.
    #[tactic(auto, unfolding(crate::specs::Conditions::abend_code_of))]
    pub fn abend_code(self) -> Option<Name4>
        ensures { result ≡ abend_code_of self }
    {
        match self {
            Condition::Invreq => Name4::from_text("AEIP"),
            Condition::Lengerr => Name4::from_text("AEIV"),
            Condition::Itemerr => Name4::from_text("AEIZ"),
            Condition::Pgmiderr => Name4::from_text("AEI0"),
            Condition::Qiderr => Name4::from_text("AEYH"),
            Condition::Normal
            | Condition::Error
            | Condition::Nospace
            | Condition::Nostg
            | Condition::Enqbusy => None,
        }
    }

    /// The condition of that number, or None where no condition has it.
    pub fn from_number(number: u8) -> Option<Condition>
        ensures { (condition : Condition) → (result ≡ Some condition) ↔ ((entry_of condition).number ≡ number) }
    {
        numbered(&Condition::ALL, number)
    }

    /// The condition of that name, or None where no condition has it.
    pub fn from_name(name: &str) -> Option<Condition>
        ensures { (condition : Condition) → (result ≡ Some condition) ↔ ((entry_of condition).name ≡ name.now) }
    {
        Condition::named(name.as_bytes())
    }

    /// The condition of that name, as bytes of text, or None where no condition has it.
    pub fn named(name: &[u8]) -> Option<Condition>
        ensures { (condition : Condition) → (result ≡ Some condition) ↔ ((entry_of condition).name ≡ name.now) }
    {
        with_name(&Condition::ALL, name)
    }
}

/// The first of some conditions that has a number.
fn numbered(conditions: &[Condition], number: u8) -> Option<Condition>
    ensures { result ≡ find (λ condition. (entry_of condition).number == number) conditions.now }
{
    conditions
        .iter()
        .copied()
        .find(|condition| condition.number() == number)
}

/// The first of some conditions that has a name.
fn with_name(conditions: &[Condition], name: &[u8]) -> Option<Condition>
    ensures { result ≡ find (λ condition. bytes_eq (entry_of condition).name name.now) conditions.now }
{
    conditions
        .iter()
        .copied()
        .find(|condition| condition.name().as_bytes() == name)
}
