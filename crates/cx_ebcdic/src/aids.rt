//! Attention identifiers.
ghost use Rattle.std.specs.Prelude.{◌≡◌, ◌↔◌, ◌==◌};
ghost use Rattle.std.specs.List.{find};
ghost use Rattle.std.specs.Str.{bytes_eq};
ghost use Rattle.cx_ebcdic.specs.Aids.{key_of};

/// The key with which a terminal's input was sent: its attention identifier.
///
/// Introduction to the 3270, GA27-2739, "Attention Identification".
#[derive(Clone, Copy, PartialEq, Eq)]
pub enum Aid {
    Enter,
    Clear,
    Pa1,
    Pa2,
    Pf1,
    Pf2,
    Pf3,
    Pf4,
    Pf5,
    Pf6,
    Pf7,
    Pf8,
    Pf9,
    Pf10,
    Pf11,
    Pf12,
}

impl Aid {
    /// All keys, in the order of their declaration.
    pub const ALL: [Aid; 16] = [
        Aid::Enter,
        Aid::Clear,
        Aid::Pa1,
        Aid::Pa2,
        Aid::Pf1,
        Aid::Pf2,
        Aid::Pf3,
        Aid::Pf4,
        Aid::Pf5,
        Aid::Pf6,
        Aid::Pf7,
        Aid::Pf8,
        Aid::Pf9,
        Aid::Pf10,
        Aid::Pf11,
        Aid::Pf12,
    ];

    /// The byte that the terminal sends for the key, as a program finds it in EIBAID.
    pub fn code(self) -> u8
        ensures { result ≡ (key_of self).code }
    {
        match self {
            Aid::Enter => 0x7D,
            Aid::Clear => 0x6D,
            Aid::Pa1 => 0x6C,
            Aid::Pa2 => 0x6E,
            Aid::Pf1 => 0xF1,
            Aid::Pf2 => 0xF2,
            Aid::Pf3 => 0xF3,
            Aid::Pf4 => 0xF4,
            Aid::Pf5 => 0xF5,
            Aid::Pf6 => 0xF6,
            Aid::Pf7 => 0xF7,
            Aid::Pf8 => 0xF8,
            Aid::Pf9 => 0xF9,
            Aid::Pf10 => 0x7A,
            Aid::Pf11 => 0x7B,
            Aid::Pf12 => 0x7C,
        }
    }

    /// The key's name, as `ENTER` or `PF3`.
    pub fn name(self) -> &'static str
        ensures { result.now ≡ (key_of self).name }
    {
        match self {
            Aid::Enter => "ENTER",
            Aid::Clear => "CLEAR",
            Aid::Pa1 => "PA1",
            Aid::Pa2 => "PA2",
            Aid::Pf1 => "PF1",
            Aid::Pf2 => "PF2",
            Aid::Pf3 => "PF3",
            Aid::Pf4 => "PF4",
            Aid::Pf5 => "PF5",
            Aid::Pf6 => "PF6",
            Aid::Pf7 => "PF7",
            Aid::Pf8 => "PF8",
            Aid::Pf9 => "PF9",
            Aid::Pf10 => "PF10",
            Aid::Pf11 => "PF11",
            Aid::Pf12 => "PF12",
        }
    }

    /// The key of that name, or None where no key has it.
    pub fn from_name(name: &str) -> Option<Aid>
        ensures { (aid : Aid) → (result ≡ Some aid) ↔ ((key_of aid).name ≡ name.now) }
    {
        named(&Aid::ALL, name)
    }

    /// The key that sends that byte, or None where no key does.
    pub fn from_code(code: u8) -> Option<Aid>
        ensures { (aid : Aid) → (result ≡ Some aid) ↔ ((key_of aid).code ≡ code) }
    {
        coded(&Aid::ALL, code)
    }
}

/// The first of some keys that has a name.
fn named(aids: &[Aid], name: &str) -> Option<Aid>
    ensures { result ≡ find (λ aid. bytes_eq (key_of aid).name name.now) aids.now }
{
    aids.iter().copied().find(|aid| aid.name() == name)
}

/// The first of some keys that has a code.
fn coded(aids: &[Aid], code: u8) -> Option<Aid>
    ensures { result ≡ find (λ aid. (key_of aid).code == code) aids.now }
{
    aids.iter().copied().find(|aid| aid.code() == code)
}
