//! The types of constants.

ghost use Rattle.std.specs.Prelude.{◌≡◌, ◌<◌, ◌≤◌, ◌^◌, ◌==◌, if◌then◌else◌, not};
ghost use Rattle.std.specs.List.{find};
ghost use Rattle.cx_asm_expressions.specs.Kinds.{kind_of, row_of_kind};

/// A type of constant (GC33-4010, "DC -- Define Constant").
#[derive(Clone, Copy, PartialEq, Eq)]
pub enum ConstantKind {
    /// C: characters, a byte each, in EBCDIC.
    Character,
    /// X: hexadecimal digits, two to a byte.
    Hexadecimal,
    /// B: binary digits, eight to a byte.
    Binary,
    /// F: binary numbers of 4 bytes each, or as many as a length modifier says.
    Fullword,
    /// H: binary numbers of 2 bytes each, or as many as a length modifier says.
    Halfword,
    /// P: packed decimals, two digits to a byte, the sign in the last half byte.
    Packed,
    /// A: the value of an expression, in 4 bytes or as many as a length modifier says.
    Address,
    /// V: the address of a symbol outside, in 4 bytes: DFHEI1's alone, X'800'.
    External,
    /// D: doublewords of storage, of DS alone.
    Doubleword,
}

/// How the value of a constant is written after its letter and length modifier.
#[derive(Clone, Copy, PartialEq, Eq)]
pub enum Style {
    /// One text in apostrophes.
    Text,
    /// Values in apostrophes, with commas between.
    Values,
    /// One expression in parentheses.
    Expression,
    /// No value is written.
    Nothing,
}

/// The row of a type in the table of all: what its letter, its boundary, its limits and its style are.
#[derive(Clone, Copy)]
struct Row {
    letter: u8,
    alignment: u8,
    greatest_in_dc: u16,
    greatest_in_ds: u16,
    style: Style,
}

impl Row {
    /// A row: letter, alignment, the greatest length modifier in DC and in DS, style.
    const fn new(letter: u8, alignment: u8, in_dc: u16, in_ds: u16, style: Style) -> Row
        ensures letter { result.letter ≡ letter }
        ensures alignment { result.alignment ≡ alignment }
        ensures in_dc { result.greatest_in_dc ≡ in_dc }
        ensures in_ds { result.greatest_in_ds ≡ in_ds }
        ensures style { result.style ≡ style }
    {
        Row {
            letter,
            alignment,
            greatest_in_dc: in_dc,
            greatest_in_ds: in_ds,
            style,
        }
    }
}

impl ConstantKind {
    /// All types.
    const ALL: [ConstantKind; 9] = [
        ConstantKind::Character,
        ConstantKind::Hexadecimal,
        ConstantKind::Binary,
        ConstantKind::Fullword,
        ConstantKind::Halfword,
        ConstantKind::Packed,
        ConstantKind::Address,
        ConstantKind::External,
        ConstantKind::Doubleword,
    ];

    /// Its row.
    fn row(self) -> Row
        ensures letter { result.letter ≡ (row_of_kind self).letter }
        ensures alignment { result.alignment ≡ (row_of_kind self).alignment }
        ensures in_dc { result.greatest_in_dc ≡ (row_of_kind self).greatest_in_dc }
        ensures in_ds { result.greatest_in_ds ≡ (row_of_kind self).greatest_in_ds }
        ensures style { result.style ≡ (row_of_kind self).style }
        ensures bound { result.alignment ≤ 8 }
    {
        match self {
            ConstantKind::Character => Row::new(b'C', 1, 256, 65_535, Style::Text),
            ConstantKind::Hexadecimal => Row::new(b'X', 1, 256, 65_535, Style::Text),
            ConstantKind::Binary => Row::new(b'B', 1, 256, 256, Style::Text),
            ConstantKind::Fullword => Row::new(b'F', 4, 4, 4, Style::Values),
            ConstantKind::Halfword => Row::new(b'H', 2, 4, 4, Style::Values),
            ConstantKind::Packed => Row::new(b'P', 1, 16, 16, Style::Values),
            ConstantKind::Address => Row::new(b'A', 4, 4, 4, Style::Expression),
            ConstantKind::External => Row::new(b'V', 4, 0, 0, Style::Expression),
            ConstantKind::Doubleword => Row::new(b'D', 8, 0, 0, Style::Nothing),
        }
    }

    /// The letter that stands for it in a DC, a DS or a literal, as `C` (ASCII).
    pub fn letter(self) -> u8
        ensures { result ≡ (row_of_kind self).letter }
    {
        self.row().letter
    }

    /// The type that a letter (ASCII, a capital) stands for; None where it stands for none.
    #[tactic(auto, unfolding(crate::specs::Kinds::kind_of))]
    pub fn from_letter(letter: u8) -> Option<ConstantKind>
        ensures { result ≡ kind_of letter }
    {
        with_letter(&ConstantKind::ALL, letter)
    }

    /// The boundary that it is aligned to, in bytes, where it has no length modifier: 1, 2, 4 or 8.
    pub fn alignment(self) -> u32
        ensures { result ≡ (row_of_kind self).alignment }
    {
        u32::from(self.row().alignment)
    }

    /// How many bytes a constant of it has that has neither a value nor a length modifier: as many as it is aligned to.
    pub fn own_length(self) -> usize
        ensures length { result ≡ (row_of_kind self).alignment }
        ensures bound { result ≤ 8 }
    {
        usize::from(self.row().alignment)
    }

    /// The greatest length modifier, in bytes, in DS (`is_ds`) or in DC and literals; 0 where it takes none.
    pub fn greatest_modifier(self, is_ds: bool) -> u128
        ensures greatest { result
            ≡ (if is_ds then (row_of_kind self).greatest_in_ds else (row_of_kind self).greatest_in_dc) }
        ensures bound { result < 2 ^ 16 }
    {
        let row = self.row();
        u128::from(if is_ds {
            row.greatest_in_ds
        } else {
            row.greatest_in_dc
        })
    }

    /// Whether it takes a length modifier; V and D take none.
    pub fn takes_modifier(self) -> bool
        ensures { result ≡ not ((row_of_kind self).greatest_in_dc == 0) }
    {
        self.row().greatest_in_dc != 0
    }

    /// How its value is written after its letter and length modifier.
    pub fn style(self) -> Style
        ensures { result ≡ (row_of_kind self).style }
    {
        self.row().style
    }
}

/// The first of some types that has a letter.
fn with_letter(kinds: &[ConstantKind], letter: u8) -> Option<ConstantKind>
    ensures { result ≡ find (λ kind. (row_of_kind kind).letter == letter) kinds.now }
{
    kinds.iter().copied().find(|kind| kind.letter() == letter)
}
