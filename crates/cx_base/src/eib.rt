//! The layout of the EXEC interface block.
ghost use Rattle.std.specs.Prelude.{◌≡◌, ◌≤◌};
ghost use Rattle.cx_base.specs.Eib.{eib_field, eib_len, eib_pieces};
ghost use Rattle.cx_base.specs.Layout.{field_end};

/// A field of the EXEC interface block.
///
/// Application Programmer's Reference Manual, SC33-0077, "EXEC Interface Block". The layout is this product's own.
#[derive(Clone, Copy, PartialEq, Eq)]
pub enum EibField {
    /// EIBTIME: the time of attach, hhmmss, packed decimal.
    Time,
    /// EIBDATE: the date of attach, yyddd, packed decimal.
    Date,
    /// EIBTRNID: the transaction's name.
    Trnid,
    /// EIBTASKN: the task's number, packed decimal.
    Taskn,
    /// EIBTRMID: the terminal's name.
    Trmid,
    /// EIBCALEN: the length of the COMMAREA in bytes, a halfword; 0 without one.
    Calen,
    /// EIBAID: the code of the key that attached the task, or of the input received last.
    Aid,
    /// EIBFN: the function value of the last command, two bytes.
    Fn,
    /// EIBRCODE: the number of the condition that it met, and five zeros.
    Rcode,
    /// EIBRSRCE: the name of the program or queue that a command named last.
    Rsrce,
    /// EIBRESP: the number of the condition that it met, a fullword.
    Resp,
}

/// A field of the EXEC interface block, or a gap that no field names.
#[derive(Clone, Copy, PartialEq, Eq)]
pub struct EibPiece {
    /// The field, or None for a gap.
    pub field: Option<EibField>,
    /// The number of its bytes.
    pub len: u32,
}

/// The whole block, its fields and gaps in order: 88 bytes.
#[rattlefmt::skip]
const PIECES: [EibPiece; 15] = [
    EibPiece { field: Some(EibField::Time), len: 4 },
    EibPiece { field: Some(EibField::Date), len: 4 },
    EibPiece { field: Some(EibField::Trnid), len: 4 },
    EibPiece { field: Some(EibField::Taskn), len: 4 },
    EibPiece { field: Some(EibField::Trmid), len: 4 },
    EibPiece { field: None, len: 4 },
    EibPiece { field: Some(EibField::Calen), len: 2 },
    EibPiece { field: Some(EibField::Aid), len: 1 },
    EibPiece { field: Some(EibField::Fn), len: 2 },
    EibPiece { field: Some(EibField::Rcode), len: 6 },
    EibPiece { field: None, len: 16 },
    EibPiece { field: Some(EibField::Rsrce), len: 8 },
    EibPiece { field: None, len: 17 },
    EibPiece { field: Some(EibField::Resp), len: 4 },
    EibPiece { field: None, len: 8 },
];

impl EibField {
    /// The field's name, as `EIBRESP`.
    pub fn name(self) -> &'static str
        ensures { result.now ≡ (eib_field self).name }
    {
        match self {
            EibField::Time => "EIBTIME",
            EibField::Date => "EIBDATE",
            EibField::Trnid => "EIBTRNID",
            EibField::Taskn => "EIBTASKN",
            EibField::Trmid => "EIBTRMID",
            EibField::Calen => "EIBCALEN",
            EibField::Aid => "EIBAID",
            EibField::Fn => "EIBFN",
            EibField::Rcode => "EIBRCODE",
            EibField::Rsrce => "EIBRSRCE",
            EibField::Resp => "EIBRESP",
        }
    }

    /// Its offset from the block's first byte.
    pub fn offset(self) -> u32
        ensures value { result ≡ (eib_field self).offset }
        ensures within { field_end (eib_field self) ≤ eib_len }
    {
        match self {
            EibField::Time => 0,
            EibField::Date => 4,
            EibField::Trnid => 8,
            EibField::Taskn => 12,
            EibField::Trmid => 16,
            EibField::Calen => 24,
            EibField::Aid => 26,
            EibField::Fn => 27,
            EibField::Rcode => 29,
            EibField::Rsrce => 51,
            EibField::Resp => 76,
        }
    }

    /// Its length in bytes.
    pub fn length(self) -> u32
        ensures { result ≡ (eib_field self).len }
    {
        match self {
            EibField::Aid => 1,
            EibField::Calen | EibField::Fn => 2,
            EibField::Time
            | EibField::Date
            | EibField::Trnid
            | EibField::Taskn
            | EibField::Trmid
            | EibField::Resp => 4,
            EibField::Rcode => 6,
            EibField::Rsrce => 8,
        }
    }
}

/// The whole block of 88 bytes: its fields and the gaps between and after them, in order.
pub fn eib_pieces() -> &'static [EibPiece]
    ensures { result.now ≡ eib_pieces }
{
    &PIECES
}
