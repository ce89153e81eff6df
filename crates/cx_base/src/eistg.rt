//! The layout of the head of a program's DFHEISTG.
ghost use Rattle.std.specs.Prelude.{◌≡◌, ◌≤◌};
ghost use Rattle.cx_base.specs.Eistg.{eistg_field, eistg_head};
ghost use Rattle.cx_base.specs.Layout.{field_end};

/// A field at the head of a program's DFHEISTG: of its first 80 bytes, which come before the program's fields.
///
/// The layout is this product's.
#[derive(Clone, Copy, PartialEq, Eq)]
pub enum EistgField {
    /// DFHEIPL: the words of an argument list, at most eighteen.
    Eipl,
    /// DFHEITP: the word that gets a pointer which a command gives.
    Eitp,
    /// DFHEICAP: the address of the COMMAREA; 0 without one.
    Eicap,
}

impl EistgField {
    /// The field's name, as `DFHEIPL`.
    pub fn name(self) -> &'static str
        ensures { result.now ≡ (eistg_field self).name }
    {
        match self {
            EistgField::Eipl => "DFHEIPL",
            EistgField::Eitp => "DFHEITP",
            EistgField::Eicap => "DFHEICAP",
        }
    }

    /// Its offset from the first byte of DFHEISTG.
    pub fn offset(self) -> u32
        ensures value { result ≡ (eistg_field self).offset }
        ensures within { field_end (eistg_field self) ≤ eistg_head }
    {
        match self {
            EistgField::Eipl => 0,
            EistgField::Eitp => 72,
            EistgField::Eicap => 76,
        }
    }

    /// Its length in bytes.
    pub fn length(self) -> u32
        ensures { result ≡ (eistg_field self).len }
    {
        match self {
            EistgField::Eipl => 72,
            EistgField::Eitp | EistgField::Eicap => 4,
        }
    }
}
