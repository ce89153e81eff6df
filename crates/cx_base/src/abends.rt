//! The abend codes that the region makes.
ghost use Rattle.std.specs.Prelude.{◌≡◌, Some};
ghost use Rattle.cx_base.specs.Abends.{abend_bytes, abend_code, abend_name};

use cx_ebcdic::Name4;

/// An abend that the region itself makes, beside those that conditions lead to.
///
/// ASRA, AICA and the question marks are CICS's customary ones; the codes with X are this product's own.
#[derive(Clone, Copy, PartialEq, Eq)]
pub enum Abend {
    /// ASRA: an instruction was interrupted.
    Asra,
    /// AICA: 65,536 instructions of a half-turn came to no command.
    Aica,
    /// XARG: a byte of a command's argument list, of its inputs or of its outputs is in no area, or the high bit is not
    /// set on the list's last word alone.
    Xarg,
    /// XFUN: a function value that no command has, or options or listed conditions that are no legal set.
    Xfun,
    /// XLVL: a LINK that would make a 17th level.
    Xlvl,
    /// XSTG: storage has no place for a program's DFHEISTG, or for the copy of the COMMAREA that XCTL makes.
    Xstg,
    /// XEDF: an operator ended the task, by an alteration or by PF12 under EDF.
    Xedf,
    /// `????`: ABEND without ABCODE.
    Unnamed,
}

impl Abend {
    /// The code's four characters, as `ASRA`.
    pub fn name(self) -> &'static str
        ensures { result.now ≡ abend_name self }
    {
        match self {
            Abend::Asra => "ASRA",
            Abend::Aica => "AICA",
            Abend::Xarg => "XARG",
            Abend::Xfun => "XFUN",
            Abend::Xlvl => "XLVL",
            Abend::Xstg => "XSTG",
            Abend::Xedf => "XEDF",
            Abend::Unnamed => "????",
        }
    }

    /// The code's four characters in EBCDIC.
    #[tactic(auto, unfolding(crate::specs::Abends::abend_bytes, cx_ebcdic::specs::Characters::code_of, cx_ebcdic::specs::Characters::table))]
    pub fn code(self) -> Name4
        ensures value { result ≡ abend_code self }
        ensures spelled { abend_bytes self ≡ Some result }
    {
        Name4::from_bytes(match self {
            Abend::Asra => [0xC1, 0xE2, 0xD9, 0xC1],
            Abend::Aica => [0xC1, 0xC9, 0xC3, 0xC1],
            Abend::Xarg => [0xE7, 0xC1, 0xD9, 0xC7],
            Abend::Xfun => [0xE7, 0xC6, 0xE4, 0xD5],
            Abend::Xlvl => [0xE7, 0xD3, 0xE5, 0xD3],
            Abend::Xstg => [0xE7, 0xE2, 0xE3, 0xC7],
            Abend::Xedf => [0xE7, 0xC5, 0xC4, 0xC6],
            Abend::Unnamed => [0x6F, 0x6F, 0x6F, 0x6F],
        })
    }
}
