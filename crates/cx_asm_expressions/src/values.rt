//! The values of symbols, terms and expressions.

ghost use Rattle.std.specs.Prelude.{◌≡◌};
ghost use Rattle.cx_asm_expressions.specs.Symbols.{absolute as absolute_value};

use cx_ebcdic::Name8;

/// The value of a symbol, a term or an expression: an absolute number, or an offset in a section; with its length
/// attribute (GC33-4010, "Symbols").
#[derive(Clone, Copy, Debug, PartialEq, Eq)]
pub struct Value {
    /// The section that it is an offset in; None of an absolute number.
    pub section: Option<Name8>,
    /// The number, or the offset in the section, in bytes.
    pub number: i128,
    /// The length attribute, in bytes.
    pub length: u128,
}

impl Value {
    /// A number that is in no section, with the length attribute 1.
    pub fn absolute(number: i128) -> Value
        ensures { result ≡ absolute_value number }
    {
        Value {
            section: None,
            number,
            length: 1,
        }
    }
}
