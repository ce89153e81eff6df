//! The value of an assembler operand: terms, expressions and constants.
#![tactic(auto)]

mod bytes;
mod digits;
mod expressions;
mod faults;
mod fields;
mod items;
mod kinds;
pub mod laws;
mod lengths;
mod symbols;
mod term_values;
mod terms;
mod texts;
mod values;
mod weights;

pub use bytes::ConstantBytes;
pub use expressions::{Signed, value_of};
pub use faults::{FaultKind, TermFault, lower, lower_of};
pub use items::{Constant, parenthesized_body};
pub use kinds::{ConstantKind, Style};
pub use symbols::{SymbolTable, symbol_name};
pub use terms::{Sign, Term, TermKind, terms_of};
pub use values::Value;
