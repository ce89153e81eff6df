//! What an operand is read by, and operands that are numbers.

ghost use Rattle.std.specs.Prelude.{◌≡◌, ◌≤◌, IfOk, length};
ghost use Rattle.std.specs.Option.{option_copied};
ghost use Rattle.cx_asm_expressions.specs.Symbols.{find_in};
ghost use Rattle.cx_asm_operands.specs.Checking.{then_check};
ghost use Rattle.cx_asm_operands.specs.Context.{context, number_at_most, operand_number, register_in, lookup_context, expression_value};

use crate::bases::Bases;
use crate::checking::Checked;
use cx_asm_expressions::{FaultKind, SymbolTable, TermFault, Value, value_of};
use cx_ebcdic::Name8;
use std::alloc::{AllocError, Global};

/// What a statement's operands are read by: symbols, the location counter, the bases in use and the place of its
/// literal.
#[derive(Drop)]
pub struct Context<'a> {
    symbols: &'a SymbolTable,
    here: Option<Value>,
    bases: &'a Bases,
    literal: Option<Value>,
}

/// The number, 0 to `most`, that a value is.
fn number_at_most(most: u16, value: Value) -> Result<u16, FaultKind>
    ensures { result ≡ number_at_most most value }
{
    let section: Option<Name8> = value.section;
    if section.is_some() {
        return Err(FaultKind::BadOperand);
    }
    if value.number >= 0 && value.number <= i128::from(most) {
        Ok(value.number as u16)
    } else {
        Err(FaultKind::ValueOutOfRange)
    }
}

/// The number, 0 to `most`, that a value is, where there is one.
pub(crate) fn number_of(
    most: u16,
    expression_value: Result<Value, FaultKind>,
) -> Result<u16, FaultKind>
    ensures { result ≡ then_check (number_at_most most) expression_value }
{
    match expression_value {
        Ok(value) => {
            let value: Value = value;
            number_at_most(most, value)
        }
        Err(fault) => Err(fault),
    }
}

impl<'a> Context<'a> {
    /// What a statement's operands are read by: the symbols; `here`, where the location counter is, if anywhere, with
    /// the statement's length; the bases in use; and the place of the literal that is the statement's last operand,
    /// with the length of one copy, if it is one. It takes no memory.
    pub fn new(
        symbols: &'a SymbolTable,
        here: Option<Value>,
        bases: &'a Bases,
        literal: Option<Value>,
    ) -> Context<'a>
        ensures { lookup_context result ≡ context (find_in symbols.now) here bases.now literal }
    {
        Context {
            symbols,
            here,
            bases,
            literal,
        }
    }

    /// The bases in use.
    pub(crate) fn bases(&self) -> &Bases
        ensures bases { result.now ≡ (lookup_context self.now).bases }
        ensures sixteen { length (lookup_context self.now).bases ≡ 16 }
    {
        let _sixteen = self.bases.as_slice();
        self.bases
    }

    /// The place of the statement's literal.
    pub(crate) fn literal(&self) -> Option<Value>
        ensures { result ≡ (lookup_context self.now).literal }
    {
        self.literal
    }

    /// The value of an expression.
    pub(crate) fn expression_value(&self, alloc: Global, text: &[u8]) -> Checked<Value>
        ensures { IfOk result (λ found. found ≡ expression_value (lookup_context self.now) text.now) }
    {
        match value_of(alloc, text, self.symbols, self.here.as_ref()) {
            Ok(value) => Ok(Ok(value)),
            Err(TermFault::Refused(fault)) => Ok(Err(fault)),
            Err(TermFault::Memory) => Err(AllocError),
        }
    }

    /// The number, 0 to `most`, that an operand is.
    #[tactic(auto, unfolding(crate::specs::Context::operand_number))]
    pub(crate) fn number(&self, alloc: Global, text: &[u8], most: u16) -> Checked<u16>
        ensures { IfOk result (λ found. found ≡ operand_number most (lookup_context self.now) text.now) }
    {
        match self.expression_value(alloc, text) {
            Ok(expression_value) => Ok(number_of(most, expression_value)),
            Err(error) => Err(error),
        }
    }

    /// The number, 0 to 255, that an immediate operand is.
    #[tactic(auto, using(crate::proofs::FitLemmas::number_fits))]
    pub(crate) fn byte(&self, alloc: Global, text: &[u8], most: u8) -> Checked<u8>
        ensures { IfOk result (λ found. found ≡ operand_number most (lookup_context self.now) text.now) }
    {
        match self.number(alloc, text, u16::from(most))? {
            Ok(number) => Ok(Ok(number as u8)),
            Err(fault) => Ok(Err(fault)),
        }
    }

    /// The register, or the mask, that an operand is.
    pub(crate) fn register(&self, alloc: Global, text: &[u8]) -> Checked<u8>
        ensures { IfOk result (λ found. found ≡ register_in (lookup_context self.now) text.now) }
    {
        self.byte(alloc, text, 15)
    }
}
