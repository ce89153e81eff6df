//! The value of a term.

ghost use Rattle.std.specs.Prelude.{◌≡◌, ◌≤◌, ◌++◌, [], OnOk};
ghost use Rattle.std.specs.List.{cons_option};
ghost use Rattle.std.specs.Result.{result_err};
ghost use Rattle.std.specs.Option.{ok_or, option_copied};
ghost use Rattle.cx_asm_expressions.specs.Digits.{bound, number_in};
ghost use Rattle.cx_asm_expressions.specs.Texts.{character_number};
ghost use Rattle.cx_asm_expressions.specs.Symbols.{find_in};
ghost use Rattle.cx_asm_expressions.specs.Expressions.{signed_value};
ghost use Rattle.cx_asm_expressions.specs.TermValues.{greatest, look_up, number_value, term_value};

use crate::digits::{BOUND, number};
use crate::expressions::Signed;
use crate::faults::FaultKind;
use crate::symbols::{SymbolTable, symbol_name};
use crate::terms::{Term, TermKind};
use crate::texts::character_number;
use crate::values::Value;
use cx_ebcdic::Name8;
use std::alloc::AllocError;

/// The greatest self-defining term.
pub(crate) const GREATEST: u128 = 4_294_967_295;

/// A self-defining term of this number.
fn self_defined(number: u128) -> Result<Value, FaultKind>
    ensures { result ≡ number_value greatest number }
{
    if number <= GREATEST {
        Ok(Value::absolute(number as i128))
    } else {
        Err(FaultKind::ValueOutOfRange)
    }
}

/// The self-defining term that digits of a base write.
#[tactic(auto, using(crate::proofs::NumberLemmas::bounded_number, crate::proofs::NumberLemmas::unbounded_number))]
fn digits_value(text: &[u8], base: u8) -> Result<Value, FaultKind>
    requires positive { 1 ≤ base }
    requires small { base ≤ 16 }
    ensures { result ≡ number_value greatest (number_in base text.now) }
{
    match number(text, base) {
        Some(number) => self_defined(number),
        None => Err(FaultKind::ValueOutOfRange),
    }
}

/// The self-defining term that characters write.
#[tactic(auto, using(crate::proofs::NumberLemmas::bounded_number, crate::proofs::NumberLemmas::unbounded_number))]
fn characters_value(text: &[u8]) -> Result<Value, FaultKind>
    ensures { result ≡ number_value greatest (character_number text.now) }
{
    match character_number(text) {
        Some(number) => self_defined(number),
        None => Err(FaultKind::ValueOutOfRange),
    }
}

/// A length attribute as a term.
fn length_value(value: Value) -> Result<Value, FaultKind>
    ensures { result ≡ number_value bound value.length }
{
    if value.length <= BOUND {
        Ok(Value::absolute(value.length as i128))
    } else {
        Err(FaultKind::ValueOutOfRange)
    }
}

/// The value of a symbol, if it is one and is defined.
fn look_up(symbols: &SymbolTable, text: &[u8]) -> Option<Value>
    ensures { result ≡ look_up (find_in symbols.now) text.now }
{
    let name: Name8 = symbol_name(text)?;
    symbols.get(name)
}

/// The value of a symbol, or that there is none.
fn defined(value: Option<Value>) -> Result<Value, FaultKind>
    ensures { result ≡ ok_or value FaultKind.UndefinedSymbol }
{
    match value {
        Some(value) => Ok(value),
        None => Err(FaultKind::UndefinedSymbol),
    }
}

/// Where the location counter is, if anywhere.
fn located(here: Option<&Value>) -> Result<Value, FaultKind>
    ensures { result ≡ ok_or (option_copied here.entry) FaultKind.BadOperand }
{
    match here {
        Some(value) => Ok(*value),
        None => Err(FaultKind::BadOperand),
    }
}

impl Term<'_> {
    /// The value of the term, where `here` is where the location counter is, if anywhere. It takes no memory.
    ///
    /// UndefinedSymbol comes for a symbol, also after L', that isn't in the table; ValueOutOfRange for a decimal above
    /// 4,294,967,295 (and for a length attribute beyond 2^100); BadOperand for `*` where `here` is None.
    #[tactic(auto, unfolding(crate::specs::TermValues::term_value))]
    pub fn value(&self, symbols: &SymbolTable, here: Option<&Value>) -> Result<Value, FaultKind>
        ensures { result ≡ term_value (find_in symbols.now) (option_copied here.entry) self.now }
    {
        let text = self.text();
        match self.kind() {
            TermKind::Symbol => defined(look_up(symbols, text)),
            TermKind::Decimal => digits_value(text, 10),
            TermKind::Hexadecimal => digits_value(text, 16),
            TermKind::Binary => digits_value(text, 2),
            TermKind::Characters => characters_value(text),
            TermKind::Here => located(here),
            TermKind::LengthOf => match look_up(symbols, text) {
                Some(value) => length_value(value),
                None => Err(FaultKind::UndefinedSymbol),
            },
        }
    }

    /// The fault of the term, if it has one.
    pub(crate) fn fault(&self, symbols: &SymbolTable, here: Option<&Value>) -> Option<FaultKind>
        ensures { result ≡ result_err (term_value (find_in symbols.now) (option_copied here.entry) self.now) }
    {
        match self.value(symbols, here) {
            Ok(_) => None,
            Err(fault) => Some(fault),
        }
    }

    /// Puts the value of the term, with its sign, after other values; nothing where it is at fault.
    pub(crate) fn put_value(
        &self,
        symbols: &SymbolTable,
        here: Option<&Value>,
        values: &mut Vec<Signed>,
    ) -> Result<(), AllocError>
        ensures { let value = signed_value (find_in symbols.now) (option_copied here.entry) self.now in
            OnOk result (values.new.items ≡ values.old.items ++ cons_option value []) }
    {
        let Ok(value) = self.value(symbols, here) else {
            return Ok(());
        };
        let section: Option<Name8> = value.section;
        values.push(Signed {
            sign: self.sign(),
            value: Value { section, ..value },
        })?;
        Ok(())
    }
}
