//! The value of an expression.

ghost use Rattle.std.specs.Prelude.{◌≡◌, pos, slice_get, IfOk};
ghost use Rattle.std.specs.List.{filter_map};
ghost use Rattle.std.specs.Option.{option_copied, option_map_or};
ghost use Rattle.cx_asm_expressions.specs.Symbols.{find_in};
ghost use Rattle.cx_asm_expressions.specs.Expressions.{Answers, lowest_fault, signed_value, sum_from, sum_of_values, value_of, within_bound};
ghost use Rattle.cx_asm_expressions.specs.Weights.{with_sign};
ghost use Rattle.cx_asm_expressions.specs.declared.expressions.Signed.{Signed as SignedTerm};

use crate::digits::BOUND;
use crate::faults::{FaultKind, TermFault, lower};
use crate::symbols::SymbolTable;
use crate::terms::{Sign, Term, terms_of};
use crate::values::Value;
use crate::weights::relocation;
use cx_ebcdic::Name8;
use std::alloc::{AllocError, Global};

/// The value of a term, with the sign before it: what is added, or subtracted, in an expression.
#[derive(Clone, Copy)]
pub struct Signed {
    /// The sign before the term.
    pub sign: Sign,
    /// The value of the term, without the sign.
    pub value: Value,
}

/// The lowest fault of terms, if one has any.
#[tactic(auto, using(crate::specs::Facts::Faults::lower_in_turn))]
fn lowest_fault(
    terms: &[Term<'_>],
    symbols: &SymbolTable,
    here: Option<&Value>,
) -> Option<FaultKind>
    ensures { result ≡ lowest_fault (find_in symbols.now) (option_copied here.entry) terms.now }
{
    let mut fault = None;
    for term in terms {
        fault = lower(fault, term.fault(symbols, here));
    }
    fault
}

/// The values of the terms, each with its sign.
#[tactic(auto, using(crate::proofs::FaultLemmas::put_one))]
fn values_of(
    alloc: Global,
    terms: &[Term<'_>],
    symbols: &SymbolTable,
    here: Option<&Value>,
) -> Result<Vec<Signed>, AllocError>
    ensures { IfOk result (λ values. values.items
        ≡ filter_map (signed_value (find_in symbols.now) (option_copied here.entry)) terms.now) }
{
    let mut values = Vec::new(alloc);
    for term in terms {
        term.put_value(symbols, here, &mut values)?;
    }
    Ok(values)
}

/// A total with one number more or less; None beyond the bound.
fn sum(total: i128, sign: Sign, number: i128) -> Option<i128>
    ensures { result ≡ within_bound (with_sign sign total number) }
{
    let sum = match sign {
        Sign::Plus => total.checked_add(number)?,
        Sign::Minus => total.checked_sub(number)?,
    };
    if sum.unsigned_abs() <= BOUND {
        Some(sum)
    } else {
        None
    }
}

/// The sum of values, or None where it leaves the bound on the way.
fn sum_of(values: &[Signed]) -> Option<i128>
    ensures { result ≡ sum_from (pos 0) values.now }
{
    let mut total = 0;
    for value in values {
        total = sum(total, value.sign, value.value.number)?;
    }
    Some(total)
}

/// The length attribute of the leftmost term.
fn leading_length(values: &[Signed]) -> u128
    ensures { result ≡ option_map_or (λ (v : SignedTerm). v.value.length) (slice_get values.now 0) 1 }
{
    match values.first() {
        Some(value) => value.value.length,
        None => 1,
    }
}

/// A sum of values: its number, its section, and the length attribute of its leftmost term.
#[tactic(auto, unfolding(crate::specs::Expressions::sum_of_values))]
fn summed(alloc: Global, values: &[Signed]) -> Result<Value, TermFault>
    ensures { Answers (sum_of_values values.now) result }
{
    let Some(number) = sum_of(values) else {
        return Err(TermFault::Refused(FaultKind::ValueOutOfRange));
    };
    let placed: Option<Option<Name8>> = relocation(alloc, values)?;
    let Some(section) = placed else {
        return Err(TermFault::Refused(FaultKind::NotRelocatable));
    };
    Ok(Value {
        section,
        number,
        length: leading_length(values),
    })
}

/// The value of an expression: a sum of terms, absolute or a place in one section, with the length attribute of its
/// leftmost term (GC33-4010, "Expressions"). `here` is where the location counter is, if anywhere.
///
/// A text that is no expression is BadOperand alone. Else the lowest fault of its terms is answered, if one has any;
/// else ValueOutOfRange where a sum, made from the left, goes beyond 2^100 in size; else NotRelocatable where the sum
/// is neither absolute nor a place in one section. Memory comes only where an allocation failed.
#[tactic(auto, unfolding(crate::specs::Expressions::value_of))]
pub fn value_of(
    alloc: Global,
    text: &[u8],
    symbols: &SymbolTable,
    here: Option<&Value>,
) -> Result<Value, TermFault>
    ensures { Answers (value_of (find_in symbols.now) (option_copied here.entry) text.now) result }
{
    let Some(terms) = terms_of(alloc, text)? else {
        return Err(TermFault::Refused(FaultKind::BadOperand));
    };
    if let Some(fault) = lowest_fault(terms.as_slice(), symbols, here) {
        return Err(TermFault::Refused(fault));
    }
    let values = values_of(alloc, terms.as_slice(), symbols, here)?;
    summed(alloc, values.as_slice())
}
