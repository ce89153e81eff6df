//! Storage operands.

ghost use Rattle.std.specs.Prelude.{◌≡◌, ◌≤◌, ◌-◌, ◌∷◌, [], IfOk, map, option_map, Some, None};
ghost use Rattle.std.specs.Option.{ok_or, option_map_or};
ghost use Rattle.std.specs.Result.{result_err};
ghost use Rattle.cx_source.specs.Marks.{parts};
ghost use Rattle.cx_source.specs.declared.marks.Delimiter.TheVariants.{TopComma};
ghost use Rattle.cx_asm_expressions.specs.Faults.{lowest};
ghost use Rattle.cx_asm_expressions.specs.declared.faults.FaultKind.TheVariants as FaultKind;
ghost use Rattle.cx_asm_operands.specs.Checking.{then_check};
ghost use Rattle.cx_asm_operands.specs.Addresses.{implied_address};
ghost use Rattle.cx_asm_operands.specs.Context.{lookup_context, expression_value};
ghost use Rattle.cx_asm_operands.specs.Storage.{address_by_subfields, counted_by, counted_in, too_many_subfields, explicit_address, expression_and_list, implied_length, index_in, indexed_by, indexed_in, is_literal, operand_in, plain_in};

use crate::addresses::Address;
use crate::checking::{Checked, both};
use crate::context::{Context, number_of};
use cx_asm_expressions::{FaultKind, Value, lower, lower_of, parenthesized_body};
use cx_source::{Delimiter, cut, first_mark};
use std::alloc::{AllocError, Global};
use std::marker::Model;

/// The greatest displacement.
const GREATEST: u16 = 4095;

/// A storage operand as it is written: the value in front of its parentheses, or the fault of that, and what is in
/// these, cut at the commas.
#[derive(Drop)]
pub struct Operand<'a> {
    place: Result<Value, FaultKind>,
    subfields: Vec<&'a [u8]>,
}

impl<'a> Model for Operand<'a> {
    ghost use Rattle.std.specs.Prelude.{map};
    ghost use Rattle.cx_asm_operands.specs.Storage.{Operand as OperandValue, operand};

    ghost Value = { OperandValue };

    ghost view = { λ s. operand s.place (map (λ text. text.now) s.subfields.items) };
}

/// An expression, and perhaps one list in parentheses after it.
fn expression_and_list(text: &[u8]) -> Option<(&[u8], Option<&[u8]>)>
    ensures { let read = expression_and_list text.now in
        option_map (λ found. (found.0.now, option_map_or (λ body. parts TopComma body.now) found.1 [])) result ≡ read }
{
    let at = first_mark(text, Delimiter::Parenthesis);
    if at == text.len() {
        return Some((text, None));
    }
    let (expression, after) = text.split_at(at);
    let body = parenthesized_body(after)?;
    Some((expression, Some(body)))
}

/// The parts in the parentheses, none without them.
fn subfields_of(alloc: Global, list: Option<&[u8]>) -> Result<Vec<&[u8]>, AllocError>
    ensures { let subfields = option_map_or (λ body. parts TopComma body.now) list.entry [] in
        IfOk result (λ found. map (λ text. text.now) found.items ≡ subfields) }
{
    match list {
        Some(body) => cut(alloc, body, Delimiter::TopComma),
        None => Ok(Vec::new(alloc)),
    }
}

/// Whether a text is a literal.
pub(crate) fn is_literal(text: &[u8]) -> bool
    ensures { result ≡ is_literal text.now }
{
    !text.is_empty() && text[0] == b'='
}

/// What a literal stands for.
fn literal_place(literal: Option<Value>) -> Result<Value, FaultKind>
    ensures { result ≡ ok_or literal FaultKind.BadOperand }
{
    match literal {
        Some(value) => Ok(value),
        None => Err(FaultKind::BadOperand),
    }
}

impl<'a> Operand<'a> {
    /// The storage operand that a text is, if it is one.
    #[tactic(auto, unfolding(crate::specs::Storage::operand_in))]
    fn read(
        alloc: Global,
        takes_literal: bool,
        c: &Context<'_>,
        text: &'a [u8],
    ) -> Result<Option<Operand<'a>>, AllocError>
        ensures { IfOk result (λ found. found ≡ operand_in takes_literal (lookup_context c.now) text.now) }
    {
        if is_literal(text) {
            if !takes_literal {
                return Ok(None);
            }
            return Ok(Some(Operand {
                place: literal_place(c.literal()),
                subfields: Vec::new(alloc),
            }));
        }
        let Some((expression, list)) = expression_and_list(text) else {
            return Ok(None);
        };
        let place = c.expression_value(alloc, expression)?;
        let subfields = subfields_of(alloc, list)?;
        Ok(Some(Operand { place, subfields }))
    }
}

/// The implied address of a value, where there is one.
fn implied(c: &Context<'_>, place: Result<Value, FaultKind>) -> Result<Address, FaultKind>
    ensures { result ≡ then_check (implied_address (lookup_context c.now).bases) place }
{
    match place {
        Ok(value) => {
            let value: Value = value;
            c.bases().implied_address(value)
        }
        Err(fault) => Err(fault),
    }
}

/// The address where a base is written.
fn explicit_address(
    alloc: Global,
    c: &Context<'_>,
    place: Result<Value, FaultKind>,
    base: &[u8],
) -> Checked<Address>
    ensures { IfOk result (λ found. found ≡ explicit_address (lookup_context c.now) place base.now) }
{
    let displacement = number_of(GREATEST, place);
    let base = c.register(alloc, base)?;
    match both(displacement, base) {
        Ok((displacement, base)) => Ok(Ok(Address { base, displacement })),
        Err(fault) => Ok(Err(fault)),
    }
}

/// The fault of an expression, if it has one.
fn fault_of(alloc: Global, c: &Context<'_>, text: &[u8]) -> Result<Option<FaultKind>, AllocError>
    ensures { IfOk result (λ found. found ≡ result_err (expression_value (lookup_context c.now) text.now)) }
{
    match c.expression_value(alloc, text) {
        Ok(Ok(_)) => Ok(None),
        Ok(Err(fault)) => Ok(Some(fault)),
        Err(error) => Err(error),
    }
}

/// The lowest fault of an address and of expressions.
#[tactic(auto, using(cx_asm_expressions::specs::Facts::Faults::lower_in_turn))]
fn lowest_of(
    alloc: Global,
    c: &Context<'_>,
    address: Result<Address, FaultKind>,
    more: &[&[u8]],
) -> Result<Option<FaultKind>, AllocError>
    ensures { let faults = map
        (λ text. result_err (expression_value (lookup_context c.now) text)) (map (λ text. text.now) more.now) in
        IfOk result (λ found. found ≡ lowest (result_err address ∷ faults)) }
{
    let mut fault = address.err();
    for text in more {
        let other = fault_of(alloc, c, text)?;
        fault = lower(fault, other);
    }
    Ok(fault)
}

/// The fault where there are more subfields than the operand has room for.
fn crowded(
    alloc: Global,
    c: &Context<'_>,
    address: Result<Address, FaultKind>,
    more: &[&[u8]],
) -> Checked<Address>
    ensures { IfOk result
        (λ found. found ≡ too_many_subfields (lookup_context c.now) address (map (λ text. text.now) more.now)) }
{
    match lowest_of(alloc, c, address, more)? {
        Some(fault) => Ok(Err(lower_of(FaultKind::BadOperand, fault))),
        None => Ok(Err(FaultKind::BadOperand)),
    }
}

/// The address by what is in the parentheses at the place of a base.
fn address_by_subfields(
    alloc: Global,
    c: &Context<'_>,
    place: Result<Value, FaultKind>,
    subfields: &[&[u8]],
) -> Checked<Address>
    ensures { IfOk result
        (λ found. found ≡ address_by_subfields (lookup_context c.now) place (map (λ text. text.now) subfields.now)) }
{
    match subfields {
        [] => Ok(implied(c, place)),
        [base] => explicit_address(alloc, c, place, base),
        [base, more @ ..] => {
            let address = explicit_address(alloc, c, place, base)?;
            crowded(alloc, c, address, more)
        }
    }
}

/// The index in front of a base, 0 where it isn't written.
fn index_in(alloc: Global, c: &Context<'_>, text: &[u8]) -> Checked<u8>
    ensures { IfOk result (λ found. found ≡ index_in (lookup_context c.now) text.now) }
{
    match text {
        [] => Ok(Ok(0)),
        _ => c.register(alloc, text),
    }
}

/// The index, 0 where none is written, and the address of `S`, `S(X)`, `D(X,B)` or `D(,B)`.
fn indexed(alloc: Global, c: &Context<'_>, operand: &Operand<'_>) -> Checked<(u8, Address)>
    ensures { IfOk result
        (λ found. found ≡ indexed_by (lookup_context c.now) operand.now.place operand.now.subfields) }
{
    match operand.subfields.as_slice() {
        [] => Ok(both(Ok(0), implied(c, operand.place))),
        [index] => Ok(both(c.register(alloc, index)?, implied(c, operand.place))),
        [index, base @ ..] => {
            let index = index_in(alloc, c, index)?;
            let address = address_by_subfields(alloc, c, operand.place, base)?;
            Ok(both(index, address))
        }
    }
}

/// The length attribute of a value, up to `most`, where there is a value.
fn implied_length(most: u16, place: Result<Value, FaultKind>) -> Result<u16, FaultKind>
    ensures { result ≡ then_check (implied_length most) place }
{
    match place {
        Ok(value) => {
            let value: Value = value;
            if value.length <= u128::from(most) {
                Ok(value.length as u16)
            } else {
                Err(FaultKind::ValueOutOfRange)
            }
        }
        Err(fault) => Err(fault),
    }
}

/// The length and the address of `S`, `S(L)` or `D(L,B)`.
fn counted(
    alloc: Global,
    c: &Context<'_>,
    operand: &Operand<'_>,
    most: u16,
) -> Checked<(u16, Address)>
    ensures { IfOk result
        (λ found. found ≡ counted_by most (lookup_context c.now) operand.now.place operand.now.subfields) }
{
    match operand.subfields.as_slice() {
        [] => Ok(both(
            implied_length(most, operand.place),
            implied(c, operand.place),
        )),
        [count, base @ ..] => {
            let count = c.number(alloc, count, most)?;
            let address = address_by_subfields(alloc, c, operand.place, base)?;
            Ok(both(count, address))
        }
    }
}

/// The address that a storage operand without index or length is.
#[tactic(auto, unfolding(crate::specs::Storage::plain_in))]
pub(crate) fn plain_in(
    alloc: Global,
    takes_literal: bool,
    c: &Context<'_>,
    text: &[u8],
) -> Checked<Address>
    ensures { IfOk result (λ found. found ≡ plain_in takes_literal (lookup_context c.now) text.now) }
{
    match Operand::read(alloc, takes_literal, c, text)? {
        Some(operand) => address_by_subfields(
            alloc,
            c,
            operand.place,
            operand.subfields.as_slice(),
        ),
        None => Ok(Err(FaultKind::BadOperand)),
    }
}

/// The index and the address that a storage operand of RX is.
#[tactic(auto, unfolding(crate::specs::Storage::indexed_in))]
pub(crate) fn indexed_in(alloc: Global, c: &Context<'_>, text: &[u8]) -> Checked<(u8, Address)>
    ensures { IfOk result (λ found. found ≡ indexed_in (lookup_context c.now) text.now) }
{
    match Operand::read(alloc, true, c, text)? {
        Some(operand) => indexed(alloc, c, &operand),
        None => Ok(Err(FaultKind::BadOperand)),
    }
}

/// The field of a length, up to 256.
fn length_field(count: u16) -> u8
    requires { count ≤ 256 }
    ensures { result ≡ count - 1 }
{
    count.saturating_sub(1) as u8
}

/// The field of the length and the address that a storage operand with a length is.
#[tactic(auto, using(crate::proofs::FitLemmas::counted_fits), unfolding(crate::specs::Storage::counted_in))]
pub(crate) fn counted_in(
    alloc: Global,
    takes_literal: bool,
    c: &Context<'_>,
    text: &[u8],
    most: u16,
) -> Checked<(u8, Address)>
    requires { most ≤ 256 }
    ensures { IfOk result (λ found. found ≡ counted_in most takes_literal (lookup_context c.now) text.now) }
{
    let Some(operand) = Operand::read(alloc, takes_literal, c, text)? else {
        return Ok(Err(FaultKind::BadOperand));
    };
    match counted(alloc, c, &operand, most)? {
        Ok((count, address)) => Ok(Ok((length_field(count), address))),
        Err(fault) => Ok(Err(fault)),
    }
}
