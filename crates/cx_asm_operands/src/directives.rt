//! The operands of USING, DROP, END and COPY.

ghost use Rattle.std.specs.Prelude.{◌≡◌, ◌≤◌, ◌^◌, ◌++◌, [], Err, None, IfOk, IsOk, OnOk, OnErr, false, length, map, option_and_then, option_map, unsigned_abs};
ghost use Rattle.std.specs.List.{cons_option};
ghost use Rattle.std.specs.Option.{option_map_or, unwrap_or};
ghost use Rattle.std.specs.Result.{result_err, result_ok};
ghost use Rattle.cx_asm_expressions.specs.Expressions.{Answers};
ghost use Rattle.cx_asm_expressions.specs.Symbols.{find_in};
ghost use Rattle.cx_asm_expressions.specs.Weights.{stands_in};
ghost use Rattle.cx_asm_expressions.specs.declared.faults.FaultKind.TheVariants as FaultKind;
ghost use Rattle.cx_asm_expressions.specs.declared.faults.TermFault.TheVariants.{Refused};
ghost use Rattle.cx_asm_operations.specs.Operations.{operation_named};
ghost use Rattle.cx_asm_operations.specs.declared.operations.Directive.TheVariants as directive;
ghost use Rattle.cx_asm_operations.specs.declared.operations.Operation.TheVariants as operation;
ghost use Rattle.cx_asm_operands.specs.Checking.{both_or_lower_fault, then_check, with_made};
ghost use Rattle.cx_asm_operands.specs.Bases.{using_with};
ghost use Rattle.cx_asm_operands.specs.Context.{context, register_in, lookup_context, expression_value};
ghost use Rattle.cx_asm_operands.specs.Directives.{bases_in, changes_bases, copy_fault, drop_in, entry_in, end_entry, place_in, registers_in, using_in};
ghost use Rattle.cx_asm_operands.specs.Forms.{operands_of};

use crate::bases::{Bases, Dropped, Using};
use crate::checking::Checked;
use crate::context::Context;
use cx_asm_expressions::{FaultKind, SymbolTable, TermFault, Value, lower, lower_of};
use cx_asm_operations::{Directive, Operation};
use cx_ebcdic::Name8;
use cx_source::{Delimiter, Stmt, cut};
use std::alloc::{AllocError, Global};

/// The last offset that may be an entry.
const LAST_ENTRY: i128 = 65_535;

/// Puts the register that an operand names after others; its fault, if it has one.
fn put_register(
    alloc: Global,
    c: &Context<'_>,
    text: &[u8],
    found: &mut Vec<u8>,
) -> Result<Option<FaultKind>, AllocError>
    ensures fault { IfOk result (λ fault. fault ≡ result_err (register_in (lookup_context c.now) text.now)) }
    ensures put { let register = result_ok (register_in (lookup_context c.now) text.now) in
        OnOk result (found.new.items ≡ found.old.items ++ cons_option register []) }
{
    match c.register(alloc, text)? {
        Ok(register) => {
            found.push(register)?;
            Ok(None)
        }
        Err(fault) => Ok(Some(fault)),
    }
}

/// The registers that operands name, or their lowest fault.
#[tactic(auto, using(crate::proofs::FaultLemmas::registers_end))]
fn registers_in(alloc: Global, c: &Context<'_>, texts: &[&[u8]]) -> Checked<Vec<u8>>
    ensures { let named = registers_in (lookup_context c.now) (map (λ text. text.now) texts.now) in
        IfOk result (λ found. with_made (λ registers. registers.items) found ≡ named) }
{
    let mut found = Vec::new(alloc);
    let mut fault = None;
    for text in texts {
        let other = put_register(alloc, c, text, &mut found)?;
        fault = lower(fault, other);
    }
    match fault {
        Some(fault) => Ok(Err(fault)),
        None => Ok(Ok(found)),
    }
}

/// The place in a section that a value is.
fn place_of(expression_value: Result<Value, FaultKind>) -> Result<(Name8, i128), FaultKind>
    ensures { result ≡ then_check place_in expression_value }
{
    match expression_value {
        Ok(value) => {
            let value: Value = value;
            let section: Option<Name8> = value.section;
            match section {
                Some(section) => Ok((section, value.number)),
                None => Err(FaultKind::NotRelocatable),
            }
        }
        Err(fault) => Err(fault),
    }
}

/// The place that the operand of a USING is.
#[tactic(auto, using(crate::proofs::SmallLemmas::place_small))]
fn base_of(alloc: Global, c: &Context<'_>, text: &[u8]) -> Checked<(Name8, i128)>
    ensures place { IfOk result
        (λ found. found ≡ then_check place_in (expression_value (lookup_context c.now) text.now)) }
    ensures small { IfOk result (λ found. IfOk found (λ place. unsigned_abs place.1 ≤ 2 ^ 100)) }
{
    match c.expression_value(alloc, text) {
        Ok(expression_value) => Ok(place_of(expression_value)),
        Err(error) => Err(error),
    }
}

/// What the operands of a USING say.
fn using_of(alloc: Global, c: &Context<'_>, operands: &[&[u8]]) -> Checked<Using>
    ensures { IfOk result (λ found. found ≡ using_in (lookup_context c.now) (map (λ text. text.now) operands.now)) }
{
    let Some((base, registers)) = operands.split_first() else {
        return Ok(Err(FaultKind::BadOperand));
    };
    if registers.is_empty() {
        return Ok(Err(FaultKind::BadOperand));
    }
    let place = base_of(alloc, c, base)?;
    let registers = registers_in(alloc, c, registers)?;
    Ok(joined(place, registers))
}

/// What a place and registers say as a USING.
fn joined(
    place: Result<(Name8, i128), FaultKind>,
    registers: Result<Vec<u8>, FaultKind>,
) -> Result<Using, FaultKind>
    requires { IfOk place (λ place. unsigned_abs place.1 ≤ 2 ^ 100) }
    ensures { let named = with_made (λ registers. registers.items) registers in
        result ≡ with_made (λ v. using_with v.0.0 v.0.1 v.1) (both_or_lower_fault place named) }
{
    match place {
        Ok((section, number)) => match registers {
            Ok(registers) => Ok(Using::new(section, number, registers)),
            Err(fault) => Err(fault),
        },
        Err(fault) => match registers {
            Ok(_) => Err(fault),
            Err(other) => Err(lower_of(fault, other)),
        },
    }
}

/// The fault of a COPY's operand: BadOperand for every member except DFHAID, the only one that this product has; None
/// for that. It takes no memory.
pub fn copy_fault(operand: &[u8]) -> Option<FaultKind>
    ensures { result ≡ copy_fault operand.now }
{
    if operand == b"DFHAID".as_slice() {
        None
    } else {
        Some(FaultKind::BadOperand)
    }
}

/// Reads the operand of a USING: a place and at least one register, `base,r1,r2..` (GC33-4010, "USING -- Use Base
/// Address Register").
///
/// Fewer operands are BadOperand alone. Else the lowest fault of all operands is answered: NotRelocatable for an
/// absolute base, BadOperand for a relocatable register, ValueOutOfRange for one outside 0 to 15, and the faults of
/// their expressions. Memory comes only where an allocation failed; an empty operand takes none.
#[tactic(auto, using(crate::proofs::LiteralLemmas::no_using))]
pub fn read_using(alloc: Global, c: &Context<'_>, operand: &[u8]) -> Result<Using, TermFault>
    ensures using { Answers (using_in (lookup_context c.now) (operands_of operand.now)) result }
    ensures empty { length operand.now ≡ 0 → result ≡ Err (Refused FaultKind.BadOperand) }
{
    if operand.is_empty() {
        return Err(TermFault::Refused(FaultKind::BadOperand));
    }
    let operands = cut(alloc, operand, Delimiter::TopComma)?;
    match using_of(alloc, c, operands.as_slice())? {
        Ok(given) => Ok(given),
        Err(fault) => Err(TermFault::Refused(fault)),
    }
}

/// Reads the operand of a DROP: registers, or nothing (GC33-4010, "DROP -- Drop Base Register").
///
/// The lowest fault of all operands is answered: BadOperand for a relocatable register, ValueOutOfRange for one outside
/// 0 to 15, and the faults of their expressions. Memory comes only where an allocation failed; an empty operand takes
/// none.
#[tactic(auto, unfolding(crate::specs::Directives::drop_in))]
pub fn read_drop(alloc: Global, c: &Context<'_>, operand: &[u8]) -> Result<Dropped, TermFault>
    ensures drop { Answers (drop_in (lookup_context c.now) operand.now) result }
    ensures empty { length operand.now ≡ 0 → IsOk result }
{
    if operand.is_empty() {
        return Ok(Dropped::new(None));
    }
    let operands = cut(alloc, operand, Delimiter::TopComma)?;
    match registers_in(alloc, c, operands.as_slice())? {
        Ok(registers) => Ok(Dropped::new(Some(registers))),
        Err(fault) => Err(TermFault::Refused(fault)),
    }
}

/// Whether a place is in the control section.
fn is_in_control(section: Name8, control: Option<Name8>) -> bool
    ensures { result ≡ stands_in section control }
{
    match control {
        Some(control) => section == control,
        None => false,
    }
}

/// The entry that a value is.
fn end_entry(control: Option<Name8>, value: Value) -> Result<u32, FaultKind>
    ensures { result ≡ end_entry control value }
{
    let section: Option<Name8> = value.section;
    let Some(section) = section else {
        return Err(FaultKind::NotRelocatable);
    };
    if !is_in_control(section, control) {
        return Err(FaultKind::NotRelocatable);
    }
    if value.number >= 0 && value.number <= LAST_ENTRY {
        Ok(value.number as u32)
    } else {
        Err(FaultKind::ValueOutOfRange)
    }
}

/// Reads the operand of an END: the entry as an offset in the control section, in bytes; without an operand that is 0
/// (GC33-4010, "END -- End Assembly").
///
/// The faults of its expression are answered first; then NotRelocatable for an entry that is no place in the control
/// section, and ValueOutOfRange for one outside 0 to 65,535. Memory comes only where an allocation failed.
#[tactic(auto, unfolding(crate::specs::Directives::entry_in))]
pub fn read_entry(
    alloc: Global,
    c: &Context<'_>,
    control: Option<Name8>,
    operand: &[u8],
) -> Result<u32, TermFault>
    ensures entry { Answers (entry_in control (lookup_context c.now) operand.now) result }
    ensures empty { length operand.now ≡ 0 → IsOk result }
{
    if operand.is_empty() {
        return Ok(0);
    }
    match c.expression_value(alloc, operand)? {
        Ok(value) => match end_entry(control, value) {
            Ok(entry) => Ok(entry),
            Err(fault) => Err(TermFault::Refused(fault)),
        },
        Err(fault) => Err(TermFault::Refused(fault)),
    }
}

impl Bases {
    /// Puts a USING's operand into force; its fault, if it has one.
    #[tactic(auto, unfolding(crate::specs::Directives::bases_in))]
    fn pass_using(
        &mut self,
        alloc: Global,
        symbols: &SymbolTable,
        here: Option<Value>,
        operand: &[u8],
    ) -> Result<Option<FaultKind>, AllocError>
        ensures bases { let c = context (find_in symbols.now) here self.old None in
            let after = bases_in (operation.Directive directive.Using) c operand.now in
            OnOk result (self.new ≡ unwrap_or (result_ok after) self.old) }
        ensures fault { let c = context (find_in symbols.now) here self.old None in
            IfOk result (λ fault. fault ≡ result_err (bases_in (operation.Directive directive.Using) c operand.now)) }
        ensures err { OnErr result (self.new ≡ self.old) }
    {
        let read = {
            let c = Context::new(symbols, here, self, None);
            read_using(alloc, &c, operand)
        };
        match read {
            Ok(given) => {
                self.put_in_use(&given);
                Ok(None)
            }
            Err(TermFault::Refused(fault)) => Ok(Some(fault)),
            Err(TermFault::Memory) => Err(AllocError),
        }
    }

    /// Puts a DROP's operand into force; its fault, if it has one.
    #[tactic(auto, unfolding(crate::specs::Directives::bases_in))]
    fn pass_drop(
        &mut self,
        alloc: Global,
        symbols: &SymbolTable,
        here: Option<Value>,
        operand: &[u8],
    ) -> Result<Option<FaultKind>, AllocError>
        ensures bases { let c = context (find_in symbols.now) here self.old None in
            let after = bases_in (operation.Directive directive.Drop) c operand.now in
            OnOk result (self.new ≡ unwrap_or (result_ok after) self.old) }
        ensures fault { let c = context (find_in symbols.now) here self.old None in
            IfOk result (λ fault. fault ≡ result_err (bases_in (operation.Directive directive.Drop) c operand.now)) }
        ensures err { OnErr result (self.new ≡ self.old) }
    {
        let read = {
            let c = Context::new(symbols, here, self, None);
            read_drop(alloc, &c, operand)
        };
        match read {
            Ok(given) => {
                self.end_use(&given);
                Ok(None)
            }
            Err(TermFault::Refused(fault)) => Ok(Some(fault)),
            Err(TermFault::Memory) => Err(AllocError),
        }
    }

    /// Goes past a statement: a USING or a DROP without a fault changes the bases in use as `put_in_use` and `end_use`
    /// say, one at fault and every other statement changes nothing. The fault of a USING or a DROP is answered, as
    /// `read_using` and `read_drop` have it. `here` is where the location counter is, if anywhere.
    ///
    /// An error comes only where an allocation failed, never for another statement; then all is as before.
    #[tactic(auto, unfolding(crate::specs::Directives::bases_in))]
    pub fn pass(
        &mut self,
        alloc: Global,
        symbols: &SymbolTable,
        here: Option<Value>,
        stmt: &Stmt,
    ) -> Result<Option<FaultKind>, AllocError>
        ensures bases { let c = context (find_in symbols.now) here self.old None in
            let operation = operation_named stmt.now.operation in let operand = stmt.now.operand in
            OnOk result
            (self.new ≡ option_map_or (λ o. unwrap_or (result_ok (bases_in o c operand)) self.old) operation self.old) }
        ensures fault { let c = context (find_in symbols.now) here self.old None in
            let operation = operation_named stmt.now.operation in let operand = stmt.now.operand in
            IfOk result (λ fault. fault ≡ option_and_then (λ o. result_err (bases_in o c operand)) operation) }
        ensures others { option_map_or changes_bases (operation_named stmt.now.operation) false ≡ false → IsOk result }
        ensures err { OnErr result (self.new ≡ self.old) }
    {
        let Some(operation) = Operation::from_name(stmt.operation.as_slice()) else {
            return Ok(None);
        };
        let operand = stmt.operand.as_slice();
        match operation {
            Operation::Directive(Directive::Using) => {
                self.pass_using(alloc, symbols, here, operand)
            }
            Operation::Directive(Directive::Drop) => self.pass_drop(alloc, symbols, here, operand),
            _ => Ok(None),
        }
    }
}
