//! The operands of instructions, by format.

ghost use Rattle.std.specs.Prelude.{◌≡◌, ◌≤◌, Err, IfOk, IsOk, None, length, if◌then◌else◌, map, false, option_and_then, option_map, Some};
ghost use Rattle.cx_asm_expressions.specs.Expressions.{Answers};
ghost use Rattle.cx_code.specs.Spelling.{instruction, IsWellFormed};
ghost use Rattle.cx_asm_expressions.specs.declared.faults.FaultKind.TheVariants as FaultKind;
ghost use Rattle.cx_asm_expressions.specs.declared.faults.TermFault.TheVariants.{Refused};
ghost use Rattle.cx_asm_operations.specs.Operations.{base_row};
ghost use Rattle.cx_asm_operands.specs.Checking.{both_or_lower_fault};
ghost use Rattle.cx_asm_operands.specs.Context.{register_in, lookup_context};
ghost use Rattle.cx_asm_operands.specs.Storage.{is_literal, plain_in};
ghost use Rattle.cx_code.specs.declared.table.Format.TheVariants as format;
ghost use Rattle.cx_asm_operands.specs.declared.forms.Form.TheVariants as form;
ghost use Rattle.cx_asm_operands.specs.Forms.{fields_in, form_of, form_of_op, literal_in, operands_of, instruction_or_fault};

use crate::addresses::Address;
use crate::checking::{Checked, both};
use crate::context::Context;
use crate::storage::{counted_in, indexed_in, is_literal, plain_in};
use cx_asm_expressions::{FaultKind, TermFault};
use cx_asm_operations::Operation;
use cx_code::{Fields, Format, Inst, Op};
use cx_source::{Delimiter, cut};
use std::alloc::{AllocError, Global};

/// The greatest length of an instruction with one length, and of one with two.
const ONE_LENGTH: u16 = 256;

const TWO_LENGTHS: u16 = 16;

/// How the operands of an instruction are arranged.
#[derive(Clone, Copy)]
pub enum Form {
    /// As the format says. RR: two registers. RX: a register and a storage operand with an index. RS: two registers and
    /// a storage operand. SI: a storage operand and a byte. SS: two storage operands, the first with a length, or each.
    Format(Format),
    /// RS of the shifts: a register and a storage operand.
    Shift,
    /// A branch to a storage operand with an index, with this mask.
    Branch(u8),
    /// A branch to the address in a register, with this mask.
    RegisterBranch(u8),
}

/// `R1,R2`.
#[tactic(auto, unfolding(crate::specs::Forms::fields_in))]
fn registers(alloc: Global, c: &Context<'_>, operands: &[&[u8]]) -> Checked<Fields>
    ensures { let texts = map (λ text. text.now) operands.now in
        IfOk result (λ found. found ≡ fields_in (form.Format format.Rr) (lookup_context c.now) texts) }
{
    let [r1, r2] = operands else {
        return Ok(Err(FaultKind::BadOperand));
    };
    match both(c.register(alloc, r1)?, c.register(alloc, r2)?) {
        Ok((r1, r2)) => Ok(Ok(Fields::Rr { r1, r2 })),
        Err(fault) => Ok(Err(fault)),
    }
}

/// `R1,S2`, `R1,S2(X2)`, `R1,D2(X2,B2)`, `R1,D2(,B2)` or `R1,literal`.
#[tactic(auto, unfolding(crate::specs::Forms::fields_in))]
fn indexed(alloc: Global, c: &Context<'_>, operands: &[&[u8]]) -> Checked<Fields>
    ensures { let texts = map (λ text. text.now) operands.now in
        IfOk result (λ found. found ≡ fields_in (form.Format format.Rx) (lookup_context c.now) texts) }
{
    let [r1, s2] = operands else {
        return Ok(Err(FaultKind::BadOperand));
    };
    match both(c.register(alloc, r1)?, indexed_in(alloc, c, s2)?) {
        Ok((r1, (x2, address))) => Ok(Ok(Fields::Rx {
            r1,
            x2,
            b2: address.base,
            d2: address.displacement,
        })),
        Err(fault) => Ok(Err(fault)),
    }
}

/// `R3,S2` or `R3,D2(B2)`, after the first operand.
fn after_first(alloc: Global, c: &Context<'_>, r3: &[u8], s2: &[u8]) -> Checked<(u8, Address)>
    ensures { let c = lookup_context c.now in
        IfOk result (λ found. found ≡ both_or_lower_fault (register_in c r3.now) (plain_in false c s2.now)) }
{
    Ok(both(c.register(alloc, r3)?, plain_in(alloc, false, c, s2)?))
}

/// `R1,R3,S2` or `R1,R3,D2(B2)`.
#[tactic(auto, unfolding(crate::specs::Forms::fields_in))]
fn three_operands(alloc: Global, c: &Context<'_>, operands: &[&[u8]]) -> Checked<Fields>
    ensures { let texts = map (λ text. text.now) operands.now in
        IfOk result (λ found. found ≡ fields_in (form.Format format.Rs) (lookup_context c.now) texts) }
{
    let [r1, r3, s2] = operands else {
        return Ok(Err(FaultKind::BadOperand));
    };
    match both(c.register(alloc, r1)?, after_first(alloc, c, r3, s2)?) {
        Ok((r1, (r3, address))) => Ok(Ok(Fields::Rs {
            r1,
            r3,
            b2: address.base,
            d2: address.displacement,
        })),
        Err(fault) => Ok(Err(fault)),
    }
}

/// `R1,S2` or `R1,D2(B2)`.
#[tactic(auto, unfolding(crate::specs::Forms::fields_in))]
fn shift(alloc: Global, c: &Context<'_>, operands: &[&[u8]]) -> Checked<Fields>
    ensures { IfOk result
        (λ found. found ≡ fields_in form.Shift (lookup_context c.now) (map (λ text. text.now) operands.now)) }
{
    let [r1, s2] = operands else {
        return Ok(Err(FaultKind::BadOperand));
    };
    match both(c.register(alloc, r1)?, plain_in(alloc, false, c, s2)?) {
        Ok((r1, address)) => Ok(Ok(Fields::Rs {
            r1,
            r3: 0,
            b2: address.base,
            d2: address.displacement,
        })),
        Err(fault) => Ok(Err(fault)),
    }
}

/// `S1,I2` or `D1(B1),I2`.
#[tactic(auto, unfolding(crate::specs::Forms::fields_in))]
fn immediate(alloc: Global, c: &Context<'_>, operands: &[&[u8]]) -> Checked<Fields>
    ensures { let texts = map (λ text. text.now) operands.now in
        IfOk result (λ found. found ≡ fields_in (form.Format format.Si) (lookup_context c.now) texts) }
{
    let [s1, i2] = operands else {
        return Ok(Err(FaultKind::BadOperand));
    };
    match both(plain_in(alloc, false, c, s1)?, c.byte(alloc, i2, u8::MAX)?) {
        Ok((address, i2)) => Ok(Ok(Fields::Si {
            i2,
            b1: address.base,
            d1: address.displacement,
        })),
        Err(fault) => Ok(Err(fault)),
    }
}

/// `S1,S2`, `S1(L),S2` or `D1(L,B1),D2(B2)`, the second also a literal.
#[tactic(auto, unfolding(crate::specs::Forms::fields_in))]
fn one_length(alloc: Global, c: &Context<'_>, operands: &[&[u8]]) -> Checked<Fields>
    ensures { let texts = map (λ text. text.now) operands.now in
        IfOk result (λ found. found ≡ fields_in (form.Format format.Ss) (lookup_context c.now) texts) }
{
    let [s1, s2] = operands else {
        return Ok(Err(FaultKind::BadOperand));
    };
    let first = counted_in(alloc, false, c, s1, ONE_LENGTH)?;
    let second = plain_in(alloc, true, c, s2)?;
    match both(first, second) {
        Ok(((l, to), from)) => Ok(Ok(Fields::Ss {
            l,
            b1: to.base,
            d1: to.displacement,
            b2: from.base,
            d2: from.displacement,
        })),
        Err(fault) => Ok(Err(fault)),
    }
}

/// `S1,S2`, `S1(L1),S2(L2)` or `D1(L1,B1),D2(L2,B2)`, the second also a literal.
#[tactic(auto, unfolding(crate::specs::Forms::fields_in))]
fn two_lengths(alloc: Global, c: &Context<'_>, operands: &[&[u8]]) -> Checked<Fields>
    ensures { let texts = map (λ text. text.now) operands.now in
        IfOk result (λ found. found ≡ fields_in (form.Format format.Ss2) (lookup_context c.now) texts) }
{
    let [s1, s2] = operands else {
        return Ok(Err(FaultKind::BadOperand));
    };
    let first = counted_in(alloc, false, c, s1, TWO_LENGTHS)?;
    let second = counted_in(alloc, true, c, s2, TWO_LENGTHS)?;
    match both(first, second) {
        Ok(((l1, to), (l2, from))) => Ok(Ok(Fields::Ss2 {
            l1,
            l2,
            b1: to.base,
            d1: to.displacement,
            b2: from.base,
            d2: from.displacement,
        })),
        Err(fault) => Ok(Err(fault)),
    }
}

/// `S2`, `S2(X2)`, `D2(X2,B2)`, `D2(,B2)` or a literal, after a mask.
#[tactic(auto, unfolding(crate::specs::Forms::fields_in))]
fn branch(alloc: Global, c: &Context<'_>, operands: &[&[u8]], mask: u8) -> Checked<Fields>
    ensures { let texts = map (λ text. text.now) operands.now in
        IfOk result (λ found. found ≡ fields_in (form.Branch mask) (lookup_context c.now) texts) }
{
    let [s2] = operands else {
        return Ok(Err(FaultKind::BadOperand));
    };
    match indexed_in(alloc, c, s2)? {
        Ok((x2, address)) => Ok(Ok(Fields::Rx {
            r1: mask,
            x2,
            b2: address.base,
            d2: address.displacement,
        })),
        Err(fault) => Ok(Err(fault)),
    }
}

/// `R2` after a mask.
#[tactic(auto, unfolding(crate::specs::Forms::fields_in))]
fn register_branch(alloc: Global, c: &Context<'_>, operands: &[&[u8]], mask: u8) -> Checked<Fields>
    ensures { let texts = map (λ text. text.now) operands.now in
        IfOk result (λ found. found ≡ fields_in (form.RegisterBranch mask) (lookup_context c.now) texts) }
{
    let [r2] = operands else {
        return Ok(Err(FaultKind::BadOperand));
    };
    match c.register(alloc, r2)? {
        Ok(r2) => Ok(Ok(Fields::Rr { r1: mask, r2 })),
        Err(fault) => Ok(Err(fault)),
    }
}

/// The fields that operands give an instruction of a format, except the shifts.
fn by_format(alloc: Global, c: &Context<'_>, format: Format, operands: &[&[u8]]) -> Checked<Fields>
    ensures { let texts = map (λ text. text.now) operands.now in
        IfOk result (λ found. found ≡ fields_in (form.Format format) (lookup_context c.now) texts) }
{
    match format {
        Format::Rr => registers(alloc, c, operands),
        Format::Rx => indexed(alloc, c, operands),
        Format::Rs => three_operands(alloc, c, operands),
        Format::Si => immediate(alloc, c, operands),
        Format::Ss => one_length(alloc, c, operands),
        Format::Ss2 => two_lengths(alloc, c, operands),
    }
}

impl Form {
    /// The form of a machine instruction.
    fn of_op(op: Op) -> Form
        ensures { result ≡ form_of_op op }
    {
        if op.is_shift() {
            return Form::Shift;
        }
        Form::Format(op.format())
    }

    /// The form of an operation; None of one that makes no instruction.
    fn of(operation: Operation) -> Option<Form>
        ensures { result ≡ form_of operation }
    {
        match operation {
            Operation::Machine(op) => Some(Form::of_op(op)),
            Operation::Branch(mask) => Some(Form::Branch(mask.number())),
            Operation::RegisterBranch(mask) => Some(Form::RegisterBranch(mask.number())),
            Operation::Directive(_) => None,
        }
    }

    /// The fields that operands give an instruction of this form.
    fn fields_in(self, alloc: Global, c: &Context<'_>, operands: &[&[u8]]) -> Checked<Fields>
        ensures { IfOk result
            (λ found. found ≡ fields_in self (lookup_context c.now) (map (λ text. text.now) operands.now)) }
    {
        match self {
            Form::Format(format) => by_format(alloc, c, format, operands),
            Form::Shift => shift(alloc, c, operands),
            Form::Branch(mask) => branch(alloc, c, operands, mask),
            Form::RegisterBranch(mask) => register_branch(alloc, c, operands, mask),
        }
    }
}

/// The literal that a statement has: its last operand, if that begins with an equals sign. (An instruction takes a
/// literal nowhere else.) None where it has none.
///
/// An error comes only where an allocation failed; an empty operand takes no memory.
#[tactic(auto, using(crate::proofs::LiteralLemmas::last_text, crate::proofs::LiteralLemmas::none_in_nothing), unfolding(crate::specs::Forms::literal_in))]
pub fn literal_in(alloc: Global, operand: &[u8]) -> Result<Option<&[u8]>, AllocError>
    ensures literal { IfOk result (λ found. option_map (λ text. text.now) found ≡ literal_in operand.now) }
    ensures empty { length operand.now ≡ 0 → IsOk result }
{
    if operand.is_empty() {
        return Ok(None);
    }
    let operands = cut(alloc, operand, Delimiter::TopComma)?;
    Ok(literal_of(operands.as_slice().last().copied()))
}

/// A text, if it is a literal.
fn literal_of(text: Option<&[u8]>) -> Option<&[u8]>
    ensures { let written = option_map (λ text. text.now) text.entry in option_map (λ text. text.now) result
        ≡ option_and_then (λ text. if is_literal text then Some text else None) written }
{
    let text = text?;
    if is_literal(text) { Some(text) } else { None }
}

/// The fields that an operand gives an instruction of a form.
fn fields_of(alloc: Global, c: &Context<'_>, form: Form, operand: &[u8]) -> Checked<Fields>
    ensures { IfOk result (λ found. found ≡ fields_in form (lookup_context c.now) (operands_of operand.now)) }
{
    let operands = cut(alloc, operand, Delimiter::TopComma)?;
    form.fields_in(alloc, c, operands.as_slice())
}

/// The instruction of a row with fields that fit it.
fn instruction(op: Op, fields: Fields) -> Inst
    requires { IsWellFormed (instruction op fields) }
    ensures { result ≡ instruction op fields }
{
    let Some(inst) = Inst::new(op, fields) else {
        unreachable!()
    };
    inst
}

/// The instruction that an operation and its operand make, where `c` is what the operand is read by: `op` of it is the
/// operation's row, and each field what its operand asks (GC33-4010, "Machine Instructions"; branches with a mask in
/// their name make BC and BCR, "Extended Mnemonic Codes").
///
/// A number of operands other than the instruction's form has is BadOperand alone. Else the lowest fault of all
/// operands is answered: UndefinedSymbol and what else is wrong with an expression; NoAddressability for a place that
/// no base register reaches; BadOperand for what can't be read, a literal where none is allowed, a relocatable value as
/// a register, mask, byte, length or displacement with a base, text after the parentheses, more in them than the
/// operand has room for; ValueOutOfRange for a register or mask outside 0 to 15, a byte outside 0 to 255, a
/// displacement outside 0 to 4,095, a length outside 0 to 256 (0 to 16 where there are two), written or implied. An
/// index that is left out in front of a base is 0. An operation that makes no instruction is UnknownOperation. Memory
/// comes only where an allocation failed.
#[tactic(auto, using(crate::proofs::FormLemmas::resolved_well), unfolding(crate::specs::Forms::instruction_or_fault))]
pub fn resolve(
    alloc: Global,
    c: &Context<'_>,
    operation: Operation,
    operand: &[u8],
) -> Result<Inst, TermFault>
    ensures resolved { Answers (instruction_or_fault operation (lookup_context c.now) operand.now) result }
    ensures no_row { base_row operation ≡ None → result ≡ Err (Refused FaultKind.UnknownOperation) }
{
    let _bases = c.bases();
    let Some(op) = operation.op() else {
        return Err(TermFault::Refused(FaultKind::UnknownOperation));
    };
    let Some(form) = Form::of(operation) else {
        return Err(TermFault::Refused(FaultKind::UnknownOperation));
    };
    match fields_of(alloc, c, form, operand)? {
        Ok(fields) => Ok(instruction(op, fields)),
        Err(fault) => Err(TermFault::Refused(fault)),
    }
}
