//! What is wrong with an operand by itself.

ghost use Rattle.std.specs.Prelude.{◌≡◌, ℕ, List, IfOk, Result, Some, false, option_and_then, slice_get};
ghost use Rattle.cx_translate.specs.Refusals.{refusal_of};
ghost use Rattle.cx_translate.specs.Words.{words_of};
ghost use Rattle.cx_asm_pass2.specs.Statements.{operation_of};
ghost use Rattle.cx_asm_pass2.specs.Whole.{whole_by};
ghost use Rattle.std.specs.Result.{result_err};
ghost use Rattle.cx_asm_expressions.specs.Expressions.{Answers};
ghost use Rattle.cx_asm_operands.specs.Directives.{drop_in, entry_in, using_in};
ghost use Rattle.cx_asm_operands.specs.Forms.{instruction_or_fault, literal_in, operands_of};
ghost use Rattle.cx_asm_operands.specs.Bases.{none_in_use};
ghost use Rattle.cx_asm_expressions.specs.Expressions.{value_of};
ghost use Rattle.cx_asm_operations.specs.declared.operations.Operation.TheVariants as operation;
ghost use Rattle.cx_asm_pass2.specs.Whole.{counter_of, directive_context, item_made};
ghost use Rattle.cx_asm_pools.specs.Pools.{literal_text};
ghost use Rattle.cx_look_faults.specs.Judging.{fault_of_operand, has_exec_fault, has_fault, is_kind, part_context};
ghost use Rattle.cx_look_faults.specs.Parts.Sources.{exec_source};

use cx_asm_build::SourceKind;
use cx_asm_expressions::{FaultKind, TermFault, Value, lower, value_of};
use cx_asm_operands::{
    Bases, Context, copy_fault, literal_in, read_drop, read_entry, read_using, resolve,
};
use cx_asm_operations::{Directive, Operation};
use cx_asm_pass1::Places;
use cx_asm_pass2::{Statement, control_name, counter_of, made_fault};
use cx_asm_pools::literal_text;
use cx_source::{Item, Items, Source, Stmt, Text};
use cx_translate::{TransFault, translate_with_faults};
use std::alloc::{AllocError, Global};

/// Whether a fault of the assembler is of a kind.
pub(crate) fn is_kind(fault: Option<FaultKind>, kind: SourceKind) -> bool
    ensures { result ≡ is_kind fault kind }
{
    match fault {
        Some(found) => found.name().as_bytes() == kind.name().as_bytes(),
        None => false,
    }
}

/// What is wrong, by the answer of what reads a text.
fn fault_in<T: Drop>(answer: Result<T, TermFault>) -> Result<Option<FaultKind>, AllocError>
    ensures { (due : Result T FaultKind) → Answers due answer → IfOk result (λ fault. fault ≡ result_err due) }
{
    match answer {
        Ok(_) => Ok(None),
        Err(TermFault::Refused(fault)) => Ok(Some(fault)),
        Err(TermFault::Memory) => Err(AllocError),
    }
}

/// A statement, where these bases are in use: a fault of a kind is sought in what might be its operand.
#[derive(Clone, Copy)]
pub(crate) struct Case<'a, 'p, 's, 't> {
    /// Where everything of the source is.
    pub(crate) places: &'a Places<'p>,
    /// The bases in use.
    pub(crate) bases: &'a Bases,
    /// The statement.
    pub(crate) statement: &'a Statement<'s>,
    /// The fault.
    pub(crate) kind: SourceKind,
    /// All statements of the source.
    pub(crate) statements: &'a [Statement<'t>],
    /// The statement's place among them.
    pub(crate) at: usize,
}

impl Case<'_, '_, '_, '_> {
    /// What is wrong with an operand that is a literal, if the last one is.
    fn made_literal_fault(
        &self,
        alloc: Global,
        operand: &[u8],
    ) -> Result<Option<FaultKind>, AllocError>
        ensures { let c = self.now in let whole = whole_by c.places.now in
            let made = λ (text : List ℕ). result_err (item_made whole false (counter_of c.statement.now) text) in
            let text = option_and_then literal_text (literal_in operand.now) in
            IfOk result (λ fault. fault ≡ option_and_then made text) }
    {
        let Some(part) = literal_in(alloc, operand)? else {
            return Ok(None);
        };
        match literal_text(part) {
            Some(text) => made_fault(alloc, self.places, false, counter_of(self.statement), text),
            None => Ok(None),
        }
    }

    /// What is wrong with the operand of an instruction.
    pub(crate) fn instruction_fault(
        &self,
        alloc: Global,
        operation: Operation,
        operand: &[u8],
    ) -> Result<Option<FaultKind>, AllocError>
        ensures { let c = self.now in let by = part_context (whole_by c.places.now) c.bases.now c.statement.now in
            IfOk result (λ fault. fault ≡ result_err (instruction_or_fault operation by operand.now)) }
    {
        let literal = Some(Value::absolute(0));
        let here = counter_of(self.statement);
        let context = Context::new(&self.places.symbols, here, self.bases, literal);
        fault_in(resolve(alloc, &context, operation, operand))
    }

    /// What is wrong with the operand of a USING.
    fn using_fault(&self, alloc: Global, operand: &[u8]) -> Result<Option<FaultKind>, AllocError>
        ensures { let c = self.now in let by = directive_context (whole_by c.places.now) c.bases.now c.statement.now in
            IfOk result (λ fault. fault ≡ result_err (using_in by (operands_of operand.now))) }
    {
        let here = counter_of(self.statement);
        let context = Context::new(&self.places.symbols, here, self.bases, None);
        fault_in(read_using(alloc, &context, operand))
    }

    /// What is wrong with the operand of a DROP.
    fn drop_fault(&self, alloc: Global, operand: &[u8]) -> Result<Option<FaultKind>, AllocError>
        ensures { let c = self.now in let by = directive_context (whole_by c.places.now) c.bases.now c.statement.now in
            IfOk result (λ fault. fault ≡ result_err (drop_in by operand.now)) }
    {
        let here = counter_of(self.statement);
        let context = Context::new(&self.places.symbols, here, self.bases, None);
        fault_in(read_drop(alloc, &context, operand))
    }

    /// What is wrong with the operand of an END.
    fn end_fault(&self, alloc: Global, operand: &[u8]) -> Result<Option<FaultKind>, AllocError>
        ensures { let c = self.now in let whole = whole_by c.places.now in
            let by = directive_context whole none_in_use c.statement.now in
            IfOk result (λ fault. fault ≡ result_err (entry_in whole.control by operand.now)) }
    {
        let bases = Bases::new();
        let here = counter_of(self.statement);
        let context = Context::new(&self.places.symbols, here, &bases, None);
        fault_in(read_entry(alloc, &context, control_name(self.places), operand))
    }

    /// What is wrong with the value of an expression.
    pub(crate) fn value_fault(
        &self,
        alloc: Global,
        text: &[u8],
    ) -> Result<Option<FaultKind>, AllocError>
        ensures { let c = self.now in let whole = whole_by c.places.now in
            IfOk result (λ fault. fault ≡ result_err (value_of whole.find (counter_of c.statement.now) text.now)) }
    {
        let here = counter_of(self.statement);
        match value_of(alloc, text, &self.places.symbols, here.as_ref()) {
            Ok(_) => Ok(None),
            Err(TermFault::Refused(fault)) => Ok(Some(fault)),
            Err(TermFault::Memory) => Err(AllocError),
        }
    }

    /// What is wrong with the operand of a directive.
    #[tactic(auto, using(crate::proofs::JudgingLemmas::fault_stays), unfolding(cx_asm_operands::specs::Directives::bases_in))]
    fn directive_fault(
        &self,
        alloc: Global,
        directive: Directive,
        operand: &[u8],
    ) -> Result<Option<FaultKind>, AllocError>
        ensures { let c = self.now in let it = Some (operation.Directive directive) in
            let due = fault_of_operand (whole_by c.places.now) c.bases.now c.statement.now operand.now it in
            IfOk result (λ fault. fault ≡ due) }
    {
        let here = counter_of(self.statement);
        match directive {
            Directive::Dc => made_fault(alloc, self.places, false, here, operand),
            Directive::Ds => made_fault(alloc, self.places, true, here, operand),
            Directive::Equ => self.value_fault(alloc, operand),
            Directive::Using => self.using_fault(alloc, operand),
            Directive::Drop => self.drop_fault(alloc, operand),
            Directive::End => self.end_fault(alloc, operand),
            Directive::Copy => Ok(copy_fault(operand)),
            _ => Ok(None),
        }
    }

    /// What is wrong with an operand, if the statement had it.
    fn fault_of_operand(
        &self,
        alloc: Global,
        operand: &[u8],
    ) -> Result<Option<FaultKind>, AllocError>
        ensures { let c = self.now in let it = operation_of c.statement.now in
            let due = fault_of_operand (whole_by c.places.now) c.bases.now c.statement.now operand.now it in
            IfOk result (λ fault. fault ≡ due) }
    {
        match self.statement.operation() {
            None => Ok(None),
            Some(Operation::Directive(directive)) => self.directive_fault(
                alloc, directive, operand,
            ),
            Some(operation) => {
                let made = self.instruction_fault(alloc, operation, operand)?;
                let literal = self.made_literal_fault(alloc, operand)?;
                Ok(lower(made, literal))
            }
        }
    }

    /// Whether the statement has the fault where this is its operand.
    #[tactic(auto, unfolding(crate::specs::Judging::has_fault))]
    pub(crate) fn has_fault(&self, alloc: Global, operand: &[u8]) -> Result<bool, AllocError>
        ensures { let c = self.now in let whole = whole_by c.places.now in
            IfOk result (λ has. has ≡ has_fault whole c.bases.now c.statement.now c.kind operand.now) }
    {
        let fault = self.fault_of_operand(alloc, operand)?;
        Ok(is_kind(fault, self.kind))
    }
}

/// A source with one EXEC statement alone.
fn exec_source(alloc: Global, operand: &[u8]) -> Result<Source, AllocError>
    ensures { IfOk result (λ source. source ≡ exec_source operand.now) }
{
    let stmt = Stmt {
        name: Text::from_slice(alloc, b"")?,
        operation: Text::from_slice(alloc, b"EXEC")?,
        operand: Text::from_slice(alloc, operand)?,
    };
    let mut items = Vec::new(alloc);
    items.push(Item {
        line: 1,
        text: Text::from_slice(alloc, b"")?,
        stmt: Some(stmt),
    })?;
    Ok(Source {
        items: Items::from_vec(items),
    })
}

/// The first of some faults.
fn first_of(faults: &[TransFault]) -> Option<TransFault>
    ensures { result ≡ slice_get faults.now 0 }
{
    faults.first().copied()
}

/// The fault of an EXEC statement with this operand.
#[tactic(auto, using(crate::proofs::JudgingLemmas::exec_fault))]
fn exec_fault(alloc: Global, operand: &[u8]) -> Result<Option<TransFault>, AllocError>
    ensures { IfOk result (λ fault. fault ≡ refusal_of 1 (words_of operand.now)) }
{
    let source = exec_source(alloc, operand)?;
    let (_, faults) = translate_with_faults(alloc, &source)?;
    Ok(first_of(faults.as_slice()))
}

/// Whether an EXEC statement with this operand has a fault of a kind.
#[tactic(auto, unfolding(crate::specs::Judging::has_exec_fault))]
pub(crate) fn has_exec_fault(
    alloc: Global,
    kind: SourceKind,
    operand: &[u8],
) -> Result<bool, AllocError>
    ensures { IfOk result (λ has. has ≡ has_exec_fault kind operand.now) }
{
    match exec_fault(alloc, operand)? {
        Some(fault) => Ok(fault.name().as_bytes() == kind.name().as_bytes()),
        None => Ok(false),
    }
}
