//! What is wrong with an instruction beside an address that no base reaches.

ghost use Rattle.std.specs.Prelude.{◌≡◌, ◌++◌, IfOk, OnOk, None, filter, if◌then◌else◌, option_and_then, option_map};
ghost use Rattle.std.specs.Result.{result_err};
ghost use Rattle.cx_asm_build.specs.declared.faults.SourceKind.TheVariants as sourcekind;
ghost use Rattle.cx_asm_operands.specs.Forms.{instruction_or_fault};
ghost use Rattle.cx_asm_pass1.specs.PassState.{line_fault};
ghost use Rattle.cx_asm_pass2.specs.Statements.{operation_of};
ghost use Rattle.cx_asm_pass2.specs.Whole.{whole_by};
ghost use Rattle.cx_look_faults.specs.Beside.{beside_on, fault_by, faults_beside, operand_without};
ghost use Rattle.cx_look_faults.specs.Faults.{kind_at};
ghost use Rattle.cx_look_faults.specs.Judging.{has_fault, is_kind, part_context};
ghost use Rattle.cx_look_faults.specs.Parts.Tests.{is_without};

use crate::faults::{Kinds, kind_at};
use crate::judging::{Case, is_kind};
use crate::lists::push_some;
use crate::operands::Test;
use crate::spans::{Cell, Cut, Span, cells_of, spans_of, with_zeros};
use cx_asm_build::SourceKind;
use cx_asm_expressions::{FaultKind, lower};
use cx_asm_operands::Bases;
use cx_asm_operations::Operation;
use cx_asm_pass1::{LineFault, Places};
use cx_asm_pass2::{Statement, literals_fault, pass_bases};
use std::alloc::{AllocError, Global};

/// A fault, unless it is NoAddressability.
fn unless_unreached(fault: Option<FaultKind>) -> Option<FaultKind>
    ensures { result ≡ (if is_kind fault sourcekind.NoAddressability then None else fault) }
{
    if is_kind(fault, SourceKind::NoAddressability) {
        None
    } else {
        fault
    }
}

impl Case<'_, '_, '_, '_> {
    /// Those of some parts that don't have the fault alone, where these are the operand's characters.
    #[tactic(auto, unfolding(crate::specs::Parts::Tests::is_without))]
    fn parts_without(
        &self,
        alloc: Global,
        cells: &[Cell],
        parts: &[Span],
    ) -> Result<Vec<Span>, AllocError>
        ensures { let c = self.now in
            let has = has_fault (whole_by c.places.now) c.bases.now c.statement.now c.kind in
            IfOk result (λ found. found.items ≡ filter (is_without has cells.now) parts.now) }
    {
        let mut kept = Vec::new(alloc);
        for part in parts {
            if !self.passes(alloc, Test::Alone(cells), *part)? {
                kept.push(*part)?;
            }
        }
        Ok(kept)
    }

    /// The operand with 0 in place of each subfield that has the fault alone.
    #[tactic(auto, using(crate::proofs::JudgingLemmas::without_is))]
    fn operand_without(&self, alloc: Global) -> Result<Vec<u8>, AllocError>
        ensures { let c = self.now in
            let has = has_fault (whole_by c.places.now) c.bases.now c.statement.now c.kind in
            IfOk result (λ text. text.items ≡ operand_without has c.statement.now.stmt.operand) }
    {
        let cells = cells_of(alloc, Cut::Subfields, self.operand())?;
        let parts = spans_of(alloc, Cut::Subfields, self.operand())?;
        let kept = self.parts_without(alloc, &cells, &parts)?;
        with_zeros(alloc, &kept, &cells)
    }

    /// What is wrong with an instruction of this operation whose operand is so, unless it is NoAddressability.
    fn fault_without(
        &self,
        alloc: Global,
        operation: Operation,
    ) -> Result<Option<FaultKind>, AllocError>
        ensures { let c = self.now in let whole = whole_by c.places.now in
            let by = part_context whole c.bases.now c.statement.now in
            let has = has_fault whole c.bases.now c.statement.now c.kind in
            let operand = operand_without has c.statement.now.stmt.operand in
            let made = result_err (instruction_or_fault operation by operand) in
            IfOk result (λ fault. fault ≡ (if is_kind made sourcekind.NoAddressability then None else made)) }
    {
        let operand = self.operand_without(alloc)?;
        let fault = self.instruction_fault(alloc, operation, &operand)?;
        Ok(unless_unreached(fault))
    }
}

/// What is wrong with an instruction beside NoAddressability, which is the fault of the case.
fn fault_beside(alloc: Global, case: &Case<'_, '_, '_, '_>) -> Result<Option<FaultKind>, AllocError>
    requires { case.now.kind ≡ sourcekind.NoAddressability }
    ensures { let c = case.now in
        let due = fault_by (whole_by c.places.now) c.bases.now c.at c.statement.now (operation_of c.statement.now) in
        IfOk result (λ fault. fault ≡ due) }
{
    match case.statement.operation() {
        None | Some(Operation::Directive(_)) => Ok(None),
        Some(operation) => {
            let made = case.fault_without(alloc, operation)?;
            let literals = literals_fault(alloc, case.places, case.at, case.statement)?;
            Ok(lower(made, literals))
        }
    }
}

/// A fault with the number of its line.
fn on_line(line: usize, fault: Option<FaultKind>) -> Option<LineFault>
    ensures { result ≡ option_map (line_fault line) fault }
{
    match fault {
        Some(kind) => Some(LineFault { line, kind }),
        None => None,
    }
}

/// That of a statement, if its line has NoAddressability. It is the one at this place among all.
fn beside_of(
    alloc: Global,
    places: &Places<'_>,
    bases: &Bases,
    statements: &[Statement<'_>],
    at: usize,
    statement: &Statement<'_>,
    kind: Option<SourceKind>,
) -> Result<Option<LineFault>, AllocError>
    ensures { let beside_on = beside_on (whole_by places.now) bases.now at statement.now in
        IfOk result (λ found. found ≡ option_and_then beside_on kind) }
{
    let Some(SourceKind::NoAddressability) = kind else {
        return Ok(None);
    };
    let case = Case {
        places,
        bases,
        statement,
        kind: SourceKind::NoAddressability,
        statements,
        at,
    };
    let fault = fault_beside(alloc, &case)?;
    Ok(on_line(statement.line(), fault))
}

/// Those of the statements on lines with NoAddressability.
#[tactic(auto, using(std::proofs::lemmas::List::Sums::fold_more), unfolding(crate::specs::Beside::faults_beside))]
pub(crate) fn faults_beside(
    alloc: Global,
    places: &Places<'_>,
    kinds: &Kinds,
    statements: &[Statement<'_>],
) -> Result<Vec<LineFault>, AllocError>
    ensures { let kind_of = kind_at kinds.now.entries in
        IfOk result (λ found. found.items ≡ faults_beside (whole_by places.now) kind_of statements.now) }
{
    let mut bases = Bases::new();
    let mut found = Vec::new(alloc);
    for (i, statement) in statements.iter().enumerate() {
        let kind = kind_at(kinds, statement.line());
        let fault = beside_of(alloc, places, &bases, statements, i, statement, kind)?;
        push_some(&mut found, fault)?;
        pass_bases(alloc, places, &mut bases, statement)?;
    }
    Ok(found)
}
