//! The second pass over the statements of a source: their first fault, and what they make in the control section.

ghost use Rattle.std.specs.Prelude.{◌≡◌, false, IfOk, OnOk, reverse, slice_get, Some, true, ℕ};
ghost use Rattle.std.specs.Result.{result_err};
ghost use Rattle.cx_asm_expressions.specs.Faults.{lower};
ghost use Rattle.cx_asm_operands.specs.Bases.{Bases, none_in_use};
ghost use Rattle.cx_asm_operands.specs.Forms.{instruction_or_fault};
ghost use Rattle.cx_asm_operations.specs.declared.operations.Operation.TheVariants as operation;
ghost use Rattle.cx_asm_operations.specs.declared.operations.Directive.TheVariants as directive;
ghost use Rattle.cx_asm_pass1.specs.PassState.{is_control, role_in};
ghost use Rattle.cx_asm_pass1.specs.Roles.{directive_role};
ghost use Rattle.cx_asm_pass2.specs.SecondFaults.{bases_after, items_fault, literals_fault, operand_fault, second_fault, second_faults_after};
ghost use Rattle.cx_asm_pass2.specs.Statements.{operation_of, placed_items};
ghost use Rattle.cx_asm_pass2.specs.Whole.{instruction_context, pool_of, whole_by};
ghost use Rattle.cx_asm.specs.Laws.SectionLines.{IsWithin};
ghost use Rattle.cx_asm.specs.Parts.Kept.{FitsSection, kept};
ghost use Rattle.cx_asm.specs.Parts.Passing.{WithUsing};
ghost use Rattle.cx_asm.specs.Resolving.{instruction_standing, items_standing, last_pool, pool_standing, role_standing, standing_from, statement_standing};

use crate::pass::SecondPass;
use crate::standing::Standing;
use cx_asm_expressions::{FaultKind, TermFault, lower};
use cx_asm_operands::{Bases, copy_fault};
use cx_asm_operations::{Directive, Operation};
use cx_asm_pass1::{LineFault, LineFaults, Places, first_fault_after};
use cx_asm_pass2::{
    Statement, control_name, entry_of, instruction_of, literals_fault, pass_bases, placed_items,
    pool_of,
};
use cx_base::List;
use cx_ebcdic::Name8;
use std::alloc::{AllocError, Global};

/// Whether a section is the control section.
pub(crate) fn is_control(section: Option<Name8>, control: Option<Name8>) -> bool
    ensures { result ≡ is_control section control }
{
    match (section, control) {
        (Some(section), Some(control)) => section == control,
        _ => false,
    }
}

impl SecondPass<'_, '_, '_> {
    /// Appends the instruction of a statement, if it is kept. Its fault is answered, if it has one, except its
    /// literals'.
    #[tactic(auto, using(crate::proofs::JoinLemmas::kept_nothing))]
    fn pass_instruction(
        &self,
        statement: &Statement<'_>,
        operation: Operation,
        bases: &Bases,
        standing: &mut Standing,
    ) -> Result<Option<FaultKind>, AllocError>
        requires { let whole = whole_by self.now.places.now in
            let stands = instruction_standing whole bases.now statement.now operation in
            FitsSection self.now.keeps standing.old stands }
        ensures standing { let whole = whole_by self.now.places.now in
            let stands = instruction_standing whole bases.now statement.now operation in
            OnOk result (standing.new ≡ kept self.now.keeps standing.old stands) }
        ensures fault { let context = instruction_context (whole_by self.now.places.now) bases.now statement.now in
            let made = instruction_or_fault operation context statement.now.stmt.operand in
            IfOk result (λ fault. fault ≡ result_err made) }
    {
        match instruction_of(self.alloc, self.places, bases, statement, operation) {
            Ok(inst) => {
                self.push_code(statement.place().offset, inst, standing)?;
                Ok(None)
            }
            Err(TermFault::Refused(fault)) => Ok(Some(fault)),
            Err(TermFault::Memory) => Err(AllocError),
        }
    }

    /// Appends what a DS or DC makes, if it is kept. Its lowest fault is answered, if it has one.
    fn pass_storage(
        &self,
        is_ds: bool,
        statement: &Statement<'_>,
        standing: &mut Standing,
    ) -> Result<Option<FaultKind>, AllocError>
        requires { let whole = whole_by self.now.places.now in
            let stands = items_standing whole is_ds statement.now (placed_items statement.now) in
            FitsSection self.now.keeps standing.old stands }
        ensures standing { let whole = whole_by self.now.places.now in
            let stands = items_standing whole is_ds statement.now (placed_items statement.now) in
            OnOk result (standing.new ≡ kept self.now.keeps standing.old stands) }
        ensures fault { let whole = whole_by self.now.places.now in
            IfOk result (λ fault. fault ≡ items_fault whole is_ds statement.now) }
    {
        let items = placed_items(self.alloc, statement)?;
        self.push_items(is_ds, statement, items.as_slice(), standing)
    }

    /// Appends the pool of an LTORG, if it is kept.
    #[tactic(auto, using(crate::proofs::JoinLemmas::kept_nothing))]
    fn push_closed_pool(
        &self,
        statement: &Statement<'_>,
        standing: &mut Standing,
    ) -> Result<(), AllocError>
        requires { let whole = whole_by self.now.places.now in
            let stands = pool_standing whole self.now.statements.now (pool_of whole statement.now) in
            FitsSection self.now.keeps standing.old stands }
        ensures { let whole = whole_by self.now.places.now in
            let stands = pool_standing whole self.now.statements.now (pool_of whole statement.now) in
            OnOk result (standing.new ≡ kept self.now.keeps standing.old stands) }
    {
        match pool_of(self.places, statement) {
            Some(pool) => self.push_pool(pool, standing),
            None => Ok(()),
        }
    }

    /// The fault of an END.
    fn end_fault(&self, statement: &Statement<'_>) -> Result<Option<FaultKind>, AllocError>
        ensures { let whole = whole_by self.now.places.now in
            let it = Some (operation.Directive directive.End) in
            IfOk result (λ fault. fault ≡ operand_fault whole none_in_use 0 statement.now it) }
    {
        match entry_of(self.alloc, self.places, statement) {
            Ok(_) => Ok(None),
            Err(TermFault::Refused(fault)) => Ok(Some(fault)),
            Err(TermFault::Memory) => Err(AllocError),
        }
    }

    /// Appends what a directive makes, if it is kept. Its fault is answered, if it has one, except that of USING or
    /// DROP.
    #[tactic(auto, using(crate::proofs::JoinLemmas::kept_nothing, cx_asm_expressions::specs::Facts::Faults::lower_nothing), unfolding(cx_asm_operands::specs::Directives::bases_in))]
    fn pass_directive(
        &self,
        statement: &Statement<'_>,
        directive: Directive,
        standing: &mut Standing,
    ) -> Result<Option<FaultKind>, AllocError>
        requires { let pass = self.now in let role = directive_role directive in
            let stands = role_standing (whole_by pass.places.now) pass.statements.now none_in_use statement.now role in
            FitsSection pass.keeps standing.old stands }
        ensures standing { let pass = self.now in let role = directive_role directive in
            let stands = role_standing (whole_by pass.places.now) pass.statements.now none_in_use statement.now role in
            OnOk result (standing.new ≡ kept pass.keeps standing.old stands) }
        ensures fault { let whole = whole_by self.now.places.now in let it = Some (operation.Directive directive) in
            IfOk result
            (λ fault. (bases : Bases) → (number : ℕ) → WithUsing whole bases number statement.now it fault) }
    {
        match directive {
            Directive::Dc => self.pass_storage(false, statement, standing),
            Directive::Ds => self.pass_storage(true, statement, standing),
            Directive::Ltorg => {
                self.push_closed_pool(statement, standing)?;
                Ok(None)
            }
            Directive::Copy => Ok(copy_fault(statement.stmt().operand.as_slice())),
            Directive::End => self.end_fault(statement),
            _ => Ok(None),
        }
    }

    /// Appends what a statement of a number, from 0, makes, if it is kept. Its fault is answered, if it has one, except
    /// that of USING or DROP.
    #[tactic(auto, using(crate::proofs::JoinLemmas::kept_nothing, crate::proofs::RoleLemmas::by_directive, cx_asm_expressions::specs::Facts::Faults::lower_nothing), unfolding(cx_asm_operands::specs::Directives::bases_in))]
    fn pass_operands(
        &self,
        number: usize,
        statement: &Statement<'_>,
        bases: &Bases,
        standing: &mut Standing,
    ) -> Result<Option<FaultKind>, AllocError>
        requires { let pass = self.now in let role = role_in statement.now.stmt in
            let stands = role_standing (whole_by pass.places.now) pass.statements.now bases.now statement.now role in
            FitsSection pass.keeps standing.old stands }
        ensures standing { let pass = self.now in let role = role_in statement.now.stmt in
            let stands = role_standing (whole_by pass.places.now) pass.statements.now bases.now statement.now role in
            OnOk result (standing.new ≡ kept pass.keeps standing.old stands) }
        ensures fault { let whole = whole_by self.now.places.now in
            IfOk result (λ fault. WithUsing whole bases.now number statement.now (operation_of statement.now) fault) }
    {
        match statement.operation() {
            None => Ok(None),
            Some(Operation::Directive(directive)) => {
                self.pass_directive(statement, directive, standing)
            }
            Some(operation) => {
                let literals = literals_fault(self.alloc, self.places, number, statement)?;
                let made = self.pass_instruction(statement, operation, bases, standing)?;
                Ok(lower(made, literals))
            }
        }
    }

    /// Appends what a statement of a number, from 0, makes, if it is kept and the statement is in the control section.
    /// Its fault is answered, if it has one, except that of USING or DROP.
    #[tactic(auto, using(crate::proofs::JoinLemmas::kept_nothing), unfolding(crate::specs::Resolving::statement_standing))]
    fn pass_statement(
        &self,
        number: usize,
        statement: &Statement<'_>,
        bases: &Bases,
        standing: &mut Standing,
    ) -> Result<Option<FaultKind>, AllocError>
        requires { let pass = self.now in
            let stands = statement_standing (whole_by pass.places.now) pass.statements.now bases.now statement.now in
            FitsSection pass.keeps standing.old stands }
        ensures standing { let pass = self.now in
            let stands = statement_standing (whole_by pass.places.now) pass.statements.now bases.now statement.now in
            OnOk result (standing.new ≡ kept pass.keeps standing.old stands) }
        ensures fault { let whole = whole_by self.now.places.now in
            IfOk result (λ fault. WithUsing whole bases.now number statement.now (operation_of statement.now) fault) }
    {
        if is_control(statement.place().section, control_name(self.places)) {
            return self.pass_operands(number, statement, bases, standing);
        }
        let unkept = SecondPass {
            keeps: false,
            ..*self
        };
        unkept.pass_operands(number, statement, bases, standing)
    }

    /// Appends the literals that no LTORG has placed, if they are kept.
    #[tactic(auto, using(crate::proofs::JoinLemmas::kept_nothing))]
    fn push_last_pool(&self, standing: &mut Standing) -> Result<(), AllocError>
        requires { let whole = whole_by self.now.places.now in
            FitsSection self.now.keeps standing.old (pool_standing whole self.now.statements.now (last_pool whole)) }
        ensures { let whole = whole_by self.now.places.now in
            let stands = pool_standing whole self.now.statements.now (last_pool whole) in
            OnOk result (standing.new ≡ kept self.now.keeps standing.old stands) }
    {
        match self.places.pools.as_slice().last() {
            Some(pool) => self.push_pool(pool, standing),
            None => Ok(()),
        }
    }

    /// Goes past the statement of a number, from 0, and appends what it makes, if it is kept. Its lowest fault is
    /// answered, if it has one.
    #[tactic(auto, unfolding(cx_asm_pass2::specs::SecondFaults::second_fault))]
    fn pass_line(
        &self,
        number: usize,
        statement: &Statement<'_>,
        bases: &mut Bases,
        standing: &mut Standing,
    ) -> Result<Option<FaultKind>, AllocError>
        requires { let pass = self.now in
            let stands = statement_standing (whole_by pass.places.now) pass.statements.now bases.old statement.now in
            FitsSection pass.keeps standing.old stands }
        ensures fault { let whole = whole_by self.now.places.now in
            IfOk result (λ fault. fault ≡ second_fault whole bases.old number statement.now) }
        ensures bases { let whole = whole_by self.now.places.now in
            OnOk result (bases.new ≡ bases_after whole bases.old statement.now) }
        ensures standing { let pass = self.now in
            let stands = statement_standing (whole_by pass.places.now) pass.statements.now bases.old statement.now in
            OnOk result (standing.new ≡ kept pass.keeps standing.old stands) }
    {
        let operands = self.pass_statement(number, statement, bases, standing)?;
        let using = pass_bases(self.alloc, self.places, bases, statement)?;
        Ok(lower(operands, using))
    }
}

/// What the second pass over statements finds.
#[derive(Drop)]
pub(crate) struct Found {
    /// The first fault: that of the first faulty statement's line with the lowest number, if there is any.
    pub(crate) first: Option<LineFault>,
    /// What they make in the control section, with the literals after them, where it is kept.
    pub(crate) standing: Standing,
}

/// Goes over statements for the second time.
pub(crate) fn second_pass(
    alloc: Global,
    places: &Places<'_>,
    statements: &[Statement<'_>],
    keeps: bool,
) -> Result<Found, AllocError>
    requires { let whole = whole_by places.now in
        keeps ≡ true → IsWithin 0 (standing_from whole statements.now none_in_use statements.now) 65536 }
    ensures first { let whole = whole_by places.now in
        IfOk result (λ found. found.first ≡ slice_get (second_faults_after whole (reverse statements.now)) 0) }
    ensures standing { let whole = whole_by places.now in
        let all = standing_from whole statements.now none_in_use statements.now in
        IfOk result (λ found. keeps ≡ true → found.standing ≡ all) }
{
    let pass = SecondPass {
        alloc,
        places,
        statements,
        keeps,
    };
    let mut standing = Standing::new(alloc);
    let mut bases = Bases::new();
    let mut first = None;
    for (number, statement) in statements.iter().enumerate() {
        let fault = pass.pass_line(number, statement, &mut bases, &mut standing)?;
        first = first_fault_after(statement.line(), fault, first);
    }
    pass.push_last_pool(&mut standing)?;
    Ok(Found { first, standing })
}

/// The faults of all lines in the second pass: of each the lowest, in order.
pub(crate) fn second_faults(
    alloc: Global,
    places: &Places<'_>,
    statements: &[Statement<'_>],
) -> Result<List<LineFault>, AllocError>
    ensures { IfOk result (λ faults. faults ≡ second_faults_after (whole_by places.now) (reverse statements.now)) }
{
    let pass = SecondPass {
        alloc,
        places,
        statements,
        keeps: false,
    };
    let mut unkept = Standing::new(alloc);
    let mut bases = Bases::new();
    let mut faults = LineFaults::new(alloc);
    for (number, statement) in statements.iter().enumerate() {
        let fault = pass.pass_line(number, statement, &mut bases, &mut unkept)?;
        faults.add(statement.line(), fault)?;
    }
    faults.to_list(alloc)
}
