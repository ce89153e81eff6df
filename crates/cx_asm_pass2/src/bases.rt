//! The bases in use after a statement.

ghost use Rattle.std.specs.Prelude.{◌≡◌, IfOk, IsOk, OnOk, false, option_and_then};
ghost use Rattle.std.specs.Option.{option_map_or};
ghost use Rattle.std.specs.Result.{result_err};
ghost use Rattle.cx_asm_operands.specs.Directives.{bases_in, changes_bases};
ghost use Rattle.cx_asm_pass2.specs.Whole.{directive_context, whole_by};
ghost use Rattle.cx_asm_pass2.specs.SecondFaults.{bases_after};
ghost use Rattle.cx_asm_pass2.specs.Statements.{operation_of};

use crate::statements::Statement;
use crate::whole::counter_of;
use cx_asm_expressions::FaultKind;
use cx_asm_operands::Bases;
use cx_asm_pass1::Places;
use std::alloc::{AllocError, Global};

/// Goes past a statement: a USING or a DROP without a fault changes the bases in use, and nothing else does. Its fault
/// is answered, if it is a USING or a DROP that has one.
///
/// An error comes only where an allocation failed; USING and DROP alone take memory. Nothing is said of the bases then:
/// a caller drops them.
#[tactic(auto, unfolding(crate::specs::SecondFaults::bases_after))]
pub fn pass_bases(
    alloc: Global,
    places: &Places<'_>,
    bases: &mut Bases,
    statement: &Statement<'_>,
) -> Result<Option<FaultKind>, AllocError>
    ensures bases { OnOk result (bases.new ≡ bases_after (whole_by places.now) bases.old statement.now) }
    ensures fault { let c = directive_context (whole_by places.now) bases.old statement.now in
        let operation = operation_of statement.now in let operand = statement.now.stmt.operand in
        IfOk result (λ fault. fault ≡ option_and_then (λ o. result_err (bases_in o c operand)) operation) }
    ensures others { option_map_or changes_bases (operation_of statement.now) false ≡ false → IsOk result }
{
    bases.pass(
        alloc,
        &places.symbols,
        counter_of(statement),
        statement.stmt(),
    )
}
