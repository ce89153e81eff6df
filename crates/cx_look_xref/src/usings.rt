//! What is written of base registers.
ghost use Rattle.std.specs.Prelude.{◌≡◌, ◌++◌, ◌==◌, IfOk, OnOk, [], drop, map, slice_get, unwrap_or};
ghost use Rattle.std.specs.List.{filter_map, flat_map, list_any};
ghost use Rattle.std.specs.Result.{result_ok};
ghost use Rattle.cx_asm_operands.specs.Bases.{none_in_use};
ghost use Rattle.cx_asm_operands.specs.Context.{number_at_most, register_in};
ghost use Rattle.cx_asm_pass1.specs.PassState.{parts_in};
ghost use Rattle.cx_asm_pass2.specs.Statements.{operation_of};
ghost use Rattle.cx_asm_pass2.specs.Whole.{directive_context, whole_by};
ghost use Rattle.cx_look_xref.specs.Usings.{base_registers, ends_use, registers_named, use_end};
ghost use Rattle.cx_look_xref.specs.Texts.{using_line, usings_from};

use cx_asm_expressions::{TermFault, Value, value_of};
use cx_asm_operations::{Directive, Operation};
use cx_asm_pass1::Places;
use cx_asm_pass2::{Statement, counter_of};
use cx_look_lines::{Report, decimal};
use cx_source::{Delimiter, cut};
use std::alloc::{AllocError, Global};

/// The register that a value is.
fn register_at(value: Value) -> Option<usize>
    ensures { result ≡ result_ok (number_at_most 15 value) }
{
    if value.section.is_some() || value.number < 0 || value.number > 15 {
        return None;
    }
    Some(value.number as usize)
}

/// The register that a statement's operand names.
#[tactic(auto, unfolding(cx_asm_operands::specs::Context::operand_number))]
fn register_in(
    alloc: Global,
    places: &Places<'_>,
    statement: &Statement<'_>,
    part: &[u8],
) -> Result<Option<usize>, AllocError>
    ensures { let c = directive_context (whole_by places.now) none_in_use statement.now in
        IfOk result (λ register. register ≡ result_ok (register_in c part.now)) }
{
    let here = counter_of(statement);
    match value_of(alloc, part, &places.symbols, here.as_ref()) {
        Ok(value) => Ok(register_at(value)),
        Err(TermFault::Refused(_)) => Ok(None),
        Err(TermFault::Memory) => Err(AllocError),
    }
}

/// The registers that a statement's operands name.
fn registers_named(
    alloc: Global,
    places: &Places<'_>,
    statement: &Statement<'_>,
    parts: &[&[u8]],
) -> Result<Vec<usize>, AllocError>
    ensures { IfOk result (λ registers. registers.items
        ≡ registers_named (whole_by places.now) statement.now (map (λ part. part.now) parts.now)) }
{
    let mut registers = Vec::new(alloc);
    for part in parts {
        if let Some(register) = register_in(alloc, places, statement, part)? {
            registers.push(register)?;
        }
    }
    Ok(registers)
}

/// The registers that a USING names, after the place that they hold.
fn using_registers(
    alloc: Global,
    places: &Places<'_>,
    statement: &Statement<'_>,
) -> Result<Vec<usize>, AllocError>
    ensures { IfOk result (λ registers. registers.items
        ≡ registers_named (whole_by places.now) statement.now (drop 1 (parts_in statement.now.stmt))) }
{
    let parts = cut(
        alloc,
        statement.stmt().operand.as_slice(),
        Delimiter::TopComma,
    )?;
    let (_, after) = parts.as_slice().split_at(parts.len().min(1));
    registers_named(alloc, places, statement, after)
}

/// The registers that a DROP names.
fn drop_registers(
    alloc: Global,
    places: &Places<'_>,
    statement: &Statement<'_>,
) -> Result<Vec<usize>, AllocError>
    ensures { IfOk result (λ registers. registers.items
        ≡ registers_named (whole_by places.now) statement.now (parts_in statement.now.stmt)) }
{
    let parts = cut(
        alloc,
        statement.stmt().operand.as_slice(),
        Delimiter::TopComma,
    )?;
    registers_named(alloc, places, statement, parts.as_slice())
}

/// The registers of a statement, if it is a USING.
fn base_registers(
    alloc: Global,
    places: &Places<'_>,
    statement: &Statement<'_>,
) -> Result<Vec<usize>, AllocError>
    ensures { IfOk result (λ registers. registers.items
        ≡ base_registers (whole_by places.now) statement.now (operation_of statement.now)) }
{
    match statement.operation() {
        Some(Operation::Directive(Directive::Using)) => using_registers(alloc, places, statement),
        _ => Ok(Vec::new(alloc)),
    }
}

/// Whether a register is among others.
fn is_among(registers: &[usize], register: usize) -> bool
    ensures { result ≡ list_any (λ r. r == register) registers.now }
{
    registers.iter().any(|r| *r == register)
}

/// Whether a statement ends the use of a register.
fn ends_use(
    alloc: Global,
    places: &Places<'_>,
    register: usize,
    statement: &Statement<'_>,
) -> Result<bool, AllocError>
    ensures { IfOk result (λ ends. ends
        ≡ ends_use (whole_by places.now) register statement.now (operation_of statement.now)) }
{
    match statement.operation() {
        Some(Operation::Directive(Directive::Using)) => {
            let registers = using_registers(alloc, places, statement)?;
            Ok(is_among(registers.as_slice(), register))
        }
        Some(Operation::Directive(Directive::Drop)) => {
            if statement.stmt().operand.as_slice().is_empty() {
                return Ok(true);
            }
            let registers = drop_registers(alloc, places, statement)?;
            Ok(is_among(registers.as_slice(), register))
        }
        _ => Ok(false),
    }
}

/// The last line of a register's use, by the statements after the one that begins it.
fn use_end(
    alloc: Global,
    places: &Places<'_>,
    last: usize,
    register: usize,
    statements: &[Statement<'_>],
) -> Result<usize, AllocError>
    ensures { IfOk result (λ end. end ≡ use_end (whole_by places.now) last register statements.now) }
{
    for statement in statements {
        if ends_use(alloc, places, register, statement)? {
            return Ok(statement.line().saturating_sub(1));
        }
    }
    Ok(last)
}

/// The first operand of a statement.
fn first_operand(alloc: Global, statement: &Statement<'_>) -> Result<Vec<u8>, AllocError>
    ensures { IfOk result (λ text. text.items ≡ unwrap_or (slice_get (parts_in statement.now.stmt) 0) []) }
{
    let parts = cut(
        alloc,
        statement.stmt().operand.as_slice(),
        Delimiter::TopComma,
    )?;
    match parts.as_slice().first() {
        Some(part) => part.to_vec(alloc),
        None => Ok(Vec::new(alloc)),
    }
}

/// A USING, with the statements after it, and the last line of the source.
#[derive(Drop)]
struct Using<'a, 'p, 's> {
    places: &'a Places<'p>,
    last: usize,
    statement: &'a Statement<'s>,
    after: &'a [Statement<'s>],
}

impl<'a, 'p, 's> Using<'a, 'p, 's> {
    /// Adds the line of a base register that it names.
    fn line_of(&self, report: &mut Report, register: usize) -> Result<(), AllocError>
        ensures { let line = using_line (whole_by self.now.places.now) self.now.last self.now.statement.now
            self.now.after.now in OnOk result (report.new ≡ report.old ++ line register) }
    {
        let alloc = report.alloc();
        let end = use_end(alloc, self.places, self.last, register, self.after)?;
        let place = first_operand(alloc, self.statement)?;
        let register = decimal(alloc, register)?;
        let from = decimal(alloc, self.statement.line())?;
        let to = decimal(alloc, end)?;
        report.line(&[
            b"XREF", b"USING", &register, b"FROM", &from, b"TO", &to, &place,
        ])
    }

    /// Adds the lines of base registers that it names.
    fn lines_of(&self, report: &mut Report, registers: &[usize]) -> Result<(), AllocError>
        ensures { let line = using_line (whole_by self.now.places.now) self.now.last self.now.statement.now
            self.now.after.now in OnOk result (report.new ≡ report.old ++ flat_map line registers.now) }
    {
        for register in registers {
            self.line_of(report, *register)?;
        }
        Ok(())
    }
}

/// Adds the lines of the base registers of a source, by its statements: the register, the line of the USING that names
/// it, the last line of its use, which is `last` where no statement ends it, and the place as the USING writes it.
///
/// An error comes only where memory for them was refused; then some of them may be there.
pub fn using_lines(
    report: &mut Report,
    places: &Places<'_>,
    last: usize,
    statements: &[Statement<'_>],
) -> Result<(), AllocError>
    ensures { let more = usings_from (whole_by places.now) last statements.now in
        OnOk result (report.new ≡ report.old ++ more) }
{
    for (i, statement) in statements.iter().enumerate() {
        let (_, after) = statements.split_at(i + 1);
        let registers = base_registers(report.alloc(), places, statement)?;
        let using = Using {
            places,
            last,
            statement,
            after,
        };
        using.lines_of(report, registers.as_slice())?;
    }
    Ok(())
}
