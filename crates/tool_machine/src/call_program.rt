//! The source of a case's program.

use crate::call_case::Case;
use cx_source::Text;
use std::alloc::{AllocError, Global};

/// How many characters of an operand a line has, from column 16 to column 71.
const OPERAND: usize = 56;

/// A line of a statement: name in column 1, operation in column 10, operand in column 16.
fn statement(
    name: &str,
    operation: &str,
    operand: &str,
    alloc: Global,
) -> Result<Text, AllocError> {
    let line = format!(in alloc; "{name:<8} {operation:<5} {operand}")?;
    Text::from_slice(alloc, line.as_bytes())
}

fn push(lines: &mut Vec<Text>, line: Text) -> Result<(), AllocError> {
    lines.push(line)?;
    Ok(())
}

fn push_statement(
    alloc: Global,
    lines: &mut Vec<Text>,
    (name, operation, operand): (&str, &str, &str),
) -> Result<(), AllocError> {
    let line = statement(name, operation, operand, alloc)?;
    push(lines, line)
}

/// The fields of a section.
fn push_fields(
    alloc: Global,
    lines: &mut Vec<Text>,
    case: &Case,
    section: &str,
) -> Result<(), AllocError> {
    for field in case.fields.iter() {
        if field.section.as_str() == section {
            let (name, definition) = (field.name.as_str(), field.definition.as_str());
            push_statement(alloc, lines, (name, "DS", definition))?;
        }
    }
    Ok(())
}

fn after_a_blank(alloc: Global, line: &str) -> Result<Text, AllocError> {
    let line = format!(in alloc; " {line}")?;
    Text::from_slice(alloc, line.as_bytes())
}

/// Lines as they are given, after a blank.
fn push_lines(alloc: Global, lines: &mut Vec<Text>, given: &[String]) -> Result<(), AllocError> {
    for line in given {
        let line = after_a_blank(alloc, line.as_str())?;
        push(lines, line)?;
    }
    Ok(())
}

/// Puts what a line of the EXEC statement has after its head last, with column 72.
fn extend(line: &mut Vec<u8>, part: &[u8], is_continued: bool) -> Result<(), AllocError> {
    line.extend_from_slice(part)?;
    if is_continued {
        line.push(b'X')?;
    }
    Ok(())
}

/// A line of the EXEC statement.
fn part_of_exec(
    alloc: Global,
    head: &[u8],
    part: &[u8],
    is_continued: bool,
) -> Result<Text, AllocError> {
    let mut line = Vec::from_slice(alloc, head)?;
    match extend(&mut line, part, is_continued) {
        Ok(()) => Ok(Text::from_vec(line)),
        Err(fault) => Err(fault),
    }
}

/// The EXEC statement, on as many lines as it needs; column 72 continues it.
fn push_exec(alloc: Global, lines: &mut Vec<Text>, operand: &str) -> Result<(), AllocError> {
    let mut head: &[u8] = b"         EXEC  ";
    let mut left = operand.len();
    for part in operand.as_bytes().chunks(OPERAND) {
        left = left.saturating_sub(part.len());
        let line = part_of_exec(alloc, head, part, left > 0)?;
        push(lines, line)?;
        head = b"               ";
    }
    Ok(())
}

/// A section with its fields.
fn push_section(
    alloc: Global,
    lines: &mut Vec<Text>,
    case: &Case,
    (section, operation): (&str, &str),
) -> Result<(), AllocError> {
    push_statement(alloc, lines, (section, operation, ""))?;
    push_fields(alloc, lines, case, section)
}

/// The sections of storage: DFHEISTG, and the program's own DSECTs.
fn push_dsects(alloc: Global, lines: &mut Vec<Text>, case: &Case) -> Result<(), AllocError> {
    push_section(alloc, lines, case, ("DFHEISTG", "DSECT"))?;
    for section in case.sections.iter() {
        push_section(alloc, lines, case, (section.name.as_str(), "DSECT"))?;
    }
    Ok(())
}

/// The instructions, the EXEC statement and the end.
fn push_code(alloc: Global, lines: &mut Vec<Text>, case: &Case) -> Result<(), AllocError> {
    push_statement(alloc, lines, ("BEGIN", "DS", "0H"))?;
    push_lines(alloc, lines, case.code.as_slice())?;
    push_exec(alloc, lines, case.statement.as_str())?;
    push_statement(alloc, lines, ("", "END", "BEGIN"))
}

fn push_source(alloc: Global, lines: &mut Vec<Text>, case: &Case) -> Result<(), AllocError> {
    push_dsects(alloc, lines, case)?;
    push_section(alloc, lines, case, ("P", "CSECT"))?;
    push_lines(alloc, lines, case.lines.as_slice())?;
    push_code(alloc, lines, case)
}

/// The source: DFHEISTG, the program's own DSECTs, and the control section P with its fields, its further lines, its
/// instructions and the EXEC statement, which has a label.
pub fn source_of(alloc: Global, case: &Case) -> Result<Vec<Text>, AllocError> {
    let mut lines = Vec::new(alloc);
    match push_source(alloc, &mut lines, case) {
        Ok(()) => Ok(lines),
        Err(fault) => Err(fault),
    }
}
