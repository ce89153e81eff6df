//! Sources, and what is made of them, as plain bytes.
use cx_source::{Item, Items, Source, SourceFault, Stmt, Text, read_source};
use cx_translate::{TransFault, translate};
use std::alloc::{AllocError, Global};

fn item(
    alloc: Global,
    line: usize,
    name: &[u8],
    operation: &[u8],
    operand: &[u8],
) -> Result<Item, AllocError> {
    Ok(Item {
        line,
        text: Text::from_slice(alloc, b"")?,
        stmt: Some(Stmt {
            name: Text::from_slice(alloc, name)?,
            operation: Text::from_slice(alloc, operation)?,
            operand: Text::from_slice(alloc, operand)?,
        }),
    })
}

/// A control section with one EXEC statement of this operand, on line 2, and with END on each of these lines.
fn section_with_ends(alloc: Global, operand: &[u8], ends: &[usize]) -> Result<Source, AllocError> {
    let mut items = Vec::new(alloc);
    items.push(item(alloc, 1, b"P", b"CSECT", b"")?)?;
    items.push(item(alloc, 2, b"", b"EXEC", operand)?)?;
    for line in ends {
        items.push(item(alloc, *line, b"", b"END", b"")?)?;
    }
    Ok(Source {
        items: Items::from_vec(items),
    })
}

/// The lines of a source, each with the last two digits of its number before it.
fn numbered(alloc: Global, source: &Source) -> Result<Vec<u8>, AllocError> {
    let mut text = Vec::new(alloc);
    for item in source.items.as_slice() {
        text.push(b'0' + (item.line / 10 % 10) as u8)?;
        text.push(b'0' + (item.line % 10) as u8)?;
        text.push(b' ')?;
        text.extend_from_slice(item.text.as_slice())?;
        text.push(b'\n')?;
    }
    Ok(text)
}

/// The lines of a source translated, or its fault as it is reported.
pub(crate) fn translated(alloc: Global, bytes: &[u8]) -> Result<Vec<u8>, SourceFault> {
    let source = read_source(alloc, bytes)?;
    match translate(alloc, &source) {
        Ok(made) => Ok(numbered(alloc, &made)?),
        Err(fault) => Ok(reported(alloc, fault)?),
    }
}

/// The lines that a control section with SUSPEND, and with END on each of these lines, becomes. Those that it has
/// itself are empty.
pub(crate) fn suspended(alloc: Global, ends: &[usize]) -> Result<Vec<u8>, AllocError> {
    match translate(alloc, &section_with_ends(alloc, b"CICS SUSPEND", ends)?) {
        Ok(made) => numbered(alloc, &made),
        Err(fault) => reported(alloc, fault),
    }
}

fn reported(alloc: Global, fault: TransFault) -> Result<Vec<u8>, AllocError> {
    let text = format!(in alloc; "{fault}")?;
    Ok(text.into_bytes())
}
