//! The symbols that a source hasn't defined one by one.
ghost use Rattle.std.specs.Prelude.{◌≡◌, ◌++◌, IfOk, OnOk, false};
ghost use Rattle.std.specs.Option.{option_map_or};
ghost use Rattle.cx_asm_pass1.specs.PassState.{role_in};
ghost use Rattle.cx_look_xref.specs.Given.{gives_symbols, is_symbol_given, line_given, lines_given};

use crate::lines::is_among;
use cx_asm_expressions::symbol_name;
use cx_asm_pass1::Role;
use cx_look_symbols::{Symbol, is_control};
use cx_source::{Item, Source, Stmt};
use std::alloc::{AllocError, Global};

/// Whether a statement defines symbols of its own.
fn gives_symbols(stmt: &Option<Stmt>) -> bool
    ensures { result ≡ option_map_or (λ it. gives_symbols (role_in it)) stmt.now false }
{
    let Some(stmt) = stmt else {
        return false;
    };
    matches!(
        Role::of(stmt.operation.as_slice()),
        Role::Registers | Role::Member
    )
}

/// Adds a line, where its statement defines symbols of its own.
fn push_given(lines: &mut Vec<usize>, item: &Item) -> Result<(), AllocError>
    ensures { OnOk result (lines.new.items ≡ lines.old.items ++ line_given item.now) }
{
    if gives_symbols(&item.stmt) {
        lines.push(item.line)?;
    }
    Ok(())
}

/// The lines of DFHREGS and of COPY.
pub(crate) fn lines_given(alloc: Global, source: &Source) -> Result<Vec<usize>, AllocError>
    ensures { IfOk result (λ lines. lines.items ≡ lines_given source.now) }
{
    let mut lines = Vec::new(alloc);
    for item in source.items.as_slice() {
        push_given(&mut lines, item)?;
    }
    Ok(lines)
}

/// Whether a symbol is one of DFHREGS, of COPY, whose lines these are, or of the EXEC interface block.
pub(crate) fn is_symbol_given(lines: &[usize], symbol: &Symbol) -> bool
    ensures { result ≡ is_symbol_given lines.now symbol.now }
{
    is_among(lines, symbol.line) || is_control(symbol.value.section, symbol_name(b"DFHEIBLK"))
}
