//! Programs.
ghost use Rattle.std.specs.Prelude.{◌≡◌, ◌++◌, IfOk, OnOk, codes};
ghost use Rattle.std.specs.List.{flat_map};
ghost use Rattle.cx_look_tables.specs.Programs.{transaction_word, program_line};

use cx_base::{hexadecimal, shown_name};
use cx_ebcdic::{Name4, Name8};
use cx_load::Loaded;
use cx_look_lines::Report;
use indexmap::IndexMap;
use std::alloc::{AllocError, Global};

/// Adds a transaction where it is a program's.
fn push_transaction(
    alloc: Global,
    text: &mut Vec<u8>,
    tran: Name4,
    of: Name8,
    program: Name8,
) -> Result<(), AllocError>
    ensures { OnOk result (text.new.items ≡ text.old.items ++ transaction_word program (tran, of)) }
{
    if of != program {
        return Ok(());
    }
    text.push(b' ')?;
    text.extend_from_slice(&shown_name(alloc, tran)?)?;
    Ok(())
}

/// The transactions of a program.
fn transactions_of(
    alloc: Global,
    transactions: &IndexMap<Name4, Name8>,
    program: Name8,
) -> Result<Vec<u8>, AllocError>
    ensures { let words = flat_map (transaction_word program) transactions.now.entries in
        IfOk result (λ text. text.items ≡ codes "TRANSACTIONS" ++ words) }
{
    let mut text = b"TRANSACTIONS".to_vec(alloc)?;
    for (tran, of) in transactions.iter() {
        push_transaction(alloc, &mut text, *tran, *of, program)?;
    }
    Ok(text)
}

/// Adds the line of a program.
fn program_line(
    report: &mut Report,
    transactions: &IndexMap<Name4, Name8>,
    name: Name8,
    loaded: &Loaded,
) -> Result<(), AllocError>
    ensures { let line = program_line transactions.now.entries (name, loaded.now) in
        OnOk result (report.new ≡ report.old ++ line) }
{
    let transactions = transactions_of(report.alloc(), transactions, name)?;
    let name = shown_name(report.alloc(), name)?;
    let at = hexadecimal::<6>(loaded.at);
    let len = hexadecimal::<6>(loaded.len);
    let entry = hexadecimal::<6>(loaded.entry);
    let stg_len = hexadecimal::<6>(loaded.stg_len);
    report.line(&[
        b"PROGRAM",
        &name,
        b"AT",
        &at,
        b"LENGTH",
        &len,
        b"ENTRY",
        &entry,
        b"STORAGE",
        &stg_len,
        &transactions,
    ])
}

/// Adds the lines of programs.
pub(crate) fn program_lines(
    report: &mut Report,
    programs: &IndexMap<Name8, Loaded>,
    transactions: &IndexMap<Name4, Name8>,
) -> Result<(), AllocError>
    ensures { let more = flat_map (program_line transactions.now.entries) programs.now.entries in
        OnOk result (report.new ≡ report.old ++ more) }
{
    for (name, loaded) in programs.iter() {
        program_line(report, transactions, *name, loaded)?;
    }
    Ok(())
}
