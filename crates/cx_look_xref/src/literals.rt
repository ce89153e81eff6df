//! What is written of literals.
ghost use Rattle.std.specs.Prelude.{◌≡◌, ◌++◌, ◌==◌, ◌&&◌, IfOk, List, OnOk, [], drop, false, map, slice_get, take, ℕ};
ghost use Rattle.std.specs.List.{flat_map};
ghost use Rattle.std.specs.Option.{option_map_or};
ghost use Rattle.std.specs.Str.{bytes_eq};
ghost use Rattle.cx_asm_pools.specs.Pools.{literal_size, literal_text};
ghost use Rattle.cx_look_xref.specs.Literals.{lines_with, literal_bytes, uses_literal};
ghost use Rattle.cx_look_xref.specs.Parts.Uses.{lines_of_literal, uses_part, with_line};
ghost use Rattle.cx_look_xref.specs.Texts.{literal_bytes_word, literal_line, literals_from};

use crate::lines::used_word;
use crate::uses::{lines_for, put};
use cx_asm_expressions::Constant;
use cx_asm_pass1::Role;
use cx_asm_pass2::Statement;
use cx_asm_pools::{Literal, Pool, literal_text};
use cx_base::hexadecimal;
use cx_look_lines::{Report, joined, spelled};
use cx_source::{Delimiter, cut};
use indexmap::IndexMap;
use std::alloc::{AllocError, Global};
use std::collections::BTreeSet;

/// A literal by the number of its pool, from 0, and its text.
#[derive(Clone, Copy, PartialEq, Eq, Hash)]
pub(crate) struct PoolText<'a> {
    /// The pool's number.
    pub(crate) pool: usize,
    /// The text.
    pub(crate) text: &'a [u8],
}

/// Keeps that a line uses a literal of the pool of a number, if the operand is one.
#[tactic(auto, using(crate::proofs::UseLemmas::literal_reads, crate::proofs::UseLemmas::no_use))]
fn put_part<'a>(
    alloc: Global,
    table: &mut IndexMap<PoolText<'a>, BTreeSet<usize>>,
    pool: usize,
    line: usize,
    part: &'a [u8],
) -> Result<(), AllocError>
    ensures { OnOk result ((number : ℕ) (text : List ℕ) → lines_of_literal table.new.entries number text
        ≡ with_line ((number == pool) && option_map_or (bytes_eq text) (literal_text part.now) false) line
        (lines_of_literal table.old.entries number text)) }
{
    let Some(text) = literal_text(part) else {
        return Ok(());
    };
    put(alloc, table, PoolText { pool, text }, line)?;
    Ok(())
}

/// Keeps that a line uses the literals of the pool of a number that are among the operands.
fn put_parts<'a>(
    alloc: Global,
    table: &mut IndexMap<PoolText<'a>, BTreeSet<usize>>,
    pool: usize,
    line: usize,
    parts: &[&'a [u8]],
) -> Result<(), AllocError>
    ensures { OnOk result ((number : ℕ) (text : List ℕ) → lines_of_literal table.new.entries number text
        ≡ with_line (uses_part number text pool (map (λ part. part.now) parts.now)) line
        (lines_of_literal table.old.entries number text)) }
{
    for part in parts {
        put_part(alloc, table, pool, line, part)?;
    }
    Ok(())
}

/// Keeps the literals that a statement uses.
fn put_statement<'a>(
    alloc: Global,
    table: &mut IndexMap<PoolText<'a>, BTreeSet<usize>>,
    statement: &Statement<'a>,
) -> Result<(), AllocError>
    ensures { OnOk result ((number : ℕ) (text : List ℕ) → lines_of_literal table.new.entries number text
        ≡ with_line (uses_literal number text statement.now) statement.now.line
        (lines_of_literal table.old.entries number text)) }
{
    let Role::Instruction(_) = statement.role() else {
        return Ok(());
    };
    let parts = cut(
        alloc,
        statement.stmt().operand.as_slice(),
        Delimiter::TopComma,
    )?;
    let pool = statement.place().pool;
    put_parts(alloc, table, pool, statement.line(), parts.as_slice())?;
    Ok(())
}

/// The lines that use each literal.
fn lines_by_literal<'a>(
    alloc: Global,
    statements: &[Statement<'a>],
) -> Result<IndexMap<PoolText<'a>, BTreeSet<usize>>, AllocError>
    ensures { IfOk result (λ table. lines_of_literal table.entries ≡ lines_with statements.now) }
{
    let mut table = IndexMap::new(alloc);
    for statement in statements {
        put_statement(alloc, &mut table, statement)?;
    }
    Ok(table)
}

/// How many bytes a literal has.
fn literal_size(text: &[u8]) -> u128
    ensures { result ≡ literal_size text.now }
{
    match Constant::read(text, false) {
        Ok(item) => item.size(),
        Err(_) => 0,
    }
}

/// The bytes of a text from an offset on, at most `count`.
fn bytes_at(text: &[u8], at: u128, count: u128) -> &[u8]
    ensures { result.now ≡ take count (drop at text.now) }
{
    let (_, after) = text.split_at((text.len() as u128).min(at) as usize);
    let (bytes, _) = after.split_at((after.len() as u128).min(count) as usize);
    bytes
}

/// The bytes of a literal in the control section's text.
fn literal_bytes<'b>(section: &'b [u8], text: &[u8], literal: Literal) -> &'b [u8]
    ensures { result.now ≡ literal_bytes section.now text.now literal }
{
    bytes_at(section, literal.offset, literal_size(text))
}

/// Bytes in hexadecimal digits; hyphens where there are none.
fn literal_bytes_word(alloc: Global, bytes: &[u8]) -> Result<Vec<u8>, AllocError>
    ensures { IfOk result (λ text. text.items ≡ literal_bytes_word bytes.now) }
{
    if bytes.is_empty() {
        return b"--".to_vec(alloc);
    }
    spelled(alloc, bytes)
}

/// What the literals of the pool of a number are written by: the control section's text, and the lines that use each
/// literal.
#[derive(Drop)]
struct PoolLiterals<'a, 't> {
    section: &'a [u8],
    used: &'a IndexMap<PoolText<'t>, BTreeSet<usize>>,
    number: usize,
}

impl<'a, 't> PoolLiterals<'a, 't> {
    /// Adds the line of a literal.
    fn literal_line(
        &self,
        report: &mut Report,
        text: &[u8],
        literal: Literal,
    ) -> Result<(), AllocError>
        ensures { let line = literal_line self.now.section.now (lines_of_literal self.now.used.now.entries)
            self.now.number in OnOk result (report.new ≡ report.old ++ line (text.now, literal)) }
    {
        let alloc = report.alloc();
        let pool = self.number;
        let lines = lines_for(alloc, self.used, &PoolText { pool, text })?;
        let used = used_word(alloc, &[], lines.as_slice())?;
        let bytes = literal_bytes_word(alloc, literal_bytes(self.section, text, literal))?;
        let word = joined(alloc, b"=", text)?;
        let offset = hexadecimal::<6>((literal.offset % 0x100_0000) as u32);
        report.line(&[b"XREF", b"LITERAL", &offset, &word, &bytes, &used])
    }

    /// Adds the line of the literal at an index, if the pool has that many.
    fn literal_at(
        &self,
        report: &mut Report,
        pool: &Pool<'_>,
        index: usize,
    ) -> Result<(), AllocError>
        ensures { let line = literal_line self.now.section.now (lines_of_literal self.now.used.now.entries)
            self.now.number in
            OnOk result (report.new ≡ report.old ++ option_map_or line (slice_get pool.now index) []) }
    {
        let Some((text, literal)) = pool.literal(index) else {
            return Ok(());
        };
        self.literal_line(report, text, literal)
    }

    /// Adds the lines of the pool's literals.
    #[tactic(auto, using(crate::proofs::PoolLemmas::one_more))]
    fn pool_lines(&self, report: &mut Report, pool: &Pool<'_>) -> Result<(), AllocError>
        ensures { let line = literal_line self.now.section.now (lines_of_literal self.now.used.now.entries)
            self.now.number in OnOk result (report.new ≡ report.old ++ flat_map line pool.now) }
    {
        for index in 0..pool.len() {
            self.literal_at(report, pool, index)?;
        }
        Ok(())
    }
}

/// Adds the lines of the literals of pools.
fn literals_by(
    report: &mut Report,
    section: &[u8],
    used: &IndexMap<PoolText<'_>, BTreeSet<usize>>,
    pools: &[Pool<'_>],
) -> Result<(), AllocError>
    ensures { let more = literals_from section.now (lines_of_literal used.now.entries) 0 pools.now in
        OnOk result (report.new ≡ report.old ++ more) }
{
    for (number, pool) in pools.iter().enumerate() {
        let literals = PoolLiterals {
            section,
            used,
            number,
        };
        literals.pool_lines(report, pool)?;
    }
    Ok(())
}

/// Adds the lines of the literals of pools, pool by pool in the order of their places: the offset in the control
/// section, whose text is `section`, in six hexadecimal digits, the literal, its bytes, hyphens where there are none,
/// and the lines of the statements that use it.
///
/// An error comes only where memory for them was refused; then some of them may be there.
pub fn literal_lines(
    report: &mut Report,
    section: &[u8],
    statements: &[Statement<'_>],
    pools: &[Pool<'_>],
) -> Result<(), AllocError>
    ensures { let more = literals_from section.now (lines_with statements.now) 0 pools.now in
        OnOk result (report.new ≡ report.old ++ more) }
{
    let used = lines_by_literal(report.alloc(), statements)?;
    literals_by(report, section, &used, pools)
}
