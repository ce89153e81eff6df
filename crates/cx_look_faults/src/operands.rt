//! The part of a statement's operand that is at fault.

ghost use Rattle.std.specs.Prelude.{◌≡◌, ◌++◌, ◌-◌, IfOk, OnOk, Some, length, option_and_then, option_map, slice_index};
ghost use Rattle.std.specs.List.{find, list_any};
ghost use Rattle.std.specs.Option.{option_or};
ghost use Rattle.std.specs.Str.{bytes_eq};
ghost use Rattle.cx_asm_operands.specs.Forms.{literal_in};
ghost use Rattle.cx_asm_pass2.specs.Statements.{operation_of};
ghost use Rattle.cx_asm_pass2.specs.Whole.{whole_by};
ghost use Rattle.cx_look_faults.specs.Faults.{kind_at};
ghost use Rattle.cx_look_faults.specs.Judging.{has_fault};
ghost use Rattle.cx_look_faults.specs.Operands.{alone_in, constant_part, is_later, is_term, last_part, operand_parts_in, part_by, part_on, smallest_part, whole_part};
ghost use Rattle.cx_look_faults.specs.Parts.Tests.{passes};
ghost use Rattle.cx_look_faults.specs.Spans.{span, span_text, spans_of};
ghost use Rattle.cx_look_faults.specs.declared.spans.Cut.TheVariants.{Terms};

use crate::faults::{Kinds, kind_at};
use crate::judging::{Case, is_kind};
use crate::lists::push_some;
use crate::spans::{Cell, Cut, Span, cells_of, is_one_of, span_text, spans_of, with_zeros};
use cx_asm_build::SourceKind;
use cx_asm_operands::{Bases, literal_in};
use cx_asm_operations::{Directive, Operation};
use cx_asm_pass1::Places;
use cx_asm_pass2::{Statement, pass_bases};
use cx_source::Text;
use std::alloc::{AllocError, Global};

/// A part of an operand that is at fault.
#[derive(Debug, Drop)]
pub struct OperandPart {
    /// The number of the statement's line, counted from 1.
    pub line: usize,
    /// The operand.
    pub operand: Text,
    /// Where the part is in the operand.
    pub part: Span,
}

/// Whether one of some statements has a name.
fn any_has_name(statements: &[Statement<'_>], name: &[u8]) -> bool
    ensures { result ≡ list_any (λ s. bytes_eq s.stmt.name name.now) statements.now }
{
    statements
        .iter()
        .any(|statement| statement.stmt().name.as_slice() == name)
}

/// Whether a symbol isn't known yet at a place: a statement from there on defines it, and none before.
fn is_later(statements: &[Statement<'_>], at: usize, name: &[u8]) -> bool
    ensures { result ≡ is_later statements.now at name.now }
{
    let (before, after) = statements.split_at(statements.len().min(at));
    any_has_name(after, name) && !any_has_name(before, name)
}

/// The first of some parts of an operand that is such a symbol.
fn first_later(
    statements: &[Statement<'_>],
    at: usize,
    operand: &[u8],
    parts: &[Span],
) -> Option<Span>
    ensures { result ≡ find (λ part. is_later statements.now at (span_text part operand.now)) parts.now }
{
    parts
        .iter()
        .copied()
        .find(|part| is_later(statements, at, span_text(*part, operand)))
}

/// What is asked of a part.
#[derive(Clone, Copy)]
pub(crate) enum Test<'a> {
    /// Whether the operand, of which these are the characters, has the fault where all its parts but this are 0.
    Alone(&'a [Cell]),
    /// Whether as an item it has the fault.
    Item,
    /// Whether it is a term of an address, whose value has the fault.
    Term,
}

/// The character before a place.
fn byte_before(text: &[u8], place: usize) -> u8
    ensures { result ≡ slice_index text.now (place - 1) }
{
    match text.get(place.saturating_sub(1)) {
        Some(c) => *c,
        None => 0,
    }
}

/// The last operand, where it is a literal.
fn literal_part(alloc: Global, operand: &[u8]) -> Result<Option<Span>, AllocError>
    ensures { let part = option_map (λ literal. span (length operand.now - length literal) (length operand.now)) in
        IfOk result (λ found. found ≡ part (literal_in operand.now)) }
{
    match literal_in(alloc, operand)? {
        Some(literal) => Ok(Some(Span {
            start: operand.len().saturating_sub(literal.len()),
            end: operand.len(),
        })),
        None => Ok(None),
    }
}

impl Case<'_, '_, '_, '_> {
    /// The operand.
    pub(crate) fn operand(&self) -> &[u8]
        ensures { result.now ≡ self.now.statement.now.stmt.operand }
    {
        self.statement.stmt().operand.as_slice()
    }

    /// Whether a part is a term of an address whose value has the fault.
    fn is_term(&self, alloc: Global, part: Span) -> Result<bool, AllocError>
        ensures { let c = self.now in
            IfOk result (λ is. is ≡ is_term (whole_by c.places.now) c.statement.now c.kind part) }
    {
        let operand = self.operand();
        if !is_one_of(b"(+-", byte_before(operand, part.start)) {
            return Ok(false);
        }
        let fault = self.value_fault(alloc, span_text(part, operand))?;
        Ok(is_kind(fault, self.kind))
    }

    /// Whether a part passes a test.
    pub(crate) fn passes(
        &self,
        alloc: Global,
        test: Test<'_>,
        part: Span,
    ) -> Result<bool, AllocError>
        ensures { let c = self.now in let whole = whole_by c.places.now in
            IfOk result (λ is. is ≡ passes whole c.bases.now c.statement.now c.kind test.entry part) }
    {
        match test {
            Test::Alone(cells) => self.has_fault(alloc, &with_zeros(alloc, &[part], cells)?),
            Test::Item => self.has_fault(alloc, span_text(part, self.operand())),
            Test::Term => self.is_term(alloc, part),
        }
    }

    /// The first part of the operand, cut in one way, that passes a test.
    fn first_part(
        &self,
        alloc: Global,
        test: Test<'_>,
        cut: Cut,
    ) -> Result<Option<Span>, AllocError>
        ensures { let c = self.now in let whole = whole_by c.places.now in
            let does = passes whole c.bases.now c.statement.now c.kind test.entry in
            IfOk result (λ found. found ≡ find does (spans_of cut c.statement.now.stmt.operand)) }
    {
        let parts = spans_of(alloc, cut, self.operand())?;
        for part in &parts {
            if self.passes(alloc, test, *part)? {
                return Ok(Some(*part));
            }
        }
        Ok(None)
    }

    /// The first part of the operand, cut in one way, that has the fault alone.
    fn alone_in(&self, alloc: Global, cut: Cut) -> Result<Option<Span>, AllocError>
        ensures { let c = self.now in
            let has = has_fault (whole_by c.places.now) c.bases.now c.statement.now c.kind in
            IfOk result (λ found. found ≡ alone_in has c.statement.now.stmt.operand cut) }
    {
        let cells = cells_of(alloc, cut, self.operand())?;
        let test = Test::Alone(&cells);
        if self.passes(alloc, test, Span { start: 0, end: 0 })? {
            return Ok(None);
        }
        self.first_part(alloc, test, cut)
    }

    /// All of the operand, where it has the fault.
    fn whole_part(&self, alloc: Global) -> Result<Option<Span>, AllocError>
        ensures { let c = self.now in
            let has = has_fault (whole_by c.places.now) c.bases.now c.statement.now c.kind in
            IfOk result (λ found. found ≡ whole_part has c.statement.now.stmt.operand) }
    {
        let operand = self.operand();
        if operand.is_empty() || !self.has_fault(alloc, operand)? {
            return Ok(None);
        }
        Ok(Some(Span {
            start: 0,
            end: operand.len(),
        }))
    }

    /// The smallest part of the operand that has the fault alone.
    fn smallest_part(&self, alloc: Global) -> Result<Option<Span>, AllocError>
        ensures { let c = self.now in
            let has = has_fault (whole_by c.places.now) c.bases.now c.statement.now c.kind in
            IfOk result (λ found. found ≡ smallest_part has c.statement.now.stmt.operand) }
    {
        if let Some(part) = self.alone_in(alloc, Cut::Terms)? {
            return Ok(Some(part));
        }
        if let Some(part) = self.alone_in(alloc, Cut::Subfields)? {
            return Ok(Some(part));
        }
        if let Some(part) = self.alone_in(alloc, Cut::Operands)? {
            return Ok(Some(part));
        }
        self.whole_part(alloc)
    }

    /// The first term that is a symbol which isn't known yet, or else all of the operand.
    fn later_part(&self, alloc: Global) -> Result<Option<Span>, AllocError>
        ensures { let c = self.now in let operand = c.statement.now.stmt.operand in
            let later = find (λ part. is_later c.statements.now c.at (span_text part operand)) (spans_of Terms operand) in
            IfOk result (λ found. found ≡ option_or later (Some (span 0 (length operand)))) }
    {
        let operand = self.operand();
        let parts = spans_of(alloc, Cut::Terms, operand)?;
        match first_later(self.statements, self.at, operand, &parts) {
            Some(part) => Ok(Some(part)),
            None => Ok(Some(Span {
                start: 0,
                end: operand.len(),
            })),
        }
    }

    /// The part that has the fault where none has it alone, in a statement of this operation.
    fn last_part(
        &self,
        alloc: Global,
        operation: Option<Operation>,
    ) -> Result<Option<Span>, AllocError>
        ensures { let c = self.now in
            let operand = c.statement.now.stmt.operand in
            IfOk result (λ found. found ≡ last_part c.statements.now c.at operand operation c.kind) }
    {
        let operand = self.operand();
        match (operation, self.kind) {
            (_, SourceKind::NoAddressability) => literal_part(alloc, operand),
            (Some(Operation::Directive(Directive::Equ)), SourceKind::UndefinedSymbol) => {
                self.later_part(alloc)
            }
            _ => Ok(None),
        }
    }

    /// The part of a DC's or DS's operand that has the fault.
    fn constant_part(&self, alloc: Global) -> Result<Option<Span>, AllocError>
        ensures { let c = self.now in
            let part = constant_part (whole_by c.places.now) c.bases.now c.statement.now c.kind in
            IfOk result (λ found. found ≡ part) }
    {
        if let Some(part) = self.first_part(alloc, Test::Term, Cut::Terms)? {
            return Ok(Some(part));
        }
        self.first_part(alloc, Test::Item, Cut::Operands)
    }

    /// The part of another statement's operand that has the fault, in a statement of this operation.
    fn other_part(
        &self,
        alloc: Global,
        operation: Option<Operation>,
    ) -> Result<Option<Span>, AllocError>
        ensures { let c = self.now in let operand = c.statement.now.stmt.operand in
            let has = has_fault (whole_by c.places.now) c.bases.now c.statement.now c.kind in
            let last = last_part c.statements.now c.at operand operation c.kind in
            IfOk result (λ found. found ≡ option_or (smallest_part has operand) last) }
    {
        if let Some(part) = self.smallest_part(alloc)? {
            return Ok(Some(part));
        }
        self.last_part(alloc, operation)
    }

    /// The part of the operand that has the fault.
    fn part(&self, alloc: Global) -> Result<Option<Span>, AllocError>
        ensures { let c = self.now in let operation = operation_of c.statement.now in
            let by = part_by (whole_by c.places.now) c.bases.now c.statements.now c.at in
            IfOk result (λ found. found ≡ by c.statement.now c.kind operation) }
    {
        match self.statement.operation() {
            Some(Operation::Directive(Directive::Dc | Directive::Ds)) => self.constant_part(alloc),
            operation => self.other_part(alloc, operation),
        }
    }

    /// The part of the operand that has the fault, with the operand and the line's number.
    fn found_part(&self, alloc: Global) -> Result<Option<OperandPart>, AllocError>
        ensures { let c = self.now in
            let part = part_on (whole_by c.places.now) c.bases.now c.statements.now c.at c.statement.now c.kind in
            IfOk result (λ found. found ≡ part) }
    {
        let Some(part) = self.part(alloc)? else {
            return Ok(None);
        };
        Ok(Some(OperandPart {
            line: self.statement.line(),
            operand: Text::from_slice(alloc, self.operand())?,
            part,
        }))
    }
}

/// The part of a statement that is at fault, if its line has a fault. It is the one at this place among all.
fn part_of(
    alloc: Global,
    places: &Places<'_>,
    bases: &Bases,
    statements: &[Statement<'_>],
    at: usize,
    statement: &Statement<'_>,
    kind: Option<SourceKind>,
) -> Result<Option<OperandPart>, AllocError>
    ensures { let part_on = part_on (whole_by places.now) bases.now statements.now at statement.now in
        IfOk result (λ found. found ≡ option_and_then part_on kind) }
{
    let Some(kind) = kind else {
        return Ok(None);
    };
    let case = Case {
        places,
        bases,
        statement,
        kind,
        statements,
        at,
    };
    case.found_part(alloc)
}

/// The parts of statements that are at fault.
#[tactic(auto, using(std::proofs::lemmas::List::Sums::fold_more), unfolding(crate::specs::Operands::operand_parts_in))]
pub(crate) fn operand_parts_in(
    alloc: Global,
    places: &Places<'_>,
    kinds: &Kinds,
    statements: &[Statement<'_>],
) -> Result<Vec<OperandPart>, AllocError>
    ensures { let kind_of = kind_at kinds.now.entries in
        IfOk result (λ found. found.items ≡ operand_parts_in (whole_by places.now) kind_of statements.now) }
{
    let mut bases = Bases::new();
    let mut found = Vec::new(alloc);
    for (i, statement) in statements.iter().enumerate() {
        let kind = kind_at(kinds, statement.line());
        let part = part_of(alloc, places, &bases, statements, i, statement, kind)?;
        push_some(&mut found, part)?;
        pass_bases(alloc, places, &mut bases, statement)?;
    }
    Ok(found)
}
