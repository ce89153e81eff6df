//! The pass over the statements.

ghost use Rattle.std.specs.Prelude.{◌≡◌, ◌≤◌, ◌+◌, [], List as Elements, ℕ, map, option_and_then, IfOk, OnOk};
ghost use Rattle.cx_asm_expressions.specs.Digits.{bound};
ghost use Rattle.cx_asm_pass1.specs.PassState.{next_state, after_line, state_at_start, control_after, control_or_blank, statement_fault_in, length_after, length_of_section, literal_fault, next_in, parts_in, pool_after, pools_after, section_after};
ghost use Rattle.cx_asm_pass1.specs.Parts.Checking.{heading_in, checked_in};
ghost use Rattle.cx_asm_pass1.specs.Parts.Passing.{state_of, length_in};

use crate::checked::{Checked, define_all, duplicate, value_in, value_or_fault};
use crate::faults::{Heading, extent_fault, first_fault_after, is_astray, lowest_fault};
use crate::layout::Extent;
use crate::place::{LineFault, Place};
use crate::roles::Role;
use cx_asm_expressions::{FaultKind, SymbolTable, lower, symbol_name};
use cx_asm_pools::{OpenPool, Pool, capped};
use cx_ebcdic::Name8;
use cx_source::{Delimiter, Item, Stmt, cut};
use indexmap::IndexMap;
use std::alloc::{AllocError, Global};

/// The code of a blank.
const BLANK: u8 = 0x40;

/// What is known after the statements so far.
#[derive(Drop)]
pub(crate) struct Pass<'a> {
    pub(crate) section: Option<Name8>,
    pub(crate) control: Option<Name8>,
    pub(crate) lengths: IndexMap<Name8, u128>,
    pub(crate) symbols: SymbolTable,
    pub(crate) pool: OpenPool<'a>,
    pub(crate) pools: Vec<Pool<'a>>,
    pub(crate) places: Vec<Place>,
    pub(crate) fault: Option<LineFault>,
}

/// The length of a section so far; 0 where there is none.
pub(crate) fn length_of_section(section: Option<Name8>, lengths: &IndexMap<Name8, u128>) -> u128
    ensures { result ≡ length_of_section section (length_in lengths.now.entries) }
{
    let Some(name) = section else {
        return 0;
    };
    match lengths.get(&name) {
        Some(length) => *length,
        None => 0,
    }
}

/// Sets the length of a section, where there is one.
#[tactic(auto, using(crate::proofs::LengthLemmas::length_put))]
fn set_length(
    lengths: &mut IndexMap<Name8, u128>,
    section: Option<Name8>,
    end: u128,
) -> Result<(), AllocError>
    ensures { let before = length_in lengths.old.entries in
        OnOk result ((name : Elements ℕ) → length_in lengths.new.entries name ≡ length_after section end before name) }
{
    let Some(name) = section else {
        return Ok(());
    };
    lengths.insert(name, end)?;
    Ok(())
}

/// The control section, which goes on; or one whose name is blank, where there is none.
fn control_or_blank(control: Option<Name8>) -> Option<Name8>
    ensures { result ≡ control_or_blank control }
{
    match control {
        Some(name) => Some(name),
        None => Some(Name8::from_bytes([BLANK; 8])),
    }
}

/// The section that the next statement is in.
fn section_after(heading: &Heading) -> Option<Name8>
    ensures { let h = heading.now in result ≡ section_after h.role h.name h.section h.control }
{
    if is_astray(heading) {
        return control_or_blank(heading.control);
    }
    match (heading.role, heading.name) {
        (Role::Control | Role::Dummy, Some(name)) => Some(name),
        _ => heading.section,
    }
}

/// The control section after a statement.
fn control_after(heading: &Heading) -> Option<Name8>
    ensures { let h = heading.now in result ≡ control_after h.role h.name h.section h.control }
{
    if is_astray(heading) {
        return control_or_blank(heading.control);
    }
    match (heading.role, heading.control) {
        (Role::Control, None) => heading.name,
        _ => heading.control,
    }
}

/// Puts the literals of an instruction into the open pool, or closes it at LTORG, and answers the literals' lowest
/// fault.
fn use_pool<'a>(
    role: Role,
    user: usize,
    parts: &[&'a [u8]],
    pool: &mut OpenPool<'a>,
) -> Result<Option<FaultKind>, AllocError>
    ensures pool { OnOk result (pool.new ≡ pool_after role user (map (λ part. part.now) parts.now) pool.old) }
    ensures fault { IfOk result
        (λ fault. fault ≡ literal_fault role user (map (λ part. part.now) parts.now) pool.old) }
{
    match role {
        Role::Instruction(_) => {
            let fault = pool.use_parts(parts, user)?;
            Ok(lower(fault, extent_fault(pool.extent())))
        }
        Role::Pool => {
            pool.clear();
            Ok(None)
        }
        _ => Ok(None),
    }
}

/// Puts the open pool after the closed ones at LTORG.
fn close_pool<'a>(
    alloc: Global,
    role: Role,
    offset: u128,
    pool: &OpenPool<'a>,
    pools: &mut Vec<Pool<'a>>,
) -> Result<(), AllocError>
    ensures { OnOk result (pools.new.items ≡ pools_after role offset pool.now pools.old.items) }
{
    if role == Role::Pool {
        pools.push(Pool::placed(alloc, pool, capped(offset))?)?;
    }
    Ok(())
}

impl<'a> Pass<'a> {
    /// The pass before the first statement. It takes no memory.
    pub(crate) fn start(alloc: Global) -> Pass<'a>
        ensures { state_of result ≡ state_at_start }
    {
        Pass {
            section: None,
            control: None,
            lengths: IndexMap::new(alloc),
            symbols: SymbolTable::new(alloc),
            pool: OpenPool::new(alloc),
            pools: Vec::new(alloc),
            places: Vec::new(alloc),
            fault: None,
        }
    }

    /// How a statement begins.
    fn heading(&self, stmt: &Stmt) -> Heading
        ensures { result ≡ heading_in stmt.now (state_of self.now) }
    {
        Heading {
            role: Role::of(stmt.operation.as_slice()),
            name: symbol_name(stmt.name.as_slice()),
            section: self.section,
            control: self.control,
        }
    }

    /// What is known of a statement.
    #[tactic(auto, using(cx_asm_expressions::specs::Facts::Faults::lower_nothing), unfolding(crate::specs::Parts::Checking::checked_in))]
    fn checked(
        &self,
        alloc: Global,
        stmt: &Stmt,
        heading: &Heading,
        parts: &[&[u8]],
    ) -> Result<Checked, AllocError>
        requires heading { heading.now ≡ heading_in stmt.now (state_of self.now) }
        requires parts { map (λ part. part.now) parts.now ≡ parts_in stmt.now }
        ensures { IfOk result (λ checked. checked ≡ checked_in stmt.now (state_of self.now)) }
    {
        let operand = stmt.operand.as_slice();
        let next = capped(length_of_section(heading.section, &self.lengths));
        let extent = Extent::of(alloc, heading.role, parts, self.pool.extent(), next)?;
        let given = value_or_fault(alloc, heading, &self.symbols, operand, &extent)?;
        let twice = duplicate(heading, &self.symbols, operand, value_in(&given));
        let value = value_in(&given);
        let inner = lower(extent.fault, lower(given.err(), twice));
        let fault = lowest_fault(heading, stmt.name.as_slice(), inner);
        Ok(Checked {
            extent,
            value,
            fault,
        })
    }

    /// Takes a statement in, and answers its lowest fault.
    #[tactic(auto, unfolding(crate::specs::PassState::next_state, crate::specs::Parts::Checking::checked_in))]
    fn take(
        &mut self,
        alloc: Global,
        line: usize,
        stmt: &'a Stmt,
    ) -> Result<Option<FaultKind>, AllocError>
        ensures state { OnOk result (state_of self.new ≡ next_state line stmt.now (state_of self.old)) }
        ensures fault { IfOk result (λ fault. fault ≡ statement_fault_in stmt.now (state_of self.old)) }
    {
        let heading = self.heading(stmt);
        let operand = stmt.operand.as_slice();
        let parts = cut(alloc, operand, Delimiter::TopComma)?;
        let Checked {
            extent,
            value,
            fault,
        } = self.checked(alloc, stmt, &heading, parts.as_slice())?;
        define_all(&heading, &mut self.symbols, operand, value)?;
        set_length(&mut self.lengths, heading.section, extent.end)?;
        let number = self.pools.len();
        close_pool(
            alloc,
            heading.role,
            extent.offset,
            &self.pool,
            &mut self.pools,
        )?;
        let user = self.places.len();
        let literals = use_pool(heading.role, user, parts.as_slice(), &mut self.pool)?;
        let lowest = lower(fault, literals);
        self.fault = first_fault_after(line, lowest, self.fault);
        self.places.push(Place {
            section: self.section,
            offset: extent.offset,
            items: extent.items,
            pool: number,
        })?;
        self.section = section_after(&heading);
        self.control = control_after(&heading);
        Ok(lowest)
    }

    /// Takes a line in, and answers its statement's lowest fault.
    pub(crate) fn take_line(
        &mut self,
        alloc: Global,
        item: &'a Item,
    ) -> Result<Option<FaultKind>, AllocError>
        ensures state { OnOk result (state_of self.new ≡ after_line item.now.line item.now.stmt (state_of self.old)) }
        ensures fault { IfOk result
            (λ fault. fault ≡ option_and_then (λ stmt. statement_fault_in stmt (state_of self.old)) item.now.stmt) }
    {
        match &item.stmt {
            Some(stmt) => self.take(alloc, item.line, stmt),
            None => Ok(None),
        }
    }
}
