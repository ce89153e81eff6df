//! Where everything is.

ghost use Rattle.std.specs.Prelude.{◌≡◌, [], IfOk, List as Elements, OnOk, ℕ, reverse};
ghost use Rattle.cx_asm_pass1.specs.AllFaults.{faults_after, place_faults};
ghost use Rattle.cx_asm_pass1.specs.PassState.{state_at_start, state_after};
ghost use Rattle.cx_asm_pass1.specs.Parts.Passing.{state_of};
ghost use Rattle.cx_asm_pass1.specs.Locations.{IsPlaced, PlacesAs, last_pool_extent, final_state, storage_length};

use crate::all_faults::LineFaults;
use crate::layout::Extent;
use crate::pass::{Pass, length_of_section};
use crate::place::{ControlSection, LineFault, Place};
use crate::roles::Role;
use cx_asm_expressions::{SymbolTable, symbol_name};
use cx_asm_pools::{Pool, capped};
use cx_base::List;
use cx_source::{Item, Source};
use std::alloc::{AllocError, Global};

/// Where everything of a source is: its statements, symbols, literal pools and sections.
#[derive(Drop)]
pub struct Places<'a> {
    /// Where each statement is, in the source's order.
    pub statements: List<Place>,
    /// The symbols that its statements define, each with the value that the first definition gives it.
    pub symbols: SymbolTable,
    /// The literal pools, in order: one for each LTORG, and that at the control section's end; each perhaps without a
    /// literal.
    pub pools: List<Pool<'a>>,
    /// The control section; None where there is none.
    pub control: Option<ControlSection>,
    /// The length of the dummy section DFHEISTG, in bytes; 0 without it.
    pub stg_length: u128,
}

/// The pass over lines.
fn pass_over<'a>(alloc: Global, items: &'a [Item]) -> Result<Pass<'a>, AllocError>
    ensures { IfOk result (λ pass. state_of pass ≡ state_after (reverse items.now)) }
{
    let mut pass = Pass::start(alloc);
    for item in items {
        pass.take_line(alloc, item)?;
    }
    Ok(pass)
}

/// The length of the dummy section DFHEISTG; 0 without it.
fn storage_length(pass: &Pass<'_>) -> u128
    ensures { result ≡ storage_length (state_of pass.now) }
{
    let Some(name) = symbol_name(b"DFHEISTG") else {
        return 0;
    };
    if crate::given::stands_in(name, pass.control) {
        return 0;
    }
    length_of_section(Some(name), &pass.lengths)
}

/// The places after the last statement.
#[tactic(auto, unfolding(crate::specs::Layout::extent_of))]
fn finished<'a>(alloc: Global, pass: Pass<'a>) -> Result<Places<'a>, AllocError>
    ensures { IfOk result (λ places. IsPlaced (state_of pass.entry) places) }
{
    let stg_length = storage_length(&pass);
    let next = capped(length_of_section(pass.control, &pass.lengths));
    let closing = Extent::of(alloc, Role::Pool, &[], pass.pool.extent(), next)?;
    let last = Pool::placed(alloc, &pass.pool, capped(closing.offset))?;
    let Pass {
        control,
        symbols,
        mut pools,
        places,
        ..
    } = pass;
    pools.push(last)?;
    let control = match control {
        Some(name) => Some(ControlSection {
            name,
            length: closing.end,
        }),
        None => None,
    };
    Ok(Places {
        statements: List::from_vec(places),
        symbols,
        pools: List::from_vec(pools),
        control,
        stg_length,
    })
}

/// Where everything of a source is: its sections, symbols, literal pools and statements (GC33-4010).
///
/// The statements are those of the list's items, in its order, whatever their numbers say. The first fault comes with
/// the line of the first statement that has one in its operation, name, section, the lengths of its items and literals,
/// or the value of EQU, and is the lowest of all statements of that line. An error comes only where an allocation
/// failed.
pub fn place_all<'a>(
    alloc: Global,
    source: &'a Source,
) -> Result<Result<Places<'a>, LineFault>, AllocError>
    ensures { IfOk result (λ answer. PlacesAs (final_state source.now) answer) }
{
    let pass = pass_over(alloc, source.items.as_slice())?;
    if let Some(first) = pass.fault {
        return Ok(Err(first));
    }
    let places = finished(alloc, pass)?;
    Ok(Ok(places))
}

/// The pass over lines, and the faults of all of them.
fn pass_with_faults<'a>(
    alloc: Global,
    items: &'a [Item],
    faults: &mut LineFaults,
) -> Result<Pass<'a>, AllocError>
    requires { faults.old ≡ [] }
    ensures pass { IfOk result (λ pass. state_of pass ≡ state_after (reverse items.now)) }
    ensures faults { OnOk result (faults.new ≡ faults_after (reverse items.now)) }
{
    let mut pass = Pass::start(alloc);
    for item in items {
        let fault = pass.take_line(alloc, item)?;
        faults.add(item.line, fault)?;
    }
    Ok(pass)
}

/// Where everything of a source is, whatever faults it has, and all faults of the first pass.
///
/// Where there is none the places are those that `place_all` answers. Of each line with a faulty statement the lowest
/// fault of all its statements comes, in the order in which the lines' first faults are met. An error comes only where
/// an allocation failed.
pub fn place_with_faults<'a>(
    alloc: Global,
    source: &'a Source,
) -> Result<(Places<'a>, List<LineFault>), AllocError>
    ensures places { IfOk result (λ both. IsPlaced (final_state source.now) both.0) }
    ensures faults { IfOk result (λ both. both.1 ≡ place_faults source.now) }
{
    let mut met = LineFaults::new(alloc);
    let pass = pass_with_faults(alloc, source.items.as_slice(), &mut met)?;
    let places = finished(alloc, pass)?;
    let faults = met.to_list(alloc)?;
    Ok((places, faults))
}
