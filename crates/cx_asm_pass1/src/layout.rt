//! Where a statement is in its section, and what it takes there.

ghost use Rattle.std.specs.Prelude.{◌≡◌, ◌≤◌, ◌<◌, ◌+◌, ◌^◌, IfOk, IfSome, [], map, None, Ok, Err, Result};
ghost use Rattle.std.specs.Result.{result_err};
ghost use Rattle.cx_asm_expressions.specs.Digits.{bound};
ghost use Rattle.cx_asm_expressions.specs.Items.{constant_in};
ghost use Rattle.cx_asm_pools.specs.Pools.{cap};
ghost use Rattle.cx_asm_pass1.specs.Layout.{align, fault_beyond, bytes_at, item_end, item_start, items_at, extent_of, extent_at};

use crate::roles::Role;
use cx_asm_expressions::{Constant, FaultKind, lower};
use cx_asm_pools::capped;
use cx_base::List;
use std::alloc::{AllocError, Global};

/// No offset goes beyond this one: 2^100.
const BOUND: u128 = 0x10_0000_0000_0000_0000_0000_0000;

/// What a statement takes in its section.
#[derive(Drop)]
pub(crate) struct Extent {
    /// Where it is.
    pub(crate) offset: u128,
    /// Where its items are.
    pub(crate) items: List<u128>,
    /// Where it ends.
    pub(crate) end: u128,
    /// Its length attribute.
    pub(crate) length: u128,
    /// What is wrong with its items or its end.
    pub(crate) fault: Option<FaultKind>,
}

/// The next offset on a boundary of at most 8.
#[tactic(auto, using(crate::proofs::LayoutLemmas::aligned_bound))]
fn aligned(boundary: u32, at: u128) -> u128
    requires positive { 1 ≤ boundary }
    requires boundary { boundary ≤ 8 }
    requires at { at ≤ bound + 1 }
    ensures next { result ≡ align boundary at }
    ensures bound { result ≤ at + 8 }
{
    let boundary = u128::from(boundary);
    (at + (boundary - 1)) / boundary * boundary
}

/// An offset beyond the bound is out of range.
pub(crate) fn beyond(at: u128) -> Option<FaultKind>
    ensures { result ≡ fault_beyond at }
{
    if at <= BOUND {
        None
    } else {
        Some(FaultKind::ValueOutOfRange)
    }
}

/// Where an item is, from an offset on.
#[tactic(auto, using(crate::specs::Facts::StatementExtents::alignment_small))]
fn item_start(item: &Constant<'_>, at: u128) -> u128
    ensures start { result ≡ item_start at (Ok item.now) }
    ensures bound { result ≤ bound + 9 }
{
    aligned(item.alignment(), capped(at))
}

/// Where an item of a DS (`is_ds`) or a DC is from an offset on, where it ends, and what is wrong with it.
fn place_item(is_ds: bool, part: &[u8], at: u128) -> (u128, u128, Option<FaultKind>)
    ensures start { result.0 ≡ item_start at (constant_in is_ds part.now) }
    ensures end { result.1 ≡ item_end at (constant_in is_ds part.now) }
    ensures fault { result.2 ≡ result_err (constant_in is_ds part.now) }
{
    match Constant::read(part, is_ds) {
        Ok(item) => {
            let start = item_start(&item, at);
            (start, start + capped(item.size()), None)
        }
        Err(fault) => (at, at, Some(fault)),
    }
}

/// The length of one copy of the first item of a DS (`is_ds`) or a DC, and its place.
fn first_item(is_ds: bool, parts: &[&[u8]], at: u128) -> (u128, u128)
    ensures start { result.0 ≡ (items_at (map (constant_in is_ds) (map (λ part. part.now) parts.now)) at).offset }
    ensures length { result.1 ≡ (items_at (map (constant_in is_ds) (map (λ part. part.now) parts.now)) at).length }
{
    let Some(part) = parts.first() else {
        return (at, 1);
    };
    let (start, _, _) = place_item(is_ds, part, at);
    match Constant::read(part, is_ds) {
        Ok(item) => (start, item.length()),
        Err(_) => (start, 1),
    }
}

/// The items of a DS (`is_ds`) or a DC, from an offset on.
fn items_at(alloc: Global, is_ds: bool, parts: &[&[u8]], next: u128) -> Result<Extent, AllocError>
    ensures { IfOk result
        (λ extent_of. extent_of ≡ items_at (map (constant_in is_ds) (map (λ part. part.now) parts.now)) next) }
{
    let mut offsets = Vec::new(alloc);
    let mut at = next;
    let mut fault = None;
    for part in parts {
        let (start, end, wrong) = place_item(is_ds, part, at);
        offsets.push(start)?;
        at = end;
        fault = lower(fault, wrong);
    }
    let (offset, length) = first_item(is_ds, parts, next);
    Ok(Extent {
        offset,
        items: List::from_vec(offsets),
        end: at,
        length,
        fault: lower(fault, beyond(at)),
    })
}

impl Extent {
    /// Nothing, at an offset.
    fn nothing_at(alloc: Global, at: u128) -> Extent
        ensures { result ≡ extent_at at [] at 1 None }
    {
        Extent {
            offset: at,
            items: List::from_vec(Vec::new(alloc)),
            end: at,
            length: 1,
            fault: None,
        }
    }

    /// `size` bytes on a boundary of at most 8, with a length attribute.
    fn bytes_at(alloc: Global, boundary: u32, size: u128, length: u128, at: u128) -> Extent
        requires positive { 1 ≤ boundary }
        requires boundary { boundary ≤ 8 }
        requires size { size ≤ bound + 1 }
        requires at { at ≤ bound + 1 }
        ensures { result ≡ bytes_at boundary size length at }
    {
        let offset = aligned(boundary, at);
        Extent {
            offset,
            items: List::from_vec(Vec::new(alloc)),
            end: offset + size,
            length,
            fault: beyond(offset + size),
        }
    }

    /// What a statement takes from the next offset on, by what its operation does, the parts of its operand, and how
    /// many bytes the open pool has.
    ///
    /// An error comes only where an allocation failed.
    #[tactic(auto, unfolding(crate::specs::Layout::extent_of))]
    pub(crate) fn of(
        alloc: Global,
        role: Role,
        parts: &[&[u8]],
        extent: Option<u128>,
        at: u128,
    ) -> Result<Extent, AllocError>
        requires extent { IfSome extent (λ size. size ≤ bound + 1) }
        requires at { at ≤ bound + 1 }
        ensures { IfOk result (λ taken. taken ≡ extent_of role (map (λ part. part.now) parts.now) extent at) }
    {
        match role {
            Role::Instruction(size) => Ok(Extent::bytes_at(
                alloc,
                2,
                capped(size as u128),
                size as u128,
                at,
            )),
            Role::Storage { is_ds } => items_at(alloc, is_ds, parts, at),
            Role::Pool => match extent {
                Some(size) => Ok(Extent::bytes_at(alloc, 8, size, 1, at)),
                None => Ok(Extent::nothing_at(alloc, at)),
            },
            _ => Ok(Extent::nothing_at(alloc, at)),
        }
    }
}
