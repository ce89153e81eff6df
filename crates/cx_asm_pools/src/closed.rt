//! A pool whose literals are placed in their section.

ghost use Rattle.std.specs.Prelude.{◌≡◌, [], ◌∷◌, ◌++◌, ◌+◌, ◌<◌, ◌≤◌, ◌^◌, OnOk, IfOk, Option, length, map, option_map, slice_get};
ghost use Rattle.std.specs.List.{IsDistinct};
ghost use Rattle.std.specs.Map.{keys_of, lookup};
ghost use Rattle.std.specs.Str.{bytes_eq};
ghost use Rattle.cx_asm_expressions.specs.Digits.{bound};
ghost use Rattle.cx_asm_pools.specs.Pools.{cap, group_of, by_groups, of_group, closed_pool, placed_from, by_text};

use crate::open::{OpenPool, Used, capped};
use crate::texts::push_literal;
use indexmap::IndexMap;
use std::alloc::{AllocError, Global};
use std::marker::Model;

/// Where a literal is, and which statement uses it first.
#[derive(Clone, Copy)]
pub struct Literal {
    /// Its offset in the control section, in bytes.
    pub offset: u128,
    /// The number of the statement that uses it first in its pool, from 0.
    pub user: usize,
}

/// The literals of a pool by their texts, in the order of their places (GC33-4010, "Literal Pool").
#[derive(Drop)]
pub struct Pool<'a> {
    literals: IndexMap<&'a [u8], Literal>,
}

impl<'a> Model for Pool<'a> {
    ghost use Rattle.cx_asm_pools.specs.Pools.{PlacedLiterals, by_text};

    ghost Value = { PlacedLiterals };

    ghost view = { λ pool. by_text pool.literals.entries };
}

/// The greatest of 8, 4, 2 and 1 that divides a length.
fn group_of(size: u128) -> u8
    ensures { result ≡ group_of size }
{
    if size % 8 == 0 {
        8
    } else if size % 4 == 0 {
        4
    } else if size % 2 == 0 {
        2
    } else {
        1
    }
}

/// Puts the literals of a group after others.
fn push_group<'a>(
    list: &mut Vec<(&'a [u8], Used)>,
    pool: &[(&'a [u8], Used)],
    group: u8,
) -> Result<(), AllocError>
    ensures { OnOk result (by_text list.new.items
        ≡ by_text list.old.items ++ of_group group (by_text pool.now)) }
{
    for entry in pool {
        if group_of(entry.1.size) == group {
            list.push(*entry)?;
        }
    }
    Ok(())
}

/// The literals by their groups.
fn grouped<'a>(
    alloc: Global,
    pool: &[(&'a [u8], Used)],
) -> Result<Vec<(&'a [u8], Used)>, AllocError>
    ensures grouped { IfOk result (λ list. by_text list.items ≡ by_groups (by_text pool.now)) }
{
    let mut list = Vec::new(alloc);
    push_group(&mut list, pool, 8)?;
    push_group(&mut list, pool, 4)?;
    push_group(&mut list, pool, 2)?;
    push_group(&mut list, pool, 1)?;
    Ok(list)
}

/// Puts literals after others, one after the other from an offset on.
fn put_all<'a>(
    table: &mut IndexMap<&'a [u8], Literal>,
    list: &[(&'a [u8], Used)],
    offset: u128,
) -> Result<(), AllocError>
    requires offset { offset ≤ bound + 8 }
    requires once { IsDistinct bytes_eq (keys_of (by_text table.old.entries) ++ keys_of (by_text list.now)) }
    ensures { let literals = placed_from offset (by_text list.now) in
        OnOk result (by_text table.new.entries ≡ by_text table.old.entries ++ literals) }
{
    let mut at = offset;
    for entry in list {
        let literal = Literal {
            offset: at,
            user: entry.1.user,
        };
        push_literal(table, entry.0, literal)?;
        at = capped(at + capped(entry.1.size));
    }
    Ok(())
}

impl<'a> Pool<'a> {
    /// What is known of the literal of a text, which is what follows its equals sign; None where the pool has none. It
    /// takes no memory.
    #[tactic(auto, using(crate::proofs::TextLemmas::lookup_by_text))]
    pub fn get(&self, text: &[u8]) -> Option<Literal>
        ensures { result ≡ lookup (bytes_eq text.now) self.now }
    {
        self.literals.get(&text).copied()
    }

    /// How many literals there are. It takes no memory.
    pub fn len(&self) -> usize
        ensures { result ≡ length self.now }
    {
        self.literals.len()
    }

    /// The literal of a number, from 0, in the order of places, with its text; None where there are no more than
    /// `index`. It takes no memory.
    pub fn literal(&self, index: usize) -> Option<(&'a [u8], Literal)>
        ensures { option_map (λ e. (e.0.now, e.1)) result ≡ slice_get self.now index }
    {
        let (text, literal) = self.literals.get_index(index)?;
        Some((*text, *literal))
    }

    #[tactic(auto, using(crate::specs::Facts::Literals::grouped_once))]
    /// The literals of an open pool in their places, one after the other: those whose lengths are multiples of 8, then
    /// of 4, then of 2, then the others, in each group in the order of first use. The first is at `offset`, in bytes,
    /// at most 2^100 + 8.
    ///
    /// An error comes only where an allocation failed.
    pub fn placed(alloc: Global, pool: &OpenPool<'a>, offset: u128) -> Result<Pool<'a>, AllocError>
        requires { offset ≤ bound + 8 }
        ensures { IfOk result (λ placed_pool. placed_pool ≡ closed_pool offset pool.now) }
    {
        let entries = pool.entries(alloc)?;
        let list = grouped(alloc, entries.as_slice())?;
        let mut literals = IndexMap::new(alloc);
        put_all(&mut literals, list.as_slice(), offset)?;
        Ok(Pool { literals })
    }
}
