//! A pool that takes literals.

ghost use Rattle.std.specs.Prelude.{◌≡◌, ◌≤◌, ◌+◌, [], ◌∷◌, ◌++◌, IsOk, OnOk, OnErr, IfOk, map, option_map, sum_by};
ghost use Rattle.std.specs.List.{IsDistinct};
ghost use Rattle.std.specs.Map.{keys_of, lookup};
ghost use Rattle.std.specs.Str.{bytes_eq};
ghost use Rattle.cx_asm_pools.specs.Pools.{UsesFirst, cap, literal_text, literal_constant_fault, pool_extent, pool_size, with_literal, with_part, with_parts, by_text};
ghost use Rattle.cx_asm_expressions.specs.Digits.{bound};
ghost use Rattle.cx_asm_expressions.specs.Faults.{lowest};

use crate::texts::push_used;
use cx_asm_expressions::{Constant, FaultKind, lower};
use indexmap::IndexMap;
use std::alloc::{AllocError, Global};
use std::marker::Model;

/// No place and no length goes beyond this one: 2^100.
pub(crate) const BOUND: u128 = 0x10_0000_0000_0000_0000_0000_0000;

/// A place or a length, in bytes; 2^100 + 1 where it is above 2^100, the bound of all numbers. It takes no memory.
pub fn capped(number: u128) -> u128
    ensures capped { result ≡ cap number }
    ensures bound { result ≤ bound + 1 }
{
    if number <= BOUND { number } else { BOUND + 1 }
}

/// What is known of a literal while its pool is open.
#[derive(Clone, Copy)]
pub struct Used {
    /// How many bytes it has: all its copies.
    pub size: u128,
    /// The number of the statement that uses it first, from 0.
    pub user: usize,
}

/// A pool that takes literals: each text once, in order of first use (GC33-4010, "Literal Pool").
#[derive(Drop)]
pub struct OpenPool<'a> {
    literals: IndexMap<&'a [u8], Used>,
    size: u128,
}

impl<'a> Model for OpenPool<'a> {
    ghost use Rattle.cx_asm_pools.specs.Parts.Texts.{IsOpen};
    ghost use Rattle.cx_asm_pools.specs.Pools.{OpenLiterals, by_text};

    ghost Value = { OpenLiterals };

    ghost view = { λ pool. by_text pool.literals.entries };

    ghost invariant = { λ pool. IsOpen pool.size (by_text pool.literals.entries) };
}

/// The text of a literal, which is what follows its equals sign; None where an operand doesn't begin with one. It takes
/// no memory.
pub fn literal_text(part: &[u8]) -> Option<&[u8]>
    ensures { option_map (λ text. text.now) result ≡ literal_text part.now }
{
    if part.is_empty() || part[0] != b'=' {
        return None;
    }
    let (_, text) = part.split_at(1);
    Some(text)
}

/// What is wrong with an operand that is a literal, if it is one.
fn literal_constant_fault(part: &[u8]) -> Option<FaultKind>
    ensures { result ≡ literal_constant_fault part.now }
{
    let text = literal_text(part)?;
    match Constant::read(text, false) {
        Ok(_) => None,
        Err(fault) => Some(fault),
    }
}

impl<'a> OpenPool<'a> {
    #[tactic(auto, using(crate::proofs::SizeLemmas::none_open))]
    /// A pool without literals. It takes no memory.
    pub fn new(alloc: Global) -> OpenPool<'a>
        ensures { result ≡ [] }
    {
        OpenPool {
            literals: IndexMap::new(alloc),
            size: 0,
        }
    }

    #[tactic(auto, using(crate::proofs::SizeLemmas::none_open))]
    /// Takes all literals out. It takes no memory.
    pub fn clear(&mut self)
        ensures { self.new ≡ [] }
    {
        self.literals.clear();
        self.size = 0;
    }

    /// How many bytes its literals have together, 2^100 + 1 where that is above 2^100; None where there is no literal.
    /// It takes no memory.
    pub fn extent(&self) -> Option<u128>
        ensures { result ≡ pool_extent self.now }
    {
        if self.literals.is_empty() {
            None
        } else {
            Some(self.size)
        }
    }

    /// Its literals with their texts, in order of first use.
    pub(crate) fn entries(&self, alloc: Global) -> Result<Vec<(&'a [u8], Used)>, AllocError>
        ensures entries { IfOk result (λ list. by_text list.items ≡ self.now) }
        ensures once { IsDistinct bytes_eq (keys_of self.now) }
    {
        let mut list = Vec::new(alloc);
        for i in 0..self.literals.len() {
            let Some((text, used)) = self.literals.get_index(i) else {
                return Ok(list);
            };
            list.push((*text, *used))?;
        }
        Ok(list)
    }

    /// What is known of a text, if it is pooled.
    #[tactic(auto, using(crate::proofs::TextLemmas::lookup_by_text))]
    fn find(&self, text: &'a [u8]) -> Option<Used>
        ensures { result ≡ lookup (bytes_eq text.now) self.now }
    {
        self.literals.get(&text).copied()
    }

    /// Puts a literal after the others, unless its text is pooled already.
    #[tactic(auto, using(crate::proofs::PartLemmas::put_new))]
    fn put(&mut self, text: &'a [u8], used: Used) -> Result<(), AllocError>
        ensures put { OnOk result (self.new ≡ with_literal self.old text.now used) }
        ensures err { OnErr result (self.new ≡ self.old) }
        ensures known { with_literal self.old text.now used ≡ self.old → IsOk result }
    {
        if self.find(text).is_none() {
            push_used(&mut self.literals, text, used)?;
            self.size = capped(self.size + capped(used.size));
        }
        Ok(())
    }

    /// Puts an operand in that is a literal.
    fn use_part(&mut self, part: &'a [u8], user: usize) -> Result<(), AllocError>
        ensures used { OnOk result (self.new ≡ with_part user self.old part.now) }
        ensures err { OnErr result (self.new ≡ self.old) }
        ensures known { with_part user self.old part.now ≡ self.old → IsOk result }
    {
        let Some(text) = literal_text(part) else {
            return Ok(());
        };
        let Ok(constant) = Constant::read(text, false) else {
            return Ok(());
        };
        let used = Used {
            size: constant.size(),
            user,
        };
        self.put(text, used)
    }

    #[tactic(auto, using(cx_asm_expressions::specs::Facts::Faults::lower_in_turn))]
    /// Puts the literals among the operands of an instruction in, in turn, and answers the lowest of their faults, if
    /// there is any; `user` is the number of the statement. A faulty literal isn't put in.
    ///
    /// An error comes only where an allocation failed; then those of the first operands are in, perhaps none. Where
    /// none of them puts a literal in it takes no memory.
    pub fn use_parts(
        &mut self,
        parts: &[&'a [u8]],
        user: usize,
    ) -> Result<Option<FaultKind>, AllocError>
        ensures used { OnOk result (self.new ≡ with_parts user self.old (map (λ part. part.now) parts.now)) }
        ensures fault { IfOk result (λ fault.
            fault ≡ lowest (map literal_constant_fault (map (λ part. part.now) parts.now))) }
        ensures err { OnErr result (UsesFirst user (map (λ part. part.now) parts.now) self.old self.new) }
        ensures known { with_parts user self.old (map (λ part. part.now) parts.now) ≡ self.old → IsOk result }
    {
        let mut fault = None;
        for part in parts {
            fault = lower(fault, literal_constant_fault(part));
            self.use_part(part, user)?;
        }
        Ok(fault)
    }
}
