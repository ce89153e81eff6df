//! The lines that use something, by what they use.
ghost use Rattle.std.specs.Prelude.{◌≡◌, Bool, IfOk, None, OnOk};
ghost use Rattle.std.specs.Map.{IsKeyTest, lookup};
ghost use Rattle.cx_look_xref.specs.Parts.Uses.{lines_for, with_line};

use indexmap::IndexMap;
use std::alloc::{AllocError, Global};
use std::collections::BTreeSet;
use std::hash::Hash;

/// Keeps the first line that uses something.
fn put_first<K: Eq + Hash + Drop>(
    alloc: Global,
    table: &mut IndexMap<K, BTreeSet<usize>>,
    key: K,
    line: usize,
) -> Result<(), AllocError>
    requires { lookup (K.eq key) table.old.entries ≡ None }
    ensures { OnOk result ((test : K → Bool) → IsKeyTest K.eq test
        → lines_for test table.new.entries ≡ with_line (test key) line (lines_for test table.old.entries)) }
{
    let mut lines = BTreeSet::new(alloc);
    lines.insert(line)?;
    table.insert(key, lines)?;
    Ok(())
}

/// Keeps that a line uses something.
#[tactic(auto, using(crate::proofs::UseLemmas::put_there))]
pub(crate) fn put<K: Eq + Hash + Drop>(
    alloc: Global,
    table: &mut IndexMap<K, BTreeSet<usize>>,
    key: K,
    line: usize,
) -> Result<(), AllocError>
    ensures { OnOk result ((test : K → Bool) → IsKeyTest K.eq test
        → lines_for test table.new.entries ≡ with_line (test key) line (lines_for test table.old.entries)) }
{
    match table.get_mut(&key) {
        Some(lines) => {
            lines.insert(line)?;
            Ok(())
        }
        None => put_first(alloc, table, key, line),
    }
}

/// The lines of a set, ascending.
fn listed(alloc: Global, lines: &BTreeSet<usize>) -> Result<Vec<usize>, AllocError>
    ensures { IfOk result (λ list. list.items ≡ lines.now.keys) }
{
    let mut list = Vec::new(alloc);
    for line in lines.iter() {
        list.push(*line)?;
    }
    Ok(list)
}

/// The lines that use something, ascending, each once.
pub(crate) fn lines_for<K: Eq + Hash>(
    alloc: Global,
    table: &IndexMap<K, BTreeSet<usize>>,
    key: &K,
) -> Result<Vec<usize>, AllocError>
    ensures { IfOk result (λ lines. lines.items ≡ lines_for (K.eq key.now) table.now.entries) }
{
    match table.get(key) {
        Some(lines) => listed(alloc, lines),
        None => Ok(Vec::new(alloc)),
    }
}
