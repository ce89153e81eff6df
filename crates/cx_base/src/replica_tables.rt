//! Tables by name, made anew and compared.
ghost use Rattle.std.specs.Prelude.{◌≡◌, ◌↔◌, ◌+◌, ◌<◌, IsTrue, IfOk, OnOk, length, take, slice_get};
ghost use Rattle.std.specs.List.{IsDistinct};
ghost use Rattle.std.specs.Map.{keys_of};

use crate::replica::{Replica, Same};
use indexmap::IndexMap;
use std::alloc::{AllocError, Global};
use std::hash::Hash;

/// A table with equal entries in the same order, of a table in which no name stands twice. An error comes only where an
/// allocation failed.
pub fn replica_of_table<K: Copy + Eq + Hash + Drop, V: Replica>(
    alloc: Global,
    table: &IndexMap<K, V>,
) -> Result<IndexMap<K, V>, AllocError>
    requires { IsDistinct K.eq (keys_of table.now.entries) }
    ensures { IfOk result (λ copy. copy.entries ≡ table.now.entries) }
{
    let mut copy = IndexMap::with_capacity(alloc, table.len())?;
    for i in 0..table.len() {
        put_entry(alloc, &mut copy, table, i)?;
    }
    Ok(copy)
}

/// Puts one more entry of a table into its copy.
fn put_entry<K: Copy + Eq + Hash + Drop, V: Replica>(
    alloc: Global,
    copy: &mut IndexMap<K, V>,
    table: &IndexMap<K, V>,
    i: usize,
) -> Result<(), AllocError>
    requires distinct { IsDistinct K.eq (keys_of table.now.entries) }
    requires so_far { copy.old.entries ≡ take i table.now.entries }
    requires within { i < length table.now.entries }
    ensures { OnOk result (copy.new.entries ≡ take (i + 1) table.now.entries) }
{
    let (name, value) = table.get_index(i).unwrap();
    let value = value.replica(alloc)?;
    copy.insert(*name, value)?;
    Ok(())
}

/// Whether two tables have equal entries in the same order.
pub fn are_same_tables<K: Same + Eq + Hash + Drop, V: Same + Drop>(
    ones: &IndexMap<K, V>,
    others: &IndexMap<K, V>,
) -> bool
    ensures { IsTrue result ↔ (ones.now.entries ≡ others.now.entries) }
{
    if ones.len() != others.len() {
        return false;
    }
    for i in 0..ones.len() {
        if !is_same_entry(ones, others, i) {
            return false;
        }
    }
    true
}

/// Whether the entries at a place are equal.
fn is_same_entry<K: Same + Eq + Hash + Drop, V: Same + Drop>(
    ones: &IndexMap<K, V>,
    others: &IndexMap<K, V>,
    i: usize,
) -> bool
    requires one { i < length ones.now.entries }
    requires other { i < length others.now.entries }
    ensures { IsTrue result ↔ (slice_get ones.now.entries i ≡ slice_get others.now.entries i) }
{
    let (name, value) = ones.get_index(i).unwrap();
    let (other_name, other) = others.get_index(i).unwrap();
    name.is_same(other_name) && value.is_same(other)
}
