//! Where two storages differ.
ghost use Rattle.std.specs.Prelude.{◌≡◌, ◌≢◌, ◌↔◌, ◌+◌, ◌^◌, ◌<◌, ◌≤◌, ℕ, IsTrue, IfOk, IfSome, None};
ghost use Rattle.std.specs.List.{AllByRecursion};
ghost use Rattle.cx_storage.specs.Storage.{byte_at};
ghost use Rattle.cx_look_ahead.specs.Rows.{AreRows, row_end};
ghost use Rattle.cx_look_ahead.specs.Parts.Next.{AreSame, MatchNext};

use cx_storage::Store;
use cx_storage::laws::{present_in_areas, store_is_sound};
use std::alloc::{AllocError, Global};

/// The address after the last.
const END: u32 = 0x100_0000;

/// A range of storage: bytes at addresses that follow each other.
#[derive(Clone, Copy, Debug, PartialEq, Eq)]
pub struct Row {
    /// The address of the first.
    pub at: u32,
    /// How many there are.
    pub length: u32,
}

/// Whether two stores have the same byte at an address, or both none.
fn is_same_at<S: Store>(before: &S, after: &S, at: u32) -> bool
    requires { at < 2 ^ 24 }
    ensures { IsTrue result ↔ (byte_at (S.storage before.now) at ≡ byte_at (S.storage after.now) at) }
{
    before.byte(at) == after.byte(at)
}

/// An address from which on a store may have bytes: it has none from `from` up to it.
#[tactic(auto, using(crate::proofs::GapLemmas::no_byte_before_next))]
fn next_present<S: Store>(store: &S, from: u32) -> u32
    requires { from ≤ 2 ^ 24 }
    ensures low { from ≤ result }
    ensures high { result ≤ 2 ^ 24 }
    ensures none { (a : ℕ) → from ≤ a → a < result → byte_at (S.storage store.now) a ≡ None }
{
    store_is_sound(store);
    if from == END || store.byte(from).is_some() {
        return from;
    }
    match store.next_area(from) {
        Some(area) => area.start,
        None => END,
    }
}

/// An address from which on one of two stores may have bytes: up to it neither has any.
fn next_place<S: Store>(before: &S, after: &S, from: u32) -> u32
    requires { from ≤ 2 ^ 24 }
    ensures low { from ≤ result }
    ensures high { result ≤ 2 ^ 24 }
    ensures same { AreSame (S.storage before.now) (S.storage after.now) from result }
{
    next_present(before, from).min(next_present(after, from))
}

/// The first address from `from` on at which the bytes differ; 2^24 where there is none.
fn next_change<S: Store>(before: &S, after: &S, from: u32) -> u32
    requires { from ≤ 2 ^ 24 }
    ensures low { from ≤ result }
    ensures high { result ≤ 2 ^ 24 }
    ensures same { AreSame (S.storage before.now) (S.storage after.now) from result }
    ensures differs { result < 2 ^ 24
        → byte_at (S.storage before.now) result ≢ byte_at (S.storage after.now) result }
{
    let mut at = from;
    while at < END {
        if !is_same_at(before, after, at) {
            return at;
        }
        at = next_place(before, after, at + 1);
    }
    at
}

/// The first address after `from`, at which the bytes differ, at which they don't.
fn end_of_row<S: Store>(before: &S, after: &S, from: u32) -> u32
    requires within { from < 2 ^ 24 }
    requires differs { byte_at (S.storage before.now) from ≢ byte_at (S.storage after.now) from }
    ensures low { from < result }
    ensures high { result ≤ 2 ^ 24 }
    ensures differ { (a : ℕ) → from ≤ a → a < result
        → byte_at (S.storage before.now) a ≢ byte_at (S.storage after.now) a }
    ensures ends { byte_at (S.storage before.now) result ≡ byte_at (S.storage after.now) result }
{
    store_is_sound(before);
    store_is_sound(after);
    present_in_areas();
    let mut at = from + 1;
    while at < END && !is_same_at(before, after, at) {
        at += 1;
    }
    at
}

/// The first row of bytes that differ from an address on.
fn next_row<S: Store>(before: &S, after: &S, from: u32) -> Option<Row>
    requires { from ≤ 2 ^ 24 }
    ensures next { MatchNext (S.storage before.now) (S.storage after.now) from result }
    ensures high { IfSome result (λ row. row_end row ≤ 2 ^ 24) }
{
    store_is_sound(before);
    store_is_sound(after);
    present_in_areas();
    let at = next_change(before, after, from);
    if at == END {
        return None;
    }
    let end = end_of_row(before, after, at);
    Some(Row {
        at,
        length: end - at,
    })
}

/// All rows of bytes that differ between two stores, the lowest first: each is as long as it can be. A byte that only
/// one of them has differs. No row goes beyond X'FFFFFF'.
///
/// An error comes only where memory for the list was refused.
pub fn rows_between<S: Store>(alloc: Global, before: &S, after: &S) -> Result<Vec<Row>, AllocError>
    ensures rows { IfOk result (λ rows. AreRows (S.storage before.now) (S.storage after.now) 0 rows.items) }
    ensures high { IfOk result (λ rows. AllByRecursion (λ row. row_end row ≤ 2 ^ 24) rows.items) }
{
    let mut rows = Vec::new(alloc);
    let mut from = 0;
    while let Some(row) = next_row(before, after, from) {
        rows.push(row)?;
        from = row.at + row.length;
    }
    Ok(rows)
}
