//! The bytes of an area, read off a store.
ghost use Rattle.std.specs.Prelude.{◌≡◌, ◌↔◌, ◌+◌, ◌≤◌, ◌<◌, ◌%◌, ◌^◌, IsTrue, Some, IfOk, length};
ghost use Rattle.cx_storage.specs.Storage.{area_at, span, end_of};
ghost use Rattle.cx_storage_snapshot.specs.Parts.Copies.{IsCopyOf};

use crate::area::AreaCopy;
use cx_storage::laws::{area_is_present, store_is_sound, together_is_present};
use cx_storage::{Area, Store};
use std::alloc::{AllocError, Global};
use std::rc::Rc;

/// How many bytes from `at` on lie before the end of their block of 4,096 bytes and before `end`.
pub(crate) fn piece(at: u32, end: u32) -> usize
    requires { at < end }
    ensures above_0 { 0 < result }
    ensures within { at + result ≤ end }
    ensures together { at % 4096 + result ≤ 4096 }
{
    (end - at).min(4096 - at % 4096) as usize
}

/// The piece of an area from `at` on that a store lends at once.
fn part_at<'a, S: Store>(store: &'a S, area: Area, at: u32) -> &'a [u8]
    requires there { area_at (S.storage store.now) area.start ≡ Some area }
    requires low { area.start ≤ at }
    requires high { at < end_of area }
    ensures nonempty { 0 < length result.now }
    ensures within { at + length result.now ≤ end_of area }
    ensures bytes { span (S.storage store.now) at (length result.now) ≡ Some result.now }
{
    area_is_present();
    store_is_sound(store);
    together_is_present();
    store.slice(at, piece(at, area.start + area.len)).unwrap()
}

/// The bytes of an area.
fn bytes_of<S: Store>(alloc: Global, store: &S, area: Area) -> Result<Vec<u8>, AllocError>
    requires there { area_at (S.storage store.now) area.start ≡ Some area }
    ensures { IfOk result (λ bytes. span (S.storage store.now) area.start area.len ≡ Some bytes.items) }
{
    area_is_present();
    store_is_sound(store);
    let mut bytes = Vec::with_capacity(alloc, area.len as usize)?;
    let mut at = area.start;
    while at < area.start + area.len {
        let part = part_at(store, area, at);
        bytes.extend_from_slice(part)?;
        at += part.len() as u32;
    }
    Ok(bytes)
}

/// Whether an area has these bytes.
fn has_bytes<S: Store>(store: &S, area: Area, bytes: &[u8]) -> bool
    requires there { area_at (S.storage store.now) area.start ≡ Some area }
    requires size { length bytes.now ≡ area.len }
    ensures { IsTrue result ↔ (span (S.storage store.now) area.start area.len ≡ Some bytes.now) }
{
    area_is_present();
    store_is_sound(store);
    let mut at = area.start;
    while at < area.start + area.len {
        let part = part_at(store, area, at);
        let from = (at - area.start) as usize;
        let is_same = part == &bytes[from..from + part.len()];
        if !is_same {
            return false;
        }
        at += part.len() as u32;
    }
    true
}

/// A copy of an area: the earlier one where it is the same.
pub(crate) fn copy_of<S: Store>(
    alloc: Global,
    store: &S,
    area: Area,
    earlier: Option<&Rc<AreaCopy>>,
) -> Result<Rc<AreaCopy>, AllocError>
    requires { area_at (S.storage store.now) area.start ≡ Some area }
    ensures { IfOk result (λ copy. IsCopyOf (S.storage store.now) area copy.value) }
{
    if let Some(earlier) = earlier {
        if is_unchanged(store, area, earlier) {
            return earlier.clone();
        }
    }
    let bytes = bytes_of(alloc, store, area)?;
    Ok(Rc::new(alloc, AreaCopy::new(area, bytes))?)
}

/// Whether a copy is one of an area as it is now.
#[tactic(auto, using(crate::proofs::CopyLemmas::copy_length))]
fn is_unchanged<S: Store>(store: &S, area: Area, earlier: &AreaCopy) -> bool
    requires { area_at (S.storage store.now) area.start ≡ Some area }
    ensures { IsTrue result ↔ IsCopyOf (S.storage store.now) area earlier.now }
{
    earlier.area() == area
        && earlier.bytes().len() == area.len as usize
        && has_bytes(store, area, earlier.bytes())
}
