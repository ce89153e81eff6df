//! Bytes that are stored one after the other, and addresses that go on at 0 after the last.

ghost use Rattle.std.specs.Prelude.{◌≡◌, ◌<◌, ◌≤◌, ◌^◌, is_some};
ghost use Rattle.cx_storage.specs.Storage.{span};
ghost use Rattle.cx_storage.specs.Address.{distance};
ghost use Rattle.cx_exec.specs.Sequence.{content_at, byte_seen};

use cx_storage::{Store, address_in};

/// How many bytes after `a` the address `x` comes (both below 2^24).
pub(crate) fn distance(a: u32, x: u32) -> u32
    requires first { a < 2 ^ 24 }
    requires second { x < 2 ^ 24 }
    ensures { result ≡ distance a x }
{
    address_in(x + (0x100_0000 - a))
}

/// The byte at an address (below 2^24), or 0 where it is absent.
pub(crate) fn content_at<S: Store>(store: &S, a: u32) -> u8
    requires { a < 2 ^ 24 }
    ensures { result ≡ content_at (S.storage store.now) a }
{
    store.byte(a).unwrap_or(0)
}

/// Whether each of the `n` bytes (at most 65,536) from an address (below 2^24) on is present: at once where they are
/// lent.
#[inline(always)]
pub(crate) fn is_present<S: Store>(store: &S, a: u32, n: u32) -> bool
    requires address { a < 2 ^ 24 }
    requires count { n ≤ 65536 }
    ensures { result ≡ is_some (span (S.storage store.now) a n) }
{
    store.slice(a, n as usize).is_some() || store.has_span(a, n as usize)
}

/// The byte seen at `x` (below 2^24), the address of the `number`-th byte to be stored, once some are stored: theirs,
/// else storage's.
#[tactic(auto, unfolding(crate::specs::Sequence::byte_seen))]
pub(crate) fn seen<S: Store>(store: &S, stored: &[u8], number: u32, x: u32) -> u8
    requires { x < 2 ^ 24 }
    ensures { result ≡ byte_seen (S.storage store.now) stored.now number x }
{
    let number = number as usize;
    if number < stored.len() {
        stored[number]
    } else {
        content_at(store, x)
    }
}
