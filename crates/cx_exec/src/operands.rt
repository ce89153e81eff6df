//! Operands in storage and in pairs of registers.

ghost use Rattle.std.specs.Prelude.{◌≡◌, ◌<◌, ◌≤◌, ◌^◌, ◌%◌, ◌==◌, length, replicate, is_some, true, false, Ok, Some, None, IfSome, MatchResult};
ghost use Rattle.byteorder.specs.Endian.{big_bytes};
ghost use Rattle.cx_storage.specs.Storage.{byte_at, span};
ghost use Rattle.cx_storage.specs.Word.{halfword_at, word_at};
ghost use Rattle.cx_exec.specs.declared.machine.Interruption.TheVariants as interruption;
ghost use Rattle.cx_exec.specs.Machine.{machine};
ghost use Rattle.cx_exec.specs.Operands.{extended_at, Stores};
ghost use Rattle.cx_exec.specs.Parts.{IsPresentOperand};

use crate::machine::{Interruption, Performed, Updated};
use crate::numbers::extended;
use byteorder::{BigEndian, ByteOrder};
use cx_code::Cpu;
use cx_storage::Store;

/// The byte at an address, or interruption 5.
#[inline(always)]
pub(crate) fn byte_at<S: Store>(store: &S, a: u32) -> Result<u8, Interruption>
    requires { a < 2 ^ 24 }
    ensures { IsPresentOperand (byte_at (S.storage store.now) a) result }
{
    store.byte(a).ok_or(Interruption::Addressing)
}

/// The halfword at an address, where its bytes are lent in one piece.
#[tactic(auto, using(cx_storage::specs::Facts::Spans::span_length), unfolding(cx_storage::specs::Word::halfword_at))]
#[inline(always)]
pub(crate) fn lent_halfword<S: Store>(store: &S, a: u32) -> Option<u16>
    requires { a < 2 ^ 24 }
    ensures { IfSome result (λ x. halfword_at (S.storage store.now) a ≡ Some x) }
{
    let part = store.slice(a, 2)?;
    Some(BigEndian::read_u16(part))
}

/// The halfword at an address, extended to a word by its sign, or interruption 5, wherever its bytes lie.
#[tactic(auto, unfolding(crate::specs::Operands::extended_at))]
#[cold]
#[inline(never)]
pub(crate) fn halfword_slow<S: Store>(store: &S, a: u32) -> Result<u32, Interruption>
    requires { a < 2 ^ 24 }
    ensures { IsPresentOperand (extended_at (S.storage store.now) a) result }
{
    match cx_storage::halfword_at(store, a) {
        Some(halfword) => Ok(extended(halfword)),
        None => Err(Interruption::Addressing),
    }
}

/// The word at an address, where its bytes are lent in one piece.
#[tactic(auto, using(cx_storage::specs::Facts::Spans::span_length), unfolding(cx_storage::specs::Word::word_at))]
#[inline(always)]
pub(crate) fn lent_word<S: Store>(store: &S, a: u32) -> Option<u32>
    requires { a < 2 ^ 24 }
    ensures { IfSome result (λ x. word_at (S.storage store.now) a ≡ Some x) }
{
    let part = store.slice(a, 4)?;
    Some(BigEndian::read_u32(part))
}

/// The word at an address, or interruption 5, wherever its bytes lie.
#[cold]
#[inline(never)]
pub(crate) fn word_slow<S: Store>(store: &S, a: u32) -> Result<u32, Interruption>
    requires { a < 2 ^ 24 }
    ensures { IsPresentOperand (word_at (S.storage store.now) a) result }
{
    cx_storage::word_at(store, a).ok_or(Interruption::Addressing)
}

/// The word at an address, or interruption 5.
#[inline(always)]
pub(crate) fn word_at<S: Store>(store: &S, a: u32) -> Result<u32, Interruption>
    requires { a < 2 ^ 24 }
    ensures { IsPresentOperand (word_at (S.storage store.now) a) result }
{
    match lent_word(store, a) {
        Some(word) => Ok(word),
        None => word_slow(store, a),
    }
}

/// The same bytes, as many as is said, so that code is made for that many where it is known.
#[tactic(auto, using(std::proofs::lemmas::List::take_all))]
#[inline(always)]
pub(crate) fn of_length(bytes: &[u8], n: usize) -> &[u8]
    requires { length bytes.now ≡ n }
    ensures { result.now ≡ bytes.now }
{
    &bytes[..n]
}

/// The first register of a pair, which is even, or interruption 6.
pub(crate) fn even(r: u8) -> Result<u8, Interruption>
    ensures { let even = r % 2 == 0 in
        MatchResult result (λ x. (x ≡ r) × (even ≡ true))
        (λ cause. (even ≡ false) × (cause ≡ interruption.Specification)) }
{
    if r % 2 == 0 {
        Ok(r)
    } else {
        Err(Interruption::Specification)
    }
}

/// Stores bytes, at most 65,536, from an address on, where they are at hand; else nothing changes.
#[tactic(auto, unfolding(crate::specs::Operands::Stores))]
#[inline(always)]
pub(crate) fn put_fast<S: Store>(
    cpu: &mut Cpu,
    store: &mut S,
    a: u32,
    bytes: &[u8],
    updated: Updated,
) -> bool
    requires operand { a < 2 ^ 24 }
    requires size { length bytes.now ≤ 65536 }
    ensures done { let before = machine cpu.old (S.storage store.old) in
        let after = machine cpu.new (S.storage store.new) in
        result ≡ true → Stores a bytes.now cpu.old.cc updated before (Ok tt) after }
    ensures same { result ≡ false → machine cpu.new (S.storage store.new) ≡ machine cpu.old (S.storage store.old) }
{
    if !store.write_fast(a, bytes) {
        return false;
    }
    cpu.next = updated.address;
    true
}

/// Stores bytes likewise, and sets the condition code where they are stored.
#[tactic(auto, unfolding(crate::specs::Operands::Stores))]
#[inline(always)]
pub(crate) fn put_coded_at_hand<S: Store>(
    cpu: &mut Cpu,
    store: &mut S,
    a: u32,
    bytes: &[u8],
    cc: u8,
    updated: Updated,
) -> bool
    requires operand { a < 2 ^ 24 }
    requires size { length bytes.now ≤ 65536 }
    requires code { cc ≤ 3 }
    ensures done { let before = machine cpu.old (S.storage store.old) in
        let after = machine cpu.new (S.storage store.new) in
        result ≡ true → Stores a bytes.now cc updated before (Ok tt) after }
    ensures same { result ≡ false → machine cpu.new (S.storage store.new) ≡ machine cpu.old (S.storage store.old) }
{
    if !store.write_fast(a, bytes) {
        return false;
    }
    cpu.cc = cc;
    cpu.next = updated.address;
    true
}

/// Stores a byte `n` times, at most 65,536, from an address on, where they are at hand, and sets the condition code;
/// else nothing changes.
#[tactic(auto, unfolding(crate::specs::Operands::Stores))]
#[inline(always)]
pub(crate) fn fill_fast<S: Store>(
    cpu: &mut Cpu,
    store: &mut S,
    a: u32,
    n: usize,
    byte: u8,
    cc: u8,
    updated: Updated,
) -> bool
    requires operand { a < 2 ^ 24 }
    requires size { n ≤ 65536 }
    requires code { cc ≤ 3 }
    ensures present { result ≡ true → is_some (span (S.storage store.old) a n) ≡ true }
    ensures done { let before = machine cpu.old (S.storage store.old) in
        let after = machine cpu.new (S.storage store.new) in
        result ≡ true → Stores a (replicate n byte) cc updated before (Ok tt) after }
    ensures same { result ≡ false → machine cpu.new (S.storage store.new) ≡ machine cpu.old (S.storage store.old) }
{
    if !store.fill_fast(a, n, byte) {
        return false;
    }
    cpu.cc = cc;
    cpu.next = updated.address;
    true
}

/// Stores bytes, at most 65,536, from an address on: all of them, or nothing and interruption 5.
#[tactic(auto, using(crate::proofs::Storing::not_written), unfolding(crate::specs::Operands::Stores))]
#[inline(always)]
pub(crate) fn put_bytes<S: Store>(
    cpu: &mut Cpu,
    store: &mut S,
    a: u32,
    bytes: &[u8],
    updated: Updated,
) -> Performed
    requires operand { a < 2 ^ 24 }
    requires size { length bytes.now ≤ 65536 }
    ensures { let before = machine cpu.old (S.storage store.old) in let after = machine cpu.new (S.storage store.new) in
        Stores a bytes.now cpu.old.cc updated before result after }
{
    if !store.write(a, bytes) {
        return Err(Interruption::Addressing);
    }
    cpu.next = updated.address;
    Ok(())
}

/// Stores bytes likewise, and sets the condition code where they are stored.
#[tactic(auto, using(crate::proofs::Storing::not_written), unfolding(crate::specs::Operands::Stores))]
#[inline(always)]
pub(crate) fn put_coded<S: Store>(
    cpu: &mut Cpu,
    store: &mut S,
    a: u32,
    bytes: &[u8],
    cc: u8,
    updated: Updated,
) -> Performed
    requires operand { a < 2 ^ 24 }
    requires size { length bytes.now ≤ 65536 }
    requires code { cc ≤ 3 }
    ensures { let before = machine cpu.old (S.storage store.old) in let after = machine cpu.new (S.storage store.new) in
        Stores a bytes.now cc updated before result after }
{
    put_bytes(cpu, store, a, bytes, updated)?;
    cpu.cc = cc;
    Ok(())
}

/// Stores a few bytes likewise, and sets the condition code where they are stored, wherever they lie.
#[cold]
#[inline(never)]
pub(crate) fn put_apart<S: Store, const N: usize>(
    cpu: &mut Cpu,
    store: &mut S,
    a: u32,
    bytes: [u8; N],
    cc: u8,
    updated: Updated,
) -> Performed
    requires operand { a < 2 ^ 24 }
    requires size { N ≤ 65536 }
    requires code { cc ≤ 3 }
    ensures { let before = machine cpu.old (S.storage store.old) in let after = machine cpu.new (S.storage store.new) in
        Stores a bytes.entry cc updated before result after }
{
    put_coded(cpu, store, a, &bytes, cc, updated)
}

/// Stores a few bytes likewise.
#[tactic(auto, using(crate::proofs::Storing::stored_as_before))]
#[inline(always)]
pub(crate) fn put_few<S: Store, const N: usize>(
    cpu: &mut Cpu,
    store: &mut S,
    a: u32,
    bytes: [u8; N],
    updated: Updated,
) -> Performed
    requires operand { a < 2 ^ 24 }
    requires size { N ≤ 65536 }
    ensures { let before = machine cpu.old (S.storage store.old) in let after = machine cpu.new (S.storage store.new) in
        Stores a bytes.entry cpu.old.cc updated before result after }
{
    if put_fast(cpu, store, a, &bytes, updated) {
        return Ok(());
    }
    let cc = cpu.cc;
    put_apart(cpu, store, a, bytes, cc, updated)
}
