//! Rows whose second operand is a word in storage, or a halfword extended to one.

ghost use Rattle.std.specs.Prelude.{◌≡◌, ◌<◌, ◌^◌, true, Some, IfSome};
ghost use Rattle.cx_exec.specs.Machine.{machine};
ghost use Rattle.cx_exec.specs.Rows.{RxEffect};
ghost use Rattle.cx_exec.specs.Parts.{IsPresentOperand, takes_second, second_at};

use crate::arithmetic::{difference, put_sum, sum};
use crate::comparison::{logical_order, signed_order};
use crate::machine::{Interruption, Performed, Updated};
use crate::numbers::extended;
use crate::operands::{halfword_slow, lent_halfword, lent_word, word_slow};
use crate::results::{load, set_code};
use cx_code::{Cpu, Op};
use cx_storage::Store;

/// A row, and its register, which is below 16.
#[derive(Clone, Copy)]
pub struct Row {
    pub op: Op,
    pub r1: u8,
    pub ghost low: { r1 < 16 },
}

/// A second operand: its address, and the word that it is.
#[derive(Clone, Copy)]
pub struct Second {
    pub a: u32,
    pub word: u32,
}

/// The effect of a row, of the word that its second operand is.
#[tactic(auto, unfolding(crate::specs::Rows::RxEffect))]
#[inline(always)]
fn with_second<S: Store>(
    cpu: &mut Cpu,
    _store: &S,
    row: Row,
    second: Second,
    updated: Updated,
) -> Performed
    requires rows { takes_second row.op ≡ true }
    requires second { second_at row.op (S.storage _store.now) second.a ≡ Some second.word }
    ensures { let before = machine cpu.old (S.storage _store.now) in
        let after = machine cpu.new (S.storage _store.now) in
        RxEffect row.op row.r1 second.a updated before result after }
{
    let first = cpu.regs[row.r1 as usize];
    let word = second.word;
    match row.op {
        Op::L => load(cpu, row.r1, word, updated),
        Op::Lh => load(cpu, row.r1, word, updated),
        Op::Cl => set_code(cpu, logical_order(first, word), updated),
        Op::C => set_code(cpu, signed_order(first, word), updated),
        Op::Ch => set_code(cpu, signed_order(first, word), updated),
        Op::A => put_sum(cpu, row.r1, sum(first, word), updated),
        Op::Ah => put_sum(cpu, row.r1, sum(first, word), updated),
        Op::S => put_sum(cpu, row.r1, difference(first, word), updated),
        Op::Sh => put_sum(cpu, row.r1, difference(first, word), updated),
        // Not reached.
        _ => Err(Interruption::Operation),
    }
}

/// The word that the second operand of a row is, where its bytes are lent in one piece.
#[tactic(auto, unfolding(crate::specs::Operands::extended_at))]
#[inline(always)]
fn lent_second<S: Store>(store: &S, op: Op, a: u32) -> Option<u32>
    requires rows { takes_second op ≡ true }
    requires operand { a < 2 ^ 24 }
    ensures { IfSome result (λ x. second_at op (S.storage store.now) a ≡ Some x) }
{
    match op {
        Op::Lh | Op::Ch | Op::Ah | Op::Sh => Some(extended(lent_halfword(store, a)?)),
        _ => lent_word(store, a),
    }
}

/// The word that the second operand of a row is, or interruption 5, wherever its bytes lie.
fn second_apart<S: Store>(store: &S, op: Op, a: u32) -> Result<u32, Interruption>
    requires rows { takes_second op ≡ true }
    requires operand { a < 2 ^ 24 }
    ensures { IsPresentOperand (second_at op (S.storage store.now) a) result }
{
    match op {
        Op::Lh | Op::Ch | Op::Ah | Op::Sh => halfword_slow(store, a),
        _ => word_slow(store, a),
    }
}

/// The effect of a row, wherever its second operand's bytes lie.
#[tactic(auto, unfolding(crate::specs::Rows::RxEffect))]
#[cold]
#[inline(never)]
fn second_row_apart<S: Store>(
    cpu: &mut Cpu,
    store: &S,
    row: Row,
    a: u32,
    updated: Updated,
) -> Performed
    requires rows { takes_second row.op ≡ true }
    requires operand { a < 2 ^ 24 }
    ensures { let before = machine cpu.old (S.storage store.now) in let after = machine cpu.new (S.storage store.now) in
        RxEffect row.op row.r1 a updated before result after }
{
    let word = second_apart(store, row.op, a)?;
    with_second(cpu, store, row, Second { a, word }, updated)
}

/// The effect of a row whose second operand is a word, or a halfword extended to one.
#[inline(always)]
pub(crate) fn second_row<S: Store>(
    cpu: &mut Cpu,
    store: &S,
    row: Row,
    a: u32,
    updated: Updated,
) -> Performed
    requires rows { takes_second row.op ≡ true }
    requires operand { a < 2 ^ 24 }
    ensures { let before = machine cpu.old (S.storage store.now) in let after = machine cpu.new (S.storage store.now) in
        RxEffect row.op row.r1 a updated before result after }
{
    match lent_second(store, row.op, a) {
        Some(word) => with_second(cpu, store, row, Second { a, word }, updated),
        None => second_row_apart(cpu, store, row, a, updated),
    }
}
