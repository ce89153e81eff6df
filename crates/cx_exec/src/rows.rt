//! The effect of each instruction.

ghost use Rattle.std.specs.Prelude.{◌≡◌, ◌<◌, ◌≤◌, ◌^◌, ◌+◌, ◌/◌, ◌%◌, true, false, slice_index, unwrap_or, IfSome};
ghost use Rattle.byteorder.specs.Endian.{big_from};
ghost use Rattle.cx_code.specs.declared.table.Format.TheVariants as format;
ghost use Rattle.cx_code.specs.Table.{format_of, length_of, stores};
ghost use Rattle.cx_code.specs.Spelling.{instruction};
ghost use Rattle.cx_code.specs.Reading.{left_half, right_half, base_at, displacement_at, fields_at};
ghost use Rattle.cx_exec.specs.Machine.{machine};
ghost use Rattle.cx_exec.specs.Machine.{address_part, effective};
ghost use Rattle.cx_exec.specs.Step.{is_execute};
ghost use Rattle.cx_exec.specs.Rows.{Effect};
ghost use Rattle.cx_exec.specs.Parts.{updated_at, has_word, has_word_result, has_half, has_address};

use crate::addresses::Addresses;
use crate::arithmetic::{complement, difference, put_sum, sum};
use crate::branches::{branch, branch_address, count, go_on, link, selects};
use crate::comparison::{byte_order, clc, logical_order, signed_order};
use crate::decimal::{cvb, cvd};
use crate::division::divide;
use crate::loads::inserted;
use crate::logic::{logical_code, put_logical, test_code};
use crate::machine::{Interruption, Performed, Updated};
use crate::masks::{Masked, icm, stcm};
use crate::multiplication::multiply;
use crate::numbers::sign_code;
use crate::operands::{byte_at, even, put_few, word_at};
use crate::places::Place;
use crate::prefix::Prefix;
use crate::registers::{Range, load_multiple, store_multiple};
use crate::results::{load, load_coded, set_code};
use crate::shifts::{shift_left, shift_pair, shift_right, shifted_left, shifted_right};
use crate::strings::{mvc, xc};
use crate::translation::{tr, trt};
use crate::words::{Row, second_row};
use crate::zoned::{pack, unpk};
use cx_code::{Cpu, Op};
use cx_storage::{Store, address_after};

/// An address and what a register gives to it: register 0 gives zero.
#[inline(always)]
fn with_part(regs: &[u32; 16], r: usize, a: u32) -> u32
    requires { r < 16 }
    ensures { result ≡ (a + address_part regs.now r) % 2 ^ 32 }
{
    if r == 0 {
        return a;
    }
    a.wrapping_add(regs[r])
}

/// The effective address of base, index and displacement.
///
/// Principles of Operation, "Address Generation".
#[tactic(auto, unfolding(crate::specs::Machine::effective))]
pub(crate) fn effective(regs: &[u32; 16], index: u8, base: usize, displacement: u32) -> u32
    requires index { index < 16 }
    requires base { base < 16 }
    requires displacement { displacement < 4096 }
    ensures value { result ≡ effective regs.now index base displacement }
    ensures below_2_24 { result < 2 ^ 24 }
{
    let a = with_part(regs, base, displacement);
    with_part(regs, index as usize, a) % 0x100_0000
}

/// The operands of format RR: two registers, with what they hold.
#[derive(Clone, Copy)]
pub struct Registers {
    pub r1: u8,
    pub r2: u8,
    pub first: u32,
    pub second: u32,
    pub updated: Updated,
}

/// The operands of format RR.
#[inline(always)]
fn registers_of(cpu: &Cpu, prefix: &Prefix, place: Place) -> Registers
    ensures r1 { result.r1 ≡ left_half prefix.now }
    ensures r2 { result.r2 ≡ right_half prefix.now }
    ensures low1 { result.r1 < 16 }
    ensures low2 { result.r2 < 16 }
    ensures first { result.first ≡ slice_index cpu.now.regs result.r1 }
    ensures second { result.second ≡ slice_index cpu.now.regs result.r2 }
    ensures updated { result.updated ≡ updated_at place 2 }
{
    let second = prefix.second();
    let (r1, r2) = (second >> 4, second & 15);
    Registers {
        r1,
        r2,
        first: cpu.regs[r1 as usize],
        second: cpu.regs[r2 as usize],
        updated: place.updated(2),
    }
}

/// The operands of formats RX, RS and SI: an immediate byte, in whose place may be a register, with what it holds, and
/// a second one, each of which may be a mask; and an operand's address.
#[derive(Clone, Copy)]
pub struct Operands {
    pub i2: u8,
    pub r1: u8,
    pub r3: u8,
    pub first: u32,
    pub a: u32,
    pub updated: Updated,
}

/// The operands of formats RX, RS and SI, the address with an index.
#[inline(always)]
fn operands_of(cpu: &Cpu, prefix: &Prefix, index: u8, place: Place) -> Operands
    requires index { index < 16 }
    ensures byte { result.i2 ≡ slice_index prefix.now 1 }
    ensures r1 { result.r1 ≡ left_half prefix.now }
    ensures r3 { result.r3 ≡ right_half prefix.now }
    ensures low1 { result.r1 < 16 }
    ensures low3 { result.r3 < 16 }
    ensures first { result.first ≡ slice_index cpu.now.regs result.r1 }
    ensures operand { result.a ≡ effective cpu.now.regs index (base_at 2 prefix.now) (displacement_at 2 prefix.now) }
    ensures below_2_24 { result.a < 2 ^ 24 }
    ensures updated { result.updated ≡ updated_at place 4 }
{
    let i2 = prefix.second();
    let (r1, r3) = (i2 >> 4, i2 & 15);
    Operands {
        i2,
        r1,
        r3,
        first: cpu.regs[r1 as usize],
        a: effective(
            &cpu.regs,
            index,
            prefix.first_base(),
            prefix.first_displacement(),
        ),
        updated: place.updated(4),
    }
}

/// The operands of format RX.
#[inline(always)]
pub(crate) fn indexed_of(cpu: &Cpu, prefix: &Prefix, place: Place) -> Operands
    ensures r1 { result.r1 ≡ left_half prefix.now }
    ensures low1 { result.r1 < 16 }
    ensures first { result.first ≡ slice_index cpu.now.regs result.r1 }
    ensures operand { let bytes = prefix.now in
        result.a ≡ effective cpu.now.regs (right_half bytes) (base_at 2 bytes) (displacement_at 2 bytes) }
    ensures below_2_24 { result.a < 2 ^ 24 }
    ensures updated { result.updated ≡ updated_at place 4 }
{
    operands_of(cpu, prefix, prefix.second() & 15, place)
}

/// The operands of formats SS: the byte that has one length or two, each less one, and two addresses.
#[derive(Clone, Copy)]
pub struct Strings {
    pub l: u8,
    pub at: Addresses,
    pub updated: Updated,
}

/// The operands of formats SS.
#[inline(always)]
fn strings_of(cpu: &Cpu, prefix: &Prefix, place: Place) -> Strings
    ensures lengths { result.l ≡ slice_index prefix.now 1 }
    ensures first { result.at.a1 ≡ effective cpu.now.regs 0 (base_at 2 prefix.now) (displacement_at 2 prefix.now) }
    ensures second { result.at.a2 ≡ effective cpu.now.regs 0 (base_at 4 prefix.now) (displacement_at 4 prefix.now) }
    ensures updated { result.updated ≡ updated_at place 6 }
{
    Strings {
        l: prefix.second(),
        at: Addresses {
            a1: effective(
                &cpu.regs,
                0,
                prefix.first_base(),
                prefix.first_displacement(),
            ),
            a2: effective(
                &cpu.regs,
                0,
                prefix.second_base(),
                prefix.second_displacement(),
            ),
        },
        updated: place.updated(6),
    }
}

/// The match of a group: each row's effect, of the operands that its arm forms, and a row's that forms its own.
macro_rules! rows {
    ($op:ident, $it:ident = $operands:expr; $($row:ident => $effect:expr,)* $(; $bare:ident => $own:expr,)?) => {
        match $op {
            $(Op::$row => {
                let $it = $operands;
                $effect
            })*
            $(Op::$bare => $own,)?
            // Not reached: no other row is in the group.
            _ => Err(Interruption::Operation),
        }
    };
}

/// The effect of the rows of format RR.
#[tactic(auto, unfolding(crate::specs::Rows::Effect, crate::specs::Rows::RrEffect, cx_code::specs::Reading::fields_at, cx_code::specs::Reading::decoded_fields, cx_code::specs::Table::operation_row, cx_code::specs::Table::is_shift))]
#[inline(always)]
pub(crate) fn register_rows<S: Store>(
    cpu: &mut Cpu,
    store: &mut S,
    op: Op,
    prefix: &Prefix,
    place: Place,
) -> Performed
    requires rows { format_of op ≡ format.Rr }
    ensures effect { Effect (instruction op (fields_at op prefix.now))
        (updated_at place (length_of op))
        (machine cpu.old (S.storage store.old)) result (machine cpu.new (S.storage store.new)) }
    ensures same { S.storage store.new ≡ S.storage store.old }
{
    rows!(op, it = registers_of(cpu, prefix, place);
        Balr => {
            let to = branch_address(&cpu.regs, it.r2, it.updated);
            link(cpu, it.r1, to, it.updated)
        },
        Bctr => {
            let to = branch_address(&cpu.regs, it.r2, it.updated);
            count(cpu, it.r1, to, it.updated)
        },
        Bcr => {
            let to = branch_address(&cpu.regs, it.r2, it.updated);
            branch(cpu, it.r1, to, it.updated)
        },
        Ltr => load_coded(cpu, it.r1, it.second, sign_code(it.second.cast_signed()), it.updated),
        Lcr => put_sum(cpu, it.r1, complement(it.second), it.updated),
        Clr => set_code(cpu, logical_order(it.first, it.second), it.updated),
        Xr => load_coded(cpu, it.r1, it.first ^ it.second, logical_code(it.first ^ it.second), it.updated),
        Lr => load(cpu, it.r1, it.second, it.updated),
        Cr => set_code(cpu, signed_order(it.first, it.second), it.updated),
        Ar => put_sum(cpu, it.r1, sum(it.first, it.second), it.updated),
        Sr => put_sum(cpu, it.r1, difference(it.first, it.second), it.updated),
        Mr => multiply(cpu, even(it.r1)?, it.second, it.updated),
        Dr => divide(cpu, even(it.r1)?, it.second, it.updated),
    )
}

/// The effect of the rows of format RS.
#[tactic(auto, unfolding(crate::specs::Rows::Effect, crate::specs::Rows::RsEffect, cx_code::specs::Reading::fields_at, cx_code::specs::Reading::decoded_fields, cx_code::specs::Table::operation_row, cx_code::specs::Table::is_shift))]
#[inline(always)]
pub(crate) fn register_storage_rows<S: Store>(
    cpu: &mut Cpu,
    store: &mut S,
    op: Op,
    prefix: &Prefix,
    place: Place,
) -> Performed
    requires rows { format_of op ≡ format.Rs }
    ensures effect { Effect (instruction op (fields_at op prefix.now))
        (updated_at place (length_of op))
        (machine cpu.old (S.storage store.old)) result (machine cpu.new (S.storage store.new)) }
    ensures same { stores op ≡ false → S.storage store.new ≡ S.storage store.old }
{
    rows!(op, it = operands_of(cpu, prefix, 0, place);
        Srl => load(cpu, it.r1, shifted_right(it.first, (it.a % 64) as u8), it.updated),
        Sll => load(cpu, it.r1, shifted_left(it.first, (it.a % 64) as u8), it.updated),
        Sra => shift_right(cpu, it.r1, (it.a % 64) as u8, it.updated),
        Sla => shift_left(cpu, it.r1, (it.a % 64) as u8, it.updated),
        Srda => shift_pair(cpu, even(it.r1)?, (it.a % 64) as u8, it.updated),
        Stm => store_multiple(cpu, store, Range { first: it.r1, last: it.r3 }, it.a, it.updated),
        Lm => load_multiple(cpu, store, Range { first: it.r1, last: it.r3 }, it.a, it.updated),
        Stcm => stcm(cpu, store, Masked { r1: it.r1, mask: it.r3 }, it.a, it.updated),
        Icm => icm(cpu, store, Masked { r1: it.r1, mask: it.r3 }, it.a, it.updated),
    )
}

/// The effect of L, CL and C.
#[tactic(auto, unfolding(crate::specs::Rows::Effect, crate::specs::Rows::RxEffect, cx_code::specs::Reading::fields_at, cx_code::specs::Reading::decoded_fields, cx_code::specs::Table::operation_row, cx_code::specs::Table::is_shift))]
#[inline(always)]
pub(crate) fn word_rows<S: Store>(
    cpu: &mut Cpu,
    store: &mut S,
    op: Op,
    prefix: &Prefix,
    place: Place,
) -> Performed
    requires rows { has_word op ≡ true }
    ensures effect { Effect (instruction op (fields_at op prefix.now))
        (updated_at place (length_of op))
        (machine cpu.old (S.storage store.old)) result (machine cpu.new (S.storage store.new)) }
    ensures same { S.storage store.new ≡ S.storage store.old }
{
    rows!(op, it = indexed_of(cpu, prefix, place);
        L => second_row(cpu, store, Row { op: Op::L, r1: it.r1 }, it.a, it.updated),
        Cl => second_row(cpu, store, Row { op: Op::Cl, r1: it.r1 }, it.a, it.updated),
        C => second_row(cpu, store, Row { op: Op::C, r1: it.r1 }, it.a, it.updated),
    )
}

/// The effect of A, S, M and D.
#[tactic(auto, unfolding(crate::specs::Rows::Effect, crate::specs::Rows::RxEffect, cx_code::specs::Reading::fields_at, cx_code::specs::Reading::decoded_fields, cx_code::specs::Table::operation_row, cx_code::specs::Table::is_shift))]
#[inline(always)]
pub(crate) fn word_result_rows<S: Store>(
    cpu: &mut Cpu,
    store: &mut S,
    op: Op,
    prefix: &Prefix,
    place: Place,
) -> Performed
    requires rows { has_word_result op ≡ true }
    ensures effect { Effect (instruction op (fields_at op prefix.now))
        (updated_at place (length_of op))
        (machine cpu.old (S.storage store.old)) result (machine cpu.new (S.storage store.new)) }
    ensures same { S.storage store.new ≡ S.storage store.old }
{
    rows!(op, it = indexed_of(cpu, prefix, place);
        A => second_row(cpu, store, Row { op: Op::A, r1: it.r1 }, it.a, it.updated),
        S => second_row(cpu, store, Row { op: Op::S, r1: it.r1 }, it.a, it.updated),
        M => multiply(cpu, even(it.r1)?, word_at(store, it.a)?, it.updated),
        D => divide(cpu, even(it.r1)?, word_at(store, it.a)?, it.updated),
    )
}

/// The effect of the rows whose second operand is a halfword in storage.
#[tactic(auto, unfolding(crate::specs::Rows::Effect, crate::specs::Rows::RxEffect, cx_code::specs::Reading::fields_at, cx_code::specs::Reading::decoded_fields, cx_code::specs::Table::operation_row, cx_code::specs::Table::is_shift))]
#[inline(always)]
pub(crate) fn half_rows<S: Store>(
    cpu: &mut Cpu,
    store: &mut S,
    op: Op,
    prefix: &Prefix,
    place: Place,
) -> Performed
    requires rows { has_half op ≡ true }
    ensures effect { Effect (instruction op (fields_at op prefix.now))
        (updated_at place (length_of op))
        (machine cpu.old (S.storage store.old)) result (machine cpu.new (S.storage store.new)) }
    ensures same { S.storage store.new ≡ S.storage store.old }
{
    rows!(op, it = indexed_of(cpu, prefix, place);
        Lh => second_row(cpu, store, Row { op: Op::Lh, r1: it.r1 }, it.a, it.updated),
        Ch => second_row(cpu, store, Row { op: Op::Ch, r1: it.r1 }, it.a, it.updated),
        Ah => second_row(cpu, store, Row { op: Op::Ah, r1: it.r1 }, it.a, it.updated),
        Sh => second_row(cpu, store, Row { op: Op::Sh, r1: it.r1 }, it.a, it.updated),
    )
}

/// The effect of the other rows of format RX except EX.
#[tactic(auto, unfolding(crate::specs::Rows::Effect, crate::specs::Rows::RxEffect, cx_code::specs::Reading::fields_at, cx_code::specs::Reading::decoded_fields, cx_code::specs::Table::operation_row, cx_code::specs::Table::is_shift))]
#[inline(always)]
pub(crate) fn indexed_rows<S: Store>(
    cpu: &mut Cpu,
    store: &mut S,
    op: Op,
    prefix: &Prefix,
    place: Place,
) -> Performed
    requires rows { has_address op ≡ true }
    ensures effect { Effect (instruction op (fields_at op prefix.now))
        (updated_at place (length_of op))
        (machine cpu.old (S.storage store.old)) result (machine cpu.new (S.storage store.new)) }
    ensures same { stores op ≡ false → S.storage store.new ≡ S.storage store.old }
{
    rows!(op, it = indexed_of(cpu, prefix, place);
        Sth => put_few(cpu, store, it.a, ((it.first % 0x1_0000) as u16).to_be_bytes(), it.updated),
        La => load(cpu, it.r1, it.a, it.updated),
        Stc => put_few(cpu, store, it.a, [(it.first % 0x100) as u8], it.updated),
        Bal => link(cpu, it.r1, it.a, it.updated),
        Bct => count(cpu, it.r1, it.a, it.updated),
        St => put_few(cpu, store, it.a, it.first.to_be_bytes(), it.updated),
        Cvd => cvd(cpu, store, it.r1, it.a, it.updated),
        Ic => load(cpu, it.r1, inserted(it.first, byte_at(store, it.a)?), it.updated),
        Cvb => cvb(cpu, store, it.r1, it.a, it.updated),
        ; Bc => {
            // Where it doesn't branch, no address is needed.
            if !selects(prefix.second() >> 4, cpu.cc) {
                return go_on(cpu, place.updated(4).address);
            }
            go_on(cpu, indexed_of(cpu, prefix, place).a)
        },
    )
}

/// The effect of the rows of format SI.
#[tactic(auto, unfolding(crate::specs::Rows::Effect, crate::specs::Rows::SiEffect, cx_code::specs::Reading::fields_at, cx_code::specs::Reading::decoded_fields, cx_code::specs::Table::operation_row, cx_code::specs::Table::is_shift))]
#[inline(always)]
pub(crate) fn immediate_rows<S: Store>(
    cpu: &mut Cpu,
    store: &mut S,
    op: Op,
    prefix: &Prefix,
    place: Place,
) -> Performed
    requires rows { format_of op ≡ format.Si }
    ensures effect { Effect (instruction op (fields_at op prefix.now))
        (updated_at place (length_of op))
        (machine cpu.old (S.storage store.old)) result (machine cpu.new (S.storage store.new)) }
    ensures same { stores op ≡ false → S.storage store.new ≡ S.storage store.old }
{
    rows!(op, it = operands_of(cpu, prefix, 0, place);
        Tm => set_code(cpu, test_code(it.i2, byte_at(store, it.a)?), it.updated),
        Mvi => put_few(cpu, store, it.a, [it.i2], it.updated),
        Ni => {
            let byte = byte_at(store, it.a)? & it.i2;
            put_logical(cpu, store, it.a, byte, it.updated)
        },
        Cli => set_code(cpu, byte_order(byte_at(store, it.a)?, it.i2), it.updated),
        Oi => {
            let byte = byte_at(store, it.a)? | it.i2;
            put_logical(cpu, store, it.a, byte, it.updated)
        },
    )
}

/// The effect of the rows of formats SS, whose operands have one length or two.
#[tactic(auto, unfolding(crate::specs::Rows::Effect, crate::specs::Rows::SsEffect, crate::specs::Rows::Ss2Effect, cx_code::specs::Reading::fields_at, cx_code::specs::Reading::decoded_fields, cx_code::specs::Table::operation_row, cx_code::specs::Table::is_shift))]
#[inline(always)]
pub(crate) fn strings_effect<S: Store>(
    cpu: &mut Cpu,
    store: &mut S,
    op: Op,
    prefix: &Prefix,
    place: Place,
) -> Performed
    requires rows { length_of op ≡ 6 }
    ensures effect { Effect (instruction op (fields_at op prefix.now))
        (updated_at place (length_of op))
        (machine cpu.old (S.storage store.old)) result (machine cpu.new (S.storage store.new)) }
    ensures same { stores op ≡ false → S.storage store.new ≡ S.storage store.old }
{
    rows!(op, it = strings_of(cpu, prefix, place);
        Mvc => mvc(cpu, store, it.at, it.updated, it.l),
        Clc => clc(cpu, store, it.at, it.updated, it.l),
        Xc => xc(cpu, store, u32::from(it.l) + 1, it.at, it.updated),
        Tr => tr(cpu, store, u32::from(it.l) + 1, it.at, it.updated),
        Trt => trt(cpu, store, u32::from(it.l) + 1, it.at, it.updated),
        Pack => pack(cpu, store, it.l, it.at, it.updated),
        Unpk => unpk(cpu, store, it.l, it.at, it.updated),
    )
}

/// The match of an operation: the macro `$perform` is called with the function of its group, and EX goes its own way.
/// The groups are as small as they are since the optimizer calls a function that grows too large, whatever it is
/// marked, and the loop is then slower by half.
macro_rules! in_group {
    ($op:expr, $perform:ident, $execute:expr) => {
        match $op {
            cx_code::rows_of!(Rr) => $perform!(register_rows),
            cx_code::rows_of!(Rs) => $perform!(register_storage_rows),
            Op::L | Op::Cl | Op::C => $perform!(word_rows),
            Op::A | Op::S | Op::M | Op::D => $perform!(word_result_rows),
            Op::Lh | Op::Ch | Op::Ah | Op::Sh => $perform!(half_rows),
            Op::Sth | Op::La | Op::Stc | Op::Bal | Op::Bct | Op::Bc | Op::St | Op::Cvd | Op::Ic | Op::Cvb => $perform!(indexed_rows),
            cx_code::rows_of!(Si) => $perform!(immediate_rows),
            cx_code::rows_of!(Ss) | cx_code::rows_of!(Ss2) => $perform!(strings_effect),
            Op::Ex => $execute,
        }
    };
}

pub(crate) use in_group;

/// The effect of the row `op` except EX, whose bytes begin so. It goes on by a place.
#[tactic(auto, unfolding(crate::specs::Rows::Effect, crate::specs::Rows::RxEffect, cx_code::specs::Reading::fields_at, cx_code::specs::Reading::decoded_fields, cx_code::specs::Table::operation_row, cx_code::specs::Table::is_shift))]
#[inline(never)]
pub(crate) fn effect<S: Store>(
    cpu: &mut Cpu,
    store: &mut S,
    op: Op,
    prefix: &Prefix,
    place: Place,
) -> Performed
    ensures { Effect (instruction op (fields_at op prefix.now))
        (updated_at place (length_of op))
        (machine cpu.old (S.storage store.old)) result (machine cpu.new (S.storage store.new)) }
{
    macro_rules! perform {
        ($rows:ident) => {
            $rows(cpu, store, op, prefix, place)
        };
    }
    // An EX is performed by its target.
    in_group!(op, perform, Err(Interruption::Operation))
}
