//! The bytes that an instruction begins with, fetched at once.

ghost use Rattle.std.specs.Prelude.{◌≡◌, ◌<◌, ◌≤◌, ◌+◌, ◌*◌, ◌%◌, ◌^◌, ◌++◌, ◌∷◌, length, slice_index, take, Some, IfSome, OnSome};
ghost use Rattle.std.specs.Option.{option_map};
ghost use Rattle.byteorder.specs.Endian.{big_bytes};
ghost use Rattle.cx_storage.specs.Storage.{span};
ghost use Rattle.cx_code.specs.Table.{code_of};
ghost use Rattle.cx_code.specs.Spelling.{format_with, IsWellFormed};
ghost use Rattle.cx_code.specs.Reading.{base_at, displacement_at, decoded_fields};
ghost use Rattle.cx_exec.specs.Step.{joined_second};

use cx_code::{Fields, Inst, Op};
use cx_storage::Store;
use std::marker::Model;

/// Six bytes that an instruction begins with, the first ones of eight: its code and a second byte, and two halfwords.
/// The eight are kept as one number, the first of them lowest, so that the code needs no shift and each field one.
#[derive(Drop)]
pub struct Prefix {
    word: u64,
}

impl Model for Prefix {
    ghost use Rattle.std.specs.Prelude.{List, ℕ, take};
    ghost use Rattle.std.specs.Int.{w64, to_le_bytes};

    ghost Value = { List ℕ };

    ghost view = { λ front. take 6 (to_le_bytes w64 front.word) };
}

/// Two fields of four bits as a byte.
fn halves(left: u8, right: u8) -> u8
    requires left { left < 16 }
    requires right { right < 16 }
    ensures { result ≡ 16 * left + right }
{
    left << 4 | right
}

/// Base and displacement as a halfword.
fn address(base: u8, displacement: u16) -> u16
    requires base { base < 16 }
    requires displacement { displacement < 4096 }
    ensures { result ≡ 4096 * base + displacement }
{
    u16::from(base) << 12 | displacement
}

impl Prefix {
    /// The first six of eight bytes.
    #[tactic(auto, using(crate::proofs::FrontLemmas::front_of))]
    #[inline(always)]
    pub(crate) fn of(bytes: [u8; 8]) -> Prefix
        ensures { result ≡ take 6 bytes }
    {
        Prefix {
            word: u64::from_le_bytes(bytes),
        }
    }

    /// The front of a byte and two halfwords after a code of zero.
    #[tactic(auto, using(crate::proofs::FrontLemmas::front_made))]
    fn made(second: u8, first_address: u16, second_address: u16) -> Prefix
        ensures { result ≡ 0 ∷ second ∷ (big_bytes 2 first_address ++ big_bytes 2 second_address) }
    {
        let first_high = (first_address / 256) as u8;
        let first_low = (first_address % 256) as u8;
        let second_high = (second_address / 256) as u8;
        let second_low = (second_address % 256) as u8;
        Prefix::of([
            0,
            second,
            first_high,
            first_low,
            second_high,
            second_low,
            0,
            0,
        ])
    }

    /// A front that has an instruction's fields.
    #[tactic(auto, unfolding(cx_code::specs::Reading::decoded_fields))]
    pub(crate) fn with_fields(inst: &Inst) -> Prefix
        ensures fields { decoded_fields (format_with inst.now.fields) result ≡ inst.now.fields }
        ensures formed { IsWellFormed inst.now }
    {
        match inst.fields() {
            Fields::Rr { r1, r2 } => Prefix::made(halves(r1, r2), 0, 0),
            Fields::Rx { r1, x2, b2, d2 } => Prefix::made(halves(r1, x2), address(b2, d2), 0),
            Fields::Rs { r1, r3, b2, d2 } => Prefix::made(halves(r1, r3), address(b2, d2), 0),
            Fields::Si { i2, b1, d1 } => Prefix::made(i2, address(b1, d1), 0),
            Fields::Ss { l, b1, d1, b2, d2 } => Prefix::made(l, address(b1, d1), address(b2, d2)),
            Fields::Ss2 {
                l1,
                l2,
                b1,
                d1,
                b2,
                d2,
            } => Prefix::made(halves(l1, l2), address(b1, d1), address(b2, d2)),
        }
    }

    /// The first byte.
    #[tactic(auto, using(crate::proofs::FrontLemmas::code_back))]
    #[inline(always)]
    pub(crate) fn first(&self) -> u8
        ensures { result ≡ slice_index self.now 0 }
    {
        (self.word & 0xff) as u8
    }

    /// The second byte.
    #[inline(always)]
    pub(crate) fn second(&self) -> u8
        ensures { result ≡ slice_index self.now 1 }
    {
        (self.word >> 8 & 0xff) as u8
    }

    /// The front with a byte joined to the second one by OR.
    #[tactic(auto, using(crate::proofs::FrontLemmas::front_joined))]
    #[inline(always)]
    pub(crate) fn with_joined(self, low: u8) -> Prefix
        ensures { result ≡ joined_second low self }
    {
        let mut bytes = self.word.to_le_bytes();
        bytes[1] |= low;
        Prefix::of(bytes)
    }

    /// The base that the halfword after it has.
    #[tactic(auto, using(crate::proofs::FrontLemmas::first_base_back))]
    #[inline(always)]
    pub(crate) fn first_base(&self) -> usize
        ensures value { result ≡ base_at 2 self.now }
        ensures below_16 { result < 16 }
    {
        (self.word >> 20) as usize & 15
    }

    /// The displacement that this has.
    #[tactic(auto, using(crate::proofs::FrontLemmas::first_displacement_back))]
    #[inline(always)]
    pub(crate) fn first_displacement(&self) -> u32
        ensures value { result ≡ displacement_at 2 self.now }
        ensures below_4096 { result < 4096 }
    {
        ((self.word & 0xffff_ffff) as u32).swap_bytes() & 0x0fff
    }

    /// The base that the halfword after that has.
    #[tactic(auto, using(crate::proofs::FrontLemmas::second_base_back))]
    #[inline(always)]
    pub(crate) fn second_base(&self) -> usize
        ensures value { result ≡ base_at 4 self.now }
        ensures below_16 { result < 16 }
    {
        (self.word >> 36) as usize & 15
    }

    /// The displacement that this has.
    #[tactic(auto, using(crate::proofs::FrontLemmas::second_displacement_back))]
    #[inline(always)]
    pub(crate) fn second_displacement(&self) -> u32
        ensures value { result ≡ displacement_at 4 self.now }
        ensures below_4096 { result < 4096 }
    {
        ((self.word >> 16 & 0xffff_ffff) as u32).swap_bytes() & 0x0fff
    }
}

/// The front of an instruction at an address, where the store has eight bytes from there on at hand: the address is
/// even then, and not the entry.
#[inline(always)]
pub(crate) fn fetched_prefix<S: Store>(store: &mut S, at: u32) -> Option<Prefix>
    requires { at < 2 ^ 24 }
    ensures bytes { IfSome result (λ prefix. option_map (take 6) (span (S.storage store.new) at 8) ≡ Some prefix) }
    ensures even { OnSome result (at % 2 ≡ 0) }
    ensures high { OnSome result (4096 ≤ at) }
    ensures no_wrap { OnSome result (at + 8 ≤ 2 ^ 24) }
    ensures same { S.storage store.new ≡ S.storage store.old }
{
    let bytes = store.fetch(at)?;
    Some(Prefix::of(bytes))
}

/// The match of a code: an arm for each row, and one for each list of codes without a row.
macro_rules! row_by_code {
    (
        $code:ident
        [$($even:literal)*]
        [$($odd:literal)*]
        $($format:ident { $($op:ident $name:literal $row:literal $($stores:ident)?,)* })*
    ) => {
        match $code {
            $($($row => Op::$op,)*)*
            $($even)|* => return None,
            $($odd)|* => return None,
            _ => return None,
        }
    };
}

/// The row of a code. It is found by a match of its own, so that a row is found by one jump, and each code has an arm,
/// so that the jump needs no test before: even codes without a row have one, odd ones another, since those in a row
/// would be a range.
#[tactic(auto, unfolding(cx_code::specs::Table::operation_row))]
#[inline(always)]
pub(crate) fn op_in(code: u8) -> Option<Op>
    ensures { IfSome result (λ op. code ≡ code_of op) }
{
    let op = cx_code::instruction_codes!([row_by_code] code);
    Some(op)
}
