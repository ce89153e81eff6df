//! The fields of a task's EXEC interface block (SC33-0077, "EXEC Interface Block"), and what attach writes into them.
ghost use Rattle.std.specs.Prelude.{◌≡◌, ◌<◌, ◌≤◌, ◌+◌, ◌%◌, ◌^◌, None, Some, length};
ghost use Rattle.cx_region_state.specs.Eib.{content, digit_at_power, fields_at_attach, packed_decimal, with_calen, with_field, with_fields};

use cx_base::EibField;
use cx_storage::{Store, address_after};

/// What is in a task's EIB at attach.
#[derive(Clone, Copy)]
pub struct InitialEib {
    /// The time of attach as hhmmss.
    pub time: u32,
    /// The date of attach as yyddd.
    pub date: u32,
    /// The transaction's name.
    pub tran: [u8; 4],
    /// The task's number.
    pub number: u32,
    /// The terminal's name.
    pub terminal: [u8; 4],
    /// The length of the COMMAREA in bytes; 0 without one.
    pub calen: u16,
    /// The code of the key that attached the task.
    pub aid: u8,
}

/// The digit of a number at a power of ten.
fn digit_at_power(n: u32, power: u32) -> u8
    requires { 0 < power }
    ensures value { result ≡ digit_at_power n power }
    ensures bound { result < 10 }
{
    (n / power % 10) as u8
}

/// A number of at most seven digits, packed with the sign C.
#[tactic(auto, unfolding(crate::specs::Eib::packed_decimal))]
fn packed_decimal(n: u32) -> [u8; 4]
    ensures { result ≡ packed_decimal n }
{
    [
        digit_at_power(n, 1_000_000) * 16 + digit_at_power(n, 100_000),
        digit_at_power(n, 10_000) * 16 + digit_at_power(n, 1_000),
        digit_at_power(n, 100) * 16 + digit_at_power(n, 10),
        digit_at_power(n, 1) * 16 + 0xC,
    ]
}

/// Writes a field of the EIB at an address.
#[tactic(auto, unfolding(crate::specs::Eib::with_field))]
pub(crate) fn put<S: Store>(store: &mut S, eib: u32, field: EibField, bytes: &[u8])
    requires eib { eib < 2 ^ 24 }
    requires at_most_8 { length bytes.now ≤ 8 }
    ensures { S.storage store.new ≡ with_field (S.storage store.old) eib (content field bytes.now) }
{
    store.write(address_after(eib, field.offset()), bytes);
}

/// Fills the EIB at an address (below 2^24) for a task that begins: EIBTIME, EIBDATE, EIBTRNID, EIBTASKN, EIBTRMID,
/// EIBCALEN and EIBAID, each where all its bytes are in storage. No other byte changes.
pub fn begin<S: Store>(store: &mut S, eib: u32, begun: &InitialEib)
    requires { eib < 2 ^ 24 }
    ensures { S.storage store.new ≡ with_fields (S.storage store.old) eib (fields_at_attach begun.now) }
{
    put(store, eib, EibField::Time, &packed_decimal(begun.time));
    put(store, eib, EibField::Date, &packed_decimal(begun.date));
    put(store, eib, EibField::Trnid, &begun.tran);
    put(store, eib, EibField::Taskn, &packed_decimal(begun.number));
    put(store, eib, EibField::Trmid, &begun.terminal);
    put(store, eib, EibField::Calen, &begun.calen.to_be_bytes());
    put(store, eib, EibField::Aid, &[begun.aid]);
}

/// Writes EIBCALEN into the EIB at an address (below 2^24), where a length is given and both bytes are in storage. No
/// other byte changes.
#[tactic(auto, unfolding(crate::specs::Eib::with_calen))]
pub fn put_calen<S: Store>(store: &mut S, eib: u32, calen: Option<u16>)
    requires { eib < 2 ^ 24 }
    ensures { S.storage store.new ≡ with_calen (S.storage store.old) eib calen }
{
    if let Some(calen) = calen {
        put(store, eib, EibField::Calen, &calen.to_be_bytes());
    }
}
