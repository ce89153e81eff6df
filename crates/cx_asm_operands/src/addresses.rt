//! The base register and displacement that stand for a place.

ghost use Rattle.std.specs.Prelude.{◌≡◌, ◌≤◌, ◌-ℤ◌, [], None, length};
ghost use Rattle.cx_asm_operands.specs.Addresses.{address_by_bases, implied_address, nearer, nearest_address, address_by_base, number_within};

use crate::bases::{Base, Bases};
use cx_asm_expressions::{FaultKind, Value};
use cx_ebcdic::Name8;

/// The greatest displacement.
const GREATEST: i128 = 4095;

/// A base register, 0 to 15, and a displacement, 0 to 4,095. Register 0 stands for no base.
#[derive(Clone, Copy)]
pub struct Address {
    /// The base register, 0 to 15; 0 is none.
    pub base: u8,
    /// The displacement, in bytes, 0 to 4,095.
    pub displacement: u16,
}

/// How far a number is past a second one, where that is 0 to 4,095.
fn displacement(number: i128, after: i128) -> Option<u16>
    ensures { result ≡ number_within 4095 (number -ℤ after) }
{
    let distance = number.checked_sub(after)?;
    if distance >= 0 && distance <= GREATEST {
        Some(distance as u16)
    } else {
        None
    }
}

/// The address of a place by one register.
fn reached(section: Name8, number: i128, register: u8, base: Option<Base>) -> Option<Address>
    ensures { result ≡ address_by_base section number register base }
{
    let base = base?;
    if base.section != section {
        return None;
    }
    let displacement = displacement(number, base.number)?;
    Some(Address {
        base: register,
        displacement,
    })
}

/// Of two addresses the one with the smaller displacement, of equal ones the second.
fn nearer(one: Option<Address>, other: Option<Address>) -> Option<Address>
    ensures { result ≡ nearer one other }
{
    match (one, other) {
        (None, _) => other,
        (_, None) => one,
        (Some(first), Some(second)) => Some(if first.displacement < second.displacement {
            first
        } else {
            second
        }),
    }
}

/// The address of a place: of the registers in use for its section that reach it with a displacement of 0 to 4,095, the
/// one with the smallest, and of those the highest.
#[tactic(auto, unfolding(crate::specs::Addresses::nearest_address))]
fn nearest(bases: &[Option<Base>], section: Name8, number: i128) -> Option<Address>
    requires { length bases.now ≤ 16 }
    ensures { result ≡ nearest_address bases.now section number }
{
    let mut found = None;
    for (register, base) in bases.iter().enumerate() {
        found = nearer(found, reached(section, number, register as u8, *base));
    }
    found
}

/// The address of an absolute number: register 0, and itself as displacement.
fn absolute_address(number: i128) -> Result<Address, FaultKind>
    ensures { result ≡ address_by_bases [] None number }
{
    match displacement(number, 0) {
        Some(displacement) => Ok(Address {
            base: 0,
            displacement,
        }),
        None => Err(FaultKind::ValueOutOfRange),
    }
}

impl Bases {
    /// The implied address of a value (GC33-4010, "USING -- Use Base Address Register"): of a place the one by the base
    /// register in use for its section that gives the smallest displacement from 0 to 4,095, and of several the
    /// highest-numbered; of an absolute number register 0 and the number, whatever is in use. It takes no memory.
    ///
    /// NoAddressability comes exactly where no register in use reaches a place, and ValueOutOfRange for an absolute
    /// number outside 0 to 4,095.
    pub fn implied_address(&self, value: Value) -> Result<Address, FaultKind>
        ensures { result ≡ implied_address self.now value }
    {
        let section: Option<Name8> = value.section;
        let Some(section) = section else {
            return absolute_address(value.number);
        };
        match nearest(self.as_slice(), section, value.number) {
            Some(address) => Ok(address),
            None => Err(FaultKind::NoAddressability),
        }
    }
}
