//! Addresses and lengths of the operands of an instruction.

ghost use Rattle.std.specs.Prelude.{◌<◌, ◌≤◌, ◌^◌};

use cx_storage::address_after;

/// The addresses of two operands: each is below 2^24.
#[derive(Clone, Copy)]
pub struct Addresses {
    pub a1: u32,
    pub a2: u32,
    pub ghost first: { a1 < 2 ^ 24 },
    pub ghost second: { a2 < 2 ^ 24 },
}

/// How many bytes two operands with a length each have: 1 to 16.
#[derive(Clone, Copy)]
pub struct Lengths {
    pub n1: u32,
    pub n2: u32,
    pub ghost some1: { 0 < n1 },
    pub ghost few1: { n1 ≤ 16 },
    pub ghost some2: { 0 < n2 },
    pub ghost few2: { n2 ≤ 16 },
}

impl Lengths {
    ghost use Rattle.std.specs.Prelude.{◌≡◌, ◌+◌, ◌/◌, ◌%◌};

    /// Those that the halves of a byte are, each less one.
    #[inline(always)]
    pub(crate) fn of(l: u8) -> Lengths
        ensures first { result.n1 ≡ l / 16 + 1 }
        ensures second { result.n2 ≡ l % 16 + 1 }
    {
        Lengths {
            n1: u32::from(l >> 4) + 1,
            n2: u32::from(l & 15) + 1,
        }
    }
}

/// Two operands from right to left: the addresses of their last bytes, each below 2^24, and how many bytes the second
/// has.
#[derive(Clone, Copy)]
pub struct Ends {
    pub e1: u32,
    pub n2: u32,
    pub e2: u32,
    pub ghost first: { e1 < 2 ^ 24 },
    pub ghost second: { e2 < 2 ^ 24 },
}

impl Ends {
    ghost use Rattle.std.specs.Prelude.{◌≡◌, ◌-◌};
    ghost use Rattle.cx_storage.specs.Address.{address_after};

    /// The ends of operands at these addresses.
    pub(crate) fn of(lengths: Lengths, at: Addresses) -> Ends
        ensures first { result.e1 ≡ address_after at.a1 (lengths.n1 - 1) }
        ensures count { result.n2 ≡ lengths.n2 }
        ensures second { result.e2 ≡ address_after at.a2 (lengths.n2 - 1) }
    {
        Ends {
            e1: address_after(at.a1, lengths.n1 - 1),
            n2: lengths.n2,
            e2: address_after(at.a2, lengths.n2 - 1),
        }
    }
}
