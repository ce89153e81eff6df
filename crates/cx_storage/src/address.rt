//! Addresses: numbers below 2^24, which go on at 0 after X'FFFFFF' (Principles of Operation, GA22-7000,
//! "Storage Addressing" and "Address Generation").

ghost use Rattle.std.specs.Prelude.{◌≡◌, ◌^◌, ◌<◌};
ghost use Rattle.cx_storage.specs.Address.{address_in, address_after};

/// The address in a word: its bits 8 to 31.
pub fn address_in(word: u32) -> u32
    ensures value { result ≡ address_in word }
    ensures below_2_24 { result < 2 ^ 24 }
{
    word % 0x100_0000
}

/// The address `k` bytes after `a`; after X'FFFFFF' comes 0.
pub fn address_after(a: u32, k: u32) -> u32
    ensures value { result ≡ address_after a k }
    ensures below_2_24 { result < 2 ^ 24 }
{
    address_in(a.wrapping_add(k))
}

/// The address after `a`: 0 after X'FFFFFF'.
pub fn next_address(a: u32) -> u32
    ensures value { result ≡ address_after a 1 }
    ensures below_2_24 { result < 2 ^ 24 }
{
    address_after(a, 1)
}
