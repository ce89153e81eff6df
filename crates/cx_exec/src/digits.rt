//! PACK and UNPK of a source that the store lends in one piece and that lies apart from the result: its bytes are
//! right-aligned in a buffer after zeros, so that a missing one is zero.

ghost use Rattle.std.specs.Prelude.{◌≡◌, ℕ, ◌+◌, ◌-◌, ◌*◌, ◌/◌, ◌%◌, ◌<◌, ◌≤◌, length, slice_index};
ghost use Rattle.cx_exec.specs.Zoned.{swap_halves};

use crate::zoned::swapped;

/// Puts the bytes of a source before the end of a buffer of zeros, of which the last byte stays.
pub(crate) fn align(source: &[u8], buffer: &mut [u8; 33])
    requires at_most_16 { length source.now ≤ 16 }
    requires zeros { (j : ℕ) → slice_index buffer.old j ≡ 0 }
    ensures prefix { (j : ℕ) → j + length source.now < 32 → slice_index buffer.new j ≡ 0 }
    ensures bytes { (j : ℕ) → j < length source.now
        → slice_index buffer.new (32 - length source.now + j) ≡ slice_index source.now j }
{
    let from = 32 - source.len();
    buffer[from..32].copy_from_slice(source);
}

/// Puts the right halves of aligned zoned bytes into bytes, two into each, with the halves of the last one exchanged.
pub(crate) fn pack_aligned(zoned: &[u8; 33], new: &mut [u8; 16])
    ensures each { (j : ℕ) → j < 15
        → slice_index new.new j ≡ slice_index zoned.now (2 * j + 1) % 16 * 16 + slice_index zoned.now (2 * j + 2) % 16 }
    ensures last { slice_index new.new 15 ≡ swap_halves (slice_index zoned.now 31) }
{
    for j in 0..16 {
        new[j] = zoned[2 * j + 1] % 16 * 16 + zoned[2 * j + 2] % 16;
    }
    new[15] = swapped(zoned[31]);
}

/// Puts each half of aligned packed bytes into a byte with the zone F, with the halves of the last one exchanged.
pub(crate) fn unpack_aligned(packed: &[u8; 33], new: &mut [u8; 16])
    ensures right { (i : ℕ) → i < 8
        → slice_index new.new (2 * i) ≡ 0xF0 + slice_index packed.now (23 + i) % 16 }
    ensures left { (i : ℕ) → i < 7
        → slice_index new.new (2 * i + 1) ≡ 0xF0 + slice_index packed.now (24 + i) / 16 }
    ensures last { slice_index new.new 15 ≡ swap_halves (slice_index packed.now 31) }
{
    for i in 0..8 {
        new[2 * i] = 0xF0 + packed[23 + i] % 16;
        new[2 * i + 1] = 0xF0 + packed[24 + i] / 16;
    }
    new[15] = swapped(packed[31]);
}
