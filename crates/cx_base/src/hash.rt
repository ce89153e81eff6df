//! A hash of numbers, by which values are told apart at a glance: equal numbers have equal hashes.
ghost use Rattle.std.specs.Prelude.{◌≡◌};
ghost use Rattle.cx_base.specs.Hash.{hash_with, hash_of};

/// What the hash before is multiplied by: odd, and without a pattern in its bits (its product's upper bits depend on
/// all lower ones).
const FACTOR: u64 = 0x9E37_79B9_7F4A_7C15;

/// The hash of a list of numbers, from the hash of all but the last, and the last. The hash of the empty list is the
/// caller's to choose.
#[inline(always)]
#[tactic(auto, unfolding(crate::specs::Hash::hash_with))]
pub fn hash_with(hash: u64, number: u64) -> u64
    ensures { result ≡ hash_with hash number }
{
    hash.wrapping_mul(FACTOR).wrapping_add(number)
}

/// The hash of a list with these bytes, each a number, added at its end in their order.
#[tactic(auto, unfolding(crate::specs::Hash::hash_of))]
pub fn hash_of_bytes(hash: u64, bytes: &[u8]) -> u64
    ensures { result ≡ hash_of hash bytes.now }
{
    let mut all = hash;
    for byte in bytes {
        all = hash_with(all, u64::from(*byte));
    }
    all
}

/// The hash of a list with these words, each a number, added at its end in their order.
#[tactic(auto, unfolding(crate::specs::Hash::hash_of))]
pub fn hash_of_words(hash: u64, words: &[u32]) -> u64
    ensures { result ≡ hash_of hash words.now }
{
    let mut all = hash;
    for word in words {
        all = hash_with(all, u64::from(*word));
    }
    all
}
