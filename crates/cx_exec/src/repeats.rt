//! A front of a buffer that is repeated after itself.

ghost use Rattle.std.specs.Prelude.{◌≡◌, ℕ, ◌+◌, ◌<◌, ◌≤◌, length, slice_index};

/// Copies the first `filled` bytes of a buffer after themselves, as far as there is room.
fn double(new: &mut [u8], filled: usize)
    requires { filled ≤ length new.old }
    ensures size { length new.new ≡ length new.old }
    ensures prefix { (k : ℕ) → k < filled → slice_index new.new k ≡ slice_index new.old k }
    ensures after { (k : ℕ) → k < filled → filled + k < length new.old
        → slice_index new.new (filled + k) ≡ slice_index new.old k }
{
    let (prefix, rest) = new.split_at_mut(filled);
    let count = prefix.len().min(rest.len());
    rest[..count].copy_from_slice(&prefix[..count]);
}

/// Repeats the first bytes of a buffer, `period` of them, up to its end (at most 256 bytes).
#[tactic(auto, using(crate::proofs::RepeatLemmas::repeats_once, crate::proofs::RepeatLemmas::doubled))]
pub(crate) fn repeat(new: &mut [u8], period: usize)
    requires above_0 { 0 < period }
    requires room { period ≤ length new.old }
    requires size { length new.old ≤ 256 }
    ensures size { length new.new ≡ length new.old }
    ensures prefix { (k : ℕ) → k < period → slice_index new.new k ≡ slice_index new.old k }
    ensures each { (k : ℕ) → k + period < length new.old
        → slice_index new.new (k + period) ≡ slice_index new.new k }
{
    if period == 1 {
        let byte = new[0];
        new.fill(byte);
        return;
    }
    let mut filled = period;
    while filled < new.len() {
        double(new, filled);
        filled += filled;
    }
}
