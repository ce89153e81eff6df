//! Words and halfwords in storage: the byte at the lowest address is the highest (Principles of
//! Operation, GA22-7000, "Information Formats"). They need no boundary, and go on at address 0 after
//! X'FFFFFF'.

ghost use Rattle.std.specs.Prelude.{◌≡◌, ◌^◌, ◌<◌};
ghost use Rattle.cx_storage.specs.Word.{halfword_at, word_at};

use crate::stores::Store;
use byteorder::{BigEndian, ByteOrder};

/// The word in the 4 bytes from `a` (below 2^24) on; None where one of them is in no area. It takes no
/// memory.
#[tactic(auto, using(crate::specs::Facts::Words::word_read, crate::specs::Facts::Words::word_absent))]
pub fn word_at<S: Store>(store: &S, a: u32) -> Option<u32>
    requires { a < 2 ^ 24 }
    ensures { result ≡ word_at (S.storage store.now) a }
{
    let mut bytes = [0; 4];
    if !store.read(a, &mut bytes) {
        return None;
    }
    Some(BigEndian::read_u32(&bytes))
}

/// The halfword in the 2 bytes from `a` (below 2^24) on; None where one of them is in no area. It takes
/// no memory.
#[tactic(auto, using(crate::specs::Facts::Words::halfword_read, crate::specs::Facts::Words::halfword_absent))]
pub fn halfword_at<S: Store>(store: &S, a: u32) -> Option<u16>
    requires { a < 2 ^ 24 }
    ensures { result ≡ halfword_at (S.storage store.now) a }
{
    let mut bytes = [0; 2];
    if !store.read(a, &mut bytes) {
        return None;
    }
    Some(BigEndian::read_u16(&bytes))
}
