//! Bytes of storage that are filled and copied, a block at a time.
ghost use Rattle.std.specs.Prelude.{◌≡◌, ◌+◌, ◌≤◌, ◌^◌, replicate, is_some, true};
ghost use Rattle.cx_region_state.specs.Areas.{bytes_in};
ghost use Rattle.cx_region_task.specs.Parts.Making.{IsCopyable};
ghost use Rattle.cx_storage.specs.Storage.{after_write, span};

use cx_region_state::Copying;
use cx_storage::{Store, address_after};

/// How many bytes are written at once.
const BLOCK: u32 = 1_024;

/// Fills bytes that are in storage with one byte.
pub(crate) fn fill<S: Store>(store: &mut S, place: u32, len: u32, byte: u8)
    requires below { place + len ≤ 2 ^ 24 }
    requires there { is_some (span (S.storage store.old) place len) ≡ true }
    ensures { S.storage store.new ≡ after_write (S.storage store.old) place (replicate len byte) }
{
    let block = [byte; BLOCK as usize];
    let mut done = 0;
    while done < len {
        let n = (len - done).min(BLOCK);
        store.write(place + done, &block[..n as usize]);
        done += n;
    }
}

/// Copies bytes that are in storage to others.
pub(crate) fn copy<S: Store>(store: &mut S, copying: Copying)
    requires { IsCopyable copying (S.storage store.old) }
    ensures { S.storage store.new
        ≡ after_write (S.storage store.old) copying.to (bytes_in (S.storage store.old) copying.from) }
{
    let len = u32::from(copying.from.len);
    let mut block = [0; BLOCK as usize];
    let mut done = 0;
    while done < len {
        let n = (len - done).min(BLOCK);
        let bytes = &mut block[..n as usize];
        store.read(address_after(copying.from.place, done), bytes);
        store.write(copying.to + done, bytes);
        done += n;
    }
}
