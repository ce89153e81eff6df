//! What a display shows of a task, and words of storage.
ghost use Rattle.std.specs.Prelude.{◌≡◌};
ghost use Rattle.std.specs.Option.{option_map};
ghost use Rattle.cx_edf_display.specs.Displays.{seen_at, seen_of};
ghost use Rattle.cx_region.specs.Tables.{task_of};
ghost use Rattle.cx_storage.specs.Word.{halfword_at, word_at};

use byteorder::{BigEndian, ByteOrder};
use cx_ebcdic::{Name4, Name8};
use cx_edf::StopPoint;
use cx_region::Region;
use cx_storage::{Store, next_address};

/// What a display shows of a task.
#[derive(Drop)]
pub struct Seen {
    /// The transaction.
    pub tran: Name4,
    /// The current level's program.
    pub program: Name8,
    /// The task's number.
    pub number: u32,
    /// The address of its EIB.
    pub eib: u32,
    /// The address of the current level's DFHEISTG.
    pub stg: u32,
    /// The length of that in bytes.
    pub stg_len: u32,
    /// Registers 0 to 15.
    pub regs: [u32; 16],
    /// The condition code, 0 to 3.
    pub cc: u8,
    /// The next address.
    pub next: u32,
}

impl Seen {
    /// What is seen of a terminal's task at a stop: nothing where it is over.
    pub(crate) fn at<S: Store + Drop>(
        region: &Region<S>,
        name: Name4,
        kind: &StopPoint,
    ) -> Option<Seen>
        ensures { result ≡ seen_at region.now name kind.now }
    {
        match kind {
            StopPoint::Over(_) => None,
            StopPoint::Before => Seen::of(region, name),
            StopPoint::After(_) => Seen::of(region, name),
            StopPoint::Exit(_) => Seen::of(region, name),
        }
    }

    /// What is seen of a terminal's live task.
    fn of<S: Store + Drop>(region: &Region<S>, name: Name4) -> Option<Seen>
        ensures { result ≡ option_map seen_of (task_of region.now name) }
    {
        let info = region.task(name)?;
        let regs = info.cpu.regs;
        Some(Seen {
            tran: info.tran,
            program: info.program,
            number: info.number,
            eib: info.eib,
            stg: info.stg,
            stg_len: info.stg_len,
            regs,
            cc: info.cpu.cc,
            next: info.cpu.next,
        })
    }
}

/// The word at an address; None where a byte of it is absent.
#[tactic(auto, unfolding(cx_storage::specs::Word::word_at, cx_storage::specs::Storage::span))]
pub(crate) fn word<S: Store + Drop>(region: &Region<S>, address: u32) -> Option<u32>
    ensures { result ≡ word_at region.now.shared.storage address }
{
    let second = next_address(address);
    let third = next_address(second);
    let fourth = next_address(third);
    let a = region.byte(address)?;
    let b = region.byte(second)?;
    let c = region.byte(third)?;
    let d = region.byte(fourth)?;
    Some(BigEndian::read_u32(&[a, b, c, d]))
}

/// The halfword at an address; None where a byte of it is absent.
#[tactic(auto, unfolding(cx_storage::specs::Word::halfword_at, cx_storage::specs::Storage::span))]
pub(crate) fn halfword<S: Store + Drop>(region: &Region<S>, address: u32) -> Option<u16>
    ensures { result ≡ halfword_at region.now.shared.storage address }
{
    let second = next_address(address);
    let a = region.byte(address)?;
    let b = region.byte(second)?;
    Some(BigEndian::read_u16(&[a, b]))
}
