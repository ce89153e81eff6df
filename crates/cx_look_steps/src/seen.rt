//! What is to be seen of a state, and what is told of the turns that lead there.

ghost use Rattle.std.specs.Prelude.{◌≡◌, IfOk};
ghost use Rattle.cx_look_lines.specs.Words.{Lines};
ghost use Rattle.cx_look_steps.specs.Steps.{Telling};
ghost use Rattle.cx_region.specs.State.{RegionState};

use cx_base::List;
use cx_ebcdic::Name4;
use cx_look_lines::Report;
use cx_region::{Region, TurnReply};
use cx_storage::Store;
use std::alloc::{AllocError, Global};

/// What is to be seen of a region, as lines, and what is told of a turn.
pub trait Seen<S: Store + Drop> {
    /// Which lines show a region.
    ghost shows: { Self → RegionState → Lines → Type 0 };

    /// What is told of a turn, by the region before it, the terminal's name and the reply.
    ghost tells: { Self → Telling };

    /// The lines that show a region.
    ///
    /// An error comes only where memory was refused.
    fn seen(&self, alloc: Global, region: &Region<S>) -> Result<Report, AllocError>
        ensures { IfOk result (λ report. shows self.now region.now report) };

    /// What is told of a turn of a terminal: the region is that before it.
    ///
    /// An error comes only where memory was refused.
    fn told(
        &self,
        alloc: Global,
        region: &Region<S>,
        name: Name4,
        reply: TurnReply,
    ) -> Result<Option<List<u8>>, AllocError>
        ensures { IfOk result (λ text. text ≡ tells self.now region.now name reply) };

    /// A law: lines that show a region are the only ones that do.
    fn shows_decide(&self)
        ensures { (region : RegionState) (one other : Lines)
            → shows self.now region one → shows self.now region other → one ≡ other };
}
