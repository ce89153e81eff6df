//! A turn that is done apart from a region.
ghost use Rattle.std.specs.Prelude.{IfOk};
ghost use Rattle.cx_region.specs.Turn.{TakesTurn};

use crate::snapshot::RegionSnapshot;
use cx_ebcdic::Name4;
use cx_region::{Region, TurnReply};
use cx_storage::Store;
use std::alloc::{AllocError, Global};

/// A turn of a terminal, done in a region like this one, which stays as it is: the turn's reply, and that region after
/// it.
///
/// An error comes only where an allocation failed.
pub fn turn_apart<S: Store + Drop>(
    alloc: Global,
    region: &Region<S>,
    name: Name4,
) -> Result<(TurnReply, Region<S>), AllocError>
    ensures { IfOk result (λ both. TakesTurn region.now name both.0 both.1) }
{
    let snapshot = RegionSnapshot::take(alloc, region, None)?;
    let mut apart = snapshot.region_in(alloc, region.shared().store.emptied())?;
    let reply = apart.turn(name)?;
    Ok((reply, apart))
}
