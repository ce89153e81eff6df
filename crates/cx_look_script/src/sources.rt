//! Which programs a source defined.
ghost use Rattle.std.specs.Prelude.{◌≡◌, ◌&&◌, is_some, not};
ghost use Rattle.cx_region.specs.Tables.{program_of};

use cx_ebcdic::Name8;
use cx_region::Region;
use cx_storage::Store;

/// Whether a region has a program.
pub(crate) fn has_program<S: Store + Drop>(region: &Region<S>, name: Name8) -> bool
    ensures { result ≡ is_some (program_of region.now name) }
{
    region.shared().programs.get(&name).is_some()
}

/// Whether a program was defined that was there before, or wasn't.
pub(crate) fn is_program_defined<S: Store + Drop>(
    region: &Region<S>,
    name: Name8,
    was_there: bool,
) -> bool
    ensures { result ≡ (not was_there && is_some (program_of region.now name)) }
{
    !was_there && has_program(region, name)
}
