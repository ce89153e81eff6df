//! What is added to lists.
ghost use Rattle.std.specs.Prelude.{◌≡◌, ◌++◌, OnOk};
ghost use Rattle.std.specs.Option.{option_to_list};

use std::alloc::AllocError;

/// Adds what there is.
///
/// An error comes only where memory for it was refused.
pub(crate) fn push_some<T: Drop>(found: &mut Vec<T>, one: Option<T>) -> Result<(), AllocError>
    ensures { OnOk result (found.new.items ≡ found.old.items ++ option_to_list one) }
{
    if let Some(one) = one {
        found.push(one)?;
    }
    Ok(())
}
