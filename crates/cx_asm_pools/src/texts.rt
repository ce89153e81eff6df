//! Tables by borrowed texts.

ghost use Rattle.std.specs.Prelude.{◌≡◌, ◌∷◌, ◌++◌, [], None, OnOk, OnErr};
ghost use Rattle.std.specs.Map.{lookup};
ghost use Rattle.std.specs.Str.{bytes_eq};
ghost use Rattle.cx_asm_pools.specs.Pools.{by_text};

use crate::closed::Literal;
use crate::open::Used;
use indexmap::IndexMap;
use std::alloc::AllocError;

/// Puts a literal under a text that has none.
#[tactic(auto, using(crate::proofs::TextLemmas::insert_by_text))]
pub(crate) fn push_used<'a>(
    table: &mut IndexMap<&'a [u8], Used>,
    text: &'a [u8],
    used: Used,
) -> Result<(), AllocError>
    requires { lookup (bytes_eq text.now) (by_text table.old.entries) ≡ None }
    ensures put { OnOk result (by_text table.new.entries ≡ by_text table.old.entries ++ (text.now, used) ∷ []) }
    ensures err { OnErr result (table.new.entries ≡ table.old.entries) }
{
    table.insert(text, used)?;
    Ok(())
}

/// Puts a literal that is under a text that has none.
#[tactic(auto, using(crate::proofs::TextLemmas::insert_by_text))]
pub(crate) fn push_literal<'a>(
    table: &mut IndexMap<&'a [u8], Literal>,
    text: &'a [u8],
    literal: Literal,
) -> Result<(), AllocError>
    requires { lookup (bytes_eq text.now) (by_text table.old.entries) ≡ None }
    ensures put { OnOk result (by_text table.new.entries ≡ by_text table.old.entries ++ (text.now, literal) ∷ []) }
{
    table.insert(text, literal)?;
    Ok(())
}
