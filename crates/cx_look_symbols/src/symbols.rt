//! The names of a source.
ghost use Rattle.std.specs.Prelude.{◌≡◌, IfOk};
ghost use Rattle.std.specs.Option.{option_map};
ghost use Rattle.cx_look_symbols.specs.Symbols.{named_in};
ghost use Rattle.cx_look_symbols.specs.Names.{symbols_named};

use crate::placed::{PlacedSource, translated_in};
use crate::rows::Symbol;
use cx_ebcdic::Name8;
use cx_source::Text;
use indexmap::IndexMap;
use std::alloc::{AllocError, Global};

/// The names of a source: its control section's, and its symbols.
#[derive(Drop)]
pub struct Names {
    /// The name of the control section; None where there is none.
    pub control: Option<Name8>,
    /// The symbols, in the order of the lines that define them.
    pub symbols: IndexMap<Name8, Symbol>,
}

/// The names of lines; None where these aren't a source without a fault up to the assembler's first pass.
///
/// An error comes only where memory for them was refused.
#[tactic(auto, unfolding(crate::specs::Symbols::named_in))]
pub fn names_in(alloc: Global, lines: &[Text]) -> Result<Option<Names>, AllocError>
    ensures { IfOk result (λ names. option_map symbols_named names ≡ named_in lines.now) }
{
    let source = translated_in(alloc, lines)?;
    let Some(placed) = PlacedSource::of(alloc, &source)? else {
        return Ok(None);
    };
    Ok(Some(placed.names(alloc)?))
}
