//! What follows from the definitions.
ghost use Rattle.cx_look_symbols.specs.Laws.{LinesAreInSources, ListedThere, SymbolsAreLookedUp};

/// The bytes that the listing has beside a statement are those of the section's text at its place; none where it has no
/// place.
#[tactic(auto, using(crate::proofs::StatementLemmas::listed_there))]
pub fn listed_bytes_stand_there()
    ensures { ListedThere }
{}

/// A command has a line only where the byte before the address to which it leads back is in a program that a source
/// defined, and is one of the bytes of a statement on that line.
pub fn lines_are_in_sources()
    ensures { LinesAreInSources }
{}

/// The symbols of a source are the names by which the assembler looks values up, each with that value.
pub fn symbols_are_looked_up()
    ensures { SymbolsAreLookedUp }
{}
