//! A source that lines make, translated and placed.
ghost use Rattle.std.specs.Prelude.{◌≡◌, IfOk, option_and_then};
ghost use Rattle.cx_asm_pass1.specs.Locations.{final_state};
ghost use Rattle.cx_asm_pass2.specs.Statements.{statements_of};
ghost use Rattle.cx_asm_pass2.specs.Whole.{whole_by, whole_of};
ghost use Rattle.cx_look_symbols.specs.Names.{symbols_named};
ghost use Rattle.cx_look_symbols.specs.Placed.{placed_source, translated_in};
ghost use Rattle.cx_look_symbols.specs.Symbols.{symbols_of};

use crate::rows::symbols_of;
use crate::symbols::Names;
use cx_asm_pass1::{Places, place_all};
use cx_asm_pass2::{Statement, control_name, placed_lines, stated};
use cx_ebcdic::Name8;
use cx_source::{Source, Text, source_or_faults};
use cx_translate::translate_or_faults;
use std::alloc::{AllocError, Global};
use std::marker::Model;

/// The source that lines make, given without their ends, translated; None where a line or an EXEC statement is at
/// fault.
///
/// An error comes only where memory for it was refused.
#[tactic(auto, using(crate::proofs::ReadingLemmas::read_alike, crate::proofs::ReadingLemmas::translated_alike))]
pub fn translated_in(alloc: Global, lines: &[Text]) -> Result<Option<Source>, AllocError>
    ensures { IfOk result (λ source. source ≡ translated_in lines.now) }
{
    let Ok(source) = source_or_faults(alloc, lines)? else {
        return Ok(None);
    };
    Ok(translate_or_faults(alloc, &source)?.ok())
}

/// A source in which the assembler's first pass found no fault, and where everything of it is.
#[derive(Drop)]
pub struct PlacedSource<'a> {
    source: &'a Source,
    places: Places<'a>,
}

impl<'a> Model for PlacedSource<'a> {
    ghost use Rattle.std.specs.Prelude.{◌≡◌, None};
    ghost use Rattle.cx_source.specs.declared.source.Source.{Source};
    ghost use Rattle.cx_asm_pass1.specs.Locations.{IsPlaced, final_state};

    ghost Value = { Source };

    ghost view = { λ it. it.source.now };

    ghost invariant = { λ it.
        ((final_state it.source.now).fault ≡ None) × IsPlaced (final_state it.source.now) it.places };
}

impl<'a> PlacedSource<'a> {
    /// A translated source, and where everything of it is; None where there is no source, or the assembler's first pass
    /// finds a fault.
    ///
    /// An error comes only where memory was refused.
    pub fn of(
        alloc: Global,
        source: &'a Option<Source>,
    ) -> Result<Option<PlacedSource<'a>>, AllocError>
        ensures { IfOk result (λ placed. placed ≡ option_and_then placed_source source.now) }
    {
        let Some(source) = source else {
            return Ok(None);
        };
        match place_all(alloc, source)? {
            Ok(places) => Ok(Some(PlacedSource { source, places })),
            Err(_) => Ok(None),
        }
    }

    /// The source, translated.
    pub fn source(&self) -> &'a Source
        ensures { result.now ≡ self.now }
    {
        self.source
    }

    /// Where everything of it is.
    #[tactic(auto, using(cx_asm_pass2::specs::Facts::Whole::whole_is))]
    pub fn places(&self) -> &Places<'a>
        ensures { whole_by result.now ≡ whole_of self.now }
    {
        &self.places
    }

    /// The name of its control section; None where there is none. It takes no memory.
    pub fn control(&self) -> Option<Name8>
        ensures { result ≡ (final_state self.now).control }
    {
        control_name(self.places())
    }

    /// Its statements in their order, each with its line and its place.
    ///
    /// An error comes only where memory for them was refused.
    pub fn statements(&self, alloc: Global) -> Result<Vec<Statement<'_>>, AllocError>
        ensures { IfOk result (λ statements. statements.items ≡ statements_of self.now) }
    {
        let placed = placed_lines(alloc, self.source, self.places.statements.as_slice())?;
        stated(alloc, placed.as_slice())
    }

    /// Its names.
    ///
    /// An error comes only where memory for them was refused.
    #[tactic(auto, using(crate::proofs::RowLemmas::rows_placed))]
    pub fn names(&self, alloc: Global) -> Result<Names, AllocError>
        ensures { IfOk result (λ names. symbols_named names ≡ symbols_of self.now) }
    {
        let control = self.control();
        let symbols = symbols_of(alloc, self.source.items.as_slice(), &self.places.symbols)?;
        Ok(Names { control, symbols })
    }
}
