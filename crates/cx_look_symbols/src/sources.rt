//! What is kept of the sources that programs were defined from.
ghost use Rattle.std.specs.Prelude.{◌≡◌, ◌≤◌, [], if◌then◌else◌, IsOk, OnOk};
ghost use Rattle.indexmap.specs.IndexMap.{spare};
ghost use Rattle.cx_look_symbols.specs.Sources.{source_lines, with_source_lines};
ghost use Rattle.cx_look_symbols.specs.Statements.{statement_places};

use crate::lines::SourcePlaces;
use crate::statements::StatementPlace;
use cx_base::List;
use cx_ebcdic::Name8;
use cx_source::Text;
use indexmap::IndexMap;
use std::alloc::{AllocError, Global};
use std::marker::Model;

/// Of each program that a source defined the source's lines, and where its statements are.
#[derive(Drop)]
pub struct Sources {
    lines: IndexMap<Name8, List<Text>>,
    places: SourcePlaces,
}

impl Model for Sources {
    ghost use Rattle.cx_look_symbols.specs.Sources.{Sources as Kept};

    ghost Value = { Kept };

    ghost view = { λ sources. record { lines = sources.lines.entries; places = sources.places.entries } };
}

/// Makes room for one more in both tables. An error comes only where one had none.
fn make_room_in<L: Drop, P: Drop>(
    lines: &mut IndexMap<Name8, L>,
    places: &mut IndexMap<Name8, P>,
) -> Result<(), AllocError>
    ensures lines { lines.new.entries ≡ lines.old.entries }
    ensures places { places.new.entries ≡ places.old.entries }
    ensures room_of_lines { OnOk result (1 ≤ spare lines.new) }
    ensures room_of_places { OnOk result (1 ≤ spare places.new) }
    ensures succeeds { 1 ≤ spare lines.old → 1 ≤ spare places.old → IsOk result }
{
    lines.reserve(1)?;
    places.reserve(1)
}

impl Sources {
    /// What is kept where no source has defined a program. It takes no memory.
    pub fn new(alloc: Global) -> Sources
        ensures { result ≡ record { lines = []; places = [] } }
    {
        Sources {
            lines: IndexMap::new(alloc),
            places: IndexMap::new(alloc),
        }
    }

    /// The lines of a program's source; none of a program that no source defined. It takes no memory.
    pub fn source_lines(&self, name: Name8) -> &[Text]
        ensures { result.now ≡ source_lines self.now name }
    {
        match self.lines.get(&name) {
            Some(lines) => lines.as_slice(),
            None => &[],
        }
    }

    /// Where the statements of the programs are. It takes no memory.
    pub fn places(&self) -> &SourcePlaces
        ensures { result.now.entries ≡ self.now.places }
    {
        &self.places
    }

    /// Makes room for one program more; what is kept stays as it is.
    ///
    /// An error comes only where memory for it was refused.
    pub fn make_room(&mut self) -> Result<(), AllocError>
        ensures { self.new ≡ self.old }
    {
        make_room_in(&mut self.lines, &mut self.places)
    }

    /// Keeps a source's lines, and where its statements are (`places`, as `statement_places` gives them), where the
    /// source defined its program (`is_new`); else nothing changes.
    ///
    /// An error comes only where memory for them was refused.
    pub fn keep(
        &mut self,
        name: Name8,
        lines: List<Text>,
        places: List<StatementPlace>,
        is_new: bool,
    ) -> Result<(), AllocError>
        requires { places ≡ statement_places lines }
        ensures { OnOk result (self.new ≡ (if is_new then with_source_lines self.old name lines else self.old)) }
    {
        if !is_new {
            return Ok(());
        }
        self.lines.insert(name, lines)?;
        self.places.insert(name, places)?;
        Ok(())
    }
}
