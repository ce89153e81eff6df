//! The faults of all lines.

ghost use Rattle.std.specs.Prelude.{◌≡◌, [], IfOk, OnOk, map};
ghost use Rattle.cx_asm_pass1.specs.AllFaults.{with_fault};
ghost use Rattle.cx_asm_pass1.specs.PassState.{line_fault};
ghost use Rattle.cx_asm_pass1.specs.Parts.Faulty.{lowest_with};

use crate::place::LineFault;
use cx_asm_expressions::{FaultKind, lower_of};
use cx_base::List;
use indexmap::IndexMap;
use std::alloc::{AllocError, Global};
use std::marker::Model;

/// The lower one of a line's fault in a table and a second one.
fn lowest_with(table: &IndexMap<usize, FaultKind>, line: usize, kind: FaultKind) -> FaultKind
    ensures { result ≡ lowest_with line kind table.now.entries }
{
    match table.get(&line) {
        Some(first) => lower_of(*first, kind),
        None => kind,
    }
}

/// The faults of a table.
fn listed(alloc: Global, table: &IndexMap<usize, FaultKind>) -> Result<Vec<LineFault>, AllocError>
    ensures { IfOk result (λ faults. faults.items ≡ map (λ entry. line_fault entry.0 entry.1) table.now.entries) }
{
    let mut faults = Vec::new(alloc);
    for (line, kind) in table.iter() {
        faults.push(LineFault {
            line: *line,
            kind: *kind,
        })?;
    }
    Ok(faults)
}

/// The faults of lines: of each the lowest, in the order in which their first ones were met.
#[derive(Drop)]
pub struct LineFaults {
    lowest: IndexMap<usize, FaultKind>,
}

impl Model for LineFaults {
    ghost use Rattle.std.specs.Prelude.{List as Elements, map, ℕ};
    ghost use Rattle.cx_asm_pass1.specs.PassState.{line_fault};
    ghost use Rattle.cx_asm_expressions.specs.declared.faults.FaultKind.{FaultKind as FaultKindValue};
    ghost use Rattle.cx_asm_pass1.specs.declared.place.LineFault.{LineFault as LineFaultValue};

    ghost Value = { Elements LineFaultValue };

    ghost view = { λ faults. map (λ (entry : ℕ × FaultKindValue). line_fault entry.0 entry.1) faults.lowest.entries };
}

impl LineFaults {
    /// A list without a fault. It takes no memory.
    pub fn new(alloc: Global) -> LineFaults
        ensures { result ≡ [] }
    {
        LineFaults {
            lowest: IndexMap::new(alloc),
        }
    }

    /// Puts a fault of a line after the others, if there is one; where the line has one already, the lower one takes
    /// its place.
    ///
    /// An error comes only where an allocation failed.
    pub fn add(&mut self, line: usize, fault: Option<FaultKind>) -> Result<(), AllocError>
        ensures { OnOk result (self.new ≡ with_fault line fault self.old) }
    {
        let Some(kind) = fault else {
            return Ok(());
        };
        let lowest = lowest_with(&self.lowest, line, kind);
        self.lowest.insert(line, lowest)?;
        Ok(())
    }

    /// The faults in their order.
    ///
    /// An error comes only where an allocation failed.
    pub fn to_list(&self, alloc: Global) -> Result<List<LineFault>, AllocError>
        ensures { IfOk result (λ faults. faults ≡ self.now) }
    {
        Ok(List::from_vec(listed(alloc, &self.lowest)?))
    }
}
