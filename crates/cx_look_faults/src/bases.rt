//! What bases depend on.

ghost use Rattle.std.specs.Prelude.{◌≡◌, ◌==◌, IfOk};
ghost use Rattle.std.specs.List.{list_any};
ghost use Rattle.cx_look_faults.specs.Faults.{base_lines, begins_any, loses_bases, lost_from, sets_bases};
ghost use Rattle.cx_translate.specs.Sections.{begins_section, has_operation};

use crate::faults::FaultyLine;
use cx_source::Item;
use std::alloc::{AllocError, Global};

/// The lines of a source that bases depend on.
#[derive(Drop)]
pub(crate) struct BaseLines {
    /// Whether a control section begins.
    pub(crate) has_section: bool,
    /// The lines with a USING, and those on which sections begin.
    pub(crate) lines: Vec<usize>,
}

/// Whether a statement of an operation begins on a line.
fn has_operation(item: &Item, operation: &[u8]) -> bool
    ensures { result ≡ has_operation operation.now item.now.stmt }
{
    match &item.stmt {
        Some(stmt) => stmt.operation.as_slice() == operation,
        None => false,
    }
}

/// Whether the control section begins or goes on after a line.
#[tactic(auto, unfolding(cx_translate::specs::Sections::begins_section))]
pub(crate) fn begins_section(item: &Item) -> bool
    ensures { result ≡ begins_section item.now }
{
    has_operation(item, b"CSECT") || has_operation(item, b"START")
}

/// Whether a section begins on a line.
pub(crate) fn begins_any(item: &Item) -> bool
    ensures { result ≡ begins_any item.now }
{
    begins_section(item) || has_operation(item, b"DSECT")
}

/// Whether a USING begins on a line, or a section.
#[tactic(auto, unfolding(crate::specs::Faults::sets_bases))]
fn sets_bases(item: &Item) -> bool
    ensures { result ≡ sets_bases item.now }
{
    has_operation(item, b"USING") || begins_any(item)
}

/// Whether a control section begins.
fn has_section(items: &[Item]) -> bool
    ensures { result ≡ list_any begins_section items.now }
{
    items.iter().any(|item| begins_section(item))
}

/// Whether a line is among others.
fn has_line(lines: &[usize], number: usize) -> bool
    ensures { result ≡ list_any (λ line. line == number) lines.now }
{
    lines.iter().any(|line| *line == number)
}

impl BaseLines {
    /// Those of lines.
    pub(crate) fn of(alloc: Global, items: &[Item]) -> Result<BaseLines, AllocError>
        ensures section { IfOk result (λ bases. bases.has_section ≡ list_any begins_section items.now) }
        ensures lines { IfOk result (λ bases. bases.lines.items ≡ base_lines items.now) }
    {
        let mut lines = Vec::new(alloc);
        for item in items {
            if sets_bases(item) {
                lines.push(item.line)?;
            }
        }
        Ok(BaseLines {
            has_section: has_section(items),
            lines,
        })
    }

    /// Whether bases are lost by a fault.
    fn loses_bases(&self, fault: FaultyLine) -> bool
        ensures { result ≡ loses_bases self.now.has_section self.now.lines.items fault }
    {
        !self.has_section || has_line(self.lines.as_slice(), fault.line)
    }

    /// The first line by whose fault bases are lost, after one more fault.
    #[tactic(auto, unfolding(crate::specs::Faults::lost_from))]
    pub(crate) fn lost_from(&self, from: Option<usize>, fault: FaultyLine) -> Option<usize>
        ensures { result ≡ lost_from self.now.has_section self.now.lines.items from fault }
    {
        if !self.loses_bases(fault) {
            return from;
        }
        match from {
            Some(first) => Some(fault.line.min(first)),
            None => Some(fault.line),
        }
    }
}
