//! The states that orders lead to.

ghost use Rattle.std.specs.Prelude.{◌≡◌, ◌↔◌, IsTrue};

use cx_base::{List, Same, are_same_items};
use cx_code::Bytes;
use cx_ebcdic::{Aid, Name4};
use cx_region::KeyReply;
use cx_region_snapshot::RegionSnapshot;
use std::hash::{Hash, Hasher};

/// A key that is to come.
#[derive(Drop)]
pub struct KeyLine {
    /// The terminal.
    pub name: Name4,
    /// The key.
    pub aid: Aid,
    /// The bytes that it sends.
    pub bytes: Bytes,
    /// The line of a script that asks for it.
    pub line: List<u8>,
}

/// Keys that are to come.
#[derive(Drop)]
pub struct Keys {
    /// Whether a key may come at any moment at which the region takes it, while its terminal's task runs too; else it
    /// comes only where an operator could press it.
    pub typed_ahead: bool,
    /// The keys of all terminals; those of one terminal come in the order in which they stand here.
    pub lines: List<KeyLine>,
}

/// What no later state of the region shows, and what therefore is kept of the turns and keys that led to a state.
#[derive(Clone, Copy)]
pub enum Incident {
    /// The terminal's task ended by an abend of that code.
    Abended(Name4),
    /// A key of the terminal was answered so: neither Attached nor Given.
    Refused(KeyReply),
}

/// What was kept of a terminal.
#[derive(Clone, Copy)]
pub struct IncidentAt {
    /// The terminal's number in the order of their definition, counted from 0.
    pub number: usize,
    /// What happened there.
    pub incident: Incident,
}

/// A state: the region, how many of each terminal's keys came, in the order of the terminals' definition, and what is
/// kept of the way there.
#[derive(Drop)]
pub struct OrdersState {
    /// The region.
    pub region: RegionSnapshot,
    /// How many keys of each terminal came, in the order of the terminals' definition.
    pub come: List<usize>,
    /// What is kept of the way there.
    pub incidents: List<IncidentAt>,
}

impl Same for Incident {
    fn is_same(&self, other: &Self) -> bool {
        match (self, other) {
            (Incident::Abended(one), Incident::Abended(other)) => one.is_same(other),
            (Incident::Refused(one), Incident::Refused(other)) => one == other,
            _ => false,
        }
    }
}

impl Same for IncidentAt {
    fn is_same(&self, other: &Self) -> bool {
        self.number == other.number && self.incident.is_same(&other.incident)
    }
}

impl Same for OrdersState {
    fn is_same(&self, other: &Self) -> bool {
        self.come.as_slice() == other.come.as_slice()
            && are_same_items(self.incidents.as_slice(), other.incidents.as_slice())
            && self.region.is_same(&other.region)
    }
}

impl PartialEq for OrdersState {
    ghost use Rattle.cx_orders.specs.Facts.Same.{same_state, same_laws};

    ghost eq = { same_state };

    ghost laws = { same_laws };

    #[tactic(auto, using(crate::specs::Facts::Same::same_as))]
    fn eq(&self, other: &OrdersState) -> bool {
        self.is_same(other)
    }
}

impl Eq for OrdersState {
    ghost use Rattle.cx_orders.specs.Facts.Same.{same_equivalence};

    ghost laws = { same_equivalence };
}

impl Hash for OrdersState {
    ghost use Rattle.std.specs.Hash as fed;
    ghost use Rattle.cx_region_snapshot.specs.Hash.{region_hash};
    ghost use Rattle.cx_orders.specs.Facts.Same.{hash_alike};

    ghost hash_input = { λ state. fed.u64 (region_hash state.region) };

    ghost respects_eq = { hash_alike };

    fn hash<H: Hasher>(&self, state: &mut H) {
        state.write_u64(self.region.hash());
    }
}
