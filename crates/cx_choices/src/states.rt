//! The states that keys lead to, and what happens on the way.

ghost use Rattle.std.specs.Prelude.{◌≡◌, ◌↔◌, IsTrue};

use cx_base::{List, Same};
use cx_region::{KeyReply, TurnReply};
use cx_region_snapshot::RegionSnapshot;
use std::hash::{Hash, Hasher};

/// A turn that was made.
#[derive(Clone, Copy)]
pub struct TurnMade {
    /// The terminal's number in the order of their definition, counted from 0.
    pub number: usize,
    /// What it was answered.
    pub reply: TurnReply,
}

impl Same for TurnMade {
    fn is_same(&self, other: &Self) -> bool {
        self.number == other.number && self.reply == other.reply
    }
}

/// What happens when a key is pressed: what it is answered, the turns until no terminal can act, and the region then.
#[derive(Drop)]
pub struct Passage {
    /// What the key is answered.
    pub reply: KeyReply,
    /// The turns that follow it, in their order.
    pub made: List<TurnMade>,
    /// The region after them.
    pub after: RegionSnapshot,
}

/// A state: the region alone, so that states that are the same are met once.
#[derive(Drop)]
pub struct ChoicesState {
    /// The region.
    pub region: RegionSnapshot,
}

impl Same for ChoicesState {
    fn is_same(&self, other: &Self) -> bool {
        self.region.is_same(&other.region)
    }
}

impl PartialEq for ChoicesState {
    ghost use Rattle.cx_choices.specs.Facts.Same.{same_choices, same_laws};

    ghost eq = { same_choices };

    ghost laws = { same_laws };

    #[tactic(auto, using(crate::specs::Facts::Same::same_as))]
    fn eq(&self, other: &ChoicesState) -> bool {
        self.is_same(other)
    }
}

impl Eq for ChoicesState {
    ghost use Rattle.cx_choices.specs.Facts.Same.{same_equivalence};

    ghost laws = { same_equivalence };
}

impl Hash for ChoicesState {
    ghost use Rattle.std.specs.Hash as fed;
    ghost use Rattle.cx_region_snapshot.specs.Hash.{region_hash};
    ghost use Rattle.cx_choices.specs.Facts.Same.{hash_alike};

    ghost hash_input = { λ state. fed.u64 (region_hash state.region) };

    ghost respects_eq = { hash_alike };

    fn hash<H: Hasher>(&self, state: &mut H) {
        state.write_u64(self.region.hash());
    }
}
