//! The conditions that a call lists, with their labels.
ghost use Rattle.std.specs.Prelude.{◌≡◌, ◌≤◌, ◌<◌, ◌^◌, ◌==◌, ◌++◌, ◌+◌, [], ◌∷◌, List, drop, length, slice_get};
ghost use Rattle.std.specs.List.{find};
ghost use Rattle.cx_base.specs.Conditions.{entry_of, handled_conditions};
ghost use Rattle.cx_base.specs.declared.legal.ListedCondition.{ListedCondition};
ghost use Rattle.cx_region_state.specs.Listed.{handled_with, conditions_with_labels, listed_of, listed_with};

use crate::call::Call;
use arrayvec::ArrayVec;
use cx_base::{Condition, ListedCondition};
use std::marker::Model;

/// The most conditions that HANDLE or IGNORE CONDITION lists.
const CONDITIONS: usize = 16;

/// A condition that HANDLE or IGNORE CONDITION lists.
#[derive(Clone, Copy, Default)]
pub struct Listed {
    /// The condition.
    pub condition: Condition,
    /// The address of its label (below 2^24), where it has one.
    pub label: Option<u32>,
}

/// The conditions that a call lists, at most sixteen, in their order. Contracts see it as the list of them.
#[derive(Drop)]
pub struct ListedConditions {
    entries: ArrayVec<Listed, CONDITIONS>,
}

impl Model for ListedConditions {
    ghost use Rattle.std.specs.Prelude.{List};
    ghost use Rattle.cx_region_state.specs.declared.listed.Listed.{Listed};

    ghost Value = { List Listed };

    ghost view = { λ conditions. conditions.entries.items };
}

impl ListedConditions {
    /// The conditions, in their order.
    pub fn as_slice(&self) -> &[Listed]
        ensures value { result.now ≡ self.now }
        ensures fits { length result.now ≤ 16 }
    {
        self.entries.as_slice()
    }
}

/// The condition of a number that may be listed.
#[tactic(auto, unfolding(crate::specs::Listed::handled_with))]
fn handled_with(number: u8) -> Option<Condition>
    ensures { result ≡ handled_with number }
{
    find_numbered(Condition::handled(), number)
}

/// The first of some conditions that has a number.
fn find_numbered(conditions: &[Condition], number: u8) -> Option<Condition>
    ensures { result ≡ find (λ condition. (entry_of condition).number == number) conditions.now }
{
    conditions
        .iter()
        .copied()
        .find(|condition| condition.number() == number)
}

/// One more condition with its label, appended to others; a number that is no condition's lists nothing.
fn push_listed(conditions: &mut ListedConditions, number: u8, label: Option<u32>)
    requires { length conditions.old < 16 }
    ensures value { conditions.new ≡ conditions.old ++ listed_with (handled_with number) label [] }
    ensures most { length conditions.new ≤ length conditions.old + 1 }
{
    if let Some(condition) = handled_with(number) {
        conditions.entries.push(Listed { condition, label });
    }
}

/// The address at an index.
fn address_at(places: &[u32], index: usize) -> Option<u32>
    ensures { result ≡ slice_get places.now index }
{
    places.get(index).copied()
}

/// One more condition of a list, where `labels` labels were taken before it. How many are taken then.
#[tactic(auto, using(crate::proofs::ListedLemmas::step_with, crate::proofs::ListedLemmas::step_without))]
fn push_entry(
    listed: &mut ListedConditions,
    entry: ListedCondition,
    places: &[u32],
    labels: usize,
) -> usize
    requires below_16 { length listed.old < 16 }
    requires labels { labels < 16 }
    ensures value { (later : List ListedCondition)
        → listed.new ++ conditions_with_labels later (drop result places.now)
        ≡ listed.old ++ conditions_with_labels (entry ∷ later) (drop labels places.now) }
    ensures most { length listed.new ≤ length listed.old + 1 }
    ensures labels { result ≤ labels + 1 }
{
    if entry.label == 0x80 {
        push_listed(listed, entry.number, address_at(places, labels));
        return labels + 1;
    }
    push_listed(listed, entry.number, None);
    labels
}

/// Each condition with its label: those with a label take the addresses in turn.
#[tactic(auto, using(crate::proofs::ListedLemmas::next_entry, crate::proofs::ListedLemmas::labelled_end))]
fn conditions_with_labels(conditions: &[ListedCondition], places: &[u32]) -> ListedConditions
    requires { length conditions.now ≤ 16 }
    ensures { result ≡ conditions_with_labels conditions.now places.now }
{
    let mut listed = ListedConditions {
        entries: ArrayVec::new(),
    };
    let mut labels = 0;
    for entry in conditions {
        labels = push_entry(&mut listed, *entry, places, labels);
    }
    listed
}

impl Call {
    /// The conditions that HANDLE or IGNORE CONDITION lists, in their order, each with the address of its label
    /// where it has one; none for other commands.
    #[tactic(auto, unfolding(crate::specs::Listed::listed_of))]
    pub fn listed(&self) -> ListedConditions
        ensures { result ≡ listed_of self.now }
    {
        conditions_with_labels(self.conditions(), self.places())
    }
}
