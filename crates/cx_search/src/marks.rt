//! Places that are marked by the places that moves lead to, until no more are to be marked.

ghost use Rattle.std.specs.Prelude.{◌≡◌, ◌<◌, ◌≤◌, ◌+◌, ℕ, Bool, true, false, Some, IfOk, List as Items, length, slice_get, slice_set, replicate, ◌⊎◌, ◌||◌, ◌==◌};
ghost use Rattle.std.specs.List.{list_all, list_any};
ghost use Rattle.cx_search.specs.Parts.Marks.{AreRight, AreStable, is_due, is_marked, unmarked};
ghost use Rattle.cx_search.specs.Nexts.{AreLinked};

use crate::found::Found;
use crate::space::Space;
use cx_base::List;
use std::alloc::{AllocError, Global};

/// By which places, once they are marked, a place is marked too.
#[derive(Clone, Copy)]
pub enum Rule {
    /// By one that a move leads to; and where no move can be made.
    Any,
    /// By all that moves lead to.
    All,
    /// By one that a move leads to; and where one leads to this place.
    To(usize),
}

/// Whether a place is marked.
pub(crate) fn is_marked(marks: &[bool], place: usize) -> bool
    ensures { result ≡ is_marked marks.now place }
{
    marks.get(place).copied().unwrap_or(false)
}

/// Whether one of some places is marked.
fn is_any_marked(places: &[usize], marks: &[bool]) -> bool
    ensures { result ≡ list_any (is_marked marks.now) places.now }
{
    places.iter().any(|place| is_marked(marks, *place))
}

/// Whether all of some places are marked.
fn are_all_marked(places: &[usize], marks: &[bool]) -> bool
    ensures { result ≡ list_all (is_marked marks.now) places.now }
{
    places.iter().all(|place| is_marked(marks, *place))
}

/// Whether one of some places is that one, or is marked.
fn is_any_on(places: &[usize], target: usize, marks: &[bool]) -> bool
    ensures { result ≡ list_any (λ place. (place == target) || is_marked marks.now place) places.now }
{
    places
        .iter()
        .any(|place| *place == target || is_marked(marks, *place))
}

/// Whether a place is to be marked.
fn is_due(rule: Rule, nexts: &[usize], marks: &[bool]) -> bool
    ensures { result ≡ is_due rule nexts.now marks.now }
{
    match rule {
        Rule::Any => nexts.is_empty() || is_any_marked(nexts, marks),
        Rule::All => are_all_marked(nexts, marks),
        Rule::To(target) => is_any_on(nexts, target, marks),
    }
}

/// Marks a place, where it isn't marked and is to be; whether it did.
fn visit(rule: Rule, links: &Vec<List<usize>>, place: usize, marks: &mut Vec<bool>) -> bool
    requires within { place < length links.now.items }
    requires long { length marks.old.items ≡ length links.now.items }
    ensures marked { result ≡ true → (is_marked marks.old.items place ≡ false)
        × (marks.new.items ≡ slice_set marks.old.items place true)
        × ((nexts : Items ℕ) → slice_get links.now.items place ≡ Some nexts
        → is_due rule nexts marks.old.items ≡ true) }
    ensures left { result ≡ false → (marks.new.items ≡ marks.old.items)
        × ((nexts : Items ℕ) → slice_get links.now.items place ≡ Some nexts → is_marked marks.old.items place ≡ false
        → is_due rule nexts marks.old.items ≡ false) }
    ensures same { length marks.new.items ≡ length marks.old.items }
{
    if is_marked(marks.as_slice(), place) {
        return false;
    }
    if !is_due(rule, links[place].as_slice(), marks.as_slice()) {
        return false;
    }
    marks[place] = true;
    true
}

/// So many places, none of which is marked.
///
/// An error comes only where an allocation failed.
pub(crate) fn no_marks(alloc: Global, many: usize) -> Result<Vec<bool>, AllocError>
    ensures { IfOk result (λ marks. marks.items ≡ replicate many false) }
{
    vec![in alloc; false; many]
}

/// Whether one of two is true.
fn either(one: bool, other: bool) -> bool
    ensures either { result ≡ true → (one ≡ true) ⊎ (other ≡ true) }
    ensures neither { result ≡ false → (one ≡ false) × (other ≡ false) }
{
    one || other
}

impl<T: Space> Found<T> {
    /// Goes over all places once, from the last; whether it marked one.
    fn sweep(&self, rule: Rule, marks: &mut Vec<bool>) -> bool
        requires { length marks.old.items ≡ length self.now.links.items }
        ensures long { length marks.new.items ≡ length marks.old.items }
        ensures right { (space : T) (done : ℕ)
            → AreLinked (T.goes space) self.now.states.entries self.now.links.items done
            → AreRight (T.goes space) self.now.states.entries rule marks.old.items
            → AreRight (T.goes space) self.now.states.entries rule marks.new.items }
        ensures same { result ≡ false → marks.new.items ≡ marks.old.items }
        ensures stable { result ≡ false → AreStable self.now.links.items rule marks.new.items }
        ensures fewer { result ≡ true → unmarked marks.new.items < unmarked marks.old.items }
    {
        let len = self.links.len();
        let mut changed = false;
        for k in 0..len {
            let marked = visit(rule, &self.links, len - 1 - k, marks);
            changed = either(changed, marked);
        }
        changed
    }

    /// The marks of all places, once no more are to be marked.
    ///
    /// An error comes only where an allocation failed.
    pub(crate) fn marks(&self, rule: Rule) -> Result<Vec<bool>, AllocError>
        ensures long { IfOk result (λ marks. length marks.items ≡ length self.now.links.items) }
        ensures right { (space : T) (done : ℕ)
            → AreLinked (T.goes space) self.now.states.entries self.now.links.items done
            → IfOk result (λ marks. AreRight (T.goes space) self.now.states.entries rule marks.items) }
        ensures stable { IfOk result (λ marks. AreStable self.now.links.items rule marks.items) }
    {
        let mut marks = no_marks(self.alloc, self.links.len())?;
        let mut changed = true;
        while changed {
            changed = self.sweep(rule, &mut marks);
        }
        Ok(marks)
    }
}
