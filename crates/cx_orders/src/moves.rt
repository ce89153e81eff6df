//! Moves of a region with keys that are to come, as a space of states.

ghost use Rattle.std.specs.Prelude.{◌≡◌, ◌<◌, ◌+◌, ◌||◌, IfOk, IfNone, IfSome, None, Some, if◌then◌else◌, slice_get, slice_set, true, length};
ghost use Rattle.std.specs.List.{AllByRecursion};
ghost use Rattle.std.specs.Option.{option_copied};
ghost use Rattle.cx_orders.specs.Facts.Keys.{AreFew-prop};
ghost use Rattle.cx_orders.specs.Parts.{IsAsked, IsNowhere, has_come};
ghost use Rattle.cx_look_tasks.specs.Activities.{is_acting};
ghost use Rattle.cx_orders.specs.Incidents.{incident_of_key, with_incident};
ghost use Rattle.cx_orders.specs.Moves.{IsFew, Moves, TurnMoves, is_ready, is_taken, key_number, keys_of, turn_number};
ghost use Rattle.cx_search.specs.Moves.{GoesTo};

use crate::incidents::{incident_of_key, incident_of_turn, with_incident};
use crate::states::{IncidentAt, KeyLine, Keys, OrdersState};
use cx_base::List;
use cx_ebcdic::Name4;
use cx_look_tasks::laws::{activities_decide, waits_are_reported};
use cx_look_tasks::{Activity, Wait, activity};
use cx_region::{KeyReply, Region};
use cx_region_laws::laws::calls_decide;
use cx_region_snapshot::RegionSnapshot;
use cx_region_task::laws::half_turns_stay;
use cx_search::Space;
use cx_storage::Store;
use std::alloc::{AllocError, Global};
use std::marker::PhantomData;

/// The orders of a region's turns and of these keys, each of at most 1,920 bytes.
#[derive(Drop)]
pub struct Orders<S: Store + Drop> {
    pub alloc: Global,
    /// The keys that are to come.
    pub keys: Keys,
    pub stores: PhantomData<S>,
    ghost few: { AllByRecursion IsFew keys.lines } by { AreFew-prop keys.lines },
}

/// What is known of a terminal, to find its moves.
#[derive(Clone, Copy)]
pub struct Asked {
    /// The terminal's name.
    pub name: Name4,
    /// Its number in the order of the terminals' definition, counted from 0.
    pub number: usize,
    /// How many of its keys came.
    pub came: usize,
    /// What it is doing.
    pub doing: Activity,
}

/// Whether an operator could press a key. It takes no memory.
pub fn is_ready(activity: &Activity) -> bool
    ensures { result ≡ is_ready activity.now }
{
    matches!(activity, Activity::NoTask | Activity::Waiting(Wait::Input))
}

/// Whether a key is taken, by its answer.
fn is_taken(reply: KeyReply) -> bool
    ensures { result ≡ is_taken reply }
{
    !matches!(reply, KeyReply::AlreadyHeldInput)
}

/// Whether a key that was pressed has come: one that is typed ahead only where it was taken.
fn has_come(typed_ahead: bool, reply: KeyReply) -> bool
    ensures { result ≡ has_come typed_ahead reply }
{
    if typed_ahead { is_taken(reply) } else { true }
}

/// The key of a terminal that comes when `came` of its keys have come; None where no more is left.
pub fn key_of(keys: &[KeyLine], name: Name4, came: usize) -> Option<&KeyLine>
    ensures { option_copied result ≡ slice_get (keys_of keys.now name) came }
{
    let mut left = came;
    for key in keys {
        if key.name == name {
            if left == 0 {
                return Some(key);
            }
            left -= 1;
        }
    }
    None
}

/// How many keys of each terminal came, with one more of one of them.
///
/// An error comes only where an allocation failed.
fn come_with(
    alloc: Global,
    come: &[usize],
    number: usize,
    came: usize,
) -> Result<List<usize>, AllocError>
    requires { number < length come.now }
    ensures { IfOk result (λ all. all ≡ slice_set come.now number came) }
{
    let mut all = Vec::from_slice(alloc, come)?;
    all[number] = came;
    Ok(List::from_vec(all))
}

/// What the terminal with that number is doing; `None` where there is none.
fn about_terminal<S: Store + Drop>(
    region: &Region<S>,
    from: &OrdersState,
    number: usize,
) -> Option<Asked>
    requires { region.now ≡ from.now.region }
    ensures asked { IfSome result (IsAsked from.now number) }
    ensures none { IfNone result (IsNowhere from.now number) }
{
    region.counter();
    let came = *from.come.as_slice().get(number)?;
    let (name, terminal) = region.terminals().get_index(number)?;
    let doing = activity(region, terminal);
    Some(Asked {
        name: *name,
        number,
        came,
        doing,
    })
}

impl<S: Store + Drop> Orders<S> {
    /// The key of a terminal that may come next, as far as what its task is doing says: any that is typed ahead.
    fn next_key(&self, asked: &Asked) -> Option<&KeyLine>
        ensures { option_copied result
            ≡ (if self.now.keys.typed_ahead || is_ready asked.now.doing
            then slice_get (keys_of self.now.keys.lines asked.now.name) asked.now.came else None) }
    {
        if !self.keys.typed_ahead && !is_ready(&asked.doing) {
            return None;
        }
        key_of(self.keys.lines.as_slice(), asked.name, asked.came)
    }

    /// The state that a move leads to, by the region after it, how many keys came, and what is kept of the moves.
    ///
    /// An error comes only where an allocation failed.
    fn moved(
        &self,
        region: &Region<S>,
        from: &OrdersState,
        come: List<usize>,
        incidents: List<IncidentAt>,
    ) -> Result<OrdersState, AllocError>
        ensures region { IfOk result (λ to. to.region ≡ region.now) }
        ensures come { IfOk result (λ to. to.come ≡ come) }
        ensures incidents { IfOk result (λ to. to.incidents ≡ incidents) }
    {
        let region = RegionSnapshot::take(self.alloc, region, Some(&from.region))?;
        Ok(OrdersState {
            region,
            come,
            incidents,
        })
    }

    /// A turn of a terminal, from a state that the region was given.
    ///
    /// An error comes only where an allocation failed.
    fn turned(
        &self,
        region: &mut Region<S>,
        from: &OrdersState,
        asked: &Asked,
    ) -> Result<OrdersState, AllocError>
        requires given { region.old ≡ from.now.region }
        requires asked { IsAsked from.now asked.now.number asked.now }
        requires acts { is_acting asked.now.doing ≡ true }
        ensures { IfOk result (λ to. TurnMoves from.now asked.now.number asked.now.name to) }
    {
        waits_are_reported();
        half_turns_stay();
        let reply = region.turn(asked.name)?;
        let come = List::from_slice(self.alloc, from.come.as_slice())?;
        let incident = incident_of_turn(reply);
        let before = from.incidents.as_slice();
        let incidents = with_incident(self.alloc, asked.number, incident, before)?;
        let to = self.moved(region, from, come, incidents)?;
        Ok(to)
    }

    /// The state after a key that came, by the region after it and the key's answer.
    ///
    /// An error comes only where an allocation failed.
    fn pressed(
        &self,
        region: &Region<S>,
        from: &OrdersState,
        asked: &Asked,
        reply: KeyReply,
    ) -> Result<OrdersState, AllocError>
        requires asked { slice_get from.now.come asked.now.number ≡ Some asked.now.came }
        requires left { asked.now.came < length self.now.keys.lines }
        ensures region { IfOk result (λ to. to.region ≡ region.now) }
        ensures come { IfOk result (λ to. to.come ≡ slice_set from.now.come asked.now.number (asked.now.came + 1)) }
        ensures incidents { IfOk result (λ to. to.incidents
            ≡ with_incident asked.now.number (incident_of_key reply) from.now.incidents) }
    {
        self.keys.lines.as_slice().len();
        let came = asked.came + 1;
        let come = come_with(self.alloc, from.come.as_slice(), asked.number, came)?;
        let incident = incident_of_key(reply);
        let before = from.incidents.as_slice();
        let incidents = with_incident(self.alloc, asked.number, incident, before)?;
        let to = self.moved(region, from, come, incidents)?;
        Ok(to)
    }

    /// A key of a terminal, from a state that the region was given; `None` where it is typed ahead and isn't taken.
    ///
    /// An error comes only where an allocation failed.
    fn keyed(
        &self,
        region: &mut Region<S>,
        from: &OrdersState,
        asked: &Asked,
        key: &KeyLine,
    ) -> Result<Option<OrdersState>, AllocError>
        requires given { region.old ≡ from.now.region }
        requires asked { IsAsked from.now asked.now.number asked.now }
        requires may { (self.now.keys.typed_ahead || is_ready asked.now.doing) ≡ true }
        requires next { slice_get (keys_of self.now.keys.lines asked.now.name) asked.now.came ≡ Some key.now }
        ensures { IfOk result (GoesTo (Moves self.now.keys) from.now (key_number asked.now.number)) }
    {
        calls_decide();
        let reply = region.key(asked.name, key.aid, key.bytes.as_slice())?;
        if has_come(self.keys.typed_ahead, reply) {
            let to = self.pressed(region, from, asked, reply)?;
            return Ok(Some(to));
        }
        Ok(None)
    }

    /// The state to which a turn of the terminal with that number leads; `None` where that is no move.
    ///
    /// An error comes only where an allocation failed.
    fn turn_to(
        &self,
        region: &mut Region<S>,
        from: &OrdersState,
        number: usize,
    ) -> Result<Option<OrdersState>, AllocError>
        ensures { IfOk result (GoesTo (Moves self.now.keys) from.now (turn_number number)) }
    {
        calls_decide();
        waits_are_reported();
        half_turns_stay();
        from.region.restore(region)?;
        let Some(asked) = about_terminal(region, from, number) else {
            return Ok(None);
        };
        if asked.doing.is_acting() {
            let to = self.turned(region, from, &asked)?;
            return Ok(Some(to));
        }
        Ok(None)
    }

    /// The state to which the next key of the terminal with that number leads; `None` where it may not come.
    ///
    /// An error comes only where an allocation failed.
    fn key_to(
        &self,
        region: &mut Region<S>,
        from: &OrdersState,
        number: usize,
    ) -> Result<Option<OrdersState>, AllocError>
        ensures { IfOk result (GoesTo (Moves self.now.keys) from.now (key_number number)) }
    {
        activities_decide();
        if self.keys.lines.as_slice().is_empty() {
            return Ok(None);
        }
        from.region.restore(region)?;
        let Some(asked) = about_terminal(region, from, number) else {
            return Ok(None);
        };
        let Some(key) = self.next_key(&asked) else {
            return Ok(None);
        };
        self.keyed(region, from, &asked, key)
    }
}

impl<S: Store + Drop> Space for Orders<S> {
    type State = OrdersState;

    type Work = Region<S>;

    ghost goes = { λ orders. Moves orders.keys };

    #[tactic(auto, using(crate::proofs::MoveLemmas::numbered))]
    fn count(&self, from: &OrdersState) -> usize {
        2 * from.come.as_slice().len()
    }

    fn go(
        &self,
        region: &mut Region<S>,
        from: &OrdersState,
        number: usize,
    ) -> Result<Option<OrdersState>, AllocError> {
        if number % 2 == 0 {
            self.turn_to(region, from, number / 2)
        } else {
            self.key_to(region, from, number / 2)
        }
    }

    ghost use Rattle.cx_orders.specs.Facts.Same.{same_is};

    ghost same = { same_is };
}
