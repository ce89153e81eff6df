//! Keys of an operator, as a space of states.

ghost use Rattle.std.specs.Prelude.{◌≡◌, ◌≤◌, IfOk, IfSome, MatchOption, slice_get, true, unwrap_or};
ghost use Rattle.std.specs.Coded.{le_prop};
ghost use Rattle.std.specs.List.{AllByRecursion};
ghost use Rattle.std.specs.Option.{option_copied};
ghost use Rattle.cx_choices.specs.Moves.{ChoosesTo, Goes, IsReady, Presses, numbered};
ghost use Rattle.cx_orders.specs.Facts.Keys.{AreFew-prop};
ghost use Rattle.cx_orders.specs.Moves.{IsFew};

use crate::acting::{can_press, first_to_act};
use crate::numbers::renumber;
use crate::settling::settle;
use crate::states::{ChoicesState, Passage};
use cx_orders::KeyLine;
use cx_region::Region;
use cx_region_laws::laws::calls_decide;
use cx_region_snapshot::RegionSnapshot;
use cx_search::Space;
use cx_storage::Store;
use std::alloc::{AllocError, Global};
use std::marker::PhantomData;

/// All lists of these keys, each of at most 1,920 bytes.
#[derive(Drop)]
pub struct Choices<S: Store + Drop> {
    pub alloc: Global,
    /// The keys: each may come any number of times, in any order.
    pub choices: Vec<KeyLine>,
    /// With one number, the number of the last task that each move begins with.
    pub one_number: Option<u32>,
    pub stores: PhantomData<S>,
    ghost few: { AllByRecursion IsFew choices.items } by { AreFew-prop choices.items },
    ghost small: { unwrap_or one_number 0 ≤ 9999999 } by { le_prop },
}

impl<S: Store + Drop> Choices<S> {
    /// The choice with a number.
    fn choice(&self, number: usize) -> Option<&KeyLine>
        ensures { option_copied result ≡ slice_get self.now.choices.items number }
    {
        self.choices.get(number)
    }

    /// Presses a key in a region. The snapshot of the region after it shares with `from` what is the same.
    ///
    /// An error comes only where an allocation failed.
    fn press(
        &self,
        region: &mut Region<S>,
        from: &RegionSnapshot,
        choice: &KeyLine,
    ) -> Result<Option<Passage>, AllocError>
        requires { IsFew choice.now }
        ensures pressed { IfOk result (λ passage. MatchOption passage (IsReady region.old choice.now.name → ⊥)
            (Presses choice.now region.old)) }
        ensures after { IfOk result (λ passage. IfSome passage (λ passage. region.new ≡ passage.after)) }
    {
        if !can_press(region, choice.name) {
            return Ok(None);
        }
        let reply = region.key(choice.name, choice.aid, choice.bytes.as_slice())?;
        let made = settle(self.alloc, region)?;
        let after = RegionSnapshot::take(self.alloc, region, Some(from))?;
        Ok(Some(Passage { reply, made, after }))
    }

    /// Makes a move, by its number, with one number of tasks or without, and gives what happens; `None` where it can't be
    /// made. It is made in the region that is given, which is left in the state after it; in any state where it can't be
    /// made, or on an error.
    ///
    /// An error comes only where an allocation failed.
    pub fn pass_with(
        &self,
        region: &mut Region<S>,
        from: &RegionSnapshot,
        number: usize,
        one_number: Option<u32>,
    ) -> Result<Option<Passage>, AllocError>
        requires { unwrap_or one_number 0 ≤ 9999999 }
        ensures chosen { IfOk result (ChoosesTo self.now.choices.items one_number from.now number) }
        ensures after { IfOk result (λ passage. IfSome passage (λ passage. region.new ≡ passage.after)) }
    {
        from.restore(region)?;
        if let Some(_actor) = first_to_act(region) {
            return Ok(None);
        }
        let Some(choice) = self.choice(number) else {
            return Ok(None);
        };
        renumber(region, one_number);
        let passage = self.press(region, from, choice)?;
        Ok(passage)
    }

    /// Makes a move, by its number, with one number where the choices have one.
    ///
    /// An error comes only where an allocation failed.
    pub fn pass(
        &self,
        region: &mut Region<S>,
        from: &RegionSnapshot,
        number: usize,
    ) -> Result<Option<Passage>, AllocError>
        ensures chosen { IfOk result (ChoosesTo self.now.choices.items self.now.one_number from.now number) }
        ensures after { IfOk result (λ passage. IfSome passage (λ passage. region.new ≡ passage.after)) }
    {
        self.pass_with(region, from, number, self.one_number)
    }

    /// The state that a move leads to with one number of tasks or without, of the region after it, at which the working
    /// region stands.
    ///
    /// An error comes only where an allocation failed.
    pub fn led_with(
        &self,
        region: &mut Region<S>,
        after: RegionSnapshot,
        one_number: Option<u32>,
    ) -> Result<ChoicesState, AllocError>
        requires same { region.old ≡ after }
        requires small { unwrap_or one_number 0 ≤ 9999999 }
        ensures { IfOk result (λ to. to.region ≡ numbered one_number after) }
    {
        if one_number.is_none() {
            return Ok(ChoicesState { region: after });
        }
        renumber(region, one_number);
        let region = RegionSnapshot::take(self.alloc, region, Some(&after))?;
        Ok(ChoicesState { region })
    }

    /// The state that a move leads to, with one number where the choices have one.
    ///
    /// An error comes only where an allocation failed.
    pub fn led_to(
        &self,
        region: &mut Region<S>,
        after: RegionSnapshot,
    ) -> Result<ChoicesState, AllocError>
        requires { region.old ≡ after }
        ensures { IfOk result (λ to. to.region ≡ numbered self.now.one_number after) }
    {
        self.led_with(region, after, self.one_number)
    }
}

impl<S: Store + Drop> Space for Choices<S> {
    type State = ChoicesState;

    type Work = Region<S>;

    ghost goes = { λ choices. Goes choices.choices.items choices.one_number };

    #[tactic(auto, using(crate::proofs::MoveLemmas::counted))]
    fn count(&self, _from: &ChoicesState) -> usize {
        self.choices.len()
    }

    fn go(
        &self,
        region: &mut Region<S>,
        from: &ChoicesState,
        number: usize,
    ) -> Result<Option<ChoicesState>, AllocError> {
        calls_decide();
        let Some(passage) = self.pass(region, &from.region, number)? else {
            return Ok(None);
        };
        let to = self.led_to(region, passage.after)?;
        Ok(Some(to))
    }

    ghost use Rattle.cx_choices.specs.Facts.Same.{same_is};

    ghost same = { same_is };
}
