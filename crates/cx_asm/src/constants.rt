//! What the constants of DS, DC and literals make.

ghost use Rattle.std.specs.Prelude.{◌≡◌, IfOk, Ok, OnOk, false, map, option_map, true};
ghost use Rattle.std.specs.Result.{result_err};
ghost use Rattle.cx_asm_expressions.specs.Faults.{lowest};
ghost use Rattle.cx_asm_expressions.specs.Items.{constant_in};
ghost use Rattle.cx_asm_pass2.specs.SecondFaults.{item_fault};
ghost use Rattle.cx_asm_pass2.specs.Whole.{item_made, whole_by};
ghost use Rattle.cx_asm.specs.Parts.Kept.{FitsSection, kept};
ghost use Rattle.cx_asm.specs.Parts.Passing.{literal_standing};
ghost use Rattle.cx_asm.specs.Resolving.{constant_standing, counter_at, data_standing, item_standing, items_standing, pool_standing, space_standing};

use crate::pass::SecondPass;
use crate::standing::Standing;
use cx_asm_expressions::{Constant, ConstantBytes, FaultKind, TermFault, Value, lower};
use cx_asm_pass1::location_counter;
use cx_asm_pass2::{Statement, StatementItem, counter_of, item_made, made_fault};
use cx_asm_pools::{Literal, Pool};
use std::alloc::AllocError;

/// Where the location counter is for the statement of a number.
fn counter_at(statements: &[Statement<'_>], user: usize) -> Option<Value>
    ensures { result ≡ counter_at statements.now user }
{
    counter_of(statements.get(user)?)
}

impl SecondPass<'_, '_, '_> {
    /// Appends the copies of a constant, by what one of them is, if they are kept.
    #[tactic(auto, using(crate::proofs::JoinLemmas::kept_nothing))]
    fn push_made(
        &self,
        at: u128,
        text: &[u8],
        made: &ConstantBytes,
        standing: &mut Standing,
    ) -> Result<(), AllocError>
        requires { let stands = constant_standing at (constant_in false text.now) (Ok made.now) in
            FitsSection self.now.keeps standing.old stands }
        ensures { let stands = constant_standing at (constant_in false text.now) (Ok made.now) in
            OnOk result (standing.new ≡ kept self.now.keeps standing.old stands) }
    {
        match Constant::read(text, false) {
            Ok(item) => self.push_data(at, item.duplication(), made, standing),
            Err(_) => Ok(()),
        }
    }

    /// Appends an item of a DC, or a literal, at an offset, if it is kept. Its fault is answered, if it has one.
    #[tactic(auto, using(crate::proofs::JoinLemmas::kept_refused))]
    fn push_constant(
        &self,
        counter: Option<Value>,
        text: &[u8],
        at: u128,
        standing: &mut Standing,
    ) -> Result<Option<FaultKind>, AllocError>
        requires { let stands = data_standing (whole_by self.now.places.now) counter text.now at in
            FitsSection self.now.keeps standing.old stands }
        ensures standing { let stands = data_standing (whole_by self.now.places.now) counter text.now at in
            OnOk result (standing.new ≡ kept self.now.keeps standing.old stands) }
        ensures fault { let whole = whole_by self.now.places.now in
            IfOk result (λ fault. fault ≡ result_err (item_made whole false counter text.now)) }
    {
        match item_made(self.alloc, self.places, false, counter, text) {
            Ok(made) => {
                self.push_made(at, text, &made, standing)?;
                Ok(None)
            }
            Err(TermFault::Refused(fault)) => Ok(Some(fault)),
            Err(TermFault::Memory) => Err(AllocError),
        }
    }

    /// Appends an item of a DS, if it is kept.
    #[tactic(auto, using(crate::proofs::JoinLemmas::kept_nothing))]
    fn push_reserved(
        &self,
        at: u128,
        text: &[u8],
        standing: &mut Standing,
    ) -> Result<(), AllocError>
        requires { FitsSection self.now.keeps standing.old (space_standing at (constant_in true text.now)) }
        ensures { let stands = space_standing at (constant_in true text.now) in
            OnOk result (standing.new ≡ kept self.now.keeps standing.old stands) }
    {
        match Constant::read(text, true) {
            Ok(item) => self.push_space(at, item.size(), standing),
            Err(_) => Ok(()),
        }
    }

    /// Appends an item of a DS or DC, if it is kept. Its fault is answered, if it has one.
    fn push_item(
        &self,
        is_ds: bool,
        statement: &Statement<'_>,
        item: &StatementItem<'_>,
        standing: &mut Standing,
    ) -> Result<Option<FaultKind>, AllocError>
        requires { let stands = item_standing (whole_by self.now.places.now) is_ds statement.now item.now in
            FitsSection self.now.keeps standing.old stands }
        ensures standing { let stands = item_standing (whole_by self.now.places.now) is_ds statement.now item.now in
            OnOk result (standing.new ≡ kept self.now.keeps standing.old stands) }
        ensures fault { let whole = whole_by self.now.places.now in
            IfOk result (λ fault. fault ≡ item_fault whole is_ds statement.now item.now) }
    {
        let at = item.offset();
        let counter = location_counter(statement.place().section, at, 1);
        if is_ds {
            self.push_reserved(at, item.text(), standing)?;
            return made_fault(self.alloc, self.places, true, counter, item.text());
        }
        self.push_constant(counter, item.text(), at, standing)
    }

    /// Appends the items of a DS or DC, if they are kept. Their lowest fault is answered, if they have one.
    #[tactic(auto, using(crate::proofs::JoinLemmas::kept_nothing, cx_asm_expressions::specs::Facts::Faults::lower_nothing))]
    pub(crate) fn push_items(
        &self,
        is_ds: bool,
        statement: &Statement<'_>,
        items: &[StatementItem<'_>],
        standing: &mut Standing,
    ) -> Result<Option<FaultKind>, AllocError>
        requires { let stands = items_standing (whole_by self.now.places.now) is_ds statement.now items.now in
            FitsSection self.now.keeps standing.old stands }
        ensures standing { let stands = items_standing (whole_by self.now.places.now) is_ds statement.now items.now in
            OnOk result (standing.new ≡ kept self.now.keeps standing.old stands) }
        ensures fault { let whole = whole_by self.now.places.now in
            IfOk result (λ fault. fault ≡ lowest (map (item_fault whole is_ds statement.now) items.now)) }
    {
        let mut fault = None;
        for item in items {
            let other = self.push_item(is_ds, statement, item, standing)?;
            fault = lower(fault, other);
        }
        Ok(fault)
    }

    /// Appends a literal, if there is one and it is kept.
    #[tactic(auto, using(crate::proofs::JoinLemmas::kept_nothing))]
    fn push_literal(
        &self,
        literal: Option<(&[u8], Literal)>,
        standing: &mut Standing,
    ) -> Result<(), AllocError>
        requires { let it = option_map (λ e. (e.0.now, e.1)) literal in
            let stands = literal_standing (whole_by self.now.places.now) self.now.statements.now it in
            FitsSection self.now.keeps standing.old stands }
        ensures { let it = option_map (λ e. (e.0.now, e.1)) literal.entry in
            let stands = literal_standing (whole_by self.now.places.now) self.now.statements.now it in
            OnOk result (standing.new ≡ kept self.now.keeps standing.old stands) }
    {
        let Some((text, literal)) = literal else {
            return Ok(());
        };
        let counter = counter_at(self.statements, literal.user);
        self.push_constant(counter, text, literal.offset, standing)?;
        Ok(())
    }

    /// Appends the literals of a pool, if they are kept.
    #[tactic(auto, using(crate::proofs::JoinLemmas::kept_nothing))]
    pub(crate) fn push_pool(
        &self,
        pool: &Pool<'_>,
        standing: &mut Standing,
    ) -> Result<(), AllocError>
        requires { let stands = pool_standing (whole_by self.now.places.now) self.now.statements.now pool.now in
            FitsSection self.now.keeps standing.old stands }
        ensures { let stands = pool_standing (whole_by self.now.places.now) self.now.statements.now pool.now in
            OnOk result (standing.new ≡ kept self.now.keeps standing.old stands) }
    {
        for index in 0..pool.len() {
            self.push_literal(pool.literal(index), standing)?;
        }
        Ok(())
    }
}
