//! What follows from the definitions of entries, of the choice and of the nearest exit.
ghost use Rattle.std.specs.Prelude.{◌≡◌, ◌≢◌, ◌∷◌, ℕ, List, Option, length, is_some, not};
ghost use Rattle.cx_base.specs.Conditions.{abend_code_of, handled_conditions};
ghost use Rattle.cx_base.specs.declared.conditions.Condition.{Condition};
ghost use Rattle.cx_base.specs.declared.conditions.Condition.TheVariants.{Error, Normal};
ghost use Rattle.cx_program.specs.Entries.{entry_for, with_entry};
ghost use Rattle.cx_program.specs.Handles.{condition_waits};
ghost use Rattle.cx_program.specs.Levels.{IsNearestExit};
ghost use Rattle.cx_program.specs.declared.entries.Entries.{Entries};
ghost use Rattle.cx_program.specs.declared.entries.Handler.{Handler};
ghost use Rattle.cx_program.specs.declared.level.Level.{Level};

/// Giving a condition an entry changes that condition's entry, and no other.
#[tactic(auto, using(crate::proofs::HandleLemmas::entry_for_same, crate::proofs::HandleLemmas::entry_for_other))]
pub fn an_entry_is_given_to_one_condition()
    ensures given { (entries : Entries) (condition : Condition) (entry : Handler)
        → length entries.of ≡ length (Normal ∷ handled_conditions)
        → entry_for (with_entry entries condition entry) condition ≡ entry }
    ensures others { (entries : Entries) (condition other : Condition) (entry : Handler) → other ≢ condition
        → entry_for (with_entry entries condition entry) other ≡ entry_for entries other }
{}

/// Two sets of entries, each with one for every condition, are equal where they have the same entry for each condition.
#[tactic(auto, using(crate::proofs::HandleLemmas::entries_same))]
pub fn entries_are_their_answers()
    ensures { (a b : Entries) → length a.of ≡ length (Normal ∷ handled_conditions)
        → length b.of ≡ length (Normal ∷ handled_conditions)
        → ((condition : Condition) → entry_for a condition ≡ entry_for b condition) → a ≡ b }
{}

/// A condition other than NORMAL and ERROR has an abend code exactly where it doesn't wait.
#[tactic(auto, using(crate::proofs::HandleLemmas::has_code_or_waits))]
pub fn conditions_wait_or_abend()
    ensures { (condition : Condition) → condition ≢ Normal → condition ≢ Error
        → is_some (abend_code_of condition) ≡ not (condition_waits condition) }
{}

/// A task's levels have one nearest exit, or none.
#[tactic(auto, using(crate::specs::Facts::NearestExit::nearest_exit_one))]
pub fn the_nearest_exit_is_one()
    ensures { (levels : List Level) (one other : Option ℕ) → IsNearestExit levels one → IsNearestExit levels other
        → one ≡ other }
{}
