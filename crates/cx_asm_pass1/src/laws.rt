//! What follows from the definitions of the first pass.

ghost use Rattle.std.specs.Prelude.{◌≡◌, ◌≤◌, ◌++◌, List, None, Option, Some, length, slice_get, true, ℕ};
ghost use Rattle.std.specs.List.{IsDistinct};
ghost use Rattle.std.specs.Map.{keys_of};
ghost use Rattle.cx_source.specs.declared.source.Item.{Item};
ghost use Rattle.cx_source.specs.declared.source.Stmt.{Stmt};
ghost use Rattle.cx_asm_expressions.specs.Digits.{bound};
ghost use Rattle.cx_asm_expressions.specs.Names.{is_same};
ghost use Rattle.cx_asm_expressions.specs.Symbols.{find_in};
ghost use Rattle.cx_asm_expressions.specs.declared.values.Value.{Value};
ghost use Rattle.cx_asm_pools.specs.Laws.Literals.{IsPool};
ghost use Rattle.cx_asm_pools.specs.Pools.{PlacedLiterals, cap, closed_pool};
ghost use Rattle.cx_asm_pass1.specs.PassState.{PassState, next_state, is_control, state_after, extent_in, parts_in, place_in, role_in};
ghost use Rattle.cx_asm_pass1.specs.Laws.Apart.{AreApart, ClosesApart, EndWithin, Stands, control_length, section_length, stretches_after};
ghost use Rattle.cx_asm_pass1.specs.Laws.Definitions.{definitions_after};
ghost use Rattle.cx_asm_pass1.specs.Laws.FirstFaults.{Ascend, Fault, IsFirstOf, NoneBelow, statement_faults_after};
ghost use Rattle.cx_asm_pass1.specs.Locations.{all_pools, last_pool_extent};
ghost use Rattle.cx_asm_pass1.specs.declared.place.LineFault.{LineFault};
ghost use Rattle.cx_asm_pass1.specs.declared.place.Place.{Place};
ghost use Rattle.cx_asm_pass1.specs.declared.roles.Role.TheVariants.{Pool};

/// The first fault of lines is the fault of a statement on its line; the first statement that has a fault is on that
/// line; and no statement of that line has a fault with a lower number. Where there is none no statement has a fault.
#[tactic(auto, using(crate::proofs::FirstLemmas::first_is_first))]
pub fn first_fault_is_first()
    ensures { (items : List Item) → IsFirstOf (statement_faults_after items) (state_after items).fault }
{}

/// There is one first fault of statements, or none.
#[tactic(auto, using(crate::proofs::FirstLemmas::first_is_one))]
pub fn the_first_fault_is_one()
    ensures { (faults : List Fault) (one other : Option LineFault) → IsFirstOf faults one → IsFirstOf faults other
        → one ≡ other }
{}

/// Where lines ascend no statement of a line below that of the first fault has a fault.
#[tactic(auto, using(crate::proofs::FirstLemmas::none_below))]
pub fn ascending_lines_have_it_first()
    ensures { (items : List Item) (first : LineFault) → Ascend items → (state_after items).fault ≡ Some first
        → NoneBelow first.line (statement_faults_after items) }
{}

/// In an accepted source a statement's instruction, items or literals are placed one after the other, aligned, from its
/// section's length so far to the statement's end, which is within the bound of all numbers.
pub fn a_statement_stands_after_its_section()
    ensures stands { (before : List Item) (line : ℕ) (stmt : Stmt) → let state = state_after before in
        (next_state line stmt state).fault ≡ None
        → Stands (role_in stmt) (parts_in stmt) state.pool (section_length state) (extent_in stmt state) }
    ensures within { (before : List Item) (line : ℕ) (stmt : Stmt)
        → (next_state line stmt (state_after before)).fault ≡ None → (extent_in stmt (state_after before)).end ≤ bound }
{}

/// In an accepted source the control section never gets shorter; after a statement that is in it, it is as long as the
/// statement's end.
pub fn the_control_section_grows()
    ensures grows { (before : List Item) (line : ℕ) (stmt : Stmt)
        → (next_state line stmt (state_after before)).fault ≡ None
        → control_length (state_after before) ≤ control_length (next_state line stmt (state_after before)) }
    ensures ends { (line : ℕ) → (stmt : Stmt) → (state : PassState)
        → is_control state.section state.control ≡ true
        → control_length (next_state line stmt state) ≡ (extent_in stmt state).end }
    ensures own { (section control : Option (List ℕ)) → is_control section control ≡ true
        → section ≡ control }
{}

/// In an accepted source statements of one section share no byte: a later one begins at or past the end of each earlier
/// one.
pub fn statements_stand_apart()
    ensures { (items : List Item) → (state_after items).fault ≡ None → AreApart (stretches_after items) }
{}

/// In an accepted source the statements of the control section end inside it, and the last pool is after them, at its
/// end where that is within 2^100.
pub fn the_last_pool_ends_the_control_section()
    ensures inside { (items : List Item) → let state = state_after items in
        state.fault ≡ None → EndWithin state (stretches_after items) }
    ensures last { (items : List Item) → let state = state_after items in
        state.fault ≡ None → (last_pool_extent state).end ≤ bound → ClosesApart state }
{}

/// The pool that is open after any lines has the text of each literal once, with the size that it writes.
pub fn the_open_pool_is_one()
    ensures { (items : List Item) → IsPool (state_after items).pool }
{}

/// The place of a statement is listed after it, and stays, however many statements follow.
#[tactic(auto, using(crate::specs::Facts::Kept::place_listed, crate::specs::Facts::Kept::place_kept))]
pub fn places_stay()
    ensures listed { (line : ℕ) (stmt : Stmt) (state : PassState)
        → slice_get (next_state line stmt state).places (length state.places) ≡ Some (place_in stmt state) }
    ensures stays { (more before : List Item) (index : ℕ) (place : Place)
        → slice_get (state_after before).places index ≡ Some place
        → slice_get (state_after (more ++ before)).places index ≡ Some place }
{}

/// The pool that an LTORG closes is listed after it, and stays, however many statements follow; so it is among all
/// pools, of which the last is the one at the control section's end.
#[tactic(auto, using(crate::specs::Facts::Kept::pool_listed, crate::specs::Facts::Kept::pool_kept, crate::specs::Facts::Kept::pool_among, crate::specs::Facts::Kept::last_pool))]
pub fn pools_stay()
    ensures listed { (line : ℕ) (stmt : Stmt) (state : PassState)
        → let offset = cap (extent_in stmt state).offset in
        role_in stmt ≡ Pool
        → slice_get (next_state line stmt state).pools (length state.pools) ≡ Some (closed_pool offset state.pool) }
    ensures stays { (more before : List Item) (index : ℕ) (pool : PlacedLiterals)
        → slice_get (state_after before).pools index ≡ Some pool
        → slice_get (state_after (more ++ before)).pools index ≡ Some pool }
    ensures among { (state : PassState) (index : ℕ) (pool : PlacedLiterals)
        → slice_get state.pools index ≡ Some pool
        → slice_get (all_pools state) index ≡ Some pool }
    ensures last { (state : PassState) → let offset = cap (last_pool_extent state).offset in
        slice_get (all_pools state) (length state.pools) ≡ Some (closed_pool offset state.pool) }
{}

/// A symbol has the value of its first definition, and keeps it, however many statements follow. In an accepted source
/// no name is defined twice.
pub fn every_name_has_one_value()
    ensures first { (items : List Item) (name : List ℕ)
        → (state_after items).symbols name ≡ find_in (definitions_after items) name }
    ensures stays { (more before : List Item) (name : List ℕ) (value : Value)
        → (state_after before).symbols name ≡ Some value
        → (state_after (more ++ before)).symbols name ≡ Some value }
    ensures once { (items : List Item) → (state_after items).fault ≡ None
        → IsDistinct is_same (keys_of (definitions_after items)) }
{}
