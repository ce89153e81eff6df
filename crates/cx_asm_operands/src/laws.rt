//! What follows from the definitions of addresses and instructions, each the contract of a function that does nothing.

ghost use Rattle.std.specs.Prelude.{◌≡◌, ℕ, ℤ, List, Option, Some, Ok, length};
ghost use Rattle.cx_code.specs.Spelling.{Instruction, IsWellFormed};
ghost use Rattle.cx_asm_operations.specs.Operations.{base_row};
ghost use Rattle.cx_asm_operations.specs.declared.operations.Operation.{Operation};
ghost use Rattle.cx_asm_operands.specs.Addresses.{nearest_address};
ghost use Rattle.cx_asm_operands.specs.Bases.{Bases};
ghost use Rattle.cx_asm_operands.specs.Context.{Context};
ghost use Rattle.cx_asm_operands.specs.Forms.{instruction_or_fault};
ghost use Rattle.cx_asm_operands.specs.Laws.AddressLaws.{IsNearest};
ghost use Rattle.cx_asm_operands.specs.declared.addresses.Address.{Address};

/// The implied address of a place is of a register in use that reaches it, and no other register that reaches it is
/// preferred: each has a larger displacement, or the same one and no higher number. None is answered exactly where none
/// reaches the place.
#[tactic(auto, using(crate::proofs::NearestLemmas::nearest_is_nearest))]
pub fn an_implied_address_is_nearest()
    ensures { (bases : Bases) (section : List ℕ) (number : ℤ)
        → IsNearest bases section number (nearest_address bases section number) }
{}

/// Two nearest addresses of one place are one.
#[tactic(auto, using(crate::proofs::NearestLemmas::nearest_decides))]
pub fn being_nearest_decides()
    ensures { (bases : Bases) (section : List ℕ) (number : ℤ) (one other : Option Address)
        → IsNearest bases section number one → IsNearest bases section number other → one ≡ other }
{}

/// With sixteen bases, what a statement is resolved to is a well-formed instruction of its operation's row of the
/// table.
pub fn what_is_resolved_is_well_formed()
    ensures { (operation : Operation) (c : Context) (operand : List ℕ) (made : Instruction) → length c.bases ≡ 16
        → instruction_or_fault operation c operand ≡ Ok made → (base_row operation ≡ Some made.op) × IsWellFormed made }
{}
