//! What follows from the table of operations.

ghost use Rattle.std.specs.Prelude.{◌≡◌, ◌↔◌, Contains, List, ℕ, Some};
ghost use Rattle.cx_code.specs.Table.{mnemonic_of};
ghost use Rattle.cx_code.specs.declared.table.Op.{Op};
ghost use Rattle.cx_asm_operations.specs.Operations.{operation_named, operations};
ghost use Rattle.cx_asm_operations.specs.declared.operations.Operation.{Operation};
ghost use Rattle.cx_asm_operations.specs.declared.operations.Operation.TheVariants.{Machine};

/// No two operations have one name: an operation is found under a name exactly where it has that name. Each machine
/// instruction is found under its mnemonic.
pub fn one_name()
    ensures found { (name : List ℕ) (it : Operation)
        → (operation_named name ≡ Some it) ↔ Contains operations (name, it) }
    ensures machine { (op : Op) → operation_named (mnemonic_of op) ≡ Some (Machine op) }
{
    cx_code::laws::one_mnemonic();
}
