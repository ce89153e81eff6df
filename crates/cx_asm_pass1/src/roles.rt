//! What operations do in the first pass.

ghost use Rattle.std.specs.Prelude.{◌≡◌};
ghost use Rattle.cx_asm_operations.specs.Operations.{operation_named};
ghost use Rattle.cx_asm_pass1.specs.Roles.{directive_role, role_of};

use cx_asm_operations::{Directive, Operation};
use cx_code::Op;

/// What a statement's operation does in the first pass.
#[derive(Clone, Copy, PartialEq, Eq)]
pub enum Role {
    /// The table of operations has no such operation.
    Unknown,
    /// A machine instruction of this many bytes.
    Instruction(usize),
    /// CSECT and START: begin or resume the control section.
    Control,
    /// DSECT: begins or resumes a dummy section.
    Dummy,
    /// EQU: gives a symbol a value.
    Equate,
    /// DS, or else DC: reserves or defines the storage of its items.
    Storage {
        /// Whether it is DS.
        is_ds: bool,
    },
    /// LTORG: places the literals used so far.
    Pool,
    /// DFHREGS: defines the symbols R0 to R15.
    Registers,
    /// COPY: defines the symbols of a member, DFHAID alone.
    Member,
    /// Every other operation: nothing.
    Nothing,
}

impl Role {
    /// What a directive does.
    fn of_directive(directive: Directive) -> Role
        ensures { result ≡ directive_role directive }
    {
        match directive {
            Directive::Csect | Directive::Start => Role::Control,
            Directive::Dsect => Role::Dummy,
            Directive::Equ => Role::Equate,
            Directive::Ds => Role::Storage { is_ds: true },
            Directive::Dc => Role::Storage { is_ds: false },
            Directive::Ltorg => Role::Pool,
            Directive::Dfhregs => Role::Registers,
            Directive::Copy => Role::Member,
            _ => Role::Nothing,
        }
    }

    /// What the operation of this name, in capital letters, does; Unknown where there is none. It takes no memory.
    pub fn of(operation: &[u8]) -> Role
        ensures { result ≡ role_of (operation_named operation.now) }
    {
        match Operation::from_name(operation) {
            None => Role::Unknown,
            Some(Operation::Machine(op)) => Role::Instruction(op.length()),
            Some(Operation::Branch(_)) => Role::Instruction(Op::Bc.length()),
            Some(Operation::RegisterBranch(_)) => Role::Instruction(Op::Bcr.length()),
            Some(Operation::Directive(directive)) => Role::of_directive(directive),
        }
    }
}
