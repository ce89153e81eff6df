//! The table of operations.

ghost use Rattle.std.specs.Prelude.{◌≡◌, ◌≤◌, if◌then◌else◌, map};
ghost use Rattle.std.specs.Map.{lookup};
ghost use Rattle.std.specs.Str.{bytes_eq};
ghost use Rattle.cx_asm_operations.specs.Operations.{base_row, branches, directives, mask, number, operation_named, register_branches};

use cx_code::Op;

/// The condition codes that a branch on condition goes on (GC33-4010, "Extended Mnemonic Codes").
#[derive(Clone, Copy)]
pub struct Mask {
    /// Whether it branches on condition code 0.
    pub on_0: bool,
    /// Whether it branches on condition code 1.
    pub on_1: bool,
    /// Whether it branches on condition code 2.
    pub on_2: bool,
    /// Whether it branches on condition code 3.
    pub on_3: bool,
}

/// An operation that makes no instruction (GC33-4010, "Assembler Instructions").
#[derive(Clone, Copy, PartialEq, Eq)]
pub enum Directive {
    /// CSECT: begins or resumes the control section.
    Csect,
    /// DSECT: begins or resumes a dummy section.
    Dsect,
    /// START: begins or resumes the control section.
    Start,
    /// USING: puts base registers in use, and says what they hold.
    Using,
    /// DROP: ends the use of base registers.
    Drop,
    /// EQU: gives a symbol a value.
    Equ,
    /// DS: reserves storage.
    Ds,
    /// DC: defines constants.
    Dc,
    /// LTORG: places the literals used so far.
    Ltorg,
    /// END: ends the source and names the entry.
    End,
    /// TITLE: of the listing, without effect.
    Title,
    /// PRINT: of the listing, without effect.
    Print,
    /// EJECT: of the listing, without effect.
    Eject,
    /// SPACE: of the listing, without effect.
    Space,
    /// DFHREGS: gives the symbols R0 to R15 the numbers 0 to 15 (no directive of GC33-4010).
    Dfhregs,
    /// COPY: defines the symbols of a member, DFHAID alone.
    Copy,
}

/// An operation that a statement may have (GC33-4010).
#[derive(Clone, Copy)]
pub enum Operation {
    /// A machine instruction by its mnemonic in the table of `cx_code`.
    Machine(Op),
    /// A branch on condition to a storage operand, whose name says its mask.
    Branch(Mask),
    /// A branch on condition to the address in a register, whose name says its mask.
    RegisterBranch(Mask),
    /// An operation that makes no instruction of the machine.
    Directive(Directive),
}

/// The branches to a storage operand that have a name of their own, with their masks.
const BRANCHES: [(&str, u8); 16] = [
    ("B", 15),
    ("NOP", 0),
    ("BH", 2),
    ("BP", 2),
    ("BL", 4),
    ("BM", 4),
    ("BE", 8),
    ("BZ", 8),
    ("BNH", 13),
    ("BNP", 13),
    ("BNL", 11),
    ("BNM", 11),
    ("BNE", 7),
    ("BNZ", 7),
    ("BO", 1),
    ("BNO", 14),
];

/// Those to the address in a register.
const REGISTER_BRANCHES: [(&str, u8); 2] = [("BR", 15), ("NOPR", 0)];

/// The operations that make no instruction.
const DIRECTIVES: [(&str, Directive); 16] = [
    ("CSECT", Directive::Csect),
    ("DSECT", Directive::Dsect),
    ("START", Directive::Start),
    ("USING", Directive::Using),
    ("DROP", Directive::Drop),
    ("EQU", Directive::Equ),
    ("DS", Directive::Ds),
    ("DC", Directive::Dc),
    ("LTORG", Directive::Ltorg),
    ("END", Directive::End),
    ("TITLE", Directive::Title),
    ("PRINT", Directive::Print),
    ("EJECT", Directive::Eject),
    ("SPACE", Directive::Space),
    ("DFHREGS", Directive::Dfhregs),
    ("COPY", Directive::Copy),
];

/// A bit of a mask, or 0.
fn bit(is_on: bool, bit: u8) -> u8
    ensures value { result ≡ (if is_on then bit else 0) }
    ensures bound { result ≤ bit }
{
    if is_on { bit } else { 0 }
}

impl Mask {
    /// The mask of four bits: 8 for condition code 0, 4 for 1, 2 for 2, 1 for 3.
    fn of(bits: u8) -> Mask
        ensures { result ≡ mask bits }
    {
        Mask {
            on_0: bits & 8 != 0,
            on_1: bits & 4 != 0,
            on_2: bits & 2 != 0,
            on_3: bits & 1 != 0,
        }
    }

    /// Its four bits, as the instruction has them: 8 for condition code 0, 4 for 1, 2 for 2, 1 for 3. It takes no
    /// memory.
    pub fn number(self) -> u8
        ensures { result ≡ number self }
    {
        bit(self.on_0, 8) + bit(self.on_1, 4) + bit(self.on_2, 2) + bit(self.on_3, 1)
    }
}

/// The value under a name.
fn named<T: Copy>(rows: &[(&'static str, T)], name: &[u8]) -> Option<T>
    ensures { result ≡ lookup (bytes_eq name.now) (map (λ row. (row.0.now, row.1)) rows.now) }
{
    for row in rows {
        if name == row.0.as_bytes() {
            return Some(row.1);
        }
    }
    None
}

/// The mask of a branch to a storage operand.
#[tactic(auto, unfolding(crate::specs::Operations::branches))]
fn branch_named(name: &[u8]) -> Option<u8>
    ensures { result ≡ lookup (bytes_eq name.now) branches }
{
    named(&BRANCHES, name)
}

/// The mask of a branch to the address in a register.
#[tactic(auto, unfolding(crate::specs::Operations::register_branches))]
fn register_branch_named(name: &[u8]) -> Option<u8>
    ensures { result ≡ lookup (bytes_eq name.now) register_branches }
{
    named(&REGISTER_BRANCHES, name)
}

/// The operation of a name that makes no instruction.
#[tactic(auto, unfolding(crate::specs::Operations::directives))]
fn directive_named(name: &[u8]) -> Option<Directive>
    ensures { result ≡ lookup (bytes_eq name.now) directives }
{
    named(&DIRECTIVES, name)
}

impl Operation {
    /// The operation of this name (ASCII, in capital letters); None where none has it. It takes no memory.
    #[tactic(auto, using(crate::proofs::NameLemmas::by_kinds))]
    pub fn from_name(name: &[u8]) -> Option<Operation>
        ensures { result ≡ operation_named name.now }
    {
        if let Some(op) = Op::from_name_bytes(name) {
            return Some(Operation::Machine(op));
        }
        if let Some(bits) = branch_named(name) {
            return Some(Operation::Branch(Mask::of(bits)));
        }
        if let Some(bits) = register_branch_named(name) {
            return Some(Operation::RegisterBranch(Mask::of(bits)));
        }
        match directive_named(name) {
            Some(directive) => Some(Operation::Directive(directive)),
            None => None,
        }
    }

    /// The machine instruction that it makes: a branch makes BC or BCR; None of an operation that makes none.
    pub fn op(self) -> Option<Op>
        ensures { result ≡ base_row self }
    {
        match self {
            Operation::Machine(op) => Some(op),
            Operation::Branch(_) => Some(Op::Bc),
            Operation::RegisterBranch(_) => Some(Op::Bcr),
            Operation::Directive(_) => None,
        }
    }
}
