//! Laws of the table and of spelling, each the contract of a function that does nothing.

ghost use Rattle.std.specs.Prelude.{◌≡◌, ◌↔◌, ◌≤◌, ◌++◌, List, ℕ, [], length, slice_index, take, Some};
ghost use Rattle.cx_code.specs.declared.table.Op.{Op};
ghost use Rattle.cx_code.specs.Table.{code_of, mnemonic_of, length_of, length_of_code, op_at, op_named};
ghost use Rattle.cx_code.specs.Spelling.{Instruction, instruction, IsWellFormed, spelling, Spells, Reads, AreBytes};
ghost use Rattle.cx_code.specs.Reading.{fields_at, reading, canonical};

/// No two rows have one operation code.
pub fn one_row()
    ensures { (code : ℕ) (op : Op) → (op_at code ≡ Some op) ↔ (code_of op ≡ code) }
{}

/// No two rows have one mnemonic.
pub fn one_mnemonic()
    ensures { (name : List ℕ) (op : Op) → (op_named name ≡ Some op) ↔ (mnemonic_of op ≡ name) }
{}

/// The first two bits of an operation code give the length that the format has.
pub fn first_bits()
    ensures { (op : Op) → length_of_code (code_of op) ≡ length_of op }
{}

/// Each well-formed instruction has a spelling, a list of as many bytes as its length.
pub fn every_spelling()
    ensures spells { (i : Instruction) → IsWellFormed i → Spells i (spelling i) }
    ensures bytes { (i : Instruction) → AreBytes (spelling i) }
    ensures length { (i : Instruction) → IsWellFormed i → length (spelling i) ≡ length_of i.op }
{}

/// No two instructions have one spelling.
pub fn one_spelling()
    ensures { (bytes : List ℕ) (i j : Instruction) → Spells i bytes → Spells j bytes → i ≡ j }
{}

/// The bytes that spell an instruction read as that instruction.
pub fn spelled_reads()
    ensures { (i : Instruction) (bytes : List ℕ) → Spells i bytes → Reads bytes i }
{}

/// The same bytes read as one instruction at most.
pub fn one_reading()
    ensures { (bytes : List ℕ) (i j : Instruction) → Reads bytes i → Reads bytes j → i ≡ j }
{}

/// What reads as an instruction has that instruction's length.
pub fn length_read()
    ensures { (bytes : List ℕ) (i : Instruction) → Reads bytes i → (length bytes ≡ length_of i.op) }
{}

/// What reads as an instruction reads as a well-formed one.
pub fn read_is_well_formed()
    ensures { (bytes : List ℕ) (i : Instruction) → Reads bytes i → IsWellFormed i }
{}

/// No bytes that read as an instruction, and so no spelling, are the front of others.
pub fn no_front()
    ensures { (bytes rest : List ℕ) (i j : Instruction) → Reads bytes i → Reads (bytes ++ rest) j
        → (i ≡ j) × (rest ≡ []) }
{}

/// What `decode` finds at the front of bytes is the instruction that a front of them reads as.
pub fn reading_is()
    ensures { (bytes : List ℕ) (i : Instruction) → AreBytes bytes
        → ((reading bytes ≡ Some i) ↔ ((length_of i.op ≤ length bytes) × Reads (take (length_of i.op) bytes) i)) }
{}

/// What reads as an instruction is read so, whatever follows it; so is each spelling.
pub fn read_before_rest()
    ensures { (bytes rest : List ℕ) (i : Instruction) → Reads bytes i → reading (bytes ++ rest) ≡ Some i }
{}

/// A first byte that is a row's code, and no other, lets that row be read where the bytes are as
/// many as its length.
pub fn read_by_first_byte()
    ensures known { (bytes : List ℕ) (op : Op) → slice_index bytes 0 ≡ code_of op
        → length_of op ≤ length bytes
        → reading bytes ≡ Some (instruction op (fields_at op bytes)) }
    ensures only { (bytes : List ℕ) (i : Instruction) → reading bytes ≡ Some i
        → (slice_index bytes 0 ≡ code_of i.op) × (length_of i.op ≤ length bytes) }
{}

/// What disassembly takes for an instruction is what spells one.
pub fn canonical_is()
    ensures { (bytes : List ℕ) (i : Instruction) → (canonical bytes ≡ Some i) ↔ Spells i bytes }
{}
