//! What the instructions made of an EXEC statement come to, and what holds of a translated source that was assembled.
ghost use Rattle.cx_asm_execution.specs.Arrival.{CommandsArrive, IsStatement};
ghost use Rattle.cx_asm_execution.specs.Expansion.{Statement};
ghost use Rattle.cx_asm_execution.specs.FieldLayouts.{EibIsLaidOut, HeadIsLaidOut};
ghost use Rattle.cx_asm_execution.specs.Laws.Entry.{ArrivalsDecide, ArrivesInTime, MadeAreCounted, ReachesEntry};
ghost use Rattle.cx_asm_execution.specs.Laws.Loaded.{LinesAreLoaded, NoCodeIsRelocated};
ghost use Rattle.cx_asm_execution.specs.Laws.Pointers.{LoadsGiveWords};
ghost use Rattle.cx_asm_execution.specs.MadeLines.{Site};
ghost use Rattle.std.specs.Prelude.{◌≡◌, ℕ};

/// The instructions made of an EXEC statement, where they are in storage at the next address, lead to the entry, with
/// the argument list that is read as the statement's command with the addresses that its arguments had at the first
/// instruction. Every register but 0, 1, 14 and 15, and every byte outside the list, is as before.
///
/// The premises: the machine has 16 registers, its next address is below 2^24, and its storage is sound. The option
/// bytes and conditions are legal, and there are as many arguments as they ask. The instructions are at the next
/// address, the block and the entry's word where they are addressed. The base registers of what is made around the
/// arguments aren't 0, that of the entry's word isn't 1, and they reach each word of the list four bytes after the one
/// before. The next address is even, and no instruction is at the entry. DFHEIPL is in storage, has room for the list,
/// and no byte of the instructions, the block or the entry's word lies in it.
pub fn reaches_entry()
    ensures { ReachesEntry }
{
    cx_code::laws::every_spelling();
    cx_exec::laws::spelled_is_fetched();
    cx_exec::laws::runs_join();
    cx_storage::laws::sound_kept();
    cx_storage::laws::word_after_write();
    cx_region_state::laws::call_is_read();
}

/// A run with any limit that the instructions made fit in, two for each word of the list and four, ends at the entry.
pub fn arrives_in_time()
    ensures { ArrivesInTime }
{}

/// The machine that has arrived is determined by the machine before.
pub fn arrivals_decide()
    ensures { ArrivalsDecide }
{
    cx_exec_laws::laws::runs_decide();
}

/// Two instructions are made for each word of the list, and four; all except the last have four bytes, the last has
/// two.
pub fn made_are_counted()
    ensures { MadeAreCounted }
{}

/// L at the next address, as it is after a call for each pointer, gives its register the word that its operand
/// addresses. All else is as before. The next address is even and not the entry, and the word is there.
pub fn loads_give_words()
    ensures { LoadsGiveWords }
{
    cx_code::laws::every_spelling();
    cx_exec::laws::spelled_is_fetched();
}

/// Where the program of an accepted source is loaded, each resolved line that shares no byte with a relocated word is
/// in storage at its place: its bytes are those of the span there. The image is fit.
pub fn lines_are_loaded()
    ensures { LinesAreLoaded }
{
    cx_storage::laws::span_is_bytes();
    cx_load::laws::relocation();
    cx_asm_image::laws::the_text_is_decided_by_its_bytes();
    cx_asm::laws::an_assembly_stands_apart();
}

/// No instruction of an accepted source shares a byte with a relocated word.
pub fn no_code_is_relocated()
    ensures { NoCodeIsRelocated }
{
    cx_asm::laws::an_assembly_stands_apart();
}

/// The assembler places each field of DFHEIBLK at the offset, and with the length, at which the region writes it, and
/// the block is as long as the region's. So it is of a source that has an EXEC statement and is translated, where the
/// translation has an END and no fault of the first pass, and the source puts nothing into the section DFHEIBLK before
/// the translator's own lines.
pub fn the_eib_is_laid_out()
    ensures { EibIsLaidOut }
{}

/// The assembler places the fields of DFHEISTG's head, DFHEIPL, DFHEITP and DFHEICAP, at the offsets at which the
/// region has them, and the head is as long as the region takes it to be. So it is of a source that has an EXEC
/// statement and is translated, where the translation has no fault of the first pass and a control section or a
/// DFHEISTG, and nothing is in DFHEISTG before.
pub fn the_head_is_laid_out()
    ensures { HeadIsLaidOut }
{}

/// The call that an EXEC statement makes is determined by where its made statements are in the source, its command and
/// its words.
#[tactic(auto, using(crate::proofs::OneLemmas::statements_decide))]
pub fn a_statement_is_one()
    ensures { (site : Site) (at other : ℕ) (s t : Statement) → IsStatement site at s → IsStatement site other t
        → s ≡ t }
{}

/// Each EXEC statement of an accepted translation arrives as its command, and gets its pointers back. The statements
/// made of it are together, with its line. They are resolved lines, one right after the other, at an offset that the
/// EXEC statement's name stands for: the instructions made of the statement (stores of the block's address and of each
/// argument's into the list's words, the mark, the branch to the entry) with the command, the option bytes and the
/// conditions that the translator has put into the block, and right after them the loads of its pointers. Each argument
/// has the address that its own expression has, with any sections and registers, where the register that is taken for
/// it holds the base of its USING; a base that is written is taken.
///
/// Where the program, whose image is fit, is loaded, a machine of 16 registers and sound storage is ready if its next
/// address is that of the first instruction; storage still holds the instructions, the block and the entry's word as
/// loaded; DFHEIPL is in storage, apart from them; and the base registers around the arguments hold their USINGs'
/// bases, none of them is 0, and the entry's isn't 1. It comes to the entry with the argument list that is read as that
/// command, with the addresses that its arguments had at the first instruction.
///
/// At such a machine that is at a pointer's load, whose bytes are as loaded, the register that the pointer names, if it
/// is an operand by itself, gets the word at the address that was handed over for the pointer, and all else stays,
/// where DFHEITP's base register holds its USING's base as it did when the call began.
pub fn commands_arrive()
    ensures { CommandsArrive }
{
    cx_translate::laws::accepted_bytes_are_legal();
    cx_translate::laws::accepted_conditions_are_legal();
    cx_translate::laws::accepted_conditions_are_counted();
    cx_translate::laws::accepted_lists_have_room();
    cx_translate::laws::accepted_lists_are_read();
    cx_storage::laws::span_is_bytes();
    cx_code::laws::every_spelling();
    cx_asm_operands::laws::an_implied_address_is_nearest();
    cx_asm_operands::laws::what_is_resolved_is_well_formed();
    cx_asm::laws::an_assembly_stands_apart();
    crate::laws::lines_are_loaded();
    crate::laws::no_code_is_relocated();
    crate::laws::made_are_counted();
    crate::laws::reaches_entry();
    crate::laws::loads_give_words();
}
