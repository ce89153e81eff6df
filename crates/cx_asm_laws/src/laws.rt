//! What follows from the definitions of assembling, on functions that do nothing.

ghost use Rattle.std.specs.Prelude.{◌≡◌, ◌≢◌, IsTrue, Ok, Some, length};
ghost use Rattle.cx_source.specs.declared.source.Source.{Source};
ghost use Rattle.cx_load.specs.Fault.{all_apart, are_inside, image_fault};
ghost use Rattle.cx_load.specs.declared.fault.ImageFault.{ImageFault};
ghost use Rattle.cx_load.specs.declared.fault.ImageFault.TheVariants.{BadLength, Overlap, RelocOutside};
ghost use Rattle.cx_asm.specs.Assembly.{AssemblyParts, assembly_of, control_section_size};
ghost use Rattle.cx_asm_laws.specs.Laws.Again.{AssemblesAgain, BytesAreReadBack, InstructionsAreReadBack, LinesAreStatements, SpacesAreReadBack};
ghost use Rattle.cx_asm_laws.specs.Laws.Back.{ComesBack, LinesAreResolved};
ghost use Rattle.cx_asm_laws.specs.Laws.Standing.{AllStand, AreInControl, NothingElseStands};

/// The relocated words of an accepted source end inside its text and share no byte. So its image is refused for its
/// length, its entry or its working storage alone; for its length only where its control section is empty, or it has
/// none.
pub fn an_assembled_image_is_refused_for_little()
    ensures inside { (source : Source) (made : AssemblyParts) → assembly_of source ≡ Ok made
        → IsTrue (are_inside (length made.section.image.text) made.section.image.relocs) }
    ensures apart { (source : Source) (made : AssemblyParts) → assembly_of source ≡ Ok made
        → IsTrue (all_apart made.section.image.relocs) }
    ensures refused { (source : Source) (made : AssemblyParts) (fault : ImageFault) → assembly_of source ≡ Ok made
        → image_fault made.section.image ≡ Some fault → (fault ≢ RelocOutside) × (fault ≢ Overlap) }
    ensures length { (source : Source) (made : AssemblyParts) → assembly_of source ≡ Ok made
        → image_fault made.section.image ≡ Some BadLength → control_section_size source ≡ 0 }
{
    cx_asm::laws::an_assembly_stands_apart();
    cx_load::laws::words_in_order();
}

/// What was assembled comes back: the disassembly of an accepted source's text by its spans is what is in its control
/// section, and is its resolved lines.
pub fn what_was_assembled_comes_back()
    ensures back { ComesBack }
    ensures resolved { LinesAreResolved }
{
    cx_asm::laws::made_lines_do_not_overlap();
    cx_asm_image::laws::lines_come_back();
    cx_asm_operands::laws::what_is_resolved_is_well_formed();
}

/// In an accepted source each instruction is among the resolved lines at its place, resolved as its operands say with
/// the bases that are in use there. So is each item of a DC or DS in the control section, which is a constant, a DC's
/// with a value: with the bytes of all its copies, a DS's as a space; and so is each literal, at its offset in its
/// pool. Each resolved line is one of these: nothing else stands. Each instruction, and each LTORG, is in the control
/// section.
pub fn statements_stand_at_their_places()
    ensures stand { AllStand }
    ensures only { NothingElseStands }
    ensures control { AreInControl }
{}

/// A line of a disassembly writes an operation, a blank and an operand, which are read back: a well-formed instruction
/// as itself, by whatever symbols and bases; bytes, if there are any, as a constant with these bytes; a space of 1 to
/// 65,535 bytes as one of this length.
pub fn disassembled_lines_are_read_back()
    ensures lines { LinesAreStatements }
    ensures instructions { InstructionsAreReadBack }
    ensures bytes { BytesAreReadBack }
    ensures spaces { SpacesAreReadBack }
{
    cx_asm_operations::laws::one_name();
}

/// The disassembly of an accepted source is assembled to the same text: where its lines, with gaps as DS, are the
/// statements of a source, between a CSECT and an END, that source is accepted, its text is that text, and its resolved
/// lines are these. They say neither the entry nor which words are relocated nor the working storage, so the entry is
/// the section's start, no word is relocated, and the working storage is the least. A text that is one space of 65,536
/// bytes is apart, since no DS takes that length modifier.
pub fn a_disassembly_is_assembled_again()
    ensures { AssemblesAgain }
{
    cx_code::laws::every_spelling();
    cx_asm_operations::laws::one_name();
    cx_asm_operands::laws::what_is_resolved_is_well_formed();
    cx_asm::laws::an_assembly_stands_apart();
    what_was_assembled_comes_back();
}
