//! What follows from the definitions of assembling.

ghost use Rattle.std.specs.Prelude.{◌≡◌, ◌≢◌, ◌≤◌, Err, List, None, Ok, Option, Result, false, length, slice_get, true, ℕ};
ghost use Rattle.cx_asm_image.specs.Resolved.{AreApart};
ghost use Rattle.cx_asm_expressions.specs.Bytes.{CopyOfConstant};
ghost use Rattle.cx_asm_expressions.specs.Items.{Constant, constant_in, length_of};
ghost use Rattle.cx_asm_expressions.specs.declared.values.Value.{Value};
ghost use Rattle.cx_asm_pass1.specs.Laws.FirstFaults.{IsFirstOf};
ghost use Rattle.cx_asm_pass1.specs.Locations.{final_state};
ghost use Rattle.cx_source.specs.declared.source.Source.{Source};
ghost use Rattle.cx_asm_pass2.specs.SecondFaults.{second_faults_after};
ghost use Rattle.cx_asm_pass2.specs.Statements.{PlacedStatement};
ghost use Rattle.cx_asm_pass2.specs.Whole.{Whole, item_made};
ghost use Rattle.cx_asm.specs.Assembly.{Assembles, AssemblyParts, assembly_of, control_section_size, standing_of};
ghost use Rattle.cx_asm.specs.Laws.SecondFirst.{faults_by_statement};
ghost use Rattle.cx_asm.specs.Laws.SectionLines.{IsWithin, WordsApart};
ghost use Rattle.cx_asm.specs.declared.faults.AsmFault.{AsmFault};
ghost use Rattle.cx_asm.specs.declared.faults.AsmFault.TheVariants.{Memory};

/// A copy of an item of a DC, or of a literal, has no more bytes than its length, which is at least a word's where it
/// is relocated.
pub fn a_constant_has_its_length()
    ensures at_length { (whole : Whole) (counter : Option Value) (text : List ℕ) (item : Constant)
        (made : CopyOfConstant)
        → constant_in false text ≡ Ok item → item_made whole false counter text ≡ Ok made
        → length made.bytes ≤ length_of item }
    ensures word { (whole : Whole) (counter : Option Value) (text : List ℕ) (item : Constant) (made : CopyOfConstant)
        → constant_in false text ≡ Ok item → item_made whole false counter text ≡ Ok made
        → made.is_relocated ≡ true → 4 ≤ length_of item }
{}

/// In an accepted source whose control section is no longer than a text may be, the resolved lines ascend, share no
/// byte, and end inside the control section; and so do the relocated words.
pub fn made_lines_do_not_overlap()
    ensures { (source : Source) → (final_state source).fault ≡ None → control_section_size source ≤ 65536
        → IsWithin 0 (standing_of source) (control_section_size source) }
{
    cx_asm_operands::laws::what_is_resolved_is_well_formed();
    cx_code::laws::every_spelling();
}

/// The second pass' first fault is the fault of a statement on its line; the first statement that has such a fault is
/// on that line; and no statement of that line has one with a lower number. Where there is none no statement has one.
pub fn the_second_pass_reports_its_first_fault()
    ensures { (whole : Whole) (statements : List PlacedStatement)
        → IsFirstOf (faults_by_statement whole statements) (slice_get (second_faults_after whole statements) 0) }
{}

/// There is one assembly of a source: two answers to one source, neither of them Memory, are one answer.
pub fn an_assembly_is_one()
    ensures { (due one other : Result AssemblyParts AsmFault) → Assembles due one → Assembles due other
        → one ≢ Err Memory → other ≢ Err Memory → one ≡ other }
{}

/// The text of an accepted source is as long as its control section, 65,536 bytes at most. Its resolved lines ascend,
/// share no byte and end in it, and so do its relocated words.
pub fn an_assembly_stands_apart()
    ensures size { (source : Source) (made : AssemblyParts) → assembly_of source ≡ Ok made
        → length made.section.image.text ≡ control_section_size source }
    ensures within_section { (source : Source) (made : AssemblyParts) → assembly_of source ≡ Ok made
        → control_section_size source ≤ 65536 }
    ensures lines { (source : Source) (made : AssemblyParts) → assembly_of source ≡ Ok made
        → AreApart 0 made.section.resolved (length made.section.image.text) }
    ensures words { (source : Source) (made : AssemblyParts) → assembly_of source ≡ Ok made
        → WordsApart 0 made.section.image.relocs (length made.section.image.text) }
{
    made_lines_do_not_overlap();
    cx_asm_image::laws::the_text_is_decided_by_its_bytes();
}
