//! What the definitions of an assembled section mean, on functions that do nothing.

ghost use Rattle.std.specs.Prelude.{◌≡◌, ◌+◌, ◌*◌, ◌<◌, ◌≤◌, ◌≢◌, ℕ, List, map, get_or, length, slice_index, true};
ghost use Rattle.std.specs.List.{list_any};
ghost use Rattle.cx_code.specs.declared.disassembly.Line.{Line};
ghost use Rattle.cx_code.specs.Lines.{lines};
ghost use Rattle.cx_asm_image.specs.Assembled.{AssembledParts, IsAssembled};
ghost use Rattle.cx_asm_image.specs.Laws.Cover.{AreWellFormed, IsTextOf, as_data};
ghost use Rattle.cx_asm_image.specs.Relocated.{words_at};
ghost use Rattle.cx_asm_image.specs.Resolved.{AreApart, offset_after, is_code};
ghost use Rattle.cx_asm_image.specs.Spans.{span_of};
ghost use Rattle.cx_asm_image.specs.Text.{section_text};

/// Lines that don't overlap in a section ascend: each ends at or before the place of every later one, and in the
/// section.
pub fn lines_ascend()
    ensures ascend { (all : List Line) (size i j : ℕ) (any : Line) → AreApart 0 all size → i < j
        → j < length all
        → offset_after (get_or all i any) ≤ (get_or all j any).at }
    ensures within { (all : List Line) (size i : ℕ) (any : Line) → AreApart 0 all size → i < length all
        → offset_after (get_or all i any) ≤ size }
{}

/// The text of lines that don't overlap has the section's size, each line's bytes are at its place, and every byte that
/// no line covers is zero; and no other text is so.
pub fn the_text_is_decided_by_its_bytes()
    ensures is { (all : List Line) (size : ℕ) → AreApart 0 all size → IsTextOf all size (section_text all size) }
    ensures decides { (resolved : List Line) (size : ℕ) (one other : List ℕ) → IsTextOf resolved size one
        → IsTextOf resolved size other → one ≡ other }
{}

/// Words one after the other are as many as asked for, and each is 4 bytes after the one before it.
pub fn words_stand_one_after_the_other()
    ensures count { (at n : ℕ) → length (words_at at n) ≡ n }
    ensures places { (at n k : ℕ) → k < n → slice_index (words_at at n) k ≡ at + 4 * k }
{}

/// Lines that don't overlap, and whose instructions are well formed, come back: the disassembly of their text by their
/// spans is these lines.
pub fn lines_come_back()
    ensures { (resolved : List Line) (size : ℕ) → AreApart 0 resolved size → AreWellFormed resolved
        → lines (section_text resolved size) (map span_of resolved) ≡ resolved }
{
    cx_code::laws::canonical_is();
    cx_code::laws::every_spelling();
}

/// Sections of one text and the same spans have the same resolved lines.
#[tactic(auto, using(crate::proofs::LawLemmas::one_section))]
pub fn text_and_spans_decide()
    ensures { (one other : AssembledParts) → IsAssembled one → IsAssembled other
        → one.image.text ≡ other.image.text
        → one.spans ≡ other.spans → one.resolved ≡ other.resolved }
{}

/// With all spans called data, the disassembly of a section with an instruction isn't its resolved lines.
pub fn kinds_are_needed()
    ensures { (parts : AssembledParts) → IsAssembled parts
        → list_any (λ (line : Line). is_code line.what) parts.resolved ≡ true
        → lines parts.image.text (map as_data parts.spans) ≢ parts.resolved }
{}
