//! What follows from the definitions of a translation.

ghost use Rattle.std.specs.Prelude.{◌≡◌, ◌≤◌, ℕ, List, None, Ok, false, length, true};
ghost use Rattle.std.specs.List.{list_any};
ghost use Rattle.cx_base.specs.Legal.{is_legal, is_legal_list, lists_conditions};
ghost use Rattle.cx_base.specs.declared.commands.Command.{Command};
ghost use Rattle.cx_source.specs.Marks.{outside_apostrophes};
ghost use Rattle.cx_source.specs.declared.source.Source.{Source};
ghost use Rattle.cx_translate.specs.Call.{list_of, listed_of};
ghost use Rattle.cx_translate.specs.Pieces.{pieces_of};
ghost use Rattle.cx_translate.specs.Refusals.{fault_in, first_byte, second_byte};
ghost use Rattle.cx_translate.specs.Sections.{begins_exec};
ghost use Rattle.cx_translate.specs.Translation.{translation_of};
ghost use Rattle.cx_translate.specs.Laws.Joined.{joined, unblanked_from};
ghost use Rattle.cx_translate.specs.Laws.Ascent.{AscendFrom, statement_lines};
ghost use Rattle.cx_translate.specs.Laws.Kept.{AreAmong, kept};
ghost use Rattle.cx_translate.specs.Laws.Read.{words_read};
ghost use Rattle.cx_translate.specs.declared.words.Word.{Word};

/// An operand's words and arguments, joined again, are the operand without the blanks between them.
#[tactic(auto, using(crate::proofs::PieceLemmas::joined_again))]
pub fn pieces_are_the_operand()
    ensures { (operand : List ℕ)
        → joined (pieces_of operand) ≡ unblanked_from 0 (outside_apostrophes operand) operand }
{}

/// The option bytes of an accepted statement are legal for its command. A statement is accepted where `fault_in` finds
/// no fault in its words, as `translate` asks.
#[tactic(auto, using(crate::proofs::RefusalLemmas::legal_bytes))]
pub fn accepted_bytes_are_legal()
    ensures { (n : ℕ) (command : Command) (cics named words : List Word)
        → fault_in n command cics named words ≡ None
        → is_legal command (first_byte command words) (second_byte words) ≡ true }
{}

/// The conditions that an accepted statement of a command that lists conditions (HANDLE CONDITION, IGNORE CONDITION)
/// has are legal for it.
#[tactic(auto, using(crate::proofs::ListedLemmas::accepted_list))]
pub fn accepted_conditions_are_legal()
    ensures { (line : ℕ) (command : Command) (cics named words : List Word) → lists_conditions command ≡ true
        → fault_in line command cics named words ≡ None → is_legal_list command (listed_of words) ≡ true }
{}

/// Option byte 1 of a command that lists conditions is the number of those listed; an accepted statement of another
/// command lists none.
#[tactic(auto, using(crate::proofs::CountLemmas::counted, crate::proofs::CountLemmas::none_there))]
pub fn accepted_conditions_are_counted()
    ensures number { (command : Command) (words : List Word) → lists_conditions command ≡ true
        → first_byte command words ≡ length (listed_of words) }
    ensures others { (line : ℕ) (command : Command) (cics named words : List Word)
        → lists_conditions command ≡ false
        → fault_in line command cics named words ≡ None → length (listed_of words) ≡ 0 }
{}

/// The argument list of an accepted statement has at most the eighteen words that DFHEIPL has.
#[tactic(auto, using(crate::proofs::CountLemmas::at_most_18))]
pub fn accepted_lists_have_room()
    ensures { (n : ℕ) (command : Command) (cics named words : List Word)
        → fault_in n command cics named words ≡ None
        → length (list_of command words) ≤ 18 }
{}

/// The argument list of an accepted statement has exactly as many words as the command reads of it, by its option bytes
/// and conditions.
#[tactic(auto, using(crate::proofs::ReadLemmas::all_read))]
pub fn accepted_lists_are_read()
    ensures { (n : ℕ) (command : Command) (cics named words : List Word)
        → fault_in n command cics named words ≡ None
        → let read = words_read command (first_byte command words) (second_byte words) (listed_of words) in
        length (list_of command words) ≡ read }
{}

/// The translation of a source without an EXEC statement is that source.
#[tactic(auto, using(crate::proofs::RefusalLemmas::no_exec))]
pub fn a_source_without_exec_stays()
    ensures { (source : Source) → list_any begins_exec source.items ≡ false
        → translation_of source ≡ Ok source }
{}

/// Each line that is no part of an EXEC statement is in the translation, in the same order.
#[tactic(auto, using(crate::proofs::KeptLemmas::lines_stay))]
pub fn other_lines_stay()
    ensures { (source made : Source) → translation_of source ≡ Ok made
        → AreAmong (kept false source.items) made.items }
{}

/// Where the numbers of the lines on which a source's statements begin ascend, those of its translation ascend too.
#[tactic(auto, using(crate::proofs::AscentLemmas::lines_ascend))]
pub fn lines_ascend_where_they_did()
    ensures { (source made : Source) → AscendFrom 0 (statement_lines source.items)
        → translation_of source ≡ Ok made
        → AscendFrom 0 (statement_lines made.items) }
{}
