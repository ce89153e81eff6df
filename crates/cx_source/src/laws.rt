//! What follows from the definitions of a source and of its reader.

ghost use Rattle.std.specs.Prelude.{◌≡◌, ◌≢◌, ◌++◌, ◌∷◌, [], ℕ, List, Err, Ok, false, fold, length, map};
ghost use Rattle.std.specs.List.{concat, range_with_len};
ghost use Rattle.cx_source.specs.Lines.{text_of};
ghost use Rattle.cx_source.specs.Statements.{up_to_end};
ghost use Rattle.cx_source.specs.Faults.{source_in, source_of};
ghost use Rattle.cx_source.specs.Reader.{Reading, reading_at_start, finish, take_byte, take_line};
ghost use Rattle.cx_source.specs.declared.reader.Progress.TheVariants.{Faulty};
ghost use Rattle.cx_source.specs.declared.source.Item.{Item};
ghost use Rattle.cx_source.specs.declared.source.Source.{Source};
ghost use Rattle.cx_source.specs.declared.source.SourceFault.{SourceFault};
ghost use Rattle.cx_source.specs.declared.source.SourceFault.TheVariants.{Memory, NoEnd};

/// A reader that takes two pieces, one after the other, is as if it had taken the two joined into one.
#[tactic(auto, using(crate::proofs::ReaderLemmas::two_pieces))]
pub fn two_pieces_are_one()
    ensures { (reading : Reading) (a b : List ℕ)
        → fold take_byte (fold take_byte reading a) b ≡ fold take_byte reading (a ++ b) }
{}

/// What a reader answers in the end is what the lines of all that it was fed make.
#[tactic(auto, using(crate::proofs::ReaderLemmas::whole_source))]
pub fn reader_answers_the_source()
    ensures { (bytes : List ℕ) → finish (fold take_byte reading_at_start bytes) ≡ source_of bytes }
{}

/// It doesn't matter in which pieces a source comes: what a reader answers in the end is what all of its bytes make.
#[tactic(auto, using(crate::proofs::ReaderLemmas::in_pieces))]
pub fn pieces_do_not_matter()
    ensures { (pieces : List (List ℕ))
        → finish (fold (fold take_byte) reading_at_start pieces) ≡ source_of (concat pieces) }
{}

/// A reader that is fed whole lines, one by one, answers in the end the source, or the fault, of these lines.
#[tactic(auto, using(crate::proofs::ReaderLemmas::line_by_line))]
pub fn lines_one_by_one_are_the_source()
    ensures { (all : List (List ℕ)) → finish (fold take_line reading_at_start all) ≡ source_in all }
{}

/// A fault that a reader met is the source's, however it goes on.
#[tactic(auto, using(crate::proofs::ReaderLemmas::early_fault))]
pub fn an_early_fault_is_the_sources()
    ensures { (front rest : List ℕ) (fault : SourceFault)
        → (fold take_byte reading_at_start front).progress ≡ Faulty fault
        → source_of (front ++ rest) ≡ Err fault }
{}

/// A line's fault is met as soon as the line is complete: after a line feed a reader knows each fault of what it was
/// fed, except that END is missing.
#[tactic(auto, using(crate::proofs::ReaderLemmas::complete_fault))]
pub fn a_complete_lines_fault_is_met()
    ensures { (bytes : List ℕ) (fault : SourceFault) → source_of (bytes ++ 10 ∷ []) ≡ Err fault
        → ((n : ℕ) → fault ≢ NoEnd n) → (fold take_byte reading_at_start (bytes ++ 10 ∷ [])).progress ≡ Faulty fault }
{}

/// While a reader is fed it never meets NoEnd, which comes at the end alone, nor Memory, which is no line's fault.
pub fn no_end_is_met_at_the_end()
    ensures { (bytes : List ℕ) (n : ℕ) → ((fold take_byte reading_at_start bytes).progress ≢ Faulty (NoEnd n))
        × ((fold take_byte reading_at_start bytes).progress ≢ Faulty Memory) }
{}

/// An accepted source has one item for each line up to END's, in order, with its text; the items are numbered from 1.
pub fn one_item_for_each_line()
    ensures { (all : List (List ℕ)) (source : Source) → source_in all ≡ Ok source
        → (map (λ (item : Item). item.text) source.items ≡ up_to_end false (map text_of all))
        × (map (λ (item : Item). item.line) source.items ≡ range_with_len 1 (length source.items)) }
{}
