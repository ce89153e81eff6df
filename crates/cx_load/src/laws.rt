//! What the facts of a checked image, relocation and loading mean, on functions that do nothing.

ghost use Rattle.std.specs.Prelude.{◌≡◌, ◌≢◌, ◌+◌, ◌%◌, ◌^◌, ◌<◌, ◌≤◌, ◌↔◌, ℕ, List, IsTrue, Some, false, length, slice_index};
ghost use Rattle.std.specs.List.{list_any};
ghost use Rattle.cx_code.specs.declared.image.Image.{Image};
ghost use Rattle.cx_storage.specs.Storage.{Storage};
ghost use Rattle.cx_load.specs.declared.fault.ImageFault.{ImageFault};
ghost use Rattle.cx_load.specs.declared.fault.ImageFault.TheVariants.{Overlap, RelocOutside};
ghost use Rattle.cx_load.specs.declared.program.Loaded.{Loaded};
ghost use Rattle.cx_load.specs.Fault.{IsFit, all_apart, are_inside, image_fault};
ghost use Rattle.cx_load.specs.Laws.Fit.{FitFacts};
ghost use Rattle.cx_load.specs.Laws.Words.{SharesNoByte, are_in_order, is_of_word};
ghost use Rattle.cx_load.specs.Program.{IsLoaded};
ghost use Rattle.cx_load.specs.Relocation.{relocated_text, word_in};

/// An image is fit exactly where each of the facts of a fit one holds: among them that each relocated word ends in the
/// text, and that no two of them, at any two places of the list, share a byte.
pub fn facts_of_checked()
    ensures fit { (image : Image) → IsFit image ↔ FitFacts image }
    ensures inside { (size : ℕ) (relocs : List ℕ) → IsTrue (are_inside size relocs)
        ↔ ((i : ℕ) → i < length relocs → slice_index relocs i + 4 ≤ size) }
    ensures apart { (relocs : List ℕ) → IsTrue (all_apart relocs)
        ↔ ((i j : ℕ) → i < j → j < length relocs → SharesNoByte (slice_index relocs i) (slice_index relocs j)) }
{}

/// Words in ascending order, each at or past the end of the one before it, share no byte; and an image whose words are
/// so, and end in its text, is refused for its length, its entry or its working storage alone.
pub fn words_in_order()
    ensures apart { (relocs : List ℕ) → IsTrue (are_in_order 0 relocs) → IsTrue (all_apart relocs) }
    ensures refused { (image : Image) (fault : ImageFault) → IsTrue (are_in_order 0 image.relocs)
        → IsTrue (are_inside (length image.text) image.relocs) → image_fault image ≡ Some fault
        → (fault ≢ RelocOutside) × (fault ≢ Overlap) }
{}

/// The load address is added to each relocated word modulo 2^32, every byte of no such word stays, and the text keeps
/// its length. The words are inside the text; where the address is added, no two of them share a byte.
pub fn relocation()
    ensures words { (at i : ℕ) (relocs text : List ℕ) → IsTrue (all_apart relocs)
        → IsTrue (are_inside (length text) relocs)
        → i < length relocs
        → word_in (relocated_text at relocs text) (slice_index relocs i)
        ≡ (word_in text (slice_index relocs i) + at) % 2 ^ 32 }
    ensures others { (at k : ℕ) (relocs text : List ℕ) → IsTrue (are_inside (length text) relocs)
        → list_any (is_of_word k) relocs ≡ false → slice_index (relocated_text at relocs text) k ≡ slice_index text k }
    ensures size { (at : ℕ) (relocs text : List ℕ) → IsTrue (are_inside (length text) relocs)
        → length (relocated_text at relocs text) ≡ length text }
{}

/// Loading has one outcome: the storage before and the image determine what is reported, and the storage afterwards.
#[tactic(auto, using(crate::proofs::LoadLemmas::loaded_decides))]
pub fn loading_decides()
    ensures { (storage after later : Storage) (image : Image) (one other : Loaded)
        → IsLoaded storage image one after → IsLoaded storage image other later → (one ≡ other) × (after ≡ later) }
{}
