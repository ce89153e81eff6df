//! What follows from the definitions.
ghost use Rattle.std.specs.Prelude.{◌≡◌, ◌≢◌, ◌↔◌, ℕ, ◌<◌, ◌≤◌, List, [], ◌∷◌, Option, None, Some, Bool, true, false, length, position, slice_get, MatchOption, ◌==◌};
ghost use Rattle.std.specs.List.{AllByRecursion};
ghost use Rattle.std.specs.Option.{option_map};
ghost use Rattle.cx_service.specs.declared.faults.ServiceFault.TheVariants.{Memory};
ghost use Rattle.cx_service.specs.declared.resources.ResourceName.{ResourceName};
ghost use Rattle.cx_service.specs.Laws.Lines.{LinesJoin};
ghost use Rattle.cx_service.specs.Lines.{new_line, columns, AreLinesOf};
ghost use Rattle.cx_service.specs.Screen.{full_line, with_lines, IsScreen, ShowsText};
ghost use Rattle.cx_service.specs.Queues.{Queues, AreSoundQueues, queue_of, write_fault, rewrite_fault, with_item, without_queue};
ghost use Rattle.cx_service.specs.Resources.{Resources, is_resource, enq_fault, without_owner};

/// Every text has lines.
pub fn every_text_has_lines()
    ensures { (text : List ℕ) → (lines : List (List ℕ)) × AreLinesOf text lines }
{}

/// Two lists of lines of one text are equal.
pub fn lines_are_decided()
    ensures { (text : List ℕ) (one other : List (List ℕ)) → AreLinesOf text one → AreLinesOf text other
        → one ≡ other }
{}

/// The lines of a text, joined, are its parts in their order: a line that is broken off a part has 80 bytes, or 1 to 80
/// before a blank, which is dropped.
pub fn lines_join()
    ensures { LinesJoin }
{}

/// A text of at most 80 bytes without a new line is its one line.
pub fn a_short_text_is_its_line()
    ensures { (text : List ℕ) → position (λ byte. byte == new_line) text ≡ None → length text ≤ columns
        → AreLinesOf text (text ∷ []) }
{}

/// What SEND TEXT leaves is decided by the screen, the text and ERASE.
pub fn a_shown_text_is_decided()
    ensures { (old : List (List ℕ)) (text : List ℕ) (erase : Bool) (one other : List (List ℕ))
        → ShowsText old text erase one → ShowsText old text erase other → one ≡ other }
{}

/// Over a screen, a text is shown on 24 lines of 80 bytes: nothing comes after the 24th, and each line is filled with
/// blanks.
pub fn a_shown_text_leaves_a_screen()
    ensures { (old : List (List ℕ)) (text : List ℕ) (erase : Bool) (new : List (List ℕ))
        → IsScreen old → ShowsText old text erase new → IsScreen new }
{}

/// Each line of the screen is the text's line there, filled with blanks; where the text has none, it is as it was.
pub fn lines_are_shown_in_place()
    ensures { (screen lines : List (List ℕ)) (row : ℕ) → row < length screen
        → MatchOption (slice_get lines row) (slice_get (with_lines screen lines) row ≡ slice_get screen row)
        (λ line. slice_get (with_lines screen lines) row ≡ Some (full_line line)) }
{}

/// `is_resource` is true exactly where both names are the same bytes, or both the same address.
pub fn resource_names_are_themselves()
    ensures { (one other : ResourceName) → (is_resource one other ≡ true) ↔ (one ≡ other) }
{}

/// Of sound queues one that is deleted and made anew has 0 as the number of the item last read: none was.
pub fn a_deleted_queue_begins_anew()
    ensures { (queues : Queues) (name bytes : List ℕ) → AreSoundQueues queues
        → option_map (λ queue. queue.last_read) (queue_of (with_item (without_queue queues name) name bytes) name)
        ≡ Some 0 }
{}

/// Memory is none of the conditions that are tested before a queue or a resource changes.
pub fn memory_is_no_condition()
    ensures write { (queues : Queues) (name : List ℕ) (len : ℕ) → write_fault queues name len ≢ Some Memory }
    ensures rewrite { (queues : Queues) (name : List ℕ) (n len : ℕ)
        → rewrite_fault queues name n len ≢ Some Memory }
    ensures enq { (resources : Resources) (slot : ℕ) (name : ResourceName)
        → enq_fault resources slot name ≢ Some Memory }
{}

/// At the end of a task none of its resources is left.
pub fn no_resource_is_left()
    ensures { (resources : Resources) (slot : ℕ)
        → AllByRecursion (λ entry. (entry.1.owner == slot) ≡ false) (without_owner resources slot) }
{}
