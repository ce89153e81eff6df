//! What holds of the blocks of ORDERS and CHOICES.

ghost use Rattle.cx_look.specs.Laws.{ChoicesAreAskedByTheirLines, KeysAreAskedByTheirLines};

/// Each key of a block of ORDERS, and each of one of CHOICES, is what its line asks in a script of `cicsedf`: the same
/// key, at the same terminal, with the same bytes.
pub fn keys_are_asked_by_their_lines()
    ensures orders { KeysAreAskedByTheirLines }
    ensures choices { ChoicesAreAskedByTheirLines }
{}
