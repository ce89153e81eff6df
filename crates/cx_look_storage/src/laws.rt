//! What follows from the definitions of looks at storage.

ghost use Rattle.cx_look_storage.specs.Laws.{MeetsItsBytes};

/// STORAGE writes a line of an area exactly where the area has one of the bytes that are looked at.
pub fn an_area_is_met_where_it_has_a_byte()
    ensures { MeetsItsBytes }
{}
