//! What follows from the definitions of looks at levels and at an address.

ghost use Rattle.cx_look_fields.specs.Laws.{FieldsAreOperands, KeptFieldsAreOfStorage, NearestFieldIs, NearestLabelIs};

/// A field is where an operand is that is written at the level's statement without a base or an index: the address of
/// the base and the displacement that the assembler makes of it.
pub fn fields_are_operands()
    ensures { FieldsAreOperands }
{
    cx_look_symbols::laws::symbols_are_looked_up();
}

/// What is written of a field of a working storage that was kept, all of whose bytes are among those, is what FIELD
/// writes of it in the storage of which they were kept.
pub fn kept_fields_are_of_storage()
    ensures { KeptFieldsAreOfStorage }
{}

/// Of the fields of a level that have a byte, each at the address that FIELD finds, the one is reported that begins
/// last, and of those that begin together the one that is defined first; none only where no field has the byte. Of the
/// labels at a byte or before it the one is reported that is last, and of those at one place the one that is defined
/// first; none only where there is none.
pub fn the_nearest_is_reported()
    ensures fields { NearestFieldIs }
    ensures labels { NearestLabelIs }
{
    cx_look_symbols::laws::symbols_are_looked_up();
}
