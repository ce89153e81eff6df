//! Looks at what a source's names tell of a task: what is kept of each level, its fields with the numbers that their
//! bytes are, and what is at an address.
#![tactic(auto)]

mod field_texts;
mod fields;
mod kept;
pub mod laws;
mod levels;
mod names;
mod nearest;
mod numbers;
mod readings;
mod standing;
mod tasks;
mod texts;
pub mod wheres;

pub use field_texts::{
    FieldLook, FieldWriter, field_at, field_text, fields_text, fields_there, fields_word,
    level_program, standing_at,
};
pub use fields::{Field, LevelFields, TypedField};
pub use kept::kept_fields;
pub use nearest::{Near, near_word};
pub use readings::{NamedReading, Reading, reading_named, readings_of};
pub use standing::{Standing, calling, standing_in};
pub use tasks::{task_of, task_text};
pub use texts::value_text;
