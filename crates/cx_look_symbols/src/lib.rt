//! Looks at the names of a program's source; the lines of its statements; addresses as programs and offsets.
#![tactic(auto)]

mod all;
pub mod laws;
mod lines;
mod looks;
mod placed;
mod places;
mod rows;
mod shown;
mod sources;
mod statements;
mod symbols;
mod texts;

pub use all::in_order;
pub use lines::{SourcePlaces, five_digits, has_offset};
pub use looks::{symbol_text, symbols_text};
pub use placed::{PlacedSource, translated_in};
pub use places::{
    Place, Spot, address_word, line_of, line_word, place_at_address, place_word, spot_before,
};
pub use rows::Symbol;
pub use shown::{push_led_by, push_text_on, statement_at};
pub use sources::Sources;
pub use statements::{StatementPlace, statement_place, statement_places};
pub use symbols::{Names, names_in};
pub use texts::{is_control, length_word, offset_up_to};
