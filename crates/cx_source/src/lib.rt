//! The lines of an assembler source, the statements that they hold, and where a text is cut.
#![tactic(auto)]

mod all_faults;
mod faults;
pub mod laws;
mod lines;
mod marks;
mod reader;
mod source;
mod statements;

pub use all_faults::{source_or_faults, source_with_faults};
pub use lines::{
    begins_with_letter, is_letter, is_symbol_name, is_symbol_name_character, skip_blanks, text_of,
    trim_blanks,
};
pub use marks::{Delimiter, cut, first_mark, outside};
pub use reader::{SourceReader, read_source};
pub use source::{Item, Items, Source, SourceFault, Stmt, Text};
pub use statements::is_continued;
