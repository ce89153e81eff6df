//! Looks at storage: its bytes, its areas, what each area is, and whose.
#![tactic(auto)]

mod areas;
mod bytes;
pub mod laws;
mod uses;

pub use areas::{areas_text, task_areas_text};
pub use bytes::{met_lines, row_lines, storage_text};
pub use uses::area_line;
