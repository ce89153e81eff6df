//! Images of programs: text, spans, listing lines, and the resolved lines that text and spans give again.
#![tactic(auto)]

mod assembled;
pub mod laws;
mod listing;
mod relocated;
mod resolved;
mod storage;
mod text;

pub use assembled::Assembled;
pub use listing::listing_line;
pub use relocated::push_words;
pub use resolved::{LARGEST_TEXT, ResolvedLines};
pub use storage::working_storage;
