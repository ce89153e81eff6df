//! Looks at the last abend of each terminal.
#![tactic(auto)]

mod abends;
mod before;
mod dumps;
mod keeping;
pub mod laws;
mod texts;

pub use abends::{
    Caller, Callers, Explanation, Kept, KeptTask, LastAbend, LastAbends, TaskBefore, abend_code_in,
};
pub use dumps::StorageDump;
pub use keeping::apply_keeping_abends;
pub use texts::{abend_fields_text, abend_storage_text, abend_text};
