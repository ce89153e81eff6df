//! Texts, pages and numbers as digits; lists, tables by name, hashes and shared values, which can be compared and of
//! which equal ones can be made; the table of CICS commands with their options and legal sets; conditions and abends;
//! the layouts of the EIB and of DFHEISTG's head.
#![tactic(auto)]

mod abends;
mod arguments;
mod commands;
mod conditions;
mod digits;
mod eib;
mod eistg;
mod hash;
pub mod laws;
mod legal;
mod list;
mod named;
mod options;
mod pages;
mod replica;
mod replica_lists;
mod replica_tables;
mod shared;
mod texts;

pub use abends::Abend;
pub use commands::Command;
pub use conditions::{CONDITIONS, Condition};
pub use digits::{decimal, hexadecimal};
pub use eib::{EibField, EibPiece, eib_pieces};
pub use eistg::EistgField;
pub use hash::{hash_of_bytes, hash_of_words, hash_with};
pub use legal::{ListedCondition, has_bit};
pub use list::List;
pub use options::{ArgumentKind, CommandOption, CommonOption, OptionName, Rule};
pub use pages::{COLUMNS, LINES, Page};
pub use replica::{Replica, Same};
pub use replica_lists::{are_same_items, replica_of_items};
pub use replica_tables::{are_same_tables, replica_of_table};
pub use shared::{are_same_shared, share, share_replica};
pub use texts::{in_columns, shown, shown_byte, shown_bytes, shown_name, trim, written_line};
