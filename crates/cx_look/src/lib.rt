//! What a line that looks at a region asks; and the blocks of ORDERS and CHOICES: which lines they may have, and what
//! these ask.
#![tactic(auto)]

mod choices;
pub mod laws;
mod look;
mod orders;
mod sets;

pub use choices::{ChoicesAsked, ChoicesBlock, choices_asked, choices_block, choices_with};
pub use look::{Look, SourceLines, Subject, count_up_to, look_of, subject_of};
pub use orders::{
    OrdersAsked, OrdersBlock, OrdersLine, Sight, orders_asked, orders_block, orders_with, put_upper,
};
