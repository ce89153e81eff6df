//! The instructions of a System/370 subset: their table, their spelling as bytes, and disassembly; and the state of the
//! processor that performs them.
#![tactic(auto)]

mod cpu;
mod disassembly;
mod image;
mod instruction;
pub mod laws;
mod spelling;
mod table;
mod text;

pub use cpu::Cpu;
pub use disassembly::{Line, LineContent, disassemble};
pub use image::{Bytes, Image, Offsets, Span, SpanKind};
pub use instruction::{Fields, Inst};
pub use spelling::{CodeBytes, decode, encode};
pub use table::{Format, Op, instruction_length};
pub use text::line_text;
