//! What the second pass goes by.

use cx_asm_pass1::Places;
use cx_asm_pass2::Statement;
use std::alloc::Global;

/// What the second pass over a source goes by.
#[derive(Clone, Copy)]
pub(crate) struct SecondPass<'a, 'p, 's> {
    pub(crate) alloc: Global,
    /// Where everything of the source is.
    pub(crate) places: &'a Places<'p>,
    /// Its statements.
    pub(crate) statements: &'a [Statement<'s>],
    /// Whether what they make is kept.
    pub(crate) keeps: bool,
}
