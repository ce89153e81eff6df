//! The generator of everything that is drawn.

use rand_core::utils::NextWord;
use rand_pcg::Pcg32;

/// Where the generator begins, and which of its sequences it gives.
const STATE: u64 = 0x1971;

const SEQUENCE: u64 = 34;

/// What is drawn, one number after another: in each run the same.
#[derive(Drop)]
pub struct Draws {
    generator: Pcg32,
}

impl Draws {
    /// The generator before its first number.
    pub fn new() -> Draws {
        Draws {
            generator: Pcg32::new(STATE, SEQUENCE),
        }
    }

    /// Four bytes.
    fn word(&mut self) -> [u8; 4] {
        self.generator.next_word().to_be_bytes()
    }

    /// Draws a byte of any value.
    pub fn byte(&mut self) -> u8 {
        self.word()[0]
    }

    /// Draws a number below a bound; 0 where the bound is 0.
    pub fn below(&mut self, bound: u32) -> u32 {
        self.generator.next_word() % bound.max(1)
    }

    /// Draws: true in one of `cases` draws on average, and always where `cases` is 0 or 1.
    pub fn is_one_in(&mut self, cases: u32) -> bool {
        self.below(cases) == 0
    }

    /// Draws an item of a list; None where it has none.
    pub fn pick<T: Copy>(&mut self, items: &[T]) -> Option<T> {
        let at = self.generator.next_word() as usize % items.len().max(1);
        items.get(at).copied()
    }
}
