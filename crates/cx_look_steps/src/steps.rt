//! Steps: what each move of a list is.

ghost use Rattle.std.specs.Prelude.{◌≡◌, length};
ghost use Rattle.cx_orders.specs.Moves.{keys_of};

use cx_base::List;
use cx_ebcdic::Name4;
use cx_orders::KeyLine;

/// A move of a terminal: its number, from 0, in the order of their definition, and of a key how many of its keys came
/// before; None of a turn. And what is told of it.
#[derive(Drop)]
pub struct Step {
    pub number: usize,
    pub key: Option<usize>,
    pub told: Option<List<u8>>,
}

/// How many keys there are of a terminal.
pub fn many_of(keys: &[KeyLine], name: Name4) -> usize
    ensures { result ≡ length (keys_of keys.now name) }
{
    keys.iter().filter(|key| key.name == name).count()
}
