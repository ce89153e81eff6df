//! What a command writes at its arguments.
ghost use Rattle.std.specs.Prelude.{◌≡◌, ℕ, List, ◌≤◌, ◌<◌, [], ◌∷◌, ◌++◌, ◌^◌, length, IfSome, zero, take};
ghost use Rattle.std.specs.List.{list_all};
ghost use Rattle.cx_region_state.specs.Call.{place_of};
ghost use Rattle.cx_region_state.specs.Outputs.{bytes_from, can_put, put_out, with_output};
ghost use Rattle.cx_region_state.specs.Parts.Room.{have_room, is_room_for, output_length};

use crate::call::Call;
use cx_base::OptionName;
use cx_storage::Store;
use std::marker::Model;

/// The most outputs of a command.
const OUTPUTS: usize = 4;

/// Where the bytes of an output come from.
#[derive(Clone, Copy)]
pub enum OutputValue {
    /// The first bytes of the text that the command hands over, this many: the input that RECEIVE gives, or the
    /// item that READQ TS gives.
    Text(u16),
    /// This halfword, its high byte first.
    Half(u16),
    /// This word, its highest byte first.
    Word(u32),
}

/// Bytes that a command writes at an option's argument, where the option is there.
#[derive(Clone, Copy)]
pub struct Output {
    /// The option at whose argument the bytes are written.
    pub option: OptionName,
    /// The bytes.
    pub source: OutputValue,
}

/// What a command writes at its arguments, at most four outputs, in the order of its options. Contracts see it as the
/// list of them.
#[derive(Drop)]
pub struct Outputs {
    entries: [Output; OUTPUTS],
    count: usize,
}

impl Model for Outputs {
    ghost use Rattle.std.specs.Prelude.{List, take, ◌≤◌};
    ghost use Rattle.cx_region_state.specs.declared.outputs.Output.{Output};

    ghost Value = { List Output };

    ghost view = { λ outputs. take outputs.count outputs.entries };

    ghost invariant = { λ outputs. outputs.count ≤ 4 };
}

impl Outputs {
    /// No output.
    pub fn none() -> Outputs
        ensures { result ≡ [] }
    {
        Outputs {
            entries: [Output {
                option: OptionName::Into,
                source: OutputValue::Text(0),
            }; OUTPUTS],
            count: 0,
        }
    }

    /// The outputs, fewer than four, and one more after them.
    pub fn with(self, option: OptionName, source: OutputValue) -> Outputs
        requires { length self < 4 }
        ensures { result ≡ self ++ record { option = option; source = source } ∷ [] }
    {
        let mut outputs = self;
        outputs.entries[outputs.count] = Output { option, source };
        outputs.count += 1;
        outputs
    }

    /// The outputs, at most four, in their order.
    pub fn as_slice(&self) -> &[Output]
        ensures value { result.now ≡ self.now }
        ensures fits { length result.now ≤ 4 }
    {
        &self.entries[..self.count]
    }
}

/// Whether each byte of an output is in storage, of a text of `len` bytes.
fn is_room<S: Store>(store: &S, place: Option<u32>, len: usize, source: OutputValue) -> bool
    requires { IfSome place (λ place. place < 2 ^ 24) }
    ensures { result ≡ is_room_for (S.storage store.now) place (output_length len source) }
{
    let bytes = match source {
        OutputValue::Text(n) => usize::from(n).min(len),
        OutputValue::Half(_) => 2,
        OutputValue::Word(_) => 4,
    };
    match place {
        Some(place) => store.has_span(place, bytes),
        None => true,
    }
}

/// Writes an output.
fn put_one<S: Store>(store: &mut S, place: Option<u32>, text: &[u8], source: OutputValue)
    requires { IfSome place (λ place. place < 2 ^ 24) }
    ensures { S.storage store.new ≡ with_output (S.storage store.old) place (bytes_from text.now source) }
{
    let Some(place) = place else {
        return;
    };
    match source {
        OutputValue::Text(n) => {
            let len = text.len().min(usize::from(n));
            store.write(place, &text[..len]);
        }
        OutputValue::Half(halfword) => {
            store.write(place, &halfword.to_be_bytes());
        }
        OutputValue::Word(word) => {
            store.write(place, &word.to_be_bytes());
        }
    }
}

/// Whether the place of each output has all its bytes, of a text of `len` bytes.
#[tactic(auto, unfolding(crate::specs::Parts::Room::have_room))]
fn is_room_for_all<S: Store>(store: &S, call: &Call, len: usize, outputs: &Outputs) -> bool
    ensures { result ≡ have_room (S.storage store.now) call.now len outputs.now }
{
    outputs.as_slice().iter().all(|output| is_room(
        store,
        call.place(output.option),
        len,
        output.source,
    ))
}

/// Whether each byte of the outputs is in storage. An output whose option isn't there has none. The text that the command
/// hands over has `len` bytes; which they are doesn't matter.
pub fn have_room<S: Store>(store: &S, call: &Call, len: usize, outputs: &Outputs) -> bool
    ensures { (text : List ℕ) → length text ≡ len → result ≡ can_put (S.storage store.now) call.now text outputs.now }
{
    is_room_for_all(store, call, len, outputs)
}

/// Writes the outputs in turn, each where all its bytes are in storage. An output whose option isn't there writes
/// nothing. The text is the one that the command hands over. No other byte changes.
#[tactic(auto, using(crate::proofs::OutputLemmas::put_step, crate::proofs::OutputLemmas::put_end))]
pub fn put_outputs<S: Store>(store: &mut S, call: &Call, text: &[u8], outputs: &Outputs)
    ensures { S.storage store.new ≡ put_out (S.storage store.old) call.now text.now outputs.now }
{
    for output in outputs.as_slice() {
        put_one(store, call.place(output.option), text, output.source);
    }
}
