//! What a command reads at its arguments.
ghost use Rattle.std.specs.Prelude.{◌≡◌, ◌<◌, ◌≤◌, ◌^◌, IfSome, is_some, length, unwrap_or};
ghost use Rattle.std.specs.List.{list_all};
ghost use Rattle.cx_base.specs.Arguments.{arguments_in};
ghost use Rattle.cx_region_state.specs.Inputs.{are_inputs_there, bytes_of, halfword_of, input_of, piece_of};

use crate::call::Call;
use cx_base::{CommandOption, OptionName};
use cx_ebcdic::{Name4, Name8};
use cx_storage::{Store, halfword_at};
use std::marker::Model;

/// Bytes in storage: the address (below 2^24) of the first, and how many there are. They go on at address 0
/// after X'FFFFFF'.
#[derive(Clone, Copy)]
pub struct StorageSpan {
    /// The address of the first byte, below 2^24.
    pub place: u32,
    /// How many bytes there are.
    pub len: u16,
}

/// The halfword at an option's argument, unsigned. None where the option isn't there, or a byte of the halfword
/// is in no area.
#[tactic(auto, unfolding(crate::specs::Inputs::halfword_of))]
pub fn halfword<S: Store>(store: &S, call: &Call, name: OptionName) -> Option<u16>
    ensures { result ≡ halfword_of (S.storage store.now) call.now name }
{
    let place = call.place(name)?;
    halfword_at(store, place)
}

/// Fills the buffer (at most 65,536 bytes) with the bytes at an option's argument. False, and the buffer stays as
/// it was, where the option isn't there or one of the bytes is in no area.
#[tactic(auto, unfolding(crate::specs::Inputs::bytes_of))]
pub fn read_argument<S: Store>(store: &S, call: &Call, name: OptionName, buffer: &mut [u8]) -> bool
    requires { length buffer.old ≤ 65536 }
    ensures present { result ≡ is_some (bytes_of (S.storage store.now) call.now name (length buffer.old)) }
    ensures after { let bytes = bytes_of (S.storage store.now) call.now name (length buffer.old) in
        buffer.new ≡ unwrap_or bytes buffer.old }
{
    let Some(place) = call.place(name) else {
        return false;
    };
    store.read(place, buffer)
}

/// The name of four bytes at an option's argument. None where the option isn't there, or one of the bytes is in
/// no area.
pub fn name4<S: Store>(store: &S, call: &Call, name: OptionName) -> Option<Name4>
    ensures { result ≡ bytes_of (S.storage store.now) call.now name 4 }
{
    let mut bytes = [0; 4];
    if !read_argument(store, call, name, &mut bytes) {
        return None;
    }
    Some(Name4::from_bytes(bytes))
}

/// The name of eight bytes at an option's argument. None where the option isn't there, or one of the bytes is in
/// no area.
pub fn name8<S: Store>(store: &S, call: &Call, name: OptionName) -> Option<Name8>
    ensures { result ≡ bytes_of (S.storage store.now) call.now name 8 }
{
    let mut bytes = [0; 8];
    if !read_argument(store, call, name, &mut bytes) {
        return None;
    }
    Some(Name8::from_bytes(bytes))
}

/// Whether what the command reads at the arguments of some options is in storage, where LENGTH has that halfword.
#[tactic(auto, unfolding(cx_base::specs::Arguments::arguments_in, crate::specs::Inputs::input_of, crate::specs::Inputs::bytes_of))]
fn are_all_there<S: Store>(
    store: &S,
    call: &Call,
    length: Option<u16>,
    options: &[CommandOption],
) -> bool
    requires length { length ≡ halfword_of (S.storage store.now) call.now OptionName.Length }
    ensures { let arguments = arguments_in options.now call.now.first in
        result ≡ list_all (λ option. is_some (input_of (S.storage store.now) call.now option)) arguments }
{
    options
        .iter()
        .filter(|option| option.is_argument(call.first()))
        .all(|option| {
            let len = call.command().input_len(call.first(), option.kind, length);
            match call.place(option.name) {
                Some(place) => store.has_span(place, usize::from(len)),
                None => false,
            }
        })
}

/// A call with what it reads of storage. LENGTH is read once, when this is made.
///
/// Contracts see it as `CallInputs`: storage, and the call. It takes no memory.
#[derive(Drop)]
pub struct CallInputs<'a, S: Store> {
    store: &'a S,
    call: &'a Call,
    length: Option<u16>,
}

impl<'a, S: Store> Model for CallInputs<'a, S> {
    ghost use Rattle.std.specs.Prelude.{◌≡◌};
    ghost use Rattle.cx_base.specs.declared.options.OptionName.TheVariants.{Length};
    ghost use Rattle.cx_region_state.specs.Inputs.{CallInputs, halfword_of};

    ghost Value = { CallInputs };

    ghost view = { λ inputs. record { storage = S.storage inputs.store.now; call = inputs.call.now } };

    ghost invariant = { λ inputs.
        inputs.length ≡ halfword_of (S.storage inputs.store.now) inputs.call.now Length };
}

impl<'a, S: Store> CallInputs<'a, S> {
    ghost use Rattle.cx_region_state.specs.Inputs.{is_length_negative, length_option};

    /// A call in a store, with its LENGTH read there.
    pub fn read(store: &'a S, call: &'a Call) -> CallInputs<'a, S>
        ensures { result ≡ record { storage = S.storage store.now; call = call.now } }
    {
        let length = halfword(store, call, OptionName::Length);
        CallInputs {
            store,
            call,
            length,
        }
    }

    /// The store in which the call was made.
    pub fn store(&self) -> &S
        ensures { S.storage result.now ≡ self.now.storage }
    {
        self.store
    }

    /// The call.
    pub fn call(&self) -> &Call
        ensures { result.now ≡ self.now.call }
    {
        self.call
    }

    /// The halfword at LENGTH's argument, unsigned. None where LENGTH isn't there, or one of its bytes is in no area.
    pub fn length_halfword(&self) -> Option<u16>
        ensures { result ≡ halfword_of self.now.storage self.now.call OptionName.Length }
    {
        self.length
    }

    /// Whether LENGTH is there, and its halfword is negative.
    #[tactic(auto, unfolding(crate::specs::Inputs::is_length_negative))]
    pub fn is_length_negative(&self) -> bool
        ensures { result ≡ is_length_negative self.now.storage self.now.call }
    {
        match self.length_halfword() {
            Some(halfword) => halfword >= 0x8000,
            None => false,
        }
    }

    /// How many bytes LENGTH says, at most 32,767: none where its halfword is negative, or where it isn't there.
    #[tactic(auto, unfolding(crate::specs::Inputs::length_option))]
    pub fn length(&self) -> u16
        ensures value { result ≡ length_option self.now.storage self.now.call }
        ensures bound { result < 2 ^ 15 }
    {
        match self.length_halfword() {
            Some(halfword) if halfword < 0x8000 => halfword,
            _ => 0,
        }
    }

    /// The bytes that LENGTH measures at an option's argument: no byte where LENGTH is negative. None where the option
    /// isn't there. They need not be in storage.
    #[tactic(auto, unfolding(crate::specs::Inputs::piece_of))]
    pub fn piece(&self, name: OptionName) -> Option<StorageSpan>
        ensures value { result ≡ piece_of self.now.storage self.now.call name }
        ensures address { IfSome result (λ piece. piece.place < 2 ^ 24) }
        ensures bound { IfSome result (λ piece. piece.len < 2 ^ 15) }
    {
        let place = self.call().place(name)?;
        let len = self.length();
        Some(StorageSpan { place, len })
    }

    /// Whether each byte that the command reads is in storage, and RESP's word too, where RESP is there.
    ///
    /// How many bytes an option's argument has is known from its kind. Of bytes that LENGTH measures none is tested
    /// where LENGTH is at fault: where it is negative, or for the name of a resource above 255. Nothing is read at the
    /// COMMAREA of LINK.
    #[tactic(auto, unfolding(crate::specs::Inputs::are_inputs_there))]
    pub fn are_there(&self) -> bool
        ensures { result ≡ are_inputs_there self.now.storage self.now.call }
    {
        let call = self.call();
        let store = self.store();
        let length = self.length_halfword();
        if !are_all_there(store, call, length, call.command().options()) {
            return false;
        }
        match call.resp() {
            Some(place) => store.has_span(place, 4),
            None => true,
        }
    }
}
