//! A command's argument list, read as a call.
ghost use Rattle.std.specs.Prelude.{◌≡◌, ◌<◌, ◌≤◌, ◌^◌, ◌==◌, count_by, length, map, option_map, IsTrue, IsFalse, IfSome, IfOk};
ghost use Rattle.std.specs.List.{AllByRecursion, position};
ghost use Rattle.std.specs.Result.{result_map_both};
ghost use Rattle.cx_base.specs.Legal.{has_bit, is_legal, lists_conditions};
ghost use Rattle.cx_storage.specs.Word.{word_at};
ghost use Rattle.cx_storage.specs.Address.{address_in};
ghost use Rattle.cx_region_state.specs.Call.{argument_count, block_of, call_of, command_of, conditions_of, has_high_bit, has_label, listed_in, marks_last_alone, places_of, words_from};

use arrayvec::ArrayVec;
use byteorder::{BigEndian, ByteOrder};
use cx_base::{Command, CommonOption, ListedCondition, OptionName, has_bit};
use cx_storage::{Store, address_after, address_in, word_at};
use std::marker::Model;

/// The most conditions that HANDLE or IGNORE CONDITION lists.
const CONDITIONS: usize = 16;

/// The most arguments of a command: a label for each of sixteen conditions, and RESP's word.
const ARGUMENTS: usize = 17;

/// The words of the longest argument list: word 0 and those of the arguments.
const WORDS: usize = 1 + ARGUMENTS;

/// Why a task's argument list can't be read as a call. The task abends with that code.
#[derive(Clone, Copy, Debug, PartialEq, Eq)]
pub enum CallFault {
    /// A word of the list, or a byte of the block, is in no area, or the high bit is not set on the last
    /// word alone.
    Xarg,
    /// No command has the function value, or the options or the listed conditions are not a legal set.
    Xfun,
}

/// A command as its argument list gives it.
///
/// Application Programmer's Reference Manual, SC33-0077; the layout of the list is this product's own.
/// Contracts see it as `Call`: the command, the two option bytes, the listed conditions, and the addresses
/// of the arguments. It takes no memory.
#[derive(Drop)]
pub struct Call {
    command: Command,
    first: u8,
    second: u8,
    conditions: ArrayVec<ListedCondition, CONDITIONS>,
    places: ArrayVec<u32, ARGUMENTS>,
}

impl Model for Call {
    ghost use Rattle.std.specs.Prelude.{◌<◌, ◌^◌};
    ghost use Rattle.std.specs.List.{AllByRecursion};
    ghost use Rattle.cx_region_state.specs.Call.{Call};

    ghost Value = { Call };

    ghost view = { λ call.
        record {
          command = call.command;
          first = call.first;
          second = call.second;
          conditions = call.conditions.items;
          places = call.places.items;
        } };

    ghost invariant = { λ call. AllByRecursion (λ place. place < 2 ^ 24) call.places.items };
}

impl Call {
    ghost use Rattle.cx_base.specs.Arguments.{has_option};
    ghost use Rattle.cx_region_state.specs.Call.{has_nohandle, place_of, resp_place};

    /// The command.
    pub fn command(&self) -> Command
        ensures { result ≡ self.now.command }
    {
        self.command
    }

    /// Option byte 1: the options, or the number of listed conditions.
    pub fn first(&self) -> u8
        ensures { result ≡ self.now.first }
    {
        self.first
    }

    /// Whether the call has an option of its command.
    pub fn has(&self, name: OptionName) -> bool
        ensures { result ≡ has_option self.now.command self.now.first name }
    {
        self.command.has_option(self.first, name)
    }

    /// The address (below 2^24) of an option's argument. None where the option is not there, or has no argument.
    #[tactic(auto, unfolding(crate::specs::Call::place_of))]
    pub fn place(&self, name: OptionName) -> Option<u32>
        ensures value { result ≡ place_of self.now name }
        ensures address { IfSome result (λ place. place < 2 ^ 24) }
    {
        let index = self.command.argument_index(self.first, name)?;
        self.places.get(index).copied()
    }

    /// The address (below 2^24) of RESP's word, where RESP is there.
    #[tactic(auto, unfolding(crate::specs::Call::resp_place))]
    pub fn resp(&self) -> Option<u32>
        ensures value { result ≡ resp_place self.now }
        ensures address { IfSome result (λ place. place < 2 ^ 24) }
    {
        if has_bit(self.second, CommonOption::Resp.bit()) {
            self.places.last().copied()
        } else {
            None
        }
    }

    /// Whether NOHANDLE is there, in option byte 2.
    pub fn has_nohandle(&self) -> bool
        ensures { result ≡ has_nohandle self.now.second }
    {
        has_bit(self.second, CommonOption::Nohandle.bit())
    }

    /// The conditions that HANDLE or IGNORE CONDITION lists, in their order; none for other commands.
    pub fn conditions(&self) -> &[ListedCondition]
        ensures value { result.now ≡ self.now.conditions }
        ensures fits { length result.now ≤ 16 }
    {
        self.conditions.as_slice()
    }

    /// Says that every address of the call is below 2^24, and does nothing.
    pub fn addresses_are_below(&self)
        ensures { AllByRecursion (λ place. place < 2 ^ 24) self.now.places }
    {
        self.places();
    }

    /// The addresses (below 2^24) of the arguments, in the order of their words: those of the options, or
    /// the labels of the conditions that have one; then RESP's.
    pub fn places(&self) -> &[u32]
        ensures value { result.now ≡ self.now.places }
        ensures addresses { AllByRecursion (λ place. place < 2 ^ 24) result.now }
    {
        self.places.as_slice()
    }
}

/// Reads the call whose argument list is at an address (below 2^24).
///
/// Xarg: word 0, or a byte of the block that it addresses, is in no area. Xfun: no command has the
/// function value, or the option bytes are not legal for it. For HANDLE and IGNORE CONDITION then Xarg: a
/// byte of the listed conditions is in no area; Xfun: they are not legal. Xarg: one of as many words as
/// there are arguments is in no area, or the high bit is not set on the last word alone. The first of
/// these in this order is answered. All addresses go on at 0 after X'FFFFFF'.
#[tactic(auto, unfolding(crate::specs::Call::call_of))]
pub fn read_call<S: Store>(store: &S, list: u32) -> Result<Call, CallFault>
    requires { list < 2 ^ 24 }
    ensures { result ≡ call_of (S.storage store.now) list }
{
    let block = read_block(store, list)?;
    let command = block.command()?;
    let conditions = read_conditions(store, command, &block)?;
    let count = argument_count(command, &block, conditions.as_slice());
    let places = read_places(store, list, count)?;
    Ok(Call {
        command,
        first: block.first,
        second: block.second,
        conditions,
        places,
    })
}

/// The block of an argument list.
#[derive(Drop)]
struct ArgumentBlock {
    place: u32,
    function: u16,
    first: u8,
    second: u8,
}

impl Model for ArgumentBlock {
    ghost use Rattle.std.specs.Prelude.{◌<◌, ◌^◌};
    ghost use Rattle.cx_region_state.specs.Call.{ArgumentBlock};

    ghost Value = { ArgumentBlock };

    ghost view = { λ block.
        record { place = block.place; function = block.function; first = block.first; second = block.second } };

    ghost invariant = { λ block. block.place < 2 ^ 24 };
}

impl ArgumentBlock {
    /// The block's command, where the option bytes are legal for it; else Xfun.
    #[tactic(auto, unfolding(crate::specs::Call::command_of))]
    fn command(&self) -> Result<Command, CallFault>
        ensures value { result ≡ command_of self.now }
        ensures legal { IfOk result (λ command. IsTrue (is_legal command self.now.first self.now.second)) }
    {
        let command = Command::from_function(self.function).ok_or(CallFault::Xfun)?;
        if command.is_legal(self.first, self.second) {
            Ok(command)
        } else {
            Err(CallFault::Xfun)
        }
    }
}

/// The block that word 0 of a list addresses.
#[tactic(auto, unfolding(crate::specs::Call::block_of))]
fn read_block<S: Store>(store: &S, list: u32) -> Result<ArgumentBlock, CallFault>
    requires { list < 2 ^ 24 }
    ensures { result ≡ block_of (S.storage store.now) list }
{
    let word = word_at(store, list).ok_or(CallFault::Xarg)?;
    let place = address_in(word);
    let mut bytes = [0; 4];
    if !store.read(place, &mut bytes) {
        return Err(CallFault::Xarg);
    }
    Ok(ArgumentBlock {
        place,
        function: BigEndian::read_u16(&bytes),
        first: bytes[2],
        second: bytes[3],
    })
}

/// The conditions that HANDLE or IGNORE CONDITION lists after the block; none for other commands.
#[tactic(auto, unfolding(crate::specs::Call::conditions_of, cx_base::specs::Legal::is_legal))]
fn read_conditions<S: Store>(
    store: &S,
    command: Command,
    block: &ArgumentBlock,
) -> Result<ArrayVec<ListedCondition, CONDITIONS>, CallFault>
    requires { IsTrue (is_legal command block.now.first block.now.second) }
    ensures value { let listed = conditions_of (S.storage store.now) command block.now in
        result_map_both (λ conditions. conditions.items) (λ fault. fault) result ≡ listed }
    ensures others { IfOk result (λ conditions. IsFalse (lists_conditions command) → length conditions.items ≡ 0) }
{
    if !command.lists_conditions() {
        return Ok(ArrayVec::new());
    }
    let mut bytes = [0; 2 * CONDITIONS];
    let listed = &mut bytes[..2 * block.first as usize];
    if !store.read(address_after(block.place, 4), listed) {
        return Err(CallFault::Xarg);
    }
    let conditions = listed_in(listed);
    if command.is_legal_list(conditions.as_slice()) {
        Ok(conditions)
    } else {
        Err(CallFault::Xfun)
    }
}

/// The conditions in some bytes, two for each.
#[tactic(auto, using(crate::proofs::CallLemmas::listed_step, crate::proofs::CallLemmas::listed_all))]
fn listed_in(bytes: &[u8]) -> ArrayVec<ListedCondition, CONDITIONS>
    requires { length bytes.now ≤ 32 }
    ensures { result.items ≡ listed_in bytes.now }
{
    let mut conditions = ArrayVec::new();
    for k in 0..bytes.len() / 2 {
        conditions.push(ListedCondition {
            number: bytes[2 * k],
            label: bytes[2 * k + 1],
        });
    }
    conditions
}

/// How many arguments a call has.
#[tactic(auto, unfolding(crate::specs::Call::argument_count))]
fn argument_count(command: Command, block: &ArgumentBlock, conditions: &[ListedCondition]) -> usize
    requires at_most_16 { length conditions.now ≤ 16 }
    requires others { IsFalse (lists_conditions command) → length conditions.now ≡ 0 }
    ensures value { result ≡ argument_count command block.now conditions.now }
    ensures most { result ≤ 17 }
{
    let resp = if has_bit(block.second, CommonOption::Resp.bit()) {
        1
    } else {
        0
    };
    let labels = conditions
        .iter()
        .filter(|listed| listed.label == 0x80)
        .count();
    command.argument_count(block.first) + labels + resp
}

/// The addresses of the arguments of a list.
#[tactic(auto, unfolding(crate::specs::Call::places_of))]
fn read_places<S: Store>(
    store: &S,
    list: u32,
    count: usize,
) -> Result<ArrayVec<u32, ARGUMENTS>, CallFault>
    requires list { list < 2 ^ 24 }
    requires most { count ≤ 17 }
    ensures value { let read = places_of (S.storage store.now) list count in
        result_map_both (λ places. places.items) (λ fault. fault) result ≡ read }
    ensures addresses { IfOk result (λ places. AllByRecursion (λ place. place < 2 ^ 24) places.items) }
{
    let words = read_words(store, list, 1 + count).ok_or(CallFault::Xarg)?;
    if marks_last_alone(words.as_slice()) {
        Ok(addresses_in(&words.as_slice()[1..]))
    } else {
        Err(CallFault::Xarg)
    }
}

/// Some words from an address on, where all are in storage.
#[tactic(auto, using(crate::proofs::CallLemmas::followed_none, crate::proofs::CallLemmas::words_step, crate::proofs::CallLemmas::words_absent, crate::proofs::CallLemmas::words_all))]
fn read_words<S: Store>(store: &S, list: u32, count: usize) -> Option<ArrayVec<u32, WORDS>>
    requires list { list < 2 ^ 24 }
    requires most { count ≤ 18 }
    ensures { option_map (λ words. words.items) result ≡ words_from (S.storage store.now) list count }
{
    let mut words = ArrayVec::new();
    let mut at = list;
    for _k in 0..count {
        let Some(word) = word_at(store, at) else {
            return None;
        };
        words.push(word);
        at = address_after(at, 4);
    }
    Some(words)
}

/// Whether the first word with its high bit set is the last one.
#[tactic(auto, using(crate::proofs::CallLemmas::first_marked, crate::proofs::CallLemmas::none_marked))]
fn marks_last_alone(words: &[u32]) -> bool
    ensures value { result ≡ marks_last_alone words.now }
    ensures nonempty { IsTrue result → 1 ≤ length words.now }
{
    let Some(first) = first_marked(words) else {
        return false;
    };
    first + 1 == words.len()
}

/// The first word with its high bit set.
fn first_marked(words: &[u32]) -> Option<usize>
    ensures { result ≡ position has_high_bit words.now }
{
    words.iter().position(|word| *word >= 0x8000_0000)
}

/// The addresses in some words.
fn addresses_in(words: &[u32]) -> ArrayVec<u32, ARGUMENTS>
    requires { length words.now ≤ 17 }
    ensures value { result.items ≡ map address_in words.now }
    ensures addresses { AllByRecursion (λ place. place < 2 ^ 24) result.items }
{
    let mut places = ArrayVec::new();
    for word in words {
        places.push(address_in(*word));
    }
    places
}
