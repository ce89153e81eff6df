//! ORDERS: which lines its block may have, and what they ask.
ghost use Rattle.std.specs.Prelude.{◌≡◌, ◌≤◌, IfOk, IfSome, OnErr, count_by, false, is_some, length, map, not, true, option_and_then};
ghost use Rattle.std.specs.Char.{to_ascii_uppercase};
ghost use Rattle.std.specs.List.{AllByRecursion, flat_map};
ghost use Rattle.std.specs.Option.{option_copied};
ghost use Rattle.cx_edf.specs.Runs.{IsAllowedEdf};
ghost use Rattle.cx_script_actions.specs.Actions.{is_blank_or_comment};
ghost use Rattle.cx_script_actions.specs.Allowed.{IsAllowedAction, IsAllowedLine};
ghost use Rattle.cx_look.specs.Orders.{are_said, event_in, block_has_room, is_key, is_sight, key_in, key_line_of, keys_in, sight_asked_for, look_seen, orders_asked, orders_block, orders_line_of, orders_with, screen_of, sight_of, sights_in, states_and, with_states};
ghost use Rattle.cx_look.specs.Looks.{at_most};
ghost use Rattle.cx_script_actions.specs.Words.{number_with_digits};
ghost use Rattle.cx_look.specs.declared.orders.OrdersLine.TheVariants as says;
ghost use Rattle.cx_orders.specs.Moves.{IsFew};

use crate::look::{Look, look_of};
use crate::sets::MOST_IN_LINE;
use cx_base::List;
use cx_code::Bytes;
use cx_ebcdic::Name4;
use cx_edf::EdfEvent;
use cx_orders::KeyLine;
use cx_region::Event;
use cx_script_actions::{Action, Line, NoHeading, line_of, name4, number, split_word};
use cx_source::Text;
use std::alloc::{AllocError, Global};

/// The most states of a search that no number limits.
const STATES: u32 = 10_000;

/// The most states of a search.
const MOST_STATES: u32 = 1_000_000;

/// The most keys of a block.
const MOST_KEYS: usize = 256;

/// The most lines of a block that say what is to be seen.
const MOST_SIGHTS: usize = 64;

/// What ORDERS says of its search.
#[derive(Clone, Copy)]
pub struct OrdersAsked {
    /// How many states are looked at, at most: 1 to 1,000,000 as a line asks it.
    pub most: u32,
    /// Whether a key may also come while its terminal's task runs, as long as no input is held there.
    pub typed_ahead: bool,
}

/// What is to be seen of an outcome.
#[derive(Drop)]
pub enum Sight {
    /// The screen of a terminal.
    Screen(Name4),
    /// What this look writes.
    Look(Look),
}

/// What a line of a block of ORDERS says.
#[derive(Drop)]
pub enum OrdersLine {
    /// Nothing: the line is empty, or a comment.
    Blank,
    /// This key is to come.
    Key(KeyLine),
    /// This is to be seen of each outcome.
    Sight(Sight),
}

/// What a block of ORDERS asks: a search of all orders of turns and keys.
#[derive(Drop)]
pub struct OrdersBlock {
    /// How many states are looked at, at most.
    pub most: u32,
    /// Whether a key may also come while its terminal's task runs, as long as no input is held there.
    pub typed_ahead: bool,
    /// The keys that are to come, those of one terminal in their order, each of at most 1,920 bytes.
    pub keys: List<KeyLine>,
    /// What is to be seen of an outcome; each terminal's screen where there is none.
    pub sights: List<Sight>,
}

/// How many states a word says: 1 to 1,000,000.
#[tactic(auto, using(std::proofs::lemmas::Bool::Decides::nat_tests))]
fn states_of(word: &[u8]) -> Option<u32>
    ensures { result ≡ option_and_then (at_most 1000000) (number_with_digits 1 7 word.now) }
{
    let n = number(word, 1, 7)?;
    if n < 1 || n > MOST_STATES {
        return None;
    }
    Some(n)
}

/// Whether these words are said: false where nothing is; None where anything else is.
fn are_said(rest: Option<&[u8]>, words: &[u8]) -> Option<bool>
    ensures { result ≡ are_said words.now (option_copied rest.entry) }
{
    match rest {
        None => Some(false),
        Some(text) if text == words => Some(true),
        Some(_) => None,
    }
}

/// A number of states, and whether these words are said after it.
fn with_states(states: u32, rest: Option<&[u8]>, words: &[u8]) -> Option<(u32, bool)>
    ensures { result ≡ with_states states words.now (option_copied rest.entry) }
{
    let said = are_said(rest, words)?;
    Some((states, said))
}

/// How many states are looked at, at most, and whether these words follow: a number from 1 to 1,000,000, and 10,000
/// where there is none; None where anything else is said. It takes no memory.
pub(crate) fn states_and(rest: Option<&[u8]>, words: &[u8]) -> Option<(u32, bool)>
    ensures { result ≡ states_and words.now (option_copied rest.entry) }
{
    let Some(text) = rest else {
        return with_states(STATES, rest, words);
    };
    let (word, more) = split_word(text);
    match states_of(word) {
        Some(n) => with_states(n, more, words),
        None => with_states(STATES, rest, words),
    }
}

/// What ORDERS asks of its search, by what follows it: a number of states from 1 to 1,000,000, 10,000 where there is
/// none, and then TYPED AHEAD or nothing; None where anything else follows. It takes no memory.
pub fn orders_asked(rest: Option<&[u8]>) -> Option<OrdersAsked>
    ensures { result ≡ orders_asked (option_copied rest.entry) }
{
    let (most, typed_ahead) = states_and(rest, b"TYPED AHEAD")?;
    Some(OrdersAsked { most, typed_ahead })
}

/// Whether a line is empty or a comment.
pub(crate) fn is_blank_or_comment(text: &[u8]) -> bool
    ensures { result ≡ is_blank_or_comment text.now }
{
    text.is_empty() || text[0] == b'*'
}

/// Whether a line begins with KEY.
pub(crate) fn is_key(text: &[u8]) -> bool
    ensures { result ≡ is_key text.now }
{
    let (word, _rest) = split_word(text);
    word == b"KEY".as_slice()
}

/// The event that a line gives.
fn event_in(line: Line<Action, NoHeading>) -> Option<EdfEvent>
    requires { IsAllowedLine IsAllowedAction line }
    ensures value { result ≡ event_in line }
    ensures allowed { IfSome result IsAllowedEdf }
{
    match line {
        Line::Action(Action::Event(event)) => Some(event),
        _ => None,
    }
}

/// The key that an event is, with the line that asks it.
fn key_in(alloc: Global, event: &EdfEvent, text: &[u8]) -> Result<Option<KeyLine>, AllocError>
    requires { IsAllowedEdf event.now }
    ensures value { IfOk result (λ key. key ≡ key_in text.now event.now) }
    ensures memory { OnErr result (is_some (key_in text.now event.now) ≡ true) }
    ensures keys_in_range { IfOk result (λ key. IfSome key IsFew) }
{
    match event {
        EdfEvent::Plain(Event::Key(name, aid, bytes)) => Ok(Some(KeyLine {
            name: *name,
            aid: *aid,
            bytes: Bytes::from_vec(bytes.as_slice().to_vec(alloc)?),
            line: List::from_slice(alloc, text)?,
        })),
        _ => Ok(None),
    }
}

/// The key that a line asks which begins with KEY.
#[tactic(auto, using(crate::proofs::KeyLemmas::is_asked))]
pub(crate) fn key_line_of(alloc: Global, text: &[u8]) -> Result<Option<KeyLine>, AllocError>
    requires more { is_blank_or_comment text.now ≡ false }
    requires key { is_key text.now ≡ true }
    ensures value { IfOk result (λ key. key ≡ key_line_of text.now) }
    ensures memory { OnErr result (is_some (key_line_of text.now) ≡ true) }
    ensures keys_in_range { IfOk result (λ key. IfSome key IsFew) }
{
    let Some(asked) = line_of(alloc, text)? else {
        return Ok(None);
    };
    let Some(event) = event_in(asked) else {
        return Ok(None);
    };
    key_in(alloc, &event, text)
}

/// The screen that a line asks.
fn screen_of(text: &[u8]) -> Option<Sight>
    ensures { result ≡ screen_of text.now }
{
    let (word, rest) = split_word(text);
    if word != b"SCREEN".as_slice() {
        return None;
    }
    let name = name4(rest?)?;
    Some(Sight::Screen(name))
}

/// Whether a look may be seen of an outcome.
fn is_sight(look: &Look) -> bool
    ensures { result ≡ is_sight look.now }
{
    !matches!(
        look,
        Look::Abend(_)
            | Look::AbendFields(_)
            | Look::AbendStorage(_)
            | Look::Ahead(_, _)
            | Look::AheadAfter(_, _)
            | Look::AheadAt(_, _, _)
            | Look::Covered(_)
            | Look::CoveredAll
            | Look::CoveredLines(_)
            | Look::Faults(_)
            | Look::FieldsAfter(_, _)
            | Look::Help(_)
    )
}

/// Puts a text into a buffer of its length, in upper case. It takes no memory.
pub fn put_upper(text: &[u8], out: &mut [u8])
    requires { length out.old ≡ length text.now }
    ensures { out.new ≡ map to_ascii_uppercase text.now }
{
    out.copy_from_slice(text);
    out.make_ascii_uppercase();
}

/// A look, where it may be seen of an outcome.
fn look_seen(look: Look) -> Option<Sight>
    ensures { result ≡ look_seen look }
{
    if is_sight(&look) {
        Some(Sight::Look(look))
    } else {
        None
    }
}

/// The look that a line asks, where it may be seen of an outcome.
fn sight_asked_for(text: &[u8]) -> Option<Sight>
    ensures { result ≡ sight_asked_for text.now }
{
    let mut buffer = [0; MOST_IN_LINE];
    if text.len() > MOST_IN_LINE {
        return None;
    }
    let read = &mut buffer[..text.len()];
    put_upper(text, read);
    let look = look_of(read)?;
    look_seen(look)
}

/// What a line asks to be seen.
pub(crate) fn sight_of(text: &[u8]) -> Option<Sight>
    ensures { result ≡ sight_of text.now }
{
    if let Some(sight) = screen_of(text) {
        return Some(sight);
    }
    sight_asked_for(text)
}

/// What a line of the block says; None where it may not stand there. An error comes only where an allocation failed,
/// and never for a line that may not stand there.
#[tactic(auto, unfolding(crate::specs::Orders::orders_line_of))]
fn orders_line_of(alloc: Global, text: &[u8]) -> Result<Option<OrdersLine>, AllocError>
    ensures value { IfOk result (λ line. line ≡ orders_line_of text.now) }
    ensures memory { OnErr result (is_some (orders_line_of text.now) ≡ true) }
    ensures keys_in_range { IfOk result (λ line. AllByRecursion IsFew (keys_in line)) }
{
    if is_blank_or_comment(text) {
        return Ok(Some(OrdersLine::Blank));
    }
    if !is_key(text) {
        return Ok(sight_of(text).map(|sight| OrdersLine::Sight(sight)));
    }
    match key_line_of(alloc, text)? {
        Some(key) => Ok(Some(OrdersLine::Key(key))),
        None => Ok(None),
    }
}

/// How many of these lines are keys.
fn keys_among(lines: &[Text]) -> usize
    ensures { result ≡ count_by is_key lines.now }
{
    lines.iter().filter(|line| is_key(line.as_slice())).count()
}

/// How many of these lines are no keys.
fn sights_among(lines: &[Text]) -> usize
    ensures { result ≡ count_by (λ l. not (is_key l)) lines.now }
{
    lines.iter().filter(|line| !is_key(line.as_slice())).count()
}

/// Whether the block has room for one more line of this sort.
pub(crate) fn block_has_room(lines: &[Text], text: &[u8]) -> bool
    ensures { result ≡ block_has_room lines.now text.now }
{
    if is_key(text) {
        keys_among(lines) < MOST_KEYS
    } else {
        sights_among(lines) < MOST_SIGHTS
    }
}

/// The lines of a block of ORDERS with one more; None where the block may not have it: the line isn't one of such a
/// block, or the block has 256 keys, or 64 other lines, already. Empty lines and comments aren't kept.
///
/// An error comes only where an allocation failed, and never for a line that the block may not have.
#[tactic(auto, unfolding(crate::specs::Orders::orders_with))]
pub fn orders_with(
    alloc: Global,
    lines: List<Text>,
    text: &[u8],
) -> Result<Option<List<Text>>, AllocError>
    ensures value { IfOk result (λ more. more ≡ orders_with lines text.now) }
    ensures memory { OnErr result (is_some (orders_with lines text.now) ≡ true) }
{
    if is_blank_or_comment(text) {
        return Ok(Some(lines));
    }
    if !block_has_room(lines.as_slice(), text) {
        return Ok(None);
    }
    let Some(_line) = orders_line_of(alloc, text)? else {
        return Ok(None);
    };
    let mut lines = lines.into_vec();
    lines.push(Text::from_slice(alloc, text)?)?;
    Ok(Some(List::from_vec(lines)))
}

/// The keys that lines of a block ask, in their order.
///
/// An error comes only where an allocation failed.
fn keys_of(alloc: Global, lines: &[Text]) -> Result<List<KeyLine>, AllocError>
    ensures value { IfOk result (λ keys. keys ≡ flat_map (λ l. keys_in (orders_line_of l)) lines.now) }
    ensures keys_in_range { IfOk result (λ keys. AllByRecursion IsFew keys) }
{
    let mut keys = Vec::new(alloc);
    for line in lines {
        if let Some(OrdersLine::Key(key)) = orders_line_of(alloc, line.as_slice())? {
            keys.push(key)?;
        }
    }
    Ok(List::from_vec(keys))
}

/// What lines of a block ask to be seen, in their order.
///
/// An error comes only where an allocation failed.
pub(crate) fn sights_of(alloc: Global, lines: &[Text]) -> Result<List<Sight>, AllocError>
    ensures { IfOk result (λ sights. sights ≡ flat_map (λ l. sights_in (orders_line_of l)) lines.now) }
{
    let mut sights = Vec::new(alloc);
    for line in lines {
        if let Some(OrdersLine::Sight(sight)) = orders_line_of(alloc, line.as_slice())? {
            sights.push(sight)?;
        }
    }
    Ok(List::from_vec(sights))
}

/// What a block of ORDERS asks, by what its first line asks and its other lines.
///
/// An error comes only where an allocation failed.
#[tactic(auto, unfolding(crate::specs::Orders::orders_block))]
pub fn orders_block(
    alloc: Global,
    asked: OrdersAsked,
    lines: &[Text],
) -> Result<OrdersBlock, AllocError>
    ensures value { IfOk result (λ block. block ≡ orders_block asked lines.now) }
    ensures keys_in_range { IfOk result (λ block. AllByRecursion IsFew block.keys) }
{
    let keys = keys_of(alloc, lines)?;
    let sights = sights_of(alloc, lines)?;
    Ok(OrdersBlock {
        most: asked.most,
        typed_ahead: asked.typed_ahead,
        keys,
        sights,
    })
}
