//! How often the statements of a program were run.
ghost use Rattle.std.specs.Prelude.{◌≡◌, ◌<◌, ◌^◌, IfOk, drop, map, option_map, take};
ghost use Rattle.cx_look_cover.specs.Counts.{branch_at, counted_in, counted_of, counted_program, counted_with, goes_both_ways, is_branch, is_conditional, is_conditional_at, is_of_some_codes, one_way, runs_of, statement_address, was_run};

use crate::statements::instruction_places;
use crate::tallies::tally_at;
use cx_base::List;
use cx_ebcdic::Name8;
use cx_exec::Tally;
use cx_load::Loaded;
use cx_look_symbols::{Sources, StatementPlace};
use cx_region::Region;
use cx_source::Text;
use cx_storage::Store;
use std::alloc::{AllocError, Global};

/// A statement of a program, and how often it was run.
#[derive(Clone, Copy)]
pub struct Counted {
    /// The number of its line, from 1.
    pub line: usize,
    /// The runs at the addresses of its bytes; at most 2^64 - 1.
    pub runs: u64,
    /// Where it is a conditional branch, the runs at its address, and how often it was taken.
    pub branch: Option<Tally>,
}

/// Whether some condition codes meet a mask, and others don't.
fn is_of_some_codes(mask: u8) -> bool
    ensures { result ≡ is_of_some_codes mask }
{
    mask != 0 && mask != 15
}

/// Whether an instruction is a conditional branch, by its first two bytes.
#[tactic(auto, unfolding(crate::specs::Counts::is_conditional))]
fn is_conditional(code: u8, second: u8) -> bool
    ensures { result ≡ is_conditional code second }
{
    match code {
        0x47 => is_of_some_codes(second / 16),
        0x07 => is_of_some_codes(second / 16) && second % 16 != 0,
        0x46 => true,
        0x06 => second % 16 != 0,
        _ => false,
    }
}

/// Whether storage has a conditional branch at an address.
#[tactic(auto, unfolding(crate::specs::Counts::is_conditional_at))]
fn is_conditional_at<S: Store>(store: &S, address: u32) -> bool
    requires { address < 2 ^ 24 }
    ensures { result ≡ is_conditional_at (S.storage store.now) address }
{
    let Some(code) = store.byte(address) else {
        return false;
    };
    let Some(second) = store.byte((address + 1) % 0x100_0000) else {
        return false;
    };
    is_conditional(code, second)
}

/// The address of a statement's first byte.
#[tactic(auto, using(crate::proofs::CountLemmas::address_low))]
fn statement_address(loaded: &Loaded, place: &StatementPlace) -> u32
    ensures value { result ≡ statement_address loaded.now place.now }
    ensures below_2_24 { result < 2 ^ 24 }
{
    let offset = (place.start % 0x100_0000) as u32;
    (loaded.at % 0x100_0000 + offset) % 0x100_0000
}

/// So many tallies from an address on.
fn part_of(tallies: &[Tally], address: u32, count: u128) -> &[Tally]
    ensures { result.now ≡ take count (drop address tallies.now) }
{
    let (_, after) = tallies.split_at(tallies.len().min(address as usize));
    let (part, _) = after.split_at((after.len() as u128).min(count) as usize);
    part
}

/// All runs of tallies.
fn runs_of(tallies: &[Tally]) -> u64
    ensures { result ≡ runs_of tallies.now }
{
    let mut runs: u64 = 0;
    for tally in tallies {
        runs = runs.saturating_add(tally.runs);
    }
    runs
}

/// The tally of a conditional branch at an address; None where there is none.
fn branch_at<S: Store>(store: &S, tallies: &[Tally], address: u32) -> Option<Tally>
    requires { address < 2 ^ 24 }
    ensures { result ≡ branch_at (S.storage store.now) tallies.now address }
{
    if !is_conditional_at(store, address) {
        return None;
    }
    Some(tally_at(tallies, address))
}

/// A statement with its counts.
fn counted_of<S: Store>(
    store: &S,
    tallies: &[Tally],
    loaded: &Loaded,
    place: &StatementPlace,
) -> Counted
    ensures { result ≡ counted_of (S.storage store.now) tallies.now loaded.now place.now }
{
    let address = statement_address(loaded, place);
    let length = place.end.saturating_sub(place.start);
    Counted {
        line: place.line,
        runs: runs_of(part_of(tallies, address, length)),
        branch: branch_at(store, tallies, address),
    }
}

/// Whether a statement was run.
pub(crate) fn was_run(it: &Counted) -> bool
    ensures { result ≡ was_run it.now }
{
    it.runs != 0
}

/// Whether a statement is a conditional branch.
pub(crate) fn is_branch(it: &Counted) -> bool
    ensures { result ≡ is_branch it.now }
{
    it.branch.is_some()
}

/// Whether a statement is a conditional branch that was taken, and that wasn't.
pub(crate) fn goes_both_ways(it: &Counted) -> bool
    ensures { result ≡ goes_both_ways it.now }
{
    match it.branch {
        Some(tally) => 0 < tally.away && tally.away < tally.runs,
        None => false,
    }
}

/// The one way that a conditional branch went; None where it wasn't run, or went both ways.
#[tactic(auto, unfolding(crate::specs::Counts::one_way))]
pub(crate) fn one_way(tally: Tally) -> Option<&'static [u8]>
    ensures { option_map (λ way. way.now) result ≡ one_way tally }
{
    if tally.runs == 0 {
        return None;
    }
    if tally.away == 0 {
        return Some(b"NOT TAKEN");
    }
    if tally.away < tally.runs {
        return None;
    }
    Some(b"ALWAYS")
}

/// Statements with their counts.
fn counted_all<S: Store>(
    alloc: Global,
    store: &S,
    tallies: &[Tally],
    loaded: &Loaded,
    places: &[StatementPlace],
) -> Result<List<Counted>, AllocError>
    ensures { let one = counted_of (S.storage store.now) tallies.now loaded.now in
        IfOk result (λ counted. counted ≡ map one places.now) }
{
    let mut counted = Vec::new(alloc);
    for place in places {
        counted.push(counted_of(store, tallies, loaded, place))?;
    }
    Ok(List::from_vec(counted))
}

/// The statements of a program that is loaded, with their counts, by the lines of its source.
fn counted_in<S: Store>(
    alloc: Global,
    lines: &[Text],
    store: &S,
    tallies: &[Tally],
    loaded: &Loaded,
) -> Result<List<Counted>, AllocError>
    ensures { IfOk result (λ counted. counted ≡ counted_in lines.now (S.storage store.now) tallies.now loaded.now) }
{
    let places = instruction_places(alloc, lines)?;
    counted_all(alloc, store, tallies, loaded, places.as_slice())
}

/// The statements of a program of this name that is loaded, with their counts; None where no source defined it.
///
/// An error comes only where memory was refused.
#[tactic(auto, unfolding(crate::specs::Counts::counted_with))]
pub(crate) fn counted_with<S: Store>(
    alloc: Global,
    sources: &Sources,
    store: &S,
    tallies: &[Tally],
    name: Name8,
    loaded: &Loaded,
) -> Result<Option<List<Counted>>, AllocError>
    ensures { let storage = S.storage store.now in
        IfOk result (λ counted. counted ≡ counted_with sources.now storage tallies.now name loaded.now) }
{
    let lines = sources.source_lines(name);
    if lines.is_empty() {
        return Ok(None);
    }
    let counted = counted_in(alloc, lines, store, tallies, loaded)?;
    Ok(Some(counted))
}

/// The statements of a program of a region, with their counts; None where there is no such program, or no source
/// defined it.
///
/// An error comes only where memory was refused.
#[tactic(auto, unfolding(crate::specs::Counts::counted_program))]
pub(crate) fn counted_program<S: Store + Drop>(
    alloc: Global,
    sources: &Sources,
    region: &Region<S>,
    tallies: &[Tally],
    name: Name8,
) -> Result<Option<List<Counted>>, AllocError>
    ensures { IfOk result (λ counted. counted ≡ counted_program sources.now region.now tallies.now name) }
{
    let shared = region.shared();
    match shared.programs.get(&name) {
        Some(loaded) => counted_with(alloc, sources, &shared.store, tallies, name, loaded),
        None => Ok(None),
    }
}
