//! An address as a program and an offset in it, and its line in the program's source.
ghost use Rattle.std.specs.Prelude.{◌≡◌, ◌++◌, IfOk, codes, option_and_then, option_map};
ghost use Rattle.std.specs.List.{find};
ghost use Rattle.cx_look_symbols.specs.Lines.{line_in};
ghost use Rattle.cx_look_symbols.specs.Places.{address_word, line_word, place_at_address, place_word, spot_before, spot_of};
ghost use Rattle.cx_look_symbols.specs.Parts.Places.{is_in};
ghost use Rattle.std.specs.Option.{option_map_or};
ghost use Rattle.cx_base.specs.Digits.{digits};
ghost use Rattle.cx_base.specs.Texts.{shown_name};

use crate::lines::{SourcePlaces, five_digits, line_in};
use cx_base::{hexadecimal, shown_name};
use cx_ebcdic::Name8;
use cx_load::Loaded;
use cx_look_lines::joined;
use indexmap::IndexMap;
use std::alloc::{AllocError, Global};

/// Where a byte is: in which program, and how many bytes of that come before it.
#[derive(Clone, Copy)]
pub struct Spot {
    pub program: Name8,
    pub offset: u32,
}

/// An address, and where it is, if a program has it.
#[derive(Clone, Copy)]
pub struct Place {
    pub address: u32,
    pub spot: Option<Spot>,
}

/// Whether a program has an address.
fn is_in(address: u32, loaded: Loaded) -> bool
    ensures { result ≡ is_in address loaded }
{
    loaded.at <= address && address - loaded.at < loaded.len
}

/// The program that has an address, with its name; the first, where several have it.
fn program_with(programs: &IndexMap<Name8, Loaded>, address: u32) -> Option<(Name8, Loaded)>
    ensures { result ≡ find (λ program. is_in address program.1) programs.now.entries }
{
    for (name, loaded) in programs.iter() {
        if is_in(address, *loaded) {
            return Some((*name, *loaded));
        }
    }
    None
}

/// Where an address is, if a program has it.
fn spot_of(programs: &IndexMap<Name8, Loaded>, address: u32) -> Option<Spot>
    ensures { result ≡ spot_of programs.now.entries address }
{
    let (program, loaded) = program_with(programs, address)?;
    let offset = address.saturating_sub(loaded.at);
    Some(Spot { program, offset })
}

/// An address, and the program that has its byte with the offset there; no spot where no program has it. It takes no
/// memory.
pub fn place_at_address(programs: &IndexMap<Name8, Loaded>, address: u32) -> Place
    ensures { result ≡ place_at_address programs.now.entries address }
{
    let spot = spot_of(programs, address);
    Place { address, spot }
}

/// Where the byte before an address is, if a program has it; None before address 0. It takes no memory.
#[tactic(auto, unfolding(crate::specs::Places::spot_before))]
pub fn spot_before(programs: &IndexMap<Name8, Loaded>, address: u32) -> Option<Spot>
    ensures { result ≡ spot_before programs.now.entries address }
{
    let before = address.checked_sub(1)?;
    spot_of(programs, before)
}

/// A program's name and an offset in it, `NAME+oooooo`; hyphens where there is none.
fn spot_word(alloc: Global, spot: &Option<Spot>) -> Result<Vec<u8>, AllocError>
    ensures { IfOk result (λ word. word.items ≡ option_map_or
        (λ it. shown_name it.program ++ codes "+" ++ digits 16 6 it.offset) spot.now (codes "--")) }
{
    let Some(spot) = spot else {
        return b"--".to_vec(alloc);
    };
    let mut word = shown_name(alloc, spot.program)?;
    word.push(b'+')?;
    word.extend_from_slice(&hexadecimal::<6>(spot.offset))?;
    Ok(word)
}

/// The number of the line of the statement that has a byte; None where no source defined the program, or no statement
/// has the byte. It takes no memory.
pub fn line_of(sources: &SourcePlaces, spot: &Option<Spot>) -> Option<usize>
    ensures { result ≡ option_and_then (λ it. line_in sources.now.entries it.program it.offset) spot.now }
{
    let spot = (*spot)?;
    line_in(sources, spot.program, spot.offset)
}

/// `words`, and after them the number, in five decimal digits, of the line of the statement that has a byte; nothing at
/// all where no source defined the program, or no statement has the byte.
///
/// An error comes only where memory for the text was refused.
#[tactic(auto, unfolding(crate::specs::Places::line_word))]
pub fn line_word(
    alloc: Global,
    words: &[u8],
    sources: &SourcePlaces,
    spot: &Option<Spot>,
) -> Result<Vec<u8>, AllocError>
    ensures { IfOk result (λ text. text.items ≡ line_word words.now sources.now.entries spot.now) }
{
    let Some(line) = line_of(sources, spot) else {
        return Ok(Vec::new(alloc));
    };
    joined(alloc, words, &five_digits(line))
}

/// An address and where it is, `aaaaaa NAME+oooooo`; hyphens after it where no program has it.
///
/// An error comes only where memory for the text was refused.
#[tactic(auto, unfolding(crate::specs::Places::address_word))]
pub fn address_word(alloc: Global, place: &Place) -> Result<Vec<u8>, AllocError>
    ensures { IfOk result (λ text. text.items ≡ address_word place.now) }
{
    let mut text = hexadecimal::<6>(place.address).to_vec(alloc)?;
    text.push(b' ')?;
    text.extend_from_slice(&spot_word(alloc, &place.spot)?)?;
    Ok(text)
}

/// An address and where it is, as `address_word` has it, and ` LINE nnnnn` with the line of the statement there, if
/// there is one.
///
/// An error comes only where memory for the text was refused.
#[tactic(auto, unfolding(crate::specs::Places::place_word))]
pub fn place_word(
    alloc: Global,
    sources: &SourcePlaces,
    place: &Place,
) -> Result<Vec<u8>, AllocError>
    ensures { IfOk result (λ text. text.items ≡ place_word sources.now.entries place.now) }
{
    let mut text = address_word(alloc, place)?;
    text.extend_from_slice(&line_word(alloc, b" LINE ", sources, &place.spot)?)?;
    Ok(text)
}
