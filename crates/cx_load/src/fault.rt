//! Checking an image.

ghost use Rattle.std.specs.Prelude.{◌≡◌, MatchResult, Some};
ghost use Rattle.cx_load.specs.Fault.{IsFit, all_apart, are_apart, are_inside, fault_name, is_apart, image_fault};
ghost use Rattle.cx_load.specs.Laws.Fit.{FitFacts};
ghost use Rattle.cx_load.specs.Laws.Words.{are_in_order};

use cx_code::Image;
use std::fmt::{Display, Formatter, Write};
use std::marker::Model;
use thiserror::Error;

/// Why an image can't be loaded. Where several apply, the first of this order is answered.
#[derive(Clone, Copy, Debug, PartialEq, Eq, Error)]
pub enum ImageFault {
    /// The text is empty, or longer than 65,536 bytes.
    BadLength,
    /// The entry is no offset of the text.
    EntryOutside,
    /// A relocated word goes past the text.
    RelocOutside,
    /// Two relocated words share a byte.
    Overlap,
    /// The working storage is shorter than 80 bytes, or longer than 65,520.
    StgLength,
}

impl ImageFault {
    /// The fault's name, as `BadLength`.
    pub fn name(self) -> &'static str
        ensures { result.now ≡ fault_name self }
    {
        match self {
            ImageFault::BadLength => "BadLength",
            ImageFault::EntryOutside => "EntryOutside",
            ImageFault::RelocOutside => "RelocOutside",
            ImageFault::Overlap => "Overlap",
            ImageFault::StgLength => "StgLength",
        }
    }
}

impl Display for ImageFault {
    ghost output = { λ fault. Some (fault_name fault) };

    fn fmt<W: Write>(&self, f: &mut Formatter<W>) -> Result<(), std::fmt::Error> {
        f.write_str(self.name())
    }
}

/// An image without a fault: one that `load` takes. `check` alone makes one.
#[derive(Drop)]
pub struct CheckedImage {
    image: Image,
}

impl Model for CheckedImage {
    ghost use Rattle.cx_code.specs.declared.image.Image.{Image};
    ghost use Rattle.cx_load.specs.Fault.{IsFit};

    ghost Value = { Image };

    ghost view = { λ checked. checked.image };

    ghost invariant = { λ checked. IsFit checked.image };
}

impl CheckedImage {
    /// The image, which has no fault.
    pub fn image(&self) -> &Image
        ensures value { result.now ≡ self.now }
        ensures fit { IsFit self.now }
        ensures facts { FitFacts self.now }
    {
        &self.image
    }
}

/// Checks an image. It is Ok exactly where no fault applies; otherwise the image is given back with
/// the lowest fault that does. It takes no memory.
pub fn check(image: Image) -> Result<CheckedImage, (Image, ImageFault)>
    ensures { MatchResult result
        (λ checked. (checked ≡ image) × IsFit image)
        (λ refused. (refused.0 ≡ image) × (image_fault image ≡ Some refused.1)) }
{
    match image_fault(&image) {
        Some(fault) => Err((image, fault)),
        None => Ok(CheckedImage { image }),
    }
}

/// The lowest fault of an image: that of the first test that fails.
#[tactic(auto, unfolding(crate::specs::Fault::image_fault, crate::specs::Fault::has_length, crate::specs::Fault::has_entry, crate::specs::Fault::has_stg_length))]
fn image_fault(image: &Image) -> Option<ImageFault>
    ensures { result ≡ image_fault image.now }
{
    let size = image.text.as_slice().len();
    let relocs = image.relocs.as_slice();
    if size < 1 || size > 65536 {
        Some(ImageFault::BadLength)
    } else if image.entry as usize >= size {
        Some(ImageFault::EntryOutside)
    } else if !are_inside(size, relocs) {
        Some(ImageFault::RelocOutside)
    } else if !all_apart(relocs) {
        Some(ImageFault::Overlap)
    } else if image.stg_len < 80 || image.stg_len > 65520 {
        Some(ImageFault::StgLength)
    } else {
        None
    }
}

/// Whether each relocated word lies in a text of `size` bytes.
#[tactic(auto, unfolding(crate::specs::Fault::are_inside))]
fn are_inside(size: usize, relocs: &[u32]) -> bool
    ensures { result ≡ are_inside size relocs.now }
{
    relocs.iter().all(|r| *r as usize + 4 <= size)
}

/// Whether two words share no byte.
#[tactic(auto, unfolding(crate::specs::Fault::are_apart))]
fn are_apart(r: u32, q: u32) -> bool
    ensures { result ≡ are_apart r q }
{
    u64::from(r) + 4 <= u64::from(q) || u64::from(q) + 4 <= u64::from(r)
}

/// Whether a word shares no byte with any of these.
#[tactic(auto, unfolding(crate::specs::Fault::is_apart))]
fn is_apart(r: u32, relocs: &[u32]) -> bool
    ensures { result ≡ is_apart r relocs.now }
{
    relocs.iter().all(|q| are_apart(r, *q))
}

/// Whether each of the words begins at or past the end of the one before it, as an assembler lists them.
fn are_in_order(relocs: &[u32]) -> bool
    ensures { result ≡ are_in_order 0 relocs.now }
{
    let mut end = 0;
    for r in relocs {
        if u64::from(*r) < end {
            return false;
        }
        end = u64::from(*r) + 4;
    }
    true
}

/// Whether no two of the words share a byte, each compared with all after it.
fn no_pair_overlaps(relocs: &[u32]) -> bool
    ensures { result ≡ all_apart relocs.now }
{
    for (i, r) in relocs.iter().enumerate() {
        if !is_apart(*r, &relocs[i + 1..]) {
            return false;
        }
    }
    true
}

/// Whether no two of the words share a byte. Words in order are compared with their neighbours alone.
#[tactic(auto, using(crate::proofs::ApartLemmas::apart_of_order))]
fn all_apart(relocs: &[u32]) -> bool
    ensures { result ≡ all_apart relocs.now }
{
    are_in_order(relocs) || no_pair_overlaps(relocs)
}
