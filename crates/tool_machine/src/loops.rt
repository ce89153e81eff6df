//! The part `MEASURE loops` runs loops for measuring (`bench/loops`). A line has the word for a store, a number of
//! slices (at least 2) and the digits of an image, whose word at offset 4 becomes that number. After each slice the
//! program goes to the entry, and at the end once more. The line that is printed has the number of instructions that
//! were performed.

use crate::slices::{Job, perform};
use cx_storage::FlatStore;
use cx_storage_pages::{KeepingStore, PagedStore};
use std::alloc::{AllocError, Global};
use std::io;

/// Performs a job over the store that a word names, and returns how many instructions that took.
fn perform_over(alloc: Global, word: &str, job: &Job) -> Result<Option<u64>, AllocError> {
    match word {
        "flat" => perform(&mut FlatStore::new(alloc), job),
        "paged" => perform(&mut PagedStore::new(alloc), job),
        "kept" => perform(&mut KeepingStore::new(PagedStore::new(alloc)), job),
        _ => Ok(None),
    }
}

/// The image that digits spell; None where they spell none.
fn image_of(alloc: Global, digits: &str) -> Result<Option<Vec<u8>>, AllocError> {
    let mut image = vec![in alloc; 0; digits.len() / 2]?;
    match hex::decode_to_slice(digits, image.as_mut_slice()) {
        Ok(()) => Ok(Some(image)),
        Err(_) => Ok(None),
    }
}

/// Performs the loop of a line, and returns how many instructions that took.
fn perform_line(alloc: Global, line: &str) -> Result<Option<u64>, AllocError> {
    let (word, rest) = line.split_once(' ').unwrap_or(("", ""));
    let (count, digits) = rest.split_once(' ').unwrap_or(("", ""));
    let slices = count.parse().unwrap_or(0);
    match image_of(alloc, digits)? {
        Some(image) => perform_over(alloc, word, &Job { image, slices }),
        None => Ok(None),
    }
}

/// Performs the loop of a line, and prints how many instructions that took.
pub fn run_line(rt: &HostRuntime, line: &str) -> io::Result<()> {
    match perform_line(rt.alloc(), line)? {
        Some(count) => println!(rt; "{count} instructions"),
        None => println!(rt; "not performed"),
    }
}
