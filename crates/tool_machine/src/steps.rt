//! The part of steps: a line has a single instruction or a short program, which is run over the plain store, over the
//! store in pages, and over stores that keep what they fetch of each. The name of a line that differs is printed with
//! the store's, and last for each store how many lines were done, how many of them differ, and how many could not be
//! read.

use crate::step_judge::{Verdict, judge};
use cx_storage::{FlatStore, Store};
use cx_storage_pages::{KeepingStore, PagedStore};
use std::alloc::Global;
use std::io;

/// A store with its name, and over it how many lines were done, how many of them differ, and how many could not be
/// read.
#[derive(Drop)]
struct NamedStore<S> {
    name: &'static str,
    store: S,
    done: u64,
    differ: u64,
    skipped: u64,
}

impl<S: Store> NamedStore<S> {
    /// An empty store, and no line so far.
    fn new(name: &'static str, store: S) -> Self {
        NamedStore {
            name,
            store,
            done: 0,
            differ: 0,
            skipped: 0,
        }
    }

    /// Judges a line, and counts it.
    fn line(&mut self, rt: &HostRuntime, line: &str) -> io::Result<()> {
        match judge(rt.alloc(), &mut self.store, line)? {
            Verdict::Agrees => self.done = self.done.saturating_add(1),
            Verdict::Differs => {
                self.done = self.done.saturating_add(1);
                self.differ = self.differ.saturating_add(1);
                let (vector, _) = line.split_once(' ').unwrap_or((line, ""));
                println!(rt; "{}: {vector}", self.name)?;
            }
            Verdict::Skipped => self.skipped = self.skipped.saturating_add(1),
        }
        Ok(())
    }

    /// Prints the counts.
    fn print(&self, rt: &HostRuntime) -> io::Result<()> {
        println!(rt;
            "{}: {} done, {} differ, {} skipped",
            self.name, self.done, self.differ, self.skipped
        )
    }
}

/// The stores over which each line is run.
#[derive(Drop)]
pub struct StepPart {
    flat: NamedStore<FlatStore>,
    paged: NamedStore<PagedStore>,
    kept_flat: NamedStore<KeepingStore<FlatStore>>,
    kept_paged: NamedStore<KeepingStore<PagedStore>>,
}

impl StepPart {
    /// The part before its first line.
    pub fn new(alloc: Global) -> Self {
        StepPart {
            flat: NamedStore::new("flat", FlatStore::new(alloc)),
            paged: NamedStore::new("paged", PagedStore::new(alloc)),
            kept_flat: NamedStore::new("kept flat", KeepingStore::new(FlatStore::new(alloc))),
            kept_paged: NamedStore::new("kept paged", KeepingStore::new(PagedStore::new(alloc))),
        }
    }

    /// Judges a line over each store and counts it; its name is printed, with the store's, where it differs.
    pub fn line(&mut self, rt: &HostRuntime, line: &str) -> io::Result<()> {
        self.flat.line(rt, line)?;
        self.paged.line(rt, line)?;
        self.kept_flat.line(rt, line)?;
        self.kept_paged.line(rt, line)
    }

    /// Prints for each store how many lines were done, how many of them differ, and how many could not be read.
    pub fn print(&self, rt: &HostRuntime) -> io::Result<()> {
        self.flat.print(rt)?;
        self.paged.print(rt)?;
        self.kept_flat.print(rt)?;
        self.kept_paged.print(rt)
    }
}
