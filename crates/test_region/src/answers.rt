//! Each answer is written before more is read: a reader that looks, at each read, at how much was written so far.

ghost use Rattle.std.specs.Prelude.{None, false};
ghost use Rattle.cx_script.specs.Devices.{ReadsKnown, WritesKnown};

use crate::steps::{Example, LISTED, RETURN, STOPPED, Step, TRANSLATED, written_by};
use cx_edf_display::EdfDisplays;
use cx_script::{DeviceFault, Devices, ScriptIn, ScriptOut, Summary, run_script};
use std::alloc::Global;
use std::cell::Cell;
use std::rc::Rc;
use std::test::Fail;

/// A writer that shows how many bytes were written.
#[derive(Drop)]
struct ShownOut {
    written: Rc<Cell<usize>>,
}

impl ScriptOut for ShownOut {
    ghost written = { λ _. None };

    ghost has_failed = { λ _. false };

    ghost writes = { λ _ taken _. WritesKnown None taken None };

    ghost known = { λ _ _ _ h. h };

    fn write(&mut self, bytes: &[u8]) -> Result<usize, DeviceFault> {
        self.written
            .set(self.written.get().saturating_add(bytes.len()));
        Ok(bytes.len())
    }

    fn failed(&self) -> bool {
        false
    }
}

/// The script of steps, of which a read gives at most a given number of bytes. It counts the reads at which the
/// transcript has as many bytes as are written for the steps that were given whole.
#[derive(Drop)]
struct LookingIn<'a, 'b> {
    script: &'a [u8],
    steps: &'b [Step],
    most: usize,
    given: usize,
    written: Rc<Cell<usize>>,
    reads: usize,
    good: usize,
}

impl<'a, 'b> ScriptIn for LookingIn<'a, 'b> {
    ghost left = { λ _. None };

    ghost has_failed = { λ _. false };

    ghost reads = { λ _ given _. ReadsKnown None given None };

    ghost known = { λ _ _ _ h. h };

    fn read(&mut self, buffer: &mut [u8]) -> Result<usize, DeviceFault> {
        self.reads = self.reads.saturating_add(1);
        if self.written.get() == written_by(self.steps, self.given) {
            self.good = self.good.saturating_add(1);
        }
        let n = buffer.len().min(self.script.len()).min(self.most);
        let (front, after) = self.script.split_at(n);
        buffer[..n].copy_from_slice(front);
        self.script = after;
        self.given = self.given.saturating_add(n);
        Ok(n)
    }

    fn failed(&self) -> bool {
        false
    }
}

/// Whether the script of these steps is read in such pieces, and at each read all is written for the steps that were
/// read whole.
fn are_answered(alloc: Global, steps: &[Step], most: usize) -> Result<bool, Fail> {
    let example = Example::new(alloc, steps)?;
    let written = Rc::new(alloc, Cell::new(0))?;
    let writer = ShownOut {
        written: written.clone()?,
    };
    let reader = LookingIn {
        script: &example.script,
        steps,
        most,
        given: 0,
        written: written.clone()?,
        reads: 0,
        good: 0,
    };
    let mut devices = Devices { reader, writer };
    let ran = run_script::<EdfDisplays, _>(alloc, &mut devices);
    let input = devices.reader;
    let lines = example.lines;
    Ok(
        ran == Ok(Summary { lines })
            && written.get() == example.transcript.len()
            && input.given == example.script.len()
            && input.good == input.reads,
    )
}

#[test]
fn answers_are_written_before_more_is_read(rt: HostRuntime) -> Result<(), Fail> {
    let scripts: [&[Step]; 4] = [&RETURN, &STOPPED, &LISTED, &TRANSLATED];
    for steps in scripts {
        for most in [1, 2, 3, 7, 64] {
            assert!(rt; are_answered(rt.alloc(), steps, most)?, "by {most}");
        }
    }
    Ok(())
}
