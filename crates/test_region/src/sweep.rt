//! Scripts of the examples with devices of every kind: a reader that fails after each byte of the script, a writer that
//! fails, or takes none, after each byte of the transcript, in pieces of several lengths.

use crate::runs::run;
use crate::steps::{Example, LISTED, RETURN, STOPPED, Step, TRANSLATED, written_by};
use cx_script::{Devices, RunFault, ScriptIn, ScriptOut, Summary, status};
use std::alloc::{AllocError, Global};
use test_devices::{PieceIn, PieceOut};

/// Whether a run has this answer and its status, and a device has failed just where the answer says so.
fn is_end(
    ran: Result<Summary, RunFault>,
    answer: Result<Summary, RunFault>,
    (read_failed, write_failed): (bool, bool),
) -> bool {
    let code = if answer.is_ok() { 0 } else { 3 };
    ran == answer
        && status(&ran) == code
        && read_failed == (answer == Err(RunFault::Read))
        && write_failed == (answer == Err(RunFault::Write))
}

impl Example {
    /// Whether the script is read in such pieces, and its transcript is the whole one.
    fn is_whole(&self, alloc: Global, most: usize) -> bool {
        let mut buffer = [0; 2048];
        let mut devices = Devices {
            reader: PieceIn::new(&self.script, most),
            writer: PieceOut::new(&mut buffer, most),
        };
        let ran = run(alloc, &mut devices);
        let Devices { reader, writer } = devices;
        let answer = Ok(Summary { lines: self.lines });
        is_end(ran, answer, (reader.failed(), writer.failed()))
            && writer.text() == self.transcript.as_slice()
    }

    /// Whether a read that fails after a given number of bytes of the script is reported, and a given number of the
    /// transcript's are written before.
    fn is_read(&self, alloc: Global, most: usize, good: usize, written: usize) -> bool {
        if good > self.script.len() || written > self.transcript.len() {
            return false;
        }
        let mut buffer = [0; 2048];
        let mut devices = Devices {
            reader: PieceIn::failing(&self.script[..good], most),
            writer: PieceOut::new(&mut buffer, most),
        };
        let ran = run(alloc, &mut devices);
        let Devices { reader, writer } = devices;
        is_end(ran, Err(RunFault::Read), (reader.failed(), writer.failed()))
            && writer.text() == &self.transcript[..written]
    }

    /// Whether a write that fails, or takes none, after a given number of bytes of the transcript is reported, where
    /// these aren't all.
    fn is_written(&self, alloc: Global, most: usize, good: usize, fails: bool) -> bool {
        let mut buffer = [0; 2048];
        if good > self.transcript.len() || good > buffer.len() {
            return false;
        }
        let room = &mut buffer[..good];
        let writer = if fails {
            PieceOut::failing(room, most)
        } else {
            PieceOut::new(room, most)
        };
        let mut devices = Devices {
            reader: PieceIn::new(&self.script, most),
            writer,
        };
        let ran = run(alloc, &mut devices);
        let Devices { reader, writer } = devices;
        let answer = if good == self.transcript.len() {
            Ok(Summary { lines: self.lines })
        } else {
            Err(RunFault::Write)
        };
        is_end(ran, answer, (reader.failed(), writer.failed()))
            && writer.text() == &self.transcript[..good]
    }

    /// The first place of the script where a failing read isn't reported as it should be, in such pieces.
    fn first_read(&self, alloc: Global, steps: &[Step], most: usize) -> Option<usize> {
        for good in 0..self.script.len() + 1 {
            if !self.is_read(alloc, most, good, written_by(steps, good)) {
                return Some(good);
            }
        }
        None
    }

    /// The first place of the transcript where a write isn't reported as it should be, in such pieces.
    fn first_write(&self, alloc: Global, most: usize) -> Option<usize> {
        for good in 0..self.transcript.len() + 1 {
            if !self.is_written(alloc, most, good, true)
                || !self.is_written(alloc, most, good, false)
            {
                return Some(good);
            }
        }
        None
    }
}

/// The pieces, and the place, of the first run of these steps that doesn't end as it should, with each device; None
/// where all do.
fn first_wrong(alloc: Global, steps: &[Step]) -> Result<Option<(usize, usize)>, AllocError> {
    let example = Example::new(alloc, steps)?;
    for most in [1, 2, 3, 7, usize::MAX] {
        if !example.is_whole(alloc, most) {
            return Ok(Some((most, 0)));
        }
    }
    for most in [1, 3, usize::MAX] {
        if let Some(place) = example.first_read(alloc, steps, most) {
            return Ok(Some((most, place)));
        }
        if let Some(place) = example.first_write(alloc, most) {
            return Ok(Some((most, place)));
        }
    }
    Ok(None)
}

#[test]
fn devices_of_a_program_that_returns(rt: HostRuntime) {
    assert!(rt; first_wrong(rt.alloc(), &RETURN) == Ok(None));
}

#[test]
fn devices_of_a_stopped_program(rt: HostRuntime) {
    assert!(rt; first_wrong(rt.alloc(), &STOPPED) == Ok(None));
}

#[test]
fn devices_of_a_listed_source(rt: HostRuntime) {
    assert!(rt; first_wrong(rt.alloc(), &LISTED) == Ok(None));
}

#[test]
fn devices_of_a_translated_source(rt: HostRuntime) {
    assert!(rt; first_wrong(rt.alloc(), &TRANSLATED) == Ok(None));
}
