//! Scripts that are read piece by piece: however they are cut, the transcript is the same.

ghost use Rattle.std.specs.Prelude.{None, false};
ghost use Rattle.cx_script.specs.Devices.{ReadsKnown};

use crate::runs::is_answered;
use cx_edf_display::EdfDisplays;
use cx_script::{DeviceFault, Devices, MemoryOut, RunFault, ScriptIn, Summary, run_script};
use std::alloc::{AllocError, Global};
use test_devices::{PieceIn, comment};

/// Whether a script that is read in pieces is answered so, with this transcript.
fn is_read(
    alloc: Global,
    script: &[u8],
    (first, next): (usize, usize),
    answer: Result<Summary, RunFault>,
    transcript: &[u8],
) -> bool {
    let input = PieceIn::new(script, next).beginning(first);
    is_answered(alloc, input, answer, transcript)
}

const SCRIPT: &[u8] =
    b"IMAGE RET1 80\n4100F01C5000F0189680F0184110F018\r\n41E0080005EE0000000000000E080000\n/*\n\
* a comment\r\n\nTERMINAL T001\r\nTRANSACTION RET1 RET1\nKEY T001 ENTER RET1\nTURN T001\nTURN T001\nSCREEN T001";

const TRANSCRIPT: &[u8] =
    b"PROGRAM RET1 AT 010000 LENGTH 000020\nTERMINAL T001 DEFINED\nTRANSACTION RET1 DEFINED\n\
KEY T001 Attached\nTURN T001 AtCommand\nTURN T001 Ended\nSCREEN T001\n";

/// How the script is answered.
const WHOLE: Result<Summary, RunFault> = Ok(Summary { lines: 12 });

#[test]
fn pieces_of_each_length(rt: HostRuntime) {
    for next in [1, 2, 3, 5, 7, 11, 64, 4096] {
        for first in 0..SCRIPT.len() {
            assert!(rt;
                is_read(rt.alloc(), SCRIPT, (first, next), WHOLE, TRANSCRIPT),
                "{first} {next}"
            );
        }
    }
}

/// A reader that gives pieces of lengths that a generator draws: 1 to 48 bytes.
#[derive(Drop)]
struct Drawn<'a> {
    rest: &'a [u8],
    seed: u32,
}

impl<'a> ScriptIn for Drawn<'a> {
    ghost left = { λ _. None };

    ghost has_failed = { λ _. false };

    ghost reads = { λ _ given _. ReadsKnown None given None };

    ghost known = { λ _ _ _ h. h };

    fn read(&mut self, buffer: &mut [u8]) -> Result<usize, DeviceFault> {
        self.seed = self.seed.wrapping_mul(1_103_515_245).wrapping_add(12_345);
        let drawn = (self.seed / 65_536 % 48) as usize + 1;
        let n = buffer.len().min(self.rest.len()).min(drawn);
        let (front, after) = self.rest.split_at(n);
        buffer[..n].copy_from_slice(front);
        self.rest = after;
        Ok(n)
    }

    fn failed(&self) -> bool {
        false
    }
}

/// Whether the script is answered so in pieces that are drawn.
fn is_drawn(alloc: Global, seed: u32) -> bool {
    let mut buffer = [0; 512];
    let mut devices = Devices {
        reader: Drawn { rest: SCRIPT, seed },
        writer: MemoryOut::new(&mut buffer),
    };
    let ran = run_script::<EdfDisplays, _>(alloc, &mut devices);
    ran == WHOLE && devices.writer.text() == TRANSCRIPT
}

#[test]
fn pieces_of_drawn_lengths(rt: HostRuntime) {
    for seed in 0..500 {
        assert!(rt; is_drawn(rt.alloc(), seed), "drawn from {seed}");
    }
}

/// Scripts whose second line is bad, and what is written.
const BAD: &[(&[u8], &[u8])] = &[
    (
        b"TERMINAL T001\nHELLO\nTERMINAL T002\n",
        b"TERMINAL T001 DEFINED\n",
    ),
    (b"IMAGE A 80\n0G\n/*\n", b""),
    (
        b"TERMINAL T001\nIMAGE A 80\n00\n",
        b"TERMINAL T001 DEFINED\n",
    ),
];

/// A bad line is reported at its place, and what is in front of it is done.
#[test]
fn bad_lines_in_pieces(rt: HostRuntime) {
    let answer = Err(RunFault::BadLine(2));
    for next in [1, 2, 3, 7, 4096] {
        for &(script, written) in BAD {
            assert!(rt;
                is_read(rt.alloc(), script, (next, next), answer, written),
                "{next}"
            );
        }
    }
}

/// Ends of lines, and how many bytes of each belong to the line.
const ENDS: [(&[u8], usize); 5] = [
    (b"", 0),
    (b"\n", 0),
    (b"\r\n", 0),
    (b"\r\r\n", 1),
    (b"\r", 1),
];

/// How a line of so many bytes is answered.
fn answer_to(len: usize) -> Result<Summary, RunFault> {
    if len <= 4096 {
        Ok(Summary { lines: 1 })
    } else {
        Err(RunFault::BadLine(1))
    }
}

/// Whether a comment of so many bytes, with an end, is answered so where its first piece has each of these lengths and
/// the next ones this one.
fn is_cut(
    alloc: Global,
    (len, end): (usize, &[u8]),
    answer: Result<Summary, RunFault>,
    (least, most): (usize, usize),
    next: usize,
) -> Result<bool, AllocError> {
    let script = comment(alloc, len, end)?;
    for first in least..most {
        if !is_read(alloc, &script, (first, next), answer, b"") {
            return Ok(false);
        }
    }
    Ok(true)
}

/// Lines about as long as they may be, with each end, cut about where they end.
#[test]
fn long_lines_in_pieces(rt: HostRuntime) {
    for len in 4095..4099 {
        for &(end, more) in ENDS.iter() {
            let answer = answer_to(more.saturating_add(len));
            assert!(rt;
                is_cut(rt.alloc(), (len, end), answer, (4090, 4104), 4096) == Ok(true),
                "{len}"
            );
            assert!(rt;
                is_cut(rt.alloc(), (len, end), answer, (4090, 4104), 1) == Ok(true),
                "{len}"
            );
        }
    }
}

/// A line that is as long as it may be, and one that is longer, cut at every place.
#[test]
fn long_lines_are_cut_at_every_place(rt: HostRuntime) {
    let longest = is_cut(
        rt.alloc(),
        (4096, b"\r\n"),
        answer_to(4096),
        (1, 4098),
        4096,
    );
    assert!(rt; longest == Ok(true));
    let longer = is_cut(rt.alloc(), (4097, b"\n"), answer_to(4097), (1, 4098), 4096);
    assert!(rt; longer == Ok(true));
}
