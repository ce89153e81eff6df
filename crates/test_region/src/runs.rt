//! Runs of scripts from a reader of pieces, and the scripts that several tests run.

ghost use Rattle.std.specs.Prelude.{◌≡◌, false};

use cx_edf_display::EdfDisplays;
use cx_script::{Devices, RunFault, ScriptIn, ScriptOut, Summary, run_script};
use std::alloc::{AllocError, Global};
use test_devices::{PieceIn, PieceOut};

/// Runs a script between devices that have not failed, and gives the run's answer.
pub fn run<'a, 'b>(
    alloc: Global,
    devices: &mut Devices<PieceIn<'a>, PieceOut<'b>>,
) -> Result<Summary, RunFault>
    requires reader { ⟦<PieceIn<'a> as ScriptIn>⟧.has_failed devices.old.reader ≡ false }
    requires writer { ⟦<PieceOut<'b> as ScriptOut>⟧.has_failed devices.old.writer ≡ false }
{
    run_script::<EdfDisplays, _>(alloc, devices)
}

/// Whether what a reader has is answered so, with this transcript, and the reader has failed just where a read did.
pub fn is_answered<'a>(
    alloc: Global,
    input: PieceIn<'a>,
    answer: Result<Summary, RunFault>,
    transcript: &[u8],
) -> bool
    requires { ⟦<PieceIn<'a> as ScriptIn>⟧.has_failed input ≡ false }
{
    let mut buffer = [0; 2048];
    let mut devices = Devices {
        reader: input,
        writer: PieceOut::new(&mut buffer, usize::MAX),
    };
    let ran = run(alloc, &mut devices);
    let Devices { reader, writer } = devices;
    ran == answer
        && reader.failed() == (answer == Err(RunFault::Read))
        && !writer.failed()
        && writer.text() == transcript
}

/// How many lines end in a text.
pub fn count_lines(text: &[u8]) -> usize {
    let mut count = 0usize;
    for byte in text {
        if *byte == b'\n' {
            count = count.saturating_add(1);
        }
    }
    count
}

/// `len` bytes of comments: an LF is where what is left, divided by 64, leaves `end`. An error means out of memory.
pub fn comments(alloc: Global, len: usize, end: usize) -> Result<Vec<u8>, AllocError> {
    let mut text = vec![in alloc; b'*'; len]?;
    let mut left = len;
    for byte in text.iter_mut() {
        if left % 64 == end {
            *byte = b'\n';
        }
        left = left.saturating_sub(1);
    }
    Ok(text)
}
