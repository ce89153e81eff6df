//! Devices that fail, and those over the standard library.

use crate::runs::is_answered;
use cx_edf_display::EdfDisplays;
use cx_script::{
    DeviceFault, Devices, MemoryIn, MemoryOut, RunFault, ScriptIn, ScriptOut, Std, Summary,
    run_script,
};
use std::alloc::{AllocError, Global};
use std::io::{self, Read};
use test_devices::{PieceIn, comment};

const DEFINITIONS: &[u8] = b"TERMINAL T001\nTERMINAL T002\nTERMINAL T003\n";

const DEFINED: &[u8] = b"TERMINAL T001 DEFINED\nTERMINAL T002 DEFINED\nTERMINAL T003 DEFINED\n";

/// Whether a read that fails after so many of the definitions' bytes is reported after the lines before it.
fn fails_at(alloc: Global, good: usize) -> bool {
    let written = (good / 14).saturating_mul(22);
    if good > DEFINITIONS.len() || written > DEFINED.len() {
        return false;
    }
    let input = PieceIn::failing(&DEFINITIONS[..good], 1);
    is_answered(alloc, input, Err(RunFault::Read), &DEFINED[..written])
}

#[test]
fn a_reader_fails_at_each_byte(rt: HostRuntime) {
    for good in 0..DEFINITIONS.len() + 1 {
        assert!(rt; fails_at(rt.alloc(), good), "at {good}");
    }
}

/// Whether a script whose read fails after so many bytes has this fault and this transcript.
fn has_fault(alloc: Global, script: &[u8], good: usize, fault: RunFault, text: &[u8]) -> bool {
    if good > script.len() {
        return false;
    }
    is_answered(
        alloc,
        PieceIn::failing(&script[..good], 1),
        Err(fault),
        text,
    )
}

/// Whether a line of 4,097 bytes has this fault where a read fails after so many of them.
fn ends_in(alloc: Global, good: usize, fault: RunFault) -> Result<bool, AllocError> {
    let script = comment(alloc, 4097, b"")?;
    Ok(has_fault(alloc, &script, good, fault, b""))
}

/// A long unfinished line is a bad line before the failure that follows it.
#[test]
fn a_long_line_comes_before_a_failed_read(rt: HostRuntime) {
    assert!(rt; ends_in(rt.alloc(), 4096, RunFault::Read) == Ok(true));
    assert!(rt; ends_in(rt.alloc(), 4097, RunFault::BadLine(1)) == Ok(true));
}

const BAD: &[u8] = b"TERMINAL T001\nHELLO\nTERMINAL T002\n";

/// A bad line is reported before a failure after it, and the reader has not failed.
#[test]
fn a_bad_line_comes_before_a_failed_read(rt: HostRuntime) {
    let text = b"TERMINAL T001 DEFINED\n";
    for good in 20..BAD.len() {
        assert!(rt;
            has_fault(rt.alloc(), BAD, good, RunFault::BadLine(2), text),
            "at {good}"
        );
    }
}

/// Whether a slice of so many bytes, 66 at most, takes what it has room for, and of the transcript's length all of it.
fn is_filled(alloc: Global, len: usize) -> bool {
    let mut buffer = [0; 66];
    if len > 66 || len > DEFINED.len() {
        return false;
    }
    let mut devices = Devices {
        reader: MemoryIn::new(DEFINITIONS),
        writer: MemoryOut::new(&mut buffer[..len]),
    };
    let ran = run_script::<EdfDisplays, _>(alloc, &mut devices);
    let want = if len == DEFINED.len() {
        Ok(Summary { lines: 3 })
    } else {
        Err(RunFault::Write)
    };
    ran == want && devices.writer.room() == 0 && devices.writer.text() == &DEFINED[..len]
}

#[test]
fn a_slice_is_filled_to_its_last_byte(rt: HostRuntime) {
    for len in 0..67 {
        assert!(rt; is_filled(rt.alloc(), len), "of {len}");
    }
}

/// A reader of the standard library that fails once, and would work again.
#[derive(Drop)]
struct Flaky {
    calls: usize,
}

impl Read for Flaky {
    fn read(&mut self, buf: &mut [u8]) -> io::Result<usize> {
        self.calls = self.calls.saturating_add(1);
        if self.calls == 1 {
            return Err(io::Error::from(io::ErrorKind::Other));
        }
        Ok(buf.len().min(1))
    }
}

#[test]
fn a_device_that_failed_has_failed(rt: HostRuntime) {
    let mut input = Std::new(Flaky { calls: 0 });
    let mut buffer = [0; 4];
    assert!(rt; !input.failed());
    assert!(rt; input.read(&mut buffer) == Err(DeviceFault) && input.failed());
    assert!(rt; input.read(&mut buffer) == Ok(1) && input.failed());
}

#[test]
fn the_standard_library_s_devices(rt: HostRuntime) {
    let mut text = Vec::new(rt.alloc());
    let mut devices = Devices {
        reader: Std::new(DEFINITIONS),
        writer: Std::new(&mut text),
    };
    let ran = run_script::<EdfDisplays, _>(rt.alloc(), &mut devices);
    assert!(rt; ran == Ok(Summary { lines: 3 }) && !devices.writer.failed());
    assert!(rt; text.as_slice() == DEFINED);
}
