//! Scripts of the examples, step by step, with what is written for each step.

use crate::runs::count_lines;
use std::alloc::{AllocError, Global};

/// An action or a block, as the script has it, and what is written for it.
pub(crate) type Step = (&'static [u8], &'static [u8]);

const IMAGE: Step = (
    b"IMAGE RET1 80\n4100F01C5000F0189680F0184110F018\n41E0080005EE0000000000000E080000\n/*\n",
    b"PROGRAM RET1 AT 010000 LENGTH 000020\n",
);

const TERMINAL: Step = (b"TERMINAL T001\n", b"TERMINAL T001 DEFINED\n");

const TURN: Step = (b"TURN T001\n", b"TURN T001 AtCommand\n");

const END: Step = (b"TURN T001\n", b"TURN T001 Ended\n");

pub(crate) const RETURN: [Step; 6] = [
    IMAGE,
    TERMINAL,
    (b"TRANSACTION RET1 RET1\n", b"TRANSACTION RET1 DEFINED\n"),
    (b"KEY T001 ENTER RET1\n", b"KEY T001 Attached\n"),
    TURN,
    END,
];

pub(crate) const STOPPED: [Step; 10] = [
    IMAGE,
    TERMINAL,
    (b"TRANSACTION RET1 RET1\n", b"TRANSACTION RET1 DEFINED\n"),
    (b"EDF T001 ON\n", b"EDF T001 Started\n"),
    (b"KEY T001 ENTER RET1\n", b"KEY T001 Attached\n"),
    TURN,
    (b"TURN T001\n", b"TURN T001 Held\n"),
    (
        b"DISPLAY T001\n",
        b"DISPLAY T001\n\
01|TRANSACTION RET1  PROGRAM RET1      TASK 0000001  TERMINAL T001\n\
02|STATUS ABOUT TO EXECUTE COMMAND\n\
03|COMMAND RETURN\n\
04|ARG 00 01001C  0E080000------------------------  ....------------\n\
15|R00 0001001C 00010018 00000000 00010000\n\
16|R04 00000000 00000000 00000000 00000000\n\
17|R08 00000000 00000000 00000000 00200000\n\
18|R12 00000000 00200060 50010016 00010000\n\
19|CC 1  NEXT 000800\n\
20|EIBFN 0000  EIBRESP 00000000  EIBAID 7D  EIBCALEN 0000\n\
24|ENTER GO ON  PF3 END  PF4 SUPPRESS  PF5 STORAGE  PF6 USER  PF9 STOP  PF10 BACK\n",
    ),
    (b"KEY T001 ENTER\n", b"KEY T001 ToEdf\n"),
    END,
];

pub(crate) const LISTED: [Step; 2] = [
    (
        b"SOURCE LITERALS LIST DISASM\nP        CSECT\n         USING P,15\n         MVC   8(2,13),=C'AB'\n         L     1,=F'1'\n         LH    2,=H'2'\n         A     1,=F'1'\n         END\n/*\n",
        b"                        00001 P        CSECT\n                        00002          USING P,15\n\
000000 D201D008F01C     00003          MVC   8(2,13),=C'AB'\n\
000006 5810F018         00004          L     1,=F'1'\n\
00000A 4820F01E         00005          LH    2,=H'2'\n\
00000E 5A10F018         00006          A     1,=F'1'\n                        00007          END\n\
MVC 8(2,13),28(15)\nL 1,24(0,15)\nLH 2,30(0,15)\nA 1,24(0,15)\nDC X'00000001'\nDC X'C1C2'\nDC X'0002'\n\
PROGRAM LITERALS AT 010000 LENGTH 000020\n",
    ),
    TERMINAL,
];

pub(crate) const TRANSLATED: [Step; 6] = [
    (
        b"SOURCE RET2\nRET2     CSECT\n         EXEC  CICS RETURN\n         END\n/*\n",
        b"PROGRAM RET2 AT 010000 LENGTH 000020\n",
    ),
    TERMINAL,
    (b"TRANSACTION RET2 RET2\n", b"TRANSACTION RET2 DEFINED\n"),
    (b"KEY T001 ENTER RET2\n", b"KEY T001 Attached\n"),
    TURN,
    END,
];

/// A script and its transcript.
#[derive(Drop)]
pub(crate) struct Example {
    pub(crate) script: Vec<u8>,
    pub(crate) transcript: Vec<u8>,
    pub(crate) lines: usize,
}

impl Example {
    pub(crate) fn new(alloc: Global, steps: &[Step]) -> Result<Example, AllocError> {
        let (mut script, mut transcript) = (Vec::new(alloc), Vec::new(alloc));
        for (asked, written) in steps {
            script.extend_from_slice(asked)?;
            transcript.extend_from_slice(written)?;
        }
        let lines = count_lines(script.as_slice());
        Ok(Example {
            script,
            transcript,
            lines,
        })
    }
}

/// How many bytes are written for the steps that the first `bytes` bytes of the script have whole.
pub(crate) fn written_by(steps: &[Step], bytes: usize) -> usize {
    let (mut end, mut written) = (0usize, 0usize);
    for (asked, text) in steps {
        end = end.saturating_add(asked.len());
        if end <= bytes {
            written = written.saturating_add(text.len());
        }
    }
    written
}
