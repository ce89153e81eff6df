//! What is put into sources that no script can assemble: without a section, without END, with several, of full size.
use crate::texts::{suspended, translated};
use cx_source::SourceFault;
use std::alloc::{AllocError, Global};

/// A statement without a section.
const NO_SECTION: &[u8] = b"         EXEC  CICS SUSPEND\n         END\n";

/// The lines that it becomes, up to its END.
const CALL: &[u8] = b"01          LA    0,=X'12080000'
01          ST    0,DFHEIPL+0
01          OI    DFHEIPL+0,X'80'
01          LA    1,DFHEIPL
01          L     15,=V(DFHEI1)
01          BALR  14,15
02 DFHEIBLK DSECT
";

/// A source whose first faulty statement has two lines, and another after it.
const TWO_FAULTY: &[u8] =
    b"P        CSECT\n         EXEC  CICS RETURN\n         EXEC  CICS LINK                                               X\n               PROGRAM\n         EXEC  CICS RETRUN\n         END\n";

/// Whether a source becomes lines that begin so, and are longer.
fn begins(alloc: Global, source: &[u8], front: &[u8]) -> bool {
    match translated(alloc, source) {
        Ok(made) => made.starts_with(front) && made.len() > front.len(),
        Err(_) => false,
    }
}

/// Whether a source is refused, and reported so.
fn is_refused(alloc: Global, source: &[u8], reported: &[u8]) -> bool {
    match translated(alloc, source) {
        Ok(made) => made.as_slice() == reported,
        Err(_) => false,
    }
}

#[test]
fn without_a_section_none_is_put(rt: HostRuntime) {
    assert!(rt; begins(rt.alloc(), NO_SECTION, CALL));
}

#[test]
fn the_first_faulty_statement_is_reported_with_its_line(rt: HostRuntime) {
    assert!(rt; is_refused(rt.alloc(), TWO_FAULTY, b"line 3: BadArgument"));
}

/// The lines that a control section with SUSPEND on line 2 becomes, up to its END.
const SUSPENDED: &[u8] = b"01 DFHEISTG DSECT
01 DFHEIPL  DS    18F
01 DFHEITP  DS    F
01 DFHEICAP DS    A
01 
01          USING P,3
01          USING DFHEISTG,13
01          USING DFHEIBLK,11
02          LA    0,=X'12080000'
02          ST    0,DFHEIPL+0
02          OI    DFHEIPL+0,X'80'
02          LA    1,DFHEIPL
02          L     15,=V(DFHEI1)
02          BALR  14,15
";

/// What is put before an END on line 3, and that line and one more.
const TWO_ENDS: &[u8] = b"03 DFHEIBLK DSECT
03 EIBTIME  DS    XL4
03 EIBDATE  DS    XL4
03 EIBTRNID DS    XL4
03 EIBTASKN DS    XL4
03 EIBTRMID DS    XL4
03          DS    XL4
03 EIBCALEN DS    XL2
03 EIBAID   DS    XL1
03 EIBFN    DS    XL2
03 EIBRCODE DS    XL6
03          DS    XL16
03 EIBRSRCE DS    XL8
03          DS    XL17
03 EIBRESP  DS    XL4
03          DS    XL8
03 
04 
";

/// Whether the section becomes those lines with each of these ENDs, and then these.
fn ends_so(alloc: Global, ends: &[usize], after: &[u8]) -> bool {
    match suspended(alloc, ends) {
        Ok(made) => made.strip_prefix(SUSPENDED) == Some(after),
        Err(_) => false,
    }
}

#[test]
fn the_eib_stands_before_the_first_end(rt: HostRuntime) {
    assert!(rt; ends_so(rt.alloc(), &[], b""));
    assert!(rt; ends_so(rt.alloc(), &[3, 4], TWO_ENDS));
}

/// A source of five times `fives` lines after its CSECT, a fifth of them EXEC statements of two lines.
fn long_source(alloc: Global, fives: usize) -> Result<Vec<u8>, AllocError> {
    let mut source = Vec::from_slice(alloc, b"P        CSECT\n")?;
    for _ in 0..fives {
        source.extend_from_slice(
            b"         EXEC  CICS WRITEQ TS QUEUE('Q') FROM(A)                       X\n               LENGTH(B) MAIN RESP(C)\n         L     1,A\n* NOTE\n         ST    1,B\n",
        )?;
    }
    source.extend_from_slice(b"         END\n")?;
    Ok(source)
}

/// How many lines such a source becomes.
fn line_count(alloc: Global, fives: usize) -> Result<usize, SourceFault> {
    let source = long_source(alloc, fives)?;
    let mut count = 0usize;
    for byte in translated(alloc, source.as_slice())?.iter() {
        if *byte == b'\n' {
            count = count.saturating_add(1);
        }
    }
    Ok(count)
}

#[test]
fn a_source_of_full_size(rt: HostRuntime) {
    assert!(rt; line_count(rt.alloc(), 1_999) == Ok(8 + 1_999 * (14 + 3) + 17));
}
