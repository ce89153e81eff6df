//! Lines of a listing, written out by hand.
use cx_asm_image::listing_line;
use std::test::Fail;

/// Lines: offset, object code, number, text; and how each is listed.
#[rattlefmt::skip]
const LINES: &[(Option<u128>, &[u8], usize, &[u8], &[u8])] = &[
    (Some(0), b"\xD2\x01\xD0\x08\xF0\x1C", 3, b"         MVC   8(2,13),=C'AB'", b"000000 D201D008F01C     00003          MVC   8(2,13),=C'AB'"),
    (None, b"", 12, b"* A COMMENT", b"                        00012 * A COMMENT"),
    (Some(24), b"", 10_000, b"X        DS    18F", b"000018                  10000 X        DS    18F"),
    (Some(0x12_34AB_CDEF), b"\x00\x01\x02\x03\x04\x05\x06\x07\x08", 98_765, b"", b"ABCDEF 0001020304050607 98765 "),
];

#[test]
fn columns_are_written(rt: HostRuntime) -> Result<(), Fail> {
    for &(at, object, number, text, listed) in LINES {
        let line = listing_line(rt.alloc(), at, object, number, text)?;
        assert!(rt; line.as_slice() == listed, "{number}");
    }
    Ok(())
}
