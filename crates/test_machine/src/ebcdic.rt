//! Characters, names and keys against the reference card GX20-1850 and GA27-2739.
use cx_ebcdic::{Aid, Name, Name4, Name8, TextFault, encode_line, shown_as, to_ebcdic};
use std::alloc::Global;
use std::test::Fail;

/// Whether a character has this code, and the code shows it.
fn has_code(character: char, code: u8) -> bool {
    to_ebcdic(character) == Some(code) && shown_as(code) == character
}

#[test]
fn characters_have_their_codes(rt: HostRuntime) {
    for (character, code) in [
        (' ', 0x40),
        ('A', 0xC1),
        ('R', 0xD9),
        ('s', 0xA2),
        ('9', 0xF9),
        ('"', 0x7F),
        ('.', 0x4B),
    ] {
        assert!(rt; has_code(character, code), "{character}");
    }
    assert!(rt; to_ebcdic('{').is_none());
    assert!(rt; shown_as(0x00) == '.' && shown_as(0xCA) == '.');
}

/// Whether a text is encoded so.
fn is_encoded(alloc: Global, text: &str, codes: &[u8]) -> bool {
    encode_line(alloc, text).is_ok_and(|bytes| bytes.as_slice() == codes)
}

/// Why a text has no form in EBCDIC.
fn fault_of(alloc: Global, text: &str) -> Option<TextFault> {
    encode_line(alloc, text).err()
}

#[test]
fn lines_are_encoded(rt: HostRuntime) {
    let alloc = rt.alloc();
    assert!(rt; is_encoded(alloc, "ABCDE", &[0xC1, 0xC2, 0xC3, 0xC4, 0xC5]));
    assert!(rt; is_encoded(alloc, "", &[]));
    assert!(rt; fault_of(alloc, "AÄ{") == Some(TextFault::BadCharacter(1)));
}

/// The number of codes of a text of `size` letters.
fn codes(alloc: Global, size: usize) -> Result<usize, Fail> {
    let mut text = String::new(alloc);
    for _ in 0..size {
        text.push('A')?;
    }
    Ok(encode_line(alloc, text.as_str())?.len())
}

#[test]
fn a_long_line_is_encoded(rt: HostRuntime) -> Result<(), Fail> {
    assert!(rt; codes(rt.alloc(), 65_536)? == 65_536);
    Ok(())
}

/// The bytes of a name of four characters.
fn four(text: &str) -> Option<[u8; 4]> {
    Some(Name4::from_text(text)?.bytes())
}

/// The bytes of a name of eight characters.
fn eight(text: &str) -> Option<[u8; 8]> {
    Some(Name8::from_text(text)?.bytes())
}

/// The bytes of a name of five characters.
fn five(text: &str) -> Option<[u8; 5]> {
    let name: Name<5> = Name::from_text(text)?;
    Some(name.bytes())
}

/// Whether bytes that are no characters make names too.
fn are_kept() -> bool {
    Name4::from_bytes([1, 2, 3, 4]).bytes() == [1, 2, 3, 4]
        && Name8::from_bytes([0; 8]).bytes() == [0; 8]
}

#[test]
fn names_are_their_padded_bytes(rt: HostRuntime) {
    assert!(rt; four("T001") == Some([0xE3, 0xF0, 0xF0, 0xF1]));
    assert!(rt; four("Z") == Some([0xE9, 0x40, 0x40, 0x40]));
    let program = [0x7C, 0x7B, 0x5B, 0xD5, 0xD6, 0xD7, 0xC7, 0xD4];
    assert!(rt; eight("@#$NOPGM") == Some(program));
    assert!(rt; five("A9") == Some([0xC1, 0xF9, 0x40, 0x40, 0x40]));
    assert!(rt; five("ABCDEF").is_none());
    for text in ["", "ABCDE", "AB C", "abcd", "A.B"] {
        assert!(rt; four(text).is_none(), "{text}");
    }
    assert!(rt; eight("ABCDEFGHI").is_none());
    assert!(rt; are_kept());
}

/// Whether a key has this name and this code, and each gives the key.
fn is_key(aid: Aid, name: &str, code: u8) -> bool {
    aid.name() == name
        && aid.code() == code
        && Aid::from_name(name) == Some(aid)
        && Aid::from_code(code) == Some(aid)
}

#[test]
fn keys_have_names_and_codes(rt: HostRuntime) {
    for (aid, name, code) in [
        (Aid::Enter, "ENTER", 0x7D),
        (Aid::Clear, "CLEAR", 0x6D),
        (Aid::Pa1, "PA1", 0x6C),
        (Aid::Pf1, "PF1", 0xF1),
        (Aid::Pf10, "PF10", 0x7A),
        (Aid::Pf12, "PF12", 0x7C),
    ] {
        assert!(rt; is_key(aid, name, code), "{name}");
    }
    assert!(rt; Aid::from_name("PF13").is_none());
    assert!(rt; Aid::from_code(0x00).is_none());
}
