//! Sources by worked rows and by each rule of lines; cutting; pieces.
use cx_base::List;
use cx_source::{
    Delimiter, Items, Source, SourceFault, SourceReader, Stmt, begins_with_letter, cut, first_mark,
    is_continued, is_letter, is_symbol_name, is_symbol_name_character, outside, read_source,
    skip_blanks, text_of, trim_blanks,
};
use std::alloc::{AllocError, Global};

/// A source of seven lines with a name on the first alone.
const PROGRAM: &[u8] =
    b"P        CSECT\n         USING P,15\n         MVC   8(2,13),=C'AB'\n         L     1,=F'1'\n         LH    2,=H'2'\n         A     1,=F'1'\n         END\n";

/// Its statements: name, operation, operand.
const STATEMENTS: [(&[u8], &[u8], &[u8]); 7] = [
    (b"P", b"CSECT", b""),
    (b"", b"USING", b"P,15"),
    (b"", b"MVC", b"8(2,13),=C'AB'"),
    (b"", b"L", b"1,=F'1'"),
    (b"", b"LH", b"2,=H'2'"),
    (b"", b"A", b"1,=F'1'"),
    (b"", b"END", b""),
];

fn is_stmt(stmt: &Stmt, expected: (&[u8], &[u8], &[u8])) -> bool {
    stmt.name.as_slice() == expected.0
        && stmt.operation.as_slice() == expected.1
        && stmt.operand.as_slice() == expected.2
}

/// Whether a source has these lines, and a statement on each.
fn is_program(source: &Source) -> bool {
    let items = source.items.as_slice();
    for (i, item) in items.iter().enumerate() {
        let (Some(stmt), Some(expected)) = (&item.stmt, STATEMENTS.get(i)) else {
            return false;
        };
        if item.line != i + 1 || !is_stmt(stmt, *expected) {
            return false;
        }
    }
    items.len() == STATEMENTS.len()
}

fn read_in_pieces(alloc: Global, bytes: &[u8], size: usize) -> Result<Source, SourceFault> {
    let mut reader = SourceReader::new(alloc);
    let mut rest = bytes;
    for _ in 0..bytes.len() {
        let (piece, after) = rest.split_at(rest.len().min(size));
        reader.feed(piece)?;
        rest = after;
    }
    reader.finish()
}

/// Feeds lines, without their ends, one by one.
fn read_by_lines(alloc: Global, lines: &[&[u8]]) -> Result<Source, SourceFault> {
    let mut reader = SourceReader::new(alloc);
    for line in lines {
        reader.feed_line(line)?;
    }
    reader.finish()
}

/// The lines of the program, and one after its END that is no line of a source.
const LINES: [&[u8]; 8] = [
    b"P        CSECT",
    b"         USING P,15",
    b"         MVC   8(2,13),=C'AB'",
    b"         L     1,=F'1'",
    b"         LH    2,=H'2'",
    b"         A     1,=F'1'",
    b"         END",
    b"no\tname",
];

/// Feeds the program in pieces, and then line by line.
fn read_by_both(alloc: Global) -> Result<Source, SourceFault> {
    let mut reader = SourceReader::new(alloc);
    reader.feed(b"P    ")?;
    reader.feed_line(b"    CSECT")?;
    for line in LINES.as_slice().split_at(1).1 {
        reader.feed_line(line)?;
    }
    reader.finish()
}

/// Whether this is the program.
fn gives_program(source: Result<Source, SourceFault>) -> bool {
    match source {
        Ok(source) => is_program(&source),
        Err(_) => false,
    }
}

#[test]
fn lines_one_by_one_give_the_source(rt: HostRuntime) {
    assert!(rt; gives_program(read_by_lines(rt.alloc(), &LINES)));
    assert!(rt; gives_program(read_by_both(rt.alloc())));
}

fn feed(reader: &mut SourceReader, piece: &[u8]) -> Option<SourceFault> {
    reader.feed(piece).err()
}

fn feed_line(reader: &mut SourceReader, line: &[u8]) -> Option<SourceFault> {
    reader.feed_line(line).err()
}

fn finish(reader: SourceReader) -> Option<SourceFault> {
    reader.finish().err()
}

/// Why lines are no source.
fn fault_of_lines(alloc: Global, lines: &[&[u8]]) -> Option<SourceFault> {
    read_by_lines(alloc, lines).err()
}

#[test]
fn a_line_fed_at_once_keeps_its_carriage_return(rt: HostRuntime) {
    let mut reader = SourceReader::new(rt.alloc());
    let fault = Some(SourceFault::BadCharacter(2));
    assert!(rt; feed_line(&mut reader, b"*").is_none());
    assert!(rt; feed_line(&mut reader, b"X\r") == fault);
    assert!(rt; feed_line(&mut reader, b"         END") == fault);
    assert!(rt; finish(reader) == fault);
    let line_feed = fault_of_lines(rt.alloc(), &[b"X\n", b"         END"]);
    assert!(rt; line_feed == Some(SourceFault::BadCharacter(1)));
    let unended = fault_of_lines(rt.alloc(), &[b"*", b""]);
    assert!(rt; unended == Some(SourceFault::NoEnd(3)));
}

/// The first statement of a source.
fn first_stmt(source: &Source) -> Option<&Stmt> {
    for item in source.items.as_slice() {
        if let Some(stmt) = &item.stmt {
            return Some(stmt);
        }
    }
    None
}

#[test]
fn pieces_of_any_size_give_one_source(rt: HostRuntime) {
    assert!(rt; gives_program(read_source(rt.alloc(), PROGRAM)));
    for size in [1, 2, 3, 7, 1000] {
        assert!(rt;
            gives_program(read_in_pieces(rt.alloc(), PROGRAM, size)),
            "{size}"
        );
    }
}

/// A comment of `lines` lines of 80 columns, and then an END.
fn long_source(alloc: Global, lines: usize, rest: &[u8]) -> Result<Vec<u8>, AllocError> {
    let mut source = Vec::new(alloc);
    for _ in 0..lines {
        source.extend_from_slice(&[b'*'; 80])?;
        source.push(b'\n')?;
    }
    source.extend_from_slice(rest)?;
    Ok(source)
}

/// The size of such a source, which is fed at once, and the number of lines that it gives.
fn fed(alloc: Global, lines: usize, rest: &[u8]) -> Result<(usize, usize), SourceFault> {
    let piece = long_source(alloc, lines, rest)?;
    let mut reader = SourceReader::new(alloc);
    reader.feed(piece.as_slice())?;
    let source = reader.finish()?;
    Ok((piece.len(), source.items.as_slice().len()))
}

#[test]
fn a_piece_of_65537_bytes_is_fed(rt: HostRuntime) {
    assert!(rt; fed(rt.alloc(), 809, b" END    ") == Ok((65_537, 810)));
    assert!(rt; fed(rt.alloc(), 9_999, b" END") == Ok((809_923, 10_000)));
}

/// Why bytes are no source.
fn fault_of(alloc: Global, bytes: &[u8]) -> Option<SourceFault> {
    read_source(alloc, bytes).err()
}

#[test]
fn a_source_without_its_end_is_refused_after_its_last_line(rt: HostRuntime) {
    let mut line = 1usize;
    for (i, c) in PROGRAM.iter().enumerate() {
        let (front, after) = PROGRAM.split_at(i);
        if after.len() < 2 {
            break;
        }
        let unfinished = usize::from(front.last().is_some_and(|last| *last != b'\n'));
        let number = unfinished.saturating_add(line);
        let fault = SourceFault::NoEnd(number);
        assert!(rt; fault_of(rt.alloc(), front) == Some(fault), "{i}");
        if *c == b'\n' {
            line = number;
        }
    }
}

/// Sources with their faults.
#[rattlefmt::skip]
const FAULTS: &[(&str, SourceFault)] = &[
    ("*{\n END", SourceFault::BadCharacter(1)),
    (" DS F\r\r\n END", SourceFault::BadCharacter(1)),
    (" DS F\n END\r", SourceFault::BadCharacter(2)),
    ("1A DS F\n END", SourceFault::BadName(1)),
    ("*\nABCDEFGHI DS F\n END", SourceFault::BadName(2)),
    ("a DS F\n END", SourceFault::BadName(1)),
    ("", SourceFault::NoEnd(1)),
    ("* END\n", SourceFault::NoEnd(2)),
    // a line of more than 80 columns
    ("*{                                                                               \n END", SourceFault::TooLong(1)),
    // a character without a code, and bytes in columns 1 to 15, on a line that continues a statement
    (" DS F\n DC C'A'                                                               X\n    B          {\n END", SourceFault::BadCharacter(3)),
    // a byte in columns 1 to 15 of a line that continues a statement
    (" DC C'A'                                                               X\n              B\n END", SourceFault::BadContinuation(2)),
];

#[test]
fn each_fault_has_its_line(rt: HostRuntime) {
    for &(source, fault) in FAULTS {
        assert!(rt;
            fault_of(rt.alloc(), source.as_bytes()) == Some(fault),
            "{source}"
        );
    }
}

/// Why `count` empty lines are no source.
fn fault_of_empty(alloc: Global, count: usize) -> Result<Option<SourceFault>, AllocError> {
    let lines = vec![in alloc; b'\n'; count]?;
    Ok(fault_of(alloc, lines.as_slice()))
}

#[test]
fn a_source_has_at_most_ten_thousand_lines(rt: HostRuntime) {
    let without_end = Some(SourceFault::NoEnd(10_001));
    assert!(rt; fault_of_empty(rt.alloc(), 10_000) == Ok(without_end));
    let too_long = Some(SourceFault::TooLong(10_001));
    assert!(rt; fault_of_empty(rt.alloc(), 10_001) == Ok(too_long));
}

/// Whether the first statement of a source has this name, operation and operand.
fn begins_with(
    alloc: Global,
    source: &str,
    expected: (&str, &str, &str),
) -> Result<bool, SourceFault> {
    let (name, operation, operand) = expected;
    let found = read_source(alloc, source.as_bytes())?;
    Ok(match first_stmt(&found) {
        Some(stmt) => is_stmt(
            stmt,
            (name.as_bytes(), operation.as_bytes(), operand.as_bytes()),
        ),
        None => false,
    })
}

/// Sources, and the name, the operation and the operand of the first statement of each.
#[rattlefmt::skip]
const RULES: &[(&str, (&str, &str, &str))] = &[
    ("* DS F\n\n  \n DS F\r\n END\r\n", ("", "DS", "F")),
    ("A1  MVC X,=C'A''B C' IT'S ONE\n END", ("A1", "MVC", "X,=C'A''B C'")),
    ("@ LA 1,L'X+L'$ 'A\n END", ("@", "LA", "1,L'X+L'$")),
    ("#9 DC CL'X Y'\n END\n1BAD {\n", ("#9", "DC", "CL'X Y'")),
    (" EXEC CICS  A  \n END", ("", "EXEC", "CICS  A")),
    ("ONLYNAME\n END", ("ONLYNAME", "", "")),
    // an operand of an unfinished text goes on in column 16, and columns 73 to 80 don't count
    ("A DC C'AB                                                              X12345678\n               CD' REST\n END", ("A", "DC", "C'AB                                                              CD'")),
    // an operand goes on over two lines
    ("A DC C'AAAAAAAAAAAAAAAAAAAAAAAAAAAAAAAAAAAAAAAAAAAAAAAAAAAAAAAAAAAAAAAAXY\n               BBBBBBBBBBBBBBBBBBBBBBBBBBBBBBBBBBBBBBBBBBBBBBBBBBBBBBBBX\n               C' D\n END", ("A", "DC", "C'AAAAAAAAAAAAAAAAAAAAAAAAAAAAAAAAAAAAAAAAAAAAAAAAAAAAAAAAAAAAAAAABBBBBBBBBBBBBBBBBBBBBBBBBBBBBBBBBBBBBBBBBBBBBBBBBBBBBBBBC'")),
    // a command's blanks are kept
    (" EXEC CICS  ABEND                                                      X\n               'A B'\n END", ("", "EXEC", "CICS  ABEND                                                      'A B'")),
    // the source ends at an END that is marked as continued
    (" END                                                                   X\n{", ("", "END", "")),
    // an empty line continues a statement
    (" DC C'A'                                                               X\n\n END", ("", "DC", "C'A'")),
    // a blank statement goes on with an operand
    ("                                                                       X\n                MVC A\n END", ("", "", "MVC")),
];

#[test]
fn each_rule_of_lines_holds(rt: HostRuntime) {
    for &(source, expected) in RULES {
        assert!(rt;
            begins_with(rt.alloc(), source, expected) == Ok(true),
            "{source}"
        );
    }
}

/// A line's number, the length of its text, and whether a statement begins on it.
fn kept(source: &Source, place: usize) -> Option<(usize, usize, bool)> {
    let item = source.items.as_slice().get(place)?;
    Some((item.line, item.text.as_slice().len(), item.stmt.is_some()))
}

/// A comment, a statement on two lines, and END.
#[rattlefmt::skip]
const FOUR_LINES: &[u8] = b"* A  \n DC C'A'                                                               X12345678\n               'B'\n END\n{";

/// What is kept of them.
const KEPT: [Option<(usize, usize, bool)>; 5] = [
    Some((1, 3, false)),
    Some((2, 72, true)),
    Some((3, 18, false)),
    Some((4, 4, true)),
    None,
];

/// Whether of a source this is kept.
fn keeps_four_lines(source: &Source) -> bool {
    for (place, due) in KEPT.iter().enumerate() {
        if kept(source, place) != *due {
            return false;
        }
    }
    true
}

/// Whether of those lines this is kept, and then of copies.
fn are_kept(alloc: Global) -> Result<bool, SourceFault> {
    let source = read_source(alloc, FOUR_LINES)?;
    Ok(keeps_four_lines(&source) && keeps_four_lines(&copied(alloc, &source)?))
}

#[test]
fn lines_keep_their_texts(rt: HostRuntime) {
    assert!(rt; are_kept(rt.alloc()) == Ok(true));
}

#[test]
fn a_fault_stays(rt: HostRuntime) {
    let mut reader = SourceReader::new(rt.alloc());
    let fault = Some(SourceFault::BadName(2));
    assert!(rt; feed(&mut reader, b" DS F\n1A DS F").is_none());
    assert!(rt; feed(&mut reader, b"\n END\n") == fault);
    assert!(rt; feed(&mut reader, b" END\n") == fault);
    assert!(rt; finish(reader) == fault);
}

#[test]
fn the_last_line_is_judged_at_the_end(rt: HostRuntime) {
    let mut reader = SourceReader::new(rt.alloc());
    assert!(rt; feed(&mut reader, b"1A").is_none());
    assert!(rt; finish(reader) == Some(SourceFault::BadName(1)));
    let mut reader = SourceReader::new(rt.alloc());
    assert!(rt; feed(&mut reader, b" END\n1A").is_none());
    assert!(rt; feed(&mut reader, b"\n{\n").is_none());
    assert!(rt; finish(reader).is_none());
}

/// Whether the parts of an operand are these, each followed by a bar.
fn is_cut(
    alloc: Global,
    text: &[u8],
    mark: Delimiter,
    expected: &[u8],
) -> Result<bool, AllocError> {
    let mut joined = Vec::new(alloc);
    for part in cut(alloc, text, mark)? {
        joined.extend_from_slice(part)?;
        joined.push(b'|')?;
    }
    Ok(joined.as_slice() == expected)
}

/// Operands, marks, and the parts.
const CUT: &[(&[u8], Delimiter, &[u8])] = &[
    (b"1,D(2,B),C','", Delimiter::TopComma, b"1|D(2,B)|C','|"),
    (b"(1),2)+(3)", Delimiter::Closing, b"(1),2|+(3)|"),
    (b"D(X,B)'('", Delimiter::Parenthesis, b"D|X,B|'('|"),
    (b"A  'B C'", Delimiter::Blank, b"A||'B C'|"),
    (b"", Delimiter::TopComma, b"|"),
];

#[test]
fn operands_are_cut_outside_apostrophes(rt: HostRuntime) {
    for &(text, mark, expected) in CUT {
        assert!(rt; is_cut(rt.alloc(), text, mark, expected) == Ok(true));
    }
}

/// Whether these are the characters outside apostrophes.
fn lie_outside(alloc: Global, text: &[u8], expected: &[bool]) -> Result<bool, AllocError> {
    Ok(outside(alloc, text)?.as_slice() == expected)
}

#[test]
fn marks_are_found_outside_apostrophes(rt: HostRuntime) {
    let expected = [true, false, false, false, true, true, true, true, false];
    assert!(rt; lie_outside(rt.alloc(), b"A'B',L'C'", &expected) == Ok(true));
    assert!(rt; first_mark(b"C'A B',X REST", Delimiter::Blank) == 8);
    assert!(rt; first_mark(b"AB", Delimiter::TopComma) == 2);
}

/// The numbers of flags and of parts of an operand of `size` commas.
fn cut_count(alloc: Global, size: usize) -> Result<(usize, usize), AllocError> {
    let text = vec![in alloc; b','; size]?;
    let flags = outside(alloc, text.as_slice())?.len();
    Ok((
        flags,
        cut(alloc, text.as_slice(), Delimiter::TopComma)?.len(),
    ))
}

#[test]
fn a_long_operand_is_cut(rt: HostRuntime) {
    assert!(rt; cut_count(rt.alloc(), 560_000) == Ok((560_000, 560_001)));
}

#[test]
fn names_begin_with_a_letter(rt: HostRuntime) {
    assert!(rt; is_letter(b'$') && !is_letter(b'7') && !is_letter(b'a'));
    assert!(rt; is_symbol_name_character(b'7') && !is_symbol_name_character(b'.'));
    assert!(rt; begins_with_letter(b"@.") && !begins_with_letter(b""));
    assert!(rt; is_symbol_name(b"#2345678") && !is_symbol_name(b"#23456789"));
}

/// Whether a text without the blanks at its beginning is the one, and without those at its end the other.
fn is_stripped(text: &[u8], after: &[u8], before: &[u8]) -> bool {
    skip_blanks(text) == after && trim_blanks(text) == before
}

/// Whether the text of a line of 80 columns ends with column 72.
fn ends_at_column_72() -> bool {
    let mut line = [b'9'; 80];
    line[71] = b'X';
    let text = text_of(&line);
    text.len() == 72 && text.last().copied() == Some(b'X')
}

#[test]
fn blanks_are_left_out(rt: HostRuntime) {
    assert!(rt; is_stripped(b"  A B ", b"A B ", b"  A B"));
    assert!(rt; is_stripped(b"  ", b"", b""));
    assert!(rt; ends_at_column_72());
}

/// Whether a comment, or a line, with a mark in column 72 goes on.
fn goes_on(continues: bool, first: u8) -> bool {
    let mut line = [b' '; 72];
    line[0] = first;
    line[71] = b'X';
    is_continued(continues, &line)
}

#[test]
fn comments_are_not_continued(rt: HostRuntime) {
    assert!(rt; goes_on(false, b'A'));
    assert!(rt; !goes_on(false, b'*'));
    assert!(rt; goes_on(true, b'*'));
    assert!(rt; !is_continued(true, b"A"));
}

/// A source with copies of another's lines.
fn copied(alloc: Global, source: &Source) -> Result<Source, SourceFault> {
    let mut items = Vec::new(alloc);
    for item in source.items.as_slice() {
        items.push(item.copied(alloc)?)?;
    }
    Ok(Source {
        items: Items::from_vec(items),
    })
}

/// Whether a copy of a source's first statement is this.
fn is_copied(
    alloc: Global,
    source: &Source,
    expected: (&[u8], &[u8], &[u8]),
) -> Result<bool, AllocError> {
    match first_stmt(source) {
        Some(stmt) => Ok(is_stmt(&stmt.copied(alloc)?, expected)),
        None => Ok(false),
    }
}

/// Whether the program's lines are copied, and its first statement.
fn are_copied(alloc: Global) -> Result<bool, SourceFault> {
    let source = read_source(alloc, PROGRAM)?;
    Ok(is_program(&copied(alloc, &source)?) && is_copied(alloc, &source, STATEMENTS[0])?)
}

#[test]
fn lines_and_statements_are_copied(rt: HostRuntime) {
    assert!(rt; are_copied(rt.alloc()) == Ok(true));
}

/// Whether a fault has this name, and is shown so.
fn is_shown(alloc: Global, fault: SourceFault, name: &str, text: &str) -> Result<bool, AllocError> {
    let shown = format!(in alloc; "{fault}")?;
    Ok(fault.name() == name && shown.as_str() == text)
}

/// Faults, the name of each, and how it is shown.
#[rattlefmt::skip]
const SHOWN: &[(SourceFault, &str, &str)] = &[
    (SourceFault::BadCharacter(1), "BadCharacter", "line 1: BadCharacter"),
    (SourceFault::BadName(20), "BadName", "line 20: BadName"),
    (SourceFault::BadContinuation(3), "BadContinuation", "line 3: BadContinuation"),
    (SourceFault::TooLong(10_001), "TooLong", "line 10001: TooLong"),
    (SourceFault::NoEnd(8), "NoEnd", "line 8: NoEnd"),
    (SourceFault::Memory, "Memory", "Memory"),
];

#[test]
fn faults_have_names(rt: HostRuntime) {
    for &(fault, name, text) in SHOWN {
        assert!(rt;
            is_shown(rt.alloc(), fault, name, text) == Ok(true),
            "{name}"
        );
    }
}

/// Whether a list holds these bytes and gives them back.
fn gives_back(list: List<u8>, bytes: &[u8]) -> bool {
    let are_seen = list.as_slice() == bytes;
    are_seen && list.into_vec().as_slice() == bytes
}

/// Whether a list of copies, and one of a `Vec`, give back what they were made of.
fn give_back(alloc: Global, bytes: &[u8]) -> Result<bool, AllocError> {
    let copies = List::from_slice(alloc, bytes)?;
    let list = List::from_vec(bytes.to_vec(alloc)?);
    Ok(gives_back(copies, bytes) && gives_back(list, bytes))
}

#[test]
fn lists_give_back_what_they_hold(rt: HostRuntime) {
    assert!(rt; give_back(rt.alloc(), b"AB") == Ok(true));
}
