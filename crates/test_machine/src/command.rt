//! Commands, their options and conditions against the Application Programmer's Reference Manual, SC33-0077.
use cx_base::{
    Abend, ArgumentKind, Command, CommonOption, Condition, EibField, EibPiece, EistgField,
    ListedCondition, OptionName, Rule, eib_pieces, has_bit,
};
use cx_ebcdic::Name4;

/// Whether a command has this function value and this name.
fn is_command(command: Command, function: u16, name: &str) -> bool {
    Command::from_function(function) == Some(command)
        && command.function() == function
        && command.name() == name
}

#[test]
fn commands_are_found_by_function(rt: HostRuntime) {
    assert!(rt; is_command(Command::Return, 0x0E08, "RETURN"));
    assert!(rt; is_command(Command::Suspend, 0x1208, "SUSPEND"));
    assert!(rt; is_command(Command::ReadqTs, 0x0A04, "READQ TS"));
    assert!(rt; Command::from_function(0x0EFF).is_none());
}

/// The command that two words begin with, and how many of them name it.
fn named(first: &str, second: &str) -> Option<(Command, usize)> {
    Command::named(first.as_bytes(), second.as_bytes())
}

#[test]
fn commands_are_found_by_their_words(rt: HostRuntime) {
    for (first, second, found) in [
        ("READQ", "TS", Some((Command::ReadqTs, 2))),
        ("READQ", "QUEUE", Some((Command::ReadqTs, 1))),
        ("SEND", "TEXT", Some((Command::SendText, 2))),
        ("RETURN", "TRANSID", Some((Command::Return, 1))),
        ("SUSPEND", "", Some((Command::Suspend, 1))),
        ("ABEND", "CANCEL", Some((Command::Abend, 1))),
        ("HANDLE", "ABEND", Some((Command::HandleAbend, 2))),
        ("HANDLE", "", None),
        ("SEND", "FROM", None),
    ] {
        assert!(rt; named(first, second) == found, "{first} {second}");
    }
}

/// Whether a condition has this number and this name.
fn is_condition(condition: Condition, number: u8, name: &str) -> bool {
    Condition::from_number(number) == Some(condition)
        && Condition::from_name(name) == Some(condition)
        && Condition::named(name.as_bytes()) == Some(condition)
        && condition.number() == number
        && condition.name() == name
}

#[test]
fn conditions_have_numbers_and_names(rt: HostRuntime) {
    for (condition, number, name) in [
        (Condition::Normal, 0, "NORMAL"),
        (Condition::Pgmiderr, 27, "PGMIDERR"),
        (Condition::Nostg, 42, "NOSTG"),
        (Condition::Enqbusy, 55, "ENQBUSY"),
    ] {
        assert!(rt; is_condition(condition, number, name), "{name}");
    }
    assert!(rt; Condition::from_number(2).is_none());
    assert!(rt; Condition::from_name("DUPREC").is_none());
}

/// Whether a task abends with this code where nothing handles the condition.
fn abends(condition: Condition, code: &str) -> bool {
    condition.abend_code().is_some() && condition.abend_code() == Name4::from_text(code)
}

#[test]
fn conditions_have_abend_codes(rt: HostRuntime) {
    assert!(rt; abends(Condition::Pgmiderr, "AEI0"));
    assert!(rt; abends(Condition::Qiderr, "AEYH"));
    assert!(rt; Condition::Enqbusy.abend_code().is_none());
}

/// Whether an abend has this name, and its code is this in EBCDIC.
fn is_abend(abend: Abend, name: &str, code: [u8; 4]) -> bool {
    abend.name() == name && abend.code() == Name4::from_bytes(code)
}

#[test]
fn abends_have_codes(rt: HostRuntime) {
    for (abend, name, code) in [
        (Abend::Asra, "ASRA", [0xC1, 0xE2, 0xD9, 0xC1]),
        (Abend::Aica, "AICA", [0xC1, 0xC9, 0xC3, 0xC1]),
        (Abend::Xarg, "XARG", [0xE7, 0xC1, 0xD9, 0xC7]),
        (Abend::Xfun, "XFUN", [0xE7, 0xC6, 0xE4, 0xD5]),
        (Abend::Xlvl, "XLVL", [0xE7, 0xD3, 0xE5, 0xD3]),
        (Abend::Xstg, "XSTG", [0xE7, 0xE2, 0xE3, 0xC7]),
        (Abend::Xedf, "XEDF", [0xE7, 0xC5, 0xC4, 0xC6]),
        (Abend::Unnamed, "????", [0x6F, 0x6F, 0x6F, 0x6F]),
    ] {
        assert!(rt; is_abend(abend, name, code), "{name}");
    }
}

/// An option of a command: its bit, its name, its kind, and whether it is required.
fn option_of(command: Command, place: usize) -> Option<(u8, OptionName, ArgumentKind, bool)> {
    let option = command.options().get(place)?;
    Some((option.bit, option.name, option.kind, option.required))
}

#[test]
fn options_have_bits_and_marks(rt: HostRuntime) {
    let program = (0x80, OptionName::Program, ArgumentKind::Name8, true);
    let commarea = (0x40, OptionName::Commarea, ArgumentKind::Address, false);
    let length = (0x20, OptionName::Length, ArgumentKind::Halfword, false);
    assert!(rt; option_of(Command::Link, 0) == Some(program));
    assert!(rt; option_of(Command::Link, 1) == Some(commarea));
    assert!(rt; option_of(Command::Link, 2) == Some(length));
    assert!(rt; option_of(Command::Link, 3).is_none());
    assert!(rt; !ArgumentKind::Flag.takes_argument());
    assert!(rt; ArgumentKind::Pointer.takes_argument());
}

/// Whether an option has this name.
fn is_option(option: OptionName, name: &str) -> bool {
    OptionName::from_name(name) == Some(option)
        && OptionName::named(name.as_bytes()) == Some(option)
        && option.name() == name
}

#[test]
fn options_have_names(rt: HostRuntime) {
    assert!(rt; is_option(OptionName::Numitems, "NUMITEMS"));
    assert!(rt; is_option(OptionName::Commarea, "COMMAREA"));
    assert!(rt; OptionName::from_name("RESP").is_none());
}

/// Whether a common option has this name and this bit, and is in an option byte 2 with that bit alone.
fn is_common(option: CommonOption, name: &str, bit: u8) -> bool {
    CommonOption::named(name.as_bytes()) == Some(option)
        && option.name() == name
        && option.bit() == bit
        && option.is_in(bit)
        && !option.is_in(!bit)
}

#[test]
fn common_options_have_bits_of_option_byte_2(rt: HostRuntime) {
    assert!(rt; is_common(CommonOption::Nohandle, "NOHANDLE", 0x80));
    assert!(rt; is_common(CommonOption::Resp, "RESP", 0x40));
    assert!(rt; CommonOption::Resp.takes_argument());
    assert!(rt; !CommonOption::Nohandle.takes_argument());
    assert!(rt; CommonOption::named(b"LENGTH").is_none());
}

/// The bit and the mark of a command's option of this name.
fn marked(command: Command, name: OptionName) -> Option<(u8, ArgumentKind)> {
    let option = command.option(name)?;
    Some((option.bit, option.kind))
}

#[test]
fn options_are_found_by_name(rt: HostRuntime) {
    for (command, name, option) in [
        (
            Command::Link,
            OptionName::Commarea,
            Some((0x40, ArgumentKind::Address)),
        ),
        (
            Command::Xctl,
            OptionName::Commarea,
            Some((0x40, ArgumentKind::BytesRead)),
        ),
        (
            Command::ReadqTs,
            OptionName::Next,
            Some((0x08, ArgumentKind::Flag)),
        ),
        (Command::Suspend, OptionName::Length, None),
    ] {
        assert!(rt; marked(command, name) == option);
    }
}

/// Whether an option is among those of RETURN in option byte 1.
fn returns_with(first: u8, name: OptionName) -> bool {
    Command::Return.has_option(first, name)
}

#[test]
fn options_are_in_option_byte_1(rt: HostRuntime) {
    assert!(rt; returns_with(0xE0, OptionName::Transid));
    assert!(rt; !returns_with(0x60, OptionName::Transid));
    assert!(rt; !returns_with(0xFF, OptionName::Program));
}

/// How many arguments a command has, and the place of this option's.
fn arguments(command: Command, first: u8, name: OptionName) -> (usize, Option<usize>) {
    (
        command.argument_count(first),
        command.argument_index(first, name),
    )
}

// QUEUE, INTO, LENGTH and then NEXT, a flag, or ITEM; GETMAIN SET LENGTH INITIMG NOSUSPEND; ABEND of all three.
#[test]
fn arguments_stand_in_the_order_of_their_options(rt: HostRuntime) {
    for (command, first, count, name, index) in [
        (Command::ReadqTs, 0xE8, 3, OptionName::Length, Some(2)),
        (Command::ReadqTs, 0xE8, 3, OptionName::Next, None),
        (Command::ReadqTs, 0xF0, 4, OptionName::Item, Some(3)),
        (Command::ReadqTs, 0xE8, 3, OptionName::Item, None),
        (Command::Getmain, 0xF0, 3, OptionName::Initimg, Some(2)),
        (Command::Return, 0x60, 2, OptionName::Commarea, Some(0)),
        (Command::Abend, 0xE0, 1, OptionName::Abcode, Some(0)),
        (Command::Suspend, 0x00, 0, OptionName::Length, None),
    ] {
        assert!(rt;
            arguments(command, first, name) == (count, index),
            "{first:02x}"
        );
    }
}

/// How many bytes a command reads at an argument.
fn input(command: Command, first: u8, kind: ArgumentKind, length: Option<u16>) -> u16 {
    command.input_len(first, kind, length)
}

#[test]
fn inputs_have_lengths(rt: HostRuntime) {
    for (command, first, kind, length, bytes) in [
        (Command::Xctl, 0xE0, ArgumentKind::BytesRead, Some(8), 8),
        (
            Command::WriteqTs,
            0xE0,
            ArgumentKind::BytesRead,
            Some(0x8000),
            0,
        ),
        (
            Command::Enq,
            0xC0,
            ArgumentKind::BytesOrAddress,
            Some(255),
            255,
        ),
        (
            Command::Enq,
            0xC0,
            ArgumentKind::BytesOrAddress,
            Some(256),
            0,
        ),
        (Command::Enq, 0x80, ArgumentKind::BytesOrAddress, None, 0),
        (Command::Link, 0xE0, ArgumentKind::Name8, Some(8), 8),
        (Command::Return, 0x80, ArgumentKind::Name4, None, 4),
        (Command::Getmain, 0xE0, ArgumentKind::Byte, Some(16), 1),
        (Command::Getmain, 0xE0, ArgumentKind::Halfword, Some(16), 2),
        (Command::Getmain, 0xE0, ArgumentKind::Pointer, Some(16), 0),
        (Command::Link, 0xE0, ArgumentKind::Address, Some(8), 0),
        (
            Command::Receive,
            0xC0,
            ArgumentKind::BytesWritten,
            Some(80),
            0,
        ),
        (
            Command::Receive,
            0xC0,
            ArgumentKind::HalfwordBothWays,
            Some(80),
            2,
        ),
        (
            Command::ReadqTs,
            0xE0,
            ArgumentKind::HalfwordBothWaysWithoutSet,
            Some(8),
            2,
        ),
    ] {
        assert!(rt; input(command, first, kind, length) == bytes, "{first:02x}");
    }
}

/// Whether a field of the EIB has this name, this offset and this length.
fn is_eib_field(field: EibField, name: &str, offset: u32, length: u32) -> bool {
    field.name() == name && field.offset() == offset && field.length() == length
}

#[test]
fn fields_of_the_eib_have_places(rt: HostRuntime) {
    for (field, name, offset, length) in [
        (EibField::Time, "EIBTIME", 0, 4),
        (EibField::Date, "EIBDATE", 4, 4),
        (EibField::Trnid, "EIBTRNID", 8, 4),
        (EibField::Taskn, "EIBTASKN", 12, 4),
        (EibField::Trmid, "EIBTRMID", 16, 4),
        (EibField::Calen, "EIBCALEN", 24, 2),
        (EibField::Aid, "EIBAID", 26, 1),
        (EibField::Fn, "EIBFN", 27, 2),
        (EibField::Rcode, "EIBRCODE", 29, 6),
        (EibField::Rsrce, "EIBRSRCE", 51, 8),
        (EibField::Resp, "EIBRESP", 76, 4),
    ] {
        assert!(rt; is_eib_field(field, name, offset, length), "{name}");
    }
}

/// Whether a piece of the EIB is a gap, or a field that is there.
fn stands_at(piece: EibPiece, offset: u32) -> bool {
    match piece.field {
        Some(field) => field.offset() == offset && field.length() == piece.len,
        None => true,
    }
}

#[test]
fn pieces_of_the_eib_follow_one_another(rt: HostRuntime) {
    let mut end = 0u32;
    for piece in eib_pieces() {
        assert!(rt; stands_at(*piece, end), "{end}");
        end = end.wrapping_add(piece.len);
    }
    assert!(rt; end == 88);
    let last = EibPiece {
        field: None,
        len: 8,
    };
    assert!(rt; eib_pieces().last().copied() == Some(last));
}

/// Whether a field of DFHEISTG has this name, this offset and this length.
fn is_eistg_field(field: EistgField, name: &str, offset: u32, length: u32) -> bool {
    field.name() == name && field.offset() == offset && field.length() == length
}

#[test]
fn fields_of_dfheistg_have_places(rt: HostRuntime) {
    assert!(rt; is_eistg_field(EistgField::Eipl, "DFHEIPL", 0, 72));
    assert!(rt; is_eistg_field(EistgField::Eitp, "DFHEITP", 72, 4));
    assert!(rt; is_eistg_field(EistgField::Eicap, "DFHEICAP", 76, 4));
}

#[test]
fn rules_join_options(rt: HostRuntime) {
    assert!(rt; Command::Xctl.rules() == [Rule::Together(0x40, 0x20)].as_slice());
    assert!(rt; Command::IgnoreCondition.lists_conditions());
    assert!(rt; has_bit(0x48, 0x08));
    assert!(rt; Rule::Needs(0x01, 0x02).holds(0x82));
}

#[test]
fn option_bytes_are_judged(rt: HostRuntime) {
    for (command, first, legal) in [
        (Command::Return, 0x00, true),
        (Command::Return, 0x40, false),
        (Command::Return, 0xE0, true),
        (Command::ReadqTs, 0xE8, true),
        (Command::ReadqTs, 0xF8, false),
        (Command::ReadqTs, 0xA4, true),
        (Command::ReadqTs, 0xE4, false),
        (Command::ReadqTs, 0xA0, false),
        (Command::WriteqTs, 0xE3, true),
        (Command::WriteqTs, 0xE1, false),
        (Command::WriteqTs, 0xF8, false),
        (Command::HandleAbend, 0x20, true),
        (Command::HandleAbend, 0x00, false),
        (Command::HandleAbend, 0xC0, false),
        (Command::Suspend, 0x80, false),
        (Command::Getmain, 0x80, false),
        (Command::HandleCondition, 0, false),
        (Command::HandleCondition, 16, true),
        (Command::IgnoreCondition, 17, false),
    ] {
        assert!(rt; command.is_legal(first, 0xC0) == legal, "{first:02x}");
    }
    assert!(rt; !Command::Suspend.is_legal(0, 0x01));
}

/// A condition listed with or without a label.
fn listed(number: u8, label: u8) -> ListedCondition {
    ListedCondition { number, label }
}

#[test]
fn listed_conditions_are_judged(rt: HostRuntime) {
    let pgmiderr = listed(27, 0x80);
    let error = listed(1, 0);
    let normal = listed(0, 0);
    for (command, list, legal) in [
        (Command::HandleCondition, [pgmiderr, error].as_slice(), true),
        (
            Command::IgnoreCondition,
            [pgmiderr, error].as_slice(),
            false,
        ),
        (Command::IgnoreCondition, [error].as_slice(), true),
        (Command::HandleCondition, [error, error].as_slice(), false),
        (Command::HandleCondition, [normal].as_slice(), false),
    ] {
        assert!(rt; command.is_legal_list(list) == legal);
    }
}
