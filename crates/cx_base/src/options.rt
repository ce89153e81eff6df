//! The options of commands: names, marks, rules; and the lists of options and rules of each command that has some.
ghost use Rattle.std.specs.Prelude.{◌≡◌, ◌↔◌, Some};
ghost use Rattle.std.specs.List.{find};
ghost use Rattle.std.specs.Str.{bytes_eq};
ghost use Rattle.cx_base.specs.Arguments.{takes_argument};
ghost use Rattle.cx_base.specs.Legal.{has_bit};
ghost use Rattle.cx_base.specs.Options.{common_of, option_name};

use crate::legal::has_bit;

/// An option of a command that has a bit in option byte 1 of the argument list.
///
/// Application Programmer's Reference Manual, SC33-0077, the syntax of each command.
#[derive(Clone, Copy, PartialEq, Eq)]
pub enum OptionName {
    Abcode,
    Auxiliary,
    Cancel,
    Commarea,
    Cwa,
    Data,
    Erase,
    Freekb,
    From,
    Initimg,
    Into,
    Item,
    Label,
    Length,
    Main,
    Next,
    Nodump,
    Nosuspend,
    Numitems,
    Program,
    Queue,
    Reset,
    Resource,
    Rewrite,
    Set,
    Transid,
}

impl OptionName {
    /// All options, in the order of their names.
    pub const ALL: [OptionName; 26] = [
        OptionName::Abcode,
        OptionName::Auxiliary,
        OptionName::Cancel,
        OptionName::Commarea,
        OptionName::Cwa,
        OptionName::Data,
        OptionName::Erase,
        OptionName::Freekb,
        OptionName::From,
        OptionName::Initimg,
        OptionName::Into,
        OptionName::Item,
        OptionName::Label,
        OptionName::Length,
        OptionName::Main,
        OptionName::Next,
        OptionName::Nodump,
        OptionName::Nosuspend,
        OptionName::Numitems,
        OptionName::Program,
        OptionName::Queue,
        OptionName::Reset,
        OptionName::Resource,
        OptionName::Rewrite,
        OptionName::Set,
        OptionName::Transid,
    ];

    /// The option's name, as `COMMAREA`.
    pub fn name(self) -> &'static str
        ensures { result.now ≡ option_name self }
    {
        match self {
            OptionName::Abcode => "ABCODE",
            OptionName::Auxiliary => "AUXILIARY",
            OptionName::Cancel => "CANCEL",
            OptionName::Commarea => "COMMAREA",
            OptionName::Cwa => "CWA",
            OptionName::Data => "DATA",
            OptionName::Erase => "ERASE",
            OptionName::Freekb => "FREEKB",
            OptionName::From => "FROM",
            OptionName::Initimg => "INITIMG",
            OptionName::Into => "INTO",
            OptionName::Item => "ITEM",
            OptionName::Label => "LABEL",
            OptionName::Length => "LENGTH",
            OptionName::Main => "MAIN",
            OptionName::Next => "NEXT",
            OptionName::Nodump => "NODUMP",
            OptionName::Nosuspend => "NOSUSPEND",
            OptionName::Numitems => "NUMITEMS",
            OptionName::Program => "PROGRAM",
            OptionName::Queue => "QUEUE",
            OptionName::Reset => "RESET",
            OptionName::Resource => "RESOURCE",
            OptionName::Rewrite => "REWRITE",
            OptionName::Set => "SET",
            OptionName::Transid => "TRANSID",
        }
    }

    /// The option of that name, or None where no option has it.
    pub fn from_name(name: &str) -> Option<OptionName>
        ensures { (option : OptionName) → (result ≡ Some option) ↔ (option_name option ≡ name.now) }
    {
        OptionName::named(name.as_bytes())
    }

    /// The option of that name, as bytes of text, or None where no option has it.
    pub fn named(name: &[u8]) -> Option<OptionName>
        ensures { (option : OptionName) → (result ≡ Some option) ↔ (option_name option ≡ name.now) }
    {
        with_name(&OptionName::ALL, name)
    }
}

/// The first of some options that has a name.
fn with_name(options: &[OptionName], name: &[u8]) -> Option<OptionName>
    ensures { result ≡ find (λ option. bytes_eq (option_name option) name.now) options.now }
{
    options
        .iter()
        .copied()
        .find(|option| option.name().as_bytes() == name)
}

/// An option that every command may have. It has a bit in option byte 2 of the argument list.
///
/// Application Programmer's Reference Manual, SC33-0077, "Exceptional conditions". The bits are this product's own.
#[derive(Clone, Copy, PartialEq, Eq)]
pub enum CommonOption {
    /// NOHANDLE: what HANDLE and IGNORE CONDITION asked for isn't looked at. The program goes on after a condition, but
    /// waits at NOSPACE, NOSTG and ENQBUSY where NOSUSPEND isn't given.
    Nohandle,
    /// RESP: as NOHANDLE, and the condition's number is written into a fullword.
    Resp,
}

impl CommonOption {
    /// The option's name, as `NOHANDLE`.
    pub fn name(self) -> &'static str
        ensures { result.now ≡ (common_of self).name }
    {
        match self {
            CommonOption::Nohandle => "NOHANDLE",
            CommonOption::Resp => "RESP",
        }
    }

    /// Its bit in option byte 2: X'80' of NOHANDLE, X'40' of RESP.
    pub fn bit(self) -> u8
        ensures { result ≡ (common_of self).bit }
    {
        match self {
            CommonOption::Nohandle => 0x80,
            CommonOption::Resp => 0x40,
        }
    }

    /// Whether option byte 2 has its bit.
    pub fn is_in(self, second: u8) -> bool
        ensures { result ≡ has_bit second (common_of self).bit }
    {
        has_bit(second, self.bit())
    }

    /// Whether it has an argument, and so the last word of the argument list: RESP alone has.
    pub fn takes_argument(self) -> bool
        ensures { result ≡ (common_of self).has_argument }
    {
        matches!(self, CommonOption::Resp)
    }

    /// The option of that name, as bytes of text, or None where it is neither's name.
    pub fn named(name: &[u8]) -> Option<CommonOption>
        ensures { (option : CommonOption) → (result ≡ Some option) ↔ ((common_of option).name ≡ name.now) }
    {
        if name == b"NOHANDLE".as_slice() {
            Some(CommonOption::Nohandle)
        } else if name == b"RESP".as_slice() {
            Some(CommonOption::Resp)
        } else {
            None
        }
    }
}

/// What an option's argument is, and how the command uses the storage at its address.
#[derive(Clone, Copy, PartialEq, Eq)]
pub enum ArgumentKind {
    /// No argument.
    Flag,
    /// The address alone: nothing is read there.
    Address,
    /// Bytes that the command reads, as many as LENGTH says.
    BytesRead,
    /// Bytes that the command writes, at most as many as LENGTH says.
    BytesWritten,
    /// Bytes that the command reads where LENGTH is given with it, else the address alone: a resource's name.
    BytesOrAddress,
    /// One byte that the command reads.
    Byte,
    /// A name of four bytes that the command reads.
    Name4,
    /// A name of eight bytes that the command reads.
    Name8,
    /// A halfword that the command reads.
    Halfword,
    /// A halfword that the command reads and then writes.
    HalfwordBothWays,
    /// A halfword that the command reads and then writes, or only writes where SET is given with it.
    HalfwordBothWaysWithoutSet,
    /// A halfword that the command writes.
    HalfwordOut,
    /// A halfword that the command writes, or only reads where REWRITE is given with it.
    HalfwordOutWithoutRewrite,
    /// A fullword into which the command writes an address.
    Pointer,
}

impl ArgumentKind {
    /// Whether the option has an argument, and so a word in the argument list.
    pub fn takes_argument(self) -> bool
        ensures { result ≡ takes_argument self }
    {
        !matches!(self, ArgumentKind::Flag)
    }
}

/// An option in the row of a command.
#[derive(Clone, Copy)]
pub struct CommandOption {
    /// Its bit in option byte 1.
    pub bit: u8,
    /// Its name.
    pub name: OptionName,
    /// What its argument is.
    pub kind: ArgumentKind,
    /// Whether the command can't be without it.
    pub required: bool,
}

/// A rule of a command's legal sets of options. Options are named by their bits in option byte 1.
#[derive(Clone, Copy, PartialEq, Eq)]
pub enum Rule {
    /// Both or neither.
    Together(u8, u8),
    /// Not both.
    NotBoth(u8, u8),
    /// The first only where the second is.
    Needs(u8, u8),
    /// One of the two, and not both.
    OneOfTwo(u8, u8),
    /// One of the three, and no other of them.
    OneOfThree(u8, u8, u8),
}

#[rattlefmt::skip]
pub(crate) const ADDRESS: [CommandOption; 1] = [
    CommandOption { bit: 0x80, name: OptionName::Cwa, kind: ArgumentKind::Pointer, required: true },
];

#[rattlefmt::skip]
pub(crate) const RECEIVE: [CommandOption; 2] = [
    CommandOption { bit: 0x80, name: OptionName::Into, kind: ArgumentKind::BytesWritten, required: true },
    CommandOption { bit: 0x40, name: OptionName::Length, kind: ArgumentKind::HalfwordBothWays, required: true },
];

#[rattlefmt::skip]
pub(crate) const WRITEQ_TS: [CommandOption; 8] = [
    CommandOption { bit: 0x80, name: OptionName::Queue, kind: ArgumentKind::Name8, required: true },
    CommandOption { bit: 0x40, name: OptionName::From, kind: ArgumentKind::BytesRead, required: true },
    CommandOption { bit: 0x20, name: OptionName::Length, kind: ArgumentKind::Halfword, required: true },
    CommandOption { bit: 0x10, name: OptionName::Main, kind: ArgumentKind::Flag, required: false },
    CommandOption { bit: 0x08, name: OptionName::Auxiliary, kind: ArgumentKind::Flag, required: false },
    CommandOption { bit: 0x04, name: OptionName::Nosuspend, kind: ArgumentKind::Flag, required: false },
    CommandOption { bit: 0x02, name: OptionName::Item, kind: ArgumentKind::HalfwordOutWithoutRewrite, required: false },
    CommandOption { bit: 0x01, name: OptionName::Rewrite, kind: ArgumentKind::Flag, required: false },
];

#[rattlefmt::skip]
pub(crate) const READQ_TS: [CommandOption; 7] = [
    CommandOption { bit: 0x80, name: OptionName::Queue, kind: ArgumentKind::Name8, required: true },
    CommandOption { bit: 0x40, name: OptionName::Into, kind: ArgumentKind::BytesWritten, required: false },
    CommandOption { bit: 0x20, name: OptionName::Length, kind: ArgumentKind::HalfwordBothWaysWithoutSet, required: true },
    CommandOption { bit: 0x10, name: OptionName::Item, kind: ArgumentKind::Halfword, required: false },
    CommandOption { bit: 0x08, name: OptionName::Next, kind: ArgumentKind::Flag, required: false },
    CommandOption { bit: 0x04, name: OptionName::Set, kind: ArgumentKind::Pointer, required: false },
    CommandOption { bit: 0x02, name: OptionName::Numitems, kind: ArgumentKind::HalfwordOut, required: false },
];

#[rattlefmt::skip]
pub(crate) const DELETEQ_TS: [CommandOption; 1] = [
    CommandOption { bit: 0x80, name: OptionName::Queue, kind: ArgumentKind::Name8, required: true },
];

#[rattlefmt::skip]
pub(crate) const GETMAIN: [CommandOption; 4] = [
    CommandOption { bit: 0x80, name: OptionName::Set, kind: ArgumentKind::Pointer, required: true },
    CommandOption { bit: 0x40, name: OptionName::Length, kind: ArgumentKind::Halfword, required: true },
    CommandOption { bit: 0x20, name: OptionName::Initimg, kind: ArgumentKind::Byte, required: false },
    CommandOption { bit: 0x10, name: OptionName::Nosuspend, kind: ArgumentKind::Flag, required: false },
];

#[rattlefmt::skip]
pub(crate) const FREEMAIN: [CommandOption; 1] = [
    CommandOption { bit: 0x80, name: OptionName::Data, kind: ArgumentKind::Address, required: true },
];

#[rattlefmt::skip]
pub(crate) const LINK: [CommandOption; 3] = [
    CommandOption { bit: 0x80, name: OptionName::Program, kind: ArgumentKind::Name8, required: true },
    CommandOption { bit: 0x40, name: OptionName::Commarea, kind: ArgumentKind::Address, required: false },
    CommandOption { bit: 0x20, name: OptionName::Length, kind: ArgumentKind::Halfword, required: false },
];

#[rattlefmt::skip]
pub(crate) const XCTL: [CommandOption; 3] = [
    CommandOption { bit: 0x80, name: OptionName::Program, kind: ArgumentKind::Name8, required: true },
    CommandOption { bit: 0x40, name: OptionName::Commarea, kind: ArgumentKind::BytesRead, required: false },
    CommandOption { bit: 0x20, name: OptionName::Length, kind: ArgumentKind::Halfword, required: false },
];

#[rattlefmt::skip]
pub(crate) const RETURN: [CommandOption; 3] = [
    CommandOption { bit: 0x80, name: OptionName::Transid, kind: ArgumentKind::Name4, required: false },
    CommandOption { bit: 0x40, name: OptionName::Commarea, kind: ArgumentKind::BytesRead, required: false },
    CommandOption { bit: 0x20, name: OptionName::Length, kind: ArgumentKind::Halfword, required: false },
];

#[rattlefmt::skip]
pub(crate) const ABEND: [CommandOption; 3] = [
    CommandOption { bit: 0x80, name: OptionName::Abcode, kind: ArgumentKind::Name4, required: false },
    CommandOption { bit: 0x40, name: OptionName::Cancel, kind: ArgumentKind::Flag, required: false },
    CommandOption { bit: 0x20, name: OptionName::Nodump, kind: ArgumentKind::Flag, required: false },
];

#[rattlefmt::skip]
pub(crate) const HANDLE_ABEND: [CommandOption; 3] = [
    CommandOption { bit: 0x80, name: OptionName::Label, kind: ArgumentKind::Address, required: false },
    CommandOption { bit: 0x40, name: OptionName::Cancel, kind: ArgumentKind::Flag, required: false },
    CommandOption { bit: 0x20, name: OptionName::Reset, kind: ArgumentKind::Flag, required: false },
];

#[rattlefmt::skip]
pub(crate) const ENQ: [CommandOption; 3] = [
    CommandOption { bit: 0x80, name: OptionName::Resource, kind: ArgumentKind::BytesOrAddress, required: true },
    CommandOption { bit: 0x40, name: OptionName::Length, kind: ArgumentKind::Halfword, required: false },
    CommandOption { bit: 0x20, name: OptionName::Nosuspend, kind: ArgumentKind::Flag, required: false },
];

#[rattlefmt::skip]
pub(crate) const DEQ: [CommandOption; 2] = [
    CommandOption { bit: 0x80, name: OptionName::Resource, kind: ArgumentKind::BytesOrAddress, required: true },
    CommandOption { bit: 0x40, name: OptionName::Length, kind: ArgumentKind::Halfword, required: false },
];

#[rattlefmt::skip]
pub(crate) const SEND_TEXT: [CommandOption; 4] = [
    CommandOption { bit: 0x80, name: OptionName::From, kind: ArgumentKind::BytesRead, required: true },
    CommandOption { bit: 0x40, name: OptionName::Length, kind: ArgumentKind::Halfword, required: true },
    CommandOption { bit: 0x20, name: OptionName::Erase, kind: ArgumentKind::Flag, required: false },
    CommandOption { bit: 0x10, name: OptionName::Freekb, kind: ArgumentKind::Flag, required: false },
];

pub(crate) const WRITEQ_TS_RULES: [Rule; 2] = [Rule::NotBoth(0x10, 0x08), Rule::Needs(0x01, 0x02)];

pub(crate) const READQ_TS_RULES: [Rule; 2] = [
    Rule::OneOfTwo(0x40, 0x04),
    Rule::NotBoth(0x10, 0x08),
];

/// COMMAREA and LENGTH come together in LINK, XCTL and RETURN.
pub(crate) const COMMAREA_RULES: [Rule; 1] = [Rule::Together(0x40, 0x20)];

pub(crate) const HANDLE_ABEND_RULES: [Rule; 1] = [Rule::OneOfThree(0x80, 0x40, 0x20)];
