//! Argument lists and EIBs as they are in storage.
ghost use Rattle.std.specs.Prelude.{◌≤◌, ◌<◌, ◌^◌, length};

use cx_base::{Command, ListedCondition, OptionName};
use cx_region_state::eib::put_calen;
use cx_region_state::{Call, CallFault, read_call};
use cx_storage::{FlatStore, Kind, Owner, Store, address_in, halfword_at};
use std::alloc::{AllocError, Global};

/// What a call is: its command, option byte 1, the places of its arguments, RESP's, whether NOHANDLE is there, and the
/// conditions that it lists.
#[derive(Clone, Copy)]
pub struct Due {
    pub command: Command,
    pub first: u8,
    pub places: &'static [u32],
    pub resp: Option<u32>,
    pub nohandle: bool,
    pub conditions: &'static [ListedCondition],
}

/// RETURN without options.
const RETURN: Due = Due {
    command: Command::Return,
    first: 0,
    places: &[],
    resp: None,
    nohandle: false,
    conditions: &[],
};

/// A call that a list is, with some options, each with whether it is there and where its argument is; or the fault of
/// the list.
#[derive(Clone, Copy)]
enum List {
    Is(Due, &'static [(OptionName, bool, Option<u32>)]),
    Isnt(CallFault),
}

use List::*;

/// Where the list of most rows is: in an area of 64 bytes, which are zero but for what is written.
const LIST: u32 = 0x01_0000;

const XARG: List = Isnt(CallFault::Xarg);

const XFUN: List = Isnt(CallFault::Xfun);

/// Cases: what is written, with its addresses; where the list is; and what it is.
#[rattlefmt::skip]
const CASES: &[(&str, &[(u32, &[u8])], u32, List)] = &[
    (
        "RETURN without options",
        &[(0x01_0018, &[0x80, 0x01, 0x00, 0x1C, 0x0E, 0x08, 0, 0])],
        0x01_0018,
        Is(RETURN, &[(OptionName::Transid, false, None)]),
    ),
    (
        "LINK PROGRAM COMMAREA LENGTH NOHANDLE RESP",
        &[
            (LIST, &[0x00, 0x01, 0x00, 0x20, 0x00, 0x01, 0x00, 0x30, 0x00, 0x20, 0x00, 0x00, 0x7F, 0x20, 0x00, 0x08]),
            (LIST + 16, &[0x80, 0x20, 0x00, 0x10]),
            (LIST + 32, &[0x0E, 0x02, 0xE0, 0xC0]),
        ],
        LIST,
        Is(
            Due {
                command: Command::Link,
                first: 0xE0,
                places: &[0x01_0030, 0x20_0000, 0x20_0008, 0x20_0010],
                resp: Some(0x20_0010),
                nohandle: true,
                ..RETURN
            },
            &[
                (OptionName::Program, true, Some(0x01_0030)),
                (OptionName::Commarea, true, Some(0x20_0000)),
                (OptionName::Length, true, Some(0x20_0008)),
            ],
        ),
    ),
    (
        "READQ TS QUEUE INTO LENGTH NEXT",
        &[
            (LIST, &[0x00, 0x01, 0x00, 0x10, 0x00, 0x20, 0x00, 0x00, 0x00, 0x20, 0x00, 0x10, 0x80, 0x20, 0x00, 0x20]),
            (LIST + 16, &[0x0A, 0x04, 0xE8, 0x00]),
        ],
        LIST,
        Is(
            Due {
                command: Command::ReadqTs,
                first: 0xE8,
                places: &[0x20_0000, 0x20_0010, 0x20_0020],
                ..RETURN
            },
            &[
                (OptionName::Next, true, None),
                (OptionName::Item, false, None),
                (OptionName::Length, true, Some(0x20_0020)),
            ],
        ),
    ),
    (
        "HANDLE CONDITION PGMIDERR(label) ERROR, with RESP",
        &[
            (LIST, &[0x00, 0x01, 0x00, 0x0C, 0x00, 0x01, 0x23, 0x45, 0x80, 0x20, 0x00, 0x10]),
            (LIST + 12, &[0x02, 0x04, 0x02, 0x40, 27, 0x80, 1, 0]),
        ],
        LIST,
        Is(
            Due {
                command: Command::HandleCondition,
                first: 2,
                places: &[0x01_2345, 0x20_0010],
                resp: Some(0x20_0010),
                conditions: &[
                    ListedCondition { number: 27, label: 0x80 },
                    ListedCondition { number: 1, label: 0 },
                ],
                ..RETURN
            },
            &[],
        ),
    ),
    ("RETURN", &[(LIST, &[0x80, 1, 0, 8, 0, 0, 0, 0, 0x0E, 0x08, 0, 0])], LIST, Is(RETURN, &[])),
    (
        "RETURN TRANSID",
        &[(LIST, &[0, 1, 0, 8, 0x80, 1, 0, 0, 0x0E, 0x08, 0x80, 0])],
        LIST,
        Is(Due { first: 0x80, places: &[0x01_0000], ..RETURN }, &[(OptionName::Transid, true, Some(0x01_0000))]),
    ),
    (
        "IGNORE CONDITION ERROR",
        &[(LIST, &[0x80, 1, 0, 8, 0, 0, 0, 0, 0x02, 0x0A, 1, 0, 1, 0, 0, 0])],
        LIST,
        Is(
            Due {
                command: Command::IgnoreCondition,
                first: 1,
                conditions: &[ListedCondition { number: 1, label: 0 }],
                ..RETURN
            },
            &[],
        ),
    ),
    ("a block past the area", &[(LIST, &[0x80, 1, 0, 64])], LIST, XARG),
    ("a block in part past the area", &[(LIST, &[0x80, 1, 0, 62])], LIST, XARG),
    ("no high bit", &[(LIST, &[0, 1, 0, 8, 0, 0, 0, 0, 0x0E, 0x08, 0, 0])], LIST, XARG),
    ("two high bits", &[(LIST, &[0x80, 1, 0, 8, 0x80, 1, 0, 0, 0x0E, 0x08, 0x80, 0])], LIST, XARG),
    ("the high bit on word 0 of two", &[(LIST, &[0x80, 1, 0, 8, 0, 1, 0, 0, 0x0E, 0x08, 0x80, 0])], LIST, XARG),
    ("an unknown function", &[(LIST, &[0x80, 1, 0, 8, 0, 0, 0, 0, 0x0E, 0xFF, 0, 0])], LIST, XFUN),
    ("COMMAREA without LENGTH", &[(LIST, &[0x80, 1, 0, 8, 0, 0, 0, 0, 0x0E, 0x08, 0x40, 0])], LIST, XFUN),
    ("an unknown bit of option byte 2", &[(LIST, &[0x80, 1, 0, 8, 0, 0, 0, 0, 0x0E, 0x08, 0, 1])], LIST, XFUN),
    ("no condition", &[(LIST, &[0x80, 1, 0, 8, 0, 0, 0, 0, 0x02, 0x04, 0, 0])], LIST, XFUN),
    ("seventeen conditions", &[(LIST, &[0x80, 1, 0, 8, 0, 0, 0, 0, 0x02, 0x04, 17, 0])], LIST, XFUN),
    ("a condition twice", &[(LIST, &[0x80, 1, 0, 8, 0, 0, 0, 0, 0x02, 0x04, 2, 0, 1, 0, 1, 0])], LIST, XFUN),
    ("an unknown condition", &[(LIST, &[0x80, 1, 0, 8, 0, 0, 0, 0, 0x02, 0x04, 1, 0, 2, 0, 0, 0])], LIST, XFUN),
    ("a second byte of 40", &[(LIST, &[0x80, 1, 0, 8, 0, 0, 0, 0, 0x02, 0x04, 1, 0, 1, 0x40, 0, 0])], LIST, XFUN),
    ("IGNORE CONDITION with a label", &[(LIST, &[0x80, 1, 0, 8, 0, 0, 0, 0, 0x02, 0x0A, 1, 0, 1, 0x80, 0, 0])], LIST, XFUN),
    ("a list in no area", &[], 0x02_0000, XARG),
    ("two conditions in no area", &[(LIST, &[0x80, 1, 0, 0x3C]), (LIST + 0x3C, &[0x02, 0x04, 2, 0])], LIST, XARG),
    // an unlawful count comes first
    ("seventeen conditions in no area", &[(LIST, &[0x80, 1, 0, 0x3C]), (LIST + 0x3C, &[0x02, 0x04, 17, 0])], LIST, XFUN),
    (
        "RETURN TRANSID whose second word is in no area",
        &[(LIST + 0x20, &[0x0E, 0x08, 0x80, 0]), (LIST + 0x3C, &[0x00, 0x01, 0x00, 0x20])],
        LIST + 0x3C,
        XARG,
    ),
    (
        "a list that goes on at address 0",
        &[
            (0xFF_FFFC, &[0x00, 0xFF, 0xFF, 0xF0, 0x80, 0x12, 0x34, 0x56]),
            (0xFF_FFF0, &[0x0A, 0x06, 0x80, 0x00]),
        ],
        0xFF_FFFC,
        Is(Due { command: Command::DeleteqTs, first: 0x80, places: &[0x12_3456], ..RETURN }, &[]),
    ),
];

/// Where the areas belong: to the region.
const REGION: Owner = Owner {
    slot: 0,
    kind: Kind::Fixed,
};

/// A store with an area of 64 bytes at X'010000', and one of 16 on each side of address 0.
fn areas(alloc: Global) -> Result<FlatStore, AllocError> {
    let mut store = FlatStore::new(alloc);
    store.get_area(LIST, LIST + 63, 64, REGION)?;
    store.get_area(0xFF_FFF0, 0xFF_FFFF, 16, REGION)?;
    store.get_area(0, 15, 16, REGION)?;
    Ok(store)
}

// The calls without what their contracts ensure: a test looks at what they answer.

/// Whether bytes, 64 at most, are written from an address on.
pub fn is_written(store: &mut FlatStore, address: u32, bytes: &[u8]) -> bool {
    bytes.len() <= 64 && store.write(address_in(address), bytes)
}

/// The call whose list is at an address, or why it can't be read.
pub fn call_at(store: &FlatStore, address: u32) -> Result<Call, CallFault> {
    read_call(store, address_in(address))
}

/// Whether a call is the one that is due.
pub fn is_due(call: &Call, due: &Due) -> bool {
    call.command() == due.command
        && call.first() == due.first
        && call.places() == due.places
        && call.resp() == due.resp
        && call.has_nohandle() == due.nohandle
        && call.conditions() == due.conditions
}

/// Whether options are in a call, or aren't, and their arguments are at these places.
pub fn has_options(call: &Call, options: &[(OptionName, bool, Option<u32>)]) -> bool {
    for &(name, is_there, place) in options {
        if call.has(name) != is_there || call.place(name) != place {
            return false;
        }
    }
    true
}

/// Whether all is written.
fn are_written(store: &mut FlatStore, texts: &[(u32, &[u8])]) -> bool {
    for &(address, bytes) in texts {
        if !is_written(store, address, bytes) {
            return false;
        }
    }
    true
}

/// Whether the list at an address is what it should be.
fn is_read(store: &FlatStore, address: u32, list: &List) -> bool {
    match call_at(store, address) {
        Ok(call) => match list {
            Is(due, options) => is_due(&call, due) && has_options(&call, options),
            Isnt(_) => false,
        },
        Err(found) => match list {
            Is(..) => false,
            Isnt(fault) => found == *fault,
        },
    }
}

/// Whether all is written in an empty store, and the list at an address is then what it should be.
fn is_list(alloc: Global, texts: &[(u32, &[u8])], address: u32, list: &List) -> bool {
    match areas(alloc) {
        Ok(mut store) => are_written(&mut store, texts) && is_read(&store, address, list),
        Err(_) => false,
    }
}

#[test]
fn lists_are_read(rt: HostRuntime) {
    for &(case, texts, address, list) in CASES {
        assert!(rt; is_list(rt.alloc(), texts, address, &list), "{case}");
    }
}

/// EIBCALEN in an EIB of zeros, once it was written.
fn calen_of(alloc: Global, calen: Option<u16>) -> Result<Option<u16>, AllocError> {
    let mut store = areas(alloc)?;
    put_calen(&mut store, LIST, calen);
    Ok(halfword_at(&store, LIST + 24))
}

#[test]
fn eibcalen_is_written_where_it_is_given(rt: HostRuntime) {
    assert!(rt; calen_of(rt.alloc(), Some(0x0102)) == Ok(Some(0x0102)));
    assert!(rt; calen_of(rt.alloc(), None) == Ok(Some(0)));
}
