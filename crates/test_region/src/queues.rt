//! Queues by rows worked by hand: calls, and what each is answered; and queues made anew, which are equal until one
//! changes.
use cx_base::{Replica, Same};
use cx_ebcdic::Name8;
use cx_service::{Queues, Reading, ServiceFault};
use std::alloc::{AllocError, Global};

type Answer<T> = Result<T, ServiceFault>;

/// What is written.
#[derive(Clone, Copy)]
enum Item {
    /// These bytes.
    Bytes(&'static [u8]),
    /// So many bytes of 07.
    Sevens(usize),
}

use Item::{Bytes, Sevens};

/// A call, and what it is answered. A queue has its name by a number; where none is given, the queue is `QUEUE`.
#[derive(Clone, Copy)]
enum Call {
    /// An item is written to a queue.
    Write(u16, Item, Answer<usize>),
    /// So many items of so many bytes are written.
    Fill(usize, usize),
    /// Two items are written to each of so many queues, its number and its number with 0 after it, and the first is
    /// read.
    Each(u16),
    /// An item of a queue is written anew.
    Rewrite(u16, usize, Item, Answer<()>),
    /// An item is read.
    Read(usize, Answer<()>),
    /// A queue's next item is read.
    ReadNext(u16, Answer<usize>),
    /// The queue is deleted.
    Delete(Answer<()>),
    /// An item of so many bytes is to be written.
    CanWrite(usize, Answer<()>),
    /// An item is to be written anew with so many bytes.
    CanRewrite(usize, usize, Answer<()>),
    /// What reading an item of a queue, or its next one, would answer.
    Reading(u16, Option<usize>, Answer<Reading>),
    /// How many items the queue has, and which was read last.
    Counts(Option<(usize, usize)>),
    /// How many items a queue has.
    Items(u16, Option<usize>),
    /// An item of a queue is this, and is read with its length.
    Holds(u16, usize, Item),
}

use Call::*;

/// The queue that most rows are of.
const QUEUE: u16 = 0xC1;

/// A queue that none was written to.
const OTHER: u16 = 0xC2;

const LENGERR: ServiceFault = ServiceFault::Lengerr;

const ITEMERR: ServiceFault = ServiceFault::Itemerr;

const NOSPACE: ServiceFault = ServiceFault::Nospace;

const QIDERR: ServiceFault = ServiceFault::Qiderr;

/// Calls of queues, of which there are none at first.
#[rattlefmt::skip]
const CALLS: &[(&str, &[Call])] = &[
    ("items are read in turn", &[
        Write(QUEUE, Bytes(&[0x11]), Ok(1)),
        Write(QUEUE, Bytes(&[0x22]), Ok(2)),
        Write(QUEUE, Bytes(&[0x33]), Ok(3)),
        Counts(Some((3, 0))),
        ReadNext(QUEUE, Ok(1)),
        Counts(Some((3, 1))),
        ReadNext(QUEUE, Ok(2)),
        Counts(Some((3, 2))),
        ReadNext(QUEUE, Ok(3)),
        Counts(Some((3, 3))),
        ReadNext(QUEUE, Err(ITEMERR)),
        Read(0, Err(ITEMERR)),
        Read(1, Ok(())),
        Holds(QUEUE, 1, Bytes(&[0x11])),
        ReadNext(QUEUE, Ok(2)),
        Read(4, Err(ITEMERR)),
    ]),
    ("an item is read with its numbers", &[
        Write(QUEUE, Bytes(&[0x11]), Ok(1)),
        Write(QUEUE, Bytes(&[0x22, 0x22, 0x22]), Ok(2)),
        Reading(QUEUE, Some(2), Ok(cx_service::Reading { number: 2, len: 3, count: 2 })),
        Read(2, Ok(())),
        Reading(QUEUE, None, Err(ITEMERR)),
        Reading(OTHER, None, Err(QIDERR)),
    ]),
    ("a deleted queue begins anew", &[
        Write(QUEUE, Bytes(&[0x11]), Ok(1)),
        Write(QUEUE, Bytes(&[0x22]), Ok(2)),
        Delete(Ok(())),
        Delete(Err(QIDERR)),
        ReadNext(QUEUE, Err(QIDERR)),
        Write(QUEUE, Bytes(&[0x44]), Ok(1)),
        Counts(Some((1, 0))),
    ]),
    ("items are rewritten", &[
        Write(QUEUE, Bytes(&[0xF1]), Ok(1)),
        Write(QUEUE, Bytes(&[0xF2]), Ok(2)),
        ReadNext(QUEUE, Ok(1)),
        CanRewrite(2, 3, Ok(())),
        Rewrite(QUEUE, 2, Bytes(&[0xD5, 0xC5, 0xE6]), Ok(())),
        ReadNext(QUEUE, Ok(2)),
        Holds(QUEUE, 2, Bytes(&[0xD5, 0xC5, 0xE6])),
        Counts(Some((2, 2))),
        Write(QUEUE, Bytes(&[0xF3]), Ok(3)),
    ]),
    ("items that are none are refused", &[
        Write(QUEUE, Bytes(&[0xF1]), Ok(1)),
        Write(QUEUE, Bytes(&[0xF2]), Ok(2)),
        Rewrite(QUEUE, 3, Bytes(&[1]), Err(ITEMERR)),
        Rewrite(OTHER, 1, Bytes(&[1]), Err(QIDERR)),
        Rewrite(QUEUE, 3, Bytes(&[]), Err(LENGERR)),
        Write(QUEUE, Bytes(&[]), Err(LENGERR)),
        Write(QUEUE, Sevens(32_768), Err(LENGERR)),
    ]),
    // 128 items of 32,767 bytes are 128 bytes fewer than four mebibytes
    ("all queues hold four mebibytes", &[
        Fill(128, 32_767),
        CanWrite(129, Err(NOSPACE)),
        Write(QUEUE, Sevens(129), Err(NOSPACE)),
        CanWrite(128, Ok(())),
        Write(QUEUE, Sevens(128), Ok(129)),
        Rewrite(QUEUE, 1, Sevens(32_767), Ok(())),
        Holds(QUEUE, 1, Sevens(32_767)),
    ]),
    ("a queue has at most 32,767 items", &[
        Fill(32_767, 1),
        Counts(Some((32_767, 0))),
        Write(QUEUE, Bytes(&[1]), Err(ITEMERR)),
    ]),
    ("there are at most 256 queues", &[
        Each(256),
        Write(256, Bytes(&[1]), Err(NOSPACE)),
        Write(1, Bytes(&[1]), Ok(3)),
    ]),
];

/// A call of queues or of the ones made anew from them, or whether the two are equal.
#[derive(Clone, Copy)]
enum Step {
    Of(Call),
    Anew(Call),
    Same(bool),
}

use Step::*;

/// Calls of queues before others are made anew from them, and what comes then.
#[rattlefmt::skip]
const ANEW: &[(&str, &[Call], &[Step])] = &[
    ("many queues are made anew", &[Each(255)], &[
        Same(true),
        Anew(Holds(254, 2, Bytes(&[254, 0]))),
        Anew(ReadNext(254, Ok(2))),
        Same(false),
        Of(ReadNext(254, Ok(2))),
        Same(true),
        Anew(Write(255, Bytes(&[1]), Ok(1))),
        Of(Items(255, None)),
        Of(Write(255, Bytes(&[2]), Ok(1))),
        Same(false),
        Anew(Rewrite(255, 1, Bytes(&[2]), Ok(()))),
        Same(true),
    ]),
    ("queues in another order are others", &[], &[
        Of(Write(1, Bytes(&[7]), Ok(1))),
        Of(Write(2, Bytes(&[7]), Ok(1))),
        Anew(Write(2, Bytes(&[7]), Ok(1))),
        Same(false),
        Anew(Write(1, Bytes(&[7]), Ok(1))),
        Same(false),
    ]),
];

/// The name of the queue with a number.
fn name(queue: u16) -> Name8 {
    let [high, low] = queue.to_be_bytes();
    Name8::from_bytes([high, low, 0x40, 0x40, 0x40, 0x40, 0x40, 0x40])
}

// The calls without what their contracts ensure: a test looks at what they answer.

fn copy(alloc: Global, bytes: &[u8]) -> Result<Vec<u8>, AllocError> {
    bytes.to_vec(alloc)
}

fn sevens(alloc: Global, count: usize) -> Result<Vec<u8>, AllocError> {
    vec![in alloc; 7; count]
}

fn bytes(alloc: Global, item: Item) -> Result<Vec<u8>, AllocError> {
    match item {
        Bytes(bytes) => copy(alloc, bytes),
        Sevens(count) => sevens(alloc, count),
    }
}

fn write(queues: &mut Queues, queue: u16, bytes: &[u8]) -> Answer<usize> {
    queues.write(name(queue), bytes)
}

fn write_item(alloc: Global, queues: &mut Queues, queue: u16, item: Item) -> Answer<usize> {
    let bytes = bytes(alloc, item)?;
    write(queues, queue, bytes.as_slice())
}

fn rewrite(
    alloc: Global,
    queues: &mut Queues,
    queue: u16,
    number: usize,
    item: Item,
) -> Answer<()> {
    let bytes = bytes(alloc, item)?;
    queues.rewrite(name(queue), number, bytes.as_slice())
}

fn read(queues: &mut Queues, number: usize) -> Answer<()> {
    queues.read(name(QUEUE), number)
}

fn read_next(queues: &mut Queues, queue: u16) -> Answer<usize> {
    queues.read_next(name(queue))
}

fn delete(queues: &mut Queues) -> Answer<()> {
    queues.delete(name(QUEUE))
}

fn can_write(queues: &Queues, size: usize) -> Answer<()> {
    queues.can_write(name(QUEUE), size)
}

fn can_rewrite(queues: &Queues, number: usize, size: usize) -> Answer<()> {
    queues.can_rewrite(name(QUEUE), number, size)
}

fn reading(queues: &Queues, queue: u16, number: Option<usize>) -> Answer<Reading> {
    queues.reading(name(queue), number)
}

/// The number of items, and that of the one read last.
fn counts(queues: &Queues) -> Option<(usize, usize)> {
    let queue = queues.all().get(&name(QUEUE))?;
    Some((queue.count(), queue.last_read()))
}

fn items(queues: &Queues, queue: u16) -> Option<usize> {
    queues.items(name(queue))
}

fn item_of(queues: &Queues, queue: u16, number: usize) -> Option<&[u8]> {
    queues.item(name(queue), number)
}

/// Whether an item is this, and is read with its length.
fn has(queues: &Queues, queue: u16, number: usize, item: &[u8]) -> bool {
    match reading(queues, queue, Some(number)) {
        Ok(read) => {
            item_of(queues, queue, number) == Some(item)
                && read.number == number
                && usize::from(read.len) == item.len()
        }
        Err(_) => false,
    }
}

fn holds(alloc: Global, queues: &Queues, queue: u16, number: usize, item: Item) -> bool {
    match bytes(alloc, item) {
        Ok(bytes) => has(queues, queue, number, bytes.as_slice()),
        Err(_) => false,
    }
}

/// Whether so many items of so many bytes are written.
fn fills(alloc: Global, queues: &mut Queues, count: usize, size: usize) -> bool {
    let Ok(bytes) = bytes(alloc, Sevens(size)) else {
        return false;
    };
    for _ in 0..count {
        if write(queues, QUEUE, bytes.as_slice()).is_err() {
            return false;
        }
    }
    true
}

/// Whether two items are written to a queue, of which the first is read.
fn begins(queues: &mut Queues, queue: u16) -> bool {
    let low = queue.to_be_bytes()[1];
    write(queues, queue, &[low]) == Ok(1)
        && write(queues, queue, &[low, 0]) == Ok(2)
        && read_next(queues, queue) == Ok(1)
}

/// Whether so many queues begin so.
fn begin(queues: &mut Queues, count: u16) -> bool {
    for queue in 0..count {
        if !begins(queues, queue) {
            return false;
        }
    }
    true
}

/// Whether a call is answered as it should be.
fn is_answered(alloc: Global, queues: &mut Queues, call: Call) -> bool {
    match call {
        Write(queue, item, answer) => write_item(alloc, queues, queue, item) == answer,
        Fill(count, size) => fills(alloc, queues, count, size),
        Each(count) => begin(queues, count),
        Rewrite(queue, number, item, answer) => {
            rewrite(alloc, queues, queue, number, item) == answer
        }
        Read(number, answer) => read(queues, number) == answer,
        ReadNext(queue, answer) => read_next(queues, queue) == answer,
        Delete(answer) => delete(queues) == answer,
        CanWrite(size, answer) => can_write(queues, size) == answer,
        CanRewrite(number, size, answer) => can_rewrite(queues, number, size) == answer,
        Reading(queue, number, answer) => reading(queues, queue, number) == answer,
        Counts(counted) => counts(queues) == counted,
        Items(queue, count) => items(queues, queue) == count,
        Holds(queue, number, item) => holds(alloc, queues, queue, number, item),
    }
}

/// How many calls are answered as they should be before the first that isn't.
fn answered(alloc: Global, queues: &mut Queues, calls: &[Call]) -> usize {
    for (number, call) in calls.iter().enumerate() {
        if !is_answered(alloc, queues, *call) {
            return number;
        }
    }
    calls.len()
}

/// Whether a step goes as it should.
fn goes(alloc: Global, queues: &mut Queues, anew: &mut Queues, step: Step) -> bool {
    match step {
        Of(call) => is_answered(alloc, queues, call),
        Anew(call) => is_answered(alloc, anew, call),
        Same(same) => anew.is_same(queues) == same,
    }
}

/// How many steps go as they should before the first that doesn't.
fn gone(alloc: Global, queues: &mut Queues, anew: &mut Queues, steps: &[Step]) -> usize {
    for (number, step) in steps.iter().enumerate() {
        if !goes(alloc, queues, anew, *step) {
            return number;
        }
    }
    steps.len()
}

// Without memory nothing goes as it should.

/// Whether all steps go as they should once queues are made anew.
fn go_anew(alloc: Global, queues: &mut Queues, steps: &[Step]) -> bool {
    match queues.replica(alloc) {
        Ok(mut anew) => gone(alloc, queues, &mut anew, steps) == steps.len(),
        Err(_) => false,
    }
}

/// Whether all calls are answered as they should be where there is no queue at first, and then, where there are steps,
/// all of them go so.
fn are_answered(alloc: Global, calls: &[Call], steps: &[Step]) -> bool {
    match Queues::new(alloc) {
        Ok(mut queues) => {
            answered(alloc, &mut queues, calls) == calls.len()
                && (steps.is_empty() || go_anew(alloc, &mut queues, steps))
        }
        Err(_) => false,
    }
}

/// The first case that has a call which isn't answered as it should be; empty where none has.
fn failing(alloc: Global) -> &'static str {
    for &(case, calls) in CALLS {
        if !are_answered(alloc, calls, &[]) {
            return case;
        }
    }
    for &(case, calls, steps) in ANEW {
        if !are_answered(alloc, calls, steps) {
            return case;
        }
    }
    ""
}

#[test]
fn calls_of_queues_are_answered(rt: HostRuntime) {
    let failing = failing(rt.alloc());
    assert!(rt; failing.is_empty(), "{failing}");
}
