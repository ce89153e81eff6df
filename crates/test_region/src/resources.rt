//! Resources by rows worked by hand: calls, and what each is answered; and resources made anew, which are equal until
//! one changes.
use cx_base::{Replica, Same};
use cx_service::{Enqueues, ResourceName, ServiceFault};
use std::alloc::Global;

type Answer = Result<(), ServiceFault>;

/// What a resource has its name by.
#[derive(Clone, Copy)]
enum Name {
    Bytes(&'static [u8]),
    Address(u32),
}

use Name::*;

/// A call, and what it is answered.
#[derive(Clone, Copy)]
enum Call {
    /// A task enqueues upon a resource.
    Enq(u8, Name, Answer),
    /// A task would enqueue upon a resource.
    CanEnq(u8, Name, Answer),
    /// A task dequeues from a resource.
    Deq(u8, Name),
    /// All resources of a task are released.
    Release(u8),
    /// Task 1 enqueues upon each address below this one.
    Each(u32),
    /// Task 1 enqueues so often upon a resource.
    Often(usize, Name),
    /// How often a resource is held; None where it isn't.
    Held(Name, Option<usize>),
}

use Call::*;

const AA: Name = Bytes(&[0xC1, 0xC1]);

const LENGERR: Answer = Err(ServiceFault::Lengerr);

const ENQBUSY: Answer = Err(ServiceFault::Enqbusy);

const INVREQ: Answer = Err(ServiceFault::Invreq);

/// Calls of resources, of which none is held at first.
#[rattlefmt::skip]
const CALLS: &[(&str, &[Call])] = &[
    ("resources are counted", &[
        Enq(1, AA, Ok(())),
        Enq(1, AA, Ok(())),
        Enq(2, AA, ENQBUSY),
        Deq(2, AA),
        Deq(1, AA),
        Held(AA, Some(1)),
        CanEnq(2, AA, ENQBUSY),
        Deq(1, AA),
        CanEnq(2, AA, Ok(())),
        Enq(2, AA, Ok(())),
        Release(2),
        Held(AA, None),
    ]),
    ("a name of bytes is no address", &[
        Enq(1, AA, Ok(())),
        Enq(2, Address(0xC1C1), Ok(())),
        Enq(1, Bytes(&[]), LENGERR),
        Enq(1, Bytes(&[0xC1; 256]), LENGERR),
        Enq(1, Bytes(&[0xC1; 255]), Ok(())),
    ]),
    ("at most 256 resources are held", &[
        Each(256),
        Enq(1, Address(256), ENQBUSY),
        Enq(1, Address(0), Ok(())),
    ]),
    ("a resource is held 65,535 times", &[
        Often(65_535, Address(0xC1C1)),
        Held(Address(0xC1C1), Some(65_535)),
        Enq(1, Address(0xC1C1), INVREQ),
    ]),
];

/// A call of resources or of the ones made anew from them, or whether the two are equal.
#[derive(Clone, Copy)]
enum Step {
    Of(Call),
    Anew(Call),
    Same(bool),
}

use Step::*;

/// A resource whose name are two zero bytes.
const ZEROS: Name = Bytes(&[0, 0]);

/// Task 1 holds 255 addresses and two zero bytes.
const BEFORE: &[Call] = &[Each(255), Enq(1, ZEROS, Ok(()))];

/// What comes once resources are made anew from those.
const ANEW: &[Step] = &[
    Same(true),
    Of(Deq(1, ZEROS)),
    Same(false),
    Anew(Deq(1, ZEROS)),
    Same(true),
    Of(Enq(1, ZEROS, Ok(()))),
    Anew(Enq(2, ZEROS, Ok(()))),
    Same(false),
];

// The calls without what their contracts ensure: a test looks at what they answer.

fn resource(name: Name) -> Result<ResourceName, ServiceFault> {
    match name {
        Bytes(bytes) => ResourceName::from_bytes(bytes),
        Address(address) => Ok(ResourceName::Address(address)),
    }
}

fn enq(resources: &mut Enqueues, task: u8, name: Name) -> Answer {
    resources.enq(task, &resource(name)?)
}

fn can_enq(resources: &Enqueues, task: u8, name: Name) -> Answer {
    resources.can_enq(task, &resource(name)?)
}

/// Whether a name is one, from which a task then dequeues.
fn deq(resources: &mut Enqueues, task: u8, name: Name) -> bool {
    let Ok(name) = resource(name) else {
        return false;
    };
    resources.deq(task, &name);
    true
}

fn held(resources: &Enqueues, name: Name) -> Option<usize> {
    let name = resource(name).ok()?;
    let hold = resources.hold(&name)?;
    Some(usize::from(hold.count))
}

/// Whether a task enqueues upon each address below this one.
fn holds_each(resources: &mut Enqueues, end: u32) -> bool {
    for address in 0..end {
        if enq(resources, 1, Address(address)).is_err() {
            return false;
        }
    }
    true
}

/// Whether a task enqueues so often upon a resource.
fn holds_often(resources: &mut Enqueues, times: usize, name: Name) -> bool {
    for _ in 0..times {
        if enq(resources, 1, name).is_err() {
            return false;
        }
    }
    true
}

/// Releases all resources of a task.
fn release(resources: &mut Enqueues, task: u8) -> bool {
    resources.release_all(task);
    true
}

/// Whether a call is answered as it should be.
fn is_answered(resources: &mut Enqueues, call: Call) -> bool {
    match call {
        Enq(task, name, answer) => enq(resources, task, name) == answer,
        CanEnq(task, name, answer) => can_enq(resources, task, name) == answer,
        Deq(task, name) => deq(resources, task, name),
        Release(task) => release(resources, task),
        Each(end) => holds_each(resources, end),
        Often(times, name) => holds_often(resources, times, name),
        Held(name, count) => held(resources, name) == count,
    }
}

/// How many calls are answered as they should be before the first that isn't.
fn answered(resources: &mut Enqueues, calls: &[Call]) -> usize {
    for (number, call) in calls.iter().enumerate() {
        if !is_answered(resources, *call) {
            return number;
        }
    }
    calls.len()
}

/// Whether a step goes as it should.
fn goes(resources: &mut Enqueues, anew: &mut Enqueues, step: Step) -> bool {
    match step {
        Of(call) => is_answered(resources, call),
        Anew(call) => is_answered(anew, call),
        Same(same) => anew.is_same(resources) == same,
    }
}

/// How many steps go as they should before the first that doesn't.
fn gone(resources: &mut Enqueues, anew: &mut Enqueues, steps: &[Step]) -> usize {
    for (number, step) in steps.iter().enumerate() {
        if !goes(resources, anew, *step) {
            return number;
        }
    }
    steps.len()
}

// Without memory nothing goes as it should.

/// Whether all calls are answered as they should be where none is held at first.
fn are_answered(alloc: Global, calls: &[Call]) -> bool {
    match Enqueues::new(alloc) {
        Ok(mut resources) => answered(&mut resources, calls) == calls.len(),
        Err(_) => false,
    }
}

/// Whether all steps go as they should once resources are made anew.
fn go_anew(alloc: Global, resources: &mut Enqueues, steps: &[Step]) -> bool {
    match resources.replica(alloc) {
        Ok(mut anew) => gone(resources, &mut anew, steps) == steps.len(),
        Err(_) => false,
    }
}

/// Whether all calls are answered as they should be, and then all steps go so.
fn are_made_anew(alloc: Global, calls: &[Call], steps: &[Step]) -> bool {
    match Enqueues::new(alloc) {
        Ok(mut resources) => {
            answered(&mut resources, calls) == calls.len() && go_anew(alloc, &mut resources, steps)
        }
        Err(_) => false,
    }
}

/// The first case that has a call which isn't answered as it should be; empty where none has.
fn failing(alloc: Global) -> &'static str {
    for &(case, calls) in CALLS {
        if !are_answered(alloc, calls) {
            return case;
        }
    }
    ""
}

#[test]
fn calls_of_resources_are_answered(rt: HostRuntime) {
    let failing = failing(rt.alloc());
    assert!(rt; failing.is_empty(), "{failing}");
}

#[test]
fn resources_are_made_anew(rt: HostRuntime) {
    assert!(rt; are_made_anew(rt.alloc(), BEFORE, ANEW));
}
