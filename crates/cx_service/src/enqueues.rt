//! Enqueued resources.
ghost use Rattle.std.specs.Prelude.{◌≡◌, ◌==◌, [], not, Some, None, IfOk, OnOk, OnErr, IsErrOf, IsOkUnless, MatchOption};
ghost use Rattle.std.specs.Result.{result_err};
ghost use Rattle.std.specs.List.{IsDistinct};
ghost use Rattle.std.specs.Map.{keys_of, set_value};
ghost use Rattle.indexmap.specs.IndexMap.{insert_entry};
ghost use Rattle.cx_service.specs.declared.resources.Hold.{Hold};
ghost use Rattle.cx_service.specs.Resources.{is_resource, hold_of, count_at, hold_fault, enq_fault, enqueue, dequeue, without_owner, AreSoundResources};

use crate::faults::ServiceFault;
use crate::resources::{Hold, ResourceName};
use indexmap::IndexMap;
use std::alloc::{AllocError, Global};
use std::marker::Model;

/// The most resources that are owned at a time.
const MOST_RESOURCES: usize = 256;

/// The resources that tasks have enqueued upon: at most 256. Each has one owner, with a count of 1 to 65,535.
///
/// Application Programmer's Reference Manual, SC33-0077, "Task Control"; the limits are this product's.
#[derive(Drop)]
pub struct Enqueues {
    pub(crate) resources: IndexMap<ResourceName, Hold>,
}

impl Model for Enqueues {
    ghost use Rattle.cx_service.specs.Resources.{Resources, AreSoundResources};

    ghost Value = { Resources };

    ghost view = { λ all. all.resources.entries };

    ghost invariant = { λ all. AreSoundResources all.resources.entries };
}

impl Enqueues {
    /// No resource is owned yet.
    ///
    /// An error comes only where memory for the names was refused.
    pub fn new(alloc: Global) -> Result<Enqueues, AllocError>
        ensures empty { IfOk result (λ enqueues. enqueues ≡ []) }
        ensures sound { IfOk result AreSoundResources }
    {
        let resources = IndexMap::with_capacity(alloc, MOST_RESOURCES)?;
        Ok(Enqueues { resources })
    }

    /// All resources that are owned, each with its owner and count, the first enqueued upon first.
    pub fn all(&self) -> &IndexMap<ResourceName, Hold>
        ensures resources { result.now.entries ≡ self.now }
        ensures sound { AreSoundResources self.now }
    {
        &self.resources
    }

    /// Who holds a resource; None where it is free.
    pub fn hold(&self, name: &ResourceName) -> Option<Hold>
        ensures hold { result ≡ hold_of self.now name.now }
        ensures sound { AreSoundResources self.now }
    {
        self.resources.get(name).copied()
    }

    /// The condition that `enq` would meet, apart from Memory: Enqbusy where another task owns the resource, or it
    /// would be the 257th; Invreq where the owner's count is 65,535 (ENQ).
    #[tactic(auto, using(std::proofs::lemmas::Bool::Decides::nat_tests), unfolding(crate::specs::Resources::enq_fault))]
    pub fn can_enq(&self, slot: u8, name: &ResourceName) -> Result<(), ServiceFault>
        ensures { result_err result ≡ enq_fault self.now slot name.now }
    {
        let Some(hold) = self.hold(name) else {
            return self.can_begin();
        };
        if hold.owner != slot {
            return Err(ServiceFault::Enqbusy);
        }
        if hold.count == u16::MAX {
            return Err(ServiceFault::Invreq);
        }
        Ok(())
    }

    /// The condition that one more resource meets.
    fn can_begin(&self) -> Result<(), ServiceFault>
        ensures { result_err result ≡ hold_fault self.now 0 None }
    {
        if self.resources.len() >= MOST_RESOURCES {
            return Err(ServiceFault::Enqbusy);
        }
        Ok(())
    }

    /// How often the owner enqueued upon a resource; 0 where it is free.
    fn count(&self, name: &ResourceName) -> u16
        ensures { result ≡ count_at (hold_of self.now name.now) }
    {
        match self.hold(name) {
            Some(hold) => hold.count,
            None => 0,
        }
    }

    /// Makes an owner's count of a resource one more (ENQ). An owner is the position of a terminal, counted from 1.
    ///
    /// The conditions are those of `can_enq`, in that order, and then Memory. After any of them all is as before. The
    /// length of the name was tested when it was made.
    pub fn enq(&mut self, slot: u8, name: &ResourceName) -> Result<(), ServiceFault>
        ensures enqueued { OnOk result (self.new ≡ enqueue self.old slot name.now) }
        ensures conditions { MatchOption (enq_fault self.old slot name.now)
            (IsOkUnless result ServiceFault.Memory) (IsErrOf result) }
        ensures err { OnErr result (self.new ≡ self.old) }
        ensures sound { AreSoundResources self.new }
    {
        self.can_enq(slot, name)?;
        let count = self.count(name) + 1;
        put_hold(&mut self.resources, name, Hold { owner: slot, count })?;
        Ok(())
    }

    /// Makes an owner's count of a resource one less; at zero the resource is free. A resource of another owner, or of
    /// none, stays (DEQ).
    pub fn deq(&mut self, slot: u8, name: &ResourceName)
        ensures dequeued { self.new ≡ dequeue self.old slot name.now }
        ensures sound { AreSoundResources self.new }
    {
        take_off(&mut self.resources, slot, name);
    }

    /// Frees all resources of an owner, whatever their counts, as at the end of its task.
    pub fn release_all(&mut self, slot: u8)
        ensures released { self.new ≡ without_owner self.old slot }
        ensures sound { AreSoundResources self.new }
    {
        release(&mut self.resources, slot);
    }
}

/// Puts a hold under a name.
fn put_hold(
    resources: &mut IndexMap<ResourceName, Hold>,
    name: &ResourceName,
    hold: Hold,
) -> Result<(), AllocError>
    ensures put { OnOk result (resources.new.entries ≡ insert_entry is_resource resources.old.entries name.now hold) }
    ensures distinct { OnOk result (IsDistinct is_resource (keys_of resources.new.entries)) }
    ensures err { OnErr result (resources.new.entries ≡ resources.old.entries) }
{
    resources.insert(*name, hold)?;
    Ok(())
}

/// Makes an owner's count of a resource one less; at zero the resource is free.
#[tactic(auto, using(crate::proofs::ResourceSound::dequeued_none, crate::proofs::ResourceSound::dequeued_other, crate::proofs::ResourceSound::dequeued_last, crate::proofs::ResourceSound::dequeued_more))]
fn take_off(resources: &mut IndexMap<ResourceName, Hold>, slot: u8, name: &ResourceName)
    ensures { resources.new.entries ≡ dequeue resources.old.entries slot name.now }
{
    let hold = match resources.get(name) {
        Some(hold) => *hold,
        None => return,
    };
    if hold.owner != slot {
        return;
    }
    if hold.count == 1 {
        resources.shift_remove(name);
        return;
    }
    set_count(resources, name, hold.count.saturating_sub(1));
}

/// Sets the count of a resource that is held.
#[tactic(auto, using(cx_base::specs::Facts::Tables::set_value_absent))]
fn set_count(resources: &mut IndexMap<ResourceName, Hold>, name: &ResourceName, count: u16)
    ensures { (hold : Hold) → hold_of resources.old.entries name.now ≡ Some hold
        → resources.new.entries ≡ set_value (is_resource name.now) resources.old.entries
        (record hold { count = count }) }
{
    match resources.get_mut(name) {
        Some(hold) => hold.count = count,
        None => (),
    }
}

/// Frees the resources of an owner.
fn release(resources: &mut IndexMap<ResourceName, Hold>, slot: u8)
    ensures { resources.new.entries ≡ without_owner resources.old.entries slot }
{
    resources.retain(
        |_name: &ResourceName, hold: &mut Hold| -> bool
            ensures { (result ≡ not (hold.old.owner == slot)) × (hold.new ≡ hold.old) }
        { hold.owner != slot },
    );
}
