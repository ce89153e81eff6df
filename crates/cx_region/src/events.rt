//! Events, and runs of them.
ghost use Rattle.std.specs.Prelude.{◌≡◌, ◌≤◌, IfOk, IfErr, length};
ghost use Rattle.std.specs.List.{AllByRecursion};
ghost use Rattle.cx_region.specs.Events.{Applies, IsAllowed, IsDone, MayTakeMemory, Run, RunStopped};
ghost use Rattle.cx_region.specs.Sound.{IsSound};

use crate::replies::{DefineFault, Event, Reply, RunStop};
use crate::state::Region;
use cx_storage::Store;
use std::alloc::AllocError;

impl<S: Store + Drop> Region<S> {
    /// Does one event: the call that it names. What that call takes is asked of it: a clock as for `set_clock`, at most
    /// 1,920 bytes of a key, a register as for `alter`. A refusal of the call is its reply.
    ///
    /// An error comes only where an allocation failed, no refusal is due, and the event may take memory. Then all is as
    /// before. A clock and an alteration never take any.
    #[tactic(auto, using(crate::proofs::EventLemmas::transaction_memory, crate::proofs::EventLemmas::terminal_memory), unfolding(crate::specs::Events::Applies, crate::specs::Defining::DefinesTransaction, crate::specs::Defining::DefinesTerminal))]
    pub fn apply(&mut self, event: &Event) -> Result<Reply, AllocError>
        requires { IsAllowed event.now }
        ensures done { IsDone Applies MayTakeMemory self.old event.now result self.new }
        ensures sound { IsSound self.new }
    {
        match event {
            Event::Program(name, image) => match self.define_program(*name, image) {
                Err(DefineFault::Memory) => Err(AllocError),
                result => Ok(Reply::Program(result)),
            },
            Event::Transaction(name, program) => match self.define_transaction(*name, *program) {
                Err(DefineFault::Memory) => Err(AllocError),
                result => Ok(Reply::Transaction(result)),
            },
            Event::Terminal(name) => match self.define_terminal(*name) {
                Err(DefineFault::Memory) => Err(AllocError),
                result => Ok(Reply::Terminal(result)),
            },
            Event::Clock(time, date) => {
                self.set_clock(*time, *date);
                Ok(Reply::Clock)
            }
            Event::Key(name, aid, bytes) => {
                let reply = self.key(*name, *aid, bytes.as_slice())?;
                Ok(Reply::Key(reply))
            }
            Event::Turn(name) => {
                let reply = self.turn(*name)?;
                Ok(Reply::Turn(reply))
            }
            Event::Alter(name, change) => Ok(Reply::Alter(self.alter(*name, *change))),
        }
    }
}

impl<S: Store + Drop> Region<S> {
    /// Does events in order, and answers their replies. What each call takes is asked of each event: a clock as for
    /// `set_clock`, at most 1,920 bytes of a key, a register as for `alter`.
    ///
    /// It stops where an allocation failed: in front of the first event, where there is no memory for the replies, else
    /// at an event that may take memory. The region is as the events done left it.
    pub fn run(&mut self, events: &[Event]) -> Result<Vec<Reply>, RunStop>
        requires { AllByRecursion IsAllowed events.now }
        ensures ok { IfOk result (λ replies. Run self.old events.now replies.items self.new) }
        ensures stopped { IfErr result (λ stop. RunStopped Run MayTakeMemory self.old events.now stop.done self.new) }
        ensures sound { IsSound self.new }
    {
        let Ok(mut replies) = Vec::with_capacity(self.alloc, events.len()) else {
            return Err(RunStop { done: 0 });
        };
        for (i, event) in events.iter().enumerate() {
            let Ok(reply) = self.apply(event) else {
                return Err(RunStop { done: i });
            };
            replies.push_reserved(reply);
        }
        Ok(replies)
    }
}
