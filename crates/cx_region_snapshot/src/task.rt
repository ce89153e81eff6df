//! A task, kept apart from its region.
ghost use Rattle.std.specs.Prelude.{◌≡◌, ◌↔◌, IsTrue, IfOk};
ghost use Rattle.cx_base.specs.Hash.{hash_with, hash_of};

use cx_base::{Same, hash_of_words, hash_with};
use cx_ebcdic::Name4;
use cx_exec::Cpu;
use cx_program::LevelsSnapshot;
use cx_region::Task;
use std::alloc::{AllocError, Global};
use std::marker::Model;

/// All that is kept of a task, its levels in as much memory as they need.
#[derive(Drop)]
pub struct TaskSnapshot {
    tran: Name4,
    number: u32,
    eib: u32,
    levels: LevelsSnapshot,
    cpu: Cpu,
    due: bool,
}

impl Model for TaskSnapshot {
    ghost use Rattle.std.specs.Prelude.{◌<◌, ◌^◌};
    ghost use Rattle.cx_region_state.specs.State.{TaskState};

    ghost Value = { TaskState };

    ghost view = { λ task.
        record {
          tran = task.tran;
          number = task.number;
          eib = task.eib;
          levels = task.levels;
          regs = task.cpu.regs;
          cc = task.cpu.cc;
          next = task.cpu.next;
          due = task.due;
        } };

    ghost invariant = { λ task. task.eib < 2 ^ 24 };
}

/// The same registers, condition code and next address.
fn same_cpu(cpu: &Cpu) -> Cpu
    ensures { result ≡ cpu.now }
{
    Cpu {
        regs: cpu.regs,
        cc: cpu.cc,
        next: cpu.next,
    }
}

impl TaskSnapshot {
    /// A task, kept apart.
    pub(crate) fn take(alloc: Global, task: &Task) -> Result<TaskSnapshot, AllocError>
        ensures { IfOk result (λ snapshot. snapshot ≡ task.now) }
    {
        let levels = LevelsSnapshot::take(alloc, &task.levels)?;
        Ok(TaskSnapshot {
            tran: task.tran,
            number: task.number,
            eib: task.eib,
            levels,
            cpu: same_cpu(&task.cpu),
            due: task.due,
        })
    }

    /// A task that is this one.
    pub(crate) fn task(&self, alloc: Global) -> Result<Task, AllocError>
        ensures { IfOk result (λ task. task ≡ self.now) }
    {
        let levels = Box::new(alloc, self.levels.levels())?;
        Ok(Task {
            tran: self.tran,
            number: self.number,
            eib: self.eib,
            levels,
            cpu: same_cpu(&self.cpu),
            due: self.due,
        })
    }

    /// Gives a task this state. It takes no memory.
    pub(crate) fn put_over(&self, task: &mut Task)
        ensures { task.new ≡ self.now }
    {
        task.tran = self.tran;
        task.number = self.number;
        task.eib = self.eib;
        self.levels.put_over(&mut task.levels);
        task.cpu = same_cpu(&self.cpu);
        task.due = self.due;
    }

    /// The hash with its registers and next address.
    pub(crate) fn hash(&self, before: u64) -> u64
        ensures { result ≡ hash_with (hash_of before self.now.regs) self.now.next }
    {
        hash_with(
            hash_of_words(before, &self.cpu.regs),
            u64::from(self.cpu.next),
        )
    }
}

impl Same for TaskSnapshot {
    fn is_same(&self, other: &Self) -> bool {
        self.tran.is_same(&other.tran)
            && self.number == other.number
            && self.eib == other.eib
            && self.cpu.regs.as_slice() == other.cpu.regs.as_slice()
            && self.cpu.cc == other.cpu.cc
            && self.cpu.next == other.cpu.next
            && self.due == other.due
            && self.levels.is_same(&other.levels)
    }
}
