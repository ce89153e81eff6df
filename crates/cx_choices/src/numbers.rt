//! Numbers of tasks where each key begins with one number.

ghost use Rattle.std.specs.Prelude.{◌≡◌, ◌≤◌, length, unwrap_or};
ghost use Rattle.cx_choices.specs.Moves.{free_number, has_number, is_given, numbered};
ghost use Rattle.cx_region.specs.Attach.{next_number};

use cx_region::{Region, Terminal};
use cx_storage::Store;

/// The number of the task after this one.
fn next_number(number: u32) -> u32
    requires { number ≤ 9999999 }
    ensures is { result ≡ next_number number }
    ensures small { result ≤ 9999999 }
{
    if number == 9_999_999 { 1 } else { number + 1 }
}

/// Whether a terminal's task has the number.
fn has_number(terminal: &Terminal, number: u32) -> bool
    ensures { result ≡ has_number number terminal.now }
{
    match terminal.task() {
        Some(task) => task.number == number,
        None => false,
    }
}

/// Whether a task that there is has the number.
fn is_given<S: Store + Drop>(region: &Region<S>, number: u32) -> bool
    ensures { result ≡ is_given region.now.terminals number }
{
    for (_name, terminal) in region.terminals().iter() {
        if has_number(terminal, number) {
            return true;
        }
    }
    false
}

/// A number of the last task after which no task that there is has the next, counted on from that number.
#[tactic(auto, unfolding(crate::specs::Moves::free_number))]
fn free_number<S: Store + Drop>(region: &Region<S>, number: u32) -> u32
    requires { number ≤ 9999999 }
    ensures is { result ≡ free_number region.now.terminals (length region.now.terminals) number }
    ensures small { result ≤ 9999999 }
{
    let mut last = number;
    for _ in 0..region.terminals().len() {
        let next = next_number(last);
        if !is_given(region, next) {
            return last;
        }
        last = next;
    }
    last
}

/// Gives a region the number of its last task that keys begin with, where there is one to be given; all else stays.
pub(crate) fn renumber<S: Store + Drop>(region: &mut Region<S>, one_number: Option<u32>)
    requires { unwrap_or one_number 0 ≤ 9999999 }
    ensures { region.new ≡ numbered one_number region.old }
{
    if let Some(number) = one_number {
        let number = free_number(region, number);
        region.set_counter(number);
    }
}
