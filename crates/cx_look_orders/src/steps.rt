//! Steps: what each move of a list is.

ghost use Rattle.std.specs.Prelude.{◌≡◌, IfOk, None, get_or, option_map, slice_get};
ghost use Rattle.cx_look_orders.specs.Parts.Ways.{AreFirstSteps, AreStepsOf, IsStepBetween, IsTold, came_between};
ghost use Rattle.cx_orders.specs.Moves.{Moves, begun};
ghost use Rattle.cx_orders.specs.declared.states.OrdersState.{OrdersState as TheState};
ghost use Rattle.cx_region.specs.State.{RegionState as TheRegion};
ghost use Rattle.cx_region.specs.Turn.{TakesTurn};
ghost use Rattle.cx_region_state.specs.declared.replies.TurnReply.{TurnReply as TheReply};
ghost use Rattle.cx_search.specs.Finds.{Finds};
ghost use Rattle.cx_search.specs.Found.{IsAt};
ghost use Rattle.cx_search.specs.Moves.{Leads};

use cx_base::List;
use cx_ebcdic::Name4;
use cx_look_steps::{Seen, Step};
use cx_orders::{Orders, OrdersState, begin};
use cx_region::{Region, TurnReply};
use cx_region_laws::laws::calls_decide;
use cx_region_snapshot::RegionSnapshot;
use cx_search::{Found, Space};
use cx_storage::Store;
use std::alloc::{AllocError, Global};

/// How many keys of the terminal with that number came: none, where it has no count.
fn many_came(come: &[usize], number: usize) -> usize
    ensures { result ≡ get_or come.now number 0 }
{
    come.get(number).copied().unwrap_or(0)
}

/// How many keys of a terminal had come before one that came between, by how many of each terminal came before and
/// after; `None` where none did.
fn came_between(before: &[usize], after: &[usize], number: usize) -> Option<usize>
    ensures { result ≡ came_between before.now after.now number }
{
    let came = *before.get(number)?;
    if many_came(after, number) == came {
        None
    } else {
        Some(came)
    }
}

/// The name of the terminal with that number.
fn name_at<S: Store + Drop>(region: &Region<S>, number: usize) -> Option<Name4>
    ensures { result ≡ option_map (λ entry. entry.0) (slice_get region.now.terminals number) }
{
    let (name, _terminal) = region.terminals().get_index(number)?;
    Some(*name)
}

/// The reply of a turn of a terminal from a state.
///
/// An error comes only where memory was refused.
fn reply_from<S: Store + Drop>(
    work: &mut Region<S>,
    from: &OrdersState,
    name: Name4,
) -> Result<TurnReply, AllocError>
    ensures { IfOk result (λ reply. TakesTurn from.now.region name reply work.new) }
{
    from.region.restore(work)?;
    let reply = work.turn(name)?;
    Ok(reply)
}

/// What is told of a turn of a terminal from a state, by its reply.
///
/// An error comes only where memory was refused.
fn told_by<S: Store + Drop, V: Seen<S>>(
    alloc: Global,
    seen: &V,
    work: &mut Region<S>,
    from: &OrdersState,
    name: Name4,
    reply: TurnReply,
) -> Result<Option<List<u8>>, AllocError>
    ensures { IfOk result (λ told. told ≡ V.tells seen.now from.now.region name reply) }
{
    from.region.restore(work)?;
    let text = seen.told(alloc, work, name, reply)?;
    Ok(text)
}

/// What is told of a turn of a terminal from a state.
///
/// An error comes only where memory was refused.
fn told_of_turn<S: Store + Drop, V: Seen<S>>(
    alloc: Global,
    seen: &V,
    work: &mut Region<S>,
    from: &OrdersState,
    name: Name4,
) -> Result<Option<List<u8>>, AllocError>
    ensures { (reply : TheReply) (after : TheRegion) → TakesTurn from.now.region name reply after
        → IfOk result (λ told. told ≡ V.tells seen.now from.now.region name reply) }
{
    calls_decide();
    let reply = reply_from(work, from, name)?;
    told_by(alloc, seen, work, from, name, reply)
}

/// What is told of a turn of the terminal with that number from a state.
///
/// An error comes only where memory was refused.
fn told_at<S: Store + Drop, V: Seen<S>>(
    alloc: Global,
    seen: &V,
    work: &mut Region<S>,
    from: &OrdersState,
    number: usize,
) -> Result<Option<List<u8>>, AllocError>
    ensures { IfOk result (IsTold (V.tells seen.now) from.now number None) }
{
    from.region.restore(work)?;
    let Some(name) = name_at(work, number) else {
        return Ok(None);
    };
    let text = told_of_turn(alloc, seen, work, from, name)?;
    Ok(text)
}

/// What is told of a move from a state, of the terminal with that number: a turn, or its key before which so many came.
///
/// An error comes only where memory was refused.
fn told_of<S: Store + Drop, V: Seen<S>>(
    alloc: Global,
    seen: &V,
    work: &mut Region<S>,
    from: &OrdersState,
    number: usize,
    key: Option<usize>,
) -> Result<Option<List<u8>>, AllocError>
    ensures { IfOk result (IsTold (V.tells seen.now) from.now number key) }
{
    if key.is_some() {
        return Ok(None);
    }
    let text = told_at(alloc, seen, work, from, number)?;
    Ok(text)
}

/// The step of a move that led from a state to a state.
///
/// An error comes only where memory was refused.
fn step_of<S: Store + Drop, V: Seen<S>>(
    alloc: Global,
    seen: &V,
    work: &mut Region<S>,
    from: &OrdersState,
    number: usize,
    to: &OrdersState,
) -> Result<Step, AllocError>
    ensures { IfOk result (IsStepBetween (V.tells seen.now) from.now number to.now) }
{
    // The terminal's number: its turn has twice that, its next key one more.
    let terminal = number / 2;
    let key = came_between(from.come.as_slice(), to.come.as_slice(), terminal);
    let told = told_of(alloc, seen, work, from, terminal, key)?;
    Ok(Step {
        number: terminal,
        key,
        told,
    })
}

/// The steps of a list of moves from a state.
///
/// An error comes only where memory was refused.
fn steps_of<S: Store + Drop, V: Seen<S>>(
    orders: &Orders<S>,
    seen: &V,
    work: &mut Region<S>,
    start: OrdersState,
    moves: &[usize],
) -> Result<List<Step>, AllocError>
    ensures { (to : TheState) → Leads (Moves orders.now.keys) start moves.now to
        → IfOk result (AreStepsOf (V.tells seen.now) orders.now.keys start moves.now to) }
{
    let mut at = start;
    let mut steps = Vec::new(orders.alloc);
    for number in moves {
        let Some(to) = orders.go(work, &at, *number)? else {
            return Ok(List::from_vec(steps));
        };
        let step = step_of(orders.alloc, seen, work, &at, *number, &to)?;
        steps.push(step)?;
        at = to;
    }
    Ok(List::from_vec(steps))
}

/// The state of a region in which orders begin.
///
/// An error comes only where memory was refused.
fn begin_at<S: Store + Drop>(alloc: Global, region: &Region<S>) -> Result<OrdersState, AllocError>
    ensures { IfOk result (λ state. state ≡ begun region.now) }
{
    let snapshot = RegionSnapshot::take(alloc, region, None)?;
    begin(alloc, snapshot, region.terminals().len())
}

/// The steps that lead first to the state at a place of those that were found, from that of the region.
///
/// An error comes only where memory was refused.
pub(crate) fn steps_to<S: Store + Drop, V: Seen<S>>(
    region: &Region<S>,
    orders: &Orders<S>,
    found: &Found<Orders<S>>,
    seen: &V,
    work: &mut Region<S>,
    place: usize,
) -> Result<List<Step>, AllocError>
    ensures { (state : TheState) → Finds (Moves orders.now.keys) (begun region.now) found.now.states.entries
        → IsAt found.now.states.entries place state
        → IfOk result (AreFirstSteps (V.tells seen.now) orders.now.keys (begun region.now) state) }
{
    let moves = found.path(place, orders.alloc)?;
    let start = begin_at(orders.alloc, region)?;
    steps_of(orders, seen, work, start, moves.as_slice())
}
