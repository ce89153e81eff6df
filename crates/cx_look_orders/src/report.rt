//! The report of ORDERS.

ghost use Rattle.std.specs.Prelude.{◌≡◌, ◌≤◌, ◌++◌, IfOk, MatchBool, MatchOption, None, OnOk, length};
ghost use Rattle.cx_look_orders.specs.Outcomes.{AllCanRest, AreOutcomes, HasStates, IsStuck, MayLoop};
ghost use Rattle.cx_look_orders.specs.Report.{OrdersText, cut_line, loop_lines, outcome_lines, number_line, outcomes_lines, stuck_line, when_words, whole_line};
ghost use Rattle.std.specs.Option.{option_copied};
ghost use Rattle.cx_orders.specs.Moves.{Moves, begun};
ghost use Rattle.cx_search.specs.Finds.{Finds, FindsNearest, IsWhole};

use crate::outcomes::{Outcome, Searched, outcomes_of};
use crate::steps::steps_to;
use cx_base::List;
use cx_ebcdic::Name4;
use cx_look_lines::{Report, decimal};
use cx_look_steps::{Seen, Step, script_lines};
use cx_orders::{KeyLine, Keys, Orders};
use cx_region::Region;
use cx_region_snapshot::RegionSnapshot;
use cx_search::Found;
use cx_search::laws::one_list_is_sooner;
use cx_storage::Store;
use std::alloc::AllocError;

/// When keys may come.
fn when_words(typed_ahead: bool) -> &'static [u8]
    ensures { result.now ≡ when_words typed_ahead }
{
    if typed_ahead {
        b"KEYS TYPED AHEAD"
    } else {
        b"KEYS WHEN ASKED"
    }
}

/// Adds the line with how many states and outcomes there are, and when keys may come, where there are some.
fn whole_line(
    report: &mut Report,
    keys: &Keys,
    states: usize,
    outcomes: usize,
) -> Result<(), AllocError>
    ensures { OnOk result (report.new ≡ report.old ++ whole_line keys.now states outcomes) }
{
    let states = decimal(report.alloc(), states)?;
    let outcomes = decimal(report.alloc(), outcomes)?;
    if keys.lines.as_slice().is_empty() {
        return report.line(&[
            b"ORDERS STATES",
            states.as_slice(),
            b"OUTCOMES",
            outcomes.as_slice(),
        ]);
    }
    report.line(&[
        b"ORDERS STATES",
        states.as_slice(),
        b"OUTCOMES",
        outcomes.as_slice(),
        when_words(keys.typed_ahead),
    ])
}

/// Adds the line that says that there are more states, and which lists of moves were tried: all of at most so many; and
/// when keys may come, where there are some.
fn cut_line(report: &mut Report, keys: &Keys, most: usize, moves: usize) -> Result<(), AllocError>
    ensures { OnOk result (report.new ≡ report.old ++ cut_line keys.now most moves) }
{
    let most = decimal(report.alloc(), most)?;
    let moves = decimal(report.alloc(), moves)?;
    if keys.lines.as_slice().is_empty() {
        return report.line(&[
            b"ORDERS MORE THAN",
            most.as_slice(),
            b"STATES, ALL OF",
            moves.as_slice(),
            b"MOVES",
        ]);
    }
    report.line(&[
        b"ORDERS MORE THAN",
        most.as_slice(),
        b"STATES, ALL OF",
        moves.as_slice(),
        b"MOVES",
        when_words(keys.typed_ahead),
    ])
}

/// Adds the line of an outcome's number.
#[tactic(auto, unfolding(crate::specs::Report::number_line))]
fn number_line(report: &mut Report, number: usize) -> Result<(), AllocError>
    ensures { OnOk result (report.new ≡ report.old ++ number_line number) }
{
    let number = decimal(report.alloc(), number)?;
    report.line(&[b"OUTCOME", number.as_slice()])
}

/// Adds what is to be seen of an outcome, and the script that ends with it.
#[tactic(auto, unfolding(crate::specs::Report::outcome_lines))]
fn outcome_lines<S: Store + Drop>(
    report: &mut Report,
    region: &Region<S>,
    keys: &[KeyLine],
    edf: &[Name4],
    one: &Outcome,
) -> Result<(), AllocError>
    ensures { OnOk result (report.new ≡ report.old ++ outcome_lines region.now keys.now edf.now one.now) }
{
    report.append(&one.text)?;
    script_lines(report, region, keys, edf, one.steps.as_slice())
}

/// Adds outcomes, numbered from 1.
#[tactic(auto, unfolding(crate::specs::Report::outcomes_lines))]
fn outcomes_lines<S: Store + Drop>(
    report: &mut Report,
    region: &Region<S>,
    keys: &[KeyLine],
    edf: &[Name4],
    outcomes: &[Outcome],
) -> Result<(), AllocError>
    ensures { OnOk result (report.new ≡ report.old ++ outcomes_lines region.now keys.now edf.now 1 outcomes.now) }
{
    for (i, one) in outcomes.iter().enumerate() {
        number_line(report, i + 1)?;
        outcome_lines(report, region, keys, edf, one)?;
    }
    Ok(())
}

/// The steps that lead first to a state that is come to again from itself; `None` where no list of moves is longer than
/// some number. After a whole search.
///
/// An error comes only where memory was refused.
fn loop_of<S: Store + Drop, V: Seen<S>>(
    region: &Region<S>,
    orders: &Orders<S>,
    found: &Found<Orders<S>>,
    seen: &V,
    work: &mut Region<S>,
) -> Result<Option<List<Step>>, AllocError>
    requires finds { Finds (Moves orders.now.keys) (begun region.now) found.now.states.entries }
    requires whole { IsWhole (Moves orders.now.keys) (begun region.now) found.now.states.entries
        found.now.links.items }
    ensures { IfOk result (MayLoop (V.tells seen.now) orders.now.keys (begun region.now)) }
{
    one_list_is_sooner();
    let Some(place) = found.looping()? else {
        return Ok(None);
    };
    let steps = steps_to(region, orders, found, seen, work, place)?;
    Ok(Some(steps))
}

/// Whether moves lead to a state from which none lead to rest. After a whole search.
///
/// An error comes only where memory was refused.
fn is_stuck<S: Store + Drop>(
    region: &Region<S>,
    orders: &Orders<S>,
    found: &Found<Orders<S>>,
) -> Result<bool, AllocError>
    requires finds { Finds (Moves orders.now.keys) (begun region.now) found.now.states.entries }
    requires whole { IsWhole (Moves orders.now.keys) (begun region.now) found.now.states.entries
        found.now.links.items }
    ensures { IfOk result (λ stuck. MatchBool stuck (IsStuck orders.now.keys (begun region.now))
        (AllCanRest orders.now.keys (begun region.now))) }
{
    region.counter();
    orders.keys.lines.as_slice().len();
    let place = found.restless()?;
    Ok(place.is_some())
}

/// Adds the lines of moves without an end, where there are such.
fn loop_lines<S: Store + Drop>(
    report: &mut Report,
    region: &Region<S>,
    keys: &[KeyLine],
    edf: &[Name4],
    steps: Option<&List<Step>>,
) -> Result<(), AllocError>
    ensures { OnOk result (report.new
        ≡ report.old ++ loop_lines region.now keys.now edf.now (option_copied steps.entry)) }
{
    let Some(steps) = steps else {
        return Ok(());
    };
    report.line(&[b"ORDERS SOME NEVER REST"])?;
    script_lines(report, region, keys, edf, steps.as_slice())
}

/// Adds the line that says that from some state no rest can be come to.
fn stuck_line(report: &mut Report, is_stuck: bool) -> Result<(), AllocError>
    ensures { OnOk result (report.new ≡ report.old ++ stuck_line is_stuck) }
{
    if is_stuck {
        report.line(&[b"ORDERS SOME CANNOT REST"])?;
    }
    Ok(())
}

/// All that is written where all states were found.
#[derive(Drop)]
struct Whole {
    states: usize,
    outcomes: Vec<Outcome>,
    /// The steps that lead first to a state that is come to again from itself.
    looping: Option<List<Step>>,
    /// Whether from some state no rest can be come to.
    is_stuck: bool,
}

/// What is to be written where all states were found.
///
/// An error comes only where memory was refused.
fn whole_of<S: Store + Drop, V: Seen<S>>(
    searched: &Searched<S, V>,
    work: &mut Region<S>,
) -> Result<Whole, AllocError>
    requires finds { Finds (Moves searched.now.orders.now.keys) (begun searched.now.region.now)
        searched.now.found.now.states.entries }
    requires whole { IsWhole (Moves searched.now.orders.now.keys) (begun searched.now.region.now)
        searched.now.found.now.states.entries searched.now.found.now.links.items }
    ensures many { IfOk result (λ whole. whole.states ≡ length searched.now.found.now.states.entries) }
    ensures count { IfOk result (λ whole.
        HasStates searched.now.orders.now.keys (begun searched.now.region.now) whole.states) }
    ensures outcomes { IfOk result (λ whole. AreOutcomes (V.shows searched.now.seen.now) (V.tells searched.now.seen.now)
        searched.now.orders.now.keys (begun searched.now.region.now) None whole.outcomes.items) }
    ensures looping { IfOk result (λ whole.
        MayLoop (V.tells searched.now.seen.now) searched.now.orders.now.keys (begun searched.now.region.now)
        whole.looping) }
    ensures stuck { IfOk result (λ whole. MatchBool whole.is_stuck
        (IsStuck searched.now.orders.now.keys (begun searched.now.region.now))
        (AllCanRest searched.now.orders.now.keys (begun searched.now.region.now))) }
{
    one_list_is_sooner();
    let outcomes = outcomes_of(searched, work, None)?;
    let looping = loop_of(
        searched.region,
        searched.orders,
        searched.found,
        searched.seen,
        work,
    )?;
    let is_stuck = is_stuck(searched.region, searched.orders, searched.found)?;
    Ok(Whole {
        states: searched.found.states.len(),
        outcomes,
        looping,
        is_stuck,
    })
}

/// The report where all states were found.
///
/// An error comes only where memory was refused.
fn whole_report<S: Store + Drop>(
    region: &Region<S>,
    orders: &Orders<S>,
    edf: &[Name4],
    whole: &Whole,
) -> Result<Report, AllocError>
    ensures { IfOk result (λ report. report
        ≡ whole_line orders.now.keys whole.now.states (length whole.now.outcomes.items)
        ++ outcomes_lines region.now orders.now.keys.lines edf.now 1 whole.now.outcomes.items
        ++ loop_lines region.now orders.now.keys.lines edf.now whole.now.looping ++ stuck_line whole.now.is_stuck) }
{
    let keys = orders.keys.lines.as_slice();
    let outcomes = whole.outcomes.as_slice();
    let mut report = Report::new(orders.alloc);
    whole_line(&mut report, &orders.keys, whole.states, outcomes.len())?;
    outcomes_lines(&mut report, region, keys, edf, outcomes)?;
    loop_lines(&mut report, region, keys, edf, whole.looping.as_ref())?;
    stuck_line(&mut report, whole.is_stuck)?;
    Ok(report)
}

/// The report where more states can be come to, of the lists of at most `moves` moves.
///
/// An error comes only where memory was refused.
fn cut_report<S: Store + Drop>(
    region: &Region<S>,
    orders: &Orders<S>,
    edf: &[Name4],
    most: usize,
    moves: usize,
    outcomes: &[Outcome],
) -> Result<Report, AllocError>
    ensures { IfOk result (λ report. report
        ≡ cut_line orders.now.keys most moves
        ++ outcomes_lines region.now orders.now.keys.lines edf.now 1 outcomes.now) }
{
    let keys = orders.keys.lines.as_slice();
    let mut report = Report::new(orders.alloc);
    cut_line(&mut report, &orders.keys, most, moves)?;
    outcomes_lines(&mut report, region, keys, edf, outcomes)?;
    Ok(report)
}

/// What is written of the states that a search from a region's state found: of all, or, where it was cut, of those of
/// the lists of at most so many moves.
///
/// An error comes only where memory was refused.
fn found_text<S: Store + Drop, V: Seen<S>>(
    searched: &Searched<S, V>,
    work: &mut Region<S>,
    edf: &[Name4],
    most: usize,
    cut: Option<usize>,
) -> Result<Report, AllocError>
    requires finds { Finds (Moves searched.now.orders.now.keys) (begun searched.now.region.now)
        searched.now.found.now.states.entries }
    requires reaches { MatchOption cut
        (IsWhole (Moves searched.now.orders.now.keys) (begun searched.now.region.now)
        searched.now.found.now.states.entries searched.now.found.now.links.items)
        (λ moves. FindsNearest (Moves searched.now.orders.now.keys) (begun searched.now.region.now)
        searched.now.found.now.states.entries most moves) }
    requires few { length searched.now.found.now.states.entries ≤ most }
    ensures { IfOk result (OrdersText (V.shows searched.now.seen.now) (V.tells searched.now.seen.now)
        searched.now.orders.now.keys searched.now.region.now edf.now most) }
{
    one_list_is_sooner();
    let Some(moves) = cut else {
        let whole = whole_of(searched, work)?;
        return whole_report(searched.region, searched.orders, edf, &whole);
    };
    let outcomes = outcomes_of(searched, work, Some(moves))?;
    cut_report(
        searched.region,
        searched.orders,
        edf,
        most,
        moves,
        outcomes.as_slice(),
    )
}

// What a function owns is dropped at each of its ends, by a proof of its own: what owns a region has few ends.

/// What is written of a search from a snapshot of a region, in a working region.
///
/// An error comes only where memory was refused.
fn searched_text<S: Store + Drop, V: Seen<S>>(
    region: &Region<S>,
    orders: &Orders<S>,
    most: usize,
    edf: &[Name4],
    seen: &V,
    start: RegionSnapshot,
    work: &mut Region<S>,
) -> Result<Report, AllocError>
    requires most { 1 ≤ most }
    requires same { start ≡ region.now }
    ensures { IfOk result (OrdersText (V.shows seen.now) (V.tells seen.now) orders.now.keys region.now edf.now most) }
{
    let end = orders.search(start, most, work)?;
    let searched = Searched {
        region,
        orders,
        found: &end.found,
        seen,
    };
    found_text(&searched, work, edf, most, end.cut)
}

/// What is written of every order of a region's turns and the keys of `orders`, of at most `most` states, 1 or more:
/// how many states can be come to and how many outcomes there are; of each outcome what is to be seen, and a script
/// that leads there; and whether some orders never rest, and some can't. The script begins with a line that ends EDF at
/// each of the terminals `edf`.
///
/// An error comes only where memory was refused.
pub fn orders_text<S: Store + Drop, V: Seen<S>>(
    region: &Region<S>,
    orders: &Orders<S>,
    most: usize,
    edf: &[Name4],
    seen: &V,
) -> Result<Report, AllocError>
    requires { 1 ≤ most }
    ensures { IfOk result (OrdersText (V.shows seen.now) (V.tells seen.now) orders.now.keys region.now edf.now most) }
{
    let start = RegionSnapshot::take(orders.alloc, region, None)?;
    let mut work = start.region_in(orders.alloc, region.shared().store.emptied())?;
    searched_text(region, orders, most, edf, seen, start, &mut work)
}
