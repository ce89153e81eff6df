//! The report of CHOICES.

ghost use Rattle.std.specs.Prelude.{◌≡◌, ◌<◌, ◌≤◌, ◌+◌, ◌++◌, ◌^◌, IfOk, OnOk, length, slice_get};
ghost use Rattle.std.specs.Fmt.{decimal};
ghost use Rattle.std.specs.List.{flat_map};
ghost use Rattle.std.specs.Option.{option_copied};
ghost use Rattle.cx_choices.specs.Moves.{Goes, begun};
ghost use Rattle.cx_look_choices.specs.Parts.Ways.{arrow_line, cut_report, limit_of, report_of, whole_report};
ghost use Rattle.cx_look_choices.specs.Report.{ChoicesText, arrow_lines, came_after, closed_words, cut_line, keys_show_line, number_words, numbers_show, row_differs, row_lines, row_list, rows_lines, screen_lines, screens_words, show_line, state_line, states_lines, target_word, trouble_lines, troubles_lines, whole_line};
ghost use Rattle.cx_look_lines.specs.Words.{with_blanks};
ghost use Rattle.cx_search.specs.Finds.{Finds};
ghost use Rattle.cx_search.specs.Within.{Reaches};

use crate::lists::list_lines;
use crate::rows::{Arrow, Rows, StateRow, rows_of};
use cx_choices::Choices;
use cx_ebcdic::Name4;
use cx_look_lines::{Report, decimal, push_words};
use cx_look_steps::{Seen, incident_lines};
use cx_region::Region;
use cx_region_snapshot::RegionSnapshot;
use cx_search::{Found, Reach};
use cx_storage::Store;
use std::alloc::{AllocError, Global};

/// The number, counted from 1, of what has that place, counted from 0.
fn numbered(alloc: Global, place: usize) -> Result<Vec<u8>, AllocError>
    ensures { IfOk result (λ text. text.items ≡ decimal (place + 1)) }
{
    Ok((place as u128 + 1).to_string(alloc)?.into_bytes())
}

/// Adds the words that say how many texts there are.
fn push_screens(line: &mut Vec<u8>, alloc: Global, screens: usize) -> Result<(), AllocError>
    ensures { OnOk result (line.new.items ≡ line.old.items ++ with_blanks (screens_words screens)) }
{
    let screens = decimal(alloc, screens)?;
    push_words(line, &[b"SCREENS", screens.as_slice()])
}

/// Adds the word that says that each move begins with one number of the last task, where it is so, and the one that
/// says that numbers of tasks show.
fn push_number(line: &mut Vec<u8>, one_number: Option<u32>, shows: bool) -> Result<(), AllocError>
    ensures { OnOk result (line.new.items ≡ line.old.items ++ with_blanks (number_words one_number shows)) }
{
    if one_number.is_none() {
        return Ok(());
    }
    if shows {
        return push_words(line, &[b"ONE NUMBER", b"NUMBERS SHOW"]);
    }
    push_words(line, &[b"ONE NUMBER"])
}

/// Adds the word that says that no list of keys leads to another state, where it is so.
fn push_closed(line: &mut Vec<u8>, is_closed: bool) -> Result<(), AllocError>
    ensures { OnOk result (line.new.items ≡ line.old.items ++ with_blanks (closed_words is_closed)) }
{
    if !is_closed {
        return Ok(());
    }
    push_words(line, &[b"CLOSED"])
}

/// The counts that the first line tells.
#[derive(Clone, Copy)]
struct Counts {
    /// Lists of at most so many keys were tried.
    keys: usize,
    /// How many states they lead to.
    states: usize,
    /// How many texts these have.
    screens: usize,
    /// Whether numbers of tasks show.
    shows: bool,
}

/// Adds the first line where all states were found.
fn whole_line(
    report: &mut Report,
    counts: Counts,
    one_number: Option<u32>,
    is_closed: bool,
) -> Result<(), AllocError>
    ensures { OnOk result (report.new
        ≡ report.old ++ whole_line counts.keys counts.states counts.screens one_number counts.shows is_closed) }
{
    let alloc = report.alloc();
    let keys = decimal(alloc, counts.keys)?;
    let states = decimal(alloc, counts.states)?;
    let mut line = b"CHOICES KEYS".to_vec(alloc)?;
    push_words(&mut line, &[keys.as_slice(), b"STATES", states.as_slice()])?;
    push_screens(&mut line, alloc, counts.screens)?;
    push_number(&mut line, one_number, counts.shows)?;
    push_closed(&mut line, is_closed)?;
    report.push(line)
}

/// Adds the first line where there are more than `most` states.
fn cut_line(
    report: &mut Report,
    most: usize,
    keys: usize,
    screens: usize,
    one_number: Option<u32>,
    shows: bool,
) -> Result<(), AllocError>
    ensures { OnOk result (report.new ≡ report.old ++ cut_line most keys screens one_number shows) }
{
    let alloc = report.alloc();
    let most = decimal(alloc, most)?;
    let keys = decimal(alloc, keys)?;
    let mut line = b"CHOICES MORE THAN".to_vec(alloc)?;
    push_words(
        &mut line,
        &[most.as_slice(), b"STATES, ALL OF", keys.as_slice(), b"KEYS"],
    )?;
    push_screens(&mut line, alloc, screens)?;
    push_number(&mut line, one_number, shows)?;
    report.push(line)
}

/// The number of the state that a key leads to.
fn target_word(alloc: Global, to: Option<usize>) -> Result<Vec<u8>, AllocError>
    ensures { IfOk result (λ word. word.items ≡ target_word to) }
{
    match to {
        Some(place) => numbered(alloc, place),
        None => b"MORE".to_vec(alloc),
    }
}

/// Adds the line of where a key leads.
fn arrow_line(report: &mut Report, arrow: &Arrow) -> Result<(), AllocError>
    ensures { OnOk result (report.new ≡ report.old ++ arrow_line arrow.now) }
{
    let key = numbered(report.alloc(), arrow.choice)?;
    let to = target_word(report.alloc(), arrow.to)?;
    report.line(&[b"KEY", key.as_slice(), b"TO", to.as_slice()])
}

/// Adds the lines of where a key leads, and of what happens there.
#[tactic(auto, unfolding(crate::specs::Report::arrow_lines))]
fn arrow_lines<S: Store + Drop>(
    report: &mut Report,
    region: &Region<S>,
    arrow: &Arrow,
) -> Result<(), AllocError>
    ensures { OnOk result (report.new ≡ report.old ++ arrow_lines region.now arrow.now) }
{
    arrow_line(report, arrow)?;
    incident_lines(report, region, arrow.incidents.as_slice())
}

/// Adds the lines of where keys lead.
fn all_arrow_lines<S: Store + Drop>(
    report: &mut Report,
    region: &Region<S>,
    arrows: &[Arrow],
) -> Result<(), AllocError>
    ensures { let more = flat_map (arrow_lines region.now) arrows.now in
        OnOk result (report.new ≡ report.old ++ more) }
{
    for arrow in arrows {
        arrow_lines(report, region, arrow)?;
    }
    Ok(())
}

/// Adds the line that says that numbers of tasks show.
fn show_line(report: &mut Report, shows: bool) -> Result<(), AllocError>
    ensures { OnOk result (report.new ≡ report.old ++ show_line shows) }
{
    if shows {
        report.line(&[b"NUMBERS SHOW"])?;
    }
    Ok(())
}

/// Adds the line that says that numbers of tasks show by keys.
fn keys_show_line(report: &mut Report, shows: bool) -> Result<(), AllocError>
    ensures { OnOk result (report.new ≡ report.old ++ keys_show_line shows) }
{
    if shows {
        report.line(&[b"NUMBERS SHOW BY KEYS"])?;
    }
    Ok(())
}

/// Whether the list of a state, or one of its keys, isn't the same with numbers that count on.
fn row_differs(row: &StateRow) -> bool
    ensures { result ≡ row_differs row.now }
{
    row.list_differs || row.keys_differ
}

/// Whether numbers of tasks show.
fn numbers_show(rows: &[StateRow]) -> bool
    ensures { result ≡ numbers_show rows.now }
{
    rows.iter().any(row_differs)
}

/// Adds the lines of a key that abends a task or is refused in the state at a place, where numbers show or not.
fn trouble_lines<S: Store + Drop>(
    report: &mut Report,
    region: &Region<S>,
    place: usize,
    shows: bool,
    arrow: &Arrow,
) -> Result<(), AllocError>
    ensures { OnOk result (report.new ≡ report.old ++ trouble_lines region.now (place + 1) shows arrow.now) }
{
    if arrow.incidents.as_slice().is_empty() {
        return Ok(());
    }
    let number = numbered(report.alloc(), place)?;
    report.line(&[b"STATE", number.as_slice()])?;
    arrow_lines(report, region, arrow)?;
    show_line(report, shows)
}

/// Adds the lines of the keys that abend a task or are refused in the state at a place.
fn state_troubles<S: Store + Drop>(
    report: &mut Report,
    region: &Region<S>,
    place: usize,
    shows: bool,
    arrows: &[Arrow],
) -> Result<(), AllocError>
    ensures { let more = flat_map (trouble_lines region.now (place + 1) shows) arrows.now in
        OnOk result (report.new ≡ report.old ++ more) }
{
    for arrow in arrows {
        trouble_lines(report, region, place, shows, arrow)?;
    }
    Ok(())
}

/// Adds the lines of the keys that abend a task or are refused, of all states.
#[tactic(auto, unfolding(crate::specs::Report::troubles_lines))]
fn troubles_lines<S: Store + Drop>(
    report: &mut Report,
    region: &Region<S>,
    rows: &[StateRow],
) -> Result<(), AllocError>
    ensures { OnOk result (report.new ≡ report.old ++ troubles_lines region.now 1 rows.now) }
{
    for (place, row) in rows.iter().enumerate() {
        let shows = row_differs(row);
        state_troubles(report, region, place, shows, row.arrows.as_slice())?;
    }
    Ok(())
}

/// Adds the line of a state's number and of its text's.
fn state_line(report: &mut Report, place: usize, screen: usize) -> Result<(), AllocError>
    ensures { OnOk result (report.new ≡ report.old ++ state_line (place + 1) screen) }
{
    let number = numbered(report.alloc(), place)?;
    let screen = numbered(report.alloc(), screen)?;
    report.line(&[b"STATE", number.as_slice(), b"SCREEN", screen.as_slice()])
}

/// The text with a number.
fn text_at(texts: &[Report], screen: usize) -> Option<&Report>
    ensures { option_copied result ≡ slice_get texts.now screen }
{
    texts.get(screen)
}

/// Adds a text where it comes first, before which so many came.
fn screen_lines(
    report: &mut Report,
    texts: &[Report],
    came: usize,
    screen: usize,
) -> Result<(), AllocError>
    ensures { OnOk result (report.new ≡ report.old ++ screen_lines texts.now came screen) }
{
    if screen != came {
        return Ok(());
    }
    let Some(text) = text_at(texts, screen) else {
        return Ok(());
    };
    report.append(text)
}

/// How many texts came with one more, before which so many came.
fn came_after(came: usize, screen: usize) -> usize
    requires { came < 2 ^ 63 }
    ensures is { result ≡ came_after came screen }
    ensures one_more { result ≤ came + 1 }
{
    if screen == came { came + 1 } else { came }
}

/// What is written: of the region, of these keys, where EDF is on at these terminals.
#[derive(Drop)]
struct Written<'a, S: Store + Drop> {
    region: &'a Region<S>,
    choices: &'a Choices<S>,
    edf: &'a [Name4],
    rows: &'a Rows,
}

/// Adds the lines of the list that leads to a state; where it isn't the same with numbers that count on, that they show.
fn row_list<S: Store + Drop>(
    report: &mut Report,
    written: &Written<S>,
    row: &StateRow,
) -> Result<(), AllocError>
    ensures { OnOk result (report.new ≡ report.old ++ row_list written.now.region.now
        written.now.choices.now.choices.items written.now.edf.now written.now.rows.now.texts.items row.now) }
{
    if row.list_differs {
        return show_line(report, true);
    }
    let keys = written.choices.choices.as_slice();
    list_lines(
        report,
        written.region,
        keys,
        written.edf,
        row.presses.as_slice(),
    )
}

/// Adds the lines of the state at a place, before which so many texts came.
#[tactic(auto, unfolding(crate::specs::Report::row_lines))]
fn row_lines<S: Store + Drop>(
    report: &mut Report,
    written: &Written<S>,
    place: usize,
    came: usize,
    row: &StateRow,
) -> Result<(), AllocError>
    ensures { OnOk result (report.new ≡ report.old ++ row_lines written.now.region.now
        written.now.choices.now.choices.items written.now.edf.now written.now.rows.now.texts.items (place + 1) came
        row.now) }
{
    state_line(report, place, row.screen)?;
    row_list(report, written, row)?;
    all_arrow_lines(report, written.region, row.arrows.as_slice())?;
    keys_show_line(report, row.keys_differ)?;
    screen_lines(report, written.rows.texts.as_slice(), came, row.screen)
}

/// Adds the lines of all states.
#[tactic(auto, unfolding(crate::specs::Report::rows_lines))]
fn rows_lines<S: Store + Drop>(report: &mut Report, written: &Written<S>) -> Result<(), AllocError>
    ensures { OnOk result (report.new ≡ report.old ++ rows_lines written.now.region.now
        written.now.choices.now.choices.items written.now.edf.now written.now.rows.now.texts.items 1 0
        written.now.rows.now.rows.items) }
{
    let mut came = 0;
    for (place, row) in written.rows.rows.as_slice().iter().enumerate() {
        row_lines(report, written, place, came, row)?;
        came = came_after(came, row.screen);
    }
    Ok(())
}

/// Adds the lines of the keys that abend a task or are refused, and of all states.
fn states_lines<S: Store + Drop>(
    report: &mut Report,
    written: &Written<S>,
) -> Result<(), AllocError>
    ensures { OnOk result (report.new ≡ report.old ++ states_lines written.now.region.now
        written.now.choices.now.choices.items written.now.edf.now written.now.rows.now.texts.items
        written.now.rows.now.rows.items) }
{
    troubles_lines(report, written.region, written.rows.rows.as_slice())?;
    rows_lines(report, written)
}

/// The report where all states were found.
///
/// An error comes only where memory was refused.
fn whole_report<S: Store + Drop>(
    written: &Written<S>,
    keys: usize,
    is_closed: bool,
) -> Result<Report, AllocError>
    ensures { let rows = written.now.rows.now in IfOk result (λ report. report
        ≡ whole_report written.now.region.now written.now.choices.now.choices.items written.now.choices.now.one_number
        written.now.edf.now rows.texts.items rows.rows.items keys is_closed) }
{
    let shows = numbers_show(written.rows.rows.as_slice());
    let counts = Counts {
        keys,
        states: written.rows.rows.as_slice().len(),
        screens: written.rows.texts.as_slice().len(),
        shows,
    };
    let mut report = Report::new(written.choices.alloc);
    let one_number = written.choices.one_number;
    whole_line(&mut report, counts, one_number, is_closed && !shows)?;
    states_lines(&mut report, written)?;
    Ok(report)
}

/// The report where there are more than `most` states, of the lists of at most `keys` keys.
///
/// An error comes only where memory was refused.
fn cut_report<S: Store + Drop>(
    written: &Written<S>,
    most: usize,
    keys: usize,
) -> Result<Report, AllocError>
    ensures { let rows = written.now.rows.now in IfOk result (λ report. report
        ≡ cut_report written.now.region.now written.now.choices.now.choices.items written.now.choices.now.one_number
        written.now.edf.now rows.texts.items rows.rows.items most keys) }
{
    let screens = written.rows.texts.as_slice().len();
    let shows = numbers_show(written.rows.rows.as_slice());
    let mut report = Report::new(written.choices.alloc);
    let one_number = written.choices.one_number;
    cut_line(&mut report, most, keys, screens, one_number, shows)?;
    states_lines(&mut report, written)?;
    Ok(report)
}

/// How many keys the lists have at most whose states are written.
fn limit_of(reach: Reach, keys: usize) -> usize
    ensures { result ≡ limit_of reach keys }
{
    match reach {
        Reach::Full(many) => many,
        _ => keys,
    }
}

/// The report of what a search came to.
///
/// An error comes only where memory was refused.
fn report_of<S: Store + Drop>(
    written: &Written<S>,
    reach: Reach,
    keys: usize,
    most: usize,
) -> Result<Report, AllocError>
    ensures { let rows = written.now.rows.now in IfOk result (λ report. report
        ≡ report_of written.now.region.now written.now.choices.now.choices.items written.now.choices.now.one_number
        written.now.edf.now rows.texts.items rows.rows.items keys most reach) }
{
    match reach {
        Reach::Closed => whole_report(written, keys, true),
        Reach::Open => whole_report(written, keys, false),
        Reach::Full(many) => cut_report(written, most, many),
    }
}

/// What is written of the states that a search from a region's state found, and how far it came.
///
/// An error comes only where memory was refused.
fn found_text<S: Store + Drop, V: Seen<S>>(
    region: &Region<S>,
    choices: &Choices<S>,
    keys: usize,
    most: usize,
    edf: &[Name4],
    seen: &V,
    found: &Found<Choices<S>>,
    reach: Reach,
    work: &mut Region<S>,
) -> Result<Report, AllocError>
    requires finds { Finds (Goes choices.now.choices.items choices.now.one_number) (begun region.now)
        found.now.states.entries }
    requires few { length found.now.states.entries ≤ most }
    requires reaches { Reaches (Goes choices.now.choices.items choices.now.one_number) (begun region.now)
        found.now.states.entries found.now.links.items most keys reach }
    ensures { IfOk result (ChoicesText (V.shows seen.now) choices.now.choices.items choices.now.one_number region.now
        edf.now keys most) }
{
    let at = limit_of(reach, keys);
    let rows = rows_of(region, choices, found, at, seen, work)?;
    let written = Written {
        region,
        choices,
        edf,
        rows: &rows,
    };
    report_of(&written, reach, keys, most)
}

// What a function owns is dropped at each of its ends, by a proof of its own: what owns a region has few ends.

/// What is written of a search from a snapshot of a region, in a working region.
///
/// An error comes only where memory was refused.
fn searched_text<S: Store + Drop, V: Seen<S>>(
    region: &Region<S>,
    choices: &Choices<S>,
    keys: usize,
    most: usize,
    edf: &[Name4],
    seen: &V,
    start: RegionSnapshot,
    work: &mut Region<S>,
) -> Result<Report, AllocError>
    requires most { 1 ≤ most }
    requires same { start ≡ region.now }
    ensures { IfOk result (ChoicesText (V.shows seen.now) choices.now.choices.items choices.now.one_number region.now
        edf.now keys most) }
{
    let near = choices.search(start, most, keys, work)?;
    found_text(
        region,
        choices,
        keys,
        most,
        edf,
        seen,
        &near.found,
        near.reach,
        work,
    )
}

/// What is written of every list of at most `keys` of the keys of `choices`, from a region on, of at most `most`
/// states, 1 or more: how many states they lead to, and whether longer lists lead to more; the keys that abend a task
/// or are refused; and of each state the soonest list that leads there, as a script, where each key leads from there,
/// and what is to be seen. The scripts begin with a line that ends EDF at each of the terminals `edf`.
///
/// An error comes only where memory was refused.
pub fn choices_text<S: Store + Drop, V: Seen<S>>(
    region: &Region<S>,
    choices: &Choices<S>,
    keys: usize,
    most: usize,
    edf: &[Name4],
    seen: &V,
) -> Result<Report, AllocError>
    requires { 1 ≤ most }
    ensures { IfOk result (ChoicesText (V.shows seen.now) choices.now.choices.items choices.now.one_number region.now
        edf.now keys most) }
{
    let start = RegionSnapshot::take(choices.alloc, region, None)?;
    let mut work = start.region_in(choices.alloc, region.shared().store.emptied())?;
    searched_text(region, choices, keys, most, edf, seen, start, &mut work)
}
