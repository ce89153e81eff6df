//! AREAS.
ghost use Rattle.std.specs.Prelude.{◌≡◌, ◌++◌, IfOk, OnOk};
ghost use Rattle.std.specs.List.{filter, flat_map};
ghost use Rattle.cx_storage.specs.Storage.{areas_of};
ghost use Rattle.cx_region.specs.Tables.{terminal_of};
ghost use Rattle.cx_look_storage.specs.Areas.{areas_text, owned_by, task_areas_text};
ghost use Rattle.cx_look_storage.specs.Parts.Walk.{is_of};
ghost use Rattle.cx_look_storage.specs.Uses.{area_line};

use crate::uses::area_line;
use cx_base::shown_name;
use cx_ebcdic::Name4;
use cx_look_lines::{Report, joined};
use cx_region::Region;
use cx_storage::laws::store_is_sound;
use cx_storage::{Area, Store};
use std::alloc::{AllocError, Global};

/// All areas, the one at the lowest address first.
pub(crate) fn all_areas<S: Store>(alloc: Global, store: &S) -> Result<Vec<Area>, AllocError>
    ensures { IfOk result (λ areas. areas.items ≡ areas_of (S.storage store.now)) }
{
    store_is_sound(store);
    let mut areas = Vec::new(alloc);
    let mut from = 0;
    while let Some(area) = store.next_area(from) {
        areas.push(area)?;
        from = area.start + 1;
    }
    Ok(areas)
}

/// Those that a terminal's task owns, by the terminal's position.
fn areas_at<S: Store>(alloc: Global, store: &S, slot: u8) -> Result<Vec<Area>, AllocError>
    ensures { IfOk result (λ areas. areas.items ≡ filter (is_of slot) (areas_of (S.storage store.now))) }
{
    let mut areas = all_areas(alloc, store)?;
    areas.retain(|area| area.owner.slot == slot);
    Ok(areas)
}

/// Those that the task of a terminal owns.
fn task_areas<S: Store + Drop>(
    alloc: Global,
    region: &Region<S>,
    name: Name4,
) -> Result<Vec<Area>, AllocError>
    ensures { IfOk result (λ areas. areas.items ≡ owned_by region.now.shared.storage (terminal_of region.now name)) }
{
    match region.terminals().get(&name) {
        Some(terminal) => areas_at(
            alloc,
            &region.shared().store,
            terminal.terminal_entry().slot,
        ),
        None => Ok(Vec::new(alloc)),
    }
}

/// Adds a line for each of some areas.
fn area_lines<S: Store + Drop>(
    report: &mut Report,
    region: &Region<S>,
    areas: &[Area],
) -> Result<(), AllocError>
    ensures { OnOk result (report.new ≡ report.old ++ flat_map (area_line region.now) areas.now) }
{
    for area in areas {
        area_line(report, region, *area)?;
    }
    Ok(())
}

/// Looks at all areas: a line each, the one at the lowest address first; NONE where there is none.
///
/// An error comes only where memory for the report was refused.
#[tactic(auto, unfolding(crate::specs::Areas::areas_text))]
pub fn areas_text<S: Store + Drop>(alloc: Global, region: &Region<S>) -> Result<Report, AllocError>
    ensures { IfOk result (λ report. report ≡ areas_text region.now) }
{
    let areas = all_areas(alloc, &region.shared().store)?;
    let mut report = Report::new(alloc);
    area_lines(&mut report, region, &areas)?;
    report.or_none(b"AREAS")
}

/// Looks at the areas that the task of a terminal owns: a line each, the one at the lowest address first; NONE where
/// there is none, no task, or no such terminal.
///
/// An error comes only where memory for the report was refused.
#[tactic(auto, unfolding(crate::specs::Areas::task_areas_text))]
pub fn task_areas_text<S: Store + Drop>(
    alloc: Global,
    region: &Region<S>,
    name: Name4,
) -> Result<Report, AllocError>
    ensures { IfOk result (λ report. report ≡ task_areas_text region.now name) }
{
    let areas = task_areas(alloc, region, name)?;
    let mut report = Report::new(alloc);
    area_lines(&mut report, region, &areas)?;
    let word = joined(alloc, b"AREAS ", &shown_name(alloc, name)?)?;
    report.or_none(&word)
}
