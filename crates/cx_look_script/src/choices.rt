//! CHOICES: every list of keys that an operator can press.
ghost use Rattle.std.specs.Prelude.{◌≡◌, ◌≤◌, IfOk, unwrap_or};
ghost use Rattle.std.specs.List.{AllByRecursion};
ghost use Rattle.cx_look_script.specs.Choices.{number_of};
ghost use Rattle.cx_look_script.specs.Looking.{ShowsChoices};
ghost use Rattle.cx_orders.specs.Moves.{IsFew};

use crate::orders::{Sights, names_with_edf, sights_of};
use crate::performer::LookedRegion;
use cx_choices::Choices;
use cx_edf::MakesDisplays;
use cx_look::ChoicesBlock;
use cx_look_choices::choices_text;
use cx_region::Region;
use cx_storage::Store;
use std::alloc::{AllocError, Global};

/// The number of the last task that each key is pressed with, where the block asks for one.
fn number_of<S: Store + Drop>(block: &ChoicesBlock, region: &Region<S>) -> Option<u32>
    ensures is { result ≡ number_of block.now region.now }
    ensures small { unwrap_or result 0 ≤ 9999999 }
{
    let counter = region.counter();
    if block.asked.one_number {
        Some(counter)
    } else {
        None
    }
}

/// What is written for a block of CHOICES.
pub(crate) fn choices_written<S: Store + Drop, M: MakesDisplays>(
    alloc: Global,
    looking: &LookedRegion<S, M>,
    block: ChoicesBlock,
) -> Result<Vec<u8>, AllocError>
    requires keys { 1 ≤ block.asked.keys }
    requires most { 1 ≤ block.asked.most }
    requires keys_in_range { AllByRecursion IsFew block.choices }
    ensures { IfOk result (λ text. ShowsChoices block looking.now text.items) }
{
    let region = looking.state.region();
    let one_number = number_of(&block, region);
    let ChoicesBlock {
        asked,
        choices,
        sights,
    } = block;
    let choices = Choices::new(alloc, choices.into_vec(), one_number);
    let sights = sights_of(alloc, sights.into_vec(), region)?;
    let edf = names_with_edf(alloc, &looking.state)?;
    let seen = Sights {
        looking,
        sights: sights.as_slice(),
    };
    let report = choices_text(
        region,
        &choices,
        asked.keys as usize,
        asked.most as usize,
        edf.as_slice(),
        &seen,
    )?;
    let text = report.marked()?;
    Ok(text)
}
