//! Keys that are pressed one after another, as the lines of a script.

ghost use Rattle.std.specs.Prelude.{◌≡◌, ◌++◌, IfOk, OnOk, map, slice_get};
ghost use Rattle.std.specs.Option.{option_copied};
ghost use Rattle.cx_look_choices.specs.Presses.{key_pressed, key_step, keys_pressed, list_lines, press_steps, steps_of, terminal_number, turn_step};

use crate::presses::Press;
use cx_base::List;
use cx_choices::TurnMade;
use cx_code::Bytes;
use cx_ebcdic::Name4;
use cx_look_lines::Report;
use cx_look_steps::{Step, many_of, script_lines};
use cx_orders::KeyLine;
use cx_region::Region;
use cx_storage::Store;
use std::alloc::{AllocError, Global};

/// The number of the terminal of that name, in the order of their definition.
pub(crate) fn terminal_number<S: Store + Drop>(region: &Region<S>, name: Name4) -> usize
    ensures { result ≡ terminal_number region.now name }
{
    region.terminals().get_index_of(&name).unwrap_or(0)
}

/// The same key, in its own memory.
fn key_like(alloc: Global, key: &KeyLine) -> Result<KeyLine, AllocError>
    ensures { IfOk result (λ made. made ≡ key.now) }
{
    Ok(KeyLine {
        name: key.name,
        aid: key.aid,
        bytes: Bytes::from_vec(key.bytes.as_slice().to_vec(alloc)?),
        line: List::from_slice(alloc, key.line.as_slice())?,
    })
}

/// The choice with a number.
pub(crate) fn choice_at(choices: &[KeyLine], number: usize) -> Option<&KeyLine>
    ensures { option_copied result ≡ slice_get choices.now number }
{
    choices.get(number)
}

/// Adds the choice with a number.
fn push_key(
    alloc: Global,
    keys: &mut Vec<KeyLine>,
    choices: &[KeyLine],
    number: usize,
) -> Result<(), AllocError>
    ensures { OnOk result (keys.new.items ≡ keys.old.items ++ key_pressed choices.now number) }
{
    let Some(choice) = choice_at(choices, number) else {
        return Ok(());
    };
    let key = key_like(alloc, choice)?;
    keys.push(key)?;
    Ok(())
}

/// Adds the step of the choice with a number, before which those keys were pressed.
fn push_key_step<S: Store + Drop>(
    steps: &mut Vec<Step>,
    region: &Region<S>,
    before: &[KeyLine],
    choices: &[KeyLine],
    number: usize,
) -> Result<(), AllocError>
    ensures { OnOk result (steps.new.items
        ≡ steps.old.items ++ map (key_step region.now before.now) (key_pressed choices.now number)) }
{
    let Some(choice) = choice_at(choices, number) else {
        return Ok(());
    };
    let came = many_of(before, choice.name);
    steps.push(Step {
        number: terminal_number(region, choice.name),
        key: Some(came),
        told: None,
    })?;
    Ok(())
}

/// Adds the steps of turns.
fn push_turn_steps(steps: &mut Vec<Step>, made: &[TurnMade]) -> Result<(), AllocError>
    ensures { OnOk result (steps.new.items ≡ steps.old.items ++ map turn_step made.now) }
{
    for turn in made {
        steps.push(Step {
            number: turn.number,
            key: None,
            told: None,
        })?;
    }
    Ok(())
}

/// Adds the steps of a press, before which those keys were pressed.
fn push_steps<S: Store + Drop>(
    steps: &mut Vec<Step>,
    region: &Region<S>,
    before: &[KeyLine],
    choices: &[KeyLine],
    press: &Press,
) -> Result<(), AllocError>
    ensures { OnOk result (steps.new.items ≡ steps.old.items
        ++ press_steps region.now before.now (key_pressed choices.now press.now.choice) press.now.made) }
{
    push_key_step(steps, region, before, choices, press.choice)?;
    push_turn_steps(steps, press.made.as_slice())
}

/// The keys and the steps of presses.
#[derive(Drop)]
struct Listed {
    keys: Vec<KeyLine>,
    steps: Vec<Step>,
}

/// The keys and the steps of presses, in their order.
///
/// An error comes only where memory was refused.
#[tactic(auto, unfolding(crate::specs::Presses::steps_after))]
fn keys_and_steps<S: Store + Drop>(
    alloc: Global,
    region: &Region<S>,
    choices: &[KeyLine],
    presses: &[Press],
) -> Result<Listed, AllocError>
    ensures keys { IfOk result (λ listed. listed.keys.items ≡ keys_pressed choices.now presses.now) }
    ensures steps { IfOk result (λ listed. listed.steps.items ≡ steps_of region.now choices.now presses.now) }
{
    let mut keys = Vec::new(alloc);
    let mut steps = Vec::new(alloc);
    for press in presses {
        push_steps(&mut steps, region, keys.as_slice(), choices, press)?;
        push_key(alloc, &mut keys, choices, press.choice)?;
    }
    Ok(Listed { keys, steps })
}

/// Adds the lines of a script that presses keys, each with the turns that follow it, without EDF: these terminals have
/// it on.
pub(crate) fn list_lines<S: Store + Drop>(
    report: &mut Report,
    region: &Region<S>,
    choices: &[KeyLine],
    edf: &[Name4],
    presses: &[Press],
) -> Result<(), AllocError>
    ensures { OnOk result (report.new
        ≡ report.old ++ list_lines region.now choices.now edf.now presses.now) }
{
    let listed = keys_and_steps(report.alloc(), region, choices, presses)?;
    let keys = listed.keys.as_slice();
    script_lines(report, region, keys, edf, listed.steps.as_slice())
}
