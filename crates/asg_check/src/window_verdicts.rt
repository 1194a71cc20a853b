//! What stands against windows for a value.

ghost use Rattle.std.specs.Prelude.{◌↔◌, [], ◌∷◌, IsTrue, IfOk, length};
ghost use Rattle.std.specs.Bool.{OnTrue};
ghost use Rattle.asg_model.specs.declared.objectives.Objective.TheVariants.{Balanced};
ghost use Rattle.asg_model.specs.Instances.{IsInstance};
ghost use Rattle.asg_model.specs.ValueRange.{IsValueInRange};
ghost use Rattle.asg_proof.specs.Windows.{IsHallWindow, ProvesWindows};
ghost use Rattle.asg_verdicts.specs.declared.verdicts.Reason.TheVariants.{WindowGap};
ghost use Rattle.asg_verdicts.specs.Spots.{IsFirstPart};
ghost use Rattle.asg_verdicts.specs.Verdicts.{Tells, window_reasons};
ghost use Rattle.asg_check.specs.WindowReasons.{IsNoHallAt, StandsOn};

use crate::NoMemory;
use crate::window_gaps::first_gap;
use asg_hall_windows::proves_spread;
use asg_model::{Band, Instance, Value};
use asg_proof::Window;
use asg_values::is_hall;
use asg_verdicts::{Reason, Verdict};
use std::alloc::Global;

// Whether it is shown at once that windows prove the value of `balanced`; false leaves it open. The
// error is want of memory.
fn are_proved(
    alloc: Global,
    inst: &Instance,
    value: &Value,
    windows: &[Window],
) -> Result<bool, NoMemory>
    requires range { IsValueInRange Balanced value.now }
    ensures { IfOk result (λ yes. OnTrue yes
        (ProvesWindows Balanced inst.now value.now windows.now)) }
{
    match value {
        Value::One(spread) if *spread > 0 => proves_spread(alloc, inst, *spread, windows),
        _ => Ok(false),
    }
}

// The verdict on windows for a value of `balanced`, by the reasons against windows in order. The
// windows are tested all at once; where that leaves it open, each by itself. The error is want of
// memory.
pub(crate) fn windows_verdict(
    alloc: Global,
    inst: &Instance,
    value: &Value,
    windows: &[Window],
) -> Result<Verdict, NoMemory>
    requires instance { IsInstance inst.now }
    requires range { IsValueInRange Balanced value.now }
    ensures { IfOk result (Tells (StandsOn inst.now value.now windows.now) window_reasons) }
{
    let are_proved = are_proved(alloc, inst, value, windows)?;
    if are_proved {
        return Ok(Verdict::Yes);
    }
    if let Some(place) = first_no_hall(inst, windows) {
        return Ok(Reason::NotHall.verdict_at_part(place));
    }
    gap_verdict(alloc, inst, value, windows)
}

// The place of the first window whose rows aren't a Hall set of its band.
fn first_no_hall(inst: &Instance, windows: &[Window]) -> Option<usize>
    ensures { IsFirstPart (IsNoHallAt inst.now windows.now) (length windows.now) result }
{
    for place in 0..windows.len() {
        if !is_hall_window(inst, &windows[place]) {
            return Some(place);
        }
    }
    None
}

// Whether the rows of the window are a Hall set of its band.
fn is_hall_window(inst: &Instance, window: &Window) -> bool
    ensures { IsTrue result ↔ IsHallWindow inst.now window.now }
{
    is_hall(
        inst,
        Band::Between(window.lo, window.hi),
        window.rows.as_slice(),
    )
}

// The verdict on the gaps of windows for a value of `balanced`. The error is want of memory.
fn gap_verdict(
    alloc: Global,
    inst: &Instance,
    value: &Value,
    windows: &[Window],
) -> Result<Verdict, NoMemory>
    requires instance { IsInstance inst.now }
    requires range { IsValueInRange Balanced value.now }
    ensures { IfOk result (Tells (StandsOn inst.now value.now windows.now) (WindowGap ∷ [])) }
{
    match value {
        Value::One(spread) => spread_verdict(alloc, inst, *spread, windows),
        _ => unreachable!(),
    }
}

// The same for a spread. The error is want of memory.
fn spread_verdict(
    alloc: Global,
    inst: &Instance,
    spread: i128,
    windows: &[Window],
) -> Result<Verdict, NoMemory>
    requires instance { IsInstance inst.now }
    requires range { IsValueInRange Balanced (Value.One spread) }
    ensures { IfOk result
        (Tells (StandsOn inst.now (Value.One spread) windows.now) (WindowGap ∷ [])) }
{
    if spread == 0 {
        return Ok(Verdict::Yes);
    }
    match first_gap(alloc, inst, spread, windows)? {
        Some(cost) => Ok(Reason::WindowGap.verdict_at(cost)),
        None => Ok(Verdict::Yes),
    }
}
