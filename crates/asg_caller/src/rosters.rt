//! Best rosters.

ghost use Rattle.std.specs.Prelude.{◌≡◌, ◌≤◌, IfOk, IfSome, None};
ghost use Rattle.asg_model.specs.Limits.{most_side};
ghost use Rattle.asg_model.specs.Shapes.{square_side};
ghost use Rattle.asg_model.specs.ValidChoice.{IsValid};
ghost use Rattle.asg_caller.specs.Rosters.{HasNoRoster, IsBestRoster, longest_of};

use asg_model::{Choice, Instance, NoMemory, Objective, Value};
use asg_proof::Outcome;
use asg_proof::laws::outcome_law;
use asg_thresh::bottleneck;
use asg_values::value;
use std::alloc::Global;

/// Who takes which duty, and the longest overtime in hours that this asks of a crew.
#[derive(Drop)]
pub struct Roster {
    pub choice: Choice,
    pub overtime: i128,
}

/// A roster whose longest overtime is the least of all rosters, or none where no roster is valid.
/// The error is want of memory.
pub fn best_roster(alloc: Global, inst: &Instance) -> Result<Option<Roster>, NoMemory>
    requires { square_side inst.now ≤ most_side }
    ensures best { IfOk result (λ found. IfSome found (IsBestRoster inst.now)) }
    ensures none { IfOk result (λ found. found ≡ None → HasNoRoster inst.now) }
{
    // What each instance keeps, on which the law rests, is told by a reader.
    let _rows = inst.rows();
    outcome_law();
    match bottleneck(alloc, Objective::Bottleneck, inst)? {
        Outcome::Best { choice, .. } => {
            let overtime = longest(alloc, inst, &choice)?;
            Ok(Some(Roster { choice, overtime }))
        }
        Outcome::Nothing { .. } => Ok(None),
    }
}

// The longest overtime of a valid choice. The error is want of memory.
fn longest(alloc: Global, inst: &Instance, choice: &Choice) -> Result<i128, NoMemory>
    requires { IsValid inst.now choice.now }
    ensures { IfOk result (λ hours. hours ≡ longest_of inst.now choice.now) }
{
    match value(alloc, Objective::Bottleneck, inst, choice)? {
        Value::One(hours) => Ok(hours),
        _ => unreachable!(),
    }
}
