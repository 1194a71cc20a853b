//! The values of choices.

ghost use Rattle.std.specs.Prelude.{◌≡◌, ◌≤◌, ◌++◌, OnOk, IfOk, IfSome, All, length, option_and_then, option_to_list};
ghost use Rattle.asg_model.specs.Limits.{most_rows};
ghost use Rattle.asg_model.specs.ValidChoice.{IsValid};
ghost use Rattle.asg_model.specs.Live.{live_at};
ghost use Rattle.asg_model.specs.Values.{costs_of, chosen_cost, value_of, choice_value};
ghost use Rattle.asg_model.specs.ValueRange.{IsValueInRange};
ghost use Rattle.asg_model.specs.Better.{HasForm};
ghost use Rattle.asg_model.specs.Instances.{IsCostInRange};

use crate::descents::descending;
use crate::extremes::{greatest, least};
use crate::sums::{total_a, total_b, total_b_at};
use asg_model::{Choice, Cost, Costs, Instance, NoMemory, Objective, Value};
use std::alloc::Global;

/// The value that the objective gives the choice, in the objective's form: one number, two, or a
/// list. Its numbers lie in the range of the costs, or in that of the sums of at most 1,000 costs.
/// The error is want of memory.
pub fn value(
    alloc: Global,
    objective: Objective,
    inst: &Instance,
    choice: &Choice,
) -> Result<Value, NoMemory>
    requires { IsValid inst.now choice.now }
    ensures exact { IfOk result (λ v. v ≡ choice_value objective inst.now choice.now) }
    ensures form { IfOk result (HasForm objective) }
    ensures in_range { IfOk result (IsValueInRange objective) }
{
    let costs = chosen_costs(alloc, inst, choice)?;
    value_of(alloc, objective, costs.as_slice())
}

// The costs of the chosen cells, in the order of the rows. The error is want of memory.
fn chosen_costs(alloc: Global, inst: &Instance, choice: &Choice) -> Result<Vec<Cost>, NoMemory>
    requires { length choice.now ≡ length inst.now.rows }
    ensures exact { IfOk result (λ v. v.items ≡ costs_of inst.now choice.now) }
    ensures few { IfOk result (λ v. length v.items ≤ most_rows) }
    ensures in_range { IfOk result (λ v. All IsCostInRange v.items) }
{
    let mut costs = Vec::with_capacity(alloc, inst.rows().len())?;
    for row in 0..choice.len() {
        push_some(&mut costs, chosen_cost(inst, choice, row))?;
    }
    Ok(costs)
}

// Puts the cost at the end, if there is one. The error is want of memory.
fn push_some(costs: &mut Vec<Cost>, cost: Option<Cost>) -> Result<(), NoMemory>
    ensures { OnOk result (costs.new.items ≡ costs.old.items ++ option_to_list cost) }
{
    match cost {
        Some(cost) => {
            costs.push(cost)?;
            Ok(())
        }
        None => Ok(()),
    }
}

// The cost of the live cell that the row chooses, if it chooses one.
fn chosen_cost(inst: &Instance, choice: &Choice, row: u32) -> Option<Cost>
    ensures exact { result ≡ chosen_cost inst.now choice.now row }
    ensures in_range { IfSome result IsCostInRange }
{
    if row < choice.len() {
        live_choice(inst, row, choice.get(row))
    } else {
        None
    }
}

// The cost of the cell where it is live, if there is a column.
fn live_choice(inst: &Instance, row: u32, col: Option<u32>) -> Option<Cost>
    ensures exact { result ≡ option_and_then (live_at inst.now row) col }
    ensures in_range { IfSome result IsCostInRange }
{
    match col {
        Some(col) => inst.live(row, col),
        None => None,
    }
}

// The value that the objective gives the costs. The error is want of memory.
fn value_of(alloc: Global, objective: Objective, costs: &[Cost]) -> Result<Value, NoMemory>
    requires few { length costs.now ≤ most_rows }
    requires in_range { All IsCostInRange costs.now }
    ensures exact { IfOk result (λ v. v ≡ value_of objective costs.now) }
    ensures form { IfOk result (HasForm objective) }
{
    match objective {
        Objective::Sum | Objective::SumMax => Ok(Value::One(total_a(costs))),
        Objective::SumPair => Ok(Value::Two(total_a(costs), total_b(costs))),
        Objective::Capped(cap) => Ok(Value::One(i128::from(cap).min(total_a(costs)))),
        Objective::Bottleneck => Ok(Value::One(i128::from(greatest(costs)))),
        Objective::BottleneckMax => Ok(Value::One(i128::from(least(costs)))),
        Objective::TimeCost => Ok(Value::Two(
            i128::from(greatest(costs)),
            total_b_at(greatest(costs), costs),
        )),
        Objective::Balanced => Ok(Value::One(
            i128::from(greatest(costs)) - i128::from(least(costs)),
        )),
        Objective::Lex => Ok(Value::Many(descending(alloc, costs)?)),
    }
}
