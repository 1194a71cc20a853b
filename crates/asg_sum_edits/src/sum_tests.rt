//! The test of a guess.

ghost use Rattle.std.specs.Prelude.{◌≡◌, ◌≤◌, ◌<◌, ◌+◌, ◌*◌, ◌^◌, ℕ, ℤ, pos, ◌+ℤ◌, ◌≤ℤ◌, IsTrue, IfOk, IfSome, length, slice_index, sum, unsigned_abs, All};
ghost use Rattle.asg_model.specs.declared.objectives.Value.TheVariants.{One};
ghost use Rattle.asg_model.specs.Limits.{most_columns, most_rows};
ghost use Rattle.asg_model.specs.ValidChoice.{IsValid};
ghost use Rattle.asg_model.specs.Values.{choice_value};
ghost use Rattle.asg_monoids.specs.Entered.{cost_reach};
ghost use Rattle.asg_monoids.specs.NarrowObjectives.{is_narrow_objective};
ghost use Rattle.asg_sum_edits.specs.Sessions.{IsFound, IsHeld, IsLeastSum};
ghost use Rattle.asg_sum_edits.specs.SumDuals.{AreAbove, AreSmall, IsOneToOne, IsSingle, number_of};

use crate::NoMemory;
use crate::founds::Found;
use crate::guesses::Guess;
use crate::row_tests::{MOST_AMOUNT, rows_are_held};
use asg_model::limits::MOST_COST;
use asg_model::{Choice, Column, Instance, Objective, RowRoom, Value};
use asg_values::{is_valid, value};
use std::alloc::Global;

// Whether each column takes one row at most.
fn are_single(columns: &[Column]) -> bool
    ensures { IsTrue result → All IsSingle columns.now }
{
    columns.iter().all(|column| column.cap <= 1)
}

/// Whether a valid choice places each row, and each column takes one at most.
pub(crate) fn is_one_to_one(inst: &Instance) -> bool
    ensures { IsTrue result → IsOneToOne inst.now }
{
    let rows = inst.rows().len();
    inst.placed() as usize == rows && are_single(inst.columns())
}

// The numbers added up.
fn total(numbers: &[u64]) -> u128
    requires { length numbers.now ≤ most_columns }
    ensures sum { result ≡ sum numbers.now }
    ensures fits { result < 2 ^ 80 }
{
    let mut total = 0u128;
    'numbers: for number in numbers {
        total += u128::from(*number);
    }
    total
}

// Whether no number is less than before, and none is too great.
fn have_risen(before: &[u64], after: &[u64]) -> bool
    requires { length before.now ≡ length after.now }
    ensures risen { IsTrue result → (k : ℕ) → k < length before.now
        → slice_index before.now k ≤ slice_index after.now k }
    ensures small { IsTrue result → AreSmall after.now }
{
    'places: for place in 0..before.len() {
        if after[place] < before[place] {
            return false;
        }
        if after[place] > MOST_AMOUNT {
            return false;
        }
    }
    true
}

// Whether the falls and the rises hold, where others did.
fn are_held(
    objective: Objective,
    inst: &Instance,
    room: &mut RowRoom,
    before: &Found,
    falls: &[u64],
    rises: &[u64],
) -> bool
    requires { IsHeld objective inst.now before.now }
    ensures over_rows { IsTrue result → length falls.now ≡ length inst.now.rows }
    ensures over_columns { IsTrue result → length rises.now ≡ length inst.now.columns }
    ensures above { IsTrue result → AreAbove objective inst.now falls.now rises.now }
{
    if falls.len() != inst.rows().len() || rises.len() != inst.columns().len() {
        return false;
    }
    if !have_risen(before.rises.as_slice(), rises) {
        return false;
    }
    rows_are_held(objective, inst, room, before.falls.as_slice(), falls, rises)
}

// What costs of so many rows come to as numbers, where this is their sum.
fn entered_sum(objective: Objective, rows: usize, amount: i128) -> u128
    requires narrow { IsTrue (is_narrow_objective objective) }
    requires few { rows ≤ most_rows }
    requires near { unsigned_abs amount ≤ cost_reach * rows }
    ensures exact { pos result ≡ number_of objective rows amount }
    ensures fits { result < 2 ^ 80 }
{
    let reach = i128::from(MOST_COST) * rows as i128;
    match objective {
        Objective::Sum => (amount + reach) as u128,
        Objective::SumMax => (reach - amount) as u128,
        _ => unreachable!(),
    }
}

// Whether costs of so many rows with this sum come to no more than the falls without the rises.
fn is_balanced(
    objective: Objective,
    rows: usize,
    amount: i128,
    falls: &[u64],
    rises: &[u64],
) -> bool
    requires narrow { IsTrue (is_narrow_objective objective) }
    requires rows { rows ≤ most_rows }
    requires over_rows { length falls.now ≤ most_columns }
    requires over_columns { length rises.now ≤ most_columns }
    ensures { IsTrue result →
        (number_of objective rows amount +ℤ pos (sum rises.now)) ≤ℤ pos (sum falls.now) }
{
    if amount.unsigned_abs() > MOST_COST as u128 * rows as u128 {
        return false;
    }
    entered_sum(objective, rows, amount) + total(rises) <= total(falls)
}

// Whether a valid choice with this sum comes to no more than the falls without the rises.
fn is_least(
    objective: Objective,
    inst: &Instance,
    choice: &Choice,
    amount: i128,
    falls: &[u64],
    rises: &[u64],
) -> bool
    requires narrow { IsTrue (is_narrow_objective objective) }
    requires one_to_one { IsOneToOne inst.now }
    requires valid { IsValid inst.now choice.now }
    requires value { choice_value objective inst.now choice.now ≡ One amount }
    requires over_rows { length falls.now ≡ length inst.now.rows }
    requires over_columns { length rises.now ≡ length inst.now.columns }
    ensures { IsTrue result →
        IsLeastSum objective inst.now falls.now rises.now choice.now amount }
{
    let _rows = inst.rows();
    is_balanced(objective, falls.len(), amount, falls, rises)
}

// The choice in which each row has its column. The error is want of memory.
fn choice_of(alloc: Global, columns: &[u32]) -> Result<Choice, NoMemory>
    requires { length columns.now ≤ most_rows }
{
    let mut choice = Choice::make(alloc, columns.len() as u32)?;
    for row in 0..columns.len() as u32 {
        if row < choice.len() {
            choice.set(row, Some(columns[row as usize]));
        }
    }
    Ok(choice)
}

// The sum of a valid choice. The error is want of memory.
fn sum_of(
    alloc: Global,
    objective: Objective,
    inst: &Instance,
    choice: &Choice,
) -> Result<Option<i128>, NoMemory>
    requires { IsValid inst.now choice.now }
    ensures { IfOk result (λ found. IfSome found (λ z.
        choice_value objective inst.now choice.now ≡ One z)) }
{
    match value(alloc, objective, inst, choice)? {
        Value::One(sum) => Ok(Some(sum)),
        _ => Ok(None),
    }
}

// The sum of a choice, where it is valid and comes to no more than the falls without the rises. The
// error is want of memory.
fn least_sum(
    alloc: Global,
    objective: Objective,
    inst: &Instance,
    choice: &Choice,
    falls: &[u64],
    rises: &[u64],
) -> Result<Option<i128>, NoMemory>
    requires narrow { IsTrue (is_narrow_objective objective) }
    requires one_to_one { IsOneToOne inst.now }
    requires over_rows { length falls.now ≡ length inst.now.rows }
    requires over_columns { length rises.now ≡ length inst.now.columns }
    ensures { IfOk result (λ found. IfSome found
        (IsLeastSum objective inst.now falls.now rises.now choice.now)) }
{
    if !is_valid(inst, choice) {
        return Ok(None);
    }
    match sum_of(alloc, objective, inst, choice)? {
        Some(sum) if is_least(objective, inst, choice, sum, falls, rises) => Ok(Some(sum)),
        _ => Ok(None),
    }
}

/// What a guess gives, where it passes all tests: its falls and rises hold, and its choice comes to
/// no more than they say. The error is want of memory.
pub(crate) fn tested(
    alloc: Global,
    objective: Objective,
    inst: &Instance,
    room: &mut RowRoom,
    before: &Found,
    guess: Guess,
) -> Result<Option<Found>, NoMemory>
    requires narrow { IsTrue (is_narrow_objective objective) }
    requires one_to_one { IsOneToOne inst.now }
    requires held { IsHeld objective inst.now before.now }
    ensures { IfOk result (λ found. IfSome found (IsFound objective inst.now)) }
{
    let _rows = inst.rows();
    let Guess {
        columns,
        falls,
        rises,
    } = guess;
    if !are_held(objective, inst, room, before, &falls, &rises) || columns.len() > falls.len() {
        return Ok(None);
    }
    let choice = choice_of(alloc, columns.as_slice())?;
    match least_sum(alloc, objective, inst, &choice, &falls, &rises)? {
        Some(sum) => Ok(Some(Found {
            falls,
            rises,
            choice,
            sum,
        })),
        None => Ok(None),
    }
}
