//! Children of an instance.

ghost use Rattle.std.specs.Prelude.{◌≡◌, ◌≤◌, ◌<◌, ℕ, IfOk, length};
ghost use Rattle.asg_model.specs.Counts.{placed};
ghost use Rattle.asg_model.specs.ValidChoice.{IsValid};
ghost use Rattle.asg_model.specs.declared.parts.Place.TheVariants.{All as PlaceAll};
ghost use Rattle.asg_rankings.specs.Children.{IsRowNumbered, is_chosen, is_kept_at, is_kept, child};

use crate::NoMemory;
use asg_model::{Choice, Instance};
use std::alloc::Global;

/// The child of an instance by a choice and a branch, which is 1 up to the number of active rows:
/// of these rows in order, those before the one of that number keep the choice's cell alone, and
/// that one loses it. The valid choices of all children are those of the instance other than the
/// choice, each in one child [Murty 1968]. The error is want of memory.
pub fn child(
    alloc: Global,
    inst: &Instance,
    choice: &Choice,
    branch: u32,
) -> Result<Instance, NoMemory>
    requires place { inst.now.place ≡ PlaceAll }
    requires valid { IsValid inst.now choice.now }
    requires from { 1 ≤ branch }
    requires upto { branch ≤ placed inst.now }
    ensures { IfOk result (λ part. part ≡ child inst.now choice.now branch) }
{
    let split = row_numbered(inst, branch);
    let mut part = inst.copy(alloc)?;
    part.retain(&|row: u32, column: u32| keeps(inst, choice, split, row, column));
    Ok(part)
}

// The place of the active row of this number, counted from 1 among the active rows in order.
fn row_numbered(inst: &Instance, number: u32) -> u32
    requires place { inst.now.place ≡ PlaceAll }
    requires from { 1 ≤ number }
    requires upto { number ≤ placed inst.now }
    ensures { IsRowNumbered inst.now number result }
{
    let rows = inst.rows().len() as u32;
    let mut count = 0;
    for row in 0..rows {
        count += u32::from(inst.is_active(row));
        if count == number {
            return row;
        }
    }
    rows
}

// Whether a branch keeps a cell, by the place of the row that has the branch's number.
fn keeps(inst: &Instance, choice: &Choice, split: u32, row: u32, column: u32) -> bool
    requires { row < length choice.now }
    ensures { (branch : ℕ) → IsRowNumbered inst.now branch split
        → result ≡ is_kept inst.now choice.now branch (row, column) }
{
    if inst.is_active(row) {
        keeps_active(choice, split, row, column)
    } else {
        true
    }
}

// The same for an active row.
fn keeps_active(choice: &Choice, split: u32, row: u32, column: u32) -> bool
    requires { row < length choice.now }
    ensures { result ≡ is_kept_at split row (is_chosen choice.now (row, column)) }
{
    let is_chosen = choice.get(row) == Some(column);
    if row < split {
        is_chosen
    } else {
        row != split || !is_chosen
    }
}
