//! Whether each column that rises is full.

ghost use Rattle.std.specs.Prelude.{◌≡◌, ◌+◌, ◌<◌, ◌≤◌, ◌^◌, ℕ, IsTrue, length, count_by, replicate, slice_index, if◌then◌else◌};
ghost use Rattle.asg_model.specs.Counts.{capacity_at};
ghost use Rattle.asg_model.specs.Limits.{most_columns};
ghost use Rattle.asg_model.specs.ValidChoice.{takes};
ghost use Rattle.asg_table_sums.specs.Level.{IsFull};

use asg_model::limits::MOST_COLUMNS;
use asg_model::{Choice, Instance};

// A count for each column that an instance may have, each 0.
fn no_takers() -> [u32; MOST_COLUMNS]
    ensures { result ≡ replicate most_columns 0 }
{
    [0; MOST_COLUMNS]
}

// Counts the column that a row chooses, if it chooses one.
fn take_one(chosen: Option<u32>, taken: &mut [u32; MOST_COLUMNS])
    requires { (c : ℕ) → c < most_columns → slice_index taken.old c + 1 < 2 ^ 32 }
    ensures { (c : ℕ) → c < most_columns →
        slice_index taken.new c ≡ slice_index taken.old c + (if takes c chosen then 1 else 0) }
{
    match chosen {
        Some(col) if (col as usize) < MOST_COLUMNS => {
            taken[col as usize] += 1;
        }
        _ => {}
    }
}

// How many rows choose each of the columns that an instance may have.
fn takers(choice: &Choice) -> [u32; MOST_COLUMNS]
    ensures { (c : ℕ) → c < most_columns →
        slice_index result c ≡ count_by (takes c) choice.now }
{
    let mut taken = no_takers();
    for row in 0..choice.len() {
        take_one(choice.get(row), &mut taken);
    }
    taken
}

// Whether a column's capacity is at most an amount.
fn is_within(inst: &Instance, column: usize, taken: u32) -> bool
    requires { column < length inst.now.columns }
    ensures { IsTrue result → capacity_at inst.now column ≤ taken }
{
    inst.columns()[column].cap <= taken
}

// Whether a column that so many rows choose is full.
#[tactic(auto, using(crate::proofs::FullColumns::full_by))]
fn is_filled(inst: &Instance, choice: &Choice, rises: &[u32], column: usize, taken: u32) -> bool
    requires there { column < length inst.now.columns }
    requires taken { taken ≡ count_by (takes column) choice.now }
    ensures { IsTrue result → IsFull inst.now choice.now rises.now column }
{
    is_within(inst, column, taken)
}

// Whether a column doesn't rise, or is full, where so many rows choose it.
#[tactic(auto, using(crate::proofs::FullColumns::still))]
fn is_full(inst: &Instance, choice: &Choice, rises: &[u32], column: usize, taken: u32) -> bool
    requires within { column < length rises.now }
    requires there { column < length inst.now.columns }
    requires taken { taken ≡ count_by (takes column) choice.now }
    ensures { IsTrue result → IsFull inst.now choice.now rises.now column }
{
    if rises[column] == 0 {
        return true;
    }
    is_filled(inst, choice, rises, column, taken)
}

// Whether each column that rises is full.
pub(crate) fn are_full(inst: &Instance, choice: &Choice, rises: &[u32]) -> bool
    ensures { IsTrue result → (c : ℕ) → c < length rises.now
        → IsFull inst.now choice.now rises.now c }
{
    if rises.len() > inst.columns().len() {
        return false;
    }
    let taken = takers(choice);
    'columns: for column in 0..rises.len() {
        if !is_full(inst, choice, rises, column, taken[column]) {
            return false;
        }
    }
    true
}
