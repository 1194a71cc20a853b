//! Whether a choice is valid.

ghost use Rattle.std.specs.Prelude.{◌≡◌, ◌+◌, ◌^◌, ◌≤◌, ◌<◌, ◌↔◌, ℕ, IsTrue, IsSome, IfSome, count_by, replicate, slice_index, if◌then◌else◌};
ghost use Rattle.asg_model.specs.Limits.{most_columns};
ghost use Rattle.asg_model.specs.Live.{live_at};
ghost use Rattle.asg_model.specs.Counts.{capacity_at};
ghost use Rattle.asg_model.specs.ValidChoice.{Chooses, takes, IsValid};

use asg_model::limits::MOST_COLUMNS;
use asg_model::{Choice, Instance};

/// Whether the choice is valid: it is over all rows, each chosen cell is live, no column is chosen
/// more often than its capacity, and as many rows choose as the place rule says. It takes no
/// memory, and time in proportion to the rows and columns.
pub fn is_valid(inst: &Instance, choice: &Choice) -> bool
    ensures { IsTrue result ↔ IsValid inst.now choice.now }
{
    let is_over = choice.len() as usize == inst.rows().len();
    let is_counted = choice.placed_count() == inst.placed();
    is_over && is_counted && are_cells_live(inst, choice) && are_within(inst, choice)
}

// Whether each chosen cell is live.
fn are_cells_live(inst: &Instance, choice: &Choice) -> bool
    ensures { IsTrue result ↔
        ((r c : ℕ) → Chooses choice.now r c → IsSome (live_at inst.now r c)) }
{
    for row in 0..choice.len() {
        if !is_cell_live(inst, row, choice.get(row)) {
            return false;
        }
    }
    true
}

// Whether the cell is live, if there is a column.
fn is_cell_live(inst: &Instance, row: u32, col: Option<u32>) -> bool
    ensures { IsTrue result ↔ IfSome col (λ c. IsSome (live_at inst.now row c)) }
{
    match col {
        Some(col) => inst.live(row, col).is_some(),
        None => true,
    }
}

// Whether no column is chosen more often than its capacity, where each chosen cell is live.
fn are_within(inst: &Instance, choice: &Choice) -> bool
    requires { (r c : ℕ) → Chooses choice.now r c → IsSome (live_at inst.now r c) }
    ensures { IsTrue result ↔ ((c : ℕ) → count_by (takes c) choice.now ≤ capacity_at inst.now c) }
{
    let taken = takers(choice);
    for (place, column) in inst.columns().iter().enumerate() {
        if taken[place] > column.cap {
            return false;
        }
    }
    true
}

// How many rows choose each of the columns that an instance may have.
fn takers(choice: &Choice) -> [u32; MOST_COLUMNS]
    ensures { (c : ℕ) → c < most_columns →
        slice_index result c ≡ count_by (takes c) choice.now }
{
    let mut taken = no_takers();
    for row in 0..choice.len() {
        take_one(choice.get(row), &mut taken);
    }
    taken
}

// Counts the column that a row chooses, if it chooses one.
fn take_one(chosen: Option<u32>, taken: &mut [u32; MOST_COLUMNS])
    requires { (c : ℕ) → c < most_columns → slice_index taken.old c + 1 < 2 ^ 32 }
    ensures { (c : ℕ) → c < most_columns →
        slice_index taken.new c ≡ slice_index taken.old c + (if takes c chosen then 1 else 0) }
{
    match chosen {
        Some(col) if (col as usize) < MOST_COLUMNS => {
            taken[col as usize] += 1;
        }
        _ => {}
    }
}

// A count for each column that an instance may have, each 0.
fn no_takers() -> [u32; MOST_COLUMNS]
    ensures { result ≡ replicate most_columns 0 }
{
    [0; MOST_COLUMNS]
}
