//! Instances of a formula.

ghost use Rattle.std.specs.Prelude.{◌≡◌, ◌≤◌, ◌*◌, pos, map, IfOk};
ghost use Rattle.std.specs.List.{range_with_len};
ghost use Rattle.asg_model.specs.Limits.{most_rows, most_columns};
ghost use Rattle.asg_text.specs.Formula.{most_seed, formula, row_of, column_of, generated_problem};
ghost use Rattle.asg_text.specs.Places.{cost_of_place};

use asg_model::{Column, Instance, NoMemory, Place, Row};
use std::alloc::Global;

/// The instance of the formula, of as many rows as columns: 1 to 1,000. All are active or open, for
/// one row each, with the ids 1, 2, .. in order, and all rows are to be placed. The cell of row i
/// and column j has the first part `(31*i*i + 17*i*j + 13*j*j + seed*(i+j)) mod 997` and the second
/// part 0; the seed is at most 1,000,000. The error is want of memory.
pub fn generated(alloc: Global, seed: u32, side: u32) -> Result<Instance, NoMemory>
    requires seed { seed ≤ most_seed }
    requires some { 1 ≤ side }
    requires few { side ≤ most_rows }
    ensures { IfOk result (λ inst. inst ≡ generated_problem seed side) }
{
    let rows = rows(alloc, side)?;
    let columns = columns(alloc, side)?;
    let costs = costs(alloc, seed, side)?;
    Ok(Instance::of_table(rows, columns, costs, Vec::new(alloc), Place::All))
}

// The first parts of the costs, row by row.
fn costs(alloc: Global, seed: u32, side: u32) -> Result<Vec<i64>, NoMemory>
    requires seed { seed ≤ most_seed }
    requires few { side ≤ most_rows }
    ensures { IfOk result (λ costs. costs.items
        ≡ map (λ k. pos (cost_of_place seed side k)) (range_with_len 0 (side * side))) }
{
    let mut costs = Vec::with_capacity(alloc, (side * side) as usize)?;
    for place in 0..side * side {
        costs.push(i64::from(cost(seed, place / side + 1, place % side + 1)))?;
    }
    Ok(costs)
}

// The first part of the cost of the cell of a row and a column, which count from 1.
fn cost(seed: u32, row: u32, column: u32) -> u32
    requires seed { seed ≤ most_seed }
    requires row { row ≤ most_rows }
    requires column { column ≤ most_columns }
    ensures { result ≡ formula seed row column }
{
    (31 * row * row + 17 * row * column + 13 * column * column + seed * (row + column)) % 997
}

// Active rows with the ids from 1 on.
fn rows(alloc: Global, side: u32) -> Result<Vec<Row>, NoMemory>
    requires { side ≤ most_rows }
    ensures { IfOk result (λ rows. rows.items ≡ map row_of (range_with_len 1 side)) }
{
    (1..side + 1)
        .map(|id| Row { id, active: true })
        .collect(alloc)
}

// Open columns with the ids from 1 on, for one row each.
fn columns(alloc: Global, side: u32) -> Result<Vec<Column>, NoMemory>
    requires { side ≤ most_columns }
    ensures { IfOk result (λ columns. columns.items ≡ map column_of (range_with_len 1 side)) }
{
    (1..side + 1)
        .map(|id| Column {
            id,
            cap: 1,
            usable: true,
        })
        .collect(alloc)
}
