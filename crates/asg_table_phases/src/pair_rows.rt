//! Whether the cells of a row of pairs are, with a number more, at least those of the columns.

ghost use Rattle.std.specs.Prelude.{◌≡◌, ◌<◌, ◌≤◌, ◌+◌, ◌^◌, ℕ, IsTrue, Some, IfSome, length, slice_index, slice_index_or};
ghost use Rattle.asg_model.specs.declared.objectives.Objective.TheVariants.{SumPair};
ghost use Rattle.asg_model.specs.declared.parts.Cost.{Cost};
ghost use Rattle.asg_model.specs.Instances.{IsCostInRange};
ghost use Rattle.asg_model.specs.Table.{absent, table_cost};
ghost use Rattle.asg_monoids.specs.Entered.{shifted, sum_entered};
ghost use Rattle.asg_model.specs.ValueRange.{IsPartInRange};
ghost use Rattle.asg_table_phases.specs.TableRows.{AreWide, FitsPairs, FitsRow, FitsRows};

use asg_model::limits::MOST_COST;
use asg_model::{Cost, Instance, RowParts, RowRoom};

// What the first part of a pair is multiplied by, before its second part is added.
const FIRST_UNIT: u128 = 1 << 42;

// A part of a cost in range, shifted to a number from 0 on.
#[inline]
fn shifted(part: i64) -> u64
    ensures { IsPartInRange part → result ≡ shifted part }
{
    part.wrapping_add(MOST_COST).cast_unsigned()
}

// Whether a pair is, as it enters and with so much more, at least a number.
#[inline]
fn is_above(cost: Cost, number: u128, raise: u128) -> bool
    requires { raise ≤ 2 ^ 120 }
    ensures { IsTrue result → IsCostInRange cost → number ≤ sum_entered SumPair cost + raise }
{
    let first = u128::from(shifted(cost.a));
    let second = u128::from(shifted(cost.b));
    number <= first * FIRST_UNIT + second + raise
}

// Whether the pair in the column at a place, if there is one, is so.
#[inline]
fn fits_at(parts: &RowParts<'_>, column: u32, number: u128, raise: u128) -> bool
    requires { raise ≤ 2 ^ 120 }
    ensures { IsTrue result → (cost : Cost)
        → table_cost parts.now.seconds.now column (slice_index_or parts.now.firsts.now column absent) ≡ Some cost
        → IsCostInRange cost → number ≤ sum_entered SumPair cost + raise }
{
    match parts.cost(column) {
        Some(cost) => is_above(cost, number, raise),
        None => true,
    }
}

// Whether each pair of a row is so by the number of its column.
fn pairs_fit(parts: &RowParts<'_>, columns: &[u128], raise: u128) -> bool
    requires count { length parts.now.firsts.now ≤ length columns.now }
    requires few { length parts.now.firsts.now < 2 ^ 32 }
    requires raise { raise ≤ 2 ^ 120 }
    ensures { IsTrue result → FitsPairs parts.now.firsts.now parts.now.seconds.now columns.now raise }
{
    'columns: for column in 0..parts.firsts.len() {
        if !fits_at(parts, column as u32, columns[column], raise) {
            return false;
        }
    }
    true
}

// Whether each live pair of a row, as it enters, is with so much more at least the number of its
// column.
fn pair_row_fits(
    inst: &Instance,
    columns: &[u128],
    raise: u128,
    row: u32,
    room: &mut RowRoom,
) -> bool
    requires raise { raise ≤ 2 ^ 120 }
    ensures { IsTrue result → FitsRow SumPair inst.now columns.now raise row }
{
    if columns.len() < inst.columns().len() {
        return false;
    }
    let Some(parts) = inst.row_parts(row, room) else {
        return false;
    };
    pairs_fit(&parts, columns, raise)
}

/// Whether each live cell of each row, as it enters for `pair`, is with the number of its row at
/// least that of its column of the instance.
pub(crate) fn pair_rows_fit(inst: &Instance, rows: &[u128], columns: &[u128]) -> bool
    requires count { length inst.now.rows ≤ length rows.now }
    requires rows { AreWide rows.now }
    ensures { IsTrue result → FitsRows SumPair inst.now rows.now columns.now }
{
    let count = inst.rows().len() as u32;
    let mut room = RowRoom::new();
    'rows: for row in 0..count {
        if !pair_row_fits(inst, columns, rows[row as usize], row, &mut room) {
            return false;
        }
    }
    true
}
