//! Tables of the numbers of instances.

ghost use Rattle.std.specs.Prelude.{◌≡◌, ◌<◌, ◌≤◌, ◌+◌, ◌*◌, ℕ, IsTrue, IfOk, IfSome, All, length, slice_index};
ghost use Rattle.std.specs.Option.{option_map};
ghost use Rattle.asg_model.specs.Instances.{IsCostInRange};
ghost use Rattle.asg_model.specs.Live.{is_active, is_open, live_at};
ghost use Rattle.asg_model.specs.Table.{AreRowParts};
ghost use Rattle.asg_model.specs.Limits.{most_rows, most_columns};
ghost use Rattle.asg_dual_bounds.specs.Numbers.{number_at};
ghost use Rattle.asg_monoids.specs.NarrowObjectives.{is_narrow_objective};
ghost use Rattle.asg_dual_bounds.specs.Tables.{absent, number_of, number_in, IsTable, IsRowOf, IsTableOf};

use crate::NoMemory;
use asg_model::{Cost, Instance, Objective, RowParts, RowRoom};
use asg_monoids::narrow_entry;
use std::alloc::Global;
use std::marker::Model;

/// What stands in a table where there is no number: more than any number.
pub const ABSENT: u32 = 1 << 31;

/// The numbers of an instance, row by row.
#[derive(Drop)]
pub struct NumberTable {
    rows: usize,
    columns: usize,
    slots: Vec<u32>,
}

impl Model for NumberTable {
    ghost use Rattle.asg_dual_bounds.specs.Tables.{Table, IsTable};

    ghost Value = { Table };

    ghost view = { λ t. record {
      rows = t.rows;
      columns = t.columns;
      slots = t.slots.items;
    } };

    ghost invariant = { λ t. IsTable (record {
      rows = t.rows;
      columns = t.columns;
      slots = t.slots.items;
    }) };
}

impl NumberTable {
    /// The table of the numbers of an instance, for `sum` or `sum-max`. The error is want of
    /// memory.
    pub fn of(alloc: Global, objective: Objective, inst: &Instance) -> Result<NumberTable, NoMemory>
        requires { IsTrue (is_narrow_objective objective) }
        ensures { IfOk result (IsTableOf objective inst.now) }
    {
        let rows = inst.rows().len();
        let columns = inst.columns().len();
        let mut slots = vec![in alloc; ABSENT; rows * columns]?;
        let mut room = RowRoom::new();
        'rows: for row in 0..rows {
            let start = row * columns;
            fill_row(
                objective, inst, row as u32, columns, &mut room, &mut slots, start,
            );
        }
        Ok(NumberTable {
            rows,
            columns,
            slots,
        })
    }

    /// How many rows it has.
    #[inline]
    pub fn rows(&self) -> usize
        ensures rows { result ≡ self.now.rows }
        ensures table { IsTable self.now }
    {
        self.rows
    }

    /// How many columns it has.
    #[inline]
    pub fn columns(&self) -> usize
        ensures columns { result ≡ self.now.columns }
        ensures table { IsTable self.now }
    {
        self.columns
    }

    /// What stands in a row, column by column: its numbers, [`ABSENT`] where there is none.
    #[inline]
    pub fn row(&self, row: usize) -> &[u32]
        requires { row < self.now.rows }
        ensures row { IsRowOf self.now row result.now }
        ensures table { IsTable self.now }
    {
        let start = row * self.columns;
        &self.slots[start..start + self.columns]
    }
}

// Writes what stands in a row of an instance, from a place of the table on.
fn fill_row(
    objective: Objective,
    inst: &Instance,
    row: u32,
    columns: usize,
    room: &mut RowRoom,
    slots: &mut Vec<u32>,
    start: usize,
)
    requires objective { IsTrue (is_narrow_objective objective) }
    requires there { row < length inst.now.rows }
    requires few { columns ≤ most_columns }
    requires columns { columns ≡ length inst.now.columns }
    requires room { start + columns ≤ length slots.old.items }
    requires low { All (λ slot. slot ≤ absent) slots.old.items }
    ensures count { length slots.new.items ≡ length slots.old.items }
    ensures row { (c : ℕ) → c < columns
        → number_of (slice_index slots.new.items (start + c)) ≡ number_at objective inst.now row c }
    ensures before { (k : ℕ) → k < start
        → slice_index slots.new.items k ≡ slice_index slots.old.items k }
    ensures low { All (λ slot. slot ≤ absent) slots.new.items }
{
    let Some(parts) = inst.row_parts(row, room) else {
        unreachable!()
    };
    fill_parts(objective, inst, row, columns, parts, slots, start);
}

// The same, from the costs of the row.
fn fill_parts(
    objective: Objective,
    inst: &Instance,
    row: u32,
    columns: usize,
    parts: RowParts<'_>,
    slots: &mut Vec<u32>,
    start: usize,
)
    requires objective { IsTrue (is_narrow_objective objective) }
    requires few { columns ≤ most_columns }
    requires columns { columns ≡ length inst.now.columns }
    requires parts { AreRowParts inst.now row parts.firsts.now parts.seconds.now }
    requires room { start + columns ≤ length slots.old.items }
    requires low { All (λ slot. slot ≤ absent) slots.old.items }
    ensures count { length slots.new.items ≡ length slots.old.items }
    ensures row { (c : ℕ) → c < columns
        → number_of (slice_index slots.new.items (start + c)) ≡ number_at objective inst.now row c }
    ensures before { (k : ℕ) → k < start
        → slice_index slots.new.items k ≡ slice_index slots.old.items k }
    ensures low { All (λ slot. slot ≤ absent) slots.new.items }
{
    let active = inst.is_active(row);
    'columns: for column in 0..columns {
        slots[start + column] = slot_at(objective, inst, row, active, parts, column as u32);
    }
}

// What stands in a table for a cell of a row with these costs.
#[inline]
fn slot_at(
    objective: Objective,
    inst: &Instance,
    row: u32,
    active: bool,
    parts: RowParts<'_>,
    column: u32,
) -> u32
    requires objective { IsTrue (is_narrow_objective objective) }
    requires parts { AreRowParts inst.now row parts.firsts.now parts.seconds.now }
    requires active { active ≡ is_active inst.now row }
    requires within { column < length inst.now.columns }
    ensures number { number_of result ≡ number_at objective inst.now row column }
    ensures low { result ≤ absent }
{
    match live_cost(inst, row, active, parts, column) {
        Some(cost) => narrow_entry(objective, cost) as u32,
        None => ABSENT,
    }
}

// The cost of a cell of a row with these costs, where it is live.
#[inline]
fn live_cost(
    inst: &Instance,
    row: u32,
    active: bool,
    parts: RowParts<'_>,
    column: u32,
) -> Option<Cost>
    requires parts { AreRowParts inst.now row parts.firsts.now parts.seconds.now }
    requires active { active ≡ is_active inst.now row }
    requires within { column < length inst.now.columns }
    ensures cost { result ≡ live_at inst.now row column }
    ensures in_range { IfSome result IsCostInRange }
{
    let _columns = inst.columns();
    cost_if_open(inst, row, active, parts, column)
}

// The same.
#[inline]
fn cost_if_open(
    inst: &Instance,
    row: u32,
    active: bool,
    parts: RowParts<'_>,
    column: u32,
) -> Option<Cost>
    requires parts { AreRowParts inst.now row parts.firsts.now parts.seconds.now }
    requires active { active ≡ is_active inst.now row }
    requires within { column < length inst.now.columns }
    ensures { result ≡ live_at inst.now row column }
{
    let _ = row;
    if active && is_open(inst, column) {
        parts.cost(column)
    } else {
        None
    }
}

// Whether there is a column at this place, and it is open.
#[inline]
fn is_open(inst: &Instance, column: u32) -> bool
    ensures { result ≡ is_open inst.now column }
{
    match inst.columns().get(column as usize) {
        Some(found) => found.usable,
        None => false,
    }
}
