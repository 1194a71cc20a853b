//! Cells of a counted row, up to 64 of them at a time: what their costs enter as, and a word whose
//! bits say which are present.

ghost use Rattle.std.specs.Prelude.{◌≡◌, ◌≢◌, ℕ, ◌<◌, ◌≤◌, IfSome, None, Some, is_some, length, slice_get, slice_index_or};
ghost use Rattle.asg_model.specs.declared.parts.Cost.{Cost};
ghost use Rattle.asg_model.specs.Table.{absent, table_cost};
ghost use Rattle.asg_cell_tables.specs.Filling.{AreBitsOf};
ghost use Rattle.asg_cell_tables.specs.LabelledCells.{MayEnterEach, Entering};
ghost use Rattle.asg_cell_tables.specs.RowPieces.{ArePieceParts, entered_value, live_cost};

use crate::piece_words::present_word;
use asg_model::{ABSENT, Cost, Instance, RowParts};

// The cost at a place, none where the first part is that of an absent cell.
#[inline]
fn cost_at(parts: RowParts<'_>, k: usize) -> Option<Cost>
    requires { k < length parts.firsts.now }
    ensures { result ≡ table_cost parts.entry.seconds.now k
        (slice_index_or parts.entry.firsts.now k absent) }
{
    if parts.firsts[k] == ABSENT {
        None
    } else {
        Some(parts.present_cost(k))
    }
}

// What a cost enters as, the free value where there is none.
#[inline]
fn entered_or<V: Copy, E: Fn(Cost) -> V>(enter: &E, cost: Option<Cost>, free: V) -> V
    requires { IfSome cost (E.pre enter.now) }
    ensures entered { IfSome cost (λ x. E.post enter.now x result) }
    ensures free { cost ≡ None → result ≡ free }
{
    match cost {
        Some(x) => enter(x),
        None => free,
    }
}

// Writes what the cells enter as by the parts of their costs, the free value for an absent one.
#[inline]
fn enter_some<V: Copy, E: Fn(Cost) -> V>(
    inst: &Instance,
    free: V,
    enter: &E,
    r: u32,
    columns: &[Option<u32>],
    parts: RowParts<'_>,
    values: &mut [V],
)
    requires enters { MayEnterEach inst.now (E.pre enter.now) }
    requires parts { ArePieceParts inst.now r columns.now parts.firsts.now parts.seconds.now }
    requires count { length columns.now ≡ length values.old }
    ensures count { length values.new ≡ length values.old }
    ensures values { Entering inst.now (E.post enter.now) (λ entered.
        (k : ℕ) → k < length values.old → slice_get values.new k
        ≡ Some (entered_value inst.now free entered r (slice_index_or columns.now k None))) }
{
    let _ = inst;
    let _ = r;
    let _ = columns;
    for k in 0..values.len() {
        let cost = cost_at(parts, k);
        let value = entered_or(enter, cost, free);
        values[k] = value;
    }
}

// The same of 64 cells, all of them present.
#[inline]
fn enter_present<V: Copy, E: Fn(Cost) -> V>(
    inst: &Instance,
    free: V,
    enter: &E,
    r: u32,
    columns: &[Option<u32>],
    parts: RowParts<'_>,
    values: &mut [V],
)
    requires enters { MayEnterEach inst.now (E.pre enter.now) }
    requires parts { ArePieceParts inst.now r columns.now parts.firsts.now parts.seconds.now }
    requires count { length columns.now ≡ length values.old }
    requires full { length values.old ≡ 64 }
    requires present { (k : ℕ) → k < length values.old
        → slice_index_or parts.firsts.now k absent ≢ absent }
    ensures count { length values.new ≡ length values.old }
    ensures values { Entering inst.now (E.post enter.now) (λ entered.
        (k : ℕ) → k < length values.old → slice_get values.new k
        ≡ Some (entered_value inst.now free entered r (slice_index_or columns.now k None))) }
{
    let _ = inst;
    let _ = free;
    let _ = r;
    let _ = columns;
    for k in 0..64usize {
        let cost = parts.present_cost(k);
        values[k] = enter(cost);
    }
}

/// The cells of a counted row in columns with these labels, by the parts of their costs: writes
/// what they enter as, the free value for an absent one, and tells which are present.
#[inline]
pub(crate) fn entered_piece<V: Copy, E: Fn(Cost) -> V>(
    inst: &Instance,
    free: V,
    enter: &E,
    r: u32,
    columns: &[Option<u32>],
    parts: RowParts<'_>,
    values: &mut [V],
) -> u64
    requires enters { MayEnterEach inst.now (E.pre enter.now) }
    requires parts { ArePieceParts inst.now r columns.now parts.firsts.now parts.seconds.now }
    requires count { length columns.now ≡ length values.old }
    requires few { length values.old ≤ 64 }
    ensures present { AreBitsOf (length values.old)
        (λ k. is_some (live_cost inst.now r (slice_index_or columns.now k None))) result }
    ensures count { length values.new ≡ length values.old }
    ensures values { Entering inst.now (E.post enter.now) (λ entered.
        (k : ℕ) → k < length values.old → slice_get values.new k
        ≡ Some (entered_value inst.now free entered r (slice_index_or columns.now k None))) }
{
    let word = present_word(parts.firsts);
    if word == u64::MAX {
        enter_present(inst, free, enter, r, columns, parts, values);
        return word;
    }
    enter_some(inst, free, enter, r, columns, parts, values);
    word
}
