//! Negative costs that an objective refuses.

ghost use Rattle.std.specs.Prelude.{◌≡◌, ◌↔◌, ℕ, ◌<◌, false, IsNone, IfSome, length, slice_index_or};
ghost use Rattle.std.specs.Bool.{OnFalse};
ghost use Rattle.asg_model.specs.declared.parts.Cost.{Cost};
ghost use Rattle.asg_model.specs.Refused.{is_refused, is_refused_at, IsPassed, PassesNegative, IsFirstRefusedOf, IsFirstRefused};
ghost use Rattle.asg_model.specs.Table.{absent};

use asg_model::{ABSENT, Cost, Instance, Objective, RowRoom};

/// The ids of the row and the column of the first live cell that the objective refuses, row by row
/// and in each row column by column: `Capped` refuses a negative `a`, `TimeCost` a negative `b`,
/// and no other objective refuses any. `None` exactly where it refuses no live cell. Rows without a
/// negative part are passed over by one loop over what stands in them. It takes no memory.
pub fn negative(objective: Objective, inst: &Instance) -> Option<(u32, u32)>
    ensures none { IsNone result ↔ PassesNegative objective inst.now }
    ensures found { IfSome result (IsFirstRefused objective inst.now) }
{
    if !refuses_some(objective) {
        return None;
    }
    let mut room = RowRoom::new();
    for (place, row) in inst.rows().iter().enumerate() {
        if let Some(col) = refused_column(objective, inst, place as u32, &mut room) {
            return Some((row.id, col));
        }
    }
    None
}

// The id of the column of the row's first live cell that the objective refuses. The cells of a row
// without a negative part aren't looked at one by one.
fn refused_column(
    objective: Objective,
    inst: &Instance,
    row: u32,
    room: &mut RowRoom,
) -> Option<u32>
    ensures none { IsNone result → (c : ℕ) → is_refused_at objective inst.now row c ≡ false }
    ensures found { IfSome result (IsFirstRefusedOf objective inst.now row) }
{
    if !may_refuse(objective, inst, row, room) {
        return None;
    }
    first_refused(objective, inst, row)
}

// False: the objective refuses no live cell of the row, since no part that it looks at is negative.
fn may_refuse(objective: Objective, inst: &Instance, row: u32, room: &mut RowRoom) -> bool
    ensures { OnFalse result ((c : ℕ) → is_refused_at objective inst.now row c ≡ false) }
{
    let Some(parts) = inst.row_parts(row, room) else {
        return true;
    };
    match objective {
        Objective::Capped(_) => has_negative(parts.firsts, ABSENT),
        Objective::TimeCost => has_negative(parts.seconds, 0),
        _ => true,
    }
}

// Whether one of the parts is negative, but for those that are passed over.
fn has_negative(parts: &[i64], passed: i64) -> bool
    ensures { OnFalse result ((c : ℕ) → c < length parts.now
        → IsPassed passed (slice_index_or parts.now c absent)) }
{
    for column in 0..parts.len() {
        if is_negative(parts[column], passed) {
            return true;
        }
    }
    false
}

// Whether a part is negative, and not passed over.
fn is_negative(part: i64, passed: i64) -> bool
    ensures { OnFalse result (IsPassed passed part) }
{
    part < 0 && part != passed
}

// The id of the column of the row's first live cell that the objective refuses, cell by cell.
fn first_refused(objective: Objective, inst: &Instance, row: u32) -> Option<u32>
    ensures none { IsNone result → (c : ℕ) → is_refused_at objective inst.now row c ≡ false }
    ensures found { IfSome result (IsFirstRefusedOf objective inst.now row) }
{
    for (place, column) in inst.columns().iter().enumerate() {
        if is_refused_at(objective, inst, row, place as u32) {
            return Some(column.id);
        }
    }
    None
}

// Whether the cell at the places is live and the objective refuses its cost.
fn is_refused_at(objective: Objective, inst: &Instance, row: u32, col: u32) -> bool
    ensures { result ≡ is_refused_at objective inst.now row col }
{
    match inst.live(row, col) {
        Some(cost) => objective.refuses(cost),
        None => false,
    }
}

// Whether the objective refuses a cost at all.
fn refuses_some(objective: Objective) -> bool
    ensures { OnFalse result ((cost : Cost) → is_refused objective cost ≡ false) }
{
    match objective {
        Objective::Capped(_) | Objective::TimeCost => true,
        _ => false,
    }
}
