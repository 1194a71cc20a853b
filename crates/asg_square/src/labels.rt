//! What the rows and the columns of a square stand for.

ghost use Rattle.std.specs.Prelude.{◌≡◌, ◌<◌, ◌≤◌, length, map, Some, None, slice_get};
ghost use Rattle.std.specs.List.{range_with_len};
ghost use Rattle.std.specs.Option.{option_map};
ghost use Rattle.asg_model.specs.Limits.{most_side};
ghost use Rattle.asg_square.specs.Labels.{row_label, column_label, first_copy};

use asg_model::{Instance, Place};

// The row that a row of the square stands for, if it is counted.
fn row_label(inst: &Instance, r: u32) -> Option<u32>
    ensures { result ≡ row_label inst.now r }
{
    let is_counted = match inst.place() {
        Place::All => inst.is_active(r),
        Place::Exactly(_) => (r as usize) < inst.rows().len(),
    };
    if is_counted { Some(r) } else { None }
}

// A place among the columns of the instance, and how many copies the columns before it have.
#[derive(Clone, Copy)]
struct CopyRun {
    place: u32,
    first: u32,
}

// The place of the column that a column of the square is a copy of, past the last where it is none,
// from one on whose copies don't begin behind it.
fn run_of(inst: &Instance, c: u32, from: CopyRun) -> CopyRun
    requires few { c ≤ most_side }
    requires there { from.place ≤ length inst.now.columns }
    requires first { from.first ≡ first_copy inst.now from.place }
    requires before { from.first ≤ c }
    ensures there { result.place ≤ length inst.now.columns }
    ensures first { result.first ≡ first_copy inst.now result.place }
    ensures before { result.first ≤ c }
    ensures label { column_label inst.now c
        ≡ option_map (λ _. result.place) (slice_get inst.now.columns result.place) }
{
    let columns = inst.columns();
    let mut first = from.first;
    for place in from.place as usize..columns.len() {
        let cap = columns[place].cap;
        if c < first + cap {
            return CopyRun {
                place: place as u32,
                first,
            };
        }
        first += cap;
    }
    CopyRun {
        place: columns.len() as u32,
        first,
    }
}

// The place, if there is a column.
fn column_at(inst: &Instance, place: u32) -> Option<u32>
    ensures { result ≡ option_map (λ _. place) (slice_get inst.now.columns place) }
{
    match inst.columns().get(place as usize) {
        Some(_) => Some(place),
        None => None,
    }
}

// Writes what the rows of the square stand for.
pub(crate) fn fill_row_labels(inst: &Instance, labels: &mut Vec<Option<u32>>)
    requires { length labels.old.items ≤ most_side }
    ensures count { length labels.new.items ≡ length labels.old.items }
    ensures labels { labels.new.items
        ≡ map (row_label inst.now) (range_with_len 0 (length labels.old.items)) }
{
    for r in 0..labels.len() {
        labels[r] = row_label(inst, r as u32);
    }
}

// Writes what the columns of the square stand for.
pub(crate) fn fill_column_labels(inst: &Instance, labels: &mut Vec<Option<u32>>)
    requires { length labels.old.items ≤ most_side }
    ensures count { length labels.new.items ≡ length labels.old.items }
    ensures labels { labels.new.items
        ≡ map (column_label inst.now) (range_with_len 0 (length labels.old.items)) }
{
    let mut run = CopyRun { place: 0, first: 0 };
    for c in 0..labels.len() {
        run = run_of(inst, c as u32, run);
        labels[c] = column_at(inst, run.place);
    }
}
