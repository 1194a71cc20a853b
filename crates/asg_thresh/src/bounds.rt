//! Lower bounds of the greatest grade of an assignment, from rows and from columns.

ghost use Rattle.std.specs.Prelude.{◌≡◌, ℕ, ◌+◌, ◌*◌, ◌<◌, ◌≤◌, ◌^◌, IfOk, length, slice_index};
ghost use Rattle.asg_model.specs.Limits.{most_side};
ghost use Rattle.asg_match.specs.Deficient.{IsDeficient};
ghost use Rattle.asg_thresh.specs.Bounds.{IsRowBound, IsColumnBound, AreAllBelow};
ghost use Rattle.asg_thresh.specs.Grades.{IsUnder, grade_at};

use crate::NoMemory;
use crate::grades::row_of;
use std::alloc::Global;

/// A grade that no assignment can do without, and rows that are deficient under it.
#[derive(Drop)]
pub(crate) struct Bound {
    pub(crate) grade: u32,
    pub(crate) rows: Vec<u32>,
}

// A row or a column, and the least of its grades.
#[derive(Clone, Copy)]
struct Least {
    line: u32,
    grade: u32,
}

// The least of some grades.
fn least_of(grades: &[u32]) -> u32
    ensures { (k : ℕ) → k < length grades.now → result ≤ slice_index grades.now k }
{
    let mut least = u32::MAX;
    for grade in grades {
        least = least.min(*grade);
    }
    least
}

// A row whose least grade is the greatest of the least grades of all rows.
fn row_bound(grades: &[u32], side: u32) -> Least
    requires some { 0 < side }
    requires few { side ≤ most_side }
    requires square { length grades.now ≡ side * side }
    ensures { IsRowBound grades.now side result.line result.grade }
{
    let mut dearest = Least {
        line: 0,
        grade: least_of(row_of(grades, side, 0)),
    };
    for row in 1..side {
        let least = least_of(row_of(grades, side, row));
        if least > dearest.grade {
            dearest = Least {
                line: row,
                grade: least,
            };
        }
    }
    dearest
}

// Lowers each grade of a list to that of another list.
fn lower(leasts: &mut [u32], grades: &[u32])
    requires { length leasts.old ≡ length grades.now }
    ensures kept { (k : ℕ) → k < length leasts.old
        → slice_index leasts.new k ≤ slice_index leasts.old k }
    ensures lowered { (k : ℕ) → k < length leasts.old
        → slice_index leasts.new k ≤ slice_index grades.now k }
{
    for k in 0..leasts.len() {
        leasts[k] = leasts[k].min(grades[k]);
    }
}

// The least grade of each column.
fn column_leasts(alloc: Global, grades: &[u32], side: u32) -> Result<Vec<u32>, NoMemory>
    requires few { side ≤ most_side }
    requires square { length grades.now ≡ side * side }
    ensures count { IfOk result (λ v. length v.items ≡ side) }
    ensures least { IfOk result (λ v. (r c : ℕ) → r < side → c < side
        → slice_index v.items c ≤ grade_at grades.now side r c) }
{
    let mut leasts = vec![in alloc; u32::MAX; side as usize]?;
    for row in 0..side {
        lower(leasts.as_mut_slice(), row_of(grades, side, row));
    }
    Ok(leasts)
}

// A place of a greatest number.
fn greatest_place(numbers: &[u32]) -> u32
    requires some { 0 < length numbers.now }
    requires few { length numbers.now ≤ most_side }
    ensures { result < length numbers.now }
{
    let mut greatest = 0;
    for place in 1..numbers.len() {
        if numbers[place] > numbers[greatest] {
            greatest = place;
        }
    }
    greatest as u32
}

// A column whose least grade is the greatest of the least grades of all columns.
fn column_bound(alloc: Global, grades: &[u32], side: u32) -> Result<Least, NoMemory>
    requires some { 0 < side }
    requires few { side ≤ most_side }
    requires square { length grades.now ≡ side * side }
    ensures { IfOk result (λ least. IsColumnBound grades.now side least.line least.grade) }
{
    let leasts = column_leasts(alloc, grades, side)?;
    let line = greatest_place(leasts.as_slice());
    Ok(Least {
        line,
        grade: leasts[line as usize],
    })
}

// All rows below the side, in order.
fn all_rows(alloc: Global, side: u32) -> Result<Vec<u32>, NoMemory>
    ensures { IfOk result (λ v. AreAllBelow side v.items) }
{
    let mut rows = Vec::with_capacity(alloc, side as usize)?;
    for row in 0..side {
        rows.push(row)?;
    }
    Ok(rows)
}

/// The greatest of the least grades of all rows and all columns, with rows that are deficient under
/// it: the one row, or all rows, which can't have the one column.
pub(crate) fn first_bound(alloc: Global, grades: &[u32], side: u32) -> Result<Bound, NoMemory>
    requires some { 0 < side }
    requires few { side ≤ most_side }
    requires square { length grades.now ≡ side * side }
    ensures { IfOk result (λ b. IsDeficient (IsUnder grades.now side b.grade) side b.rows.items) }
{
    let row = row_bound(grades, side);
    let column = column_bound(alloc, grades, side)?;
    if column.grade > row.grade {
        let rows = all_rows(alloc, side)?;
        return Ok(Bound {
            grade: column.grade,
            rows,
        });
    }
    let rows = vec![in alloc; row.line]?;
    Ok(Bound {
        grade: row.grade,
        rows,
    })
}
