//! The least limit within which a perfect assignment exists.

ghost use Rattle.std.specs.Prelude.{◌≡◌, ℕ, ◌+◌, ◌*◌, ◌<◌, ◌≤◌, IfOk, All, length, slice_index};
ghost use Rattle.asg_model.specs.Limits.{most_side};
ghost use Rattle.asg_match.specs.Deficient.{IsDeficient};
ghost use Rattle.asg_thresh.specs.Grades.{no_grade, grade_at, IsUpTo, IsUnder};
ghost use Rattle.asg_thresh.specs.Seekers.{HaveSide};
ghost use Rattle.asg_thresh.specs.Thresholds.{IsAssignmentUpTo, IsLeast};

use crate::NoMemory;
use crate::bounds::first_bound;
use crate::grades::{NO_GRADE, row_of};
use crate::seeker::Seeker;
use std::alloc::Global;

/// The least limit within which a perfect assignment exists, with one, and rows that are deficient
/// under it. The limit is that of no cell where no assignment exists.
#[derive(Drop)]
pub(crate) struct Threshold {
    pub(crate) limit: u32,
    pub(crate) perm: Vec<u32>,
    pub(crate) rows: Vec<u32>,
}

// The greatest grade of an assignment.
fn greatest_grade(grades: &[u32], side: u32, perm: &[u32]) -> u32
    requires few { side ≤ most_side }
    requires square { length grades.now ≡ side * side }
    requires assignment { IsAssignmentUpTo grades.now side no_grade perm.now }
    ensures assignment { IsAssignmentUpTo grades.now side result perm.now }
    ensures least { (limit : ℕ) → IsAssignmentUpTo grades.now side limit perm.now → result ≤ limit }
{
    let mut greatest = 0;
    for (row, column) in perm.iter().enumerate() {
        let grade = grades[row * side as usize + *column as usize];
        if grade > greatest {
            greatest = grade;
        }
    }
    greatest
}

// The less of a number and the least above a limit of some grades.
fn least_above(grades: &[u32], limit: u32, least: u32) -> u32
    requires { limit < least }
    ensures above { limit < result }
    ensures upto { result ≤ least }
    ensures each { (k : ℕ) → k < length grades.now
        → slice_index grades.now k < result → slice_index grades.now k ≤ limit }
{
    let mut least = least;
    for grade in grades {
        let above = if *grade > limit { *grade } else { u32::MAX };
        least = least.min(above);
    }
    least
}

// The least grade above the limit of the cells of some rows, that of no cell where they have none.
fn next_grade(grades: &[u32], side: u32, rows: &[u32], limit: u32) -> u32
    requires few { side ≤ most_side }
    requires square { length grades.now ≡ side * side }
    requires rows_below { All (λ r. r < side) rows.now }
    requires limit_below { limit < no_grade }
    ensures above { limit < result }
    ensures upto { result ≤ no_grade }
    ensures each { All (λ r. (c : ℕ) → c < side → grade_at grades.now side r c < result
        → grade_at grades.now side r c ≤ limit) rows.now }
{
    let mut least = NO_GRADE;
    for row in rows {
        least = least_above(row_of(grades, side, *row), limit, least);
    }
    least
}

/// A limit between two bounds: a step above the lower one while no assignment is known, then
/// half-way.
pub(crate) fn middle(low: u32, high: u32, step: u32) -> u32
    requires { low < high }
    ensures low { low ≤ result }
    ensures high { result < high }
{
    if high == NO_GRADE {
        low.saturating_add(step).min(high - 1)
    } else {
        low + (high - low) / 2
    }
}

/// The step after a failure: at first to the limit next to the lower bound, then a million more and
/// twice as many each time.
pub(crate) fn wider(step: u32) -> u32 {
    if step == 0 {
        1
    } else {
        step.saturating_mul(2).max(1_000_000)
    }
}

// Narrows a lower bound, under which the seeker's rows are deficient, and the grade of no cell down
// to the least limit within which a perfect assignment exists. The seeker has the assignment then,
// and rows that are deficient under the limit.
fn narrow(seeker: &mut Seeker, grades: &[u32], side: u32, bound: u32) -> Result<u32, NoMemory>
    requires few { side ≤ most_side }
    requires square { length grades.now ≡ side * side }
    requires side { HaveSide side seeker.old }
    requires deficient { IsDeficient (IsUnder grades.now side bound) side seeker.old.rows.items }
    ensures limit { IfOk result (λ limit. limit ≤ no_grade) }
    ensures least { IfOk result (λ limit.
        IsLeast grades.now side limit seeker.new.perm.items seeker.new.rows.items) }
{
    let mut low = bound;
    let mut high = NO_GRADE;
    let mut step = 0;
    'limits: while low < high {
        let limit = middle(low, high, step);
        if seeker.seek(grades, side, limit)? {
            high = greatest_grade(grades, side, seeker.perm.as_slice());
        } else {
            low = next_grade(grades, side, seeker.rows.as_slice(), limit);
            step = wider(step);
        }
    }
    Ok(high)
}

/// The least limit within which a perfect assignment exists (the threshold method, [Garfinkel
/// 1971]). It begins at the greatest of the rows' and the columns' least grades; limits are tried
/// by value, first next to the lower bound, then up by steps that double, then half-way between the
/// bounds. Each search begins with the matching that the last one left. After a failure the lower
/// bound is the least grade above the limit in the deficient rows. The time grows with the cube of
/// the side for each limit, and there are about as many limits as a grade has bits.
pub(crate) fn least_threshold(
    alloc: Global,
    grades: &[u32],
    side: u32,
) -> Result<Threshold, NoMemory>
    requires some { 0 < side }
    requires few { side ≤ most_side }
    requires square { length grades.now ≡ side * side }
    ensures limit { IfOk result (λ t. t.limit ≤ no_grade) }
    ensures least { IfOk result (λ t. IsLeast grades.now side t.limit t.perm.items t.rows.items) }
{
    let start = first_bound(alloc, grades, side)?;
    let mut seeker = Seeker::make(alloc, side, start.rows)?;
    let limit = narrow(&mut seeker, grades, side, start.grade)?;
    Ok(Threshold {
        limit,
        perm: seeker.perm,
        rows: seeker.rows,
    })
}
