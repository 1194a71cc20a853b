//! Whether at each step of a phase the rows that have entered and the columns that stay are as many
//! as a step asks.

ghost use Rattle.std.specs.Prelude.{◌≡◌, ◌↔◌, ◌<◌, ◌≤◌, ◌+◌, ◌-◌, ◌==◌, ℕ, if◌then◌else◌, length, IsTrue, slice_index};
ghost use Rattle.asg_admit.specs.Admission.{AreBalanced, AreCounted, has_mark};
ghost use Rattle.asg_proof.specs.Phases.{entered_at, staying_at};
ghost use Rattle.asg_proof.specs.Steps.{count_below};
ghost use Rattle.asg_model.specs.Limits.{most_side};

// How many steps are counted at a time.
const WINDOW: usize = 2_000;

// How many steps are few: their counts are kept in less room.
const FEW: usize = 128;

/// Whether at each step the rows that have entered and the columns that stay are one more than the
/// side. After the first step that is so where as many rows enter as columns leave.
pub fn are_counted(enters: &[u32], leaves: &[u32], end: usize) -> bool
    requires leaves { length leaves.now ≡ length enters.now }
    requires few { length enters.now ≤ most_side }
    ensures { IsTrue result ↔ AreCounted enters.now leaves.now end }
{
    if end == 0 {
        return true;
    }
    if entered(enters, 0) + staying(leaves, 0) != enters.len() + 1 {
        return false;
    }
    are_balanced(enters, leaves, end - 1)
}

/// How many rows have entered at a step.
pub fn entered(enters: &[u32], t: usize) -> usize
    ensures few { result ≤ length enters.now }
    ensures count { result ≡ count_below (entered_at enters.now t) (length enters.now) }
{
    let mut count = 0;
    for r in 0..enters.len() {
        if enters[r] as usize <= t {
            count += 1;
        }
    }
    count
}

/// How many columns stay at a step.
pub fn staying(leaves: &[u32], t: usize) -> usize
    ensures few { result ≤ length leaves.now }
    ensures count { result ≡ count_below (staying_at leaves.now t) (length leaves.now) }
{
    let mut count = 0;
    for k in 0..leaves.len() {
        if t < leaves[k] as usize {
            count += 1;
        }
    }
    count
}

// Whether at each of so many steps after the first as many rows enter as columns leave.
fn are_balanced(enters: &[u32], leaves: &[u32], count: usize) -> bool
    requires few_rows { length enters.now ≤ most_side }
    requires few_columns { length leaves.now ≤ most_side }
    ensures { IsTrue result ↔ AreBalanced enters.now leaves.now 1 count }
{
    for window in 0..count.div_ceil(WINDOW) {
        let first = WINDOW * window;
        if !is_window_balanced(enters, leaves, first + 1, (count - first).min(WINDOW)) {
            return false;
        }
    }
    true
}

// Whether at each of so many steps from one on as many rows enter as columns leave.
fn is_window_balanced(enters: &[u32], leaves: &[u32], first: usize, count: usize) -> bool
    requires few_rows { length enters.now ≤ most_side }
    requires few_columns { length leaves.now ≤ most_side }
    requires window { count ≤ 2000 }
    ensures { IsTrue result ↔ AreBalanced enters.now leaves.now first count }
{
    if count <= FEW {
        are_few_balanced(enters, leaves, first, count)
    } else {
        let mut entering = [0; WINDOW];
        let mut leaving = [0; WINDOW];
        are_counts_equal(enters, leaves, first, count, &mut entering, &mut leaving)
    }
}

// The same of few steps, for which less room is cleared.
fn are_few_balanced(enters: &[u32], leaves: &[u32], first: usize, count: usize) -> bool
    requires few_rows { length enters.now ≤ most_side }
    requires few_columns { length leaves.now ≤ most_side }
    requires window { count ≤ 128 }
    ensures { IsTrue result ↔ AreBalanced enters.now leaves.now first count }
{
    let mut entering = [0; FEW];
    let mut leaving = [0; FEW];
    are_counts_equal(enters, leaves, first, count, &mut entering, &mut leaving)
}

// The same, by counts in two lists of zeros that have a place for each step.
fn are_counts_equal(
    enters: &[u32],
    leaves: &[u32],
    first: usize,
    count: usize,
    entering: &mut [u32],
    leaving: &mut [u32],
) -> bool
    requires few_rows { length enters.now ≤ most_side }
    requires few_columns { length leaves.now ≤ most_side }
    requires entering { count ≤ length entering.old }
    requires leaving { count ≤ length leaving.old }
    requires clear_rows { (i : ℕ) → i < length entering.old → slice_index entering.old i ≡ 0 }
    requires clear_columns { (i : ℕ) → i < length leaving.old → slice_index leaving.old i ≡ 0 }
    ensures { IsTrue result ↔ AreBalanced enters.now leaves.now first count }
{
    count_marks(enters, first, entering);
    count_marks(leaves, first, leaving);
    for i in 0..count {
        if entering[i] != leaving[i] {
            return false;
        }
    }
    true
}

// Counts how many marks are each of so many numbers from one on.
fn count_marks(marks: &[u32], first: usize, counts: &mut [u32])
    requires few { length marks.now ≤ most_side }
    requires clear { (i : ℕ) → i < length counts.old → slice_index counts.old i ≡ 0 }
    ensures size { length counts.new ≡ length counts.old }
    ensures counts { (i : ℕ) → i < length counts.old → slice_index counts.new i
        ≡ count_below (has_mark marks.now (first + i)) (length marks.now) }
{
    for k in 0..marks.len() {
        count_mark(marks[k] as usize, first, counts);
    }
}

// Counts a mark, where it is one of so many numbers from one on.
#[inline]
fn count_mark(mark: usize, first: usize, counts: &mut [u32])
    requires { (i : ℕ) → i < length counts.old → slice_index counts.old i ≤ most_side }
    ensures size { length counts.new ≡ length counts.old }
    ensures counts { (i : ℕ) → i < length counts.old → slice_index counts.new i
        ≡ slice_index counts.old i + (if mark == first + i then 1 else 0) }
{
    if mark < first {
        return;
    }
    let place = mark - first;
    if place < counts.len() {
        counts[place] += 1;
    }
}
