//! Squares that are solved by phases and columns that are given, from wherever they come.

ghost use Rattle.std.specs.Prelude.{◌≡◌, ℕ, ◌<◌, ◌≤◌, List, None, length, IfOk, IfSome, IsTrue, OnErr};
ghost use Rattle.asg_admit.specs.Reduced.{IsReduced};
ghost use Rattle.asg_match.specs.Matching.{IsMatched, Matches};
ghost use Rattle.asg_pool.specs.Forest.{phases_to};
ghost use Rattle.asg_proof.specs.Phases.{AreAdmittedPhases};
ghost use Rattle.asg_square.specs.Grid.{cell_at};
ghost use Rattle.asg_algebra.specs.Assigned.{IsAssigned};
ghost use Rattle.asg_algebra.specs.Ended.{last_of, EndsIn, IsPerfectEnd};
ghost use Rattle.asg_algebra.specs.Solved.{HasSolved, unmatched};

use crate::NoMemory;
use crate::absorbed_cells::match_columns;
use crate::solving::Solved;
use crate::square_solvers::{AssignedSquare, SolvedSquare};
use crate::taken::take_phases;
use asg_admit::Reduced;
use asg_kept::{Keeps, KeptSquare, RowSquare};
use asg_match::Matching;
use asg_order::DMonoid;
use asg_pool::Region;
use asg_proof::Phase;
use std::alloc::Global;

// Whether every row has a column.
fn is_perfect(matching: &Matching) -> bool
    ensures { IsTrue result → (r : ℕ) → r < length matching.now → IsMatched matching.now r }
{
    'rows: for row in 0..matching.side() {
        if matching.column_of(row).is_none() {
            return false;
        }
    }
    true
}

// Applies phases that are given, in a room for a phase, and gives rows the columns of a list; the
// end where every row has one then, and `None` otherwise. Phases that are known to be admitted in
// turn aren't tested.
fn end_by<M: DMonoid, S: KeptSquare<M>>(
    m: &M,
    square: &mut S,
    matching: &mut Matching,
    region: &mut Region<M::Value>,
    given: &[Phase<M::Value>],
    columns: &[u32],
    room: &mut [M::Value],
    are_known: bool,
) -> Option<Solved>
    requires reduced { IsReduced (M.monoid_of m.now) (S.as_reduced square.old) }
    requires matching_side { length matching.old ≡ (S.as_reduced square.old).now.side }
    requires empty { (r c : ℕ) → Matches matching.old r c → ⊥ }
    requires few { length given.now ≤ unmatched matching.old }
    requires spare { length given.now ≤ region.old.spare }
    requires region_side { region.old.side ≡ (S.as_reduced square.old).now.side }
    requires room { (S.as_reduced square.old).now.side < length room.old }
    requires known { let reduced = S.as_reduced square.old in IsTrue are_known
        → AreAdmittedPhases (M.monoid_of m.now) (M.difference m.now) reduced.now.side given.now
        (cell_at reduced.now) }
    ensures solved { IfSome result (λ ended. HasSolved (M.monoid_of m.now) (M.difference m.now)
        (S.as_reduced square.old) (S.as_reduced square.new) matching.old matching.new region.old
        region.new None (last_of ended)) }
    ensures ends { (rows : List ℕ) → IfSome result (λ ended. EndsIn (M.monoid_of m.now)
        (S.as_reduced square.new) matching.new rows ended) }
    ensures list { IfSome result (λ ended. phases_to region.new (last_of ended) ≡ given.now) }
    ensures perfect { IfSome result IsPerfectEnd }
{
    let mut last = None;
    if !take_phases(m, square, region, &mut last, given, room, are_known) {
        return None;
    }
    match_columns(m, &*square, matching, columns);
    if !is_perfect(matching) {
        return None;
    }
    Some(Solved::Perfect(last))
}

// Applies phases and gives columns that are given to a square as it is kept, in a room for a phase:
// the square as they lead to it and the end, where every row has a column.
fn end_in_room<M: DMonoid, S: KeptSquare<M> + Drop>(
    m: &M,
    square: S,
    matching: &mut Matching,
    region: &mut Region<M::Value>,
    given: &[Phase<M::Value>],
    columns: &[u32],
    room: &mut [M::Value],
    are_known: bool,
) -> Option<(S, Solved)>
    requires reduced { IsReduced (M.monoid_of m.now) (S.as_reduced square) }
    requires matching_side { length matching.old ≡ (S.as_reduced square).now.side }
    requires empty { (r c : ℕ) → Matches matching.old r c → ⊥ }
    requires few { length given.now ≤ unmatched matching.old }
    requires spare { length given.now ≤ region.old.spare }
    requires region_side { region.old.side ≡ (S.as_reduced square).now.side }
    requires room { (S.as_reduced square).now.side < length room.old }
    requires known { let reduced = S.as_reduced square in IsTrue are_known → AreAdmittedPhases
        (M.monoid_of m.now) (M.difference m.now) reduced.now.side given.now
        (cell_at reduced.now) }
    ensures solved { IfSome result (λ e. HasSolved (M.monoid_of m.now) (M.difference m.now)
        (S.as_reduced square) (S.as_reduced e.0) matching.old matching.new region.old region.new None
        (last_of e.1)) }
    ensures ends { (rows : List ℕ) → IfSome result (λ e. EndsIn (M.monoid_of m.now)
        (S.as_reduced e.0) matching.new rows e.1) }
    ensures list { IfSome result (λ e. phases_to region.new (last_of e.1) ≡ given.now) }
    ensures perfect { IfSome result (λ e. IsPerfectEnd e.1) }
{
    let mut square = square;
    let ended = end_by(
        m,
        &mut square,
        matching,
        region,
        given,
        columns,
        room,
        are_known,
    )?;
    Some((square, ended))
}

// Keeps a reduced square, and applies phases and gives columns that are given to it: the square as
// they lead to it and the end, where every row has a column. The error is want of memory.
fn kept_end<M: Keeps>(
    alloc: Global,
    m: &M,
    reduced: Reduced<M::Value>,
    matching: &mut Matching,
    region: &mut Region<M::Value>,
    given: &[Phase<M::Value>],
    columns: &[u32],
) -> Result<Option<(M::Square, Solved)>, NoMemory>
    requires reduced { IsReduced (M.monoid_of m.now) reduced }
    requires matching_side { length matching.old ≡ reduced.now.side }
    requires empty { (r c : ℕ) → Matches matching.old r c → ⊥ }
    requires few { length given.now ≤ unmatched matching.old }
    requires spare { length given.now ≤ region.old.spare }
    requires region_side { region.old.side ≡ reduced.now.side }
    ensures solved { IfOk result (λ found. IfSome found (λ e. HasSolved (M.monoid_of m.now)
        (M.difference m.now) reduced (M.Square.as_reduced e.0) matching.old matching.new region.old
        region.new None (last_of e.1))) }
    ensures ends { (rows : List ℕ) → IfOk result (λ found. IfSome found (λ e.
        EndsIn (M.monoid_of m.now) (M.Square.as_reduced e.0) matching.new rows e.1)) }
    ensures list { IfOk result (λ found. IfSome found (λ e.
        phases_to region.new (last_of e.1) ≡ given.now)) }
    ensures perfect { IfOk result (λ found. IfSome found (λ e. IsPerfectEnd e.1)) }
    ensures kept_matching { OnErr result (matching.new ≡ matching.old) }
    ensures kept_region { OnErr result (region.new ≡ region.old) }
{
    let are_known = m.knows_admitted(alloc, &reduced.now, given)?;
    let square = m.keep(alloc, reduced)?;
    let places = square.side() as usize + 1;
    let mut room = vec![in alloc; m.unit(); places]?;
    let room = room.as_mut_slice();
    Ok(end_in_room(m, square, matching, region, given, columns, room, are_known))
}

/// Solves a reduced square by phases and columns that are given, from wherever they come: what
/// [`solve_square`](crate::solve_square) gives where they solve it, and `None` where they don't.
/// Each phase is tested before it is applied and pushed, unless few looks at the cells tell that all
/// are admitted; the first that isn't admitted, or that hasn't 1 to side steps, ends it. Then each
/// row gets its column of the list where no row before has it and the cell is absorbed, and where
/// every row gets one the square is solved: the phases that led there are those that are given.
///
/// The matching is empty, no trail leads to the square, and the phases are at most as many as the
/// rows and as the records spare. After `None` phases may have been pushed, and rows may have
/// columns. The error is want of memory; then the matching and the region are as they were. The time
/// is that of the tests: at most the side's square for each phase of sums that stay below the top,
/// and for each step of other phases.
pub fn solve_given<M: Keeps>(
    alloc: Global,
    m: &M,
    reduced: Reduced<M::Value>,
    matching: &mut Matching,
    region: &mut Region<M::Value>,
    given: &[Phase<M::Value>],
    columns: &[u32],
) -> Result<Option<SolvedSquare<M::Value>>, NoMemory>
    requires reduced { IsReduced (M.monoid_of m.now) reduced }
    requires matching_side { length matching.old ≡ reduced.now.side }
    requires empty { (r c : ℕ) → Matches matching.old r c → ⊥ }
    requires few { length given.now ≤ unmatched matching.old }
    requires spare { length given.now ≤ region.old.spare }
    requires region_side { region.old.side ≡ reduced.now.side }
    ensures solved { IfOk result (λ found. IfSome found (λ s. HasSolved (M.monoid_of m.now)
        (M.difference m.now) reduced s.reduced matching.old matching.new region.old region.new None
        (last_of s.ended))) }
    ensures ends { (rows : List ℕ) → IfOk result (λ found. IfSome found (λ s.
        EndsIn (M.monoid_of m.now) s.reduced matching.new rows s.ended)) }
    ensures list { IfOk result (λ found. IfSome found (λ s.
        phases_to region.new (last_of s.ended) ≡ given.now)) }
    ensures perfect { IfOk result (λ found. IfSome found (λ s. IsPerfectEnd s.ended)) }
    ensures kept_matching { OnErr result (matching.new ≡ matching.old) }
    ensures kept_region { OnErr result (region.new ≡ region.old) }
{
    match kept_end(alloc, m, reduced, matching, region, given, columns) {
        Ok(Some((square, ended))) => Ok(Some(SolvedSquare {
            reduced: square.into_reduced(),
            ended,
        })),
        Ok(None) => Ok(None),
        Err(error) => Err(error),
    }
}

/// Does what [`solve_given`] does, under the same conditions, where the values of the reduced cells
/// aren't asked for afterwards: they aren't written out.
pub fn assign_given<M: Keeps>(
    alloc: Global,
    m: &M,
    reduced: Reduced<M::Value>,
    matching: &mut Matching,
    region: &mut Region<M::Value>,
    given: &[Phase<M::Value>],
    columns: &[u32],
) -> Result<Option<AssignedSquare<M::Value>>, NoMemory>
    requires reduced { IsReduced (M.monoid_of m.now) reduced }
    requires matching_side { length matching.old ≡ reduced.now.side }
    requires empty { (r c : ℕ) → Matches matching.old r c → ⊥ }
    requires few { length given.now ≤ unmatched matching.old }
    requires spare { length given.now ≤ region.old.spare }
    requires region_side { region.old.side ≡ reduced.now.side }
    ensures assigned { IfOk result (λ found. IfSome found (IsAssigned (M.monoid_of m.now)
        (M.difference m.now) reduced matching.old matching.new region.old region.new)) }
    ensures kept_matching { OnErr result (matching.new ≡ matching.old) }
    ensures kept_region { OnErr result (region.new ≡ region.old) }
{
    match kept_end(alloc, m, reduced, matching, region, given, columns) {
        Ok(Some((square, ended))) => Ok(Some(AssignedSquare {
            square: square.into_square(),
            ended,
        })),
        Ok(None) => Ok(None),
        Err(error) => Err(error),
    }
}
