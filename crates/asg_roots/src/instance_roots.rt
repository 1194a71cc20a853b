//! The squares of instances, solved.

ghost use Rattle.std.specs.Prelude.{◌≤◌, IfOk, IfSome};
ghost use Rattle.asg_model.specs.Limits.{most_cost, most_side};
ghost use Rattle.asg_model.specs.Refused.{PassesNegative};
ghost use Rattle.asg_model.specs.Shapes.{square_side};
ghost use Rattle.asg_square.specs.Grid.{IsSquareOf};
ghost use Rattle.asg_roots.specs.Roots.{IsInstanceRoot};

use crate::NoMemory;
use crate::guesses::RootGuess;
use crate::roots::{Root, hinted_root, solve_root};
use asg_algebra::entered_square;
use asg_duals::Guess;
use asg_kept::Keeps;
use asg_model::Instance;
use asg_order::{Kind, Ordered};
use asg_square::Square;
use std::alloc::Global;

// Solves the square of an instance, its live costs entered into the monoid of a kind, by the
// engine.
fn entered_root<K: Kind>(
    alloc: Global,
    kind: &K,
    inst: &Instance,
    square: Square<<K::M as Ordered>::Value>,
    records: u32,
) -> Result<Root<<K::M as Ordered>::Value>, NoMemory>
where
    K::M: Keeps,
    requires passes { PassesNegative (K.objective kind.now) inst.now }
    requires reach { most_cost ≤ K.reach kind.now }
    requires square { let unit = (K.M.monoid_of (K.monoid kind.now)).unit in
        IsSquareOf inst.now unit (K.entered kind.now) square }
    requires records { square_side inst.now ≤ records }
    ensures { let m = K.monoid kind.now in
        IfOk result (IsInstanceRoot (K.M.monoid_of m) (K.M.difference m) (K.entered kind.now)
        inst.now records) }
{
    let _rows = inst.rows();
    solve_root(alloc, kind.monoid(), square, records)
}

// The same by a hint, where it solves the square.
fn hinted_entered_root<K: Kind>(
    alloc: Global,
    kind: &K,
    inst: &Instance,
    square: Square<<K::M as Ordered>::Value>,
    records: u32,
    hint: &Guess<<K::M as Ordered>::Value>,
) -> Result<Option<Root<<K::M as Ordered>::Value>>, NoMemory>
where
    K::M: Keeps,
    requires passes { PassesNegative (K.objective kind.now) inst.now }
    requires reach { most_cost ≤ K.reach kind.now }
    requires square { let unit = (K.M.monoid_of (K.monoid kind.now)).unit in
        IsSquareOf inst.now unit (K.entered kind.now) square }
    requires records { square_side inst.now ≤ records }
    ensures { let m = K.monoid kind.now in
        IfOk result (λ found. IfSome found (IsInstanceRoot (K.M.monoid_of m) (K.M.difference m)
        (K.entered kind.now) inst.now records)) }
{
    let _rows = inst.rows();
    hinted_root(alloc, kind.monoid(), square, records, hint)
}

// Enters the live costs of an instance, and solves its square by the engine.
fn anew_root<K: Kind>(
    alloc: Global,
    kind: &K,
    inst: &Instance,
    records: u32,
) -> Result<Root<<K::M as Ordered>::Value>, NoMemory>
where
    K::M: Keeps,
    requires side { square_side inst.now ≤ most_side }
    requires passes { PassesNegative (K.objective kind.now) inst.now }
    requires reach { most_cost ≤ K.reach kind.now }
    requires records { square_side inst.now ≤ records }
    ensures { let m = K.monoid kind.now in
        IfOk result (IsInstanceRoot (K.M.monoid_of m) (K.M.difference m) (K.entered kind.now)
        inst.now records) }
{
    let square = entered_square(alloc, kind, inst)?;
    entered_root(alloc, kind, inst, square, records)
}

// Solves the square of an instance by a hint, and where that doesn't solve it anew by the engine.
fn tried_root<K: Kind>(
    alloc: Global,
    kind: &K,
    inst: &Instance,
    square: Square<<K::M as Ordered>::Value>,
    records: u32,
    hint: &Guess<<K::M as Ordered>::Value>,
) -> Result<Root<<K::M as Ordered>::Value>, NoMemory>
where
    K::M: Keeps,
    requires side { square_side inst.now ≤ most_side }
    requires passes { PassesNegative (K.objective kind.now) inst.now }
    requires reach { most_cost ≤ K.reach kind.now }
    requires square { let unit = (K.M.monoid_of (K.monoid kind.now)).unit in
        IsSquareOf inst.now unit (K.entered kind.now) square }
    requires records { square_side inst.now ≤ records }
    ensures { let m = K.monoid kind.now in
        IfOk result (IsInstanceRoot (K.M.monoid_of m) (K.M.difference m) (K.entered kind.now)
        inst.now records) }
{
    match hinted_entered_root(alloc, kind, inst, square, records, hint) {
        Ok(Some(root)) => Ok(root),
        Ok(None) => anew_root(alloc, kind, inst, records),
        Err(error) => Err(error),
    }
}

/// Solves the square of an instance, its live costs entered into the monoid of a kind, from the
/// unit on, in a region with so many records for phases, at least one for each row of the square.
/// The side of the square is at most 2,000, the objective refuses no live cost
/// (`asg_values::negative`), and the kind's reach is at least the cost limit. The error is want of
/// memory.
///
/// Few phases are guessed first and tested; where these don't pass, the engine solves the square
/// anew. Where nothing is guessed, the engine solves it at once, by shortest augmenting paths. The
/// time grows with the cube of the side at most.
pub fn instance_root<K: Kind>(
    alloc: Global,
    kind: &K,
    inst: &Instance,
    records: u32,
) -> Result<Root<<K::M as Ordered>::Value>, NoMemory>
where
    K::M: RootGuess,
    requires side { square_side inst.now ≤ most_side }
    requires passes { PassesNegative (K.objective kind.now) inst.now }
    requires reach { most_cost ≤ K.reach kind.now }
    requires records { square_side inst.now ≤ records }
    ensures { let m = K.monoid kind.now in
        IfOk result (IsInstanceRoot (K.M.monoid_of m) (K.M.difference m) (K.entered kind.now)
        inst.now records) }
{
    let square = entered_square(alloc, kind, inst)?;
    match kind.monoid().guess(alloc, kind.objective(), &square) {
        Ok(Some(hint)) => {
            let root = tried_root(alloc, kind, inst, square, records, &hint);
            drop(hint);
            root
        }
        Ok(None) => entered_root(alloc, kind, inst, square, records),
        Err(error) => {
            drop(square);
            Err(error)
        }
    }
}
