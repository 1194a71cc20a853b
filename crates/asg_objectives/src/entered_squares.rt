//! The squares of instances whose live costs enter the monoid of a kind, and what they come to.

ghost use Rattle.std.specs.Prelude.{◌≤◌, IfOk, IfSome};
ghost use Rattle.asg_model.specs.Limits.{most_cost, most_side};
ghost use Rattle.asg_model.specs.Refused.{PassesNegative};
ghost use Rattle.asg_model.specs.Shapes.{square_side};
ghost use Rattle.asg_proof.specs.PromisedProofs.{GivesFewPhases};
ghost use Rattle.asg_square.specs.Grid.{IsSquareOf};
ghost use Rattle.asg_objectives.specs.FoldOutcomes.{IsFoldOutcome};

use crate::NoMemory;
use crate::guessed_squares::guessed_outcome;
use crate::solved_squares::outcome;
use asg_algebra::entered_square;
use asg_duals::Guess;
use asg_kept::Keeps;
use asg_model::Instance;
use asg_order::{Kind, Ordered};
use asg_proof::Outcome;
use asg_square::Square;
use std::alloc::Global;

// The outcome of the square of an instance whose live costs entered the monoid of a kind.
fn entered_outcome<K: Kind>(
    alloc: Global,
    kind: &K,
    inst: &Instance,
    square: Square<<K::M as Ordered>::Value>,
) -> Result<Outcome, NoMemory>
where
    K::M: Keeps,
    requires passes { PassesNegative (K.objective kind.now) inst.now }
    requires reach { most_cost ≤ K.reach kind.now }
    requires square { let unit = (K.M.monoid_of (K.monoid kind.now)).unit in
        IsSquareOf inst.now unit (K.entered kind.now) square }
    ensures outcome { let m = K.monoid kind.now in
        IfOk result (IsFoldOutcome (K.M.monoid_of m) (K.M.difference m) (K.M.word_of m)
        (K.entered kind.now) inst.now) }
    ensures phases { IfOk result (GivesFewPhases (square_side inst.now)) }
{
    let _rows = inst.rows();
    outcome(alloc, kind.monoid(), inst, square)
}

// The same by a guess, where it passes the tests.
fn guessed_entered_outcome<K: Kind>(
    alloc: Global,
    kind: &K,
    inst: &Instance,
    square: Square<<K::M as Ordered>::Value>,
    guess: &Guess<<K::M as Ordered>::Value>,
) -> Result<Option<Outcome>, NoMemory>
where
    K::M: Keeps,
    requires passes { PassesNegative (K.objective kind.now) inst.now }
    requires reach { most_cost ≤ K.reach kind.now }
    requires square { let unit = (K.M.monoid_of (K.monoid kind.now)).unit in
        IsSquareOf inst.now unit (K.entered kind.now) square }
    ensures outcome { let m = K.monoid kind.now in
        IfOk result (λ found. IfSome found (IsFoldOutcome (K.M.monoid_of m) (K.M.difference m)
        (K.M.word_of m) (K.entered kind.now) inst.now)) }
    ensures phases { IfOk result (λ found. IfSome found (GivesFewPhases (square_side inst.now))) }
{
    let _rows = inst.rows();
    guessed_outcome(
        alloc,
        kind.monoid(),
        inst,
        square,
        guess.phases(),
        guess.columns(),
    )
}

/// A valid choice of least fold in the monoid of a kind, with at most as many phases as the side
/// that prove its fold; where no choice is valid, a Hall set of the whole instance. So the choice
/// is best for the kind's objective. The side of the instance's square is at most 2,000, the
/// objective refuses no live cost of the instance, and the kind's reach is at least the cost limit.
/// The error is want of memory. The time grows with the cube of the side at most, by shortest
/// augmenting paths over a d-monoid [Burkard, Hahn and Zimmermann 1977].
pub fn algebraic<K: Kind>(alloc: Global, kind: &K, inst: &Instance) -> Result<Outcome, NoMemory>
where
    K::M: Keeps,
    requires side { square_side inst.now ≤ most_side }
    requires passes { PassesNegative (K.objective kind.now) inst.now }
    requires reach { most_cost ≤ K.reach kind.now }
    ensures outcome { let m = K.monoid kind.now in
        IfOk result (IsFoldOutcome (K.M.monoid_of m) (K.M.difference m) (K.M.word_of m)
        (K.entered kind.now) inst.now) }
    ensures phases { IfOk result (GivesFewPhases (square_side inst.now)) }
{
    let square = entered_square(alloc, kind, inst)?;
    entered_outcome(alloc, kind, inst, square)
}

/// What [`algebraic`] gives, where a guess may have been made for the square: by the phases of the
/// guess, and where these don't pass the tests by those of the engine, over a square that is made
/// anew. Where there is no guess, the engine solves the square that was made.
pub(crate) fn guessed_algebraic<K: Kind>(
    alloc: Global,
    kind: &K,
    inst: &Instance,
    square: Square<<K::M as Ordered>::Value>,
    guess: Option<Guess<<K::M as Ordered>::Value>>,
) -> Result<Outcome, NoMemory>
where
    K::M: Keeps,
    requires side { square_side inst.now ≤ most_side }
    requires passes { PassesNegative (K.objective kind.now) inst.now }
    requires reach { most_cost ≤ K.reach kind.now }
    requires square { let unit = (K.M.monoid_of (K.monoid kind.now)).unit in
        IsSquareOf inst.now unit (K.entered kind.now) square }
    ensures outcome { let m = K.monoid kind.now in
        IfOk result (IsFoldOutcome (K.M.monoid_of m) (K.M.difference m) (K.M.word_of m)
        (K.entered kind.now) inst.now) }
    ensures phases { IfOk result (GivesFewPhases (square_side inst.now)) }
{
    let Some(guess) = guess else {
        return entered_outcome(alloc, kind, inst, square);
    };
    match guessed_entered_outcome(alloc, kind, inst, square, &guess) {
        Ok(Some(found)) => {
            drop(guess);
            Ok(found)
        }
        Ok(None) => {
            drop(guess);
            algebraic(alloc, kind, inst)
        }
        Err(error) => {
            drop(guess);
            Err(error)
        }
    }
}
