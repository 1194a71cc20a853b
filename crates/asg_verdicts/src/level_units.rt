//! Levels whose phases each have one step, by 1.

ghost use Rattle.std.specs.Prelude.{◌≡◌, ◌≤◌, ℕ, ℤ, Bool, Option, Some, IfOk, IsTrue, false};
ghost use Rattle.asg_model.specs.Instances.{IsInstance};
ghost use Rattle.asg_model.specs.Limits.{most_side};
ghost use Rattle.asg_model.specs.Shapes.{square_side};
ghost use Rattle.asg_proof.specs.Levels.{left_after};
ghost use Rattle.asg_verdicts.specs.LevelBits.{HasPhases};
ghost use Rattle.asg_verdicts.specs.LevelWalks.{IsBehind, IsCostSquare, IsSized};

use crate::NoMemory;
use crate::level_bits::level_bits;
use crate::level_walks::Walk;
use asg_levels::apply_units;
use asg_model::Instance;
use asg_proof::Level;
use asg_square::Square;
use std::alloc::Global;

/// Takes the phases of a level, where each has one step, by 1, and they are admitted in turn, with
/// its count as their index: then the walk stands behind the level. Otherwise nothing is told, and
/// the walk stays. The time is that of the words of the square's rows, for the level and each of
/// its phases, and of the cells that are left and not free. The error is want of memory.
pub(crate) fn take_units(
    alloc: Global,
    inst: &Instance,
    square: &Square<i64>,
    walk: &mut Walk,
    level: &Level,
) -> Result<bool, NoMemory>
    requires instance { IsInstance inst.now }
    requires side { square_side inst.now ≤ most_side }
    requires square { IsCostSquare inst.now square.now }
    requires sized { IsSized (square_side inst.now) walk.old }
    ensures sized { IfOk result (λ is. IsTrue is → IsSized (square_side inst.now) walk.new) }
    ensures same { IfOk result (λ is. is ≡ false → walk.new ≡ walk.old) }
    ensures phases { IfOk result (λ is. (before : Option ℤ) (left : ℕ → ℕ → Bool)
        → IsBehind inst.now before left walk.old → IsTrue is
        → HasPhases inst.now before left level.now) }
    ensures behind { IfOk result (λ is. (before : Option ℤ) (left : ℕ → ℕ → Bool)
        → IsBehind inst.now before left walk.old → IsTrue is
        → IsBehind inst.now (Some level.now.cost) (left_after inst.now before left level.now)
        walk.new) }
{
    let side = square.side();
    let phases = level.phases.as_slice();
    if side == 0 {
        return Ok(false);
    }
    if phases.len() != level.count as usize {
        return Ok(false);
    }
    let bits = level_bits(alloc, inst, square, walk, level)?;
    if !apply_units(alloc, side, &bits.zeros, &bits.ones, phases, &mut walk.left)? {
        return Ok(false);
    }
    walk.before = Some(level.cost);
    Ok(true)
}
