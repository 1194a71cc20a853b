//! Whole lists of phases of sums in 64 bits.

ghost use Rattle.std.specs.Prelude.{◌≡◌, None, IfOk, IfSome};
ghost use Rattle.asg_admit.specs.Reduced.{IsReduced};
ghost use Rattle.asg_monoids.specs.BoundedSums.{bounded_sums, bounded_difference, plain_word};
ghost use Rattle.asg_monoids.specs.BoundedSums.{narrow_top};
ghost use Rattle.asg_replays.specs.Replays.{AreReplayed};

use crate::NoMemory;
use crate::replays::first_bad;
use asg_admit::Reduced;
use asg_kept::{DualSquare, Keeps, KeptSquare};
use asg_monoids::NarrowSums;
use asg_proof::WrittenPhase;
use std::alloc::Global;

/// What phases make of a reduced square of sums that stop at 2^62, where they are admitted in turn
/// from it; else nothing is told. The square stays as it is. The copy is kept by dual variables of
/// rows and columns [Burkard 2012], so that each phase takes one look at the cells of the rows that
/// enter, and all cells are written once. The error is want of memory.
pub fn narrow_led(
    alloc: Global,
    start: &Reduced<u64>,
    phases: &[WrittenPhase],
) -> Result<Option<Reduced<u64>>, NoMemory>
    requires { IsReduced (bounded_sums narrow_top) start.now }
    ensures { IfOk result (λ led. IfSome led (AreReplayed (bounded_sums narrow_top)
        bounded_difference plain_word phases.now start.entry.now)) }
{
    let now = start.now.copy(alloc)?;
    let reduced = Reduced {
        now,
        index: start.index,
    };
    let mut square = NarrowSums.keep(alloc, reduced)?;
    match first_bad(alloc, &NarrowSums, &mut square, phases) {
        Ok(bad) => Ok(led_by(square, bad)),
        Err(error) => {
            drop(square);
            Err(error)
        }
    }
}

// What a kept square comes to, where no phase is bad.
fn led_by(square: DualSquare<u64>, bad: Option<usize>) -> Option<Reduced<u64>>
    ensures { IfSome result (λ led. (led ≡ square) × (bad ≡ None)) }
{
    match bad {
        Some(_) => {
            drop(square);
            None
        }
        None => Some(square.into_reduced()),
    }
}
