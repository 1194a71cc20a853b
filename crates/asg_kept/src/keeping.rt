//! Which square serves which monoid.

ghost use Rattle.std.specs.Prelude.{◌≡◌, IfOk, IsTrue};
ghost use Rattle.asg_admit.specs.Reduced.{IsReduced};
ghost use Rattle.asg_monoids.specs.BoundedSums.{bounded_sums, narrow_top};
ghost use Rattle.asg_monoids.specs.Grades.{graded};
ghost use Rattle.asg_monoids.specs.Maxima.{maxima};
ghost use Rattle.asg_proof.specs.Phases.{AreAdmittedPhases};
ghost use Rattle.asg_square.specs.Grid.{cell_at};

use crate::NoMemory;
use crate::dual_squares::DualSquare;
use crate::kept_squares::KeptSquare;
use crate::tested_lists::are_admitted;
use asg_admit::Reduced;
use asg_monoids::{Bounded, Graded, Greatest, NarrowSums};
use asg_order::Written;
use asg_phase_totals::NARROW_TOP;
use asg_proof::Phase;
use asg_square::Square;
use std::alloc::Global;

/// A monoid, with the way to keep its reduced squares that is fastest: sums by dual variables while
/// none comes near the top, so that a phase costs the rows that it looked at and not the cells of
/// the whole square; maxima and graded values by cells that each phase rewrites.
pub trait Keeps: Written {
    type Square: KeptSquare<Self> + Drop;

    /// Keeps a reduced square. The error is want of memory.
    fn keep(&self, alloc: Global, reduced: Reduced<Self::Value>) -> Result<Self::Square, NoMemory>
        requires { IsReduced (Self.monoid_of self.now) reduced }
        ensures { IfOk result (λ square. Self.Square.as_reduced square ≡ reduced) };

    /// Whether phases are admitted in turn from a square, where it is told with few looks at the
    /// cells. The error is want of memory.
    fn knows_admitted(
        &self,
        alloc: Global,
        square: &Square<Self::Value>,
        phases: &[Phase<Self::Value>],
    ) -> Result<bool, NoMemory>
        ensures { IfOk result (λ told. IsTrue told → AreAdmittedPhases (Self.monoid_of self.now)
            (Self.difference self.now) square.now.side phases.now (cell_at square.now)) }
    {
        let _ = alloc;
        let _ = square;
        let _ = phases;
        Ok(false)
    }
}

impl Keeps for Bounded {
    type Square = DualSquare<u128>;

    fn keep(&self, alloc: Global, reduced: Reduced<u128>) -> Result<DualSquare<u128>, NoMemory>
        requires { IsReduced (bounded_sums self.now.top) reduced }
        ensures { IfOk result (λ square. square ≡ reduced) }
    {
        DualSquare::make(alloc, self.top, reduced)
    }

    // It is told of sums that stop at 2^120 alone.
    fn knows_admitted(
        &self,
        alloc: Global,
        square: &Square<u128>,
        phases: &[Phase<u128>],
    ) -> Result<bool, NoMemory> {
        if self.top != 1 << 120 {
            return Ok(false);
        }
        are_admitted(alloc, square, phases)
    }
}

impl Keeps for NarrowSums {
    type Square = DualSquare<u64>;

    fn keep(&self, alloc: Global, reduced: Reduced<u64>) -> Result<DualSquare<u64>, NoMemory>
        requires { IsReduced (bounded_sums narrow_top) reduced }
        ensures { IfOk result (λ square. square ≡ reduced) }
    {
        DualSquare::make(alloc, NARROW_TOP, reduced)
    }

    fn knows_admitted(
        &self,
        alloc: Global,
        square: &Square<u64>,
        phases: &[Phase<u64>],
    ) -> Result<bool, NoMemory> {
        are_admitted(alloc, square, phases)
    }
}

impl Keeps for Greatest {
    type Square = Reduced<u64>;

    fn keep(&self, alloc: Global, reduced: Reduced<u64>) -> Result<Reduced<u64>, NoMemory>
        requires { IsReduced maxima reduced }
        ensures { IfOk result (λ square. square ≡ reduced) }
    {
        let _ = alloc;
        Ok(reduced)
    }
}

impl Keeps for Graded<Bounded> {
    type Square = Reduced<(u64, u128)>;

    fn keep(
        &self,
        alloc: Global,
        reduced: Reduced<(u64, u128)>,
    ) -> Result<Reduced<(u64, u128)>, NoMemory>
        requires { IsReduced (graded (bounded_sums self.now.inner.top)) reduced }
        ensures { IfOk result (λ square. square ≡ reduced) }
    {
        let _ = alloc;
        Ok(reduced)
    }
}
