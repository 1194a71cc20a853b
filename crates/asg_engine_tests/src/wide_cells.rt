//! Dual variables of a square whose cells numbers of 32 bits don't hold.

ghost use Rattle.asg_admit.specs.Reduced.{IsReduced};
ghost use Rattle.asg_monoids.specs.BoundedSums.{bounded_sums, narrow_top};

use crate::instances::{Fault, reduced_of};
use asg_admit::{Reduced, replay};
use asg_duals::{Duals, short_phases, tight_duals};
use asg_monoids::NarrowSums;
use asg_proof::Phase;
use std::alloc::{AllocError as NoMemory, Global};
use std::test::Fail;

// The index after phases, where each is admitted.
fn index_after(reduced: &mut Reduced<u64>, phases: &[Phase<u64>]) -> Option<u64>
    requires { IsReduced (bounded_sums narrow_top) reduced.old }
{
    'phases: for k in 0..phases.len() {
        let phase = &phases[k];
        if !replay(
            &NarrowSums,
            reduced,
            phase.steps(),
            phase.enters(),
            phase.leaves(),
        ) {
            return None;
        }
    }
    Some(reduced.index)
}

// The number of the phases of dual variables, the column of the first row, and the index after
// them.
type Told = (usize, Option<u32>, Option<u64>);

fn told_by(alloc: Global, reduced: &mut Reduced<u64>, duals: &Duals) -> Result<Told, NoMemory>
    requires { IsReduced (bounded_sums narrow_top) reduced.old }
{
    let phases = short_phases(alloc, duals)?;
    let index = index_after(reduced, phases.as_slice());
    let told = (phases.len(), duals.columns().first().copied(), index);
    drop(phases);
    Ok(told)
}

// What is told of the square of a text, whose costs are multiplied by 2^40.
fn told(alloc: Global, text: &[u8]) -> Result<Option<Told>, Fault> {
    let mut reduced = reduced_of(alloc, text, 1 << 40)?;
    let Some(duals) = tight_duals(alloc, &reduced.now)? else {
        drop(reduced);
        return Ok(None);
    };
    let told = told_by(alloc, &mut reduced, &duals);
    drop(duals);
    drop(reduced);
    Ok(Some(told?))
}

#[test]
fn a_square_of_wide_cells_is_solved_by_its_duals(rt: HostRuntime) -> Result<(), Fail> {
    let found = told(rt.alloc(), b"2 2\n1 3\n2 -\n")?;
    assert!(rt; found.is_some_and(|t| t.0 <= 2 && t.1 == Some(1) && t.2 == Some(5 << 40)));
    assert!(rt; told(rt.alloc(), b"2 2\n1 -\n1 -\n")?.is_none());
    Ok(())
}
