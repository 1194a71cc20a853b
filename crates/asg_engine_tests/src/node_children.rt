//! The children of an instance.

ghost use Rattle.std.specs.Prelude.{◌≡◌, ◌≤◌, IsTrue};
ghost use Rattle.asg_model.specs.Counts.{placed};
ghost use Rattle.asg_model.specs.ValidChoice.{IsValid};
ghost use Rattle.asg_model.specs.declared.parts.Place.TheVariants.{All as PlaceAll};

use crate::instances::instance;
use crate::perfect_assignments::choice;
use asg_model::{ABSENT, Choice, Edit, Instance, NoMemory, Objective, Place};
use asg_rankings::child;
use asg_values::is_valid;
use std::alloc::Global;
use std::test::Fail;

// Three rows, of which the second is dropped then.
const THREE: &[u8] = b"3 3\n4 1 3\n2 0 5\n3 2 2\n";

// The first parts of the live cells of the children, row by row, where the first row chooses the
// second column and the last row the third.
const FIRST: [i64; 9] = [4, ABSENT, 3, ABSENT, ABSENT, ABSENT, 3, 2, 2];

const SECOND: [i64; 9] = [ABSENT, 1, ABSENT, ABSENT, ABSENT, ABSENT, 3, 2, ABSENT];

// Whether the live cells of three rows and three columns have these first parts.
fn has_costs(inst: &Instance, want: &[i64; 9]) -> bool {
    for place in 0..9u32 {
        let a = match inst.live(place / 3, place % 3) {
            Some(cost) => cost.a,
            None => ABSENT,
        };
        if a != want[place as usize] {
            return false;
        }
    }
    true
}

// Whether all rows are placed, the choice is valid, and there is such a branch.
fn has_branch(inst: &Instance, choice: &Choice, branch: u32) -> bool
    ensures place { IsTrue result → inst.now.place ≡ PlaceAll }
    ensures valid { IsTrue result → IsValid inst.now choice.now }
    ensures from { IsTrue result → 1 ≤ branch }
    ensures upto { IsTrue result → branch ≤ placed inst.now }
{
    let is_all = match inst.place() {
        Place::All => true,
        Place::Exactly(_) => false,
    };
    is_all && is_valid(inst, choice) && 1 <= branch && branch <= inst.placed()
}

// Whether there is a child by that choice and this branch, with these live cells.
fn has_child(
    alloc: Global,
    inst: &Instance,
    choice: &Choice,
    branch: u32,
    want: &[i64; 9],
) -> Result<bool, NoMemory> {
    if !has_branch(inst, choice, branch) {
        return Ok(false);
    }
    let part = child(alloc, inst, choice, branch)?;
    let has_costs = has_costs(&part, want);
    drop(part);
    Ok(has_costs)
}

// Whether both children of an instance by that choice are those that are told.
fn has_both(alloc: Global, inst: &Instance) -> Result<bool, NoMemory> {
    let choice = choice(alloc, &[Some(1), None, Some(2)])?;
    let first = has_child(alloc, inst, &choice, 1, &FIRST);
    let second = has_child(alloc, inst, &choice, 2, &SECOND);
    drop(choice);
    Ok(first? && second?)
}

#[test]
fn children_by_each_branch(rt: HostRuntime) -> Result<(), Fail> {
    let mut inst = instance(rt.alloc(), THREE)?;
    let dropped = inst.edit(Objective::Sum, Edit::DropRow { row: 2 });
    let has_both = has_both(rt.alloc(), &inst);
    drop(inst);
    assert!(rt; dropped.is_ok() && has_both?);
    Ok(())
}
