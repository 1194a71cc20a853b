//! Perfect assignments of squares that have a choice.

ghost use Rattle.std.specs.Prelude.{◌≡◌, ◌≤◌, IfOk};
ghost use Rattle.asg_model.specs.Limits.{most_side};
ghost use Rattle.asg_model.specs.Shapes.{square_side};
ghost use Rattle.asg_model.specs.ValidChoice.{IsValid};
ghost use Rattle.asg_square.specs.Grid.{CoversSquareOf};

use crate::instances::{Fault, instance};
use asg_model::Place::Exactly;
use asg_model::limits::MOST_SIDE;
use asg_model::{Choice, Cost, Instance, NoMemory};
use asg_square::Square;
use asg_square::laws::grid_law;
use asg_values::is_valid;
use std::alloc::Global;
use std::test::Fail;

const SAMPLE: &[u8] = b"3 2\n4 1\n2 -\n- 3\n";

/// The choice of these columns, by the places of three rows.
pub(crate) fn choice(alloc: Global, columns: &[Option<u32>; 3]) -> Result<Choice, NoMemory> {
    let mut choice = Choice::make(alloc, 3)?;
    choice.set(0, columns[0]);
    choice.set(1, columns[1]);
    choice.set(2, columns[2]);
    Ok(choice)
}

// How many rows are placed and each column holds, the columns of the rows, and the perfect
// assignment by them.
type Case = (u32, u32, [Option<u32>; 3], &'static [u32]);

static CASES: [Case; 2] = [
    (3, 3, [Some(1), Some(0), Some(1)], &[3, 0, 4, 5, 2, 1]),
    (1, 1, [None, Some(0), None], &[3, 0, 2, 1]),
];

// These, for a caller that needn't know them.
fn cases() -> &'static [Case] {
    &CASES
}

// The first part of a cost.
fn first_part(cost: Cost) -> i64
    ensures { result ≡ cost.a }
{
    cost.a
}

// The square of an instance.
fn filled(alloc: Global, inst: &Instance) -> Result<Square<i64>, NoMemory>
    requires { square_side inst.now ≤ most_side }
    ensures { IfOk result (CoversSquareOf inst.now) }
{
    let square = Square::of(alloc, inst, 0, &first_part)?;
    grid_law::<i64>();
    Ok(square)
}

// Whether a valid choice gives this perfect assignment of the square.
fn gives(alloc: Global, inst: &Instance, choice: &Choice, want: &[u32]) -> Result<bool, NoMemory>
    requires small { square_side inst.now ≤ most_side }
    requires valid { IsValid inst.now choice.now }
{
    let square = filled(alloc, inst)?;
    let perm = square.perm_of(alloc, inst, choice);
    drop(square);
    Ok(perm?.as_slice() == want)
}

// Whether the choice of these columns is valid, and gives this perfect assignment.
fn gives_by(
    alloc: Global,
    inst: &Instance,
    columns: &[Option<u32>; 3],
    want: &[u32],
) -> Result<bool, NoMemory> {
    let choice = choice(alloc, columns)?;
    if inst.side() > MOST_SIDE || !is_valid(inst, &choice) {
        return Ok(false);
    }
    gives(alloc, inst, &choice, want)
}

// Whether the sample is shaped so, and its choice gives the assignment of the case.
fn is_perfect(alloc: Global, case: &Case) -> Result<bool, Fault> {
    let (count, each, columns, want) = *case;
    let mut inst = instance(alloc, SAMPLE)?;
    if each == 0 || each > 1000 || inst.shape(Exactly(count), each).is_err() {
        return Ok(false);
    }
    let gives = gives_by(alloc, &inst, &columns, want);
    drop(inst);
    Ok(gives?)
}

#[test]
fn gives_a_perfect_assignment_of_a_choice(rt: HostRuntime) -> Result<(), Fail> {
    for case in cases() {
        assert!(rt; is_perfect(rt.alloc(), case)?);
    }
    Ok(())
}
