//! The memory of what children are grown on.

ghost use Rattle.std.specs.Prelude.{◌≡◌, ◌<◌, ◌≤◌, true, IfOk, length, vec_len};
ghost use Rattle.asg_model.specs.Limits.{most_side};
ghost use Rattle.asg_nodes.specs.Cuts.{AreBitsFor};
ghost use Rattle.asg_rank.specs.Desks.{IsDeskMemory};
ghost use Rattle.asg_branching.specs.Searches.{IsDesk};
ghost use Rattle.asg_square.specs.Grid.{Grid};

use crate::NoMemory;
use crate::pairs::both;
use asg_admit::Reduced;
use asg_algebra::Bench;
use asg_bit_rows::BitRows;
use asg_branching::Desk;
use asg_match::Matching;
use asg_square::Square;
use std::alloc::Global;

// Places for the ids of a Hall set, one more than an instance may have rows.
const IDS: usize = 1001;

/// The memory of a desk: a copy of a square, with bits that keep all cells of it; a matching, and
/// places for the steps of a phase; columns of rows, and ids.
#[derive(Drop)]
pub(crate) struct DeskMemory<V: Copy> {
    copy: (Reduced<V>, BitRows),
    trial: (Matching, Vec<V>),
    columns: (Vec<u32>, Vec<u32>),
}

// Rows of bits over a side, all set.
fn all_bits(alloc: Global, side: u32) -> Result<BitRows, NoMemory>
    requires { side ≤ most_side }
    ensures all { IfOk result (AreBitsFor side (λ _ _. true)) }
{
    let mut bits = BitRows::make(alloc, side, side)?;
    bits.set_all();
    Ok(bits)
}

// A copy of a square, before any phase, with bits that keep all cells of it.
fn copied_square<V: Copy>(
    alloc: Global,
    square: &Square<V>,
    unit: V,
) -> Result<(Reduced<V>, BitRows), NoMemory>
    requires { square.now.side ≤ most_side }
    ensures copy { IfOk result (λ copy. copy.0.now ≡ square.now) }
    ensures bits { IfOk result (λ copy. AreBitsFor square.now.side (λ _ _. true) copy.1) }
{
    let bits = all_bits(alloc, square.side())?;
    let now = square.copy(alloc)?;
    Ok((Reduced { now, index: unit }, bits))
}

// A matching, and places for the steps of a phase.
fn trial_memory<V: Copy>(alloc: Global, side: u32, unit: V) -> Result<(Matching, Vec<V>), NoMemory>
    ensures trial { IfOk result (λ memory. length memory.0 ≡ side) }
    ensures steps { IfOk result (λ memory. side < vec_len memory.1) }
{
    let trial = Matching::make(alloc, side)?;
    let room = vec![in alloc; unit; side as usize + 1]?;
    Ok((trial, room))
}

// Columns of rows, and ids.
fn column_memory(alloc: Global, side: u32) -> Result<(Vec<u32>, Vec<u32>), NoMemory>
    ensures columns { IfOk result (λ memory. vec_len memory.0 ≡ side) }
    ensures ids { IfOk result (λ memory. 1001 ≤ vec_len memory.1) }
{
    let columns = vec![in alloc; 0; side as usize]?;
    let ids = vec![in alloc; 0; IDS]?;
    Ok((columns, ids))
}

// The memory of a solver over a side: a matching, and places for the steps of a phase; columns of
// rows, and ids.
fn solver_memory<V: Copy>(
    alloc: Global,
    side: u32,
    unit: V,
) -> Result<((Matching, Vec<V>), (Vec<u32>, Vec<u32>)), NoMemory>
    ensures trial { IfOk result (λ memory. length memory.0.0 ≡ side) }
    ensures steps { IfOk result (λ memory. side < vec_len memory.0.1) }
    ensures columns { IfOk result (λ memory. vec_len memory.1.0 ≡ side) }
    ensures ids { IfOk result (λ memory. 1001 ≤ vec_len memory.1.1) }
{
    let trial = trial_memory(alloc, side, unit)?;
    both(trial, column_memory(alloc, side))
}

/// The memory of a desk over a copy of a square: all of it but a bench. The error is want of
/// memory.
pub(crate) fn desk_memory<V: Copy>(
    alloc: Global,
    square: &Square<V>,
    unit: V,
) -> Result<DeskMemory<V>, NoMemory>
    requires { square.now.side ≤ most_side }
    ensures { IfOk result (IsDeskMemory square.now) }
{
    let copy = copied_square(alloc, square, unit)?;
    let rest = solver_memory(alloc, square.side(), unit);
    let made = both(copy, rest)?;
    let (trial, columns) = made.1;
    Ok(DeskMemory {
        copy: made.0,
        trial,
        columns,
    })
}

/// What children are grown on, with a bench for it.
pub(crate) fn desk_with<V: Copy>(memory: DeskMemory<V>, bench: Bench<V>) -> Desk<V>
    ensures desk { (Q : Grid V) → IsDeskMemory Q memory → bench.side ≡ Q.side
        → IsDesk Q.side result }
    ensures work { result.work.now ≡ memory.copy.0.now }
    ensures node { result.node ≡ 0 }
    ensures bits { result.bits ≡ memory.copy.1 }
    ensures bench { result.bench ≡ bench }
{
    let DeskMemory {
        copy: (work, bits),
        trial: (trial, room),
        columns: (columns, ids),
    } = memory;
    Desk {
        work,
        node: 0,
        bits,
        bench,
        trial,
        room,
        columns,
        ids,
    }
}
