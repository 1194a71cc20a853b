//! Instances that are read from texts, and their squares.

ghost use Rattle.std.specs.Prelude.{◌<◌, ℕ, IfOk, IsTrue};
ghost use Rattle.asg_admit.specs.Reduced.{IsReduced};
ghost use Rattle.asg_admit.specs.Settling.{HasValueAt};
ghost use Rattle.asg_monoids.specs.BoundedSums.{bounded_sums, narrow_top};
ghost use Rattle.asg_proof.specs.Steps.{HasValues};
ghost use Rattle.asg_square.specs.Grid.{cell_at};

use asg_admit::Reduced;
use asg_model::limits::{LONGEST_FILE, MOST_SIDE};
use asg_model::{Cost, Instance};
use asg_monoids::NarrowSums;
use asg_order::Ordered;
use asg_square::Square;
use asg_text::{Format, read};
use asg_tokens::TextRefusal;
use std::alloc::{AllocError, Global};

/// Why there is no sample.
#[derive(Clone, Copy, Debug)]
pub(crate) enum Fault {
    /// Memory was wanting.
    NoMemory,
    /// The text isn't read, or is too large.
    Unread,
}

impl From<AllocError> for Fault {
    fn from(_: AllocError) -> Fault {
        Fault::NoMemory
    }
}

impl From<TextRefusal> for Fault {
    fn from(_: TextRefusal) -> Fault {
        Fault::Unread
    }
}

/// The instance of a text: the numbers of its rows and columns, and its costs.
pub(crate) fn instance(alloc: Global, text: &[u8]) -> Result<Instance, Fault> {
    if text.len() > LONGEST_FILE {
        return Err(Fault::Unread);
    }
    Ok(read(alloc, Format::Rect, text)?)
}

// The square of an instance, whose costs are multiplied by a number.
fn square_of(alloc: Global, inst: &Instance, factor: u64) -> Result<Square<u64>, Fault> {
    if inst.side() > MOST_SIDE {
        return Err(Fault::Unread);
    }
    let enter = |cost: Cost| -> u64 { cost.a.cast_unsigned().wrapping_mul(factor) };
    Ok(Square::of(alloc, inst, 0, &enter)?)
}

// Whether the cell is absent or a value.
fn is_value_at(square: &Square<u64>, row: u32, column: u32) -> bool
    requires row { row < square.now.side }
    requires column { column < square.now.side }
    ensures { IsTrue result → HasValueAt (bounded_sums narrow_top) square.now row column }
{
    match square.at(row, column) {
        Some(x) => NarrowSums.is_value(x),
        None => true,
    }
}

// Whether the present cells of a row are values.
fn is_row_of_values(square: &Square<u64>, row: u32) -> bool
    requires { row < square.now.side }
    ensures { IsTrue result → (k : ℕ) → k < square.now.side
        → HasValueAt (bounded_sums narrow_top) square.now row k }
{
    for column in 0..square.side() {
        if !is_value_at(square, row, column) {
            return false;
        }
    }
    true
}

// Whether all present cells are values.
fn has_values(square: &Square<u64>) -> bool
    ensures { IsTrue result
        → HasValues (bounded_sums narrow_top) square.now.side (cell_at square.now) }
{
    for row in 0..square.side() {
        if !is_row_of_values(square, row) {
            return false;
        }
    }
    true
}

/// The square of a text, whose costs are multiplied by a number, with the index 0. It is refused
/// where a product is above 2^62.
pub(crate) fn reduced_of(alloc: Global, text: &[u8], factor: u64) -> Result<Reduced<u64>, Fault>
    ensures { IfOk result (IsReduced (bounded_sums narrow_top)) }
{
    let inst = instance(alloc, text)?;
    let square = square_of(alloc, &inst, factor);
    drop(inst);
    let now = square?;
    if !has_values(&now) {
        return Err(Fault::Unread);
    }
    Ok(Reduced { now, index: 0 })
}
