//! The choice that written cells spell.

ghost use Rattle.std.specs.Prelude.{◌≡◌, ℕ, List, Option, None, IfOk, IfSome};
ghost use Rattle.asg_model.specs.Instances.{IsInstance};
ghost use Rattle.asg_check.specs.Written.{IsWrittenAs, SpellChoice, cells_left, column_given};
ghost use Rattle.asg_check.specs.Written.{read_cells};

use crate::NoMemory;
use asg_model::{Choice, Instance, Row};
use asg_values::is_valid;
use std::alloc::Global;

// The valid choice that has these cells, in the order of the rows, where there is one. The error is
// want of memory.
pub(crate) fn written_choice(
    alloc: Global,
    inst: &Instance,
    cells: &[(u32, u32)],
) -> Result<Option<Choice>, NoMemory>
    ensures some { IfOk result (λ found. IfSome found (IsWrittenAs inst.now cells.now)) }
    ensures none { IfOk result (λ found. found ≡ None →
        (f : List (Option ℕ)) → ¬ IsWrittenAs inst.now cells.now f) }
    ensures instance { IsInstance inst.now }
{
    let _ = inst.rows();
    let (choice, left) = read_cells(alloc, inst, cells)?;
    if !left.is_empty() {
        return Ok(None);
    }
    if is_valid(inst, &choice) {
        Ok(Some(choice))
    } else {
        Ok(None)
    }
}

// The choice that has these cells, where there is a valid one. The error is want of memory.
pub(crate) fn spelled_choice(
    alloc: Global,
    inst: &Instance,
    cells: &[(u32, u32)],
) -> Result<Choice, NoMemory>
    requires instance { IsInstance inst.now }
    requires spelled { SpellChoice inst.now cells.now }
    ensures { IfOk result (IsWrittenAs inst.now cells.now) }
{
    let (choice, _) = read_cells(alloc, inst, cells)?;
    Ok(choice)
}

// What the rows choose by the cells, read in order, and the cells that no row reads. The error is
// want of memory.
fn read_cells<'a>(
    alloc: Global,
    inst: &Instance,
    cells: &'a [(u32, u32)],
) -> Result<(Choice, &'a [(u32, u32)]), NoMemory>
    ensures { IfOk result (λ read.
        (read.0, read.1.now) ≡ read_cells inst.now inst.now.rows cells.now) }
{
    let rows = inst.rows();
    let mut choice = Choice::make(alloc, rows.len() as u32)?;
    let mut left = cells;
    for place in 0..choice.len() {
        let (chosen, rest) = next_column(inst, rows[place as usize], left);
        choice.set(place, chosen);
        left = rest;
    }
    Ok((choice, left))
}

// The place of the column that the first of the cells gives the row, and the cells that are left.
fn next_column<'a>(
    inst: &Instance,
    row: Row,
    cells: &'a [(u32, u32)],
) -> (Option<u32>, &'a [(u32, u32)])
    ensures column { result.0 ≡ column_given inst.now row cells.now }
    ensures rest { result.1.now ≡ cells_left result.0 cells.now }
{
    match cells {
        [cell, rest @ ..] if cell.0 == row.id => {
            let column = inst.column_place(cell.1);
            (column, if column.is_some() { rest } else { cells })
        }
        _ => (None, cells),
    }
}
