//! The rect texts of instances.

ghost use Rattle.std.specs.Prelude.{◌≡◌, ℕ, ◌<◌, ◌≤◌, ◌++◌, IfOk, OnOk, length, map, slice_index_or};
ghost use Rattle.std.specs.Fmt.{decimal, signed_decimal};
ghost use Rattle.std.specs.List.{flat_map, join_with_byte, range_with_len};
ghost use Rattle.asg_model.specs.Limits.{longest_file};
ghost use Rattle.asg_model.specs.Table.{absent, table_cost};
ghost use Rattle.asg_tokens.specs.Readings.{Spells};
ghost use Rattle.asg_text.specs.RectSteps.{next_text};
ghost use Rattle.asg_text.specs.RectTexts.{IsPlain, cell_text, cost_text, row_line, size_line, rect_text};
ghost use Rattle.asg_text.specs.Texts.{reading_of};
ghost use Rattle.asg_text.specs.declared.formats.Format.{Format};

use crate::laws::rect_law;
use asg_model::{Cost, Instance, NoMemory, RowParts, RowRoom};
use itoa::Buffer;
use std::alloc::Global;

// How many bytes a cell has at most, with what stands behind it, where its second part is 0.
const PLAIN_CELL: usize = 12;

/// The text of a rect file that spells the instance: the numbers of rows and columns, and then a
/// line for each row, with a space between each two tokens. A cell is `-` where it is absent, its
/// first part where its second is 0, else `a:b`, in decimal digits without a leading zero. All rows
/// of the instance are active, its columns are open with capacity 1, both have the ids 1, 2, .. in
/// order, and the place rule is `All`: [`read`] gives the instance back. Time and memory grow with
/// the number of cells. The error is want of memory.
///
/// [`read`]: crate::read
pub fn write_rect(alloc: Global, inst: &Instance) -> Result<Vec<u8>, NoMemory>
    requires { IsPlain inst.now }
    ensures text { IfOk result (λ text. text.items ≡ rect_text inst.now) }
    ensures read { IfOk result (λ text. reading_of Format.Rect text.items ≡ Spells inst.now) }
    ensures short { IfOk result (λ text. length text.items ≤ longest_file) }
{
    rect_law();
    let cells = inst.rows().len() * inst.columns().len();
    let mut text = Vec::with_capacity(alloc, cells * PLAIN_CELL)?;
    put_sizes(&mut text, inst)?;
    put_rows(&mut text, inst)?;
    Ok(text)
}

// Appends the line of the sizes.
fn put_sizes(text: &mut Vec<u8>, inst: &Instance) -> Result<(), NoMemory>
    ensures { OnOk result (text.new.items ≡ text.old.items ++ size_line inst.now) }
{
    put_size(text, inst.rows().len() as u32)?;
    text.push(b' ')?;
    put_size(text, inst.columns().len() as u32)?;
    text.push(b'\n')?;
    Ok(())
}

// Appends a size.
fn put_size(text: &mut Vec<u8>, size: u32) -> Result<(), NoMemory>
    ensures { OnOk result (text.new.items ≡ text.old.items ++ decimal size) }
{
    let mut buffer = Buffer::new();
    text.extend_from_slice(buffer.format(size).as_bytes())
}

// Appends the lines of the rows.
fn put_rows(text: &mut Vec<u8>, inst: &Instance) -> Result<(), NoMemory>
    ensures { OnOk result (text.new.items ≡ text.old.items
        ++ flat_map (row_line inst.now) (range_with_len 0 (length inst.now.rows))) }
{
    let mut room = RowRoom::new();
    for row in 0..inst.rows().len() as u32 {
        put_row(text, inst, row, &mut room)?;
    }
    Ok(())
}

// Appends the line of the row at this place.
fn put_row(
    text: &mut Vec<u8>,
    inst: &Instance,
    row: u32,
    room: &mut RowRoom,
) -> Result<(), NoMemory>
    requires { row < length inst.now.rows }
    ensures { OnOk result (text.new.items ≡ text.old.items ++ row_line inst.now row) }
{
    let columns = inst.columns().len() as u32;
    let Some(parts) = inst.row_parts(row, room) else {
        return Ok(());
    };
    put_cells(text, &parts, columns)?;
    text.push(b'\n')?;
    Ok(())
}

// Appends the cells of a row in so many columns, with a space between each two.
fn put_cells(text: &mut Vec<u8>, parts: &RowParts<'_>, columns: u32) -> Result<(), NoMemory>
    ensures { OnOk result (text.new.items ≡ text.old.items ++ join_with_byte 32 (map (λ c.
        cell_text (table_cost parts.now.seconds.now c (slice_index_or parts.now.firsts.now c absent)))
        (range_with_len 0 columns))) }
{
    for column in 0..columns {
        put_next(text, column, parts.cost(column))?;
    }
    Ok(())
}

// Appends a cell behind so many others of its row, and a space before it where there are any.
fn put_next(text: &mut Vec<u8>, before: u32, cell: Option<Cost>) -> Result<(), NoMemory>
    ensures { OnOk result (text.new.items ≡ text.old.items ++ next_text before (cell_text cell)) }
{
    if before == 0 {
        return put_cell(text, cell);
    }
    text.push(b' ')?;
    put_cell(text, cell)
}

// Appends a cell.
fn put_cell(text: &mut Vec<u8>, cell: Option<Cost>) -> Result<(), NoMemory>
    ensures { OnOk result (text.new.items ≡ text.old.items ++ cell_text cell) }
{
    match cell {
        Some(cost) => put_cost(text, cost),
        None => text.extend_from_slice(b"-"),
    }
}

// Appends a cost.
fn put_cost(text: &mut Vec<u8>, cost: Cost) -> Result<(), NoMemory>
    ensures { OnOk result (text.new.items ≡ text.old.items ++ cost_text cost) }
{
    if cost.b == 0 {
        return put_part(text, cost.a);
    }
    put_part(text, cost.a)?;
    text.push(b':')?;
    put_part(text, cost.b)
}

// Appends a part of a cost.
fn put_part(text: &mut Vec<u8>, part: i64) -> Result<(), NoMemory>
    ensures { OnOk result (text.new.items ≡ text.old.items ++ signed_decimal part) }
{
    let mut buffer = Buffer::new();
    text.extend_from_slice(buffer.format(part).as_bytes())
}
