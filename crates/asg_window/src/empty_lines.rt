//! Rows and columns without a marked cell.

ghost use Rattle.std.specs.Prelude.{◌≡◌, ℕ, ◌<◌, ◌≤◌, IfOk, IfSome, IsTrue, length};
ghost use Rattle.asg_match.specs.ColumnSet.{HasColumn, word_count};
ghost use Rattle.asg_match.specs.Deficient.{IsDeficient};
ghost use Rattle.asg_bit_rows.specs.BitTable.{has_bit};
ghost use Rattle.asg_window.specs.EmptyLines.{IsEmptyRow, IsEmptyColumn};
ghost use Rattle.asg_live_cells.specs.Marks.{IsMarked};

use crate::NoMemory;
use crate::band_cells::BandCells;
use crate::words::{add_words, clear_words, has_any, has_column};
use asg_bit_rows::BitRows;

/// The first row without a marked cell.
pub(crate) fn empty_row(band: &BandCells) -> Option<u32>
    ensures { IfSome result (IsEmptyRow band.now.marks.bits band.now.marks.side) }
{
    for row in 0..band.marks.side {
        if !has_any(band.marks.bits.row(row)) {
            return Some(row);
        }
    }
    None
}

// Makes the columns those that some row has.
fn join(columns: &mut Vec<u64>, bits: &BitRows, side: u32)
    requires rows { bits.now.rows ≡ side }
    requires count { length columns.old.items ≡ word_count bits.now.columns }
    ensures count { length columns.new.items ≡ length columns.old.items }
    ensures all { (r c : ℕ) → r < side → IsTrue (has_bit bits.now r c)
        → HasColumn columns.new.items c }
{
    clear_words(columns);
    for row in 0..side {
        add_words(columns, bits.row(row));
    }
}

/// The first column without a marked cell. The words are to work with.
pub(crate) fn empty_column(columns: &mut Vec<u64>, band: &BandCells) -> Option<u32>
    requires count { length columns.old.items ≡ word_count band.now.marks.side }
    ensures count { length columns.new.items ≡ length columns.old.items }
    ensures empty { IfSome result (IsEmptyColumn band.now.marks.bits band.now.marks.side) }
{
    join(columns, &band.marks.bits, band.marks.side);
    for column in 0..band.marks.side {
        if !has_column(columns.as_slice(), column as usize) {
            return Some(column);
        }
    }
    None
}

/// Makes the list that of all rows, in order, which are deficient where they can't have a column.
pub(crate) fn all_rows(rows: &mut Vec<u32>, band: &BandCells, column: u32) -> Result<(), NoMemory>
    requires { IsEmptyColumn band.now.marks.bits band.now.marks.side column }
    ensures { IfOk result (λ _. IsDeficient (IsMarked band.now.marks.bits band.now.marks.side) band.now.marks.side
        rows.new.items) }
{
    let _ = column;
    rows.clear();
    for row in 0..band.marks.side {
        rows.push(row)?;
    }
    Ok(())
}
