//! Hall sets, told on the kept cells of a square.

ghost use Rattle.std.specs.Prelude.{◌≡◌, ◌≢◌, ◌↔◌, ◌<◌, ◌+◌, ◌*◌, ◌/◌, ◌%◌, ℕ, None, IsTrue, IfOk, IfSome, All, AllPairs, length, slice_index};
ghost use Rattle.std.specs.List.{list_any};
ghost use Rattle.asg_model.specs.declared.parts.Place.TheVariants.{All as PlaceAll};
ghost use Rattle.asg_model.specs.HallSet.{is_counted_id};
ghost use Rattle.asg_model.specs.Shapes.{square_side};
ghost use Rattle.asg_model.specs.Sums.{count_below, one};
ghost use Rattle.asg_bit_rows.specs.BitTable.{is_bit_set, word_count};
ghost use Rattle.asg_square.specs.HallColumns.{OutnumberColumns};
ghost use Rattle.asg_kept_cells.specs.Kept.{HasSize, kept_cells};
ghost use Rattle.asg_kept_cells.specs.Halls.{AreMetIn, AreRowsOf, counted_place};

use crate::NoMemory;
use asg_bit_rows::BitRows;
use asg_model::Instance;
use asg_square::Square;
use std::alloc::Global;

// The place of the active row that has the id.
fn active_place(inst: &Instance, id: u32) -> Option<u32>
    requires { inst.now.place ≡ PlaceAll }
    ensures exact { result ≡ counted_place inst.now id }
    ensures there { IfSome result (λ row. row < length inst.now.rows) }
{
    let row = inst.row_place(id)?;
    if inst.rows()[row as usize].active {
        Some(row)
    } else {
        None
    }
}

// Whether no id before a place is that at the place.
fn is_fresh(ids: &[u32], place: usize) -> bool
    requires { place < length ids.now }
    ensures { IsTrue result
        ↔ ((k : ℕ) → k < place → slice_index ids.now k ≢ slice_index ids.now place) }
{
    for earlier in 0..place {
        if ids[earlier] == ids[place] {
            return false;
        }
    }
    true
}

// The places of the rows of these ids, where each is that of an active row and no two are the same:
// so the search stops before it has gone over more ids than there are rows. The error is want of
// memory.
fn rows_of(alloc: Global, inst: &Instance, ids: &[u32]) -> Result<Option<Vec<u32>>, NoMemory>
    requires { inst.now.place ≡ PlaceAll }
    ensures some { IfOk result (λ found. IfSome found
        (λ rows. AreRowsOf inst.now ids.now rows.items)) }
    ensures none { IfOk result (λ found. found ≡ None → AllPairs ◌≢◌ ids.now
        → All (λ id. IsTrue (is_counted_id inst.now id)) ids.now → ⊥) }
{
    let mut rows = Vec::new(alloc);
    for place in 0..ids.len() {
        let Some(row) = active_place(inst, ids[place]) else {
            return Ok(None);
        };
        if !is_fresh(ids, place) {
            return Ok(None);
        }
        rows.push(row)?;
    }
    Ok(Some(rows))
}

// Of the 64 columns of a word, those in which a row has a kept cell.
#[inline]
fn kept_columns<V: Copy>(square: &Square<V>, kept: &BitRows, row: u32, number: u32) -> u64
    requires size { HasSize square.now.side kept.now }
    requires row { row < square.now.side }
    requires number { number < word_count square.now.side }
    ensures { (k : ℕ) → k < 64
        → is_bit_set result k ≡ kept_cells square.now kept.now row (64 * number + k) }
{
    let _grid = square.side();
    let present = square.row_words(row);
    let bits = kept.row(row);
    present[number as usize] & bits[number as usize]
}

// Of the 64 columns of a word, those in which some of the rows has a kept cell.
fn met_in_word<V: Copy>(square: &Square<V>, kept: &BitRows, rows: &[u32], number: u32) -> u64
    requires size { HasSize square.now.side kept.now }
    requires rows { All (λ row. row < square.now.side) rows.now }
    requires number { number < word_count square.now.side }
    ensures { AreMetIn (kept_cells square.now kept.now) rows.now number result }
{
    let mut met = 0;
    for place in 0..rows.len() {
        met |= kept_columns(square, kept, rows[place], number);
    }
    met
}

// The same word of the columns among which a column is, where the word of those among which the
// column before it is is known.
fn met_near<V: Copy>(square: &Square<V>, kept: &BitRows, rows: &[u32], column: u32, met: u64) -> u64
    requires size { HasSize square.now.side kept.now }
    requires rows { All (λ row. row < square.now.side) rows.now }
    requires column { column < square.now.side }
    requires met { column % 64 ≢ 0
        → AreMetIn (kept_cells square.now kept.now) rows.now (column / 64) met }
    ensures { AreMetIn (kept_cells square.now kept.now) rows.now (column / 64) result }
{
    if column % 64 == 0 {
        met_in_word(square, kept, rows, column / 64)
    } else {
        met
    }
}

// 1 where a bit of a word is set, else 0.
#[inline]
fn one_of(word: u64, bit: u32) -> usize
    requires { bit < 64 }
    ensures { result ≡ one (is_bit_set word bit) }
{
    if word >> bit & 1 == 1 { 1 } else { 0 }
}

// In how many columns some of the rows has a kept cell. The time is that of the rows times the
// words of a row, and of the columns.
fn met_columns<V: Copy>(square: &Square<V>, kept: &BitRows, rows: &[u32]) -> usize
    requires size { HasSize square.now.side kept.now }
    requires rows { All (λ row. row < square.now.side) rows.now }
    ensures { result ≡ count_below (λ k. list_any (λ row. kept_cells square.now kept.now row k)
        rows.now) square.now.side }
{
    let mut count = 0;
    let mut met = 0;
    for column in 0..square.side() {
        met = met_near(square, kept, rows, column, met);
        count += one_of(met, column % 64);
    }
    count
}

/// Whether rows, by id, differ, are active, and are more than the columns of the square in which
/// some of them has a kept cell. The time is that of the rows times the words of a row, and of the
/// columns, besides that of finding the rows. The error is want of memory.
pub fn outnumber<V: Copy>(
    alloc: Global,
    inst: &Instance,
    square: &Square<V>,
    kept: &BitRows,
    ids: &[u32],
) -> Result<bool, NoMemory>
    requires place { inst.now.place ≡ PlaceAll }
    requires side { square.now.side ≡ square_side inst.now }
    requires size { HasSize square.now.side kept.now }
    ensures { IfOk result (λ is. IsTrue is
        ↔ OutnumberColumns inst.now (kept_cells square.now kept.now) ids.now) }
{
    let Some(rows) = rows_of(alloc, inst, ids)? else {
        return Ok(false);
    };
    Ok(met_columns(square, kept, rows.as_slice()) < rows.len())
}
