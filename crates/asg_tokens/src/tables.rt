//! Square and rect files.

ghost use Rattle.std.specs.Prelude.{◌≡◌, ◌+◌, ◌*◌, ◌<◌, ◌≤◌, ℕ, pos, slice_index_or, [], length, map, min, IfOk, IfErr, OnOk};
ghost use Rattle.std.specs.List.{range_with_len};
ghost use Rattle.asg_model.specs.Limits.{most_rows, most_columns};
ghost use Rattle.asg_tokens.specs.Numbers.{size_of};
ghost use Rattle.asg_tokens.specs.Pieces.{tokens};
ghost use Rattle.asg_tokens.specs.Readings.{Spells, TellsOf, row_of, column_of};
ghost use Rattle.asg_tokens.specs.Slots.{AreRead, AreSeconds, IsEarliest};
ghost use Rattle.asg_tokens.specs.Tables.{size_faults, faults_of_cells, reading_of_square, reading_of_rect, reading_of_table};

use crate::cell_blocks::{Progress, read_blocks};
use crate::cells::next_cell;
use crate::numbers;
use crate::pair_blocks::read_pair_blocks;
use crate::pieces::{Separators, count_pieces, first_piece};
use crate::refusals::TextRefusal;
use crate::slots::{first_part, more_seconds, put_second, second_part};
use asg_model::limits::{MOST_COLUMNS, MOST_ROWS};
use asg_model::{Column, Instance, Place, Row};
use std::alloc::{AllocError, Global};

// How many cells are read one by one where neither plain numbers nor pairs are found.
const SINGLE_CELLS: usize = 16;

// For how many more cells places are made at once, so that these are near when they are written.
const MORE_CELLS: usize = 4096;

/// The header of a table: how many tokens it has, and the sizes that they spell.
#[derive(Clone, Copy)]
struct Header {
    tokens: u64,
    rows: u32,
    columns: u32,
}

/// The cells of a table: how many tokens stand before them, how many there are to be, and the text
/// that they stand in.
#[derive(Clone, Copy)]
struct CellText<'a> {
    header: u64,
    count: usize,
    text: &'a [u8],
}

/// The costs of a table as they stand in it row by row, and the text behind the last one.
#[derive(Drop)]
struct TableCosts<'a> {
    firsts: Vec<i64>,
    seconds: Vec<i64>,
    rest: &'a [u8],
}

/// The instance that a square file spells.
pub fn read_square(alloc: Global, text: &[u8]) -> Result<Instance, TextRefusal>
    ensures instance { IfOk result (λ inst. reading_of_square (tokens text.now) ≡ Spells inst) }
    ensures refused { IfErr result (TellsOf (reading_of_square (tokens text.now))) }
{
    let Some(token) = first_piece(text, Separators::Spaces) else {
        return Err(TextRefusal::TokenCount(1, 0));
    };
    let Some(size) = numbers::size(token.bytes) else {
        return Err(TextRefusal::BadToken(1));
    };
    let header = Header {
        tokens: 1,
        rows: size,
        columns: size,
    };
    read_table(alloc, header, token.rest)
}

/// The instance that a rect file spells.
pub fn read_rect(alloc: Global, text: &[u8]) -> Result<Instance, TextRefusal>
    ensures instance { IfOk result (λ inst. reading_of_rect (tokens text.now) ≡ Spells inst) }
    ensures refused { IfErr result (TellsOf (reading_of_rect (tokens text.now))) }
{
    let Some(first) = first_piece(text, Separators::Spaces) else {
        return Err(TextRefusal::TokenCount(2, 0));
    };
    let Some(second) = first_piece(first.rest, Separators::Spaces) else {
        return Err(TextRefusal::TokenCount(2, 1));
    };
    let Some(rows) = numbers::size(first.bytes) else {
        return Err(TextRefusal::BadToken(1));
    };
    let Some(columns) = numbers::size(second.bytes) else {
        return Err(TextRefusal::BadToken(2));
    };
    let header = Header {
        tokens: 2,
        rows,
        columns,
    };
    read_table(alloc, header, second.rest)
}

// The instance of the table that stands behind a header.
fn read_table(alloc: Global, header: Header, text: &[u8]) -> Result<Instance, TextRefusal>
    requires { header.tokens ≤ 2 }
    ensures instance { IfOk result (λ inst. reading_of_table header.tokens (Some header.rows)
        (Some header.columns) (tokens text.now) ≡ Spells inst) }
    ensures refused { IfErr result (TellsOf (reading_of_table header.tokens (Some header.rows)
        (Some header.columns) (tokens text.now))) }
{
    check_sizes(header.rows, header.columns)?;
    let count = header.rows as usize * header.columns as usize;
    let costs = read_costs(alloc, header.tokens, count, text)?;
    let found = costs.firsts.len() + count_pieces(costs.rest, Separators::Spaces);
    if found != count {
        return Err(TextRefusal::TokenCount(count as u64, found as u64));
    }
    let rows = rows(alloc, header.rows)?;
    let columns = columns(alloc, header.columns)?;
    Ok(Instance::of_table(rows, columns, costs.firsts, costs.seconds, Place::All))
}

// Refuses sizes that no instance has.
fn check_sizes(rows: u32, columns: u32) -> Result<(), TextRefusal>
    ensures right { OnOk result (size_faults rows columns ≡ []) }
    ensures some { OnOk result (0 < rows) }
    ensures few_rows { OnOk result (rows ≤ most_rows) }
    ensures few_columns { OnOk result (columns ≤ most_columns) }
    ensures refused { IfErr result (IsEarliest (size_faults rows columns)) }
{
    if rows == 0 {
        return Err(TextRefusal::NoRows);
    }
    if rows as usize > MOST_ROWS || columns as usize > MOST_COLUMNS {
        return Err(TextRefusal::TooLarge(u64::from(rows), u64::from(columns)));
    }
    Ok(())
}

// The costs of so many cells behind a header of so many tokens, or of as many as the text has
// bytes, so that no more memory is taken than the file has the tokens for.
fn read_costs<'a>(
    alloc: Global,
    header: u64,
    count: usize,
    text: &'a [u8],
) -> Result<TableCosts<'a>, TextRefusal>
    requires header { header ≤ 2 }
    requires count { count ≤ most_rows * most_columns }
    ensures room { IfOk result (λ costs. length costs.firsts.items ≡ min count (length text.now)) }
    ensures costs { IfOk result (λ costs. AreRead (header + 1) (tokens text.now)
        (tokens costs.rest.now) (length costs.firsts.items) costs.firsts.items costs.seconds.items) }
    ensures refused { IfErr result (IsEarliest (faults_of_cells header count (tokens text.now))) }
{
    let room = count.min(text.len());
    let mut firsts = Vec::with_capacity(alloc, room)?;
    let mut seconds = Vec::new(alloc);
    let cells = CellText {
        header,
        count,
        text,
    };
    let rest = fill_costs(alloc, cells, room, &mut firsts, &mut seconds)?;
    Ok(TableCosts {
        firsts,
        seconds,
        rest,
    })
}

// Makes places, with parts that are 0, up to so many, for the first parts, and for the second ones
// where these have places.
fn make_places(firsts: &mut Vec<i64>, seconds: &mut Vec<i64>, upto: usize) -> Result<(), AllocError>
    requires few { length firsts.old.items ≤ upto }
    requires seconds { AreSeconds (length firsts.old.items) seconds.old.items }
    ensures count { OnOk result (length firsts.new.items ≡ upto) }
    ensures firsts { OnOk result ((k : ℕ) → k < length firsts.old.items →
        slice_index_or firsts.new.items k (pos 0) ≡ slice_index_or firsts.old.items k (pos 0)) }
    ensures same { OnOk result ((k : ℕ) →
        slice_index_or seconds.new.items k (pos 0) ≡ slice_index_or seconds.old.items k (pos 0)) }
    ensures seconds { OnOk result (AreSeconds upto seconds.new.items) }
{
    firsts.resize(upto, 0)?;
    if !seconds.is_empty() {
        more_seconds(seconds, upto)?;
    }
    Ok(())
}

// Reads so many cells, and gives the text behind the last one.
fn fill_costs<'a>(
    alloc: Global,
    cells: CellText<'a>,
    room: usize,
    firsts: &mut Vec<i64>,
    seconds: &mut Vec<i64>,
) -> Result<&'a [u8], TextRefusal>
    requires header { cells.header ≤ 2 }
    requires count { cells.count ≤ most_rows * most_columns }
    requires room { room ≤ cells.count }
    requires no_firsts { firsts.old.items ≡ [] }
    requires none { seconds.old.items ≡ [] }
    ensures room { OnOk result (length firsts.new.items ≡ room) }
    ensures costs { IfOk result (λ rest. AreRead (cells.entry.header + 1) (tokens cells.entry.text.now)
        (tokens rest.now) (length firsts.new.items) firsts.new.items seconds.new.items) }
    ensures refused { IfErr result (IsEarliest (faults_of_cells cells.entry.header cells.entry.count
        (tokens cells.entry.text.now))) }
{
    let mut place = 0;
    let mut rest = cells.text;
    'parts: while place < room {
        let places = firsts.len().max(room.min(place + MORE_CELLS));
        make_places(firsts, seconds, places)?;
        let numbers = read_blocks(rest, firsts, place);
        let pairs = read_pair_blocks(numbers, firsts, seconds);
        let upto = places.min(pairs.place + SINGLE_CELLS);
        rest = fill_upto(alloc, cells, pairs, upto, firsts, seconds)?;
        place = upto;
    }
    Ok(rest)
}

// Reads the next cells one by one, up to a place, and gives the text behind the last one.
fn fill_upto<'a>(
    alloc: Global,
    cells: CellText<'a>,
    from: Progress<'a>,
    upto: usize,
    firsts: &mut Vec<i64>,
    seconds: &mut Vec<i64>,
) -> Result<&'a [u8], TextRefusal>
    requires header { cells.header ≤ 2 }
    requires count { cells.count ≤ most_rows * most_columns }
    requires room { length firsts.old.items ≤ cells.count }
    requires order { from.place ≤ upto }
    requires within { upto ≤ length firsts.old.items }
    requires before { AreRead (cells.header + 1) (tokens cells.text.now) (tokens from.rest.now)
        from.place firsts.old.items seconds.old.items }
    ensures room { OnOk result (length firsts.new.items ≡ length firsts.old.items) }
    ensures costs { IfOk result (λ rest. AreRead (cells.entry.header + 1) (tokens cells.entry.text.now)
        (tokens rest.now) upto firsts.new.items seconds.new.items) }
    ensures refused { IfErr result (IsEarliest (faults_of_cells cells.entry.header cells.entry.count
        (tokens cells.entry.text.now))) }
{
    let room = firsts.len();
    let mut rest = from.rest;
    for place in from.place..upto {
        let Some(cell) = next_cell(rest, cells.header + place as u64 + 1)? else {
            return Err(TextRefusal::TokenCount(cells.count as u64, place as u64));
        };
        put_second(alloc, seconds, room, place, second_part(cell.cost))?;
        firsts[place] = first_part(cell.cost);
        rest = cell.rest;
    }
    Ok(rest)
}

// Active rows with the ids from 1 on.
fn rows(alloc: Global, count: u32) -> Result<Vec<Row>, AllocError>
    requires { count ≤ most_rows }
    ensures { IfOk result (λ rows. rows.items ≡ map row_of (range_with_len 1 count)) }
{
    (1..count + 1)
        .map(|id| Row { id, active: true })
        .collect(alloc)
}

// Open columns with the ids from 1 on, for one row each.
fn columns(alloc: Global, count: u32) -> Result<Vec<Column>, AllocError>
    requires { count ≤ most_columns }
    ensures { IfOk result (λ columns. columns.items ≡ map column_of (range_with_len 1 count)) }
{
    (1..count + 1)
        .map(|id| Column {
            id,
            cap: 1,
            usable: true,
        })
        .collect(alloc)
}
