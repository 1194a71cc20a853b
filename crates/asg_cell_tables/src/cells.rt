//! Tables filled by what their rows and columns stand for.

ghost use Rattle.std.specs.Prelude.{◌≡◌, ◌<◌, IsTrue, IfSome, is_some, length};
ghost use Rattle.std.specs.Option.{option_map};
ghost use Rattle.asg_model.specs.declared.bands.Band.TheVariants.{Whole};
ghost use Rattle.asg_model.specs.declared.parts.Cost.{Cost};
ghost use Rattle.asg_model.specs.HallSet.{is_live_within};
ghost use Rattle.asg_model.specs.Live.{live_at};
ghost use Rattle.asg_cell_tables.specs.LabelledCells.{labelled_cell};
ghost use Rattle.asg_cell_tables.specs.CellTable.{IsCellTable, table_at, is_present_at};
ghost use Rattle.asg_cell_tables.specs.Filling.{AreAllOpen, IsLiveRow, FillsRow, AreFilled};
ghost use Rattle.asg_cell_tables.specs.LabelledCells.{MayEnterEach, Entering};
ghost use Rattle.asg_cell_tables.specs.LabelledCells.{is_labelled_within};

use crate::cell_tables::CellTable;
use crate::pieces::extra_cell;
use crate::rows::{ColumnLabels, are_all_open, column_labels, row_parts};
use asg_model::{Cost, Instance, Place, RowParts, RowRoom};

/// Writes the cells of a table, row by row, by what its rows and columns stand for: of a counted row
/// and a column of the instance what the cost of a live cell enters as, elsewhere `free` or none. It
/// takes no memory.
pub fn fill_cells<V: Copy, E: Fn(Cost) -> V>(
    inst: &Instance,
    free: V,
    enter: &E,
    rows: &[Option<u32>],
    columns: &[Option<u32>],
    cells: &mut CellTable<V>,
)
    requires enters { MayEnterEach inst.now (E.pre enter.now) }
    requires row_count { length rows.now ≡ cells.old.side }
    requires column_count { length columns.now ≡ cells.old.side }
    ensures side { cells.new.side ≡ cells.old.side }
    ensures table { IsCellTable cells.new }
    ensures cells { Entering inst.now (E.post enter.now) (λ entered.
        AreFilled cells.new.side (table_at cells.new) rows.now columns.now
        (labelled_cell inst.now free entered)) }
    ensures present { AreFilled cells.new.side (is_present_at cells.new) rows.now columns.now
        (is_labelled_within inst.now Whole) }
{
    let side = cells.side();
    let are_open = are_all_open(inst);
    let labels = column_labels(columns);
    let mut room = RowRoom::new();
    for r in 0..side {
        fill_row(
            inst,
            free,
            enter,
            rows[r as usize],
            are_open,
            &mut room,
            &labels,
            r,
            cells,
        );
    }
}

// Writes the cells of one row of the square: of a row that isn't counted and of one that is live as
// a whole 64 at a time, of each other one by one.
fn fill_row<V: Copy, E: Fn(Cost) -> V>(
    inst: &Instance,
    free: V,
    enter: &E,
    row: Option<u32>,
    are_open: bool,
    room: &mut RowRoom,
    columns: &ColumnLabels<'_>,
    r: u32,
    cells: &mut CellTable<V>,
)
    requires enters { MayEnterEach inst.now (E.pre enter.now) }
    requires opened { IsTrue are_open → AreAllOpen inst.now }
    requires below { r < cells.old.side }
    requires count { length columns.now.labels.now ≡ cells.old.side }
    ensures side { cells.new.side ≡ cells.old.side }
    ensures table { IsCellTable cells.new }
    ensures row { Entering inst.now (E.post enter.now) (λ entered.
        FillsRow cells.old.side (table_at cells.old) (table_at cells.new) r columns.now.labels.now
        (labelled_cell inst.now free entered row)) }
    ensures present { FillsRow cells.old.side (is_present_at cells.old) (is_present_at cells.new) r
        columns.now.labels.now (is_labelled_within inst.now Whole row) }
{
    match row_parts(inst, row, are_open, room) {
        Some(parts) => fill_pieces(inst, free, enter, row, parts, columns, r, cells),
        None => fill_one_by_one(inst, free, enter, row, columns.labels, r, cells),
    }
}

// Writes the cells of one row of the square, 64 at a time.
fn fill_pieces<V: Copy, E: Fn(Cost) -> V>(
    inst: &Instance,
    free: V,
    enter: &E,
    row: Option<u32>,
    parts: RowParts<'_>,
    columns: &ColumnLabels<'_>,
    r: u32,
    cells: &mut CellTable<V>,
)
    requires enters { MayEnterEach inst.now (E.pre enter.now) }
    requires live { IfSome row (λ i. IsLiveRow inst.now i parts.firsts.now parts.seconds.now) }
    requires below { r < cells.old.side }
    requires count { length columns.now.labels.now ≡ cells.old.side }
    ensures side { cells.new.side ≡ cells.old.side }
    ensures table { IsCellTable cells.new }
    ensures row { Entering inst.now (E.post enter.now) (λ entered.
        FillsRow cells.old.side (table_at cells.old) (table_at cells.new) r columns.now.labels.now
        (labelled_cell inst.now free entered row)) }
    ensures present { FillsRow cells.old.side (is_present_at cells.old) (is_present_at cells.new) r
        columns.now.labels.now (is_labelled_within inst.now Whole row) }
{
    let side = cells.side();
    for number in 0..side.div_ceil(64) {
        cells.fill_piece(inst, free, enter, row, parts, columns, r, number);
    }
}

// Writes the cells of one row of the square, one by one.
fn fill_one_by_one<V: Copy, E: Fn(Cost) -> V>(
    inst: &Instance,
    free: V,
    enter: &E,
    row: Option<u32>,
    columns: &[Option<u32>],
    r: u32,
    cells: &mut CellTable<V>,
)
    requires enters { MayEnterEach inst.now (E.pre enter.now) }
    requires below { r < cells.old.side }
    requires count { length columns.now ≡ cells.old.side }
    ensures side { cells.new.side ≡ cells.old.side }
    ensures table { IsCellTable cells.new }
    ensures row { Entering inst.now (E.post enter.now) (λ entered.
        FillsRow cells.old.side (table_at cells.old) (table_at cells.new) r columns.now
        (labelled_cell inst.now free entered row)) }
    ensures present { FillsRow cells.old.side (is_present_at cells.old) (is_present_at cells.new) r
        columns.now (is_labelled_within inst.now Whole row) }
{
    let side = cells.side();
    for c in 0..side {
        let cell = labelled_cell(inst, free, enter, row, columns[c as usize]);
        cells.set(r, c, cell);
    }
}

// The cell of a row and a column with these labels.
fn labelled_cell<V: Copy, E: Fn(Cost) -> V>(
    inst: &Instance,
    free: V,
    enter: &E,
    row: Option<u32>,
    column: Option<u32>,
) -> Option<V>
    requires { MayEnterEach inst.now (E.pre enter.now) }
    ensures cell { Entering inst.now (E.post enter.now) (λ entered.
        result ≡ labelled_cell inst.now free entered row column) }
    ensures present { is_some result ≡ is_labelled_within inst.now Whole row column }
{
    match (row, column) {
        (Some(r), Some(d)) => entered_cost(inst, enter, r, d),
        (Some(_), None) => extra_cell(inst.place(), free),
        (None, Some(_)) => Some(free),
        (None, None) => match inst.place() {
            Place::All => Some(free),
            Place::Exactly(_) => None,
        },
    }
}

// What the cost of a live cell enters as.
fn entered_cost<V: Copy, E: Fn(Cost) -> V>(inst: &Instance, enter: &E, r: u32, d: u32) -> Option<V>
    requires { MayEnterEach inst.now (E.pre enter.now) }
    ensures cost { Entering inst.now (E.post enter.now) (λ entered.
        result ≡ option_map entered (live_at inst.now r d)) }
    ensures present { is_some result ≡ is_live_within inst.now Whole r d }
{
    match inst.live(r, d) {
        Some(cost) => Some(enter(cost)),
        None => None,
    }
}
