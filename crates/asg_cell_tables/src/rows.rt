//! Rows of a table, 64 cells at a time.

ghost use Rattle.std.specs.Prelude.{◌≡◌, ◌+◌, ◌<◌, ◌≤◌, ◌-◌, ◌&&◌, IsTrue, IfSome, true, false, None, Some, is_some, length, take, drop, slice_index_or};
ghost use Rattle.asg_model.specs.declared.bands.Band.TheVariants.{Whole};
ghost use Rattle.asg_model.specs.declared.parts.Cost.{Cost};
ghost use Rattle.asg_cell_tables.specs.LabelledCells.{labelled_cell};
ghost use Rattle.asg_cell_tables.specs.Filling.{AreAllOpen, ArePlain, IsLiveRow, ArePieceOf, AreBitsOf, WritesPiece};
ghost use Rattle.asg_model.specs.Limits.{most_side};
ghost use Rattle.asg_cell_tables.specs.LabelledCells.{MayEnterEach, Entering};
ghost use Rattle.asg_cell_tables.specs.LabelledCells.{is_labelled_within};
ghost use Rattle.asg_cell_tables.specs.RowPieces.{AreExtra, AreKnownAs, AreTwice};

use crate::labellings::Labelling;
use crate::pieces::row_piece;
use asg_model::{Cost, Instance, Place, RowParts, RowRoom};

// What the columns of the square are copies of. The first `plain` of them are the only copies of
// the columns at their places, of the first `twice` each two are the copies of one column, and those
// from `extra` on aren't copies.
#[derive(Clone, Copy)]
pub(crate) struct ColumnLabels<'a> {
    pub(crate) labels: &'a [Option<u32>],
    plain: u32,
    twice: u32,
    extra: u32,
    ghost only: { ArePlain plain labels.now },
    ghost both: { AreTwice twice labels.now },
    ghost past: { AreExtra extra labels.now },
}

// Whether the label is that of the column at this place.
fn is_label_of(label: Option<u32>, c: u32) -> bool
    ensures { IsTrue result → label ≡ Some c }
{
    match label {
        Some(d) => d == c,
        None => false,
    }
}

// How many of the first columns are the only copies of the columns at their places.
fn plain_count(labels: &[Option<u32>]) -> u32
    requires { length labels.now ≤ most_side }
    ensures { ArePlain result labels.now }
{
    let count = labels.len() as u32;
    for c in 0..count {
        if !is_label_of(labels[c as usize], c) {
            return c;
        }
    }
    count
}

// How many of the first columns are copies of the columns at half their places.
fn twice_count(labels: &[Option<u32>]) -> u32
    requires { length labels.now ≤ most_side }
    ensures { AreTwice result labels.now }
{
    let count = labels.len() as u32;
    for c in 0..count {
        if !is_label_of(labels[c as usize], c / 2) {
            return c;
        }
    }
    count
}

// The place behind a label, and where there is none this one.
fn behind_label(label: Option<u32>, c: u32, before: u32) -> u32
    requires { c < most_side }
    ensures some { is_some label ≡ true → result ≡ c + 1 }
    ensures none { label ≡ None → result ≡ before }
{
    match label {
        Some(_) => c + 1,
        None => before,
    }
}

// From which place on there is no label.
fn extra_from(labels: &[Option<u32>]) -> u32
    requires { length labels.now ≤ most_side }
    ensures { AreExtra result labels.now }
{
    let mut from = 0;
    for c in 0..labels.len() as u32 {
        from = behind_label(labels[c as usize], c, from);
    }
    from
}

// These labels, how many of the first ones are plain or twice each, and from where on there are none.
pub(crate) fn column_labels(labels: &[Option<u32>]) -> ColumnLabels<'_>
    requires { length labels.now ≤ most_side }
    ensures { result.labels.now ≡ labels.now }
{
    let plain = plain_count(labels);
    let twice = twice_count(labels);
    let extra = extra_from(labels);
    ColumnLabels {
        labels,
        plain,
        twice,
        extra,
    }
}

// What is known of the labels from one place on and before another.
#[inline]
pub(crate) fn labelling_of(columns: &ColumnLabels<'_>, first: usize, end: usize) -> Labelling
    ensures { AreKnownAs result first (take (end - first) (drop first columns.now.labels.now)) }
{
    if end <= columns.plain as usize {
        Labelling::Plain
    } else if first % 2 == 0 && end <= columns.twice as usize {
        Labelling::Twice
    } else if first >= columns.extra as usize {
        Labelling::Extra
    } else {
        Labelling::Mixed
    }
}

// Whether all columns of the instance are open.
pub(crate) fn are_all_open(inst: &Instance) -> bool
    ensures { IsTrue result → AreAllOpen inst.now }
{
    for column in inst.columns() {
        if !column.usable {
            return false;
        }
    }
    true
}

// The parts of the costs of a row all whose cells are live, read into the room where they don't
// stand side by side.
fn live_row<'a>(inst: &'a Instance, i: u32, room: &'a mut RowRoom) -> Option<RowParts<'a>>
    requires { AreAllOpen inst.now }
    ensures { IfSome result (λ parts.
        IsLiveRow inst.now i parts.firsts.now parts.seconds.now) }
{
    if inst.is_active(i) {
        inst.row_parts(i, room)
    } else {
        None
    }
}

// What the cells of a row with this label are made of, 64 at a time: nothing where it isn't
// counted, else the parts of its costs, where all its cells are live.
pub(crate) fn row_parts<'a>(
    inst: &'a Instance,
    row: Option<u32>,
    are_open: bool,
    room: &'a mut RowRoom,
) -> Option<RowParts<'a>>
    requires { IsTrue are_open → AreAllOpen inst.now }
    ensures { IfSome result (λ parts.
        IfSome row (λ i. IsLiveRow inst.now i parts.firsts.now parts.seconds.now)) }
{
    match row {
        None => Some(RowParts {
            firsts: &[],
            seconds: &[],
        }),
        Some(i) if are_open => live_row(inst, i, room),
        Some(_) => None,
    }
}

// Writes a piece of the row with this label into a list of values, from a place on.
#[inline]
pub(crate) fn write_piece<V: Copy, E: Fn(Cost) -> V>(
    inst: &Instance,
    free: V,
    enter: &E,
    row: Option<u32>,
    parts: RowParts<'_>,
    first: usize,
    labelling: Labelling,
    columns: &[Option<u32>],
    values: &mut Vec<V>,
    start: usize,
) -> u64
    requires enters { MayEnterEach inst.now (E.pre enter.now) }
    requires live { IfSome row (λ i. IsLiveRow inst.now i parts.firsts.now parts.seconds.now) }
    requires known { AreKnownAs labelling first columns.now }
    requires near { first ≤ most_side }
    requires within { start + length columns.now ≤ length values.old.items }
    requires few { length columns.now ≤ 64 }
    ensures present { AreBitsOf (length columns.now)
        (λ k. is_labelled_within inst.now Whole row (slice_index_or columns.now k None)) result }
    ensures piece { WritesPiece values.old.items values.new.items start (length columns.now)
        (λ piece. Entering inst.now (E.post enter.now) (λ entered.
        ArePieceOf (length columns.now) piece result
        (λ k. labelled_cell inst.now free entered row (slice_index_or columns.now k None)))) }
{
    let values = &mut values.as_mut_slice()[start..start + columns.len()];
    row_piece(
        inst, free, enter, row, parts, first, labelling, columns, values,
    )
}
