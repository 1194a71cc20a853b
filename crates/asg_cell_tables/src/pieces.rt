//! Cells of a row of a table, up to 64 of them at a time: their values, and a word whose bits
//! say which are present.

ghost use Rattle.std.specs.Prelude.{◌≡◌, ℕ, ◌<◌, ◌≤◌, ◌+◌, pos, IfSome, None, Some, length, slice_get, slice_index_or};
ghost use Rattle.asg_model.specs.declared.bands.Band.TheVariants.{Whole};
ghost use Rattle.asg_model.specs.declared.parts.Cost.{Cost};
ghost use Rattle.asg_model.specs.Limits.{most_side};
ghost use Rattle.asg_cell_tables.specs.LabelledCells.{labelled_cell, extra_column_cell};
ghost use Rattle.asg_cell_tables.specs.Filling.{IsLiveRow, ArePieceOf, AreBitsOf};
ghost use Rattle.asg_cell_tables.specs.LabelledCells.{MayEnterEach, Entering};
ghost use Rattle.asg_cell_tables.specs.LabelledCells.{has_corner, is_labelled_within, leaves_rows};
ghost use Rattle.asg_cell_tables.specs.RowPieces.{AreKnownAs, entered_value};
ghost use Rattle.asg_cell_tables.specs.declared.labellings.Labelling.TheVariants.{Extra, Plain};

use crate::entered_pieces::entered_piece;
use crate::gathering::gather_items;
use crate::labellings::Labelling;
use crate::piece_words::{equal_bits, extra_bits, free_bits};
use asg_model::{ABSENT, Cost, Instance, Place, RowParts};

// The cell of a counted row in an extra column.
#[inline]
pub(crate) fn extra_cell<V: Copy>(place: Place, free: V) -> Option<V>
    ensures { result ≡ extra_column_cell place free }
{
    match place {
        Place::All => None,
        Place::Exactly(_) => Some(free),
    }
}

// Whether a counted row has a cell in each extra column.
#[inline]
fn leaves_rows(place: Place) -> bool
    ensures { result ≡ leaves_rows place }
{
    match place {
        Place::All => false,
        Place::Exactly(_) => true,
    }
}

// The seconds from a place on.
#[inline]
fn seconds_from(seconds: &[i64], first: usize) -> &[i64]
    ensures { (k : ℕ) → slice_index_or result.now k (pos 0)
        ≡ slice_index_or seconds.now (first + k) (pos 0) }
{
    if first <= seconds.len() {
        &seconds[first..]
    } else {
        &[]
    }
}

// The cells of a counted row in columns with any labels: the parts of their costs are brought side by
// side first.
#[inline]
fn mixed_piece<V: Copy, E: Fn(Cost) -> V>(
    inst: &Instance,
    free: V,
    enter: &E,
    r: u32,
    parts: RowParts<'_>,
    first: usize,
    labelling: Labelling,
    columns: &[Option<u32>],
    values: &mut [V],
) -> u64
    requires enters { MayEnterEach inst.now (E.pre enter.now) }
    requires live { IsLiveRow inst.now r parts.firsts.now parts.seconds.now }
    requires known { AreKnownAs labelling first columns.now }
    requires count { length columns.now ≡ length values.old }
    requires few { length values.old ≤ 64 }
    ensures present { AreBitsOf (length values.old)
        (λ k. is_labelled_within inst.now Whole (Some r) (slice_index_or columns.now k None)) result }
    ensures count { length values.new ≡ length values.old }
    ensures values { Entering inst.now (E.post enter.now) (λ entered.
        (k : ℕ) → k < length values.old → slice_get values.new k
        ≡ Some (entered_value inst.now free entered r (slice_index_or columns.now k None))) }
{
    let mut firsts = [ABSENT; 64];
    let mut seconds = [0; 64];
    gather_items(parts.firsts, columns, first, labelling, ABSENT, &mut firsts);
    gather_items(parts.seconds, columns, first, labelling, 0, &mut seconds);
    let piece = RowParts {
        firsts: &firsts[..columns.len()],
        seconds: &seconds,
    };
    let word = entered_piece(inst, free, enter, r, columns, piece, values);
    word | extra_bits(columns, leaves_rows(inst.place()))
}

// The cells of a counted row in the only copies of columns from the place `first` on.
#[inline]
fn plain_piece<V: Copy, E: Fn(Cost) -> V>(
    inst: &Instance,
    free: V,
    enter: &E,
    r: u32,
    parts: RowParts<'_>,
    first: usize,
    columns: &[Option<u32>],
    values: &mut [V],
) -> u64
    requires enters { MayEnterEach inst.now (E.pre enter.now) }
    requires live { IsLiveRow inst.now r parts.firsts.now parts.seconds.now }
    requires known { AreKnownAs Plain first columns.now }
    requires near { first ≤ most_side }
    requires count { length columns.now ≡ length values.old }
    requires few { length values.old ≤ 64 }
    ensures present { AreBitsOf (length values.old)
        (λ k. is_labelled_within inst.now Whole (Some r) (slice_index_or columns.now k None)) result }
    ensures count { length values.new ≡ length values.old }
    ensures values { Entering inst.now (E.post enter.now) (λ entered.
        (k : ℕ) → k < length values.old → slice_get values.new k
        ≡ Some (entered_value inst.now free entered r (slice_index_or columns.now k None))) }
{
    let end = first + columns.len();
    if end > parts.firsts.len() {
        return mixed_piece(
            inst,
            free,
            enter,
            r,
            parts,
            first,
            Labelling::Plain,
            columns,
            values,
        );
    }
    let piece = RowParts {
        firsts: &parts.firsts[first..end],
        seconds: seconds_from(parts.seconds, first),
    };
    entered_piece(inst, free, enter, r, columns, piece, values)
}

// The cells of a counted row in extra columns.
#[inline]
fn extra_piece<V: Copy>(
    inst: &Instance,
    free: V,
    r: u32,
    first: usize,
    columns: &[Option<u32>],
    values: &mut [V],
) -> u64
    requires known { AreKnownAs Extra first columns.now }
    requires count { length columns.now ≡ length values.old }
    requires few { length values.old ≤ 64 }
    ensures present { AreBitsOf (length values.old)
        (λ k. is_labelled_within inst.now Whole (Some r) (slice_index_or columns.now k None)) result }
    ensures count { length values.new ≡ length values.old }
    ensures values { (entered : Cost → V) (k : ℕ) → k < length values.old → slice_get values.new k
        ≡ Some (entered_value inst.now free entered r (slice_index_or columns.now k None)) }
{
    let _ = r;
    let _ = first;
    fill_with(values, free);
    equal_bits(columns.len(), leaves_rows(inst.place()))
}

// The cells of a counted row in columns with these labels, from the place `first` on, by the parts
// of the row.
#[inline]
fn counted_piece<V: Copy, E: Fn(Cost) -> V>(
    inst: &Instance,
    free: V,
    enter: &E,
    r: u32,
    parts: RowParts<'_>,
    first: usize,
    labelling: Labelling,
    columns: &[Option<u32>],
    values: &mut [V],
) -> u64
    requires enters { MayEnterEach inst.now (E.pre enter.now) }
    requires live { IsLiveRow inst.now r parts.firsts.now parts.seconds.now }
    requires known { AreKnownAs labelling first columns.now }
    requires near { first ≤ most_side }
    requires count { length columns.now ≡ length values.old }
    requires few { length values.old ≤ 64 }
    ensures present { AreBitsOf (length values.old)
        (λ k. is_labelled_within inst.now Whole (Some r) (slice_index_or columns.now k None)) result }
    ensures count { length values.new ≡ length values.old }
    ensures values { Entering inst.now (E.post enter.now) (λ entered.
        (k : ℕ) → k < length values.old → slice_get values.new k
        ≡ Some (entered_value inst.now free entered r (slice_index_or columns.now k None))) }
{
    match labelling {
        Labelling::Plain => plain_piece(inst, free, enter, r, parts, first, columns, values),
        Labelling::Extra => extra_piece(inst, free, r, first, columns, values),
        _ => mixed_piece(
            inst, free, enter, r, parts, first, labelling, columns, values,
        ),
    }
}

// The cells of a row that isn't counted in columns with these labels, from the place `first` on.
#[inline]
fn free_piece<V: Copy>(
    inst: &Instance,
    free: V,
    first: usize,
    labelling: Labelling,
    columns: &[Option<u32>],
    values: &mut [V],
) -> u64
    requires known { AreKnownAs labelling first columns.now }
    requires count { length columns.now ≡ length values.old }
    requires few { length values.old ≤ 64 }
    ensures present { AreBitsOf (length values.old)
        (λ k. is_labelled_within inst.now Whole None (slice_index_or columns.now k None)) result }
    ensures count { length values.new ≡ length values.old }
    ensures cells { (entered : Cost → V) → ArePieceOf (length values.old) values.new result
        (λ k. labelled_cell inst.now free entered None (slice_index_or columns.now k None)) }
{
    fill_with(values, free);
    free_bits(columns, labelling, first, has_corner(inst.place()))
}

// Makes each value of a list this one.
#[inline]
fn fill_with<V: Copy>(values: &mut [V], value: V)
    ensures count { length values.new ≡ length values.old }
    ensures values { (k : ℕ) → k < length values.old → slice_get values.new k ≡ Some value }
{
    for k in 0..values.len() {
        values[k] = value;
    }
}

// Whether a row that isn't counted has a cell in each extra column.
#[inline]
fn has_corner(place: Place) -> bool
    ensures { result ≡ has_corner place }
{
    match place {
        Place::All => true,
        Place::Exactly(_) => false,
    }
}

// The cells of a row with this label in columns with these labels, from the place `first` on, by the
// parts of the row where it is counted.
#[inline]
pub(crate) fn row_piece<V: Copy, E: Fn(Cost) -> V>(
    inst: &Instance,
    free: V,
    enter: &E,
    row: Option<u32>,
    parts: RowParts<'_>,
    first: usize,
    labelling: Labelling,
    columns: &[Option<u32>],
    values: &mut [V],
) -> u64
    requires enters { MayEnterEach inst.now (E.pre enter.now) }
    requires live { IfSome row (λ i. IsLiveRow inst.now i parts.firsts.now parts.seconds.now) }
    requires known { AreKnownAs labelling first columns.now }
    requires near { first ≤ most_side }
    requires count { length columns.now ≡ length values.old }
    requires few { length values.old ≤ 64 }
    ensures present { AreBitsOf (length values.old)
        (λ k. is_labelled_within inst.now Whole row (slice_index_or columns.now k None)) result }
    ensures count { length values.new ≡ length values.old }
    ensures cells { Entering inst.now (E.post enter.now) (λ entered.
        ArePieceOf (length values.old) values.new result
        (λ k. labelled_cell inst.now free entered row (slice_index_or columns.now k None))) }
{
    match row {
        Some(i) => counted_piece(
            inst, free, enter, i, parts, first, labelling, columns, values,
        ),
        None => free_piece(inst, free, first, labelling, columns, values),
    }
}
