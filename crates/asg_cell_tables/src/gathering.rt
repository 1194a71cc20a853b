//! Parts of costs, brought into the order of labelled columns.

ghost use Rattle.std.specs.Prelude.{◌≡◌, ℕ, ◌<◌, ◌≤◌, ◌+◌, ◌*◌, ◌/◌, FitsSigned, IsTrue, None, length, slice_index_or};
ghost use Rattle.std.specs.Int.{w64};
ghost use Rattle.asg_cell_tables.specs.RowPieces.{AreKnownAs, gathered_item};
ghost use Rattle.asg_cell_tables.specs.declared.labellings.Labelling.TheVariants.{Twice};

use crate::labellings::Labelling;

// What stands at the place of a label, another where there is none.
#[inline]
fn item_at(items: &[i64], column: Option<u32>, other: i64) -> i64
    ensures fits { FitsSigned w64 result }
    ensures item { result ≡ gathered_item items.now other column }
{
    match column {
        Some(d) => item_or(items, d as usize, other),
        None => other,
    }
}

// What stands at a place, another past the last.
#[inline]
fn item_or(items: &[i64], place: usize, other: i64) -> i64
    ensures fits { FitsSigned w64 result }
    ensures item { result ≡ slice_index_or items.now place other }
{
    match items.get(place) {
        Some(item) => *item,
        None => other,
    }
}

// Writes what stands at the places of labels.
#[inline]
fn gather(items: &[i64], columns: &[Option<u32>], other: i64, room: &mut [i64])
    requires few { length columns.now ≤ 64 }
    requires room { length room.old ≡ 64 }
    ensures room { length room.new ≡ 64 }
    ensures items { (k : ℕ) → k < length columns.now → slice_index_or room.new k other
        ≡ gathered_item items.now other (slice_index_or columns.now k None) }
{
    for k in 0..columns.len() {
        let item = item_at(items, columns[k], other);
        room[k] = item;
    }
}

// Writes what stands at 32 places from one on, each twice.
#[inline]
fn write_pairs(items: &[i64], from: usize, other: i64, room: &mut [i64])
    requires within { from + 32 ≤ length items.now }
    requires room { length room.old ≡ 64 }
    ensures room { length room.new ≡ 64 }
    ensures items { (k : ℕ) → k < 64 → slice_index_or room.new k other
        ≡ slice_index_or items.now (from + k / 2) other }
{
    for i in 0..32usize {
        let item = item_or(items, from + i, other);
        room[2 * i] = item;
        room[2 * i + 1] = item;
    }
}

// Whether 64 labels are those of 32 columns from a place on, each twice, at all of which something
// stands.
#[inline]
fn are_pairs(labelling: Labelling, first: usize, count: usize, items: &[i64]) -> bool
    ensures twice { IsTrue result → labelling ≡ Twice }
    ensures count { IsTrue result → count ≡ 64 }
    ensures within { IsTrue result → first / 2 + 32 ≤ length items.now }
{
    match labelling {
        Labelling::Twice => count == 64 && first / 2 + 32 <= items.len(),
        _ => false,
    }
}

/// Writes what stands in a list at the places of at most 64 labels, those from the place `first` on;
/// `other` stays past the end of the list and where there is no label.
#[inline]
pub(crate) fn gather_items(
    items: &[i64],
    columns: &[Option<u32>],
    first: usize,
    labelling: Labelling,
    other: i64,
    room: &mut [i64],
)
    requires few { length columns.now ≤ 64 }
    requires known { AreKnownAs labelling first columns.now }
    requires room { length room.old ≡ 64 }
    requires clear { (k : ℕ) → slice_index_or room.old k other ≡ other }
    ensures room { length room.new ≡ 64 }
    ensures items { (k : ℕ) → k < length columns.now → slice_index_or room.new k other
        ≡ gathered_item items.now other (slice_index_or columns.now k None) }
{
    if items.len() == 0 {
        return;
    }
    if are_pairs(labelling, first, columns.len(), items) {
        write_pairs(items, first / 2, other, room);
        return;
    }
    gather(items, columns, other, room);
}
