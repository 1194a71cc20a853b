//! The places that an edit names.

ghost use Rattle.std.specs.Prelude.{◌≡◌, ◌<◌, ◌≤◌, ◌↔◌, ℕ, IsTrue, IfSome};
ghost use Rattle.asg_kept_phases.specs.NamedPlaces.{places_of, IsAtRow, IsAtColumn, IsNamed, label_at};

use asg_model::{Edit, Instance};
use asg_square::Square;

/// The places of the row and the column that an edit names; none where it names none.
#[derive(Clone, Copy)]
pub struct NamedPlaces {
    /// The place of the row among the instance's rows.
    pub row: Option<u32>,
    /// The place of the column among its columns.
    pub column: Option<u32>,
}

/// The places of the row and of the column that an edit names; none where it names none, or one that
/// isn't there.
pub fn places_of(inst: &Instance, edit: Edit) -> NamedPlaces
    ensures { result ≡ places_of inst.now edit }
{
    match edit {
        Edit::Cost { row, col, .. } | Edit::Forbid { row, col } => NamedPlaces {
            row: inst.row_place(row),
            column: inst.column_place(col),
        },
        Edit::DropRow { row } => NamedPlaces {
            row: inst.row_place(row),
            column: None,
        },
        Edit::DropColumn { col } => NamedPlaces {
            row: None,
            column: inst.column_place(col),
        },
    }
}

/// The rows of a square that are that of a place, all where there is none: from one on and before
/// another.
pub(crate) fn rows_at(place: Option<u32>, side: u32) -> (u32, u32)
    requires { IfSome place (λ p. p < side) }
    ensures order { result.0 ≤ result.1 }
    ensures within { result.1 ≤ side }
    ensures rows { (r : ℕ) → r < side → ((result.0 ≤ r) × (r < result.1)) ↔ IsAtRow place r }
{
    match place {
        Some(p) => (p, p + 1),
        None => (0, side),
    }
}

// Whether a row of the square is that of a place, where there is one.
fn is_at_row(place: Option<u32>, r: u32) -> bool
    ensures { IsTrue result ↔ IsAtRow place r }
{
    match place {
        Some(p) => r == p,
        None => true,
    }
}

/// Whether a column of the square is a copy of that of a place, where there is one.
pub(crate) fn is_at_column(place: Option<u32>, label: Option<u32>) -> bool
    ensures { IsTrue result ↔ IsAtColumn place label }
{
    match place {
        Some(q) => label == Some(q),
        None => true,
    }
}

/// Whether a cell of a square stands for the places.
pub fn is_named<V: Copy>(places: NamedPlaces, square: &Square<V>, r: u32, k: u32) -> bool
    requires row { r < square.now.side }
    requires column { k < square.now.side }
    ensures { IsTrue result ↔ IsNamed places (label_at square.now) r k }
{
    let is_row = is_at_row(places.row, r);
    let is_column = is_at_column(places.column, square.column_label(k));
    is_row && is_column
}
