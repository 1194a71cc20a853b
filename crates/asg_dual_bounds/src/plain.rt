//! Plain instances.

ghost use Rattle.std.specs.Prelude.{◌≡◌, ◌↔◌, IsTrue, All as Each};
ghost use Rattle.asg_model.specs.declared.parts.Place.TheVariants.{All};
ghost use Rattle.asg_dual_bounds.specs.Plain.{IsPlain};

use asg_model::{Column, Instance, Place, Row};

/// Whether an instance is plain: each row is active and is placed, and each column takes one row.
pub fn is_plain(inst: &Instance) -> bool
    ensures { IsTrue result → IsPlain inst.now }
{
    is_all(inst.place()) && are_active(inst.rows()) && are_single(inst.columns())
}

// Whether all active rows are placed.
fn is_all(place: Place) -> bool
    ensures { IsTrue result → place ≡ All }
{
    match place {
        Place::All => true,
        Place::Exactly(_) => false,
    }
}

// Whether each row is active.
fn are_active(rows: &[Row]) -> bool
    ensures { IsTrue result ↔ Each (λ row. IsTrue row.active) rows.now }
{
    rows.iter().all(|row| row.active)
}

// Whether each column takes one row.
fn are_single(columns: &[Column]) -> bool
    ensures { IsTrue result ↔ Each (λ column. column.cap ≡ 1) columns.now }
{
    columns.iter().all(|column| column.cap == 1)
}
