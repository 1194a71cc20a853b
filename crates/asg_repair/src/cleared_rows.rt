//! Rows that lose the columns whose cells an edit names.

ghost use Rattle.std.specs.Prelude.{◌≡◌, ◌<◌, ℕ, length};
ghost use Rattle.asg_match.specs.Matching.{Matches, IsMatching};
ghost use Rattle.asg_kept_phases.specs.NamedPlaces.{IsNamed, label_at};

use asg_kept_phases::{NamedPlaces, is_named};
use asg_match::Matching;
use asg_square::Square;

// Takes its column from a row whose cell stands for the places.
fn clear_row<V: Copy>(places: NamedPlaces, square: &Square<V>, matching: &mut Matching, r: u32)
    requires side { length matching.old ≡ square.now.side }
    requires row { r < square.now.side }
    ensures side { length matching.new ≡ length matching.old }
    ensures only { (s k : ℕ) → Matches matching.new s k → Matches matching.old s k }
    ensures others { (s k : ℕ) → Matches matching.old s k
        → (IsNamed places (label_at square.now) s k → ⊥) → Matches matching.new s k }
    ensures cleared { (k : ℕ) → Matches matching.new r k
        → IsNamed places (label_at square.now) r k → ⊥ }
{
    let _side = matching.side();
    match matching.column_of(r) {
        Some(k) => {
            if is_named(places, square, r, k) {
                matching.clear(r);
            }
        }
        None => {}
    }
}

/// Takes its column from each row whose cell stands for the places. It takes no memory.
pub(crate) fn clear_named<V: Copy>(places: NamedPlaces, square: &Square<V>, matching: &mut Matching)
    requires side { length matching.old ≡ square.now.side }
    ensures side { length matching.new ≡ length matching.old }
    ensures matching { IsMatching matching.new }
    ensures only { (r k : ℕ) → Matches matching.new r k → Matches matching.old r k }
    ensures kept { (r k : ℕ) → Matches matching.old r k
        → (IsNamed places (label_at square.now) r k → ⊥) → Matches matching.new r k }
    ensures cleared { (r k : ℕ) → Matches matching.new r k
        → IsNamed places (label_at square.now) r k → ⊥ }
{
    for r in 0..matching.side() {
        clear_row(places, square, matching, r);
    }
}
