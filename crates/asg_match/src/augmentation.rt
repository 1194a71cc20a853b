//! Augmenting a matching by one row.

ghost use Rattle.std.specs.Prelude.{◌≡◌, ℕ, ◌<◌, length, None};
ghost use Rattle.asg_match.specs.Matching.{column_at, IsMatching, AllAllowed};
ghost use Rattle.asg_match.specs.Augmentation.{IsLonger, IsStuck};
ghost use Rattle.asg_match.specs.Deficient.{IsDeficient};

use crate::path::flip;
use crate::search::{grow, start};
use crate::{Allowed, Matching, Tree};

/// What [`augment`] did.
#[derive(Clone, Copy, PartialEq, Eq)]
pub enum Grown {
    /// The root has a column now.
    Longer,
    /// No choice of allowed columns serves the root beside the rows that had columns.
    Short,
}

/// Tries to give the root a column: it grows an alternating tree from the root, and flips the path
/// to the first column that no row has (the augmenting step of the Hungarian method, [Kuhn 1955]).
/// Each row is asked for such a column as the tree reaches it ([Duff 1981]), the root first, so that
/// mostly no tree grows.
///
/// `Longer`: the root and every row that had a column have one, by allowed cells, and no other row
/// has one. `Short`: the matching is as it was, and the rows of the tree are one more than the
/// columns that are allowed to them: they are deficient. Takes no memory. The time grows with the
/// rows of the tree times the side, 64 columns at a time where `Allowed` gives words.
pub fn augment<A: Allowed>(
    allowed: &A,
    matching: &mut Matching,
    root: u32,
    tree: &mut Tree,
) -> Grown
    requires side { A.side allowed.now ≡ length matching.old }
    requires tree_side { tree.old.side ≡ length matching.old }
    requires root_below { root < length matching.old }
    requires root_free { column_at matching.old root ≡ None }
    requires cells { AllAllowed (A.allows allowed.now) matching.old }

    ensures side { length matching.new ≡ length matching.old }
    ensures matching { IsMatching matching.new }
    ensures tree_side { tree.new.side ≡ tree.old.side }
    ensures longer { result ≡ Grown.Longer
        → IsLonger (A.allows allowed.now) matching.old matching.new root }

    // Short: the matching is as it was, and the tree says why.
    ensures unchanged { result ≡ Grown.Short → matching.new ≡ matching.old }
    ensures stuck { result ≡ Grown.Short
        → IsStuck (A.allows allowed.now) matching.old root tree.new.rows }
    ensures short { result ≡ Grown.Short
        → IsDeficient (A.allows allowed.now) (length matching.old) tree.new.rows }
{
    start(&mut tree.branches, root);
    match grow(allowed, matching, &mut tree.branches) {
        Some(exit) => {
            flip(matching, &tree.branches, exit);
            Grown::Longer
        }
        None => Grown::Short,
    }
}
