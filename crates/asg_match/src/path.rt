//! Flipping an augmenting path.

ghost use Rattle.std.specs.Prelude.{◌≡◌, ◌<◌, length, slice_index};
ghost use Rattle.asg_match.specs.Matching.{IsFree};
ghost use Rattle.asg_match.specs.Alternating.{IsTree, HasParent, IsReached};
ghost use Rattle.asg_match.specs.Flipped.{Flips};
ghost use Rattle.asg_match.specs.Searched.{parents_in};

use crate::Matching;
use crate::alternating_tree::Branches;
use crate::search::Exit;

// The place of the row that a column was reached from.
fn parent(tree: &Branches, column: u32) -> u32
    requires { IsReached (parents_in tree.now) column }
    ensures { HasParent (parents_in tree.now) column result }
{
    tree.parents[column as usize]
}

/// Gives the exit's column to the exit's row, that row's former column to the row that reached it,
/// and so on up to the root: the root and every row that had a column have one (a matching is
/// lengthened along an augmenting path, [Berge 1957]). It takes no memory.
pub fn flip(matching: &mut Matching, tree: &Branches, exit: Exit)
    requires grown { IsTree matching.old tree.now.rows.items (parents_in tree.now) }
    requires place_within { exit.place < length tree.now.rows.items }
    requires column_below { exit.column < length matching.old }
    requires column_free { IsFree matching.old exit.column }
    ensures { Flips tree.now.rows.items (parents_in tree.now) exit.place exit.column
        matching.old matching.new }
{
    let mut column = exit.column;
    let mut place = exit.place;
    let mut row = tree.rows[place as usize];
    'links: while let Some(former) = matching.column_of(row) {
        matching.clear(row);
        matching.set(row, column);
        column = former;
        place = parent(tree, former);
        row = tree.rows[place as usize];
    }
    matching.set(row, column);
}
