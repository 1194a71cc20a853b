//! The growth of an alternating tree.

ghost use Rattle.std.specs.Prelude.{◌≡◌, ◌⊎◌, ℕ, ◌+◌, ◌*◌, ◌/◌, ◌<◌, ◌≤◌, ◌^◌, [], ◌∷◌, None, Some};
ghost use Rattle.std.specs.Prelude.{false, length, vec_len, vec_capacity, slice_index, IsTrue};
ghost use Rattle.std.specs.Prelude.{IfSome, IfNone};
ghost use Rattle.asg_match.specs.Matching.{Matches, IsMatching};
ghost use Rattle.asg_match.specs.Alternating.{HasParent, IsReached, IsClosed, IsOpen};
ghost use Rattle.asg_match.specs.ColumnSet.{HasColumn, IsColumnSet, word_count};
ghost use Rattle.asg_match.specs.Searched.{parents_in, IsGrown, IsSearch, Extends, IsExit};

use crate::alternating_tree::Branches;
use crate::column_set::{fill, remove};
use crate::{Allowed, Matching};

/// A column that no row has, and the place in the tree of a row that may have it.
#[derive(Clone, Copy)]
pub struct Exit {
    /// The place of the row in the tree.
    pub place: u32,
    /// The column.
    pub column: u32,
}

/// Begins the tree again at a root, with no column reached. It takes no memory.
pub fn start(tree: &mut Branches, root: u32)
    requires room { 0 < vec_capacity tree.old.rows }
    requires words { vec_len tree.old.unseen ≡ word_count (vec_len tree.old.parents) }
    ensures rows { tree.new.rows.items ≡ root ∷ [] }
    ensures none { (c : ℕ) → parents_in tree.new c ≡ None }
    ensures unseen { IsColumnSet (vec_len tree.old.parents) tree.new.unseen.items }
    ensures room { vec_capacity tree.new.rows ≡ vec_capacity tree.old.rows }
    ensures side { vec_len tree.new.parents ≡ vec_len tree.old.parents }
    ensures words { vec_len tree.new.unseen ≡ vec_len tree.old.unseen }
{
    tree.rows.clear();
    tree.rows.push_reserved(root);
    let side = tree.parents.len();
    fill(&mut tree.unseen, side);
}

// The first column of a word that wasn't reached and that the row may have.
#[inline]
fn next_column<A: Allowed>(allowed: &A, tree: &Branches, row: u32, number: u32) -> Option<u32>
    requires row_below { row < A.side allowed.now }
    requires side_fits { A.side allowed.now < 2 ^ 32 }
    requires unseen { IsColumnSet (A.side allowed.now) tree.now.unseen.items }
    requires number_below { number < vec_len tree.now.unseen }
    ensures there { IfSome result (A.allows allowed.now row) }
    ensures unseen { IfSome result (HasColumn tree.now.unseen.items) }
    ensures none { IfNone result ((c : ℕ) → c / 64 ≡ number
        → HasColumn tree.now.unseen.items c → A.allows allowed.now row c → ⊥) }
{
    let columns = allowed.among(row, number, tree.unseen[number as usize]);
    if columns == 0 {
        return None;
    }
    Some(64 * number + columns.trailing_zeros())
}

// The first column that no row has and that a row may have.
#[inline]
fn free_column<A: Allowed>(allowed: &A, matching: &Matching, row: u32) -> Option<u32>
    requires side { A.side allowed.now ≡ length matching.now }
    requires row_below { row < length matching.now }
    ensures { IfSome result (IsOpen (A.allows allowed.now) matching.now row) }
{
    let _side = matching.side();
    for number in 0..matching.words() {
        let columns = allowed.among(row, number, matching.free_columns(number));
        if columns != 0 {
            return Some(64 * number + columns.trailing_zeros());
        }
    }
    None
}

// Reaches a column from the row at a place, which may have it. True: no row has the column. False:
// the row that has it stands in the tree now.
#[inline]
fn reach(matching: &Matching, tree: &mut Branches, place: u32, column: u32) -> bool
    requires grown { IsGrown matching.now tree.old }
    requires place_within { place < length tree.old.rows.items }
    requires column_below { column < length matching.now }
    requires unseen { HasColumn tree.old.unseen.items column }
    ensures grown { IsGrown matching.now tree.new }
    ensures extends { Extends tree.old tree.new }
    ensures only { (c p : ℕ) → HasParent (parents_in tree.new) c p
        → HasParent (parents_in tree.old) c p ⊎ ((c ≡ column) × (p ≡ place)) }
    ensures yes { IsTrue result → (s : ℕ) → Matches matching.now s column → ⊥ }
    ensures longer { result ≡ false
        → length tree.new.rows.items ≡ length tree.old.rows.items + 1 }
{
    match matching.row_of(column) {
        None => true,
        Some(next) => {
            let side = tree.parents.len();
            tree.parents[column as usize] = place;
            remove(&mut tree.unseen, side, column as usize);
            tree.rows.push_reserved(next);
            false
        }
    }
}

// Reaches a column from the row at a place, which may have it, and looks ahead: the exit by the
// column, where no row has it, or else the first from the row that has it, which stands in the tree
// now.
fn step<A: Allowed>(
    allowed: &A,
    matching: &Matching,
    tree: &mut Branches,
    place: u32,
    column: u32,
) -> Option<Exit>
    requires side { A.side allowed.now ≡ length matching.now }
    requires search { IsSearch (A.allows allowed.now) matching.now tree.old }
    requires place_within { place < length tree.old.rows.items }
    requires column_below { column < length matching.now }
    requires cell { A.allows allowed.now (slice_index tree.old.rows.items place) column }
    requires unseen { HasColumn tree.old.unseen.items column }
    ensures search { IsSearch (A.allows allowed.now) matching.now tree.new }
    ensures extends { Extends tree.old tree.new }
    ensures found { IfSome result (IsExit (A.allows allowed.now) matching.now tree.new) }
    ensures longer { result ≡ None
        → length tree.new.rows.items ≡ length tree.old.rows.items + 1 }
{
    let _side = matching.side();
    let last = tree.rows.len() as u32;
    if reach(matching, tree, place, column) {
        return Some(Exit { place, column });
    }
    exit_from(allowed, matching, tree, last)
}

// The first exit from the row at a place.
#[inline]
fn exit_from<A: Allowed>(
    allowed: &A,
    matching: &Matching,
    tree: &Branches,
    place: u32,
) -> Option<Exit>
    requires side { A.side allowed.now ≡ length matching.now }
    requires grown { IsGrown matching.now tree.now }
    requires place_within { place < length tree.now.rows.items }
    ensures { IfSome result (IsExit (A.allows allowed.now) matching.now tree.now) }
{
    let row = tree.rows[place as usize];
    match free_column(allowed, matching, row) {
        Some(column) => Some(Exit { place, column }),
        None => None,
    }
}

// Looks at the columns of one word from the row at a place, up to the first exit.
fn scan_word<A: Allowed>(
    allowed: &A,
    matching: &Matching,
    tree: &mut Branches,
    place: u32,
    number: u32,
) -> Option<Exit>
    requires side { A.side allowed.now ≡ length matching.now }
    requires side_fits { length matching.now < 2 ^ 32 }
    requires search { IsSearch (A.allows allowed.now) matching.now tree.old }
    requires place_within { place < length tree.old.rows.items }
    requires number_below { number < vec_len tree.old.unseen }
    ensures search { IsSearch (A.allows allowed.now) matching.now tree.new }
    ensures extends { Extends tree.old tree.new }
    ensures found { IfSome result (IsExit (A.allows allowed.now) matching.now tree.new) }
    ensures none { IfNone result ((c : ℕ) → c / 64 ≡ number
        → A.allows allowed.now (slice_index tree.old.rows.items place) c
        → IsReached (parents_in tree.new) c) }
{
    let row = tree.rows[place as usize];
    'columns: while let Some(column) = next_column(allowed, tree, row, number) {
        if let Some(exit) = step(allowed, matching, tree, place, column) {
            return Some(exit);
        }
    }
    None
}

// Looks at every column from the row at a place, up to the first exit.
fn scan<A: Allowed>(
    allowed: &A,
    matching: &Matching,
    tree: &mut Branches,
    place: u32,
) -> Option<Exit>
    requires side { A.side allowed.now ≡ length matching.now }
    requires side_fits { length matching.now < 2 ^ 32 }
    requires search { IsSearch (A.allows allowed.now) matching.now tree.old }
    requires place_within { place < length tree.old.rows.items }
    ensures search { IsSearch (A.allows allowed.now) matching.now tree.new }
    ensures extends { Extends tree.old tree.new }
    ensures found { IfSome result (IsExit (A.allows allowed.now) matching.now tree.new) }
    ensures none { IfNone result
        (IsClosed (A.allows allowed.now) (parents_in tree.new)
        (slice_index tree.old.rows.items place)) }
{
    for number in 0..tree.unseen.len() as u32 {
        if let Some(exit) = scan_word(allowed, matching, tree, place, number) {
            return Some(exit);
        }
    }
    None
}

// Grows the tree breadth first from its root, up to the first exit from a row that is reached.
fn grow_on<A: Allowed>(allowed: &A, matching: &Matching, tree: &mut Branches) -> Option<Exit>
    requires side { A.side allowed.now ≡ length matching.now }
    requires search { IsSearch (A.allows allowed.now) matching.now tree.old }
    ensures search { IsSearch (A.allows allowed.now) matching.now tree.new }
    ensures extends { Extends tree.old tree.new }
    ensures found { IfSome result (IsExit (A.allows allowed.now) matching.now tree.new) }
    ensures none { IfNone result ((k : ℕ) → k < length tree.new.rows.items
        → IsClosed (A.allows allowed.now) (parents_in tree.new)
        (slice_index tree.new.rows.items k)) }
    ensures matching { IsMatching matching.now }
{
    for place in 0..matching.side() {
        if tree.rows.len() <= place as usize {
            return None;
        }
        if let Some(exit) = scan(allowed, matching, tree, place) {
            return Some(exit);
        }
    }
    None
}

// The same, where the root is asked first: each row is asked for an exit as it is reached, so that
// the first row in the order of reaching that has one ends the search.
pub(crate) fn grow<A: Allowed>(
    allowed: &A,
    matching: &Matching,
    tree: &mut Branches,
) -> Option<Exit>
    requires side { A.side allowed.now ≡ length matching.now }
    requires search { IsSearch (A.allows allowed.now) matching.now tree.old }
    ensures search { IsSearch (A.allows allowed.now) matching.now tree.new }
    ensures extends { Extends tree.old tree.new }
    ensures found { IfSome result (IsExit (A.allows allowed.now) matching.now tree.new) }
    ensures none { IfNone result ((k : ℕ) → k < length tree.new.rows.items
        → IsClosed (A.allows allowed.now) (parents_in tree.new)
        (slice_index tree.new.rows.items k)) }
    ensures matching { IsMatching matching.now }
{
    let _side = matching.side();
    if let Some(exit) = exit_from(allowed, matching, tree, 0) {
        return Some(exit);
    }
    grow_on(allowed, matching, tree)
}
