//! Children: by what their answers and dual variables differ from those of their part.

use asg_dual_numbers::{Lists, NONE};

/// By how much a row that a child fixes falls further, and its column rises: by more than any other
/// row falls.
pub const FIXED: u64 = 1 << 44;

/// In place of a row or a column: what those columns rose that no row has.
pub const FLOOR: u32 = NONE;

// By how much the bound of a part rises in which no answer is: above 2,000 numbers of 2^31.
pub(crate) const EMPTY: u64 = 1 << 43;

/// A row that has another column in the answer of a child than in that of its part.
#[derive(Clone, Copy)]
pub struct Move {
    /// The row; that behind the last one stands for the columns that no row has.
    pub row: u32,
    /// Its column in the child's answer.
    pub column: u32,
}

/// What was found of a child.
#[derive(Drop)]
pub struct Child {
    /// By how much its bound is above that of the part.
    pub by: u64,
    /// What was reached on the way: a row, with its column in the part's answer; behind the rows a
    /// column that no row has; or the floor.
    ///
    /// Where the child's row falls further by some amount, up to that by which the bound rose, each
    /// of these rises or falls further by what its distance leaves of it.
    pub places: Vec<u32>,
    /// The distance of each of these.
    pub distances: Vec<u64>,
    /// The rows that have other columns in the child's answer than in the part's.
    pub moves: Vec<Move>,
}

impl Child {
    // Room for a child over so many rows and columns.
    pub(crate) fn make(lists: &mut Lists, rows: usize, columns: usize) -> Child {
        let most = columns.saturating_add(1);
        Child {
            by: 0,
            places: lists.room(most),
            distances: lists.room(most),
            moves: lists.room(rows.saturating_add(1)),
        }
    }

    // Begins with what the part has, and rises by so much.
    pub(crate) fn begin(&mut self, by: u64) {
        self.by = by;
        self.places.clear();
        self.distances.clear();
        self.moves.clear();
    }

    // Notes what was reached, and how far it is.
    pub(crate) fn note(&mut self, place: u32, distance: u64) {
        let _has_room = self.places.push(place).is_ok();
        let _has_room = self.distances.push(distance).is_ok();
    }

    // Gives a row another column.
    pub(crate) fn shift(&mut self, row: u32, column: u32) {
        let _has_room = self.moves.push(Move { row, column }).is_ok();
    }
}
