//! Matchings of rows with columns that hold several rows each, and the alternating trees by which
//! they grow ([Kuhn 1955], where a column holds one). Nothing here is tested.

use crate::NoMemory;
use crate::limit_marks::words_of;
use crate::places::{NONE, at, column_of, put, put_bit};
use asg_bit_rows::BitRows;
use asg_dual_numbers::Lists;
use asg_model::Instance;
use std::alloc::Global;

/// The columns of rows, of which each column holds so many, and the tree of the last search.
#[derive(Drop)]
pub(crate) struct ClassMatching {
    /// The column of each row.
    pub(crate) columns: Vec<u32>,
    // The first row of each column, and for each row the next one of its column.
    first_of: Vec<u32>,
    next_of: Vec<u32>,
    // How many more rows each column holds, and a bit for each that holds one more.
    rooms: Vec<u32>,
    open: Vec<u64>,
    // The rows that the tree reached, how many they are, and the row from which each column was
    // reached.
    tree: Vec<u32>,
    reached: u32,
    parents: Vec<u32>,
    /// The columns that the tree didn't reach, by a bit each.
    pub(crate) unseen: Vec<u64>,
}

// Whether a row may have a column.
fn has(bits: &BitRows, row: u32, column: u32) -> bool {
    row < bits.rows() && column < bits.columns() && bits.has(row, column)
}

// Writes how many rows each column holds.
fn put_rooms(rooms: &mut [u32], inst: &Instance) {
    let columns = inst.columns();
    for place in 0..rooms.len().min(columns.len()) {
        rooms[place] = columns[place].cap;
    }
}

impl ClassMatching {
    /// No row has a column; these columns are open. The error is want of memory.
    pub(crate) fn make(
        alloc: Global,
        inst: &Instance,
        open: &[u64],
    ) -> Result<ClassMatching, NoMemory> {
        let rows = inst.rows().len();
        let columns = inst.columns().len();
        let mut lists = Lists::new(alloc);
        let mut matching = ClassMatching {
            columns: lists.of(NONE, rows),
            first_of: lists.of(NONE, columns),
            next_of: lists.of(NONE, rows),
            rooms: lists.of(0, columns),
            open: lists.copy_of(open),
            tree: lists.of(NONE, rows),
            reached: 0,
            parents: lists.of(NONE, columns),
            unseen: lists.of(0, open.len()),
        };
        put_rooms(&mut matching.rooms, inst);
        lists.whole(matching)
    }

    // Lets a column hold so many more rows.
    fn put_room(&mut self, column: u32, room: u32) {
        put(&mut self.rooms, column, room);
        put_bit(&mut self.open, column, room > 0);
    }

    // Gives a row without a column one that holds one more row.
    fn give(&mut self, row: u32, column: u32) {
        put(&mut self.columns, row, column);
        put(&mut self.next_of, row, at(self.first_of.as_slice(), column));
        put(&mut self.first_of, column, row);
        let room = at(self.rooms.as_slice(), column);
        self.put_room(column, room.saturating_sub(1));
    }

    // The row before another among those of a column.
    fn before(&self, column: u32, row: u32) -> u32 {
        let mut before = at(self.first_of.as_slice(), column);
        for _ in 0..self.next_of.len() {
            let next = at(self.next_of.as_slice(), before);
            if next == row || next == NONE {
                return before;
            }
            before = next;
        }
        before
    }

    // Takes from a row its column.
    fn take(&mut self, row: u32, column: u32) {
        let next = at(self.next_of.as_slice(), row);
        if at(self.first_of.as_slice(), column) == row {
            put(&mut self.first_of, column, next);
        } else {
            let before = self.before(column, row);
            put(&mut self.next_of, before, next);
        }
        put(&mut self.columns, row, NONE);
        let room = at(self.rooms.as_slice(), column);
        self.put_room(column, room.saturating_add(1));
    }

    // Takes from each row a column that it may not have.
    fn prune(&mut self, bits: &BitRows) {
        for row in 0..bits.rows() {
            let column = at(self.columns.as_slice(), row);
            if column != NONE && !has(bits, row, column) {
                self.take(row, column);
            }
        }
    }

    // A column that holds one more row, and that a row may have; `NONE` where there is none.
    #[inline]
    fn open_column(&self, bits: &BitRows, row: u32) -> u32 {
        let words = words_of(bits, row);
        for number in 0..words.len().min(self.open.len()) {
            let columns = words[number] & self.open[number];
            if columns != 0 {
                return column_of(number, columns.trailing_zeros());
            }
        }
        NONE
    }

    // Gives rows columns that hold one more, row after row.
    fn serve(&mut self, bits: &BitRows, rows: &[u32]) {
        for row in rows {
            if at(self.columns.as_slice(), *row) == NONE {
                let column = self.open_column(bits, *row);
                if column != NONE {
                    self.give(*row, column);
                }
            }
        }
    }

    // Puts a row into the tree. The answer is a column for it that holds one more, or `NONE`.
    fn reach_row(&mut self, bits: &BitRows, row: u32) -> u32 {
        put(&mut self.tree, self.reached, row);
        self.reached = self.reached.saturating_add(1);
        self.open_column(bits, row)
    }

    // Puts the rows of a full column into the tree, up to one with a column that holds one more.
    // The answer is whether there was one, which took that.
    fn reach_column(&mut self, bits: &BitRows, column: u32) -> bool {
        let mut row = at(self.first_of.as_slice(), column);
        for _ in 0..self.next_of.len() {
            if row == NONE {
                return false;
            }
            let open = self.reach_row(bits, row);
            if open != NONE {
                self.flip(row, open);
                return true;
            }
            row = at(self.next_of.as_slice(), row);
        }
        false
    }

    // Gives a row of the tree a column, the row from which its old one was reached that, and so on
    // up to the root.
    fn flip(&mut self, row: u32, column: u32) {
        let mut row = row;
        let mut column = column;
        for _ in 0..self.columns.len() {
            let old = at(self.columns.as_slice(), row);
            if old != NONE {
                self.take(row, old);
            }
            self.give(row, column);
            if old == NONE {
                return;
            }
            row = at(self.parents.as_slice(), old);
            column = old;
        }
    }

    // Reaches full columns from a row of the tree, by the word of this number. The answer is
    // whether the root got a column.
    fn scan_word(&mut self, bits: &BitRows, row: u32, number: usize, word: u64) -> bool {
        let mut rest = word;
        for _ in 0..64 {
            if rest == 0 {
                return false;
            }
            let column = column_of(number, rest.trailing_zeros());
            rest &= rest.wrapping_sub(1);
            put_bit(&mut self.unseen, column, false);
            put(&mut self.parents, column, row);
            if self.reach_column(bits, column) {
                return true;
            }
        }
        false
    }

    // The same by all words.
    fn scan(&mut self, bits: &BitRows, row: u32) -> bool {
        let words = words_of(bits, row);
        for number in 0..words.len() {
            if number < self.unseen.len() {
                let columns = words[number] & self.unseen[number];
                if self.scan_word(bits, row, number, columns) {
                    return true;
                }
            }
        }
        false
    }

    // Grows a tree from a row without a column, breadth first. The answer is whether it got one.
    fn grow(&mut self, bits: &BitRows, root: u32) -> bool {
        self.unseen.as_mut_slice().fill(u64::MAX);
        self.reached = 0;
        let open = self.reach_row(bits, root);
        if open != NONE {
            self.give(root, open);
            return true;
        }
        for place in 0..bits.rows() {
            if place >= self.reached {
                return false;
            }
            let row = at(self.tree.as_slice(), place);
            if self.scan(bits, row) {
                return true;
            }
        }
        false
    }

    /// Gives these rows columns that they may have, from what they have of these. The answer is
    /// whether all have one; else the rows of the tree have too few.
    pub(crate) fn complete(&mut self, bits: &BitRows, rows: &[u32]) -> bool {
        self.prune(bits);
        self.serve(bits, rows);
        for row in rows {
            if at(self.columns.as_slice(), *row) == NONE && !self.grow(bits, *row) {
                return false;
            }
        }
        true
    }

    /// The rows of the last tree.
    pub(crate) fn tree(&self) -> &[u32] {
        let count = (self.reached as usize).min(self.tree.len());
        &self.tree[..count]
    }
}
