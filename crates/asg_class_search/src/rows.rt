//! Which rows have which classes.

use asg_dual_numbers::{Lists, NONE, at, mark, name, put};

/// The classes of rows so far. Where each class has one column, its row is the first one of the
/// class.
#[derive(Drop)]
pub struct Rows {
    /// The class of each row.
    pub class_of: Vec<u32>,
    /// The first row of each class.
    pub first_of: Vec<u32>,
    // Of each row those before and behind it in its class.
    earlier: Vec<u32>,
    pub(crate) later: Vec<u32>,
    // How many rows each class has room for.
    rooms: Vec<u32>,
    /// A bit for each class that has room.
    pub free: Vec<u64>,
}

impl Rows {
    // So many rows without a class, and so many places for classes, which have room for so many
    // rows each.
    pub(crate) fn make(lists: &mut Lists, rows: usize, wide: usize, rooms: Vec<u32>) -> Rows {
        Rows {
            class_of: lists.of(NONE, rows),
            first_of: lists.of(NONE, wide),
            earlier: lists.of(NONE, rows),
            later: lists.of(NONE, rows),
            rooms,
            free: lists.of(0, wide / 64 + 1),
        }
    }

    /// Takes the classes from all rows; so many classes have room.
    pub fn release(&mut self, side: usize) {
        self.class_of.as_mut_slice().fill(NONE);
        self.first_of.as_mut_slice().fill(NONE);
        for class in 0..side {
            mark(self.free.as_mut_slice(), class, true);
        }
    }

    /// Gives a row a class with one column, whose own row it becomes.
    #[inline]
    pub fn pair(&mut self, row: u32, column: u32) {
        put(self.class_of.as_mut_slice(), row as usize, column);
        put(self.first_of.as_mut_slice(), column as usize, row);
        mark(self.free.as_mut_slice(), column as usize, false);
    }

    // Gives a row that has no class one.
    pub(crate) fn join(&mut self, row: u32, class: u32) {
        let first = at(self.first_of.as_slice(), class as usize);
        put(self.first_of.as_mut_slice(), class as usize, row);
        put(self.earlier.as_mut_slice(), row as usize, NONE);
        put(self.later.as_mut_slice(), row as usize, first);
        put(self.earlier.as_mut_slice(), first as usize, row);
        put(self.class_of.as_mut_slice(), row as usize, class);
    }

    // Takes its class from a row.
    fn leave(&mut self, row: u32) {
        let class = at(self.class_of.as_slice(), row as usize);
        let earlier = at(self.earlier.as_slice(), row as usize);
        let later = at(self.later.as_slice(), row as usize);
        if earlier == NONE {
            put(self.first_of.as_mut_slice(), class as usize, later);
        } else {
            put(self.later.as_mut_slice(), earlier as usize, later);
        }
        put(self.earlier.as_mut_slice(), later as usize, earlier);
        put(self.class_of.as_mut_slice(), row as usize, NONE);
    }

    // Takes room for one row from a class.
    pub(crate) fn fill(&mut self, class: u32) {
        let room = at(self.rooms.as_slice(), class as usize).saturating_sub(1);
        put(self.rooms.as_mut_slice(), class as usize, room);
        if room == 0 {
            mark(self.free.as_mut_slice(), class as usize, false);
        }
    }

    /// Gives the classes of the path that ends in a class with room to the rows that they are
    /// reached from. The row that had none before.
    pub fn flip(&mut self, came: &[u32], end: u32) -> u32 {
        self.fill(end);
        let mut class = end;
        for _ in 0..self.class_of.len() {
            let row = at(came, class as usize);
            let former = at(self.class_of.as_slice(), row as usize);
            if former == NONE {
                self.join(row, class);
                return row;
            }
            self.leave(row);
            self.join(row, class);
            class = former;
        }
        NONE
    }
}

/// Lists those of the first rows that have no class as waiting, and tells how many there are.
pub fn list_waiting(waiting: &mut [u32], class_of: &[u32], rows: usize) -> usize {
    let mut count = 0;
    for row in 0..rows.min(class_of.len()) {
        if class_of[row] == NONE {
            put(waiting, count, name(row));
            count = count.saturating_add(1);
        }
    }
    count
}

/// Lets the waiting rows from a place up to a count wait behind so many that are delayed, which wait
/// again. How many wait then.
pub fn wait_again(
    waiting: &mut [u32],
    delayed: &mut [u32],
    next: usize,
    count: usize,
    later: usize,
) -> usize {
    let mut later = later;
    for rest in next..count {
        put(delayed, later, at(&*waiting, rest));
        later = later.saturating_add(1);
    }
    for place in 0..later.min(waiting.len()) {
        put(waiting, place, at(&*delayed, place));
    }
    later
}
