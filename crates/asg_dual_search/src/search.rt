//! The search for an assignment of least sum with dual variables.

use crate::NoMemory;
use crate::table_duals::found_by_table;
use crate::widths::{is_narrow, is_settled_narrow, narrow_absent, wide_absent};
use asg_class_search::{
    Arcs, ClassRow, Classes, Ranges, arcs_of, are_even, class_ranges, class_table, classes_of,
    found_by_arcs, near_base, near_class_table,
};
use asg_dual_numbers::{Found, Lists, Number, Numbers, Sums, Table};
use asg_square::Square;
use std::alloc::Global;

// After so many ways nothing is left to try.
const MOST_WAYS: usize = 4;

// What is tried next: lists of the present cells; numbers of 32 bits, where no cell is absent and
// all are near one another; numbers of 32 bits; numbers of 64.
#[derive(Clone, Copy)]
enum Way {
    Arcs,
    Near,
    Narrow,
    Wide,
    Nothing,
}

impl Way {
    // What is tried after it.
    fn next(self) -> Way {
        match self {
            Way::Near => Way::Narrow,
            Way::Narrow => Way::Wide,
            Way::Arcs | Way::Wide | Way::Nothing => Way::Nothing,
        }
    }
}

/// The search for an assignment of a square of sums, and for dual variables that are tight on it,
/// so that no other has a lesser sum. What it finds is mostly so, but is to be tested, and where it
/// isn't so, the search goes on.
#[derive(Drop)]
pub struct Search<'a> {
    sums: Sums<'a>,
    classes: Classes,
    arcs: Option<Arcs>,
    room: ClassRow,
    ranges: Option<Ranges>,
    way: Way,
}

// The rows and columns of a square by what they stand for, where its cells are even, else each by
// itself.
fn even_classes_of<V: Copy>(lists: &mut Lists, square: &Square<V>, sums: &Sums<'_>) -> Classes {
    let classes = classes_of(lists, square, sums);
    if are_even(square, sums, &classes) {
        return classes;
    }
    drop(classes);
    Classes::apart(lists, sums.side)
}

// What comes of a table in numbers of a width by the ranges of the rows.
fn found_in<N: Number>(
    lists: &mut Lists,
    sums: &Sums<'_>,
    classes: &Classes,
    room: &mut ClassRow,
    ranges: &Ranges,
    absent: u64,
) -> Option<Found> {
    let leasts = ranges.leasts.as_slice();
    let table: Table<N> = class_table(lists, sums, classes, leasts, absent, room);
    let found = found_by_table(lists, sums.side, classes, &table, leasts);
    drop(table);
    found
}

impl<'a> Search<'a> {
    // The search over sums by these classes.
    fn by(lists: &mut Lists, sums: Sums<'a>, classes: Classes) -> Search<'a> {
        let arcs = arcs_of(lists, &sums, &classes);
        let room = ClassRow::make(lists, &classes);
        let mut way = Way::Near;
        if arcs.is_some() {
            way = Way::Arcs;
        } else if classes.outside == 0 && classes.room < classes.rows.len() {
            way = Way::Nothing;
        }
        Search {
            sums,
            classes,
            arcs,
            room,
            ranges: None,
            way,
        }
    }

    /// The search over a square of sums. The error is want of memory.
    pub fn of_square(alloc: Global, square: &'a Square<u64>) -> Result<Search<'a>, NoMemory> {
        let mut lists = Lists::new(alloc);
        let sums = Sums::of_square(&mut lists, square);
        let classes = classes_of(&mut lists, square, &sums);
        let search = Search::by(&mut lists, sums, classes);
        lists.whole(search)
    }

    /// The search over numbers, as which the cells of a square were read. The error is want of
    /// memory.
    pub fn of_numbers<V: Copy>(
        alloc: Global,
        square: &Square<V>,
        numbers: &'a Numbers,
    ) -> Result<Search<'a>, NoMemory> {
        let mut lists = Lists::new(alloc);
        let sums = Sums::of_numbers(&mut lists, numbers);
        let classes = even_classes_of(&mut lists, square, &sums);
        let search = Search::by(&mut lists, sums, classes);
        lists.whole(search)
    }

    fn by_arcs(&self, lists: &mut Lists) -> Option<Found> {
        match &self.arcs {
            Some(arcs) => found_by_arcs(lists, self.sums.side, &self.classes, arcs),
            None => None,
        }
    }

    // What a table of cells less a base comes to.
    fn near_by(&self, lists: &mut Lists, base: u64, table: &Table<i32>) -> Option<Found> {
        let leasts = lists.of(base, self.classes.rows.len());
        let side = self.sums.side;
        let found = found_by_table(lists, side, &self.classes, table, leasts.as_slice());
        drop(leasts);
        found
    }

    fn near(&mut self, lists: &mut Lists) -> Option<Found> {
        let base = near_base(&self.sums);
        let table: Table<i32> = near_class_table(
            lists,
            &self.sums,
            &self.classes,
            base,
            &mut self.room,
        )?;
        let found = self.near_by(lists, base, &table);
        drop(table);
        found
    }

    fn narrow(&mut self, lists: &mut Lists) -> Option<Found> {
        let ranges = class_ranges(lists, &self.sums, &self.classes, &mut self.room);
        let absent = narrow_absent(&ranges);
        let (sums, classes) = (&self.sums, &self.classes);
        let found = if is_narrow(&ranges) {
            found_in::<i32>(lists, sums, classes, &mut self.room, &ranges, absent)
        } else {
            None
        };
        self.ranges = Some(ranges);
        found
    }

    fn wide(&mut self, lists: &mut Lists) -> Option<Found> {
        let Some(ranges) = &self.ranges else {
            return None;
        };
        if is_settled_narrow(ranges) {
            return None;
        }
        let absent = wide_absent(ranges);
        let (sums, classes) = (&self.sums, &self.classes);
        found_in::<i64>(lists, sums, classes, &mut self.room, ranges, absent)
    }

    // What is found next, by one way after another.
    fn found(&mut self, lists: &mut Lists) -> Option<Found> {
        for _ in 0..MOST_WAYS {
            let way = self.way;
            self.way = way.next();
            let found = match way {
                Way::Arcs => self.by_arcs(lists),
                Way::Near => self.near(lists),
                Way::Narrow => self.narrow(lists),
                Way::Wide => self.wide(lists),
                Way::Nothing => None,
            };
            if found.is_some() || lists.is_short {
                return found;
            }
        }
        None
    }

    /// What is found next; `None` where nothing more is. After at most three it is `None`. The
    /// error is want of memory.
    ///
    /// The method is that of Jonker and Volgenant [Jonker and Volgenant 1987]: column reduction,
    /// reduction transfer and augmenting row reduction give most rows a column, shortest augmenting
    /// paths the others. It is done in numbers of 32 bits where these may do, and then in 64.
    pub fn next(&mut self, alloc: Global) -> Result<Option<Found>, NoMemory> {
        let mut lists = Lists::new(alloc);
        let found = self.found(&mut lists);
        lists.whole(found)
    }
}
