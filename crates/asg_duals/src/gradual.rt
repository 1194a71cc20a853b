//! Phases from dual variables, one after the other, of which each leaves less. Nothing here is
//! tested.

use crate::NoMemory;
use crate::merges::{Amounts, Left, merge};
use crate::phases::phase_of;
use crate::spans::{Spans, first_amounts};
use asg_dual_numbers::{Lists, amount, put_amount};
use asg_proof::Phase;
use std::alloc::Global;

// The span of each row with its column.
fn spans_of(
    alloc: Global,
    columns: &[u32],
    falls: &[u64],
    rises: &[u64],
) -> Result<Spans, NoMemory> {
    let mut lists = Lists::new(alloc);
    let mut low = lists.of(0, columns.len());
    for row in 0..columns.len() {
        put_amount(&mut low, row, amount(rises, columns[row] as usize));
    }
    let high = lists.copy_of(falls);
    lists.whole(Spans { low, high })
}

/// A conversion of dual variables into phases, one after the other. The first one closes gaps
/// between spans and cuts a chain of them, each further one halves what is left. That nothing is
/// left after as many as the side has binary digits no clause says.
#[derive(Drop)]
pub(crate) struct Conversion {
    columns: Vec<u32>,
    amounts: Amounts,
    left: Left,
    has_more: bool,
}

impl Conversion {
    // The conversion on an assignment, with nothing to convert. The error is want of memory.
    fn empty(alloc: Global, columns: &[u32]) -> Result<Conversion, NoMemory> {
        let side = columns.len();
        let mut lists = Lists::new(alloc);
        let conversion = Conversion {
            columns: lists.copy_of(columns),
            amounts: Amounts {
                falls: lists.of(0, side),
                rises: lists.of(0, side),
            },
            left: Left {
                rows: lists.of(0, side),
                columns: lists.of(0, side),
                listed_rows: lists.of(0, side),
                listed_columns: lists.of(0, side),
            },
            has_more: false,
        };
        lists.whole(conversion)
    }

    // Takes dual variables. The error is want of memory.
    fn begin(&mut self, alloc: Global, falls: &[u64], rises: &[u64]) -> Result<(), NoMemory> {
        let mut spans = spans_of(alloc, self.columns.as_slice(), falls, rises)?;
        self.has_more = first_amounts(alloc, &mut spans, &mut self.amounts)?;
        self.left.after(&spans, &self.amounts);
        Ok(())
    }

    /// The conversion of dual variables that are tight on an assignment, before its first phase:
    /// the column of each row, by how much each row falls, and by how much each column rises. The
    /// error is want of memory.
    pub(crate) fn of(
        alloc: Global,
        columns: &[u32],
        falls: &[u64],
        rises: &[u64],
    ) -> Result<Conversion, NoMemory> {
        let mut conversion = Conversion::empty(alloc, columns)?;
        conversion.begin(alloc, falls, rises)?;
        Ok(conversion)
    }

    /// Whether there is a phase more.
    pub(crate) fn has_more(&self) -> bool {
        self.has_more
    }

    /// The next phase, in time side times its logarithm. The error is want of memory.
    pub(crate) fn next(&mut self, alloc: Global) -> Result<Phase<u64>, NoMemory> {
        let phase = phase_of(
            alloc,
            self.columns.as_slice(),
            self.amounts.falls.as_slice(),
            self.amounts.rises.as_slice(),
        )?;
        self.has_more = merge(&mut self.left, &mut self.amounts);
        Ok(phase)
    }
}
