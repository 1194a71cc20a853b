//! The first phase of a conversion: gaps are closed, and a chain of pairs covers what is left.
//!
//! A pair is a row with its column. Its span is from the column's number up to the row's, and as
//! long as its cell. Where gaps between all spans are closed, the duals stay tight, and the spans
//! cover the numbers from 0 to a total without a gap. A chain of spans that covers them, each cut
//! where the next one begins or where it ends, makes a phase: rows fall by where their span is cut,
//! and columns rise by where the one before is.

ghost use Rattle.std.specs.Prelude.{◌≡◌, length};

use crate::NoMemory;
use crate::merges::Amounts;
use asg_dual_numbers::{NONE, amount, at, name, put_amount};
use std::alloc::Global;

// The spans of pairs: from low to high, by row.
#[derive(Drop)]
pub(crate) struct Spans {
    pub low: Vec<u64>,
    pub high: Vec<u64>,
}

// The rows by where their spans begin, the least first. The error is want of memory.
fn order_of(alloc: Global, low: &[u64]) -> Result<Vec<(u64, u32)>, NoMemory> {
    let mut order = Vec::with_capacity(alloc, low.len())?;
    for row in 0..low.len() {
        order.push((low[row], name(row)))?;
    }
    order.as_mut_slice().sort_unstable();
    Ok(order)
}

// Closes all gaps between spans, below the first one too, and tells the end of the last one.
fn close_gaps(spans: &mut Spans, order: &[(u64, u32)]) -> u64 {
    let mut covered = 0u64;
    let mut gaps = 0u64;
    for k in 0..order.len() {
        let row = order[k].1 as usize;
        let low = amount(spans.low.as_slice(), row);
        let high = amount(spans.high.as_slice(), row);
        if low > covered && low < high {
            gaps = gaps.wrapping_add(low - covered);
            covered = low;
        }
        put_amount(
            spans.low.as_mut_slice(),
            row,
            low.min(covered).wrapping_sub(gaps),
        );
        if low < high {
            covered = covered.max(high);
        }
        put_amount(
            spans.high.as_mut_slice(),
            row,
            high.min(covered).wrapping_sub(gaps),
        );
    }
    covered.wrapping_sub(gaps)
}

// A chain of spans that covers the numbers from 0 to the total: each is one that reaches furthest
// among those that begin within what is covered. The error is want of memory.
fn chain_of(
    alloc: Global,
    spans: &Spans,
    order: &[(u64, u32)],
    total: u64,
) -> Result<Vec<u32>, NoMemory> {
    let mut chain = Vec::with_capacity(alloc, order.len().saturating_add(1))?;
    let mut covered = 0;
    let mut best = NONE;
    let mut reach = 0;
    for k in 0..order.len() {
        let row = order[k].1;
        let high = amount(spans.high.as_slice(), row as usize);
        if amount(spans.low.as_slice(), row as usize) > covered && best != NONE {
            chain.push(best)?;
            covered = reach;
        }
        if high > reach {
            best = row;
            reach = high;
        }
    }
    if covered < total && best != NONE {
        chain.push(best)?;
    }
    Ok(chain)
}

// Where a span of the chain is cut: at its end or where the next one begins, in turn.
#[inline]
fn cut_between(spans: &Spans, row: u32, next: u32, is_at_end: bool) -> u64 {
    if is_at_end {
        amount(spans.high.as_slice(), row as usize)
    } else {
        amount(spans.low.as_slice(), next as usize)
    }
}

// Cuts the spans of the chain, and tells whether the last cut that could be elsewhere was at an
// end. Which rows are in the chain is told in `linked`.
fn cut_chain(
    spans: &Spans,
    chain: &[u32],
    total: u64,
    amounts: &mut Amounts,
    linked: &mut [bool],
) -> bool
    ensures { length linked.new ≡ length linked.old }
{
    let mut last = 0;
    let mut is_at_end = false;
    for k in 0..chain.len() {
        let row = chain[k];
        let mut cut = total;
        if k + 1 < chain.len() {
            let next = chain[k + 1];
            if cut_between(spans, row, next, false) < cut_between(spans, row, next, true) {
                is_at_end = !is_at_end;
            }
            cut = cut_between(spans, row, next, is_at_end);
        }
        put_amount(amounts.rises.as_mut_slice(), row as usize, last);
        put_amount(amounts.falls.as_mut_slice(), row as usize, cut);
        last = cut;
        if (row as usize) < linked.len() {
            linked[row as usize] = true;
        }
    }
    is_at_end
}

// Lets the row and the column of each other pair fall and rise by an end of its span, in turn by
// the one and the other, as the cuts of the chain were.
fn level_others(spans: &Spans, amounts: &mut Amounts, linked: &[bool], last_at_end: bool) {
    let mut is_at_end = last_at_end;
    for row in 0..linked.len() {
        if !linked[row] {
            let low = amount(spans.low.as_slice(), row);
            let high = amount(spans.high.as_slice(), row);
            if low < high {
                is_at_end = !is_at_end;
            }
            let level = if is_at_end { high } else { low };
            put_amount(amounts.falls.as_mut_slice(), row, level);
            put_amount(amounts.rises.as_mut_slice(), row, level);
        }
    }
}

// Closes the gaps, and makes the amounts of the first phase; whether there is one. The error is
// want of memory.
pub(crate) fn first_amounts(
    alloc: Global,
    spans: &mut Spans,
    amounts: &mut Amounts,
) -> Result<bool, NoMemory> {
    let order = order_of(alloc, spans.low.as_slice())?;
    let total = close_gaps(spans, order.as_slice());
    let chain = chain_of(alloc, spans, order.as_slice(), total)?;
    let mut linked = vec![in alloc; false; spans.low.len()]?;
    let last_at_end = cut_chain(
        spans,
        chain.as_slice(),
        total,
        amounts,
        linked.as_mut_slice(),
    );
    level_others(spans, amounts, linked.as_slice(), last_at_end);
    Ok(total > 0)
}
