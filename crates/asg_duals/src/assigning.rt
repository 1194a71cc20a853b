//! Dual variables of a square of sums.

ghost use Rattle.std.specs.Prelude.{◌≡◌, IfOk, IfSome};
ghost use Rattle.asg_duals.specs.Tight.{AreTight};

use crate::NoMemory;
use crate::duals::Duals;
use crate::tightness::tested;
use asg_dual_numbers::Found;
use asg_dual_search::Search;
use asg_square::Square;
use std::alloc::Global;

// A search finds no more than so many.
pub(crate) const MOST_FOUND: usize = 3;

// What was found, where it is tight.
fn tested_found(square: &Square<u64>, found: Found) -> Option<Duals>
    ensures { IfSome result (AreTight square.now) }
{
    let Found {
        columns,
        rows,
        falls,
        rises,
    } = found;
    tested(square, Duals::of(columns, falls, rises), rows.as_slice())
}

// What a search finds first that is tight; `None` where it finds nothing so.
fn first_tight(
    alloc: Global,
    square: &Square<u64>,
    search: &mut Search<'_>,
) -> Result<Option<Duals>, NoMemory>
    ensures { IfOk result (λ found. IfSome found (AreTight square.now)) }
{
    'found: for _ in 0..MOST_FOUND {
        let Some(found) = search.next(alloc)? else {
            return Ok(None);
        };
        let tight = tested_found(square, found);
        if tight.is_some() {
            return Ok(tight);
        }
    }
    Ok(None)
}

/// An assignment of a square of sums with dual variables that are tight on it, so that no other has
/// a lesser sum; `None` where none was found. That is mostly where the square has none, but no
/// clause says so.
///
/// The method is that of Jonker and Volgenant [Jonker and Volgenant 1987]: column reduction,
/// reduction transfer and augmenting row reduction give most rows a column, shortest augmenting
/// paths the others; of columns that are equally near, one that no row has is taken first. Where
/// the starts leave more than half of the rows free, or paths go through many rows, rows and
/// columns enter from coarse to fine. Each answer was tested, in one pass over the cells. The time
/// grows with the cube of the side at most. The error is want of memory.
///
/// Rows that stand for none of the instance take the columns that are left, and columns that are
/// copies of one column of it count as one, which leads paths on to all its rows once it is full.
/// Where not all rows of the instance are placed, each path is the shortest from any of those that
/// aren't. Where few cells are present, paths go over lists of them. Which rows and columns these
/// are is told by their labels, so that little is found of a square whose cells were set otherwise.
///
/// It is done in numbers of 32 bits where cells of a row differ by less than 2^30, or 2^28 where
/// cells are absent, and again in 64 where that came to nothing.
pub fn tight_duals(alloc: Global, square: &Square<u64>) -> Result<Option<Duals>, NoMemory>
    ensures { IfOk result (λ found. IfSome found (AreTight square.now)) }
{
    let mut search = Search::of_square(alloc, square)?;
    first_tight(alloc, square, &mut search)
}
