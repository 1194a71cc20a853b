//! Stretches by the costs that lie in them.

ghost use Rattle.std.specs.Prelude.{◌≡◌, IfOk, IfSome, IsTrue};
ghost use Rattle.asg_hall_windows.specs.Stretches.{IsIn, LiesInStretch};

use crate::NoMemory;
use crate::stretches::Stretch;
use std::alloc::Global;

// How many pieces of costs there are for each stretch at most.
const PIECES: u64 = 32;

// Stretches in order, and for each piece of costs a guess at the stretch of those that lie there:
// pieces of as many costs as a power of two says, from one cost on. The guess is tested, and where
// it is wrong the stretch is searched for.
#[derive(Drop)]
pub(crate) struct Table {
    pub(crate) stretches: Vec<Stretch>,
    first: i64,
    power: u32,
    guesses: Vec<u16>,
}

// How far the cost lies above another one, 0 where it lies below.
#[inline]
fn distance(cost: i64, from: i64) -> u64 {
    cost.wrapping_sub(from).max(0) as u64
}

// Whether the cost lies in the stretch.
#[inline]
fn has(stretch: &Stretch, cost: i64) -> bool
    ensures { IsTrue result → LiesInStretch cost stretch.now }
{
    stretch.least <= cost && cost <= stretch.most
}

// Whether the cost lies in the stretch at the place.
#[inline]
fn is_in(stretches: &[Stretch], place: usize, cost: i64) -> bool
    ensures { IsTrue result → IsIn stretches.now place cost }
{
    match stretches.get(place) {
        Some(stretch) => has(stretch, cost),
        None => false,
    }
}

// The power of two that makes few pieces of the costs from the first to the last.
fn power_of(first: i64, last: i64, stretches: usize) -> u32 {
    let most = PIECES.saturating_mul(stretches as u64).max(1);
    64 - (distance(last, first) / most).leading_zeros()
}

// The greatest cost of the first stretch, and the least one of the last.
fn ends(stretches: &[Stretch]) -> (i64, i64) {
    match (stretches.first(), stretches.last()) {
        (Some(first), Some(last)) => (first.most, last.least),
        _ => (0, 0),
    }
}

// The guesses for the pieces of costs from the first on, up to that of the last. The error is want
// of memory.
fn guesses_of(
    alloc: Global,
    stretches: &[Stretch],
    first: i64,
    last: i64,
    power: u32,
) -> Result<Vec<u16>, NoMemory> {
    let mut guesses = Vec::new(alloc);
    'stretches: for place in 0..stretches.len() {
        let most = stretches[place].most.min(last);
        let piece = distance(most, first).wrapping_shr(power) as usize;
        if piece >= guesses.len() {
            guesses.resize(piece.saturating_add(1), place.min(65_535) as u16)?;
        }
    }
    Ok(guesses)
}

impl Table {
    // The table of these stretches. The error is want of memory.
    pub(crate) fn make(alloc: Global, stretches: Vec<Stretch>) -> Result<Table, NoMemory>
        ensures { IfOk result (λ table. table.stretches.items ≡ stretches.items) }
    {
        let (first, last) = ends(stretches.as_slice());
        let power = power_of(first, last, stretches.len());
        let guesses = guesses_of(alloc, stretches.as_slice(), first, last, power)?;
        Ok(Table {
            stretches,
            first,
            power,
            guesses,
        })
    }

    // A guess at the place of the stretch in which the cost lies.
    #[inline]
    fn guess(&self, cost: i64) -> usize {
        let piece = distance(cost, self.first).wrapping_shr(self.power) as usize;
        match self.guesses.get(piece) {
            Some(place) => *place as usize,
            None => self.stretches.len().saturating_sub(1),
        }
    }

    // The place of the stretch in which the cost lies, by a search.
    fn search(&self, cost: i64) -> Option<usize>
        ensures { IfSome result (λ place. IsIn self.now.stretches.items place cost) }
    {
        let place = self
            .stretches
            .partition_point(|stretch| stretch.most < cost);
        if is_in(self.stretches.as_slice(), place, cost) {
            return Some(place);
        }
        None
    }

    // The place of a stretch in which the cost lies; `None` where none is found.
    #[inline]
    pub(crate) fn find(&self, cost: i64) -> Option<usize>
        ensures { IfSome result (λ place. IsIn self.now.stretches.items place cost) }
    {
        let place = self.guess(cost);
        if is_in(self.stretches.as_slice(), place, cost) {
            return Some(place);
        }
        self.search(cost)
    }
}
