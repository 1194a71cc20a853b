//! Signed numbers of a width, with the passes over a row of them that the solver makes.

ghost use Rattle.std.specs.Prelude.{◌≡◌, length};

/// The least of a row's numbers and the next one, with the place of the first.
#[derive(Drop)]
pub struct Two<N: Number> {
    /// The least number.
    pub least: N,
    /// The least of the others.
    pub next: N,
    /// The place of the least.
    pub place: u32,
}

/// Numbers of a width. Sums and differences wrap. A pass goes over the first `wide` places, and does
/// nothing where a list has fewer.
pub trait Number: Copy {
    /// Nothing.
    fn zero() -> Self;

    /// The greatest one: of cells past the last column, and of columns that no row has reached.
    fn greatest() -> Self;

    /// The least one: the key of a column that is done.
    fn done() -> Self;

    /// The number of so many, its low bits where there are more.
    fn of(amount: u64) -> Self;

    /// The same number in 64 bits.
    fn to_wide(self) -> i64;

    /// The sum of both.
    fn plus(self, other: Self) -> Self;

    /// The difference of both.
    fn minus(self, other: Self) -> Self;

    /// Whether it is less than the other.
    fn is_less(self, other: Self) -> bool;

    /// Lessens the number of each column to this row's, with so much less, and notes the row.
    fn lessen(
        row: &[Self],
        leasts: &mut [Self],
        rows: &mut [u32],
        wide: usize,
        base: Self,
        from: u32,
    )
        ensures leasts { length leasts.new ≡ length leasts.old }
        ensures rows { length rows.new ≡ length rows.old };

    /// Opens each column at what this row reaches, and notes the row: `limits` are its numbers,
    /// `keys` these less those of the columns, and `blocks` the least key of each sixteen, less one.
    fn open(
        row: &[Self],
        duals: &[Self],
        keys: &mut [Self],
        limits: &mut [Self],
        blocks: &mut [Self],
        came: &mut [u32],
        wide: usize,
        from: u32,
    )
        ensures keys { length keys.new ≡ length keys.old }
        ensures limits { length limits.new ≡ length limits.old }
        ensures blocks { length blocks.new ≡ length blocks.old }
        ensures came { length came.new ≡ length came.old };

    /// Lessens each open column's key to what this row, with so much less, reaches. Columns that are
    /// done have the least number as their key and their limit.
    fn relax(
        row: &[Self],
        duals: &[Self],
        keys: &mut [Self],
        limits: &mut [Self],
        blocks: &mut [Self],
        came: &mut [u32],
        wide: usize,
        base: Self,
        from: u32,
    )
        ensures keys { length keys.new ≡ length keys.old }
        ensures limits { length limits.new ≡ length limits.old }
        ensures blocks { length blocks.new ≡ length blocks.old }
        ensures came { length came.new ≡ length came.old };

    /// The least key of a sixteen, less one; keys that are done count as the greatest.
    fn block(keys: &[Self], number: usize) -> Self;

    /// The least of the blocks.
    fn least(blocks: &[Self]) -> Self;

    /// The first free column with this key, which is that of a block, else the first column with it,
    /// else a place past all: from near a place on, and then from the start.
    fn find(keys: &[Self], blocks: &[Self], free: &[u64], key: Self, from: usize) -> usize;

    /// The least of the row's numbers less those of the columns, and the next.
    fn two_least(row: &[Self], duals: &[Self], wide: usize) -> Two<Self>;

    /// The first free column but one at which the row's number less the column's is this, else the
    /// first such column, else a place past all.
    fn find_tie(
        row: &[Self],
        duals: &[Self],
        free: &[u64],
        level: Self,
        wide: usize,
        but: usize,
    ) -> usize;
}

/// The number at a place, 0 outside.
#[inline]
pub fn value<N: Number>(numbers: &[N], place: usize) -> N {
    if place < numbers.len() {
        numbers[place]
    } else {
        N::zero()
    }
}

/// Writes a number at a place, nothing outside.
#[inline]
pub fn set<N: Number>(numbers: &mut [N], place: usize, number: N)
    ensures { length numbers.new ≡ length numbers.old }
{
    if place < numbers.len() {
        numbers[place] = number;
    }
}

/// Writes a number at each place.
#[inline]
pub fn fill<N: Number>(numbers: &mut [N], number: N)
    ensures { length numbers.new ≡ length numbers.old }
{
    for place in 0..numbers.len() {
        numbers[place] = number;
    }
}
