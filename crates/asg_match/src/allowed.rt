//! The cells that an assignment may use.

ghost use Rattle.std.specs.Prelude.{ℕ, ◌+◌, ◌*◌, ◌<◌, ◌^◌, ◌↔◌, IsTrue};
ghost use Rattle.asg_match.specs.ColumnSet.{HasBit, AreAmong};

/// The cells of a square that an assignment may use: a finite set of pairs of a row and a column,
/// all below the side.
pub trait Allowed {
    ghost side: { Self → ℕ };

    ghost allows: { Self → ℕ → ℕ → Type 0 };

    /// Whether row `r` may have column `c`. Both are below the side.
    fn has(&self, r: u32, c: u32) -> bool
        requires row_below { r < side self.now }
        requires column_below { c < side self.now }
        ensures { IsTrue result ↔ allows self.now r c };

    /// Of the columns `64 * number + k` for the bits k of a word, those that row `r` may have, as
    /// bits again. All are below the side. Where the allowed cells of a row stand as words, this
    /// is one operation in place of 64 tests.
    fn among(&self, r: u32, number: u32, columns: u64) -> u64
        requires row_below { r < side self.now }
        requires side_fits { side self.now < 2 ^ 32 }
        requires columns_below { (k : ℕ) → HasBit columns k → 64 * number + k < side self.now }
        ensures { AreAmong (allows self.now) r number columns result }
    {
        let mut rest = columns;
        let mut word = 0;
        'bits: while rest != 0 {
            let k = rest.trailing_zeros();
            if self.has(r, 64 * number + k) {
                word |= 1 << k;
            }
            rest &= !(1 << k);
        }
        word
    }

    ghost within: { (s : Self) (r c : ℕ) → allows s r c → (r < side s) × (c < side s) };
}
