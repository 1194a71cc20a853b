//! Marked cells, as rows of bits.

ghost use Rattle.std.specs.Prelude.{◌≡◌};

use asg_bit_rows::BitRows;
use asg_match::Allowed;

/// The cells of a square that are marked by a bit each.
#[derive(Drop)]
pub struct Marks {
    pub side: u32,
    pub bits: BitRows,
    ghost rows: { bits.rows ≡ side },
    ghost columns: { bits.columns ≡ side },
}

impl Allowed for Marks {
    ghost use Rattle.asg_live_cells.specs.Marks.{IsMarked};

    ghost side = { λ s. s.side };

    ghost allows = { λ s. IsMarked s.bits s.side };

    #[inline]
    fn has(&self, r: u32, c: u32) -> bool {
        self.bits.has(r, c)
    }

    #[inline]
    fn among(&self, r: u32, number: u32, columns: u64) -> u64 {
        if columns == 0 {
            return 0;
        }
        self.bits.row(r)[number as usize] & columns
    }

    ghost within = { λ s r c h. (h.row, h.column) };
}
