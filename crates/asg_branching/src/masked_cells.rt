//! The cells of a square that bits keep.

ghost use Rattle.std.specs.Prelude.{◌≡◌};
ghost use Rattle.asg_square.specs.Grid.{IsGrid};

use asg_bit_rows::BitRows;
use asg_match::Allowed;
use asg_square::Square;

/// The present cells of a square that rows of bits keep.
#[derive(Drop)]
pub(crate) struct MaskedCells<'a, V: Copy> {
    pub(crate) square: &'a Square<V>,
    pub(crate) bits: &'a BitRows,
    ghost grid: { IsGrid square.now },
    ghost rows: { bits.now.rows ≡ square.now.side },
    ghost columns: { bits.now.columns ≡ square.now.side },
}

impl<V: Copy> Allowed for MaskedCells<'_, V> {
    ghost use Rattle.asg_proof.specs.laws.Squares.{HasSide-cell_at};
    ghost use Rattle.asg_square.specs.Cells.{IsPresent};
    ghost use Rattle.asg_square.specs.Grid.{cell_at};
    ghost use Rattle.asg_square.specs.Masked.{masked_grid};
    ghost use Rattle.asg_square.specs.laws.Masks.{IsGrid-masked};

    ghost side = { λ s. s.square.now.side };

    ghost allows = { λ s. IsPresent (cell_at (masked_grid s.square.now s.bits.now.words)) };

    fn has(&self, r: u32, c: u32) -> bool {
        self.bits.has(r, c) && self.square.at(r, c).is_some()
    }

    ghost within = { λ s r c h. HasSide-cell_at (masked_grid s.square.now s.bits.now.words)
        (IsGrid-masked s.square.now s.bits.now.words s.grid) r c h };
}
