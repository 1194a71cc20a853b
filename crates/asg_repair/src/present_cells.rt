//! The present cells of a square.

ghost use Rattle.asg_square.specs.Grid.{IsGrid};

use asg_match::Allowed;
use asg_square::Square;

/// The cells of a square that are present, whatever their values.
#[derive(Drop)]
pub(crate) struct PresentCells<'a, V: Copy> {
    pub(crate) square: &'a Square<V>,
    ghost grid: { IsGrid square.now },
}

impl<V: Copy> Allowed for PresentCells<'_, V> {
    ghost use Rattle.asg_proof.specs.laws.Squares.{HasSide-cell_at};
    ghost use Rattle.asg_square.specs.Cells.{IsPresent};
    ghost use Rattle.asg_square.specs.Grid.{cell_at};

    ghost side = { λ s. s.square.now.side };

    ghost allows = { λ s. IsPresent (cell_at s.square.now) };

    fn has(&self, r: u32, c: u32) -> bool {
        self.square.at(r, c).is_some()
    }

    ghost within = { λ s r c h. HasSide-cell_at s.square.now s.grid r c h };
}
