//! The cells of a square between two grades.

use asg_match::Allowed;
use asg_square::Square;

/// The free cells of a square and the live ones with a grade from one on and below another.
#[derive(Clone, Copy)]
pub(crate) struct CellsWithin<'a> {
    pub(crate) square: &'a Square<u32>,
    pub(crate) low: u32,
    pub(crate) high: u32,
}

impl Allowed for CellsWithin<'_> {
    ghost use Rattle.asg_window.specs.Bands.{IsWithin};

    ghost side = { λ s. s.square.now.side };

    ghost allows = { λ s. IsWithin s.square.now s.low s.high };

    fn has(&self, r: u32, c: u32) -> bool {
        match self.square.at(r, c) {
            Some(grade) => grade == 0 || (self.low <= grade && grade < self.high),
            None => false,
        }
    }

    ghost within = { λ s r c h. (h.row, h.column) };
}
