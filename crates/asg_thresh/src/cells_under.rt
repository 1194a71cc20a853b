//! The cells of a lower grade than a limit.

ghost use Rattle.std.specs.Prelude.{◌≡◌, ◌*◌, ◌≤◌, length};
ghost use Rattle.asg_model.specs.Limits.{most_side};

use asg_match::Allowed;

/// The cells of a square of grades with a grade of less than the limit.
#[derive(Clone, Copy)]
pub(crate) struct CellsUnder<'a> {
    pub(crate) grades: &'a [u32],
    pub(crate) side: u32,
    pub(crate) limit: u32,
    ghost few: { side ≤ most_side },
    ghost square: { length grades.now ≡ side * side },
}

impl Allowed for CellsUnder<'_> {
    ghost use Rattle.asg_thresh.specs.Grades.{IsUnder};

    ghost side = { λ s. s.side };

    ghost allows = { λ s. IsUnder s.grades.now s.side s.limit };

    fn has(&self, r: u32, c: u32) -> bool {
        self.grades[(r * self.side + c) as usize] < self.limit
    }

    ghost within = { λ s r c h. (h.row, h.column) };
}
