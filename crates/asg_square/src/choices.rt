//! The choice of a perfect assignment, and a perfect assignment of a choice.

ghost use Rattle.std.specs.Prelude.{◌≡◌, ◌<◌, length, IfOk};
ghost use Rattle.asg_model.specs.ValidChoice.{IsValid};
ghost use Rattle.asg_square.specs.Grid.{CoversSquareOf, IsPerm, IsPermOf, IsValidWithin, grid_chosen, grid_choice};

use crate::assignments::perm_list;
use crate::{NoMemory, Square};
use asg_model::{Choice, Instance};
use std::alloc::Global;

impl<V: Copy> Square<V> {
    /// The choice of a perfect assignment: a row that stands for an instance row gives it the
    /// column whose copy it takes, or none. It is valid in each instance whose square has these
    /// labels and at least these cells. The error is want of memory.
    pub fn choice_of(&self, alloc: Global, perm: &[u32]) -> Result<Choice, NoMemory>
        requires perm { IsPerm self.now perm.now }
        ensures choice { IfOk result (λ f. f ≡ grid_choice self.now perm.now) }
        ensures valid { IfOk result (IsValidWithin self.now) }
    {
        let mut out = Choice::make(alloc, self.rows())?;
        self.choice_into(perm, &mut out);
        Ok(out)
    }

    /// Writes the choice of a perfect assignment, as [`Square::choice_of`] gives it, into a choice
    /// over the rows of the instance. It takes no memory.
    pub fn choice_into(&self, perm: &[u32], out: &mut Choice)
        requires perm { IsPerm self.now perm.now }
        requires out { length out.old ≡ self.now.rows }
        ensures choice { out.new ≡ grid_choice self.now perm.now }
        ensures valid { IsValidWithin self.now out.new }
    {
        let _side = self.side();
        for r in 0..out.len() {
            let chosen = self.chosen(perm, r);
            out.set(r, chosen);
        }
    }

    // What a row chooses by the assignment.
    fn chosen(&self, perm: &[u32], r: u32) -> Option<u32>
        requires perm { IsPerm self.now perm.now }
        requires below { r < self.now.side }
        ensures { result ≡ grid_chosen self.now perm.now r }
    {
        match self.row_label(r) {
            Some(_) => self.column_label(perm[r as usize]),
            None => None,
        }
    }

    /// A perfect assignment with this choice, which is valid for the instance whose square this is.
    /// A row that chooses takes the first copy of its column that no row before it took; the other
    /// rows take the columns that are left, the last ones first. The error is want of memory.
    pub fn perm_of(
        &self,
        alloc: Global,
        inst: &Instance,
        choice: &Choice,
    ) -> Result<Vec<u32>, NoMemory>
        requires covers { CoversSquareOf inst.now self.now }
        requires valid { IsValid inst.now choice.now }
        ensures { IfOk result (λ p. IsPermOf self.now choice.now p.items) }
    {
        let _rows = inst.rows();
        perm_list(alloc, inst, choice, self.side())
    }
}
