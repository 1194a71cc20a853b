//! The limit under which the grades of a choice lie.

ghost use Rattle.std.specs.Prelude.{◌≡◌, ◌+◌, ◌<◌, ◌≤◌, ℕ, Some, IfSome, length};
ghost use Rattle.asg_model.specs.declared.parts.Cost.{Cost as C};
ghost use Rattle.asg_model.specs.Instances.{IsCostInRange};
ghost use Rattle.asg_model.specs.Live.{live_at};
ghost use Rattle.asg_model.specs.ValidChoice.{Chooses};
ghost use Rattle.asg_live_cells.specs.Grades.{grade_of, most_grade};
ghost use Rattle.asg_lex.specs.Starts.{AreUnder};

use asg_live_cells::grade;
use asg_model::{Choice, Cost, Instance};

// The greater of a limit and one past the grade of a cost, if there is one.
fn above_cost(cost: Option<Cost>, limit: u32) -> u32
    requires range { IfSome cost IsCostInRange }
    requires few { limit ≤ most_grade + 1 }
    ensures few { result ≤ most_grade + 1 }
    ensures more { limit ≤ result }
    ensures above { IfSome cost (λ cost. grade_of cost < result) }
{
    match cost {
        Some(cost) => limit.max(grade(cost) + 1),
        None => limit,
    }
}

// The greater of a limit and one past the grade of the cost that a row chooses, if it chooses one.
fn above_row(inst: &Instance, choice: &Choice, row: u32, limit: u32) -> u32
    requires row_below { row < length choice.now }
    requires few { limit ≤ most_grade + 1 }
    ensures few { result ≤ most_grade + 1 }
    ensures more { limit ≤ result }
    ensures above { (c : ℕ) (cost : C) → Chooses choice.now row c
        → live_at inst.now row c ≡ Some cost → grade_of cost < result }
{
    match choice.get(row) {
        Some(column) => above_cost(inst.live(row, column), limit),
        None => limit,
    }
}

/// One past the greatest grade of the costs that a choice has, and 1 where it has none.
pub(crate) fn limit_of(inst: &Instance, choice: &Choice) -> u32
    ensures some { 0 < result }
    ensures few { result ≤ most_grade + 1 }
    ensures under { AreUnder inst.now result choice.now }
{
    let mut limit = 1;
    for row in 0..choice.len() {
        limit = above_row(inst, choice, row, limit);
    }
    limit
}
