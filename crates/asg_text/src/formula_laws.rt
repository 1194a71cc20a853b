//! The law of generated instances: the contract of a function that calls a law.

ghost use Rattle.std.specs.Prelude.{◌≤◌, ℕ};
ghost use Rattle.asg_text.specs.Formula.{generated_problem};
ghost use Rattle.asg_model.specs.Instances.{IsInstance};
ghost use Rattle.asg_model.specs.Limits.{most_rows};

use asg_model::laws::whole_table_law;

/// The instance of the formula keeps what each instance keeps.
pub fn generated_law()
    ensures { (seed side : ℕ) → 1 ≤ side → side ≤ most_rows →
        IsInstance (generated_problem seed side) }
{
    whole_table_law();
}
