//! Parts of costs as numbers from 0 on.

ghost use Rattle.std.specs.Prelude.{◌≡◌, ◌≤◌, unsigned_abs};
ghost use Rattle.asg_monoids.specs.Entered.{cost_reach, shifted, turned};

use asg_model::limits::MOST_COST;

// The part, shifted to a number from 0 on.
pub(crate) fn shifted(part: i64) -> u64
    requires { unsigned_abs part ≤ cost_reach }
    ensures { result ≡ shifted part }
{
    (part + MOST_COST) as u64
}

// The part, turned round and shifted to a number from 0 on.
pub(crate) fn turned(part: i64) -> u64
    requires { unsigned_abs part ≤ cost_reach }
    ensures { result ≡ turned part }
{
    (MOST_COST - part) as u64
}
