//! The greatest and the least cost.

ghost use Rattle.std.specs.Prelude.{◌≡◌, ◌≤◌, All, unsigned_abs};
ghost use Rattle.asg_model.specs.Values.{first_parts};
ghost use Rattle.asg_model.specs.Extremes.{greatest, least};
ghost use Rattle.asg_model.specs.Limits.{most_cost};
ghost use Rattle.asg_model.specs.Instances.{IsCostInRange};

use asg_model::Cost;

// The greatest of the first parts, 0 of none.
pub(crate) fn greatest(costs: &[Cost]) -> i64
    requires { All IsCostInRange costs.now }
    ensures exact { result ≡ greatest (first_parts costs.now) }
    ensures in_range { unsigned_abs result ≤ most_cost }
{
    let Some(first) = costs.first() else {
        return 0;
    };
    let mut top = first.a;
    for cost in costs {
        top = top.max(cost.a);
    }
    top
}

// The least of the first parts, 0 of none.
pub(crate) fn least(costs: &[Cost]) -> i64
    requires { All IsCostInRange costs.now }
    ensures exact { result ≡ least (first_parts costs.now) }
    ensures in_range { unsigned_abs result ≤ most_cost }
{
    let Some(first) = costs.first() else {
        return 0;
    };
    let mut low = first.a;
    for cost in costs {
        low = low.min(cost.a);
    }
    low
}
