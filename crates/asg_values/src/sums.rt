//! Costs added up.

ghost use Rattle.std.specs.Prelude.{◌≡◌, ◌≤◌, All, length, if◌then◌else◌, pos, unsigned_abs};
ghost use Rattle.std.specs.Ordering.{int_eq};
ghost use Rattle.asg_model.specs.Values.{first_parts, second_parts, costs_at, total};
ghost use Rattle.asg_model.specs.Limits.{most_cost, most_rows};
ghost use Rattle.asg_model.specs.Instances.{IsCostInRange};

use asg_model::Cost;

// The first parts added up.
pub(crate) fn total_a(costs: &[Cost]) -> i128
    requires few { length costs.now ≤ most_rows }
    requires in_range { All IsCostInRange costs.now }
    ensures { result ≡ total (first_parts costs.now) }
{
    let mut sum = 0i128;
    for cost in costs {
        sum += i128::from(cost.a);
    }
    sum
}

// The second parts added up.
pub(crate) fn total_b(costs: &[Cost]) -> i128
    requires few { length costs.now ≤ most_rows }
    requires in_range { All IsCostInRange costs.now }
    ensures { result ≡ total (second_parts costs.now) }
{
    let mut sum = 0i128;
    for cost in costs {
        sum += i128::from(cost.b);
    }
    sum
}

// The second parts of the costs whose first part is `a`, added up.
pub(crate) fn total_b_at(a: i64, costs: &[Cost]) -> i128
    requires few { length costs.now ≤ most_rows }
    requires in_range { All IsCostInRange costs.now }
    ensures { result ≡ total (second_parts (costs_at a costs.now)) }
{
    let mut sum = 0i128;
    for cost in costs {
        sum += b_at(a, *cost);
    }
    sum
}

// The second part of the cost where its first part is `a`, else 0.
fn b_at(a: i64, cost: Cost) -> i128
    requires { IsCostInRange cost }
    ensures exact { result ≡ (if int_eq cost.a a then cost.b else pos 0) }
    ensures in_range { unsigned_abs result ≤ most_cost }
{
    if cost.a == a { i128::from(cost.b) } else { 0 }
}
