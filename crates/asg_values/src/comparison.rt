//! Which of two values is better.

ghost use Rattle.std.specs.Prelude.{◌≡◌, ◌⊎◌, ◌↔◌, ◌<ℤ◌, IsTrue};
ghost use Rattle.asg_model.specs.Better.{IsBetter, IsBetterNumber, IsLessList};

use asg_model::{Objective, Value};

/// Whether the first value is better than the second, for this objective: greater for the two that
/// seek the greatest, else less; pairs and lists by their first difference. Values of different
/// forms are never better than one another. It takes no memory.
pub fn better(objective: Objective, x: &Value, y: &Value) -> bool
    ensures { IsTrue result ↔ IsBetter objective x.now y.now }
{
    match (x, y) {
        (Value::One(x), Value::One(y)) => is_better_number(objective, *x, *y),
        (Value::Two(x, s), Value::Two(y, t)) => is_less_pair(*x, *s, *y, *t),
        (Value::Many(xs), Value::Many(ys)) => is_less_list(xs.as_slice(), ys.as_slice()),
        _ => false,
    }
}

// Whether the first number is better.
fn is_better_number(objective: Objective, x: i128, y: i128) -> bool
    ensures { IsTrue result ↔ IsBetterNumber objective x y }
{
    match objective {
        Objective::SumMax | Objective::BottleneckMax => y < x,
        _ => x < y,
    }
}

// Whether the first pair is less at their first difference.
fn is_less_pair(x: i128, s: i128, y: i128, t: i128) -> bool
    ensures { IsTrue result ↔ ((x <ℤ y) ⊎ ((x ≡ y) × (s <ℤ t))) }
{
    x < y || x == y && s < t
}

// Whether the first list is less at their first difference, or ends first.
fn is_less_list(xs: &[i64], ys: &[i64]) -> bool
    ensures { IsTrue result ↔ IsLessList xs.now ys.now }
{
    xs.cmp(&ys).is_lt()
}
