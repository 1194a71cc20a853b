//! Whether a written value is that of the choice.

ghost use Rattle.std.specs.Prelude.{◌≡◌, ◌↔◌, IsTrue};

use asg_model::Value;

// Whether two values are the same.
pub(crate) fn is_same_value(x: &Value, y: &Value) -> bool
    ensures { IsTrue result ↔ (x.now ≡ y.now) }
{
    match (x, y) {
        (Value::One(x), Value::One(y)) => x == y,
        (Value::Two(x, s), Value::Two(y, t)) => x == y && s == t,
        (Value::Many(xs), Value::Many(ys)) => xs.as_slice() == ys.as_slice(),
        _ => false,
    }
}
