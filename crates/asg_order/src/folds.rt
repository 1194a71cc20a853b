//! Products of lists of values.

ghost use Rattle.std.specs.Prelude.{◌≡◌, All};
ghost use Rattle.asg_order.specs.Monoid.{IsValue, fold_of};

use crate::ordered::Ordered;

/// The product of the values, the unit for none.
pub fn fold<M: Ordered>(m: &M, values: &[M::Value]) -> M::Value
    requires { All (IsValue (M.monoid_of m.now)) values.now }
    ensures product { result ≡ fold_of (M.monoid_of m.now) values.now }
    ensures is_value { IsValue (M.monoid_of m.now) result }
{
    let mut product = m.unit();
    for value in values {
        product = m.op(product, *value);
    }
    product
}
