//! Products of ranges of steps.

ghost use Rattle.std.specs.Prelude.{◌≡◌, ◌<◌, ◌≤◌, length, All};
ghost use Rattle.asg_admit.specs.Settled.{AreProducts, between, step_of};
ghost use Rattle.asg_order.specs.Monoid.{IsValue};

use asg_order::DMonoid;
use asg_order::laws::differences;

/// The products of the steps between a place and each place.
pub fn spread<M: DMonoid>(m: &M, steps: &[M::Value], from: usize, room: &mut [M::Value])
    requires room { length steps.now < length room.old }
    requires values { All (IsValue (M.monoid_of m.now)) steps.now }
    requires from { from ≤ length steps.now }
    ensures room { length room.new ≡ length room.old }
    ensures products { AreProducts (M.monoid_of m.now) steps.now from room.new }
{
    differences(m);
    room[from] = m.unit();
    for ahead in from..steps.len() {
        room[ahead + 1] = m.op(room[ahead], steps[ahead]);
    }
    for back in 0..from {
        let place = from - 1 - back;
        room[place] = m.op(steps[place], room[place + 1]);
    }
}

/// The product of the steps from one place up to and without another, the unit where they are
/// equal. It takes no memory.
pub fn range<M: DMonoid>(m: &M, steps: &[M::Value], from: u32, to: u32) -> M::Value
    requires values { All (IsValue (M.monoid_of m.now)) steps.now }
    requires order { from ≤ to }
    requires end { to ≤ length steps.now }
    ensures product { let monoid = M.monoid_of m.now in
        result ≡ between monoid (step_of monoid steps.now) from to }
    ensures is_value { IsValue (M.monoid_of m.now) result }
{
    product_of(m, steps, from as usize, to as usize)
}

/// The product of the steps from one place up to and without another.
pub fn product_of<M: DMonoid>(m: &M, steps: &[M::Value], from: usize, to: usize) -> M::Value
    requires values { All (IsValue (M.monoid_of m.now)) steps.now }
    requires order { from ≤ to }
    requires end { to ≤ length steps.now }
    ensures product { let monoid = M.monoid_of m.now in
        result ≡ between monoid (step_of monoid steps.now) from to }
    ensures is_value { IsValue (M.monoid_of m.now) result }
{
    differences(m);
    let mut product = m.unit();
    for t in from..to {
        product = m.op(product, steps[t]);
    }
    product
}
