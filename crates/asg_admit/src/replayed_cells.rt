//! Single cells through a phase.

ghost use Rattle.std.specs.Prelude.{◌≡◌, ◌<◌, ◌≤◌, length, min, All, IfSome, IsSome, IsNone};
ghost use Rattle.asg_admit.specs.Settled.{AllowsSteps, IsAcross, RefusesStep, settled};
ghost use Rattle.asg_order.specs.Monoid.{IsValue};

use crate::products::product_of;
use asg_order::DMonoid;
use asg_order::laws::differences;

/// What a phase makes of a cell whose row enters and whose column leaves at these steps: `None`
/// exactly where a step t with `enter <= t < leave` is greater than the cell as it then is. Marks
/// above the number of steps count as that number. It takes no memory.
pub fn replay_cell<M: DMonoid>(
    m: &M,
    x: M::Value,
    steps: &[M::Value],
    enter: u32,
    leave: u32,
) -> Option<M::Value>
    requires value { IsValue (M.monoid_of m.now) x }
    requires values { All (IsValue (M.monoid_of m.now)) steps.now }
    ensures settled { let monoid = M.monoid_of m.now in
        IfSome result (λ y. y ≡ settled monoid (M.difference m.now) steps.now enter leave x) }
    ensures is_value { IfSome result (IsValue (M.monoid_of m.now)) }
    ensures allowed { IsSome result
        → AllowsSteps (M.monoid_of m.now) (M.difference m.now) steps.now enter leave x }
    ensures refused { IsNone result
        → RefusesStep (M.monoid_of m.now) (M.difference m.now) steps.now enter leave x }
{
    differences(m);
    let enter = cut(enter, steps.len());
    let leave = cut(leave, steps.len());
    if leave < enter {
        let product = product_of(m, steps, leave, enter);
        Some(settled_value(m, steps, product, enter, leave, x))
    } else {
        lessened(m, x, steps, enter, leave)
    }
}

// A cell whose row enters no later than its column leaves.
pub(crate) fn lessened<M: DMonoid>(
    m: &M,
    x: M::Value,
    steps: &[M::Value],
    enter: usize,
    leave: usize,
) -> Option<M::Value>
    requires value { IsValue (M.monoid_of m.now) x }
    requires values { All (IsValue (M.monoid_of m.now)) steps.now }
    requires order { enter ≤ leave }
    requires end { leave ≤ length steps.now }
    ensures settled { let monoid = M.monoid_of m.now in
        IfSome result (λ y. y ≡ settled monoid (M.difference m.now) steps.now enter leave x) }
    ensures is_value { IfSome result (IsValue (M.monoid_of m.now)) }
    ensures allowed { IsSome result
        → AllowsSteps (M.monoid_of m.now) (M.difference m.now) steps.now enter leave x }
    ensures refused { IsNone result
        → RefusesStep (M.monoid_of m.now) (M.difference m.now) steps.now enter leave x }
{
    differences(m);
    let mut now = x;
    for t in enter..leave {
        let step = steps[t];
        if !m.le(step, now) {
            return None;
        }
        now = m.diff(now, step);
    }
    Some(now)
}

/// A mark, cut to the number of steps.
#[inline]
pub fn cut(mark: u32, end: usize) -> usize
    ensures { result ≡ min mark end }
{
    (mark as usize).min(end)
}

/// A value after the steps, by the product of the steps between its marks.
#[inline]
pub fn settled_value<M: DMonoid>(
    m: &M,
    steps: &[M::Value],
    product: M::Value,
    enter: usize,
    leave: usize,
    x: M::Value,
) -> M::Value
    requires product { IsAcross (M.monoid_of m.now) steps.now enter leave product }
    requires values { All (IsValue (M.monoid_of m.now)) steps.now }
    requires enter { enter ≤ length steps.now }
    requires leave { leave ≤ length steps.now }
    requires value { IsValue (M.monoid_of m.now) x }
    ensures settled { let monoid = M.monoid_of m.now in
        result ≡ settled monoid (M.difference m.now) steps.now enter leave x }
    ensures is_value { IsValue (M.monoid_of m.now) result }
{
    differences(m);
    if enter < leave {
        m.diff(x, product)
    } else {
        m.op(product, x)
    }
}
