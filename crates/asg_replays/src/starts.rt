//! The square of an instance before any step, and the product of a choice.

ghost use Rattle.std.specs.Prelude.{◌≡◌, ◌≤◌, ◌<◌, IfOk, MatchOption, length};
ghost use Rattle.asg_model.specs.Limits.{most_side};
ghost use Rattle.asg_model.specs.Refused.{PassesNegative};
ghost use Rattle.asg_model.specs.Shapes.{square_side};
ghost use Rattle.asg_model.specs.Values.{chosen_cost};
ghost use Rattle.asg_order.specs.Bridge.{choice_fold};
ghost use Rattle.asg_order.specs.Entering.{LiesWithin, MayEnter};
ghost use Rattle.asg_order.specs.Monoid.{IsValue};
ghost use Rattle.asg_replays.specs.Replays.{IsStart};

use crate::NoMemory;
use asg_admit::Reduced;
use asg_model::{Choice, Cost, Instance};
use asg_order::{Kind, Ordered};
use asg_square::Square;
use std::alloc::Global;

/// The square of the instance, before any step. The error is want of memory.
pub fn start<K: Kind>(
    alloc: Global,
    kind: &K,
    inst: &Instance,
) -> Result<Reduced<<<K as Kind>::M as Ordered>::Value>, NoMemory>
    requires side { square_side inst.now ≤ most_side }
    requires near { LiesWithin (K.reach kind.now) inst.now }
    requires passes { PassesNegative (K.objective kind.now) inst.now }
    ensures { IfOk result (IsStart (K.M.monoid_of (K.monoid kind.now)) (K.entered kind.now)
        inst.now) }
{
    let m = kind.monoid();
    let enter = |cost: Cost| -> <K::M as Ordered>::Value
        requires { MayEnter (K.objective kind.now) (K.reach kind.now) cost }
        ensures { result ≡ K.entered kind.entry.now cost }
    { kind.enter(cost) };
    let now = Square::of(alloc, inst, m.unit(), &enter)?;
    let index = m.unit();
    Ok(Reduced { now, index })
}

/// The product of the entered costs of the choice.
pub fn chosen_fold<K: Kind>(
    kind: &K,
    inst: &Instance,
    choice: &Choice,
) -> <<K as Kind>::M as Ordered>::Value
    requires near { LiesWithin (K.reach kind.now) inst.now }
    requires passes { PassesNegative (K.objective kind.now) inst.now }
    ensures fold { result ≡ choice_fold (K.M.monoid_of (K.monoid kind.now)) (K.entered kind.now)
        inst.now choice.now }
    ensures is_value { IsValue (K.M.monoid_of (K.monoid kind.now)) result }
{
    let mut product = kind.monoid().unit();
    for row in 0..choice.len() {
        product = with_chosen(kind, inst, choice, row, product);
    }
    product
}

// The product with the entered cost of the cell that the row chooses, if it chooses one.
fn with_chosen<K: Kind>(
    kind: &K,
    inst: &Instance,
    choice: &Choice,
    row: u32,
    product: <<K as Kind>::M as Ordered>::Value,
) -> <<K as Kind>::M as Ordered>::Value
    requires near { LiesWithin (K.reach kind.now) inst.now }
    requires passes { PassesNegative (K.objective kind.now) inst.now }
    requires row { row < length choice.now }
    requires product { IsValue (K.M.monoid_of (K.monoid kind.now)) product }
    ensures product { MatchOption (chosen_cost inst.now choice.now row) (result ≡ product)
        (λ cost. result ≡ (K.M.monoid_of (K.monoid kind.now)).product product
        (K.entered kind.now cost)) }
    ensures is_value { IsValue (K.M.monoid_of (K.monoid kind.now)) result }
{
    match choice.get(row) {
        Some(column) => match inst.live(row, column) {
            Some(cost) => kind.monoid().op(product, kind.enter(cost)),
            None => product,
        },
        None => product,
    }
}
