//! The squares of instances whose live costs enter the monoid of a kind.

ghost use Rattle.std.specs.Prelude.{◌≡◌, ◌≤◌, IfOk};
ghost use Rattle.asg_model.specs.Limits.{most_cost, most_side};
ghost use Rattle.asg_model.specs.Refused.{PassesNegative};
ghost use Rattle.asg_model.specs.Shapes.{square_side};
ghost use Rattle.asg_order.specs.Entering.{MayEnter};
ghost use Rattle.asg_square.specs.Grid.{IsSquareOf};

use crate::NoMemory;
use asg_model::{Cost, Instance};
use asg_order::{Kind, Ordered};
use asg_square::Square;
use std::alloc::Global;

/// The square of an instance whose live costs enter the monoid of a kind. The error is want of
/// memory.
pub fn entered_square<K: Kind>(
    alloc: Global,
    kind: &K,
    inst: &Instance,
) -> Result<Square<<K::M as Ordered>::Value>, NoMemory>
    requires side { square_side inst.now ≤ most_side }
    requires passes { PassesNegative (K.objective kind.now) inst.now }
    requires reach { most_cost ≤ K.reach kind.now }
    ensures { let unit = (K.M.monoid_of (K.monoid kind.now)).unit in
        IfOk result (IsSquareOf inst.now unit (K.entered kind.now)) }
{
    let m = kind.monoid();
    let _rows = inst.rows();
    let enter = |cost: Cost| -> <K::M as Ordered>::Value
        requires { MayEnter (K.objective kind.now) (K.reach kind.now) cost }
        ensures { result ≡ K.entered kind.entry.now cost }
    { kind.enter(cost) };
    Square::of(alloc, inst, m.unit(), &enter)
}
