//! The square of an instance, filled anew.

ghost use Rattle.std.specs.Prelude.{◌≡◌, ◌≤◌, []};
ghost use Rattle.asg_model.specs.Limits.{most_cost};
ghost use Rattle.asg_model.specs.Refused.{PassesNegative};
ghost use Rattle.asg_model.specs.Shapes.{square_side};
ghost use Rattle.asg_order.specs.Entering.{MayEnter};
ghost use Rattle.asg_kept_phases.specs.Led.{IsLed};

use asg_admit::Reduced;
use asg_model::{Cost, Instance};
use asg_order::{Kind, Ordered};

/// Makes a reduced square that of an instance, its costs entered and the index the unit: no phase
/// has been applied. It takes no memory.
pub(crate) fn refill<K: Kind>(
    kind: &K,
    inst: &Instance,
    reduced: &mut Reduced<<K::M as Ordered>::Value>,
)
    requires side { reduced.old.now.side ≡ square_side inst.now }
    requires passes { PassesNegative (K.objective kind.now) inst.now }
    requires reach { most_cost ≤ K.reach kind.now }
    ensures { IsLed (K.M.monoid_of (K.monoid kind.now)) (K.M.difference (K.monoid kind.now))
        (K.entered kind.now) inst.now [] reduced.new }
{
    let m = kind.monoid();
    let _rows = inst.rows();
    let enter = |cost: Cost| -> <K::M as Ordered>::Value
        requires { MayEnter (K.objective kind.now) (K.reach kind.now) cost }
        ensures { result ≡ K.entered kind.entry.now cost }
    { kind.enter(cost) };
    reduced.index = m.unit();
    reduced.now.fill(inst, m.unit(), &enter);
}
