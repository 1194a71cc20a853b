//! The absorbed cells of a reduced square.

ghost use Rattle.std.specs.Prelude.{◌≡◌, ◌↔◌, ◌<◌, ℕ, length, IsTrue};
ghost use Rattle.asg_proof.specs.Steps.{HasValues};
ghost use Rattle.asg_growth.specs.Growing.{IsAbsorbed};
ghost use Rattle.asg_match.specs.Matching.{AllAllowed, Matches};
ghost use Rattle.asg_order.specs.Monoid.{IsValue};
ghost use Rattle.asg_square.specs.Grid.{IsGrid, cell_at};

use asg_match::{Allowed, Matching, prune};
use asg_order::DMonoid;
use asg_square::Square;

/// The cells of a reduced square that its index absorbs.
#[derive(Drop)]
pub(crate) struct AbsorbedCells<'a, M: DMonoid> {
    pub(crate) m: &'a M,
    pub(crate) square: &'a Square<M::Value>,
    pub(crate) index: M::Value,
    ghost grid: { IsGrid square.now },
    ghost values: { HasValues (M.monoid_of m.now) square.now.side (cell_at square.now) },
    ghost index_is: { IsValue (M.monoid_of m.now) index },
}

impl<M: DMonoid> Allowed for AbsorbedCells<'_, M> {
    ghost use Rattle.asg_growth.specs.Growing.{IsAbsorbed};
    ghost use Rattle.asg_square.specs.Grid.{cell_at};
    ghost use Rattle.asg_repair.specs.laws.AbsorbedLemmas.{absorbed_within};

    ghost side = { λ s. s.square.now.side };

    ghost allows = { λ s. IsAbsorbed (M.monoid_of s.m.now) s.index (cell_at s.square.now) };

    fn has(&self, r: u32, c: u32) -> bool {
        match self.square.at(r, c) {
            Some(x) => absorbs(self.m, self.index, x),
            None => false,
        }
    }

    ghost within = { λ s r c h.
        absorbed_within (M.monoid_of s.m.now) s.index s.square.now s.grid r c h };
}

// Whether a value absorbs another: their product is the first.
fn absorbs<M: DMonoid>(m: &M, index: M::Value, x: M::Value) -> bool
    requires index { IsValue (M.monoid_of m.now) index }
    requires value { IsValue (M.monoid_of m.now) x }
    ensures { IsTrue result ↔ ((M.monoid_of m.now).product index x ≡ index) }
{
    let product = m.op(index, x);
    m.le(product, index)
}

/// Takes its column from each row whose cell isn't absorbed. It takes no memory.
pub(crate) fn prune_absorbed<M: DMonoid>(
    m: &M,
    square: &Square<M::Value>,
    index: M::Value,
    matching: &mut Matching,
)
    requires cells { HasValues (M.monoid_of m.now) square.now.side (cell_at square.now) }
    requires index { IsValue (M.monoid_of m.now) index }
    requires side { length matching.old ≡ square.now.side }
    ensures side { length matching.new ≡ length matching.old }
    ensures absorbed { AllAllowed (IsAbsorbed (M.monoid_of m.now) index (cell_at square.now))
        matching.new }
    ensures only { (r k : ℕ) → Matches matching.new r k → Matches matching.old r k }
    ensures kept { (r k : ℕ) → Matches matching.old r k
        → IsAbsorbed (M.monoid_of m.now) index (cell_at square.now) r k
        → Matches matching.new r k }
{
    let _side = square.side();
    let cells = AbsorbedCells { m, square, index };
    prune(&cells, matching);
}
