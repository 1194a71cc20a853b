//! The root of a tree, from which a search begins.

ghost use Rattle.std.specs.Prelude.{◌≡◌, ◌<◌, ◌≤◌, None, replicate};
ghost use Rattle.std.specs.Prelude.{vec_len, vec_capacity, slice_set};
ghost use Rattle.asg_growth.specs.Growths.{IsRoomy, IsPlanted, never};

use crate::growth::Growth;
use asg_match::start;
use asg_order::DMonoid;

/// Makes a list hold a value so many times. It takes no memory.
pub fn refill<V: Copy>(list: &mut Vec<V>, value: V, count: usize)
    requires { count ≤ vec_capacity list.old }
    ensures items { list.new.items ≡ replicate count value }
    ensures room { vec_capacity list.new ≡ vec_capacity list.old }
{
    list.clear();
    for _ in 0..count {
        list.push_reserved(value);
    }
}

// No column has a key, and no word a nearest column. It takes no memory.
fn forget_keys<V: Copy>(
    keys: &mut Vec<V>,
    keyed: &mut Vec<u64>,
    nearest: &mut Vec<Option<u32>>,
    unit: V,
    side: usize,
)
    requires { side ≤ vec_capacity keys.old }
    ensures keys { keys.new.items ≡ replicate side unit }
    ensures keys_room { vec_capacity keys.new ≡ vec_capacity keys.old }
    ensures keyed { keyed.new.items ≡ replicate (vec_len keyed.old) 0 }
    ensures keyed_len { vec_len keyed.new ≡ vec_len keyed.old }
    ensures nearest { nearest.new.items ≡ replicate (vec_len nearest.old) None }
    ensures nearest_len { vec_len nearest.new ≡ vec_len nearest.old }
{
    refill(keys, unit, side);
    keyed.fill(0);
    nearest.fill(None);
}

// The marks of a search from a root: the root entered before the first step, no other row did, and
// no column left.
fn mark_root(enters: &mut Vec<u32>, leaves: &mut Vec<u32>, root: u32)
    requires { root < vec_len enters.old }
    ensures enters { enters.new.items
        ≡ slice_set (replicate (vec_len enters.old) never) root 0 }
    ensures enters_len { vec_len enters.new ≡ vec_len enters.old }
    ensures leaves { leaves.new.items ≡ replicate (vec_len leaves.old) never }
    ensures leaves_len { vec_len leaves.new ≡ vec_len leaves.old }
{
    enters.fill(u32::MAX);
    enters[root as usize] = 0;
    leaves.fill(u32::MAX);
}

/// The search begins at a root, and at the unit as its sum, which it gives.
pub fn plant<M: DMonoid>(m: &M, growth: &mut Growth<M::Value>, root: u32) -> M::Value
    requires roomy { IsRoomy (vec_len growth.old.enters) growth.old }
    requires root { root < vec_len growth.old.enters }
    ensures { IsPlanted (M.monoid_of m.now) (vec_len growth.old.enters) growth.new result root }
{
    let unit = m.unit();
    let side = growth.enters.len();
    start(&mut growth.tree, root);
    refill(&mut growth.sums, unit, 1);
    forget_keys(
        &mut growth.keys,
        &mut growth.keyed,
        &mut growth.nearest,
        unit,
        side,
    );
    mark_root(&mut growth.enters, &mut growth.leaves, root);
    growth.steps.clear();
    unit
}
