//! What a ranker keeps from one answer to the next.

ghost use Rattle.std.specs.Prelude.{◌≡◌, ℕ};
ghost use Rattle.asg_model.specs.declared.parts.Cost.{Cost};
ghost use Rattle.asg_nodes.specs.Rules.{rules_of};
ghost use Rattle.asg_branching.specs.Expansions.{IsGrowing};
ghost use Rattle.asg_branching.specs.Searches.{given_of, IsReady};

use crate::children::{are_all_behind, expand, leave};
use crate::desks::Desk;
use asg_admit::Reduced;
use asg_model::{Choice, Instance};
use asg_nodes::{Slots, Tree};
use asg_order::DMonoid;

/// A search for the best choices: how many answers were given, their choices, the nodes that have
/// their best choice (first those of the answers), the tree, the square of the instance after the
/// phases of the root, and what children are grown on.
#[derive(Drop)]
pub struct Search<V: Copy> {
    pub given: u32,
    pub choices: Vec<Choice>,
    pub slots: Slots<V>,
    pub tree: Tree<V>,
    pub base: Reduced<V>,
    pub desk: Desk<V>,
}

/// Makes the children of the node that gave the last answer; where none of them can be kept they
/// are left open. It takes no memory.
pub fn follow<M: DMonoid>(m: &M, inst: &Instance, search: &mut Search<M::Value>)
    requires growing { (enter : Cost → M.Value) × (room : ℕ)
        × IsGrowing (rules_of (M.monoid_of m.now) (M.difference m.now) enter) inst.now room 0
        search.old }
    ensures ready { (enter : Cost → M.Value) (room : ℕ)
        → let R = rules_of (M.monoid_of m.now) (M.difference m.now) enter in
        IsGrowing R inst.now room 0 search.old → IsReady R inst.now room search.new }
    ensures given { given_of search.new ≡ given_of search.old }
{
    if are_all_behind(m, search) {
        leave(m, inst, search);
    } else {
        expand(m, inst, search);
    }
}
