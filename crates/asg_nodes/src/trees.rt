//! Search trees as they grow.

ghost use Rattle.std.specs.Prelude.{◌≡◌, ◌<◌, ◌≤◌, ◌++◌, ◌∷◌, [], length, vec_capacity};
ghost use Rattle.asg_nodes.specs.Entries.{entry_at, entry_of, with_state};
ghost use Rattle.asg_nodes.specs.Trees.{NamesHall, hall_in};

use crate::entries::{Entry, State};
use crate::hall_pools::HallPool;
use asg_pool::{Region, Trail};

/// The nodes of a search tree in order, the phases of their trails, and the Hall sets of those that
/// are empty.
#[derive(Drop)]
pub struct Tree<V: Copy> {
    pub entries: Vec<Entry<V>>,
    pub region: Region<V>,
    pub halls: HallPool,
}

/// Puts a node behind the others. It takes no memory.
pub fn push_child<V: Copy>(
    tree: &mut Tree<V>,
    parent: u32,
    branch: u32,
    state: State,
    trail: Option<Trail>,
    index: V,
)
    requires { length tree.old.entries.items < vec_capacity tree.old.entries }
    ensures entries { tree.new.entries.items
        ≡ tree.old.entries.items ++ entry_of parent branch state trail index ∷ [] }
    ensures capacity { vec_capacity tree.new.entries ≡ vec_capacity tree.old.entries }
    ensures region { tree.new.region ≡ tree.old.region }
    ensures halls { tree.new.halls ≡ tree.old.halls }
{
    tree.entries.push_reserved(Entry {
        parent,
        branch,
        state,
        trail,
        index,
    });
}

/// Node number n, which count from 1.
pub fn entry<V: Copy>(entries: &[Entry<V>], n: u32) -> Entry<V>
    requires from { 1 ≤ n }
    requires upto { n ≤ length entries.now }
    ensures { (unit : V) → result ≡ entry_at unit entries.now n }
{
    entries[n as usize - 1]
}

/// Gives node number n another state.
pub fn set_state<V: Copy>(entries: &mut [Entry<V>], n: u32, state: State)
    requires from { 1 ≤ n }
    requires upto { n ≤ length entries.old }
    ensures { (unit : V) → entries.new ≡ with_state unit entries.old n state }
{
    entries[n as usize - 1].state = state;
}

/// The Hall set of the root, which is empty.
pub fn root_hall<V: Copy>(tree: &Tree<V>) -> &[u32]
    requires some { 1 ≤ length tree.now.entries.items }
    requires empty { (unit : V)
        → NamesHall tree.now.halls (entry_at unit tree.now.entries.items 1).state }
    ensures { (unit : V) → result.now
        ≡ hall_in tree.now.halls (entry_at unit tree.now.entries.items 1).state }
{
    match entry(&tree.entries, 1).state {
        State::Empty(place) => tree.halls.get(place),
        State::Answered(_) | State::Open => unreachable!(),
    }
}
