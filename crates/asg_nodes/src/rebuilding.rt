//! The square of the part of a node, after the phases of its trail.

ghost use Rattle.std.specs.Prelude.{◌≡◌, ℕ, ◌<◌, ◌≤◌, All, length, Some};
ghost use Rattle.asg_model.specs.declared.parts.Cost.{Cost};
ghost use Rattle.asg_model.specs.declared.parts.Place.TheVariants.{All as PlaceAll};
ghost use Rattle.asg_model.specs.Problem.{Problem};
ghost use Rattle.asg_admit.specs.Reduced.{IsReduced, IsPhaseTo};
ghost use Rattle.asg_pool.specs.Forest.{phases_of, last_phase, IsLive};
ghost use Rattle.asg_rankings.specs.Masks.{keeps_cell};
ghost use Rattle.asg_rankings.specs.Nodes.{answer_at};
ghost use Rattle.asg_proof.specs.Phases.{IsAdmittedPhase};
ghost use Rattle.asg_square.specs.Grid.{cell_at, HasLabelsOf};
ghost use Rattle.asg_nodes.specs.Cuts.{LosesCells};
ghost use Rattle.asg_nodes.specs.Entries.{entry_at, IsNext};
ghost use Rattle.asg_nodes.specs.Rules.{rules_of, IsReducedTo};
ghost use Rattle.asg_nodes.specs.Settled.{IsOwn, SettlesOwn, IsRebuilt, IsStanding, answer_in};
ghost use Rattle.asg_nodes.specs.Settled.{IsStandingIn};
ghost use Rattle.asg_nodes.specs.Trees.{IsTree};

use crate::cuts::cut_branch;
use crate::entries::State;
use crate::trees::{Tree, entry};
use asg_admit::Reduced;
use asg_model::{Choice, Instance};
use asg_order::DMonoid;
use asg_pool::{Region, Trail};
use asg_settling::settle;
use asg_square::Square;

/// The trail, where there is one and it isn't the one before.
pub fn own_trail(before: Option<Trail>, trail: Option<Trail>) -> Option<Trail>
    ensures { IsOwn before trail result }
{
    if trail == before { None } else { trail }
}

// Settles the last phase of a trail on a square.
fn settle_last<M: DMonoid>(
    m: &M,
    region: &Region<M::Value>,
    trail: Trail,
    work: &mut Reduced<M::Value>,
    room: &mut [M::Value],
)
    requires live { IsLive region.now trail }
    requires reduced { IsReduced (M.monoid_of m.now) work.old }
    requires side { region.now.side ≡ work.old.now.side }
    requires room { work.old.now.side < length room.old }
    requires admitted { IsAdmittedPhase (M.monoid_of m.now) (M.difference m.now) work.old.now.side
        (last_phase (phases_of region.now trail)) (cell_at work.old.now) }
    ensures phase { IsPhaseTo (M.monoid_of m.now) (M.difference m.now)
        (last_phase (phases_of region.now trail)) work.old work.new }
    ensures room { length room.new ≡ length room.old }
{
    let steps = region.steps(trail);
    let enters = region.enters(trail);
    let leaves = region.leaves(trail);
    settle(m, work, steps, enters, leaves, room);
}

// Settles the phase that a trail has beyond the one before it, if it has one.
fn settle_own<M: DMonoid>(
    m: &M,
    region: &Region<M::Value>,
    before: Option<Trail>,
    trail: Option<Trail>,
    work: &mut Reduced<M::Value>,
    room: &mut [M::Value],
)
    requires next { IsNext region.now before trail }
    requires reduced { IsReduced (M.monoid_of m.now) work.old }
    requires side { region.now.side ≡ work.old.now.side }
    requires room { work.old.now.side < length room.old }
    requires admitted { (t : ℕ) → IsOwn before trail (Some t) → IsAdmittedPhase (M.monoid_of m.now)
        (M.difference m.now) work.old.now.side (last_phase (phases_of region.now t))
        (cell_at work.old.now) }
    ensures settled { SettlesOwn (M.monoid_of m.now) (M.difference m.now) region.now before trail
        work.old work.new }
    ensures room { length room.new ≡ length room.old }
{
    if let Some(own) = own_trail(before, trail) {
        settle_last(m, region, own, work, room);
    }
}

// The number of the answer that a state names.
fn answer_of(state: State) -> u32
    ensures { result ≡ answer_in state }
{
    match state {
        State::Answered(number) => number,
        State::Open | State::Empty(_) => 0,
    }
}

// The number of the node above a node.
fn parent_of<V: Copy>(tree: &Tree<V>, node: u32) -> u32
    requires from { 1 ≤ node }
    requires upto { node ≤ length tree.now.entries.items }
    ensures { (unit : V) → result ≡ (entry_at unit tree.now.entries.items node).parent }
{
    entry(&tree.entries, node).parent
}

// Takes out the cells that a branch doesn't keep, by the choice of the answer that a state names.
fn cut_by<V: Copy>(
    square: &mut Square<V>,
    inst: &Instance,
    choices: &[Choice],
    state: State,
    branch: u32,
)
    requires labels { HasLabelsOf inst.now square.old }
    requires place { inst.now.place ≡ PlaceAll }
    requires over { All (λ f. length f ≡ length inst.now.rows) choices.now }
    requires from { 1 ≤ answer_in state }
    requires upto { answer_in state ≤ length choices.now }
    ensures { LosesCells (keeps_cell inst.now (answer_at choices.now (answer_in state)) branch)
        square.old square.new }
{
    let answer = answer_of(state);
    cut_branch(square, inst, &choices[answer as usize - 1], branch);
}

// Makes the square of the part of the node above that of the part of a node: its branch takes its
// cells, and its phases are applied.
fn step_down<M: DMonoid>(
    m: &M,
    inst: &Instance,
    tree: &Tree<M::Value>,
    choices: &[Choice],
    work: &mut Reduced<M::Value>,
    room: &mut [M::Value],
    node: u32,
)
    requires place { inst.now.place ≡ PlaceAll }
    requires from { 2 ≤ node }
    requires upto { node ≤ length tree.now.entries.items }
    requires tree { IsStandingIn (M.monoid_of m.now) (M.difference m.now) inst.now tree.now
        choices.now (entry_at (M.monoid_of m.now).unit tree.now.entries.items node).parent
        work.old }
    requires side { tree.now.region.side ≡ work.old.now.side }
    requires room { work.old.now.side < length room.old }
    ensures reduced { (enter : Cost → M.Value) (winner : ℕ → ℕ) (upto : ℕ) (part : ℕ → Problem)
        → let R = rules_of (M.monoid_of m.now) (M.difference m.now) enter in
        let e = entry_at R.monoid.unit tree.now.entries.items node in
        IsTree R inst.now choices.now winner upto tree.now part
        → IsStanding R tree.now part e.parent work.old
        → IsReducedTo R tree.now.region (part node) e.trail e.index work.new }
    ensures room { length room.new ≡ length room.old }
{
    tree.region.spare();
    let here = entry(&tree.entries, node);
    let before = entry(&tree.entries, here.parent);
    cut_by(&mut work.now, inst, choices, before.state, here.branch);
    settle_own(m, &tree.region, before.trail, here.trail, work, room);
}

/// Makes a square that of the part of a node after the phases of its trail. It starts from the node
/// above for which the square stands, or from that of the instance after the phases of the root;
/// the branches of the nodes from there on take their cells, and their phases are applied. It takes
/// no memory.
pub fn rebuild<M: DMonoid>(
    m: &M,
    inst: &Instance,
    tree: &Tree<M::Value>,
    choices: &[Choice],
    base: &Reduced<M::Value>,
    work: &mut Reduced<M::Value>,
    room: &mut [M::Value],
    stands: u32,
    node: u32,
)
    requires place { inst.now.place ≡ PlaceAll }
    requires from { 1 ≤ node }
    requires upto { node ≤ length tree.now.entries.items }
    requires tree { IsRebuilt (M.monoid_of m.now) (M.difference m.now) inst.now tree.now
        choices.now base.now stands work.old }
    requires sides { (work.old.now.side ≡ base.now.now.side)
        × (tree.now.region.side ≡ base.now.now.side) }
    requires room { base.now.now.side < length room.old }
    ensures reduced { (enter : Cost → M.Value) (winner : ℕ → ℕ) (upto : ℕ) (part : ℕ → Problem)
        → let R = rules_of (M.monoid_of m.now) (M.difference m.now) enter in
        let unit = (M.monoid_of m.now).unit in let e = entry_at unit tree.now.entries.items node in
        IsTree R inst.now choices.now winner upto tree.now part
        → IsReducedTo R tree.now.region (part 1) (entry_at unit tree.now.entries.items 1).trail
        (entry_at unit tree.now.entries.items 1).index base.entry.now
        → IsStanding R tree.now part stands work.old
        → IsReducedTo R tree.now.region (part node) e.trail e.index work.new }
    ensures room { length room.new ≡ length room.old }
{
    if node == stands {
        return;
    }
    if node == 1 {
        work.now.take(&base.now);
        work.index = base.index;
        return;
    }
    let parent = parent_of(tree, node);
    rebuild(m, inst, tree, choices, base, work, room, stands, parent);
    step_down(m, inst, tree, choices, work, room, node);
}
