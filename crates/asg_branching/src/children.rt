//! The children of the node that gave the last answer.

ghost use Rattle.std.specs.Prelude.{◌≡◌, ◌≢◌, ℕ, ◌+◌, ◌<◌, ◌≤◌, true, false, IsTrue, None, IfSome};
ghost use Rattle.std.specs.Prelude.{length, slice_set};
ghost use Rattle.asg_model.specs.declared.parts.Cost.{Cost};
ghost use Rattle.asg_match.specs.Matching.{Matches};
ghost use Rattle.asg_model.specs.Limits.{most_side};
ghost use Rattle.asg_model.specs.Live.{is_active};
ghost use Rattle.asg_model.specs.Problem.{Problem};
ghost use Rattle.asg_model.specs.Sums.{count_below};
ghost use Rattle.asg_order.specs.Monoid.{IsValue};
ghost use Rattle.asg_algebra.specs.Branches.{Branches};
ghost use Rattle.asg_algebra.specs.Stages.{stage_of};
ghost use Rattle.asg_kept.specs.Masked.{masked_reduced};
ghost use Rattle.asg_growth.specs.Rest.{IsRestOf};
ghost use Rattle.asg_pool.specs.Forest.{IsLive};
ghost use Rattle.asg_square.specs.Masked.{keeps};
ghost use Rattle.asg_branching.specs.Expansions.{IsGrowing, IsExpanding, IsLastBehind, fixed_for, kept_for};
ghost use Rattle.asg_nodes.specs.Rules.{rules_of};
ghost use Rattle.asg_branching.specs.Searches.{given_of, IsBehind, IsReady};
ghost use Rattle.asg_nodes.specs.Slots.{Ascends, HaveValues};

use crate::child_nodes::{close_child, keep_child};
use crate::desks::Desk;
use crate::searches::Search;
use asg_algebra::laws::branch_law;
use asg_algebra::{Branch, branch_from};
use asg_match::Matching;
use asg_model::Instance;
use asg_nodes::{Slots, State, entry, limit, push_child, put_row, rebuild};
use asg_order::DMonoid;
use asg_pool::{Region, Trail};
use asg_proof::laws::raised_law;
use asg_square::laws::square_law;
use asg_values::laws::infeasible_law;

// Whether all slots are in use and no index there is greater than this one.
fn is_behind<M: DMonoid>(m: &M, slots: &Slots<M::Value>, index: M::Value) -> bool
    requires index { IsValue (M.monoid_of m.now) index }
    requires values { HaveValues (M.monoid_of m.now) slots.now.used }
    requires ascends { Ascends (M.monoid_of m.now) slots.now.used }
    ensures behind { IsTrue result → IsBehind (M.monoid_of m.now) slots.now index }
{
    match limit(m, slots) {
        Some(top) => m.le(top, index),
        None => false,
    }
}

/// Whether no child of the node that gave the last answer can be kept: there is room for no more
/// answers, or all slots are in use and no index there is greater than the node's.
pub(crate) fn are_all_behind<M: DMonoid>(m: &M, search: &Search<M::Value>) -> bool
    requires growing { (enter : Cost → M.Value) × (X : Problem) × (room : ℕ)
        × IsGrowing (rules_of (M.monoid_of m.now) (M.difference m.now) enter) X room 0 search.now }
    ensures behind { IsTrue result → IsLastBehind (M.monoid_of m.now) search.now }
    ensures less { result ≡ false → search.now.given < search.now.slots.room }
{
    let given = search.given as usize;
    if given == search.slots.room() {
        return true;
    }
    let node = search.slots.node(given - 1);
    let parent = entry(&search.tree.entries, node);
    is_behind(m, &search.slots, parent.index)
}

// Grows one tree from a row that loses its column, on the cells of the square that the bits keep.
fn grow<M: DMonoid>(
    m: &M,
    desk: &mut Desk<M::Value>,
    region: &mut Region<M::Value>,
    matching: &Matching,
    trail: Option<Trail>,
    row: u32,
    limit: Option<M::Value>,
) -> Branch<M::Value>
    requires rest { IsRestOf (M.monoid_of m.now) desk.old.work matching.now }
    requires kept { (r k : ℕ) → r ≢ row → Matches matching.now r k
        → keeps desk.old.work.now.side desk.old.bits.words r k ≡ true }
    requires small { desk.old.work.now.side ≤ most_side }
    requires bench { desk.old.bench.side ≡ desk.old.work.now.side }
    requires trial { length desk.old.trial ≡ length matching.now }
    requires row { row < desk.old.work.now.side }
    requires limit { IfSome limit (IsValue (M.monoid_of m.now)) }
    requires spare { 1 ≤ region.old.spare }
    requires live { IfSome trail (IsLive region.old) }
    requires region_side { region.old.side ≡ desk.old.work.now.side }
    ensures same { desk.new ≡ record desk.old { trial = desk.new.trial; bench = desk.new.bench } }
    ensures branches { Branches (M.monoid_of m.now) (M.difference m.now)
        (stage_of (masked_reduced desk.old.work desk.old.bits.words)
        (slice_set matching.now row None) region.old)
        (stage_of (masked_reduced desk.old.work desk.old.bits.words) desk.new.trial region.new)
        limit trail row desk.new.bench.rows result }
    ensures trial { length desk.new.trial ≡ length desk.old.trial }
    ensures bench { desk.new.bench.side ≡ desk.old.bench.side }
{
    branch_law(m);
    desk.trial.take(matching);
    desk.trial.clear(row);
    branch_from(
        m,
        &desk.work,
        desk.bits.words(),
        &mut desk.trial,
        &mut desk.bench,
        region,
        trail,
        row,
        limit,
    )
}

// Makes the next child: its row loses its column and gets another one by one tree, unless the index
// comes to the limit; where it gets one the child is offered a slot.
fn grow_child<M: DMonoid>(
    m: &M,
    inst: &Instance,
    search: &mut Search<M::Value>,
    row: u32,
    made: u32,
)
    requires expanding { (enter : Cost → M.Value) × (room : ℕ)
        × IsExpanding (rules_of (M.monoid_of m.now) (M.difference m.now) enter) inst.now room
        made (kept_for inst.now made search.old) search.old }
    requires row { is_active inst.now row ≡ true }
    requires number { count_below (is_active inst.now) row ≡ made }
    ensures expanding { (enter : Cost → M.Value) (room : ℕ)
        → let R = rules_of (M.monoid_of m.now) (M.difference m.now) enter in
        IsExpanding R inst.now room made (kept_for inst.now made search.old) search.old
        → IsExpanding R inst.now room (made + 1) (kept_for inst.now made search.new) search.new }
    ensures given { given_of search.new ≡ given_of search.old }
{
    raised_law(m);
    infeasible_law();
    square_law::<M::Value>();
    let place = search.given as usize - 1;
    let node = search.slots.node(place);
    let parent = entry(&search.tree.entries, node);
    let branch = made + 1;
    if is_behind(m, &search.slots, parent.index) {
        let tree = &mut search.tree;
        push_child(tree, node, branch, State::Open, parent.trail, parent.index);
        return;
    }
    let limit = limit(m, &search.slots);
    let grown = grow(
        m,
        &mut search.desk,
        &mut search.tree.region,
        search.slots.matching(place),
        parent.trail,
        row,
        limit,
    );
    match grown {
        Branch::Reached(index, trail) => keep_child(m, search, node, branch, trail, index),
        Branch::Left(index, trail) => {
            push_child(&mut search.tree, node, branch, State::Open, trail, index);
        }
        Branch::Short => {
            let (tree, desk) = (&mut search.tree, &mut search.desk);
            close_child(inst, tree, desk, node, branch, parent.trail, parent.index);
        }
    }
}

// Makes the next child, that of an active row.
fn add_child<M: DMonoid>(m: &M, inst: &Instance, search: &mut Search<M::Value>, row: u32, made: u32)
    requires expanding { (enter : Cost → M.Value) × (room : ℕ)
        × IsExpanding (rules_of (M.monoid_of m.now) (M.difference m.now) enter) inst.now room
        made (fixed_for inst.now made search.old) search.old }
    requires row { is_active inst.now row ≡ true }
    requires number { count_below (is_active inst.now) row ≡ made }
    ensures expanding { (enter : Cost → M.Value) (room : ℕ)
        → let R = rules_of (M.monoid_of m.now) (M.difference m.now) enter in
        IsExpanding R inst.now room made (fixed_for inst.now made search.old) search.old
        → IsExpanding R inst.now room (made + 1) (fixed_for inst.now (made + 1) search.new) search.new }
    ensures given { given_of search.new ≡ given_of search.old }
{
    let chosen = search.choices[search.given as usize - 1].get(row);
    let desk = &mut search.desk;
    put_row(&mut desk.bits, inst, &desk.work.now, row, chosen, false);
    grow_child(m, inst, search, row, made);
    let desk = &mut search.desk;
    put_row(&mut desk.bits, inst, &desk.work.now, row, chosen, true);
}

// Makes the next child if the row is active, and gives how many there are then.
fn visit_row<M: DMonoid>(
    m: &M,
    inst: &Instance,
    search: &mut Search<M::Value>,
    row: u32,
    made: u32,
) -> u32
    requires expanding { (enter : Cost → M.Value) × (room : ℕ)
        × IsExpanding (rules_of (M.monoid_of m.now) (M.difference m.now) enter) inst.now room
        made (fixed_for inst.now made search.old) search.old }
    requires number { count_below (is_active inst.now) row ≡ made }
    ensures number { result ≡ count_below (is_active inst.now) (row + 1) }
    ensures expanding { (enter : Cost → M.Value) (room : ℕ)
        → let R = rules_of (M.monoid_of m.now) (M.difference m.now) enter in
        IsExpanding R inst.now room made (fixed_for inst.now made search.old) search.old
        → IsExpanding R inst.now room result (fixed_for inst.now result search.new) search.new }
    ensures given { given_of search.new ≡ given_of search.old }
{
    if inst.is_active(row) {
        add_child(m, inst, search, row, made);
        return made + 1;
    }
    made
}

// Makes the square of the part of the node that gave the last answer, and lets all of its cells be
// kept.
fn prepare<M: DMonoid>(m: &M, inst: &Instance, search: &mut Search<M::Value>)
    requires growing { (enter : Cost → M.Value) × (room : ℕ)
        × IsGrowing (rules_of (M.monoid_of m.now) (M.difference m.now) enter) inst.now room 0
        search.old }
    requires less { search.old.given < search.old.slots.room }
    ensures expanding { (enter : Cost → M.Value) (room : ℕ)
        → let R = rules_of (M.monoid_of m.now) (M.difference m.now) enter in
        IsGrowing R inst.now room 0 search.old
        → IsExpanding R inst.now room 0 (fixed_for inst.now 0 search.new) search.new }
    ensures given { given_of search.new ≡ given_of search.old }
{
    let given = search.given as usize;
    let node = search.slots.node(given - 1);
    let stands = search.desk.node;
    rebuild(
        m,
        inst,
        &search.tree,
        &search.choices[..given],
        &search.base,
        &mut search.desk.work,
        &mut search.desk.room,
        stands,
        node,
    );
    search.desk.node = node;
    search.desk.bits.set_all();
}

/// Makes the children of the node that gave the last answer, each with at most one phase more. It
/// takes no memory.
pub(crate) fn expand<M: DMonoid>(m: &M, inst: &Instance, search: &mut Search<M::Value>)
    requires growing { (enter : Cost → M.Value) × (room : ℕ)
        × IsGrowing (rules_of (M.monoid_of m.now) (M.difference m.now) enter) inst.now room 0
        search.old }
    requires less { search.old.given < search.old.slots.room }
    ensures ready { (enter : Cost → M.Value) (room : ℕ)
        → let R = rules_of (M.monoid_of m.now) (M.difference m.now) enter in
        IsGrowing R inst.now room 0 search.old
        → IsReady R inst.now room search.new }
    ensures given { given_of search.new ≡ given_of search.old }
{
    prepare(m, inst, search);
    let mut made = 0;
    'rows: for row in 0..inst.rows().len() as u32 {
        made = visit_row(m, inst, search, row, made);
    }
}

/// Leaves the children of the node that gave the last answer open, with its trail, where none of
/// them can be kept. It takes no memory.
pub(crate) fn leave<M: DMonoid>(m: &M, inst: &Instance, search: &mut Search<M::Value>)
    requires growing { (enter : Cost → M.Value) × (room : ℕ)
        × IsGrowing (rules_of (M.monoid_of m.now) (M.difference m.now) enter) inst.now room 0
        search.old }
    requires behind { IsLastBehind (M.monoid_of m.now) search.old }
    ensures ready { (enter : Cost → M.Value) (room : ℕ)
        → let R = rules_of (M.monoid_of m.now) (M.difference m.now) enter in
        IsGrowing R inst.now room 0 search.old
        → IsReady R inst.now room search.new }
    ensures given { given_of search.new ≡ given_of search.old }
{
    raised_law(m);
    let node = search.slots.node(search.given as usize - 1);
    let parent = entry(&search.tree.entries, node);
    'branches: for branch in 1..inst.placed() + 1 {
        let tree = &mut search.tree;
        push_child(tree, node, branch, State::Open, parent.trail, parent.index);
    }
}
