//! New nodes of a search tree.

ghost use Rattle.std.specs.Prelude.{◌≡◌, ◌+◌, ◌<◌, ◌≤◌, ◌^◌, ◌++◌, ◌∷◌, [], ℕ, List};
ghost use Rattle.std.specs.Prelude.{length, vec_len, vec_capacity};
ghost use Rattle.asg_match.specs.Deficient.{IsDeficient};
ghost use Rattle.asg_match.specs.HallSets.{GivesHallSets};
ghost use Rattle.asg_order.specs.Monoid.{IsValue};
ghost use Rattle.asg_square.specs.Cells.{IsPresent};
ghost use Rattle.asg_square.specs.Grid.{cell_at, HasLabelsOf};
ghost use Rattle.asg_square.specs.Masked.{masked_grid};
ghost use Rattle.asg_nodes.specs.Entries.{entry_of};
ghost use Rattle.asg_nodes.specs.Slots.{slot_of, Ascends, HaveValues, Offers};
ghost use Rattle.asg_nodes.specs.declared.entries.State.TheVariants.{Open, Empty};

use crate::desks::Desk;
use crate::masked_cells::MaskedCells;
use crate::searches::Search;
use asg_bit_rows::BitRows;
use asg_match::hall_of;
use asg_model::Instance;
use asg_nodes::{HallPool, State, Tree, offer, push_child};
use asg_order::DMonoid;
use asg_pool::Trail;
use asg_square::Square;

// Writes the Hall set of rows that have too few cells that the bits keep, and gives its place.
fn write_hall<V: Copy>(
    inst: &Instance,
    square: &Square<V>,
    bits: &BitRows,
    rows: &[u32],
    ids: &mut [u32],
    halls: &mut HallPool,
) -> u32
    requires labels { HasLabelsOf inst.now square.now }
    requires bit_rows { bits.now.rows ≡ square.now.side }
    requires bit_columns { bits.now.columns ≡ square.now.side }
    requires short { IsDeficient (IsPresent (cell_at (masked_grid square.now bits.now.words)))
        square.now.side rows.now }
    requires ids { 1001 ≤ length ids.old }
    requires room { length halls.old.sets < halls.old.most }
    requires width { length inst.now.rows ≤ halls.old.width }
    ensures place { result ≡ length halls.old.sets }
    ensures sets { (set : List ℕ) × (halls.new ≡ record halls.old { sets = halls.old.sets ++ set ∷ [] })
        × GivesHallSets inst.now (IsPresent (cell_at (masked_grid square.now bits.now.words))) set }
    ensures ids { length ids.new ≡ length ids.old }
{
    let _side = square.side();
    let _rows = inst.rows();
    let cells = MaskedCells { square, bits };
    let count = hall_of(square, inst, &cells, rows, ids);
    halls.push(&ids[..count as usize])
}

/// Puts a node behind the others that has its best choice, and offers it a slot. It takes no
/// memory.
pub(crate) fn keep_child<M: DMonoid>(
    m: &M,
    search: &mut Search<M::Value>,
    parent: u32,
    branch: u32,
    trail: Option<Trail>,
    index: M::Value,
)
    requires room { length search.old.tree.entries.items < vec_capacity search.old.tree.entries }
    requires small { length search.old.tree.entries.items + 1 < 2 ^ 32 }
    requires slots { 1 ≤ search.old.slots.room }
    requires side { length search.old.desk.trial ≡ search.old.slots.side }
    requires index { IsValue (M.monoid_of m.now) index }
    requires values { HaveValues (M.monoid_of m.now) search.old.slots.used }
    requires ascends { Ascends (M.monoid_of m.now) search.old.slots.used }
    ensures same { search.new ≡ record search.old { tree = search.new.tree; slots = search.new.slots } }
    ensures entries { search.new.tree.entries.items ≡ search.old.tree.entries.items
        ++ entry_of parent branch Open trail index ∷ [] }
    ensures capacity { vec_capacity search.new.tree.entries ≡ vec_capacity search.old.tree.entries }
    ensures region { search.new.tree.region ≡ search.old.tree.region }
    ensures halls { search.new.tree.halls ≡ search.old.tree.halls }
    ensures slots_side { search.new.slots.side ≡ search.old.slots.side }
    ensures slots_room { search.new.slots.room ≡ search.old.slots.room }
    ensures offers { let number = length search.old.tree.entries.items + 1 in
        Offers (M.monoid_of m.now) search.old.slots (slot_of number index search.old.desk.trial)
        search.new.slots }
{
    push_child(&mut search.tree, parent, branch, State::Open, trail, index);
    let number = search.tree.entries.len() as u32;
    offer(m, &mut search.slots, number, index, &search.desk.trial);
}

/// Puts a node behind the others that has no choice, with its Hall set. It takes no memory.
pub fn close_child<V: Copy>(
    inst: &Instance,
    tree: &mut Tree<V>,
    desk: &mut Desk<V>,
    parent: u32,
    branch: u32,
    trail: Option<Trail>,
    index: V,
)
    requires room { length tree.old.entries.items < vec_capacity tree.old.entries }
    requires labels { HasLabelsOf inst.now desk.old.work.now }
    requires bit_rows { desk.old.bits.rows ≡ desk.old.work.now.side }
    requires bit_columns { desk.old.bits.columns ≡ desk.old.work.now.side }
    requires short { IsDeficient
        (IsPresent (cell_at (masked_grid desk.old.work.now desk.old.bits.words)))
        desk.old.work.now.side desk.old.bench.rows }
    requires ids { 1001 ≤ vec_len desk.old.ids }
    requires halls { length tree.old.halls.sets < tree.old.halls.most }
    requires width { length inst.now.rows ≤ tree.old.halls.width }
    ensures same { desk.new ≡ record desk.old { ids = desk.new.ids } }
    ensures ids { vec_len desk.new.ids ≡ vec_len desk.old.ids }
    ensures entries { tree.new.entries.items ≡ tree.old.entries.items
        ++ entry_of parent branch (Empty (length tree.old.halls.sets)) trail index ∷ [] }
    ensures capacity { vec_capacity tree.new.entries ≡ vec_capacity tree.old.entries }
    ensures region { tree.new.region ≡ tree.old.region }
    ensures sets { (set : List ℕ)
        × (tree.new.halls ≡ record tree.old.halls { sets = tree.old.halls.sets ++ set ∷ [] })
        × GivesHallSets inst.now
        (IsPresent (cell_at (masked_grid desk.old.work.now desk.old.bits.words))) set }
{
    let place = write_hall(
        inst,
        &desk.work.now,
        &desk.bits,
        desk.bench.violator(),
        &mut desk.ids,
        &mut tree.halls,
    );
    push_child(tree, parent, branch, State::Empty(place), trail, index);
}
