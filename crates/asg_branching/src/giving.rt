//! The answer of the open node that has the least index.

ghost use Rattle.std.specs.Prelude.{◌≡◌, ℕ, ◌+◌, ◌<◌, length};
ghost use Rattle.asg_model.specs.declared.parts.Cost.{Cost};
ghost use Rattle.asg_match.specs.Matching.{IsPerfect};
ghost use Rattle.asg_square.specs.Cells.{IsPresent};
ghost use Rattle.asg_square.specs.Grid.{cell_at};
ghost use Rattle.asg_branching.specs.Chosen.{IsChosenBy};
ghost use Rattle.asg_branching.specs.Expansions.{IsGrowing, IsOneMore};
ghost use Rattle.asg_nodes.specs.Rules.{rules_of};
ghost use Rattle.asg_branching.specs.Searches.{given_of, IsReady};

use crate::searches::Search;
use asg_algebra::laws::fold_law;
use asg_match::Matching;
use asg_model::{Choice, Instance};
use asg_nodes::{State, set_state};
use asg_order::DMonoid;
use asg_proof::laws::lower_bound_law;
use asg_square::Square;
use asg_square::laws::{grid_law, square_law};

// Writes the choice of a perfect assignment by present cells.
fn write_choice<V: Copy>(
    square: &Square<V>,
    matching: &Matching,
    columns: &mut [u32],
    out: &mut Choice,
)
    requires perfect { IsPerfect (IsPresent (cell_at square.now)) square.now.side matching.now }
    requires columns { length columns.old ≡ square.now.side }
    requires out { length out.old ≡ square.now.rows }
    ensures chosen { IsChosenBy square.now matching.now out.new }
    ensures columns { length columns.new ≡ length columns.old }
{
    let _side = matching.side();
    matching.copy_columns(columns);
    square.choice_into(columns, out);
}

/// Gives the answer of the kept node that has the least index. Its children are to come. It takes
/// no memory.
pub fn give<M: DMonoid>(m: &M, inst: &Instance, search: &mut Search<M::Value>)
    requires ready { (enter : Cost → M.Value) × (room : ℕ) × IsReady (rules_of (M.monoid_of m.now)
        (M.difference m.now) enter) inst.now room search.old }
    requires some { search.old.given < length search.old.slots.used }
    ensures growing { (enter : Cost → M.Value) (room : ℕ)
        → let R = rules_of (M.monoid_of m.now) (M.difference m.now) enter in
        IsReady R inst.now room search.old → IsGrowing R inst.now room 0 search.new }
    ensures more { (enter : Cost → M.Value) (room : ℕ)
        → let R = rules_of (M.monoid_of m.now) (M.difference m.now) enter in
        IsReady R inst.now room search.old
        → IsOneMore R inst.now (given_of search.old) (given_of search.new) }
    ensures given { search.new.given ≡ search.old.given + 1 }
    ensures slots { search.new.slots ≡ search.old.slots }
{
    fold_law(m);
    lower_bound_law(m);
    square_law::<M::Value>();
    grid_law::<M::Value>();
    let _rows = inst.rows();
    let place = search.given as usize;
    let node = search.slots.node(place);
    write_choice(
        &search.base.now,
        search.slots.matching(place),
        &mut search.desk.columns,
        &mut search.choices[place],
    );
    search.given += 1;
    set_state(
        &mut search.tree.entries,
        node,
        State::Answered(search.given),
    );
}
