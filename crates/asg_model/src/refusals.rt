//! Which edits are refused.

ghost use Rattle.std.specs.Prelude.{◌≡◌, ◌==◌, ◌&&◌, false, is_none, not, nat_le, unsigned_abs};
ghost use Rattle.asg_model.specs.Limits.{most_cost};
ghost use Rattle.asg_model.specs.Counts.{active_count};
ghost use Rattle.std.specs.Option.{option_map_or};
ghost use Rattle.asg_model.specs.Edits.{named_row, named_column, given_cost, drops_row, is_cost_in_range, refusal_of};
ghost use Rattle.asg_model.specs.HallSet.{row_place_of, column_place_of};
ghost use Rattle.asg_model.specs.Live.{is_active, is_open};
ghost use Rattle.asg_model.specs.Refused.{is_refused};

use crate::edits::{Edit, EditRefusal};
use crate::instances::Instance;
use crate::limits::MOST_COST;
use crate::objectives::Objective;
use crate::parts::Cost;

impl Instance {
    /// The first refusal that an edit would meet, want of memory aside; `None` exactly where none
    /// applies. It takes no memory.
    pub fn refusal(&self, objective: Objective, edit: Edit) -> Option<EditRefusal>
        ensures { result ≡ refusal_of objective self.now edit }
    {
        if self.lacks_row(edit) {
            return Some(EditRefusal::NoSuchRow);
        }
        if self.lacks_column(edit) {
            return Some(EditRefusal::NoSuchColumn);
        }
        if self.names_dropped_row(edit) {
            return Some(EditRefusal::RowDropped);
        }
        if self.names_closed_column(edit) {
            return Some(EditRefusal::ColumnDropped);
        }
        if gives_cost_out_of_range(edit) {
            return Some(EditRefusal::CostRange);
        }
        if self.drops_last_row(edit) {
            return Some(EditRefusal::LastRow);
        }
        if gives_refused_cost(objective, edit) {
            return Some(EditRefusal::NegativeCost);
        }
        None
    }

    // Whether the edit names a row that isn't there.
    fn lacks_row(&self, edit: Edit) -> bool
        ensures { result ≡ option_map_or (λ id. is_none (row_place_of self.now id))
            (named_row edit) false }
    {
        match named_row(edit) {
            Some(id) => self.row_place(id).is_none(),
            None => false,
        }
    }

    // Whether the edit names a column that isn't there.
    fn lacks_column(&self, edit: Edit) -> bool
        ensures { result ≡ option_map_or (λ id. is_none (column_place_of self.now id))
            (named_column edit) false }
    {
        match named_column(edit) {
            Some(id) => self.column_place(id).is_none(),
            None => false,
        }
    }

    // Whether the edit names a row that isn't active.
    fn names_dropped_row(&self, edit: Edit) -> bool
        ensures { result ≡ option_map_or
            (λ id. not (option_map_or (is_active self.now) (row_place_of self.now id) false))
            (named_row edit) false }
    {
        match named_row(edit) {
            Some(id) => !self.is_active_id(id),
            None => false,
        }
    }

    // Whether the edit names a column that isn't open.
    fn names_closed_column(&self, edit: Edit) -> bool
        ensures { result ≡ option_map_or
            (λ id. not (option_map_or (is_open self.now) (column_place_of self.now id) false))
            (named_column edit) false }
    {
        match named_column(edit) {
            Some(id) => !self.is_open_id(id),
            None => false,
        }
    }

    // Whether a row has the id, and it is active.
    fn is_active_id(&self, id: u32) -> bool
        ensures { result ≡ option_map_or (is_active self.now) (row_place_of self.now id) false }
    {
        match self.row_place(id) {
            Some(row) => self.is_active(row),
            None => false,
        }
    }

    // Whether a column has the id, and it is open.
    fn is_open_id(&self, id: u32) -> bool
        ensures { result ≡ option_map_or (is_open self.now) (column_place_of self.now id) false }
    {
        match self.column_place(id) {
            Some(col) => self.is_open(col),
            None => false,
        }
    }

    // Whether the edit drops a row while only one is active.
    fn drops_last_row(&self, edit: Edit) -> bool
        ensures { result ≡ (drops_row edit && (active_count self.now == 1)) }
    {
        drops_row(edit) && self.active_count() == 1
    }
}

// The row that the edit names, if it names one.
fn named_row(edit: Edit) -> Option<u32>
    ensures { result ≡ named_row edit }
{
    match edit {
        Edit::Cost { row, .. } | Edit::Forbid { row, .. } | Edit::DropRow { row } => Some(row),
        Edit::DropColumn { .. } => None,
    }
}

// The column that the edit names, if it names one.
fn named_column(edit: Edit) -> Option<u32>
    ensures { result ≡ named_column edit }
{
    match edit {
        Edit::Cost { col, .. } | Edit::Forbid { col, .. } | Edit::DropColumn { col } => Some(col),
        Edit::DropRow { .. } => None,
    }
}

// Whether the edit drops a row.
fn drops_row(edit: Edit) -> bool
    ensures { result ≡ drops_row edit }
{
    matches!(edit, Edit::DropRow { .. })
}

// Whether the edit gives a cost that no instance may have.
fn gives_cost_out_of_range(edit: Edit) -> bool
    ensures { result ≡ option_map_or (λ cost. not (is_cost_in_range cost)) (given_cost edit) false }
{
    match edit {
        Edit::Cost { cost, .. } => !is_cost_in_range(cost),
        _ => false,
    }
}

// Whether an instance may have the cost.
fn is_cost_in_range(cost: Cost) -> bool
    ensures { result ≡ is_cost_in_range cost }
{
    is_part_in_range(cost.a) && is_part_in_range(cost.b)
}

// Whether the edit gives a cost that the objective refuses.
fn gives_refused_cost(objective: Objective, edit: Edit) -> bool
    ensures { result ≡ option_map_or (is_refused objective) (given_cost edit) false }
{
    match edit {
        Edit::Cost { cost, .. } => objective.refuses(cost),
        _ => false,
    }
}

// Whether a part of a cost may be this.
fn is_part_in_range(part: i64) -> bool
    ensures { result ≡ nat_le (unsigned_abs part) most_cost }
{
    part.unsigned_abs() <= MOST_COST as u64
}
