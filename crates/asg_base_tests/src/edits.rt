//! What edits leave of a square whose cells are kept in a map.

use self::Change::{Column, Out, Put, Row};
use crate::instances::{Hall, Parts, are_told, has_costs};
use crate::mapped::square;
use asg_model::EditRefusal::{
    ColumnDropped, CostRange, LastRow, NegativeCost, NoSuchColumn, NoSuchRow, RowDropped,
};
use asg_model::Objective::{Capped, Lex, Sum, TimeCost};
use asg_model::{Band, Choice, Cost, Edit, EditRefusal, Instance, Objective, Place, Value};
use asg_values::{is_valid, negative, value};
use std::alloc::{AllocError, Global};
use std::test::Fail;

// An edit in few words, by ids: the cost of a cell, or a cell, a row or a column that is taken out.
#[derive(Clone, Copy)]
enum Change {
    Put(u32, u32, i64, i64),
    Out(u32, u32),
    Row(u32),
    Column(u32),
}

// The edit itself.
fn edit_of(change: Change) -> Edit {
    match change {
        Change::Put(row, col, a, b) => Edit::Cost {
            row,
            col,
            cost: Cost { a, b },
        },
        Change::Out(row, col) => Edit::Forbid { row, col },
        Change::Row(row) => Edit::DropRow { row },
        Change::Column(col) => Edit::DropColumn { col },
    }
}

// An edit for an objective, and its refusal.
type Step = (Objective, Change, Option<EditRefusal>);

// A row is dropped, and named again.
const DROPS: [Step; 9] = [
    (Sum, Put(9, 9, 0, 0), Some(NoSuchRow)),
    (Sum, Put(1, 9, 0, 0), Some(NoSuchColumn)),
    (Sum, Row(2), None),
    (Sum, Row(2), Some(RowDropped)),
    (Sum, Put(2, 1, 1_000_000_001, 0), Some(RowDropped)),
    (Sum, Put(1, 1, 1_000_000_001, 0), Some(CostRange)),
    (TimeCost, Put(1, 1, 0, -1_000_000_001), Some(CostRange)),
    (Sum, Row(1), None),
    (Sum, Row(3), Some(LastRow)),
];

// A column is closed, cells are taken out and come back, and costs are refused for an objective.
const CELLS: [Step; 10] = [
    (Lex, Column(2), None),
    (Lex, Out(1, 2), Some(ColumnDropped)),
    (Lex, Column(2), Some(ColumnDropped)),
    (Capped(5), Put(1, 1, -1, 0), Some(NegativeCost)),
    (TimeCost, Put(1, 1, 0, -1), Some(NegativeCost)),
    (Sum, Put(1, 1, -1, 7), None),
    (Sum, Out(1, 3), None),
    (Sum, Out(1, 3), None),
    (Sum, Out(2, 3), None),
    (Sum, Put(2, 3, 1_000_000_000, 0), None),
];

// The third row is dropped, and the third column closed.
const LESS: [Step; 2] = [(Sum, Row(3), None), (Sum, Column(3), None)];

// The same, behind negative costs.
const SIGNS: [Step; 6] = [
    (Sum, Put(1, 2, 1, -2), None),
    (Sum, Put(1, 3, -3, -6), None),
    (Sum, Put(2, 1, -2, 4), None),
    (Sum, Put(3, 1, -3, -6), None),
    (Sum, Row(3), None),
    (Sum, Column(3), None),
];

// Edits, and behind them the costs of the live cells, rows that are a Hall set or not, and the
// first cells that `capped` and `time-cost` refuse.
type Edited = (
    &'static [Step],
    Parts,
    &'static [Hall],
    Option<(u32, u32)>,
    Option<(u32, u32)>,
);

static EDITS: [Edited; 4] = [
    (
        &DROPS,
        [
            None,
            None,
            None,
            None,
            None,
            None,
            Some((3, 6)),
            Some((2, 4)),
            Some((2, 4)),
        ],
        &[(Band::Under(2), &[3], true), (Band::Under(2), &[1], false)],
        None,
        None,
    ),
    (
        &CELLS,
        [
            Some((-1, 7)),
            None,
            None,
            Some((2, 4)),
            None,
            Some((1_000_000_000, 0)),
            Some((3, 6)),
            None,
            Some((2, 4)),
        ],
        &[(Band::Under(2), &[2], true), (Band::Under(2), &[1], false)],
        Some((1, 1)),
        None,
    ),
    (
        &LESS,
        [
            Some((4, 8)),
            Some((1, 2)),
            None,
            Some((2, 4)),
            Some((0, 0)),
            None,
            None,
            None,
            None,
        ],
        &[
            (Band::Under(2), &[1, 2], true),
            (Band::Under(2), &[3], false),
        ],
        None,
        None,
    ),
    (
        &SIGNS,
        [
            Some((4, 8)),
            Some((1, -2)),
            None,
            Some((-2, 4)),
            Some((0, 0)),
            None,
            None,
            None,
            None,
        ],
        &[(Band::Under(2), &[1, 2], false)],
        Some((2, 1)),
        Some((1, 2)),
    ),
];

// These, for a caller that needn't know them.
fn edits() -> &'static [Edited] {
    &EDITS
}

// Whether each edit is refused as it is to be, and told to be before.
fn are_answered(inst: &mut Instance, steps: &[Step]) -> bool {
    for (objective, change, want) in steps {
        let edit = edit_of(*change);
        if inst.refusal(*objective, edit) != *want {
            return false;
        }
        if inst.edit(*objective, edit).err() != *want {
            return false;
        }
    }
    true
}

// Whether the square is edited so.
fn is_edited(alloc: Global, case: &Edited) -> bool {
    let Some(mut inst) = square(alloc) else {
        return false;
    };
    let is_so = are_answered(&mut inst, case.0)
        && has_costs(&inst, &case.1)
        && are_told(&inst, case.2)
        && negative(Capped(9), &inst) == case.3
        && negative(TimeCost, &inst) == case.4;
    drop(inst);
    is_so
}

#[test]
fn squares_in_a_map_are_edited(rt: HostRuntime) {
    for case in edits() {
        assert!(rt; is_edited(rt.alloc(), case));
    }
}

// Whether the choice is valid, and `lex` gives it the costs 1 and 0.
fn has_value(alloc: Global, inst: &Instance, choice: &Choice) -> Result<bool, AllocError> {
    if !is_valid(inst, choice) {
        return Ok(false);
    }
    let value = value(alloc, Lex, inst, choice)?;
    let is_so = match &value {
        Value::Many(costs) => costs.as_slice() == [1, 0].as_slice(),
        _ => false,
    };
    drop(value);
    Ok(is_so)
}

// Whether the square without its third row and its third column gives that to the choice of the
// second column by two rows, where each column takes two.
fn gives_value(alloc: Global, inst: &mut Instance) -> Result<bool, AllocError> {
    let mut choice = Choice::make(alloc, 3)?;
    choice.set(0, Some(1));
    choice.set(1, Some(1));
    let is_less = are_answered(inst, &LESS) && inst.shape(Place::All, 2) == Ok(());
    let has_value = has_value(alloc, inst, &choice);
    drop(choice);
    Ok(is_less && has_value?)
}

// Whether the square does.
fn is_valued(alloc: Global) -> Result<bool, AllocError> {
    let Some(mut inst) = square(alloc) else {
        return Ok(false);
    };
    let gives_value = gives_value(alloc, &mut inst);
    drop(inst);
    gives_value
}

#[test]
fn dropped_rows_have_no_cost(rt: HostRuntime) -> Result<(), Fail> {
    assert!(rt; is_valued(rt.alloc())?);
    Ok(())
}
