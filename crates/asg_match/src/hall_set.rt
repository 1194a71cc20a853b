//! Hall sets of instances from the rows of a square that have too few columns.

ghost use Rattle.std.specs.Prelude.{◌≡◌, ◌≢◌, ◌<◌, ◌≤◌, ◌+◌, [], ◌++◌, All, AllPairs, length, take};
ghost use Rattle.std.specs.Prelude.{IfOk, is_some, slice_get};
ghost use Rattle.std.specs.List.{cons_option};
ghost use Rattle.std.specs.Option.{option_map};
ghost use Rattle.asg_match.specs.HallSets.{GivesHallSets, labelled_id, hall_ids};
ghost use Rattle.asg_match.specs.Deficient.{IsDeficient};
ghost use Rattle.asg_square.specs.Grid.{HasLabelsOf};
ghost use Rattle.asg_model.specs.Sums.{one};

use crate::{Allowed, NoMemory};
use asg_model::Instance;
use asg_square::Square;
use std::alloc::Global;

/// Writes a Hall set from rows of a square that together have fewer allowed columns than they are:
/// the ids of the rows that they stand for, into the first places of `out`. The answer is how many
/// there are. They are a Hall set of each instance that has these rows, columns and place rule and
/// whose square has exactly the allowed cells; so where the allowed cells are those of a band, a
/// Hall set under that band. `out` has at least 1,001 places. It takes no memory.
pub fn hall_of<V: Copy, A: Allowed>(
    square: &Square<V>,
    inst: &Instance,
    allowed: &A,
    rows: &[u32],
    out: &mut [u32],
) -> u32
    requires labels { HasLabelsOf inst.now square.now }
    requires side { A.side allowed.now ≡ square.now.side }
    requires short { IsDeficient (A.allows allowed.now) square.now.side rows.now }
    requires room { 1001 ≤ length out.old }
    ensures few { result ≤ length inst.now.rows }
    ensures hall { GivesHallSets inst.now (A.allows allowed.now) (take result out.new) }
{
    let _ = allowed;
    let _rows = inst.rows();
    write_ids(square, inst, rows, out)
}

/// The ids that [`hall_of`] writes, as a list of their own. The error is want of memory.
pub fn hall_list<V: Copy, A: Allowed>(
    alloc: Global,
    square: &Square<V>,
    inst: &Instance,
    allowed: &A,
    rows: &[u32],
) -> Result<Vec<u32>, NoMemory>
    requires labels { HasLabelsOf inst.now square.now }
    requires side { A.side allowed.now ≡ square.now.side }
    requires short { IsDeficient (A.allows allowed.now) square.now.side rows.now }
    ensures few { IfOk result (λ ids. length ids.items ≤ length inst.now.rows) }
    ensures hall { IfOk result (λ ids. GivesHallSets inst.now (A.allows allowed.now) ids.items) }
{
    let _rows = inst.rows();
    let mut ids = [0; 1001];
    let count = hall_of(square, inst, allowed, rows, &mut ids);
    Vec::from_slice(alloc, &ids[..count as usize])
}

// Writes the ids of the rows that square rows stand for.
fn write_ids<V: Copy>(square: &Square<V>, inst: &Instance, rows: &[u32], out: &mut [u32]) -> u32
    requires labels { HasLabelsOf inst.now square.now }
    requires below { All (λ r. r < square.now.side) rows.now }
    requires apart { AllPairs ◌≢◌ rows.now }
    requires room { 1001 ≤ length out.old }
    ensures few { result ≤ length inst.now.rows }
    ensures ids { take result out.new ≡ hall_ids inst.now rows.now }
{
    let _rows = inst.rows();
    let mut count = 0;
    for i in 0..rows.len() {
        let id = id_of(square, inst, rows[i]);
        count = write_id(id, out, count);
    }
    count
}

// The id of the row that a square row stands for.
fn id_of<V: Copy>(square: &Square<V>, inst: &Instance, r: u32) -> Option<u32>
    requires labels { HasLabelsOf inst.now square.now }
    requires below { r < square.now.side }
    ensures { result ≡ labelled_id inst.now r }
{
    match square.row_label(r) {
        Some(place) => row_id(inst, place),
        None => None,
    }
}

// The id of the row at this place.
fn row_id(inst: &Instance, place: u32) -> Option<u32>
    ensures { result ≡ option_map (λ row. row.id) (slice_get inst.now.rows place) }
{
    match inst.rows().get(place as usize) {
        Some(row) => Some(row.id),
        None => None,
    }
}

// Writes an id, if there is one, at the place that is next.
fn write_id(id: Option<u32>, out: &mut [u32], count: u32) -> u32
    requires within { count < length out.old }
    requires few { count ≤ 1000 }
    ensures count { result ≡ count + one (is_some id) }
    ensures list { take result out.new ≡ take count out.old ++ cons_option id [] }
{
    match id {
        Some(id) => {
            out[count as usize] = id;
            count + 1
        }
        None => count,
    }
}
