//! The perfect assignment of a valid choice.

ghost use Rattle.std.specs.Prelude.{◌≡◌, ◌<◌, ◌≤◌, ◌+◌, ℕ, not, false, length, map, All, IfSome, IfOk, is_some, slice_index_or};
ghost use Rattle.std.specs.List.{range_with_len};
ghost use Rattle.std.specs.Option.{unwrap_or};
ghost use Rattle.asg_model.specs.Limits.{most_rows, most_side};
ghost use Rattle.asg_model.specs.Shapes.{square_side};
ghost use Rattle.asg_model.specs.ValidChoice.{IsValid, takes};
ghost use Rattle.asg_square.specs.ChoiceAssignment.{takers_before, own_copy, perm_list};
ghost use Rattle.asg_square.specs.Completion.{is_free, free_columns, completed};
ghost use Rattle.asg_square.specs.Labels.{first_copy};
ghost use Rattle.asg_model.specs.Sums.{one, passing_below};

use crate::NoMemory;
use asg_model::{Choice, Instance};
use std::alloc::Global;

// Where the copies of the column at this place begin.
fn first_copy(inst: &Instance, d: u32) -> u32
    ensures first { result ≡ first_copy inst.now d }
    ensures bound { result ≤ 1000000 }
{
    let columns = inst.columns();
    let mut first = 0;
    for place in 0..columns.len() {
        if place >= d as usize {
            return first;
        }
        first += columns[place].cap;
    }
    first
}

// How many of the rows before this one choose the column.
fn takers_before(choice: &Choice, d: u32, r: u32) -> u32
    requires { r ≤ length choice.now }
    ensures takers { result ≡ takers_before choice.now d r }
    ensures bound { result ≤ r }
{
    let mut takers = 0;
    for s in 0..r {
        takers += taken(choice.get(s), d);
    }
    takers
}

// One for what is the column at this place.
fn taken(chosen: Option<u32>, d: u32) -> u32
    ensures value { result ≡ one (takes d chosen) }
    ensures bound { result ≤ 1 }
{
    match chosen {
        Some(c) if c == d => 1,
        _ => 0,
    }
}

// The copy that the row takes, if it chooses a column.
fn own_copy(inst: &Instance, choice: &Choice, r: u32) -> Option<u32>
    requires { length choice.now ≤ most_rows }
    ensures { result ≡ own_copy inst.now choice.now r }
{
    if r < choice.len() {
        own_copy_of(inst, choice, r)
    } else {
        None
    }
}

// The copy that a row of the choice takes, if it chooses a column.
fn own_copy_of(inst: &Instance, choice: &Choice, r: u32) -> Option<u32>
    requires below { r < length choice.now }
    requires few { length choice.now ≤ most_rows }
    ensures { result ≡ own_copy inst.now choice.now r }
{
    match choice.get(r) {
        Some(d) => Some(first_copy(inst, d) + takers_before(choice, d, r)),
        None => None,
    }
}

// The copies that the rows of the square take.
fn own_copies(
    alloc: Global,
    inst: &Instance,
    choice: &Choice,
    side: u32,
) -> Result<Vec<Option<u32>>, NoMemory>
    requires { length choice.now ≤ most_rows }
    ensures { IfOk result (λ own.
        own.items ≡ map (own_copy inst.now choice.now) (range_with_len 0 side)) }
{
    let mut own = Vec::new(alloc);
    for r in 0..side {
        own.push(own_copy(inst, choice, r))?;
    }
    Ok(own)
}

// Marks the columns that rows take.
fn mark_taken(own: &[Option<u32>], taken: &mut Vec<bool>)
    requires same { length taken.old.items ≡ length own.now }
    requires within { All (λ o. IfSome o (λ c. c < length own.now)) own.now }
    requires clear { All (λ b. b ≡ false) taken.old.items }
    ensures count { length taken.new.items ≡ length taken.old.items }
    ensures marks { (c : ℕ) → c < length own.now → slice_index_or taken.new.items c false
        ≡ not (is_free (λ r. slice_index_or own.now r None) (length own.now) c) }
{
    for r in 0..own.len() {
        if let Some(c) = own[r] {
            taken[c as usize] = true;
        }
    }
}

// The columns that aren't taken, from the last down.
fn free_columns(alloc: Global, taken: &[bool]) -> Result<Vec<u32>, NoMemory>
    requires { length taken.now ≤ most_side }
    ensures { IfOk result (λ free.
        free.items ≡ passing_below (λ c. not (slice_index_or taken.now c false)) (length taken.now)) }
{
    let side = taken.len();
    let mut free = Vec::new(alloc);
    for i in 0..side {
        let c = side - 1 - i;
        if !taken[c] {
            free.push(c as u32)?;
        }
    }
    Ok(free)
}

// Gives each row without a column the next free one.
fn complete(alloc: Global, own: &[Option<u32>], free: &[u32]) -> Result<Vec<u32>, NoMemory>
    requires { free.now ≡ free_columns (λ r. slice_index_or own.now r None) (length own.now) }
    ensures { let columns = completed (λ r. slice_index_or own.now r None) (length own.now) in
        IfOk result (λ perm. perm.items ≡ map columns (range_with_len 0 (length own.now))) }
{
    let mut perm = Vec::new(alloc);
    let mut used = 0;
    for r in 0..own.len() {
        let column = column_or(own[r], free, used);
        perm.push(column)?;
        used += lacking(own[r]);
    }
    Ok(perm)
}

// The column that a row has, or the free column of this number.
fn column_or(own: Option<u32>, free: &[u32], used: usize) -> u32
    requires { own ≡ None → used < length free.now }
    ensures { result ≡ unwrap_or own (slice_index_or free.now used 0) }
{
    match own {
        Some(c) => c,
        None => free[used],
    }
}

// One for a row without a column.
fn lacking(own: Option<u32>) -> usize
    ensures value { result ≡ one (not (is_some own)) }
    ensures bound { result ≤ 1 }
{
    match own {
        Some(_) => 0,
        None => 1,
    }
}

// The perfect assignment that is made of a valid choice.
pub(crate) fn perm_list(
    alloc: Global,
    inst: &Instance,
    choice: &Choice,
    side: u32,
) -> Result<Vec<u32>, NoMemory>
    requires valid { IsValid inst.now choice.now }
    requires side { side ≡ square_side inst.now }
    requires few { side ≤ most_side }
    ensures { IfOk result (λ perm. perm.items ≡ perm_list inst.now choice.now) }
{
    let _rows = inst.rows();
    let own = own_copies(alloc, inst, choice, side)?;
    let mut taken = vec![in alloc; false; own.len()]?;
    mark_taken(own.as_slice(), &mut taken);
    let free = free_columns(alloc, taken.as_slice())?;
    complete(alloc, own.as_slice(), free.as_slice())
}
