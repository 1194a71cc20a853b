//! The session.

ghost use Rattle.std.specs.Prelude.{◌≡◌, ◌≤◌, ◌<◌, ◌+◌, ℕ, false, None, Some, IsTrue, IfOk, IfSome, OnErr, OnOk, OnSome, length, replicate, slice_index};
ghost use Rattle.asg_model.specs.declared.edits.Edit.TheVariants.{Cost as SetCost};
ghost use Rattle.asg_model.specs.Counts.{placed};
ghost use Rattle.asg_model.specs.Edits.{edited, refusal_of};
ghost use Rattle.asg_model.specs.Instances.{IsInstance};
ghost use Rattle.asg_model.specs.Limits.{most_side};
ghost use Rattle.asg_model.specs.Shapes.{square_side};
ghost use Rattle.asg_monoids.specs.Entered.{sum_entered};
ghost use Rattle.asg_monoids.specs.NarrowObjectives.{is_narrow_objective};
ghost use Rattle.asg_sum_edits.specs.Sessions.{Follows, IsFound, IsHeld};
ghost use Rattle.asg_sum_edits.specs.SumDuals.{IsBestSum, IsOneToOne};

use crate::NoMemory;
use crate::founds::Found;
use crate::guesses::{Guess, first_guess};
use crate::repairs::repaired;
use crate::row_tests::number;
use crate::sum_tests::{is_one_to_one, tested};
use asg_model::{Choice, Cost, Edit, Instance, Objective, RowRoom};
use std::alloc::{AllocError, Global};
use std::marker::Model;

/// An instance that is edited, and asked again and again for the best sum of its valid choices.
#[derive(Drop)]
pub struct SumSession {
    objective: Objective,
    inst: Instance,
    stands: bool,
    is_known: bool,
    found: Found,
}

impl Model for SumSession {
    ghost use Rattle.asg_sum_edits.specs.Sessions.{SumsOf, IsSession};

    ghost Value = { SumsOf };

    ghost view = { λ s. record { objective = s.objective; instance = s.inst } };

    ghost invariant = { λ s. IsSession s.objective s.inst s.stands s.is_known s.found };
}

// No falls, no rises, and no choice, for so many rows and columns. The error is want of memory.
fn nothing_found(alloc: Global, rows: u32, columns: usize) -> Result<Found, NoMemory>
    ensures falls { IfOk result (λ found. found.falls.items ≡ replicate rows 0) }
    ensures rises { IfOk result (λ found. found.rises.items ≡ replicate columns 0) }
    ensures choice { IfOk result (λ found. found.choice ≡ replicate rows None) }
{
    let choice = Choice::make(alloc, rows)?;
    let falls = vec![in alloc; 0u64; rows as usize]?;
    let rises = vec![in alloc; 0u64; columns]?;
    Ok(Found {
        falls,
        rises,
        choice,
        sum: 0,
    })
}

// Whether a choice was found: then its first row has a column.
fn has_choice(choice: &Choice) -> bool {
    choice.len() > 0 && choice.get(0).is_some()
}

// A guess from what was found so far. The error is want of memory.
fn guess_from(
    alloc: Global,
    objective: Objective,
    inst: &Instance,
    room: &mut RowRoom,
    found: &Found,
) -> Result<Option<Guess>, NoMemory>
    requires { square_side inst.now ≤ most_side }
{
    if has_choice(&found.choice) {
        repaired(alloc, objective, inst, room, found)
    } else {
        first_guess(alloc, objective, inst)
    }
}

// What a guess from what was found so far gives, where it passes all tests. The error is want of
// memory.
fn found_from(
    alloc: Global,
    objective: Objective,
    inst: &Instance,
    found: &Found,
) -> Result<Option<Found>, NoMemory>
    requires narrow { IsTrue (is_narrow_objective objective) }
    requires small { square_side inst.now ≤ most_side }
    requires one_to_one { IsOneToOne inst.now }
    requires held { IsHeld objective inst.now found.now }
    ensures { IfOk result (λ found. IfSome found (IsFound objective inst.now)) }
{
    let mut room = RowRoom::new();
    match guess_from(alloc, objective, inst, &mut room, found)? {
        Some(guess) => tested(alloc, objective, inst, &mut room, found, guess),
        None => Ok(None),
    }
}

// The sum of what was found.
fn told(found: &Found) -> Option<i128>
    ensures { result ≡ Some found.now.sum }
{
    Some(found.sum)
}

// Lets a row's fall go down to a cost with its column's rise, and says whether it went down.
fn lower(objective: Objective, falls: &mut Vec<u64>, rise: u64, row: usize, cost: Cost) -> bool
    requires { row < length falls.old.items }
    ensures low { slice_index falls.new.items row ≤ sum_entered objective cost + rise }
    ensures others { (k : ℕ) → slice_index falls.new.items k ≤ slice_index falls.old.items k }
    ensures count { length falls.new.items ≡ length falls.old.items }
    ensures same { result ≡ false → falls.new.items ≡ falls.old.items }
{
    let most = number(objective, cost).saturating_add(rise);
    if falls[row] <= most {
        return false;
    }
    falls[row] = most;
    true
}

// Lets what was found hold where a cell got a cost, and says whether its choice is known to be best
// still.
fn follow(
    objective: Objective,
    found: &mut Found,
    is_known: bool,
    row: u32,
    column: u32,
    cost: Cost,
) -> bool
    requires row { row < length found.old.falls.items }
    requires column { column < length found.old.rises.items }
    requires over { row < length found.old.choice }
    ensures { Follows objective found.old found.new is_known row column cost result }
{
    let takes = found.choice.get(row) == Some(column);
    let rise = found.rises[column as usize];
    let is_lower = lower(objective, &mut found.falls, rise, row as usize, cost);
    is_known && !takes && !is_lower
}

impl SumSession {
    /// A session of an instance for `sum` or `sum-max`. The side of its square is at most 2,000. The
    /// error is want of memory. It is solved when its sum is asked for first.
    pub fn open(alloc: Global, objective: Objective, inst: Instance) -> Result<SumSession, NoMemory>
        requires narrow { IsTrue (is_narrow_objective objective) }
        requires small { square_side inst ≤ most_side }
        ensures objective { IfOk result (λ session. session.objective ≡ objective) }
        ensures instance { IfOk result (λ session. session.instance ≡ inst) }
    {
        let stands = is_one_to_one(&inst);
        let found = nothing_found(alloc, inst.rows().len() as u32, inst.columns().len())?;
        Ok(SumSession {
            objective,
            inst,
            stands,
            is_known: false,
            found,
        })
    }

    /// The objective.
    pub fn objective(&self) -> Objective
        ensures { result ≡ self.now.objective }
    {
        self.objective
    }

    /// The instance as edited.
    pub fn instance(&self) -> &Instance
        ensures value { result.now ≡ self.now.instance }
        ensures instance { IsInstance self.now.instance }
        ensures narrow { IsTrue (is_narrow_objective self.now.objective) }
        ensures small { square_side self.now.instance ≤ most_side }
    {
        let _rows = self.inst.rows();
        &self.inst
    }

    /// Edits the instance by an edit that isn't refused. The error is want of memory, and then all
    /// is as it was.
    pub fn edit(&mut self, edit: Edit) -> Result<(), NoMemory>
        requires { refusal_of self.old.objective self.old.instance edit ≡ None }
        ensures objective { self.new.objective ≡ self.old.objective }
        ensures edited { OnOk result (self.new.instance ≡ edited self.old.instance edit) }
        ensures unchanged { OnErr result (self.new ≡ self.old) }
    {
        match edit {
            Edit::Cost { row, col, cost } if self.stands => self.put(row, col, cost),
            _ => self.change(edit),
        }
    }

    // Edits the instance in any way. No sum is told from then on.
    fn change(&mut self, edit: Edit) -> Result<(), NoMemory>
        requires { refusal_of self.old.objective self.old.instance edit ≡ None }
        ensures objective { self.new.objective ≡ self.old.objective }
        ensures edited { OnOk result (self.new.instance ≡ edited self.old.instance edit) }
        ensures unchanged { OnErr result (self.new ≡ self.old) }
    {
        match self.inst.edit(self.objective, edit) {
            Ok(()) => {
                self.stands = false;
                Ok(())
            }
            Err(_) => Err(AllocError),
        }
    }

    // Gives a cell a cost. What was found goes on to hold.
    fn put(&mut self, row: u32, col: u32, cost: Cost) -> Result<(), NoMemory>
        requires { refusal_of self.old.objective self.old.instance (SetCost row col cost) ≡ None }
        ensures objective { self.new.objective ≡ self.old.objective }
        ensures edited { OnOk result
            (self.new.instance ≡ edited self.old.instance (SetCost row col cost)) }
        ensures unchanged { OnErr result (self.new ≡ self.old) }
    {
        let edit = Edit::Cost { row, col, cost };
        let (Some(r), Some(c)) = (self.inst.row_place(row), self.inst.column_place(col)) else {
            return self.change(edit);
        };
        if !self.stands {
            return self.change(edit);
        }
        match self.inst.edit(self.objective, edit) {
            Ok(()) => {
                self.is_known = follow(self.objective, &mut self.found, self.is_known, r, c, cost);
                Ok(())
            }
            Err(_) => Err(AllocError),
        }
    }

    // Looks for a choice that is best, where none is known.
    fn settle(&mut self, alloc: Global) -> Result<(), NoMemory>
        ensures { self.new ≡ self.old }
    {
        if !self.stands || self.is_known {
            return Ok(());
        }
        match found_from(alloc, self.objective, &self.inst, &self.found)? {
            Some(found) => {
                self.found = found;
                self.is_known = true;
            }
            None => self.stands = false,
        }
        Ok(())
    }

    /// The sum of the best choices of the instance as edited; `None` where it isn't told: where no
    /// choice is valid, where not each row is placed or a column takes more than one, after an edit
    /// that doesn't give a cost, and where a test failed. The error is want of memory.
    pub fn best_sum(&mut self, alloc: Global) -> Result<Option<i128>, NoMemory>
        ensures same { self.new ≡ self.old }
        ensures sum { IfOk result (λ found. IfSome found
            (IsBestSum self.new.objective self.new.instance)) }
        ensures all { IfOk result (λ found. OnSome found
            (placed self.new.instance ≡ length self.new.instance.rows)) }
    {
        self.settle(alloc)?;
        Ok(self.known_sum())
    }

    // The sum of the best choices, where it is known.
    fn known_sum(&self) -> Option<i128>
        ensures sum { IfSome result (IsBestSum self.now.objective self.now.instance) }
        ensures all { OnSome result
            (placed self.now.instance ≡ length self.now.instance.rows) }
    {
        let _rows = self.inst.rows();
        if !self.stands {
            return None;
        }
        if !self.is_known {
            return None;
        }
        told(&self.found)
    }
}
