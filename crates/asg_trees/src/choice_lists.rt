//! Lists of valid choices.

ghost use Rattle.std.specs.Prelude.{◌≡◌, ◌<◌, ◌^◌, ◌*◌, ◌-◌, ◌++◌, ◌∷◌, [], Some, IfOk, IfSome, All, length, map, slice_get};
ghost use Rattle.asg_model.specs.Instances.{IsInstance};
ghost use Rattle.asg_model.specs.ValidChoice.{IsValid};
ghost use Rattle.asg_trees.specs.ChoiceLists.{choices_in, chosen_by, number_of};

use crate::NoMemory;
use asg_model::{Choice, Instance};
use std::alloc::Global;
use std::marker::Model;

// The number that says what a row chooses.
fn number_of(chosen: Option<u32>) -> u32
    requires { IfSome chosen (λ column. column < 2 ^ 32 - 1) }
    ensures { result ≡ number_of chosen }
{
    match chosen {
        Some(column) => column + 1,
        None => 0,
    }
}

// What a number says that a row chooses.
fn chosen_by(number: u32) -> Option<u32>
    ensures { result ≡ chosen_by number }
{
    if number == 0 { None } else { Some(number - 1) }
}

// Numbers, and behind them those of a choice. The error is want of memory.
fn with_numbers(numbers: Vec<u32>, inst: &Instance, choice: &Choice) -> Result<Vec<u32>, NoMemory>
    requires instance { IsInstance inst.now }
    requires valid { IsValid inst.now choice.now }
    ensures { IfOk result (λ more. more.items ≡ numbers.items ++ map number_of choice.now) }
{
    let mut more = numbers;
    for row in 0..choice.len() {
        more.push(number_of(choice.get(row)))?;
    }
    Ok(more)
}

// The choice that numbers say. The error is want of memory.
fn choice_by(alloc: Global, numbers: &[u32]) -> Result<Choice, NoMemory>
    requires { length numbers.now < 2 ^ 32 }
    ensures { IfOk result (λ choice. choice ≡ map chosen_by numbers.now) }
{
    let mut choice = Choice::make(alloc, numbers.len() as u32)?;
    for row in 0..numbers.len() {
        choice.set(row as u32, chosen_by(numbers[row]));
    }
    Ok(choice)
}

// Of the numbers of so many choices those of the one at a place.
fn numbers_at(numbers: &[u32], rows: u32, count: usize, place: usize) -> &[u32]
    requires whole { length numbers.now ≡ count * rows }
    requires below { place < count }
    ensures rows { length result.now ≡ rows }
    ensures choice { slice_get (choices_in rows count numbers.now) place
        ≡ Some (map chosen_by result.now) }
{
    let from = place * rows as usize;
    &numbers[from..from + rows as usize]
}

/// Valid choices of an instance. They take a number of 32 bits for each row of each choice, and no
/// memory of their own.
#[derive(Debug, Drop)]
pub struct Choices {
    rows: u32,
    count: usize,
    numbers: Vec<u32>,
}

impl Model for Choices {
    ghost use Rattle.std.specs.Prelude.{List, Option, ℕ};

    ghost Value = { List (List (Option ℕ)) };

    ghost use Rattle.asg_trees.specs.ChoiceLists.{choices_in, AreNumbersOf};

    ghost view = { λ c. choices_in c.rows c.count c.numbers.items };

    ghost invariant = { λ c. AreNumbersOf c.rows c.count c.numbers.items };
}

impl Choices {
    /// No choice yet, with room for so many of so many rows. The error is want of memory.
    pub fn with_room(alloc: Global, rows: u32, count: usize) -> Result<Choices, NoMemory>
        ensures { IfOk result (λ choices. choices ≡ []) }
    {
        let numbers = Vec::with_capacity(alloc, (rows as usize).saturating_mul(count))?;
        Ok(Choices {
            rows,
            count: 0,
            numbers,
        })
    }

    /// The same choices and one more, all of them valid ones of an instance. The error is want of
    /// memory.
    pub fn with(self, inst: &Instance, choice: &Choice) -> Result<Choices, NoMemory>
        requires all { All (IsValid inst.now) self }
        requires valid { IsValid inst.now choice.now }
        ensures { IfOk result (λ more. more ≡ self ++ (choice.now ∷ [])) }
    {
        // What each instance keeps is told by a reader.
        let _ = inst.rows();
        let Choices { count, numbers, .. } = self;
        let numbers = with_numbers(numbers, inst, choice)?;
        Ok(Choices {
            rows: choice.len(),
            count: count + 1,
            numbers,
        })
    }

    /// The number of choices.
    pub fn len(&self) -> usize
        ensures count { result ≡ length self.now }
        ensures few { result < 2 ^ 63 }
    {
        self.count
    }

    /// The choice at a place. The error is want of memory.
    pub fn choice(&self, alloc: Global, place: usize) -> Result<Choice, NoMemory>
        requires { place < length self.now }
        ensures { IfOk result (λ choice. slice_get self.now place ≡ Some choice) }
    {
        choice_by(
            alloc,
            numbers_at(self.numbers.as_slice(), self.rows, self.count, place),
        )
    }
}
