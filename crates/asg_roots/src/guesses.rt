//! Few phases that may solve the square of an instance, guessed.

use crate::NoMemory;
use asg_duals::{Guess, capped_guess, grade_guess, pair_guess, peak_guess, sum_guess};
use asg_kept::Keeps;
use asg_model::Objective;
use asg_monoids::{Bounded, Graded, Greatest, NarrowSums};
use asg_square::Square;
use std::alloc::Global;

/// The monoids of the objectives, each with the way to guess few phases that solve its squares.
pub trait RootGuess: Keeps {
    /// Phases and a column for each row that may solve the square of an instance whose live costs
    /// entered for the objective; `None` where none are guessed. No clause says that they solve it.
    /// The error is want of memory.
    fn guess(
        &self,
        alloc: Global,
        objective: Objective,
        square: &Square<Self::Value>,
    ) -> Result<Option<Guess<Self::Value>>, NoMemory>;
}

impl RootGuess for NarrowSums {
    fn guess(
        &self,
        alloc: Global,
        _objective: Objective,
        square: &Square<u64>,
    ) -> Result<Option<Guess<u64>>, NoMemory> {
        sum_guess(alloc, square)
    }
}

impl RootGuess for Bounded {
    fn guess(
        &self,
        alloc: Global,
        objective: Objective,
        square: &Square<u128>,
    ) -> Result<Option<Guess<u128>>, NoMemory> {
        // Where no sum comes to the top, it cuts none.
        match objective {
            Objective::SumPair => pair_guess(alloc, square),
            _ => capped_guess(alloc, square, self.top),
        }
    }
}

impl RootGuess for Greatest {
    fn guess(
        &self,
        alloc: Global,
        _objective: Objective,
        square: &Square<u64>,
    ) -> Result<Option<Guess<u64>>, NoMemory> {
        peak_guess(alloc, square)
    }
}

impl RootGuess for Graded<Bounded> {
    fn guess(
        &self,
        alloc: Global,
        _objective: Objective,
        square: &Square<(u64, u128)>,
    ) -> Result<Option<Guess<(u64, u128)>>, NoMemory> {
        grade_guess(alloc, square)
    }
}
