//! Phases as documents have them.

ghost use Rattle.std.specs.Prelude.{◌≡◌, ◌++◌, IfOk};
ghost use Rattle.asg_proof.specs.Phases.{phase_of, IsPhase};

use crate::NoMemory;
use crate::step_words::StepWords;
use crate::steps_read::Steps;
use asg_order::Word;
use std::alloc::AllocError;
use std::marker::Model;

/// A [`Phase`](crate::Phase) with each step as its word, as documents have it. A document may have
/// very many phases, or very many steps in one, so the lists are kept in few bytes: but for steps
/// that need long words as one list, of 8 bytes a step and 4 a row and a column.
#[derive(Drop)]
pub struct WrittenPhase {
    steps: u32,
    rows: u32,
    // The two numbers of each step, the steps at which rows enter, and those at which columns leave.
    numbers: Vec<u32>,
    long: Vec<Word>,
}

impl Model for WrittenPhase {
    ghost use Rattle.asg_order.specs.declared.words.Word.{Word as W};
    ghost use Rattle.asg_proof.specs.Phases.{PhaseOf};

    ghost Value = { PhaseOf W };

    ghost use Rattle.asg_proof.specs.WrittenPhases.{told_phase, ArePhaseNumbers};

    ghost view = { λ phase. told_phase phase.steps phase.rows phase.numbers.items
        phase.long.items };

    ghost invariant = { λ phase. ArePhaseNumbers phase.steps phase.rows phase.numbers.items
        phase.long.items };
}

// The numbers, with the others behind them, in no more room than they take. The error is want of
// memory.
fn joined(numbers: Vec<u32>, enters: &[u32], leaves: &[u32]) -> Result<Vec<u32>, NoMemory>
    ensures { IfOk result (λ all. all.items ≡ numbers.items ++ (enters.now ++ leaves.now)) }
{
    let mut numbers = numbers;
    numbers.reserve_exact(enters.len().saturating_add(leaves.len()))?;
    numbers.extend_from_slice(enters)?;
    numbers.extend_from_slice(leaves)?;
    Ok(numbers)
}

// The number in 32 bits. The error is that it doesn't fit.
fn short(count: usize) -> Result<u32, NoMemory>
    ensures { IfOk result (λ short. short ≡ count) }
{
    u32::try_from(count).map_err(|_| AllocError)
}

impl WrittenPhase {
    /// The phase of these three lists. The error is want of memory; 2^32 steps or rows count as
    /// that.
    pub fn of(
        steps: StepWords,
        enters: Vec<u32>,
        leaves: Vec<u32>,
    ) -> Result<WrittenPhase, NoMemory>
        ensures lists { IfOk result
            (λ phase. phase ≡ phase_of steps enters.items leaves.items) }
        ensures phase { IfOk result IsPhase }
    {
        let (numbers, long) = steps.into_lists();
        let steps = short(numbers.len() / 2)?;
        let rows = short(enters.len())?;
        let numbers = joined(numbers, enters.as_slice(), leaves.as_slice())?;
        Ok(WrittenPhase {
            steps,
            rows,
            numbers,
            long,
        })
    }

    /// The steps in order.
    pub fn steps(&self) -> Steps<'_>
        ensures { result ≡ self.now.steps }
    {
        Steps::of(
            &self.numbers[..2 * self.steps as usize],
            self.long.as_slice(),
        )
    }

    /// The step at which each row enters.
    pub fn enters(&self) -> &[u32]
        ensures enters { result.now ≡ self.now.enters }
        ensures phase { IsPhase self.now }
    {
        let marks = &self.numbers[2 * self.steps as usize..];
        &marks[..self.rows as usize]
    }

    /// The step at which each column leaves.
    pub fn leaves(&self) -> &[u32]
        ensures leaves { result.now ≡ self.now.leaves }
        ensures phase { IsPhase self.now }
    {
        let marks = &self.numbers[2 * self.steps as usize..];
        &marks[self.rows as usize..]
    }
}
