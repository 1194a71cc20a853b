//! Outcomes of `pair` by the costs as they stand, without a square.

ghost use Rattle.std.specs.Prelude.{◌≤◌, IfOk, IfSome};
ghost use Rattle.asg_model.specs.declared.objectives.Objective.TheVariants.{SumPair};
ghost use Rattle.asg_model.specs.Limits.{most_side};
ghost use Rattle.asg_model.specs.Refused.{PassesNegative};
ghost use Rattle.asg_model.specs.Shapes.{square_side};
ghost use Rattle.asg_proof.specs.Outcomes.{IsOutcome};
ghost use Rattle.asg_proof.specs.PromisedProofs.{GivesFewPhases};

use crate::NoMemory;
use crate::table_outcomes::proved_outcome;
use asg_duals::{Duals, short_phases, with_marks_of};
use asg_model::limits::MOST_COST;
use asg_model::{Cost, Instance, Objective};
use asg_proof::{Outcome, Phase};
use asg_table_sums::{PairLead, PairRanges, choice_of, pair_lead};
use std::alloc::Global;

// What the first part of a pair is multiplied by, before its second part is added.
const FIRST_UNIT: i128 = 1 << 42;

// How three parts stand in one number of 64 bits: how often the least cost, a first part and a
// second part.
#[derive(Clone, Copy)]
struct Digits {
    second_bits: u32,
    first_bits: u32,
}

// By how many binary digits numbers are told that come to so much on a side of so many.
fn bits_for(side: usize, width: i64) -> u32 {
    let most = (side as u64).saturating_mul(width.unsigned_abs());
    64u32.wrapping_sub(most.leading_zeros()).wrapping_add(5)
}

impl Digits {
    // Those for a lead; `None` where 64 bits don't hold them.
    fn of(lead: &PairLead) -> Option<Digits> {
        let side = lead.columns.len();
        let second_bits = bits_for(side, lead.ranges.second_width);
        let first_bits = bits_for(side, lead.ranges.first_width);
        if second_bits.wrapping_add(first_bits) > 58 {
            return None;
        }
        Some(Digits {
            second_bits,
            first_bits,
        })
    }

    // The number with these parts.
    fn joined(self, times: i64, first: i64, second: i64) -> u64 {
        let firsts = times.wrapping_shl(self.first_bits).wrapping_add(first);
        let number = firsts.wrapping_shl(self.second_bits).wrapping_add(second);
        number.cast_unsigned()
    }

    // The number without its last part, and this part, which is the nearer to 0 of the two that it
    // may be.
    fn cut(number: i64, bits: u32) -> (i64, i64) {
        let half = 1i64.wrapping_shl(bits) / 2;
        let rest = number.wrapping_add(half).wrapping_shr(bits);
        (rest, number.wrapping_sub(rest.wrapping_shl(bits)))
    }

    // The sum as which these parts enter for `pair`.
    fn entered(self, number: u64, ranges: &PairRanges) -> u128 {
        let (firsts, second) = Digits::cut(number.cast_signed(), self.second_bits);
        let (times, first) = Digits::cut(firsts, self.first_bits);
        let first_least = i128::from(ranges.first.wrapping_add(MOST_COST));
        let second_least = i128::from(ranges.second.wrapping_add(MOST_COST));
        let firsts = i128::from(times)
            .wrapping_mul(first_least)
            .wrapping_add(i128::from(first));
        let seconds = i128::from(times)
            .wrapping_mul(second_least)
            .wrapping_add(i128::from(second));
        firsts
            .wrapping_mul(FIRST_UNIT)
            .wrapping_add(seconds)
            .cast_unsigned()
    }
}

// The number at a place, 0 outside.
fn number_at(numbers: &[i64], place: usize) -> i64 {
    if place < numbers.len() {
        numbers[place]
    } else {
        0
    }
}

// By how much each column may rise, as one number.
fn rises_of(alloc: Global, lead: &PairLead, digits: Digits) -> Result<Vec<u64>, NoMemory> {
    let mut rises = Vec::with_capacity(alloc, lead.columns.len())?;
    for column in 0..lead.columns.len() {
        let first = number_at(lead.firsts.as_slice(), column);
        let second = number_at(lead.seconds.as_slice(), column);
        rises.push(digits.joined(0, first, second))?;
    }
    Ok(rises)
}

// By how much a row may fall that has its cell of this cost in a column, as one number.
fn fall_of(lead: &PairLead, digits: Digits, column: usize, cost: Cost) -> u64 {
    let first = number_at(lead.firsts.as_slice(), column);
    let second = number_at(lead.seconds.as_slice(), column);
    let first = cost.a.wrapping_sub(lead.ranges.first).wrapping_add(first);
    let second = cost.b.wrapping_sub(lead.ranges.second).wrapping_add(second);
    digits.joined(1, first, second)
}

// By how much each row may fall, as one number.
fn falls_of(
    alloc: Global,
    inst: &Instance,
    lead: &PairLead,
    digits: Digits,
) -> Result<Vec<u64>, NoMemory> {
    let count = lead.columns.len();
    let mut falls = Vec::with_capacity(alloc, count)?;
    for row in 0..inst.rows().len().min(count) as u32 {
        let column = lead.columns[row as usize];
        let fall = match inst.live(row, column) {
            Some(cost) => fall_of(lead, digits, column as usize, cost),
            None => 0,
        };
        falls.push(fall)?;
    }
    Ok(falls)
}

// A phase whose steps stand for sums of pairs.
fn pair_phase(
    alloc: Global,
    phase: &Phase<u64>,
    digits: Digits,
    ranges: &PairRanges,
) -> Result<Phase<u128>, NoMemory> {
    let mut steps = Vec::with_capacity(alloc, phase.steps().len())?;
    for step in phase.steps() {
        steps.push(digits.entered(*step, ranges))?;
    }
    with_marks_of(alloc, steps, phase)
}

// Phases by what the columns of a lead may rise.
fn pair_phases(
    alloc: Global,
    inst: &Instance,
    lead: &PairLead,
    digits: Digits,
) -> Result<Vec<Phase<u128>>, NoMemory> {
    let falls = falls_of(alloc, inst, lead, digits)?;
    let rises = rises_of(alloc, lead, digits)?;
    let columns = Vec::from_slice(alloc, lead.columns.as_slice())?;
    let plain = short_phases(alloc, &Duals::of(columns, falls, rises))?;
    let mut phases = Vec::with_capacity(alloc, plain.len())?;
    for k in 0..plain.len() {
        phases.push(pair_phase(alloc, &plain[k], digits, &lead.ranges)?)?;
    }
    Ok(phases)
}

/// The outcome of `pair`, by phases that are guessed and tested over the costs as they stand; `None`
/// where none pass. That is so where a row is inactive, a column is closed or takes several rows, a
/// cell is absent, or the costs are far from one another; no clause says when. The error is want of
/// memory.
pub(crate) fn pair_outcome(alloc: Global, inst: &Instance) -> Result<Option<Outcome>, NoMemory>
    requires side { square_side inst.now ≤ most_side }
    requires passes { PassesNegative SumPair inst.now }
    ensures outcome { IfOk result (λ found. IfSome found (IsOutcome SumPair inst.now)) }
    ensures phases { IfOk result (λ found. IfSome found (GivesFewPhases (square_side inst.now))) }
{
    let Some(lead) = pair_lead(alloc, inst)? else {
        return Ok(None);
    };
    let Some(digits) = Digits::of(&lead) else {
        return Ok(None);
    };
    let rows = inst.rows().len() as u32;
    let columns = lead.columns.as_slice();
    let choice = choice_of(alloc, rows, columns, inst.columns().len())?;
    let phases = pair_phases(alloc, inst, &lead, digits)?;
    proved_outcome(alloc, Objective::SumPair, inst, choice, phases)
}
