//! Ranked answers: the first that spells no choice, that has another value than its choice, that is
//! repeated or that is out of order, and the choices that their cells spell.

ghost use Rattle.std.specs.Prelude.{◌≡◌, ◌⊎◌, ◌↔◌, ◌<◌, ℕ, false, None, IsTrue, IfOk, length};
ghost use Rattle.asg_model.specs.Better.{IsBetter};
ghost use Rattle.asg_model.specs.Instances.{IsInstance};
ghost use Rattle.asg_model.specs.ValidChoice.{IsValid};
ghost use Rattle.asg_model.specs.Values.{choice_value};
ghost use Rattle.asg_check.specs.RankingReasons.{IsAmissAt, IsNoChoiceAt, IsOutOfOrderAt};
ghost use Rattle.asg_check.specs.RankingReasons.{IsRepeatedAt};
ghost use Rattle.asg_verdicts.specs.Spots.{IsFirstPart};
ghost use Rattle.asg_check.specs.Written.{AreWrittenAs, EachSpells, HasItsValue, HasWrongValue};
ghost use Rattle.asg_check.specs.Written.{SpellChoice, SpellNone};

use crate::NoMemory;
use crate::written_choices::{spelled_choice, written_choice};
use crate::written_values::is_same_value;
use asg_doc::Answer;
use asg_model::{Choice, Instance, Objective};
use asg_trees::Choices;
use asg_values::{better, value};
use std::alloc::Global;
use std::collections::BTreeSet;

// Whether the answer's value is that of its choice. The error is want of memory.
fn has_value(
    alloc: Global,
    objective: Objective,
    inst: &Instance,
    answer: &Answer,
    choice: &Choice,
) -> Result<bool, NoMemory>
    requires { IsValid inst.now choice.now }
    ensures { IfOk result (λ is. IsTrue is
        ↔ (answer.now.value ≡ choice_value objective inst.now choice.now)) }
{
    let right = value(alloc, objective, inst, choice)?;
    Ok(is_same_value(&answer.value, &right))
}

// Whether the answer's cells spell a valid choice whose value it has. The error is want of memory.
fn has_its_value(
    alloc: Global,
    objective: Objective,
    inst: &Instance,
    answer: &Answer,
) -> Result<bool, NoMemory>
    ensures right { IfOk result (λ is. IsTrue is → HasItsValue objective inst.now answer.now) }
    ensures wrong { IfOk result (λ is. is ≡ false →
        SpellNone inst.now answer.now.cells ⊎ HasWrongValue objective inst.now answer.now) }
{
    match written_choice(alloc, inst, answer.cells.as_slice())? {
        Some(choice) => has_value(alloc, objective, inst, answer, &choice),
        None => Ok(false),
    }
}

// The place of the first answer that spells no choice or has another value than its choice. One
// choice is kept at a time. The error is want of memory.
pub(crate) fn first_amiss(
    alloc: Global,
    objective: Objective,
    inst: &Instance,
    answers: &[Answer],
) -> Result<Option<usize>, NoMemory>
    requires { IsInstance inst.now }
    ensures first { IfOk result (IsFirstPart (IsAmissAt objective inst.now answers.now)
        (length answers.now)) }
    ensures none { IfOk result (λ found. found ≡ None → EachSpells inst.now answers.now) }
{
    for place in 0..answers.len() {
        if !has_its_value(alloc, objective, inst, &answers[place])? {
            return Ok(Some(place));
        }
    }
    Ok(None)
}

// Whether the answer's cells spell a valid choice. The error is want of memory.
fn spells(alloc: Global, inst: &Instance, answer: &Answer) -> Result<bool, NoMemory>
    ensures some { IfOk result (λ is. IsTrue is → SpellChoice inst.now answer.now.cells) }
    ensures none { IfOk result (λ is. is ≡ false → SpellNone inst.now answer.now.cells) }
{
    let choice = written_choice(alloc, inst, answer.cells.as_slice())?;
    Ok(choice.is_some())
}

// The place of the first answer that spells no choice, where none before a place does. One choice
// is kept at a time. The error is want of memory.
pub(crate) fn first_unspelled(
    alloc: Global,
    inst: &Instance,
    answers: &[Answer],
    from: usize,
) -> Result<Option<usize>, NoMemory>
    requires { (m : ℕ) → m < from → ¬ IsNoChoiceAt inst.now answers.now m }
    ensures { IfOk result (IsFirstPart (IsNoChoiceAt inst.now answers.now) (length answers.now)) }
{
    for place in from..answers.len() {
        if !spells(alloc, inst, &answers[place])? {
            return Ok(Some(place));
        }
    }
    Ok(None)
}

// The choices that the answers spell. The error is want of memory.
pub(crate) fn read_choices(
    alloc: Global,
    inst: &Instance,
    answers: &[Answer],
) -> Result<Choices, NoMemory>
    requires instance { IsInstance inst.now }
    requires each { EachSpells inst.now answers.now }
    ensures { IfOk result (λ choices. AreWrittenAs inst.now answers.now choices) }
{
    let mut choices = Choices::with_room(alloc, inst.rows().len() as u32, answers.len())?;
    for place in 0..answers.len() {
        let choice = spelled_choice(alloc, inst, answers[place].cells.as_slice())?;
        choices = choices.with(inst, &choice)?;
    }
    Ok(choices)
}

// The place of the first answer that has the cells of an earlier one. The time is that of sorting
// the answers. The error is want of memory.
pub(crate) fn first_repeated(alloc: Global, answers: &[Answer]) -> Result<Option<usize>, NoMemory>
    ensures { IfOk result (IsFirstPart (IsRepeatedAt answers.now) (length answers.now)) }
{
    let mut seen = BTreeSet::new(alloc);
    for place in 0..answers.len() {
        if !seen.insert(answers[place].cells.as_slice())? {
            return Ok(Some(place));
        }
    }
    Ok(None)
}

// Whether an answer is better than another.
fn is_better(objective: Objective, answer: &Answer, other: &Answer) -> bool
    ensures { IsTrue result ↔ IsBetter objective answer.now.value other.now.value }
{
    better(objective, &answer.value, &other.value)
}

// The place of the first answer that is better than the one before it.
pub(crate) fn first_out_of_order(objective: Objective, answers: &[Answer]) -> Option<usize>
    ensures { IsFirstPart (IsOutOfOrderAt objective answers.now) (length answers.now) result }
{
    for place in 1..answers.len() {
        if is_better(objective, &answers[place], &answers[place - 1]) {
            return Some(place);
        }
    }
    None
}
