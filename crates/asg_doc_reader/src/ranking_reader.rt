//! Readers of rankings: how many answers were asked for, those listed, and their search tree.

ghost use Rattle.std.specs.Prelude.{codes};
ghost use Rattle.asg_grammar.specs.Parts.{counted};
ghost use Rattle.asg_grammar.specs.Reading.{Reads, ReadsOrFails};
ghost use Rattle.asg_doc_reader.specs.DocumentParts.{asked_part, answer_part, answers_part, ranked_part};
ghost use Rattle.asg_doc_reader.specs.DocumentParts.{ranking_part};

use crate::answer_reader::answer;
use crate::node_reader::tree;
use crate::words::asked_of;
use asg_doc::{Answers, has_grades};
use asg_grammar::{Fault, Lines, Refusal};
use asg_model::Objective;
use asg_rankings::Nodes;
use std::alloc::Global;

// How many answers were asked for.
fn asked(lines: &mut Lines) -> Result<u32, Refusal>
    ensures { Reads asked_part lines.old lines.new result }
{
    lines.read(b"count ", asked_of)
}

// As many answers as the count says. The count takes no memory, only the answers that are read.
fn answer_list(
    alloc: Global,
    objective: Objective,
    count: u32,
    lines: &mut Lines,
) -> Result<Answers, Fault>
    ensures { ReadsOrFails (counted count (answer_part (codes "answer") objective)) lines.old
        lines.new result }
{
    let mut answers = Vec::new(alloc);
    for _ in 0..count {
        answers.push(answer(alloc, b"answer", objective, lines)?)?;
    }
    answers.shrink_to_fit();
    Ok(Answers::from_vec(answers))
}

// Listed answers: how many they are, and each.
fn answers(alloc: Global, objective: Objective, lines: &mut Lines) -> Result<Answers, Fault>
    ensures { ReadsOrFails (answers_part objective) lines.old lines.new result }
{
    let count = lines.positive(b"answers ")?;
    let answers = answer_list(alloc, objective, count, lines)?;
    Ok(answers)
}

// Listed answers and their tree.
fn ranked(alloc: Global, objective: Objective, lines: &mut Lines) -> Result<(Answers, Nodes), Fault>
    ensures { ReadsOrFails (ranked_part objective) lines.old lines.new result }
{
    let answers = answers(alloc, objective, lines)?;
    let nodes = tree(alloc, has_grades(objective), lines)?;
    Ok((answers, nodes))
}

// A ranking.
pub(crate) fn ranking(
    alloc: Global,
    objective: Objective,
    lines: &mut Lines,
) -> Result<(u32, (Answers, Nodes)), Fault>
    ensures { ReadsOrFails (ranking_part objective) lines.old lines.new result }
{
    let count = asked(lines)?;
    let ranked = ranked(alloc, objective, lines)?;
    Ok((count, ranked))
}
