//! Readers of what a document claims.

ghost use Rattle.asg_grammar.specs.Reading.{Reads, ReadsOrFails};
ghost use Rattle.asg_grammar.specs.Spellings.{SpellsOrFails};
ghost use Rattle.asg_doc_reader.specs.DocumentParts.{status_part, proof_head_spelling, proof_head_part};
ghost use Rattle.asg_doc_reader.specs.DocumentParts.{proof_part, proved_part, hall_part, ended_part};
ghost use Rattle.asg_doc_reader.specs.DocumentParts.{ranking_part, claim_part};

use crate::answer_reader::answer;
use crate::heads::{ProofHead, Status};
use crate::level_reader::levels;
use crate::phase_reader::phases;
use crate::ranking_reader::ranking;
use crate::window_reader::windows;
use crate::words::status_of;
use asg_doc::{Answer, Answers, Claim, has_grades};
use asg_grammar::{Fault, Lines, Refusal, after, number, numbers, positive};
use asg_model::Objective;
use asg_proof::{Ids, Proof};
use asg_rankings::Nodes;
use std::alloc::Global;

// The status of its line.
fn status(lines: &mut Lines) -> Result<Status, Refusal>
    ensures { Reads status_part lines.old lines.new result }
{
    lines.read(b"status ", status_of)
}

// What the first line of a proof says.
fn proof_head_of(alloc: Global, line: &[u8]) -> Result<ProofHead, Fault>
    ensures { SpellsOrFails proof_head_spelling line.now result }
{
    if let Some(count) = after(b"phases ", line) {
        let Some(count) = number(count) else {
            return Err(Fault::Refused);
        };
        return Ok(ProofHead::Phases(count));
    }
    if let Some(rows) = after(b"below", line) {
        let rows = numbers(alloc, rows)?;
        return Ok(ProofHead::Below(Ids::from_vec(rows.into_vec())));
    }
    if let Some(count) = after(b"windows ", line) {
        let Some(count) = number(count) else {
            return Err(Fault::Refused);
        };
        return Ok(ProofHead::Windows(count));
    }
    if let Some(count) = after(b"levels ", line) {
        let Some(count) = positive(count) else {
            return Err(Fault::Refused);
        };
        return Ok(ProofHead::Levels(count));
    }
    Err(Fault::Refused)
}

// The first line of a proof.
fn proof_head(alloc: Global, lines: &mut Lines) -> Result<ProofHead, Fault>
    ensures { ReadsOrFails proof_head_part lines.old lines.new result }
{
    let (text, left) = lines.next_behind(b"proof ")?;
    let head = proof_head_of(alloc, text)?;
    *lines = left;
    Ok(head)
}

// A proof.
fn proof(alloc: Global, objective: Objective, lines: &mut Lines) -> Result<Proof, Fault>
    ensures { ReadsOrFails (proof_part objective) lines.old lines.new result }
{
    match proof_head(alloc, lines)? {
        ProofHead::Phases(count) => {
            let phases = phases(alloc, has_grades(objective), count, lines)?;
            Ok(Proof::Phases(phases))
        }
        ProofHead::Below(rows) => Ok(Proof::Below(rows)),
        ProofHead::Windows(count) => {
            let windows = windows(alloc, count, lines)?;
            Ok(Proof::Windows(windows))
        }
        ProofHead::Levels(count) => {
            let (perm, levels) = levels(alloc, count, lines)?;
            Ok(Proof::Levels { perm, levels })
        }
    }
}

// An answer and its proof.
fn proved(alloc: Global, objective: Objective, lines: &mut Lines) -> Result<(Answer, Proof), Fault>
    ensures { ReadsOrFails (proved_part objective) lines.old lines.new result }
{
    let answer = answer(alloc, b"value", objective, lines)?;
    let proof = proof(alloc, objective, lines)?;
    Ok((answer, proof))
}

// The rows of a Hall set.
fn hall(alloc: Global, lines: &mut Lines) -> Result<Ids, Fault>
    ensures { ReadsOrFails hall_part lines.old lines.new result }
{
    Ok(Ids::from_vec(lines.numbers(alloc, b"hall")?.into_vec()))
}

// An answer and its proof, and the last line.
fn best(alloc: Global, objective: Objective, lines: &mut Lines) -> Result<(Answer, Proof), Fault>
    ensures { ReadsOrFails (ended_part (proved_part objective)) lines.old lines.new result }
{
    let proved = proved(alloc, objective, lines)?;
    lines.pass(b"end")?;
    Ok(proved)
}

// The rows of a Hall set, and the last line.
fn nothing(alloc: Global, lines: &mut Lines) -> Result<Ids, Fault>
    ensures { ReadsOrFails (ended_part hall_part) lines.old lines.new result }
{
    let rows = hall(alloc, lines)?;
    lines.pass(b"end")?;
    Ok(rows)
}

// A ranking, and the last line.
fn ranked(
    alloc: Global,
    objective: Objective,
    lines: &mut Lines,
) -> Result<(u32, (Answers, Nodes)), Fault>
    ensures { ReadsOrFails (ended_part (ranking_part objective)) lines.old lines.new result }
{
    let ranking = ranking(alloc, objective, lines)?;
    lines.pass(b"end")?;
    Ok(ranking)
}

// What a document claims, with its last line.
pub(crate) fn claim(alloc: Global, objective: Objective, lines: &mut Lines) -> Result<Claim, Fault>
    ensures { ReadsOrFails (claim_part objective) lines.old lines.new result }
{
    match status(lines)? {
        Status::Best => {
            let (answer, proof) = best(alloc, objective, lines)?;
            Ok(Claim::Best { answer, proof })
        }
        Status::Nothing => {
            let rows = nothing(alloc, lines)?;
            Ok(Claim::Nothing { rows })
        }
        Status::Ranked => {
            let (count, (answers, nodes)) = ranked(alloc, objective, lines)?;
            Ok(Claim::Ranked {
                count,
                answers,
                nodes,
            })
        }
    }
}
