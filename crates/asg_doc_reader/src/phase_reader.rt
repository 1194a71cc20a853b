//! Readers of phases.

ghost use Rattle.std.specs.Prelude.{◌≡◌, ℕ, Bool, true, false, List, IfSome, MatchOption};
ghost use Rattle.asg_order.specs.declared.words.Word.{Word as W};
ghost use Rattle.asg_grammar.specs.Parts.{counted};
ghost use Rattle.asg_grammar.specs.Reading.{ReadsOrFails};
ghost use Rattle.asg_grammar.specs.Spellings.{Spells, SpellsOrFails, ListsNext, listed};
ghost use Rattle.asg_doc_reader.specs.DocumentParts.{step_spelling, steps_part, phase_part};

use asg_grammar::{Fault, Lines, after, cut, graded, next_graded, next_long, wide_number};
use asg_order::Word;
use asg_proof::{Phases, StepWords, WrittenPhase};
use std::alloc::Global;

// The step without a grade that a word spells.
fn plain_step(word: &[u8]) -> Option<Word>
    ensures { Spells (step_spelling false) word.now result }
{
    let amount = wide_number(word)?;
    Some(Word { grade: 0, amount })
}

// The step with a grade that a word spells.
fn graded_step(word: &[u8]) -> Option<Word>
    ensures { Spells (step_spelling true) word.now result }
{
    let (grade, amount) = graded(word)?;
    Some(Word { grade, amount })
}

// The step that a word spells.
fn step_of(has_grades: bool, word: &[u8]) -> Option<Word>
    ensures { Spells (step_spelling has_grades) word.now result }
{
    if has_grades {
        graded_step(word)
    } else {
        plain_step(word)
    }
}

// The step after a space that comes first, by a cut at the next space, and what follows it.
fn next_cut(has_grades: bool, text: &[u8]) -> Option<(Word, &[u8])>
    ensures { MatchOption result
        ((step : W) (rest : List ℕ) → ListsNext (step_spelling has_grades) text.now step rest → ⊥)
        (λ parts. ListsNext (step_spelling has_grades) text.now parts.0 parts.1.now) }
{
    let (word, rest) = cut(b' ', after(b" ", text)?);
    Some((step_of(has_grades, word)?, rest))
}

// The step without a grade after a space that comes first, and what follows it: some only where it
// has at most 18 digits. It is read in one pass.
fn short_plain_step(text: &[u8]) -> Option<(Word, &[u8])>
    ensures { IfSome result
        (λ parts. ListsNext (step_spelling false) text.now parts.0 parts.1.now) }
{
    let (amount, rest) = next_long(text)?;
    let step = Word {
        grade: 0,
        amount: u128::from(amount),
    };
    Some((step, rest))
}

// The step with a grade after a space that comes first, and what follows it: some only where each
// of its numbers has at most 18 digits. It is read in one pass.
fn short_graded_step(text: &[u8]) -> Option<(Word, &[u8])>
    ensures { IfSome result
        (λ parts. ListsNext (step_spelling true) text.now parts.0 parts.1.now) }
{
    let ((grade, amount), rest) = next_graded(text)?;
    let amount = u128::from(amount);
    Some((Word { grade, amount }, rest))
}

// The step without a grade after a space that comes first, and what follows it.
fn next_plain_step(text: &[u8]) -> Option<(Word, &[u8])>
    ensures { MatchOption result
        ((step : W) (rest : List ℕ) → ListsNext (step_spelling false) text.now step rest → ⊥)
        (λ parts. ListsNext (step_spelling false) text.now parts.0 parts.1.now) }
{
    if let Some(parts) = short_plain_step(text) {
        return Some(parts);
    }
    next_cut(false, text)
}

// The step with a grade after a space that comes first, and what follows it.
fn next_graded_step(text: &[u8]) -> Option<(Word, &[u8])>
    ensures { MatchOption result
        ((step : W) (rest : List ℕ) → ListsNext (step_spelling true) text.now step rest → ⊥)
        (λ parts. ListsNext (step_spelling true) text.now parts.0 parts.1.now) }
{
    if let Some(parts) = short_graded_step(text) {
        return Some(parts);
    }
    next_cut(true, text)
}

// The step after a space that comes first, and what follows it.
fn next_step(has_grades: bool, text: &[u8]) -> Option<(Word, &[u8])>
    ensures { MatchOption result
        ((step : W) (rest : List ℕ) → ListsNext (step_spelling has_grades) text.now step rest → ⊥)
        (λ parts. ListsNext (step_spelling has_grades) text.now parts.0 parts.1.now) }
{
    if has_grades {
        next_graded_step(text)
    } else {
        next_plain_step(text)
    }
}

// The steps that a text lists, each after a space: at least one. They alone take memory.
fn steps_of(alloc: Global, has_grades: bool, text: &[u8]) -> Result<StepWords, Fault>
    ensures { SpellsOrFails (listed (step_spelling has_grades)) text.now result }
{
    let mut steps = StepWords::none(alloc);
    let mut rest = text;
    'listed: while let Some((step, left)) = next_step(has_grades, rest) {
        steps.push(step)?;
        rest = left;
    }
    if steps.is_empty() || !rest.is_empty() {
        return Err(Fault::Refused);
    }
    steps.shrink();
    Ok(steps)
}

// The line of steps.
fn steps(alloc: Global, has_grades: bool, lines: &mut Lines) -> Result<StepWords, Fault>
    ensures { ReadsOrFails (steps_part has_grades) lines.old lines.new result }
{
    let (text, left) = lines.next_behind(b"steps")?;
    let steps = steps_of(alloc, has_grades, text)?;
    *lines = left;
    Ok(steps)
}

// A phase: its three lines.
fn phase(alloc: Global, has_grades: bool, lines: &mut Lines) -> Result<WrittenPhase, Fault>
    ensures { ReadsOrFails (phase_part has_grades) lines.old lines.new result }
{
    let steps = steps(alloc, has_grades, lines)?;
    let enters = lines.numbers(alloc, b"enters")?;
    let leaves = lines.numbers(alloc, b"leaves")?;
    let phase = WrittenPhase::of(steps, enters.into_vec(), leaves.into_vec())?;
    Ok(phase)
}

// As many phases as the count says. The count takes no memory, only the phases that are read.
pub(crate) fn phases(
    alloc: Global,
    has_grades: bool,
    count: u32,
    lines: &mut Lines,
) -> Result<Phases, Fault>
    ensures { ReadsOrFails (counted count (phase_part has_grades)) lines.old lines.new result }
{
    let mut phases = Vec::new(alloc);
    for _ in 0..count {
        phases.push(phase(alloc, has_grades, lines)?)?;
    }
    phases.shrink_to_fit();
    let phases = Phases::from_vec(phases)?;
    Ok(phases)
}
