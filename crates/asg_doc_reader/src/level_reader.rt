//! Readers of level proofs: an assignment and levels of costs.

ghost use Rattle.std.specs.Prelude.{ℕ, List, MatchOption};
ghost use Rattle.asg_grammar.specs.Parts.{and_then, counted};
ghost use Rattle.asg_grammar.specs.Reading.{Reads, ReadsOrFails};
ghost use Rattle.asg_grammar.specs.Spellings.{Spells, SpellsOrFails, ListsNext, listed};
ghost use Rattle.asg_doc_reader.specs.DocumentParts.{column_spelling, perm_part, level_head_spelling};
ghost use Rattle.asg_doc_reader.specs.DocumentParts.{level_head_part, level_part};

use crate::phase_reader::phases;
use crate::window_reader::bound_of;
use asg_grammar::{Fault, Lines, Refusal, after, cut, pair, positive};
use asg_proof::{Columns, Level, Levels};
use std::alloc::Global;

// The column that a word spells, from 1 on.
fn column_of(word: &[u8]) -> Option<u32>
    ensures { Spells column_spelling word.now result }
{
    let number = positive(word)?;
    Some(number - 1)
}

// The column after a space that comes first, and what follows it.
fn next_column(text: &[u8]) -> Option<(u32, &[u8])>
    ensures { MatchOption result
        ((column : ℕ) (rest : List ℕ) → ListsNext column_spelling text.now column rest → ⊥)
        (λ parts. ListsNext column_spelling text.now parts.0 parts.1.now) }
{
    let (word, rest) = cut(b' ', after(b" ", text)?);
    Some((column_of(word)?, rest))
}

// The columns that a text lists, each after a space: at least one. They alone take memory.
fn columns_of(alloc: Global, text: &[u8]) -> Result<Columns, Fault>
    ensures { SpellsOrFails (listed column_spelling) text.now result }
{
    let mut columns = Vec::new(alloc);
    let mut rest = text;
    'listed: while let Some((column, left)) = next_column(rest) {
        columns.push(column)?;
        rest = left;
    }
    if columns.is_empty() || !rest.is_empty() {
        return Err(Fault::Refused);
    }
    columns.shrink_to_fit();
    Ok(Columns::from_vec(columns))
}

// An assignment: the line of its columns.
fn perm(alloc: Global, lines: &mut Lines) -> Result<Columns, Fault>
    ensures { ReadsOrFails perm_part lines.old lines.new result }
{
    let (text, left) = lines.next_behind(b"perm")?;
    let columns = columns_of(alloc, text)?;
    *lines = left;
    Ok(columns)
}

// The cost, the count and the number of phases that a text spells.
fn level_head_of(text: &[u8]) -> Option<(i64, (u32, u32))>
    ensures { Spells level_head_spelling text.now result }
{
    let (cost, rest) = cut(b' ', text);
    let counts = pair(after(b" ", rest)?)?;
    Some((bound_of(cost)?, counts))
}

// The first line of a level.
fn level_head(lines: &mut Lines) -> Result<(i64, (u32, u32)), Refusal>
    ensures { Reads level_head_part lines.old lines.new result }
{
    lines.read(b"level ", level_head_of)
}

// A level: its first line, and as many phases as that says.
fn level(alloc: Global, lines: &mut Lines) -> Result<Level, Fault>
    ensures { ReadsOrFails level_part lines.old lines.new result }
{
    let (cost, (count, number)) = level_head(lines)?;
    let phases = phases(alloc, false, number, lines)?;
    Ok(Level {
        cost,
        count,
        phases,
    })
}

// As many levels as the count says. The count takes no memory, only the levels that are read.
fn level_list(alloc: Global, count: u32, lines: &mut Lines) -> Result<Levels, Fault>
    ensures { ReadsOrFails (counted count level_part) lines.old lines.new result }
{
    let mut levels = Vec::new(alloc);
    for _ in 0..count {
        levels.push(level(alloc, lines)?)?;
    }
    Ok(Levels::from_vec(levels))
}

// An assignment, and as many levels as the count says.
pub(crate) fn levels(
    alloc: Global,
    count: u32,
    lines: &mut Lines,
) -> Result<(Columns, Levels), Fault>
    ensures { ReadsOrFails (and_then perm_part (λ _. counted count level_part)) lines.old
        lines.new result }
{
    let perm = perm(alloc, lines)?;
    let levels = level_list(alloc, count, lines)?;
    Ok((perm, levels))
}
