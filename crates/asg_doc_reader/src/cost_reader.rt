//! Readers of values that list costs.

ghost use Rattle.std.specs.Prelude.{ℕ, ℤ, List, MatchOption};
ghost use Rattle.asg_grammar.specs.Spellings.{SpellsOrFails, ListsNext, listed};
ghost use Rattle.asg_doc_reader.specs.DocumentParts.{bound_spelling};

use crate::window_reader::bound_of;
use asg_grammar::{Fault, after, cut};
use asg_model::Costs;
use std::alloc::Global;

// The cost after a space that comes first, and what follows it.
fn next_cost(text: &[u8]) -> Option<(i64, &[u8])>
    ensures { MatchOption result
        ((cost : ℤ) (rest : List ℕ) → ListsNext bound_spelling text.now cost rest → ⊥)
        (λ parts. ListsNext bound_spelling text.now parts.0 parts.1.now) }
{
    let (word, rest) = cut(b' ', after(b" ", text)?);
    Some((bound_of(word)?, rest))
}

// The costs that a text lists, each after a space: at least one. They alone take memory.
pub(crate) fn costs_of(alloc: Global, text: &[u8]) -> Result<Costs, Fault>
    ensures { SpellsOrFails (listed bound_spelling) text.now result }
{
    let mut costs = Vec::new(alloc);
    let mut rest = text;
    'listed: while let Some((cost, left)) = next_cost(rest) {
        costs.push(cost)?;
        rest = left;
    }
    if costs.is_empty() || !rest.is_empty() {
        return Err(Fault::Refused);
    }
    costs.shrink_to_fit();
    Ok(Costs::from_vec(costs))
}
