//! The phases of a trail, with each step as its word.

ghost use Rattle.std.specs.Prelude.{◌≡◌, ◌++◌, ◌∷◌, [], All, map, IfOk, IfSome};
ghost use Rattle.asg_order.specs.Monoid.{IsValue};
ghost use Rattle.asg_pool.specs.Forest.{IsLive, phases_to};
ghost use Rattle.asg_proof.specs.Phases.{worded, IsPhase};
ghost use Rattle.asg_admit.specs.PhaseValues.{AreOfValues};

use crate::NoMemory;
use asg_order::Written;
use asg_pool::{Region, Trail};
use asg_proof::{Phase, Phases, WrittenPhase, into_words};
use std::alloc::Global;

// Puts a phase behind others, with each step as its word.
fn push_words<M: Written>(
    alloc: Global,
    m: &M,
    words: &mut Vec<WrittenPhase>,
    phase: Phase<M::Value>,
) -> Result<(), NoMemory>
    requires { All (IsValue (M.monoid_of m.now)) phase.steps }
    ensures words { IfOk result (λ _. words.new.items
        ≡ words.old.items ++ worded (M.word_of m.now) phase ∷ []) }
    ensures phase { IfOk result (λ _. IsPhase (worded (M.word_of m.now) phase)) }
{
    let written = into_words(alloc, m, phase)?;
    words.push(written)?;
    Ok(())
}

/// The phases with each step as its word. The error is want of memory.
pub(crate) fn words_of<M: Written>(
    alloc: Global,
    m: &M,
    phases: Vec<Phase<M::Value>>,
) -> Result<Phases, NoMemory>
    requires { AreOfValues (M.monoid_of m.now) phases.items }
    ensures { IfOk result (λ words. words ≡ map (worded (M.word_of m.now)) phases.items) }
{
    let mut words = Vec::with_capacity(alloc, phases.len())?;
    for phase in phases {
        push_words(alloc, m, &mut words, phase)?;
    }
    let phases = Phases::from_vec(words)?;
    Ok(phases)
}

/// The phases of a trail in order, with each step as its word; none where there is no trail. The
/// trail is live, and the steps are values. The region is given away, and the marks of the phases
/// are moved out of it. The error is want of memory.
pub(crate) fn trail_phases<M: Written>(
    alloc: Global,
    m: &M,
    region: Region<M::Value>,
    last: Option<Trail>,
) -> Result<Phases, NoMemory>
    requires live { IfSome last (IsLive region) }
    requires values { AreOfValues (M.monoid_of m.now) (phases_to region last) }
    ensures { IfOk result (λ phases. phases
        ≡ map (worded (M.word_of m.now)) (phases_to region last)) }
{
    let phases = region.into_phases(alloc, last)?;
    words_of(alloc, m, phases)
}
