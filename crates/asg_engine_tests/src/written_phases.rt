//! Phases in words, and as documents have them.

ghost use Rattle.std.specs.Prelude.{◌≡◌, [], ◌∷◌, IfOk};
ghost use Rattle.asg_proof.specs.Phases.{IsPhase};

use asg_monoids::Greatest;
use asg_order::Word;
use asg_proof::{Phase, StepWords, Steps, WrittenPhase, words};
use std::alloc::{AllocError as NoMemory, Global};
use std::test::Fail;

// A phase of the steps 5 and 3.
fn phase(alloc: Global) -> Result<Phase<u64>, NoMemory>
    ensures { IfOk result (λ p. p.steps ≡ 5 ∷ 3 ∷ []) }
{
    let steps = vec![in alloc; 5u64, 3]?;
    let enters = vec![in alloc; 1, 0, 2]?;
    let leaves = vec![in alloc; 2, 1, 4]?;
    Ok(Phase::of(steps, enters, leaves))
}

// Whether it is that phase in words.
fn is_in_words(phase: &Phase<Word>) -> bool {
    let steps = phase.steps();
    steps.len() == 2
        && (steps[0].grade, steps[0].amount) == (0, 5)
        && (steps[1].grade, steps[1].amount) == (0, 3)
        && phase.enters() == [1, 0, 2].as_slice()
        && phase.leaves() == [2, 1, 4].as_slice()
}

#[test]
fn a_phase_in_words(rt: HostRuntime) -> Result<(), Fail> {
    let phase = phase(rt.alloc())?;
    let copied = words(rt.alloc(), &Greatest, &phase);
    drop(phase);
    let copied = copied?;
    let is_so = is_in_words(&copied);
    drop(copied);
    assert!(rt; is_so);
    Ok(())
}

// Steps of which the first two are short, the next two aren't, and the last one again is.
const MIXED: [Word; 5] = [
    Word {
        grade: 0,
        amount: 7,
    },
    Word {
        grade: 4294967295,
        amount: 4294967295,
    },
    Word {
        grade: 0,
        amount: 4294967296,
    },
    Word {
        grade: 4294967296,
        amount: 1,
    },
    Word {
        grade: 0,
        amount: 0,
    },
];

// Whether the steps are these.
fn are_steps(steps: &Steps<'_>, want: &[Word]) -> bool {
    if steps.len() != want.len() || steps.is_empty() != want.is_empty() {
        return false;
    }
    for place in 0..want.len() {
        if steps.get(place) != want[place] {
            return false;
        }
    }
    true
}

// A phase of these steps of one row, which enters at the first step, and of two columns, which
// leave after it and after the last.
fn phase_of(alloc: Global, words: &[Word]) -> Result<WrittenPhase, NoMemory>
    ensures { IfOk result IsPhase }
{
    let mut steps = StepWords::none(alloc);
    for word in words {
        steps.push(*word)?;
    }
    WrittenPhase::of(steps, vec![in alloc; 0]?, vec![in alloc; 1, 4294967295]?)
}

#[test]
fn phases_of_any_length(rt: HostRuntime) -> Result<(), Fail> {
    for count in 0..6 {
        let words = &MIXED[..count];
        let phase = phase_of(rt.alloc(), words)?;
        let is_so = are_steps(&phase.steps(), words)
            && phase.enters() == [0].as_slice()
            && phase.leaves() == [1, 4294967295].as_slice();
        drop(phase);
        assert!(rt; is_so);
    }
    Ok(())
}
