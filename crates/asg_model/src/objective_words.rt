//! The words of the objectives.

ghost use Rattle.std.specs.Prelude.{◌≡◌};
ghost use Rattle.asg_model.specs.Objectives.{Names, uncapped_named, word_front};

use crate::objectives::Objective;

/// The word of an objective, that of a capped sum without its cap.
pub fn word_front(objective: Objective) -> &'static [u8]
    ensures { result.now ≡ word_front objective }
{
    match objective {
        Objective::Sum => b"sum",
        Objective::SumMax => b"sum-max",
        Objective::SumPair => b"pair",
        Objective::Capped(_) => b"capped=",
        Objective::Bottleneck => b"bottleneck",
        Objective::BottleneckMax => b"bottleneck-max",
        Objective::TimeCost => b"time-cost",
        Objective::Balanced => b"balanced",
        Objective::Lex => b"lex",
    }
}

/// The objective without a cap that has this word.
pub fn uncapped_named(word: &[u8]) -> Option<Objective>
    ensures named { result ≡ uncapped_named word.now }
    ensures word { Names word.now result }
{
    if word == word_front(Objective::Sum) {
        return Some(Objective::Sum);
    }
    if word == word_front(Objective::SumMax) {
        return Some(Objective::SumMax);
    }
    if word == word_front(Objective::SumPair) {
        return Some(Objective::SumPair);
    }
    if word == word_front(Objective::Bottleneck) {
        return Some(Objective::Bottleneck);
    }
    if word == word_front(Objective::BottleneckMax) {
        return Some(Objective::BottleneckMax);
    }
    if word == word_front(Objective::TimeCost) {
        return Some(Objective::TimeCost);
    }
    if word == word_front(Objective::Balanced) {
        return Some(Objective::Balanced);
    }
    if word == word_front(Objective::Lex) {
        return Some(Objective::Lex);
    }
    None
}
