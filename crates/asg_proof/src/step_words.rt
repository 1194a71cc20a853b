//! Steps as words, kept in few bytes.

ghost use Rattle.std.specs.Prelude.{◌≡◌, ◌↔◌, ◌<◌, ◌^◌, ◌/◌, ◌++◌, ◌∷◌, [], List, length, slice_index_or};
ghost use Rattle.std.specs.Prelude.{IfOk, IfSome, IsTrue, OnErr, SomeIff};
ghost use Rattle.asg_order.specs.declared.words.Word.{Word as W};
ghost use Rattle.asg_proof.specs.StepWords.{far_grade, whole_word, told_word};
ghost use Rattle.asg_proof.specs.StepWords.{short_words, as_words, IsTold, AreTold};
ghost use Rattle.asg_proof.specs.StepWords.{AreStepNumbers};

use crate::NoMemory;
use crate::steps_read::Steps;
use asg_order::Word;
use std::alloc::{AllocError, Global};
use std::marker::Model;

// A word whose grade is below 2^32 - 1 and whose amount is below 2^32; or, with the grade 2^32 - 1,
// the place of a long word.
#[derive(Clone, Copy, PartialEq, Eq)]
pub(crate) struct ShortWord {
    grade: u32,
    amount: u32,
}

// The grade of a short word that tells a place.
const FAR: u32 = u32::MAX;

// A grade where it is below 2^32 - 1.
fn short_grade(grade: u64) -> Option<u32>
    ensures { SomeIff result (grade < far_grade) grade }
{
    if grade < u64::from(FAR) {
        Some(grade as u32)
    } else {
        None
    }
}

// An amount where it is below 2^32.
fn short_amount(amount: u128) -> Option<u32>
    ensures { SomeIff result (amount < 2 ^ 32) amount }
{
    u32::try_from(amount).ok()
}

// The word in short, where it can be.
fn shortened(word: Word) -> Option<ShortWord>
    ensures word { IfSome result (λ short. whole_word short ≡ word) }
    ensures near { IfSome result (λ short. short.grade < far_grade) }
{
    let grade = short_grade(word.grade)?;
    let amount = short_amount(word.amount)?;
    Some(ShortWord { grade, amount })
}

// The word that a short one holds.
fn whole(short: ShortWord) -> Word
    ensures { result ≡ whole_word short }
{
    Word {
        grade: u64::from(short.grade),
        amount: u128::from(short.amount),
    }
}

// Up to how many long words a list has no more room than they take.
const FEW_LONG: usize = 4;

// Appends a long word, in no more room than they take while they are few, and gives the short one
// that tells its place. The error is want of memory, and 2^32 long words count as that.
fn appended(long: &mut Vec<Word>, word: Word) -> Result<ShortWord, NoMemory>
    ensures list { IfOk result (λ _. long.new.items ≡ long.old.items ++ word ∷ []) }
    ensures grade { IfOk result (λ short. short.grade ≡ far_grade) }
    ensures place { IfOk result (λ short. short.amount ≡ length long.old.items) }
    ensures kept { OnErr result (long.new.items ≡ long.old.items) }
{
    let Ok(amount) = u32::try_from(long.len()) else {
        return Err(AllocError);
    };
    if long.len() < FEW_LONG {
        long.reserve_exact(1)?;
    }
    long.push(word)?;
    Ok(ShortWord { grade: FAR, amount })
}

// Appends the step to the long words if it needs one, and gives the short word that stands for it.
// Short words before it stand for the same words as before. The error is want of memory.
fn entry(long: &mut Vec<Word>, step: Word) -> Result<ShortWord, NoMemory>
    ensures told { (short : List ShortWord) → AreTold short long.old.items
        → AreTold short long.new.items }
    ensures same { (short : List ShortWord) → AreTold short long.old.items
        → as_words short long.new.items ≡ as_words short long.old.items }
    ensures word { IfOk result (λ entry. told_word long.new.items entry ≡ step) }
    ensures place { IfOk result (IsTold (length long.new.items)) }
{
    match shortened(step) {
        Some(short) => Ok(short),
        None => appended(long, step),
    }
}

// How many numbers fill the least room that is given out.
const FEW: usize = 6;

// Appends the two numbers of a short word, in no more room than they take while they are few. The
// error is want of memory.
fn append(numbers: &mut Vec<u32>, word: ShortWord) -> Result<(), NoMemory>
    ensures list { IfOk result (λ _. numbers.new.items
        ≡ numbers.old.items ++ word.grade ∷ word.amount ∷ []) }
    ensures kept { OnErr result (numbers.new.items ≡ numbers.old.items) }
{
    if numbers.len() < FEW {
        numbers.reserve_exact(2)?;
    }
    numbers.extend_from_slice(&[word.grade, word.amount])
}

// The short word at a place of a list of such.
pub(crate) fn short_at(numbers: &[u32], place: usize) -> ShortWord
    requires { place < length numbers.now / 2 }
    ensures { (d : ShortWord) → result ≡ slice_index_or (short_words numbers.now) place d }
{
    ShortWord {
        grade: numbers[2 * place],
        amount: numbers[2 * place + 1],
    }
}

// The word that a short one stands for.
pub(crate) fn told(long: &[Word], short: ShortWord) -> Word
    requires { IsTold (length long.now) short }
    ensures { result ≡ told_word long.now short }
{
    if short.grade == FAR {
        long[short.amount as usize]
    } else {
        whole(short)
    }
}

/// Steps as words, in order, while they are made. Each takes 8 bytes; one with a grade of 2^32 - 1
/// or more, or an amount of 2^32 or more, those of a [`Word`] besides.
#[derive(Drop)]
pub struct StepWords {
    // Of each step the grade and the amount of its short word.
    numbers: Vec<u32>,
    long: Vec<Word>,
}

impl Model for StepWords {
    ghost use Rattle.std.specs.Prelude.{List};
    ghost use Rattle.asg_order.specs.declared.words.Word.{Word as W};
    ghost use Rattle.asg_proof.specs.StepWords.{AreStepNumbers, as_words, short_words};

    ghost Value = { List W };

    ghost view = { λ steps. as_words (short_words steps.numbers.items) steps.long.items };

    ghost invariant = { λ steps. AreStepNumbers steps.numbers.items steps.long.items };
}

impl StepWords {
    /// No steps. It takes no memory.
    pub fn none(alloc: Global) -> StepWords
        ensures { result ≡ [] }
    {
        StepWords {
            numbers: Vec::new(alloc),
            long: Vec::new(alloc),
        }
    }

    /// Appends a step. The error is want of memory; the 2^32nd step that doesn't fit 8 bytes counts
    /// as that.
    pub fn push(&mut self, step: Word) -> Result<(), NoMemory>
        ensures { IfOk result (λ _. self.new ≡ self.old ++ step ∷ []) }
    {
        let short = entry(&mut self.long, step)?;
        append(&mut self.numbers, short)?;
        Ok(())
    }

    /// Gives back the room that no step takes.
    pub fn shrink(&mut self)
        ensures { self.new ≡ self.old }
    {
        self.numbers.shrink_to_fit();
        self.long.shrink_to_fit();
    }

    /// Whether there is no step.
    pub fn is_empty(&self) -> bool
        ensures { IsTrue result ↔ (self.now ≡ []) }
    {
        self.as_steps().is_empty()
    }

    /// The steps, to be read.
    pub fn as_steps(&self) -> Steps<'_>
        ensures { result ≡ self.now }
    {
        Steps::of(self.numbers.as_slice(), self.long.as_slice())
    }

    // The numbers of the short words, and the long words.
    pub(crate) fn into_lists(self) -> (Vec<u32>, Vec<Word>)
        ensures words { as_words (short_words result.0.items) result.1.items ≡ self }
        ensures lists { AreStepNumbers result.0.items result.1.items }
    {
        let StepWords { numbers, long } = self;
        (numbers, long)
    }
}
