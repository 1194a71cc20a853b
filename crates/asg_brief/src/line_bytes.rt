//! Writes the parts of brief lines.

ghost use Rattle.std.specs.Prelude.{◌≡◌, ◌∷◌, ◌++◌, All, FitsSigned, IfOk, codes};
ghost use Rattle.std.specs.Fmt.{decimal, signed_decimal};
ghost use Rattle.std.specs.Int.{w64};
ghost use Rattle.asg_doc.specs.Text.{spaced_costs, value_text};
ghost use Rattle.asg_model.specs.Objectives.{objective_word};
ghost use Rattle.asg_brief.specs.BriefLines.{HasFittingCosts};

use crate::NoMemory;
use asg_model::{Costs, Objective, Value, word_front};
use itoa::Buffer;

// Appends bytes. The error is want of memory.
pub(crate) fn push(line: &mut Vec<u8>, text: &[u8]) -> Result<(), NoMemory>
    ensures { IfOk result (λ _. line.new.items ≡ line.old.items ++ text.now) }
{
    line.extend_from_slice(text)?;
    Ok(())
}

// Appends a number, behind a space. The error is want of memory.
pub(crate) fn push_count(line: &mut Vec<u8>, count: u32) -> Result<(), NoMemory>
    ensures { IfOk result (λ _. line.new.items ≡ line.old.items ++ 32 ∷ decimal count) }
{
    let mut buffer = Buffer::new();
    push(line, b" ")?;
    push(line, buffer.format(count).as_bytes())?;
    Ok(())
}

// Appends the word of a sum that stops at a cap. The error is want of memory.
fn push_capped(line: &mut Vec<u8>, cap: u64) -> Result<(), NoMemory>
    ensures { IfOk result (λ _.
        line.new.items ≡ line.old.items ++ (codes "capped=" ++ decimal cap)) }
{
    let mut buffer = Buffer::new();
    push(line, b"capped=")?;
    push(line, buffer.format(cap).as_bytes())?;
    Ok(())
}

// Appends the word of an objective. The error is want of memory.
pub(crate) fn push_word(line: &mut Vec<u8>, objective: Objective) -> Result<(), NoMemory>
    ensures { IfOk result (λ _. line.new.items ≡ line.old.items ++ objective_word objective) }
{
    match objective {
        Objective::Capped(cap) => push_capped(line, cap),
        uncapped => push(line, word_front(uncapped)),
    }
}

// Appends a signed number behind a byte. The error is want of memory.
fn push_signed(line: &mut Vec<u8>, front: u8, number: i128) -> Result<(), NoMemory>
    ensures { IfOk result (λ _.
        line.new.items ≡ line.old.items ++ front ∷ signed_decimal number) }
{
    let mut buffer = Buffer::new();
    line.push(front)?;
    push(line, buffer.format(number).as_bytes())?;
    Ok(())
}

// Appends costs, each behind a space. The error is want of memory.
fn push_costs(line: &mut Vec<u8>, costs: &[i64]) -> Result<(), NoMemory>
    requires { All (FitsSigned w64) costs.now }
    ensures { IfOk result (λ _. line.new.items ≡ line.old.items ++ spaced_costs costs.now) }
{
    'costs: for cost in costs {
        push_signed(line, b' ', i128::from(*cost))?;
    }
    Ok(())
}

// Appends two numbers with a colon between them, behind a space. The error is want of memory.
fn push_two(line: &mut Vec<u8>, first: i128, second: i128) -> Result<(), NoMemory>
    ensures { IfOk result (λ _.
        line.new.items ≡ line.old.items ++ value_text (Value.Two first second)) }
{
    push_signed(line, b' ', first)?;
    push_signed(line, b':', second)?;
    Ok(())
}

// Appends one number, behind a space. The error is want of memory.
fn push_one(line: &mut Vec<u8>, number: i128) -> Result<(), NoMemory>
    ensures { IfOk result (λ _.
        line.new.items ≡ line.old.items ++ value_text (Value.One number)) }
{
    push_signed(line, b' ', number)?;
    Ok(())
}

// Appends listed costs. The error is want of memory.
fn push_many(line: &mut Vec<u8>, costs: &Costs) -> Result<(), NoMemory>
    requires { All (FitsSigned w64) costs.now }
    ensures { IfOk result (λ _.
        line.new.items ≡ line.old.items ++ value_text (Value.Many costs.now)) }
{
    push_costs(line, costs.as_slice())
}

// Appends a value as documents write it: one number, two, or a list. The error is want of memory.
pub(crate) fn push_value(line: &mut Vec<u8>, value: &Value) -> Result<(), NoMemory>
    requires { HasFittingCosts value.now }
    ensures { IfOk result (λ _. line.new.items ≡ line.old.items ++ value_text value.now) }
{
    match value {
        Value::One(number) => push_one(line, *number),
        Value::Two(first, second) => push_two(line, *first, *second),
        Value::Many(costs) => push_many(line, costs),
    }
}
