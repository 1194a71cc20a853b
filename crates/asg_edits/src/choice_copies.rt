//! Copies of choices.

ghost use Rattle.std.specs.Prelude.{◌≡◌, IfOk};

use crate::NoMemory;
use asg_model::Choice;
use std::alloc::Global;

// An equal choice. The error is want of memory.
pub(crate) fn copied(alloc: Global, choice: &Choice) -> Result<Choice, NoMemory>
    ensures { IfOk result (λ copy. copy ≡ choice.now) }
{
    let mut copy = Choice::make(alloc, choice.len())?;
    'rows: for row in 0..choice.len() {
        copy.set(row, choice.get(row));
    }
    Ok(copy)
}
