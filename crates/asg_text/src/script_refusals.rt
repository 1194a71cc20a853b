//! Why a script is refused.

ghost use Rattle.std.specs.Prelude.{◌≡◌};

use std::alloc::{AllocError, AllocFailed};
use std::fmt;

/// Why a script isn't read. Lines count from 1. The variants before `NoMemory` have the numbers 1
/// to 3, in this order.
#[derive(Clone, Copy, Debug, PartialEq, Eq)]
pub enum ScriptRefusal {
    /// This line has no form.
    BadScriptLine(u32),
    /// This line is the 10,001st that isn't blank.
    TooManyEdits(u32),
    /// The cost of this line has a part below -10^9 or above 10^9.
    CostRange(u32),
    /// Memory ran out.
    NoMemory,
}

impl fmt::Display for ScriptRefusal {
    fn fmt<W: fmt::Write>(&self, f: &mut fmt::Formatter<W>) -> fmt::Result {
        match *self {
            ScriptRefusal::BadScriptLine(line) => write!(
                f,
                "line {line}: no line of a script has this form"
            ),
            ScriptRefusal::TooManyEdits(line) => write!(
                f,
                "line {line}: more than 10000 lines that aren't blank"
            ),
            ScriptRefusal::CostRange(line) => write!(f, "line {line}: a cost out of range"),
            ScriptRefusal::NoMemory => f.write_str("out of memory"),
        }
    }
}

impl From<AllocError> for ScriptRefusal {
    ghost use Rattle.asg_text.specs.declared.script_refusals.ScriptRefusal.TheVariants.{NoMemory};

    ghost from_gives = { λ _ refusal. refusal ≡ NoMemory };

    fn from(_: AllocError) -> ScriptRefusal {
        ScriptRefusal::NoMemory
    }
}

impl<T: Drop> From<AllocFailed<T>> for ScriptRefusal {
    ghost use Rattle.asg_text.specs.declared.script_refusals.ScriptRefusal.TheVariants.{NoMemory};

    ghost from_gives = { λ _ refusal. refusal ≡ NoMemory };

    fn from(_: AllocFailed<T>) -> ScriptRefusal {
        ScriptRefusal::NoMemory
    }
}
