//! Why a document doesn't certify, and what the checker answers.

ghost use Rattle.std.specs.Prelude.{◌≡◌, ◌+◌, ◌<◌, ◌^◌, pos};
ghost use Rattle.asg_verdicts.specs.Verdicts.{reason_number};

use std::fmt;

/// Why a document doesn't certify, in the order in which the reasons are tested.
#[derive(Clone, Copy, Debug, PartialEq, Eq)]
pub enum Reason {
    /// The document's objective isn't the one that is asked.
    OtherObjective,
    /// The command isn't that of the asked form; the claim isn't one that answers it: a ranking of
    /// the asked count, with at least one answer and at most so many, or else one best choice; or
    /// the proof is of a kind that the objective doesn't take.
    WrongForm,
    /// The cells of an answer aren't those of a valid choice, in the order of the rows.
    NotValid,
    /// The value of an answer isn't that of its cells.
    WrongValue,
    /// A ranked answer has the cells of an earlier one.
    Repeated,
    /// A ranked answer is better than the one before it.
    OutOfOrder,
    /// The rows aren't a Hall set: of the instance, of the costs strictly better than the value, or
    /// of the band of a window.
    NotHall,
    /// The value d is above 0, and for the cost v of a live cell no window holds the costs from v
    /// to v + d - 1.
    WindowGap,
    /// A phase isn't admitted after those before it.
    BadPhase,
    /// The index of the phases isn't the fold of the cells.
    IndexDiffers,
    /// A level is none after those before it, or they don't hold in all: the assignment isn't one
    /// of different columns by cells that are left in the end, its cells aren't the document's, or
    /// the levels don't count as many cells as rows choose.
    BadLevel,
    /// A node of a ranking's search tree isn't as it must be for its parent and the answers, or
    /// some answer has no node.
    BadNode,
    /// A node is open whose choices may be better than the last answer, or while fewer answers are
    /// listed than were asked for.
    BetterLeft,
}

impl fmt::Display for Reason {
    fn fmt<W: fmt::Write>(&self, f: &mut fmt::Formatter<W>) -> fmt::Result {
        f.write_str(self.words())
    }
}

impl Reason {
    // The reason in words.
    fn words(self) -> &'static str {
        match self {
            Reason::OtherObjective => "the objective isn't the one that is asked",
            Reason::WrongForm => {
                "the document isn't of the asked form, or the objective doesn't take the proof"
            }
            Reason::NotValid => {
                "the cells aren't those of a valid choice, in the order of the rows"
            }
            Reason::WrongValue => "the value isn't that of the cells",
            Reason::Repeated => "an answer has the cells of an earlier one",
            Reason::OutOfOrder => "an answer is better than the one before it",
            Reason::NotHall => "the rows aren't a Hall set",
            Reason::WindowGap => "the windows leave a gap",
            Reason::BadPhase => {
                "a phase has the wrong length or steps, or isn't admitted after those before it"
            }
            Reason::IndexDiffers => {
                "the product of the steps isn't that of the entered costs of the cells"
            }
            Reason::BadLevel => "a level doesn't hold, or the levels don't prove the cells",
            Reason::BadNode => "a node isn't as it must be, or an answer has no node",
            Reason::BetterLeft => "a node is open whose choices may be better than the answers",
        }
    }

    /// The number of the reason.
    pub fn number(self) -> u8
        ensures { result ≡ reason_number self }
    {
        match self {
            Reason::OtherObjective => 1,
            Reason::WrongForm => 2,
            Reason::NotValid => 3,
            Reason::WrongValue => 4,
            Reason::Repeated => 12,
            Reason::OutOfOrder => 13,
            Reason::NotHall => 5,
            Reason::WindowGap => 8,
            Reason::BadPhase => 6,
            Reason::IndexDiffers => 7,
            Reason::BadLevel => 9,
            Reason::BadNode => 10,
            Reason::BetterLeft => 11,
        }
    }

    /// The verdict that the reason stands for the whole document.
    pub fn verdict(self) -> Verdict
        ensures { result ≡ Verdict.No (reason_number self) (pos 0) }
    {
        Verdict::No {
            reason: self.number(),
            place: 0,
        }
    }

    /// The verdict that the reason stands at a place.
    pub fn verdict_at(self, place: i64) -> Verdict
        ensures { result ≡ Verdict.No (reason_number self) place }
    {
        Verdict::No {
            reason: self.number(),
            place,
        }
    }

    /// The verdict that the reason stands at an answer, a phase, a window or a level, whose place in
    /// its list this is, from 0 on.
    pub fn verdict_at_part(self, part: usize) -> Verdict
        requires { part + 1 < 2 ^ 63 }
        ensures { result ≡ Verdict.No (reason_number self) (pos (part + 1)) }
    {
        self.verdict_at(part as i64 + 1)
    }
}

/// What the checker answers.
#[derive(Clone, Copy, Debug, PartialEq, Eq)]
pub enum Verdict {
    /// The document certifies.
    Yes,
    /// It doesn't: the number of the first reason, and the place where it stands. The place of a
    /// bad phase is its number from 1, as are those of a ranked answer, of a bad level, of a node
    /// and of a window whose rows aren't a Hall set; the place of a gap is its cost. That of each
    /// other reason is 0: the whole document.
    No { reason: u8, place: i64 },
}

impl fmt::Display for Verdict {
    fn fmt<W: fmt::Write>(&self, f: &mut fmt::Formatter<W>) -> fmt::Result {
        match self {
            Verdict::Yes => write!(f, "the document certifies"),
            Verdict::No { reason, place } => {
                write!(
                    f,
                    "the document doesn't certify: reason {reason}, place {place}"
                )
            }
        }
    }
}
