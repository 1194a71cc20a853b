//! The form that a document must have.

ghost use Rattle.std.specs.Prelude.{◌≡◌, length};
ghost use Rattle.asg_model.specs.Objectives.{is_algebraic};
ghost use Rattle.asg_proof.specs.Proves.{takes};
ghost use Rattle.asg_check.specs.DocumentForm.{answers_form, has_form, is_answer_count};
ghost use Rattle.asg_check.specs.DocumentForm.{is_command_of, takes_claim};

use asg_doc::{Answers, Claim, Command, Document};
use asg_model::Objective;
use asg_proof::Proof;

/// The form that a document must have: what it must answer.
#[derive(Clone, Copy, Debug, PartialEq, Eq)]
pub enum Form {
    /// One best choice, or that no choice is valid.
    Solve,
    /// So many best choices in order, or all where fewer are valid, or that no choice is valid.
    Rank(u32),
    /// One best choice of an instance as edits have left it, or that no choice is valid.
    Edit,
}

// Whether the document has the asked form: its command, a claim that answers what was asked, and a
// proof of a kind that the objective takes.
pub(crate) fn has_form(objective: Objective, form: Form, doc: &Document) -> bool
    ensures { result ≡ has_form objective form doc.now }
{
    is_command_of(form, doc.command)
        && answers_form(form, &doc.claim)
        && takes_claim(objective, &doc.claim)
}

// Whether documents of the asked form have this command.
fn is_command_of(form: Form, command: Command) -> bool
    ensures { result ≡ is_command_of form command }
{
    match form {
        Form::Solve => matches!(command, Command::Solve),
        Form::Rank(_) => matches!(command, Command::Rank),
        Form::Edit => matches!(command, Command::Edit),
    }
}

// Whether the claim answers what was asked.
fn answers_form(form: Form, claim: &Claim) -> bool
    ensures { result ≡ answers_form form claim.now }
{
    match (form, claim) {
        (_, Claim::Nothing { .. }) => true,
        (Form::Solve, Claim::Best { .. }) => true,
        (Form::Solve, Claim::Ranked { .. }) => false,
        (Form::Edit, Claim::Best { .. }) => true,
        (Form::Edit, Claim::Ranked { .. }) => false,
        (Form::Rank(_), Claim::Best { .. }) => false,
        (Form::Rank(asked), Claim::Ranked { count, answers, .. }) => {
            *count == asked && is_answer_count(*count, answers)
        }
    }
}

// Whether there is an answer, and are at most as many as were asked for.
fn is_answer_count(count: u32, answers: &Answers) -> bool
    ensures { result ≡ is_answer_count count (length answers.now) }
{
    1 <= answers.len() && answers.len() <= count as usize
}

// Whether the objective takes the kind of the claim's proof, if it has one.
fn takes_claim(objective: Objective, claim: &Claim) -> bool
    ensures { result ≡ takes_claim objective claim.now }
{
    match claim {
        Claim::Best { proof, .. } => takes(objective, proof),
        Claim::Nothing { .. } => true,
        Claim::Ranked { .. } => is_algebraic(objective),
    }
}

// Whether the objective has a monoid.
fn is_algebraic(objective: Objective) -> bool
    ensures { result ≡ is_algebraic objective }
{
    !matches!(objective, Objective::Balanced | Objective::Lex)
}

// Whether the objective takes proofs of this kind.
fn takes(objective: Objective, proof: &Proof) -> bool
    ensures { result ≡ takes objective proof.now }
{
    match proof {
        Proof::Phases(_) => is_algebraic(objective),
        Proof::Below(_) => matches!(objective, Objective::Bottleneck | Objective::BottleneckMax),
        Proof::Windows(_) => matches!(objective, Objective::Balanced),
        Proof::Levels { .. } => matches!(objective, Objective::Lex),
    }
}
