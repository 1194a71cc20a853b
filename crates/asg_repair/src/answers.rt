//! The answers of a session.

ghost use Rattle.std.specs.Prelude.{◌≡◌, ◌≢◌, ◌≤◌, List, length, take, IfOk};
ghost use Rattle.asg_algebra.specs.Ended.{EndsIn};
ghost use Rattle.asg_match.specs.Deficient.{IsDeficient};
ghost use Rattle.asg_match.specs.HallSets.{GivesHallSets};
ghost use Rattle.asg_match.specs.Matching.{IsPerfect};
ghost use Rattle.asg_proof.specs.Phases.{PhaseOf};
ghost use Rattle.asg_square.specs.Cells.{IsPresent};
ghost use Rattle.asg_square.specs.Grid.{cell_at, HasLabelsOf};
ghost use Rattle.asg_repair.specs.Answers.{IsWrittenBy};
ghost use Rattle.asg_repair.specs.Sessions.{ids_in, IsAnswerRoom, IsGiven};
ghost use Rattle.asg_kept_phases.specs.Led.{IsLed};
ghost use Rattle.asg_repair.specs.Sessions.{IsSized};
ghost use Rattle.asg_kept_phases.specs.Led.{MaySolve};
ghost use Rattle.asg_repair.specs.declared.answers.Given.TheVariants.{Chosen, Open, Stuck};

use crate::NoMemory;
use crate::laws::led_law;
use crate::present_cells::PresentCells;
use crate::works::Work;
use asg_algebra::Solved;
use asg_match::{Matching, hall_of};
use asg_model::{Choice, Instance};
use asg_order::{Kind, Ordered};
use asg_square::Square;
use std::alloc::Global;

/// What a session has answered since it was opened or edited.
#[derive(Clone, Copy, PartialEq, Eq, Debug)]
pub enum Given {
    /// Nothing yet.
    Open,
    /// A best choice.
    Chosen,
    /// A Hall set.
    Stuck,
}

/// What [`Session::answer`](crate::Session::answer) came to.
#[derive(Clone, Copy, PartialEq, Eq, Debug)]
pub enum Answered {
    /// There is a best choice.
    Best,
    /// No choice is valid.
    Nothing,
}

/// What was answered last, with the room for every answer: a choice, and ids of which the first so
/// many are a Hall set.
#[derive(Drop)]
pub(crate) struct AnswerRoom {
    pub(crate) given: Given,
    pub(crate) choice: Choice,
    pub(crate) ids: Vec<u32>,
    pub(crate) count: u32,
}

impl AnswerRoom {
    /// Room for the answers of an instance, of which none was given. The error is want of memory.
    pub(crate) fn make(alloc: Global, inst: &Instance) -> Result<AnswerRoom, NoMemory>
        ensures room { IfOk result (IsAnswerRoom inst.now) }
        ensures given { IfOk result (λ room. room.given ≡ Open) }
    {
        let choice = Choice::make(alloc, inst.rows().len() as u32)?;
        let ids = vec![in alloc; 0; 1001]?;
        Ok(AnswerRoom {
            given: Given::Open,
            choice,
            ids,
            count: 0,
        })
    }
}

// Writes the choice of a perfect assignment by present cells.
fn write_choice<V: Copy>(
    square: &Square<V>,
    matching: &Matching,
    columns: &mut [u32],
    out: &mut Choice,
)
    requires perfect { IsPerfect (IsPresent (cell_at square.now)) square.now.side matching.now }
    requires columns { length columns.old ≡ square.now.side }
    requires out { length out.old ≡ square.now.rows }
    ensures written { IsWrittenBy square.now matching.now out.new }
    ensures columns { length columns.new ≡ length columns.old }
{
    let _side = matching.side();
    matching.copy_columns(columns);
    square.choice_into(columns, out);
}

// Writes a Hall set of the rows of a square that have fewer present cells than they are. The answer
// is how many ids it has.
fn write_hall<V: Copy>(square: &Square<V>, inst: &Instance, rows: &[u32], ids: &mut [u32]) -> u32
    requires labels { HasLabelsOf inst.now square.now }
    requires short { IsDeficient (IsPresent (cell_at square.now)) square.now.side rows.now }
    requires room { 1001 ≤ length ids.old }
    ensures hall { GivesHallSets inst.now (IsPresent (cell_at square.now)) (take result ids.new) }
    ensures room { length ids.new ≡ length ids.old }
{
    let _side = square.side();
    let cells = PresentCells { square };
    hall_of(square, inst, &cells, rows, ids)
}

// Writes down the choice of a perfect assignment by present cells.
fn give_choice<V: Copy>(work: &mut Work<V>, room: &mut AnswerRoom)
    requires perfect { IsPerfect (IsPresent (cell_at work.old.reduced.now))
        work.old.reduced.now.side work.old.matching }
    requires columns { length work.old.columns.items ≡ work.old.reduced.now.side }
    requires out { length room.old.choice ≡ work.old.reduced.now.rows }
    ensures written { IsWrittenBy work.old.reduced.now work.old.matching room.new.choice }
    ensures given { room.new.given ≡ Chosen }
    ensures ids { room.new.ids ≡ room.old.ids }
    ensures reduced { work.new.reduced ≡ work.old.reduced }
    ensures matching { work.new.matching ≡ work.old.matching }
    ensures bench { work.new.bench ≡ work.old.bench }
    ensures room { work.new.room ≡ work.old.room }
    ensures columns { length work.new.columns.items ≡ length work.old.columns.items }
{
    write_choice(
        &work.reduced.now,
        &work.matching,
        &mut work.columns,
        &mut room.choice,
    );
    room.given = Given::Chosen;
}

// Writes down a Hall set of the rows of the last tree, which have fewer present cells than they
// are.
fn give_hall<V: Copy>(inst: &Instance, work: &Work<V>, room: &mut AnswerRoom)
    requires labels { HasLabelsOf inst.now work.now.reduced.now }
    requires short { IsDeficient (IsPresent (cell_at work.now.reduced.now))
        work.now.reduced.now.side work.now.bench.rows }
    requires room { 1001 ≤ length room.old.ids.items }
    ensures hall { GivesHallSets inst.now (IsPresent (cell_at work.now.reduced.now))
        (ids_in room.new) }
    ensures given { room.new.given ≡ Stuck }
    ensures choice { room.new.choice ≡ room.old.choice }
    ensures ids { length room.new.ids.items ≡ length room.old.ids.items }
{
    let rows = work.bench.violator();
    room.count = write_hall(&work.reduced.now, inst, rows, &mut room.ids);
    room.given = Given::Stuck;
}

/// Writes down what a solver came to: the choice of the matching, or the Hall set of the rows of
/// the last tree. It takes no memory.
pub(crate) fn give<K: Kind>(
    kind: &K,
    inst: &Instance,
    work: &mut Work<<K::M as Ordered>::Value>,
    ended: Solved,
    room: &mut AnswerRoom,
)
    requires may_solve { MaySolve (K.M.monoid_of (K.monoid kind.now)) (K.entered kind.now)
        (K.objective kind.now) (K.reach kind.now) inst.now }
    requires sized { IsSized inst.now work.old }
    requires led { (phases : List (PhaseOf K.M.Value)) × IsLed (K.M.monoid_of (K.monoid kind.now))
        (K.M.difference (K.monoid kind.now)) (K.entered kind.now) inst.now phases work.old.reduced }
    requires ends { EndsIn (K.M.monoid_of (K.monoid kind.now)) work.old.reduced work.old.matching
        work.old.bench.rows ended }
    requires room { IsAnswerRoom inst.now room.old }
    ensures sized { IsSized inst.now work.new }
    ensures reduced { work.new.reduced ≡ work.old.reduced }
    ensures matching { work.new.matching ≡ work.old.matching }
    ensures room { IsAnswerRoom inst.now room.new }
    ensures some { room.new.given ≢ Open }
    ensures given { (phases : List (PhaseOf K.M.Value))
        → IsLed (K.M.monoid_of (K.monoid kind.now)) (K.M.difference (K.monoid kind.now))
        (K.entered kind.now) inst.now phases work.old.reduced
        → IsGiven (K.M.monoid_of (K.monoid kind.now)) (K.M.difference (K.monoid kind.now))
        (K.entered kind.now) inst.now phases work.new.matching room.new.given room.new.choice
        (ids_in room.new) }
{
    led_law(kind.monoid());
    let _rows = inst.rows();
    match ended {
        Solved::Perfect(_) => give_choice(work, room),
        Solved::Short(_) => give_hall(inst, work, room),
    }
}
