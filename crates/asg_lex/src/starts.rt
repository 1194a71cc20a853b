//! The start of the walk: the cells under a limit, with a perfect matching by them, and no level.

ghost use Rattle.std.specs.Prelude.{◌≡◌, ◌<◌, ◌≤◌, ℕ, IfOk, length};
ghost use Rattle.asg_match.specs.Matching.{IsPerfect};
ghost use Rattle.asg_model.specs.Limits.{most_side};
ghost use Rattle.asg_model.specs.Shapes.{square_side};
ghost use Rattle.asg_bit_rows.specs.BitTable.{has_bit};
ghost use Rattle.asg_square.specs.Grid.{IsSquareOf, cell_at};
ghost use Rattle.asg_live_cells.specs.Grades.{free_grade, grade_of};
ghost use Rattle.asg_live_cells.specs.LiveCells.{AreEntriesUnder};
ghost use Rattle.asg_live_cells.specs.Marks.{IsMarked};
ghost use Rattle.asg_lex.specs.LevelWork.{AreSized};
ghost use Rattle.asg_lex.specs.RunStates.{IsRun};
ghost use Rattle.asg_live_cells.specs.UnderWords.{is_under, MarksUnder};
ghost use Rattle.asg_lex.specs.Starts.{HasChoiceUnder, IsStart};

use crate::NoMemory;
use crate::level_work::Work;
use crate::runs::Run;
use asg_bit_rows::BitRows;
use asg_live_cells::{LiveCells, Marks, under_word};
use asg_match::{Matching, Pairing, Tree, hall_of, perfect_or_hall};
use asg_model::Instance;
use asg_square::Square;
use asg_square::laws::square_law;
use asg_values::laws::hall_law;
use std::alloc::Global;

// Marks the cells of a row whose grades are under the limit.
fn mark_row(bits: &mut BitRows, square: &Square<u32>, limit: u32, row: u32)
    requires row_below { row < square.now.side }
    requires rows { bits.old.rows ≡ square.now.side }
    requires columns { bits.old.columns ≡ square.now.side }
    requires few { square.now.side ≤ most_side }
    ensures rows { bits.new.rows ≡ square.now.side }
    ensures columns { bits.new.columns ≡ square.now.side }
    ensures row { (c : ℕ) → c < square.now.side
        → has_bit bits.new row c ≡ is_under limit (cell_at square.now row c) }
    ensures others { (r c : ℕ) → (r ≡ row → ⊥) → has_bit bits.new r c ≡ has_bit bits.old r c }
{
    for number in 0..square.side().div_ceil(64) {
        let word = under_word(square, row, number, limit);
        bits.put_word(row, number, word);
    }
}

/// Marks exactly the cells of a square whose grades are under the limit.
pub(crate) fn mark_under(marks: &mut Marks, square: &Square<u32>, limit: u32)
    requires side { marks.old.side ≡ square.now.side }
    requires few { square.now.side ≤ most_side }
    ensures side { marks.new.side ≡ marks.old.side }
    ensures cells { MarksUnder square.now limit marks.new.bits }
{
    for row in 0..square.side() {
        mark_row(&mut marks.bits, square, limit, row);
    }
}

/// Marks of a square of this side, for now of no cell. The error is want of memory.
pub(crate) fn no_marks(alloc: Global, side: u32) -> Result<Marks, NoMemory>
    requires { side ≤ most_side }
    ensures { IfOk result (λ m. m.side ≡ side) }
{
    let bits = BitRows::make(alloc, side, side)?;
    Ok(Marks { side, bits })
}

// A perfect matching by the cells under a limit, under which a valid choice lies. The error is want
// of memory.
fn matched(
    alloc: Global,
    inst: &Instance,
    square: &Square<u32>,
    limit: u32,
    marks: &Marks,
) -> Result<Matching, NoMemory>
    requires square { IsSquareOf inst.now free_grade grade_of square.now }
    requires some { 0 < limit }
    requires choice { HasChoiceUnder inst.now limit }
    requires side { marks.now.side ≡ square.now.side }
    requires cells { MarksUnder square.now limit marks.now.bits }
    ensures { IfOk result (IsPerfect (IsMarked marks.now.bits marks.now.side) square.now.side) }
{
    hall_law();
    let _ = limit;
    let _rows = inst.rows();
    match perfect_or_hall(alloc, square.side(), marks)? {
        Pairing::Perfect(matching) => Ok(matching),
        Pairing::Short(rows) => {
            let mut ids = [0; 1001];
            let _count = hall_of(square, inst, marks, rows.as_slice(), &mut ids);
            unreachable!()
        }
    }
}

/// A limit, marks for the cells under it, and a perfect matching by them.
#[derive(Drop)]
pub(crate) struct Start {
    pub(crate) limit: u32,
    pub(crate) marks: Marks,
    pub(crate) matching: Matching,
}

/// The start at a limit under which a valid choice lies. The error is want of memory.
pub(crate) fn known_start(
    alloc: Global,
    inst: &Instance,
    square: &Square<u32>,
    limit: u32,
) -> Result<Start, NoMemory>
    requires few { square.now.side ≤ most_side }
    requires square { IsSquareOf inst.now free_grade grade_of square.now }
    requires some { 0 < limit }
    requires choice { HasChoiceUnder inst.now limit }
    ensures { IfOk result (IsStart square.now) }
{
    let mut marks = no_marks(alloc, square.side())?;
    mark_under(&mut marks, square, limit);
    let matching = matched(alloc, inst, square, limit, &marks)?;
    Ok(Start {
        limit,
        marks,
        matching,
    })
}

// The work with these marks before any phase. The error is want of memory.
fn first_work(alloc: Global, marks: Marks) -> Result<Work, NoMemory>
    requires { marks.side ≤ most_side }
    ensures sized { IfOk result (AreSized marks.side) }
    ensures marks { IfOk result (λ work. work.marks ≡ marks) }
{
    let side = marks.side;
    let width = side.div_ceil(64);
    let ins = vec![in alloc; 0; side as usize]?;
    let outs = vec![in alloc; 0; (64 * width) as usize]?;
    let zeros = BitRows::make(alloc, side, side)?;
    let ones = BitRows::make(alloc, side, side)?;
    Ok(Work {
        marks,
        zeros,
        ones,
        ins,
        outs,
        phases: Vec::new(alloc),
    })
}

/// The run with these marks and this matching, and no level yet. The error is want of memory.
pub(crate) fn first_run(
    alloc: Global,
    inst: &Instance,
    cells: &LiveCells<'_>,
    marks: Marks,
    matching: Matching,
) -> Result<Run, NoMemory>
    requires few { square_side inst.now ≤ most_side }
    requires square { IsSquareOf inst.now free_grade grade_of cells.now.square.now }
    requires some { 0 < cells.now.limit }
    requires entries { AreEntriesUnder cells.now.square.now cells.now.limit cells.now.entries.now }
    requires side { marks.side ≡ cells.now.square.now.side }
    requires marked { MarksUnder cells.now.square.now cells.now.limit marks.bits }
    requires perfect { IsPerfect (IsMarked marks.bits marks.side) cells.now.square.now.side matching }
    ensures { IfOk result (λ run. (bound : ℕ) × IsRun inst.now cells.now.limit
        cells.now.entries.now bound (length cells.now.entries.now) run) }
{
    square_law::<u32>();
    let _rows = inst.rows();
    let tree = Tree::make(alloc, marks.side)?;
    let work = first_work(alloc, marks)?;
    Ok(Run {
        work,
        matching,
        tree,
        levels: Vec::new(alloc),
    })
}
