//! The `solve` lines of a script.

ghost use Rattle.std.specs.Prelude.{◌≡◌};
ghost use Rattle.asg_text.specs.SolveLines.{solve_count, solves};

use crate::Line;

/// Whether a line asks for an answer, as a number: 1 or 0.
pub fn solves(line: Line) -> usize
    ensures { result ≡ solves line }
{
    match line {
        Line::Solve => 1,
        Line::Edit(_) => 0,
    }
}

/// How many lines ask for an answer.
pub fn solve_count(lines: &[(u32, Line)]) -> usize
    ensures { result ≡ solve_count lines.now }
{
    let mut count = 0;
    'lines: for place in 0..lines.len() {
        let (_, line) = lines[place];
        count += solves(line);
    }
    count
}
