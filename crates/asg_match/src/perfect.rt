//! Perfect assignments, and rows that show that there is none.

ghost use Rattle.std.specs.Prelude.{◌≡◌, ◌↔◌, ℕ, ◌<◌, List, Option, IfOk, length};
ghost use Rattle.std.specs.Bool.{OnTrue, OnFalse};
ghost use Rattle.asg_match.specs.Matching.{IsMatched, AllAllowed, IsPerfect};
ghost use Rattle.asg_match.specs.Deficient.{IsDeficient};
ghost use Rattle.asg_match.specs.Pairing.{Answers, IsPerfectAnswer, IsShortAnswer};

use crate::{Allowed, Grown, Matching, NoMemory, Tree, augment};
use std::alloc::Global;
use std::marker::Model;

/// A list of rows.
#[derive(Drop)]
pub struct Rows {
    rows: Vec<u32>,
}

impl Model for Rows {
    ghost use Rattle.std.specs.Prelude.{ℕ, List};

    ghost Value = { List ℕ };

    ghost view = { λ r. r.rows.items };
}

impl Rows {
    /// These rows.
    pub fn of(rows: Vec<u32>) -> Rows
        ensures { result ≡ rows.items }
    {
        Rows { rows }
    }

    /// The rows, to be read.
    pub fn as_slice(&self) -> &[u32]
        ensures { result.now ≡ self.now }
    {
        self.rows.as_slice()
    }

    /// The rows, given back.
    pub fn into_vec(self) -> Vec<u32>
        ensures { result.items ≡ self }
    {
        self.rows
    }
}

/// What [`perfect_or_hall`] answers.
#[derive(Drop)]
pub enum Pairing {
    /// Each row below the side has a column of its own, by an allowed cell.
    Perfect(Matching),
    /// Different rows below the side that have fewer allowed columns than they are.
    Short(Rows),
}

// Sees to it that a row has a column, beside those that have one. False: some rows are deficient.
fn serve<A: Allowed>(allowed: &A, matching: &mut Matching, row: u32, tree: &mut Tree) -> bool
    requires side { A.side allowed.now ≡ length matching.old }
    requires tree_side { tree.old.side ≡ length matching.old }
    requires row_below { row < length matching.old }
    requires cells { AllAllowed (A.allows allowed.now) matching.old }
    ensures side { length matching.new ≡ length matching.old }
    ensures tree_side { tree.new.side ≡ tree.old.side }
    ensures cells { AllAllowed (A.allows allowed.now) matching.new }
    ensures kept { (r : ℕ) → IsMatched matching.old r → IsMatched matching.new r }
    ensures served { OnTrue result (IsMatched matching.new row) }
    ensures deficient { OnFalse result
        (IsDeficient (A.allows allowed.now) (length matching.old) tree.new.rows) }
{
    if matching.column_of(row).is_some() {
        return true;
    }
    augment(allowed, matching, row, tree) == Grown::Longer
}

/// Gives each row without a column one by an allowed cell, row after row. True: the matching is
/// perfect. False: the rows of the tree are deficient, that is they have fewer allowed columns than
/// they are (a Hall violator), and no perfect assignment exists. Rows that have a column keep one.
/// Takes no memory; the time grows with the square of the side for each row without a column.
pub fn complete<A: Allowed>(allowed: &A, matching: &mut Matching, tree: &mut Tree) -> bool
    requires side { A.side allowed.now ≡ length matching.old }
    requires tree_side { tree.old.side ≡ length matching.old }
    requires cells { AllAllowed (A.allows allowed.now) matching.old }
    ensures side { length matching.new ≡ length matching.old }
    ensures tree_side { tree.new.side ≡ tree.old.side }
    ensures cells { AllAllowed (A.allows allowed.now) matching.new }
    ensures kept { (r : ℕ) → IsMatched matching.old r → IsMatched matching.new r }
    ensures perfect { OnTrue result
        (IsPerfect (A.allows allowed.now) (length matching.old) matching.new) }
    ensures deficient { OnFalse result
        (IsDeficient (A.allows allowed.now) (length matching.old) tree.new.rows) }
{
    let side = matching.side();
    for row in 0..side {
        if !serve(allowed, matching, row, tree) {
            return false;
        }
    }
    prove_eq!(matching.side(), side);
    true
}

/// A perfect assignment of allowed cells, or a list of deficient rows (Hall's theorem): a fresh
/// matching that is completed. `Short` comes exactly where no perfect assignment exists. The time
/// grows with the cube of the side.
pub fn perfect_or_hall<A: Allowed>(
    alloc: Global,
    side: u32,
    allowed: &A,
) -> Result<Pairing, NoMemory>
    requires { A.side allowed.now ≡ side }
    ensures answer { IfOk result (Answers (A.allows allowed.now) side) }
    ensures perfect { IfOk result (λ p. IsPerfectAnswer p
        ↔ ((m : List (Option ℕ)) × IsPerfect (A.allows allowed.now) side m)) }
    ensures short { IfOk result (λ p. IsShortAnswer p
        ↔ ((m : List (Option ℕ)) → IsPerfect (A.allows allowed.now) side m → ⊥)) }
{
    let mut matching = Matching::make(alloc, side)?;
    let mut tree = Tree::make(alloc, side)?;
    if complete(allowed, &mut matching, &mut tree) {
        return Ok(Pairing::Perfect(matching));
    }
    Ok(Pairing::Short(Rows::of(tree.into_rows())))
}

/// A law, which does nothing: over rows that have fewer allowed columns than they are there is no
/// perfect assignment (the easy half of Hall's theorem).
pub fn short_or_perfect<A: Allowed>(allowed: &A)
    ensures { (rows : List ℕ) (m : List (Option ℕ))
        → IsDeficient (A.allows allowed.now) (A.side allowed.now) rows
        → IsPerfect (A.allows allowed.now) (A.side allowed.now) m → ⊥ }
{
    let _ = allowed;
}
