//! Sets of columns, as words of bits.

ghost use Rattle.std.specs.Prelude.{◌≡◌, ◌≢◌, ◌⊎◌, ℕ, ◌<◌, ◌↔◌, length};
ghost use Rattle.asg_match.specs.ColumnSet.{HasColumn, IsColumnSet, word_count};

use asg_bit_rows::first_bits;

// Makes the set that of all columns below the side.
pub(crate) fn fill(words: &mut Vec<u64>, side: usize)
    requires { length words.old.items ≡ word_count side }
    ensures set { IsColumnSet side words.new.items }
    ensures all { (c : ℕ) → c < side → HasColumn words.new.items c }
{
    for number in 0..words.len() {
        words[number] = first_bits(side - 64 * number);
    }
}

/// Takes a column out of the set: bit `column % 64` of word `column / 64`.
#[inline]
pub fn remove(words: &mut Vec<u64>, side: usize, column: usize)
    requires set { IsColumnSet side words.old.items }
    requires below { column < side }
    ensures set { IsColumnSet side words.new.items }
    ensures others { (c : ℕ)
        → HasColumn words.new.items c ↔ (HasColumn words.old.items c × (c ≢ column)) }
{
    words[column / 64] &= !(1 << (column % 64));
}

// Puts a column into the set.
#[inline]
pub(crate) fn add(words: &mut Vec<u64>, side: usize, column: usize)
    requires set { IsColumnSet side words.old.items }
    requires below { column < side }
    ensures set { IsColumnSet side words.new.items }
    ensures others { (c : ℕ)
        → HasColumn words.new.items c ↔ (HasColumn words.old.items c ⊎ (c ≡ column)) }
{
    words[column / 64] |= 1 << (column % 64);
}
