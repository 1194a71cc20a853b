//! Columns as bits, 64 to a word.

ghost use Rattle.std.specs.Prelude.{◌≡◌, ◌⊎◌, ◌↔◌, ℕ, ◌<◌, ◌/◌, IsTrue, length, slice_index};
ghost use Rattle.asg_match.specs.ColumnSet.{HasBit, HasColumn};

/// Adds the bits of some words to others.
pub(crate) fn add_words(columns: &mut Vec<u64>, words: &[u64])
    requires { length columns.old.items ≡ length words.now }
    ensures count { length columns.new.items ≡ length columns.old.items }
    ensures bits { (i k : ℕ) → HasBit (slice_index columns.new.items i) k
        ↔ (HasBit (slice_index columns.old.items i) k ⊎ HasBit (slice_index words.now i) k) }
{
    for number in 0..columns.len() {
        let word = columns[number] | words[number];
        columns[number] = word;
    }
}

/// Clears all bits.
pub(crate) fn clear_words(words: &mut Vec<u64>)
    ensures count { length words.new.items ≡ length words.old.items }
    ensures none { (c : ℕ) → HasColumn words.new.items c → ⊥ }
{
    words.as_mut_slice().fill(0);
}

/// Whether the bit of a column is set.
#[inline]
pub(crate) fn has_column(columns: &[u64], column: usize) -> bool
    requires { column / 64 < length columns.now }
    ensures { IsTrue result ↔ HasColumn columns.now column }
{
    columns[column / 64] >> (column % 64) & 1 == 1
}

/// Whether some bit is set.
pub(crate) fn has_any(words: &[u64]) -> bool
    ensures { IsTrue result ⊎ ((i k : ℕ) → HasBit (slice_index words.now i) k → ⊥) }
{
    for word in words {
        if *word != 0 {
            return true;
        }
    }
    false
}
