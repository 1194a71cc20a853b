//! Values of a row of cells that change, 64 at a time.

ghost use Rattle.std.specs.Prelude.{◌≡◌, ◌<◌, ◌≤◌, ◌+◌, ◌-◌, ◌*◌, ◌/◌, ◌%◌, true, length, slice_index};
ghost use Rattle.asg_bit_rows.specs.BitTable.{is_bit_set, word_count};
ghost use Rattle.asg_cell_tables.specs.Changes.{MayChange, ChangesValues};
ghost use Rattle.asg_model.specs.Limits.{most_side};

// Changes the values of a row of cells that stands in a list from a place on, where the words say
// that the cells are present.
#[inline]
pub(crate) fn change_row<V: Copy, F: Fn(u32, V) -> V>(
    values: &mut Vec<V>,
    start: usize,
    side: usize,
    words: &[u64],
    change: &F,
)
    requires few { side ≤ most_side }
    requires within { start + side ≤ length values.old.items }
    requires words { length words.now ≡ word_count side }
    requires changes { MayChange values.old.items start 0 side
        (λ k. is_bit_set (slice_index words.now (k / 64)) (k % 64)) (F.pre change.now) }
    ensures { ChangesValues values.old.items values.new.items start 0 side
        (λ k. is_bit_set (slice_index words.now (k / 64)) (k % 64)) (F.post change.now) }
{
    change_words(values.as_mut_slice(), start, side, words, change);
}

// The same, of a list that is lent.
#[inline]
fn change_words<V: Copy, F: Fn(u32, V) -> V>(
    values: &mut [V],
    start: usize,
    side: usize,
    words: &[u64],
    change: &F,
)
    requires few { side ≤ most_side }
    requires within { start + side ≤ length values.old }
    requires words { length words.now ≡ word_count side }
    requires changes { MayChange values.old start 0 side
        (λ k. is_bit_set (slice_index words.now (k / 64)) (k % 64)) (F.pre change.now) }
    ensures { ChangesValues values.old values.new start 0 side
        (λ k. is_bit_set (slice_index words.now (k / 64)) (k % 64)) (F.post change.now) }
{
    for number in 0..words.len() {
        let from = 64 * number;
        let to = (from + 64).min(side);
        change_word(values, start, from, to, words[number], change);
    }
}

// Changes the values of up to 64 cells, where the word says that they are present.
#[inline]
fn change_word<V: Copy, F: Fn(u32, V) -> V>(
    values: &mut [V],
    start: usize,
    from: usize,
    to: usize,
    word: u64,
    change: &F,
)
    requires order { from ≤ to }
    requires few { to ≤ most_side }
    requires word { to ≤ from + 64 }
    requires within { start + to ≤ length values.old }
    requires changes { MayChange values.old start from to (λ k. is_bit_set word (k - from))
        (F.pre change.now) }
    ensures { ChangesValues values.old values.new start from to (λ k. is_bit_set word (k - from))
        (F.post change.now) }
{
    if word == u64::MAX {
        change_all(values, start, from, to, change);
    } else {
        change_some(values, start, from, to, word, change);
    }
}

// Changes the values of cells that are all present.
#[inline]
fn change_all<V: Copy, F: Fn(u32, V) -> V>(
    values: &mut [V],
    start: usize,
    from: usize,
    to: usize,
    change: &F,
)
    requires order { from ≤ to }
    requires few { to ≤ most_side }
    requires within { start + to ≤ length values.old }
    requires changes { MayChange values.old start from to (λ _. true) (F.pre change.now) }
    ensures { ChangesValues values.old values.new start from to (λ _. true) (F.post change.now) }
{
    for k in from..to {
        change_if(values, start, k, true, change);
    }
}

// Changes the values of the cells whose bit in the word is set.
#[inline]
fn change_some<V: Copy, F: Fn(u32, V) -> V>(
    values: &mut [V],
    start: usize,
    from: usize,
    to: usize,
    word: u64,
    change: &F,
)
    requires order { from ≤ to }
    requires few { to ≤ most_side }
    requires word { to ≤ from + 64 }
    requires within { start + to ≤ length values.old }
    requires changes { MayChange values.old start from to (λ k. is_bit_set word (k - from))
        (F.pre change.now) }
    ensures { ChangesValues values.old values.new start from to (λ k. is_bit_set word (k - from))
        (F.post change.now) }
{
    for k in from..to {
        change_if(values, start, k, is_set(word, k - from), change);
    }
}

// Whether a bit of a word is set.
#[inline]
fn is_set(word: u64, bit: usize) -> bool
    requires { bit < 64 }
    ensures { result ≡ is_bit_set word bit }
{
    word >> bit & 1 == 1
}

// Changes the value of a cell that is present.
#[inline]
fn change_if<V: Copy, F: Fn(u32, V) -> V>(
    values: &mut [V],
    start: usize,
    k: usize,
    is_present: bool,
    change: &F,
)
    requires few { k < most_side }
    requires within { start + k < length values.old }
    requires changes { MayChange values.old start k (k + 1) (λ _. is_present) (F.pre change.now) }
    ensures { ChangesValues values.old values.new start k (k + 1) (λ _. is_present)
        (F.post change.now) }
{
    if is_present {
        let place = start + k;
        values[place] = change(k as u32, values[place]);
    }
}
