//! Reading and writing at places that may lie outside a list.

/// No row or column.
pub(crate) const NONE: u32 = u32::MAX;

/// The name at a place, `NONE` past the last.
#[inline]
pub(crate) fn name_at(names: &[u32], place: usize) -> u32 {
    if place < names.len() {
        names[place]
    } else {
        NONE
    }
}

/// Writes a name at a place, nothing past the last.
#[inline]
pub(crate) fn put_name(names: &mut Vec<u32>, place: usize, name: u32) {
    if place < names.len() {
        names[place] = name;
    }
}

/// The number at a place, 0 past the last.
#[inline]
pub(crate) fn number_at(numbers: &[u64], place: usize) -> u64 {
    if place < numbers.len() {
        numbers[place]
    } else {
        0
    }
}

/// The distance at a place, 0 past the last.
#[inline]
pub(crate) fn distance_at(distances: &[i64], place: usize) -> i64 {
    if place < distances.len() {
        distances[place]
    } else {
        0
    }
}

/// Writes a distance at a place, nothing past the last.
#[inline]
pub(crate) fn put_distance(distances: &mut Vec<i64>, place: usize, distance: i64) {
    if place < distances.len() {
        distances[place] = distance;
    }
}

/// Adds to the number at a place.
#[inline]
pub(crate) fn raise(numbers: &mut Vec<u64>, place: usize, by: i64) {
    if place < numbers.len() {
        numbers[place] = numbers[place].wrapping_add(by.cast_unsigned());
    }
}

/// The place as the name of a column.
#[inline]
pub(crate) fn name(place: usize) -> u32 {
    if place < 4_294_967_295 {
        place as u32
    } else {
        NONE
    }
}
