//! Costs as numbers of 32 bits.

use asg_dual_numbers::Number;

// Writes by how much costs are above a base, or below it, and tells the bits that any of them has.
pub(crate) fn put_numbers(numbers: &mut [i32], costs: &[i64], base: i64, is_below: bool) -> u64 {
    let mut bits = 0;
    for column in 0..costs.len().min(numbers.len()) {
        let cost = costs[column];
        let number = if is_below {
            base.wrapping_sub(cost)
        } else {
            cost.wrapping_sub(base)
        };
        let number = number.cast_unsigned();
        bits |= number;
        numbers[column] = i32::of(number);
    }
    bits
}

// The greatest of some costs, or the least.
pub(crate) fn end_of(costs: &[i64], is_greatest: bool) -> i64 {
    let mut end = if is_greatest { i64::MIN } else { i64::MAX };
    for column in 0..costs.len() {
        let cost = costs[column];
        end = if is_greatest {
            end.max(cost)
        } else {
            end.min(cost)
        };
    }
    end
}
