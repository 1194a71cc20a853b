//! Lists of costs, of which one is better.

use asg_model::{Costs, Objective, Value};
use asg_values::better;
use std::alloc::{AllocError, Global};
use std::test::Fail;

// The value of `lex` with these costs.
fn many(alloc: Global, costs: &[i64]) -> Result<Value, AllocError> {
    Ok(Value::Many(Costs::from_vec(Vec::from_slice(alloc, costs)?)))
}

// Whether the first of two lists is told to be better, and no other.
fn is_better(low: &Value, high: &Value) -> bool {
    better(Objective::Lex, low, high)
        && !better(Objective::Lex, high, low)
        && !better(Objective::Lex, low, low)
}

// Whether one is told to be better than 3, 2, 2.
fn is_lower(alloc: Global, low: &Value) -> Result<bool, AllocError> {
    let high = many(alloc, &[3, 2, 2])?;
    let is_better = is_better(low, &high);
    drop(high);
    Ok(is_better)
}

// Whether 2, 2, 1 is.
fn tells_better(alloc: Global) -> Result<bool, AllocError> {
    let low = many(alloc, &[2, 2, 1])?;
    let is_lower = is_lower(alloc, &low);
    drop(low);
    is_lower
}

#[test]
fn lists_are_compared(rt: HostRuntime) -> Result<(), Fail> {
    assert!(rt; tells_better(rt.alloc())?);
    Ok(())
}
