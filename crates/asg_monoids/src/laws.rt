//! What holds of entered costs, for the crates above. A call does nothing: it tells its caller the
//! law.

ghost use Rattle.std.specs.Prelude.{◌≡◌, ◌≤◌, ◌<◌, ◌^◌, List, length, All};
ghost use Rattle.asg_model.specs.declared.parts.Cost.{Cost};
ghost use Rattle.asg_model.specs.declared.objectives.Objective.TheVariants.{Sum, SumMax, SumPair};
ghost use Rattle.asg_model.specs.Limits.{most_rows};
ghost use Rattle.asg_order.specs.Entering.{MayEnter};
ghost use Rattle.asg_order.specs.Bridge.{costs_fold};
ghost use Rattle.asg_order.specs.Monoid.{IsValue};
ghost use Rattle.asg_monoids.specs.BoundedSums.{bounded_sums, narrow_top};
ghost use Rattle.asg_monoids.specs.Entered.{cost_reach, sum_entered};

/// Sums of no more entered costs than an instance may have rows stay far below their top of 2^120:
/// those of `sum` and `sum-max` below 2^41, those of `pair` below 2^84.
pub fn sums_in_range()
    ensures sum { (u : List Cost)
        → length u ≤ most_rows
        → All (MayEnter Sum cost_reach) u
        → costs_fold (bounded_sums (2 ^ 120)) (sum_entered Sum) u < 2 ^ 41 }
    ensures sum_max { (u : List Cost)
        → length u ≤ most_rows
        → All (MayEnter SumMax cost_reach) u
        → costs_fold (bounded_sums (2 ^ 120)) (sum_entered SumMax) u < 2 ^ 41 }
    ensures pair { (u : List Cost)
        → length u ≤ most_rows
        → All (MayEnter SumPair cost_reach) u
        → costs_fold (bounded_sums (2 ^ 120)) (sum_entered SumPair) u < 2 ^ 84 }
{}

/// Sums of no more entered costs of `sum` and `sum-max` than an instance may have rows are the same
/// where they stop at 2^62, which they stay below, as where they stop at 2^120. And each of these
/// costs enters as a number up to 2^62.
pub fn narrow_sums()
    ensures sum { (u : List Cost)
        → length u ≤ most_rows
        → All (MayEnter Sum cost_reach) u
        → (costs_fold (bounded_sums narrow_top) (sum_entered Sum) u
        ≡ costs_fold (bounded_sums (2 ^ 120)) (sum_entered Sum) u)
        × (costs_fold (bounded_sums narrow_top) (sum_entered Sum) u < narrow_top) }
    ensures sum_max { (u : List Cost)
        → length u ≤ most_rows
        → All (MayEnter SumMax cost_reach) u
        → (costs_fold (bounded_sums narrow_top) (sum_entered SumMax) u
        ≡ costs_fold (bounded_sums (2 ^ 120)) (sum_entered SumMax) u)
        × (costs_fold (bounded_sums narrow_top) (sum_entered SumMax) u < narrow_top) }
    ensures values { (cost : Cost)
        → (MayEnter Sum cost_reach cost
        → IsValue (bounded_sums narrow_top) (sum_entered Sum cost))
        × (MayEnter SumMax cost_reach cost
        → IsValue (bounded_sums narrow_top) (sum_entered SumMax cost)) }
{}
