//! Ordered monoids and d-monoids.

ghost use Rattle.std.specs.Prelude.{◌≡◌};
ghost use Rattle.asg_order.specs.Monoid.{Monoid, IsValue, IsOrderedMonoid};
ghost use Rattle.asg_order.specs.Differences.{HasDifferences};

/// An ordered monoid. Its laws hold over all that `is_value` accepts.
pub trait Ordered {
    type Value: Copy;

    // The monoid, as contracts see it.
    ghost monoid_of: { Self → Monoid Self.Value };

    /// Whether x is a value of the monoid.
    fn is_value(&self, x: Self::Value) -> bool
        ensures { result ≡ (monoid_of self.now).is_value x };

    /// The unit, which is the least value.
    fn unit(&self) -> Self::Value
        ensures unit { result ≡ (monoid_of self.now).unit }
        ensures is_value { IsValue (monoid_of self.now) result };

    /// The product of two values.
    fn op(&self, x: Self::Value, y: Self::Value) -> Self::Value
        requires left { IsValue (monoid_of self.now) x }
        requires right { IsValue (monoid_of self.now) y }
        ensures product { result ≡ (monoid_of self.now).product x y }
        ensures is_value { IsValue (monoid_of self.now) result };

    /// Whether x is at most y, both being values.
    fn le(&self, x: Self::Value, y: Self::Value) -> bool
        requires left { IsValue (monoid_of self.now) x }
        requires right { IsValue (monoid_of self.now) y }
        ensures { result ≡ (monoid_of self.now).is_le x y };

    // The laws of an ordered monoid.
    ghost laws: { (m : Self) → IsOrderedMonoid (monoid_of m) };
}

/// An ordered monoid with differences: a d-monoid [Zimmermann 1981].
pub trait DMonoid: Ordered {
    // The least z for which y is at most the product of x and z, by y and then x.
    ghost difference: { Self → Self.Value → Self.Value → Self.Value };

    /// The least z for which y is at most the product of x and z, all being values.
    fn diff(&self, y: Self::Value, x: Self::Value) -> Self::Value
        requires of { IsValue (Self.monoid_of self.now) y }
        requires from { IsValue (Self.monoid_of self.now) x }
        ensures difference { result ≡ difference self.now y x }
        ensures is_value { IsValue (Self.monoid_of self.now) result };

    // The laws of a difference.
    ghost difference_laws: { (m : Self) → HasDifferences (Self.monoid_of m) (difference m) };
}
