//! What follows from the laws of the traits, for code that is generic in a monoid. A call does
//! nothing: it tells its caller the law.

ghost use Rattle.std.specs.Prelude.{◌≡◌, ℕ, ◌+◌, List, ◌++◌, length, map, All, IsPermutation};
ghost use Rattle.std.specs.List.{AllZip};
ghost use Rattle.asg_order.specs.Monoid.{IsValue, IsLe, fold_of};
ghost use Rattle.asg_order.specs.Powers.{power_of};

use crate::ordered::{DMonoid, Ordered};

/// The product of a rearranged list is that of the list.
pub fn rearranged<M: Ordered>(m: &M)
    ensures { let monoid = M.monoid_of m.now in
        (xs ys : List M.Value)
        → All (IsValue monoid) xs
        → IsPermutation xs ys
        → fold_of monoid ys ≡ fold_of monoid xs }
{}

/// The product of two lists, one after the other, is the product of their products.
pub fn joined<M: Ordered>(m: &M)
    ensures { let monoid = M.monoid_of m.now in
        (xs ys : List M.Value)
        → All (IsValue monoid) xs
        → All (IsValue monoid) ys
        → fold_of monoid (xs ++ ys) ≡ monoid.product (fold_of monoid xs) (fold_of monoid ys) }
{}

/// The power of a value: it is a value, and that of a sum of numbers is the product of the powers.
pub fn power<M: Ordered>(m: &M)
    ensures is_value { let monoid = M.monoid_of m.now in
        (x : M.Value) (n : ℕ) → IsValue monoid x → IsValue monoid (power_of monoid x n) }
    ensures none { let monoid = M.monoid_of m.now in
        (x : M.Value) → power_of monoid x 0 ≡ monoid.unit }
    ensures one { let monoid = M.monoid_of m.now in
        (x : M.Value) → IsValue monoid x → power_of monoid x 1 ≡ x }
    ensures sum { let monoid = M.monoid_of m.now in
        (x : M.Value) (i j : ℕ)
        → IsValue monoid x
        → power_of monoid x (i + j) ≡ monoid.product (power_of monoid x i) (power_of monoid x j) }
{}

/// Where each value of a list is multiplied by c, its product is multiplied by the power of c.
pub fn scaled<M: Ordered>(m: &M)
    ensures { let monoid = M.monoid_of m.now in
        (c : M.Value) (xs : List M.Value)
        → IsValue monoid c
        → All (IsValue monoid) xs
        → fold_of monoid (map (monoid.product c) xs)
        ≡ monoid.product (power_of monoid c (length xs)) (fold_of monoid xs) }
{}

/// Where each value of one list is at most that of another, so is its product.
pub fn raised<M: Ordered>(m: &M)
    ensures { let monoid = M.monoid_of m.now in
        (xs ys : List M.Value)
        → All (IsValue monoid) xs
        → All (IsValue monoid) ys
        → AllZip (IsLe monoid) xs ys
        → IsLe monoid (fold_of monoid xs) (fold_of monoid ys) }
{}

/// The differences from c: where c is at most x, x is the product of c and the difference; a
/// greater value has the greater difference; and the difference from c and then from d is that from
/// their product.
pub fn differences<M: DMonoid>(m: &M)
    ensures whole { let monoid = M.monoid_of m.now in
        (x c : M.Value)
        → IsValue monoid x
        → IsValue monoid c
        → IsLe monoid c x
        → monoid.product c (M.difference m.now x c) ≡ x }
    ensures monotone { let monoid = M.monoid_of m.now in
        (x y c : M.Value)
        → IsValue monoid x
        → IsValue monoid y
        → IsValue monoid c
        → IsLe monoid x y
        → IsLe monoid (M.difference m.now x c) (M.difference m.now y c) }
    ensures twice { let monoid = M.monoid_of m.now in
        (x c d : M.Value)
        → IsValue monoid x
        → IsValue monoid c
        → IsValue monoid d
        → M.difference m.now (M.difference m.now x c) d
        ≡ M.difference m.now x (monoid.product c d) }
{}
