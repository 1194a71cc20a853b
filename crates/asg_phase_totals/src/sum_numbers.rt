//! The numbers of a machine in which sums are taken.

ghost use Rattle.std.specs.Prelude.{◌≡◌, ◌<◌, ◌≤◌, ◌+◌, ◌-◌, ◌*◌, ◌%◌, ◌^◌, ℕ, IsTrue, false, List, Option, map};
ghost use Rattle.std.specs.Option.{option_map};
ghost use Rattle.asg_monoids.specs.BoundedSums.{narrow_top};
ghost use Rattle.asg_proof.specs.Phases.{PhaseOf};
ghost use Rattle.std.proofs.Common.{rules};
ghost use Rattle.asg_phase_totals.specs.SumNumbers.{numbered};
ghost use Rattle.asg_phase_totals.specs.laws.SameNumbers.{same_cells, same_list, same_option, same_phases};

/// Where sums in 64 bits stop: at 2^62.
pub const NARROW_TOP: u64 = 1 << 62;

/// An unsigned number of a machine, in which sums stop at a top. Contracts see it as the number
/// that it is; at `u64` and `u128` that is the value itself, and so are lists, options, cells and
/// phases of them.
pub trait SumNumber: Copy {
    // How many numbers there are.
    ghost width: { ℕ };

    // Where sums stop.
    ghost top: { ℕ };

    // The number.
    ghost number: { Self → ℕ };

    // The numbers of a list.
    ghost numbers: { List Self → List ℕ };

    // The number, if there is one.
    ghost present: { Option Self → Option ℕ };

    // The cells of a square, with the numbers of those that are present.
    ghost cells: { List (Option Self) → List (Option ℕ) };

    // The phases, with their steps as numbers.
    ghost phases: { List (PhaseOf Self) → List (PhaseOf ℕ) };

    /// 0.
    fn zero() -> Self
        ensures { number result ≡ 0 };

    /// Where sums stop.
    fn greatest_sum() -> Self
        ensures { number result ≡ top };

    /// The sum.
    fn plus(self, other: Self) -> Self
        requires { number self + number other < width }
        ensures { number result ≡ number self + number other };

    /// The difference.
    fn minus(self, other: Self) -> Self
        requires { number other ≤ number self }
        ensures { number result ≡ number self - number other };

    /// What is left of the sum below the width.
    fn wrapping_plus(self, other: Self) -> Self
        ensures { number result ≡ (number self + number other) % width };

    /// What is left of the difference, with the width more, below the width.
    fn wrapping_minus(self, other: Self) -> Self
        ensures { number result ≡ (number self + (width - number other)) % width };

    /// Whether it is less.
    fn is_below(self, other: Self) -> bool
        ensures below { IsTrue result → number self < number other }
        ensures not_below { result ≡ false → number other ≤ number self };

    // The sum of three sums is a number.
    ghost wide_law: { 3 * top < width };

    // The numbers of a list are those of its elements.
    ghost numbers_law: { (xs : List Self) → numbers xs ≡ map number xs };

    // So is that of an option.
    ghost present_law: { (x : Option Self) → present x ≡ option_map number x };

    // So is each cell of a square.
    ghost cells_law: { (xs : List (Option Self)) → cells xs ≡ map present xs };

    // The steps of phases are the numbers of theirs.
    ghost phases_law: { (ps : List (PhaseOf Self)) → phases ps ≡ map (numbered numbers) ps };
}

impl SumNumber for u64 {
    ghost width = { 2 ^ 64 };

    ghost top = { narrow_top };

    ghost number = { λ x. x };

    ghost numbers = { λ xs. xs };

    ghost present = { λ x. x };

    ghost cells = { λ xs. xs };

    ghost phases = { λ ps. ps };

    #[inline]
    fn zero() -> u64 {
        0
    }

    #[inline]
    fn greatest_sum() -> u64 {
        NARROW_TOP
    }

    #[inline]
    fn plus(self, other: u64) -> u64 {
        self + other
    }

    #[inline]
    fn minus(self, other: u64) -> u64 {
        self - other
    }

    #[inline]
    fn wrapping_plus(self, other: u64) -> u64 {
        self.wrapping_add(other)
    }

    #[inline]
    fn wrapping_minus(self, other: u64) -> u64 {
        self.wrapping_sub(other)
    }

    #[inline]
    fn is_below(self, other: u64) -> bool {
        self < other
    }

    ghost wide_law = { Prim.search rules };

    ghost numbers_law = { same_list };

    ghost present_law = { same_option };

    ghost cells_law = { same_cells };

    ghost phases_law = { same_phases };
}

impl SumNumber for u128 {
    ghost width = { 2 ^ 128 };

    ghost top = { 2 ^ 120 };

    ghost number = { λ x. x };

    ghost numbers = { λ xs. xs };

    ghost present = { λ x. x };

    ghost cells = { λ xs. xs };

    ghost phases = { λ ps. ps };

    #[inline]
    fn zero() -> u128 {
        0
    }

    #[inline]
    fn greatest_sum() -> u128 {
        1 << 120
    }

    #[inline]
    fn plus(self, other: u128) -> u128 {
        self + other
    }

    #[inline]
    fn minus(self, other: u128) -> u128 {
        self - other
    }

    #[inline]
    fn wrapping_plus(self, other: u128) -> u128 {
        self.wrapping_add(other)
    }

    #[inline]
    fn wrapping_minus(self, other: u128) -> u128 {
        self.wrapping_sub(other)
    }

    #[inline]
    fn is_below(self, other: u128) -> bool {
        self < other
    }

    ghost wide_law = { Prim.search rules };

    ghost numbers_law = { same_list };

    ghost present_law = { same_option };

    ghost cells_law = { same_cells };

    ghost phases_law = { same_phases };
}
