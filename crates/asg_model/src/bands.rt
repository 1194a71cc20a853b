//! Bands of costs.

ghost use Rattle.std.specs.Prelude.{◌≡◌};
ghost use Rattle.asg_model.specs.Bands.{in_band};

/// A band of costs: any cost, the costs below or above a bound, or those between two, both
/// included.
#[derive(Clone, Copy, PartialEq, Eq)]
pub enum Band {
    Whole,
    Under(i64),
    Over(i64),
    Between(i64, i64),
}

impl Band {
    /// Whether the cost lies in the band.
    pub fn holds(self, cost: i64) -> bool
        ensures { result ≡ in_band self cost }
    {
        match self {
            Band::Whole => true,
            Band::Under(bound) => cost < bound,
            Band::Over(bound) => bound < cost,
            Band::Between(least, most) => least <= cost && cost <= most,
        }
    }
}
