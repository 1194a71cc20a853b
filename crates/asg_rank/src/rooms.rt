//! How many answers a ranker may have to give.

ghost use Rattle.std.specs.Prelude.{◌≡◌, ◌≢◌, ℕ, ◌^◌, ◌<◌, ◌≤◌, List, Option, min, length, All, AllPairs};
ghost use Rattle.asg_model.specs.declared.parts.Place.TheVariants.{All as PlaceAll};
ghost use Rattle.asg_model.specs.Counts.{placed};
ghost use Rattle.asg_model.specs.Problem.{Problem};
ghost use Rattle.asg_model.specs.ValidChoice.{IsValid};
ghost use Rattle.asg_rank.specs.Rooms.{answer_room};

use asg_model::Instance;

// A power of a number that is cut at another one.
fn cut_power(base: u64, power: u32, most: u64) -> u64
    requires base { base ≤ 2 ^ 16 }
    requires most { most < 2 ^ 32 }
    ensures { result ≡ min (base ^ power) most }
{
    let mut product = 1.min(most);
    'factors: for _ in 0..power {
        product = (product * base).min(most);
    }
    product
}

/// For how many answers there is room where so many are asked for: not for more than one above the
/// number of ways to give each active row any column.
pub(crate) fn answer_room(inst: &Instance, count: u32) -> u32
    ensures { result ≡ answer_room inst.now count }
{
    let columns = inst.columns().len() as u64;
    let choices = cut_power(columns, inst.placed(), count as u64) as u32;
    if choices < count { choices + 1 } else { count }
}

/// The counting law: where all rows are placed, there are at most as many different valid choices
/// as ways to give each active row any column.
pub fn counting_law()
    ensures { (X : Problem) (choices : List (List (Option ℕ))) → X.place ≡ PlaceAll
        → All (IsValid X) choices → AllPairs ◌≢◌ choices
        → length choices ≤ length X.columns ^ placed X }
{}
