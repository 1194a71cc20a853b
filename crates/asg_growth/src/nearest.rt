//! The nearest column of a word of 64 columns: of those that weren't reached the one with the least
//! key, and of equal ones one that no row has.

ghost use Rattle.std.specs.Prelude.{◌≡◌, ℕ, [], ◌+◌, ◌*◌, ◌<◌, ◌≤◌};
ghost use Rattle.std.specs.Prelude.{false, None, Some, length, IsTrue};
ghost use Rattle.asg_model.specs.Limits.{most_side};
ghost use Rattle.asg_order.specs.Monoid.{IsValue, IsLe};
ghost use Rattle.asg_match.specs.ColumnSet.{HasColumn};
ghost use Rattle.asg_growth.specs.Leads.{leads_of, lead_at, Picks};
ghost use Rattle.asg_growth.specs.Nearest.{IsWithin, HasKey, IsNearer, IsNearest};
ghost use Rattle.asg_growth.specs.Scanned.{AreValued};

use asg_match::Matching;
use asg_order::DMonoid;

// Whether a column that is looked at after another with this key is to be taken in its place: where
// its key is less, or is the same and no row has it, so that the path ends there.
#[inline]
fn takes_place<M: DMonoid>(
    m: &M,
    matching: &Matching,
    former: M::Value,
    column: u32,
    key: M::Value,
) -> bool
    requires key { IsValue (M.monoid_of m.now) key }
    requires former { IsValue (M.monoid_of m.now) former }
    requires column { column < length matching.now }
    ensures yes { IsTrue result → IsLe (M.monoid_of m.now) key former }
    ensures no { result ≡ false → IsLe (M.monoid_of m.now) former key }
{
    if !m.le(former, key) {
        return true;
    }
    if !m.le(key, former) {
        return false;
    }
    matching.row_of(column).is_none()
}

// The nearer one of a former column, if there is one, and another.
#[inline]
pub(crate) fn nearer<M: DMonoid>(
    m: &M,
    matching: &Matching,
    keys: &[M::Value],
    former: Option<u32>,
    column: u32,
) -> Option<u32>
    requires column { HasKey (M.monoid_of m.now) keys.now column }
    requires former { (k : ℕ) → former ≡ Some k → HasKey (M.monoid_of m.now) keys.now k }
    requires matching { column < length matching.now }
    ensures { IsNearer (M.monoid_of m.now) keys.now former column result }
{
    match former {
        None => Some(column),
        Some(other) => {
            let key = keys[column as usize];
            if takes_place(m, matching, keys[other as usize], column, key) {
                Some(column)
            } else {
                former
            }
        }
    }
}

// The nearer one of two columns, where there are two.
#[inline]
pub(crate) fn nearest_of<M: DMonoid>(
    m: &M,
    matching: &Matching,
    keys: &[M::Value],
    former: Option<u32>,
    found: Option<u32>,
) -> Option<u32>
    requires found { (k : ℕ) → found ≡ Some k → HasKey (M.monoid_of m.now) keys.now k }
    requires former { (k : ℕ) → former ≡ Some k → HasKey (M.monoid_of m.now) keys.now k }
    requires matching { length matching.now ≡ length keys.now }
    ensures { IsNearest (M.monoid_of m.now) keys.now former found result }
{
    match found {
        None => former,
        Some(column) => nearer(m, matching, keys, former, column),
    }
}

// The column with the least key of those of a word that weren't reached, if one has a key; of equal
// ones one that no row has.
pub(crate) fn nearest_in_word<M: DMonoid>(
    m: &M,
    matching: &Matching,
    keys: &[M::Value],
    keyed: &[u64],
    unseen: &[u64],
    number: u32,
) -> Option<u32>
    requires leads { AreValued (M.monoid_of m.now) (leads_of keys.now keyed.now []) unseen.now }
    requires within { (k : ℕ) → HasColumn unseen.now k → k < length keys.now }
    requires small { length keys.now ≤ most_side }
    requires matching { length matching.now ≡ length keys.now }
    requires word { number < length unseen.now }
    requires keyed { length keyed.now ≡ length unseen.now }
    ensures { let leads = leads_of keys.now keyed.now [] in
        Picks (M.monoid_of m.now) (lead_at (M.monoid_of m.now) leads) (IsWithin number unseen.now)
        result }
{
    let mut rest = unseen[number as usize] & keyed[number as usize];
    let mut nearest = None;
    'columns: while rest != 0 {
        let k = rest.trailing_zeros();
        nearest = nearer(m, matching, keys, nearest, 64 * number + k);
        rest &= !(1 << k);
    }
    nearest
}
