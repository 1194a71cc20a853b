//! The numbers that fields and tokens spell.

ghost use Rattle.std.specs.Prelude.{◌≡◌, ◌<◌, ◌∷◌, drop, IsTrue, length, pos, min};
ghost use Rattle.std.specs.Option.{option_map};
ghost use Rattle.std.specs.Str.Parse.{starts_with_minus};
ghost use Rattle.asg_tokens.specs.Numbers.{number_of, integer_of, size_of, integer_in_range};

use asg_model::limits::MOST_COST;

// One more than the greatest size or id: a longer number is as good as this one.
const CAP: u64 = 4_294_967_296;

// The greatest amount of a cost.
pub(crate) const MOST_AMOUNT: u64 = MOST_COST as u64;

// The number of one or more digits, or `CAP` where it is larger.
fn capped_number(digits: &[u8]) -> Option<u64>
    ensures { result ≡ option_map (min CAP) (number_of digits.now) }
{
    if digits.is_empty() {
        return None;
    }
    let mut number = 0;
    for digit in digits {
        if !digit.is_ascii_digit() {
            return None;
        }
        number = (number * 10 + u64::from(*digit - b'0')).min(CAP);
    }
    Some(number)
}

/// The size or id that a piece spells; `None` where it spells none of at most 4,294,967,295.
#[tactic(auto, unfolding(crate::specs::Numbers::size_of))]
pub fn size(piece: &[u8]) -> Option<u32>
    ensures { result ≡ size_of piece.now }
{
    match capped_number(piece) {
        Some(number) if number < CAP => Some(number as u32),
        _ => None,
    }
}

/// The integer that a piece spells, or `Some(None)` where it is below -10^9 or above 10^9; `None`
/// where it spells none.
#[tactic(auto, unfolding(crate::specs::Numbers::integer_of))]
pub fn integer(piece: &[u8]) -> Option<Option<i64>>
    ensures { result ≡ option_map integer_in_range (integer_of piece.now) }
{
    if is_negative(piece) {
        amount(&piece[1..]).map(|amount| amount.map(|amount| -amount))
    } else {
        amount(piece)
    }
}

/// Whether the piece begins with a minus sign.
pub(crate) fn is_negative(piece: &[u8]) -> bool
    ensures sign { result ≡ starts_with_minus piece.now }
    ensures some { IsTrue result → 0 < length piece.now }
    ensures behind { IsTrue result → piece.now ≡ 45 ∷ drop 1 piece.now }
{
    piece.first() == Some(&b'-')
}

// The number that digits spell, or `Some(None)` where it is above 10^9.
fn amount(digits: &[u8]) -> Option<Option<i64>>
    ensures { result ≡ option_map (λ n. integer_in_range (pos n)) (number_of digits.now) }
{
    match capped_number(digits) {
        Some(number) if number <= MOST_AMOUNT => Some(Some(number as i64)),
        Some(_) => Some(None),
        None => None,
    }
}
