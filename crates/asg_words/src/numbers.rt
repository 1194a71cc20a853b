//! The numbers that words spell.

ghost use Rattle.std.specs.Prelude.{◌≡◌, ◌≤◌, IfSome};
ghost use Rattle.std.specs.List.{list_all};
ghost use Rattle.std.specs.Char.{is_ascii_digit};
ghost use Rattle.asg_words.specs.Numbers.{is_number, number_of, number_within};

// Whether each byte is a decimal digit.
fn are_digits(text: &str) -> bool
    ensures { result ≡ list_all is_ascii_digit text.now }
{
    text.bytes().all(|byte| byte.is_ascii_digit())
}

// Whether the text is one to thirteen decimal digits.
fn is_number(text: &str) -> bool
    ensures { result ≡ is_number text.now }
{
    !text.is_empty() && text.len() <= 13 && are_digits(text)
}

// The number that the digits spell.
fn number(text: &str) -> Option<u64>
    ensures { result ≡ number_of text.now }
{
    if is_number(text) {
        text.parse().ok()
    } else {
        None
    }
}

// The number, where it is one from `least` to `most`.
pub fn number_within(text: &str, least: u64, most: u64) -> Option<u64>
    ensures number { result ≡ number_within least most text.now }
    ensures at_most { IfSome result (λ number. number ≤ most) }
{
    match number(text) {
        Some(number) if least <= number && number <= most => Some(number),
        _ => None,
    }
}

// The same of a number that a `u32` holds.
pub fn small_number(text: &str, least: u32, most: u32) -> Option<u32>
    ensures { result ≡ number_within least most text.now }
{
    match number_within(text, u64::from(least), u64::from(most)) {
        Some(number) => Some(number as u32),
        None => None,
    }
}
