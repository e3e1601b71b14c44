//! Reads decimal numbers.

ghost use Rattle.std.specs.Prelude.{◌≡◌, ℕ, ◌^◌, ◌<◌, ◌≤◌, length, MatchOption};
ghost use Rattle.tag_uri.specs.Calls.Decimal.{AreDigits};
ghost use Rattle.tag_uri.specs.Decimal.{decimal_value, padded};

/// The number of a text of digits, if it has at most `width` bits.
pub fn number_below(text: &str, width: u32) -> Option<u64>
    requires digits { AreDigits text.now }
    requires some { 0 < length text.now }
    requires narrow { width < 64 }
    ensures { MatchOption result (2 ^ width ≤ decimal_value text.now) (λ n. (n
        ≡ decimal_value text.now) × (n < 2 ^ width)) }
{
    let Ok(number) = text.parse::<u64>() else {
        return None;
    };
    if number >> width == 0 {
        Some(number)
    } else {
        None
    }
}

/// The number of at most twelve digits; 0 of an empty text.
pub fn number_of(text: &str) -> u64
    requires digits { AreDigits text.now }
    requires short { length text.now ≤ 12 }
    ensures padded { text.now ≡ padded (length text.now) result }
    ensures below { result < 10 ^ length text.now }
{
    if text.is_empty() {
        return 0;
    }
    match number_below(text, 63) {
        Some(number) => number,
        None => unreachable!(),
    }
}
