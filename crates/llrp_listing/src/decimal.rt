//! Whole numbers in decimal text.

ghost use Rattle.std.specs.Prelude.{◌∷◌, ◌≡◌, ◌≤◌, FitsSigned, MatchOption, decimal, ℕ, ℤ};
ghost use Rattle.std.specs.Fmt.{signed_decimal};
ghost use Rattle.std.specs.Int.{w8};

use crate::read_numbers::numeral;

/// The number up to `most` that the word is in decimal, or `None`.
pub fn number_of(word: &[u8], most: u64) -> Option<u64>
    ensures { MatchOption result
        ((n : ℕ) → n ≤ most → word.now ≡ decimal n → ⊥)
        (λ n. (n ≤ most) × (word.now ≡ decimal n)) }
{
    let n = numeral(word)?;
    if n <= most as u128 {
        Some(n as u64)
    } else {
        None
    }
}

/// The number from -128 to 127 that the word is in decimal, with `-` before a negative one.
pub fn signed_byte_of(word: &[u8]) -> Option<i8>
    ensures { MatchOption result
        ((z : ℤ) → FitsSigned w8 z → word.now ≡ signed_decimal z → ⊥)
        (λ z. FitsSigned w8 z × (word.now ≡ signed_decimal z)) }
{
    match word.split_first() {
        Some((b'-', digits)) => negative_of(digits),
        _ => Some(number_of(word, 127)? as i8),
    }
}

/// The number from -128 to -1 that has these digits after its `-`.
fn negative_of(digits: &[u8]) -> Option<i8>
    ensures { MatchOption result
        ((z : ℤ) → FitsSigned w8 z → 45 ∷ digits.now ≡ signed_decimal z → ⊥)
        (λ z. FitsSigned w8 z × (45 ∷ digits.now ≡ signed_decimal z)) }
{
    let n = number_of(digits, 128)?;
    if n == 0 {
        return None;
    }
    // The subtraction comes last, since an i8 holds -128 but not 128.
    Some(-1 - (n - 1) as i8)
}
