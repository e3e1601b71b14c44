//! Laws of this crate's definitions, over every value.

ghost use Rattle.std.specs.Prelude.{◌≡◌, ℕ, ◌^◌, ◌<◌, Bool, List};
ghost use Rattle.tag_bits.specs.Digits.{digits};
ghost use Rattle.tag_bits.specs.Calls.Digits.{AreDigits};

/// Each number below 2 ^ w has exactly one list of w binary digits, the most significant first,
/// whose sum of digits times powers of two is the number (LLRP 1.1 and TDS 1.13, binary encoding).
pub fn one_list_of_digits()
    ensures some { (w n : ℕ) → n < 2 ^ w → AreDigits w n (digits w n) }
    ensures only { (w n : ℕ) (ds : List Bool) → AreDigits w n ds → ds ≡ digits w n }
{}
