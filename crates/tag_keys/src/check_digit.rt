//! Check digits of GS1 keys (GS1 General Specifications, section 7.9).

ghost use Rattle.std.specs.Prelude.{◌≡◌, ℕ, ◌+◌, ◌-◌, ◌%◌, ◌≤◌, length};
ghost use Rattle.tag_uri.specs.Calls.Decimal.{AreDigits};
ghost use Rattle.tag_keys.specs.CheckDigit.{weight as weight_of, weighed as weighed_sum, is_checked as checked};

/// The weight of a digit that this many digits follow.
fn weight(behind: usize) -> u32
    ensures { result ≡ weight_of behind }
{
    if behind % 2 == 0 { 1 } else { 3 }
}

/// The sum of the digits times their weights.
fn weighed(digits: &[u8]) -> u32
    requires digits { AreDigits digits.now }
    requires few { length digits.now ≤ 1000 }
    ensures sum { result ≡ weighed_sum digits.now }
{
    let mut sum = 0;
    for at in 0..digits.len() {
        sum += (digits[at] - b'0') as u32 * weight(digits.len() - at - 1);
    }
    sum
}

/// Whether the last digit is the check digit of those before it.
pub(crate) fn is_checked(digits: &[u8]) -> bool
    requires digits { AreDigits digits.now }
    requires few { length digits.now ≤ 1000 }
    ensures { result ≡ checked digits.now }
{
    weighed(digits) % 10 == 0
}

/// The check digit of the digits in front of a last one, which is 0.
pub(crate) fn check_digit(digits: &[u8]) -> u8
    requires digits { AreDigits digits.now }
    requires few { length digits.now ≤ 1000 }
    ensures digit { result ≡ 48 + (10 - weighed_sum digits.now % 10) % 10 }
{
    let lacks = (10 - weighed(digits) % 10) % 10;
    b'0' + lacks as u8
}
