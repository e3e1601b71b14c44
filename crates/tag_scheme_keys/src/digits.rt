//! Texts of digits.

ghost use Rattle.std.specs.Prelude.{◌≡◌, ◌↔◌, ◌+◌, ◌≤◌, ◌<◌, length, take, drop, IsTrue};
ghost use Rattle.tag_uri.specs.Calls.Decimal.{AreDigits};
ghost use Rattle.tag_keys.specs.KeyFaults.{IsNumber};

/// Whether each octet is one of the characters 0 to 9.
pub(crate) fn are_digits(octets: &[u8]) -> bool
    ensures { IsTrue result ↔ AreDigits octets.now }
{
    for octet in octets {
        if !octet.is_ascii_digit() {
            return false;
        }
    }
    true
}

/// Whether a text is one digit or more.
pub(crate) fn is_number(text: &str) -> bool
    ensures { IsTrue result ↔ IsNumber text.now }
{
    !text.is_empty() && are_digits(text.as_bytes())
}

/// Divides digits at a place.
pub(crate) fn cut_digits<'a>(text: &'a str, at: usize) -> (&'a str, &'a str)
    requires digits { AreDigits text.now }
    requires within { at ≤ length text.now }
    ensures front { result.0.now ≡ take at text.now }
    ensures back { result.1.now ≡ drop at text.now }
    ensures count { length result.0.now ≡ at }
    ensures left { length result.1.now + at ≡ length text.now }
{
    text.split_at(at)
}
