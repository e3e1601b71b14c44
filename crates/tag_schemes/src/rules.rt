//! The rules that refuse the components of a GIAI-96, CPI-96 or USDoD-96.

ghost use Rattle.std.specs.Prelude.{◌≡◌, ◌||◌, nat_lt, length};
ghost use Rattle.tag_uri.specs.TagText.{is_zero_led as zero_led};
ghost use Rattle.tag_schemes.specs.Texts.{is_no_number as no_number};

use tag_uri::rules::{is_stray, is_zero_led};

/// Whether one of two texts has a character other than 0 to 9, or is empty.
pub(crate) fn is_one_no_number_of_two(first: &str, second: &str) -> bool
    ensures { result ≡ (no_number first.now || no_number second.now) }
{
    is_stray(first) || is_stray(second)
}

/// Whether one of three texts has a character other than 0 to 9, or is empty.
pub(crate) fn is_one_no_number(first: &str, second: &str, third: &str) -> bool
    ensures { result ≡ (no_number first.now || (no_number second.now || no_number third.now)) }
{
    is_stray(first) || is_stray(second) || is_stray(third)
}

/// Whether one of four texts has a character other than 0 to 9, or is empty.
pub(crate) fn is_one_no_number_of_four(first: &str, second: &str, third: &str, fourth: &str) -> bool
    ensures { result ≡ (no_number first.now || (no_number second.now || (no_number third.now
        || no_number fourth.now))) }
{
    is_stray(first) || is_stray(second) || is_stray(third) || is_stray(fourth)
}

/// Whether one of two texts has two or more characters and begins with 0.
pub(crate) fn is_one_zero_led(first: &str, second: &str) -> bool
    ensures { result ≡ (zero_led first.now || zero_led second.now) }
{
    is_zero_led(first) || is_zero_led(second)
}

/// Whether a company prefix does not have 6 to 12 digits.
pub(crate) fn has_wrong_length(company: &str) -> bool
    ensures { result ≡ (nat_lt (length company.now) 6 || nat_lt 12 (length company.now)) }
{
    company.len() < 6 || company.len() > 12
}
