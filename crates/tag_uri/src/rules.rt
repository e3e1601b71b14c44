//! The rules that refuse one component.

ghost use Rattle.std.specs.Prelude.{◌≡◌, ◌||◌, ◌==◌, length};
ghost use Rattle.tag_uri.specs.TagText.{is_strange as strange, is_zero_led as zero_led, is_no_filter as no_filter, is_no_row as no_row};

use tag_epc::scheme::Scheme;

/// Whether a text has a character other than 0 to 9.
pub(crate) fn is_strange(text: &str) -> bool
    ensures { result ≡ strange text.now }
{
    for byte in text.as_bytes() {
        if !byte.is_ascii_digit() {
            return true;
        }
    }
    false
}

/// Whether a text has a character other than 0 to 9, or is empty.
pub fn is_stray(text: &str) -> bool
    ensures { result ≡ (strange text.now || (length text.now == 0)) }
{
    is_strange(text) || text.is_empty()
}

/// Whether a text has two or more characters and begins with 0.
pub fn is_zero_led(text: &str) -> bool
    ensures { result ≡ zero_led text.now }
{
    text.len() > 1 && text.as_bytes()[0] == b'0'
}

/// Whether a text is anything but one digit from 0 to 7.
pub fn is_no_filter(text: &str) -> bool
    ensures { result ≡ no_filter text.now }
{
    text.len() != 1 || text.as_bytes()[0] > b'7'
}

/// Whether a scheme has no row of this many digits of company prefix and reference.
pub(crate) fn is_no_row<S: Scheme>(company_digits: usize, reference_digits: usize) -> bool
    ensures { result ≡ no_row S.layout.rows company_digits reference_digits }
{
    if company_digits > 12 {
        return true;
    }
    match S::row(12 - company_digits as u8) {
        Some(row) => row.reference_digits as usize != reference_digits,
        None => true,
    }
}
