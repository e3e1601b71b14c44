//! Components of tag URIs, which dots separate.

ghost use Rattle.std.specs.Prelude.{◌≡◌, ◌+◌, ◌<◌, ◌≤◌, ◌∷◌, [], length};
ghost use Rattle.std.specs.List.{join_with_byte};
ghost use Rattle.tag_uri.specs.Decimal.{padded};
ghost use Rattle.tag_uri.specs.TagText.{components};

use crate::tag_text::with_filter;
use arrayvec::ArrayString;

/// The first component, and the text of the others, of a text that has more than one.
pub(crate) fn first_of<'a>(text: &'a str) -> (&'a str, &'a str)
    requires { 1 < length (components text.now) }
    ensures { components text.now ≡ result.0.now ∷ components result.1.now }
{
    match text.split_once('.') {
        Some((first, rest)) => (first, rest),
        None => unreachable!(),
    }
}

/// A filter value, a company prefix and a reference with dots between them.
pub(crate) fn three_joined(filter: u8, company: &str, reference: &str) -> ArrayString<96>
    requires fits { filter < 8 }
    requires room { length company.now + length reference.now ≤ 72 }
    ensures text { result.bytes ≡ join_with_byte 46
        (padded 1 filter ∷ company.now ∷ reference.now ∷ []) }
    ensures len { length result.bytes ≡ length company.now + length reference.now + 3 }
{
    let mut text = with_filter(filter, company);
    text.push_str(".");
    text.push_str(reference);
    text
}

/// A filter value, a company prefix, a reference and a serial number with dots between them.
pub(crate) fn four_joined(
    filter: u8,
    company: &str,
    reference: &str,
    serial: &str,
) -> ArrayString<96>
    requires fits { filter < 8 }
    requires room { length company.now + length reference.now + length serial.now ≤ 71 }
    ensures text { result.bytes ≡ join_with_byte 46
        (padded 1 filter ∷ company.now ∷ reference.now ∷ serial.now ∷ []) }
    ensures len { length result.bytes
        ≡ length company.now + length reference.now + length serial.now + 4 }
{
    let mut text = three_joined(filter, company, reference);
    text.push_str(".");
    text.push_str(serial);
    text
}
