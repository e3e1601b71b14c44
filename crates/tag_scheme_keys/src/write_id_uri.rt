//! Writes pure identity URIs.

ghost use Rattle.std.specs.Prelude.{◌≡◌, ◌≤◌, drop, length};
ghost use Rattle.std.specs.List.{join_with_byte};
ghost use Rattle.tag_schemes.specs.LawfulWord.{IsLawful};
ghost use Rattle.tag_schemes.specs.Texts.{components_in, uri_in};
ghost use Rattle.tag_scheme_keys.specs.PureIdentity.{id_uri_in};

use crate::id_name::id_name;
use arrayvec::ArrayString;
use tag_schemes::{Numbers, print_further};

/// The components of a tag URI after the filter value: what follows the first dot.
pub(crate) fn without_filter<'a>(tag: &'a str, epc: Numbers) -> &'a str
    requires lawful { IsLawful epc }
    requires tag { tag.now ≡ uri_in epc }
    ensures joined { result.now ≡ join_with_byte 46 (drop 1 (components_in epc)) }
    ensures short { length result.now ≤ 55 }
{
    &tag[epc.scheme.name().len() + 15..]
}

/// The pure identity URI of a lawful EPC of a further scheme, as `urn:epc:id:giai:0614141.5678` (EPC Tag
/// Data Standard 1.13, section 6). It takes no memory; no such URI is longer than 72 octets.
pub fn print_id_in(epc: Numbers) -> ArrayString<72>
    requires { IsLawful epc }
    ensures { result.bytes ≡ id_uri_in epc }
{
    let tag = print_further(epc);
    let rest = without_filter(tag.as_str(), epc);
    let mut text = ArrayString::new();
    text.push_str("urn:epc:id:");
    text.push_str(id_name(epc.scheme));
    text.push_str(":");
    text.push_str(rest);
    text
}
