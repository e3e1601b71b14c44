//! Writes pure identity URIs.

ghost use Rattle.std.specs.Prelude.{◌≡◌, ℕ, List, ◌<◌, ◌≤◌, ◌∷◌, length};
ghost use Rattle.std.specs.List.{join_with_byte};
ghost use Rattle.tag_epc.specs.LawfulWord.{IsLawfulEpc};
ghost use Rattle.tag_uri.specs.TagText.{components, components_of};
ghost use Rattle.tag_keys.specs.PureIdentity.{id_uri, id_components};

use crate::components::cut;
use crate::id_name::id_name;
use crate::tag_text::numbers_of;
use arrayvec::ArrayString;
use tag_epc::{Epc, Parts};
use tag_uri::print;

/// The pure identity URI of an EPC, as `urn:epc:id:sgtin:0614141.812345.6789` (EPC Tag Data Standard
/// 1.13, section 6). It takes no memory; no such URI is longer than 96 octets.
pub fn print_id(epc: &Epc) -> ArrayString<96>
    ensures { result.bytes ≡ id_uri epc.now }
{
    let kind = epc.kind();
    let parts = epc.parts();
    let tag = print(epc);
    let numbers = numbers_of(tag.as_str(), kind);
    let rest = without_filter(parts, numbers);
    let mut text = ArrayString::new();
    text.push_str("urn:epc:id:");
    text.push_str(id_name(kind));
    text.push_str(":");
    text.push_str(rest);
    text
}

/// The components of an EPC's tag URI without the filter value.
fn without_filter<'a>(parts: Parts, numbers: &'a str) -> &'a str
    requires lawful { IsLawfulEpc parts }
    requires numbers { components numbers.now ≡ components_of parts }
    ensures joined { result.now ≡ join_with_byte 46 (id_components parts) }
    ensures short { length result.now ≤ length numbers.now }
{
    match parts {
        Parts::Partitioned { .. } => behind_first(numbers),
        Parts::General { .. } => numbers,
    }
}

/// The components after the first.
fn behind_first<'a>(numbers: &'a str) -> &'a str
    requires { 1 < length (components numbers.now) }
    ensures others { (first : List ℕ) × (components numbers.now ≡ first ∷ components result.now) }
    ensures short { length result.now ≤ length numbers.now }
{
    match cut(numbers) {
        (_, Some(rest)) => rest,
        (_, None) => unreachable!(),
    }
}
