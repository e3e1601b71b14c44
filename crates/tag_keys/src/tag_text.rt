//! The tag URIs that texts of other forms come from and go to.

ghost use Rattle.std.specs.Prelude.{◌≡◌, ℕ, List, [], ◌+◌, ◌<◌, ◌≤◌, ◌++◌, ◌∷◌, length, IfOk, IfErr};
ghost use Rattle.std.specs.List.{concat};
ghost use Rattle.tag_epc.specs.Layout.{layout_of};
ghost use Rattle.tag_epc.specs.LawfulWord.{IsLawfulEpc};
ghost use Rattle.tag_uri.specs.TagText.{tag_uri, tag_start, scheme_text, HasTagFault};
ghost use Rattle.tag_keys.specs.PureIdentity.{with_filter};
ghost use Rattle.tag_keys.specs.KeyFaults.{tag_with};
ghost use Rattle.tag_keys.specs.Private.Pieces.{one_text};

use crate::key_pieces::Pieces;
use arrayvec::ArrayString;
use tag_epc::{Kind, Parts};
use tag_uri::{UriFault, parse};

/// The components of the tag URI of a scheme: what follows the colon after its name.
pub(crate) fn numbers_of<'a>(text: &'a str, kind: Kind) -> &'a str
    requires { (rest : List ℕ) × (text.now ≡ tag_start ++ scheme_text kind rest) }
    ensures { text.now ≡ tag_start ++ scheme_text kind result.now }
{
    &text[13 + kind.name().len()..]
}

/// Begins a tag URI: up to the filter value and its dot, if the scheme has one.
fn begin_tag(kind: Kind) -> ArrayString<160>
    ensures { result.bytes ≡ tag_start ++ scheme_text kind [] }
{
    let mut text = ArrayString::new();
    text.push_str("urn:epc:tag:");
    text.push_str(kind.name());
    text.push_str(":");
    text
}

/// Appends the filter value and its dot.
fn push_filter(text: &mut ArrayString<160>, filter: u8)
    requires fits { filter < 8 }
    requires room { length text.old.bytes ≤ 64 }
    ensures { text.new.bytes ≡ text.old.bytes ++ (48 + filter) ∷ 46 ∷ [] }
{
    text.push(char::from(b'0' + filter));
    text.push_str(".");
}

/// The tag URI of the components of a pure identity URI, with a filter value put in.
pub(crate) fn tag_of_id(kind: Kind, filter: u8, rest: &str) -> ArrayString<160>
    requires fits { filter < 8 }
    requires room { length rest.now ≤ 96 }
    ensures { result.bytes ≡ tag_start ++ scheme_text kind (with_filter (layout_of kind)
        filter rest.now) }
{
    let mut text = begin_tag(kind);
    if let Kind::Gid = kind {
        text.push_str(rest);
        return text;
    }
    push_filter(&mut text, filter);
    text.push_str(rest);
    text
}

/// The tag URI of the pieces of a key.
pub(crate) fn tag_of_key(filter: u8, key: &Pieces) -> ArrayString<160>
    requires fits { filter < 8 }
    requires room { length key.now.company.now + length key.now.lead.now
        + length key.now.rest.now ≤ 32 }
    requires serial { length (concat (one_text key.now.serial)) ≤ 96 }
    ensures { result.bytes ≡ tag_with key.now.kind filter key.now.company.now
        (key.now.lead.now ++ key.now.rest.now) (one_text key.now.serial) }
{
    let mut text = begin_tag(key.kind);
    push_filter(&mut text, filter);
    text.push_str(key.company);
    text.push_str(".");
    text.push_str(key.lead);
    text.push_str(key.rest);
    if let Some(serial) = key.serial {
        text.push_str(".");
        text.push_str(serial);
    }
    text
}

/// The parts of the EPC of a tag URI, or the first rule that refuses the text.
pub(crate) fn parts_of_tag(text: &str) -> Result<Parts, UriFault>
    ensures lawful { IfOk result (λ parts. IsLawfulEpc parts) }
    ensures ok { IfOk result (λ parts. text.now ≡ tag_uri parts) }
    ensures err { IfErr result (λ fault. HasTagFault text.now fault) }
{
    match parse(text) {
        Ok(epc) => Ok(epc.parts()),
        Err(fault) => Err(fault),
    }
}
