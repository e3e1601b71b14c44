//! Reads the EPC of a tag URI.

ghost use Rattle.std.specs.Prelude.{◌≡◌, Ok, Some, IfOk, IfErr};
ghost use Rattle.tag_epc.specs.declared.epc.Parts.{Parts};
ghost use Rattle.tag_epc.specs.Layout.{layout_of};
ghost use Rattle.tag_epc.specs.LawfulWord.{IsLawfulEpc, kind_of_parts};
ghost use Rattle.tag_uri.specs.TagText.{tag_uri, components, components_of, refusal, HasTagFault};

use crate::fault::UriFault;
use crate::gid::read_general;
use crate::parse_fast::quick_parts;
use crate::partitioned::read_partitioned;
use crate::scheme::scheme_of;
use tag_epc::{Epc, Kind, Parts, at_scheme};

/// The EPC of a tag URI, or the first rule that refuses the text
/// (EPC Tag Data Standard 1.13, section 12). A raw URI is refused.
#[inline(always)]
pub fn parse(text: &str) -> Result<Epc, UriFault>
    ensures ok { IfOk result (λ epc. text.now ≡ tag_uri epc) }
    ensures accepts { (epc : Parts) → IsLawfulEpc epc → text.now ≡ tag_uri epc → result ≡ Ok epc }
    ensures err { IfErr result (λ fault. HasTagFault text.now fault) }
{
    match read(text) {
        Ok(parts) => Ok(Epc::of_parts(parts)),
        Err(fault) => Err(fault),
    }
}

/// The parts of the EPC of a tag URI, or the first rule that refuses the text.
#[inline(always)]
fn read(text: &str) -> Result<Parts, UriFault>
    ensures lawful { IfOk result (λ parts. IsLawfulEpc parts) }
    ensures ok { IfOk result (λ parts. text.now ≡ tag_uri parts) }
    ensures err { IfErr result (λ fault. HasTagFault text.now fault) }
{
    if let Some(parts) = quick_parts(text.as_bytes()) {
        return Ok(parts);
    }
    match read_by_rules(text) {
        Ok(parts) => Ok(parts),
        Err(fault) => Err(fault),
    }
}

/// The parts of the EPC that a text is the tag URI of, or the first rule that refuses it; looks at
/// each rule in turn.
#[inline(never)]
fn read_by_rules(text: &str) -> Result<Parts, UriFault>
    ensures lawful { IfOk result (λ parts. IsLawfulEpc parts) }
    ensures ok { IfOk result (λ parts. text.now ≡ tag_uri parts) }
    ensures err { IfErr result (λ fault. HasTagFault text.now fault) }
{
    let Some(rest) = text.strip_prefix("urn:epc:tag:") else {
        return Err(UriFault::Start);
    };
    let Some((kind, rest)) = scheme_of(rest) else {
        return Err(UriFault::Scheme);
    };
    match read_components(kind, rest) {
        Ok(parts) => Ok(parts),
        Err(fault) => Err(fault),
    }
}

/// The parts of a scheme's EPC by its components, or the first rule that refuses them.
fn read_components(kind: Kind, text: &str) -> Result<Parts, UriFault>
    ensures kind { IfOk result (λ parts. kind_of_parts parts ≡ kind) }
    ensures lawful { IfOk result (λ parts. IsLawfulEpc parts) }
    ensures ok { IfOk result (λ parts. components text.now ≡ components_of parts) }
    ensures err { IfErr result (λ fault. refusal (layout_of kind) (components text.now)
        ≡ Some fault) }
{
    at_scheme!(kind, read_partitioned(kind, text), read_general(text))
}
