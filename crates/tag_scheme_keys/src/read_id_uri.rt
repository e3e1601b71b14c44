//! Reads pure identity URIs.

ghost use Rattle.std.specs.Prelude.{◌≡◌, ◌<◌, ◌++◌, ℕ, List, Ok, IfErr, IfNone, IfOk, IfSome};
ghost use Rattle.tag_schemes.specs.declared.numbers.Numbers.{Numbers};
ghost use Rattle.tag_schemes.specs.declared.scheme.Scheme.{Scheme};
ghost use Rattle.tag_keys.specs.PureIdentity.{id_start};
ghost use Rattle.tag_schemes.specs.LawfulWord.{IsLawful};
ghost use Rattle.tag_scheme_keys.specs.PureIdentity.{id_text_in, id_uri_in};
ghost use Rattle.tag_scheme_keys.specs.KeyFaults.{HasIdFaultIn};

use crate::id_name::scheme_named;
use crate::tag_text::{numbers_with, with_filter};
use tag_keys::KeyFault;
use tag_schemes::Numbers;

/// What follows the scheme's name and its colon in a text that begins as a pure identity URI of one of these schemes.
pub fn id_in_front<'a>(text: &'a str) -> Option<&'a str>
    ensures some { IfSome result (λ rest. (scheme : Scheme)
        × (text.now ≡ id_start ++ id_text_in scheme rest.now)) }
    ensures none { IfNone result ((scheme : Scheme) (rest : List ℕ)
        → text.now ≡ id_start ++ id_text_in scheme rest → ⊥) }
{
    let Some(named) = text.strip_prefix("urn:epc:id:") else {
        return None;
    };
    match scheme_named(named) {
        Some((_, rest)) => Some(rest),
        None => None,
    }
}

/// The numbers with this filter value of the EPC of a further scheme that has a pure identity URI, or the
/// first rule that refuses the text (EPC Tag Data Standard 1.13, section 6).
pub fn parse_id_in(text: &str, filter: u8) -> Result<Numbers, KeyFault>
    requires { filter < 8 }
    ensures lawful { IfOk result (λ epc. IsLawful epc) }
    ensures ok { IfOk result (λ epc. (text.now ≡ id_uri_in epc) × (epc.filter ≡ filter)) }
    ensures accepts { (epc : Numbers) → IsLawful epc → epc.filter ≡ filter
        → text.now ≡ id_uri_in epc → result ≡ Ok epc }
    ensures err { IfErr result (λ fault. HasIdFaultIn filter text.now fault) }
{
    match read_id(text, filter) {
        Ok(epc) => Ok(epc),
        Err(fault) => Err(fault),
    }
}

/// Those numbers, or the first rule that refuses the text.
fn read_id(text: &str, filter: u8) -> Result<Numbers, KeyFault>
    requires { filter < 8 }
    ensures lawful { IfOk result (λ epc. IsLawful epc) }
    ensures ok { IfOk result (λ epc. (text.now ≡ id_uri_in epc) × (epc.filter ≡ filter)) }
    ensures err { IfErr result (λ fault. HasIdFaultIn filter text.now fault) }
{
    if text.len() > 72 {
        return Err(KeyFault::Long);
    }
    let Some(rest) = text.strip_prefix("urn:epc:id:") else {
        return Err(KeyFault::Start);
    };
    let Some((scheme, numbers)) = scheme_named(rest) else {
        return Err(KeyFault::Scheme);
    };
    let components = with_filter(filter, numbers);
    match numbers_with(scheme, components.as_str()) {
        Ok(epc) => Ok(epc),
        Err(fault) => Err(KeyFault::Tag(fault)),
    }
}
