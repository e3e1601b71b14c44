//! Reads pure identity URIs.

ghost use Rattle.std.specs.Prelude.{◌≡◌, ◌<◌, Ok, IfOk, IfErr};
ghost use Rattle.tag_epc.specs.declared.epc.Parts.{Parts};
ghost use Rattle.tag_epc.specs.LawfulWord.{IsLawfulEpc};
ghost use Rattle.tag_keys.specs.PureIdentity.{id_uri, HasFilter};
ghost use Rattle.tag_keys.specs.KeyFaults.{HasIdFault};

use crate::fault::KeyFault;
use crate::id_name::scheme_of;
use crate::tag_text::{parts_of_tag, tag_of_id};
use tag_epc::{Epc, Parts};

/// The EPC with this filter value that has a pure identity URI, or the first rule that refuses the
/// text (EPC Tag Data Standard 1.13, section 6). An EPC of GID-96 has no filter value.
pub fn parse_id(text: &str, filter: u8) -> Result<Epc, KeyFault>
    requires { filter < 8 }
    ensures ok { IfOk result (λ epc. (text.now ≡ id_uri epc) × HasFilter filter epc) }
    ensures accepts { (epc : Parts) → IsLawfulEpc epc → HasFilter filter epc → text.now ≡ id_uri epc
        → result ≡ Ok epc }
    ensures err { IfErr result (λ fault. HasIdFault filter text.now fault) }
{
    match read_id(text, filter) {
        Ok(parts) => Ok(Epc::of_parts(parts)),
        Err(fault) => Err(fault),
    }
}

/// The parts of that EPC, or the first rule that refuses the text.
fn read_id(text: &str, filter: u8) -> Result<Parts, KeyFault>
    requires { filter < 8 }
    ensures lawful { IfOk result (λ parts. IsLawfulEpc parts) }
    ensures ok { IfOk result (λ parts. (text.now ≡ id_uri parts) × HasFilter filter parts) }
    ensures err { IfErr result (λ fault. HasIdFault filter text.now fault) }
{
    if text.len() > 96 {
        return Err(KeyFault::Long);
    }
    let Some(rest) = text.strip_prefix("urn:epc:id:") else {
        return Err(KeyFault::Start);
    };
    let Some((kind, numbers)) = scheme_of(rest) else {
        return Err(KeyFault::Scheme);
    };
    let tag = tag_of_id(kind, filter, numbers);
    match parts_of_tag(tag.as_str()) {
        Ok(parts) => Ok(parts),
        Err(fault) => Err(KeyFault::Tag(fault)),
    }
}
