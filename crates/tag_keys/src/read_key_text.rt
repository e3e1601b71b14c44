//! Reads the texts of keys.

ghost use Rattle.std.specs.Prelude.{◌≡◌, ℕ, List, ◌<◌, ◌≤◌, Ok, IfOk, IfErr};
ghost use Rattle.tag_epc.specs.declared.epc.Parts.{Parts};
ghost use Rattle.tag_epc.specs.LawfulWord.{IsLawfulEpc};
ghost use Rattle.tag_keys.specs.PureIdentity.{HasFilter};
ghost use Rattle.tag_keys.specs.KeyText.{IsKeyText, HasCompanyDigits};
ghost use Rattle.tag_keys.specs.KeyFaults.{HasKeyFault};

use crate::fault::KeyFault;
use crate::key_pieces::read_pieces;
use crate::spelling::Spelling;
use crate::tag_text::{parts_of_tag, tag_of_key};
use tag_epc::{Epc, Parts};

/// The EPC with this filter value, whose company prefix has this many digits, that has the text of a
/// key, or the first rule that refuses the text (EPC Tag Data Standard 1.13, section 7).
pub fn parse_key(
    text: &str,
    spelling: Spelling,
    filter: u8,
    company_digits: u8,
) -> Result<Epc, KeyFault>
    requires filter { filter < 8 }
    requires least { 6 ≤ company_digits }
    requires most { company_digits ≤ 12 }
    ensures ok { IfOk result (λ epc. IsKeyText spelling epc text.now) }
    ensures asked { IfOk result (λ epc. HasFilter filter epc × HasCompanyDigits company_digits epc) }
    ensures accepts { (epc : Parts) → IsLawfulEpc epc → HasFilter filter epc
        → HasCompanyDigits company_digits epc → IsKeyText spelling epc text.now → result ≡ Ok epc }
    ensures err { IfErr result (λ fault. HasKeyFault spelling filter company_digits text.now
        fault) }
{
    match read_key(text, spelling, filter, company_digits) {
        Ok(parts) => Ok(Epc::of_parts(parts)),
        Err(fault) => Err(fault),
    }
}

/// The parts of that EPC, or the first rule that refuses the text.
fn read_key(
    text: &str,
    spelling: Spelling,
    filter: u8,
    company_digits: u8,
) -> Result<Parts, KeyFault>
    requires filter { filter < 8 }
    requires most { company_digits ≤ 12 }
    ensures lawful { IfOk result (λ parts. IsLawfulEpc parts) }
    ensures ok { IfOk result (λ parts. IsKeyText spelling parts text.now) }
    ensures asked { IfOk result (λ parts. HasFilter filter parts
        × HasCompanyDigits company_digits parts) }
    ensures err { IfErr result (λ fault. HasKeyFault spelling filter company_digits text.now
        fault) }
{
    let key = match read_pieces(text, spelling, filter, company_digits) {
        Ok(key) => key,
        Err(fault) => return Err(fault),
    };
    let tag = tag_of_key(filter, &key);
    match parts_of_tag(tag.as_str()) {
        Ok(parts) => Ok(parts),
        Err(fault) => Err(KeyFault::Tag(fault)),
    }
}
