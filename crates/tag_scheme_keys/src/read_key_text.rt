//! Reads the texts of keys.

ghost use Rattle.std.specs.Prelude.{◌≡◌, ◌<◌, ◌≤◌, length, Ok, IfOk, IfErr};
ghost use Rattle.tag_schemes.specs.declared.numbers.Numbers.{Numbers};
ghost use Rattle.tag_schemes.specs.LawfulWord.{IsLawful};
ghost use Rattle.tag_schemes.specs.Texts.{components_in};
ghost use Rattle.tag_scheme_keys.specs.KeyText.{key_in, number_in};
ghost use Rattle.tag_scheme_keys.specs.KeyFaults.{FailsAfter, HasKeyFaultIn};

use crate::asset::read_asset;
use crate::coupon::read_coupon;
use crate::key_start::key_in_front;
use crate::part::read_part;
use crate::service::read_service;
use tag_keys::{KeyFault, Spelling};
use tag_schemes::{Numbers, Scheme};

/// The numbers of the EPC of a further scheme with this filter value, whose company prefix has this many
/// digits, that has the text of a key, or the first rule that refuses the text (EPC Tag Data Standard 1.13, section 7).
pub fn parse_key_in(
    text: &str,
    spelling: Spelling,
    filter: u8,
    company_digits: u8,
) -> Result<Numbers, KeyFault>
    requires filter { filter < 8 }
    requires least { 6 ≤ company_digits }
    requires most { company_digits ≤ 12 }
    ensures lawful { IfOk result (λ epc. IsLawful epc) }
    ensures ok { IfOk result (λ epc. text.now ≡ key_in spelling epc) }
    ensures asked { IfOk result (λ epc. (epc.filter ≡ filter)
        × (epc.company_digits ≡ company_digits)) }
    ensures accepts { (epc : Numbers) → IsLawful epc → epc.filter ≡ filter
        → epc.company_digits ≡ company_digits → text.now ≡ key_in spelling epc → result ≡ Ok epc }
    ensures err { IfErr result (λ fault. HasKeyFaultIn spelling filter company_digits text.now
        fault) }
{
    match read_key(text, spelling, filter, company_digits) {
        Ok(epc) => Ok(epc),
        Err(fault) => Err(fault),
    }
}

/// Those numbers, or the first rule that refuses the text.
fn read_key(
    text: &str,
    spelling: Spelling,
    filter: u8,
    company_digits: u8,
) -> Result<Numbers, KeyFault>
    requires filter { filter < 8 }
    requires least { 6 ≤ company_digits }
    requires most { company_digits ≤ 12 }
    ensures lawful { IfOk result (λ epc. IsLawful epc) }
    ensures ok { IfOk result (λ epc. text.now ≡ key_in spelling epc) }
    ensures asked { IfOk result (λ epc. (epc.filter ≡ filter)
        × (epc.company_digits ≡ company_digits)) }
    ensures err { IfErr result (λ fault. HasKeyFaultIn spelling filter company_digits text.now
        fault) }
{
    if text.len() > 72 {
        return Err(KeyFault::Long);
    }
    let Some((scheme, rest)) = key_in_front(spelling, text) else {
        return Err(KeyFault::Start);
    };
    match read_after(scheme, spelling, filter, company_digits, rest) {
        Ok(epc) => Ok(epc),
        Err(fault) => Err(fault),
    }
}

/// The numbers of that EPC by what follows the start of its key, or the first rule that refuses it.
fn read_after(
    scheme: Scheme,
    spelling: Spelling,
    filter: u8,
    company_digits: u8,
    rest: &str,
) -> Result<Numbers, KeyFault>
    requires filter { filter < 8 }
    requires least { 6 ≤ company_digits }
    requires most { company_digits ≤ 12 }
    requires short { length rest.now ≤ 72 }
    ensures lawful { IfOk result (λ n. IsLawful n) }
    ensures scheme { IfOk result (λ n. n.scheme ≡ scheme) }
    ensures ok { IfOk result (λ n. rest.now ≡ number_in spelling scheme (components_in n)) }
    ensures asked { IfOk result (λ n. (n.filter ≡ filter) × (n.company_digits ≡ company_digits)) }
    ensures err { IfErr result (λ f. FailsAfter scheme spelling filter company_digits rest.now f) }
{
    match scheme {
        Scheme::Giai => read_asset(spelling, filter, company_digits, rest),
        Scheme::Gsrnp => read_service(spelling, filter, company_digits, rest),
        Scheme::Sgcn => read_coupon(spelling, filter, company_digits, rest),
        Scheme::Cpi => read_part(spelling, filter, company_digits, rest),
    }
}
