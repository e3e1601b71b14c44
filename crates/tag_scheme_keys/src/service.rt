//! What follows the start of the key of a GSRNP-96.

ghost use Rattle.std.specs.Prelude.{◌≡◌, ◌++◌, ◌≤◌, ◌<◌, length, IfOk, IfErr};
ghost use Rattle.tag_schemes.specs.LawfulWord.{IsLawful};
ghost use Rattle.tag_schemes.specs.Texts.{components_in};
ghost use Rattle.tag_schemes.specs.declared.scheme.Scheme.TheVariants.{Gsrnp};
ghost use Rattle.tag_scheme_keys.specs.KeyText.{number_in};
ghost use Rattle.tag_scheme_keys.specs.KeyFaults.{FailsAfter};

use crate::older::{numbers_in, service, service_start};
use arrayvec::ArrayString;
use tag_keys::{KeyFault, Spelling, parse_key, print_key};
use tag_schemes::{Numbers, Scheme};

/// The numbers of the GSRNP-96 with this filter value, whose company prefix has this many digits, by what
/// follows the start of its key, or the first rule that refuses it.
pub(crate) fn read_service(
    spelling: Spelling,
    filter: u8,
    company_digits: u8,
    rest: &str,
) -> Result<Numbers, KeyFault>
    requires filter { filter < 8 }
    requires least { 6 ≤ company_digits }
    requires most { company_digits ≤ 12 }
    requires short { length rest.now ≤ 72 }
    ensures lawful { IfOk result (λ n. IsLawful n) }
    ensures scheme { IfOk result (λ n. n.scheme ≡ Gsrnp) }
    ensures ok { IfOk result (λ n. rest.now ≡ number_in spelling Gsrnp (components_in n)) }
    ensures asked { IfOk result (λ n. (n.filter ≡ filter) × (n.company_digits ≡ company_digits)) }
    ensures err { IfErr result (λ f. FailsAfter Gsrnp spelling filter company_digits rest.now f) }
{
    let mut text: ArrayString<96> = ArrayString::new();
    text.push_str(service_start(spelling));
    text.push_str(rest);
    match parse_key(text.as_str(), spelling, filter, company_digits) {
        Ok(epc) => Ok(numbers_in(epc.parts(), Scheme::Gsrnp)),
        Err(fault) => Err(fault),
    }
}

/// Appends what follows the start of the key of a GSRNP-96.
pub(crate) fn push_service(text: &mut ArrayString<72>, spelling: Spelling, epc: Numbers)
    requires lawful { IsLawful epc }
    requires scheme { epc.scheme ≡ Gsrnp }
    requires room { length text.old.bytes ≤ 24 }
    ensures { text.new.bytes ≡ text.old.bytes ++ number_in spelling Gsrnp (components_in epc) }
{
    let Some(key) = print_key(&service(epc), spelling) else {
        unreachable!()
    };
    let Some(rest) = key.as_str().strip_prefix(service_start(spelling)) else {
        unreachable!()
    };
    text.push_str(rest);
}
