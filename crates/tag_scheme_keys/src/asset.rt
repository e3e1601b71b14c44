//! What follows the start of a GIAI, the key of a GIAI-96.

ghost use Rattle.std.specs.Prelude.{◌≡◌, ◌++◌, ◌≤◌, ◌<◌, length, IfOk, IfErr};
ghost use Rattle.tag_schemes.specs.LawfulWord.{IsLawful};
ghost use Rattle.tag_schemes.specs.Texts.{components_in};
ghost use Rattle.tag_schemes.specs.declared.scheme.Scheme.TheVariants.{Giai};
ghost use Rattle.tag_scheme_keys.specs.KeyText.{number_in};
ghost use Rattle.tag_scheme_keys.specs.KeyFaults.{FailsAfter};

use crate::components::{first_of, three_joined};
use crate::digits::{are_digits, cut_digits};
use crate::tag_text::numbers_with;
use crate::write_id_uri::without_filter;
use arrayvec::ArrayString;
use tag_keys::{KeyFault, Spelling};
use tag_schemes::{Numbers, Scheme, print_further};

/// The numbers of the GIAI-96 with this filter value, whose company prefix has this many digits, by what
/// follows the start of its key, or the first rule that refuses it.
pub(crate) fn read_asset(
    spelling: Spelling,
    filter: u8,
    company_digits: u8,
    rest: &str,
) -> Result<Numbers, KeyFault>
    requires filter { filter < 8 }
    requires least { 6 ≤ company_digits }
    requires most { company_digits ≤ 12 }
    requires short { length rest.now ≤ 72 }
    ensures lawful { IfOk result (λ n. IsLawful n) }
    ensures scheme { IfOk result (λ n. n.scheme ≡ Giai) }
    ensures ok { IfOk result (λ n. rest.now ≡ number_in spelling Giai (components_in n)) }
    ensures asked { IfOk result (λ n. (n.filter ≡ filter) × (n.company_digits ≡ company_digits)) }
    ensures err { IfErr result (λ f. FailsAfter Giai spelling filter company_digits rest.now f) }
{
    if rest.len() <= company_digits as usize {
        return Err(KeyFault::Length);
    }
    if !are_digits(rest.as_bytes()) {
        return Err(KeyFault::Digit);
    }
    let (company, reference) = cut_digits(rest, company_digits as usize);
    let components = three_joined(filter, company, reference);
    match numbers_with(Scheme::Giai, components.as_str()) {
        Ok(epc) => Ok(epc),
        Err(fault) => Err(KeyFault::Tag(fault)),
    }
}

/// Appends what follows the start of the key of a GIAI-96.
pub(crate) fn push_asset(text: &mut ArrayString<72>, spelling: Spelling, epc: Numbers)
    requires lawful { IsLawful epc }
    requires scheme { epc.scheme ≡ Giai }
    requires room { length text.old.bytes ≤ 24 }
    ensures { text.new.bytes ≡ text.old.bytes ++ number_in spelling Giai (components_in epc) }
{
    let tag = print_further(epc);
    let (company, reference) = first_of(without_filter(tag.as_str(), epc));
    text.push_str(company);
    text.push_str(reference);
}
