//! Reads the tag URIs of further schemes, after the scheme's colon.

ghost use Rattle.std.specs.Prelude.{◌≡◌, ℕ, List, [], ◌∷◌, ◌+◌, ◌^◌, ◌<◌, ◌≤◌, ◌++◌, Some, length, IfOk, IfErr, IfSome, IfNone};
ghost use Rattle.tag_uri.specs.Calls.Decimal.{AreDigits};
ghost use Rattle.tag_uri.specs.Decimal.{decimal_value};
ghost use Rattle.std.specs.List.{join_with_byte};
ghost use Rattle.tag_epc.specs.declared.kind.Kind.TheVariants.{Gdti, Gsrn};
ghost use Rattle.tag_epc.specs.LawfulWord.{IsLawfulEpc, kind_of_parts};
ghost use Rattle.tag_uri.specs.TagText.{components, components_of, first_rule, tag_start, scheme_text, HasTagFault};
ghost use Rattle.tag_schemes.specs.LawfulWord.{HasSerial, IsLawful};
ghost use Rattle.tag_schemes.specs.Private.Coupons.{coupon_components, last_of};
ghost use Rattle.tag_schemes.specs.Texts.{asset_rules, components_in, one_before, part_digits, part_rules, HasCouponFault, HasFaultIn};
ghost use Rattle.tag_schemes.specs.AllTexts.{BeginsIn};
ghost use Rattle.tag_schemes.specs.declared.scheme.Scheme.{Scheme};

use crate::numbers::Numbers;
use crate::rules::{has_wrong_length, is_one_no_number, is_one_no_number_of_four, is_one_zero_led};
use crate::scheme::Scheme;
use arrayvec::ArrayString;
use tag_epc::Parts;
use tag_epc::scheme::power;
use tag_uri::components::{four, three};
use tag_uri::decimal::{number_below, number_of};
use tag_uri::rules::{is_no_filter, is_zero_led};
use tag_uri::{UriFault, parse};

/// The further scheme with a company prefix with whose tag URIs a text begins, and what follows its colon.
pub(crate) fn scheme_in_front<'a>(text: &'a str) -> Option<(Scheme, &'a str)>
    ensures some { IfSome result (λ x. BeginsIn text.now x.0 x.1.now) }
    ensures none { IfNone result ((scheme : Scheme) (rest : List ℕ) → BeginsIn text.now scheme rest → ⊥) }
{
    if let Some(rest) = text.strip_prefix("urn:epc:tag:giai-96:") {
        return Some((Scheme::Giai, rest));
    }
    if let Some(rest) = text.strip_prefix("urn:epc:tag:gsrnp-96:") {
        return Some((Scheme::Gsrnp, rest));
    }
    if let Some(rest) = text.strip_prefix("urn:epc:tag:sgcn-96:") {
        return Some((Scheme::Sgcn, rest));
    }
    if let Some(rest) = text.strip_prefix("urn:epc:tag:cpi-96:") {
        return Some((Scheme::Cpi, rest));
    }
    None
}

/// The numbers of the EPC of a further scheme by what follows the scheme's colon, or the first rule that refuses it.
pub(crate) fn read_further(scheme: Scheme, rest: &str) -> Result<Numbers, UriFault>
    requires { length rest.now ≤ 96 }
    ensures lawful { IfOk result (λ n. IsLawful n) }
    ensures scheme { IfOk result (λ n. n.scheme ≡ scheme) }
    ensures ok { IfOk result (λ n. rest.now ≡ join_with_byte 46 (components_in n)) }
    ensures err { IfErr result (λ f. HasFaultIn scheme rest.now f) }
{
    match scheme {
        Scheme::Giai => read_asset(rest),
        Scheme::Gsrnp => read_service(rest),
        Scheme::Sgcn => read_coupon(rest),
        Scheme::Cpi => read_part(rest),
    }
}

/// The numbers of a GIAI-96.
fn read_asset(rest: &str) -> Result<Numbers, UriFault>
    ensures lawful { IfOk result (λ n. IsLawful n) }
    ensures scheme { IfOk result (λ n. n.scheme ≡ Scheme.Giai) }
    ensures ok { IfOk result (λ n. rest.now ≡ join_with_byte 46 (components_in n)) }
    ensures err { IfErr result (λ f. first_rule (asset_rules (components rest.now)) ≡ Some f) }
{
    let Some((filter, company, reference)) = three(rest) else {
        return Err(UriFault::Parts);
    };
    if is_one_no_number(filter, company, reference) {
        return Err(UriFault::Digit);
    }
    if is_zero_led(reference) {
        return Err(UriFault::LeadingZero);
    }
    if is_no_filter(filter) {
        return Err(UriFault::Filter);
    }
    if has_wrong_length(company) {
        return Err(UriFault::Digits);
    }
    let Some(row) = Scheme::Giai.row(12 - company.len() as u8) else {
        unreachable!()
    };
    let Some(asset) = number_below(reference, row.reference_bits) else {
        return Err(UriFault::Range);
    };
    Ok(Numbers {
        scheme: Scheme::Giai,
        filter: number_of(filter) as u8,
        company_digits: company.len() as u8,
        company: number_of(company),
        reference: asset,
        last: 0,
    })
}

/// The reference of a CPI-96 that stands beside a company prefix of this many digits, if it has no more
/// than the digits of its row.
fn part_reference(company_digits: u8, text: &str) -> Option<u64>
    requires digits { AreDigits text.now }
    requires some { 0 < length text.now }
    requires least { 6 ≤ company_digits }
    requires most { company_digits ≤ 12 }
    ensures none { IfNone result (10 ^ part_digits company_digits ≤ decimal_value text.now) }
    ensures some { IfSome result (λ n. (n ≡ decimal_value text.now)
        × (n < 10 ^ part_digits company_digits)) }
{
    let Some(row) = Scheme::Cpi.row(12 - company_digits) else {
        unreachable!()
    };
    let Some(number) = number_below(text, row.reference_bits) else {
        return None;
    };
    if number < power(row.reference_digits) {
        Some(number)
    } else {
        None
    }
}

/// The numbers of a CPI-96.
fn read_part(rest: &str) -> Result<Numbers, UriFault>
    ensures lawful { IfOk result (λ n. IsLawful n) }
    ensures scheme { IfOk result (λ n. n.scheme ≡ Scheme.Cpi) }
    ensures ok { IfOk result (λ n. rest.now ≡ join_with_byte 46 (components_in n)) }
    ensures err { IfErr result (λ f. first_rule (part_rules (components rest.now)) ≡ Some f) }
{
    let Some((filter, company, reference, serial)) = four(rest) else {
        return Err(UriFault::Parts);
    };
    if is_one_no_number_of_four(filter, company, reference, serial) {
        return Err(UriFault::Digit);
    }
    if is_one_zero_led(reference, serial) {
        return Err(UriFault::LeadingZero);
    }
    if is_no_filter(filter) {
        return Err(UriFault::Filter);
    }
    if has_wrong_length(company) {
        return Err(UriFault::Digits);
    }
    let Some(part) = part_reference(company.len() as u8, reference) else {
        return Err(UriFault::Range);
    };
    let Some(last) = number_below(serial, 31) else {
        return Err(UriFault::Range);
    };
    Ok(Numbers {
        scheme: Scheme::Cpi,
        filter: number_of(filter) as u8,
        company_digits: company.len() as u8,
        company: number_of(company),
        reference: part,
        last,
    })
}

/// The numbers of a GSRNP-96, which are those of the GSRN-96 with the same components.
fn read_service(rest: &str) -> Result<Numbers, UriFault>
    requires { length rest.now ≤ 96 }
    ensures lawful { IfOk result (λ n. IsLawful n) }
    ensures scheme { IfOk result (λ n. n.scheme ≡ Scheme.Gsrnp) }
    ensures ok { IfOk result (λ n. rest.now ≡ join_with_byte 46 (components_in n)) }
    ensures err { IfErr result (λ f. HasTagFault (tag_start ++ scheme_text Gsrn rest.now) f) }
{
    let mut text: ArrayString<128> = ArrayString::new();
    text.push_str("urn:epc:tag:gsrn-96:");
    text.push_str(rest);
    match parse(text.as_str()) {
        Ok(epc) => Ok(service_of(epc.parts())),
        Err(fault) => Err(fault),
    }
}

/// The numbers of the GSRNP-96 that has the parts of a GSRN-96.
fn service_of(parts: Parts) -> Numbers
    requires lawful { IsLawfulEpc parts }
    requires kind { kind_of_parts parts ≡ Gsrn }
    ensures lawful { IsLawful result }
    ensures scheme { result.scheme ≡ Scheme.Gsrnp }
    ensures components { components_in result ≡ components_of parts }
{
    match parts {
        Parts::Partitioned {
            filter,
            company_digits,
            company,
            reference,
            ..
        } => Numbers {
            scheme: Scheme::Gsrnp,
            filter,
            company_digits,
            company,
            reference,
            last: 0,
        },
        Parts::General { .. } => unreachable!(),
    }
}

/// The tag URI of GDTI-96 with these components, and a 1 before the last.
fn document_text(filter: &str, company: &str, reference: &str, serial: &str) -> ArrayString<128>
    requires { length filter.now + length company.now + length reference.now + length serial.now ≤ 96 }
    ensures { result.bytes ≡ tag_start ++ scheme_text Gdti (join_with_byte 46
        (filter.now ∷ company.now ∷ reference.now ∷ one_before serial.now ∷ [])) }
{
    let mut text: ArrayString<128> = ArrayString::new();
    text.push_str("urn:epc:tag:gdti-96:");
    text.push_str(filter);
    text.push_str(".");
    text.push_str(company);
    text.push_str(".");
    text.push_str(reference);
    text.push_str(".");
    text.push_str(if serial.is_empty() { "" } else { "1" });
    text.push_str(serial);
    text
}

/// The numbers of an SGCN-96, which are those of the GDTI-96 with the same components and a 1 before the last.
fn read_coupon(rest: &str) -> Result<Numbers, UriFault>
    requires { length rest.now ≤ 96 }
    ensures lawful { IfOk result (λ n. IsLawful n) }
    ensures scheme { IfOk result (λ n. n.scheme ≡ Scheme.Sgcn) }
    ensures ok { IfOk result (λ n. rest.now ≡ join_with_byte 46 (components_in n)) }
    ensures err { IfErr result (λ f. HasCouponFault (components rest.now) f) }
{
    let Some((filter, company, reference, serial)) = four(rest) else {
        return Err(UriFault::Parts);
    };
    let text = document_text(filter, company, reference, serial);
    match parse(text.as_str()) {
        Ok(epc) => Ok(coupon_of(epc.parts())),
        Err(fault) => Err(fault),
    }
}

/// The numbers of the SGCN-96 that has the parts of a GDTI-96.
fn coupon_of(parts: Parts) -> Numbers
    requires lawful { IsLawfulEpc parts }
    requires kind { kind_of_parts parts ≡ Gdti }
    requires serial { HasSerial Scheme.Sgcn (last_of parts) }
    ensures lawful { IsLawful result }
    ensures scheme { result.scheme ≡ Scheme.Sgcn }
    ensures components { components_in result ≡ coupon_components parts }
{
    match parts {
        Parts::Partitioned {
            filter,
            company_digits,
            company,
            reference,
            last,
            ..
        } => Numbers {
            scheme: Scheme::Sgcn,
            filter,
            company_digits,
            company,
            reference,
            last,
        },
        Parts::General { .. } => unreachable!(),
    }
}
