//! What follows the start of a GCN, the key of an SGCN-96.

ghost use Rattle.std.specs.Prelude.{◌≡◌, ℕ, List, ◌++◌, ◌≤◌, ◌<◌, length, IfSome, IfNone, IfOk, IfErr};
ghost use Rattle.tag_schemes.specs.LawfulWord.{IsLawful};
ghost use Rattle.tag_schemes.specs.Texts.{components_in};
ghost use Rattle.tag_schemes.specs.declared.scheme.Scheme.TheVariants.{Sgcn};
ghost use Rattle.tag_scheme_keys.specs.KeyText.{gap as gap_in, number_in};
ghost use Rattle.tag_scheme_keys.specs.KeyFaults.{FailsAfter, IsWithOne, SplitsCoupon};

use crate::digits::are_digits;
use crate::older::{document, document_start, numbers_in};
use arrayvec::ArrayString;
use tag_keys::{KeyFault, Spelling, parse_key, print_key};
use tag_schemes::{Numbers, Scheme};

/// What comes between the check digit and the serial number.
fn gap(spelling: Spelling) -> &'static str
    ensures { result.now ≡ gap_in spelling }
{
    match spelling {
        Spelling::Element | Spelling::Link => "",
        Spelling::Named => " ",
    }
}

/// The 13 digits of a key and its serial number, if one follows.
fn split<'a>(spelling: Spelling, rest: &'a str) -> Option<(&'a str, &'a str)>
    ensures some { IfSome result (λ x. SplitsCoupon spelling rest.now x.0.now x.1.now) }
    ensures none { IfNone result ((digits serial : List ℕ)
        → SplitsCoupon spelling rest.now digits serial → ⊥) }
{
    if rest.len() < 13 {
        return None;
    }
    if !are_digits(&rest.as_bytes()[..13]) {
        return None;
    }
    let (digits, tail) = rest.split_at(13);
    let Some(serial) = tail.strip_prefix(gap(spelling)) else {
        return None;
    };
    if serial.is_empty() {
        return None;
    }
    Some((digits, serial))
}

/// Appends what follows a start, with a 1 before the serial number, if there is one.
fn push_with_one(text: &mut ArrayString<96>, spelling: Spelling, rest: &str)
    requires room { length text.old.bytes ≤ 23 }
    requires short { length rest.now ≤ 72 }
    ensures { (with_one : List ℕ) × IsWithOne spelling rest.now with_one
        × (text.new.bytes ≡ text.old.bytes ++ with_one) }
{
    let Some((digits, serial)) = split(spelling, rest) else {
        text.push_str(rest);
        return;
    };
    text.push_str(digits);
    text.push_str(gap(spelling));
    text.push_str("1");
    text.push_str(serial);
}

/// The numbers of the SGCN-96 with this filter value, whose company prefix has this many digits, by what
/// follows the start of its key, or the first rule that refuses it.
pub(crate) fn read_coupon(
    spelling: Spelling,
    filter: u8,
    company_digits: u8,
    rest: &str,
) -> Result<Numbers, KeyFault>
    requires filter { filter < 8 }
    requires least { 6 ≤ company_digits }
    requires most { company_digits ≤ 12 }
    requires short { length rest.now ≤ 72 }
    ensures lawful { IfOk result (λ n. IsLawful n) }
    ensures scheme { IfOk result (λ n. n.scheme ≡ Sgcn) }
    ensures ok { IfOk result (λ n. rest.now ≡ number_in spelling Sgcn (components_in n)) }
    ensures asked { IfOk result (λ n. (n.filter ≡ filter) × (n.company_digits ≡ company_digits)) }
    ensures err { IfErr result (λ f. FailsAfter Sgcn spelling filter company_digits rest.now f) }
{
    let mut text: ArrayString<96> = ArrayString::new();
    text.push_str(document_start(spelling));
    push_with_one(&mut text, spelling, rest);
    match parse_key(text.as_str(), spelling, filter, company_digits) {
        Ok(epc) => Ok(numbers_in(epc.parts(), Scheme::Sgcn)),
        Err(fault) => Err(fault),
    }
}

/// Appends what follows the start of the key of an SGCN-96.
pub(crate) fn push_coupon(text: &mut ArrayString<72>, spelling: Spelling, epc: Numbers)
    requires lawful { IsLawful epc }
    requires scheme { epc.scheme ≡ Sgcn }
    requires room { length text.old.bytes ≤ 24 }
    ensures { text.new.bytes ≡ text.old.bytes ++ number_in spelling Sgcn (components_in epc) }
{
    let Some(key) = print_key(&document(epc), spelling) else {
        unreachable!()
    };
    let Some(rest) = key.as_str().strip_prefix(document_start(spelling)) else {
        unreachable!()
    };
    let Some((digits, last)) = split(spelling, rest) else {
        unreachable!()
    };
    let Some(serial) = last.strip_prefix("1") else {
        unreachable!()
    };
    text.push_str(digits);
    text.push_str(gap(spelling));
    text.push_str(serial);
}
