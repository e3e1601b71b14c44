//! The tag URI of a USDoD-96.

ghost use Rattle.std.specs.Prelude.{◌≡◌, ◌+◌, ◌≤◌, ◌++◌, List, ℕ, false, length, IfErr, IfNone, IfOk, IfSome};
ghost use Rattle.std.specs.List.{join_with_byte};
ghost use Rattle.tag_schemes.specs.AllTexts.{BeginsAsSupplier};
ghost use Rattle.tag_schemes.specs.Suppliers.{code_text, supplier_components, supplier_uri, IsSupplier, MayStand};
ghost use Rattle.tag_schemes.specs.SupplierRules.{is_no_code as no_code, HasSupplierTextFault};

use crate::fault::SchemeFault;
use crate::rules::{is_one_no_number_of_two, is_one_zero_led};
use crate::supplier::{Supplier, is_code_character};
use crate::write_text::push_short;
use arrayvec::ArrayString;
use std::str;
use tag_uri::UriFault;
use tag_uri::components::three;
use tag_uri::decimal::number_below;

/// Appends a code without the space before it.
fn push_code(text: &mut ArrayString<64>, code: &[u8; 6])
    requires code { MayStand 0 code.now }
    requires room { length text.old.bytes ≤ 58 }
    ensures code { text.new.bytes ≡ text.old.bytes ++ code_text code.now }
    ensures len { length text.new.bytes ≤ length text.old.bytes + 6 }
{
    let Ok(all) = str::from_utf8(code) else {
        unreachable!()
    };
    match all.strip_prefix(" ") {
        Some(five) => text.push_str(five),
        None => text.push_str(all),
    }
}

/// The tag URI of a lawful USDoD-96, as `urn:epc:tag:usdod-96:3.2S194.12345678901` (EPC Tag Data Standard 1.13, section 12).
pub fn print_supplier(epc: Supplier) -> ArrayString<64>
    requires { IsSupplier epc }
    ensures { result.bytes ≡ supplier_uri epc }
{
    let mut text = ArrayString::new();
    text.push_str("urn:epc:tag:usdod-96:");
    push_short(&mut text, epc.filter as u64);
    text.push_str(".");
    push_code(&mut text, &epc.code);
    text.push_str(".");
    push_short(&mut text, epc.serial);
    text
}

/// What follows the colon of a text that begins as a tag URI of USDoD-96.
pub(crate) fn supplier_in_front<'a>(text: &'a str) -> Option<&'a str>
    ensures some { IfSome result (λ rest. BeginsAsSupplier text.now rest.now) }
    ensures none { IfNone result ((rest : List ℕ) → BeginsAsSupplier text.now rest → ⊥) }
{
    match text.strip_prefix("urn:epc:tag:usdod-96:") {
        Some(rest) => Some(rest),
        None => None,
    }
}

/// Whether a text is not five or six characters of a code.
fn is_no_code(text: &str) -> bool
    ensures { result ≡ no_code text.now }
{
    if text.len() != 5 && text.len() != 6 {
        return true;
    }
    for octet in text.as_bytes() {
        if !is_code_character(*octet) {
            return true;
        }
    }
    false
}

/// The six characters of a code, a space before one of five.
fn code_of(text: &str) -> [u8; 6]
    requires { no_code text.now ≡ false }
    ensures text { code_text result ≡ text.now }
    ensures six { length result ≡ 6 }
{
    let octets = text.as_bytes();
    let mut code = [b' '; 6];
    code[6 - octets.len()..6].copy_from_slice(octets);
    code
}

/// The numbers of a USDoD-96 by what follows the colon, or the first rule that refuses it.
pub(crate) fn read_supplier_text(rest: &str) -> Result<Supplier, SchemeFault>
    ensures lawful { IfOk result (λ n. IsSupplier n) }
    ensures ok { IfOk result (λ n. rest.now ≡ join_with_byte 46 (supplier_components n)) }
    ensures err { IfErr result (λ f. HasSupplierTextFault rest.now f) }
{
    let Some((filter, code, serial)) = three(rest) else {
        return Err(SchemeFault::Tag(UriFault::Parts));
    };
    if is_one_no_number_of_two(filter, serial) {
        return Err(SchemeFault::Tag(UriFault::Digit));
    }
    if is_one_zero_led(filter, serial) {
        return Err(SchemeFault::Tag(UriFault::LeadingZero));
    }
    let Some(value) = number_below(filter, 4) else {
        return Err(SchemeFault::Tag(UriFault::Filter));
    };
    if is_no_code(code) {
        return Err(SchemeFault::Code);
    }
    let Some(number) = number_below(serial, 36) else {
        return Err(SchemeFault::Tag(UriFault::Range));
    };
    Ok(Supplier {
        filter: value as u8,
        code: code_of(code),
        serial: number,
    })
}
