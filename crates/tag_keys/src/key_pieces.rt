//! The pieces of the text of a key.

ghost use Rattle.std.specs.Prelude.{◌≡◌, ◌+◌, ◌<◌, ◌≤◌, ◌++◌, ℕ, List, Some, length, IfSome, IfNone, IfOk, IfErr};
ghost use Rattle.tag_uri.specs.Calls.Decimal.{AreDigits};
ghost use Rattle.tag_keys.specs.KeyText.{KeyForm, key_form};
ghost use Rattle.tag_keys.specs.KeyFaults.{BeginsKey, ReadsKey, HasKeyFault, IsRightDigit};
ghost use Rattle.tag_keys.specs.Private.Forms.{form_in};
ghost use Rattle.tag_keys.specs.Private.Pieces.{one_text};

use crate::check_digit::is_checked;
use crate::digits::{cut_digits, digits_in_front};
use crate::fault::KeyFault;
use crate::form::{Form, form_of};
use crate::serial::read_serial;
use crate::spelling::Spelling;
use crate::write_key_text::check_digit_of;
use tag_epc::Kind;
use tag_epc::kind::KINDS;

/// The form of a scheme's key, and the text after its start, for a text that begins so.
fn after_start<'a>(spelling: Spelling, kind: Kind, text: &'a str) -> Option<(Form, &'a str)>
    ensures known { IfSome result (λ x. key_form spelling kind ≡ Some (form_in x.0)) }
    ensures begins { IfSome result (λ x. text.now ≡ (form_in x.0).start ++ x.1.now) }
    ensures none { IfNone result ((form : KeyForm) (rest : List ℕ)
        → key_form spelling kind ≡ Some form → text.now ≡ form.start ++ rest → ⊥) }
{
    let Some(form) = form_of(spelling, kind) else {
        return None;
    };
    let Some(rest) = text.strip_prefix(form.start) else {
        return None;
    };
    Some((form, rest))
}

/// The form at the front of a text, with its scheme, and the text after its start.
pub(crate) fn form_in_front<'a>(spelling: Spelling, text: &'a str) -> Option<(Kind, Form, &'a str)>
    ensures known { IfSome result (λ x. key_form spelling x.0 ≡ Some (form_in x.1)) }
    ensures begins { IfSome result (λ x. text.now ≡ (form_in x.1).start ++ x.2.now) }
    ensures none { IfNone result ((form : KeyForm) (rest : List ℕ)
        → BeginsKey spelling text.now form rest → ⊥) }
{
    for kind in KINDS {
        if let Some((form, rest)) = after_start(spelling, kind, text) {
            return Some((kind, form, rest));
        }
    }
    None
}

/// The pieces of a key: its scheme, the digits of the company prefix, those of the reference in
/// front of it and after it, and its serial number.
#[derive(Clone, Copy)]
pub(crate) struct Pieces<'a> {
    pub(crate) kind: Kind,
    pub(crate) company: &'a str,
    pub(crate) lead: &'a str,
    pub(crate) rest: &'a str,
    pub(crate) serial: Option<&'a str>,
}

/// The check digit of all digits but the last.
fn right_digit(digits: &str) -> u8
    requires digits { AreDigits digits.now }
    requires some { 0 < length digits.now }
    requires few { length digits.now ≤ 63 }
    ensures { IsRightDigit digits.now result }
{
    let (others, _) = cut_digits(digits, digits.len() - 1);
    check_digit_of(others, "", "")
}

/// The pieces of the text of a key whose company prefix has this many digits, or the first rule
/// that refuses the text.
pub(crate) fn read_pieces<'a>(
    text: &'a str,
    spelling: Spelling,
    filter: u8,
    company_digits: u8,
) -> Result<Pieces<'a>, KeyFault>
    requires { company_digits ≤ 12 }
    ensures ok { IfOk result (λ x. ReadsKey spelling company_digits text.now x.kind x.company.now
        (x.lead.now ++ x.rest.now) (one_text x.serial)) }
    ensures short { IfOk result (λ x. length text.now ≤ 96) }
    ensures err { IfErr result (λ f. HasKeyFault spelling filter company_digits text.now f) }
{
    if text.len() > 96 {
        return Err(KeyFault::Long);
    }
    let Some((kind, form, rest)) = form_in_front(spelling, text) else {
        return Err(KeyFault::Start);
    };
    if rest.len() < form.digits {
        return Err(KeyFault::Length);
    }
    let Some((digits, tail)) = digits_in_front(rest, form.digits) else {
        return Err(KeyFault::Digit);
    };
    if !is_checked(digits.as_bytes()) {
        return Err(KeyFault::Check(right_digit(digits)));
    }
    let Some(serial) = read_serial(tail, form.serial) else {
        return Err(KeyFault::Serial);
    };
    let (lead, others) = cut_digits(digits, form.lead);
    let (company, others) = cut_digits(others, company_digits as usize);
    let (rest, _) = cut_digits(others, others.len() - 1);
    Ok(Pieces {
        kind,
        company,
        lead,
        rest,
        serial,
    })
}
