//! Writes the texts of keys.

ghost use Rattle.std.specs.Prelude.{◌≡◌, ◌+◌, ◌≤◌, ◌++◌, length, IfSome, IfNone};
ghost use Rattle.tag_epc.specs.declared.kind.Kind.TheVariants.{Gid};
ghost use Rattle.tag_epc.specs.LawfulWord.{kind_of_parts};
ghost use Rattle.tag_uri.specs.Calls.Decimal.{AreDigits};
ghost use Rattle.tag_keys.specs.CheckDigit.{check_digit as check_of, with_check_digit};
ghost use Rattle.tag_keys.specs.KeyText.{IsKeyText, serial_text};
ghost use Rattle.tag_keys.specs.Private.Forms.{serial_in};
ghost use Rattle.tag_keys.specs.Private.Pieces.{one_text};

use crate::check_digit::check_digit;
use crate::components::split;
use crate::digits::cut_digits;
use crate::form::{Serial, form_of};
use crate::serial::is_zero;
use crate::spelling::Spelling;
use crate::tag_text::numbers_of;
use arrayvec::ArrayString;
use tag_epc::{Epc, Parts};
use tag_uri::print;

/// The text of an EPC's GS1 key with its serial number, as `(01)80614141123458(21)6789` (EPC Tag Data
/// Standard 1.13, section 7); `None` for GID-96, which has no key. It takes no memory; no such text is
/// longer than 96 octets.
pub fn print_key(epc: &Epc, spelling: Spelling) -> Option<ArrayString<96>>
    ensures some { IfSome result (λ text. IsKeyText spelling epc.now text.bytes) }
    ensures none { IfNone result (kind_of_parts epc.now ≡ Gid) }
{
    let Parts::Partitioned { kind, .. } = epc.parts() else {
        return None;
    };
    let Some(form) = form_of(spelling, kind) else {
        return None;
    };
    let tag = print(epc);
    let numbers = numbers_of(tag.as_str(), kind);
    let Some(components) = split(numbers) else {
        unreachable!()
    };
    let (lead, rest) = cut_digits(components.third, form.lead);
    let mut text = ArrayString::new();
    text.push_str(form.start);
    push_checked(&mut text, lead, components.second, rest);
    push_serial(&mut text, form.serial, components.others);
    Some(text)
}

/// Appends digits in three parts, and their check digit.
fn push_checked(text: &mut ArrayString<96>, lead: &str, company: &str, rest: &str)
    requires lead_digits { AreDigits lead.now }
    requires company_digits { AreDigits company.now }
    requires rest_digits { AreDigits rest.now }
    requires few { length lead.now + length company.now + length rest.now ≤ 63 }
    requires room { length text.old.bytes + length lead.now + length company.now + length rest.now + 1 ≤ 96 }
    ensures { text.new.bytes ≡ text.old.bytes
        ++ with_check_digit (lead.now ++ (company.now ++ rest.now)) }
{
    text.push_str(lead);
    text.push_str(company);
    text.push_str(rest);
    text.push(char::from(check_digit_of(lead, company, rest)));
}

/// The check digit of digits in three parts.
pub(crate) fn check_digit_of(lead: &str, company: &str, rest: &str) -> u8
    requires lead_digits { AreDigits lead.now }
    requires company_digits { AreDigits company.now }
    requires rest_digits { AreDigits rest.now }
    requires few { length lead.now + length company.now + length rest.now ≤ 63 }
    ensures digit { result ≡ check_of (lead.now ++ (company.now ++ rest.now)) }
{
    let mut digits = ArrayString::<64>::new();
    digits.push_str(lead);
    digits.push_str(company);
    digits.push_str(rest);
    digits.push_str("0");
    check_digit(digits.as_str().as_bytes())
}

/// Appends a serial number, if there is one.
fn push_serial(text: &mut ArrayString<96>, form: Serial, serial: Option<&str>)
    requires room { length text.old.bytes + length (serial_text (serial_in form) (one_text serial)) ≤ 96 }
    ensures { text.new.bytes ≡ text.old.bytes ++ serial_text (serial_in form)
        (one_text serial.entry) }
{
    let Some(serial) = serial else {
        return;
    };
    match form {
        Serial::Absent => {}
        Serial::Joined => text.push_str(serial),
        Serial::Marked(mark) => {
            text.push_str(mark);
            text.push_str(serial);
        }
        Serial::MarkedUnlessZero(mark) => {
            if !is_zero(serial) {
                text.push_str(mark);
                text.push_str(serial);
            }
        }
    }
}
