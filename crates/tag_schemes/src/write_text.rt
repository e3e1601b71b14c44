//! Writes the tag URIs of further schemes.

ghost use Rattle.std.specs.Prelude.{◌≡◌, ◌+◌, ◌^◌, ◌<◌, ◌≤◌, ◌++◌, ◌∷◌, drop, length};
ghost use Rattle.std.specs.List.{join_with_byte};
ghost use Rattle.tag_uri.specs.Decimal.{padded, plain};
ghost use Rattle.tag_schemes.specs.LawfulWord.{HasSerial, IsLawful};
ghost use Rattle.tag_schemes.specs.Texts.{reference_text, serial_texts, uri_in};

use crate::numbers::Numbers;
use crate::scheme::Scheme;
use arrayvec::ArrayString;
use itoa::Buffer;
use tag_epc::scheme::power;

/// Appends the last `count` decimal digits of a number.
fn push_padded(text: &mut ArrayString<64>, count: u32, number: u64)
    requires few { count ≤ 12 }
    requires room { length text.old.bytes + count ≤ 64 }
    ensures digits { text.new.bytes ≡ text.old.bytes ++ padded count number }
    ensures len { length text.new.bytes ≡ length text.old.bytes + count }
{
    if count == 0 {
        return;
    }
    let digit = number / power(count - 1) % 10;
    text.push(char::from(b'0' + digit as u8));
    push_padded(text, count - 1, number);
}

/// Appends the digits of a number that has eleven at most.
pub(crate) fn push_short(text: &mut ArrayString<64>, number: u64)
    requires few { number < 10 ^ 11 }
    requires room { length text.old.bytes ≤ 53 }
    ensures digits { text.new.bytes ≡ text.old.bytes ++ plain number }
    ensures len { length text.new.bytes ≤ length text.old.bytes + 11 }
{
    let mut digits = Buffer::new();
    text.push_str(digits.format(number));
}

/// Appends a dot, and the serial number that is in the last segment of an SGCN-96.
fn push_serial(text: &mut ArrayString<64>, last: u64)
    requires serial { HasSerial Scheme.Sgcn last }
    requires bits { last < 2 ^ 41 }
    requires room { length text.old.bytes ≤ 51 }
    ensures { text.new.bytes ≡ text.old.bytes ++ (46 ∷ drop 1 (plain last)) }
{
    let mut digits = Buffer::new();
    text.push_str(".");
    match digits.format(last).strip_prefix("1") {
        Some(serial) => text.push_str(serial),
        None => unreachable!(),
    }
}

/// Appends the reference of an EPC, and of an SGCN-96 and CPI-96 the serial number.
fn push_reference(text: &mut ArrayString<64>, epc: Numbers)
    requires lawful { IsLawful epc }
    requires room { length text.old.bytes ≤ 40 }
    ensures { text.new.bytes ≡ text.old.bytes ++ join_with_byte 46
        (reference_text epc.scheme epc.company_digits epc.reference ∷ serial_texts epc.scheme epc.last) }
{
    let Some(row) = epc.scheme.row(12 - epc.company_digits) else {
        unreachable!()
    };
    match epc.scheme {
        Scheme::Giai => {
            let mut digits = Buffer::new();
            text.push_str(digits.format(epc.reference));
        }
        Scheme::Gsrnp => push_padded(text, row.reference_digits, epc.reference),
        Scheme::Sgcn => {
            push_padded(text, row.reference_digits, epc.reference);
            push_serial(text, epc.last);
        }
        Scheme::Cpi => {
            push_short(text, epc.reference);
            text.push_str(".");
            push_short(text, epc.last);
        }
    }
}

/// The tag URI of a lawful EPC, as `urn:epc:tag:giai-96:3.0614141.5678` (EPC Tag Data Standard 1.13, section 12).
pub fn print_further(epc: Numbers) -> ArrayString<64>
    requires { IsLawful epc }
    ensures { result.bytes ≡ uri_in epc }
{
    let mut text = ArrayString::new();
    text.push_str("urn:epc:tag:");
    text.push_str(epc.scheme.name());
    text.push_str(":");
    push_padded(&mut text, 1, epc.filter as u64);
    text.push_str(".");
    push_padded(&mut text, epc.company_digits as u32, epc.company);
    text.push_str(".");
    push_reference(&mut text, epc);
    text
}
