//! Reads the word of a text in a form.

ghost use Rattle.std.specs.Prelude.{◌≡◌, ℕ, ◌^◌, ◌<◌, ◌≤◌, Ok, IfOk, IfErr, IfSome};
ghost use Rattle.std.specs.Int.{IsInRange};
ghost use Rattle.tag_forms.specs.Forms.{ReadsAs, ReadsKeyOf};
ghost use Rattle.tag_forms.specs.Faults.{HasFaultIn, HasFaultAsKey};

use crate::fault::FormFault;
use crate::form::Form;
use crate::hexadecimal::word_of_hex;
use tag_bits::Word;
use tag_keys::{Spelling, parse_id, parse_key};
use tag_uri::word_of_text;

/// The word of a text in a form, or the first rule that refuses the text. A pure identity URI and a key have no filter value, and a
/// key does not say how many digits its company prefix has; where that is not known no key is read.
pub fn word_in(
    text: &str,
    form: Form,
    filter: u8,
    company_digits: Option<u8>,
) -> Result<Word, FormFault>
    requires filter { filter < 8 }
    requires digits { IfSome company_digits (λ count. IsInRange 6 12 count) }
    ensures ok { IfOk result (λ word. ReadsAs form filter company_digits text.now word) }
    ensures accepts { (word : ℕ) → word < 2 ^ 96 → ReadsAs form filter company_digits text.now word
        → result ≡ Ok word }
    ensures err { IfErr result (λ fault. HasFaultIn form filter company_digits text.now fault) }
{
    match form {
        Form::Tag => match word_of_text(text) {
            Ok(word) => Ok(word),
            Err(fault) => Err(FormFault::Tag(fault)),
        },
        Form::Pure => match parse_id(text, filter) {
            Ok(epc) => Ok(epc.to_word()),
            Err(fault) => Err(FormFault::Key(fault)),
        },
        Form::Element => word_of_key(text, Spelling::Element, filter, company_digits),
        Form::Link => word_of_key(text, Spelling::Link, filter, company_digits),
        Form::Hex => match word_of_hex(text) {
            Some(word) => Ok(word),
            None => Err(FormFault::Hex),
        },
        Form::Key => word_of_key(text, Spelling::Named, filter, company_digits),
    }
}

/// The word of a key's text.
fn word_of_key(
    text: &str,
    spelling: Spelling,
    filter: u8,
    company_digits: Option<u8>,
) -> Result<Word, FormFault>
    requires filter { filter < 8 }
    requires digits { IfSome company_digits (λ count. IsInRange 6 12 count) }
    ensures ok { IfOk result (λ word. ReadsKeyOf spelling filter company_digits text.now word) }
    ensures accepts { (word : ℕ) → word < 2 ^ 96
        → ReadsKeyOf spelling filter company_digits text.now word → result ≡ Ok word }
    ensures err { IfErr result (λ fault. HasFaultAsKey spelling filter company_digits text.now
        fault) }
{
    let Some(count) = company_digits else {
        return match parse_key(text, spelling, filter, 7) {
            Ok(_) => Err(FormFault::Prefix),
            Err(fault) => Err(FormFault::Key(fault)),
        };
    };
    match parse_key(text, spelling, filter, count) {
        Ok(epc) => Ok(epc.to_word()),
        Err(fault) => Err(FormFault::Key(fault)),
    }
}
