//! Writes the text of a word in a form.

ghost use Rattle.std.specs.Prelude.{◌≡◌, List, ℕ, MatchOption, length, ◌≤◌};
ghost use Rattle.tag_uri.specs.Hexadecimal.{hexadecimal};
ghost use Rattle.tag_forms.specs.Forms.{IsTextIn, IsKeyOf};

use crate::form::Form;
use arrayvec::ArrayString;
use tag_bits::Word;
use tag_epc::Epc;
use tag_keys::{Spelling, print_id, print_key};
use tag_uri::{print_raw, text_of_word};

/// The text of a word in a form, or `None` if it has none: a word without an EPC has no pure identity and no key, and GID-96 has no
/// key (EPC Tag Data Standard 1.13, sections 6, 7 and 12).
pub fn text_in(word: Word, form: Form) -> Option<ArrayString<96>>
    ensures { MatchOption result ((text : List ℕ) → IsTextIn form word text → ⊥)
        (λ text. IsTextIn form word text.bytes) }
{
    match form {
        Form::Tag => Some(copied(text_of_word(word).as_str())),
        Form::Pure => pure_text(word),
        Form::Element => key_text(word, Spelling::Element),
        Form::Link => key_text(word, Spelling::Link),
        Form::Hex => Some(digits_of(word)),
        Form::Key => key_text(word, Spelling::Named),
    }
}

/// The text, in more room.
pub(crate) fn copied(text: &str) -> ArrayString<96>
    requires { length text.now ≤ 96 }
    ensures { result.bytes ≡ text.now }
{
    let mut copy = ArrayString::new();
    copy.push_str(text);
    copy
}

/// The 24 hexadecimal digits of a word.
fn digits_of(word: Word) -> ArrayString<96>
    ensures { result.bytes ≡ hexadecimal 24 word }
{
    let raw = print_raw(word);
    match raw.as_str().strip_prefix("urn:epc:raw:96.x") {
        Some(digits) => copied(digits),
        None => unreachable!(),
    }
}

/// The pure identity URI of a word's EPC.
fn pure_text(word: Word) -> Option<ArrayString<96>>
    ensures { MatchOption result ((text : List ℕ) → IsTextIn Form.Pure word text → ⊥)
        (λ text. IsTextIn Form.Pure word text.bytes) }
{
    match Epc::from_word(word) {
        Ok(epc) => Some(print_id(&epc)),
        Err(_) => None,
    }
}

/// The text of the key of a word's EPC.
fn key_text(word: Word, spelling: Spelling) -> Option<ArrayString<96>>
    ensures { MatchOption result ((text : List ℕ) → IsKeyOf spelling word text → ⊥)
        (λ text. IsKeyOf spelling word text.bytes) }
{
    match Epc::from_word(word) {
        Ok(epc) => print_key(&epc, spelling),
        Err(_) => None,
    }
}
