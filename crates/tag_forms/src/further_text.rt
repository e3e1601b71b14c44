//! Writes the texts of words whose EPC is of a further scheme, beside their tag URIs.

ghost use Rattle.std.specs.Prelude.{List, ℕ, MatchOption};
ghost use Rattle.tag_forms.specs.FurtherForms.{IsFurtherIdOf, IsFurtherKeyOf, IsFurtherTextIn};

use crate::form::Form;
use crate::write_form::copied;
use arrayvec::ArrayString;
use tag_bits::Word;
use tag_keys::Spelling;
use tag_scheme_keys::{print_id_in, print_key_in, print_supplier_id};
use tag_schemes::{numbers_of, supplier_of};

/// The pure identity URI of a word's EPC of a further scheme.
fn id_text(word: Word) -> Option<ArrayString<96>>
    ensures { MatchOption result ((text : List ℕ) → IsFurtherIdOf word text → ⊥)
        (λ text. IsFurtherIdOf word text.bytes) }
{
    if let Some(epc) = numbers_of(word) {
        return Some(copied(print_id_in(epc).as_str()));
    }
    match supplier_of(word) {
        Some(epc) => Some(copied(print_supplier_id(epc).as_str())),
        None => None,
    }
}

/// The text of the key of a word's EPC of a further scheme.
fn key_text(word: Word, spelling: Spelling) -> Option<ArrayString<96>>
    ensures { MatchOption result ((text : List ℕ) → IsFurtherKeyOf spelling word text → ⊥)
        (λ text. IsFurtherKeyOf spelling word text.bytes) }
{
    match numbers_of(word) {
        Some(epc) => Some(copied(print_key_in(epc, spelling).as_str())),
        None => None,
    }
}

/// The text in a form, beside the tag form, of a word whose EPC is of a further scheme, or `None` if it has none.
pub(crate) fn further_text(word: Word, form: Form) -> Option<ArrayString<96>>
    ensures { MatchOption result ((text : List ℕ) → IsFurtherTextIn form word text → ⊥)
        (λ text. IsFurtherTextIn form word text.bytes) }
{
    match form {
        Form::Pure => id_text(word),
        Form::Element => key_text(word, Spelling::Element),
        Form::Link => key_text(word, Spelling::Link),
        Form::Key => key_text(word, Spelling::Named),
        Form::Tag | Form::Hex => None,
    }
}
