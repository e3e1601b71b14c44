//! The forms of a word, and the words of texts, in the set of all schemes.

ghost use Rattle.std.specs.Prelude.{◌≡◌, ◌^◌, ◌<◌, ◌⊎◌, List, ℕ, IfErr, IfOk, IfSome, MatchOption, Ok};
ghost use Rattle.std.specs.Int.{IsInRange};
ghost use Rattle.tag_forms.specs.declared.all_forms.AllFault.{AllFault};
ghost use Rattle.tag_forms.specs.declared.fault.FormFault.{FormFault};
ghost use Rattle.tag_forms.specs.AllForms.{IsFormInAll, ReadsInAll, RefusesInAll};
ghost use Rattle.tag_forms.specs.Faults.{HasFaultIn};
ghost use Rattle.tag_forms.specs.Forms.{IsTextIn, ReadsAs};
ghost use Rattle.tag_forms.specs.FurtherFaults.{RefusesFurther};
ghost use Rattle.tag_forms.specs.FurtherForms.{BeginsFurther, IsFurtherTextIn, ReadsFurther};

use crate::fault::FormFault;
use crate::form::Form;
use crate::further_text::further_text;
use crate::read_form::word_in;
use crate::read_further::read_further;
use crate::write_form::{copied, text_in};
use arrayvec::ArrayString;
use tag_bits::Word;
use tag_scheme_keys::SupplierFault;
use tag_schemes::{SchemeFault, text_in_all, word_in_all};

/// The rules that refuse a text in a form, in the set of all schemes.
#[derive(Clone, Copy, PartialEq, Eq, Debug)]
pub enum AllFault {
    /// This rule of tag URIs and raw URIs of all schemes refuses the text.
    Tag(SchemeFault),
    /// This rule of pure identity URIs of USDoD-96 refuses the text.
    Supplier(SupplierFault),
    /// This rule of another form refuses the text.
    Form(FormFault),
}

impl AllFault {
    ghost use Rattle.tag_forms.specs.AllForms.{all_fault_name};

    /// The name of the rule.
    pub fn name(self) -> &'static str
        ensures { result.now ≡ all_fault_name self }
    {
        match self {
            AllFault::Tag(fault) => fault.name(),
            AllFault::Supplier(fault) => fault.name(),
            AllFault::Form(fault) => fault.name(),
        }
    }
}

/// The text of a word in a form, in the set of all schemes, or `None` if it has none: a word whose EPC is of a further scheme has that
/// EPC's tag URI, pure identity URI and key (EPC Tag Data Standard 1.13, sections 6, 7 and 12), where USDoD-96 has no key, and each other
/// word has the texts that [`text_in`] gives.
pub fn form_in_all(word: Word, form: Form) -> Option<ArrayString<96>>
    ensures { MatchOption result ((text : List ℕ) → IsFormInAll form word text → ⊥)
        (λ text. IsFormInAll form word text.bytes) }
{
    match form {
        Form::Tag => Some(copied(text_in_all(word).as_str())),
        _ => form_beside_tag(word, form),
    }
}

/// The text of a word in a form, beside the tag form.
fn form_beside_tag(word: Word, form: Form) -> Option<ArrayString<96>>
    ensures { MatchOption result
        ((text : List ℕ) → IsFurtherTextIn form word text ⊎ IsTextIn form word text → ⊥)
        (λ text. IsFurtherTextIn form word text.bytes ⊎ IsTextIn form word text.bytes) }
{
    match further_text(word, form) {
        Some(text) => Some(text),
        None => text_in(word, form),
    }
}

/// The word of a text in a form, in the set of all schemes, or the first rule that refuses the text: a tag URI or raw URI is read in that
/// set. A pure identity URI or key that begins as one of a further scheme is read as that scheme's, and each other text as [`word_in`]
/// reads it.
pub fn read_in_all(
    text: &str,
    form: Form,
    filter: u8,
    company_digits: Option<u8>,
) -> Result<Word, AllFault>
    requires filter { filter < 8 }
    requires digits { IfSome company_digits (λ count. IsInRange 6 12 count) }
    ensures ok { IfOk result (λ word. ReadsInAll form filter company_digits text.now word) }
    ensures accepts { (word : ℕ) → word < 2 ^ 96 → ReadsInAll form filter company_digits text.now word
        → result ≡ Ok word }
    ensures err { IfErr result (λ fault. RefusesInAll form filter company_digits text.now fault) }
{
    match read_any(text, form, filter, company_digits) {
        Ok(word) => Ok(word),
        Err(fault) => Err(fault),
    }
}

/// That word, or the first rule that refuses the text.
fn read_any(
    text: &str,
    form: Form,
    filter: u8,
    company_digits: Option<u8>,
) -> Result<Word, AllFault>
    requires filter { filter < 8 }
    requires digits { IfSome company_digits (λ count. IsInRange 6 12 count) }
    ensures ok { IfOk result (λ word. ReadsInAll form filter company_digits text.now word) }
    ensures err { IfErr result (λ fault. RefusesInAll form filter company_digits text.now fault) }
{
    match form {
        Form::Tag => match word_in_all(text) {
            Ok(word) => Ok(word),
            Err(fault) => Err(AllFault::Tag(fault)),
        },
        _ => read_beside_tag(text, form, filter, company_digits),
    }
}

/// The word of a text in a form, beside the tag form, or the first rule that refuses the text.
fn read_beside_tag(
    text: &str,
    form: Form,
    filter: u8,
    company_digits: Option<u8>,
) -> Result<Word, AllFault>
    requires filter { filter < 8 }
    requires digits { IfSome company_digits (λ count. IsInRange 6 12 count) }
    ensures ok { IfOk result (λ word. ReadsFurther form filter company_digits text.now word
        ⊎ ReadsAs form filter company_digits text.now word) }
    ensures err { IfErr result (λ fault. RefusesFurther form filter company_digits text.now fault
        ⊎ ((BeginsFurther form text.now → ⊥) × (rule : FormFault)
        × HasFaultIn form filter company_digits text.now rule × (fault ≡ AllFault.Form rule))) }
{
    match read_further(text, form, filter, company_digits) {
        Some(Ok(word)) => Ok(word),
        Some(Err(fault)) => Err(fault),
        None => match word_in(text, form, filter, company_digits) {
            Ok(word) => Ok(word),
            Err(fault) => Err(AllFault::Form(fault)),
        },
    }
}
