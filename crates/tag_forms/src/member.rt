//! One form of a word as an object of JSON.

ghost use Rattle.std.specs.Prelude.{◌≡◌, ◌++◌, ◌<◌, List, ℕ, IfOk, IfSome, OnOk};
ghost use Rattle.std.specs.Int.{IsInRange};
ghost use Rattle.tag_forms.specs.Objects.{IsMemberAnswer, IsMemberObject, IsReasonIn, lack_name, refused_as};

use crate::form::{Form, form_of};
use crate::object::{push_member, push_reason, push_refusal_object, push_refused};
use crate::read_form::word_in;
use crate::write_form::text_in;
use std::alloc::AllocError;
use tag_bits::Word;

/// Appends the members after that of a form: why a word has no EPC after its tag form.
fn push_reason_in(object: &mut Vec<u8>, word: Word, to: Form) -> Result<(), AllocError>
    ensures { OnOk result ((members : List ℕ) × IsReasonIn to word members
        × (object.new.items ≡ object.old.items ++ members)) }
{
    let Form::Tag = to else {
        return Ok(());
    };
    push_reason(object, word)
}

/// Appends an object that says that a word has no text in a form.
fn push_lack(object: &mut Vec<u8>, to: Form) -> Result<(), AllocError>
    ensures { OnOk result (object.new.items ≡ object.old.items ++ refused_as (lack_name to)) }
{
    let name = match to {
        Form::Pure => "NoEpc",
        Form::Tag | Form::Hex => "",
        Form::Element | Form::Link | Form::Key => "NoKey",
    };
    push_refused(object, name)
}

/// Appends the object of a form of a word, and returns whether the word has no such text.
fn push_form_object(object: &mut Vec<u8>, word: Word, to: Form) -> Result<bool, AllocError>
    ensures { IfOk result (λ refused. (answer : List ℕ) × IsMemberObject to word refused answer
        × (object.new.items ≡ object.old.items ++ answer)) }
{
    let Some(_) = text_in(word, to) else {
        push_lack(object, to)?;
        return Ok(true);
    };
    push_member(object, b"{\"", word, to)?;
    push_reason_in(object, word, to)?;
    object.extend_from_slice(b"}")?;
    Ok(false)
}

/// Appends the answer to a text as an object of JSON with one member, the text of its word in the form `to`, and returns whether the
/// text is refused. After the tag form of a word without an EPC the members `reason` and `bit` follow; a refused text has
/// `refused` with the first rule that refuses it, and `right` with the right digit where the check digit is wrong.
pub(crate) fn push_member_answer(
    answers: &mut Vec<u8>,
    text: &str,
    to: Form,
    filter: u8,
    company_digits: Option<u8>,
) -> Result<bool, AllocError>
    requires filter { filter < 8 }
    requires digits { IfSome company_digits (λ count. IsInRange 6 12 count) }
    ensures { IfOk result (λ refused. (answer : List ℕ)
        × IsMemberAnswer to filter company_digits text.now refused answer
        × (answers.new.items ≡ answers.old.items ++ answer)) }
{
    match word_in(text, form_of(text), filter, company_digits) {
        Ok(word) => push_form_object(answers, word, to),
        Err(fault) => {
            push_refusal_object(answers, fault)?;
            Ok(true)
        }
    }
}
