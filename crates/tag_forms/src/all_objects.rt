//! The forms of a word as an object of JSON, in the set of all schemes.

ghost use Rattle.std.specs.Prelude.{◌≡◌, ◌++◌, ◌<◌, List, ℕ, IfOk, IfSome, OnOk};
ghost use Rattle.std.specs.Int.{IsInRange};
ghost use Rattle.tag_forms.specs.AllObjects.{IsMemberAnswerInAll, IsMemberInAll, IsMemberObjectInAll, IsObjectAnswerInAll, IsObjectInAll, IsReasonInAll, IsReasonInForm, reason_in_all, refused_in_all};

use crate::all_answers::lack_of;
use crate::all_forms::{AllFault, form_in_all, read_in_all};
use crate::form::{Form, form_of};
use crate::object::{push_refusal_object, push_refused};
use itoa::Buffer;
use std::alloc::AllocError;
use tag_bits::Word;
use tag_schemes::{PartFault, fault_in_all};

/// Appends the member of a form after its front, if the word has such a text.
fn push_member(object: &mut Vec<u8>, front: &[u8], word: Word, form: Form) -> Result<(), AllocError>
    ensures { OnOk result ((member : List ℕ) × IsMemberInAll front.now form word member
        × (object.new.items ≡ object.old.items ++ member)) }
{
    let Some(text) = form_in_all(word, form) else {
        return Ok(());
    };
    object.extend_from_slice(front)?;
    object.extend_from_slice(form.name().as_bytes())?;
    object.extend_from_slice(b"\":\"")?;
    object.extend_from_slice(text.as_str().as_bytes())?;
    object.extend_from_slice(b"\"")
}

/// Appends the members that say which part of a word fails, and its first bit.
fn push_fault(object: &mut Vec<u8>, fault: PartFault) -> Result<(), AllocError>
    ensures { OnOk result (object.new.items ≡ object.old.items ++ reason_in_all fault) }
{
    let mut digits = Buffer::new();
    object.extend_from_slice(b",\"reason\":\"")?;
    object.extend_from_slice(fault.reason.name().as_bytes())?;
    object.extend_from_slice(b"\",\"bit\":")?;
    object.extend_from_slice(digits.format(fault.bit).as_bytes())
}

/// Appends the members that say why no EPC has a word, if none has.
fn push_reason(object: &mut Vec<u8>, word: Word) -> Result<(), AllocError>
    ensures { OnOk result ((members : List ℕ) × IsReasonInAll word members
        × (object.new.items ≡ object.old.items ++ members)) }
{
    match fault_in_all(word) {
        None => Ok(()),
        Some(fault) => push_fault(object, fault),
    }
}

/// Appends an object with a member for each form that a word has, and after the tag form of a word that no EPC has why.
fn push_object(object: &mut Vec<u8>, word: Word) -> Result<(), AllocError>
    ensures { OnOk result ((text : List ℕ) × IsObjectInAll word text
        × (object.new.items ≡ object.old.items ++ text)) }
{
    push_member(object, b"{\"", word, Form::Tag)?;
    push_reason(object, word)?;
    push_member(object, b",\"", word, Form::Pure)?;
    push_member(object, b",\"", word, Form::Element)?;
    push_member(object, b",\"", word, Form::Link)?;
    push_member(object, b",\"", word, Form::Hex)?;
    push_member(object, b",\"", word, Form::Key)?;
    object.extend_from_slice(b"}")
}

/// Appends an object with the rule that refuses a text.
fn push_fault_object(object: &mut Vec<u8>, fault: AllFault) -> Result<(), AllocError>
    ensures { OnOk result (object.new.items ≡ object.old.items ++ refused_in_all fault) }
{
    match fault {
        AllFault::Tag(fault) => push_refused(object, fault.name()),
        AllFault::Supplier(fault) => push_refused(object, fault.name()),
        AllFault::Form(fault) => push_refusal_object(object, fault),
    }
}

/// Appends the answer to a text as an object of JSON, and returns whether the text is refused: a member for each form of its word, or the
/// first rule that refuses the text.
pub(crate) fn push_object_answer_in_all(
    answers: &mut Vec<u8>,
    text: &str,
    filter: u8,
    company_digits: Option<u8>,
) -> Result<bool, AllocError>
    requires filter { filter < 8 }
    requires digits { IfSome company_digits (λ count. IsInRange 6 12 count) }
    ensures { IfOk result (λ refused. (answer : List ℕ)
        × IsObjectAnswerInAll filter company_digits text.now refused answer
        × (answers.new.items ≡ answers.old.items ++ answer)) }
{
    match read_in_all(text, form_of(text), filter, company_digits) {
        Ok(word) => {
            push_object(answers, word)?;
            Ok(false)
        }
        Err(fault) => {
            push_fault_object(answers, fault)?;
            Ok(true)
        }
    }
}

/// Appends the members after that of a form: why no EPC has a word after its tag form.
fn push_reason_in(object: &mut Vec<u8>, word: Word, to: Form) -> Result<(), AllocError>
    ensures { OnOk result ((members : List ℕ) × IsReasonInForm to word members
        × (object.new.items ≡ object.old.items ++ members)) }
{
    let Form::Tag = to else {
        return Ok(());
    };
    push_reason(object, word)
}

/// Appends the object of a form of a word, and returns whether the word has no such text.
fn push_form_object(object: &mut Vec<u8>, word: Word, to: Form) -> Result<bool, AllocError>
    ensures { IfOk result (λ refused. (answer : List ℕ) × IsMemberObjectInAll to word refused answer
        × (object.new.items ≡ object.old.items ++ answer)) }
{
    let Some(_) = form_in_all(word, to) else {
        push_refused(object, lack_of(to))?;
        return Ok(true);
    };
    push_member(object, b"{\"", word, to)?;
    push_reason_in(object, word, to)?;
    object.extend_from_slice(b"}")?;
    Ok(false)
}

/// Appends the answer to a text as an object of JSON with one member, the text of its word in the form `to`, and returns whether the
/// text is refused.
pub(crate) fn push_member_answer_in_all(
    answers: &mut Vec<u8>,
    text: &str,
    to: Form,
    filter: u8,
    company_digits: Option<u8>,
) -> Result<bool, AllocError>
    requires filter { filter < 8 }
    requires digits { IfSome company_digits (λ count. IsInRange 6 12 count) }
    ensures { IfOk result (λ refused. (answer : List ℕ)
        × IsMemberAnswerInAll to filter company_digits text.now refused answer
        × (answers.new.items ≡ answers.old.items ++ answer)) }
{
    match read_in_all(text, form_of(text), filter, company_digits) {
        Ok(word) => push_form_object(answers, word, to),
        Err(fault) => {
            push_fault_object(answers, fault)?;
            Ok(true)
        }
    }
}
