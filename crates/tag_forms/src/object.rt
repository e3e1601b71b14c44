//! The forms of a word as an object of JSON.

ghost use Rattle.std.specs.Prelude.{◌≡◌, ◌++◌, ◌<◌, List, ℕ, IfOk, IfSome, OnOk};
ghost use Rattle.std.specs.Int.{IsInRange};
ghost use Rattle.tag_forms.specs.Objects.{IsFormMember, IsFormObject, IsObjectAnswer, IsReason, reason, refusal_object, refused_as, right_member};

use crate::fault::FormFault;
use crate::form::{Form, form_of};
use crate::read_form::word_in;
use crate::write_form::text_in;
use itoa::Buffer;
use std::alloc::AllocError;
use tag_bits::Word;
use tag_epc::{Epc, WordFault};
use tag_keys::KeyFault;

/// Appends the member of a form after its front, if the word has such a text.
pub(crate) fn push_member(
    object: &mut Vec<u8>,
    front: &[u8],
    word: Word,
    form: Form,
) -> Result<(), AllocError>
    ensures { OnOk result ((member : List ℕ) × IsFormMember front.now form word member
        × (object.new.items ≡ object.old.items ++ member)) }
{
    let Some(text) = text_in(word, form) else {
        return Ok(());
    };
    object.extend_from_slice(front)?;
    object.extend_from_slice(form.name().as_bytes())?;
    object.extend_from_slice(b"\":\"")?;
    object.extend_from_slice(text.as_str().as_bytes())?;
    object.extend_from_slice(b"\"")
}

/// Appends the members that say which part of a word fails, and its first bit.
fn push_fault(object: &mut Vec<u8>, fault: WordFault) -> Result<(), AllocError>
    ensures { OnOk result (object.new.items ≡ object.old.items ++ reason fault) }
{
    let mut digits = Buffer::new();
    object.extend_from_slice(b",\"reason\":\"")?;
    object.extend_from_slice(fault.reason.name().as_bytes())?;
    object.extend_from_slice(b"\",\"bit\":")?;
    object.extend_from_slice(digits.format(fault.bit).as_bytes())
}

/// Appends the members that say why a word has no EPC, if it has none.
pub(crate) fn push_reason(object: &mut Vec<u8>, word: Word) -> Result<(), AllocError>
    ensures { OnOk result ((members : List ℕ) × IsReason word members
        × (object.new.items ≡ object.old.items ++ members)) }
{
    match Epc::from_word(word) {
        Ok(_) => Ok(()),
        Err(fault) => push_fault(object, fault),
    }
}

/// Appends an object with a member for each form that a word has, and after the tag form of a word without an EPC why it has none.
fn push_object(object: &mut Vec<u8>, word: Word) -> Result<(), AllocError>
    ensures { OnOk result ((text : List ℕ) × IsFormObject word text
        × (object.new.items ≡ object.old.items ++ text)) }
{
    push_member(object, b"{\"", word, Form::Tag)?;
    push_reason(object, word)?;
    push_member(object, b",\"", word, Form::Pure)?;
    push_member(object, b",\"", word, Form::Element)?;
    push_member(object, b",\"", word, Form::Link)?;
    push_member(object, b",\"", word, Form::Hex)?;
    push_member(object, b",\"", word, Form::Key)?;
    object.extend_from_slice(b"}")
}

/// Appends what follows the name of a rule that refuses a text: the right digit where the check digit is wrong.
fn push_right(object: &mut Vec<u8>, fault: FormFault) -> Result<(), AllocError>
    ensures { OnOk result (object.new.items ≡ object.old.items ++ right_member fault) }
{
    if let FormFault::Key(KeyFault::Check(right)) = fault {
        object.extend_from_slice(b"\",\"right\":\"")?;
        object.push(right)?;
    }
    Ok(())
}

/// Appends an object with the rule that refuses a text, and with the right digit where the check digit is wrong.
pub(crate) fn push_refusal_object(object: &mut Vec<u8>, fault: FormFault) -> Result<(), AllocError>
    ensures { OnOk result (object.new.items ≡ object.old.items ++ refusal_object fault) }
{
    object.extend_from_slice(b"{\"refused\":\"")?;
    object.extend_from_slice(fault.name().as_bytes())?;
    push_right(object, fault)?;
    object.extend_from_slice(b"\"}")
}

/// Appends the object of a text that is refused for the reason with this name.
pub(crate) fn push_refused(object: &mut Vec<u8>, name: &str) -> Result<(), AllocError>
    ensures { OnOk result (object.new.items ≡ object.old.items ++ refused_as name.now) }
{
    object.extend_from_slice(b"{\"refused\":\"")?;
    object.extend_from_slice(name.as_bytes())?;
    object.extend_from_slice(b"\"}")
}

/// Appends the answer to a text as an object of JSON, and returns whether the text is refused: a member for each form of its word, or the
/// first rule that refuses the text.
pub fn push_object_answer(
    answers: &mut Vec<u8>,
    text: &str,
    filter: u8,
    company_digits: Option<u8>,
) -> Result<bool, AllocError>
    requires filter { filter < 8 }
    requires digits { IfSome company_digits (λ count. IsInRange 6 12 count) }
    ensures { IfOk result (λ refused. (answer : List ℕ)
        × IsObjectAnswer filter company_digits text.now refused answer
        × (answers.new.items ≡ answers.old.items ++ answer)) }
{
    match word_in(text, form_of(text), filter, company_digits) {
        Ok(word) => {
            push_object(answers, word)?;
            Ok(false)
        }
        Err(fault) => {
            push_refusal_object(answers, fault)?;
            Ok(true)
        }
    }
}
