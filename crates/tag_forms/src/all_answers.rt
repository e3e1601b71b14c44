//! Appends the answers to texts in the set of all schemes.

ghost use Rattle.std.specs.Prelude.{◌≡◌, ◌++◌, ◌<◌, List, ℕ, IfOk, IfSome, OnOk, codes};
ghost use Rattle.std.specs.Int.{IsInRange};
ghost use Rattle.tag_forms.specs.AllAnswers.{AreFormLinesInAll, IsAnswerInAll, IsFormLineInAll, IsRemarkInAll, IsWordAnswerInAll, lack_in_all, refusal_in_all, remark_in_all};

use crate::all_forms::{AllFault, form_in_all, read_in_all};
use crate::answer::push_refusal;
use crate::form::{Form, form_of};
use itoa::Buffer;
use std::alloc::AllocError;
use tag_bits::Word;
use tag_schemes::{PartFault, fault_in_all};

/// What is said of a word without a text in a form.
pub(crate) fn lack_of(to: Form) -> &'static str
    ensures { result.now ≡ lack_in_all to }
{
    match to {
        Form::Pure => "NoEpc",
        _ => "NoKey",
    }
}

/// Appends a tab, the part of a word that fails, and its first bit.
fn push_part_fault(answers: &mut Vec<u8>, fault: PartFault) -> Result<(), AllocError>
    ensures { OnOk result (answers.new.items ≡ answers.old.items ++ remark_in_all fault) }
{
    let mut digits = Buffer::new();
    answers.extend_from_slice(b"\t")?;
    answers.extend_from_slice(fault.reason.name().as_bytes())?;
    answers.extend_from_slice(b" ")?;
    answers.extend_from_slice(digits.format(fault.bit).as_bytes())?;
    Ok(())
}

/// Appends what is said of the tag form of a word that no EPC has.
fn push_remark(answers: &mut Vec<u8>, word: Word, to: Form) -> Result<(), AllocError>
    ensures { OnOk result ((text : List ℕ) × IsRemarkInAll to word text
        × (answers.new.items ≡ answers.old.items ++ text)) }
{
    let Form::Tag = to else {
        return Ok(());
    };
    match fault_in_all(word) {
        None => Ok(()),
        Some(fault) => push_part_fault(answers, fault),
    }
}

/// Appends why a word has no text in a form.
fn push_lack(answers: &mut Vec<u8>, to: Form) -> Result<(), AllocError>
    ensures { OnOk result (answers.new.items ≡ answers.old.items ++ (codes "! " ++ lack_in_all to)) }
{
    answers.extend_from_slice(b"! ")?;
    answers.extend_from_slice(lack_of(to).as_bytes())
}

/// Appends the answer for a word, and returns whether it has no text in the form.
fn push_word(answers: &mut Vec<u8>, word: Word, to: Form) -> Result<bool, AllocError>
    ensures { IfOk result (λ refused. (answer : List ℕ) × IsWordAnswerInAll to word refused answer
        × (answers.new.items ≡ answers.old.items ++ answer)) }
{
    match form_in_all(word, to) {
        Some(text) => {
            answers.extend_from_slice(text.as_str().as_bytes())?;
            push_remark(answers, word, to)?;
            Ok(false)
        }
        None => {
            push_lack(answers, to)?;
            Ok(true)
        }
    }
}

/// Appends the rule that refuses a text, with the right digit where the check digit is wrong.
pub fn push_refusal_in_all(answers: &mut Vec<u8>, fault: AllFault) -> Result<(), AllocError>
    ensures { OnOk result (answers.new.items ≡ answers.old.items ++ refusal_in_all fault) }
{
    match fault {
        AllFault::Tag(fault) => push_name(answers, fault.name()),
        AllFault::Supplier(fault) => push_name(answers, fault.name()),
        AllFault::Form(fault) => push_refusal(answers, fault),
    }
}

/// Appends the name of a rule that refuses a text.
fn push_name(answers: &mut Vec<u8>, name: &str) -> Result<(), AllocError>
    ensures { OnOk result (answers.new.items ≡ answers.old.items ++ (codes "! " ++ name.now)) }
{
    answers.extend_from_slice(b"! ")?;
    answers.extend_from_slice(name.as_bytes())
}

/// Appends the answer to a text as [`push_answer`](crate::push_answer) does, in the set of all schemes.
pub(crate) fn push_answer_in_all(
    answers: &mut Vec<u8>,
    text: &str,
    to: Form,
    filter: u8,
    company_digits: Option<u8>,
) -> Result<bool, AllocError>
    requires filter { filter < 8 }
    requires digits { IfSome company_digits (λ count. IsInRange 6 12 count) }
    ensures { IfOk result (λ refused. (answer : List ℕ)
        × IsAnswerInAll to filter company_digits text.now refused answer
        × (answers.new.items ≡ answers.old.items ++ answer)) }
{
    match read_in_all(text, form_of(text), filter, company_digits) {
        Ok(word) => push_word(answers, word, to),
        Err(fault) => {
            push_refusal_in_all(answers, fault)?;
            Ok(true)
        }
    }
}

/// Appends the line of a form, if the word has such a text.
fn push_form(lines: &mut Vec<u8>, word: Word, form: Form) -> Result<(), AllocError>
    ensures { OnOk result ((line : List ℕ) × IsFormLineInAll form word line
        × (lines.new.items ≡ lines.old.items ++ line)) }
{
    let Some(text) = form_in_all(word, form) else {
        return Ok(());
    };
    lines.extend_from_slice(form.name().as_bytes())?;
    lines.extend_from_slice(b" ")?;
    lines.extend_from_slice(text.as_str().as_bytes())?;
    lines.extend_from_slice(b"\n")
}

/// Appends a line for each form that a word has in the set of all schemes: the form's name, a blank and the text.
pub fn push_forms_in_all(lines: &mut Vec<u8>, word: Word) -> Result<(), AllocError>
    ensures { OnOk result ((text : List ℕ) × AreFormLinesInAll word text
        × (lines.new.items ≡ lines.old.items ++ text)) }
{
    push_form(lines, word, Form::Tag)?;
    push_form(lines, word, Form::Pure)?;
    push_form(lines, word, Form::Element)?;
    push_form(lines, word, Form::Link)?;
    push_form(lines, word, Form::Hex)?;
    push_form(lines, word, Form::Key)
}
