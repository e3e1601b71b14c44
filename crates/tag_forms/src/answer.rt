//! Appends the answer to a text: the text of its word in another form, or why there is none.

ghost use Rattle.std.specs.Prelude.{◌≡◌, ◌++◌, ◌<◌, ◌≤◌, List, ℕ, IfOk, IfSome, OnOk, codes};
ghost use Rattle.std.specs.Int.{IsInRange};
ghost use Rattle.tag_epc.specs.LawfulWord.{IsLawfulEpc};
ghost use Rattle.tag_forms.specs.Answers.{IsAnswer, IsWordAnswer, IsRemark, remark, refusal, no_text};

use crate::fault::FormFault;
use crate::form::{Form, form_of};
use crate::read_form::word_in;
use crate::write_form::text_in;
use itoa::Buffer;
use std::alloc::AllocError;
use tag_bits::Word;
use tag_epc::{Epc, WordFault};
use tag_keys::KeyFault;

/// Appends the answer to a text, which is read in the form that it begins as, and returns whether the text is refused. The answer is
/// the text of its word in the form `to`, after a tab `REASON BIT` for the tag form of a word without an EPC, and else `! REASON`: the
/// first rule that refuses the text, with the right digit after `Check`, or `NoKey` or `NoEpc` for a word without such a text.
pub fn push_answer(
    answers: &mut Vec<u8>,
    text: &str,
    to: Form,
    filter: u8,
    company_digits: Option<u8>,
) -> Result<bool, AllocError>
    requires filter { filter < 8 }
    requires digits { IfSome company_digits (λ count. IsInRange 6 12 count) }
    ensures { IfOk result (λ refused. (answer : List ℕ)
        × IsAnswer to filter company_digits text.now refused answer
        × (answers.new.items ≡ answers.old.items ++ answer)) }
{
    match word_in(text, form_of(text), filter, company_digits) {
        Ok(word) => push_word(answers, word, to),
        Err(fault) => {
            push_refusal(answers, fault)?;
            Ok(true)
        }
    }
}

/// Appends the answer for a word, and returns whether it has no text in the form.
fn push_word(answers: &mut Vec<u8>, word: Word, to: Form) -> Result<bool, AllocError>
    ensures { IfOk result (λ refused. (answer : List ℕ) × IsWordAnswer to word refused answer
        × (answers.new.items ≡ answers.old.items ++ answer)) }
{
    match text_in(word, to) {
        Some(text) => {
            answers.extend_from_slice(text.as_str().as_bytes())?;
            push_remark(answers, word, to)?;
            Ok(false)
        }
        None => {
            push_no_text(answers, to)?;
            Ok(true)
        }
    }
}

/// Appends why a word has no text in a form.
fn push_no_text(answers: &mut Vec<u8>, to: Form) -> Result<(), AllocError>
    ensures { OnOk result (answers.new.items ≡ answers.old.items ++ no_text to) }
{
    let text = match to {
        Form::Pure => "! NoEpc",
        Form::Tag | Form::Hex => "",
        Form::Element | Form::Link | Form::Key => "! NoKey",
    };
    answers.extend_from_slice(text.as_bytes())
}

/// Appends what is said of the tag form of a word without an EPC.
fn push_remark(answers: &mut Vec<u8>, word: Word, to: Form) -> Result<(), AllocError>
    ensures { OnOk result ((text : List ℕ) × IsRemark to word text
        × (answers.new.items ≡ answers.old.items ++ text)) }
{
    let Form::Tag = to else {
        return Ok(());
    };
    match Epc::from_word(word) {
        Ok(_) => Ok(()),
        Err(fault) => push_word_fault(answers, fault),
    }
}

/// Appends a tab, the part of a word that fails, and its first bit.
fn push_word_fault(answers: &mut Vec<u8>, fault: WordFault) -> Result<(), AllocError>
    ensures { OnOk result (answers.new.items ≡ answers.old.items ++ remark fault) }
{
    let mut digits = Buffer::new();
    answers.extend_from_slice(b"\t")?;
    answers.extend_from_slice(fault.reason.name().as_bytes())?;
    answers.extend_from_slice(b" ")?;
    answers.extend_from_slice(digits.format(fault.bit).as_bytes())?;
    Ok(())
}

/// Appends the rule that refuses a text, with the right digit where the check digit is wrong.
pub fn push_refusal(answers: &mut Vec<u8>, fault: FormFault) -> Result<(), AllocError>
    ensures { OnOk result (answers.new.items ≡ answers.old.items ++ refusal fault) }
{
    answers.extend_from_slice(b"! ")?;
    answers.extend_from_slice(fault.name().as_bytes())?;
    if let FormFault::Key(KeyFault::Check(right)) = fault {
        answers.extend_from_slice(b" ")?;
        answers.push(right)?;
    }
    Ok(())
}
