//! The forms of a word, a line each.

ghost use Rattle.std.specs.Prelude.{◌≡◌, ◌++◌, List, ℕ, OnOk};
ghost use Rattle.tag_forms.specs.Answers.{AreFormLines, IsFormLine};

use crate::form::Form;
use crate::write_form::text_in;
use std::alloc::AllocError;
use tag_bits::Word;

/// Appends a line for each form that a word has: the form's name, a blank and the text.
pub fn push_forms(lines: &mut Vec<u8>, word: Word) -> Result<(), AllocError>
    ensures { OnOk result ((text : List ℕ) × AreFormLines word text
        × (lines.new.items ≡ lines.old.items ++ text)) }
{
    push_form(lines, word, Form::Tag)?;
    push_form(lines, word, Form::Pure)?;
    push_form(lines, word, Form::Element)?;
    push_form(lines, word, Form::Link)?;
    push_form(lines, word, Form::Hex)?;
    push_form(lines, word, Form::Key)
}

/// Appends the line of a form, if the word has such a text.
fn push_form(lines: &mut Vec<u8>, word: Word, form: Form) -> Result<(), AllocError>
    ensures { OnOk result ((line : List ℕ) × IsFormLine form word line
        × (lines.new.items ≡ lines.old.items ++ line)) }
{
    let Some(text) = text_in(word, form) else {
        return Ok(());
    };
    lines.extend_from_slice(form.name().as_bytes())?;
    lines.extend_from_slice(b" ")?;
    lines.extend_from_slice(text.as_str().as_bytes())?;
    lines.extend_from_slice(b"\n")
}
