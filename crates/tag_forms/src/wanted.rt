//! What texts are answered by.

ghost use Rattle.std.specs.Prelude.{◌≡◌, ◌++◌, ◌<◌, List, ℕ, IfOk, IfSome, OnOk};
ghost use Rattle.std.specs.Int.{IsInRange};
ghost use Rattle.tag_forms.specs.Wanted.{IsWantedAnswer, line_refusal};

use crate::all_answers::push_answer_in_all;
use crate::all_objects::{push_member_answer_in_all, push_object_answer_in_all};
use crate::answer::push_answer;
use crate::form::Form;
use crate::member::push_member_answer;
use crate::object::{push_object_answer, push_refused};
use std::alloc::AllocError;

/// What a text is answered by.
#[derive(Clone, Copy, PartialEq, Eq, Debug)]
pub enum Wanted {
    /// The text of its word in this form.
    Text(Form),
    /// An object of JSON with the text of its word in this form.
    Member(Form),
    /// An object of JSON with all forms of its word.
    Object,
    /// The text in this form, in the set of all schemes.
    TextInAll(Form),
    /// An object with the text in this form, in the set of all schemes.
    MemberInAll(Form),
    /// An object with all forms, in the set of all schemes.
    ObjectInAll,
}

/// Appends what is wanted of a text, which is read in the form that it begins as, and returns whether the text is refused.
pub fn push_wanted(
    answers: &mut Vec<u8>,
    text: &str,
    wanted: Wanted,
    filter: u8,
    company_digits: Option<u8>,
) -> Result<bool, AllocError>
    requires filter { filter < 8 }
    requires digits { IfSome company_digits (λ count. IsInRange 6 12 count) }
    ensures { IfOk result (λ refused. (answer : List ℕ)
        × IsWantedAnswer wanted filter company_digits text.now refused answer
        × (answers.new.items ≡ answers.old.items ++ answer)) }
{
    match wanted {
        Wanted::Text(to) => push_answer(answers, text, to, filter, company_digits),
        Wanted::Member(to) => push_member_answer(answers, text, to, filter, company_digits),
        Wanted::Object => push_object_answer(answers, text, filter, company_digits),
        Wanted::TextInAll(to) => push_answer_in_all(answers, text, to, filter, company_digits),
        Wanted::MemberInAll(to) => {
            push_member_answer_in_all(answers, text, to, filter, company_digits)
        }
        Wanted::ObjectInAll => push_object_answer_in_all(answers, text, filter, company_digits),
    }
}

/// Appends what is wanted of a line that is refused by itself, for the reason with this name.
pub(crate) fn push_line_refusal(
    answers: &mut Vec<u8>,
    wanted: Wanted,
    name: &str,
) -> Result<(), AllocError>
    ensures { OnOk result (answers.new.items ≡ answers.old.items ++ line_refusal wanted name.now) }
{
    match wanted {
        Wanted::Text(_) | Wanted::TextInAll(_) => {
            answers.extend_from_slice(b"! ")?;
            answers.extend_from_slice(name.as_bytes())
        }
        Wanted::Member(_) | Wanted::Object | Wanted::MemberInAll(_) | Wanted::ObjectInAll => {
            push_refused(answers, name)
        }
    }
}
