//! Answers to one text.

ghost use Rattle.std.specs.Prelude.{◌≡◌, ◌++◌, ◌∷◌, ◌<◌, List, ℕ, [], IfOk, OnOk};
ghost use Rattle.tag_forms.specs.Company.{IsUsable};
ghost use Rattle.llrp_keys.specs.TextLines.{AreFormsOf, AreAnswersOf, Prints, verdict_of};
ghost use Rattle.llrp_stream.specs.Device.{IsFreshSink};

use llrp_listing::{ToolErr, Verdict, write_all};
use llrp_stream::Sink;
use std::alloc::{AllocError, Global};
use tag_forms::{Company, Wanted, form_of, push_forms, push_refusal, push_wanted, word_in};

/// The verdict on a text that is refused, or on one that is not.
pub(crate) fn verdict_of(refused: bool) -> Verdict
    ensures { result ≡ verdict_of refused }
{
    if refused {
        Verdict::Faulty
    } else {
        Verdict::Lawful
    }
}

/// Appends the lines of all forms of a text's word, or the line that says why the text is refused.
fn push_form_lines(
    lines: &mut Vec<u8>,
    text: &str,
    filter: u8,
    company: Company<'_>,
) -> Result<Verdict, AllocError>
    requires filter { filter < 8 }
    requires company { IsUsable company }
    ensures { IfOk result (λ verdict. (more : List ℕ)
        × AreFormsOf filter company.entry text.now verdict more
        × (lines.new.items ≡ lines.old.items ++ more)) }
{
    match word_in(text, form_of(text), filter, company.digits_of(text)) {
        Ok(word) => {
            push_forms(lines, word)?;
            Ok(Verdict::Lawful)
        }
        Err(fault) => {
            push_refusal(lines, fault)?;
            lines.push(b'\n')?;
            Ok(Verdict::Faulty)
        }
    }
}

/// Appends the line that answers a text.
fn push_answer_line(
    lines: &mut Vec<u8>,
    text: &str,
    to: Wanted,
    filter: u8,
    company: Company<'_>,
) -> Result<Verdict, AllocError>
    requires filter { filter < 8 }
    requires company { IsUsable company }
    ensures { IfOk result (λ verdict. (more : List ℕ)
        × AreAnswersOf to filter company.entry text.now verdict more
        × (lines.new.items ≡ lines.old.items ++ more)) }
{
    let refused = push_wanted(lines, text, to, filter, company.digits_of(text))?;
    lines.push(b'\n')?;
    Ok(verdict_of(refused))
}

/// Writes the forms of a text's word, a line each: the form's name, a blank and the text. The text is read in the form that it begins
/// as; where it is refused the line is `! REASON` with the first rule that refuses it, and the verdict is `Faulty`. The errors are
/// `Memory`, and `Write`, after which some first part of the lines was written.
pub fn run_forms<W: Sink>(
    alloc: Global,
    text: &str,
    filter: u8,
    company: Company<'_>,
    w: &mut W,
) -> Result<Verdict, ToolErr>
    requires filter { filter < 8 }
    requires company { IsUsable company }
    requires sink { IsFreshSink (W.log w.old) }
    ensures { Prints (AreFormsOf filter company.entry text.now) (W.log w.old) (W.log w.new) result }
{
    let mut lines = Vec::new(alloc);
    let verdict = push_form_lines(&mut lines, text, filter, company)?;
    write_all(w, lines.as_slice())?;
    Ok(verdict)
}

/// Writes the answer to a text as a line: what is wanted of it, which says why it is refused where the verdict is `Faulty`. The errors
/// are those of [`run_forms`].
pub fn run_answer<W: Sink>(
    alloc: Global,
    text: &str,
    to: Wanted,
    filter: u8,
    company: Company<'_>,
    w: &mut W,
) -> Result<Verdict, ToolErr>
    requires filter { filter < 8 }
    requires company { IsUsable company }
    requires sink { IsFreshSink (W.log w.old) }
    ensures { Prints (AreAnswersOf to filter company.entry text.now) (W.log w.old) (W.log w.new)
        result }
{
    let mut lines = Vec::new(alloc);
    let verdict = push_answer_line(&mut lines, text, to, filter, company)?;
    write_all(w, lines.as_slice())?;
    Ok(verdict)
}
