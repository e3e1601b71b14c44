//! The forms of one text's word in the set of all schemes.

ghost use Rattle.std.specs.Prelude.{◌≡◌, ◌++◌, ◌<◌, List, ℕ, IfOk};
ghost use Rattle.tag_forms.specs.Company.{IsUsable};
ghost use Rattle.llrp_keys.specs.AllForms.{AreFormsInAll};
ghost use Rattle.llrp_keys.specs.TextLines.{Prints};
ghost use Rattle.llrp_stream.specs.Device.{IsFreshSink};

use llrp_listing::{ToolErr, Verdict, write_all};
use llrp_stream::Sink;
use std::alloc::{AllocError, Global};
use tag_forms::{Company, form_of, push_forms_in_all, push_refusal_in_all, read_in_all};

/// Appends the lines of all forms of a text's word, or the line that says why the text is refused.
fn push_form_lines(
    lines: &mut Vec<u8>,
    text: &str,
    filter: u8,
    company: Company<'_>,
) -> Result<Verdict, AllocError>
    requires filter { filter < 8 }
    requires company { IsUsable company }
    ensures { IfOk result (λ verdict. (more : List ℕ)
        × AreFormsInAll filter company.entry text.now verdict more
        × (lines.new.items ≡ lines.old.items ++ more)) }
{
    match read_in_all(text, form_of(text), filter, company.digits_of(text)) {
        Ok(word) => {
            push_forms_in_all(lines, word)?;
            Ok(Verdict::Lawful)
        }
        Err(fault) => {
            push_refusal_in_all(lines, fault)?;
            lines.push(b'\n')?;
            Ok(Verdict::Faulty)
        }
    }
}

/// Writes the forms of a text's word as [`run_forms`](crate::run_forms) does, in the set of all schemes (EPC Tag Data Standard 1.13,
/// sections 6, 7 and 12). The errors are those of [`run_forms`](crate::run_forms).
pub fn run_forms_in_all<W: Sink>(
    alloc: Global,
    text: &str,
    filter: u8,
    company: Company<'_>,
    w: &mut W,
) -> Result<Verdict, ToolErr>
    requires filter { filter < 8 }
    requires company { IsUsable company }
    requires sink { IsFreshSink (W.log w.old) }
    ensures { Prints (AreFormsInAll filter company.entry text.now) (W.log w.old) (W.log w.new) result }
{
    let mut lines = Vec::new(alloc);
    let verdict = push_form_lines(&mut lines, text, filter, company)?;
    write_all(w, lines.as_slice())?;
    Ok(verdict)
}
