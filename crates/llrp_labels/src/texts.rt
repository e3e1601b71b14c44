//! Labels the lines of a text, and takes the labels off.

ghost use Rattle.std.specs.Prelude.{◌≡◌, IfErr, IfOk};
ghost use Rattle.llrp_labels.specs.LabelledTexts.{IsLabelledText, IsPlainText, Refuses};
ghost use Rattle.llrp_labels.specs.Private.Lines.{error_at};

use crate::fault::PlainErr;
use crate::label::push_labelled;
use crate::labels::Labels;
use crate::plain::{LineErr, push_plain};
use llrp_listing::split_once;
use std::alloc::{AllocError, Global};

/// The text with labels in its lines.
pub fn label_text(alloc: Global, labels: Labels, text: &[u8]) -> Result<Vec<u8>, AllocError>
    ensures { IfOk result (λ labelled. IsLabelledText labels text.now labelled.items) }
{
    let mut labelled = Vec::new(alloc);
    let mut rest = text;
    'lines: while let Some((line, after)) = split_once(rest, b'\n') {
        push_labelled(&mut labelled, labels, line)?;
        labelled.push(b'\n')?;
        rest = after;
    }
    if rest.is_empty() {
        return Ok(labelled);
    }
    push_labelled(&mut labelled, labels, rest)?;
    Ok(labelled)
}

/// The error of the line with this number.
fn error_at(line: u64, error: LineErr) -> PlainErr
    ensures { result ≡ error_at line error }
{
    match error {
        LineErr::Refused(fault) => PlainErr::Line { line, fault },
        LineErr::Memory => PlainErr::Memory,
    }
}

/// The text without labels in its lines, or the first line that is refused.
pub fn plain_text(alloc: Global, labels: Labels, text: &[u8]) -> Result<Vec<u8>, PlainErr>
    ensures plain { IfOk result (λ plain. IsPlainText labels text.now plain.items) }
    ensures refused { IfErr result (λ e. Refuses labels text.now e) }
{
    let mut plain = Vec::new(alloc);
    let mut rest = text;
    let mut count = 0usize;
    'lines: while let Some((line, after)) = split_once(rest, b'\n') {
        if let Err(error) = push_plain(&mut plain, labels, line) {
            return Err(error_at(count as u64 + 1, error));
        }
        plain.push(b'\n')?;
        rest = after;
        count += 1;
    }
    if rest.is_empty() {
        return Ok(plain);
    }
    match push_plain(&mut plain, labels, rest) {
        Ok(()) => Ok(plain),
        Err(error) => Err(error_at(count as u64 + 1, error)),
    }
}
