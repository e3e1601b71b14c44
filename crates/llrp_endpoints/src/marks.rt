//! The lines of tags with the host's time, and with the name of the reader.

ghost use Rattle.std.specs.Prelude.{◌≡◌, ◌++◌, List, OnOk, IfOk, true, ℕ};
ghost use Rattle.llrp_endpoints.specs.declared.form.LineForm.TheVariants.{Full, Words};
ghost use Rattle.llrp_endpoints.specs.MarkedLines.{AreMarked, ended_by, head_text, name_in, opened, reader_where, with_heads, with_last};
ghost use Rattle.llrp_endpoints.specs.Moments.{IsMomentText};

use crate::form::LineForm;
use crate::moment::push_moment;
use llrp_json::push_string;
use llrp_listing::Text;
use std::alloc::{AllocError, Global};

/// Appends the member of the reader's name, if there is one.
fn push_reader(text: &mut Text, name: Option<&[u8]>) -> Result<(), AllocError>
    ensures { OnOk result (text.new ≡ text.old ++ reader_where (name_in name.entry)) }
{
    match name {
        None => Ok(()),
        Some(name) => {
            text.push_text(b",\"reader\":")?;
            push_string(text, name)
        }
    }
}

/// Appends the members at the head of an object.
fn push_head(text: &mut Text, micros: u64, name: Option<&[u8]>) -> Result<(), AllocError>
    ensures { OnOk result ((moment : List ℕ) × IsMomentText micros moment
        × (text.new ≡ text.old ++ head_text moment (name_in name.entry))) }
{
    text.push_text(b"\"at\":\"")?;
    push_moment(text, micros)?;
    text.push_text(b"\"")?;
    push_reader(text, name)?;
    text.push_text(b",")
}

/// Appends an octet, with the head after it where a line begins.
fn push_opened(text: &mut Text, begins: bool, head: &[u8], octet: u8) -> Result<(), AllocError>
    ensures { OnOk result (text.new ≡ text.old ++ opened begins head.now octet) }
{
    text.push(octet)?;
    if begins { text.push_text(head) } else { Ok(()) }
}

/// Appends lines of objects, each with this head.
fn push_objects(text: &mut Text, head: &[u8], lines: &[u8]) -> Result<(), AllocError>
    ensures { OnOk result (text.new ≡ text.old ++ with_heads true head.now lines.now) }
{
    let mut begins = true;
    for octet in lines {
        push_opened(text, begins, head, *octet)?;
        begins = *octet == b'\n';
    }
    Ok(())
}

/// Appends an octet, with a space and a word before it where it ends a line.
fn push_ended(text: &mut Text, word: &[u8], octet: u8) -> Result<(), AllocError>
    ensures { OnOk result (text.new ≡ text.old ++ ended_by word.now octet) }
{
    if octet != b'\n' {
        return text.push(octet);
    }
    text.push(b' ')?;
    text.push_text(word)?;
    text.push(b'\n')
}

/// Appends lines of words, each with one more.
fn push_words(text: &mut Text, word: &[u8], lines: &[u8]) -> Result<(), AllocError>
    ensures { OnOk result (text.new ≡ text.old ++ with_last word.now lines.now) }
{
    for octet in lines {
        push_ended(text, word, *octet)?;
    }
    Ok(())
}

/// Lines of words with a moment.
fn marked_words(alloc: Global, micros: u64, lines: &[u8]) -> Result<Text, AllocError>
    ensures { IfOk result (λ text. (moment : List ℕ) × IsMomentText micros moment
        × (text ≡ with_last moment lines.now)) }
{
    let mut moment = Text::new(alloc);
    let mut text = Text::new(alloc);
    push_moment(&mut moment, micros)?;
    push_words(&mut text, moment.as_slice(), lines)?;
    Ok(text)
}

/// Lines of objects with a moment and a name.
fn marked_objects(
    alloc: Global,
    micros: u64,
    name: Option<&[u8]>,
    lines: &[u8],
) -> Result<Text, AllocError>
    ensures { IfOk result (λ text. (moment : List ℕ) × IsMomentText micros moment
        × (text ≡ with_heads true (head_text moment (name_in name.entry)) lines.now)) }
{
    let mut head = Text::new(alloc);
    let mut text = Text::new(alloc);
    push_head(&mut head, micros, name)?;
    push_objects(&mut text, head.as_slice(), lines)?;
    Ok(text)
}

/// The lines of tags that a client printed in this form, each with the moment `micros` microseconds
/// after 1970-01-01T00:00:00Z. Words have it as one more word, as `2026-01-31T23:59:59.123456Z`. An
/// object begins with the member `at`, and with `reader` after it if a name is given, which is
/// UTF-8; lines of objects are whole, and none is empty.
pub fn marked_lines(
    alloc: Global,
    form: LineForm,
    micros: u64,
    name: Option<&[u8]>,
    lines: &[u8],
) -> Result<Text, AllocError>
    ensures { IfOk result (λ text. AreMarked form micros (name_in name.entry) lines.now text) }
{
    match form {
        LineForm::Words | LineForm::Tags => marked_words(alloc, micros, lines),
        LineForm::Json | LineForm::Full => marked_objects(alloc, micros, name, lines),
    }
}
