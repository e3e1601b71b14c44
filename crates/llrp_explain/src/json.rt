//! The text of a frame as an object of JSON.

ghost use Rattle.std.specs.Prelude.{◌≡◌, ◌++◌, ◌==◌, Bool, ℕ, List, codes, drop, flat_map, IfOk, OnOk, true, false};
ghost use Rattle.std.specs.List.{after_first, after_last, before_first, before_last};
ghost use Rattle.llrp_explain.specs.Private.JsonLines.{after_line};
ghost use Rattle.llrp_explain.specs.Calls.ExplainJson.{columns_json, fault_json, field_end, field_json, frame_json, is_plain, json_string, kind_of_line, line_json, lines_json, lines_of, reading_json, separator, standing_json, string_octet};

use crate::push::{push_digits, push_hexadecimal};
use memchr::{memchr, memrchr};
use std::alloc::AllocError;

/// What a line of a frame's text says.
#[derive(Clone, Copy, Drop)]
pub enum LineKind {
    Field,
    /// What follows is refused.
    Heading,
    Fault,
    Other,
}

/// Where a line of a frame's text stands.
#[derive(Clone, Copy, Drop)]
pub(crate) struct Place {
    /// No field came before it.
    pub(crate) first: bool,
    /// It is of what is refused.
    pub(crate) refused: bool,
}

/// What stands before the first such octet, and after it: all, and nothing, where there is none.
fn cut(text: &[u8], octet: u8) -> (&[u8], &[u8])
    ensures front { result.0.now ≡ before_first (λ c. c == octet) text.now }
    ensures back { result.1.now ≡ after_first (λ c. c == octet) text.now }
{
    match memchr(octet, text) {
        None => text.split_at(text.len()),
        Some(place) => {
            let (front, back) = text.split_at(place);
            (front, skip(back, 1))
        }
    }
}

/// What stands before the last such octet, and after it: nothing, and all, where there is none.
fn cut_last(text: &[u8], octet: u8) -> (&[u8], &[u8])
    ensures front { result.0.now ≡ before_last (λ c. c == octet) text.now }
    ensures back { result.1.now ≡ after_last (λ c. c == octet) text.now }
{
    match memrchr(octet, text) {
        None => text.split_at(0),
        Some(place) => {
            let (front, back) = text.split_at(place);
            (front, skip(back, 1))
        }
    }
}

/// What is left without the first octets.
fn skip(text: &[u8], count: usize) -> &[u8]
    ensures { result.now ≡ drop count text.now }
{
    if text.len() < count {
        return &[];
    }
    text.split_at(count).1
}

/// Whether an octet of a string stands for itself.
fn is_plain(octet: u8) -> bool
    ensures { result ≡ is_plain octet }
{
    32 <= octet && octet <= 126 && octet != b'"' && octet != b'\\'
}

/// Appends an octet of a string.
fn push_octet(json: &mut Vec<u8>, octet: u8) -> Result<(), AllocError>
    ensures { OnOk result (json.new.items ≡ json.old.items ++ string_octet octet) }
{
    if is_plain(octet) {
        return json.extend_from_slice(&[octet]);
    }
    json.extend_from_slice(b"\\u00")?;
    push_hexadecimal(json, &[octet])
}

/// Appends what stands between the quotes of a string.
fn push_inside(json: &mut Vec<u8>, text: &[u8]) -> Result<(), AllocError>
    ensures { OnOk result (json.new.items ≡ json.old.items ++ flat_map string_octet text.now) }
{
    for octet in text {
        push_octet(json, *octet)?;
    }
    Ok(())
}

/// Appends a string.
fn push_string(json: &mut Vec<u8>, text: &[u8]) -> Result<(), AllocError>
    ensures { OnOk result (json.new.items ≡ json.old.items ++ json_string text.now) }
{
    json.extend_from_slice(b"\"")?;
    push_inside(json, text)?;
    json.extend_from_slice(b"\"")
}

/// Appends what comes before a text, and the text.
fn push_named(json: &mut Vec<u8>, name: &[u8], text: &[u8]) -> Result<(), AllocError>
    ensures { OnOk result (json.new.items ≡ json.old.items ++ (name.now ++ text.now)) }
{
    json.extend_from_slice(name)?;
    json.extend_from_slice(text)
}

/// Appends what comes before a string, and the string.
fn push_named_string(json: &mut Vec<u8>, name: &[u8], text: &[u8]) -> Result<(), AllocError>
    ensures { OnOk result (json.new.items ≡ json.old.items ++ (name.now ++ json_string text.now)) }
{
    json.extend_from_slice(name)?;
    push_string(json, text)
}

/// Appends what stands in a field.
fn push_standing(json: &mut Vec<u8>, text: &[u8]) -> Result<(), AllocError>
    ensures { OnOk result (json.new.items ≡ json.old.items ++ standing_json text.now) }
{
    match text {
        [b'x', digits @ ..] => {
            push_named(json, b"\"hex\":\"", digits)?;
            json.extend_from_slice(b"\"")
        }
        _ => push_named(json, b"\"value\":", text),
    }
}

/// Appends the end of a field's object.
fn push_field_end(json: &mut Vec<u8>, refused: bool) -> Result<(), AllocError>
    ensures { OnOk result (json.new.items ≡ json.old.items ++ field_end refused) }
{
    if refused {
        json.extend_from_slice(b",\"refused\":true}")
    } else {
        json.extend_from_slice(b"}")
    }
}

/// Appends the reading of a field's number, if it has one.
fn push_reading(json: &mut Vec<u8>, reading: &[u8]) -> Result<(), AllocError>
    ensures { OnOk result (json.new.items ≡ json.old.items ++ reading_json reading.now) }
{
    if reading.is_empty() {
        return Ok(());
    }
    push_named_string(json, b",\"reading\":", reading)
}

/// Appends the members of the columns of a field's line.
fn push_columns(json: &mut Vec<u8>, columns: &[u8]) -> Result<(), AllocError>
    ensures { OnOk result (json.new.items ≡ json.old.items ++ columns_json columns.now) }
{
    let (bit, after_bit) = cut(columns, b' ');
    let (width, after_width) = cut(after_bit, b' ');
    let (level, after_level) = cut(after_width, b' ');
    let (name, value) = cut_last(after_level, b' ');
    push_named(json, b"{\"bit\":", bit)?;
    push_named(json, b",\"width\":", width)?;
    push_named_string(json, b",\"name\":", name)?;
    push_named(json, b",\"level\":", level)?;
    json.extend_from_slice(b",")?;
    push_standing(json, value)
}

/// Appends the object of a field's line.
#[tactic(auto, unfolding(crate::specs::Calls::ExplainJson::field_json))]
fn push_field(json: &mut Vec<u8>, refused: bool, line: &[u8]) -> Result<(), AllocError>
    ensures { OnOk result (json.new.items ≡ json.old.items ++ field_json refused line.now) }
{
    let (columns, reading) = cut(line, b'\t');
    push_columns(json, columns)?;
    push_reading(json, reading)?;
    push_field_end(json, refused)
}

/// Appends the object of a fault's line.
fn push_fault(json: &mut Vec<u8>, line: &[u8]) -> Result<(), AllocError>
    ensures { OnOk result (json.new.items ≡ json.old.items ++ fault_json line.now) }
{
    let (bit, after_bit) = cut(skip(line, 13), b',');
    let (octet, after_octet) = cut(skip(after_bit, 7), b':');
    let (reason, after_reason) = cut(skip(after_octet, 1), b':');
    push_named(json, b"{\"bit\":", bit)?;
    push_named(json, b",\"octet\":", octet)?;
    push_named_string(json, b",\"reason\":", reason)?;
    push_named_string(json, b",\"text\":", skip(after_reason, 1))?;
    json.extend_from_slice(b"}")
}

/// What a line says, by its first octet.
fn kind_of_line(line: &[u8]) -> LineKind
    ensures { result ≡ kind_of_line line.now }
{
    match line {
        [] => LineKind::Other,
        [first, ..] => {
            if 48 <= *first && *first <= 57 {
                LineKind::Field
            } else if *first == b't' {
                LineKind::Heading
            } else if *first == b'f' {
                LineKind::Fault
            } else {
                LineKind::Other
            }
        }
    }
}

/// Appends a comma before each field but the first.
fn push_separator(json: &mut Vec<u8>, first: bool) -> Result<(), AllocError>
    ensures { OnOk result (json.new.items ≡ json.old.items ++ separator first) }
{
    if first {
        Ok(())
    } else {
        json.extend_from_slice(b",")
    }
}

/// Appends the end of a frame's object, which has a fault.
fn push_last(json: &mut Vec<u8>, line: &[u8]) -> Result<(), AllocError>
    ensures { OnOk result (json.new.items ≡ json.old.items
        ++ (codes "],\"fault\":" ++ (fault_json line.now ++ codes "}\n"))) }
{
    json.extend_from_slice(b"],\"fault\":")?;
    push_fault(json, line)?;
    json.extend_from_slice(b"}\n")
}

/// Appends the object of a field's line, after a comma unless it is the first.
fn push_next(json: &mut Vec<u8>, place: Place, line: &[u8]) -> Result<(), AllocError>
    ensures { OnOk result (json.new.items ≡ json.old.items
        ++ (separator place.first ++ field_json place.refused line.now)) }
{
    push_separator(json, place.first)?;
    push_field(json, place.refused, line)
}

/// Appends what a line adds. Returns where the next one stands: nowhere after the line of a fault.
fn push_line(json: &mut Vec<u8>, place: Place, line: &[u8]) -> Result<Option<Place>, AllocError>
    ensures { IfOk result (λ next. (later : Bool → Bool → List ℕ)
        → json.old.items ++ line_json (kind_of_line line.now) place.first place.refused line.now later
        ≡ json.new.items ++ after_line next later) }
{
    match kind_of_line(line) {
        LineKind::Field => {
            push_next(json, place, line)?;
            Ok(Some(Place {
                first: false,
                refused: place.refused,
            }))
        }
        LineKind::Heading => Ok(Some(Place {
            first: place.first,
            refused: true,
        })),
        LineKind::Fault => {
            push_last(json, line)?;
            Ok(None)
        }
        LineKind::Other => Ok(Some(place)),
    }
}

/// Appends the objects of lines, to the end of a frame's object.
fn push_lines(json: &mut Vec<u8>, text: &[u8]) -> Result<(), AllocError>
    ensures { OnOk result (json.new.items ≡ json.old.items
        ++ lines_json (lines_of text.now) true false) }
{
    let mut rest = text;
    let mut place = Place {
        first: true,
        refused: false,
    };
    'lines: while !rest.is_empty() {
        let (line, later) = cut(rest, b'\n');
        let Some(next) = push_line(json, place, line)? else {
            return Ok(());
        };
        place = next;
        rest = later;
    }
    json.extend_from_slice(b"]}\n")
}

/// Appends the object of a frame: its number, how many octets it has, and the lines of its text.
pub(crate) fn push_frame(
    json: &mut Vec<u8>,
    number: u64,
    octets: u64,
    text: &[u8],
) -> Result<(), AllocError>
    ensures { OnOk result (json.new.items ≡ json.old.items
        ++ frame_json number octets text.now) }
{
    json.extend_from_slice(b"{\"frame\":")?;
    push_digits(json, number as u128)?;
    json.extend_from_slice(b",\"octets\":")?;
    push_digits(json, octets as u128)?;
    json.extend_from_slice(b",\"fields\":[")?;
    push_lines(json, text)
}
