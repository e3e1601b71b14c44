//! Labels the lines of tags.

ghost use Rattle.std.specs.Prelude.{◌≡◌, ◌++◌, IfOk, List, MatchOption, OnOk, codes, option_map, ℕ};
ghost use Rattle.llrp_labels.specs.LabelledTags.{AreKeyMembers, AreLabelledTags, IsLabelledObject, IsLabelledTag, IsLabelledWords, IsObject, key_members, object_start};

use crate::label::{key_among, text_among};
use crate::labels::Labels;
use crate::word::word_of;
use llrp_keys::{NamedKey, named_key_of};
use llrp_listing::split_once;
use std::alloc::{AllocError, Global};
use tag_bits::Word;

/// What comes before the text of the EPC of an object.
fn object_start() -> &'static [u8]
    ensures { result.now ≡ object_start }
{
    b"{\"epc\":\""
}

/// Appends a line of a tag in words, without its LF, with its labels.
fn push_words(out: &mut Vec<u8>, labels: Labels, line: &[u8]) -> Result<(), AllocError>
    ensures { OnOk result ((labelled : List ℕ) × IsLabelledWords labels line.now labelled
        × (out.new.items ≡ out.old.items ++ labelled)) }
{
    let Some((text, rest)) = split_once(line, b' ') else {
        out.extend_from_slice(line)?;
        return Ok(());
    };
    let Some(word) = word_of(false, text) else {
        out.extend_from_slice(line)?;
        return Ok(());
    };
    out.extend_from_slice(text_among(labels.schemes, word).as_str().as_bytes())?;
    out.extend_from_slice(b" ")?;
    out.extend_from_slice(rest)
}

/// The text of the EPC of an object, and what stands between its quote and the end of the object.
fn object_parts(line: &[u8]) -> Option<(&[u8], &[u8])>
    ensures { MatchOption result ((text rest : List ℕ) → IsObject line.now text rest → ⊥)
        (λ parts. IsObject line.now parts.0.now parts.1.now) }
{
    let Some(after) = line.strip_prefix(object_start()) else {
        return None;
    };
    let Some((text, rest)) = split_once(after, b'"') else {
        return None;
    };
    match rest.strip_suffix(b"}".as_slice()) {
        Some(rest) => Some((text, rest)),
        None => None,
    }
}

/// Appends the end of a key's member, and the member of its serial number.
fn push_serial(out: &mut Vec<u8>, serial: &[u8]) -> Result<(), AllocError>
    ensures { OnOk result (out.new.items ≡ out.old.items
        ++ (codes "\",\"serial\":\"" ++ (serial.now ++ codes "\""))) }
{
    out.extend_from_slice(b"\",\"serial\":\"")?;
    out.extend_from_slice(serial)?;
    out.extend_from_slice(b"\"")
}

/// Appends the member of a key under its name, and that of its serial number, if it has one.
fn push_key(out: &mut Vec<u8>, key: NamedKey<'_>) -> Result<(), AllocError>
    ensures { OnOk result (out.new.items ≡ out.old.items
        ++ key_members key.entry.name.now key.entry.number.now (option_map (λ s. s.now) key.entry.serial)) }
{
    out.extend_from_slice(b",\"")?;
    out.extend_from_slice(key.name)?;
    out.extend_from_slice(b"\":\"")?;
    out.extend_from_slice(key.number)?;
    match key.serial {
        None => out.extend_from_slice(b"\""),
        Some(serial) => push_serial(out, serial),
    }
}

/// Appends the members of the key of a word's EPC, if it is to have them and has one.
fn push_members(out: &mut Vec<u8>, labels: Labels, word: Word) -> Result<(), AllocError>
    ensures { OnOk result ((members : List ℕ)
        × AreKeyMembers labels.schemes labels.keys word members
        × (out.new.items ≡ out.old.items ++ members)) }
{
    if !labels.keys {
        return Ok(());
    }
    let Some(text) = key_among(labels.schemes, word) else {
        return Ok(());
    };
    match named_key_of(text.as_str().as_bytes()) {
        Some(key) => push_key(out, key),
        None => Ok(()),
    }
}

/// Appends a line of a tag as an object, without its LF, with its labels.
fn push_object(out: &mut Vec<u8>, labels: Labels, line: &[u8]) -> Result<(), AllocError>
    ensures { OnOk result ((labelled : List ℕ) × IsLabelledObject labels line.now labelled
        × (out.new.items ≡ out.old.items ++ labelled)) }
{
    let Some((text, rest)) = object_parts(line) else {
        out.extend_from_slice(line)?;
        return Ok(());
    };
    let Some(word) = word_of(false, text) else {
        out.extend_from_slice(line)?;
        return Ok(());
    };
    out.extend_from_slice(object_start())?;
    out.extend_from_slice(text_among(labels.schemes, word).as_str().as_bytes())?;
    out.extend_from_slice(b"\"")?;
    out.extend_from_slice(rest)?;
    push_members(out, labels, word)?;
    out.extend_from_slice(b"}")
}

/// Appends a line of a tag, without its LF, with its labels.
fn push_tag(out: &mut Vec<u8>, labels: Labels, json: bool, line: &[u8]) -> Result<(), AllocError>
    ensures { OnOk result ((labelled : List ℕ) × IsLabelledTag labels json line.now labelled
        × (out.new.items ≡ out.old.items ++ labelled)) }
{
    if json {
        push_object(out, labels, line)
    } else {
        push_words(out, labels, line)
    }
}

/// The lines of tags with labels: those of objects of JSON, or those in words, which have no key.
pub fn label_tags(
    alloc: Global,
    labels: Labels,
    json: bool,
    text: &[u8],
) -> Result<Vec<u8>, AllocError>
    ensures { IfOk result (λ labelled. AreLabelledTags labels json text.now labelled.items) }
{
    let mut labelled = Vec::new(alloc);
    let mut rest = text;
    'lines: while let Some((line, after)) = split_once(rest, b'\n') {
        push_tag(&mut labelled, labels, json, line)?;
        labelled.push(b'\n')?;
        rest = after;
    }
    if rest.is_empty() {
        return Ok(labelled);
    }
    push_tag(&mut labelled, labels, json, rest)?;
    Ok(labelled)
}
