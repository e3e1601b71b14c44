//! Takes the labels off a line.

ghost use Rattle.std.specs.Prelude.{◌≡◌, ◌++◌, ◌↔◌, ◌^◌, ◌<◌, true, IsTrue, List, MatchOption, None, OnOk, Some, ℕ};
ghost use Rattle.llrp_labels.specs.LabelledLines.{HasLastWord, IsBody, IsKeyAmong, IsTextAmong, IsUri};
ghost use Rattle.llrp_labels.specs.Private.Lines.{PlainOf};
ghost use Rattle.tag_schemes.specs.AllTexts.{HasFaultInAll};

use crate::fault::LabelFault;
use crate::label::key_among;
use crate::labels::Labels;
use crate::last_word::last_word;
use crate::word::{push_ending, word_of};
use llrp_listing::split_once;
use std::alloc::AllocError;
use std::str;
use tag_bits::Word;
use tag_schemes::{SchemeFault, word_in_all};
use tag_uri::text_of_word;

/// Why a line is not taken.
#[derive(Clone, Copy, PartialEq, Eq, Debug)]
pub(crate) enum LineErr {
    /// It is refused.
    Refused(LabelFault),
    /// Memory ran out.
    Memory,
}

impl From<AllocError> for LineErr {
    ghost use Rattle.llrp_labels.specs.declared.plain.LineErr.TheVariants.{Memory};

    ghost from_gives = { λ _ e. e ≡ Memory };

    fn from(_e: AllocError) -> LineErr {
        LineErr::Memory
    }
}

/// A line before its first tab, and what follows that, if keys are looked for and there is a tab.
fn split_key(keys: bool, line: &[u8]) -> Option<(&[u8], &[u8])>
    ensures { MatchOption result (IsBody keys line.now line.now None)
        (λ parts. IsBody keys line.now parts.0.now (Some parts.1.now)) }
{
    if !keys {
        return None;
    }
    split_once(line, b'\t')
}

/// Whether this is the key of a word's EPC, by its name, in the set of all schemes or in that of the seven.
fn is_key(schemes: bool, word: Word, key: &[u8]) -> bool
    ensures { IsTrue result ↔ IsKeyAmong schemes word key.now }
{
    match key_among(schemes, word) {
        Some(text) => text.as_str().as_bytes() == key,
        None => false,
    }
}

/// With all schemes, the first rule that refuses the last word of a line in their set, if that word begins as a URI of an EPC.
fn uri_fault(schemes: bool, last: &[u8]) -> Option<SchemeFault>
    requires { (word : ℕ) → word < 2 ^ 96 → IsTextAmong schemes word last.now → ⊥ }
    ensures { MatchOption result (schemes ≡ true → IsUri last.now → ⊥)
        (λ fault. (schemes ≡ true) × IsUri last.now × HasFaultInAll last.now fault) }
{
    if !schemes {
        return None;
    }
    if !last.starts_with(b"urn:epc:") {
        return None;
    }
    let Ok(text) = str::from_utf8(last) else {
        return None;
    };
    match word_in_all(text) {
        Ok(_) => None,
        Err(fault) => Some(fault),
    }
}

/// Appends a line before a tab as it is without labels, if this is the key of its EPC.
fn push_keyed(out: &mut Vec<u8>, labels: Labels, body: &[u8], key: &[u8]) -> Result<(), LineErr>
    ensures { (line : List ℕ) → IsBody labels.keys line body.now (Some key.now)
        → PlainOf labels line out.old.items out.new.items result }
{
    let Some((front, last)) = last_word(body) else {
        return Err(LineErr::Refused(LabelFault::Key));
    };
    let Some(word) = word_of(labels.schemes, last) else {
        return Err(LineErr::Refused(LabelFault::Key));
    };
    if !is_key(labels.schemes, word, key) {
        return Err(LineErr::Refused(LabelFault::Key));
    }
    push_ending(out, front, text_of_word(word).as_str())?;
    Ok(())
}

/// Appends a line that has no key and does not end in the text of a word, unless its last word begins as a URI of an EPC.
fn push_other(out: &mut Vec<u8>, labels: Labels, line: &[u8], last: &[u8]) -> Result<(), LineErr>
    requires body { IsBody labels.keys line.now line.now None }
    requires last { (front : List ℕ) × HasLastWord line.now front last.now }
    requires none { (word : ℕ) → word < 2 ^ 96 → IsTextAmong labels.schemes word last.now → ⊥ }
    ensures { PlainOf labels line.now out.old.items out.new.items result }
{
    if let Some(fault) = uri_fault(labels.schemes, last) {
        return Err(LineErr::Refused(LabelFault::Epc(fault)));
    }
    out.extend_from_slice(line)?;
    Ok(())
}

/// Appends a line that has no key as it is without labels.
fn push_unkeyed(out: &mut Vec<u8>, labels: Labels, line: &[u8]) -> Result<(), LineErr>
    requires { IsBody labels.keys line.now line.now None }
    ensures { PlainOf labels line.now out.old.items out.new.items result }
{
    let Some((front, last)) = last_word(line) else {
        out.extend_from_slice(line)?;
        return Ok(());
    };
    let Some(word) = word_of(labels.schemes, last) else {
        return push_other(out, labels, line, last);
    };
    push_ending(out, front, text_of_word(word).as_str())?;
    Ok(())
}

/// Appends a line without its LF as it is without labels, or returns why it is refused.
pub(crate) fn push_plain(out: &mut Vec<u8>, labels: Labels, line: &[u8]) -> Result<(), LineErr>
    ensures { PlainOf labels line.now out.old.items out.new.items result }
{
    match split_key(labels.keys, line) {
        Some((body, key)) => push_keyed(out, labels, body, key),
        None => push_unkeyed(out, labels, line),
    }
}
