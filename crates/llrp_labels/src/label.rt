//! Labels a line of a listing.

ghost use Rattle.std.specs.Prelude.{◌≡◌, ◌++◌, List, MatchOption, OnOk, ℕ};
ghost use Rattle.llrp_labels.specs.LabelledLines.{EndsInWord, IsKeyAmong, IsLabelled, IsMark, IsTextAmong};

use crate::labels::Labels;
use crate::last_word::last_word;
use crate::word::{push_ending, word_of};
use arrayvec::ArrayString;
use std::alloc::AllocError;
use tag_bits::Word;
use tag_forms::{Form, form_in_all, text_in};
use tag_schemes::text_in_all;
use tag_uri::text_of_word;

/// The text of a word, in the set of all schemes or in that of the seven.
pub(crate) fn text_among(schemes: bool, word: Word) -> ArrayString<64>
    ensures { IsTextAmong schemes word result.bytes }
{
    if schemes {
        text_in_all(word)
    } else {
        text_of_word(word)
    }
}

/// The key of a word's EPC by its name, if it has one in the set of all schemes or in that of the seven.
pub(crate) fn key_among(schemes: bool, word: Word) -> Option<ArrayString<96>>
    ensures { MatchOption result ((key : List ℕ) → IsKeyAmong schemes word key → ⊥)
        (λ key. IsKeyAmong schemes word key.bytes) }
{
    if schemes {
        form_in_all(word, Form::Key)
    } else {
        text_in(word, Form::Key)
    }
}

/// Appends a tab and the key of a word's EPC, if it is to have one and has one.
fn push_mark(out: &mut Vec<u8>, labels: Labels, word: Word) -> Result<(), AllocError>
    ensures { OnOk result ((mark : List ℕ) × IsMark labels.schemes labels.keys word mark
        × (out.new.items ≡ out.old.items ++ mark)) }
{
    if !labels.keys {
        return Ok(());
    }
    let Some(key) = key_among(labels.schemes, word) else {
        return Ok(());
    };
    out.extend_from_slice(b"\t")?;
    out.extend_from_slice(key.as_str().as_bytes())
}

/// Appends a line without its LF, with its labels.
pub(crate) fn push_labelled(
    out: &mut Vec<u8>,
    labels: Labels,
    line: &[u8],
) -> Result<(), AllocError>
    ensures { OnOk result ((labelled : List ℕ) × IsLabelled labels line.now labelled
        × (out.new.items ≡ out.old.items ++ labelled)) }
{
    let Some((front, last)) = last_word(line) else {
        out.extend_from_slice(line)?;
        return Ok(());
    };
    let Some(word) = word_of(false, last) else {
        out.extend_from_slice(line)?;
        return Ok(());
    };
    push_ending(out, front, text_among(labels.schemes, word).as_str())?;
    push_mark(out, labels, word)
}
