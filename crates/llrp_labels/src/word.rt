//! The word of a text, and lines that end in a text.

ghost use Rattle.std.specs.Prelude.{◌≡◌, ◌++◌, ◌<◌, ◌^◌, ◌∷◌, IfOk, List, MatchOption, OnOk, ℕ};
ghost use Rattle.llrp_labels.specs.LabelledLines.{IsTextAmong};

use std::alloc::AllocError;
use std::str;
use tag_bits::Word;
use tag_schemes::word_in_all;
use tag_uri::word_of_text;

/// The word of a text, in the set of all schemes or in that of the seven.
fn word_among(schemes: bool, text: &str) -> Option<Word>
    ensures { MatchOption result ((word : ℕ) → word < 2 ^ 96 → IsTextAmong schemes word text.now → ⊥)
        (λ word. (word < 2 ^ 96) × IsTextAmong schemes word text.now) }
{
    if schemes {
        match word_in_all(text) {
            Ok(word) => Some(word),
            Err(_) => None,
        }
    } else {
        match word_of_text(text) {
            Ok(word) => Some(word),
            Err(_) => None,
        }
    }
}

/// The word whose text these octets are.
pub(crate) fn word_of(schemes: bool, octets: &[u8]) -> Option<Word>
    ensures { MatchOption result ((word : ℕ) → word < 2 ^ 96 → IsTextAmong schemes word octets.now → ⊥)
        (λ word. (word < 2 ^ 96) × IsTextAmong schemes word octets.now) }
{
    match str::from_utf8(octets) {
        Ok(text) => word_among(schemes, text),
        Err(_) => None,
    }
}

/// Appends a line that ends in this text, after a blank.
pub(crate) fn push_ending(out: &mut Vec<u8>, front: &[u8], text: &str) -> Result<(), AllocError>
    ensures { OnOk result (out.new.items ≡ out.old.items ++ (front.now ++ 32 ∷ text.now)) }
{
    out.extend_from_slice(front)?;
    out.extend_from_slice(b" ")?;
    out.extend_from_slice(text.as_bytes())
}
