//! Files of tags.

ghost use Rattle.std.specs.Prelude.{◌<◌, ◌^◌, IfErr, IfOk, MatchOption, length, ℕ};
ghost use Rattle.tag_uri.specs.TagText.{IsTextOf};
ghost use Rattle.llrp_live.specs.Calls.TagFiles.{AreTags, NoTagFollows, RefusesTags, TagFollows};

use llrp_listing::split_once;
use std::alloc::{AllocError, AllocFailed, Global};
use std::str;
use tag_bits::Word;
use tag_uri::word_of_text;

/// Why a file has no tags.
#[derive(Clone, Copy, Debug, PartialEq, Eq)]
pub enum TagsErr {
    /// A line, counted from 1, is refused.
    Line { line: u64 },
    /// Memory ran out.
    Memory,
}

impl From<AllocError> for TagsErr {
    ghost use Rattle.std.specs.Prelude.{◌≡◌};
    ghost use Rattle.llrp_live.specs.declared.tag_file.TagsErr.TheVariants.{Memory};

    ghost from_gives = { λ _ e. e ≡ Memory };

    fn from(_e: AllocError) -> TagsErr {
        TagsErr::Memory
    }
}

impl<T: Drop> From<AllocFailed<T>> for TagsErr {
    ghost use Rattle.std.specs.Prelude.{◌≡◌};
    ghost use Rattle.llrp_live.specs.declared.tag_file.TagsErr.TheVariants.{Memory};

    ghost from_gives = { λ _ e. e ≡ Memory };

    fn from(_e: AllocFailed<T>) -> TagsErr {
        TagsErr::Memory
    }
}

/// The word that has these octets as its text.
fn word_of(bytes: &[u8]) -> Option<Word>
    ensures { MatchOption result
        ((word : ℕ) → word < 2 ^ 96 → IsTextOf word bytes.now → ⊥)
        (λ word. (word < 2 ^ 96) × IsTextOf word bytes.now) }
{
    let text = str::from_utf8(bytes).ok()?;
    match word_of_text(text) {
        Ok(word) => Some(word),
        Err(_) => None,
    }
}

/// The word of the first line of a text, and what is after that line; `None` if it is the line of no tag.
fn next_word(text: &[u8]) -> Option<(Word, &[u8])>
    ensures { MatchOption result (NoTagFollows text.now)
        (λ next. TagFollows text.now next.0 next.1.now) }
{
    let (line, after) = split_once(text, b'\n')?;
    Some((word_of(line)?, after))
}

/// The words of the tags of a file: at least one line, each a tag URI or a raw URI (EPC Tag Data
/// Standard 1.13, section 12) ended by LF. The error is the first line that is refused, counted from 1,
/// or `Memory`.
pub fn words_of_tags(alloc: Global, text: &[u8]) -> Result<Vec<Word>, TagsErr>
    ensures tags { IfOk result (λ words. AreTags words.items text.now) }
    ensures some { IfOk result (λ words. 0 < length words.items) }
    ensures refused { IfErr result (RefusesTags text.now) }
{
    let mut words = Vec::new(alloc);
    let mut rest = text;
    'lines: while !rest.is_empty() || words.is_empty() {
        let Some(next) = next_word(rest) else {
            let line = words.len() as u64 + 1;
            return Err(TagsErr::Line { line });
        };
        words.push(next.0)?;
        rest = next.1;
    }
    Ok(words)
}
