//! Splits a line into its words.

ghost use Rattle.std.specs.Prelude.{◌∷◌, ◌≡◌, MatchOption, [], length};
ghost use Rattle.llrp_listing.specs.Calls.Splits.{IsSplit, Lacks};
ghost use Rattle.llrp_listing.specs.Lines.{words};
ghost use Rattle.llrp_listing.specs.Private.Splits.{words_in};

use memchr::memchr;

/// The bytes before the first such byte and those after it; `None` if there is no such byte.
#[inline(always)]
pub fn split_once(bytes: &[u8], byte: u8) -> Option<(&[u8], &[u8])>
    ensures { MatchOption result (Lacks byte bytes.now)
        (λ parts. IsSplit byte bytes.now parts.0.now parts.1.now) }
{
    let place = memchr(byte, bytes)?;
    let (before, rest) = bytes.split_at(place);
    let (_, after) = rest.split_at(1);
    Some((before, after))
}

/// The first word and, if a space ends it, the words after it.
pub(crate) fn first_word(line: &str) -> (&str, Option<&str>)
    ensures { words line.now ≡ result.0.now ∷ words_in result.1 }
{
    match line.split_once(' ') {
        Some((word, rest)) => (word, Some(rest)),
        None => (line, None),
    }
}

/// How many words a line has.
pub(crate) fn count_words(line: &[u8]) -> usize
    ensures { result ≡ length (words line.now) }
{
    line.iter().filter(|b| **b == b' ').count() + 1
}
