//! The last word of a line.

ghost use Rattle.std.specs.Prelude.{MatchOption};
ghost use Rattle.llrp_labels.specs.LabelledLines.{HasLastWord};
ghost use Rattle.llrp_listing.specs.Calls.Splits.{Lacks};

use memchr::memrchr;

/// What stands before the last blank of a line, and what follows it; `None` if there is no blank.
pub(crate) fn last_word(line: &[u8]) -> Option<(&[u8], &[u8])>
    ensures { MatchOption result (Lacks 32 line.now)
        (λ parts. HasLastWord line.now parts.0.now parts.1.now) }
{
    let Some(place) = memrchr(b' ', line) else {
        return None;
    };
    let (front, rest) = line.split_at(place);
    let (_, word) = rest.split_at(1);
    Some((front, word))
}
