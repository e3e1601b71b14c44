//! The lines of a script, each with what stands below it.

ghost use Rattle.std.specs.Prelude.{◌≡◌, ◌≤◌, ◌++◌, ◌∷◌, IfSome, length};
ghost use Rattle.llrp_answers.specs.Calls.Answers.{lines_in};

use llrp_listing::{number_of, split_once};

/// How many LFs there are.
pub(super) fn count_lines(text: &[u8]) -> usize
    ensures count { result ≡ lines_in text.now }
    ensures within { result ≤ length text.now }
{
    text.iter().filter(|octet| **octet == b'\n').count()
}

/// Whether a line is one of a listing: its level, and no number after it.
fn is_listed(line: &[u8]) -> bool {
    match split_once(line, b' ') {
        Some((level, [second, ..])) => {
            number_of(level, u64::MAX).is_some() && !second.is_ascii_digit()
        }
        _ => false,
    }
}

/// How many octets stand before the first line that is none of a listing; `None` if it has not come.
fn listed_octets(text: &[u8]) -> Option<usize>
    ensures { IfSome result (λ count. count ≤ length text.now) }
{
    let mut count = 0;
    let mut rest = text;
    'lines: while let Some((line, after)) = split_once(rest, b'\n') {
        if !is_listed(line) {
            return Some(count);
        }
        count = text.len().saturating_sub(after.len());
        rest = after;
    }
    None
}

/// The first line of a text without its LF, what stands below it, and what follows that; `None` if they
/// are not whole. A listing stands below a line that ends in ` send`, and nothing below others.
pub(super) fn next_block(text: &[u8]) -> Option<(&[u8], &[u8], &[u8])>
    ensures { IfSome result (λ parts. text.now
        ≡ parts.0.now ++ 10 ∷ (parts.1.now ++ parts.2.now)) }
{
    let (first, after) = split_once(text, b'\n')?;
    let count = match first.strip_suffix(b" send".as_slice()) {
        Some(_) => listed_octets(after)?,
        None => 0,
    };
    let (below, rest) = after.split_at(count);
    Some((first, below, rest))
}
