//! Files of answers.

ghost use Rattle.std.specs.Prelude.{◌<◌, ◌∷◌, ◌≡◌, ◌≤◌, IfErr, IfOk, MatchOption, drop, length, take, true};
ghost use Rattle.llrp_answers.specs.Calls.Answers.{IsFile, RefusesFile, before_form, from_form, lines_in};
ghost use Rattle.llrp_answers.specs.Private.Words.{HasNoForm, IsNextPair, ReadsForm, later_by};

use crate::answers::Pair;
use crate::form::form_refusal;
use llrp_listing::{Refusal, split_once};
use llrp_schema::KindSet;
use llrp_texts::{TextErr, messages_of};
use llrp_tree::MAX_LIMIT;
use std::alloc::Global;

/// How many octets stand before the first line that begins with `?`.
fn listed_octets(text: &[u8]) -> usize
    ensures within { result ≤ length text.now }
    ensures before { take result text.now ≡ before_form true text.now }
    ensures after { drop result text.now ≡ from_form true text.now }
{
    let mut starts = true;
    for (i, octet) in text.iter().enumerate() {
        if starts && *octet == b'?' {
            return i;
        }
        starts = *octet == b'\n';
    }
    text.len()
}

/// How many LFs there are.
fn count_lines(text: &[u8]) -> usize
    ensures count { result ≡ lines_in text.now }
    ensures within { result ≤ length text.now }
{
    text.iter().filter(|octet| **octet == b'\n').count()
}

/// An error at a line that comes after this many.
fn later_error(error: TextErr, lines: usize) -> TextErr
    ensures { result ≡ later_by lines error }
{
    match error {
        TextErr::Line { line, reason } => TextErr::Line {
            line: line.saturating_add(lines as u64),
            reason,
        },
        TextErr::Memory => TextErr::Memory,
    }
}

/// What is after `? ` in a line that begins so.
fn after_mark(line: &[u8]) -> Option<&[u8]>
    ensures { MatchOption result (HasNoForm line.now) (λ form. line.now ≡ 63 ∷ (32 ∷ form.now)) }
{
    match line {
        [b'?', b' ', form @ ..] => Some(form),
        _ => None,
    }
}

/// The form of the first line of a text, and what is after that line, or why there is none.
fn first_form(text: &[u8]) -> Result<(&[u8], &[u8]), Refusal>
    requires { 0 < length text.now }
    ensures { ReadsForm text.now result }
{
    let Some((line, after)) = split_once(text, b'\n') else {
        return Err(Refusal::Line);
    };
    let Some(form) = after_mark(line) else {
        return Err(Refusal::Line);
    };
    match form_refusal(form) {
        None => Ok((form, after)),
        Some(reason) => Err(reason),
    }
}

/// The first pair of a text, how many lines it has, and what is after it. The error is the first line
/// that is refused, with the reason, or `Memory`.
fn next_pair(alloc: Global, text: &[u8]) -> Result<(Pair, usize, &[u8]), TextErr>
    requires { 0 < length text.now }
    ensures pair { IfOk result (λ next. IsNextPair text.now next.0 next.1 next.2.now) }
    ensures refused { IfErr result (RefusesFile text.now) }
{
    let (form, after) = match first_form(text) {
        Ok(parts) => parts,
        Err(reason) => return Err(TextErr::Line { line: 1, reason }),
    };
    let (listing, rest) = after.split_at(listed_octets(after));
    let messages = match messages_of(alloc, KindSet::Standard, listing, MAX_LIMIT) {
        Ok(messages) => messages,
        Err(error) => return Err(later_error(error, 1)),
    };
    let form = form.to_vec(alloc)?;
    Ok((Pair { form, messages }, 1 + count_lines(listing), rest))
}

/// The pairs of a file. The error is the first line that is refused, with the reason, or `Memory`.
pub(crate) fn pairs_of(alloc: Global, text: &[u8]) -> Result<Vec<Pair>, TextErr>
    ensures file { IfOk result (λ pairs. IsFile text.now pairs.items) }
    ensures refused { IfErr result (RefusesFile text.now) }
{
    let mut pairs = Vec::new(alloc);
    let mut lines = 0;
    let mut rest = text;
    while !rest.is_empty() {
        let (pair, count, later) = match next_pair(alloc, rest) {
            Ok(next) => next,
            Err(error) => return Err(later_error(error, lines)),
        };
        pairs.push(pair)?;
        lines += count;
        rest = later;
    }
    Ok(pairs)
}
