//! A script line by line.

ghost use Rattle.std.specs.Prelude.{◌+◌, ◌≡◌, ◌↔◌, IfErr, IfOk, IsTrue, MatchOption, length};
ghost use Rattle.llrp_listing.specs.declared.outcome.ToolErr.TheVariants as errors;
ghost use Rattle.llrp_endpoints.specs.Calls.Script.{IsLawfulScript};
ghost use Rattle.llrp_endpoints.specs.Private.Script.{Follows, MayGoOn, NoneFollows, RefusesAfter, TakesLines, TakesPiece};

use super::{Entry, LONGEST_ENTRY, MOST_ENTRIES, entry_of, may_follow};
use llrp_listing::{ToolErr, split_once};
use std::alloc::Global;

/// The refusal of the line after those of these entries.
pub(super) fn refusal_after(entries: &[Entry]) -> ToolErr
    requires { IsLawfulScript entries.now }
    ensures { result ≡ errors.Script (length entries.now + 1) }
{
    ToolErr::Script {
        line: entries.len() as u64 + 1,
    }
}

/// The entry of a line without its LF, if it may follow these.
fn next_entry(entries: &[Entry], line: &[u8]) -> Option<Entry>
    requires { IsLawfulScript entries.now }
    ensures { MatchOption result (NoneFollows entries.now line.now) (Follows entries.now line.now) }
{
    let entry = entry_of(line)?;
    if may_follow(entries, entry.after, entry.now) {
        Some(entry)
    } else {
        None
    }
}

/// Takes the entries of the ended lines of a text, and returns what follows them. The errors are
/// `Script` with the line that is refused, and `Memory`.
pub(super) fn take_lines<'a>(entries: &mut Vec<Entry>, text: &'a [u8]) -> Result<&'a [u8], ToolErr>
    requires { IsLawfulScript entries.old.items }
    ensures taken { IfOk result (λ rest. TakesLines entries.old.items entries.new.items text.now rest.now) }
    ensures refused { IfErr result (RefusesAfter entries.old.items text.now) }
{
    let mut rest = text;
    'lines: while let Some((line, after)) = split_once(rest, b'\n') {
        let Some(entry) = next_entry(entries.as_slice(), line) else {
            return Err(refusal_after(entries.as_slice()));
        };
        entries.push(entry)?;
        rest = after;
    }
    Ok(rest)
}

/// Whether a line that begins so, after those of these entries, may be an entry's.
fn may_go_on(entries: &[Entry], line: &[u8]) -> bool
    ensures { IsTrue result ↔ MayGoOn entries.now line.now }
{
    line.is_empty() || (line.len() <= LONGEST_ENTRY && entries.len() < MOST_ENTRIES)
}

/// Takes the entries of the ended lines of a text, and returns the line that it ends in. The errors are
/// those of [`take_lines`], where that line, too, may be one that is refused.
pub(super) fn take_piece(
    alloc: Global,
    entries: &mut Vec<Entry>,
    text: &[u8],
) -> Result<Vec<u8>, ToolErr>
    requires { IsLawfulScript entries.old.items }
    ensures taken { IfOk result (λ line. TakesPiece entries.old.items entries.new.items text.now line.items) }
    ensures refused { IfErr result (RefusesAfter entries.old.items text.now) }
{
    let line = take_lines(entries, text)?;
    if !may_go_on(entries.as_slice(), line) {
        return Err(refusal_after(entries.as_slice()));
    }
    Ok(line.to_vec(alloc)?)
}
