//! How the lines of a script in real time are read.

mod own_deeds;
mod tags;

ghost use Rattle.std.specs.Prelude.{◌≡◌, IfOk, IfSome, List, ℕ};
ghost use Rattle.llrp_endpoints.specs.Calls.Script.{IsActionLine, IsEntryLine};
ghost use Rattle.llrp_live.specs.Calls.Lines.{IsDeed, IsLine, IsRepeated, IsTime, IsWhen};

use crate::lines::{Again, Deed, Line};
use crate::moments::When;
use llrp_endpoints::{Action, Entry, Script};
use llrp_listing::{ToolErr, number_of, split_once};
use own_deeds::own_deed_of;
use std::alloc::{AllocError, Global};

/// The greatest number of a time, in its unit.
const MOST_TIME: u64 = 1_000_000_000;

/// How many microseconds a millisecond has.
const MILLISECOND: u64 = 1_000;

/// How many microseconds a second has.
const SECOND: u64 = 1_000_000;

/// The entry of a line without its LF, as [`Script::parse`] reads it.
fn entry_of(alloc: Global, line: &[u8]) -> Result<Option<Entry>, AllocError>
    ensures { IfOk result (λ entry. IfSome entry (λ e. IsEntryLine e line.now)) }
{
    let mut text = line.to_vec(alloc)?;
    text.push(b'\n')?;
    match Script::parse(alloc, text.as_slice()) {
        Ok(script) => match script.entries() {
            [entry] => Ok(Some(*entry)),
            _ => Ok(None),
        },
        Err(ToolErr::Memory) => Err(AllocError),
        Err(_) => Ok(None),
    }
}

/// The action of an entry, if both its numbers are 0.
fn action_in(entry: Entry) -> Option<Action>
    ensures { IfSome result (λ action. (entry.after ≡ 0) × (entry.now ≡ 0)
        × (action ≡ entry.action)) }
{
    if entry.after > 0 {
        return None;
    }
    if entry.now > 0 {
        return None;
    }
    Some(entry.action)
}

/// The action that this text says, as a [`Script`] has it after its two numbers.
fn action_of(alloc: Global, text: &[u8]) -> Result<Option<Action>, AllocError>
    ensures { IfOk result (λ action. IfSome action (λ a. IsActionLine a text.now)) }
{
    let mut line = Vec::new(alloc);
    line.extend_from_slice(b"0 0 ")?;
    line.extend_from_slice(text)?;
    match entry_of(alloc, line.as_slice())? {
        Some(entry) => Ok(action_in(entry)),
        None => Ok(None),
    }
}

/// The microseconds of a time, such as `500ms` or `2s`.
pub(crate) fn time_of(text: &[u8]) -> Option<u64>
    ensures { IfSome result (λ wait. IsTime wait text.now) }
{
    if let Some(digits) = text.strip_suffix(b"ms".as_slice()) {
        return Some(MILLISECOND * number_of(digits, MOST_TIME)?);
    }
    let digits = text.strip_suffix(b"s".as_slice())?;
    Some(SECOND * number_of(digits, MOST_TIME)?)
}

/// The moment of a line, such as `accepted+500ms`.
fn when_of(text: &[u8]) -> Option<When>
    ensures { IfSome result (λ when. IsWhen when text.now) }
{
    let (word, time) = split_once(text, b'+')?;
    let wait = time_of(time)?;
    if word == b"accepted".as_slice() {
        return Some(When::Accepted { wait });
    }
    if word == b"started".as_slice() {
        return Some(When::Started { wait });
    }
    None
}

/// What happens by the line of an action.
fn deed_by(action: Action) -> Deed
    ensures { (text : List ℕ) → IsActionLine action text → IsDeed result text }
{
    match action {
        Action::Seen(sighting) => Deed::Seen(sighting),
        Action::Tick => Deed::Tick,
    }
}

/// What happens by a line, read from its end.
fn deed_of(alloc: Global, text: &[u8]) -> Result<Option<Deed>, AllocError>
    ensures { IfOk result (λ deed. IfSome deed (λ d. IsDeed d text.now)) }
{
    if let Some(deed) = own_deed_of(text) {
        return Ok(Some(deed));
    }
    match action_of(alloc, text)? {
        Some(action) => Ok(Some(deed_by(action))),
        None => Ok(None),
    }
}

/// How a line happens again, and what follows that, read from what follows its moment.
fn again_of(text: &[u8]) -> Option<(Option<Again>, &[u8])>
    ensures { IfSome result (λ parts. IsRepeated parts.0 parts.1.now text.now) }
{
    let Some(times) = text.strip_prefix(b"every ".as_slice()) else {
        return Some((None, text));
    };
    let (period, rest) = split_once(times, b' ')?;
    let (left, deed) = split_once(rest.strip_prefix(b"for ".as_slice())?, b' ')?;
    let period = time_of(period)?;
    let left = time_of(left)?;
    if period == 0 {
        return None;
    }
    let again = Again {
        period,
        left,
        done: 0,
    };
    Some((Some(again), deed))
}

/// The line with a moment that these octets without LF are, with its number.
fn timed_line(alloc: Global, number: u64, text: &[u8]) -> Result<Option<Line>, AllocError>
    ensures line { IfOk result (λ line. IfSome line (λ l. IsLine l text.now)) }
    ensures number { IfOk result (λ line. IfSome line (λ l. l.number ≡ number)) }
{
    let Some((first, rest)) = split_once(text, b' ') else {
        return Ok(None);
    };
    let Some(when) = when_of(first) else {
        return Ok(None);
    };
    let Some((again, rest)) = again_of(rest) else {
        return Ok(None);
    };
    match deed_of(alloc, rest)? {
        Some(deed) => Ok(Some(Line {
            number,
            when,
            again,
            deed,
        })),
        None => Ok(None),
    }
}

/// The line of a script that these octets without LF are, with its number: `AFTER NOW ACTION` as in a
/// [`Script`], or a moment, perhaps `every TIME for TIME`, and what happens: `ACTION`,
/// `seen ANTENNAS RSSIS FILE` of the tags of a file, `close`,
/// `silent TIME`, `antenna N on`, `antenna N off`, `gpi N high`, `gpi N low`,
/// `expect KIND within TIME`, `octets HEX`, `send`, `cut N` or `status N KIND TEXT`. The moment is
/// `accepted+TIME` or `started+TIME`; TIME is such as `500ms` or `2s`. Returns `None` if they are none.
/// The only error is that memory ran out.
pub fn line_of(alloc: Global, number: u64, text: &[u8]) -> Result<Option<Line>, AllocError>
    ensures line { IfOk result (λ line. IfSome line (λ l. IsLine l text.now)) }
    ensures number { IfOk result (λ line. IfSome line (λ l. l.number ≡ number)) }
{
    if let Some(line) = timed_line(alloc, number, text)? {
        return Ok(Some(line));
    }
    match entry_of(alloc, text)? {
        Some(Entry { after, now, action }) => Ok(Some(Line {
            number,
            when: When::Frames { after, now },
            again: None,
            deed: deed_by(action),
        })),
        None => Ok(None),
    }
}
