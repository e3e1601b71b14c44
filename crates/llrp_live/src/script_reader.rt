//! A script that comes in pieces.

ghost use Rattle.std.specs.Prelude.{◌≡◌, ◌+◌, ◌++◌, ◌∷◌, [], IfOk, IfSome, OnOk, List, ℕ};
ghost use Rattle.llrp_answers.specs.Calls.Answers.{lines_in};
ghost use Rattle.llrp_live.specs.Calls.Lines.{AreLines, IsBelowBy, IsLine, sends as the_sends};
ghost use Rattle.llrp_live.specs.Calls.Reading.{HasRead};
ghost use Rattle.llrp_live.specs.Private.Reading.{TookBlock, TookLines, taken};

mod blocks;

use crate::lines::{Deed, Line};
use crate::moments::When;
use crate::script_lines::line_of;
use blocks::{count_lines, next_block};
use llrp_endpoints::MOST_ENTRIES;
use llrp_listing::{ToolErr, split_once};
use llrp_schema::KindSet;
use llrp_texts::{TextErr, messages_of};
use llrp_tree::{MAX_LIMIT, Message};
use std::alloc::Global;
use std::mem;

/// How many octets of a line without its LF are awaited; a line has no more.
pub const LONGEST_LINE: usize = 192;

/// How many octets of a listing below a line are awaited.
pub const LONGEST_LISTING: usize = 65_536;

/// The messages that a line sends, and its number.
#[derive(Drop)]
pub struct Sent {
    /// The number of the line.
    pub line: u64,
    /// The messages.
    pub messages: Vec<Message>,
}

/// The lines of a script, and what those of them send that send messages.
#[derive(Drop)]
pub struct Timetable {
    /// The lines in order.
    pub lines: Vec<Line>,
    /// What is sent, in the order of its lines.
    pub sent: Vec<Sent>,
}

/// How far a script was read.
#[derive(Clone, Copy)]
struct Reached {
    /// How many LFs of its text.
    count: u64,
    /// AFTER and NOW of the last line that has them.
    last: (u64, u64),
}

/// The lines of a script so far, and what has come of the next.
#[derive(Drop)]
pub struct ScriptReader {
    alloc: Global,
    lines: Vec<Line>,
    sent: Vec<Sent>,
    reached: Reached,
    held: Vec<u8>,
}

/// Whether AFTER and NOW of a line that happens then do not fall below these.
fn follows(last: (u64, u64), when: When) -> bool {
    match when {
        When::Frames { after, now } => last.0 <= after && last.1 <= now,
        When::Accepted { .. } | When::Started { .. } => true,
    }
}

/// What AFTER and NOW may not fall below after a line that happens then.
fn last_after(last: (u64, u64), when: When) -> (u64, u64) {
    match when {
        When::Frames { after, now } => (after, now),
        When::Accepted { .. } | When::Started { .. } => last,
    }
}

/// The refusal of the line after `count` others.
fn refusal_after(count: u64) -> ToolErr {
    ToolErr::Script {
        line: count.saturating_add(1),
    }
}

/// The line that these octets without LF are, if it may follow `before` lines, which reached this.
fn next_line(alloc: Global, before: usize, reached: Reached, text: &[u8]) -> Result<Line, ToolErr>
    ensures line { IfOk result (λ line. IsLine line text.now) }
    ensures number { IfOk result (λ line. line.number ≡ reached.count + 1) }
{
    let Some(number) = reached.count.checked_add(1) else {
        return Err(ToolErr::Bound);
    };
    let Some(line) = line_of(alloc, number, text)? else {
        return Err(refusal_after(reached.count));
    };
    if before < MOST_ENTRIES && follows(reached.last, line.when) {
        Ok(line)
    } else {
        Err(refusal_after(reached.count))
    }
}

/// Whether messages are sent by this.
fn sends(deed: Deed) -> bool
    ensures { result ≡ the_sends deed }
{
    match deed {
        Deed::Send => true,
        _ => false,
    }
}

/// What the line with this number sends, below which this stands, if it sends messages. The errors are
/// `Script` with the line that is refused, and `Memory`.
fn sent_by(alloc: Global, sends: bool, number: u64, below: &[u8]) -> Result<Vec<Sent>, ToolErr>
    ensures { IfOk result (λ own. IsBelowBy sends number own.items below.now) }
{
    if !sends {
        return if below.is_empty() {
            Ok(Vec::new(alloc))
        } else {
            Err(refusal_after(number))
        };
    }
    let messages = match messages_of(alloc, KindSet::Standard, below, MAX_LIMIT) {
        Ok(messages) => messages,
        Err(TextErr::Line { line: at, .. }) => {
            return Err(ToolErr::Script {
                line: number.saturating_add(at),
            });
        }
        Err(TextErr::Memory) => return Err(ToolErr::Memory),
    };
    if messages.is_empty() {
        return Err(refusal_after(number));
    }
    let sent = Sent {
        line: number,
        messages,
    };
    Ok(Vec::from_array(alloc, [sent])?)
}

/// How many LFs there are after `count`, those of a line, and those of what stands below it.
fn count_after(count: u64, first: &[u8], below: &[u8]) -> Option<u64>
    ensures { IfSome result (λ after. after ≡ count + lines_in (first.now ++ 10 ∷ below.now)) }
{
    let lines = count_lines(first) + 1 + count_lines(below);
    count.checked_add(lines as u64)
}

/// Takes a line without its LF, below which this stands, after what was read.
fn take_block(
    alloc: Global,
    lines: &mut Vec<Line>,
    sent: &mut Vec<Sent>,
    reached: &mut Reached,
    first: &[u8],
    below: &[u8],
) -> Result<(), ToolErr>
    ensures { OnOk result (TookBlock first.now below.now
        (taken lines.old.items sent.old.items reached.old)
        (taken lines.new.items sent.new.items reached.new)) }
{
    let line = next_line(alloc, lines.len(), *reached, first)?;
    let mut own = sent_by(alloc, sends(line.deed), line.number, below)?;
    let Some(count) = count_after(reached.count, first, below) else {
        return Err(ToolErr::Bound);
    };
    *reached = Reached {
        count,
        last: last_after(reached.last, line.when),
    };
    lines.push(line)?;
    sent.append(&mut own)?;
    Ok(())
}

/// Takes the lines of a text that are whole with what stands below them after what was read, and returns
/// what follows them.
fn take_lines<'a>(
    alloc: Global,
    lines: &mut Vec<Line>,
    sent: &mut Vec<Sent>,
    reached: &mut Reached,
    text: &'a [u8],
) -> Result<&'a [u8], ToolErr>
    ensures { IfOk result (λ rest. TookLines text.now rest.now
        (taken lines.old.items sent.old.items reached.old)
        (taken lines.new.items sent.new.items reached.new)) }
{
    let mut rest = text;
    'each: while let Some((first, below, after)) = next_block(rest) {
        take_block(alloc, lines, sent, reached, first, below)?;
        rest = after;
    }
    Ok(rest)
}

/// Whether more is awaited after `before` lines, of a line and of what stands below it, of which this has
/// come.
fn may_go_on(before: usize, held: &[u8]) -> bool {
    let most = match split_once(held, b'\n') {
        Some(_) => LONGEST_LISTING,
        None => LONGEST_LINE,
    };
    held.is_empty() || (held.len() <= most && before < MOST_ENTRIES)
}

impl ScriptReader {
    /// A reader to which nothing came. It takes no memory.
    pub fn new(alloc: Global) -> ScriptReader
        ensures { HasRead [] result }
    {
        ScriptReader {
            alloc,
            lines: Vec::new(alloc),
            sent: Vec::new(alloc),
            reached: Reached {
                count: 0,
                last: (0, 0),
            },
            held: Vec::new(alloc),
        }
    }

    /// Takes the next octets of a script. The errors are `Script` with the first line that is refused,
    /// counted from 1, which may be one that has not ended, `Memory`, and `Bound` where a `u64` does not
    /// count the lines; the reader is of no use then.
    pub fn take(&mut self, piece: &[u8]) -> Result<(), ToolErr>
        ensures { OnOk result ((bytes : List ℕ) → HasRead bytes self.old
            → HasRead (bytes ++ piece.now) self.new) }
    {
        let mut text = mem::replace(&mut self.held, Vec::new(self.alloc));
        text.extend_from_slice(piece)?;
        let rest = take_lines(
            self.alloc,
            &mut self.lines,
            &mut self.sent,
            &mut self.reached,
            text.as_slice(),
        )?;
        if !may_go_on(self.lines.len(), rest) {
            return Err(refusal_after(self.reached.count));
        }
        self.held = rest.to_vec(self.alloc)?;
        Ok(())
    }

    /// The lines of the script and what they send, if it ends here. The errors are `Script` with the line
    /// that has no LF or is refused, `Memory`, and `Bound` as of `take`.
    pub fn finish(self) -> Result<Timetable, ToolErr>
        ensures { IfOk result (λ t. (bytes : List ℕ) → HasRead bytes self
            → AreLines 0 t.lines.items t.sent.items bytes) }
    {
        let mut lines = self.lines;
        let mut sent = self.sent;
        let mut reached = self.reached;
        let held = self.held.as_slice();
        match split_once(held, b'\n') {
            Some((first, below)) => {
                take_block(
                    self.alloc,
                    &mut lines,
                    &mut sent,
                    &mut reached,
                    first,
                    below,
                )?
            }
            None if held.is_empty() => {}
            None => return Err(refusal_after(reached.count)),
        }
        Ok(Timetable { lines, sent })
    }
}
