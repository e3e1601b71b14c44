//! The frame of a line that `show --json` printed, in one pass: a guess is made of it, and the line of what that says is printed and
//! compared. Any other line is read in the general way.

ghost use Rattle.std.specs.Prelude.{◌≡◌, ◌≤◌, ◌++◌, ◌∷◌, ℕ, List, [], true, IfErr, OnErr, OnOk};
ghost use Rattle.llrp_tree.specs.Frame.{Frame};
ghost use Rattle.llrp_tree.specs.Tree.{MessageTree};
ghost use Rattle.llrp_tree.specs.declared.TheConstants.{MAX_LIMIT};
ghost use Rattle.llrp_json_read.specs.Calls.ReadErrors.{IsReadErr};
ghost use Rattle.llrp_json_read.specs.JsonLine.{RefusesLineWithin, SaysLine};
ghost use Rattle.llrp_json_read.specs.Private.Printed.{AppendsLine, IsLineOf};

use crate::guess::guess_frame;
use crate::line::encode_line;
use crate::refusal::ReadErr;
use json::Scratch;
use llrp_json::JsonPrinter;
use llrp_listing::ItemPrinter;
use llrp_schema::KindSet;
use llrp_stream::{Frames, Outcome};
use llrp_tree::MAX_LIMIT;
use std::alloc::Global;

/// Room for a guess and for the line of what it says, which is kept from line to line.
#[derive(Drop)]
pub(crate) struct PrintedRoom {
    frame: Vec<u8>,
    printer: JsonPrinter,
}

impl PrintedRoom {
    /// It takes no memory yet.
    pub(crate) fn new(alloc: Global) -> PrintedRoom {
        PrintedRoom {
            frame: Vec::new(alloc),
            printer: JsonPrinter::new(alloc),
        }
    }
}

/// Whether a text is this line and LF.
fn is_line(text: &[u8], line: &[u8]) -> bool
    ensures { result ≡ true → text.now ≡ line.now ++ 10 ∷ [] }
{
    match text.strip_suffix(b"\n".as_slice()) {
        Some(front) => front == line,
        None => false,
    }
}

/// Whether octets are the frame of a message of the set whose line is this one.
fn has_line(set: KindSet, frame: &[u8], line: &[u8], printer: &mut JsonPrinter, limit: u32) -> bool
    requires least { 10 ≤ limit }
    requires most { limit ≤ MAX_LIMIT }
    ensures { result ≡ true → (m : MessageTree) × IsLineOf set limit m frame.now line.now }
{
    let mut frames = Frames::new_in(set, limit);
    printer.clear();
    let Ok(came) = frames.feed(printer, frame) else {
        return false;
    };
    let Some(outcome) = came.outcome else {
        return false;
    };
    let Outcome::Whole = outcome else {
        return false;
    };
    if came.used != frame.len() {
        return false;
    }
    is_line(printer.whole(), line)
}

/// Appends the frame of a line if it is one that `show --json` prints. Returns whether it did.
fn encode_printed(
    set: KindSet,
    line: &[u8],
    room: &mut PrintedRoom,
    out: &mut Vec<u8>,
    limit: u32,
) -> bool
    ensures { AppendsLine set limit line.now out.old.items out.new.items result }
{
    if limit < 10 || limit > MAX_LIMIT {
        return false;
    }
    let Some(()) = guess_frame(set, line, &mut room.frame) else {
        return false;
    };
    let frame = room.frame.as_slice();
    if !has_line(set, frame, line, &mut room.printer, limit) {
        return false;
    }
    match out.extend_from_slice(frame) {
        Ok(()) => true,
        Err(_) => false,
    }
}

/// Appends the frame of the message that a line says, as `encode_line` does. A line that `show --json` prints takes the short way.
pub(crate) fn encode_any_line<'a>(
    alloc: Global,
    set: KindSet,
    line: &'a [u8],
    room: &mut PrintedRoom,
    scratch: &'a mut Scratch,
    out: &mut Vec<u8>,
    limit: u32,
) -> Result<(), ReadErr<'a>>
    ensures ok { OnOk result ((m : MessageTree) × (bytes : List ℕ) × SaysLine set line.now m
        × Frame m bytes limit × (out.new.items ≡ out.old.items ++ bytes)) }
    ensures err { OnErr result (out.new.items ≡ out.old.items) }
    ensures refused { IfErr result (IsReadErr (RefusesLineWithin set limit line.now)) }
{
    let printed = encode_printed(set, line, room, out, limit);
    if printed {
        return Ok(());
    }
    encode_line(alloc, set, line, scratch, out, limit)
}
