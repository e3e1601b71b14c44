//! The message of a line.

ghost use Rattle.std.specs.Prelude.{◌≡◌, ◌++◌, ℕ, List, IfErr, MatchResult, OnErr, OnOk};
ghost use Rattle.llrp_tree.specs.Frame.{Frame};
ghost use Rattle.llrp_tree.specs.Tree.{MessageTree};
ghost use Rattle.llrp_json_read.specs.Calls.ReadErrors.{IsReadErr};
ghost use Rattle.llrp_json_read.specs.JsonLine.{RefusesLine, RefusesLineWithin, SaysLine};

use crate::messages::read_message;
use crate::refusal::{ReadErr, Reason, whole};
use json::{Error, Scratch, Value};
use llrp_schema::KindSet;
use llrp_tree::{EncodeErr, Message, encode_into};
use std::alloc::Global;

/// The lawful message of a set of kinds that a line says, or the first reason for which it says
/// none. The line is octets of UTF-8; white space may stand around its text, so also a line feed.
/// The other error is that memory ran out.
pub fn read_line<'a>(
    alloc: Global,
    set: KindSet,
    line: &'a [u8],
    scratch: &'a mut Scratch,
) -> Result<Message, ReadErr<'a>>
    ensures { MatchResult result (SaysLine set line.now) (IsReadErr (RefusesLine set line.now)) }
{
    let value = match Value::from_slice(alloc, line, scratch) {
        Ok(value) => value,
        Err(Error::OutOfMemory) => return Err(ReadErr::Memory),
        Err(_) => return Err(ReadErr::Refused(whole(alloc, Reason::Json))),
    };
    read_message(alloc, set, &value)
}

/// Appends the frame of the message that a line says, whose octets are at most `limit`. After an
/// error nothing is appended.
pub fn encode_line<'a>(
    alloc: Global,
    set: KindSet,
    line: &'a [u8],
    scratch: &'a mut Scratch,
    out: &mut Vec<u8>,
    limit: u32,
) -> Result<(), ReadErr<'a>>
    ensures ok { OnOk result ((m : MessageTree) × (bytes : List ℕ) × SaysLine set line.now m
        × Frame m bytes limit × (out.new.items ≡ out.old.items ++ bytes)) }
    ensures err { OnErr result (out.new.items ≡ out.old.items) }
    ensures refused { IfErr result (IsReadErr (RefusesLineWithin set limit line.now)) }
{
    let message = match read_line(alloc, set, line, scratch) {
        Ok(message) => message,
        Err(error) => return Err(error),
    };
    match encode_into(alloc, &message, out, limit) {
        Ok(()) => Ok(()),
        Err(EncodeErr::Memory) => Err(ReadErr::Memory),
        Err(EncodeErr::OverLimit) => { Err(ReadErr::Refused(whole(alloc, Reason::OverLimit))) }
    }
}
