//! Messages that are spelled in parts, and written to sinks that take little or fail.

use llrp_stream::{Output, WriteErr, write_message};
use llrp_tree::{Message, Spelling};
use std::alloc::Global;
use test_devices::{Taking, decoded, octets};

/// Frames whose messages are spelled in parts: KEEPALIVE, a report of one SGTIN-96, ADD_ROSPEC, and a report
/// whose parameters have an order of their own.
static FRAMES: [&str; 4] = [
    "083E0000000A00000007",
    ONE_SGTIN_REPORT,
    "08140000003E00000002 00B10034000000010000 00B20012 00B3000500 00B600090000000000 00B7001800010000 00B800090000000000 00BA0007000101",
    "043D0000002500000002 00F0001B 86C4 9000000000 8D3074257BF7194E4000001A85 810001",
];

/// A report of one tag, in 27 octets.
const ONE_SGTIN_REPORT: &str = "043D0000001B00000001 00F00011 8D3074257BF7194E4000001A85";

/// The message of a frame.
fn message_of(alloc: Global, frame: &[u8]) -> Option<Message> {
    decoded(alloc, frame)?.ok()
}

/// Whether parts of this many octets are together the frame, and each but the last is full.
fn is_filled_by(alloc: Global, message: &Message, frame: &[u8], part: usize) -> Option<bool> {
    let mut spelling = Spelling::new(message);
    let mut found = Vec::new(alloc);
    for _ in 0..=frame.len() {
        let left = spelling.left() as usize;
        let mut room = Vec::new(alloc);
        room.resize(part, 0xee).ok()?;
        let count = spelling.fill(room.as_mut_slice());
        let (filled, rest) = room.as_slice().split_at_checked(count)?;
        if count != part.min(left) || rest.iter().any(|octet| *octet != 0xee) {
            return Some(false);
        }
        found.extend_from_slice(filled).ok()?;
    }
    Some(found.as_slice() == frame && spelling.left() == 0)
}

/// Whether the message of this frame is spelled by parts of 1, 3 and 4,096 octets.
fn is_filled(alloc: Global, text: &str) -> Option<bool> {
    let frame = octets(alloc, &[text]).ok()?;
    let message = message_of(alloc, frame.as_slice())?;
    for part in [1, 3, 4096] {
        if !is_filled_by(alloc, &message, frame.as_slice(), part)? {
            return Some(false);
        }
    }
    Some(true)
}

#[test]
fn messages_in_parts(rt: HostRuntime) {
    for frame in &FRAMES {
        assert_eq!(rt; is_filled(rt.alloc(), frame), Some(true));
    }
}

/// What writing a report of 27 octets within this limit returns, and how many octets were written.
fn written(alloc: Global, limit: u32) -> Option<(Result<(), WriteErr>, usize)> {
    let frame = octets(alloc, &[ONE_SGTIN_REPORT]).ok()?;
    let message = message_of(alloc, frame.as_slice())?;
    let mut sink = Output::new(Vec::new(alloc));
    let answer = write_message(&message, limit, &mut sink);
    Some((answer, sink.into_inner().len()))
}

#[test]
fn a_message_over_the_limit_is_not_written(rt: HostRuntime) {
    assert!(rt; written(rt.alloc(), 26) == Some((Err(WriteErr::OverLimit), 0)));
    assert!(rt; written(rt.alloc(), 27) == Some((Ok(()), 27)));
}

/// Whether a sink that takes an octet a call, and fails in the call after `left`, has the frame's first
/// octets.
fn stops_after(alloc: Global, message: &Message, frame: &[u8], left: usize) -> bool {
    let mut sink = Taking::after(alloc, left);
    let answer = write_message(message, 65_536, &mut sink);
    let wanted = if left < frame.len() {
        Err(WriteErr::Write)
    } else {
        Ok(())
    };
    answer == wanted
        && frame.starts_with(sink.taken())
        && sink.taken().len() == left.min(frame.len())
}

/// Whether each call that fails leaves the first octets of this frame.
fn stops_anywhere(alloc: Global, text: &str) -> Option<bool> {
    let frame = octets(alloc, &[text]).ok()?;
    let message = message_of(alloc, frame.as_slice())?;
    for left in 0..=frame.len() {
        if !stops_after(alloc, &message, frame.as_slice(), left) {
            return Some(false);
        }
    }
    Some(true)
}

#[test]
fn a_write_that_fails_leaves_the_first_octets(rt: HostRuntime) {
    for frame in &FRAMES {
        assert_eq!(rt; stops_anywhere(rt.alloc(), frame), Some(true));
    }
}
