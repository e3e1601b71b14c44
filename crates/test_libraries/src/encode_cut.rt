//! Listings over sinks that fail, and what is written before the next read.

ghost use Rattle.llrp_stream.specs.Device.{IsFreshSource};

use llrp_stream::Source;
use llrp_tool::{Input, Output, ToolErr, run_encode};
use std::alloc::Global;
use std::test::*;
use test_devices::{Dripping, Lines, Taking, octets};

/// Four messages in five lines.
const FIVE_LINES: &[u8] = b"0 KEEPALIVE 2 7
0 ERROR_MESSAGE 2 9
1 LLRPStatus 100 x41c3a9
0 KEEPALIVE_ACK 2 256
0 GET_REPORT 2 1
";

/// The octets of these messages.
const FOUR_MESSAGES: &str =
    "083E0000000A00000007 08640000001500000009 011F000B0064000341C3A9 08480000000A00000100 083C0000000A00000001";

/// How many octets the closed messages have once this many lines were read. A message is closed when the line
/// of the next one was read: KEEPALIVE of 10 octets by the second line, ERROR_MESSAGE of 21 by the fourth,
/// and KEEPALIVE_ACK of 10 by the fifth.
fn closed_after(lines: usize) -> usize {
    match lines {
        0 | 1 => 0,
        2 | 3 => 10,
        4 => 31,
        _ => 41,
    }
}

/// Whether encoding from a source stops where reading fails, after the first `count` octets of the messages
/// were written.
fn stops<R: Source>(alloc: Global, source: &mut R, count: usize) -> Result<bool, ToolErr>
    requires { IsFreshSource (R.log source.old) }
{
    let messages = octets(alloc, &[FOUR_MESSAGES])?;
    let mut sink = Output::new(Vec::new(alloc));
    let answer = run_encode(alloc, source, &mut sink, 65_536);
    let written = sink.into_inner();
    Ok(
        answer == Err(ToolErr::Read)
            && written.len() == count
            && messages.as_slice().starts_with(written.as_slice()),
    )
}

#[test]
fn closed_messages_are_written_before_the_next_line_is_read(rt: HostRuntime) {
    for lines in 0..=5usize {
        let mut source = Lines::after(FIVE_LINES, lines);
        let stops = stops(rt.alloc(), &mut source, closed_after(lines));
        assert!(rt; stops == Ok(true), "after {lines}");
    }
}

/// How many lines end within the first `count` octets.
fn lines_within(listing: &[u8], count: usize) -> usize {
    let mut lines = 0usize;
    for octet in listing.iter().take(count) {
        if *octet == b'\n' {
            lines = lines.saturating_add(1);
        }
    }
    lines
}

#[test]
fn closed_messages_are_written_before_the_next_octet_is_read(rt: HostRuntime) {
    for count in 0..=FIVE_LINES.len() {
        let mut source = Dripping::after(FIVE_LINES, count);
        let closed = closed_after(lines_within(FIVE_LINES, count));
        let stops = stops(rt.alloc(), &mut source, closed);
        assert!(rt; stops == Ok(true), "after {count}");
    }
}

#[test]
fn writer_that_fails(rt: HostRuntime) {
    for left in 0..10usize {
        let mut source = Input::new(b"0 KEEPALIVE 2 7\n".as_slice());
        let mut sink = Taking::after(rt.alloc(), left);
        let answer = run_encode(rt.alloc(), &mut source, &mut sink, 65536);
        assert_eq!(rt; answer, Err(ToolErr::Write));
        assert!(rt; b"\x08\x3e\0\0\0\x0a\0\0\0\x07".starts_with(sink.taken()));
        assert!(rt; sink.taken().len() == left);
    }
}
