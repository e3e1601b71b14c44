//! Listings over sources and sinks that fail in mid-stream.

use llrp_tool::{Input, Output, ToolErr, run_show};
use std::alloc::Global;
use std::test::*;
use test_devices::{Dripping, Taking};

/// KEEPALIVE three times, and the lines of two of them.
const KEEPALIVES: &[u8] =
    b"\x08\x3e\0\0\0\x0a\0\0\0\x07\x08\x3e\0\0\0\x0a\0\0\0\x07\x08\x3e\0\0\0\x0a\0\0\0\x07";

const TWO_LINES: &[u8] = b"0 KEEPALIVE 2 7\n0 KEEPALIVE 2 7\n";

#[test]
fn a_write_that_fails_stops_the_listing(rt: HostRuntime) {
    for left in 0..TWO_LINES.len() {
        let mut source = Input::new(KEEPALIVES);
        let mut sink = Taking::after(rt.alloc(), left);
        let found = run_show(rt.alloc(), &mut source, &mut sink, 65_536);
        assert!(rt; found == Err(ToolErr::Write));
        assert!(rt; TWO_LINES.starts_with(sink.taken()));
        assert!(rt; sink.taken().len() == left);
    }
}

#[test]
fn a_read_that_fails_comes_after_the_text_so_far(rt: HostRuntime) {
    let mut source = Dripping::after(KEEPALIVES, 25);
    let mut sink = Output::new(Vec::new(rt.alloc()));
    let found = run_show(rt.alloc(), &mut source, &mut sink, 65_536);
    assert!(rt; found == Err(ToolErr::Read));
    assert!(rt; sink.into_inner().as_slice() == TWO_LINES);
}
