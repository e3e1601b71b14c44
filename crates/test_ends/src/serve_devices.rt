//! Serving over sources and sinks that fail in mid-stream.

use crate::served::{ADD, ADDED, CONNECTED, ENABLE, ENABLED};
use llrp_session::Reader;
use llrp_stream::Output;
use llrp_tool::{Input, Script, ToolErr, run_serve};
use std::alloc::Global;
use std::test::*;
use test_devices::{Dripping, Taking, octets};

/// Whether serving stops where reading fails after these bytes, and the first `said` of the wanted bytes are
/// written.
fn stops_at_the_end_of(
    alloc: Global,
    stream: &[u8],
    wanted: &[u8],
    said: usize,
) -> Result<bool, ToolErr> {
    let script = Script::parse(alloc, b"")?;
    let mut source = Dripping::after(stream, stream.len());
    let mut sink = Output::new(Vec::new(alloc));
    let end = run_serve(
        alloc,
        Reader::new(alloc, 65_536, 1),
        script,
        &mut source,
        &mut sink,
    );
    let written = sink.into_inner();
    Ok(end == Err(ToolErr::Read) && is_front(written.as_slice(), wanted, said))
}

/// Whether these are the first `length` of the wanted bytes.
fn is_front(written: &[u8], wanted: &[u8], length: usize) -> bool {
    wanted.starts_with(written) && written.len() == length
}

/// How many octets are said where reading fails after this many: CONNECTED has 32, ADDED and ENABLED have 18
/// each; ADD has 62, and ENABLE 14.
fn said_after(count: usize) -> usize {
    if count < 62 {
        32
    } else if count < 76 {
        50
    } else {
        68
    }
}

#[test]
fn a_read_that_fails_comes_after_the_answers_so_far(rt: HostRuntime) -> Result<(), Fail> {
    let alloc = rt.alloc();
    let stream = octets(alloc, &[ADD, ENABLE, "08"])?;
    let wanted = octets(alloc, &[CONNECTED, ADDED, ENABLED])?;
    for count in 0..stream.len() {
        let (front, _) = stream.as_slice().split_at(count);
        let stops = stops_at_the_end_of(alloc, front, wanted.as_slice(), said_after(count));
        assert!(rt; stops == Ok(true));
    }
    Ok(())
}

/// Whether serving these bytes ends with the write that fails after this many, and what was written is a
/// front of what is to be said.
fn stops_after(alloc: Global, stream: &[u8], wanted: &[u8], left: usize) -> Result<bool, ToolErr> {
    let script = Script::parse(alloc, b"")?;
    let mut source = Input::new(stream);
    let mut sink = Taking::after(alloc, left);
    let core = Reader::new(alloc, 65_536, 1);
    let end = run_serve(alloc, core, script, &mut source, &mut sink);
    Ok(end == Err(ToolErr::Write) && is_front(sink.taken(), wanted, left))
}

#[test]
fn a_write_that_fails_stops_serving(rt: HostRuntime) -> Result<(), Fail> {
    let alloc = rt.alloc();
    let stream = octets(alloc, &[ADD, ENABLE])?;
    let wanted = octets(alloc, &[CONNECTED, ADDED, ENABLED])?;
    for left in 0..68 {
        let stops = stops_after(alloc, stream.as_slice(), wanted.as_slice(), left);
        assert!(rt; stops == Ok(true));
    }
    Ok(())
}
