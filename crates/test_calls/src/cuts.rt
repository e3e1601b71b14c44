//! Streams and listings that come in pieces, cut at each of their places.

use anyhow::{Result, bail};
use llrp_listing::{ToolErr, Verdict, run_encode, run_show};
use llrp_stream::Output;
use std::alloc::Global;
use test_devices::Pieces;
use test_devices::rows::{only_octets, print_octets};

/// Makes a call of this module, and returns whether it has one of this name.
pub fn make(rt: &HostRuntime, call: &str, row: &[String]) -> Result<bool> {
    match call {
        "show-cut" => show_cut(rt, row)?,
        "list-cut" => list_cut(rt, row)?,
        _ => return Ok(false),
    }
    Ok(true)
}

/// The verdict on a stream that comes in such pieces, and its listing.
fn shown(
    alloc: Global,
    stream: &[u8],
    first: usize,
    later: usize,
) -> (Result<Verdict, ToolErr>, Vec<u8>) {
    let mut source = Pieces::new(stream, first, later);
    let mut sink = Output::new(Vec::new(alloc));
    let verdict = run_show(alloc, &mut source, &mut sink, 65_536);
    (verdict, sink.into_inner())
}

/// Calls `run_show` on a stream that is cut after each of its octets, with a rest that comes in one piece and
/// octet by octet.
fn show_cut(rt: &HostRuntime, row: &[String]) -> Result<()> {
    let alloc = rt.alloc();
    let stream = only_octets(alloc, row)?;
    let whole = shown(alloc, stream.as_slice(), stream.len(), 4096);
    for first in 1..=stream.len() {
        if shown(alloc, stream.as_slice(), first, 4096) != whole
            || shown(alloc, stream.as_slice(), first, 1) != whole
        {
            bail!("another answer to the stream cut after {first}");
        }
    }
    let (verdict, text) = whole;
    println!(rt; "answer {verdict:?}")?;
    print_octets(rt, "wrote", text.as_slice())
}

/// The answer to a listing that comes in such pieces, and the octets written.
fn encoded(
    alloc: Global,
    text: &[u8],
    first: usize,
    later: usize,
) -> (Result<(), ToolErr>, Vec<u8>) {
    let mut source = Pieces::new(text, first, later);
    let mut sink = Output::new(Vec::new(alloc));
    let done = run_encode(alloc, &mut source, &mut sink, 65_536);
    (done, sink.into_inner())
}

/// Calls `run_encode` on a listing that is cut after each of its octets, with a rest that comes in one piece
/// and in pieces of 1 and of 7 octets.
fn list_cut(rt: &HostRuntime, row: &[String]) -> Result<()> {
    let alloc = rt.alloc();
    let text = only_octets(alloc, row)?;
    let whole = encoded(alloc, text.as_slice(), text.len(), 4096);
    for first in 1..=text.len() {
        if encoded(alloc, text.as_slice(), first, 4096) != whole
            || encoded(alloc, text.as_slice(), first, 1) != whole
            || encoded(alloc, text.as_slice(), first, 7) != whole
        {
            bail!("another answer to the listing cut after {first}");
        }
    }
    let (done, octets) = whole;
    println!(rt; "answer {done:?}")?;
    print_octets(rt, "wrote", octets.as_slice())
}
