//! Both ends of a connection whose octets come in pieces.

use crate::texts::{plan_of, script_of};
use anyhow::{Context, Result, bail};
use llrp_endpoints::{Gathering, Plan, Script, Serving};
use llrp_listing::ToolErr;
use llrp_session::Reader;
use llrp_tree::MAX_LIMIT;
use std::alloc::Global;
use test_devices::rows::{allow_growths, octets_of, print_octets, refuse_growths};

/// Makes a call of this module, and returns whether it has one of this name.
pub fn make(rt: &HostRuntime, call: &str, row: &[String]) -> Result<bool> {
    match call {
        "serving" => serving(rt, row)?,
        "serving-cut" => serving_cut(rt, row)?,
        "gathering" => gathering(rt, row)?,
        "gathering-cut" => gathering_cut(rt, row)?,
        _ => return Ok(false),
    }
    Ok(true)
}

/// The octets and the script of two words.
fn octets_and_script(alloc: Global, row: &[String]) -> Result<(Vec<u8>, Script)> {
    let [stream, script] = row else {
        bail!("the words are octets and a script");
    };
    let stream = octets_of(alloc, stream.as_str())?;
    Ok((stream, script_of(alloc, script.as_str())?))
}

/// Calls `Serving::start`, and `Serving::feed` on each half of the client's octets; and on the second half again where it ended the
/// connection or failed.
fn serving(rt: &HostRuntime, row: &[String]) -> Result<()> {
    let alloc = rt.alloc();
    let (stream, script) = octets_and_script(alloc, row)?;
    let (front, back) = stream.as_slice().split_at(stream.len() / 2);
    let mut out = Vec::new(alloc);
    refuse_growths(rt)?;
    let mut serving = Serving::new(alloc, Reader::new(alloc, MAX_LIMIT, 1), script);
    let started = serving.start(&mut out);
    let first = serving.feed(front, &mut out);
    let second = serving.feed(back, &mut out);
    allow_growths(rt)?;
    println!(rt; "answer {started:?} {first:?} {second:?}")?;
    if second != Ok(false) {
        let said = out.len();
        let later = serving.feed(back, &mut out);
        let more = out.len() != said;
        println!(rt; "after {later:?} {more}")?;
    }
    print_octets(rt, "wrote", out.as_slice())
}

/// What a reader that has started answers to two pieces, and then to the first again.
fn served(
    alloc: Global,
    front: &[u8],
    back: &[u8],
    out: &mut Vec<u8>,
) -> Result<[Result<bool, ToolErr>; 3]> {
    let script = script_of(alloc, "")?;
    let mut serving = Serving::new(alloc, Reader::new(alloc, MAX_LIMIT, 1), script);
    serving.start(out).ok().context("not started")?;
    Ok([
        serving.feed(front, out),
        serving.feed(back, out),
        serving.feed(front, out),
    ])
}

/// Calls `Serving::feed` on octets that are cut in two at each of their places, and then on the first piece again.
fn serving_cut(rt: &HostRuntime, row: &[String]) -> Result<()> {
    let alloc = rt.alloc();
    let [word] = row else {
        bail!("no octets");
    };
    let stream = octets_of(alloc, word.as_str())?;
    let mut wanted = Vec::new(alloc);
    let answers = served(alloc, b"", stream.as_slice(), &mut wanted)?;
    for cut in 0..stream.len() {
        let (front, back) = stream.as_slice().split_at(cut);
        let mut out = Vec::new(alloc);
        if served(alloc, front, back, &mut out)? != answers || out != wanted {
            bail!("another answer to the octets cut after {cut}");
        }
    }
    let [first, second, again] = answers;
    println!(rt; "answer {first:?} {second:?} {again:?}")?;
    print_octets(rt, "wrote", wanted.as_slice())
}

/// The plan and the octets of two words.
fn plan_and_octets(alloc: Global, row: &[String]) -> Result<(Plan, Vec<u8>)> {
    let [plan, stream] = row else {
        bail!("the words are a plan and octets");
    };
    let stream = octets_of(alloc, stream.as_str())?;
    Ok((plan_of(alloc, plan.as_str())?, stream))
}

/// Calls `Gathering::feed` on each half of the reader's octets; and on the second half again where it ended the connection or failed.
fn gathering(rt: &HostRuntime, row: &[String]) -> Result<()> {
    let alloc = rt.alloc();
    let (plan, stream) = plan_and_octets(alloc, row)?;
    let (front, back) = stream.as_slice().split_at(stream.len() / 2);
    let mut out = Vec::new(alloc);
    let mut lines = Vec::new(alloc);
    refuse_growths(rt)?;
    let mut gathering = Gathering::new(alloc, plan, MAX_LIMIT);
    let first = gathering.feed(front, &mut out, &mut lines);
    let second = gathering.feed(back, &mut out, &mut lines);
    allow_growths(rt)?;
    println!(rt; "answer {first:?} {second:?}")?;
    if second != Ok(false) {
        let (said, told) = (out.len(), lines.len());
        let later = gathering.feed(back, &mut out, &mut lines);
        let more = out.len() != said || lines.len() != told;
        println!(rt; "after {later:?} {more}")?;
    }
    print_octets(rt, "wrote", out.as_slice())?;
    print_octets(rt, "reported", lines.as_slice())
}

/// What a client wrote and reported.
#[derive(Drop, PartialEq)]
struct Gathered {
    wrote: Vec<u8>,
    reported: Vec<u8>,
}

/// What a client wrote and reported whose reader's octets come in pieces of this size; it fails where the last piece, and no piece
/// before it, does not close the connection, or does not leave it closed.
fn run_in_pieces(alloc: Global, plan: Plan, stream: &[u8], size: usize) -> Result<Gathered> {
    if size == 0 {
        bail!("no octet a piece");
    }
    let (mut wrote, mut reported) = (Vec::new(alloc), Vec::new(alloc));
    let mut gathering = Gathering::new(alloc, plan, 4096);
    let mut closed = false;
    for piece in stream.chunks(size) {
        if closed {
            bail!("closed by a piece before the last one of {size} octets");
        }
        closed = gathering.feed(piece, &mut wrote, &mut reported)?;
    }
    if !closed || !gathering.feed(stream, &mut wrote, &mut reported)? {
        bail!("not closed by pieces of {size} octets");
    }
    Ok(Gathered { wrote, reported })
}

/// The numbers of octets of the pieces in which a run comes.
const SIZES: [usize; 5] = [1, 2, 3, 7, 64];

/// Calls `Gathering::feed` on octets that come in pieces of several sizes.
fn gathering_cut(rt: &HostRuntime, row: &[String]) -> Result<()> {
    let alloc = rt.alloc();
    let (plan, stream) = plan_and_octets(alloc, row)?;
    let whole = run_in_pieces(alloc, plan, stream.as_slice(), 4096)?;
    for size in SIZES {
        let (plan, stream) = plan_and_octets(alloc, row)?;
        if run_in_pieces(alloc, plan, stream.as_slice(), size)? != whole {
            bail!("other octets in pieces of {size}");
        }
    }
    println!(rt; "answer closed")?;
    print_octets(rt, "wrote", whole.wrote.as_slice())?;
    print_octets(rt, "reported", whole.reported.as_slice())
}
