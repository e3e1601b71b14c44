//! Reads frames that were cut or damaged, at once and octet by octet, for `tests/damage.py`.
//!
//! Each line of standard input is a word and a stream of LLRP in hexadecimal digits:
//!
//! - `same`: the stream as it is. Its line says what the decoder found.
//! - `pieces`: the stream in two pieces, cut at each place; one of more than 100 octets at the first 40 and
//!   the last 40 places. Its line counts the places.
//! - `cuts`: each front of the stream, which is one frame. Each has to be a rest of its length.
//! - `changes`: the stream with each octet changed to each other value. The line counts how many of them
//!   still hold nothing but messages.
//!
//! With `all` before the word, it is a stream of all of LLRP 1.1.
//!
//! All are read at once and octet by octet, and have to give the same both times. What is found of a frame
//! has to be what `decode_frame_in` says of it, and a message has to spell the octets that it was read from.
//! A line that begins with `WRONG` says where that is not so.
#![tactic(auto)]

mod cases;
mod items;
mod reading;

use anyhow::{Context, Result, bail};
use cases::{changes, cuts, pieces, same};
use llrp_tree::KindSet;

/// Does what a line asks for of a stream of a set of kinds.
fn answer_in(rt: &HostRuntime, set: KindSet, line: &str) -> Result<()> {
    let (what, digits) = line.split_once(' ').context("a word and digits")?;
    let stream = hex::decode(rt.alloc(), digits)?;
    match what {
        "same" => same(rt, set, stream.as_slice()),
        "pieces" => pieces(rt, set, stream.as_slice()),
        "cuts" => cuts(rt, set, stream.as_slice()),
        "changes" => changes(rt, set, stream.as_slice()),
        _ => bail!("no such word"),
    }
}

/// Does what a line asks for.
fn answer(rt: &HostRuntime, line: &str) -> Result<()> {
    match line.split_once(' ') {
        Some(("all", rest)) => answer_in(rt, KindSet::Standard, rest),
        _ => answer_in(rt, KindSet::Profile, line),
    }
}

fn main(rt: HostRuntime) -> Result<()> {
    for line in rt.lines(rt.alloc()) {
        answer(&rt, line?.as_str())?;
    }
    Ok(())
}
