//! The commands over streams and texts, over devices that fail.

use crate::tally::{Tally, is_front};
use llrp_tool::{LIMIT, Output, ToolErr, Verdict, run_encode, run_epc, run_show};
use std::alloc::Global;
use test_devices::{Dripping, Failure, Gulping, NEVER, Taking};

/// A report whose TagReportData is one octet too long, followed by KEEPALIVE (LLRP 1.1, section 17.1), and
/// its listing.
const FAULTY: &[u8] =
    b"\x04\x3d\0\0\0\x1b\0\0\0\x01\0\xf0\0\x12\x8d\x30\x74\x25\x7b\xf7\x19\x4e\x40\0\0\x1a\x85\x08\x3e\0\0\0\x0a\0\0\0\x07";

const FAULTY_LISTING: &[u8] = b"! 1 96 ParamLength\n0 KEEPALIVE 2 7\n";

const KEEPALIVE: &[u8] = b"\x08\x3e\0\0\0\x0a\0\0\0\x07";

const KEEPALIVE_LINE: &[u8] = b"0 KEEPALIVE 2 7\n";

/// The sink fails in each call, in either way: the listing stops there.
pub fn show_to_sinks(alloc: Global) -> Tally {
    let mut tally = Tally::new();
    for failure in [Failure::Error, Failure::NoOctet] {
        for call in 0..=FAULTY_LISTING.len() {
            let mut source = Dripping::new(FAULTY, NEVER);
            let mut sink = Taking::new(alloc, call as u64, failure);
            let end = run_show(alloc, &mut source, &mut sink, LIMIT);
            let wanted = if call == 0 {
                Ok(Verdict::Faulty)
            } else {
                Err(ToolErr::Write)
            };
            let length = if call == 0 {
                FAULTY_LISTING.len()
            } else {
                call.saturating_sub(1)
            };
            tally.count(end == wanted && is_front(sink.taken(), FAULTY_LISTING, length));
        }
    }
    tally
}

/// The source fails in each call: the lines of the whole frames before that are written, and no `?` line.
pub fn show_of_sources(alloc: Global) -> Tally {
    let mut tally = Tally::new();
    for call in 1..=FAULTY.len() + 1 {
        let mut source = Dripping::new(FAULTY, call as u64);
        let mut sink = Taking::new(alloc, NEVER, Failure::Error);
        let end = run_show(alloc, &mut source, &mut sink, LIMIT);
        let length = if call <= 27 {
            0
        } else if call <= 37 {
            19
        } else {
            FAULTY_LISTING.len()
        };
        tally.count(end == Err(ToolErr::Read) && is_front(sink.taken(), FAULTY_LISTING, length));
    }
    tally
}

/// Octets this many times in a row.
fn repeated(alloc: Global, octets: &[u8], times: u32) -> Result<Vec<u8>, ToolErr> {
    let mut all = Vec::new(alloc);
    for _ in 0..times {
        all.extend_from_slice(octets)?;
    }
    Ok(all)
}

/// How the listing of this many KEEPALIVEs ends, read an octet a call, and whether it has the line of each.
fn long_show(alloc: Global, frames: u32) -> Result<(Result<Verdict, ToolErr>, bool), ToolErr> {
    let stream = repeated(alloc, KEEPALIVE, frames)?;
    let lines = repeated(alloc, KEEPALIVE_LINE, frames)?;
    let mut source = Dripping::new(stream.as_slice(), NEVER);
    let mut sink = Output::new(Vec::new(alloc));
    let end = run_show(alloc, &mut source, &mut sink, LIMIT);
    Ok((end, sink.into_inner().as_slice() == lines.as_slice()))
}

/// 999,990 reads are not too many, and 1,000,000 with the end still to come are.
pub fn show_of_many_reads(alloc: Global) -> Tally {
    let mut tally = Tally::new();
    tally.count(long_show(alloc, 99_999) == Ok((Ok(Verdict::Lawful), true)));
    tally.count(long_show(alloc, 100_000) == Ok((Err(ToolErr::Bound), true)));
    tally
}

/// Two lines of KEEPALIVE are encoded, and the sink or the source fails in each call.
pub fn encode(alloc: Global) -> Tally {
    let mut tally = Tally::new();
    let listing = b"0 KEEPALIVE 2 7\n0 KEEPALIVE 2 7\n";
    let frames = b"\x08\x3e\0\0\0\x0a\0\0\0\x07\x08\x3e\0\0\0\x0a\0\0\0\x07";
    for failure in [Failure::Error, Failure::NoOctet] {
        for call in 1..=frames.len() {
            let mut source = Dripping::new(listing.as_slice(), NEVER);
            let mut sink = Taking::new(alloc, call as u64, failure);
            let end = run_encode(alloc, &mut source, &mut sink, LIMIT);
            tally.count(
                end == Err(ToolErr::Write)
                    && is_front(sink.taken(), frames.as_slice(), call.saturating_sub(1)),
            );
        }
    }
    for call in 1..=listing.len() + 1 {
        let mut source = Dripping::new(listing.as_slice(), call as u64);
        let mut sink = Taking::new(alloc, NEVER, Failure::Error);
        let end = run_encode(alloc, &mut source, &mut sink, LIMIT);
        tally.count(end == Err(ToolErr::Read) && frames.starts_with(sink.taken()));
    }
    // Each message is one write, so where the second fails the first was written.
    let mut source = Dripping::new(listing.as_slice(), NEVER);
    let mut sink = Gulping::new(alloc, 2);
    let end = run_encode(alloc, &mut source, &mut sink, LIMIT);
    tally.count(end == Err(ToolErr::Write) && sink.taken() == KEEPALIVE);
    tally
}

/// Texts, and what `epc` prints of them.
static TEXTS: [(&str, &[u8]); 3] = [
    (
        "3074257BF7194E4000001A85",
        b"urn:epc:tag:sgtin-96:3.0614141.812345.6789\n",
    ),
    (
        "3003A3529440000000000000",
        b"urn:epc:raw:96.x3003A3529440000000000000\n# Prefix 14\n",
    ),
    ("urn:epc:tag:gid-96:1.2.x", b"! Digit\n"),
];

/// The sink fails in each call.
pub fn epc(alloc: Global) -> Tally {
    let mut tally = Tally::new();
    for (text, printed) in TEXTS {
        for failure in [Failure::Error, Failure::NoOctet] {
            for call in 1..=printed.len() {
                let mut sink = Taking::new(alloc, call as u64, failure);
                let end = run_epc(alloc, text, &mut sink);
                tally.count(
                    end == Err(ToolErr::Write)
                        && is_front(sink.taken(), printed, call.saturating_sub(1)),
                );
            }
        }
    }
    tally
}
