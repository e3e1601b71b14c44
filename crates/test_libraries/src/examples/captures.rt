//! The examples of the libraries of captures.

use llrp_capture::{Reassembly, Sender, segment_of};
use llrp_listing::Verdict;
use llrp_schema::KindSet;
use llrp_sides::{Form, show_segments};
use llrp_stream::{Input, Output};
use std::test::Fail;

#[test]
fn llrp_capture_example(rt: HostRuntime) -> Result<(), Fail> {
    let alloc = rt.alloc();
    let mut octets = Vec::new(alloc);
    let line = "1700000000.25\t3\t192.0.2.17\t\t5084\t0x0018\t1000\t083e";
    let segment = segment_of(alloc, 5084, line)?; // of stream 3, from the reader
    let mut side = Reassembly::new(alloc, segment.sequence);
    side.take(1002, b"\0\0", &mut octets)?; // comes early, so it waits
    assert!(rt; octets.is_empty());
    side.take(1000, segment.octets.as_slice(), &mut octets)?;
    assert_eq!(rt; segment.stream, 3);
    assert_eq!(rt; segment.from, Sender::Reader);
    assert_eq!(rt; octets.as_slice(), b"\x08\x3e\0\0".as_slice());
    Ok(())
}

/// A reader's segments: one without octets that begins its side, and one with a KEEPALIVE message.
const SEGMENTS: &[u8] = b"\
1700000000.1\t3\t192.0.2.17\t\t5084\t0x0012\t999\t
1700000000.25\t3\t192.0.2.17\t\t5084\t0x0018\t1000\t083e0000000a00000007
";

/// Its listing.
const LISTING: &[u8] = b"\
# 1700000000.25 3 reader
0 KEEPALIVE 2 7
";

#[test]
fn llrp_sides_example(rt: HostRuntime) {
    let alloc = rt.alloc();
    let form = Form {
        json: false,
        set: KindSet::Profile,
        limit: 65_536,
    };
    let mut source = Input::new(SEGMENTS);
    let mut sink = Output::new(Vec::new(alloc));
    let verdict = show_segments(alloc, form, 5084, &mut source, &mut sink); // a line for the time and the side, then the frame's
    match verdict {
        Ok(verdict) => assert_eq!(rt; verdict, Verdict::Lawful),
        Err(_) => assert!(rt; false),
    }
    let listing = sink.into_inner();
    assert!(rt; listing.as_slice() == LISTING);
}
