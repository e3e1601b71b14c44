//! What is listed of a side of a connection, and of octets without a gap.

use llrp_capture::{Sender, segment_of};
use llrp_listing::{Text, Verdict};
use llrp_schema::KindSet;
use llrp_sides::{Form, Side, Stamp, StepErr, Stretch};
use std::alloc::Global;
use std::test::*;

/// Frames of 30 octets at most, of the profile, as lines.
const FORM: Form = Form {
    json: false,
    set: KindSet::Profile,
    limit: 30,
};

/// When and from where a segment came.
fn stamp(time: &str) -> Stamp<'_> {
    Stamp {
        time,
        stream: 3,
        from: Sender::Reader,
    }
}

/// The segments of a side: two KEEPALIVE messages, of which the second came first, and the front of a third.
static SEGMENTS: [&str; 4] = [
    "1.0\t3\t192.0.2.17\t\t5084\t0x0012\t999\t",
    "2.0\t3\t192.0.2.17\t\t5084\t0x0018\t1010\t083e0000000a00000008",
    "3.0\t3\t192.0.2.17\t\t5084\t0x0018\t1000\t083e0000000a00000007",
    "4.0\t3\t192.0.2.17\t\t5084\t0x0018\t1020\t083e00",
];

/// What is listed of them.
const LISTING: &str = "\
# 3.0 3 reader
0 KEEPALIVE 2 7
# 3.0 3 reader
0 KEEPALIVE 2 8
# 5.0 3 reader
? 3
";

#[test]
fn a_side_is_listed(rt: HostRuntime) -> Result<(), Fail> {
    let alloc = rt.alloc();
    let mut side = Side::new(alloc, FORM);
    let mut text = Text::new(alloc);
    for line in &SEGMENTS {
        let segment = segment_of(alloc, 5084, *line)?;
        assert!(rt; side.take(&segment, stamp(segment.time), &mut text).is_ok());
    }
    assert!(rt; side.end(stamp("5.0"), &mut text).is_ok());
    assert!(rt; text.as_slice() == LISTING.as_bytes());
    Ok(())
}

/// Octets without a gap, cut so, and what is listed of them: a frame of 64 octets is longer than a message
/// may be.
static STRETCHES: [(&[&[u8]], &str, Verdict, u64); 5] = [
    (&[], "", Verdict::Lawful, 0),
    (
        &[b"\x08\x3e\0\0\0\x0a\0\0", b"\0\x07"],
        "# 1.5 3 reader\n0 KEEPALIVE 2 7\n",
        Verdict::Lawful,
        0,
    ),
    (
        &[
            b"\x04\x3d\0\0\0\x40\0\0\0\x07ababababababab",
            b"ababababababababababab",
            b"ababababababababab\x08\x3e\0\0\0\x0a\0\0\0\x08",
        ],
        "# 1.5 3 reader\n! 7 16 MessageLength\n# 1.5 3 reader\n0 KEEPALIVE 2 8\n",
        Verdict::Faulty,
        0,
    ),
    (
        &[b"\x04\x3d\0\0\0\x40\0\0", b"\0\x07ab"],
        "# 1.5 3 reader\n? 12\n",
        Verdict::Faulty,
        12,
    ),
    (
        &[b"\x08\x3e\0\0\0\x09\0\0", b"\0\x07ab"],
        "# 1.5 3 reader\n! BROKEN\n",
        Verdict::Faulty,
        0,
    ),
];

/// Whether octets that come so are listed so, with this verdict, and how many are unfinished before the end.
fn is_listed(
    alloc: Global,
    pieces: &[&[u8]],
    listing: &str,
    verdict: Verdict,
    unfinished: u64,
) -> Result<bool, StepErr> {
    let mut stretch = Stretch::new(alloc, FORM);
    let mut text = Text::new(alloc);
    for piece in pieces {
        if stretch.take(*piece, stamp("1.5"), &mut text).is_err() {
            return Err(StepErr::Memory);
        }
    }
    let is_as_many = stretch.unfinished() == unfinished;
    match stretch.end(stamp("1.5"), &mut text) {
        Ok(found) => Ok(is_as_many && found == verdict && text.as_slice() == listing.as_bytes()),
        Err(_) => Err(StepErr::Memory),
    }
}

#[test]
fn stretches_are_listed(rt: HostRuntime) {
    for (pieces, listing, verdict, unfinished) in &STRETCHES {
        let outcome = is_listed(rt.alloc(), pieces, *listing, *verdict, *unfinished);
        assert!(rt; outcome == Ok(true));
    }
}
