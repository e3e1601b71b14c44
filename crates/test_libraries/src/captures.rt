//! The segments of captures, and what the sides of connections make of them.

use llrp_capture::{
    Connections, OpenErr, Reassembly, SegmentErr, Sender, TakeErr, Took, segment_of,
};
use std::alloc::Global;
use std::test::*;

/// Segments of a side in the order of a capture, each with its sequence number; the side's first octet has
/// the number 4,294,967,294, two before the numbers begin again. Then what is handed on.
static SIDES: [(&[(u32, &[u8])], &[u8]); 7] = [
    (&[(4_294_967_294, b"ab"), (0, b"cd"), (2, b"e")], b"abcde"),
    // in another order
    (&[(0, b"cd"), (2, b"e"), (4_294_967_294, b"ab")], b"abcde"),
    // once more, whole and in part
    (
        &[
            (4_294_967_294, b"ab"),
            (4_294_967_294, b"xy"),
            (4_294_967_295, b"zcd"),
        ],
        b"abcd",
    ),
    // one over the other, while they wait: the first counts
    (
        &[(0, b"CD"), (4_294_967_295, b"bcde"), (4_294_967_294, b"a")],
        b"abCDe",
    ),
    // before the first octet
    (&[(4_294_967_290, b"....ab")], b"ab"),
    // one is missing
    (&[(4_294_967_294, b"a"), (0, b"cd")], b"a"),
    (&[], b""),
];

/// What a side hands on of these segments; `None` where one of them is not taken.
fn handed(alloc: Global, segments: &[(u32, &[u8])]) -> Result<Option<Vec<u8>>, TakeErr> {
    let mut side = Reassembly::new(alloc, 4_294_967_294);
    let mut octets = Vec::new(alloc);
    for (sequence, segment) in segments {
        if side.take(*sequence, segment, &mut octets)? != Took::Taken {
            return Ok(None);
        }
    }
    Ok(Some(octets))
}

#[test]
fn sides_are_put_together(rt: HostRuntime) -> Result<(), Fail> {
    for (segments, octets) in &SIDES {
        match handed(rt.alloc(), segments)? {
            Some(found) => assert_eq!(rt; found.as_slice(), *octets),
            None => assert!(rt; false),
        }
    }
    Ok(())
}

#[test]
fn gaps_are_given_up(rt: HostRuntime) -> Result<(), Fail> {
    let alloc = rt.alloc();
    let mut side = Reassembly::new(alloc, 100);
    let mut octets = Vec::new(alloc);
    assert_eq!(rt; side.take(103, b"d", &mut octets)?, Took::Taken);
    assert_eq!(rt; side.take(105, b"fg", &mut octets)?, Took::Taken);
    // up to 64 KiB ahead, and no further
    assert_eq!(rt; side.take(100 + 65_535, b"y", &mut octets)?, Took::Taken);
    assert_eq!(rt; side.take(100 + 65_535, b"yz", &mut octets)?, Took::Beyond);
    assert!(rt; octets.is_empty());
    assert_eq!(rt; side.give_up(&mut octets)?, Some(3));
    assert_eq!(rt; octets.as_slice(), b"d".as_slice());
    assert_eq!(rt; side.give_up(&mut octets)?, Some(1));
    assert_eq!(rt; octets.as_slice(), b"dfg".as_slice());
    assert_eq!(rt; side.give_up(&mut octets)?, Some(65_528));
    assert_eq!(rt; side.give_up(&mut octets)?, None);
    assert_eq!(rt; octets.as_slice(), b"dfgy".as_slice());
    // where none waits, the side goes on at a segment
    assert_eq!(rt; side.take(1_000_000, b"z", &mut octets)?, Took::Beyond);
    assert_eq!(rt; side.skip_to(1_000_000)?, 1_000_000 - 65_636);
    assert_eq!(rt; side.take(1_000_000, b"z", &mut octets)?, Took::Taken);
    assert_eq!(rt; octets.as_slice(), b"dfgyz".as_slice());
    Ok(())
}

/// Lines that say no segment.
static REFUSED: [(&str, SegmentErr); 12] = [
    ("", SegmentErr::Fields),
    ("1.5\t0\t192.0.2.1\t\t5084\t0x0018\t1", SegmentErr::Fields),
    (
        "1.5\t0\t192.0.2.1\t\t5084\t0x0018\t1\t00\t",
        SegmentErr::Fields,
    ),
    ("1\t0\t192.0.2.1\t\t5084\t0x0018\t1\t00", SegmentErr::Time),
    ("1.\t0\t192.0.2.1\t\t5084\t0x0018\t1\t00", SegmentErr::Time),
    (
        "1.5\t\t192.0.2.1\t\t5084\t0x0018\t1\t00",
        SegmentErr::Stream,
    ),
    (
        "1.5\t0\t192.0.2.1\t\t65536\t0x0018\t1\t00",
        SegmentErr::Port,
    ),
    ("1.5\t0\t192.0.2.1\t\t5084\t0018\t1\t00", SegmentErr::Flags),
    (
        "1.5\t0\t192.0.2.1\t\t5084\t0x1FFFF\t1\t00",
        SegmentErr::Flags,
    ),
    (
        "1.5\t0\t192.0.2.1\t\t5084\t0x0018\t4294967296\t00",
        SegmentErr::Sequence,
    ),
    (
        "1.5\t0\t192.0.2.1\t\t5084\t0x0018\t1\t000",
        SegmentErr::Payload,
    ),
    (
        "1.5\t0\t192.0.2.1\t\t5084\t0x0018\t1\t0g",
        SegmentErr::Payload,
    ),
];

#[test]
fn lines_that_say_no_segment(rt: HostRuntime) {
    for (line, reason) in &REFUSED {
        match segment_of(rt.alloc(), 5084, line) {
            Err(error) => assert_eq!(rt; error, *reason),
            Ok(_) => assert!(rt; false),
        }
    }
}

#[test]
fn a_segment_of_each_part(rt: HostRuntime) -> Result<(), Fail> {
    let line = "1700000000.123456000\t12\t\t2001:db8::1\t40000\t0x0012\t4294967295\t0aFF";
    let segment = segment_of(rt.alloc(), 5084, line)?;
    assert_eq!(rt; segment.time, "1700000000.123456000");
    assert_eq!(rt; segment.stream, 12);
    assert_eq!(rt; segment.from, Sender::Client);
    assert_eq!(rt; segment.flags, 0x12);
    assert_eq!(rt; segment.sequence, 4_294_967_295);
    assert_eq!(rt; segment.octets.as_slice(), b"\x0a\xff".as_slice());
    Ok(())
}

#[test]
fn a_thousand_connections(rt: HostRuntime) -> Result<(), Fail> {
    let mut connections = Connections::new(rt.alloc());
    for stream in 0..1000u32 {
        assert_eq!(rt; connections.open(7 * stream)?, stream as usize);
    }
    assert_eq!(rt; connections.open(7 * 999)?, 999);
    assert!(rt; connections.open(1) == Err(OpenErr::Full));
    connections.close(0);
    assert_eq!(rt; connections.open(1)?, 999);
    assert_eq!(rt; connections.open(7)?, 0);
    Ok(())
}
