//! Streams that come in pieces.

use llrp_stream::{Decoder, End, FeedErr, Input, Item, Output, Sink, Source};
use llrp_tree::{Fault, KindSet, Reason, encode_into};
use std::alloc::Global;
use std::process::Abort;
use std::test::Fail;

/// RO_ACCESS_REPORT with one EPC-96.
const REPORT: [u8; 27] = [
    0x04, 0x3D, 0x00, 0x00, 0x00, 0x1B, 0x00, 0x00, 0x00, 0x01, 0x00, 0xF0, 0x00, 0x11, 0x8D, 0x30,
    0x74, 0x25, 0x7B, 0xF7, 0x19, 0x4E, 0x40, 0x00, 0x00, 0x1A, 0x85,
];

/// The same with a maker's parameter after the EPC: Custom of vendor 25882, subtype 37 and the data 0001.
const MAKERS_REPORT: [u8; 41] = [
    0x04, 0x3D, 0x00, 0x00, 0x00, 0x29, 0x00, 0x00, 0x00, 0x01, 0x00, 0xF0, 0x00, 0x1F, 0x8D, 0x30,
    0x74, 0x25, 0x7B, 0xF7, 0x19, 0x4E, 0x40, 0x00, 0x00, 0x1A, 0x85, 0x03, 0xFF, 0x00, 0x0E, 0x00,
    0x00, 0x65, 0x1A, 0x00, 0x00, 0x00, 0x25, 0x00, 0x01,
];

const KEEPALIVE: [u8; 10] = [0x08, 0x3E, 0, 0, 0, 0x0A, 0, 0, 0, 7];

/// The item that a feed gave, if it took this many bytes.
fn item_of(
    rt: &impl Abort,
    decoder: &mut Decoder,
    piece: &[u8],
    used: usize,
) -> Result<Option<Item>, Fail> {
    match decoder.feed(piece) {
        Ok(fed) => {
            assert_eq!(rt; fed.used, used);
            Ok(fed.item)
        }
        Err(error) => Err(Fail::from(error)),
    }
}

/// What the message of an item spells; nothing for another.
fn spelled(alloc: Global, item: Option<Item>) -> Result<Vec<u8>, Fail> {
    let mut out = Vec::new(alloc);
    if let Some(Item::Msg(message)) = item {
        if let Err(error) = encode_into(alloc, &message, &mut out, 65_536) {
            return Err(Fail::from(error));
        }
    }
    Ok(out)
}

/// The id, the bit and the reason of a faulty frame.
fn fault_of(item: Option<Item>) -> Option<(u32, u64, Reason)> {
    match item {
        Some(
            Item::Bad {
                id,
                fault: Fault { bit, reason },
            },
        ) => Some((id, bit, reason)),
        Some(Item::Msg(_)) => None,
        None => None,
    }
}

#[test]
fn report_in_single_octets(rt: HostRuntime) -> Result<(), Fail> {
    let alloc = rt.alloc();
    let mut decoder = Decoder::new(alloc, 65_536);
    assert_eq!(rt; decoder.finish(), End::Clean);
    for i in 0..26usize {
        let none = item_of(&rt, &mut decoder, &REPORT[i..i + 1], 1)?;
        assert!(rt; none.is_none());
        assert_eq!(rt; decoder.finish(), End::Rest(i as u64 + 1));
        assert!(rt; decoder.held() >= 1);
        assert!(rt; decoder.held() as usize <= i + 1);
    }
    let item = item_of(&rt, &mut decoder, &REPORT[26..27], 1)?;
    assert_eq!(rt; spelled(alloc, item)?.as_slice(), REPORT.as_slice());
    assert_eq!(rt; decoder.held(), 0);
    assert_eq!(rt; decoder.finish(), End::Clean);
    Ok(())
}

#[test]
fn makers_report_in_both_sets(rt: HostRuntime) -> Result<(), Fail> {
    let alloc = rt.alloc();
    for cut in 0..41usize {
        let (front, rest) = MAKERS_REPORT.split_at(cut);
        let mut whole = Decoder::new_in(alloc, KindSet::Standard, 65_536);
        let none = item_of(&rt, &mut whole, front, cut)?;
        assert!(rt; none.is_none());
        let item = item_of(&rt, &mut whole, rest, 41 - cut)?;
        assert_eq!(rt; spelled(alloc, item)?.as_slice(), MAKERS_REPORT.as_slice());
        let mut own = Decoder::new(alloc, 65_536);
        let none = item_of(&rt, &mut own, front, cut)?;
        assert!(rt; none.is_none());
        let item = item_of(&rt, &mut own, rest, 41 - cut)?;
        assert_eq!(rt; fault_of(item), Some((1, 222, Reason::ParamType)));
    }
    Ok(())
}

#[test]
fn report_cut_at_every_place(rt: HostRuntime) -> Result<(), Fail> {
    let alloc = rt.alloc();
    for cut in 0..27usize {
        let (front, rest) = REPORT.split_at(cut);
        let mut decoder = Decoder::new(alloc, 65_536);
        let none = item_of(&rt, &mut decoder, front, cut)?;
        assert!(rt; none.is_none());
        let item = item_of(&rt, &mut decoder, rest, 27 - cut)?;
        assert_eq!(rt; spelled(alloc, item)?.as_slice(), REPORT.as_slice());
    }
    Ok(())
}

#[test]
fn frames_after_a_fault(rt: HostRuntime) -> Result<(), Fail> {
    let alloc = rt.alloc();
    let mut stream = REPORT.to_vec(alloc)?;
    stream.extend_from_slice(&KEEPALIVE)?;
    assert_eq!(rt; stream.len(), 37);
    stream[13] = 0x12;
    let mut decoder = Decoder::new(alloc, 65_536);
    let faulty = item_of(&rt, &mut decoder, stream.as_slice(), 27)?;
    assert_eq!(rt; fault_of(faulty), Some((1, 96, Reason::ParamLength)));
    let next = item_of(&rt, &mut decoder, &stream.as_slice()[27..], 10)?;
    assert_eq!(rt; spelled(alloc, next)?.as_slice(), KEEPALIVE.as_slice());
    Ok(())
}

#[test]
fn broken_length(rt: HostRuntime) -> Result<(), Fail> {
    let mut decoder = Decoder::new(rt.alloc(), 65_536);
    let none = item_of(&rt, &mut decoder, &[0x08, 0x3E, 0, 0, 0], 5)?;
    assert!(rt; none.is_none());
    assert_eq!(rt; decoder.finish(), End::Rest(5));
    for _ in 0..3 {
        match decoder.feed(&[9]) {
            Ok(_) => return Err(Fail::from("a frame of 9 octets")),
            Err(error) => assert_eq!(rt; error, FeedErr::Broken),
        }
        assert_eq!(rt; decoder.finish(), End::Broken);
        assert_eq!(rt; decoder.held(), 0);
    }
    Ok(())
}

#[test]
fn frame_above_the_limit(rt: HostRuntime) -> Result<(), Fail> {
    let alloc = rt.alloc();
    let zeros = vec![in alloc; 0u8; 65_527]?;
    let mut decoder = Decoder::new(alloc, 65_536);
    let header = [0x08, 0x3E, 0, 0x01, 0, 0x01, 0, 0, 0, 7];
    let none = item_of(&rt, &mut decoder, &header, 10)?;
    assert!(rt; none.is_none());
    assert_eq!(rt; decoder.held(), 0);
    assert_eq!(rt; decoder.finish(), End::Rest(10));
    let faulty = item_of(&rt, &mut decoder, zeros.as_slice(), 65_527)?;
    assert_eq!(rt; fault_of(faulty), Some((7, 16, Reason::MessageLength)));
    let next = item_of(&rt, &mut decoder, &KEEPALIVE, 10)?;
    assert_eq!(rt; spelled(alloc, next)?.as_slice(), KEEPALIVE.as_slice());
    Ok(())
}

#[test]
fn frame_of_the_greatest_length(rt: HostRuntime) -> Result<(), Fail> {
    let mut decoder = Decoder::new(rt.alloc(), 65_536);
    let header = [0x08, 0x3E, 0xFF, 0xFF, 0xFF, 0xFF, 0, 0, 0, 7];
    assert!(rt; item_of(&rt, &mut decoder, &header, 10)?.is_none());
    assert_eq!(rt; decoder.held(), 0);
    // A whole KEEPALIVE within its body is a part of it.
    assert!(rt; item_of(&rt, &mut decoder, &KEEPALIVE, 10)?.is_none());
    assert_eq!(rt; decoder.held(), 0);
    assert_eq!(rt; decoder.finish(), End::Rest(20));
    Ok(())
}

/// RO_ACCESS_REPORT of 65,536 octets: 3,850 TagReportData with an EPC-96, and 4 that have a PeakRSSI
/// too.
fn largest_report(alloc: Global) -> Result<Vec<u8>, Fail> {
    let mut frame = [0x04, 0x3D, 0, 0x01, 0, 0, 0, 0, 0, 1].to_vec(alloc)?;
    let epc = [
        0x8D, 0x30, 0x74, 0x25, 0x7B, 0xF7, 0x19, 0x4E, 0x40, 0x00, 0x00, 0x1A, 0x85,
    ];
    for _ in 0..3_850 {
        frame.extend_from_slice(&[0x00, 0xF0, 0, 0x11])?;
        frame.extend_from_slice(&epc)?;
    }
    for _ in 0..4 {
        frame.extend_from_slice(&[0x00, 0xF0, 0, 0x13])?;
        frame.extend_from_slice(&epc)?;
        frame.extend_from_slice(&[0x86, 0xC4])?;
    }
    Ok(frame)
}

#[test]
fn largest_report_is_accepted(rt: HostRuntime) -> Result<(), Fail> {
    let alloc = rt.alloc();
    let frame = largest_report(alloc)?;
    assert_eq!(rt; frame.len(), 65_536);
    let mut decoder = Decoder::new(alloc, 65_536);
    let (front, rest) = frame.as_slice().split_at(40_000);
    let none = item_of(&rt, &mut decoder, front, 40_000)?;
    assert!(rt; none.is_none());
    assert!(rt; decoder.held() <= 40_000);
    let item = item_of(&rt, &mut decoder, rest, 25_536)?;
    assert_eq!(rt; spelled(alloc, item)?.as_slice(), frame.as_slice());
    Ok(())
}

/// The most that is kept of that report before its last octet: two for each message and parameter, and 16 raw
/// octets.
const MOST_HELD: u32 = 2 + 3_850 * 4 + 4 * 6 + 16;

#[test]
fn nodes_of_the_largest_report_are_held(rt: HostRuntime) -> Result<(), Fail> {
    let alloc = rt.alloc();
    let frame = largest_report(alloc)?;
    assert_eq!(rt; frame.len(), 65_536);
    let mut decoder = Decoder::new(alloc, 65_536);
    let (front, rest) = frame.as_slice().split_at(65_535);
    assert!(rt; item_of(&rt, &mut decoder, front, 65_535)?.is_none());
    assert!(rt; decoder.held() <= MOST_HELD);
    let item = item_of(&rt, &mut decoder, rest, 1)?;
    assert_eq!(rt; spelled(alloc, item)?.as_slice(), frame.as_slice());
    assert_eq!(rt; decoder.held(), 0);
    Ok(())
}

/// The front of a report of 65,536 octets, up to the head of a parameter of no known type.
const UNKNOWN_PARAMETER: [u8; 14] = [
    0x04, 0x3D, 0x00, 0x01, 0x00, 0x00, 0x00, 0x00, 0x00, 0x01, 0x00, 0xBB, 0x00, 0x04,
];

#[test]
fn nothing_is_held_of_a_faulty_frame(rt: HostRuntime) -> Result<(), Fail> {
    let mut decoder = Decoder::new(rt.alloc(), 65_536);
    assert!(rt; item_of(&rt, &mut decoder, &UNKNOWN_PARAMETER, 14)?.is_none());
    assert_eq!(rt; decoder.held(), 0);
    for _ in 0..65_521 {
        assert!(rt; item_of(&rt, &mut decoder, &[0], 1)?.is_none());
        assert_eq!(rt; decoder.held(), 0);
    }
    let faulty = item_of(&rt, &mut decoder, &[0], 1)?;
    assert_eq!(rt; fault_of(faulty), Some((1, 86, Reason::ParamType)));
    Ok(())
}

#[test]
fn devices_over_memory(rt: HostRuntime) -> Result<(), Fail> {
    let mut source = Input::new(KEEPALIVE.as_slice());
    let mut sink = Output::new(Vec::new(rt.alloc()));
    let mut piece = [0u8; 16];
    assert_eq!(rt; source.read(&mut piece)?, 10);
    assert_eq!(rt; sink.write(&piece[..10])?, 10);
    assert_eq!(rt; source.read(&mut piece)?, 0);
    assert_eq!(rt; sink.into_inner().as_slice(), KEEPALIVE.as_slice());
    Ok(())
}
