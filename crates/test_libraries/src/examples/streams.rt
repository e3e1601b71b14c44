//! The examples of the libraries of streams and of listings.

use super::part_counter::PartCounter;
use llrp_json::JsonPrinter;
use llrp_listing::list_stream;
use llrp_stream::{Came, Decoder, End, Fed, Frames, Item, Outcome};
use llrp_tool::{Input, Output, Verdict, run_encode};
use std::test::Fail;

/// KEEPALIVE of version 2 with id 7.
const KEEPALIVE: &[u8] = b"\x08\x3E\0\0\0\x0A\0\0\0\x07";

/// RO_ACCESS_REPORT with one EPC-96 in TagReportData, and the first octets of another frame.
const REPORT: &[u8] =
    b"\x04\x3D\0\0\0\x1B\0\0\0\x01\0\xF0\0\x11\x8D\x30\x74\x25\x7B\xF7\x19\x4E\x40\0\0\x1A\x85\x04";

#[test]
fn llrp_stream_decoder(rt: HostRuntime) -> Result<(), Fail> {
    let alloc = rt.alloc();
    let piece = REPORT;
    let mut decoder = Decoder::new(alloc, 65_536);
    let Fed { used, item } = decoder.feed(piece)?; // feed the rest, piece[used..], again
    assert_eq!(rt; used, 27);
    assert!(rt; matches!(item, Some(Item::Msg(_))));
    assert!(rt; decoder.feed(&piece[used..])?.item.is_none());
    let end = decoder.finish(); // whether the stream ended with a frame
    assert_eq!(rt; end, End::Rest(1));
    Ok(())
}

#[test]
fn llrp_stream_frames(rt: HostRuntime) -> Result<(), Fail> {
    let piece = REPORT;
    let mut listener = PartCounter::new();
    let mut frames = Frames::new(65_536);
    let Came { used, outcome } = frames.feed(&mut listener, piece)?; // the listener received the parts in these octets
    assert_eq!(rt; used, 27);
    assert!(rt; matches!(outcome, Some(Outcome::Whole)));
    assert_eq!(rt; listener.messages, 1);
    assert_eq!(rt; listener.parameters, 2);
    Ok(())
}

#[test]
fn llrp_listing_example(rt: HostRuntime) -> Result<(), Fail> {
    let alloc = rt.alloc();
    let stream = KEEPALIVE;
    let mut source = Input::new(b"0 KEEPALIVE 2 7\n".as_slice());
    let mut sink = Output::new(Vec::new(alloc));
    let verdict = list_stream(alloc, stream, &mut sink, 65_536)?; // 0 KEEPALIVE 2 7
    run_encode(alloc, &mut source, &mut sink, 65_536)?; // the same stream again
    assert_eq!(rt; verdict, Verdict::Lawful);
    let written = sink.into_inner();
    let (listing, again) = written.as_slice().split_at_checked(16).ok_or("too short")?;
    assert!(rt; listing == b"0 KEEPALIVE 2 7\n".as_slice());
    assert!(rt; again == stream);
    Ok(())
}

#[test]
fn llrp_json_example(rt: HostRuntime) -> Result<(), Fail> {
    let alloc = rt.alloc();
    let piece = KEEPALIVE;
    let mut printer = JsonPrinter::new(alloc);
    let mut frames = Frames::new(65_536);
    frames.feed(&mut printer, piece)?;
    let lines = printer.as_slice(); // {"message":"KEEPALIVE","version":2,"id":7}
    assert!(rt; lines == b"{\"message\":\"KEEPALIVE\",\"version\":2,\"id\":7}\n".as_slice());
    Ok(())
}
