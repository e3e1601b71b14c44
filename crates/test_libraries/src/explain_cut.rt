//! `explain` of a stream that comes in pieces, and over devices that fail.

ghost use Rattle.llrp_stream.specs.Device.{IsFreshSource};

use llrp_stream::Source;
use llrp_tool::{Input, Output, ToolErr, run_command};
use std::alloc::Global;
use std::test::*;
use test_devices::{Dripping, Pieces, Taking};

/// KEEPALIVE, an ADD_ROSPEC_RESPONSE whose LLRPStatus has a length of 3, and three octets of a
/// header.
const STREAM: &[u8] =
    b"\x08\x3e\0\0\0\x0a\0\0\0\x07\x04\x1e\0\0\0\x0e\0\0\0\x01\x01\x1f\0\x03\x04\x3e\0";

/// Its digits, with a line end in an octet and a blank between two.
const DIGITS: &[u8] = b"083E0000000A0\n0000007 041e0000000e00000001011f0003043e00";

/// What is written of the two frames, and of the end, where a command is given the stream or its
/// digits.
#[derive(Drop)]
struct Wanted {
    words: &'static [&'static str],
    given: &'static [u8],
    /// How many octets it is given up to the end of each frame.
    ends: [usize; 2],
    parts: [&'static [u8]; 3],
}

/// The text of the two frames, and of the end.
const PARTS: [&[u8]; 3] = [
    b"frame 1, 10 octets
BIT WIDTH LEVEL FIELD VALUE
0 3 0 reserved 0
3 3 0 Version 2
6 10 0 MessageType 62\tKEEPALIVE
16 32 0 MessageLength 10
48 32 0 MessageID 7
",
    b"frame 2, 14 octets
BIT WIDTH LEVEL FIELD VALUE
0 3 0 reserved 0
3 3 0 Version 1
6 10 0 MessageType 30\tADD_ROSPEC_RESPONSE
16 32 0 MessageLength 14
48 32 0 MessageID 1
then, refused:
80 6 1 reserved 0
86 10 1 ParameterType 287
96 16 1 ParameterLength 3
fault at bit 96, octet 12: ParamLength: 3 octets, at least 4
",
    b"? 3\n",
];

const TEXT: Wanted = Wanted {
    words: &["explain"],
    given: STREAM,
    ends: [10, 24],
    parts: PARTS,
};

const JSON: Wanted = Wanted {
    words: &["explain", "--json"],
    given: STREAM,
    ends: [10, 24],
    parts: [
        b"{\"frame\":1,\"octets\":10,\"fields\":[\
        {\"bit\":0,\"width\":3,\"name\":\"reserved\",\"level\":0,\"value\":0},\
        {\"bit\":3,\"width\":3,\"name\":\"Version\",\"level\":0,\"value\":2},\
        {\"bit\":6,\"width\":10,\"name\":\"MessageType\",\"level\":0,\"value\":62,\"reading\":\"KEEPALIVE\"},\
        {\"bit\":16,\"width\":32,\"name\":\"MessageLength\",\"level\":0,\"value\":10},\
        {\"bit\":48,\"width\":32,\"name\":\"MessageID\",\"level\":0,\"value\":7}]}\n",
        b"{\"frame\":2,\"octets\":14,\"fields\":[\
        {\"bit\":0,\"width\":3,\"name\":\"reserved\",\"level\":0,\"value\":0},\
        {\"bit\":3,\"width\":3,\"name\":\"Version\",\"level\":0,\"value\":1},\
        {\"bit\":6,\"width\":10,\"name\":\"MessageType\",\"level\":0,\"value\":30,\"reading\":\"ADD_ROSPEC_RESPONSE\"},\
        {\"bit\":16,\"width\":32,\"name\":\"MessageLength\",\"level\":0,\"value\":14},\
        {\"bit\":48,\"width\":32,\"name\":\"MessageID\",\"level\":0,\"value\":1},\
        {\"bit\":80,\"width\":6,\"name\":\"reserved\",\"level\":1,\"value\":0,\"refused\":true},\
        {\"bit\":86,\"width\":10,\"name\":\"ParameterType\",\"level\":1,\"value\":287,\"refused\":true},\
        {\"bit\":96,\"width\":16,\"name\":\"ParameterLength\",\"level\":1,\"value\":3,\"refused\":true}],\
        \"fault\":{\"bit\":96,\"octet\":12,\"reason\":\"ParamLength\",\"text\":\"3 octets, at least 4\"}}\n",
        b"{\"rest\":3}\n",
    ],
};

const HEX: Wanted = Wanted {
    words: &["explain", "--hex"],
    given: DIGITS,
    ends: [21, 50],
    parts: PARTS,
};

/// Whether a command from this source answers with this status, and writes the first `count` parts to its
/// output.
fn writes<R: Source>(
    alloc: Global,
    wanted: &Wanted,
    source: &mut R,
    status: u8,
    count: usize,
) -> Result<bool, ToolErr>
    requires { IsFreshSource (R.log source.old) }
{
    let mut sink = Output::new(Vec::new(alloc));
    let mut errors = Output::new(Vec::new(alloc));
    let answer = run_command(alloc, wanted.words, source, &mut sink, &mut errors);
    let mut text = Vec::new(alloc);
    for part in wanted.parts.iter().take(count) {
        text.extend_from_slice(part)?;
    }
    Ok(answer == Ok(status) && sink.into_inner().as_slice() == text.as_slice())
}

/// Whether a stream that comes in such pieces is explained.
fn explains(alloc: Global, wanted: &Wanted, first: usize, later: usize) -> bool {
    let mut source = Pieces::new(wanted.given, first, later);
    writes(alloc, wanted, &mut source, 1, 3) == Ok(true)
}

#[test]
fn streams_cut_anywhere_are_explained(rt: HostRuntime) {
    for wanted in [&TEXT, &JSON, &HEX] {
        for first in 1..=wanted.given.len() {
            assert!(rt; explains(rt.alloc(), wanted, first, 4096), "{first}");
        }
        assert!(rt; explains(rt.alloc(), wanted, 1, 1));
        assert!(rt; explains(rt.alloc(), wanted, 7, 7));
    }
}

/// How many frames are whole in the first `count` octets of what is given.
fn whole_within(wanted: &Wanted, count: usize) -> usize {
    wanted.ends.iter().filter(|end| **end <= count).count()
}

#[test]
fn whole_frames_are_explained_before_the_next_octet_is_read(rt: HostRuntime) {
    for wanted in [&TEXT, &JSON, &HEX] {
        for count in 0..=wanted.given.len() {
            let mut source = Dripping::after(wanted.given, count);
            let whole = whole_within(wanted, count);
            let written = writes(rt.alloc(), wanted, &mut source, 3, whole);
            assert!(rt; written == Ok(true), "{count}");
        }
    }
}

/// KEEPALIVE, a length field of 9, and what follows it.
const BROKEN: &[u8] = b"\x08\x3e\0\0\0\x0a\0\0\0\x07\x08\x3e\0\0\0\x09\x08\x3e\0\0\0\x0a\0\0\0\x07";

#[test]
fn a_stream_that_breaks_is_read_no_further(rt: HostRuntime) {
    let mut source = Dripping::after(BROKEN, 16);
    let mut sink = Output::new(Vec::new(rt.alloc()));
    let mut errors = Output::new(Vec::new(rt.alloc()));
    let status = run_command(
        rt.alloc(),
        &["explain"],
        &mut source,
        &mut sink,
        &mut errors,
    );
    let written = sink.into_inner();
    assert!(rt; status == Ok(1));
    assert!(rt; written.as_slice().starts_with(PARTS[0]));
    assert!(rt; written.as_slice().ends_with(b"MessageID 7\n! BROKEN\n"));
}

#[test]
fn a_write_that_fails_stops_the_text(rt: HostRuntime) {
    let whole = PARTS[0];
    for left in 0..whole.len() {
        let mut source = Input::new(STREAM);
        let mut sink = Taking::after(rt.alloc(), left);
        let mut errors = Output::new(Vec::new(rt.alloc()));
        let status = run_command(
            rt.alloc(),
            &["explain"],
            &mut source,
            &mut sink,
            &mut errors,
        );
        assert!(rt; status == Ok(3));
        assert!(rt; errors.into_inner().as_slice() == b"llrp: write\n".as_slice());
        assert!(rt; whole.starts_with(sink.taken()));
    }
}
