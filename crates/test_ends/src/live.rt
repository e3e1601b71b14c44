//! A simulated reader in real time, of the whole standard.

use llrp_answers::Answers;
use llrp_live::LiveReader;
use llrp_session::{Reader, ReaderIn};
use llrp_tool::ToolErr;
use llrp_tree::Message;
use std::alloc::Global;
use std::test::*;
use test_devices::{are_spelled, octets};

/// A second after the first moment, in microseconds since 1970: 1,600,000,000,000,000 is hexadecimal
/// 0005AF3107A40000.
const FIRST: u64 = 1_600_000_000_000_000;

const SECOND: u64 = 1_000_000;

/// READER_EVENT_NOTIFICATION of a connection that is accepted at the first moment (LLRP 1.1, section 14.1).
const ACCEPTED: &str = "043F0000002000000001 00F60016 0080000C 0005AF3107A40000 010000060000";

/// SET_READER_CONFIG with a KEEPALIVE each 1,000 ms, and with an AccessReportSpec, which the profile does not
/// have; and its response.
const CONFIGURE: &str = "0403000000190000000100 00DC000901000003E8 00EF000500";

const CONFIGURED: &str = "040D0000001200000001 011F000800000000";

/// The first KEEPALIVE.
const KEEPALIVE: &str = "043E0000000A00000002";

/// GET_SUPPORTED_VERSION and its answer: a connection begins in version 1, and 2 is the greatest.
const GET_VERSION: &str = "082E0000000A00000007";

const VERSION: &str = "083800000014000000070102 011F000800000000";

/// SET_PROTOCOL_VERSION 2 and 1, and their responses; KEEPALIVE_ACK of both versions, and ERROR_MESSAGE 110
/// for the one that is not in use; GET_ROSPECS of version 2, and its response.
const SET_TWO: &str = "082F0000000B0000000C02";

const SET_ONE: &str = "082F0000000B0000000D01";

const ACK_OF_TWO: &str = "08480000000A0000000E";

const ACK_OF_ONE: &str = "04480000000A0000000F";

const GET_ROSPECS: &str = "081A0000000A00000011";

const ROSPECS: &str = "082400000012 00000011 011F000800000000";

/// What the reader answers by a file, beside its own answers: CUSTOM_MESSAGE of subtype 23, and the answer of
/// subtype 24.
const FILE: &[u8] = b"? 0 CUSTOM_MESSAGE * * 25882 23 *\n0 CUSTOM_MESSAGE 1 0 25882 24 x00\n";

const ASKED: &str = "07FF0000000F000000100000651A17";

const TOLD: &str = "07FF00000010000000100000651A1800";

/// ADD_ROSPEC without a ROSpec is no message; CUSTOM_MESSAGE is one that the profile does not have;
/// ERROR_MESSAGE 100 and 109.
const NO_ROSPEC: &str = "04140000000A00000009";

const NOT_ADDED: &str = "04640000001200000009 011F000800640000";

const CUSTOM: &str = "07FF0000000F000000080000651A15";

const NOT_KNOWN: &str = "04640000001200000008 011F0008006D0000";

/// CLOSE_CONNECTION and its response.
const CLOSE: &str = "040E0000000A0000000A";

const CLOSED: &str = "0404000000120000000A 011F000800000000";

/// What a client sends a second after the last, and what the reader says: to the octets, and then to the time
/// that has passed.
struct Row {
    up: &'static str,
    down: &'static [&'static str],
    later: &'static [&'static str],
    closes: bool,
}

static ROWS: [Row; 12] = [
    Row {
        up: CONFIGURE,
        down: &[CONFIGURED],
        later: &[KEEPALIVE],
        closes: false,
    },
    Row {
        up: GET_VERSION,
        down: &[VERSION],
        later: &["043E0000000A00000003"],
        closes: false,
    },
    Row {
        up: NO_ROSPEC,
        down: &[NOT_ADDED],
        later: &["043E0000000A00000004"],
        closes: false,
    },
    Row {
        up: CUSTOM,
        down: &[NOT_KNOWN],
        later: &["043E0000000A00000005"],
        closes: false,
    },
    Row {
        up: ASKED,
        down: &[TOLD],
        later: &["043E0000000A00000006"],
        closes: false,
    },
    // Version 2 is refused until it is agreed, and then version 1; own messages have the version of the last
    // message that was taken.
    Row {
        up: ACK_OF_TWO,
        down: &["0464000000120000000E 011F0008006E0000"],
        later: &["043E0000000A00000007"],
        closes: false,
    },
    Row {
        up: SET_TWO,
        down: &["0839000000120000000C 011F000800000000"],
        later: &["043E0000000A00000008"],
        closes: false,
    },
    Row {
        up: ACK_OF_ONE,
        down: &["0464000000120000000F 011F0008006E0000"],
        later: &["043E0000000A00000009"],
        closes: false,
    },
    Row {
        up: GET_ROSPECS,
        down: &[ROSPECS],
        later: &["083E0000000A0000000A"],
        closes: false,
    },
    Row {
        up: SET_ONE,
        down: &["0839000000120000000D 011F000800000000"],
        later: &["083E0000000A0000000B"],
        closes: false,
    },
    Row {
        up: CLOSE,
        down: &[CLOSED],
        later: &[],
        closes: true,
    },
    Row {
        up: GET_VERSION,
        down: &[],
        later: &[],
        closes: true,
    },
];

/// What a reader says to a client that connects and sends these octets, and whether they close the
/// connection.
fn llrp_live_served(
    alloc: Global,
    now: u64,
    octets: &[u8],
) -> Result<(bool, Vec<Message>), ToolErr> {
    let mut sent: Vec<Message> = Vec::new(alloc);
    let mut reader = LiveReader::new(alloc, Reader::new(alloc, 65_536, 1), Answers::new(alloc));
    reader.happen(now, ReaderIn::Connect, &mut sent)?;
    let has_closed = reader.feed(now, octets, &mut sent)?;
    Ok((has_closed, sent))
}

#[test]
fn llrp_live_example(rt: HostRuntime) -> Result<(), Fail> {
    let close = octets(rt.alloc(), &[CLOSE])?;
    let (has_closed, sent) = llrp_live_served(rt.alloc(), FIRST, close.as_slice())?;
    assert!(rt; has_closed);
    assert!(rt; are_spelled(rt.alloc(), sent.as_slice(), &[ACCEPTED, CLOSED])?);
    Ok(())
}

/// Whether the octets of a row are answered as it says, cut into pieces of this length, and so is the time
/// that has passed.
fn is_served(
    alloc: Global,
    reader: &mut LiveReader,
    now: u64,
    row: &Row,
    cut: usize,
) -> Result<bool, ToolErr> {
    let up = octets(alloc, &[row.up])?;
    let mut sent: Vec<Message> = Vec::new(alloc);
    let mut closes = false;
    for piece in up.as_slice().chunks(cut.max(1)) {
        closes = reader.feed(now, piece, &mut sent)?;
    }
    let mut later: Vec<Message> = Vec::new(alloc);
    reader.happen(now.saturating_add(SECOND), ReaderIn::Tick, &mut later)?;
    let is_said = are_spelled(alloc, sent.as_slice(), row.down)?;
    Ok(is_said && are_spelled(alloc, later.as_slice(), row.later)? && closes == row.closes)
}

/// Whether a connection at the first moment is served as the rows say.
fn are_served(alloc: Global, cut: usize) -> Result<bool, ToolErr> {
    let Ok(answers) = Answers::read(alloc, FILE) else {
        return Ok(false);
    };
    let mut reader = LiveReader::new(alloc, Reader::new(alloc, 65_536, 1), answers);
    let mut sent: Vec<Message> = Vec::new(alloc);
    reader.happen(FIRST, ReaderIn::Connect, &mut sent)?;
    if !are_spelled(alloc, sent.as_slice(), &[ACCEPTED])? {
        return Ok(false);
    }
    let mut now = FIRST;
    for row in &ROWS {
        if !is_served(alloc, &mut reader, now, row, cut)? {
            return Ok(false);
        }
        now = now.saturating_add(SECOND);
    }
    Ok(true)
}

#[test]
fn a_client_is_served_in_real_time_however_it_is_cut(rt: HostRuntime) {
    for cut in [1, 3, 4096] {
        assert!(rt;
            are_served(rt.alloc(), cut) == Ok(true),
            "in pieces of {}",
            cut
        );
    }
}
