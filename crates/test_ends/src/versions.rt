//! The version of a connection.

use llrp_schema::KindSet;
use llrp_texts::messages_of;
use llrp_tree::{MAX_LIMIT, Message};
use llrp_versions::{Heard, Version, hear};
use std::alloc::{AllocError, Global};
use std::test::*;
use test_devices::are_spelled;

/// What a message is.
enum Wanted {
    InUse,
    Other,
    Answered(&'static str, Version),
}

/// A version that is in use, a message, and what it is then.
struct Row {
    version: Version,
    message: &'static [u8],
    wanted: Wanted,
}

/// GET_SUPPORTED_VERSION_RESPONSE is type 56, with the version in use and the greatest;
/// SET_PROTOCOL_VERSION_RESPONSE is type 57. LLRPStatus is parameter 287: M_Success is 0, and
/// M_UnsupportedVersion 110, hexadecimal 6E (LLRP 1.1, sections 17.1 and 17.2).
static ROWS: [Row; 8] = [
    Row {
        version: Version::First,
        message: b"0 GET_SUPPORTED_VERSION 2 5\n",
        wanted: Wanted::Answered(
            "0838 00000014 00000005 01 02 011F000800000000",
            Version::First,
        ),
    },
    Row {
        version: Version::Second,
        message: b"0 GET_SUPPORTED_VERSION 2 5\n",
        wanted: Wanted::Answered(
            "0838 00000014 00000005 02 02 011F000800000000",
            Version::Second,
        ),
    },
    Row {
        version: Version::First,
        message: b"0 SET_PROTOCOL_VERSION 2 6 2\n",
        wanted: Wanted::Answered("0839 00000012 00000006 011F000800000000", Version::Second),
    },
    Row {
        version: Version::Second,
        message: b"0 SET_PROTOCOL_VERSION 1 7 1\n",
        wanted: Wanted::Answered("0439 00000012 00000007 011F000800000000", Version::First),
    },
    Row {
        version: Version::Second,
        message: b"0 SET_PROTOCOL_VERSION 2 8 3\n",
        wanted: Wanted::Answered("0839 00000012 00000008 011F0008006E0000", Version::Second),
    },
    Row {
        version: Version::First,
        message: b"0 KEEPALIVE_ACK 1 9\n",
        wanted: Wanted::InUse,
    },
    Row {
        version: Version::First,
        message: b"0 KEEPALIVE_ACK 2 9\n",
        wanted: Wanted::Other,
    },
    Row {
        version: Version::Second,
        message: b"0 KEEPALIVE_ACK 1 9\n",
        wanted: Wanted::Other,
    },
];

/// What a message is at the beginning of a connection.
fn llrp_versions_at_first(alloc: Global, message: Message) -> Result<Heard, AllocError> {
    let heard = hear(alloc, Version::First, &message)?; // its reply, and the version in use then, or whether it is of this one
    Ok(heard)
}

/// Whether the message of a row is what the row says.
fn is_wanted(alloc: Global, row: &Row) -> Result<bool, Fail> {
    let messages = messages_of(alloc, KindSet::Standard, row.message, MAX_LIMIT)?;
    let mut wanted = false;
    for message in &messages {
        match (hear(alloc, row.version, message)?, &row.wanted) {
            (Heard::InUse, Wanted::InUse) | (Heard::Other, Wanted::Other) => wanted = true,
            (Heard::Answered { reply, version }, Wanted::Answered(frame, then)) => {
                let mut sent = Vec::new(alloc);
                sent.push(reply)?;
                let spelled = are_spelled(alloc, sent.as_slice(), &[*frame])?;
                if spelled && version == *then {
                    wanted = true;
                }
            }
            _ => return Ok(false),
        }
    }
    Ok(wanted)
}

#[test]
fn llrp_versions_example(rt: HostRuntime) -> Result<(), Fail> {
    let alloc = rt.alloc();
    for message in messages_of(
        alloc,
        KindSet::Standard,
        b"0 KEEPALIVE_ACK 1 9\n",
        MAX_LIMIT,
    )? {
        assert!(rt; matches!(llrp_versions_at_first(alloc, message)?, Heard::InUse));
    }
    Ok(())
}

#[test]
fn messages_are_heard_by_their_versions(rt: HostRuntime) -> Result<(), Fail> {
    for row in &ROWS {
        assert!(rt; is_wanted(rt.alloc(), row)?);
    }
    Ok(())
}
