//! Frames that are a message's, and the first faults of frames that are none.

ghost use Rattle.std.specs.Prelude.{◌≤◌, ◌<◌};
ghost use Rattle.llrp_tree.specs.declared.TheConstants.{MAX_LIMIT};

use llrp_tree::{Fault, FrameErr, Message, Reason, decode_frame, encode_into};
use std::alloc::Global;
use std::process::Abort;
use std::test::Fail;
use tag_bits::get;

/// ADD_ROSPEC of a ROSpec with one AISpec.
const ADD_ROSPEC: [u8; 62] = [
    0x08, 0x14, 0x00, 0x00, 0x00, 0x3E, 0x00, 0x00, 0x00, 0x02, 0x00, 0xB1, 0x00, 0x34, 0x00, 0x00,
    0x00, 0x01, 0x00, 0x00, 0x00, 0xB2, 0x00, 0x12, 0x00, 0xB3, 0x00, 0x05, 0x00, 0x00, 0xB6, 0x00,
    0x09, 0x00, 0x00, 0x00, 0x00, 0x00, 0x00, 0xB7, 0x00, 0x18, 0x00, 0x01, 0x00, 0x00, 0x00, 0xB8,
    0x00, 0x09, 0x00, 0x00, 0x00, 0x00, 0x00, 0x00, 0xBA, 0x00, 0x07, 0x00, 0x01, 0x01,
];

/// RO_ACCESS_REPORT with one EPC-96.
const SGTIN_REPORT: [u8; 27] = [
    0x04, 0x3D, 0x00, 0x00, 0x00, 0x1B, 0x00, 0x00, 0x00, 0x01, 0x00, 0xF0, 0x00, 0x11, 0x8D, 0x30,
    0x74, 0x25, 0x7B, 0xF7, 0x19, 0x4E, 0x40, 0x00, 0x00, 0x1A, 0x85,
];

/// What `decode_frame` answers to octets whose length field is their number.
fn decoded(rt: &impl Abort, alloc: Global, frame: &[u8], limit: u32) -> Result<Message, FrameErr>
    requires least { 10 ≤ limit }
    requires most { limit ≤ MAX_LIMIT }
{
    assert!(rt; frame.len() >= 10);
    let length = get(frame, 16, 32);
    assert!(rt; length == frame.len() as u128);
    decode_frame(alloc, frame, limit)
}

/// Octets whose length field is their number are not a message, and this is their first fault.
fn is_faulty(rt: &impl Abort, alloc: Global, frame: &[u8], bit: u64, reason: Reason) {
    let fault = FrameErr::Bad(Fault { bit, reason });
    assert!(rt;
        decoded(rt, alloc, frame, 65536).err() == Some(fault),
        "at {bit}"
    );
}

/// ERROR_MESSAGE with an LLRPStatus over this many nested ParameterErrors.
fn nested_errors(alloc: Global, errors: u8) -> Result<Vec<u8>, Fail>
    requires { errors ≤ 16 }
{
    let mut frame = [0x08, 0x64, 0, 0, 0, 18 + 8 * errors, 0, 0, 0, 9].to_vec(alloc)?;
    frame.extend_from_slice(&[0x01, 0x1F, 0, 8 + 8 * errors, 0, 0, 0, 0])?;
    for error in 0..errors {
        frame.extend_from_slice(&[0x01, 0x21, 0, 8 * (errors - error), 0, 1, 0, 2])?;
    }
    Ok(frame)
}

/// Octets, and their first fault.
struct Row {
    name: &'static str,
    frame: &'static [u8],
    bit: u64,
    reason: Reason,
}

static FAULTY: [Row; 9] = [
    Row {
        name: "a message type outside the set",
        frame: &[0x04, 0x01, 0, 0, 0, 0x0B, 0, 0, 0, 5, 0],
        bit: 6,
        reason: Reason::MessageType,
    },
    Row {
        name: "reserved header bits",
        frame: &[0x24, 0x3E, 0, 0, 0, 0x0A, 0, 0, 0, 7],
        bit: 0,
        reason: Reason::Reserved,
    },
    Row {
        name: "version 3",
        frame: &[0x0C, 0x3E, 0, 0, 0, 0x0A, 0, 0, 0, 7],
        bit: 3,
        reason: Reason::Version,
    },
    Row {
        name: "reserved bits after a field",
        frame: &[
            0x08, 0x03, 0, 0, 0, 0x14, 0, 0, 0, 5, 0x01, 0x00, 0xDC, 0, 9, 1, 0, 0, 3, 0xE8,
        ],
        bit: 81,
        reason: Reason::Reserved,
    },
    Row {
        name: "an octet after the fields of a leaf",
        frame: &[
            0x08, 0x03, 0, 0, 0, 0x15, 0, 0, 0, 5, 0x00, 0x00, 0xDC, 0, 0x0A, 1, 0, 0, 3, 0xE8, 0,
        ],
        bit: 160,
        reason: Reason::Extra,
    },
    Row {
        name: "more bits than octets for them",
        frame: &[
            0x04, 0x3D, 0, 0, 0, 0x15, 0, 0, 0, 1, 0x00, 0xF0, 0, 0x0B, 0x00, 0xF1, 0, 7, 0, 9,
            0xAA,
        ],
        bit: 144,
        reason: Reason::Count,
    },
    Row {
        name: "a status text that is not UTF-8",
        frame: &[
            0x08, 0x64, 0, 0, 0, 0x15, 0, 0, 0, 9, 0x01, 0x1F, 0, 0x0B, 0x00, 0x64, 0, 3, 0x41,
            0xE2, 0x82,
        ],
        bit: 152,
        reason: Reason::Utf8,
    },
    Row {
        name: "two timestamps",
        frame: &[
            0x04, 0x3F, 0, 0, 0, 0x2C, 0, 0, 0, 1, 0x00, 0xF6, 0, 0x22, 0x00, 0x80, 0, 0x0C, 0, 0,
            0, 0, 0, 0, 0, 0, 0x00, 0x81, 0, 0x0C, 0, 0, 0, 0, 0, 0, 0, 0, 0x01, 0x00, 0, 6, 0, 0,
        ],
        bit: 208,
        reason: Reason::TooMany,
    },
    Row {
        name: "no timestamp",
        frame: &[
            0x04, 0x3F, 0, 0, 0, 0x14, 0, 0, 0, 1, 0x00, 0xF6, 0, 0x0A, 0x01, 0x00, 0, 6, 0, 0,
        ],
        bit: 160,
        reason: Reason::Missing,
    },
];

#[test]
fn first_faults(rt: HostRuntime) {
    for row in &FAULTY {
        let fault = FrameErr::Bad(Fault {
            bit: row.bit,
            reason: row.reason,
        });
        let found = decoded(&rt, rt.alloc(), row.frame, 65536).err();
        assert!(rt; found == Some(fault), "at {}", row.name);
    }
}

#[test]
fn message_over_limit(rt: HostRuntime) {
    let fault = FrameErr::Bad(Fault {
        bit: 16,
        reason: Reason::MessageLength,
    });
    let found = decoded(&rt, rt.alloc(), &SGTIN_REPORT, 26).err();
    assert!(rt; found == Some(fault));
}

/// Another octet of ADD_ROSPEC, of its antenna count or a length's last one, and the first fault that it
/// makes.
static ALTERED: [(usize, u8, u64, Reason); 6] = [
    (13, 0x35, 96, Reason::ParamLength),
    (13, 0x33, 320, Reason::ParamLength),
    (23, 0x13, 304, Reason::Short),
    (23, 0x11, 248, Reason::ParamLength),
    (43, 2, 390, Reason::ParamType),
    (58, 0x06, 488, Reason::Short),
];

#[test]
fn faults_of_lengths_and_counts(rt: HostRuntime) -> Result<(), Fail> {
    let alloc = rt.alloc();
    for (place, octet, bit, reason) in &ALTERED {
        let mut frame = ADD_ROSPEC;
        *frame.get_mut(*place).ok_or("place")? = *octet;
        is_faulty(&rt, alloc, &frame, *bit, *reason);
    }
    let mut antenna_count_past_end = ADD_ROSPEC;
    antenna_count_past_end[42] = 0xFF;
    antenna_count_past_end[43] = 0xFF;
    is_faulty(&rt, alloc, &antenna_count_past_end, 336, Reason::Count);
    let mut long_parameter = SGTIN_REPORT;
    long_parameter[13] = 0x12;
    is_faulty(&rt, alloc, &long_parameter, 96, Reason::ParamLength);
    Ok(())
}

#[test]
fn nested_too_deep(rt: HostRuntime) -> Result<(), Fail> {
    let alloc = rt.alloc();
    let deepest = nested_errors(alloc, 15)?;
    assert!(rt; decoded(&rt, alloc, &deepest, 65536).is_ok());
    let too_deep = nested_errors(alloc, 16)?;
    is_faulty(&rt, alloc, &too_deep, 1104, Reason::TooDeep);
    Ok(())
}

/// Octets are a message's, which spells them again.
fn is_spelled_again(rt: &impl Abort, alloc: Global, frame: &[u8]) -> Result<(), Fail> {
    match decoded(rt, alloc, frame, 65536) {
        Ok(message) => {
            let mut out = Vec::new(alloc);
            assert!(rt; encode_into(alloc, &message, &mut out, 65536) == Ok(()));
            assert!(rt; out.as_slice() == frame);
            Ok(())
        }
        Err(error) => Err(Fail::from(error)),
    }
}

/// A report whose tag has its children in an order of its own, and the event that a ROSpec started.
static SIBLINGS: [u8; 37] = [
    0x04, 0x3D, 0, 0, 0, 0x25, 0, 0, 0, 2, 0x00, 0xF0, 0, 0x1B, 0x86, 0xC4, 0x90, 0, 0, 0, 0, 0x8D,
    0x30, 0x74, 0x25, 0x7B, 0xF7, 0x19, 0x4E, 0x40, 0x00, 0x00, 0x1A, 0x85, 0x81, 0, 1,
];

static STARTED: [u8; 39] = [
    0x08, 0x3F, 0, 0, 0, 0x27, 0, 0, 0, 2, 0x00, 0xF6, 0, 0x1D, 0x00, 0x80, 0, 0x0C, 0, 0, 0, 0, 0,
    0, 0, 5, 0x00, 0xF9, 0, 0x0D, 0, 0, 0, 0, 1, 0, 0, 0, 0,
];

#[test]
fn frames_both_ways_with_ample_memory(rt: HostRuntime) -> Result<(), Fail> {
    let alloc = rt.alloc();
    is_spelled_again(&rt, alloc, &ADD_ROSPEC)?;
    is_spelled_again(&rt, alloc, &SGTIN_REPORT)?;
    is_spelled_again(&rt, alloc, &SIBLINGS)?;
    is_spelled_again(&rt, alloc, &STARTED)?;
    let nested = nested_errors(alloc, 7)?;
    is_spelled_again(&rt, alloc, &nested)
}
