//! What a simulated reader answers to requests outside the profile, octet by octet.

ghost use Rattle.std.specs.Prelude.{◌≤◌};
ghost use Rattle.llrp_tree.specs.declared.TheConstants.{MAX_LIMIT};

use llrp_session::answer;
use llrp_tool::ToolErr;
use llrp_tree::{KindSet, Message, decode_frame_in};
use std::alloc::Global;
use tag_bits::get;
use test_devices::{are_spelled, octets};

/// A request of the whole standard, and the octets of its answer, which are none where it has none.
struct Row {
    request: &'static str,
    answer: &'static [&'static str],
}

const ROWS: [Row; 4] = [
    Row {
        request: "08010000000B0000000500",
        answer: &[
            "080B000000B000000005 011F000800000000",
            "00890034 0002400000000000000000000000 008B000800010000 008D000800000000 008C00090001000101 008C00090002000101",
            "008E001C 0008000000000000000000000000000000000000 00000000",
            "008F0047 00000000 0090003F 0091000800010BB8 0092000F00 0094000A0001000D37FC",
            "01480024 01490020 00000000 00 02 00 00 00009C40 000005DC 000061A8 000061A8 00000000",
            "0147000700 0000",
        ],
    },
    Row {
        request: "0402000000110000000600000000000000",
        answer: &[
            "040C0000003300000006 011F000800000000 00DA000F 00 0008 0000000000000000",
            "00DD0009 80 0001 0000 00DD0009 80 0002 0000",
        ],
    },
    Row {
        request: "082E0000000A00000007",
        answer: &["083800000014000000070202 011F000800000000"],
    },
    Row {
        request: "083E0000000A00000007",
        answer: &[],
    },
];

/// Whether a message is answered with the octets of these texts.
fn is_answered(alloc: Global, message: &Message, wanted: &[&str]) -> Result<bool, ToolErr> {
    match answer(alloc, message)? {
        None => Ok(wanted.is_empty()),
        Some(found) => {
            let messages = Vec::from_array(alloc, [found])?;
            are_spelled(alloc, messages.as_slice(), wanted)
        }
    }
}

#[test]
fn requests_outside_the_profile_are_answered(rt: HostRuntime) -> Result<(), ToolErr> {
    let alloc = rt.alloc();
    for row in ROWS.iter() {
        let frame = octets(alloc, &[row.request])?;
        assert!(rt; frame.len() >= 10);
        assert_eq!(rt; get(frame.as_slice(), 16, 32), frame.len() as u128);
        let Ok(message) = decode_frame_in(alloc, KindSet::Standard, frame.as_slice(), 65_536) else {
            panic!(rt; "not a message: {}", row.request);
        };
        let is_right = is_answered(alloc, &message, row.answer)?;
        assert!(rt; is_right);
    }
    Ok(())
}
